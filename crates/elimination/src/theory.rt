//! The theory of elimination: each theorem is the contract of a function, so that nothing here stands without its proof.
//! The statements are those of specs/Theorems.antt; each function computes nothing.
ghost use Rattle.elimination.specs.Theorems.{AnyStationLast, EndVertexLaw, FilledByPaths, FilledIsTheLeastClosed, LessFillLeavesASparePair, MinimalByTest, OrdersAreListed, OrdersHaveNoFault, PerfectFillsWithin, SeatsWithoutNewFill, SparePairsCanGo, WithoutSpareFillMinimal};

/// The check of orders tells no fault exactly of lists that name each station once.
pub fn orders_have_no_fault()
    ensures { OrdersHaveNoFault }
{}

/// The list of all orders has exactly the orders.
pub fn orders_are_listed()
    ensures { OrdersAreListed }
{}

/// The test over all orders finds exactly the minimal ones.
pub fn minimal_by_test()
    ensures { MinimalByTest }
{}

/// The filled pairs contain the couplings, are closed under the order, and are the least such pairs.
pub fn filled_is_the_least_closed()
    ensures { FilledIsTheLeastClosed }
{}

/// A pair is filled exactly if a path of couplings through stations earlier than both joins it.
pub fn filled_by_paths()
    ensures { FilledByPaths }
{}

/// Outside any clique, a graph that an order closes has a station whose neighbours are pairwise neighbours.
pub fn end_vertex()
    ensures { EndVertexLaw }
{}

/// An order whose filled pairs have no spare fill pair is minimal.
pub fn without_spare_fill_minimal()
    ensures { WithoutSpareFillMinimal }
{}

/// Where some order fills a proper part, some fill pair that it lacks is spare.
pub fn less_fill_leaves_a_spare_pair()
    ensures { LessFillLeavesASparePair }
{}

/// A graph that some order closes is closed by some order without a spare pair too.
pub fn spare_pairs_can_go()
    ensures { SparePairsCanGo }
{}

/// An order under which a graph that contains the couplings is closed fills nothing outside it.
pub fn perfect_fills_within()
    ensures { PerfectFillsWithin }
{}

/// A graph that some order closes is closed by an order that ends in any given station.
pub fn any_station_last()
    ensures { AnyStationLast }
{}

/// Any station can be seated last with no new fill.
pub fn seats_without_new_fill()
    ensures { SeatsWithoutNewFill }
{}
