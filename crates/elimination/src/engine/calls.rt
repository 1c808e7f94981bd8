//! How an elimination is made, and what its filled pairs tell: the elimination tree and its counts.
ghost use Rattle.std.specs.Prelude.{◌≡◌, ◌<◌, ◌≤◌};
ghost use Rattle.elimination.specs.Elimination.{count, filled, parent, total};
ghost use Rattle.elimination.specs.Graphs.{Simple};
ghost use Rattle.elimination.specs.View.{graph, listed};

use super::Elimination;
use crate::filling::filled_pairs;
use crate::order::EliminationOrder;
use crate::pair_set::PairSet;
use crate::tree::{count_beyond, later_neighbours, parent_in};

impl Elimination {
    /// The elimination of an order of stations with these couplings: it makes the filled pairs.
    pub fn of(couplings: PairSet, order: EliminationOrder) -> Elimination
        requires some { 1 ≤ order.size }
        requires simple { Simple order.size (graph couplings) }
        ensures couplings { result.couplings ≡ couplings }
        ensures order { result.order ≡ order }
        ensures filled { graph result.pairs ≡ filled (graph couplings) (listed order) }
    {
        let pairs = filled_pairs(&couplings, &order);
        Elimination {
            couplings,
            order,
            pairs,
        }
    }

    /// The couplings.
    pub fn couplings(&self) -> &PairSet
        ensures { result.now ≡ self.now.couplings }
    {
        &self.couplings
    }

    /// The order.
    pub fn order(&self) -> &EliminationOrder
        ensures { result.now ≡ self.now.order }
    {
        &self.order
    }

    /// The filled pairs of the order.
    pub fn pairs(&self) -> &PairSet
        ensures value { result.now ≡ self.now.pairs }
        ensures filled { graph result.now ≡ filled (graph self.now.couplings) (listed self.now.order) }
    {
        &self.pairs
    }

    /// The parent of a station: the earliest later station with which it forms a filled pair, else the last one of the order; the last one has none.
    pub fn parent(&self, station: u16) -> Option<u16>
        requires { station < self.now.order.size }
        ensures { result ≡ parent (graph self.now.couplings) (listed self.now.order) station }
    {
        parent_in(&self.pairs, &self.order, station)
    }

    /// How many filled pairs a station forms with later ones.
    pub fn count(&self, station: u16) -> u16
        requires { station < self.now.order.size }
        ensures { result ≡ count (graph self.now.couplings) (listed self.now.order) station }
    {
        later_neighbours(&self.pairs, &self.order, station)
    }

    /// How many fill pairs the order has.
    pub fn total(&self) -> u32
        ensures { result ≡ total self.now.order.size (graph self.now.couplings) (listed self.now.order) }
    {
        let size = self.order.size() as usize;
        count_beyond(&self.couplings, &self.pairs, size)
    }
}
