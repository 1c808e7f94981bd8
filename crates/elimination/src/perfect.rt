//! Perfect orders: orders that close a graph, and so fill nothing outside it.
//! Station after station is taken whose neighbours are pairwise neighbours: at most n tests for each of n stations.
ghost use Rattle.std.specs.Prelude.{◌≡◌, ℕ, ◌<◌, ◌≤◌, true, List, take, Some};
ghost use Rattle.elimination.specs.Dropping.{marked};
ghost use Rattle.elimination.specs.Elimination.{fill, filled};
ghost use Rattle.elimination.specs.Graphs.{Graph, Simple, Sub, closed, spare};
ghost use Rattle.elimination.specs.Orders.{Order, last_of};
ghost use Rattle.elimination.specs.Theorems.{Perfect};
ghost use Rattle.elimination.specs.View.{graph, listed};

use crate::dropping::is_spare;
use crate::order::EliminationOrder;
use crate::pair_set::PairSet;

// `n ≤ 512` and `Simple n (graph pairs)` relate a set and a number of stations: `Elimination` keeps them for its callers, and what is below it is about any pairs.
/// A marked station whose neighbours are pairwise neighbours; there is one.
fn simplicial_station(pairs: &PairSet, left: &[bool; 512], n: usize) -> usize
    requires few { n ≤ 512 }
    requires one { (v : ℕ) × (v < n) × (marked left.now v ≡ true) × (spare 512 (graph pairs.now) v v ≡ true) }
    ensures below { result < n }
    ensures left { marked left.now result ≡ true }
    ensures simplicial { spare 512 (graph pairs.now) result result ≡ true }
{
    let found = (0..n).find(|v| left[*v] && is_spare(pairs, *v, *v));
    found.unwrap()
}

/// Stations of an order that closes the pairs and ends in `last`. At the end no pair is left.
fn perfect_stations(pairs: &mut PairSet, n: usize, last: u16) -> [u16; 512]
    requires few { n ≤ 512 }
    requires known { last < n }
    requires simple { Simple n (graph pairs.old) }
    requires perfect { Perfect n (graph pairs.old) }
    ensures order { Order n (take n result) }
    ensures closed { closed (graph pairs.old) (take n result) ≡ true }
    ensures ends { last_of (take n result) ≡ Some last }
{
    let mut stations = [0; 512];
    // A mark for each station, in fixed memory.
    let mut left = [true; 512];
    left[last as usize] = false;
    let before_last = &mut stations[..n - 1];
    for place in before_last.iter_mut() {
        let v = simplicial_station(pairs, &left, n);
        *place = v as u16;
        left[v] = false;
        pairs.isolate(v);
    }
    stations[n - 1] = last;
    stations
}

/// An order that closes the pairs and ends in `last`, for pairs that some order closes.
/// Of the filled pairs of any order: it fills nothing that that order does not.
pub fn perfect_order(pairs: &PairSet, size: u16, last: u16) -> EliminationOrder
    requires few { size ≤ 512 }
    requires known { last < size }
    requires simple { Simple size (graph pairs.now) }
    requires perfect { Perfect size (graph pairs.now) }
    ensures size { result.size ≡ size }
    ensures closed { closed (graph pairs.now) (listed result) ≡ true }
    ensures ends { last_of (listed result) ≡ Some last }
    ensures within { (C : Graph) (xs : List ℕ) → Simple size C → graph pairs.now ≡ filled C xs → Sub (fill C (listed result)) (fill C xs) }
{
    let mut work = *pairs;
    let stations = perfect_stations(&mut work, size as usize, last);
    EliminationOrder::of(&stations[..size as usize])
}
