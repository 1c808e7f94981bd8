//! What the elimination tree of an order and its counts are, for any pairs in place of the filled ones.
//! Functions and no methods of an elimination, since they ask nothing of the couplings. Later neighbours are walked over once.
ghost use Rattle.std.specs.Prelude.{◌≡◌, ℕ, ◌<◌, ◌≤◌, if◌then◌else◌, find, length, slice_index};
ghost use Rattle.elimination.specs.Elimination.{beyond, parent_among, later_neighbour_count, pairs_below};
ghost use Rattle.elimination.specs.Graphs.{Sub};
ghost use Rattle.elimination.specs.View.{graph, listed};

use crate::order::EliminationOrder;
use crate::pair_set::PairSet;

/// The first of some stations that is a neighbour of a given one. It looks at each at most once.
fn first_neighbour(pairs: &PairSet, station: u16, among: &[u16]) -> Option<u16>
    requires one { station < 512 }
    requires known { (k : ℕ) → k < length among.now → slice_index among.now k < 512 }
    ensures { result ≡ find (graph pairs.now station) among.now }
{
    among
        .iter()
        .copied()
        .find(|other| pairs.joins(station as usize, *other as usize))
}

/// The earliest later neighbour of a station, else the last station; the last one has none.
pub fn parent_in(pairs: &PairSet, order: &EliminationOrder, station: u16) -> Option<u16>
    requires { station < order.now.size }
    ensures { result ≡ parent_among (graph pairs.now) (listed order.now) station }
{
    let later = order.later(station);
    first_neighbour(pairs, station, later).or(later.last().copied())
}

/// One where two stations are a pair, else none.
fn pairing(pairs: &PairSet, station: u16, other: u16) -> u16
    requires one { station < 512 }
    requires two { other < 512 }
    ensures { result ≡ (if graph pairs.now station other then 1 else 0) }
{
    u16::from(pairs.joins(station as usize, other as usize))
}

/// How many later neighbours a station has. It looks at each later station once.
pub fn later_neighbours(pairs: &PairSet, order: &EliminationOrder, station: u16) -> u16
    requires { station < order.now.size }
    ensures { result ≡ later_neighbour_count (graph pairs.now) (listed order.now) station }
{
    order
        .later(station)
        .iter()
        .map(|other| pairing(pairs, station, *other))
        .sum()
}

/// How many pairs of stations below `n` are in `pairs` and not in `couplings`, which lie in them: sixteen word steps for each station.
#[tactic(auto, using(crate::proofs::Afterwards::pairs_split, crate::proofs::Afterwards::pairs_within))]
pub fn count_beyond(couplings: &PairSet, pairs: &PairSet, n: usize) -> u32
    requires few { n ≤ 512 }
    requires within { Sub (graph couplings.now) (graph pairs.now) }
    ensures { result ≡ pairs_below n (beyond (graph pairs.now) (graph couplings.now)) }
{
    pairs.count_pairs(n) - couplings.count_pairs(n)
}
