//! The couplings of one network, an order of its stations, and the filled pairs of that order, kept together.
//! Pairs that are not those of the order cannot be kept.
ghost use Rattle.std.specs.Prelude.{◌≤◌};
ghost use Rattle.elimination.specs.Elimination.{FilledPairs};
ghost use Rattle.elimination.specs.Graphs.{Below, Irreflexive, Symmetric};
ghost use Rattle.elimination.specs.View.{graph, listed};

use crate::order::EliminationOrder;
use crate::pair_set::PairSet;

mod calls;
mod orders;

/// An order of the stations of one network, with its filled pairs.
#[derive(Drop)]
pub struct Elimination {
    couplings: PairSet,
    order: EliminationOrder,
    pairs: PairSet,
    ghost some: { 1 ≤ order.size },
    ghost symmetric: { Symmetric (graph couplings) },
    ghost irreflexive: { Irreflexive (graph couplings) },
    ghost below: { Below (graph couplings) order.size },
    ghost filled: { FilledPairs (graph pairs) (graph couplings) (listed order) },
}
