//! New orders from old ones: with a minimal fill, or with a given station last, and never with new fill.
//! Each is a perfect order of filled pairs, or of what is left of them.
ghost use Rattle.std.specs.Prelude.{◌≡◌, ◌<◌, ◌≤◌, Some};
ghost use Rattle.elimination.specs.Dropping.{Ready, Tight};
ghost use Rattle.elimination.specs.Elimination.{Minimal, fill};
ghost use Rattle.elimination.specs.Graphs.{Sub};
ghost use Rattle.elimination.specs.Orders.{last_of};
ghost use Rattle.elimination.specs.View.{graph, listed};

use super::Elimination;
use crate::dropping::drop_spare;
use crate::order::EliminationOrder;
use crate::pair_set::PairSet;
use crate::perfect::perfect_order;

/// The pairs without spare fill pairs.
fn without_spare(couplings: &PairSet, pairs: &PairSet, n: usize) -> PairSet
    requires few { n ≤ 512 }
    requires ready { Ready n (graph couplings.now) (graph pairs.now) }
    ensures ready { Ready n (graph couplings.now) (graph result) }
    ensures within { Sub (graph result) (graph pairs.now) }
    ensures tight { Tight n (graph couplings.now) (graph result) }
{
    let mut work = *pairs;
    drop_spare(&mut work, couplings, n);
    work
}

impl Elimination {
    /// A minimal order within the fill of this one: spare fill pairs are dropped until none is left, and a perfect order of the rest is taken.
    pub fn tightened(&self) -> EliminationOrder
        ensures size { result.size ≡ self.now.order.size }
        ensures within { Sub (fill (graph self.now.couplings) (listed result)) (fill (graph self.now.couplings) (listed self.now.order)) }
        ensures minimal { Minimal self.now.order.size (graph self.now.couplings) (listed result) }
    {
        let size = self.order.size();
        // Any station can be last: the one that is stays.
        let last = self.order.station(size - 1);
        let tight = without_spare(&self.couplings, &self.pairs, size as usize);
        perfect_order(&tight, size, last)
    }

    /// An order that ends in a given station and fills nothing that this one does not: a perfect order of its filled pairs.
    pub fn seated(&self, station: u16) -> EliminationOrder
        requires { station < self.now.order.size }
        ensures size { result.size ≡ self.now.order.size }
        ensures ends { last_of (listed result) ≡ Some station }
        ensures within { Sub (fill (graph self.now.couplings) (listed result)) (fill (graph self.now.couplings) (listed self.now.order)) }
    {
        perfect_order(&self.pairs, self.order.size(), station)
    }
}
