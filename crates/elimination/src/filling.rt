//! The filled pairs of an order: stations leave in turn, and the pairs that each then has are kept.
//! For f filled pairs of n stations it takes about f·n/64 word steps.
ghost use Rattle.std.specs.Prelude.{◌≡◌, ℕ, ◌<◌, false};
ghost use Rattle.elimination.specs.Elimination.{after, filled};
ghost use Rattle.elimination.specs.Graphs.{Simple, pairs_at, union};
ghost use Rattle.elimination.specs.View.{graph, listed};

use crate::order::EliminationOrder;
use crate::pair_set::PairSet;

/// Puts the pairs of `v` in `work` into `gathered`.
fn keep_pairs(gathered: &mut PairSet, work: &PairSet, v: usize)
    requires { v < 512 }
    ensures { graph gathered.new ≡ union (graph gathered.old) (pairs_at (graph work.now) v) }
{
    for a in work.members(v) {
        gathered.insert(v, a);
    }
}

/// The station `v` leaves: its neighbours' rows take its row, and its own pairs go.
fn leave(work: &mut PairSet, v: usize)
    requires one { v < 512 }
    requires irreflexive { (a : ℕ) → graph work.old a a ≡ false }
    ensures { graph work.new ≡ after (graph work.old) v }
{
    work.join_neighbours(v);
    work.isolate(v);
}

/// The pairs that each station has when it leaves, kept while all leave in turn. It uses the pairs up.
fn gather(pairs: PairSet, order: &EliminationOrder) -> PairSet
    requires { Simple order.now.size (graph pairs) }
    ensures { graph result ≡ filled (graph pairs) (listed order.now) }
{
    let mut work = pairs;
    let mut gathered = PairSet::empty();
    for station in order.stations() {
        let v = *station as usize;
        keep_pairs(&mut gathered, &work, v);
        leave(&mut work, v);
    }
    gathered
}

/// The filled pairs of an order of stations with these couplings: the pairs that each station has when it leaves.
pub fn filled_pairs(couplings: &PairSet, order: &EliminationOrder) -> PairSet
    requires { Simple order.now.size (graph couplings.now) }
    ensures { graph result ≡ filled (graph couplings.now) (listed order.now) }
{
    gather(*couplings, order)
}
