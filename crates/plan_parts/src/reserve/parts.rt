//! The parts of a reserve: the filled pairs by positions, and where each column begins.
//! The pairs come by stations; by positions, a rank in a column is one count over a row.
ghost use Rattle.std.specs.Prelude.{◌≡◌, ◌<◌, ◌≤◌, slice_index};
ghost use Rattle.elimination.specs.Graphs.{Simple, pairs_at, union};
ghost use Rattle.elimination.specs.View.{graph, listed};
ghost use Rattle.plan_parts.specs.Reserves.{Begins, by_position};

use elimination::{EliminationOrder, PairSet};

/// Puts the pairs of a station, at position `i` of the order, into `placed`, by positions: a few word steps for each.
fn place_pairs(
    placed: &mut PairSet,
    pairs: &PairSet,
    order: &EliminationOrder,
    i: usize,
    station: u16,
)
    requires position { i < order.now.size }
    requires station { slice_index (listed order.now) i ≡ station }
    requires known { station < order.now.size }
    requires simple { Simple order.now.size (graph pairs.now) }
    ensures { graph placed.new ≡ union (graph placed.old) (pairs_at (by_position (graph pairs.now) (listed order.now)) i) }
{
    for b in pairs.members(station as usize) {
        placed.insert(i, order.position(b as u16) as usize);
    }
}

/// The pairs by positions in the order: a few word steps for each.
pub(crate) fn by_positions(pairs: &PairSet, order: &EliminationOrder) -> PairSet
    requires { Simple order.now.size (graph pairs.now) }
    ensures { graph result ≡ by_position (graph pairs.now) (listed order.now) }
{
    let mut placed = PairSet::empty();
    for (i, station) in order.stations().iter().enumerate() {
        place_pairs(&mut placed, pairs, order, i, *station);
    }
    placed
}

/// Where each column begins, and where the last one ends: eight word steps for each column.
pub(crate) fn column_starts(pairs: &PairSet, n: usize) -> [u32; 513]
    requires { n ≤ 512 }
    ensures { Begins (graph pairs.now) n result }
{
    let mut starts = [0; 513];
    for j in 0..n {
        starts[j + 1] = starts[j] + 1 + pairs.count_between(j, j + 1, n);
    }
    starts
}
