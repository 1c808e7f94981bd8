//! Joining every two members of a row, in the words.
//! On the way the rows do not go both ways, so that this is not a call of the set.
ghost use Rattle.std.specs.Prelude.{◌≡◌, ℕ, ◌<◌, false};
ghost use Rattle.elimination.specs.Graphs.{around, union};
ghost use Rattle.elimination.specs.Words.{row_taken, rows, struck};

use super::RowMembers;
use crate::words::{row_of, strike, take_row};

/// Joins `a` to the members of row `v`, but not to itself: eight word steps.
fn join_row(words: &mut [u64; 4096], a: usize, v: usize)
    requires one { a < 512 }
    requires two { v < 512 }
    ensures { rows words.new ≡ struck (row_taken (rows words.old) a v) a a }
{
    take_row(words, a, v);
    strike(words, a, a);
}

/// Joins every two members of row `v`: eight word steps for each member.
pub(super) fn join_rows(words: &mut [u64; 4096], v: usize)
    requires one { v < 512 }
    requires irreflexive { (a : ℕ) → rows words.old a a ≡ false }
    ensures { rows words.new ≡ union (rows words.old) (around (rows words.old) v) }
{
    let row = row_of(words, v);
    for a in RowMembers::of(row) {
        join_row(words, a, v);
    }
}
