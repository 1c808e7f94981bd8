//! The members of one row of a set of pairs, one after another.
//! They are copied out of the set, so that it may change as they come.
ghost use Rattle.std.specs.Prelude.{◌≡◌};
ghost use Rattle.std.specs.Iterator.{YieldsFirst, item_count};
ghost use Rattle.elimination.specs.View.{coming};
ghost use Rattle.elimination.specs.Words.{in_row, members_from};

use crate::words::first_in;

/// The members of one row that are still to come, rising.
#[derive(Clone, Copy)]
pub struct RowMembers {
    row: [u64; 8],
    from: usize,
}

impl RowMembers {
    /// All members of a row.
    pub(crate) fn of(row: [u64; 8]) -> RowMembers
        ensures { coming result ≡ members_from (in_row row) 0 }
    {
        RowMembers { row, from: 0 }
    }
}

impl Iterator for RowMembers {
    type Item = usize;

    ghost next_gives = { YieldsFirst coming };

    ghost remaining = { item_count coming };

    /// At most eight word steps.
    fn next(&mut self) -> Option<usize> {
        let member = first_in(&self.row, self.from)?;
        self.from = member + 1;
        Some(member)
    }
}
