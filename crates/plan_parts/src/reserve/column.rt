//! The positions that have a place in one column of a reserve, one after another.
//! A walk keeps the position where it goes on, and the reserve finds the next one.
ghost use Rattle.std.specs.Iterator.{item_count};
ghost use Rattle.plan_parts.specs.ColumnWalk.{Walks, left_in};

use super::Reserve;

/// The positions not below `from` that have a place in a column, by rising position.
#[derive(Drop)]
pub struct Column<'a> {
    pub(super) reserve: &'a Reserve,
    pub(super) column: usize,
    pub(super) from: usize,
}

impl Iterator for Column<'_> {
    type Item = usize;

    ghost next_gives = { Walks };

    ghost remaining = { item_count left_in };

    #[tactic(auto, using(crate::proofs::ColumnSteps::left_first, crate::proofs::ColumnSteps::left_none))]
    fn next(&mut self) -> Option<usize> {
        let i = self.reserve.next_in_column(self.column, self.from)?;
        self.from = i + 1;
        Some(i)
    }
}
