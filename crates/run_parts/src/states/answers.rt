//! What an ended run answers.
ghost use Rattle.std.specs.Prelude.{◌≡◌};
ghost use Rattle.network.specs.Refusals.{outcome};
ghost use Rattle.plan_parts.specs.ReserveView.{filled_in, order_in, size_in};
ghost use Rattle.run_parts.specs.Histories.Stage.{ended};
ghost use Rattle.run_parts.specs.Outcomes.{entry_outcome};
ghost use Rattle.run_parts.specs.Views.{GoesOn};

use super::Ended;
use crate::kinds::Entry;
use crate::tables::{checked_place, entry_at};
use network::Refusal;

impl<'r, E: Entry> Ended<'r, E> {
    /// How many pivots were made.
    pub fn pivots(&self) -> u16
        ensures { result ≡ self.now.pivots }
    {
        self.pivots
    }

    /// The entry of two stations, the same one twice for its diagonal, or none if it is empty; without a place it is.
    /// Refused by [`Refusal::OutOfRange`] for the first station or the second, and [`Refusal::TableTooShort`].
    pub fn entry(&self, entries: &[E], marks: &[u8], a: u16, b: u16) -> Result<Option<E>, Refusal>
        ensures value { outcome result ≡ entry_outcome (filled_in self.now.reserve.now) (size_in self.now.reserve.now) (order_in self.now.reserve.now) entries.now marks.now a b }
        ensures history { GoesOn E.kind self.now.reserve.now ended self.now.pivots entries.now marks.now self.now.pivots entries.now marks.now (λ sq. sq) (λ put. put) }
    {
        let place = checked_place(self.reserve, entries, marks, a, b)?;
        Ok(entry_at(entries, marks, place))
    }
}
