//! How a run makes its pivots, one for each step, and ends.
ghost use Rattle.std.specs.Prelude.{◌≡◌, ◌+◌, length, if◌then◌else◌};
ghost use Rattle.network.specs.Refusals.{outcome};
ghost use Rattle.plan_parts.specs.ReserveView.{filled_in, size_in};
ghost use Rattle.run_parts.specs.Histories.Stage.{ended, running};
ghost use Rattle.run_parts.specs.Outcomes.{is_made, step_entries, step_marks, step_outcome, step_square};
ghost use Rattle.run_parts.specs.Places.{places_in};
ghost use Rattle.run_parts.specs.Views.{GoesOn, Turns, table_square};

use super::{Ended, Running, Step};
use crate::kinds::Entry;
use crate::pivots::make_pivot;
use crate::tables::check_room;
use network::Refusal;
use std::marker::PhantomData;

impl<'r, E: Entry> Running<'r, E> {
    /// Makes the next pivot in the order, or says that all are made. Refused by [`Refusal::TableTooShort`], and by
    /// [`Refusal::UnusablePivot`] where it is empty or unusable. About the square of the length of the pivot's column.
    #[tactic(auto, using(crate::proofs::Calls::entries_after, crate::proofs::Calls::marks_after, crate::proofs::Calls::steps, crate::proofs::Calls::pivot_agrees))]
    pub fn step(&mut self, entries: &mut [E], marks: &mut [u8]) -> Result<Step, Refusal>
        ensures reserve { self.new.reserve.now ≡ self.old.reserve.now }
        ensures value { outcome result ≡ step_outcome E.kind (places_in self.old.reserve.now) (length entries.old) (length marks.old) (size_in self.old.reserve.now) self.old.made (table_square self.old.reserve.now entries.old marks.old self.old.made self.old.made) }
        ensures made { self.new.made ≡ (if is_made (outcome result) then self.old.made + 1 else self.old.made) }
        ensures entries { entries.new ≡ step_entries E.kind (filled_in self.old.reserve.now) (size_in self.old.reserve.now) self.old.made (outcome result) entries.old marks.old }
        ensures marks { marks.new ≡ step_marks E.kind (filled_in self.old.reserve.now) (size_in self.old.reserve.now) self.old.made (outcome result) entries.old marks.old }
        ensures history { GoesOn E.kind self.old.reserve.now running self.old.made entries.old marks.old self.new.made entries.new marks.new (step_square E.kind self.old.made (outcome result)) (λ put. put) }
    {
        check_room(self.reserve, entries, marks)?;
        if self.made == self.reserve.size() {
            return Ok(Step::Finished);
        }
        make_pivot(self.reserve, entries, marks, self.made)?;
        self.made += 1;
        Ok(Step::Made)
    }

    /// Ends the run, with the number of pivots made.
    #[tactic(auto, using(crate::proofs::Calls::finishes))]
    pub fn finish(self) -> Ended<'r, E>
        ensures reserve { result.reserve.now ≡ self.entry.reserve.now }
        ensures pivots { result.pivots ≡ self.entry.made }
        ensures history { Turns E.kind self.entry.reserve.now running self.entry.made ended result.pivots }
    {
        Ended {
            reserve: self.reserve,
            pivots: self.made,
            kind: PhantomData,
        }
    }
}
