//! How a run starts, takes entries, and begins to make pivots.
ghost use Rattle.std.specs.Prelude.{◌≡◌, false, length, IfOk, Ok};
ghost use Rattle.network.specs.Refusals.{outcome};
ghost use Rattle.plan_parts.specs.ReserveView.{filled_in, order_in, size_in};
ghost use Rattle.run_parts.specs.Histories.Stage.{loading, running};
ghost use Rattle.run_parts.specs.Outcomes.{cleared, put_outcome, put_places, put_square, roomy, stored};
ghost use Rattle.run_parts.specs.Places.{place_in, places_in};
ghost use Rattle.run_parts.specs.Square.{empty};
ghost use Rattle.run_parts.specs.Views.{GoesOn, History, Hold, Turns, loaded};

use super::{Loading, Running};
use crate::kinds::Entry;
use crate::tables::{EMPTY, HELD, check_room, checked_place};
use network::Refusal;
use plan_parts::Reserve;
use std::marker::PhantomData;

/// Starts a run on a reserve: zeroes the marks of its places, one step for each. The entries only show the length of
/// their table. Refused by [`Refusal::TableTooShort`].
#[tactic(auto, using(crate::proofs::Zeroes::filled_marks, crate::proofs::Calls::starts, crate::proofs::Calls::empty_agrees))]
pub fn start<'r, E: Entry>(
    reserve: &'r Reserve,
    entries: &[E],
    marks: &mut [u8],
) -> Result<Loading<'r, E>, Refusal>
    ensures value { loaded result ≡ roomy (places_in reserve.now) (length entries.now) (length marks.old) (Ok reserve.now) }
    ensures marks { marks.new ≡ cleared (loaded result) (places_in reserve.now) marks.old }
    ensures history { IfOk result (λ l. History E.kind l.reserve.now loading 0 empty (λ i j. false) × Hold l.reserve.now entries.now marks.new empty) }
{
    check_room(reserve, entries, marks)?;
    marks[..reserve.length()].fill(EMPTY);
    Ok(Loading {
        reserve,
        kind: PhantomData,
    })
}

impl<'r, E: Entry> Loading<'r, E> {
    /// Stores an entry for two stations, the same one twice for its diagonal, and marks it as held.
    /// Refused by [`Refusal::OutOfRange`] for the first station or the second, [`Refusal::TableTooShort`], and
    /// [`Refusal::NoPlace`] where the two have no place.
    pub fn put(
        &self,
        entries: &mut [E],
        marks: &mut [u8],
        a: u16,
        b: u16,
        value: E,
    ) -> Result<(), Refusal>
        ensures value { outcome result ≡ put_outcome (filled_in self.now.reserve.now) (size_in self.now.reserve.now) (order_in self.now.reserve.now) (length entries.old) (length marks.old) a b }
        ensures entries { entries.new ≡ stored (outcome result) (place_in self.now.reserve.now a b) value entries.old }
        ensures marks { marks.new ≡ stored (outcome result) (place_in self.now.reserve.now a b) 1 marks.old }
        ensures history { GoesOn E.kind self.now.reserve.now loading 0 entries.old marks.old 0 entries.new marks.new (put_square (order_in self.now.reserve.now) a b value (outcome result)) (put_places (order_in self.now.reserve.now) a b (outcome result)) }
    {
        let place = checked_place(self.reserve, entries, marks, a, b)?;
        let p = place.ok_or(Refusal::NoPlace(a.max(b)))?;
        entries[p] = value;
        marks[p] = HELD;
        Ok(())
    }

    /// Ends loading: from here on the run makes pivots.
    #[tactic(auto, using(crate::proofs::Calls::begins))]
    pub fn begin(self) -> Running<'r, E>
        ensures reserve { result.reserve.now ≡ self.entry.reserve.now }
        ensures made { result.made ≡ 0 }
        ensures history { Turns E.kind self.entry.reserve.now loading 0 running result.made }
    {
        Running {
            reserve: self.reserve,
            made: 0,
            kind: PhantomData,
        }
    }
}
