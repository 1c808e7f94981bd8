//! The two tables that a run is lent: entries, and beside each its mark, not an `Option<E>`, as docs/RULES.md has it.
//! Places are numbered by the reserve. The calls below read; `Tables` in pivots.rt, which a pivot writes, holds both.
ghost use Rattle.std.specs.Prelude.{◌≡◌, length, IfOk, Ok, OnOk};
ghost use Rattle.network.specs.Refusals.{outcome};
ghost use Rattle.plan_parts.specs.ReserveView.{filled_in, order_in, size_in};
ghost use Rattle.run_parts.specs.Outcomes.{checked_place_of, roomy};
ghost use Rattle.run_parts.specs.Places.{places_in};
ghost use Rattle.run_parts.specs.Tables.{Room, Within, entry_of};

use crate::kinds::Entry;
use network::Refusal;
use plan_parts::Reserve;

/// The mark of an empty place.
pub(crate) const EMPTY: u8 = 0;

/// The mark that a run writes at a held place; any mark but `EMPTY` means held.
pub(crate) const HELD: u8 = 1;

// Reserve, entries and marks stay parameters: public calls lend slices, and `start` and `entry` lend them to be read.

/// Refuses tables that are shorter than the reserve.
pub(crate) fn check_room<E: Entry>(
    reserve: &Reserve,
    entries: &[E],
    marks: &[u8],
) -> Result<(), Refusal>
    ensures value { outcome result ≡ roomy (places_in reserve.now) (length entries.now) (length marks.now) (Ok tt) }
    ensures room { OnOk result (Room (filled_in reserve.now) (size_in reserve.now) entries.now marks.now) }
{
    let need = reserve.length();
    if entries.len() < need || marks.len() < need {
        return Err(Refusal::TableTooShort(need));
    }
    Ok(())
}

/// The place of two stations, if they have one, once both stations are known and the tables have room.
#[tactic(auto, using(crate::proofs::Calls::placed_within))]
pub(crate) fn checked_place<E: Entry>(
    reserve: &Reserve,
    entries: &[E],
    marks: &[u8],
    a: u16,
    b: u16,
) -> Result<Option<usize>, Refusal>
    ensures value { outcome result ≡ checked_place_of (filled_in reserve.now) (size_in reserve.now) (order_in reserve.now) (length entries.now) (length marks.now) a b }
    ensures within { IfOk result (λ place. Within (length entries.now) (length marks.now) place) }
{
    let place = reserve.place(a, b)?;
    check_room(reserve, entries, marks)?;
    Ok(place)
}

/// What the tables hold at a place, if there is one.
pub(crate) fn entry_at<E: Entry>(entries: &[E], marks: &[u8], place: Option<usize>) -> Option<E>
    requires { Within (length entries.now) (length marks.now) place }
    ensures { result ≡ entry_of entries.now marks.now place }
{
    place.filter(|p| marks[*p] != EMPTY).map(|p| entries[p])
}
