//! Reading a sheet: into a network place, and its order into a list of the caller's.
//! A refused sheet leaves both as they were.
ghost use Rattle.std.specs.Prelude.{◌≡◌, ◌^◌, ◌<◌, ◌≤◌, [], ◌∷◌, ◌++◌, length, drop, MatchResult};
ghost use Rattle.network.specs.Decode.{order_of, reading, done, order_after, held_after};
ghost use Rattle.network.specs.Refusals.{outcome};
ghost use Rattle.network.specs.SheetView.{sheet_in};
ghost use Rattle.network.specs.Sheets.{lone_sheet};

use crate::bit_fields::field_of;
use crate::refusal::Refusal;
use crate::sheets::checks::check_sheet;
use crate::sheets::{Header, SheetNetwork};

// The sheet of one station, without couplings.
static LONE: [u8; 5] = [8, 2, 0, 0, 0];

impl<'a> SheetNetwork<'a> {
    /// A place that holds one lone station.
    pub fn lone() -> SheetNetwork<'a>
        ensures bytes { result.bytes.now ≡ 8 ∷ 2 ∷ 0 ∷ 0 ∷ 0 ∷ [] }
        ensures sheet { sheet_in result ≡ lone_sheet }
    {
        SheetNetwork {
            bytes: &LONE,
            counts: Header::new(1, 0),
        }
    }
}

// Writes the order of a sheet to the front of the list.
fn put_order(sheet: &[u8], counts: Header, order: &mut [u16])
    requires { counts.stations ≤ length order.old }
    ensures { order.new ≡ order_of sheet.now counts.stations counts.couplings ++ drop counts.stations order.old }
{
    let first = counts.first_of_order();
    let front = &mut order[..counts.stations as usize];
    for (k, station) in front.iter_mut().enumerate() {
        *station = field_of(sheet, counts.place(first + k as u32), counts.bits) as u16;
    }
}

/// Reads a sheet into the place, and its order into the first numbers of the list. One pass checks, another writes the order.
pub fn read_sheet<'a>(
    sheet: &'a [u8],
    place: &mut SheetNetwork<'a>,
    order: &mut [u16],
) -> Result<(), Refusal>
    ensures answer { outcome result ≡ done (reading sheet.now (length order.old)) }
    ensures order { order.new ≡ order_after (reading sheet.now (length order.old)) order.old }
    ensures held { sheet_in place.new ≡ held_after (reading sheet.now (length order.old)) (sheet_in place.old) }
    ensures place { MatchResult result (λ _. place.new.bytes.now ≡ sheet.now) (λ _. place.new ≡ place.old) }
{
    let counts = check_sheet(sheet)?;
    if order.len() < counts.stations as usize {
        return Err(Refusal::TooShort(counts.stations as usize));
    }
    put_order(sheet, counts, order);
    *place = SheetNetwork {
        bytes: sheet,
        counts,
    };
    Ok(())
}
