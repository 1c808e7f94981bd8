//! The checks of a sheet, in their order: header, couplings, order, end.
//! Each is one pass over its part, and answers the first fault there.
ghost use Rattle.std.specs.Prelude.{◌≡◌, ◌+◌, ◌*◌, ◌^◌, ◌<◌, IfOk, Ok, Err, MatchResult, OnOk};
ghost use Rattle.network.specs.Decode.{place_for, pair_fault, placed_fault, end_fault, decode, sheet_of, Stands};
ghost use Rattle.network.specs.Parts.{has_risen, pair_in};
ghost use Rattle.network.specs.Refusals.{told, outcome, first_fault, unless};

use crate::bit_fields::{BitReader, field_of};
use crate::refusal::Refusal;
use crate::seen::Seen;
use crate::sheets::Header;

// Takes the next coupling: a larger and a smaller station.
fn take_pair(reader: &mut BitReader<'_>, counts: Header) -> Result<(u32, u32), Refusal>
    requires { reader.old.at < 2 ^ 31 }
    ensures value { outcome result ≡ pair_in reader.old.bytes.now counts.stations counts.bits reader.old.at }
    ensures place { OnOk result (reader.new.at ≡ reader.old.at + counts.bits + counts.bits) }
    ensures bytes { reader.new.bytes.now ≡ reader.old.bytes.now }
{
    let at = reader.at;
    let larger = reader.take(counts.bits)?;
    let smaller = reader.take(counts.bits)?;
    if larger >= counts.stations || smaller >= larger {
        return Err(Refusal::NoPair(at));
    }
    Ok((larger, smaller))
}

// Whether a coupling comes after the one before it, where there is one.
fn rises(last: Option<(u32, u32)>, pair: (u32, u32)) -> bool
    ensures { result ≡ has_risen last pair }
{
    last.is_none_or(|before| before < pair)
}

// The couplings, each checked against the one before it.
fn check_pairs(reader: &mut BitReader<'_>, counts: Header) -> Result<(), Refusal>
    requires { reader.old.at ≡ 32 }
    ensures value { outcome result ≡ unless (first_fault (pair_fault reader.old.bytes.now counts.stations counts.bits) counts.couplings) tt }
    ensures place { OnOk result (reader.new.at ≡ place_for counts.bits (2 * counts.couplings)) }
    ensures bytes { reader.new.bytes.now ≡ reader.old.bytes.now }
{
    let mut last = None;
    for _ in 0..counts.couplings {
        let at = reader.at;
        let pair = take_pair(reader, counts)?;
        if !rises(last, pair) {
            return Err(Refusal::PairNotRising(at));
        }
        last = Some(pair);
    }
    Ok(())
}

// The stations of the order, which follow the couplings: each a station, none named before.
fn check_stations(reader: &mut BitReader<'_>, counts: Header) -> Result<(), Refusal>
    requires { reader.old.at ≡ place_for counts.bits (2 * counts.couplings) }
    ensures value { outcome result ≡ unless (first_fault (placed_fault reader.old.bytes.now counts.stations counts.bits (2 * counts.couplings)) counts.stations) tt }
    ensures bytes { reader.new.bytes.now ≡ reader.old.bytes.now }
{
    let n = counts.stations as usize;
    let mut seen = Seen::none();
    for _ in 0..n {
        let at = reader.at;
        let station = reader.take(counts.bits)?;
        if !seen.insert(n, station as usize) {
            return Err(Refusal::NoOrderStation(at));
        }
    }
    Ok(())
}

// What follows the fields, which end at the bit `t`: zero bits in their last byte, and nothing more.
fn check_end(sheet: &[u8], t: usize) -> Result<(), Refusal>
    requires { t < 2 ^ 31 }
    ensures { outcome result ≡ unless (end_fault sheet.now t) tt }
{
    let whole = t.div_ceil(8);
    if sheet.len() != whole || field_of(sheet, t, 8 * whole - t) != 0 {
        return Err(Refusal::NotEnded(t));
    }
    Ok(())
}

// The whole sheet, in one pass: what its header counts, or its first fault.
pub(crate) fn check_sheet(sheet: &[u8]) -> Result<Header, Refusal>
    ensures value { MatchResult result (λ h. decode sheet.now ≡ Ok (sheet_of sheet.now h.stations h.couplings)) (λ e. decode sheet.now ≡ Err (told e)) }
    ensures stands { IfOk result (λ h. Stands sheet.now h.stations h.couplings) }
{
    let counts = Header::read(sheet)?;
    let mut reader = BitReader::new(sheet, 32);
    check_pairs(&mut reader, counts)?;
    check_stations(&mut reader, counts)?;
    check_end(sheet, counts.end())?;
    Ok(counts)
}
