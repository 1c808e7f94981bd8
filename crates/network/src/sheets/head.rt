//! What the header of a sheet counts, and where by that the stations behind it stand.
//! The four bytes of the header hold kind, size and number of couplings.
ghost use Rattle.std.specs.Prelude.{◌≡◌, ◌*◌, ◌+◌, ◌^◌, ◌<◌, ◌≤◌, IfOk};
ghost use Rattle.network.specs.Decode.{place_for, header_fault};
ghost use Rattle.network.specs.Fields.{field};
ghost use Rattle.network.specs.Refusals.{fault_in};
ghost use Rattle.network.specs.Sheets.{width};

use crate::refusal::Refusal;
use crate::sheets::{COUNT_BITS, Header, KIND, SIZE_BITS};

// The width of a station's field: the smallest of 1 to 9 bits that has a number for each station.
fn width_of(stations: u32) -> usize
    ensures value { result ≡ width stations }
    ensures small { result ≤ 9 }
{
    (1..9).find(|bits| stations <= 1 << *bits).unwrap_or(9)
}

impl Header {
    /// The header of so many stations and couplings.
    pub(crate) fn new(stations: u32, couplings: u32) -> Header
        requires some { 1 ≤ stations }
        requires few { stations ≤ 512 }
        requires few_couplings { couplings < 2 ^ 17 }
        ensures stations { result.stations ≡ stations }
        ensures couplings { result.couplings ≡ couplings }
    {
        let bits = width_of(stations);
        Header {
            stations,
            couplings,
            bits,
        }
    }

    /// What the first four bytes count.
    pub(crate) fn read(sheet: &[u8]) -> Result<Header, Refusal>
        ensures value { fault_in result ≡ header_fault sheet.now }
        ensures stations { IfOk result (λ h. h.stations ≡ field sheet.now 5 10) }
        ensures couplings { IfOk result (λ h. h.couplings ≡ field sheet.now 15 17) }
    {
        let [first, second, third, fourth, ..] = sheet else {
            return Err(Refusal::NotWhole(0));
        };
        let word = u32::from_be_bytes([*first, *second, *third, *fourth]);
        if word >> (SIZE_BITS + COUNT_BITS) != KIND {
            return Err(Refusal::WrongKind);
        }
        let stations = (word >> COUNT_BITS) % (1 << SIZE_BITS);
        if stations < 1 || stations > 512 {
            return Err(Refusal::SizeOutOfRange);
        }
        let couplings = word % (1 << COUNT_BITS);
        if couplings > stations * (stations - 1) / 2 {
            return Err(Refusal::TooManyCouplings);
        }
        Ok(Header::new(stations, couplings))
    }

    /// The number of the station behind the header with which the order begins.
    pub(crate) fn first_of_order(self) -> u32
        ensures { result ≡ 2 * self.couplings }
    {
        2 * self.couplings
    }

    /// The first bit after all fields.
    pub(crate) fn end(self) -> usize
        ensures value { result ≡ place_for self.bits (2 * self.couplings + self.stations) }
        ensures small { result < 2 ^ 31 }
    {
        self.place(self.first_of_order() + self.stations)
    }

    /// The first bit of the station `i` behind the header.
    pub(crate) fn place(self, i: u32) -> usize
        requires { i < 2 ^ 20 }
        ensures value { result ≡ place_for self.bits i }
        ensures small { result ≤ 32 + 9 * i }
    {
        32 + self.bits * i as usize
    }
}
