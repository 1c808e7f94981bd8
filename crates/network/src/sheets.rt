//! Packed sheets: a network that stands on the sheet it was read from,
//! and the reading and writing of sheets.
ghost use Rattle.std.specs.Prelude.{◌≡◌, ◌^◌, ◌<◌, ◌≤◌};
ghost use Rattle.network.specs.Decode.{Stands};
ghost use Rattle.network.specs.Sheets.{width};

mod checks;
mod head;
mod questions;
mod reading;
mod writing;

pub use reading::read_sheet;
pub use writing::{count_couplings, write_sheet};

/// The kind of the sheets that are read and written.
const KIND: u32 = 1;

/// The bits of the header's fields: kind, number of stations, number of couplings.
const KIND_BITS: usize = 5;

const SIZE_BITS: usize = 10;

const COUNT_BITS: usize = 17;

/// What the header of a sheet counts, and by that the bits of a station's field.
#[derive(Clone, Copy)]
pub(crate) struct Header {
    stations: u32,
    couplings: u32,
    bits: usize,
    ghost some: { 1 ≤ stations },
    ghost few: { stations ≤ 512 },
    ghost few_couplings: { couplings < 2 ^ 17 },
    ghost wide: { bits ≡ width stations },
    ghost narrow: { bits ≤ 9 },
}

/// A network that stands on a packed sheet: nothing of it is unpacked.
#[derive(Drop)]
pub struct SheetNetwork<'a> {
    bytes: &'a [u8],
    counts: Header,
    ghost stands: { Stands bytes.now counts.stations counts.couplings },
}
