//! What a sheet holds, and that it is written again as the same bytes.
//! The report's numbers and the second buffer are pinned by the bytes of the sheet alone.
ghost use Rattle.std.specs.Prelude.{◌≡◌, length, Some};
ghost use Rattle.network.specs.Decode.{decode};
ghost use Rattle.network.specs.Encode.{bytes_of, write_fault, buffer_after};
ghost use Rattle.network.specs.Refusals.{outcome, unless};
ghost use Rattle.logger.specs.Reports.{inspected, again_after, report_of, report_text};

use network::{Network, Refusal, SheetNetwork, count_couplings, read_sheet, write_sheet};
use std::fmt;

/// What was found of a sheet that was read and written again.
#[derive(Clone, Copy, Drop)]
pub struct Report {
    pub stations: u16,
    pub couplings: u32,
    pub bytes: usize,
    pub same: bool,
}

impl fmt::Display for Report {
    ghost output = { λ r. Some (report_text r) };

    fn fmt<W: fmt::Write>(&self, f: &mut fmt::Formatter<W>) -> fmt::Result {
        let (stations, couplings, bytes) = (self.stations, self.couplings, self.bytes);
        let counts = format_args!("stations {stations} couplings {couplings} bytes {bytes}");
        if self.same {
            write!(f, "{counts}\nwritten again: the same {bytes} bytes")
        } else {
            write!(f, "{counts}\nwritten again: other bytes")
        }
    }
}

// Writes a network and an order, and compares the bytes with those of the sheet.
fn rewrite<N: Network>(
    network: &N,
    order: &[u16],
    sheet: &[u8],
    again: &mut [u8],
) -> Result<Report, Refusal>
    ensures answer { outcome result ≡ unless (write_fault (N.Network.meaning network.now) order.now (length again.old)) (report_of (N.Network.meaning network.now) order.now sheet.now) }
    ensures again { again.new ≡ buffer_after (write_fault (N.Network.meaning network.now) order.now (length again.old)) (bytes_of (N.Network.meaning network.now) order.now) again.old }
{
    let stations = network.size();
    let couplings = count_couplings(network);
    let bytes = write_sheet(network, order, again)?;
    let same = sheet == &again[..bytes];
    Ok(Report {
        stations,
        couplings,
        bytes,
        same,
    })
}

/// Reads the sheet, and writes what was read into the second buffer: the same bytes, or the refusal.
pub fn inspect(sheet: &[u8], again: &mut [u8]) -> Result<Report, Refusal>
    ensures answer { outcome result ≡ inspected (decode sheet.now) sheet.now (length again.old) }
    ensures again { again.new ≡ again_after (decode sheet.now) sheet.now again.old }
{
    let mut network = SheetNetwork::lone();
    let mut list = [0u16; 512];
    read_sheet(sheet, &mut network, &mut list)?;
    let stations = network.size() as usize;
    rewrite(&network, &list[..stations], sheet, again)
}
