//! Writing a network and one of its orders as a sheet, into bytes of the caller's.
//! A refused writing leaves the bytes as they were.
ghost use Rattle.std.specs.Prelude.{◌≡◌, ℕ, ◌+◌, ◌*◌, ◌^◌, ◌<◌, ◌≤◌, [], ◌∷◌, length, replicate, None, slice_index};
ghost use Rattle.network.specs.Encode.{bytes_of, write_fault, buffer_after};
ghost use Rattle.network.specs.Orders.{order_fault};
ghost use Rattle.network.specs.Refusals.{outcome, unless};
ghost use Rattle.network.specs.Sheets.{width, spread, row_to, pairs_to};
ghost use Rattle.network.specs.Writing.{HasRoom, Puts, head_bits, pair_bits};

use crate::bit_fields::BitWriter;
use crate::net::Network;
use crate::orders::check_order;
use crate::refusal::Refusal;
use crate::sheets::{COUNT_BITS, Header, KIND, KIND_BITS, SIZE_BITS};

// A writer and the counts go through all parts side by side: as one value each clause, which says what was put, would have
// to say besides that the counts stay.

// Writes kind, size and number of couplings.
fn put_head(writer: &mut BitWriter<'_>, counts: Header)
    requires { HasRoom writer.old (head_bits counts.stations counts.couplings) }
    ensures { Puts writer.old writer.new (head_bits counts.stations counts.couplings) }
{
    writer.put(KIND_BITS, KIND);
    writer.put(SIZE_BITS, counts.stations);
    writer.put(COUNT_BITS, counts.couplings);
}

// Writes one coupling.
fn put_pair(writer: &mut BitWriter<'_>, counts: Header, larger: u16, smaller: u16)
    requires fit { (larger < 2 ^ counts.bits) × (smaller < 2 ^ counts.bits) }
    requires room { HasRoom writer.old (pair_bits counts.bits ((larger, smaller) ∷ [])) }
    ensures { Puts writer.old writer.new (pair_bits counts.bits ((larger, smaller) ∷ [])) }
{
    writer.put(counts.bits, larger as u32);
    writer.put(counts.bits, smaller as u32);
}

// The pairs of stations are gone through here and where couplings are counted or taken over, each time with something else done:
// one walk over any network would need the law of its steps beside it, which is longer than these two lines.

// Writes the couplings of the station `a` with those below it. It asks once for each of them.
fn put_row<N: Network>(writer: &mut BitWriter<'_>, network: &N, counts: Header, a: u16)
    requires fit { a < 2 ^ counts.bits }
    requires room { HasRoom writer.old (pair_bits counts.bits (row_to (N.Network.meaning network.now).coupled a a)) }
    ensures { Puts writer.old writer.new (pair_bits counts.bits (row_to (N.Network.meaning network.now).coupled a a)) }
{
    for b in 0..a {
        if network.coupled(a, b) {
            put_pair(writer, counts, a, b);
        }
    }
}

// Writes the couplings, rising by larger and then smaller station. It asks once for each two stations.
fn put_pairs<N: Network>(writer: &mut BitWriter<'_>, network: &N, counts: Header)
    requires size { counts.stations ≡ (N.Network.meaning network.now).size }
    requires room { HasRoom writer.old (pair_bits counts.bits (pairs_to (N.Network.meaning network.now).coupled (N.Network.meaning network.now).size)) }
    ensures { Puts writer.old writer.new (pair_bits counts.bits (pairs_to (N.Network.meaning network.now).coupled (N.Network.meaning network.now).size)) }
{
    let n = network.size();
    for a in 0..n {
        put_row(writer, network, counts, a);
    }
}

// Writes the stations of the order.
fn put_list(writer: &mut BitWriter<'_>, order: &[u16], counts: Header)
    requires fit { (k : ℕ) → k < length order.now → slice_index order.now k < 2 ^ counts.bits }
    requires room { HasRoom writer.old (spread counts.bits order.now) }
    ensures { Puts writer.old writer.new (spread counts.bits order.now) }
{
    for station in order {
        writer.put(counts.bits, *station as u32);
    }
}

// How many couplings a station has with those below it. It asks once for each of them.
fn count_row<N: Network>(network: &N, station: u16) -> u32
    ensures value { result ≡ length (row_to (N.Network.meaning network.now).coupled station station) }
    ensures small { result ≤ station }
{
    (0..station)
        .map(|lower| u32::from(network.coupled(station, lower)))
        .sum()
}

/// How many couplings the network has. It asks once for each two stations.
pub fn count_couplings<N: Network>(network: &N) -> u32
    ensures value { result ≡ length (pairs_to (N.Network.meaning network.now).coupled (N.Network.meaning network.now).size) }
    ensures small { result < 2 ^ 17 }
{
    let n = network.size();
    (0..n).map(|station| count_row(network, station)).sum()
}

// Writes the whole sheet into bytes of exactly its length.
fn put_sheet<N: Network>(network: &N, order: &[u16], counts: Header, out: &mut [u8])
    requires order { order_fault order.now (N.Network.meaning network.now).size ≡ None }
    requires size { counts.stations ≡ (N.Network.meaning network.now).size }
    requires count { counts.couplings ≡ length (pairs_to (N.Network.meaning network.now).coupled (N.Network.meaning network.now).size) }
    requires long { length out.old ≡ length (bytes_of (N.Network.meaning network.now) order.now) }
    ensures { out.new ≡ bytes_of (N.Network.meaning network.now) order.now }
{
    out.fill(0);
    let mut writer = BitWriter::new(out, 0);
    put_head(&mut writer, counts);
    put_pairs(&mut writer, network, counts);
    put_list(&mut writer, order, counts);
}

/// Writes the sheet of a network and one of its orders to the front of the bytes, and answers its length.
/// The bytes behind it stay, as do all of them on a refusal.
/// It asks the network twice for each two stations, once to count the couplings and once to write them.
pub fn write_sheet<N: Network>(network: &N, order: &[u16], out: &mut [u8]) -> Result<usize, Refusal>
    ensures answer { outcome result ≡ unless (write_fault (N.Network.meaning network.now) order.now (length out.old)) (length (bytes_of (N.Network.meaning network.now) order.now)) }
    ensures out { out.new ≡ buffer_after (write_fault (N.Network.meaning network.now) order.now (length out.old)) (bytes_of (N.Network.meaning network.now) order.now) out.old }
{
    let n = network.size();
    check_order(n, order)?;
    let counts = Header::new(n as u32, count_couplings(network));
    let need = counts.end().div_ceil(8);
    if out.len() < need {
        return Err(Refusal::TooShort(need));
    }
    put_sheet(network, order, counts, &mut out[..need]);
    Ok(need)
}
