//! What reading bytes as a sheet has to answer, found by walking over single bits.
//! Nothing of the network crate is called here.
use crate::bit_string::{BitString, value, width};
use crate::fault::Fault::{self, Refused};
use std::alloc::Global;

// The counts of stations and of couplings.
fn judge_header(bits: &[bool]) -> Result<(u32, u32), Fault> {
    let header = bits.get(..32).ok_or(Refused(1, 0))?;
    let (kind, n, m) = (
        value(&header[..5]),
        value(&header[5..15]),
        value(&header[15..]),
    );
    if kind != 1 {
        return Err(Refused(2, 0));
    }
    if n == 0 || n > 512 {
        return Err(Refused(3, 5));
    }
    if m > n * (n - 1) / 2 {
        return Err(Refused(4, 15));
    }
    Ok((n, m))
}

// A walk over a sheet: its bits, the first bit of the next field, and the number of its stations.
#[derive(Drop)]
struct Walk<'a> {
    bits: &'a [bool],
    at: usize,
    stations: u32,
}

impl Walk<'_> {
    // The station in the next field, which has to be whole.
    fn station(&mut self) -> Result<u32, Fault> {
        let end = self.at.wrapping_add(width(self.stations) as usize);
        let field = self.bits.get(self.at..end).ok_or(Refused(1, self.at))?;
        self.at = end;
        Ok(value(field))
    }

    // The couplings: larger and smaller station, each pair above the one before it.
    fn couplings(&mut self, count: u32) -> Result<(), Fault> {
        let mut before = None;
        for _ in 0..count {
            let at = self.at;
            let (larger, smaller) = (self.station()?, self.station()?);
            if larger >= self.stations || smaller >= larger {
                return Err(Refused(5, at));
            }
            let pair = Some((larger, smaller));
            if before >= pair {
                return Err(Refused(6, at));
            }
            before = pair;
        }
        Ok(())
    }

    // The order: each station once.
    fn order(&mut self, heap: Global) -> Result<(), Fault> {
        let mut earlier = Vec::new(heap);
        for _ in 0..self.stations {
            let at = self.at;
            let station = self.station()?;
            if station >= self.stations || earlier.contains(&station) {
                return Err(Refused(7, at));
            }
            earlier.push(station)?;
        }
        Ok(())
    }

    // The end: at most seven bits, each 0.
    fn end(&self) -> Result<(), Fault> {
        let rest = self.bits.get(self.at..).unwrap_or(&[]);
        if rest.len() > 7 || rest.contains(&true) {
            return Err(Refused(8, self.at));
        }
        Ok(())
    }
}

/// What reading the bytes as a sheet has to answer.
pub(crate) fn judge(heap: Global, bytes: &[u8]) -> Result<(), Fault> {
    let sheet = BitString::of_bytes(heap, bytes)?;
    let (stations, couplings) = judge_header(sheet.bits())?;
    let mut walk = Walk {
        bits: sheet.bits(),
        at: 32,
        stations,
    };
    walk.couplings(couplings)?;
    walk.order(heap)?;
    walk.end()
}
