//! Sheets as lists of single bits, built field by field.
//! Nothing of the network crate is called here.
use std::alloc::{AllocError, Global};
use std::iter;

/// The width of a station's field, by doubling.
pub(crate) fn width(stations: u32) -> u32 {
    (1..10u32).find(|w| 1u32 << *w >= stations).unwrap_or(10)
}

/// The value of a field, the highest bit first.
pub(crate) fn value(field: &[bool]) -> u32 {
    field
        .iter()
        .fold(0u32, |value, bit| value.wrapping_mul(2) | u32::from(*bit))
}

// Up to eight bits as a byte, the highest first, with zero bits at the end.
fn byte(bits: &[bool]) -> u8 {
    let filled = bits.iter().copied().chain(iter::repeat(false));
    filled
        .take(8)
        .fold(0u8, |byte, bit| byte.wrapping_mul(2) | u8::from(bit))
}

/// Bits, the first of them first.
#[derive(Drop)]
pub(crate) struct BitString {
    bits: Vec<bool>,
}

impl BitString {
    pub(crate) fn new(heap: Global) -> Self {
        BitString {
            bits: Vec::new(heap),
        }
    }

    /// The bits of bytes, the most significant of each first.
    pub(crate) fn of_bytes(heap: Global, bytes: &[u8]) -> Result<Self, AllocError> {
        let mut all = BitString::new(heap);
        for byte in bytes {
            all.push(8, u32::from(*byte))?;
        }
        Ok(all)
    }

    /// One field more, the highest bit of the value first.
    pub(crate) fn push(&mut self, width: u32, value: u32) -> Result<(), AllocError> {
        self.bits.extend(
            (0..width)
                .rev()
                .map(|i| value.checked_shr(i).unwrap_or(0) % 2 == 1),
        )
    }

    /// The bit at a place is turned, where there is one.
    pub(crate) fn turn(&mut self, at: usize) {
        if let Some(bit) = self.bits.get_mut(at) {
            *bit = !*bit;
        }
    }

    pub(crate) fn bits(&self) -> &[bool] {
        &self.bits
    }

    /// The bits in bytes, with zero bits at the end.
    pub(crate) fn bytes(&self, heap: Global) -> Result<Vec<u8>, AllocError> {
        self.bits.chunks(8).map(byte).collect(heap)
    }
}

/// The bytes of a sheet, whatever it says.
pub(crate) fn sheet(
    heap: Global,
    n: u32,
    pairs: &[(u32, u32)],
    order: &[u32],
) -> Result<Vec<u8>, AllocError> {
    let mut all = BitString::new(heap);
    all.push(5, 1)?;
    all.push(10, n)?;
    all.push(17, u32::try_from(pairs.len()).unwrap_or(0))?;
    let paired = pairs.iter().flat_map(|pair| [pair.0, pair.1]);
    for station in paired.chain(order.iter().copied()) {
        all.push(width(n), station)?;
    }
    all.bytes(heap)
}
