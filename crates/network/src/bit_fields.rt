//! Fields of bits in bytes, the most significant bit of each byte first: a reader and a writer,
//! each over a slice with a bit place. A field is read or refused whole; a write changes exactly its bits.
ghost use Rattle.std.specs.Prelude.{◌≡◌, ℕ, ◌+◌, ◌-◌, ◌*◌, ◌/◌, ◌%◌, ◌^◌, ◌<◌, ◌≤◌, ◌&&◌, length, if◌then◌else◌, nat_le, nat_lt, slice_index, slice_set};
ghost use Rattle.network.specs.Bits.{bit_at};
ghost use Rattle.network.specs.Fields.{field, field_in, place_after, Written};
ghost use Rattle.network.specs.Refusals.{outcome};

use crate::refusal::Refusal;

/// Reads fields from a bit place on.
#[derive(Drop)]
pub(crate) struct BitReader<'a> {
    pub(crate) bytes: &'a [u8],
    pub(crate) at: usize,
}

/// Writes fields from a bit place on.
#[derive(Drop)]
pub(crate) struct BitWriter<'a> {
    pub(crate) bytes: &'a mut [u8],
    pub(crate) at: usize,
}

// The byte at `j`, or 0 past the end.
fn byte_or_zero(bytes: &[u8], j: usize) -> u8
    ensures { result ≡ slice_index bytes.now j }
{
    bytes.get(j).copied().unwrap_or(0)
}

// The three bytes from `j` on as a number, with 0 for each past the end. No field spans more bytes.
fn window_of(bytes: &[u8], j: usize) -> u32
    requires { j < 2 ^ 60 }
    ensures small { result < 2 ^ 24 }
    ensures field { result ≡ field bytes.now (8 * j) 24 }
{
    // Not by `from_be_bytes`: every question to a sheet comes here, and takes a tenth longer by that.
    let high = byte_or_zero(bytes, j) as u32;
    let middle = byte_or_zero(bytes, j + 1) as u32;
    let low = byte_or_zero(bytes, j + 2) as u32;
    high * 65536 + middle * 256 + low
}

// A width of at most 17 is asked for and not a type: each is a constant or a header's, and a type would only wrap those.

// The number in the `width` bits from `at` on, with zero bits past the end.
pub(crate) fn field_of(bytes: &[u8], at: usize, width: usize) -> u32
    requires { (width ≤ 17) × (at < 2 ^ 32) }
    ensures { result ≡ field bytes.now at width }
{
    let window = window_of(bytes, at / 8);
    window >> (24 - at % 8 - width) & ((1 << width) - 1)
}

impl<'a> BitReader<'a> {
    /// A reader of the bytes from the bit `at` on.
    pub(crate) fn new(bytes: &'a [u8], at: usize) -> Self
        ensures bytes { result.bytes.now ≡ bytes.now }
        ensures place { result.at ≡ at }
    {
        BitReader { bytes, at }
    }

    /// The next field, or its refusal where it is not whole; then the place stays.
    pub(crate) fn take(&mut self, width: usize) -> Result<u32, Refusal>
        requires { (width ≤ 17) × (self.old.at < 2 ^ 32) }
        ensures value { outcome result ≡ field_in self.old.bytes.now self.old.at width }
        ensures place { self.new.at ≡ place_after self.old.bytes.now self.old.at width }
        ensures bytes { self.new.bytes.now ≡ self.old.bytes.now }
    {
        let at = self.at;
        if (at + width).div_ceil(8) > self.bytes.len() {
            return Err(Refusal::NotWhole(at));
        }
        self.at = at + width;
        Ok(field_of(self.bytes, at, width))
    }
}

// Stores the byte, where the place is within the bytes.
fn store(bytes: &mut [u8], j: usize, byte: u8)
    ensures { bytes.new ≡ slice_set bytes.old j byte }
{
    // Not by `get_mut`: nothing is known of a slice's elements after a write through it.
    if j < bytes.len() {
        bytes[j] = byte;
    }
}

// Stores the three bytes of `next` from `j` on, those within the bytes.
fn store_window(bytes: &mut [u8], j: usize, next: u32)
    requires { (j < 2 ^ 60) × (next < 2 ^ 24) }
    ensures { bytes.new ≡ slice_set (slice_set (slice_set bytes.old j (next / 65536 % 256)) (j + 1) (next / 256 % 256)) (j + 2) (next % 256) }
{
    let [_, high, middle, low] = next.to_be_bytes();
    store(bytes, j, high);
    store(bytes, j + 1, middle);
    store(bytes, j + 2, low);
}

// The window with `width` bits from `shift` on replaced by those of the value.
fn spliced(window: u32, value: u32, width: usize, shift: usize) -> u32
    requires { (window < 2 ^ 24) × ((width + shift ≤ 24) × (value < 2 ^ width)) }
    ensures small { result < 2 ^ 24 }
    ensures bits { (i : ℕ) → i < 24 → bit_at result i ≡ (if nat_le shift i && nat_lt i (shift + width) then bit_at value (i - shift) else bit_at window i) }
{
    let mask = ((1u32 << width) - 1) << shift;
    window & !mask | value << shift
}

// Writes the field into the three bytes that hold it.
fn put_field(bytes: &mut [u8], at: usize, width: usize, value: u32)
    requires { (width ≤ 17) × ((at + width ≤ 8 * length bytes.old) × ((length bytes.old < 2 ^ 32) × (value < 2 ^ width))) }
    ensures { Written bytes.old bytes.new at width value width }
{
    let j = at / 8;
    let shift = 24 - at % 8 - width;
    let next = spliced(window_of(bytes, j), value, width, shift);
    store_window(bytes, j, next);
}

impl<'a> BitWriter<'a> {
    /// A writer into the bytes from the bit `at` on.
    pub(crate) fn new(bytes: &'a mut [u8], at: usize) -> Self
        ensures lender { result.bytes.ghost_name ≡ bytes.entry.ghost_name }
        ensures bytes { result.bytes.now ≡ bytes.old }
        ensures place { result.at ≡ at }
    {
        BitWriter { bytes, at }
    }

    /// Writes the value as the next field.
    pub(crate) fn put(&mut self, width: usize, value: u32)
        requires { (width ≤ 17) × ((self.old.at + width ≤ 8 * length self.old.bytes.now) × ((length self.old.bytes.now < 2 ^ 32) × (value < 2 ^ width))) }
        ensures lender { self.new.bytes.ghost_name ≡ self.old.bytes.ghost_name }
        ensures place { self.new.at ≡ self.old.at + width }
        ensures size { length self.new.bytes.now ≡ length self.old.bytes.now }
        ensures bits { Written self.old.bytes.now self.new.bytes.now self.old.at width value width }
    {
        let at = self.at;
        put_field(self.bytes, at, width, value);
        self.at = at + width;
    }
}
