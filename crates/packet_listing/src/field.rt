//! A field of a packet, and its value.

ghost use Rattle.std.specs.Prelude.{◌≡◌, ◌≤◌, ◌<◌, ◌+◌, ◌%◌, ◌^◌};
ghost use Rattle.aql_packet.specs.Numbers.{bits, number_at};
ghost use Rattle.packet_listing.specs.Fields.{is_within, value_in};

use byteorder::{ByteOrder, LittleEndian};

/// What a field's number stands for.
#[derive(Clone, Copy, Debug, PartialEq, Eq)]
pub enum FieldForm {
    /// A packet's type.
    Type,
    /// A number.
    Number,
    /// The scope of a fence.
    Scope,
    /// A number that may be an address.
    Word,
    /// An address; 0 is none.
    Address,
    /// A signal's number; 0 is none.
    Signal,
    /// Nothing: it has to be 0.
    Reserved,
}

/// A field of a packet: `size` bytes from `place` on, the lowest byte first, and of their number the bits from `low` to
/// `high` (PSA, Architected Queuing Language).
#[derive(Clone, Copy, Debug, PartialEq, Eq)]
pub struct Field {
    /// The standard's name.
    pub name: &'static str,
    /// The first of its bytes, from 0.
    pub place: usize,
    /// How many bytes.
    pub size: usize,
    /// The lowest of its bits.
    pub low: u32,
    /// The highest of its bits.
    pub high: u32,
    /// What its number stands for.
    pub form: FieldForm,
}

impl Field {
    /// Whether the field has all bits of its bytes.
    pub fn is_whole(&self) -> bool {
        self.low == 0 && (self.high as usize).saturating_add(1) == self.size.saturating_mul(8)
    }
}

// Whether the field lies in 64 bytes, and is a number of 64 bits at the most.
fn is_within(field: &Field) -> bool
    ensures { result ≡ is_within field.now }
{
    1 <= field.size
        && field.size <= 8
        && field.place <= 64
        && field.place + field.size <= 64
        && field.low <= field.high
        && field.high < 64
}

// The number in some bytes, the lowest byte first.
fn number_at(bytes: &[u8; 64], place: usize, size: usize) -> u64
    requires low { 1 ≤ size }
    requires high { size ≤ 8 }
    requires room { place + size ≤ 64 }
    ensures { result ≡ number_at bytes.now place size }
{
    LittleEndian::read_uint(bytes.split_at(place).1, size)
}

// The lowest bits of a number.
fn lowest(number: u64, count: u32) -> u64
    requires { count ≤ 64 }
    ensures { result ≡ number % 2 ^ count }
{
    if count == 64 {
        number
    } else {
        number % (1 << count)
    }
}

// Bits of a number, as a number.
fn bits(number: u64, high: u32, low: u32) -> u64
    requires order { low ≤ high }
    requires room { high < 64 }
    ensures { result ≡ bits number high low }
{
    lowest(number >> low, high + 1 - low)
}

/// The value of a field of 64 bytes; none of one that doesn't lie in them.
pub fn value_of(bytes: &[u8; 64], field: &Field) -> Option<u64>
    ensures { result ≡ value_in bytes.now field.now }
{
    if is_within(field) {
        let number = number_at(bytes, field.place, field.size);
        Some(bits(number, field.high, field.low))
    } else {
        None
    }
}
