//! Numbers in the bytes of a packet, little-endian (PSA, Architected Queuing Language).

ghost use Rattle.aql_packet.specs.Numbers.{number_at, written};
ghost use Rattle.std.specs.Prelude.{◌+◌, ◌<◌, ◌==◌, ◌^◌, ◌≡◌, ◌≤◌};

use byteorder::{ByteOrder, LittleEndian};

/// The number in two bytes.
pub fn u16_at(bytes: &[u8; 64], place: usize) -> u16
    requires { place + 2 ≤ 64 }
    ensures { result ≡ number_at bytes.now place 2 }
{
    LittleEndian::read_u16(bytes.split_at(place).1)
}

/// The number in four bytes.
pub fn u32_at(bytes: &[u8; 64], place: usize) -> u32
    requires { place + 4 ≤ 64 }
    ensures { result ≡ number_at bytes.now place 4 }
{
    LittleEndian::read_u32(bytes.split_at(place).1)
}

/// The number in eight bytes.
pub fn u64_at(bytes: &[u8; 64], place: usize) -> u64
    requires { place + 8 ≤ 64 }
    ensures { result ≡ number_at bytes.now place 8 }
{
    LittleEndian::read_u64(bytes.split_at(place).1)
}

/// Whether `size` bytes, from one to eight, are all zero.
pub fn is_zero_at(bytes: &[u8; 64], place: usize, size: usize) -> bool
    requires low { 1 ≤ size }
    requires high { size ≤ 8 }
    requires room { place + size ≤ 64 }
    ensures { result ≡ (number_at bytes.now place size == 0) }
{
    LittleEndian::read_uint(bytes.split_at(place).1, size) == 0
}

/// Puts a number into two bytes.
pub fn put_u16(bytes: &mut [u8; 64], place: usize, number: u16)
    requires { place + 2 ≤ 64 }
    ensures value { bytes.new ≡ written bytes.old place 2 number }
    ensures fits { number < 256 ^ 2 }
{
    LittleEndian::write_u16(bytes.split_at_mut(place).1, number);
}

/// Puts a number into four bytes.
pub fn put_u32(bytes: &mut [u8; 64], place: usize, number: u32)
    requires { place + 4 ≤ 64 }
    ensures value { bytes.new ≡ written bytes.old place 4 number }
    ensures fits { number < 256 ^ 4 }
{
    LittleEndian::write_u32(bytes.split_at_mut(place).1, number);
}

/// Puts a number into eight bytes.
pub fn put_u64(bytes: &mut [u8; 64], place: usize, number: u64)
    requires { place + 8 ≤ 64 }
    ensures value { bytes.new ≡ written bytes.old place 8 number }
    ensures fits { number < 256 ^ 8 }
{
    LittleEndian::write_u64(bytes.split_at_mut(place).1, number);
}
