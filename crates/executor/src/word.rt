//! Numbers of a few bytes, the lowest first.
ghost use Rattle.std.specs.Prelude.{◌≡◌, ◌+◌, ◌++◌, ◌≤◌, length, take, drop};
ghost use Rattle.std.specs.Int.{w64, to_le_bytes};
ghost use Rattle.byteorder.specs.Endian.{little_number};

use byteorder::{ByteOrder, LittleEndian};

/// The number in the first bytes. The sizes that types have are one load each.
#[inline(always)]
pub fn read(bytes: &[u8], size: usize) -> u64
    requires some { 1 ≤ size }
    requires few { size ≤ 8 }
    requires room { size ≤ length bytes.now }
    ensures { result ≡ little_number size bytes.now }
{
    match size {
        1 => bytes[0] as u64,
        2 => LittleEndian::read_u16(bytes) as u64,
        4 => LittleEndian::read_u32(bytes) as u64,
        8 => LittleEndian::read_u64(bytes),
        _ => LittleEndian::read_uint(bytes, size),
    }
}

/// Writes a number's low bytes over the first bytes. The sizes that types have are one store each.
#[inline(always)]
pub fn write(bytes: &mut [u8], size: usize, value: u64)
    requires few { size ≤ 8 }
    requires room { size ≤ length bytes.old }
    ensures { bytes.new ≡ take size (to_le_bytes w64 value) ++ drop size bytes.old }
{
    match size {
        1 => bytes[0] = (value & 0xff) as u8,
        2 => LittleEndian::write_u16(bytes, (value & 0xffff) as u16),
        4 => LittleEndian::write_u32(bytes, (value & 0xffff_ffff) as u32),
        8 => LittleEndian::write_u64(bytes, value),
        _ => {
            let all = value.to_le_bytes();
            let (low, _) = all.split_at(size);
            bytes[..size].copy_from_slice(low);
        }
    }
}
