//! `cvt`, and the extension of what is loaded.
ghost use Rattle.std.specs.Prelude.{◌≡◌, ◌+◌, ◌%◌, ◌<◌, ◌≤◌, ◌-◌, ◌^◌, ℤ};
ghost use Rattle.std.specs.Int.{w64};
ghost use Rattle.executor.specs.Numbers.{wrapped};
ghost use Rattle.kernel_check.specs.Steps.{number_bytes};
ghost use Rattle.executor.specs.Conversions.{converted, read_as, written_as};
ghost use Rattle.executor.specs.inner.Extended.{extended_bits, IsShort};

use kernel_check::NumberType;

/// `cvt`: the low bits of a register read as a number of one type, and written as another type into a
/// register of that type's class, 32 bits for the types below 64 (PRM, Conversion (cvt) Operation). From
/// a type to itself it extends what was loaded (PRM, Load (ld) Operation).
#[inline(always)]
pub fn convert(from: NumberType, to: NumberType, value: u64) -> u64
    ensures { result ≡ converted from to value }
{
    write_as(to, read_as(from, value))
}

/// The low bits of a value as a number of a type, in 64 bits.
#[inline(always)]
fn read_as(from: NumberType, value: u64) -> u64
    ensures { result ≡ wrapped w64 (read_as from value) }
{
    match from {
        NumberType::B1 => value % 2,
        NumberType::U8 => value % (1 << 8),
        NumberType::U16 => value % (1 << 16),
        NumberType::U32 => value % (1 << 32),
        NumberType::U64 | NumberType::S64 => value,
        NumberType::S8 => (((value % (1 << 8)) as u8).cast_signed() as i64).cast_unsigned(),
        NumberType::S16 => (((value % (1 << 16)) as u16).cast_signed() as i64).cast_unsigned(),
        NumberType::S32 => (((value % (1 << 32)) as u32).cast_signed() as i64).cast_unsigned(),
    }
}

/// A register's bits for a number of a type, from its 64 bits.
#[inline(always)]
fn write_as(to: NumberType, number: u64) -> u64
    ensures { (exact : ℤ) → number ≡ wrapped w64 exact → IsShort exact → result ≡ written_as to exact }
{
    match to {
        NumberType::B1 => { if number == 0 { 0 } else { 1 } }
        NumberType::U8 => number % (1 << 8),
        NumberType::U16 => number % (1 << 16),
        NumberType::U32 | NumberType::S32 => number % (1 << 32),
        NumberType::U64 | NumberType::S64 => number,
        NumberType::S8 => (((number % (1 << 8)) as u8).cast_signed() as i32).cast_unsigned() as u64,
        NumberType::S16 => (((number
            % (1 << 16)) as u16).cast_signed() as i32).cast_unsigned() as u64,
    }
}

/// The bytes that a number takes in memory.
#[inline(always)]
pub fn bytes_of(kind: NumberType) -> usize
    ensures value { result ≡ number_bytes kind }
    ensures some { 1 ≤ result }
    ensures few { result ≤ 8 }
{
    match kind {
        NumberType::B1 | NumberType::U8 | NumberType::S8 => 1,
        NumberType::U16 | NumberType::S16 => 2,
        NumberType::U32 | NumberType::S32 => 4,
        NumberType::U64 | NumberType::S64 => 8,
    }
}
