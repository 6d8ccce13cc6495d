//! Constants at the types of their places.

ghost use Rattle.std.specs.Prelude.{◌≡◌, ◌<◌, ◌^◌};
ghost use Rattle.kernel_check.specs.Constants.{most, deepest, is_in_range, constant_bits};

use hsail_reader::{Constant, DataType};

/// The greatest number that a constant of a type may spell.
fn greatest(kind: DataType) -> u64
    ensures { result ≡ most kind }
{
    match kind {
        DataType::B1 => 1,
        DataType::B8 | DataType::U8 | DataType::S8 => 0xff,
        DataType::B16 | DataType::U16 | DataType::S16 => 0xffff,
        DataType::B32 | DataType::U32 | DataType::S32 => 0xffff_ffff,
        DataType::B64 | DataType::U64 | DataType::S64 => u64::MAX,
    }
}

/// The greatest number that a constant of a type may spell behind a minus.
fn least(kind: DataType) -> u64
    ensures { result ≡ deepest kind }
{
    match kind {
        DataType::B1 => 0,
        DataType::B8 | DataType::U8 | DataType::S8 => 0x80,
        DataType::B16 | DataType::U16 | DataType::S16 => 0x8000,
        DataType::B32 | DataType::U32 | DataType::S32 => 0x8000_0000,
        DataType::B64 | DataType::U64 | DataType::S64 => 0x8000_0000_0000_0000,
    }
}

/// Whether a constant lies in the range of a type: from -2^(n-1) to 2^n - 1 for n bits, 0 and 1 for b1.
pub fn in_range(kind: DataType, constant: Constant) -> bool
    ensures { result ≡ is_in_range kind constant }
{
    if constant.negative {
        constant.magnitude <= least(kind)
    } else {
        constant.magnitude <= greatest(kind)
    }
}

/// The bits of a constant that lies in the range of a type: a negative number's as 2^n more than it.
pub fn bits(kind: DataType, constant: Constant) -> u64
    ensures { result ≡ constant_bits kind constant }
{
    let greatest = greatest(kind);
    let magnitude = constant.magnitude;
    if !constant.negative || magnitude == 0 {
        return magnitude;
    }
    if magnitude <= greatest {
        greatest - (magnitude - 1)
    } else {
        0
    }
}
