//! Digits, and the numbers that they stand for.

ghost use Rattle.std.specs.Prelude.{◌≡◌, ◌<◌, ◌≤◌, Some, None};
ghost use Rattle.words.specs.Numbers.{digit_of, with_digit, number_from};

// The value of each byte as a digit, in either case; 256 where it is none.
const DIGITS: &[u16; 256] = &[
    256, 256, 256, 256, 256, 256, 256, 256, 256, 256, 256, 256, 256, 256, 256, 256, 256, 256, 256,
    256, 256, 256, 256, 256, 256, 256, 256, 256, 256, 256, 256, 256, 256, 256, 256, 256, 256, 256,
    256, 256, 256, 256, 256, 256, 256, 256, 256, 256, 0, 1, 2, 3, 4, 5, 6, 7, 8, 9, 256, 256, 256,
    256, 256, 256, 256, 10, 11, 12, 13, 14, 15, 256, 256, 256, 256, 256, 256, 256, 256, 256, 256,
    256, 256, 256, 256, 256, 256, 256, 256, 256, 256, 256, 256, 256, 256, 256, 256, 10, 11, 12, 13,
    14, 15, 256, 256, 256, 256, 256, 256, 256, 256, 256, 256, 256, 256, 256, 256, 256, 256, 256,
    256, 256, 256, 256, 256, 256, 256, 256, 256, 256, 256, 256, 256, 256, 256, 256, 256, 256, 256,
    256, 256, 256, 256, 256, 256, 256, 256, 256, 256, 256, 256, 256, 256, 256, 256, 256, 256, 256,
    256, 256, 256, 256, 256, 256, 256, 256, 256, 256, 256, 256, 256, 256, 256, 256, 256, 256, 256,
    256, 256, 256, 256, 256, 256, 256, 256, 256, 256, 256, 256, 256, 256, 256, 256, 256, 256, 256,
    256, 256, 256, 256, 256, 256, 256, 256, 256, 256, 256, 256, 256, 256, 256, 256, 256, 256, 256,
    256, 256, 256, 256, 256, 256, 256, 256, 256, 256, 256, 256, 256, 256, 256, 256, 256, 256, 256,
    256, 256, 256, 256, 256, 256, 256, 256, 256, 256, 256, 256, 256, 256, 256, 256, 256, 256, 256,
    256, 256, 256,
];

/// The value of a digit, in either case; 256 where it is none, so that the value of two digits is a byte just where both
/// are digits.
pub(crate) fn digit_value(byte: u8) -> u16
    ensures digit { result < 16 → digit_of byte ≡ Some result }
    ensures other { 16 ≤ result → (result ≡ 256) × (digit_of byte ≡ None) }
    ensures most { result ≤ 256 }
{
    DIGITS[byte as usize]
}

/// The value of a digit, in either case.
#[inline]
pub(crate) fn digit(byte: u8) -> Option<u8>
    ensures { result ≡ digit_of byte }
{
    let value = digit_value(byte);
    if value < 16 { Some(value as u8) } else { None }
}

/// A number with a further digit of a base.
#[inline]
pub(crate) fn with_digit(base: u8, number: u64, digit: u8) -> Option<u64>
    ensures { result ≡ with_digit base number digit }
{
    if digit >= base {
        return None;
    }
    let next = number as u128 * base as u128 + digit as u128;
    if next < 1 << 64 {
        Some(next as u64)
    } else {
        None
    }
}

/// The number that digits of a base stand for.
pub(crate) fn number(base: u8, word: &[u8]) -> Option<u64>
    ensures { result ≡ number_from base 0 word.now }
{
    let mut number = 0;
    for byte in word {
        number = with_digit(base, number, digit(*byte)?)?;
    }
    Some(number)
}
