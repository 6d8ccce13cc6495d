//! What stands at the front of some bytes.

ghost use Rattle.std.specs.Prelude.{◌≡◌, ◌+◌, ◌<◌, ◌≤◌, length, IfSome};
ghost use Rattle.std.specs.List.{prefix_len};
ghost use Rattle.std.specs.Char.{is_digit};
ghost use Rattle.std.specs.Option.{option_copied};
ghost use Rattle.hsail_reader.specs.Bytes.{behind, closing_at, digits_at, decimal_at, numeral_at, align_at};
ghost use Rattle.hsail_reader.specs.Spelling.{first_passes, is_name_byte, is_name_start, is_not_line_feed};

use crate::token::Prefix;

/// Whether a byte may begin a name: a letter or `_`.
pub fn starts_name(byte: u8) -> bool
    ensures { result ≡ is_name_start byte }
{
    byte.is_ascii_alphabetic() || byte == b'_'
}

/// Whether a byte may stand in a name: a letter, a digit or `_`.
pub fn continues_name(byte: u8) -> bool
    ensures { result ≡ is_name_byte byte }
{
    byte.is_ascii_alphanumeric() || byte == b'_'
}

/// Whether the bytes begin with a name.
pub fn has_name(bytes: &[u8]) -> bool
    ensures { result ≡ first_passes is_name_start bytes.now }
{
    matches!(bytes, [first, ..] if starts_name(*first))
}

/// How many bytes from the front may stand in a name.
#[tactic(auto, using(crate::proofs::Pieces::prefix_bound))]
pub fn name_run(bytes: &[u8]) -> usize
    ensures value { result ≡ prefix_len is_name_byte bytes.now }
    ensures bound { result ≤ length bytes.now }
{
    bytes
        .iter()
        .take_while(|byte| continues_name(**byte))
        .count()
}

/// How many bytes there are before the end of the line.
#[tactic(auto, using(crate::proofs::Pieces::prefix_bound))]
pub fn line_run(bytes: &[u8]) -> usize
    ensures value { result ≡ prefix_len is_not_line_feed bytes.now }
    ensures bound { result ≤ length bytes.now }
{
    bytes.iter().take_while(|byte| **byte != b'\n').count()
}

/// The bytes behind a front, if that is the front.
pub fn strip<'a>(front: &[u8], bytes: &'a [u8]) -> Option<&'a [u8]>
    ensures rest { option_copied result ≡ behind front.now bytes.now }
    ensures bound { IfSome result (λ rest. length rest.now + length front.now ≡ length bytes.now) }
{
    let mut wanted = front;
    let mut rest = bytes;
    while let [first, others @ ..] = wanted {
        match rest {
            [byte, tail @ ..] if *byte == *first => {
                wanted = others;
                rest = tail;
            }
            _ => return None,
        }
    }
    Some(rest)
}

/// How many bytes there are up to the first `*/` and with it, if there is one.
pub fn closing(bytes: &[u8]) -> Option<usize>
    ensures value { result ≡ closing_at 0 bytes.now }
    ensures bound { IfSome result (λ n. n ≤ length bytes.now) }
{
    let mut rest = bytes;
    let mut length = 0;
    while let [first, tail @ ..] = rest {
        if *first == b'*' && matches!(tail, [b'/', ..]) {
            return Some(length + 2);
        }
        length += 1;
        rest = tail;
    }
    None
}

/// Whether the bytes begin with a digit.
fn has_digit(radix: u32, bytes: &[u8]) -> bool
    requires low { 2 ≤ radix }
    requires high { radix ≤ 16 }
    ensures { result ≡ first_passes (λ d. is_digit d radix) bytes.now }
{
    matches!(bytes, [first, ..] if char::from(*first).is_digit(radix))
}

/// The number that the digits at the front spell, behind `before` bytes that spell `value`; nothing
/// where the number passes 64 bits.
fn digits(radix: u32, value: u64, before: usize, bytes: &[u8]) -> Option<Prefix<u64>>
    requires low { 2 ≤ radix }
    requires high { radix ≤ 16 }
    requires short { before ≤ 2 }
    ensures value { result ≡ digits_at radix value before bytes.now }
    ensures bound { IfSome result (λ n. n.length ≤ before + length bytes.now) }
{
    let mut rest = bytes;
    let mut total = value;
    let mut length = before;
    while let [first, tail @ ..] = rest {
        let Some(digit) = char::from(*first).to_digit(radix) else {
            break;
        };
        total = total
            .checked_mul(u64::from(radix))?
            .checked_add(u64::from(digit))?;
        length += 1;
        rest = tail;
    }
    Some(Prefix::new(total, length))
}

/// The decimal number at the front: 0, or digits without a leading zero.
pub fn decimal(bytes: &[u8]) -> Option<Prefix<u64>>
    ensures value { result ≡ decimal_at bytes.now }
    ensures bound { IfSome result (λ n. n.length ≤ length bytes.now) }
{
    let [first, rest @ ..] = bytes else {
        return None;
    };
    let digit = char::from(*first).to_digit(10)?;
    if digit == 0 {
        return Some(Prefix::new(0, 1));
    }
    digits(10, u64::from(digit), 1, rest)
}

/// The number at the front: `0x` and hexadecimal digits, or decimal.
pub fn number(bytes: &[u8]) -> Option<Prefix<u64>>
    ensures value { result ≡ numeral_at bytes.now }
    ensures bound { IfSome result (λ n. n.length ≤ length bytes.now) }
{
    match strip(b"0x", bytes) {
        Some(rest) if has_digit(16, rest) => digits(16, 0, 2, rest),
        _ => decimal(bytes),
    }
}

/// `align(n)` at the front.
pub fn align(bytes: &[u8]) -> Option<Prefix<u64>>
    ensures value { result ≡ align_at bytes.now }
    ensures bound { IfSome result (λ n. n.length ≤ length bytes.now) }
{
    let inside = strip(b"align(", bytes)?;
    let number = number(inside)?;
    strip(b")", inside.split_at(number.length).1)?;
    Some(Prefix::new(number.value, number.length + 7))
}
