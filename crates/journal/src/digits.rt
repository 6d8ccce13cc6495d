//! What single words are read as.

ghost use Rattle.std.specs.Prelude.{◌≡◌, ◌∷◌, ◌<◌, ◌≤◌, IfOk, MatchOption, length, option_map};
ghost use Rattle.journal.specs.Words.{digit_of, with_digit, number_from, decimal_word, within, number_word, negative, positive, signed_word, hex_digit_of, byte_of, bytes_word, packet_word, flag_of, flag_at, no_more, flags_word, number_at, signed_at, packet_at, flags_at, bytes_at, words_behind, seen};

use crate::splitting::{Rest, next_word};
use sequences::Sequence;
use std::alloc::{AllocError, Global};

// The value of a decimal digit.
fn digit(byte: u8) -> Option<u8>
    ensures { result ≡ digit_of byte }
{
    if byte >= b'0' && byte < 58 {
        Some(byte - b'0')
    } else {
        None
    }
}

// A number with a further digit.
fn with_digit(number: u64, digit: u8) -> Option<u64>
    ensures { result ≡ with_digit number digit }
{
    let next = number as u128 * 10 + digit as u128;
    if next < 1 << 64 {
        Some(next as u64)
    } else {
        None
    }
}

// The number that decimal digits stand for.
fn number(word: &[u8]) -> Option<u64>
    ensures { result ≡ number_from 0 word.now }
{
    let mut number = 0;
    for byte in word {
        number = with_digit(number, digit(*byte)?)?;
    }
    Some(number)
}

// A decimal number.
fn decimal(word: &[u8]) -> Option<u64>
    ensures { result ≡ decimal_word word.now }
{
    if word.is_empty() {
        return None;
    }
    number(word)
}

/// A decimal number of 64 bits, as the next word.
pub fn number_at(rest: Rest) -> Option<(u64, Rest)>
    ensures { seen result ≡ number_at 64 (words_behind rest.entry) }
{
    let (word, rest) = next_word(rest)?;
    Some((decimal(word)?, rest))
}

// A number, if it has 32 bits.
fn small(number: u64) -> Option<u32>
    ensures { result ≡ within 32 number }
{
    if number < 1 << 32 {
        Some(number as u32)
    } else {
        None
    }
}

/// A decimal number of 32 bits, as the next word.
pub fn small_at(rest: Rest) -> Option<(u32, Rest)>
    ensures { seen result ≡ number_at 32 (words_behind rest.entry) }
{
    let (word, rest) = next_word(rest)?;
    Some((small(decimal(word)?)?, rest))
}

// A number, if it has 8 bits.
fn tiny(number: u64) -> Option<u8>
    ensures { result ≡ within 8 number }
{
    if number < 256 {
        Some(number as u8)
    } else {
        None
    }
}

/// A decimal number of 8 bits, as the next word.
pub fn tiny_at(rest: Rest) -> Option<(u8, Rest)>
    ensures { seen result ≡ number_at 8 (words_behind rest.entry) }
{
    let (word, rest) = next_word(rest)?;
    Some((tiny(decimal(word)?)?, rest))
}

// A number as a negative number.
fn negative(number: u64) -> Option<i64>
    ensures { result ≡ negative number }
{
    if number < 1 << 63 {
        Some(-(number as i64))
    } else if number == 1 << 63 {
        Some(i64::MIN)
    } else {
        None
    }
}

// A number as a signed number.
fn positive(number: u64) -> Option<i64>
    ensures { result ≡ positive number }
{
    if number < 1 << 63 {
        Some(number as i64)
    } else {
        None
    }
}

// A signed decimal number.
fn signed(word: &[u8]) -> Option<i64>
    ensures { result ≡ signed_word word.now }
{
    let (first, digits) = word.split_first()?;
    if *first == b'-' {
        negative(decimal(digits)?)
    } else {
        positive(decimal(word)?)
    }
}

/// A signed decimal number of 64 bits, as the next word.
pub fn signed_at(rest: Rest) -> Option<(i64, Rest)>
    ensures { seen result ≡ signed_at (words_behind rest.entry) }
{
    let (word, rest) = next_word(rest)?;
    Some((signed(word)?, rest))
}

// The value of a hexadecimal digit, in lower case.
fn hex_digit(byte: u8) -> Option<u8>
    ensures { result ≡ hex_digit_of byte }
{
    if byte >= b'0' && byte < 58 {
        Some(byte - b'0')
    } else if byte >= b'a' && byte < 103 {
        Some(byte - 87)
    } else {
        None
    }
}

// The byte of two digits.
fn byte(high: u8, low: u8) -> Option<u8>
    ensures { result ≡ byte_of high low }
{
    let high = hex_digit(high)?;
    let low = hex_digit(low)?;
    Some(16 * high + low)
}

// Bytes in order, two hexadecimal digits each.
fn bytes(alloc: Global, word: &[u8]) -> Result<Option<Vec<u8>>, AllocError>
    ensures { IfOk result (λ read. option_map (λ bytes. bytes.items) read ≡ bytes_word word.now) }
{
    let mut read = Vec::new(alloc);
    let mut rest = word;
    while let Some((high, further)) = rest.split_first() {
        let Some((low, further)) = further.split_first() else {
            return Ok(None);
        };
        let Some(byte) = byte(*high, *low) else {
            return Ok(None);
        };
        read.push(byte)?;
        rest = further;
    }
    Ok(Some(read))
}

/// Bytes in order, as the next word.
pub fn bytes_at(alloc: Global, rest: Rest) -> Result<Option<(Sequence<u8>, Rest)>, AllocError>
    ensures { IfOk result (λ read. seen read ≡ bytes_at (words_behind rest.entry)) }
{
    let Some((word, rest)) = next_word(rest) else {
        return Ok(None);
    };
    let Some(bytes) = bytes(alloc, word)? else {
        return Ok(None);
    };
    Ok(Some((Sequence::from_vec(bytes), rest)))
}

/// The first two digits of a word, and what stands behind them.
pub fn split_digits(word: &[u8]) -> Option<(u8, u8, &[u8])>
    ensures { MatchOption result (length word.now < 2) (λ found. word.now ≡ found.0 ∷ found.1 ∷ found.2.now) }
{
    let (high, behind) = word.split_first()?;
    let (low, further) = behind.split_first()?;
    Some((*high, *low, further))
}

// A packet's bytes: just 64.
fn packet_bytes(word: &[u8]) -> Option<[u8; 64]>
    ensures { result ≡ packet_word word.now }
{
    let mut bytes = [0; 64];
    let mut rest = word;
    for place in 0..64 {
        let (high, low, further) = split_digits(rest)?;
        bytes[place] = byte(high, low)?;
        rest = further;
    }
    if rest.is_empty() { Some(bytes) } else { None }
}

/// A packet's 64 bytes, as the next word.
pub fn packet_at(rest: Rest) -> Option<([u8; 64], Rest)>
    ensures { seen result ≡ packet_at (words_behind rest.entry) }
{
    let (word, rest) = next_word(rest)?;
    Some((packet_bytes(word)?, rest))
}

// A flag's digit.
fn flag(byte: u8) -> Option<bool>
    ensures { result ≡ flag_of byte }
{
    match byte {
        b'0' => Some(false),
        b'1' => Some(true),
        _ => None,
    }
}

// The flag of the first digit, and the digits behind it.
fn split_flag(word: &[u8]) -> Option<(bool, &[u8])>
    ensures { option_map (λ read. (read.0, read.1.now)) result ≡ flag_at word.now }
{
    let (first, digits) = word.split_first()?;
    Some((flag(*first)?, digits))
}

// The flags that were read, if no digits are left.
fn whole(flags: [bool; 5], digits: &[u8]) -> Option<[bool; 5]>
    ensures { result ≡ no_more flags digits.now }
{
    match digits.split_first() {
        None => Some(flags),
        Some(_) => None,
    }
}

// Five flags, a digit each.
fn flags(word: &[u8]) -> Option<[bool; 5]>
    ensures { result ≡ flags_word word.now }
{
    let (first, digits) = split_flag(word)?;
    let (second, digits) = split_flag(digits)?;
    let (third, digits) = split_flag(digits)?;
    let (fourth, digits) = split_flag(digits)?;
    let (fifth, digits) = split_flag(digits)?;
    whole([first, second, third, fourth, fifth], digits)
}

/// Five flags, as the next word.
pub fn flags_at(rest: Rest) -> Option<([bool; 5], Rest)>
    ensures { seen result ≡ flags_at (words_behind rest.entry) }
{
    let (word, rest) = next_word(rest)?;
    Some((flags(word)?, rest))
}
