//! Decimal numbers, with a sign and without, and numbers that are hexadecimal after `0x`.

ghost use Rattle.std.specs.Prelude.{◌≡◌, option_and_then, option_map};
ghost use Rattle.words.specs.Lines.{one_word, words};
ghost use Rattle.words.specs.Numbers.{digits_word, decimal_word, first_decimal, number_word, negative, positive, signed_word};

use crate::digits::{digit, number, with_digit};
use crate::lines::{is_blank, no_words, skip_blanks};

// The number of a word of digits.
fn digits(base: u8, word: &[u8]) -> Option<u64>
    ensures { result ≡ digits_word base word.now }
{
    if word.is_empty() {
        return None;
    }
    number(base, word)
}

/// A decimal number.
pub fn decimal(word: &[u8]) -> Option<u64>
    ensures { result ≡ decimal_word word.now }
{
    digits(10, word)
}

/// The decimal number that the first word of a line is, and what comes after it. The word's end is found as its digits
/// are read.
pub fn split_decimal(line: &[u8]) -> Option<(u64, &[u8])>
    ensures { option_map (λ found. (found.0, words found.1.now)) result ≡ first_decimal (words line.now) }
{
    let text = skip_blanks(line);
    if text.is_empty() {
        return None;
    }
    let mut number = 0;
    for (index, byte) in text.iter().enumerate() {
        if is_blank(*byte) {
            return Some((number, text.split_at(index).1));
        }
        number = with_digit(10, number, digit(*byte)?)?;
    }
    Some((number, &[]))
}

/// The decimal number that is the only word of a line.
#[tactic(auto, using(crate::proofs::Leading::only_is))]
pub fn only_decimal(line: &[u8]) -> Option<u64>
    ensures { result ≡ option_and_then decimal_word (one_word (words line.now)) }
{
    let (number, rest) = split_decimal(line)?;
    if no_words(rest) { Some(number) } else { None }
}

/// A number of 64 bits: decimal, or hexadecimal after `0x`.
pub fn natural(word: &[u8]) -> Option<u64>
    ensures { result ≡ number_word word.now }
{
    if let [first, second, hexadecimal @ ..] = word {
        if *first == b'0' && *second == b'x' {
            return digits(16, hexadecimal);
        }
    }
    digits(10, word)
}

// A number as a negative number.
fn negative(number: u64) -> Option<i64>
    ensures { result ≡ negative number }
{
    if number < 1 << 63 {
        Some(-(number as i64))
    } else if number == 1 << 63 {
        Some(i64::MIN)
    } else {
        None
    }
}

// A number as a signed number.
fn positive(number: u64) -> Option<i64>
    ensures { result ≡ positive number }
{
    if number < 1 << 63 {
        Some(number as i64)
    } else {
        None
    }
}

/// A signed decimal number.
pub fn signed(word: &[u8]) -> Option<i64>
    ensures { result ≡ signed_word word.now }
{
    let (first, digits) = word.split_first()?;
    if *first == b'-' {
        negative(decimal(digits)?)
    } else {
        positive(decimal(word)?)
    }
}
