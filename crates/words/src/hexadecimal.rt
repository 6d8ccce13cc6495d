//! Bytes as hexadecimal digits, two each: read in either case, written in lower case.

ghost use Rattle.std.specs.Prelude.{◌≡◌, ◌++◌, ◌<◌, ◌∷◌, [], IfOk, OnOk, MatchOption, option_map, length, string_bytes};
ghost use Rattle.std.specs.Option.{is_some};
ghost use Rattle.words.specs.Bytes.{byte_of, bytes_word, hex_digit, hex_digits, text_of_byte, text_of_bytes};

use crate::digits::digit_value;
use std::alloc::{AllocError, Global};

/// The byte of two digits.
pub(crate) fn byte(high: u8, low: u8) -> Option<u8>
    ensures { result ≡ byte_of high low }
{
    let both = digit_value(high) * 16 + digit_value(low);
    if both < 256 { Some(both as u8) } else { None }
}

/// Bytes in order, two hexadecimal digits each.
pub fn bytes(alloc: Global, word: &[u8]) -> Result<Option<Vec<u8>>, AllocError>
    ensures { IfOk result (λ read. option_map (λ bytes. bytes.items) read ≡ bytes_word word.now) }
{
    let mut read = Vec::new(alloc);
    let mut rest = word;
    while let Some((high, further)) = rest.split_first() {
        let Some((low, further)) = further.split_first() else {
            return Ok(None);
        };
        let Some(byte) = byte(*high, *low) else {
            return Ok(None);
        };
        read.push(byte)?;
        rest = further;
    }
    Ok(Some(read))
}

/// The first two digits of a word, and what stands after them.
pub(crate) fn split_digits(word: &[u8]) -> Option<(u8, u8, &[u8])>
    ensures { MatchOption result (length word.now < 2) (λ found. word.now ≡ found.0 ∷ found.1 ∷ found.2.now) }
{
    let (high, behind) = word.split_first()?;
    let (low, further) = behind.split_first()?;
    Some((*high, *low, further))
}

/// Whether a word is bytes in order, two hexadecimal digits each.
pub fn are_bytes(word: &[u8]) -> bool
    ensures { result ≡ is_some (bytes_word word.now) }
{
    let mut rest = word;
    while let Some((high, low, further)) = split_digits(rest) {
        let Some(_value) = byte(high, low) else {
            return false;
        };
        rest = further;
    }
    rest.is_empty()
}

// Writes a hexadecimal digit, in lower case.
fn write_digit(out: &mut String, value: u8) -> Result<(), AllocError>
    requires { value < 16 }
    ensures { OnOk result (string_bytes out.new ≡ string_bytes out.old ++ hex_digit value ∷ []) }
{
    let digit = if value < 10 {
        b'0' + value
    } else {
        b'a' + (value - 10)
    };
    out.push(char::from(digit))
}

/// Writes the last `count` hexadecimal digits of a number.
pub(crate) fn write_digits(out: &mut String, count: u8, number: u64) -> Result<(), AllocError>
    ensures { OnOk result (string_bytes out.new ≡ string_bytes out.old ++ hex_digits count number) }
{
    if count == 0 {
        return Ok(());
    }
    write_digits(out, count - 1, number / 16)?;
    write_digit(out, (number % 16) as u8)
}

// Writes a byte.
fn write_byte(out: &mut String, byte: u8) -> Result<(), AllocError>
    ensures { OnOk result (string_bytes out.new ≡ string_bytes out.old ++ text_of_byte byte) }
{
    write_digit(out, byte / 16)?;
    write_digit(out, byte % 16)
}

/// Writes bytes in order.
pub fn write_bytes(out: &mut String, bytes: &[u8]) -> Result<(), AllocError>
    ensures { OnOk result (string_bytes out.new ≡ string_bytes out.old ++ text_of_bytes bytes.now) }
{
    for byte in bytes {
        write_byte(out, *byte)?;
    }
    Ok(())
}

// Puts a hexadecimal digit after a text, in lower case.
fn put_digit(out: &mut Vec<u8>, value: u8) -> Result<(), AllocError>
    requires { value < 16 }
    ensures { OnOk result (out.new.items ≡ out.old.items ++ hex_digit value ∷ []) }
{
    let digit = if value < 10 {
        b'0' + value
    } else {
        b'a' + (value - 10)
    };
    Ok(out.push(digit)?)
}

/// Puts the last `count` hexadecimal digits of a number after a text.
pub(crate) fn put_digits(out: &mut Vec<u8>, count: u8, number: u64) -> Result<(), AllocError>
    ensures { OnOk result (out.new.items ≡ out.old.items ++ hex_digits count number) }
{
    if count == 0 {
        return Ok(());
    }
    put_digits(out, count - 1, number / 16)?;
    put_digit(out, (number % 16) as u8)
}

// Puts a byte after a text: two hexadecimal digits.
fn put_byte(out: &mut Vec<u8>, byte: u8) -> Result<(), AllocError>
    ensures { OnOk result (out.new.items ≡ out.old.items ++ text_of_byte byte) }
{
    put_digit(out, byte / 16)?;
    put_digit(out, byte % 16)
}

/// Puts bytes after a text, in order.
pub fn put_bytes(out: &mut Vec<u8>, bytes: &[u8]) -> Result<(), AllocError>
    ensures { OnOk result (out.new.items ≡ out.old.items ++ text_of_bytes bytes.now) }
{
    for byte in bytes {
        put_byte(out, *byte)?;
    }
    Ok(())
}
