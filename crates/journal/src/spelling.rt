//! How words are written, and how bytes are held against digits.

ghost use Rattle.std.specs.Prelude.{◌≡◌, ◌++◌, ◌<◌, ◌∷◌, ◌/◌, ◌%◌, ◌==◌, ◌&&◌, [], OnOk, bytes_eq, map, string_bytes};
ghost use Rattle.journal.specs.Words.{hex_digit, text_of_byte, text_of_bytes, flag_digit};

use crate::digits::split_digits;
use std::alloc::AllocError;

// Writes a hexadecimal digit, in lower case.
fn write_digit(out: &mut String, value: u8) -> Result<(), AllocError>
    requires { value < 16 }
    ensures { OnOk result (string_bytes out.new ≡ string_bytes out.old ++ hex_digit value ∷ []) }
{
    let digit = if value < 10 {
        b'0' + value
    } else {
        b'a' + (value - 10)
    };
    out.push(char::from(digit))
}

// Writes a byte.
fn write_byte(out: &mut String, byte: u8) -> Result<(), AllocError>
    ensures { OnOk result (string_bytes out.new ≡ string_bytes out.old ++ text_of_byte byte) }
{
    write_digit(out, byte / 16)?;
    write_digit(out, byte % 16)
}

/// Writes bytes in order.
pub fn write_bytes(out: &mut String, bytes: &[u8]) -> Result<(), AllocError>
    ensures { OnOk result (string_bytes out.new ≡ string_bytes out.old ++ text_of_bytes bytes.now) }
{
    for byte in bytes {
        write_byte(out, *byte)?;
    }
    Ok(())
}

// Writes a flag's digit.
fn write_flag(out: &mut String, set: bool) -> Result<(), AllocError>
    ensures { OnOk result (string_bytes out.new ≡ string_bytes out.old ++ flag_digit set ∷ []) }
{
    out.push(if set { '1' } else { '0' })
}

/// Writes flags in order.
pub fn write_flags(out: &mut String, flags: &[bool]) -> Result<(), AllocError>
    ensures { OnOk result (string_bytes out.new ≡ string_bytes out.old ++ map flag_digit flags.now) }
{
    for flag in flags {
        write_flag(out, *flag)?;
    }
    Ok(())
}

// A hexadecimal digit, in lower case.
fn hex_digit(value: u8) -> u8
    requires { value < 16 }
    ensures { result ≡ hex_digit value }
{
    if value < 10 {
        b'0' + value
    } else {
        b'a' + (value - 10)
    }
}

// Whether two digits are those of a byte.
fn are_digits_of(high: u8, low: u8, byte: u8) -> bool
    ensures { result ≡ (high == hex_digit (byte / 16) && low == hex_digit (byte % 16)) }
{
    high == hex_digit(byte / 16) && low == hex_digit(byte % 16)
}

/// Whether digits are those of bytes in order, and no more.
pub fn are_spelled(told: &[u8], bytes: &[u8]) -> bool
    ensures { result ≡ bytes_eq told.now (text_of_bytes bytes.now) }
{
    let mut rest = told;
    for byte in bytes {
        let Some((high, low, further)) = split_digits(rest) else {
            return false;
        };
        if are_digits_of(high, low, *byte) {
            rest = further;
        } else {
            return false;
        }
    }
    rest.is_empty()
}
