//! Addresses: 16 hexadecimal digits.

ghost use Rattle.std.specs.Prelude.{◌≡◌, ◌++◌, OnOk, option_map, string_bytes};
ghost use Rattle.words.specs.Numbers.{address_word};
ghost use Rattle.words.specs.Bytes.{text_of_address};

use crate::digits::number;
use crate::hexadecimal::{put_digits, write_digits};
use aql_packet::Address;
use std::alloc::AllocError;

/// An address.
pub fn address(word: &[u8]) -> Option<Address>
    ensures { option_map (λ address. address.0) result ≡ address_word word.now }
{
    if word.len() == 16 {
        Some(Address(number(16, word)?))
    } else {
        None
    }
}

/// Writes an address.
pub fn write_address(out: &mut String, address: Address) -> Result<(), AllocError>
    ensures { OnOk result (string_bytes out.new ≡ string_bytes out.old ++ text_of_address address.0) }
{
    write_digits(out, 16, address.0)
}

/// Puts an address after a text that need not be UTF-8.
pub fn put_address(out: &mut Vec<u8>, address: Address) -> Result<(), AllocError>
    ensures { OnOk result (out.new.items ≡ out.old.items ++ text_of_address address.0) }
{
    put_digits(out, 16, address.0)
}
