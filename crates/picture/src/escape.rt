//! Text inside of markup.

ghost use Rattle.std.specs.Prelude.{◌≡◌, ◌++◌, OnOk, flat_map, string_bytes};
ghost use Rattle.picture.specs.Escaping.{escaped, escaped_byte};

use std::alloc::AllocError;

// Writes a character of ASCII, or what stands for it where it would be markup; another has no place in a name.
fn write_byte(out: &mut String, byte: u8) -> Result<(), AllocError>
    ensures { OnOk result (string_bytes out.new ≡ string_bytes out.old ++ escaped_byte byte) }
{
    match byte {
        b'&' => out.push_str("&amp;"),
        b'<' => out.push_str("&lt;"),
        b'>' => out.push_str("&gt;"),
        b'"' => out.push_str("&quot;"),
        b'\'' => out.push_str("&apos;"),
        _ if byte < 128 => out.push(char::from(byte)),
        _ => out.push_str("?"),
    }
}

// Writes bytes as markup has them.
fn write_bytes(out: &mut String, bytes: &[u8]) -> Result<(), AllocError>
    ensures { OnOk result (string_bytes out.new ≡ string_bytes out.old ++ flat_map escaped_byte bytes.now) }
{
    for byte in bytes {
        write_byte(out, *byte)?;
    }
    Ok(())
}

/// Writes a text as markup has it.
pub fn write_escaped(out: &mut String, text: &str) -> Result<(), AllocError>
    ensures { OnOk result (string_bytes out.new ≡ string_bytes out.old ++ escaped text.now) }
{
    write_bytes(out, text.as_bytes())
}
