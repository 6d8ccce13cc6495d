//! The lines of a text, as they are shown.

ghost use Rattle.std.specs.Prelude.{◌≤◌, length};

use std::alloc::{AllocError, Global};

// How many bytes stand before the first line feed.
fn line_length(text: &[u8]) -> usize
    ensures { result ≤ length text.now }
{
    for (index, byte) in text.iter().enumerate() {
        if *byte == b'\n' {
            return index;
        }
    }
    text.len()
}

/// The lines of a text, without their line feeds.
pub fn lines<'a>(alloc: Global, text: &'a [u8]) -> Result<Vec<&'a [u8]>, AllocError> {
    let mut lines = Vec::new(alloc);
    let mut rest = text;
    for _ in 0..text.len() {
        let (line, behind) = rest.split_at(line_length(rest));
        lines.push(line)?;
        let [_, further @ ..] = behind else {
            return Ok(lines);
        };
        rest = further;
    }
    lines.push(rest)?;
    Ok(lines)
}

/// The line of a number, from 1; no bytes where there is none.
pub fn line<'a>(lines: &[&'a [u8]], number: u32) -> &'a [u8] {
    match (number as usize).checked_sub(1) {
        Some(before) if before < lines.len() => lines[before],
        _ => &[],
    }
}

/// Whether a byte is a blank in a line.
pub fn is_blank(byte: u8) -> bool {
    byte == b' ' || byte == b'\t' || byte == b'\r'
}

/// How many blanks a line begins with.
pub fn blanks(line: &[u8]) -> usize {
    for (index, byte) in line.iter().enumerate() {
        if !is_blank(*byte) {
            return index;
        }
    }
    line.len()
}

/// A line without the blanks at its end.
pub fn without_end(line: &[u8]) -> &[u8] {
    let mut length = 0;
    for (index, byte) in line.iter().enumerate() {
        if !is_blank(*byte) {
            length = index + 1;
        }
    }
    line.split_at(length.min(line.len())).0
}

/// Adds bytes as they are shown: a byte that is no printing letter of ASCII and no tab is `?`, so that a column is one
/// letter.
pub fn show(text: &mut String, bytes: &[u8]) -> Result<(), AllocError> {
    for byte in bytes {
        text.push(match byte {
            b' '..=b'~' | b'\t' => char::from(*byte),
            _ => '?',
        })?;
    }
    Ok(())
}
