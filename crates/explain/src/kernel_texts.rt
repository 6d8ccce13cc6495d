//! Lines of a policy's kernels, as their texts have them.

use crate::texts::put_word;
use aql_packet::KernelObject;
use policy::Policy;
use std::alloc::AllocError;

// How many bytes stand before the first line feed.
fn line_length(text: &[u8]) -> usize {
    for (index, byte) in text.iter().enumerate() {
        if *byte == b'\n' {
            return index;
        }
    }
    text.len()
}

/// The line of a number, from 1, of a text; no bytes where there is none.
pub fn line_of(text: &[u8], number: u32) -> &[u8] {
    let mut rest = text;
    for _ in 1..number {
        let at = line_length(rest).saturating_add(1).min(rest.len());
        rest = rest.split_at(at).1;
    }
    rest.split_at(line_length(rest).min(rest.len())).0
}

// Where the brackets of an address begin and end in a line, or its first word and its end.
fn marked(line: &[u8]) -> (usize, usize) {
    let mut begin = line.len();
    let mut end = line.len();
    let mut word = line.len();
    for (index, byte) in line.iter().enumerate() {
        if *byte == b'[' && begin == line.len() {
            begin = index;
        }
        if *byte == b']' && begin < line.len() && end == line.len() {
            end = index.saturating_add(1);
        }
        if *byte != b' ' && *byte != b'\t' && word == line.len() {
            word = index;
        }
    }
    if begin < line.len() {
        (begin, end)
    } else {
        (word, line.len())
    }
}

/// Puts a line of a kernel's text behind a text, and below it a mark under its address, or under all of it.
pub fn put_marked(out: &mut String, line: &[u8]) -> Result<(), AllocError> {
    out.push_str("  ")?;
    for byte in line {
        out.push(match byte {
            b' '..=b'~' | b'\t' => char::from(*byte),
            _ => '?',
        })?;
    }
    out.push_str("\n  ")?;
    let (begin, end) = marked(line);
    for (index, byte) in line.iter().enumerate() {
        if index < begin {
            out.push(if *byte == b'\t' { '\t' } else { ' ' })?;
        } else if index < end {
            out.push('^')?;
        }
    }
    out.push_str("\n")
}

/// Puts a kernel's name and its entry behind a text.
pub fn put_kernel(
    out: &mut String,
    policy: &Policy,
    kernel: KernelObject,
) -> Result<(), AllocError> {
    let number = kernel.0;
    match policy.object_name(policy::Object::Kernel(kernel)) {
        Some(name) => write!(out, "kernel {name}")?,
        None => write!(out, "kernel {number}")?,
    }
    if let Some(source) = policy.kernel_source(kernel) {
        out.push_str(", ")?;
        put_word(out, source.entry().as_bytes())?;
        out.push_str(" of its text")?;
    }
    Ok(())
}
