//! The files of kernels' texts that a policy in the making names, and the policy with the texts in their place.

use crate::positions::{Position, find, position_at, small};
use crate::strings::put_lines;
use policy::{Key, MOST_KERNELS, Section};
use std::alloc::{AllocError, Global};
use toml_parser::{ParseError, quoted, starts_string};

/// The key that names the file of a kernel's text.
pub const TEXT_FILE: &str = "text_file";

/// A file that a row of kernels names in place of its text.
#[derive(Debug, Drop)]
pub struct TextFile<'a> {
    /// The file's name, as it stands there.
    pub name: String,
    /// Where the name stands in the policy.
    pub position: Position,
    // The policy's text from the key on, and behind the key's value.
    from: &'a str,
    behind: &'a str,
}

/// Why the files that a policy names aren't known.
#[derive(Clone, Copy, Debug, PartialEq, Eq)]
pub enum NoFiles {
    /// Memory was wanted and not to be had.
    OutOfMemory,
    /// The name of a file that stands here is no string.
    NoName(Position),
    /// The row has a text too: the name of its file stands here.
    TwoTexts(Position),
}

impl From<AllocError> for NoFiles {
    fn from(_error: AllocError) -> NoFiles {
        NoFiles::OutOfMemory
    }
}

// Where a part of a text that reaches to its end begins.
fn position_in(policy: &str, from: &str) -> Position {
    position_at(policy.as_bytes(), policy.len().saturating_sub(from.len()))
}

// The string that a text begins with, and what stands behind it; none where it begins with none.
fn string_at<'a>(alloc: Global, text: &'a str) -> Result<Option<(String, &'a str)>, AllocError> {
    if !starts_string(text) {
        return Ok(None);
    }
    match quoted(alloc, text) {
        Ok(read) => Ok(Some(read)),
        Err(ParseError::OutOfMemory) => Err(AllocError),
        Err(_) => Ok(None),
    }
}

// Whether a row of kernels has a text.
fn has_text(alloc: Global, policy: &str, row: u32) -> Result<bool, AllocError> {
    let kernels = Section::Kernel.name();
    let found = find(alloc, policy.as_bytes(), kernels, row, Key::Text.name())?;
    Ok(found.value.is_some())
}

// The file that a key of a row of kernels names, whose value this is.
fn file_at<'a>(
    alloc: Global,
    policy: &'a str,
    row: u32,
    from: &'a str,
    value: &'a str,
) -> Result<TextFile<'a>, NoFiles> {
    let position = position_in(policy, value);
    let Some((name, behind)) = string_at(alloc, value)? else {
        return Err(NoFiles::NoName(position));
    };
    if has_text(alloc, policy, row)? {
        return Err(NoFiles::TwoTexts(position));
    }
    Ok(TextFile {
        name,
        position,
        from,
        behind,
    })
}

// Adds the file that a row of kernels names, if it names one, and tells whether there is such a row.
fn put_file_of<'a>(
    alloc: Global,
    files: &mut Vec<TextFile<'a>>,
    policy: &'a str,
    row: u32,
) -> Result<bool, NoFiles> {
    let kernels = Section::Kernel.name();
    let found = find(alloc, policy.as_bytes(), kernels, row, TEXT_FILE)?;
    if found.row.is_none() {
        return Ok(false);
    }
    if let (Some(from), Some(value)) = (found.key, found.value) {
        let file = file_at(alloc, policy, row, from, value)?;
        if files.push(file).is_err() {
            return Err(NoFiles::OutOfMemory);
        }
    }
    Ok(true)
}

/// The files that the rows of kernels of a policy name in place of their texts, in their order.
pub fn text_files<'a>(alloc: Global, policy: &'a str) -> Result<Vec<TextFile<'a>>, NoFiles> {
    let mut files = Vec::new(alloc);
    for row in 0..MOST_KERNELS {
        if !put_file_of(alloc, &mut files, policy, small(row).saturating_add(1))? {
            return Ok(files);
        }
    }
    Ok(files)
}

// Adds what stands in a text from so many bytes on, up to a part that reaches to its end.
fn put_between(
    out: &mut String,
    policy: &str,
    from: usize,
    behind: &str,
) -> Result<(), AllocError> {
    let end = policy.len().saturating_sub(behind.len());
    if let Some((front, _)) = policy.split_at_checked(end) {
        if let Some((_, between)) = front.split_at_checked(from) {
            return out.push_str(between);
        }
    }
    Ok(())
}

/// A policy with the texts of its files in their place, one for each file; all else stands there as it was.
pub fn embedded(
    alloc: Global,
    policy: &str,
    files: &[TextFile<'_>],
    texts: &[String],
) -> Result<String, AllocError> {
    let mut out = String::new(alloc);
    let mut done = 0;
    let key = Key::Text.name();
    for (file, text) in files.iter().zip(texts) {
        put_between(&mut out, policy, done, file.from)?;
        write!(out, "{key} = ")?;
        put_lines(&mut out, text.as_str())?;
        done = policy.len().saturating_sub(file.behind.len());
    }
    put_between(&mut out, policy, done, "")?;
    Ok(out)
}
