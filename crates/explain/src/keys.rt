//! The keys of a policy, and what may stand there.

use crate::texts::put_word;
use policy::{Key, Kind, Right};
use std::alloc::AllocError;
use toml::Value;

/// What may stand at a key.
pub fn wanted(key: Key) -> &'static str {
    match key {
        Key::Version => "1, or 2 where the policy has deny rows",
        Key::Name => "a name: 1 to 64 letters, digits, _ or -",
        Key::Takes => "an array of \"kernel\" and \"agent\", or an empty one",
        Key::Length => "a number of bytes, 1 to 16777216",
        Key::Initial => "a number of 64 bits",
        Key::Entry => "a text that begins with &, the name of a kernel of the text",
        Key::Text => "the text of a module",
        Key::Client | Key::Object => "a name that the policy declares, or \"*\" for all",
        Key::Kind => "\"agent\", \"region\", \"signal\" or \"kernel\"",
        Key::Rights => {
            "an array of rights on the row's kind: USE on agents, READ and WRITE on regions, WAIT and CHANGE on signals, LAUNCH on kernels"
        }
    }
}

/// The rights that there are on objects of a kind.
pub fn rights_of(kind: Kind) -> &'static [Right] {
    match kind {
        Kind::Agent => &[Right::Use],
        Kind::Region => &[Right::Read, Right::Write],
        Kind::Signal => &[Right::Wait, Right::Change],
        Kind::Kernel => &[Right::Launch],
    }
}

/// Puts a value behind a text: a text in quotes, a number, or the name of another type.
pub fn put_value(out: &mut String, value: &Value) -> Result<(), AllocError> {
    if let Some(text) = value.as_str() {
        return put_word(out, text.as_bytes());
    }
    if let Some(number) = value.as_integer() {
        return write!(out, "{number}");
    }
    let kind = value.type_str();
    if let Some(items) = value.as_array() {
        out.push_str("an array of ")?;
        for (index, item) in items.as_slice().iter().enumerate() {
            out.push_str(if index > 0 { ", " } else { "" })?;
            match item.as_str() {
                Some(text) => put_word(out, text.as_bytes())?,
                None => out.push_str(item.type_str())?,
            }
        }
        return Ok(());
    }
    write!(out, "of the type {kind}")
}
