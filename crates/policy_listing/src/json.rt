//! What a policy declares, as JSON.

use crate::declared::Declared;
use serde_json::to_string;
use std::alloc::{AllocError, Global};

/// One object of JSON, on a line: a member for each kind, and in each an object a row, with the names of the fields of
/// `Declared`. It fails only where memory is wanted and not to be had.
pub fn to_json(alloc: Global, declared: &Declared<'_>) -> Result<String, AllocError> {
    let Ok(mut text) = to_string(alloc, declared) else {
        return Err(AllocError);
    };
    text.push_str("\n")?;
    Ok(text)
}
