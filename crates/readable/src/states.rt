//! How what there is is told.

ghost use Rattle.std.specs.Prelude.{◌≡◌, ◌++◌, ℕ, List, OnOk, codes, string_bytes};

use explain::State;
use json_replies::{begin, end, put_comma, put_name};
use std::alloc::{AllocError, Global};

// How many lines there are, and these.
fn rest_told(alloc: Global, state: &State) -> Result<String, AllocError> {
    let count = state.count;
    let mut rest = format!(in alloc; "{count}\n")?;
    rest.push_str(state.lines.as_str())?;
    Ok(rest)
}

/// Writes it as text: how many lines there are, and these.
pub fn write_text(alloc: Global, out: &mut String, state: &State) -> Result<(), AllocError>
    ensures { OnOk result ((rest : List ℕ) × (string_bytes out.new ≡ string_bytes out.old ++ (codes "state " ++ rest))) }
{
    let rest = rest_told(alloc, state)?;
    out.push_str("state ")?;
    out.push_str(rest.as_str())
}

/// Writes it as an object of JSON: the reply to the line of this number.
pub fn write_json(out: &mut String, line: u64, state: &State) -> Result<(), AllocError> {
    begin(out, line, "state")?;
    put_name(out, "lines")?;
    out.push_str("[")?;
    for told in state.lines.as_str().split('\n') {
        if !told.is_empty() {
            put_comma(out)?;
            write!(out, "\"{told}\"")?;
        }
    }
    out.push_str("]")?;
    end(out)
}
