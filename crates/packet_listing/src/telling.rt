//! What is told of 64 bytes.

ghost use Rattle.std.specs.Prelude.{◌≡◌};
ghost use Rattle.aql_packet.specs.Reading.{refusal};
ghost use Rattle.aql_packet.specs.Words.{is_invalid, words_of};
ghost use Rattle.std.specs.Prelude.{slice_index};

use crate::field::{Field, FieldForm, value_of};
use crate::layouts::{HEADER, layout_of, type_name};
use aql_packet::{CodecRule, decode, header_of, is_invalid, words_of};
use std::alloc::AllocError;

// The columns at which a field's name and its value begin.
const NAME: usize = 24;

const VALUE: usize = 46;

/// The first of the rules L1 to L3 that 64 bytes break, as `decode` tells it; none where they are a packet.
#[tactic(auto, unfolding(aql_packet::specs::Reading::decoded))]
pub fn first_failing(bytes: &[u8; 64]) -> Option<CodecRule>
    ensures { result ≡ refusal bytes.now }
{
    match decode(bytes) {
        Ok(_) => None,
        Err(rule) => Some(rule),
    }
}

/// Whether a slot of a ring holds no packet: its type is INVALID (PSA, Architected Queuing Language).
pub fn is_slot_empty(bytes: &[u8; 64]) -> bool
    ensures { result ≡ is_invalid (slice_index (words_of bytes.now) 0) }
{
    is_invalid(words_of(bytes)[0])
}

// Adds blanks up to a column, and one at least.
fn push_blanks(out: &mut String, begin: usize, column: usize) -> Result<(), AllocError> {
    out.push_str(" ")?;
    let end = begin.saturating_add(column);
    for _ in out.len()..end {
        out.push_str(" ")?;
    }
    Ok(())
}

// Adds where a field lies.
fn push_place(out: &mut String, field: &Field) -> Result<(), AllocError> {
    let Field {
        place,
        size,
        low,
        high,
        ..
    } = *field;
    let last = place.saturating_add(size).saturating_sub(1);
    write!(out, "bytes {place}-{last}")?;
    if field.is_whole() {
        Ok(())
    } else if low == high {
        write!(out, ", bit {low}")
    } else {
        write!(out, ", bits {high}:{low}")
    }
}

// What a scope is called.
fn scope_name(scope: u64) -> &'static str {
    match scope {
        0 => "none",
        1 => "agent",
        2 => "system",
        _ => "reserved",
    }
}

// Adds an address: its 16 digits.
fn push_address(out: &mut String, address: u64) -> Result<(), AllocError> {
    write!(out, "{address:016x}")
}

// Adds a number, and that 0 stands for none.
fn push_or_none(out: &mut String, value: u64) -> Result<(), AllocError> {
    if value == 0 {
        out.push_str(", none")
    } else {
        Ok(())
    }
}

// Adds what a field's number stands for.
fn push_value(out: &mut String, form: FieldForm, value: u64) -> Result<(), AllocError> {
    match form {
        FieldForm::Type => write!(out, "{value}, {}", type_name((value % 256) as u8)),
        FieldForm::Number => write!(out, "{value}"),
        FieldForm::Scope => write!(out, "{value}, {}", scope_name(value)),
        FieldForm::Word => {
            write!(out, "{value}, ")?;
            push_address(out, value)
        }
        FieldForm::Address => {
            push_address(out, value)?;
            push_or_none(out, value)
        }
        FieldForm::Signal => {
            write!(out, "{value}")?;
            push_or_none(out, value)
        }
        FieldForm::Reserved if value == 0 => out.push_str("0"),
        FieldForm::Reserved => write!(out, "{value}, has to be 0"),
    }
}

// Adds the line of a field.
fn push_field(out: &mut String, bytes: &[u8; 64], field: &Field) -> Result<(), AllocError> {
    let Some(value) = value_of(bytes, field) else {
        return Ok(());
    };
    let begin = out.len();
    push_place(out, field)?;
    push_blanks(out, begin, NAME)?;
    out.push_str(field.name)?;
    push_blanks(out, begin, VALUE)?;
    push_value(out, field.form, value)?;
    out.push_str("\n")
}

/// Adds a line for each field of 64 bytes: its bytes and bits, its name, and its value.
pub fn push_fields(out: &mut String, bytes: &[u8; 64]) -> Result<(), AllocError> {
    for field in &HEADER {
        push_field(out, bytes, field)?;
    }
    let kind = header_of(words_of(bytes)[0]).kind;
    for field in layout_of(kind) {
        push_field(out, bytes, field)?;
    }
    Ok(())
}

/// Adds the line that tells whether 64 bytes are a packet, or the first rule that they break.
pub fn push_verdict(out: &mut String, bytes: &[u8; 64]) -> Result<(), AllocError> {
    match first_failing(bytes) {
        None => out.push_str("L1 to L3 hold\n"),
        Some(rule) => writeln!(out, "breaks {rule:?}: {rule}"),
    }
}
