//! The values of a policy file's keys.

ghost use Rattle.std.specs.Prelude.{◌≡◌, ◌&&◌, ◌||◌, ◌==◌, nat_le, codes, map, length, slice_index, option_map};
ghost use Rattle.std.specs.List.{list_any, list_all};
ghost use Rattle.std.specs.Option.{option_copied};
ghost use Rattle.std.specs.Str.{bytes_eq};
ghost use Rattle.toml.specs.Data.{get_member};
ghost use Rattle.toml.specs.View.{view, table_view};
ghost use Rattle.policy.specs.Choice.{chosen_name};
ghost use Rattle.policy.specs.Format.{is_name_byte, is_name, a_name, a_text, a_number, an_entry, a_length, length_of_number, is_text, items_in, dispatches_in, some_dispatches, kind_named, a_kind, kind_of_right, names_right, rights_in, some_rights, a_choice, choice_of};

use crate::limits::MOST_NAME_BYTES;
use crate::object::Kind;
use crate::rights::{Right, Rights};
use crate::row::Takes;
use aql_packet::MOST_REGION_BYTES;
use toml::{Table, Value};

/// The value at a key, if it is there.
pub fn find<'a>(row: &'a Table, key: &str) -> Option<&'a Value>
    ensures { option_map (λ v. view v.now) result ≡ get_member key.now (table_view row.now) }
{
    row.get(key)
}

// An ASCII letter or digit, `_` or `-`.
fn is_name_byte(byte: u8) -> bool
    ensures { result ≡ is_name_byte byte }
{
    matches!(byte, b'a'..=b'z' | b'A'..=b'Z' | b'0'..=b'9' | b'_' | b'-')
}

fn has_name_bytes(text: &[u8]) -> bool
    ensures { result ≡ list_all is_name_byte text.now }
{
    text.iter().all(|byte| is_name_byte(*byte))
}

/// Whether a text is a name: 1 to 64 ASCII letters, digits, `_` or `-`.
pub fn is_name(text: &str) -> bool
    ensures { result ≡ is_name text.now }
{
    1 <= text.len() && text.len() <= MOST_NAME_BYTES && has_name_bytes(text.as_bytes())
}

/// A name.
pub fn a_name(value: &Value) -> Option<&str>
    ensures { option_copied result ≡ a_name (view value.now) }
{
    match value.as_str() {
        Some(text) if is_name(text) => Some(text),
        _ => None,
    }
}

/// A text.
pub fn a_text(value: &Value) -> Option<&str>
    ensures { option_copied result ≡ a_text (view value.now) }
{
    value.as_str()
}

/// A number.
pub fn a_number(value: &Value) -> Option<i64>
    ensures { result ≡ a_number (view value.now) }
{
    value.as_integer()
}

/// A text beginning with `&`.
pub fn an_entry(value: &Value) -> Option<&str>
    ensures { option_copied result ≡ an_entry (view value.now) }
{
    match value.as_str() {
        Some(text) if begins_with_ampersand(text.as_bytes()) => Some(text),
        _ => None,
    }
}

fn begins_with_ampersand(text: &[u8]) -> bool
    ensures { result ≡ (nat_le 1 (length text.now) && slice_index text.now 0 == 38) }
{
    !text.is_empty() && text[0] == b'&'
}

/// A region's length: at least 1, and at most `MOST_REGION_BYTES`.
pub fn a_length(value: &Value) -> Option<u32>
    ensures { result ≡ a_length (view value.now) }
{
    match value.as_integer() {
        Some(number) => length_of_number(number),
        None => None,
    }
}

fn length_of_number(number: i64) -> Option<u32>
    ensures { result ≡ length_of_number number }
{
    if 1 <= number && number <= MOST_REGION_BYTES as i64 {
        Some(number as u32)
    } else {
        None
    }
}

/// Whether a text is another.
pub fn same_text(text: &str, wanted: &str) -> bool
    ensures { result ≡ bytes_eq text.now wanted.now }
{
    text == wanted
}

// Whether a value is a text.
fn is_text(value: &Value, wanted: &str) -> bool
    ensures { result ≡ is_text wanted.now (view value.now) }
{
    match value.as_str() {
        Some(text) => text == wanted,
        None => false,
    }
}

/// The elements of a value that is an array.
pub fn items_in(value: &Value) -> Option<&[Value]>
    ensures { option_map (λ items. map view items.now) result ≡ items_in (view value.now) }
{
    match value.as_array() {
        Some(items) => Some(items.as_slice()),
        None => None,
    }
}

// Whether some value is a text.
fn any_is(items: &[Value], wanted: &str) -> bool
    ensures { result ≡ list_any (λ item. is_text wanted.now (view item)) items.now }
{
    items.iter().any(|item| is_text(item, wanted))
}

fn are_dispatches(items: &[Value]) -> bool
    ensures { result ≡ list_all (λ item. is_text (codes "kernel") (view item) || is_text (codes "agent") (view item)) items.now }
{
    items
        .iter()
        .all(|item| is_text(item, "kernel") || is_text(item, "agent"))
}

fn dispatches_in(items: &[Value]) -> Option<Takes>
    ensures { result ≡ dispatches_in (map view items.now) }
{
    if !are_dispatches(items) {
        return None;
    }
    Some(Takes {
        kernel: any_is(items, "kernel"),
        agent: any_is(items, "agent"),
    })
}

/// An array of "kernel" and "agent", possibly empty.
pub fn some_dispatches(value: &Value) -> Option<Takes>
    ensures { result ≡ some_dispatches (view value.now) }
{
    match items_in(value) {
        Some(items) => dispatches_in(items),
        None => None,
    }
}

// The kind of objects of a name.
fn kind_named(text: &str) -> Option<Kind>
    ensures { result ≡ kind_named text.now }
{
    if same_text(text, "agent") {
        Some(Kind::Agent)
    } else if same_text(text, "region") {
        Some(Kind::Region)
    } else if same_text(text, "signal") {
        Some(Kind::Signal)
    } else if same_text(text, "kernel") {
        Some(Kind::Kernel)
    } else {
        None
    }
}

/// The name of a kind of objects.
pub fn a_kind(value: &Value) -> Option<Kind>
    ensures { result ≡ a_kind (view value.now) }
{
    match value.as_str() {
        Some(text) => kind_named(text),
        None => None,
    }
}

// The kind of objects that a right is on.
fn kind_of_right(right: Right) -> Kind
    ensures { result ≡ kind_of_right right }
{
    match right {
        Right::Use => Kind::Agent,
        Right::Read | Right::Write => Kind::Region,
        Right::Wait | Right::Change => Kind::Signal,
        Right::Launch => Kind::Kernel,
    }
}

// Whether a value names a right on objects of a kind.
fn names_right(on: Kind, value: &Value) -> bool
    ensures { result ≡ names_right on (view value.now) }
{
    Right::ALL.iter().any(|right| kind_of_right(*right) == on && is_text(value, right.name()))
}

fn all_name_rights(on: Kind, items: &[Value]) -> bool
    ensures { result ≡ list_all (λ item. names_right on (view item)) items.now }
{
    items.iter().all(|item| names_right(on, item))
}

fn rights_in(on: Kind, items: &[Value]) -> Option<Rights>
    ensures { result ≡ rights_in on (map view items.now) }
{
    if !all_name_rights(on, items) {
        return None;
    }
    Some(Rights::from_each(
        any_is(items, "USE"),
        any_is(items, "READ"),
        any_is(items, "WRITE"),
        any_is(items, "WAIT"),
        any_is(items, "CHANGE"),
        any_is(items, "LAUNCH"),
    ))
}

/// An array of the kind's rights, possibly empty.
pub fn some_rights(on: Kind, value: &Value) -> Option<Rights>
    ensures { result ≡ some_rights on (view value.now) }
{
    match items_in(value) {
        Some(items) => rights_in(on, items),
        None => None,
    }
}

/// One name, or every one.
#[derive(Clone, Copy)]
pub enum Choice<'a> {
    /// Every one.
    Any,
    /// The one of a name.
    Named(&'a str),
}

/// A name, or "*".
pub fn a_choice(value: &Value) -> Option<Choice<'_>>
    ensures { option_map chosen_name result ≡ a_choice (view value.now) }
{
    match value.as_str() {
        Some(text) => choice_of(text),
        None => None,
    }
}

fn choice_of(text: &str) -> Option<Choice<'_>>
    ensures { option_map chosen_name result ≡ choice_of text.now }
{
    if same_text(text, "*") {
        Some(Choice::Any)
    } else if is_name(text) {
        Some(Choice::Named(text))
    } else {
        None
    }
}
