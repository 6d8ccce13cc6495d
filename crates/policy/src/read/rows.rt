//! The rows of a policy file's arrays.

ghost use Rattle.std.specs.Prelude.{◌≡◌, Result, string_bytes};
ghost use Rattle.std.specs.List.{list_all};
ghost use Rattle.std.specs.BTreeMap.{keys};
ghost use Rattle.toml.specs.Data.{Members, get_member};
ghost use Rattle.toml.specs.View.{view, table_view};
ghost use Rattle.policy.specs.declared.fault.PolicyCause.TheVariants.{MissingKey};
ghost use Rattle.policy.specs.declared.fault.RowFault.{RowFault};
ghost use Rattle.policy.specs.declared.key.Key.TheVariants as row_key;
ghost use Rattle.policy.specs.Choice.{chosen_name};
ghost use Rattle.policy.specs.Policy.{names_of};
ghost use Rattle.policy.specs.Table.{named};
ghost use Rattle.policy.specs.Results.{map_ok};
ghost use Rattle.policy.specs.Reading.{or_fault, fault_at, RowGives};
ghost use Rattle.policy.specs.Format.{keys_in, keys_of, name_of_key, is_key_of, only, key, named_row, a_name, an_entry, a_text, a_length, a_number, some_dispatches, no_more_keys, takes, region_length, initial_value, kernel_source, a_choice, a_kind, some_rights, subject_of, target_of, rights_row};

use crate::fault::{PolicyCause, RowError, RowFault, Section};
use crate::kernel_source::KernelSource;
use crate::key::Key;
use crate::object::Kind;
use crate::policy::Policy;
use crate::read::values;
use crate::read::values::{Choice, same_text};
use crate::rights::Rights;
use crate::row::{Grantee, RightsRow, Takes, Target};
use crate::table::Table as Rows;
use std::alloc::Global;
use toml::{Table, Value};

/// What a row holds beside its name.
pub trait NamedRow: Sized + Drop {
    /// How it is read.
    ghost reading: { Members → Result Self RowFault };

    /// Reads it.
    fn read(alloc: Global, row: &Table) -> Result<Self, RowError>
        ensures { RowGives (λ x. x) result (reading (table_view row.now)) };
}

// Whether a name is that of one of some keys.
fn is_key_of(known: &[Key], name: &str) -> bool
    ensures { result ≡ is_key_of known.now name.now }
{
    known.iter().any(|key| same_text(name, key.name()))
}

fn all_known(known: &[Key], row: &Table) -> bool
    ensures { result ≡ list_all (λ k. is_key_of known.now (string_bytes k)) (keys row.now) }
{
    row.keys().all(|name| is_key_of(known, name.as_str()))
}

// Whether a table has no key but these.
fn has_only(known: &[Key], row: &Table) -> bool
    ensures { result ≡ list_all (is_key_of known.now) (keys_in (table_view row.now)) }
{
    all_known(known, row)
}

// A table with no key but these.
fn only(known: &[Key], row: &Table) -> Result<(), RowFault>
    ensures { result ≡ only known.now (table_view row.now) }
{
    if has_only(known, row) {
        Ok(())
    } else {
        Err(RowFault::at_none(PolicyCause::BadValue))
    }
}

// The value at a key that a row has to have.
fn value_at(row: &Table, at: Key) -> Result<&Value, RowFault>
    ensures { map_ok (λ v. view v.now) result ≡ or_fault (fault_at at MissingKey) (get_member (name_of_key at) (table_view row.now)) }
{
    values::find(row, at.name()).ok_or(at.fault(PolicyCause::MissingKey))
}

/// A row's name.
pub fn name_at(row: &Table) -> Result<&str, RowFault>
    ensures { map_ok (λ s. s.now) result ≡ key row_key.Name a_name (table_view row.now) }
{
    values::a_name(value_at(row, Key::Name)?).ok_or(Key::Name.fault(PolicyCause::BadValue))
}

/// A row with a name of its own: its keys, its name, the rest of it, and no earlier row of that name.
pub fn named_row<V: NamedRow>(
    alloc: Global,
    section: Section,
    before: &Rows<V>,
    row: &Table,
) -> Result<(String, V), RowError>
    ensures { RowGives named result (named_row (keys_of section) V.reading before.now (table_view row.now)) }
{
    only(section.keys(), row)?;
    let name = name_at(row)?;
    let rest = V::read(alloc, row)?;
    if before.number(name.as_bytes()) != 0 {
        return Err(Key::Name.fault(PolicyCause::DoubleName).into());
    }
    Ok((String::from_str(alloc, name)?, rest))
}

// Which dispatches an agent takes.
fn takes_at(row: &Table) -> Result<Takes, RowFault>
    ensures { result ≡ takes (table_view row.now) }
{
    values::some_dispatches(value_at(row, Key::Takes)?).ok_or(Key::Takes.fault(
        PolicyCause::BadValue,
    ))
}

// A region's length.
fn length_at(row: &Table) -> Result<u32, RowFault>
    ensures { result ≡ region_length (table_view row.now) }
{
    values::a_length(value_at(row, Key::Length)?).ok_or(Key::Length.fault(PolicyCause::BadValue))
}

// The value with which a signal begins.
fn initial_at(row: &Table) -> Result<i64, RowFault>
    ensures { result ≡ initial_value (table_view row.now) }
{
    values::a_number(value_at(row, Key::Initial)?).ok_or(Key::Initial.fault(PolicyCause::BadValue))
}

// The name of a kernel's entry.
fn entry_at(row: &Table) -> Result<&str, RowFault>
    ensures { map_ok (λ s. s.now) result ≡ key row_key.Entry an_entry (table_view row.now) }
{
    values::an_entry(value_at(row, Key::Entry)?).ok_or(Key::Entry.fault(PolicyCause::BadValue))
}

// The text of a kernel's module.
fn text_at(row: &Table) -> Result<&str, RowFault>
    ensures { map_ok (λ s. s.now) result ≡ key row_key.Text a_text (table_view row.now) }
{
    values::a_text(value_at(row, Key::Text)?).ok_or(Key::Text.fault(PolicyCause::BadValue))
}

// A name, or "*", at a key.
fn choice_at(row: &Table, at: Key) -> Result<Choice<'_>, RowFault>
    ensures { map_ok chosen_name result ≡ key at a_choice (table_view row.now) }
{
    values::a_choice(value_at(row, at)?).ok_or(at.fault(PolicyCause::BadValue))
}

// A kind of objects.
fn kind_at(row: &Table) -> Result<Kind, RowFault>
    ensures { result ≡ key row_key.Kind a_kind (table_view row.now) }
{
    values::a_kind(value_at(row, Key::Kind)?).ok_or(Key::Kind.fault(PolicyCause::BadValue))
}

// Rights on objects of a kind.
fn rights_at(on: Kind, row: &Table) -> Result<Rights, RowFault>
    ensures { result ≡ key row_key.Rights (some_rights on) (table_view row.now) }
{
    values::some_rights(on, value_at(row, Key::Rights)?).ok_or(Key::Rights.fault(
        PolicyCause::BadValue,
    ))
}

// Whom a row on rights covers, if the policy declares it.
fn subject_of(policy: &Policy, client: Choice) -> Option<Grantee>
    ensures { result ≡ subject_of policy.now.clients (chosen_name client.entry) }
{
    match client {
        Choice::Any => Some(Grantee::Any),
        Choice::Named(name) => {
            let client = policy.client_named(name.as_bytes());
            if client.0 > 0 {
                Some(Grantee::One(client))
            } else {
                None
            }
        }
    }
}

// What a row on rights covers, if the policy declares it.
fn target_of(policy: &Policy, on: Kind, object: Choice) -> Option<Target>
    ensures { result ≡ target_of on (names_of policy.now on) (chosen_name object.entry) }
{
    match object {
        Choice::Any => Some(Target::Any(on)),
        Choice::Named(name) => {
            let object = policy.object_named(on, name.as_bytes());
            if object.number() > 0 {
                Some(Target::One(object))
            } else {
                None
            }
        }
    }
}

/// An allow row or a deny row: its keys, each in turn, and then the names.
pub fn rights_row(policy: &Policy, row: &Table) -> Result<RightsRow, RowError>
    ensures { RowGives (λ x. x) result (rights_row policy.now (table_view row.now)) }
{
    only(Section::Allow.keys(), row)?;
    let client = choice_at(row, Key::Client)?;
    let on = kind_at(row)?;
    let object = choice_at(row, Key::Object)?;
    let rights = rights_at(on, row)?;
    let subject = subject_of(policy, client).ok_or(Key::Client.fault(PolicyCause::UnknownName))?;
    let target = target_of(policy, on, object).ok_or(Key::Object.fault(PolicyCause::UnknownName))?;
    Ok(RightsRow {
        subject,
        target,
        rights,
    })
}

impl NamedRow for () {
    ghost reading = { no_more_keys };

    fn read(_alloc: Global, _row: &Table) -> Result<(), RowError> {
        Ok(())
    }
}

// What kinds of packets an agent takes.
impl NamedRow for Takes {
    ghost reading = { takes };

    fn read(_alloc: Global, row: &Table) -> Result<Takes, RowError> {
        Ok(takes_at(row)?)
    }
}

// A region's length.
impl NamedRow for u32 {
    ghost reading = { region_length };

    fn read(_alloc: Global, row: &Table) -> Result<u32, RowError> {
        Ok(length_at(row)?)
    }
}

// The value with which a signal begins.
impl NamedRow for i64 {
    ghost reading = { initial_value };

    fn read(_alloc: Global, row: &Table) -> Result<i64, RowError> {
        Ok(initial_at(row)?)
    }
}

// A kernel: its entry point and its text.
impl NamedRow for KernelSource {
    ghost reading = { kernel_source };

    fn read(alloc: Global, row: &Table) -> Result<KernelSource, RowError> {
        let entry = entry_at(row)?;
        let text = text_at(row)?;
        Ok(KernelSource::new(
            String::from_str(alloc, entry)?,
            String::from_str(alloc, text)?,
        ))
    }
}
