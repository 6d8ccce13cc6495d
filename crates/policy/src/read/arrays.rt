//! The arrays of a policy file.

ghost use Rattle.std.specs.Prelude.{◌≡◌, ◌≤◌, map, length, Some, IfOk, OnOk};
ghost use Rattle.std.specs.List.{list_all};
ghost use Rattle.toml.specs.Data.{get_member, as_table};
ghost use Rattle.toml.specs.View.{view, table_view};
ghost use Rattle.policy.specs.declared.fault.PolicyCause.TheVariants.{BadValue};
ghost use Rattle.policy.specs.declared.fault.Section.TheVariants.{Allow, Deny};
ghost use Rattle.policy.specs.declared.limits.TheConstants.{MOST_ALLOW_ROWS, MOST_SIGNALS};
ghost use Rattle.policy.specs.Table.{named};
ghost use Rattle.policy.specs.SectionNames.{name_of_section};
ghost use Rattle.policy.specs.Results.{map_ok};
ghost use Rattle.policy.specs.Reading.{or_fault, placed, fault_at_none, RowGives, FileGives};
ghost use Rattle.policy.specs.Format.{is_table, rows_in, tables_in, of_table, keys_of, named_row, rights_row, policy_rows, array_of};

use crate::fault::{PolicyCause, PolicyFault, ReadPolicyError, RowError, RowFault, Section};
use crate::limits::{MOST_ALLOW_ROWS, MOST_DENY_ROWS};
use crate::policy::Policy;
use crate::read::rows::{self, NamedRow};
use crate::read::values;
use crate::row::RightsRow;
use crate::rows::PolicyRows;
use crate::table::Table as Rows;
use sequences::Sequence;
use std::alloc::Global;
use toml::{Table, Value};

// Whether all values are tables.
fn are_tables(items: &[Value]) -> bool
    ensures { result ≡ list_all (λ item. is_table (view item)) items.now }
{
    items.iter().all(|item| item.is_table())
}

// The rows of an array of tables, of at most so many.
fn tables_in(section: Section, limit: usize, items: &[Value]) -> Result<(), PolicyFault>
    ensures rows { map_ok (λ _. map view items.now) result ≡ tables_in section limit (Some (map view items.now)) }
    ensures bound { OnOk result (length items.now ≤ limit) }
{
    if !are_tables(items) {
        return Err(section.fault(PolicyCause::BadValue));
    }
    if items.len() > limit {
        return Err(section.fault(PolicyCause::TooMany));
    }
    Ok(())
}

/// The rows of an array, of at most so many: none where the array is absent.
pub fn rows_in(section: Section, limit: usize, file: &Table) -> Result<&[Value], PolicyFault>
    ensures rows { map_ok (λ rows. map view rows.now) result ≡ rows_in section limit (get_member (name_of_section section) (table_view file.now)) }
    ensures bound { IfOk result (λ rows. length rows.now ≤ limit) }
{
    let Some(array) = values::find(file, section.name()) else {
        return Ok(&[]);
    };
    match values::items_in(array) {
        Some(items) => {
            tables_in(section, limit, items)?;
            Ok(items)
        }
        None => Err(section.fault(PolicyCause::BadValue)),
    }
}

/// What a row's reading comes to in its place: a fault is one of that row.
pub fn placed<T>(
    section: Section,
    row: u32,
    read: Result<T, RowError>,
) -> Result<T, ReadPolicyError>
    ensures { result ≡ placed section row read }
{
    match read {
        Ok(value) => Ok(value),
        Err(RowError::OutOfMemory) => Err(ReadPolicyError::OutOfMemory),
        Err(RowError::Fault(fault)) => Err(ReadPolicyError::Fault(section.fault_in(row, fault))),
    }
}

// A row, which is a table.
fn as_row(row: &Value) -> Result<&Table, RowError>
    ensures { RowGives (λ t. table_view t.now) result (or_fault (fault_at_none BadValue) (as_table (view row.now))) }
{
    row.as_table()
        .ok_or(RowError::Fault(RowFault::at_none(PolicyCause::BadValue)))
}

// A row of an array of named rows, after those before it.
fn named_row<V: NamedRow>(
    alloc: Global,
    section: Section,
    before: &Rows<V>,
    row: &Value,
) -> Result<(String, V), RowError>
    ensures { RowGives named result (of_table (named_row (keys_of section) V.reading before.now) (as_table (view row.now))) }
{
    rows::named_row(alloc, section, before, as_row(row)?)
}

/// An array of rows that each have a name of their own.
pub fn named_array<V: NamedRow>(
    alloc: Global,
    section: Section,
    limit: usize,
    file: &Table,
) -> Result<Rows<V>, ReadPolicyError>
    requires { limit ≤ MOST_SIGNALS }
    ensures { FileGives result (array_of section limit (named_row (keys_of section) V.reading) (table_view file.now)) }
{
    let rows = rows_in(section, limit, file)?;
    let mut table = Rows::new(alloc);
    for row in rows {
        let number = table.len() as u32 + 1;
        let (name, rest) = placed(section, number, named_row(alloc, section, &table, row))?;
        table.insert(name, rest)?;
    }
    Ok(table)
}

// A row on rights in its array.
fn rights_row(policy: &Policy, row: &Value) -> Result<RightsRow, RowError>
    ensures { RowGives (λ x. x) result (of_table (rights_row policy.now) (as_table (view row.now))) }
{
    rows::rights_row(policy, as_row(row)?)
}

// An array of rows on rights.
fn rights_array(
    alloc: Global,
    section: Section,
    limit: usize,
    policy: &Policy,
    file: &Table,
) -> Result<Sequence<RightsRow>, ReadPolicyError>
    requires { limit ≤ MOST_ALLOW_ROWS }
    ensures { FileGives result (array_of section limit (λ _ row. rights_row policy.now row) (table_view file.now)) }
{
    let rows = rows_in(section, limit, file)?;
    let mut read = Sequence::new(alloc);
    for row in rows {
        let number = read.len() as u32 + 1;
        read.push(placed(section, number, rights_row(policy, row))?)?;
    }
    Ok(read)
}

/// The allow rows, and then the deny rows.
pub fn policy_rows(
    alloc: Global,
    policy: &Policy,
    file: &Table,
) -> Result<PolicyRows, ReadPolicyError>
    ensures { FileGives result (policy_rows policy.now (table_view file.now)) }
{
    let allows = rights_array(alloc, Section::Allow, MOST_ALLOW_ROWS, policy, file)?;
    let denies = rights_array(alloc, Section::Deny, MOST_DENY_ROWS, policy, file)?;
    Ok(PolicyRows { allows, denies })
}
