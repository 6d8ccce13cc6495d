//! A policy file as a whole.

ghost use Rattle.std.specs.Prelude.{◌≡◌, nat_le, sum_by, option_map, string_bytes, IfOk, IfErr};
ghost use Rattle.std.specs.List.{list_all};
ghost use Rattle.std.specs.BTreeMap.{keys};
ghost use Rattle.toml.specs.View.{view, table_view};
ghost use Rattle.policy.specs.declared.limits.TheConstants.{MOST_MEMORY_BYTES};
ghost use Rattle.policy.specs.Reading.{unless, fault_of_lengths, FileGives};
ghost use Rattle.policy.specs.Format.{is_array_of, names_array, is_part_of, file_head, version_of, version_numbered, keys_in, regions_of, objects_of, declared_by, Declares, IsRefused};

use crate::fault::{PolicyCause, PolicyFault, ReadPolicyError, Section};
use crate::kernel_source::KernelSource;
use crate::key::Key;
use crate::limits::{
    MOST_AGENTS, MOST_CLIENTS, MOST_KERNELS, MOST_MEMORY_BYTES, MOST_POLICY_BYTES, MOST_SIGNALS,
};
use crate::policy::Policy;
use crate::read::arrays::{named_array, policy_rows};
use crate::read::values::{self, same_text};
use crate::row::Takes;
use crate::table::Table as Rows;
use crate::version::Version;
use aql_packet::MOST_REGIONS;
use std::alloc::Global;
use toml::{Table, Value};

// The version of a number.
fn version_numbered(value: &Value) -> Option<Version>
    ensures { result ≡ version_numbered (view value.now) }
{
    match value.as_integer() {
        Some(1) => Some(Version::First),
        Some(2) => Some(Version::Second),
        _ => None,
    }
}

// The version that a file names, and the first where it names none.
fn version_of(version: Option<&Value>) -> Option<Version>
    ensures { result ≡ version_of (option_map (λ v. view v.now) version.entry) }
{
    match version {
        None => Some(Version::First),
        Some(value) => version_numbered(value),
    }
}

// Whether an array is one of a version's: deny rows are the second's alone.
fn is_array_of(version: Version, array: Section) -> bool
    ensures { result ≡ is_array_of version array }
{
    match (version, array) {
        (Version::First, Section::Deny) => false,
        _ => true,
    }
}

// Whether a name is that of an array of a version's files.
fn names_array(version: Version, name: &str) -> bool
    ensures { result ≡ names_array version name.now }
{
    Section::ALL.iter().any(|array| is_array_of(version, *array) && same_text(name, array.name()))
}

// Whether a name is that of a key of a version's files.
fn is_part_of(version: Version, name: &str) -> bool
    ensures { result ≡ is_part_of version name.now }
{
    same_text(name, Key::Version.name()) || names_array(version, name)
}

fn all_known(version: Version, file: &Table) -> bool
    ensures { result ≡ list_all (λ k. is_part_of version (string_bytes k)) (keys file.now) }
{
    file.keys().all(|name| is_part_of(version, name.as_str()))
}

// Whether a file has no key but its version's.
fn has_only_parts(version: Version, file: &Table) -> bool
    ensures { result ≡ list_all (is_part_of version) (keys_in (table_view file.now)) }
{
    all_known(version, file)
}

// The file's version, and its keys.
fn read_head(file: &Table) -> Result<Version, PolicyFault>
    ensures { result ≡ file_head (table_view file.now) }
{
    let version = values::find(file, Key::Version.name());
    let version = version_of(version).ok_or(PolicyFault::of_version())?;
    if !has_only_parts(version, file) {
        return Err(PolicyFault::of_file(PolicyCause::BadValue));
    }
    Ok(version)
}

// How long the regions are together.
fn check_lengths(regions: &Rows<u32>) -> Result<(), PolicyFault>
    ensures { result ≡ unless (nat_le (sum_by (λ region. region.1) regions.now) MOST_MEMORY_BYTES) fault_of_lengths }
{
    if regions.total() <= MOST_MEMORY_BYTES {
        Ok(())
    } else {
        Err(PolicyFault::of_lengths())
    }
}

// The regions, which have not too many bytes together.
fn read_regions(alloc: Global, file: &Table) -> Result<Rows<u32>, ReadPolicyError>
    ensures { FileGives result (regions_of (table_view file.now)) }
{
    let regions = named_array::<u32>(alloc, Section::Region, MOST_REGIONS, file)?;
    check_lengths(&regions)?;
    Ok(regions)
}

// The clients and the objects, with no rows on rights yet.
fn read_objects(alloc: Global, version: Version, file: &Table) -> Result<Policy, ReadPolicyError>
    ensures { FileGives result (objects_of version (table_view file.now)) }
{
    let clients = named_array::<()>(alloc, Section::Client, MOST_CLIENTS, file)?;
    let agents = named_array::<Takes>(alloc, Section::Agent, MOST_AGENTS, file)?;
    let regions = read_regions(alloc, file)?;
    let signals = named_array::<i64>(alloc, Section::Signal, MOST_SIGNALS, file)?;
    let kernels = named_array::<KernelSource>(alloc, Section::Kernel, MOST_KERNELS, file)?;
    Ok(Policy::new(alloc, version, clients, agents, regions, signals, kernels))
}

// What a file declares.
fn read_file(alloc: Global, file: &Table) -> Result<Policy, ReadPolicyError>
    ensures { FileGives result (declared_by (table_view file.now)) }
{
    let version = read_head(file)?;
    let mut policy = read_objects(alloc, version, file)?;
    let rows = policy_rows(alloc, &policy, file)?;
    policy.set_rows(rows);
    Ok(policy)
}

/// Reads a policy file: what it declares, or its first fault, in the order that the format states.
/// It answers `OutOfMemory` only where an allocation was refused.
pub fn read_policy(alloc: Global, text: &[u8]) -> Result<Policy, ReadPolicyError>
    ensures declares { IfOk result (Declares text.now) }
    ensures refused { IfErr result (IsRefused text.now) }
{
    if text.len() > MOST_POLICY_BYTES {
        return Err(PolicyFault::of_file(PolicyCause::TooMany).into());
    }
    let Ok(text) = std::str::from_utf8(text) else {
        return Err(PolicyFault::of_file(PolicyCause::NotToml).into());
    };
    match toml::table_from_str(alloc, text) {
        Ok(file) => read_file(alloc, &file),
        Err(error) => {
            if error.is_memory() {
                Err(ReadPolicyError::OutOfMemory)
            } else {
                Err(PolicyFault::of_file(PolicyCause::NotToml).into())
            }
        }
    }
}
