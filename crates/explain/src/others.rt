//! In what a further policy declares other clients or objects than the first.

use crate::positions::File;
use aql_packet::{AgentHandle, ClientId, KernelObject, RegionHandle, SignalHandle};
use policy::{Key, Kind, Object, Policy, Section};
use std::alloc::{AllocError, Global};

/// The key of a row of a further policy that has another value in the first, or none.
#[derive(Clone, Copy)]
struct Difference {
    array: Section,
    row: u32,
    key: Key,
}

// The object of a kind and a number.
fn object(kind: Kind, number: u32) -> Object {
    match kind {
        Kind::Agent => Object::Agent(AgentHandle(number)),
        Kind::Region => Object::Region(RegionHandle(number)),
        Kind::Signal => Object::Signal(SignalHandle(u64::from(number))),
        Kind::Kernel => Object::Kernel(KernelObject(u64::from(number))),
    }
}

// The array that has the objects of a kind.
fn array_of(kind: Kind) -> Section {
    match kind {
        Kind::Agent => Section::Agent,
        Kind::Region => Section::Region,
        Kind::Signal => Section::Signal,
        Kind::Kernel => Section::Kernel,
    }
}

// Whether a kernel's entry is the same in two policies.
fn has_same_entry(kernel: KernelObject, first: &Policy, other: &Policy) -> bool {
    match (first.kernel_source(kernel), other.kernel_source(kernel)) {
        (Some(before), Some(after)) => before.entry() == after.entry(),
        _ => true,
    }
}

// The key in which two policies declare an object of the same name otherwise, if there is one.
fn key_of(object: Object, first: &Policy, other: &Policy) -> Option<Key> {
    match object {
        Object::Agent(agent) if first.takes(agent) != other.takes(agent) => Some(Key::Takes),
        Object::Region(region) if first.region_length(region) != other.region_length(region) => {
            Some(Key::Length)
        }
        Object::Signal(signal) if first.signal_initial(signal) != other.signal_initial(signal) => {
            Some(Key::Initial)
        }
        Object::Kernel(kernel) if first.kernel_source(kernel) != other.kernel_source(kernel) => {
            if has_same_entry(kernel, first, other) {
                Some(Key::Text)
            } else {
                Some(Key::Entry)
            }
        }
        _ => None,
    }
}

// The first difference among the clients.
fn of_clients(first: &Policy, other: &Policy) -> Option<Difference> {
    let most = first.client_count().max(other.client_count());
    let mut row = 0u32;
    for _ in 0..most {
        row = row.saturating_add(1);
        if first.client_name(ClientId(row)) != other.client_name(ClientId(row)) {
            return Some(Difference {
                array: Section::Client,
                row,
                key: Key::Name,
            });
        }
    }
    None
}

// The first difference among the objects of a kind.
fn of_kind(kind: Kind, first: &Policy, other: &Policy) -> Option<Difference> {
    let most = first.object_count(kind).max(other.object_count(kind));
    let array = array_of(kind);
    let mut row = 0u32;
    for _ in 0..most {
        row = row.saturating_add(1);
        let object = object(kind, row);
        if first.object_name(object) != other.object_name(object) {
            return Some(Difference {
                array,
                row,
                key: Key::Name,
            });
        }
        if let Some(key) = key_of(object, first, other) {
            return Some(Difference { array, row, key });
        }
    }
    None
}

// The first difference, in the order of the arrays.
fn first_difference(first: &Policy, other: &Policy) -> Option<Difference> {
    let mut found = of_clients(first, other);
    for kind in Kind::ALL {
        if found.is_none() {
            found = of_kind(kind, first, other);
        }
    }
    found
}

// The name of a row of an array of a policy, if there is such a row.
fn name_of<'a>(policy: &'a Policy, array: Section, row: u32) -> Option<&'a str> {
    match array {
        Section::Client => policy.client_name(ClientId(row)),
        Section::Agent => policy.object_name(object(Kind::Agent, row)),
        Section::Region => policy.object_name(object(Kind::Region, row)),
        Section::Signal => policy.object_name(object(Kind::Signal, row)),
        Section::Kernel => policy.object_name(object(Kind::Kernel, row)),
        Section::Allow | Section::Deny => None,
    }
}

// What two policies have at a row: its name, where it isn't the same, and else the key.
fn put_difference(
    out: &mut String,
    difference: Difference,
    first: &Policy,
    other: &Policy,
) -> Result<(), AllocError> {
    let Difference { array, row, key } = difference;
    let kind = array.name();
    let before = name_of(first, array, row);
    match (before, name_of(other, array, row)) {
        (Some(before), Some(after)) if before == after => {
            let key = key.name();
            writeln!(
                out,
                "`{key}` of {kind} {after} isn't that of the first policy"
            )
        }
        (Some(before), Some(after)) => {
            writeln!(
                out,
                "{kind} {row} is {after}, and {before} in the first policy"
            )
        }
        (None, Some(after)) => {
            writeln!(
                out,
                "{kind} {row}, {after}, is none that the first policy has"
            )
        }
        (Some(before), None) => writeln!(out, "{kind} {row}, {before}, isn't declared here"),
        (None, None) => out.push_str("\n"),
    }
}

/// Where a further policy, which has this text in a file, first declares another client or object than the first policy.
pub fn others_told(
    alloc: Global,
    file: &str,
    text: &[u8],
    first: &Policy,
    other: &Policy,
) -> Result<String, AllocError> {
    let mut out = String::new(alloc);
    let file = File {
        alloc,
        name: file,
        text,
    };
    if let Some(difference) = first_difference(first, other) {
        let Difference { array, row, key } = difference;
        file.begin(&mut out, array.name(), row, key.name())?;
        put_difference(&mut out, difference, first, other)?;
    }
    Ok(out)
}
