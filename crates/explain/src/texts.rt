//! Names, ranges and bytes as explanations have them.

use crate::lacks::Lack;
use aql_packet::{Address, ClientId, REGION_SPAN, RegionHandle};
use core_model::Range;
use policy::{Kind, Object, Policy};
use std::alloc::AllocError;

// How many bytes of a word are shown at the most.
const SHOWN: usize = 40;

/// Puts an address behind a text: 16 hexadecimal digits.
pub fn put_address(out: &mut String, address: u64) -> Result<(), AllocError> {
    write!(out, "{address:016x}")
}

/// Puts a byte behind a text: two hexadecimal digits.
pub fn put_byte(out: &mut String, byte: u8) -> Result<(), AllocError> {
    write!(out, "{byte:02x}")
}

/// Puts the beginning of a word of a script or a policy behind a text, in quotes; a byte that is no printing letter of
/// ASCII is `?`.
pub fn put_word(out: &mut String, word: &[u8]) -> Result<(), AllocError> {
    out.push_str("`")?;
    for byte in word.split_at(word.len().min(SHOWN)).0 {
        out.push(match byte {
            b' '..=b'~' => char::from(*byte),
            _ => '?',
        })?;
    }
    out.push_str(if word.len() > SHOWN { "..`" } else { "`" })
}

/// Puts a client's name behind a text.
pub fn put_client(out: &mut String, policy: &Policy, client: ClientId) -> Result<(), AllocError> {
    match policy.client_name(client) {
        Some(name) => out.push_str(name),
        None => out.push_str("a client that the policy doesn't declare"),
    }
}

// Puts the addresses from one on behind a text, so many.
fn put_span(out: &mut String, first: u64, size: u64) -> Result<(), AllocError> {
    put_address(out, first)?;
    out.push_str(" to ")?;
    put_address(out, first.saturating_add(size.saturating_sub(1)))
}

// Puts the addresses of a region behind a text.
fn put_bounds(out: &mut String, region: RegionHandle, length: u32) -> Result<(), AllocError> {
    let first = (region.0 as u64).saturating_mul(REGION_SPAN);
    put_span(out, first, length as u64)
}

/// Puts an object's kind and name behind a text; of a region its addresses too.
pub fn put_object(out: &mut String, policy: &Policy, object: Object) -> Result<(), AllocError> {
    let kind = object.kind();
    let number = object.number();
    match policy.object_name(object) {
        Some(name) => write!(out, "{kind} {name}")?,
        None => return write!(out, "{kind} {number}, which the policy doesn't declare"),
    }
    if let Object::Region(region) = object {
        if let Some(length) = policy.region_length(region) {
            out.push_str(" (")?;
            put_bounds(out, region, length)?;
            out.push_str(")")?;
        }
    }
    Ok(())
}

/// Puts a range of addresses behind a text.
pub fn put_range(out: &mut String, range: Range) -> Result<(), AllocError> {
    let size = range.size;
    write!(out, "{size} bytes from ")?;
    put_address(out, range.address.0)?;
    out.push_str(" on")
}

/// Whether a range lies whole in a region of a policy.
pub fn lies_whole(policy: &Policy, range: Range) -> bool {
    let Address(address) = range.address;
    match policy.region_length(regions::region_of(range.address)) {
        Some(length) => {
            let offset = address % REGION_SPAN;
            offset < length as u64 && range.size <= (length as u64).saturating_sub(offset)
        }
        None => false,
    }
}

// Puts what grants a client a right on an object behind a text, up to the right.
fn put_grantee(out: &mut String, policy: &Policy, lack: &Lack) -> Result<(), AllocError> {
    let kind = lack.object.kind();
    out.push_str("grant ")?;
    put_client(out, policy, lack.client)?;
    write!(out, " {kind} ")?;
    if let Some(name) = policy.object_name(lack.object) {
        out.push_str(name)?;
    }
    Ok(())
}

// Puts a right to grant behind a text: the first behind what it is granted to and on, a further one behind a comma.
fn put_granted(
    out: &mut String,
    policy: &Policy,
    lack: &Lack,
    is_first: bool,
) -> Result<(), AllocError> {
    let right = lack.right;
    if is_first {
        put_grantee(out, policy, lack)?;
        return write!(out, " {right}");
    }
    write!(out, ",{right}")
}

/// Puts the line that grants a client the rights behind a text that it lacks on one object and the policy allows; nothing
/// where there are none.
pub fn put_grant(
    out: &mut String,
    policy: &Policy,
    lacks: &[Option<Lack>],
) -> Result<(), AllocError> {
    let mut is_first = true;
    for lack in lacks {
        if let Some(lack) = lack {
            if lack.is_allowed {
                put_granted(out, policy, lack, is_first)?;
                is_first = false;
            }
        }
    }
    out.push_str(if is_first { "" } else { "\n" })
}

// How many names are listed at the most.
const NAMES: usize = 12;

/// Puts the names of a policy's clients behind a text.
pub fn put_clients(out: &mut String, policy: &Policy) -> Result<(), AllocError> {
    let count = policy.client_count();
    for before in 0..count.min(NAMES) {
        if before > 0 {
            out.push_str(", ")?;
        }
        put_client(out, policy, ClientId(before as u32 + 1))?;
    }
    out.push_str(if count > NAMES { " .." } else { "" })
}

/// Puts the names of a policy's objects of a kind behind a text.
pub fn put_objects(out: &mut String, policy: &Policy, kind: Kind) -> Result<(), AllocError> {
    let count = policy.object_count(kind);
    if count == 0 {
        return out.push_str("none");
    }
    for before in 0..count.min(NAMES) {
        if before > 0 {
            out.push_str(", ")?;
        }
        if let Some(name) = policy.object_name(Object::of(kind, before as u64 + 1)) {
            out.push_str(name)?;
        }
    }
    out.push_str(if count > NAMES { " .." } else { "" })
}
