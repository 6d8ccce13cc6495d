//! The command that tells the bytes of packets field by field.

use crate::author::{fails, told};
use crate::naming::push_names;
use aql_packet::{Packet, decode};
use commands::Status;
use core_model::{AgentFunction, Range};
use explain::first_strange;
use packet_listing::{first_failing, is_slot_empty, packet_of, push_fields, push_verdict};
use packet_processor::function_of;
use policy::Policy;
use std::alloc::{AllocError, Global};
use std::io;

/// How many bytes of a dump are read: one more than the largest ring has.
pub const MOST_DUMP: u64 = 262_145;

/// What is told where words aren't the digits of a packet.
const NO_PACKET: &str =
    "decode takes the 128 hexadecimal digits of a packet: its 64 bytes in order";

/// What is told where a dump is longer than the largest ring.
const TOO_LONG: &str = "a ring has at most 4096 slots of 64 bytes\n";

// Adds what bytes become of the function of an agent.
fn push_function(out: &mut String, function: AgentFunction) -> Result<(), AllocError> {
    match function {
        AgentFunction::Fill {
            target: Range { address, size },
            byte,
        } => writeln!(
            out,
            "FILL: {size} bytes from {:016x} become {byte:02x}",
            address.0
        ),
        AgentFunction::Copy { source, target } => writeln!(
            out,
            "COPY: {} bytes from {:016x} go to {:016x}",
            source.size, source.address.0, target.address.0
        ),
        AgentFunction::Add64 {
            number: Range { address, .. },
            addend,
        } => writeln!(
            out,
            "ADD64: the number of 8 bytes at {:016x} gains {addend}",
            address.0
        ),
    }
}

// Adds what an agent dispatch does, if its function is one that agents have.
fn push_work(out: &mut String, bytes: &[u8; 64]) -> Result<(), AllocError> {
    let Ok(Packet::Agent(dispatch)) = decode(bytes) else {
        return Ok(());
    };
    match function_of(&dispatch) {
        Some(function) => push_function(out, function),
        None => out.push_str("agents have no function of this number\n"),
    }
}

// Adds all that is told of a packet, and what its numbers stand for in a policy, if there is one.
fn push_packet(
    out: &mut String,
    policy: Option<&Policy>,
    bytes: &[u8; 64],
) -> Result<(), AllocError> {
    push_fields(out, bytes)?;
    if let Some(policy) = policy {
        push_names(out, policy, bytes)?;
    }
    push_work(out, bytes)?;
    push_verdict(out, bytes)
}

// What is told of a packet.
fn packet_told(
    alloc: Global,
    policy: Option<&Policy>,
    bytes: &[u8; 64],
) -> Result<String, AllocError> {
    let mut out = String::new(alloc);
    push_packet(&mut out, policy, bytes)?;
    Ok(out)
}

// How the command ends after a packet.
fn status_of(bytes: &[u8; 64]) -> Status {
    match first_failing(bytes) {
        None => Status::Done,
        Some(_) => Status::Refused,
    }
}

// Writes what there was memory for.
fn write<O: io::Write, E: io::Write>(
    text: Result<String, AllocError>,
    status: Status,
    out: &mut O,
    err: &mut E,
) -> Status {
    let Ok(text) = text else {
        return fails(err, "no memory\n");
    };
    match told(out, text.as_str(), status) {
        Status::Failed => fails(err, "write fault\n"),
        status => status,
    }
}

// Says what there was memory for: why the command is refused.
fn say<E: io::Write>(text: Result<String, AllocError>, err: &mut E) -> Status {
    match text {
        Ok(text) => told(err, text.as_str(), Status::Refused),
        Err(_) => fails(err, "no memory\n"),
    }
}

// The words of a command line as one.
fn joined(alloc: Global, words: &[&str]) -> Result<String, AllocError> {
    let mut text = String::new(alloc);
    for word in words {
        for part in word.split(' ') {
            text.push_str(part)?;
        }
    }
    Ok(text)
}

// Why characters are no packet: how many there are, and the first that is no digit.
fn why_no_packet(alloc: Global, digits: &str) -> Result<String, AllocError> {
    let count = digits.len();
    let mut text = format!(in alloc; "{NO_PACKET}, and {count} characters are given")?;
    if let Some((place, shown)) = first_strange(digits.as_bytes()) {
        write!(text, ": number {place}, `{shown}`, is no digit")?;
    }
    text.push_str("\n")?;
    Ok(text)
}

// Says that the words are no packet; none where that could be said.
fn no_packet<E: io::Write>(alloc: Global, digits: &str, err: &mut E) -> Option<Status> {
    match say(why_no_packet(alloc, digits), err) {
        Status::Refused => None,
        status => Some(status),
    }
}

/// Tells the packet of 128 hexadecimal digits field by field on `out`, with the first of the rules L1 to L3 that it breaks,
/// if it does: the command is refused then. Blanks between the digits don't count. With a policy it is told what its numbers
/// stand for. None where the words are no such digits, which `err` is told.
pub fn decode_digits<O: io::Write, E: io::Write>(
    alloc: Global,
    policy: Option<&Policy>,
    words: &[&str],
    out: &mut O,
    err: &mut E,
) -> Option<Status> {
    let Ok(digits) = joined(alloc, words) else {
        return Some(fails(err, "no memory\n"));
    };
    match packet_of(digits.as_str()) {
        Some(bytes) => {
            let status = status_of(&bytes);
            Some(write(packet_told(alloc, policy, &bytes), status, out, err))
        }
        None => no_packet(alloc, digits.as_str(), err),
    }
}

// What is told of a slot, and how the command ends after it.
fn slot_told(
    alloc: Global,
    policy: Option<&Policy>,
    number: usize,
    bytes: &[u8; 64],
) -> (Result<String, AllocError>, Status) {
    if is_slot_empty(bytes) {
        let told = format!(in alloc; "slot {number}: INVALID, no packet\n");
        return (told, Status::Done);
    }
    (
        full_slot_told(alloc, policy, number, bytes),
        status_of(bytes),
    )
}

// What is told of a slot with a packet.
fn full_slot_told(
    alloc: Global,
    policy: Option<&Policy>,
    number: usize,
    bytes: &[u8; 64],
) -> Result<String, AllocError> {
    let mut out = format!(in alloc; "slot {number}\n")?;
    push_packet(&mut out, policy, bytes)?;
    Ok(out)
}

// How a command ends that ended so before, and so after one slot more.
fn worse(before: Status, status: Status) -> Status {
    match (before, status) {
        (_, Status::Failed) => Status::Failed,
        (Status::Done, status) => status,
        (before, _) => before,
    }
}

// Says that bytes are left after the last slot.
fn tell_rest<E: io::Write>(alloc: Global, rest: usize, err: &mut E) -> Status {
    let text = format!(in alloc;
        "a slot has 64 bytes, and behind the last whole one {rest} are left\n"
    );
    say(text, err)
}

// Tells a slot, and how the command ends after it.
fn tell_slot<O: io::Write, E: io::Write>(
    alloc: Global,
    policy: Option<&Policy>,
    number: usize,
    bytes: &[u8; 64],
    out: &mut O,
    err: &mut E,
) -> Status {
    let (text, status) = slot_told(alloc, policy, number, bytes);
    write(text, status, out, err)
}

/// Tells the slots of a ring's dump in order, from 0: of each its packet field by field, or that it has none. The command
/// is refused where a packet breaks one of the rules L1 to L3, where the dump is longer than the largest ring, and where it
/// ends within a slot, which `err` is told.
pub fn decode_slots<O: io::Write, E: io::Write>(
    alloc: Global,
    policy: Option<&Policy>,
    dump: &[u8],
    out: &mut O,
    err: &mut E,
) -> Status {
    if MOST_DUMP <= dump.len() as u64 {
        return told(err, TOO_LONG, Status::Refused);
    }
    let mut ended = Status::Done;
    for (number, slot) in dump.chunks(64).enumerate() {
        let status = match slot.first_chunk::<64>() {
            Some(bytes) => tell_slot(alloc, policy, number, bytes, out, err),
            None => tell_rest(alloc, slot.len(), err),
        };
        ended = worse(ended, status);
        if ended == Status::Failed {
            return ended;
        }
    }
    ended
}
