//! The state that a history leads to, as text.

use crate::fault::Fault;
use access_core::AccessCore;
use aql_packet::{Address, ClientId, REGION_SPAN, RegionHandle};
use bitflags::Flags;
use commands::Failure;
use core_model::{Origin, PacketOrigin, QueueOrigin, Refusal};
use policy::{Kind, Object, Rights};
use queue_error::QueueError;
use regions::Regions;
use replay::{Replay, Stop};
use std::alloc::{AllocError, Global};

// How many bytes of memory stand in a row.
const ROW: usize = 16;

// Writes a right in force.
fn write_right(
    out: &mut String,
    client: ClientId,
    object: Object,
    rights: Rights,
) -> Result<(), AllocError> {
    let client = client.0;
    let bits = rights.bits();
    let (kind, number) = match object {
        Object::Agent(agent) => ("agent", agent.0 as u64),
        Object::Region(region) => ("region", region.0 as u64),
        Object::Signal(signal) => ("signal", signal.0),
        Object::Kernel(kernel) => ("kernel", kernel.0),
    };
    writeln!(out, "right {client} {kind} {number} {bits}")
}

// Writes the rights in force for a client.
fn write_rights_of(
    alloc: Global,
    core: &AccessCore,
    client: ClientId,
    out: &mut String,
) -> Result<(), Fault> {
    match core.list(alloc, client) {
        Ok(listed) => {
            for (object, rights) in listed.as_slice() {
                write_right(out, client, *object, *rights)?;
            }
            Ok(())
        }
        Err(Refusal::OutOfMemory) => Err(Fault::Failure(Failure::OutOfMemory)),
        Err(_) => Ok(()),
    }
}

// Writes all rights in force.
fn write_rights(alloc: Global, core: &AccessCore, out: &mut String) -> Result<(), Fault> {
    let clients = core.policy().client_count() as u64;
    for number in 1..=clients {
        if let Ok(number) = u32::try_from(number) {
            write_rights_of(alloc, core, ClientId(number), out)?;
        }
    }
    Ok(())
}

// Writes a byte as two digits.
fn write_byte(out: &mut String, byte: u8) -> Result<(), AllocError> {
    write!(out, "{byte:02x}")
}

// Writes a row of memory, if a byte of it isn't zero.
fn write_row(out: &mut String, address: u64, row: &[u8]) -> Result<(), AllocError> {
    if row.iter().all(|byte| *byte == 0) {
        return Ok(());
    }
    write!(out, "memory {address} ")?;
    for byte in row {
        write_byte(out, *byte)?;
    }
    out.push_str("\n")
}

// Writes the bytes of a region that aren't zero, in rows.
fn write_region(out: &mut String, first: u64, bytes: &[u8]) -> Result<(), AllocError> {
    let mut address = first;
    for row in bytes.chunks(ROW) {
        write_row(out, address, row)?;
        address = address.saturating_add(ROW as u64);
    }
    Ok(())
}

// Writes the memory that isn't zero.
fn write_memory(out: &mut String, core: &AccessCore, memory: &Regions) -> Result<(), AllocError> {
    for before in 0..core.policy().object_count(Kind::Region) as u64 {
        let number = before.saturating_add(1);
        let Ok(region) = u32::try_from(number) else {
            continue;
        };
        let first = number.saturating_mul(REGION_SPAN);
        let length = memory.length(RegionHandle(region)).unwrap_or(0);
        if let Ok(bytes) = memory.read(Address(first), length) {
            write_region(out, first, bytes)?;
        }
    }
    Ok(())
}

// Writes the values of the signals.
fn write_signals(out: &mut String, origin: &Origin, count: usize) -> Result<(), AllocError> {
    for before in 0..count as u64 {
        let number = before.saturating_add(1);
        if let Some(value) = origin.signals.value(aql_packet::SignalHandle(number)) {
            writeln!(out, "signal {number} {value}")?;
        }
    }
    Ok(())
}

// Writes an error of a queue.
fn write_error(out: &mut String, error: &QueueError) -> Result<(), AllocError> {
    let (queue, packet, rule) = (error.queue.0, error.packet.0, error.rule);
    writeln!(out, "error {queue} {packet} {rule}")
}

// Writes a queue with its errors.
fn write_queue(out: &mut String, queue: &QueueOrigin) -> Result<(), AllocError> {
    let (number, next) = (queue.queue.0, queue.next);
    let (client, agent) = (queue.opening.client.0, queue.opening.agent.0);
    let stopped = if queue.stopped { "stopped" } else { "open" };
    writeln!(out, "queue {number} {client} {agent} {next} {stopped}")?;
    for error in queue.errors.as_slice() {
        write_error(out, error)?;
    }
    Ok(())
}

// Writes all open queues.
fn write_queues(out: &mut String, queues: &[QueueOrigin]) -> Result<(), AllocError> {
    for queue in queues {
        write_queue(out, queue)?;
    }
    Ok(())
}

// Writes a packet in flight: how many groups it ran, and which dependencies were seen as 0.
fn write_packet(out: &mut String, packet: &PacketOrigin) -> Result<(), AllocError> {
    let (queue, id) = (packet.flying.queue.0, packet.flying.id.0);
    let groups = packet.progress.groups_run;
    write!(out, "packet {queue} {id} {groups} ")?;
    for seen in packet.progress.satisfied.0 {
        out.push_str(if seen { "1" } else { "0" })?;
    }
    out.push_str("\n")
}

// Writes all packets in flight.
fn write_packets(out: &mut String, packets: &[PacketOrigin]) -> Result<(), AllocError> {
    for packet in packets {
        write_packet(out, packet)?;
    }
    Ok(())
}

/// Writes the state after all entries that a replay took, a line each: rights in force, rows of memory that aren't
/// zero, signals, open queues with their errors, and packets in flight.
pub fn state_text(alloc: Global, replay: &mut Replay, out: &mut String) -> Result<(), Fault> {
    if let Err(Stop::OutOfMemory | Stop::NoRoom) = replay.empty_audit(alloc) {
        return Err(Fault::Failure(Failure::OutOfMemory));
    }
    let core = replay.core();
    let origin = core.start();
    write_rights(alloc, core, out)?;
    write_memory(out, core, &origin.memory)?;
    write_signals(out, origin, core.policy().object_count(Kind::Signal))?;
    write_queues(out, origin.queues.as_slice())?;
    write_packets(out, origin.packets.as_slice())?;
    Ok(())
}
