//! The audit's entries as objects.

use crate::members::{
    begin, end, put_address, put_bytes, put_comma, put_name, put_number, put_rights, put_signed,
    put_text,
};
use crate::outcomes::{outcome_name, put_outcome};
use aql_packet::{ClientId, PacketId, QueueId, SignalHandle};
use core_model::{Call, Effect, Entry, Event, Outcome, Part};
use policy::{Object, Policy, Rights};
use script::operation_name;
use signals::SignalOp;
use std::alloc::AllocError;

// A further member: the name of a client.
fn put_client(out: &mut String, policy: &Policy, client: ClientId) -> Result<(), AllocError> {
    match policy.client_name(client) {
        Some(name) => put_text(out, "client", name),
        None => Ok(()),
    }
}

/// Further members: an object's kind, number and name.
pub fn put_object(out: &mut String, policy: &Policy, object: Object) -> Result<(), AllocError> {
    put_text(out, "kind", object.kind().name())?;
    put_number(out, "number", object.number())?;
    match policy.object_name(object) {
        Some(name) => put_text(out, "name", name),
        None => Ok(()),
    }
}

// Further members: a signal's number and name.
fn put_signal(out: &mut String, policy: &Policy, signal: SignalHandle) -> Result<(), AllocError> {
    put_number(out, "signal", signal.0)?;
    match policy.object_name(Object::Signal(signal)) {
        Some(name) => put_text(out, "name", name),
        None => Ok(()),
    }
}

// What an event is called, and a packet's queue and number.
fn put_packet(
    out: &mut String,
    event: &str,
    queue: QueueId,
    packet: PacketId,
) -> Result<(), AllocError> {
    put_text(out, "event", event)?;
    put_number(out, "queue", queue.0)?;
    put_number(out, "packet", packet.0)
}

// Rights that were given or taken.
fn put_rights_on(
    out: &mut String,
    policy: &Policy,
    event: &str,
    client: ClientId,
    object: Object,
    rights: Rights,
) -> Result<(), AllocError> {
    put_text(out, "event", event)?;
    put_client(out, policy, client)?;
    put_object(out, policy, object)?;
    put_rights(out, rights)
}

// The value of an operation on a signal; of `cas` the new one.
fn value_of(operation: &SignalOp) -> i64 {
    match operation {
        SignalOp::Store(value)
        | SignalOp::Add(value)
        | SignalOp::Subtract(value)
        | SignalOp::And(value)
        | SignalOp::Or(value)
        | SignalOp::Xor(value)
        | SignalOp::Exchange(value)
        | SignalOp::Cas { value, .. } => *value,
    }
}

// The operation on a signal.
fn put_operation(out: &mut String, operation: &SignalOp) -> Result<(), AllocError> {
    let value = value_of(operation);
    put_text(out, "operation", operation_name(operation))?;
    if let SignalOp::Cas { expected, .. } = operation {
        put_signed(out, "expected", *expected)?;
    }
    put_signed(out, "value", value)
}

// What was called.
fn put_call(out: &mut String, policy: &Policy, call: &Call) -> Result<(), AllocError> {
    match call {
        Call::Grant {
            client,
            object,
            rights,
        } => put_rights_on(out, policy, "grant", *client, *object, *rights),
        Call::Revoke {
            client,
            object,
            rights,
        } => put_rights_on(out, policy, "revoke", *client, *object, *rights),
        Call::Stop { queue } => {
            put_text(out, "event", "stop")?;
            put_number(out, "queue", queue.0)
        }
        Call::Close { queue } => {
            put_text(out, "event", "close")?;
            put_number(out, "queue", queue.0)
        }
        Call::RunNext { queue, packet } => put_packet(out, "run", *queue, *packet),
        Call::Poll { queue, packet } => put_packet(out, "poll", *queue, *packet),
        Call::Finish { queue, packet } => put_packet(out, "finish", *queue, *packet),
        Call::HostWrite {
            client,
            address,
            bytes,
        } => {
            put_text(out, "event", "write")?;
            put_client(out, policy, *client)?;
            put_address(out, "address", *address)?;
            put_bytes(out, "bytes", bytes.as_slice())
        }
        Call::ChangeSignal {
            client,
            signal,
            operation,
        } => {
            put_text(out, "event", "signal")?;
            put_client(out, policy, *client)?;
            put_signal(out, policy, *signal)?;
            put_operation(out, operation)
        }
    }
}

// What happened.
fn put_event(out: &mut String, policy: &Policy, event: &Event) -> Result<(), AllocError> {
    match event {
        Event::Open {
            client,
            agent,
            size,
        } => {
            put_text(out, "event", "open")?;
            put_client(out, policy, *client)?;
            put_number(out, "agent", u64::from(agent.0))?;
            put_number(out, "size", *size)
        }
        Event::Take {
            queue,
            packet,
            bytes,
        } => {
            put_packet(out, "take", *queue, *packet)?;
            put_bytes(out, "bytes", bytes)
        }
        Event::Call(call) => put_call(out, policy, call),
        Event::Reload { .. } => put_text(out, "event", "reload"),
    }
}

// A change, as the members of its object.
fn put_effect(out: &mut String, policy: &Policy, effect: &Effect) -> Result<(), AllocError> {
    match effect {
        Effect::Write { address, bytes } => {
            put_text(out, "effect", "write")?;
            put_address(out, "address", *address)?;
            put_bytes(out, "bytes", bytes.as_slice())
        }
        Effect::Signal { signal, old, new } => {
            put_text(out, "effect", "signal")?;
            put_signal(out, policy, *signal)?;
            put_signed(out, "old", *old)?;
            put_signed(out, "new", *new)
        }
        Effect::Release { queue, packet } => {
            put_text(out, "effect", "release")?;
            put_number(out, "queue", queue.0)?;
            put_number(out, "packet", packet.0)
        }
    }
}

// The changes of an entry.
fn put_effects(out: &mut String, policy: &Policy, effects: &[Effect]) -> Result<(), AllocError> {
    put_name(out, "effects")?;
    out.push_str("[")?;
    for effect in effects {
        put_comma(out)?;
        out.push_str("{")?;
        put_effect(out, policy, effect)?;
        out.push_str("}")?;
    }
    out.push_str("]")
}

// What an entry came to. The event has told of which queue and packet an error is.
fn put_came(out: &mut String, outcome: &Outcome) -> Result<(), AllocError> {
    put_name(out, "outcome")?;
    out.push_str("{")?;
    put_text(out, "is", outcome_name(outcome))?;
    put_outcome(out, outcome)?;
    out.push_str("}")
}

// An entry with its number.
fn put_entry(
    out: &mut String,
    policy: &Policy,
    number: u64,
    entry: &Entry,
) -> Result<(), AllocError> {
    out.push_str("{")?;
    put_number(out, "entry", number)?;
    put_event(out, policy, &entry.event)?;
    put_came(out, &entry.outcome)?;
    put_effects(out, policy, entry.effects.as_slice())?;
    out.push_str("}")
}

// Entries that come behind so many others.
fn put_entries(
    out: &mut String,
    policy: &Policy,
    before: u64,
    entries: &[Entry],
) -> Result<(), AllocError> {
    put_name(out, "entries")?;
    out.push_str("[")?;
    let mut number = before;
    for entry in entries {
        put_comma(out)?;
        number = number.saturating_add(1);
        put_entry(out, policy, number, entry)?;
    }
    out.push_str("]")
}

/// Writes the reply to a line that asks for the audit, whose entries come behind so many others.
pub fn write_audit(
    out: &mut String,
    policy: &Policy,
    line: u64,
    before: u64,
    entries: &[Entry],
) -> Result<(), AllocError> {
    begin(out, line, "audit")?;
    put_entries(out, policy, before, entries)?;
    end(out)
}

/// Writes a part of the audit that was handed out.
pub fn write_rotated(
    out: &mut String,
    policy: &Policy,
    line: u64,
    part: &Part,
) -> Result<(), AllocError> {
    begin(out, line, "rotated")?;
    put_entries(out, policy, part.start().before, part.entries())?;
    end(out)
}
