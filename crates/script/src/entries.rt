//! The audit as text.

ghost use Rattle.std.specs.Prelude.{◌≡◌, ◌++◌, ◌+◌, ◌<◌, OnOk, flat_map, decimal, string_bytes};
ghost use Rattle.script.specs.Entries.{name_of_operation, text_of_packet, text_of_rights_on, opened, text_of_call, text_of_opening, seen_at, text_of_take, text_of_work, text_of_poll, text_of_event, text_of_seen, text_of_result, text_of_effect, text_of_entry, text_of_entries, text_of_audit, text_of_rotated};
ghost use Rattle.script.specs.Lists.{comma_if};

use crate::rights::{write_item, write_rights};
use aql_packet::{ClientId, PacketId, QueueId};
use core_model::{Call, Effect, Entry, Event, Outcome, Part, Polled, Satisfied, Taken, Worked};
use policy::{Object, Policy, Rights};
use signals::SignalOp;
use std::alloc::AllocError;
use words::{write_address, write_broken, write_bytes, write_client};

/// The word of a signal's operation.
pub fn operation_name(operation: &SignalOp) -> &'static str
    ensures { result.now ≡ name_of_operation operation.now }
{
    match operation {
        SignalOp::Store(_) => "store",
        SignalOp::Add(_) => "add",
        SignalOp::Subtract(_) => "subtract",
        SignalOp::And(_) => "and",
        SignalOp::Or(_) => "or",
        SignalOp::Xor(_) => "xor",
        SignalOp::Exchange(_) => "exchange",
        SignalOp::Cas { .. } => "cas",
    }
}

// Writes `VERB Q ID`, the verb with its blank.
fn write_packet(
    out: &mut String,
    verb: &str,
    queue: QueueId,
    packet: PacketId,
) -> Result<(), AllocError>
    ensures { OnOk result (string_bytes out.new ≡ string_bytes out.old ++ (verb.now ++ text_of_packet queue packet)) }
{
    write!(out, "{verb}{} {}", queue.0, packet.0)
}

// Writes `VERB C KIND NUMBER R,R`, the verb with its blank.
fn write_rights_on(
    out: &mut String,
    policy: &Policy,
    verb: &str,
    client: ClientId,
    object: Object,
    rights: Rights,
) -> Result<(), AllocError>
    ensures { OnOk result (string_bytes out.new ≡ string_bytes out.old ++ (verb.now ++ text_of_rights_on policy.now client object rights)) }
{
    out.push_str(verb)?;
    write_client(out, policy, client)?;
    write!(out, " {} {} ", object.kind(), object.number())?;
    write_rights(out, rights)
}

// Writes the opening of a queue.
fn write_opening(
    out: &mut String,
    policy: &Policy,
    number: u64,
    client: ClientId,
    agent: u32,
    size: u64,
) -> Result<(), AllocError>
    ensures { OnOk result (string_bytes out.new ≡ string_bytes out.old ++ text_of_opening policy.now number client agent size) }
{
    write!(out, "queue {number} ")?;
    write_client(out, policy, client)?;
    write!(out, " agent {agent} size {size}")
}

// Writes what was called.
fn write_call(out: &mut String, policy: &Policy, call: &Call) -> Result<(), AllocError>
    ensures { OnOk result (string_bytes out.new ≡ string_bytes out.old ++ text_of_call policy.now call.now) }
{
    match call {
        Call::Grant {
            client,
            object,
            rights,
        } => write_rights_on(out, policy, "grant ", *client, *object, *rights),
        Call::Revoke {
            client,
            object,
            rights,
        } => write_rights_on(out, policy, "revoke ", *client, *object, *rights),
        Call::Stop { queue } => write!(out, "stop {}", queue.0),
        Call::Close { queue } => write!(out, "close {}", queue.0),
        Call::RunNext { queue, packet } => write_packet(out, "run ", *queue, *packet),
        Call::Poll { queue, packet } => write_packet(out, "poll ", *queue, *packet),
        Call::Finish { queue, packet } => write_packet(out, "finish ", *queue, *packet),
        Call::HostWrite { client, .. } => {
            out.push_str("write ")?;
            write_client(out, policy, *client)
        }
        Call::ChangeSignal {
            client,
            operation,
            ..
        } => {
            out.push_str("signal ")?;
            write_client(out, policy, *client)?;
            write!(out, " {}", operation_name(operation))
        }
    }
}

// Writes what happened; `number` is the number of a queue that was opened.
fn write_event(
    out: &mut String,
    policy: &Policy,
    number: u64,
    event: &Event,
) -> Result<(), AllocError>
    ensures { OnOk result (string_bytes out.new ≡ string_bytes out.old ++ text_of_event policy.now number event.now) }
{
    match event {
        Event::Open {
            client,
            agent,
            size,
        } => write_opening(out, policy, number, *client, agent.0, *size),
        Event::Take { queue, packet, .. } => write_packet(out, "take ", *queue, *packet),
        Event::Call(call) => write_call(out, policy, call),
        Event::Reload { .. } => out.push_str("reload"),
    }
}

// Writes the positions at which dependencies were newly seen.
fn write_seen(out: &mut String, seen: Satisfied) -> Result<(), AllocError>
    ensures { OnOk result (string_bytes out.new ≡ string_bytes out.old ++ text_of_seen seen) }
{
    out.push_str(" seen ")?;
    let mut any = false;
    for position in [1u8, 2, 3, 4, 5] {
        if is_seen(seen, position) {
            write_position(out, any, position)?;
            any = true;
        }
    }
    Ok(())
}

// Whether the dependency at a position, from 1, was newly seen.
fn is_seen(seen: Satisfied, position: u8) -> bool
    ensures { result ≡ seen_at seen position }
{
    match seen.0.get((position as usize).saturating_sub(1)) {
        Some(was_seen) => *was_seen,
        None => false,
    }
}

// Writes a position in a list with commas.
fn write_position(out: &mut String, behind: bool, position: u8) -> Result<(), AllocError>
    ensures { OnOk result (string_bytes out.new ≡ string_bytes out.old ++ (comma_if behind ++ decimal position)) }
{
    write_item(out, behind, "")?;
    write!(out, "{position}")
}

// Writes what became of a packet that was handed over.
fn write_taken(out: &mut String, taken: &Taken) -> Result<(), AllocError>
    ensures { OnOk result (string_bytes out.new ≡ string_bytes out.old ++ text_of_take taken.now) }
{
    match taken {
        Taken::Launched => out.push_str(" launched"),
        Taken::Denied(error) => {
            out.push_str(" denied ")?;
            write_broken(out, error)
        }
        Taken::Waiting(_) => Ok(()),
    }
}

// Writes what became of a group.
fn write_worked(out: &mut String, worked: &Worked) -> Result<(), AllocError>
    ensures { OnOk result (string_bytes out.new ≡ string_bytes out.old ++ text_of_work worked.now) }
{
    match worked {
        Worked::Ran { group, .. } => write!(out, " group {group}"),
        Worked::Faulted(error) => {
            out.push_str(" faulted ")?;
            write_broken(out, error)
        }
        Worked::Done => Ok(()),
    }
}

// Writes what a poll found.
fn write_polled(out: &mut String, polled: &Polled) -> Result<(), AllocError>
    ensures { OnOk result (string_bytes out.new ≡ string_bytes out.old ++ text_of_poll polled.now) }
{
    match polled {
        Polled::Pending(seen) => write_seen(out, *seen),
        Polled::Ready(seen) => write_seen(out, *seen),
        Polled::Failed(error) => {
            out.push_str(" failed ")?;
            write_broken(out, error)
        }
    }
}

// Writes what the call came to.
fn write_result(out: &mut String, outcome: &Outcome) -> Result<(), AllocError>
    ensures { OnOk result (string_bytes out.new ≡ string_bytes out.old ++ text_of_result outcome.now) }
{
    match outcome {
        Outcome::Accepted => Ok(()),
        Outcome::Opened(_) => Ok(()),
        Outcome::Taken(taken) => write_taken(out, taken),
        Outcome::Worked(worked) => write_worked(out, worked),
        Outcome::Polled(polled) => write_polled(out, polled),
        Outcome::Changed(_) => Ok(()),
    }
}

// Writes a change.
fn write_effect(out: &mut String, effect: &Effect) -> Result<(), AllocError>
    ensures { OnOk result (string_bytes out.new ≡ string_bytes out.old ++ text_of_effect effect.now) }
{
    match effect {
        Effect::Write { address, bytes } => {
            out.push_str("; write ")?;
            write_address(out, *address)?;
            out.push_str(" ")?;
            write_bytes(out, bytes.as_slice())
        }
        Effect::Signal { signal, old, new } => write!(out, "; signal {} {old} {new}", signal.0),
        Effect::Release { queue, packet } => write_packet(out, "; release ", *queue, *packet),
    }
}

// Writes changes in order.
fn write_effects(out: &mut String, effects: &[Effect]) -> Result<(), AllocError>
    ensures { OnOk result (string_bytes out.new ≡ string_bytes out.old ++ flat_map text_of_effect effects.now) }
{
    for effect in effects {
        write_effect(out, effect)?;
    }
    Ok(())
}

// The number of the queue that was opened.
fn opened_queue(outcome: &Outcome) -> u64
    ensures { result ≡ opened outcome.now }
{
    match outcome {
        Outcome::Opened(queue) => queue.0,
        _ => 0,
    }
}

/// Writes an entry with its number, as an audit tells it, behind what a text has already.
pub fn write_entry(
    out: &mut String,
    policy: &Policy,
    number: u128,
    entry: &Entry,
) -> Result<(), AllocError>
    ensures { OnOk result (string_bytes out.new ≡ string_bytes out.old ++ text_of_entry policy.now number entry.now) }
{
    write!(out, "{number} ")?;
    write_event(out, policy, opened_queue(&entry.outcome), &entry.event)?;
    write_result(out, &entry.outcome)?;
    write_effects(out, entry.effects.as_slice())?;
    out.push_str("\n")
}

/// Writes the audit, whose entries come behind so many others.
pub fn write_audit(
    out: &mut String,
    policy: &Policy,
    before: u64,
    entries: &[Entry],
) -> Result<(), AllocError>
    ensures { OnOk result (string_bytes out.new ≡ string_bytes out.old ++ text_of_audit policy.now before entries.now) }
{
    writeln!(out, "audit {}", entries.len())?;
    write_entries(out, policy, before, entries)
}

/// Writes a part that was handed out, its entries as those of the audit.
pub fn write_rotated(out: &mut String, policy: &Policy, part: &Part) -> Result<(), AllocError>
    ensures { OnOk result (string_bytes out.new ≡ string_bytes out.old ++ text_of_rotated policy.now part.now) }
{
    let entries = part.entries();
    writeln!(out, "rotated {}", entries.len())?;
    write_entries(out, policy, part.start().before, entries)
}

/// Writes entries that come behind so many others, each with its number.
pub fn write_entries(
    out: &mut String,
    policy: &Policy,
    before: u64,
    entries: &[Entry],
) -> Result<(), AllocError>
    ensures { OnOk result (string_bytes out.new ≡ string_bytes out.old ++ text_of_entries policy.now (before + 1) entries.now) }
{
    let mut number = u128::from(before) + 1;
    for entry in entries {
        write_entry(out, policy, number, entry)?;
        number += 1;
    }
    Ok(())
}
