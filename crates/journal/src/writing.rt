//! Entries as they are written, each word behind a blank.

ghost use Rattle.std.specs.Prelude.{◌≡◌, ◌++◌, ◌∷◌, [], OnOk, string_bytes};
ghost use Rattle.policy.specs.declared.row.RightsRow.{RightsRow};
ghost use Rattle.core_model.specs.declared.entry.Effect.{Effect};
ghost use Rattle.journal.specs.Words.{behind_blanks};
ghost use Rattle.journal.specs.Entries.{words_of_object, words_of_rights_on, words_of_packet, words_of_operation, words_of_call, words_of_grantee, words_of_target, words_of_row, words_of_list, words_of_rows, words_of_event, words_of_address, words_of_place, words_of_error, name_of_cause, words_of_outcome, words_of_effect, words_of_result, words_of_entry, text_of_entry};

use crate::spelling::{write_bytes, write_flags};
use aql_packet::{ClientId, PacketId, QueueId};
use bitflags::Flags;
use core_model::{Call, Effect, Entry, Event, Outcome, Polled, Taken, WaitCause, Worked};
use policy::{Grantee, Object, PolicyRows, Rights, RightsRow, Target};
use queue_error::{FaultPlace, QueueError, SegmentAddress};
use signals::SignalOp;
use std::alloc::AllocError;

// Writes `KIND NUMBER`.
fn write_object(out: &mut String, object: Object) -> Result<(), AllocError>
    ensures { OnOk result (string_bytes out.new ≡ string_bytes out.old ++ behind_blanks (words_of_object object)) }
{
    match object {
        Object::Agent(agent) => write!(out, " agent {}", agent.0),
        Object::Region(region) => write!(out, " region {}", region.0),
        Object::Signal(signal) => write!(out, " signal {}", signal.0),
        Object::Kernel(kernel) => write!(out, " kernel {}", kernel.0),
    }
}

// Writes a verb, which has its blank, and `CLIENT KIND NUMBER RIGHTS`.
fn write_rights_on(
    out: &mut String,
    verb: &str,
    client: ClientId,
    object: Object,
    rights: Rights,
) -> Result<(), AllocError>
    ensures { OnOk result (string_bytes out.new ≡ string_bytes out.old ++ (verb.now ++ behind_blanks (words_of_rights_on client object rights))) }
{
    write!(out, "{verb} {}", client.0)?;
    write_object(out, object)?;
    write!(out, " {}", rights.bits())
}

// Writes a verb, which has its blank, and `Q ID`.
fn write_packet(
    out: &mut String,
    verb: &str,
    queue: QueueId,
    packet: PacketId,
) -> Result<(), AllocError>
    ensures { OnOk result (string_bytes out.new ≡ string_bytes out.old ++ (verb.now ++ behind_blanks (words_of_packet queue packet))) }
{
    write!(out, "{verb} {} {}", queue.0, packet.0)
}

// Writes an operation on a signal, with its operands.
fn write_operation(out: &mut String, operation: SignalOp) -> Result<(), AllocError>
    ensures { OnOk result (string_bytes out.new ≡ string_bytes out.old ++ behind_blanks (words_of_operation operation)) }
{
    match operation {
        SignalOp::Store(value) => write!(out, " store {value}"),
        SignalOp::Add(value) => write!(out, " add {value}"),
        SignalOp::Subtract(value) => write!(out, " subtract {value}"),
        SignalOp::And(value) => write!(out, " and {value}"),
        SignalOp::Or(value) => write!(out, " or {value}"),
        SignalOp::Xor(value) => write!(out, " xor {value}"),
        SignalOp::Exchange(value) => write!(out, " exchange {value}"),
        SignalOp::Cas { expected, value } => write!(out, " cas {expected} {value}"),
    }
}

// Writes a call of a client or an administrator.
fn write_call(out: &mut String, call: &Call) -> Result<(), AllocError>
    ensures { OnOk result (string_bytes out.new ≡ string_bytes out.old ++ behind_blanks (words_of_call call.now)) }
{
    match call {
        Call::Grant {
            client,
            object,
            rights,
        } => write_rights_on(out, " grant", *client, *object, *rights),
        Call::Revoke {
            client,
            object,
            rights,
        } => write_rights_on(out, " revoke", *client, *object, *rights),
        Call::Stop { queue } => write!(out, " stop {}", queue.0),
        Call::Close { queue } => write!(out, " close {}", queue.0),
        Call::RunNext { queue, packet } => write_packet(out, " run", *queue, *packet),
        Call::Poll { queue, packet } => write_packet(out, " poll", *queue, *packet),
        Call::Finish { queue, packet } => write_packet(out, " finish", *queue, *packet),
        Call::HostWrite {
            client,
            address,
            bytes,
        } => {
            write!(out, " write {} {} ", client.0, address.0)?;
            write_bytes(out, bytes.as_slice())
        }
        Call::ChangeSignal {
            client,
            signal,
            operation,
        } => {
            write!(out, " signal {} {}", client.0, signal.0)?;
            write_operation(out, *operation)
        }
    }
}

// Writes whom a row on rights covers.
fn write_grantee(out: &mut String, grantee: Grantee) -> Result<(), AllocError>
    ensures { OnOk result (string_bytes out.new ≡ string_bytes out.old ++ behind_blanks (words_of_grantee grantee)) }
{
    match grantee {
        Grantee::Any => out.push_str(" anyone"),
        Grantee::One(client) => write!(out, " client {}", client.0),
    }
}

// Writes what a row on rights covers.
fn write_target(out: &mut String, target: Target) -> Result<(), AllocError>
    ensures { OnOk result (string_bytes out.new ≡ string_bytes out.old ++ behind_blanks (words_of_target target)) }
{
    match target {
        Target::Any(kind) => write!(out, " each {kind}"),
        Target::One(object) => {
            out.push_str(" one")?;
            write_object(out, object)
        }
    }
}

// Writes a row on rights.
fn write_row(out: &mut String, row: &RightsRow) -> Result<(), AllocError>
    ensures { OnOk result (string_bytes out.new ≡ string_bytes out.old ++ behind_blanks (words_of_row row.now)) }
{
    write_grantee(out, row.subject)?;
    write_target(out, row.target)?;
    write!(out, " {}", row.rights.bits())
}

// Writes how many rows there are, and these in order.
fn write_rows(out: &mut String, rows: &[RightsRow]) -> Result<(), AllocError>
    ensures { OnOk result (string_bytes out.new ≡ string_bytes out.old ++ behind_blanks (words_of_list words_of_row rows.now)) }
{
    write!(out, " {}", rows.len())?;
    for row in rows {
        write_row(out, row)?;
    }
    Ok(())
}

// Writes the rows of a policy.
fn write_policy_rows(out: &mut String, rows: &PolicyRows) -> Result<(), AllocError>
    ensures { OnOk result (string_bytes out.new ≡ string_bytes out.old ++ behind_blanks (words_of_rows rows.now)) }
{
    write_rows(out, rows.allows.as_slice())?;
    write_rows(out, rows.denies.as_slice())
}

// Writes what happened, with all that was handed to it.
fn write_event(out: &mut String, event: &Event) -> Result<(), AllocError>
    ensures { OnOk result (string_bytes out.new ≡ string_bytes out.old ++ behind_blanks (words_of_event event.now)) }
{
    match event {
        Event::Open {
            client,
            agent,
            size,
        } => write!(out, " open {} {} {size}", client.0, agent.0),
        Event::Take {
            queue,
            packet,
            bytes,
        } => {
            write!(out, " take {} {} ", queue.0, packet.0)?;
            write_bytes(out, bytes)
        }
        Event::Call(call) => write_call(out, call),
        Event::Reload { rows } => {
            out.push_str(" reload")?;
            write_policy_rows(out, rows)
        }
    }
}

// Writes the address that a work-item asked for, where it asked for one.
fn write_address(out: &mut String, address: Option<SegmentAddress>) -> Result<(), AllocError>
    ensures { OnOk result (string_bytes out.new ≡ string_bytes out.old ++ behind_blanks (words_of_address address)) }
{
    match address {
        None => out.push_str(" nowhere"),
        Some(SegmentAddress::Global(address)) => write!(out, " global {address}"),
        Some(SegmentAddress::Group(address)) => write!(out, " group {address}"),
    }
}

// Writes where a kernel's work broke a rule.
fn write_place(out: &mut String, place: Option<FaultPlace>) -> Result<(), AllocError>
    ensures { OnOk result (string_bytes out.new ≡ string_bytes out.old ++ behind_blanks (words_of_place place)) }
{
    match place {
        None => out.push_str(" whole"),
        Some(place) => {
            write!(out, " at {} {} {}", place.group, place.item, place.line)?;
            write_address(out, place.address)
        }
    }
}

// Writes an error: whose it is, the rule, and where.
fn write_error(out: &mut String, error: &QueueError) -> Result<(), AllocError>
    ensures { OnOk result (string_bytes out.new ≡ string_bytes out.old ++ behind_blanks (words_of_error error.now)) }
{
    write!(out, " {} {} {}", error.queue.0, error.packet.0, error.rule)?;
    write_place(out, error.place)
}

// The name of the reason why a packet may not start yet.
fn cause_name(cause: WaitCause) -> &'static str
    ensures { result.now ≡ name_of_cause cause }
{
    match cause {
        WaitCause::Barrier => "barrier",
        WaitCause::Active => "active",
        WaitCause::Slots => "slots",
    }
}

// Writes a name, and behind it an error.
fn write_failure(out: &mut String, name: &str, error: &QueueError) -> Result<(), AllocError>
    ensures { OnOk result (string_bytes out.new ≡ string_bytes out.old ++ (32 ∷ name.now ++ behind_blanks (words_of_error error.now))) }
{
    write!(out, " {name}")?;
    write_error(out, error)
}

/// Writes what a call came to, each word behind a blank. Refused for want of memory alone.
pub fn write_outcome(out: &mut String, outcome: &Outcome) -> Result<(), AllocError>
    ensures { OnOk result (string_bytes out.new ≡ string_bytes out.old ++ behind_blanks (words_of_outcome outcome.now)) }
{
    match outcome {
        Outcome::Accepted => out.push_str(" accepted"),
        Outcome::Opened(queue) => write!(out, " opened {}", queue.0),
        Outcome::Taken(Taken::Launched) => out.push_str(" launched"),
        Outcome::Taken(Taken::Denied(error)) => write_failure(out, "denied", error),
        Outcome::Taken(Taken::Waiting(cause)) => write!(out, " waiting {}", cause_name(*cause)),
        Outcome::Worked(Worked::Ran { group, left }) => write!(out, " ran {group} {left}"),
        Outcome::Worked(Worked::Faulted(error)) => write_failure(out, "faulted", error),
        Outcome::Worked(Worked::Done) => out.push_str(" done"),
        Outcome::Polled(Polled::Pending(seen)) => {
            out.push_str(" pending ")?;
            write_flags(out, &seen.0)
        }
        Outcome::Polled(Polled::Ready(seen)) => {
            out.push_str(" ready ")?;
            write_flags(out, &seen.0)
        }
        Outcome::Polled(Polled::Failed(error)) => write_failure(out, "failed", error),
        Outcome::Changed(old) => write!(out, " changed {old}"),
    }
}

// Writes a change.
fn write_effect(out: &mut String, effect: &Effect) -> Result<(), AllocError>
    ensures { OnOk result (string_bytes out.new ≡ string_bytes out.old ++ behind_blanks (words_of_effect effect.now)) }
{
    match effect {
        Effect::Write { address, bytes } => {
            write!(out, " write {} ", address.0)?;
            write_bytes(out, bytes.as_slice())
        }
        Effect::Signal { signal, old, new } => write!(out, " signal {} {old} {new}", signal.0),
        Effect::Release { queue, packet } => write_packet(out, " release", *queue, *packet),
    }
}

// Writes how many changes there are, and these in order.
fn write_effects(out: &mut String, effects: &[Effect]) -> Result<(), AllocError>
    ensures { OnOk result (string_bytes out.new ≡ string_bytes out.old ++ behind_blanks (words_of_list words_of_effect effects.now)) }
{
    write!(out, " {}", effects.len())?;
    for effect in effects {
        write_effect(out, effect)?;
    }
    Ok(())
}

/// Writes what the call of an entry came to, and what it changed, each word behind a blank. Refused for want of memory
/// alone; the text may then have a part of it.
pub fn write_result(out: &mut String, entry: &Entry) -> Result<(), AllocError>
    ensures { OnOk result (string_bytes out.new ≡ string_bytes out.old ++ behind_blanks (words_of_result entry.now)) }
{
    write_outcome(out, &entry.outcome)?;
    write_effects(out, entry.effects.as_slice())
}

/// Writes an entry behind what a text has already: all that was handed to the call, what it came to, and what it
/// changed, each word behind a blank. Refused for want of memory alone; the text may then have a part of it.
pub fn write_entry(out: &mut String, entry: &Entry) -> Result<(), AllocError>
    ensures { OnOk result (string_bytes out.new ≡ string_bytes out.old ++ text_of_entry entry.now) }
{
    write_event(out, &entry.event)?;
    write_result(out, entry)
}
