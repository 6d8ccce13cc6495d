//! What a drain comes to, and how it is told.

ghost use Rattle.std.specs.Prelude.{◌≡◌, ◌++◌, ℕ, List, OnOk, string_bytes};
ghost use Rattle.readable.specs.FateLines.{text_of_fates};
ghost use Rattle.readable.specs.Tallies.{text_of_polled, text_of_taken, text_of_tally, text_of_worked};

use crate::fate_lines::{put_fate, write_fates};
use crate::fates::Fate;
use crate::moves::{Came, Move, reply_of};
use crate::tally::Tally;
use aql_packet::{PacketId, QueueId, SignalHandle};
use core_model::{Outcome, Polled};
use json_replies::{
    begin, end, outcome_name, put_comma, put_name, put_number, put_outcome, put_refusal, put_taken,
    put_text, taken_name,
};
use policy::{Object, Policy};
use script::write_line;
use std::alloc::{AllocError, Global};

/// What waits as a drain ends: what was asked of it last, what that came to, and of a barrier packet the signals that it
/// depends on.
#[derive(Clone, Copy)]
pub struct Wait {
    pub asked: Move,
    pub came: Came,
    pub signals: Option<[SignalHandle; 5]>,
}

/// What a drain came to: how often its requests came to what, what came of its packets, what waits and why, and the request of the first fault, or
/// else of the first wait.
#[derive(Drop)]
pub struct Drained {
    pub tally: Tally,
    pub fates: Vec<Fate>,
    pub waits: Vec<Wait>,
    pub noted: Option<(Move, Came)>,
}

// Writes the queue that waits, and the packet where one does.
fn write_waiting(
    out: &mut String,
    queue: QueueId,
    packet: Option<PacketId>,
) -> Result<(), AllocError> {
    let queue = queue.0;
    write!(out, "queue {queue} ")?;
    match packet {
        Some(packet) => {
            let packet = packet.0;
            write!(out, "packet {packet} ")
        }
        None => Ok(()),
    }
}

// Writes the names of the signals of these that the policy declares, each behind a blank.
fn write_signals(
    out: &mut String,
    policy: &Policy,
    signals: &[SignalHandle],
) -> Result<(), AllocError> {
    for signal in signals {
        if let Some(name) = policy.object_name(Object::Signal(*signal)) {
            write!(out, " {name}")?;
        }
    }
    Ok(())
}

// Writes why a barrier packet waits.
fn write_pending(
    out: &mut String,
    policy: &Policy,
    signals: Option<[SignalHandle; 5]>,
) -> Result<(), AllocError> {
    out.push_str("pending")?;
    if let Some(signals) = signals {
        out.push_str(" on")?;
        write_signals(out, policy, &signals)?;
    }
    out.push_str("\n")
}

// Writes what waits, and why.
fn write_wait(out: &mut String, policy: &Policy, wait: &Wait) -> Result<(), AllocError> {
    write_waiting(out, wait.asked.queue(), wait.asked.packet())?;
    match wait.came {
        Came::Outcome(Outcome::Polled(Polled::Pending(_))) => {
            write_pending(out, policy, wait.signals)
        }
        came => write_line(out, policy, &reply_of(came)),
    }
}

// Writes what became of packets.
fn write_taken(out: &mut String, tally: &Tally) -> Result<(), AllocError>
    ensures { OnOk result (string_bytes out.new ≡ string_bytes out.old ++ text_of_taken tally.now) }
{
    let launched = tally.launched;
    let denied = tally.denied;
    write!(out, " launched {launched} denied {denied}")
}

// Writes what became of groups.
fn write_worked(out: &mut String, tally: &Tally) -> Result<(), AllocError>
    ensures { OnOk result (string_bytes out.new ≡ string_bytes out.old ++ text_of_worked tally.now) }
{
    let ran = tally.ran;
    let faulted = tally.faulted;
    write!(out, " ran {ran} faulted {faulted}")
}

// Writes what became of barrier packets, and how many packets were finished.
fn write_polled(out: &mut String, tally: &Tally) -> Result<(), AllocError>
    ensures { OnOk result (string_bytes out.new ≡ string_bytes out.old ++ text_of_polled tally.now) }
{
    let ready = tally.ready;
    let failed = tally.failed;
    let finished = tally.finished;
    write!(out, " ready {ready} failed {failed} finished {finished}")
}

// Writes how often requests came to what.
#[tactic(auto, unfolding(crate::specs::Tallies::text_of_tally))]
fn write_tally(out: &mut String, tally: &Tally) -> Result<(), AllocError>
    ensures { OnOk result (string_bytes out.new ≡ string_bytes out.old ++ text_of_tally tally.now) }
{
    out.push_str("drained")?;
    write_taken(out, tally)?;
    write_worked(out, tally)?;
    write_polled(out, tally)
}

// How many wait, and a line for each of these.
fn waits_told(alloc: Global, policy: &Policy, waits: &[Wait]) -> Result<String, AllocError> {
    let count = waits.len();
    let mut out = format!(in alloc; " waiting {count}\n")?;
    for wait in waits {
        write_wait(&mut out, policy, wait)?;
    }
    Ok(out)
}

impl Drained {
    /// Writes it as text: a line for each packet of which something came, the counts, how many wait, and a line for each of
    /// these.
    pub fn write_text(
        &self,
        alloc: Global,
        out: &mut String,
        policy: &Policy,
    ) -> Result<(), AllocError>
        ensures { OnOk result ((rest : List ℕ) × (string_bytes out.new ≡ string_bytes out.old ++ (text_of_fates policy.now self.now.fates.items ++ text_of_tally self.now.tally ++ rest))) }
    {
        let waits = waits_told(alloc, policy, self.waits.as_slice())?;
        write_fates(out, policy, self.fates.as_slice())?;
        write_tally(out, &self.tally)?;
        out.push_str(waits.as_str())
    }

    /// Writes it as an object of JSON: the reply to the line of this number.
    pub fn write_json(
        &self,
        out: &mut String,
        policy: &Policy,
        line: u64,
    ) -> Result<(), AllocError> {
        begin(out, line, "drained")?;
        put_tally(out, &self.tally)?;
        put_name(out, "packets")?;
        out.push_str("[")?;
        for fate in self.fates.as_slice() {
            put_fate(out, policy, fate)?;
        }
        out.push_str("]")?;
        put_name(out, "waiting")?;
        out.push_str("[")?;
        for wait in self.waits.as_slice() {
            put_wait(out, policy, wait)?;
        }
        out.push_str("]")?;
        end(out)
    }
}

// Puts the counts.
fn put_tally(out: &mut String, tally: &Tally) -> Result<(), AllocError> {
    put_number(out, "launched", tally.launched)?;
    put_number(out, "denied", tally.denied)?;
    put_number(out, "ran", tally.ran)?;
    put_number(out, "faulted", tally.faulted)?;
    put_number(out, "ready", tally.ready)?;
    put_number(out, "failed", tally.failed)?;
    put_number(out, "finished", tally.finished)
}

// Puts what a request came to.
fn put_came(out: &mut String, came: Came) -> Result<(), AllocError> {
    match came {
        Came::Nothing => put_text(out, "reply", "empty"),
        Came::Taken { packet, taken } => {
            put_text(out, "reply", taken_name(taken))?;
            put_taken(out, packet.0, taken)
        }
        Came::Outcome(outcome) => {
            put_text(out, "reply", outcome_name(&outcome))?;
            put_outcome(out, &outcome)
        }
        Came::Refused(why) => {
            put_text(out, "reply", "refused")?;
            put_refusal(out, &why)
        }
    }
}

// Puts the names of the signals of these that the policy declares.
fn put_signals(
    out: &mut String,
    policy: &Policy,
    signals: &[SignalHandle],
) -> Result<(), AllocError> {
    put_name(out, "on")?;
    out.push_str("[")?;
    for signal in signals {
        if let Some(name) = policy.object_name(Object::Signal(*signal)) {
            put_comma(out)?;
            write!(out, "\"{name}\"")?;
        }
    }
    out.push_str("]")
}

// Puts the names of the signals that a barrier packet depends on, where it is one.
fn put_dependencies(
    out: &mut String,
    policy: &Policy,
    signals: Option<[SignalHandle; 5]>,
) -> Result<(), AllocError> {
    match signals {
        Some(signals) => put_signals(out, policy, &signals),
        None => Ok(()),
    }
}

// Puts what waits, and why.
fn put_wait(out: &mut String, policy: &Policy, wait: &Wait) -> Result<(), AllocError> {
    put_comma(out)?;
    out.push_str("{")?;
    put_number(out, "queue", wait.asked.queue().0)?;
    if let Some(packet) = wait.asked.packet() {
        put_number(out, "packet", packet.0)?;
    }
    put_came(out, wait.came)?;
    put_dependencies(out, policy, wait.signals)?;
    out.push_str("}")
}
