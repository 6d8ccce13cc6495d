//! What calls and events come to, as members of an object.

use crate::members::{put_address, put_comma, put_name, put_number, put_signed, put_text};
use aql_packet::Address;
use core_model::{Outcome, Polled, Satisfied, Taken, Worked};
use queue_error::{FaultPlace, QueueError, SegmentAddress};
use script::{cause_name, refusal_name, refusal_number};
use std::alloc::AllocError;
use world::Refusal;

// Puts the address that an item asked for.
fn put_asked(out: &mut String, asked: SegmentAddress) -> Result<(), AllocError> {
    match asked {
        SegmentAddress::Global(address) => put_address(out, "address", Address(address)),
        SegmentAddress::Group(offset) => put_number(out, "group_offset", u64::from(offset)),
    }
}

// Puts where in a kernel's work a rule was broken.
fn put_place(out: &mut String, place: FaultPlace) -> Result<(), AllocError> {
    put_number(out, "group", u64::from(place.group))?;
    put_number(out, "item", u64::from(place.item))?;
    put_number(out, "text_line", u64::from(place.line))?;
    match place.address {
        Some(asked) => put_asked(out, asked),
        None => Ok(()),
    }
}

/// Puts an error's members.
pub fn put_error(out: &mut String, error: &QueueError) -> Result<(), AllocError> {
    put_number(out, "queue", error.queue.0)?;
    put_number(out, "packet", error.packet.0)?;
    put_name(out, "rule")?;
    let rule = error.rule;
    write!(out, "\"{rule}\"")?;
    match error.place {
        Some(place) => put_place(out, place),
        None => Ok(()),
    }
}

/// What became of a packet that was handed over, in a word.
pub fn taken_name(taken: Taken) -> &'static str {
    match taken {
        Taken::Launched => "launched",
        Taken::Denied(_) => "denied",
        Taken::Waiting(_) => "waiting",
    }
}

/// What else is told of a packet that was handed over and has this number.
pub fn put_taken(out: &mut String, packet: u64, taken: Taken) -> Result<(), AllocError> {
    match taken {
        Taken::Launched => put_number(out, "packet", packet),
        Taken::Denied(error) => put_error(out, &error),
        Taken::Waiting(cause) => {
            put_number(out, "packet", packet)?;
            put_text(out, "cause", cause_name(&cause))
        }
    }
}

// Puts the positions at which dependencies were newly seen as 0, from 1.
fn put_seen(out: &mut String, seen: Satisfied) -> Result<(), AllocError> {
    put_name(out, "seen")?;
    out.push_str("[")?;
    for (index, was_seen) in seen.0.iter().enumerate() {
        if *was_seen {
            put_comma(out)?;
            let position = index.saturating_add(1);
            write!(out, "{position}")?;
        }
    }
    out.push_str("]")
}

// What became of a group, in a word.
fn worked_name(worked: Worked) -> &'static str {
    match worked {
        Worked::Ran { .. } => "ran",
        Worked::Faulted(_) => "faulted",
        Worked::Done => "done",
    }
}

// What else is told of a group.
fn put_worked(out: &mut String, worked: Worked) -> Result<(), AllocError> {
    match worked {
        Worked::Ran { group, left } => {
            put_number(out, "group", u64::from(group))?;
            put_number(out, "left", u64::from(left))
        }
        Worked::Faulted(error) => put_error(out, &error),
        Worked::Done => Ok(()),
    }
}

// What a poll found, in a word.
fn polled_name(polled: Polled) -> &'static str {
    match polled {
        Polled::Pending(_) => "pending",
        Polled::Ready(_) => "ready",
        Polled::Failed(_) => "failed",
    }
}

// What else is told of a poll.
fn put_polled(out: &mut String, polled: Polled) -> Result<(), AllocError> {
    match polled {
        Polled::Pending(seen) | Polled::Ready(seen) => put_seen(out, seen),
        Polled::Failed(error) => put_error(out, &error),
    }
}

/// What an event came to, in a word.
pub fn outcome_name(outcome: &Outcome) -> &'static str {
    match outcome {
        Outcome::Accepted | Outcome::Changed(_) => "ok",
        Outcome::Opened(_) => "queue",
        Outcome::Taken(taken) => taken_name(*taken),
        Outcome::Worked(worked) => worked_name(*worked),
        Outcome::Polled(polled) => polled_name(*polled),
    }
}

/// What else is told of what an event came to.
pub fn put_outcome(out: &mut String, outcome: &Outcome) -> Result<(), AllocError> {
    match outcome {
        Outcome::Accepted | Outcome::Changed(_) => Ok(()),
        Outcome::Opened(queue) => put_number(out, "queue", queue.0),
        Outcome::Taken(Taken::Denied(error)) => put_error(out, error),
        Outcome::Taken(_) => Ok(()),
        Outcome::Worked(worked) => put_worked(out, *worked),
        Outcome::Polled(polled) => put_polled(out, *polled),
    }
}

/// The old value of a signal.
pub fn put_old(out: &mut String, value: i64) -> Result<(), AllocError> {
    put_signed(out, "value", value)
}

// What a refusal of the core names beside its name.
fn put_details(out: &mut String, refusal: &core_model::Refusal) -> Result<(), AllocError> {
    match refusal {
        core_model::Refusal::Denied(right) => put_text(out, "right", right.name()),
        core_model::Refusal::Busy { queue, packet } => {
            put_number(out, "queue", queue.0)?;
            put_number(out, "packet", packet.0)
        }
        core_model::Refusal::OutOfStep(next) => put_number(out, "next", *next),
        _ => Ok(()),
    }
}

/// What is told of a refusal: its number, its name, and what it names.
pub fn put_refusal(out: &mut String, refusal: &Refusal) -> Result<(), AllocError> {
    put_number(out, "number", u64::from(refusal_number(refusal)))?;
    put_text(out, "name", refusal_name(refusal))?;
    match refusal {
        Refusal::Core(refusal) => put_details(out, refusal),
        Refusal::NotAStep | Refusal::Spent => Ok(()),
    }
}
