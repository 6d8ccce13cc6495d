//! Replies to lines as objects.

use crate::entries::{put_object, write_audit, write_rotated};
use crate::members::{
    begin, end, put_bool, put_bytes, put_comma, put_name, put_number, put_rights, put_signed,
    put_words,
};
use crate::outcomes::{
    outcome_name, put_error, put_old, put_outcome, put_refusal, put_taken, taken_name,
};
use core_model::{Answer, Outcome, Taken};
use policy::{Object, Policy, Rights};
use queue_error::QueueError;
use ring_core::Seen;
use script::{LineAnswer, LineReply, NumberMeaning};
use std::alloc::AllocError;
use world::{Answer as Made, Sent, Shown};

// A reply with one number.
fn write_numbered(
    out: &mut String,
    line: u64,
    reply: &str,
    name: &str,
    number: u64,
) -> Result<(), AllocError> {
    begin(out, line, reply)?;
    put_number(out, name, number)?;
    end(out)
}

// A packet's word.
fn write_word(out: &mut String, line: u64, word: u64) -> Result<(), AllocError> {
    begin(out, line, "word")?;
    put_words(out, "bytes", &[word])?;
    end(out)
}

// What a step read.
fn write_seen(
    out: &mut String,
    line: u64,
    meaning: NumberMeaning,
    seen: Seen,
) -> Result<(), AllocError> {
    match (seen, meaning) {
        (Seen::Stored, _) => {
            begin(out, line, "ok")?;
            end(out)
        }
        (Seen::Read(number), NumberMeaning::Ticket) => {
            write_numbered(out, line, "ticket", "ticket", number)
        }
        (Seen::Read(number), NumberMeaning::Word) => write_word(out, line, number),
        (Seen::Read(number), NumberMeaning::Raised) => {
            write_numbered(out, line, "read", "index", number.wrapping_add(1))
        }
        (Seen::Read(number), _) => write_numbered(out, line, "read", "index", number),
    }
}

// What became of a packet that was handed over.
fn write_taken(out: &mut String, line: u64, packet: u64, taken: Taken) -> Result<(), AllocError> {
    begin(out, line, taken_name(taken))?;
    put_taken(out, packet, taken)?;
    end(out)
}

// What an event came to.
fn write_outcome(
    out: &mut String,
    line: u64,
    meaning: NumberMeaning,
    outcome: &Outcome,
) -> Result<(), AllocError> {
    match (outcome, meaning) {
        (Outcome::Changed(value), NumberMeaning::Old) => {
            begin(out, line, "old")?;
            put_old(out, *value)?;
        }
        _ => {
            begin(out, line, outcome_name(outcome))?;
            put_outcome(out, outcome)?;
        }
    }
    end(out)
}

// Puts an object with a client's rights on it.
fn put_listed(
    out: &mut String,
    policy: &Policy,
    object: Object,
    rights: Rights,
) -> Result<(), AllocError> {
    out.push_str("{")?;
    put_object(out, policy, object)?;
    put_rights(out, rights)?;
    out.push_str("}")
}

// Each object on which a client has a right.
fn write_listing(
    out: &mut String,
    policy: &Policy,
    line: u64,
    all: &[(Object, Rights)],
) -> Result<(), AllocError> {
    begin(out, line, "list")?;
    put_name(out, "objects")?;
    out.push_str("[")?;
    for (object, rights) in all {
        put_comma(out)?;
        put_listed(out, policy, *object, *rights)?;
    }
    out.push_str("]")?;
    end(out)
}

// A queue's errors.
fn write_errors(out: &mut String, line: u64, all: &[QueueError]) -> Result<(), AllocError> {
    begin(out, line, "errors")?;
    put_name(out, "errors")?;
    out.push_str("[")?;
    for error in all {
        put_comma(out)?;
        out.push_str("{")?;
        put_error(out, error)?;
        out.push_str("}")?;
    }
    out.push_str("]")?;
    end(out)
}

// Bytes that were read.
fn write_bytes(out: &mut String, line: u64, bytes: &[u8]) -> Result<(), AllocError> {
    begin(out, line, "bytes")?;
    put_bytes(out, "bytes", bytes)?;
    end(out)
}

// A signal's value.
fn write_value(out: &mut String, line: u64, value: i64) -> Result<(), AllocError> {
    begin(out, line, "value")?;
    put_signed(out, "value", value)?;
    end(out)
}

// Whether a condition held.
fn write_test(out: &mut String, line: u64, held: bool) -> Result<(), AllocError> {
    begin(out, line, "test")?;
    put_bool(out, "held", held)?;
    end(out)
}

// An answer of the core.
fn write_answer(
    out: &mut String,
    policy: &Policy,
    line: u64,
    meaning: NumberMeaning,
    answer: &Answer,
) -> Result<(), AllocError> {
    match answer {
        Answer::Outcome(outcome) => write_outcome(out, line, meaning, outcome),
        Answer::Bytes(bytes) => write_bytes(out, line, bytes.as_slice()),
        Answer::Value(value) => write_value(out, line, *value),
        Answer::Test(held) => write_test(out, line, *held),
        Answer::Listing(all) => write_listing(out, policy, line, all.as_slice()),
        Answer::Errors(all) => write_errors(out, line, all.as_slice()),
        Answer::Audit { before, entries } => {
            write_audit(out, policy, line, *before, entries.as_slice())
        }
    }
}

// An answer of the world.
fn write_made(
    out: &mut String,
    policy: &Policy,
    line: u64,
    meaning: NumberMeaning,
    made: &Made,
) -> Result<(), AllocError> {
    match made {
        Made::Step(seen) => write_seen(out, line, meaning, *seen),
        Made::Header { word, .. } => write_word(out, line, *word),
        Made::Taken { packet, taken } => write_taken(out, line, packet.0, *taken),
        Made::Core(answer) => write_answer(out, policy, line, meaning, answer),
        Made::Rotated(part) => write_rotated(out, policy, line, part),
    }
}

// A packet that was collected.
fn write_shown(out: &mut String, line: u64, shown: &Shown) -> Result<(), AllocError> {
    begin(out, line, "shown")?;
    put_number(out, "packet", shown.packet.0)?;
    put_words(out, "bytes", &shown.words)?;
    end(out)
}

// What became of a packet that was to be published.
fn write_sent(out: &mut String, line: u64, sent: &Sent) -> Result<(), AllocError> {
    match sent {
        Sent::Published(packet) => write_numbered(out, line, "published", "packet", packet.0),
        Sent::NotPublishable(ticket) => {
            write_numbered(out, line, "not publishable", "ticket", ticket.0)
        }
        Sent::Busy { ticket, read } => {
            begin(out, line, "busy")?;
            put_number(out, "ticket", ticket.0)?;
            put_number(out, "index", *read)?;
            end(out)
        }
    }
}

// What a line is answered.
fn write_line_answer(
    out: &mut String,
    policy: &Policy,
    line: u64,
    answer: &LineAnswer,
) -> Result<(), AllocError> {
    match answer {
        LineAnswer::Answered { meaning, answer } => {
            write_made(out, policy, line, *meaning, answer)
        }
        LineAnswer::Sent(sent) => write_sent(out, line, sent),
        LineAnswer::Shown(shown) => write_shown(out, line, shown),
        LineAnswer::Empty => {
            begin(out, line, "empty")?;
            end(out)
        }
    }
}

/// Writes the reply to the line of a number as an object on a line.
pub fn write_reply(
    out: &mut String,
    policy: &Policy,
    line: u64,
    reply: &LineReply,
) -> Result<(), AllocError> {
    match reply {
        Ok(answer) => write_line_answer(out, policy, line, answer),
        Err(why) => {
            begin(out, line, "refused")?;
            put_refusal(out, why)?;
            end(out)
        }
    }
}
