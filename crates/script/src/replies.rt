//! Replies as text.

ghost use Rattle.std.specs.Prelude.{◌≡◌, ◌++◌, OnOk, codes, decimal, string_bytes};
ghost use Rattle.script.specs.Replies.{details_of_refusal, details_of_why, text_of_cause, text_of_taken, text_of_worked, text_of_polled, text_of_outcome, text_of_listed, text_of_listing, text_of_errors, text_of_answer, tells_old, text_of_number, text_of_seen, text_of_made, text_of_words, text_of_why, text_of_sent, text_of_line_answer, text_of_line};
ghost use Rattle.words.specs.Names.{name_of_object};
ghost use Rattle.words.specs.Bytes.{text_of_bytes};
ghost use Rattle.words.specs.Packets.{text_of_word};

use crate::command::{LineAnswer, LineReply, NumberMeaning};
use crate::entries::{write_audit, write_rotated};
use crate::refusals::{refusal_name, refusal_number};
use crate::rights::write_rights;
use aql_packet::PacketId;
use core_model::{Answer, Outcome, Polled, Refusal, Taken, WaitCause, Worked};
use itoa::Buffer;
use policy::{Object, Policy, Rights};
use queue_error::QueueError;
use ring_core::Seen;
use std::alloc::AllocError;
use words::{write_bytes, write_object, write_word};
use world::{Answer as Made, Refusal as Why, Sent, Shown};

// Writes what a refusal names.
fn write_details(out: &mut String, refusal: &Refusal) -> Result<(), AllocError>
    ensures { OnOk result (string_bytes out.new ≡ string_bytes out.old ++ details_of_refusal refusal.now) }
{
    match refusal {
        Refusal::Denied(right) => write!(out, " {right}"),
        Refusal::Busy { queue, packet } => write!(out, " queue {} packet {}", queue.0, packet.0),
        Refusal::OutOfStep(next) => write!(out, " {next}"),
        _ => Ok(()),
    }
}

/// Why a packet waits, as a word.
pub fn cause_name(cause: &WaitCause) -> &'static str
    ensures { result.now ≡ text_of_cause cause.now }
{
    match cause {
        WaitCause::Barrier => "Barrier",
        WaitCause::Active => "Active",
        WaitCause::Slots => "Slots",
    }
}

// Writes a text, and a number behind it. Most numbers of replies are small.
#[tactic(auto, using(std::proofs::lemmas::Fmt::decimal_digit))]
fn write_numbered(out: &mut String, text: &str, number: u64) -> Result<(), AllocError>
    ensures { OnOk result (string_bytes out.new ≡ string_bytes out.old ++ text.now ++ decimal number) }
{
    out.push_str(text)?;
    if number < 10 {
        return out.push(char::from(b'0' + number as u8));
    }
    let mut buffer = Buffer::new();
    out.push_str(buffer.format(number))
}

// Writes what became of a packet that was handed over.
fn write_taken(out: &mut String, packet: PacketId, taken: &Taken) -> Result<(), AllocError>
    ensures { OnOk result (string_bytes out.new ≡ string_bytes out.old ++ text_of_taken packet taken.now) }
{
    match taken {
        Taken::Launched => write_numbered(out, "launched ", packet.0),
        Taken::Denied(error) => write!(out, "denied {error}"),
        Taken::Waiting(cause) => write!(out, "waiting {} {}", packet.0, cause_name(cause)),
    }
}

// Writes what became of a group.
fn write_worked(out: &mut String, worked: &Worked) -> Result<(), AllocError>
    ensures { OnOk result (string_bytes out.new ≡ string_bytes out.old ++ text_of_worked worked.now) }
{
    match worked {
        Worked::Ran { group, left } => {
            write_numbered(out, "ran ", u64::from(*group))?;
            write_numbered(out, " left ", u64::from(*left))
        }
        Worked::Faulted(error) => write!(out, "faulted {error}"),
        Worked::Done => out.push_str("done"),
    }
}

// Writes what a poll found.
fn write_polled(out: &mut String, polled: &Polled) -> Result<(), AllocError>
    ensures { OnOk result (string_bytes out.new ≡ string_bytes out.old ++ text_of_polled polled.now) }
{
    match polled {
        Polled::Pending(_) => out.push_str("pending"),
        Polled::Ready(_) => out.push_str("ready"),
        Polled::Failed(error) => write!(out, "failed {error}"),
    }
}

// Writes what an event came to; `old` says whether the old value of a signal is told.
fn write_outcome(out: &mut String, old: bool, outcome: &Outcome) -> Result<(), AllocError>
    ensures { OnOk result (string_bytes out.new ≡ string_bytes out.old ++ text_of_outcome old outcome.now) }
{
    match outcome {
        Outcome::Accepted => out.push_str("ok"),
        Outcome::Opened(queue) => write!(out, "queue {}", queue.0),
        Outcome::Taken(_) => out.push_str("ok"),
        Outcome::Worked(worked) => write_worked(out, worked),
        Outcome::Polled(polled) => write_polled(out, polled),
        Outcome::Changed(value) if old => write!(out, "old {value}"),
        Outcome::Changed(_) => out.push_str("ok"),
    }
}

// Writes an object with a client's rights on it.
fn write_listed(
    out: &mut String,
    policy: &Policy,
    object: Object,
    rights: Rights,
) -> Result<(), AllocError>
    ensures { OnOk result (string_bytes out.new ≡ string_bytes out.old ++ text_of_listed policy.now object rights) }
{
    write!(out, "{} {} ", object.kind(), object.number())?;
    write_object(out, policy, object)?;
    out.push_str(" ")?;
    write_rights(out, rights)?;
    out.push_str("\n")
}

// Writes a listing.
fn write_listing(
    out: &mut String,
    policy: &Policy,
    all: &[(Object, Rights)],
) -> Result<(), AllocError>
    ensures { OnOk result (string_bytes out.new ≡ string_bytes out.old ++ text_of_listing policy.now all.now) }
{
    writeln!(out, "list {}", all.len())?;
    for (object, rights) in all {
        write_listed(out, policy, *object, *rights)?;
    }
    Ok(())
}

// Writes a queue's errors.
fn write_errors(out: &mut String, all: &[QueueError]) -> Result<(), AllocError>
    ensures { OnOk result (string_bytes out.new ≡ string_bytes out.old ++ text_of_errors all.now) }
{
    writeln!(out, "errors {}", all.len())?;
    for error in all {
        writeln!(out, "{error}")?;
    }
    Ok(())
}

// Writes a line of bytes.
fn write_bytes_line(out: &mut String, bytes: &[u8]) -> Result<(), AllocError>
    ensures { OnOk result (string_bytes out.new ≡ string_bytes out.old ++ (codes "bytes " ++ text_of_bytes bytes.now ++ codes "\n")) }
{
    out.push_str("bytes ")?;
    write_bytes(out, bytes)?;
    out.push_str("\n")
}

// Writes an answer of the core.
fn write_answer(
    out: &mut String,
    policy: &Policy,
    old: bool,
    answer: &Answer,
) -> Result<(), AllocError>
    ensures { OnOk result (string_bytes out.new ≡ string_bytes out.old ++ text_of_answer policy.now old answer.now) }
{
    match answer {
        Answer::Outcome(outcome) => {
            write_outcome(out, old, outcome)?;
            out.push_str("\n")
        }
        Answer::Bytes(bytes) => write_bytes_line(out, bytes.as_slice()),
        Answer::Value(value) => writeln!(out, "value {value}"),
        Answer::Test(held) => out.push_str(if *held { "true\n" } else { "false\n" }),
        Answer::Listing(all) => write_listing(out, policy, all.as_slice()),
        Answer::Errors(all) => write_errors(out, all.as_slice()),
        Answer::Audit { before, entries } => {
            write_audit(out, policy, *before, entries.as_slice())
        }
    }
}

// Whether the old value of a signal is told.
fn tells_old(meaning: NumberMeaning) -> bool
    ensures { result ≡ tells_old meaning }
{
    match meaning {
        NumberMeaning::Old => true,
        _ => false,
    }
}

// Writes a number that a step read.
fn write_number(out: &mut String, meaning: NumberMeaning, number: u64) -> Result<(), AllocError>
    ensures { OnOk result (string_bytes out.new ≡ string_bytes out.old ++ text_of_number meaning number) }
{
    match meaning {
        NumberMeaning::Ticket => write!(out, "ticket {number}"),
        NumberMeaning::Word => {
            out.push_str("word ")?;
            write_word(out, number)
        }
        NumberMeaning::Raised => {
            let raised = u128::from(number) + 1;
            write!(out, "read {raised}")
        }
        _ => write!(out, "read {number}"),
    }
}

// Writes what a step read.
fn write_seen(out: &mut String, meaning: NumberMeaning, seen: Seen) -> Result<(), AllocError>
    ensures { OnOk result (string_bytes out.new ≡ string_bytes out.old ++ text_of_seen meaning seen) }
{
    match seen {
        Seen::Read(number) => write_number(out, meaning, number),
        Seen::Stored => out.push_str("ok"),
    }
}

// Writes a line with a packet's word.
fn write_word_line(out: &mut String, word: u64) -> Result<(), AllocError>
    ensures { OnOk result (string_bytes out.new ≡ string_bytes out.old ++ (codes "word " ++ text_of_word word ++ codes "\n")) }
{
    out.push_str("word ")?;
    write_word(out, word)?;
    out.push_str("\n")
}

// Writes an answer of the world.
fn write_made(
    out: &mut String,
    policy: &Policy,
    meaning: NumberMeaning,
    made: &Made,
) -> Result<(), AllocError>
    ensures { OnOk result (string_bytes out.new ≡ string_bytes out.old ++ text_of_made policy.now meaning made.now) }
{
    match made {
        Made::Step(seen) => {
            write_seen(out, meaning, *seen)?;
            out.push_str("\n")
        }
        Made::Header { word, .. } => write_word_line(out, *word),
        Made::Taken { packet, taken } => {
            write_taken(out, *packet, taken)?;
            out.push_str("\n")
        }
        Made::Core(answer) => write_answer(out, policy, tells_old(meaning), answer),
        Made::Rotated(part) => write_rotated(out, policy, part),
    }
}

// Writes a packet's words, as its bytes.
fn write_words(out: &mut String, words: &[u64]) -> Result<(), AllocError>
    ensures { OnOk result (string_bytes out.new ≡ string_bytes out.old ++ text_of_words words.now) }
{
    for word in words {
        write_word(out, *word)?;
    }
    Ok(())
}

// Writes a packet that was collected.
fn write_shown(out: &mut String, shown: &Shown) -> Result<(), AllocError>
    ensures { OnOk result (string_bytes out.new ≡ string_bytes out.old ++ (codes "shown " ++ decimal shown.now.packet.0 ++ codes " " ++ text_of_words shown.now.words ++ codes "\n")) }
{
    write!(out, "shown {} ", shown.packet.0)?;
    write_words(out, &shown.words)?;
    out.push_str("\n")
}

// Writes why a request was refused.
fn write_why(out: &mut String, why: &Why) -> Result<(), AllocError>
    ensures { OnOk result (string_bytes out.new ≡ string_bytes out.old ++ text_of_why why.now) }
{
    write!(out, "refused {} {}", refusal_number(why), refusal_name(why))?;
    match why {
        Why::Core(refusal) => write_details(out, refusal),
        Why::NotAStep | Why::Spent => Ok(()),
    }
}

// Writes what became of a packet that was to be published.
fn write_sent(out: &mut String, sent: &Sent) -> Result<(), AllocError>
    ensures { OnOk result (string_bytes out.new ≡ string_bytes out.old ++ text_of_sent sent.now) }
{
    match sent {
        Sent::Published(packet) => {
            write_numbered(out, "published ", packet.0)?;
            out.push_str("\n")
        }
        Sent::Busy { ticket, read } => writeln!(out, "busy ticket {} read {read}", ticket.0),
        Sent::NotPublishable(ticket) => writeln!(out, "not publishable {}", ticket.0),
    }
}

// Writes what a line is answered.
fn write_line_answer(
    out: &mut String,
    policy: &Policy,
    answer: &LineAnswer,
) -> Result<(), AllocError>
    ensures { OnOk result (string_bytes out.new ≡ string_bytes out.old ++ text_of_line_answer policy.now answer.now) }
{
    match answer {
        LineAnswer::Answered { meaning, answer } => write_made(out, policy, *meaning, answer),
        LineAnswer::Sent(sent) => write_sent(out, sent),
        LineAnswer::Shown(shown) => write_shown(out, shown),
        LineAnswer::Empty => out.push_str("empty\n"),
    }
}

/// Writes the reply to a line: each line of it with its line feed.
pub fn write_line(out: &mut String, policy: &Policy, reply: &LineReply) -> Result<(), AllocError>
    ensures { OnOk result (string_bytes out.new ≡ string_bytes out.old ++ text_of_line policy.now reply.now) }
{
    match reply {
        Ok(answer) => write_line_answer(out, policy, answer),
        Err(why) => {
            write_why(out, why)?;
            out.push_str("\n")
        }
    }
}
