//! Why a journal isn't let pass, and how that is told.

use commands::{Failure, Status, name_failure};
use core_model::Entry;
use journal::{HeadFault, LineFault, write_outcome, write_result};
use replay::{Due, Replay};
use script::Noted;
use std::alloc::{AllocError, Global};
use std::io;

/// Why a journal isn't let pass.
#[derive(Drop)]
pub enum Fault {
    /// Memory is wanted, or reading or writing failed.
    Failure(Failure),
    /// The journal is refused: this line tells why.
    Refused(String),
}

impl From<AllocError> for Fault {
    fn from(_want: AllocError) -> Fault {
        Fault::Failure(Failure::OutOfMemory)
    }
}

impl From<io::Error> for Fault {
    fn from(error: io::Error) -> Fault {
        match error.kind() {
            io::ErrorKind::OutOfMemory => Fault::Failure(Failure::OutOfMemory),
            _ => Fault::Failure(Failure::Read),
        }
    }
}

// A fault with its text, if there was memory for it.
fn refused(text: Result<String, AllocError>) -> Fault {
    match text {
        Ok(text) => Fault::Refused(text),
        Err(_) => Fault::Failure(Failure::OutOfMemory),
    }
}

impl Fault {
    /// The first line isn't the head of a journal over the policies.
    pub fn of_head(alloc: Global, fault: HeadFault) -> Fault {
        refused(format!(in alloc; "line 1 column 1: {fault}\n"))
    }

    /// The journal begins after other entries, so that it can't be replayed alone.
    pub fn of_part(alloc: Global, before: u64) -> Fault {
        refused(format!(in alloc; "line 1 column 1: {before} entries came before the journal\n"))
    }

    /// A line isn't that of the next entry.
    pub fn of_line(alloc: Global, number: u64, fault: LineFault) -> Fault {
        let LineFault { cause, column } = fault;
        refused(format!(in alloc; "line {number} column {column}: {cause}\n"))
    }

    /// The journal ends before its last line, or goes on after it.
    pub fn of_end(alloc: Global, number: u64, what: &str) -> Fault {
        refused(format!(in alloc; "line {number} column 1: {what}\n"))
    }

    /// No further policy has the rows of a reload.
    pub fn of_rows(alloc: Global, number: u64) -> Fault {
        refused(format!(in alloc; "entry {number}: of another policy\n"))
    }

    /// An entry isn't what it was owed.
    pub fn of_entry(alloc: Global, number: u64, due: Due, replay: &Replay, told: &Entry) -> Fault {
        refused(unowed(alloc, number, due, replay, told))
    }
}

// Writes what was owed.
fn write_due(out: &mut String, due: Due, replay: &Replay) -> Result<(), AllocError> {
    match due {
        Due::Refused(why) => {
            let number = why.number();
            write!(out, " refusal {number}, {why}")
        }
        Due::Answered(outcome) => {
            write_outcome(out, &outcome)?;
            out.push_str(" without an entry")
        }
        Due::Entered => match replay.core().audit().last() {
            Some(entry) => write_result(out, entry),
            None => Ok(()),
        },
    }
}

// What is told of an entry that isn't what it was owed.
fn unowed(
    alloc: Global,
    number: u64,
    due: Due,
    replay: &Replay,
    told: &Entry,
) -> Result<String, AllocError> {
    let mut text = format!(in alloc; "entry {number}: owed")?;
    write_due(&mut text, due, replay)?;
    text.push_str("; told")?;
    write_result(&mut text, told)?;
    text.push_str("\n")?;
    Ok(text)
}

/// Tells a fault on `err`, and how the command ends.
pub fn tell_fault<E: io::Write>(alloc: Global, fault: Fault, err: &mut E) -> Status {
    match fault {
        Fault::Failure(failure) => name_failure(alloc, failure, &mut Noted::new(&mut *err)),
        Fault::Refused(text) => {
            if err.write_all(text.as_bytes()).is_err() || err.flush().is_err() {
                Status::Failed
            } else {
                Status::Refused
            }
        }
    }
}
