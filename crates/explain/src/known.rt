//! By what an explanation knows what is in force, whose a queue is, and what a signal's value is.

use crate::lacks::{Lack, lack_of, lacked, was_in_force};
use crate::owners::owner;
use access_core::AccessCore;
use aql_packet::{ClientId, QueueId, SignalHandle};
use core_model::{Call, Effect, Entry, Event, Opening, Origin, Outcome};
use policy::{Object, PolicyRows, Right};

/// What is explained: a core as it is, which is asked, or entries behind what a core began from, as a journal has them, which
/// are looked through.
#[derive(Clone, Copy)]
pub enum Known<'a> {
    Now(&'a AccessCore),
    Told {
        core: &'a AccessCore,
        entries: &'a [Entry],
    },
}

// The rows on rights that are in force behind entries: those of the last reload, or those from which the core began.
fn rows_behind<'a>(start: &'a Origin, entries: &'a [Entry]) -> &'a PolicyRows {
    for entry in entries.iter().rev() {
        if let Event::Reload { rows } = &entry.event {
            return rows;
        }
    }
    start.grants.rows()
}

// Whether an entry closed a queue.
fn closed(entry: &Entry, queue: QueueId) -> bool {
    match &entry.event {
        Event::Call(Call::Close { queue: closed }) => *closed == queue,
        _ => false,
    }
}

// The opening of a queue, if it is the one that an entry opened.
fn opened_by(entry: &Entry, queue: QueueId) -> Option<Opening> {
    match (&entry.event, &entry.outcome) {
        (Event::Open { client, agent, .. }, Outcome::Opened(opened)) if *opened == queue => {
            Some(Opening {
                client: *client,
                agent: *agent,
            })
        }
        _ => None,
    }
}

// Who opened a queue, by what a history begins from and its entries; none where it isn't open behind them.
fn opening_told(start: &Origin, entries: &[Entry], queue: QueueId) -> Option<Opening> {
    for entry in entries.iter().rev() {
        if closed(entry, queue) {
            return None;
        }
        if let Some(opening) = opened_by(entry, queue) {
            return Some(opening);
        }
    }
    for origin in start.queues.as_slice() {
        if origin.queue == queue {
            return Some(origin.opening);
        }
    }
    None
}

// The number of the entry that closed a queue, if it is one of these behind so many.
fn close_told(before: u64, entries: &[Entry], queue: QueueId) -> Option<u64> {
    let mut number = before.saturating_add(entries.len() as u64);
    for entry in entries.iter().rev() {
        if closed(entry, queue) {
            return Some(number);
        }
        number = number.saturating_sub(1);
    }
    None
}

// How many queues were ever opened, by what a history begins from and its entries: the last has this number.
fn opened_told(start: &Origin, entries: &[Entry]) -> u64 {
    for entry in entries.iter().rev() {
        if let Outcome::Opened(queue) = &entry.outcome {
            return queue.0;
        }
    }
    start.opened
}

// The value that an entry gives a signal, if it does.
fn value_by(entry: &Entry, signal: SignalHandle) -> Option<i64> {
    let mut value = None;
    for effect in entry.effects.as_slice() {
        if let Effect::Signal {
            signal: of,
            new,
            ..
        } = effect
        {
            if *of == signal {
                value = Some(*new);
            }
        }
    }
    value
}

// The value of a signal: what the last entry gave it that did, or what the history began with.
fn value_told(start: &Origin, entries: &[Entry], signal: SignalHandle) -> Option<i64> {
    for entry in entries.iter().rev() {
        if let Some(value) = value_by(entry, signal) {
            return Some(value);
        }
    }
    start.signals.value(signal)
}

impl<'a> Known<'a> {
    /// The core, of which what never changes is asked: policy, kernels, and what its history began from.
    pub fn core(&self) -> &'a AccessCore {
        match *self {
            Known::Now(core) | Known::Told { core, .. } => core,
        }
    }

    /// The entries so far.
    pub fn entries(&self) -> &'a [Entry] {
        match *self {
            Known::Now(core) => core.audit(),
            Known::Told { entries, .. } => entries,
        }
    }

    /// The rows on rights that are in force.
    pub fn rows(&self) -> &'a PolicyRows {
        match *self {
            Known::Now(core) => core.rows(),
            Known::Told { core, entries } => rows_behind(core.start(), entries),
        }
    }

    /// The right on an object that a client lacks, if it isn't in force.
    pub fn lack_of(&self, client: ClientId, object: Object, right: Right) -> Option<Lack> {
        match *self {
            Known::Now(core) => lack_of(core, client, object, right),
            Known::Told { core, entries } => {
                if was_in_force(core.start(), entries, client, object, right) {
                    None
                } else {
                    Some(lacked(self.rows(), client, object, right))
                }
            }
        }
    }

    /// Who opened a queue, and on which agent.
    pub fn opening(&self, queue: QueueId) -> Option<Opening> {
        match *self {
            Known::Now(core) => owner(core, queue),
            Known::Told { core, entries } => opening_told(core.start(), entries, queue),
        }
    }

    /// How many queues were ever opened, those that were closed too.
    pub fn opened(&self) -> u64 {
        opened_told(self.core().start(), self.entries())
    }

    /// The number of the entry that closed a queue, if it is one of the entries so far; it is looked for among them.
    pub fn close_of(&self, queue: QueueId) -> Option<u64> {
        close_told(self.core().start().before, self.entries(), queue)
    }

    /// The value of a signal, if the policy declares it.
    pub fn value_of(&self, signal: SignalHandle) -> Option<i64> {
        match *self {
            Known::Now(core) => core.value_of(signal),
            Known::Told { core, entries } => value_told(core.start(), entries, signal),
        }
    }
}
