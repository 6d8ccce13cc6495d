//! What came of packets in a drain, each by the replies to the requests that name it.

ghost use Rattle.std.specs.Prelude.{◌≡◌, ◌+◌, ◌<◌, true, false, drop, get_or, length, MatchOption, OnOk};
ghost use Rattle.std.specs.List.{list_any};
ghost use Rattle.readable.specs.Fates.{begun, is_of, put, put_outcome, put_taken, tells, with_fate, with_outcome, with_polled, with_taken, with_worked};

use crate::moves::{Came, Move};
use crate::tally::one_more;
use aql_packet::{Packet, PacketId, QueueId};
use core_model::{Outcome, Polled, Taken, Worked};
use queue_error::Rule;
use std::alloc::AllocError;

/// How a packet ended.
#[derive(Clone, Copy)]
pub enum Ending {
    /// Not yet: it is in flight.
    Open,
    /// It was denied.
    Denied(Rule),
    /// A group of it faulted.
    Faulted(Rule),
    /// It failed as it was polled.
    Failed(Rule),
    /// It was finished.
    Finished,
}

/// What came of a packet in a drain: whether it was launched, how many of its groups ran, up to 2^64 - 1, whether a barrier
/// packet became ready, and how it ended. What it is stands with it, unless it was denied.
#[derive(Clone, Copy)]
pub struct Fate {
    pub queue: QueueId,
    pub packet: PacketId,
    pub about: Option<Packet>,
    pub launched: bool,
    pub ran: u64,
    pub ready: bool,
    pub ending: Ending,
}

// Of a packet of which nothing came yet.
fn begun(queue: QueueId, packet: PacketId, about: Option<Packet>) -> Fate
    ensures { result ≡ begun queue packet about }
{
    Fate {
        queue,
        packet,
        about,
        launched: false,
        ran: 0,
        ready: false,
        ending: Ending::Open,
    }
}

// With what became of it as it was handed over.
fn with_taken(fate: Fate, taken: Taken) -> Fate
    ensures { result ≡ with_taken fate taken }
{
    match taken {
        Taken::Launched => Fate {
            launched: true,
            ..fate
        },
        Taken::Denied(error) => Fate {
            ending: Ending::Denied(error.rule),
            ..fate
        },
        Taken::Waiting(_) => fate,
    }
}

// With what became of a group.
fn with_worked(fate: Fate, worked: Worked) -> Fate
    ensures { result ≡ with_worked fate worked }
{
    match worked {
        Worked::Ran { .. } => Fate {
            ran: one_more(fate.ran),
            ..fate
        },
        Worked::Faulted(error) => Fate {
            ending: Ending::Faulted(error.rule),
            ..fate
        },
        Worked::Done => fate,
    }
}

// With what a poll found.
fn with_polled(fate: Fate, polled: Polled) -> Fate
    ensures { result ≡ with_polled fate polled }
{
    match polled {
        Polled::Pending(_) => fate,
        Polled::Ready(_) => Fate {
            ready: true,
            ..fate
        },
        Polled::Failed(error) => Fate {
            ending: Ending::Failed(error.rule),
            ..fate
        },
    }
}

// With what an event came to.
fn with_outcome(fate: Fate, outcome: Outcome) -> Fate
    ensures { result ≡ with_outcome fate outcome }
{
    match outcome {
        Outcome::Accepted => Fate {
            ending: Ending::Finished,
            ..fate
        },
        Outcome::Worked(worked) => with_worked(fate, worked),
        Outcome::Polled(polled) => with_polled(fate, polled),
        _ => fate,
    }
}

// Whether something came of a packet by an event.
fn tells(outcome: Outcome) -> bool
    ensures { result ≡ tells outcome }
{
    match outcome {
        Outcome::Accepted => true,
        Outcome::Worked(Worked::Done) => false,
        Outcome::Worked(_) => true,
        Outcome::Polled(Polled::Pending(_)) => false,
        Outcome::Polled(_) => true,
        _ => false,
    }
}

// Whether it is that of a packet.
fn is_of(fate: &Fate, queue: QueueId, packet: PacketId) -> bool
    ensures { result ≡ is_of queue packet fate.now }
{
    fate.queue.0 == queue.0 && fate.packet.0 == packet.0
}

// The last place of a packet among some, if it has one.
fn place_of(fates: &[Fate], queue: QueueId, packet: PacketId) -> Option<usize>
    ensures { MatchOption result (list_any (is_of queue packet) fates.now ≡ false)
        (λ place. (place < length fates.now) × ((fate : Fate) → is_of queue packet (get_or fates.now place fate) ≡ true) × (list_any (is_of queue packet) (drop (place + 1) fates.now) ≡ false)) }
{
    for place in (0..fates.len()).rev() {
        if is_of(&fates[place], queue, packet) {
            return Some(place);
        }
    }
    None
}

// Puts what an event came to that is about a packet.
fn put(
    fates: &mut Vec<Fate>,
    queue: QueueId,
    packet: PacketId,
    about: Option<Packet>,
    outcome: Outcome,
) -> Result<(), AllocError>
    ensures { OnOk result (fates.new.items ≡ put queue packet about outcome fates.old.items) }
{
    match place_of(fates.as_slice(), queue, packet) {
        Some(place) => {
            let fate = fates[place];
            fates[place] = with_outcome(fate, outcome);
            Ok(())
        }
        None => Ok(fates.push(with_outcome(begun(queue, packet, about), outcome))?),
    }
}

// Puts what became of a packet that was handed over.
fn put_taken(
    fates: &mut Vec<Fate>,
    queue: QueueId,
    packet: PacketId,
    about: Option<Packet>,
    taken: Taken,
) -> Result<(), AllocError>
    ensures { OnOk result (fates.new.items ≡ put_taken queue packet about taken fates.old.items) }
{
    match taken {
        Taken::Waiting(_) => Ok(()),
        _ => Ok(fates.push(with_taken(begun(queue, packet, about), taken))?),
    }
}

// Puts what an event came to, if something came of the packet that it is about.
fn put_outcome(
    fates: &mut Vec<Fate>,
    queue: QueueId,
    packet: Option<PacketId>,
    about: Option<Packet>,
    outcome: Outcome,
) -> Result<(), AllocError>
    ensures { OnOk result (fates.new.items ≡ put_outcome queue packet about outcome fates.old.items) }
{
    match packet {
        Some(packet) => {
            if tells(outcome) {
                return put(fates, queue, packet, about, outcome);
            }
            Ok(())
        }
        None => Ok(()),
    }
}

/// Puts what a request came to, which is about this packet.
pub(crate) fn note(
    fates: &mut Vec<Fate>,
    asked: Move,
    about: Option<Packet>,
    came: Came,
) -> Result<(), AllocError>
    ensures { OnOk result (fates.new.items ≡ with_fate fates.old.items asked about came) }
{
    let queue = asked.queue();
    match came {
        Came::Taken { packet, taken } => put_taken(fates, queue, packet, about, taken),
        Came::Outcome(outcome) => put_outcome(fates, queue, asked.packet(), about, outcome),
        Came::Nothing | Came::Refused(_) => Ok(()),
    }
}
