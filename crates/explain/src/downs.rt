//! Why a queue launches nothing more, and why a packet of a ring isn't handed over yet.

use crate::rings::standing_of;
use crate::scene::{Scene, begin};
use aql_packet::{PacketId, QueueId};
use core_model::{Call, Entry, Event, Origin};
use queue_error::QueueError;
use ring_core::{RingState, SeatPart};
use std::alloc::AllocError;

/// How many of the last entries are looked through for a stop, so that an explanation takes no longer after a long history.
const LOOKED: usize = 4096;

/// Why a queue launches nothing more.
#[derive(Clone, Copy)]
pub enum Down {
    /// It has an error, of which this is the last.
    Failed(QueueError),
    /// It was stopped.
    Stopped,
}

// Whether an entry stopped a queue.
fn stops(entry: &Entry, queue: QueueId) -> bool {
    match &entry.event {
        Event::Call(Call::Stop { queue: stopped }) => *stopped == queue,
        _ => false,
    }
}

// Whether a queue was stopped as a history begins.
fn began_stopped(start: &Origin, queue: QueueId) -> bool {
    for origin in start.queues.as_slice() {
        if origin.queue == queue {
            return origin.stopped;
        }
    }
    false
}

// Whether a queue was stopped, by so many last entries and by what the history begins with.
fn was_stopped(scene: &Scene<'_>, queue: QueueId, looked: usize) -> bool {
    let entries = scene.known.entries();
    let before = entries.len().saturating_sub(looked);
    for entry in entries.split_at(before.min(entries.len())).1 {
        if stops(entry, queue) {
            return true;
        }
    }
    began_stopped(scene.core.start(), queue)
}

/// Why a queue launches nothing more, if that is so and is known by so many last entries.
pub fn down_among(scene: &Scene<'_>, queue: QueueId, looked: usize) -> Option<Down> {
    match scene.core.errors_of(queue).last() {
        Some(error) => Some(Down::Failed(*error)),
        None if was_stopped(scene, queue, looked) => Some(Down::Stopped),
        None => None,
    }
}

/// Why a queue launches nothing more, if that is so and is known.
pub fn down_of(scene: &Scene<'_>, queue: QueueId) -> Option<Down> {
    down_among(scene, queue, LOOKED)
}

/// Puts that a queue launches nothing more behind a text, to the end of the line.
pub fn put_down(out: &mut String, down: Down) -> Result<(), AllocError> {
    match down {
        Down::Failed(error) => write!(out, "the queue has the error `{error}`")?,
        Down::Stopped => out.push_str("the queue was stopped")?,
    }
    out.push_str(", and launches nothing more: open another with `queue`\n")
}

/// The producer that holds an id's open ticket, if one does.
pub fn producer_of(ring: &RingState, packet: PacketId) -> Option<u64> {
    for (seat, part) in ring.parts().iter().enumerate() {
        if let SeatPart::Producer(part) = part {
            if part.tickets.get_open(packet).is_some() {
                return Some(seat as u64);
            }
        }
    }
    None
}

// What hands a published packet over, which another may keep from it that isn't published.
fn put_serving(
    out: &mut String,
    queue: QueueId,
    ring: &RingState,
    packet: PacketId,
) -> Result<(), AllocError> {
    let id = packet.0;
    let number = queue.0;
    let standing = standing_of(ring);
    let head = standing.head;
    match standing.holder {
        Some(producer) => writeln!(
            out,
            "packet {id} of queue {number} was not handed over yet: ticket {head} stands before it, and isn't published: `publish {number} {producer} {head} PACKET`, and then `serve {number}`"
        ),
        None => writeln!(
            out,
            "packet {id} of queue {number} was not handed over yet: `serve {number}`"
        ),
    }
}

/// Why a packet wasn't handed over yet, and what hands it over, to the end of a line that is begun.
pub fn put_unserved(
    out: &mut String,
    scene: &Scene<'_>,
    queue: QueueId,
    ring: &RingState,
    packet: PacketId,
) -> Result<(), AllocError> {
    let id = packet.0;
    let number = queue.0;
    let is_reserved = id < ring.write_index();
    if let Some(down) = down_of(scene, queue) {
        let had = if is_reserved {
            "was not handed over"
        } else {
            "was never reserved"
        };
        write!(out, "packet {id} of queue {number} {had}, and ")?;
        return put_down(out, down);
    }
    if !is_reserved {
        let next = ring.write_index();
        return writeln!(
            out,
            "nobody has reserved id {id} of queue {number}: the next is {next}, and `submit {number} PRODUCER PACKET` reserves and publishes it"
        );
    }
    match producer_of(ring, packet) {
        Some(producer) => writeln!(
            out,
            "id {id} of queue {number} is reserved, and not published: `publish {number} {producer} {id} PACKET`, and then `serve {number}`"
        ),
        None => put_serving(out, queue, ring, packet),
    }
}

/// That a queue launches nothing more, where that keeps its ring from going on; tells whether it does.
pub fn tell_down_ring(
    out: &mut String,
    scene: &Scene<'_>,
    queue: QueueId,
    before: &str,
) -> Result<bool, AllocError> {
    let Some(down) = down_of(scene, queue) else {
        return Ok(false);
    };
    begin(out, scene)?;
    out.push_str(before)?;
    put_down(out, down)?;
    Ok(true)
}
