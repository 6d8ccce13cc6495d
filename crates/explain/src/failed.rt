//! A packet that broke a rule, as the audit has it: it has left flight, so the core keeps nothing of it beside its error.
//! The audit is looked at from its end, up to the packet's launch. At most 512 packets are in flight at once, so that each
//! entry is looked at for 512 packets at the most, whatever a script asks.

use crate::scene::Scene;
use aql_packet::{Packet, PacketId, QueueId, decode};
use core_model::{
    Call, Entry, Event, LAUNCH_PROGRESS, Origin, Outcome, PacketOrigin, Polled, Satisfied,
};
use queue_error::QueueError;

/// The 64 bytes of a packet that was handed over, the entries before that, and those since, its own the first.
#[derive(Clone, Copy)]
pub struct HandedOver<'a> {
    pub bytes: [u8; 64],
    pub before: &'a [Entry],
    pub since: &'a [Entry],
}

// The 64 bytes that an entry hands over of a queue and an id, if it does.
fn bytes_by(entry: &Entry, queue: QueueId, packet: PacketId) -> Option<[u8; 64]> {
    match (&entry.event, entry.outcome) {
        (
            Event::Take {
                queue: of,
                packet: id,
                bytes,
            },
            Outcome::Taken(_),
        ) if *of == queue && *id == packet => Some(*bytes),
        _ => None,
    }
}

// The 64 bytes that the first of these entries hands over of a queue and an id, if it does.
fn first_bytes(entries: &[Entry], queue: QueueId, packet: PacketId) -> Option<[u8; 64]> {
    bytes_by(entries.first()?, queue, packet)
}

/// The packet of a queue and an id that these entries hand over, if they do. The last entry is looked at first.
pub fn handed_over(entries: &[Entry], queue: QueueId, packet: PacketId) -> Option<HandedOver<'_>> {
    for place in (0..entries.len()).rev() {
        let (before, since) = entries.split_at(place.min(entries.len()));
        if let Some(bytes) = first_bytes(since, queue, packet) {
            return Some(HandedOver {
                bytes,
                before,
                since,
            });
        }
    }
    None
}

/// Since when a packet that failed was in flight.
#[derive(Clone, Copy)]
pub enum Flown<'a> {
    /// Since it was handed over, which the audit tells.
    Since(HandedOver<'a>),
    /// Since before the history began.
    Before(&'a PacketOrigin),
}

// The packet of a queue and an id with which a history begins, if it is in flight there.
fn first_flying<'a>(
    start: &'a Origin,
    queue: QueueId,
    packet: PacketId,
) -> Option<&'a PacketOrigin> {
    start.packets.as_slice().iter().find(|found| found.flying.queue == queue
        && found.flying.id == packet)
}

/// The packet of an error that was in flight, and since when it was.
pub fn flown_of<'a>(scene: &Scene<'a>, error: &QueueError) -> Option<(Packet, Flown<'a>)> {
    let Some(found) = handed_over(scene.known.entries(), error.queue, error.packet) else {
        let packet = first_flying(scene.core.start(), error.queue, error.packet)?;
        return Some((packet.flying.packet, Flown::Before(packet)));
    };
    let packet = decode(&found.bytes).ok()?;
    Some((packet, Flown::Since(found)))
}

// The dependencies that were seen, with those of a further poll.
fn with_seen(before: Satisfied, further: Satisfied) -> Satisfied {
    let Satisfied(before) = before;
    let Satisfied(seen) = further;
    Satisfied([
        before[0] | seen[0],
        before[1] | seen[1],
        before[2] | seen[2],
        before[3] | seen[3],
        before[4] | seen[4],
    ])
}

// What an entry tells that was seen by a poll of a packet, if it is one.
fn seen_by(entry: &Entry, error: &QueueError) -> Option<Satisfied> {
    match (&entry.event, entry.outcome) {
        (
            Event::Call(Call::Poll { queue, packet }),
            Outcome::Polled(Polled::Pending(seen)) | Outcome::Polled(Polled::Ready(seen)),
        ) if *queue == error.queue && *packet == error.packet => Some(seen),
        _ => None,
    }
}

/// Which dependencies of a packet that failed were seen before.
pub fn seen_before(scene: &Scene<'_>, error: &QueueError, flown: Flown<'_>) -> Satisfied {
    let (mut all, entries) = match flown {
        Flown::Since(found) => (LAUNCH_PROGRESS.satisfied, found.since),
        Flown::Before(packet) => (packet.progress.satisfied, scene.known.entries()),
    };
    for entry in entries {
        if let Some(seen) = seen_by(entry, error) {
            all = with_seen(all, seen);
        }
    }
    all
}
