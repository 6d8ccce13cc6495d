//! What stands in a queue's ring.

use crate::downs::tell_down_ring;
use crate::scene::{Scene, begin, say};
use crate::texts::put_object;
use aql_packet::{KernelDispatch, Packet, PacketId, QueueId, SignalHandle};
use core_model::{Satisfied, WaitCause};
use packet_processor::{Place, is_barrier, is_ready};
use policy::{Object, Right, Rights};
use ring_core::{RingState, SeatPart};
use std::alloc::AllocError;

/// How a ring's ids stand that aren't retired.
#[derive(Clone, Copy)]
pub struct Standing {
    /// The id at the head.
    pub head: u64,
    /// How many ids are reserved and not retired.
    pub waiting: u64,
    /// How many of them aren't published.
    pub unpublished: u64,
    /// The producer whose ticket stands at the head, where it isn't published.
    pub holder: Option<u64>,
}

/// How the ids of a ring stand.
pub fn standing_of(ring: &RingState) -> Standing {
    let head = ring.read_index();
    let mut unpublished = 0u64;
    let mut holder = None;
    for (seat, part) in ring.parts().iter().enumerate() {
        if let SeatPart::Producer(part) = part {
            for reserved in part.tickets.open_tickets() {
                unpublished = unpublished.saturating_add(1);
                if reserved.id.0 == head {
                    holder = Some(seat as u64);
                }
            }
        }
    }
    Standing {
        head,
        waiting: ring.write_index().saturating_sub(head),
        unpublished,
        holder,
    }
}

/// Why no packet is seen at the head of a ring.
pub fn tell_empty(
    out: &mut String,
    scene: &Scene<'_>,
    queue: QueueId,
    ring: &RingState,
) -> Result<(), AllocError> {
    let standing = standing_of(ring);
    let number = queue.0;
    let head = standing.head;
    let before = "no packet is published at the head of its ring, and none would be served: ";
    if tell_down_ring(out, scene, queue, before)? {
        return Ok(());
    }
    begin(out, scene)?;
    let Some(producer) = standing.holder else {
        return writeln!(
            out,
            "the ring of queue {number} is empty: nobody has reserved id {head}; `submit {number} PRODUCER PACKET` does, and publishes"
        );
    };
    let behind = standing.waiting.saturating_sub(standing.unpublished);
    writeln!(
        out,
        "ticket {head} stands at the head of queue {number}, reserved by producer {producer} and not published; published packets behind it: {behind}"
    )?;
    begin(out, scene)?;
    writeln!(
        out,
        "`publish {number} {producer} {head} PACKET` publishes it"
    )
}

/// Why there is no room for a ticket.
pub fn tell_busy(
    out: &mut String,
    scene: &Scene<'_>,
    queue: QueueId,
    ticket: PacketId,
    ring: &RingState,
) -> Result<(), AllocError> {
    let number = queue.0;
    let size = ring.size();
    let head = ring.read_index();
    let id = ticket.0;
    let room = id.saturating_sub(size.saturating_sub(1));
    begin(out, scene)?;
    writeln!(
        out,
        "the ring of queue {number} has {size} slots, and its head is at id {head}: there is room for ticket {id} once the head is at {room}"
    )?;
    if tell_down_ring(out, scene, queue, "the head stays there: ")? {
        return Ok(());
    }
    if let Some(producer) = standing_of(ring).holder {
        begin(out, scene)?;
        return writeln!(
            out,
            "ticket {head} stands at the head, and isn't published: `publish {number} {producer} {head} PACKET`, `serve {number}`, and then `publish` under ticket {id}"
        );
    }
    say(
        out,
        scene,
        "`serve` the queue, and then `publish` under the same ticket",
    )
}

/// The signals that a packet depends on.
pub fn dependencies(packet: &Packet) -> [SignalHandle; 5] {
    match packet {
        Packet::BarrierAnd(barrier) | Packet::BarrierOr(barrier) => barrier.dependencies,
        _ => [SignalHandle(0); 5],
    }
}

// A signal that a barrier packet still waits for, and its value; one that has come to 0 wants a poll alone.
fn tell_dependency(
    out: &mut String,
    scene: &Scene<'_>,
    signal: SignalHandle,
) -> Result<(), AllocError> {
    begin(out, scene)?;
    out.push_str("it waits for ")?;
    put_object(out, scene.policy, Object::Signal(signal))?;
    match scene.core.value_of(signal) {
        Some(0) => out.push_str(", whose value is 0: the next `poll` sees that\n"),
        Some(value) => writeln!(out, ", whose value is {value}"),
        None => out.push_str("\n"),
    }
}

// The signals of these that were not seen yet.
fn tell_unseen(
    out: &mut String,
    scene: &Scene<'_>,
    signals: [SignalHandle; 5],
    seen: [bool; 5],
) -> Result<(), AllocError> {
    for (signal, seen) in signals.iter().zip(seen.iter()) {
        if signal.0 != 0 && !*seen {
            tell_dependency(out, scene, *signal)?;
        }
    }
    Ok(())
}

/// What a barrier packet still waits for.
pub fn tell_dependencies(
    out: &mut String,
    scene: &Scene<'_>,
    place: &Place,
) -> Result<(), AllocError> {
    let Satisfied(seen) = place.progress.satisfied;
    tell_unseen(out, scene, dependencies(&place.packet), seen)
}

// How many work-groups there are along a dimension.
fn groups_along(grid: u32, size: u16) -> u64 {
    let size = size as u64;
    if size == 0 {
        return 0;
    }
    (grid as u64).saturating_add(size.saturating_sub(1)) / size
}

// How many work-groups a kernel dispatch has.
fn groups_of(dispatch: &KernelDispatch) -> u64 {
    groups_along(dispatch.grid_size_x, dispatch.workgroup_size_x)
        .saturating_mul(groups_along(dispatch.grid_size_y, dispatch.workgroup_size_y))
        .saturating_mul(groups_along(dispatch.grid_size_z, dispatch.workgroup_size_z))
}

/// How many work-groups of a packet in flight are left to run; none of a barrier packet.
pub fn groups_left(place: &Place) -> u64 {
    let groups = match &place.packet {
        Packet::Kernel(dispatch) => groups_of(dispatch),
        Packet::Agent(_) => 1,
        _ => 0,
    };
    groups.saturating_sub(place.progress.groups_run as u64)
}

/// Whether a packet is a barrier packet that never gets ready: one that waits for any of no signals.
pub fn is_never_ready(packet: &Packet) -> bool {
    match packet {
        Packet::BarrierOr(barrier) => barrier.dependencies.iter().all(|signal| signal.0 == 0),
        _ => false,
    }
}

/// What ends a barrier packet that never gets ready.
pub fn tell_never_ready(
    out: &mut String,
    scene: &Scene<'_>,
    queue: QueueId,
    packet: PacketId,
) -> Result<(), AllocError> {
    let queue = queue.0;
    let id = packet.0;
    begin(out, scene)?;
    writeln!(
        out,
        "barrier packet {id} of queue {queue} waits for any of no signals, and never gets ready: `stop {queue}` or `close {queue}` ends it"
    )
}

// A barrier packet of a queue in flight, and what brings it to its end.
fn tell_flying_barrier(
    out: &mut String,
    scene: &Scene<'_>,
    queue: QueueId,
    place: &Place,
) -> Result<(), AllocError> {
    if is_never_ready(&place.packet) {
        return tell_never_ready(out, scene, queue, place.id);
    }
    let queue = queue.0;
    let id = place.id.0;
    begin(out, scene)?;
    if is_ready(&place.packet, &place.progress.satisfied) {
        return writeln!(
            out,
            "barrier packet {id} of queue {queue} is in flight, and ready: `finish {queue} {id}`"
        );
    }
    writeln!(
        out,
        "barrier packet {id} of queue {queue} is in flight: `poll {queue} {id}` until it is ready, and `finish {queue} {id}`"
    )?;
    tell_dependencies(out, scene, place)
}

// A packet of a queue in flight, and what brings it to its end.
fn tell_flying(
    out: &mut String,
    scene: &Scene<'_>,
    queue: QueueId,
    place: &Place,
) -> Result<(), AllocError> {
    if is_barrier(&place.packet) {
        return tell_flying_barrier(out, scene, queue, place);
    }
    let queue = queue.0;
    let id = place.id.0;
    begin(out, scene)?;
    if groups_left(place) == 0 {
        return writeln!(
            out,
            "packet {id} of queue {queue} is in flight, and all its groups ran: `finish {queue} {id}`"
        );
    }
    writeln!(
        out,
        "packet {id} of queue {queue} is in flight: `run {queue} {id}` until no group is left, and `finish {queue} {id}`"
    )
}

// The packets in flight for which a packet of their queue waits.
fn tell_waited_for(
    out: &mut String,
    scene: &Scene<'_>,
    queue: QueueId,
    cause: WaitCause,
) -> Result<(), AllocError> {
    for place in scene.core.packets_of(queue) {
        if cause != WaitCause::Barrier || is_barrier(&place.packet) {
            tell_flying(out, scene, queue, place)?;
        }
    }
    Ok(())
}

/// What a packet waits for.
pub fn tell_waiting(
    out: &mut String,
    scene: &Scene<'_>,
    queue: QueueId,
    cause: WaitCause,
) -> Result<(), AllocError> {
    say(
        out,
        scene,
        match cause {
            WaitCause::Barrier => "the packet waits for a barrier packet of its queue",
            WaitCause::Active => {
                "its barrier bit is set, so the packet waits for all packets of its queue in flight"
            }
            WaitCause::Slots =>
                "eight packets of its queue are in flight, the most: it waits for one",
        },
    )?;
    tell_waited_for(out, scene, queue, cause)
}

// A packet in flight that holds a right, and what releases it.
fn tell_held_by(
    out: &mut String,
    scene: &Scene<'_>,
    queue: QueueId,
    place: &Place,
) -> Result<(), AllocError> {
    tell_flying(out, scene, queue, place)?;
    let number = queue.0;
    if is_barrier(&place.packet) {
        begin(out, scene)?;
        writeln!(
            out,
            "`stop {number}` releases the queue's barrier packets too"
        )?;
    }
    begin(out, scene)?;
    writeln!(
        out,
        "`close {number}` ends the queue, and releases all of its packets"
    )
}

// Which right it is that is held: of several that are to be taken, one of them.
fn put_held(
    out: &mut String,
    scene: &Scene<'_>,
    taken: Option<(Object, Rights)>,
) -> Result<(), AllocError> {
    let Some((object, rights)) = taken else {
        return out.push_str("a right that the further policy doesn't allow");
    };
    let mut is_first = true;
    for right in Right::ALL {
        if rights.has(right) {
            out.push_str(if is_first { "" } else { " or " })?;
            out.push_str(right.name())?;
            is_first = false;
        }
    }
    out.push_str(" on ")?;
    put_object(out, scene.policy, object)
}

/// The packet that holds a right, one of those that were to be taken from an object or that a further policy doesn't allow,
/// and what would release it.
pub fn tell_holder(
    out: &mut String,
    scene: &Scene<'_>,
    queue: QueueId,
    packet: PacketId,
    taken: Option<(Object, Rights)>,
) -> Result<(), AllocError> {
    begin(out, scene)?;
    out.push_str("a packet in flight holds ")?;
    put_held(out, scene, taken)?;
    out.push_str(": it is released once that is finished\n")?;
    match scene.core.flying(queue, packet) {
        Some(place) => tell_held_by(out, scene, queue, place),
        None => Ok(()),
    }
}
