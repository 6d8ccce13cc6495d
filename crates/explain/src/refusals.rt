//! Why a step on a ring was refused.

use crate::asked::{Asked, Stored, Verb};
use crate::downs::tell_down_ring;
use crate::scene::{Scene, begin, say};
use aql_packet::{PacketId, QueueId};
use ring_core::{RingState, SeatPart, Ticket, has_room};
use std::alloc::AllocError;
use world::World;

// How many producers a ring has.
fn producers(ring: &RingState) -> usize {
    ring.parts().len().saturating_sub(1)
}

// The producer with an open ticket of an id, and the ticket, if there is one.
fn holder(ring: &RingState, id: PacketId) -> Option<(usize, Ticket)> {
    for (seat, part) in ring.parts().iter().enumerate() {
        if let SeatPart::Producer(part) = part {
            if let Some(ticket) = part.tickets.get_open(id) {
                return Some((seat, ticket));
            }
        }
    }
    None
}

// The number of the first word of a packet's body that a ticket hasn't stored, if there is one.
fn first_missing(ticket: &Ticket) -> Option<usize> {
    for (place, word) in ticket.words.iter().enumerate() {
        if 0 < place && word.is_none() {
            return Some(place);
        }
    }
    None
}

// What an open ticket that saw room lacks for a step.
fn put_unstored(out: &mut String, ticket: &Ticket, stored: Stored) -> Result<(), AllocError> {
    match (first_missing(ticket), stored) {
        (Some(place), Stored::Header { .. }) => writeln!(
            out,
            "word {place} isn't stored, and the header, word 0, comes last"
        ),
        (None, Stored::Header { is_invalid: true }) => out.push_str(
            "a header of type 1, INVALID, publishes nothing: store one of type 2 to 5 as word 0\n",
        ),
        _ => out.push_str("first `room`, then words 1 to 7, and the header last\n"),
    }
}

// What an open ticket lacks for a step.
fn put_lacking(
    out: &mut String,
    ring: &RingState,
    id: PacketId,
    ticket: &Ticket,
    stored: Stored,
) -> Result<(), AllocError> {
    let size = ring.size();
    if let Stored::Word(place) = stored {
        if place == 0 || 7 < place {
            return writeln!(
                out,
                "a packet has the words 0 to 7, and {place} is none of them"
            );
        }
    }
    let Some(saw) = ticket.saw else {
        return out.push_str(
            "first `room`, which has to see room, then words 1 to 7, and the header last\n",
        );
    };
    if !has_room(size, id, saw) {
        let wanted = id.0.saturating_sub(size.saturating_sub(1));
        return writeln!(
            out,
            "its last `room` saw the read index {saw}, and there is room at {wanted}: `serve` the queue, and `room` once more"
        );
    }
    put_unstored(out, ticket, stored)
}

// Why a producer may not make a step under a ticket.
fn tell_ticket(
    out: &mut String,
    scene: &Scene<'_>,
    ring: &RingState,
    producer: u64,
    ticket: PacketId,
    stored: Stored,
) -> Result<(), AllocError> {
    let id = ticket.0;
    begin(out, scene)?;
    if id >= ring.write_index() {
        return writeln!(
            out,
            "id {id} is not reserved: `reserve` or `submit` does that"
        );
    }
    match holder(ring, ticket) {
        None => writeln!(out, "ticket {id} is published already"),
        Some((seat, _)) if seat as u64 != producer => {
            writeln!(
                out,
                "ticket {id} is producer {seat}'s, not producer {producer}'s"
            )
        }
        Some((_, found)) => {
            write!(out, "ticket {id} is not ready for this step: ")?;
            put_lacking(out, ring, ticket, &found, stored)
        }
    }
}

// Why a producer may not make a step.
fn tell_producer(
    out: &mut String,
    scene: &Scene<'_>,
    ring: &RingState,
    producer: u64,
    ticket: Option<PacketId>,
    stored: Stored,
) -> Result<(), AllocError> {
    let most = producers(ring);
    if producer == 0 || producer > most as u64 {
        begin(out, scene)?;
        return writeln!(
            out,
            "the queue's producers are 1 to {most}, and {producer} is none of them"
        );
    }
    match ticket {
        Some(ticket) => tell_ticket(out, scene, ring, producer, ticket, stored),
        None => say(out, scene, "the producer may not make this step now"),
    }
}

// Why the processor may not make a step on a packet that it has not read whole, or has: what it has to do before.
fn tell_reading(
    out: &mut String,
    ring: &RingState,
    number: u64,
    verb: Verb,
) -> Result<(), AllocError> {
    if verb == Verb::NoPart {
        return out.push_str("a packet's body has the words 1 to 7\n");
    }
    if ring.processor().collected[0].is_none() {
        return writeln!(
            out,
            "no header was read: `look {number}` or `peek {number}` first, which have to see a packet"
        );
    }
    if ring.processor().collected_packet().is_none() {
        return writeln!(
            out,
            "the packet is not read whole: `part {number} K` for 1 to 7, or `peek {number}`"
        );
    }
    writeln!(
        out,
        "the packet at the read index is neither launched nor denied: `take {number}` first"
    )
}

// Whether the packet at a ring's read index was launched or denied.
fn is_judged(scene: &Scene<'_>, ring: &RingState, queue: QueueId) -> bool {
    ring.read_index() < scene.core.next_packet(queue)
}

// Whether a step comes behind the launch of the packet at the read index, or is that.
fn is_behind_reading(verb: Verb) -> bool {
    matches!(
        verb,
        Verb::Take | Verb::Clear | Verb::Advance | Verb::Retire
    )
}

// Why the processor may not make a step.
fn tell_processor(
    out: &mut String,
    scene: &Scene<'_>,
    ring: &RingState,
    queue: QueueId,
    verb: Verb,
) -> Result<(), AllocError> {
    let number = queue.0;
    if is_behind_reading(verb) && !is_judged(scene, ring, queue) {
        let before = "the packet at the read index is neither launched nor denied, and won't be: ";
        if tell_down_ring(out, scene, queue, before)? {
            return Ok(());
        }
    }
    begin(out, scene)?;
    if verb == Verb::Advance {
        return writeln!(
            out,
            "the header at the read index was not cleared: `clear {number}` first"
        );
    }
    if ring.processor().raising {
        return writeln!(
            out,
            "the header at the read index was cleared: `advance {number}` is next"
        );
    }
    tell_reading(out, ring, number, verb)
}

/// Why a step was refused that its seat may not make.
pub fn tell_step(
    out: &mut String,
    scene: &Scene<'_>,
    world: &World,
    asked: Asked,
) -> Result<(), AllocError> {
    match asked {
        Asked::Producing {
            queue,
            producer,
            ticket,
            stored,
        } => match world.ring(queue) {
            Some(ring) => tell_producer(out, scene, ring, producer, ticket, stored),
            None => Ok(()),
        },
        Asked::Processing { queue, verb } => match world.ring(queue) {
            Some(ring) => tell_processor(out, scene, ring, queue, verb),
            None => Ok(()),
        },
        _ => Ok(()),
    }
}

/// Why a producer may reserve no more.
pub fn tell_spent(out: &mut String, scene: &Scene<'_>, asked: Asked) -> Result<(), AllocError> {
    begin(out, scene)?;
    match asked {
        Asked::Producing { producer, .. } => writeln!(
            out,
            "producer {producer} has reserved 1099511627776 ids, the most: use another of the queue's producers"
        ),
        _ => out.push_str("the producer has reserved 1099511627776 ids, the most\n"),
    }
}
