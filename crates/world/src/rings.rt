//! The rings of the queues that are open, in the order in which they were opened.

ghost use Rattle.std.specs.Prelude.{◌≡◌, ◌≤◌, false, length, option_map, slice_index};
ghost use Rattle.std.specs.Option.{option_copied};
ghost use Rattle.world.specs.InStep.{AreApart};
ghost use Rattle.world.specs.Making.{IsOpenPlace, MakesAt, nearer, place_in, queue_after, ring_in, rings_of};
ghost use Rattle.world.specs.Obeying.{HasRing, RingFollows, next_of, with_gone, without};
ghost use Rattle.ring_core.specs.Words.{is_invalid};
ghost use Rattle.world.specs.inner.Calling.{CallsAt, CollectsOn, PublishesOn, ReservesOn, RetiresOn};

use crate::lane::{Sent, Shown};
use crate::queue_ring::{Next, QueueRing};
use crate::reply::{Refusal, Reply};
use aql_packet::{PacketId, QueueId};
use core_model::Taken;
use ring_core::{Log, Step};

// Where a queue's ring stands: behind the last, where the queue has none. Queues are numbered from 1 as they are opened, so
// the first look is at the place of its number: there its ring stands as long as no queue before it was closed.
fn place_of(rings: &Vec<QueueRing>, queue: QueueId) -> usize
    requires { AreApart (rings_of rings.now.items) }
    ensures { result ≡ place_in rings.now.items queue }
{
    let behind = (queue.0 as usize).min(rings.len());
    if behind > 0 && rings[behind - 1].queue.0 == queue.0 {
        return behind - 1;
    }
    place_before(rings, queue, behind)
}

// Where a queue's ring stands. The look goes downward from a place, since a queue that is closed has those behind it move
// down. Only where the queue has no ring are the others looked at too.
#[inline(never)]
fn place_before(rings: &Vec<QueueRing>, queue: QueueId, behind: usize) -> usize
    requires apart { AreApart (rings_of rings.now.items) }
    requires within { behind ≤ length rings.now.items }
    ensures { result ≡ place_in rings.now.items queue }
{
    for place in (0..behind).rev() {
        if rings[place].queue.0 == queue.0 {
            return place;
        }
    }
    place_among(rings, queue)
}

// Where a queue's ring stands among all: behind the last, where the queue has none.
fn place_among(rings: &Vec<QueueRing>, queue: QueueId) -> usize
    ensures { result ≡ place_in rings.now.items queue }
{
    for place in 0..rings.len() {
        if rings[place].queue.0 == queue.0 {
            return place;
        }
    }
    rings.len()
}

// The place of a queue's ring, if it is open.
fn open_place(rings: &Vec<QueueRing>, queue: QueueId) -> Option<usize>
    requires { AreApart (rings_of rings.now.items) }
    ensures { IsOpenPlace rings.now.items queue result }
{
    let place = place_of(rings, queue);
    if place < rings.len() {
        Some(place)
    } else {
        None
    }
}

/// A queue's ring, if it is open.
pub(crate) fn ring_at(rings: &Vec<QueueRing>, queue: QueueId) -> Option<&QueueRing>
    requires { AreApart (rings_of rings.now.items) }
    ensures { option_copied result ≡ ring_in rings.now.items queue }
{
    rings.get(place_of(rings, queue))
}

/// The queue with a ring whose number is the least behind this one.
pub(crate) fn queue_after(rings: &Vec<QueueRing>, queue: QueueId) -> Option<QueueId>
    ensures { result ≡ queue_after rings.now.items queue }
{
    let mut next = None;
    for place in 0..rings.len() {
        next = nearer(queue, next, rings[place].queue);
    }
    next
}

// Of the next queue behind one so far, if there is one, and another, the nearer.
fn nearer(queue: QueueId, next: Option<QueueId>, other: QueueId) -> Option<QueueId>
    ensures { result ≡ nearer queue next other }
{
    match next {
        None if other.0 <= queue.0 => None,
        None => Some(other),
        Some(found) if other.0 <= queue.0 || found.0 <= other.0 => Some(found),
        Some(_) => Some(other),
    }
}

/// The ring of a queue goes: it is taken out, and what it was is told from then on.
pub(crate) fn close(rings: &mut Vec<QueueRing>, closed: &mut Log<QueueRing>, queue: QueueId)
    requires { AreApart (rings_of rings.old.items) }
    ensures rings { rings.new.items ≡ without rings.old.items queue }
    ensures closed { closed.new ≡ with_gone closed.old (ring_in rings.old.items queue) }
{
    let place = place_of(rings, queue);
    if place < rings.len() {
        let ring = rings.remove(place);
        closed.push(&ring);
    }
}

/// A seat makes a step on a queue's ring.
pub(crate) fn make_step(rings: &mut Vec<QueueRing>, queue: QueueId, step: Step) -> Reply
    requires { AreApart (rings_of rings.old.items) }
    ensures { MakesAt (ring_in rings.old.items queue) queue step rings.old.items result rings.new.items }
{
    match open_place(rings, queue) {
        None => Err(Refusal::Core(core_model::Refusal::UnknownQueue)),
        Some(place) => {
            let ring = &mut rings[place];
            ring.make(step)
        }
    }
}

/// A producer of a queue reserves a ticket.
pub(crate) fn reserve(
    rings: &mut Vec<QueueRing>,
    queue: QueueId,
    producer: u64,
) -> Result<u64, Refusal>
    requires { AreApart (rings_of rings.old.items) }
    ensures { CallsAt (ReservesOn producer) (ring_in rings.old.items queue) queue rings.old.items result rings.new.items }
{
    match open_place(rings, queue) {
        None => Err(Refusal::Core(core_model::Refusal::UnknownQueue)),
        Some(place) => {
            let ring = &mut rings[place];
            ring.reserve(producer)
        }
    }
}

/// A queue's processor collects the packet at the read index.
pub(crate) fn collect(rings: &mut Vec<QueueRing>, queue: QueueId) -> Result<Option<Shown>, Refusal>
    requires { AreApart (rings_of rings.old.items) }
    ensures { CallsAt CollectsOn (ring_in rings.old.items queue) queue rings.old.items result rings.new.items }
{
    match open_place(rings, queue) {
        None => Err(Refusal::Core(core_model::Refusal::UnknownQueue)),
        Some(place) => {
            let ring = &mut rings[place];
            ring.collect()
        }
    }
}

/// A queue's processor retires the packet at the read index.
pub(crate) fn retire(rings: &mut Vec<QueueRing>, queue: QueueId) -> Result<u64, Refusal>
    requires { AreApart (rings_of rings.old.items) }
    ensures { CallsAt RetiresOn (ring_in rings.old.items queue) queue rings.old.items result rings.new.items }
{
    match open_place(rings, queue) {
        None => Err(Refusal::Core(core_model::Refusal::UnknownQueue)),
        Some(place) => {
            let ring = &mut rings[place];
            ring.retire()
        }
    }
}

/// A producer of a queue publishes a packet, its type another than INVALID, under a ticket of its own.
pub(crate) fn publish(
    rings: &mut Vec<QueueRing>,
    queue: QueueId,
    producer: u64,
    ticket: PacketId,
    words: &[u64; 8],
) -> Result<Sent, Refusal>
    requires apart { AreApart (rings_of rings.old.items) }
    requires valid { is_invalid (slice_index words.now 0) ≡ false }
    ensures { CallsAt (PublishesOn producer ticket words.now) (ring_in rings.old.items queue) queue rings.old.items result rings.new.items }
{
    match open_place(rings, queue) {
        None => Err(Refusal::Core(core_model::Refusal::UnknownQueue)),
        Some(place) => {
            let ring = &mut rings[place];
            ring.publish(producer, ticket, words)
        }
    }
}

/// The packet that a queue's processor has collected, if the queue is open and it has one whole.
pub(crate) fn next_packet(rings: &Vec<QueueRing>, queue: QueueId) -> Option<Option<Next>>
    requires { AreApart (rings_of rings.now.items) }
    ensures { result ≡ option_map next_of (ring_in rings.now.items queue) }
{
    match ring_at(rings, queue) {
        None => None,
        Some(ring) => Some(ring.next()),
    }
}

/// Notes beside a queue's ring what became of the packet at its read index.
pub(crate) fn note_taken(rings: &mut Vec<QueueRing>, queue: QueueId, taken: Taken)
    requires ring { HasRing rings.old.items queue }
    requires apart { AreApart (rings_of rings.old.items) }
    ensures { RingFollows (ring_in rings.old.items queue) queue taken rings.old.items rings.new.items }
{
    match taken {
        Taken::Launched | Taken::Denied(_) => {
            let place = place_of(rings, queue);
            rings[place].decided = true;
        }
        Taken::Waiting(_) => {}
    }
}
