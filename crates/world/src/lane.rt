//! A packet's way through a queue's ring, call by call: each makes its steps in turn, up to the first that is refused.

ghost use Rattle.std.specs.Prelude.{◌≡◌, false, slice_index};
ghost use Rattle.ring_core.specs.Words.{is_invalid};
ghost use Rattle.ring_core.specs.declared.access.Access.TheVariants.{Reserve};
ghost use Rattle.world.specs.Actions.{asks, reads};
ghost use Rattle.world.specs.declared.request.Request.TheVariants as request;
ghost use Rattle.world.specs.Lanes.{answer_of, hands_over, leaves_ring, peek, publish, publish_where, retire, retire_decided, serve_next, serve_shown, submit, TellsServed};

use crate::reply::{Answer, Refusal, Reply};
use crate::world::World;
use crate::{rings, serving};
use aql_packet::{PacketId, QueueId};
use core_model::Taken;
use ring_core::is_invalid;
use std::alloc::Global;

/// What became of a packet that was to be published, no step of which was refused.
#[derive(Clone, Copy)]
pub enum Sent {
    /// It is published under this id.
    Published(PacketId),
    /// The slot of this ticket is still taken: so the read index says. The ticket stays open.
    Busy { ticket: PacketId, read: u64 },
    /// A packet of type INVALID can't be published: no step was made, and this ticket stays open.
    NotPublishable(PacketId),
}

/// A packet that a queue's processor has collected, with its id.
#[derive(Clone, Copy)]
pub struct Shown {
    pub packet: PacketId,
    pub words: [u64; 8],
}

/// What became of a packet that a queue's processor handed over, with its id.
#[derive(Clone, Copy)]
pub struct Served {
    pub packet: PacketId,
    pub taken: Taken,
}

impl World {
    /// A producer of a queue publishes a packet, its words in order, under a ticket of its own (PSA, User Mode
    /// Queuing): it looks at the read index, and where that shows room stores the body, and the header last. Refused
    /// as the first of these steps that is; those before it stay made. Whether there is room, and that a packet of
    /// type INVALID makes no step, is told in place of a refusal (own).
    pub fn publish(
        &mut self,
        alloc: Global,
        queue: QueueId,
        producer: u64,
        ticket: PacketId,
        words: &[u64; 8],
    ) -> Result<Sent, Refusal>
        ensures { publish queue producer ticket words.now self.old result self.new }
    {
        if is_invalid(words[0]) {
            Ok(Sent::NotPublishable(ticket))
        } else {
            publish_valid(self, queue, producer, ticket, words)
        }
    }

    /// A producer of a queue reserves a ticket, and publishes a packet under it, as `publish` does (PSA, User Mode
    /// Queuing). Refused as the reservation is (`Spent`, and where memory is wanted for the ticket), or as `publish`
    /// is; the ticket stays reserved then.
    pub fn submit(
        &mut self,
        alloc: Global,
        queue: QueueId,
        producer: u64,
        words: &[u64; 8],
    ) -> Result<Sent, Refusal>
        ensures { submit queue producer words.now self.old result self.new }
    {
        let ticket = reserve(self, queue, producer)?;
        self.publish(alloc, queue, producer, PacketId(ticket), words)
    }

    /// A queue's processor collects the packet at the read index, header first (PSA, User Mode Queuing); none where
    /// the header's type is INVALID, for then no packet is published there. Refused as the first of these loads that
    /// is; those before it stay made.
    pub fn peek(&mut self, alloc: Global, queue: QueueId) -> Result<Option<Shown>, Refusal>
        ensures { peek queue self.old result self.new }
    {
        rings::collect(&mut self.rings, queue)
    }

    /// A queue's processor retires the packet at the read index: it gives the slot the type INVALID, and raises the
    /// read index (PSA, User Mode Queuing). The value is the read index before that. Refused as the first of these two
    /// steps that is: `NotAStep` unless the packet was launched or denied (own).
    pub fn retire(&mut self, alloc: Global, queue: QueueId) -> Result<u64, Refusal>
        ensures { retire queue self.old result self.new }
    {
        rings::retire(&mut self.rings, queue)
    }

    /// A queue's processor collects the packet at the read index, hands it over, and retires it if it was launched or
    /// denied (PSA, User Mode Queuing: packets are processed in order); one that waits stays where it is. None where
    /// no packet is published there. Refused as the first of `peek`, the take and `retire` that is; what was done before
    /// stays done (own).
    pub fn serve_next(&mut self, alloc: Global, queue: QueueId) -> Result<Option<Served>, Refusal>
        ensures { serve_next queue self.old result self.new }
    {
        let shown = self.peek(alloc, queue)?;
        serve_shown(alloc, self, queue, shown)
    }
}

// Whether a packet that was handed over leaves its ring: it was launched or denied.
fn leaves_ring(taken: Taken) -> bool
    ensures { result ≡ leaves_ring taken }
{
    match taken {
        Taken::Launched => true,
        Taken::Denied(_) => true,
        Taken::Waiting(_) => false,
    }
}

// A producer reserves a ticket.
fn reserve(world: &mut World, queue: QueueId, producer: u64) -> Result<u64, Refusal>
    ensures { reads queue producer Reserve world.old result world.new }
{
    rings::reserve(&mut world.rings, queue, producer)
}

// A producer publishes a packet, its type another than INVALID.
fn publish_valid(
    world: &mut World,
    queue: QueueId,
    producer: u64,
    ticket: PacketId,
    words: &[u64; 8],
) -> Result<Sent, Refusal>
    requires { is_invalid (slice_index words.now 0) ≡ false }
    ensures { publish_where queue producer ticket words.now world.old result world.new }
{
    rings::publish(&mut world.rings, queue, producer, ticket, words)
}

// What became of a packet, as the answer to its take tells it.
fn served_by(answer: &Answer) -> Served
    requires { TellsServed answer.now }
    ensures { answer.now ≡ answer_of result }
{
    match answer {
        Answer::Taken { packet, taken } => Served {
            packet: *packet,
            taken: *taken,
        },
        _ => unreachable!(),
    }
}

// A queue's processor hands over the packet that it has collected.
#[tactic(auto, unfolding(crate::specs::Actions::asks))]
fn take(alloc: Global, world: &mut World, queue: QueueId) -> Reply
    ensures { asks (request.Take queue) world.old result world.new }
{
    serving::take(alloc, &mut world.core, &mut world.rings, queue)
}

// What became of the packet that a queue's processor hands over.
fn hand_over(alloc: Global, world: &mut World, queue: QueueId) -> Result<Served, Refusal>
    ensures { hands_over queue world.old result world.new }
{
    let answer = take(alloc, world, queue)?;
    Ok(served_by(&answer))
}

// A queue's processor retires a packet that was handed over, if it was launched or denied.
fn retire_decided(
    alloc: Global,
    world: &mut World,
    queue: QueueId,
    served: Served,
) -> Result<Option<Served>, Refusal>
    ensures { retire_decided queue served world.old result world.new }
{
    if !leaves_ring(served.taken) {
        return Ok(Some(served));
    }
    world.retire(alloc, queue)?;
    Ok(Some(served))
}

// A queue's processor hands over the packet that it has collected, if there is one, and retires it.
fn serve_shown(
    alloc: Global,
    world: &mut World,
    queue: QueueId,
    shown: Option<Shown>,
) -> Result<Option<Served>, Refusal>
    ensures { serve_shown queue shown world.old result world.new }
{
    match shown {
        None => Ok(None),
        Some(_) => {
            let served = hand_over(alloc, world, queue)?;
            retire_decided(alloc, world, queue, served)
        }
    }
}
