//! The packets in flight, as the core's history has them.

ghost use Rattle.std.specs.Prelude.{◌≡◌, OnOk, IfOk, filter, fold, map};
ghost use Rattle.std.specs.Option.{option_map};
ghost use Rattle.aql_packet.specs.Reading.{decoded};
ghost use Rattle.core_model.specs.Flight.{flight, flight_after, flight_after_effect, is_packet, launched_by, with_launched};
ghost use Rattle.core_model.specs.declared.entry.Effect.TheVariants as effect;
ghost use Rattle.core_model.specs.History.{beginning};
ghost use Rattle.readable.specs.Rounds.{IsBehind, IsFirst, flight_in, has};

use aql_packet::{Packet, PacketId, QueueId, SignalHandle, decode};
use core_model::{Effect, Entry, Event, InFlight, Outcome, PacketOrigin, Taken};
use std::alloc::{AllocError, Global};
use world::World;

/// Queues that are drained.
#[derive(Clone, Copy)]
pub enum Queues {
    /// One, whether it is open or not.
    One(QueueId),
    /// All that are open.
    All,
}

impl Queues {
    /// Whether an open queue is one of them.
    pub fn has(self, queue: QueueId) -> bool
        ensures { result ≡ has self queue }
    {
        match self {
            Queues::One(one) => one.0 == queue.0,
            Queues::All => true,
        }
    }

    /// The first of them, if there is one.
    pub fn first(self, world: &World) -> Option<QueueId>
        ensures { IsFirst self world.now result }
    {
        match self {
            Queues::One(one) => Some(one),
            Queues::All => world.queue_after(QueueId(0)),
        }
    }

    /// The next of them behind one, if there is one.
    pub fn behind(self, world: &World, queue: QueueId) -> Option<QueueId>
        ensures { IsBehind self world.now queue result }
    {
        match self {
            Queues::One(_) => None,
            Queues::All => world.queue_after(queue),
        }
    }
}

// The packet of these bytes, in flight.
#[tactic(auto, using(crate::proofs::Flights::refused))]
fn flying(queue: QueueId, id: PacketId, bytes: &[u8; 64]) -> Option<InFlight>
    ensures { result ≡ option_map (λ packet. record { queue = queue; id = id; packet = packet }) (decoded bytes.now) }
{
    match decode(bytes) {
        Ok(packet) => Some(InFlight { queue, id, packet }),
        Err(_) => None,
    }
}

/// The packet that an entry launches, if it launches one.
pub(crate) fn launched_by(entry: &Entry) -> Option<InFlight>
    ensures { result ≡ launched_by entry.now.event entry.now.outcome }
{
    match &entry.event {
        Event::Take {
            queue,
            packet,
            bytes,
        } => match &entry.outcome {
            Outcome::Taken(Taken::Launched) => flying(*queue, *packet, bytes),
            _ => None,
        },
        _ => None,
    }
}

// Whether a packet in flight is this one.
fn is_packet(flying: &InFlight, queue: QueueId, packet: PacketId) -> bool
    ensures { result ≡ is_packet queue packet flying.now }
{
    flying.queue.0 == queue.0 && flying.id.0 == packet.0
}

// Puts a packet behind others, if there is one.
fn put(flight: &mut Vec<InFlight>, launched: Option<InFlight>) -> Result<(), AllocError>
    ensures { OnOk result (flight.new.items ≡ with_launched flight.old.items launched) }
{
    match launched {
        Some(flying) => Ok(flight.push(flying)?),
        None => Ok(()),
    }
}

// Drops a packet.
fn drop_packet(flight: &mut Vec<InFlight>, queue: QueueId, packet: PacketId)
    ensures { flight.new.items ≡ flight_after_effect flight.old.items (effect.Release queue packet) }
{
    flight.retain(|flying| !is_packet(flying, queue, packet));
}

// Drops the packet that a change releases, if it releases one.
fn drop_released(flight: &mut Vec<InFlight>, effect: &Effect)
    ensures { flight.new.items ≡ flight_after_effect flight.old.items effect.now }
{
    match effect {
        Effect::Release { queue, packet } => drop_packet(flight, *queue, *packet),
        Effect::Write { .. } | Effect::Signal { .. } => {}
    }
}

// Drops the packets that changes release.
fn drop_each(flight: &mut Vec<InFlight>, effects: &[Effect])
    ensures { flight.new.items ≡ fold flight_after_effect flight.old.items effects.now }
{
    for effect in effects.iter() {
        drop_released(flight, effect);
    }
}

// Follows an entry.
fn follow(flight: &mut Vec<InFlight>, entry: &Entry) -> Result<(), AllocError>
    ensures { OnOk result (flight.new.items ≡ flight_after flight.old.items entry.now) }
{
    put(flight, launched_by(entry))?;
    drop_each(flight, entry.effects.as_slice());
    Ok(())
}

// Follows entries.
fn follow_each(flight: &mut Vec<InFlight>, entries: &[Entry]) -> Result<(), AllocError>
    ensures { OnOk result (flight.new.items ≡ fold flight_after flight.old.items entries.now) }
{
    for entry in entries.iter() {
        follow(flight, entry)?;
    }
    Ok(())
}

// The packets that were in flight as an audit began.
fn flight_before(alloc: Global, packets: &[PacketOrigin]) -> Result<Vec<InFlight>, AllocError>
    ensures { IfOk result (λ flight. flight.items ≡ map (λ packet. packet.flying) packets.now) }
{
    let mut flight = Vec::new(alloc);
    for packet in packets.iter() {
        flight.push(packet.flying)?;
    }
    Ok(flight)
}

// All packets in flight, in the order of their launches.
fn all_flight(alloc: Global, world: &World) -> Result<Vec<InFlight>, AllocError>
    ensures { IfOk result (λ all. all.items ≡ flight (beginning world.now.core) world.now.core.entries) }
{
    let core = world.core();
    let mut flight = flight_before(alloc, core.start().packets.as_slice())?;
    follow_each(&mut flight, core.audit())?;
    Ok(flight)
}

// Drops the packets of other queues.
fn keep_of(flight: &mut Vec<InFlight>, queues: Queues)
    ensures { flight.new.items ≡ filter (λ f. has queues f.queue) flight.old.items }
{
    flight.retain(|flying| queues.has(flying.queue));
}

/// The packets of some queues in flight, in the order of their launches.
pub fn flight(alloc: Global, world: &World, queues: Queues) -> Result<Vec<InFlight>, AllocError>
    ensures { IfOk result (λ flight. flight.items ≡ flight_in queues world.now) }
{
    let mut flight = all_flight(alloc, world)?;
    keep_of(&mut flight, queues);
    Ok(flight)
}

/// The signals that a packet depends on: five of a barrier packet, of which some may be null, and else none.
pub fn dependencies(packet: &Packet) -> Option<[SignalHandle; 5]> {
    match packet {
        Packet::BarrierAnd(barrier) | Packet::BarrierOr(barrier) => Some(barrier.dependencies),
        _ => None,
    }
}
