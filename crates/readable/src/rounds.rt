//! A round of a drain: all queues are served as far as they come, and then the packets in flight worked on.

ghost use Rattle.std.specs.Prelude.{◌≡◌, ◌∷◌, [], List, MatchResult, None};
ghost use Rattle.aql_packet.specs.declared.ids.QueueId.{QueueId};
ghost use Rattle.readable.specs.Drains.{Makes};
ghost use Rattle.readable.specs.Moves.{Made};
ghost use Rattle.readable.specs.Rounds.{AreWorkedOn, EndsWith, IsRound, IsWorkedOn, Served, finish_of, work_of};
ghost use Rattle.readable.specs.Steps.{step_made};
ghost use Rattle.readable.specs.inner.Keeping.{Asks, Requests};

use crate::flight::{Queues, flight, launched_by};
use crate::log::Log;
use crate::moves::{Came, Move, came_of, command_of};
use crate::steps::{Step, is_again, is_done, step_of};
use aql_packet::Packet;
use core_model::{InFlight, Taken};
use script::perform;
use std::alloc::{AllocError, Global};
use world::World;

/// The most requests of a part of a drain (own). It is over long before: each round but the last makes an entry in the
/// audit, which has at most 2^20.
pub(crate) const MOST_REQUESTS: u64 = 1 << 40;

// The packet that was launched last.
fn launched_last(world: &World) -> Option<Packet> {
    let entry = world.core().audit().last()?;
    let flying = launched_by(entry)?;
    Some(flying.packet)
}

// The packet that a request is about which came to this: one that it launched, or else this one.
fn about(world: &World, packet: Option<Packet>, came: Came) -> Option<Packet> {
    match came {
        Came::Taken {
            taken: Taken::Launched,
            ..
        } => launched_last(world),
        _ => packet,
    }
}

// Makes a request, and says what it came to.
fn request(alloc: Global, world: &mut World, asked: Move) -> Came
    ensures { Requests asked world.old result world.new }
{
    let reply = perform(alloc, world, &[], command_of(asked));
    came_of(&reply)
}

// Makes a request about a packet, and takes note of what it came to.
fn make(
    alloc: Global,
    world: &mut World,
    asked: Move,
    packet: Option<Packet>,
    log: &mut Log,
) -> Result<Step, AllocError>
    ensures { MatchResult result
        (λ step. (one : Made) × (one.asked ≡ asked) × (step_made one ≡ step) × Asks world.old log.old (one ∷ []) world.new log.new)
        (λ error. Makes world.old world.new) }
{
    let came = request(alloc, world, asked);
    match log.note(asked, about(world, packet, came), came) {
        Ok(()) => Ok(step_of(came)),
        Err(error) => Err(error),
    }
}

// Makes a request about a packet until it isn't to be asked once more, and says what follows then.
fn ask_on(
    alloc: Global,
    world: &mut World,
    asked: Move,
    packet: Option<Packet>,
    log: &mut Log,
) -> Result<Step, AllocError>
    ensures { MatchResult result
        (λ step. (made : List Made) × EndsWith asked step made × Asks world.old log.old made world.new log.new)
        (λ error. Makes world.old world.new) }
{
    'asked: for _ in 0..MOST_REQUESTS {
        let step = make(alloc, world, asked, packet, log)?;
        if !is_again(step) {
            return Ok(step);
        }
    }
    Err(AllocError)
}

// Serves queues in turn, each as far as it comes.
fn serve_all(
    alloc: Global,
    world: &mut World,
    queues: Queues,
    log: &mut Log,
) -> Result<(), AllocError>
    ensures { MatchResult result
        (λ done. (made : List Made) × (served : List QueueId) × Served queues world.old served made world.new None × Asks world.old log.old made world.new log.new)
        (λ error. Makes world.old world.new) }
{
    let mut next = queues.first(world);
    'queues: for _ in 0..MOST_REQUESTS {
        let Some(queue) = next else {
            return Ok(());
        };
        ask_on(alloc, world, Move::Serve { queue }, None, log)?;
        let following = queues.behind(world, queue);
        next = following;
    }
    Err(AllocError)
}

// The request that works on a packet.
fn work_of(flying: &InFlight) -> Move
    ensures { result ≡ work_of flying.now }
{
    let queue = flying.queue;
    let packet = flying.id;
    match flying.packet {
        Packet::Kernel(_) | Packet::Agent(_) => Move::Run { queue, packet },
        Packet::BarrierAnd(_) | Packet::BarrierOr(_) => Move::Poll { queue, packet },
    }
}

// The request that finishes it.
fn finish_of(flying: &InFlight) -> Move
    ensures { result ≡ finish_of flying.now }
{
    Move::Finish {
        queue: flying.queue,
        packet: flying.id,
    }
}

// Works on a packet as far as it comes, and finishes it once that is done.
fn work_on(
    alloc: Global,
    world: &mut World,
    flying: &InFlight,
    log: &mut Log,
) -> Result<(), AllocError>
    ensures { MatchResult result
        (λ done. (made : List Made) × IsWorkedOn flying.now made × Asks world.old log.old made world.new log.new)
        (λ error. Makes world.old world.new) }
{
    let packet = Some(flying.packet);
    let step = ask_on(alloc, world, work_of(flying), packet, log)?;
    if is_done(step) {
        make(alloc, world, finish_of(flying), packet, log)?;
        return Ok(());
    }
    Ok(())
}

// Works on packets in turn.
fn work_on_each(
    alloc: Global,
    world: &mut World,
    flight: &[InFlight],
    log: &mut Log,
) -> Result<(), AllocError>
    ensures { MatchResult result
        (λ done. (made : List Made) × AreWorkedOn flight.now made × Asks world.old log.old made world.new log.new)
        (λ error. Makes world.old world.new) }
{
    'packets: for place in 0..flight.len() {
        work_on(alloc, world, &flight[place], log)?;
    }
    Ok(())
}

/// Serves all of these queues, and works on their packets that are in flight then.
pub(crate) fn make_round(
    alloc: Global,
    world: &mut World,
    queues: Queues,
    log: &mut Log,
) -> Result<(), AllocError>
    ensures { MatchResult result
        (λ done. (made : List Made) × IsRound queues world.old made world.new × Asks world.old log.old made world.new log.new)
        (λ error. Makes world.old world.new) }
{
    serve_all(alloc, world, queues, log)?;
    let flight = flight(alloc, world, queues)?;
    match work_on_each(alloc, world, flight.as_slice(), log) {
        Ok(()) => Ok(()),
        Err(error) => Err(error),
    }
}
