//! A queue at a moment of a run: its packets, and what each waits for.

use crate::downs::{Down, down_among, producer_of};
use crate::rings::{dependencies, groups_left, is_never_ready};
use crate::scene::Scene;
use crate::state::State;
use crate::texts::put_client;
use aql_packet::{Packet, PacketId, QueueId, SignalHandle, header_of};
use core_model::{MOST_IN_FLIGHT, Opening, QUEUES, Satisfied};
use packet_processor::{Place, is_barrier, is_ready};
use policy::{Object, Policy};
use ring_core::RingState;
use std::alloc::AllocError;
use world::World;

/// How many ids of a ring are told at the most (own).
const MOST_IDS: u64 = 16;

/// Where the words of a ring's slots begin, and how many a slot has.
const BEFORE_SLOTS: u64 = 2;

const SLOT_WORDS: u64 = 8;

// The name of an object, of which the policy has one.
fn name(policy: &Policy, object: Object) -> &str {
    policy.object_name(object).unwrap_or("?")
}

// Puts what a queue is behind a text.
fn put_opening(
    out: &mut String,
    policy: &Policy,
    queue: QueueId,
    opening: Opening,
) -> Result<(), AllocError> {
    let number = queue.0;
    let agent = name(policy, Object::Agent(opening.agent));
    write!(out, "queue {number} of ")?;
    put_client(out, policy, opening.client)?;
    write!(out, " on agent {agent}: ")
}

// Puts why a queue launches nothing more behind a text, if it doesn't.
fn put_down(out: &mut String, down: Option<Down>) -> Result<(), AllocError> {
    match down {
        Some(Down::Failed(error)) => write!(out, ", launches nothing more: {error}"),
        Some(Down::Stopped) => out.push_str(", launches nothing more: it was stopped"),
        None => Ok(()),
    }
}

// Puts what a packet in flight is behind a text.
fn put_kind(out: &mut String, policy: &Policy, packet: &Packet) -> Result<(), AllocError> {
    match packet {
        Packet::Kernel(dispatch) => {
            let kernel = name(policy, Object::Kernel(dispatch.kernel_object));
            write!(out, "kernel {kernel}")
        }
        Packet::Agent(_) => out.push_str("an agent dispatch"),
        Packet::BarrierAnd(_) => out.push_str("a barrier-AND"),
        Packet::BarrierOr(_) => out.push_str("a barrier-OR"),
    }
}

// Puts a signal that a barrier packet hasn't yet seen as 0 behind a text, with its value.
fn put_unseen(
    out: &mut String,
    scene: &Scene<'_>,
    signal: SignalHandle,
    before: &str,
) -> Result<(), AllocError> {
    let signal_name = name(scene.policy, Object::Signal(signal));
    let value = scene.core.value_of(signal).unwrap_or(0);
    write!(out, "{before}signal {signal_name}, which is {value}")
}

// Puts those of these signals behind a text that weren't yet seen as 0.
fn put_signals(
    out: &mut String,
    scene: &Scene<'_>,
    signals: [SignalHandle; 5],
    seen: [bool; 5],
) -> Result<(), AllocError> {
    let mut has_one = false;
    for (signal, seen) in signals.iter().zip(seen.iter()) {
        if signal.0 != 0 && !*seen {
            let before = if has_one { ", and " } else { "" };
            put_unseen(out, scene, *signal, before)?;
            has_one = true;
        }
    }
    Ok(())
}

// Puts the signals that a barrier packet hasn't yet seen as 0 behind a text.
fn put_dependencies(out: &mut String, scene: &Scene<'_>, place: &Place) -> Result<(), AllocError> {
    let Satisfied(seen) = place.progress.satisfied;
    put_signals(out, scene, dependencies(&place.packet), seen)
}

// Puts what a packet in flight waits for behind a text.
fn put_wait(
    out: &mut String,
    scene: &Scene<'_>,
    queue: u64,
    place: &Place,
) -> Result<(), AllocError> {
    let id = place.id.0;
    let left = groups_left(place);
    if is_never_ready(&place.packet) {
        return write!(out, "`stop {queue}`: any of no signals is never 0");
    }
    if left > 0 {
        return write!(out, "`run {queue} {id}`: groups left: {left}");
    }
    if is_barrier(&place.packet) && !is_ready(&place.packet, &place.progress.satisfied) {
        put_dependencies(out, scene, place)?;
        return write!(out, ": `poll {queue} {id}` looks");
    }
    write!(out, "`finish {queue} {id}`")
}

// Puts a line for a packet in flight.
fn put_flying(
    state: &mut State,
    scene: &Scene<'_>,
    queue: u64,
    place: &Place,
) -> Result<(), AllocError> {
    let id = place.id.0;
    write!(state.lines, "packet {id} of queue {queue}: in flight, ")?;
    put_kind(&mut state.lines, scene.policy, &place.packet)?;
    state.lines.push_str(", waits for ")?;
    put_wait(&mut state.lines, scene, queue, place)?;
    state.end_line()
}

// The header of the slot of an id.
fn header_at(ring: &RingState, id: u64) -> u64 {
    let size = ring.size();
    let slot = if size == 0 { 0 } else { id % size };
    let place = slot.saturating_mul(SLOT_WORDS).saturating_add(BEFORE_SLOTS);
    match ring.words().get(place as usize) {
        Some(word) => *word,
        None => 0,
    }
}

// For what the packet at the head of a ring waits before it can be launched; nothing where that is a serve alone.
fn cause(scene: &Scene<'_>, queue: QueueId, header: u64) -> &'static str {
    let places = scene.core.packets_of(queue);
    if places.iter().any(|place| is_barrier(&place.packet)) {
        ", behind the barrier packet in flight"
    } else if header_of(header).barrier && !places.is_empty() {
        ", behind all packets in flight, as its barrier bit is set"
    } else if places.len() >= MOST_IN_FLIGHT {
        ", behind one of the eight packets in flight"
    } else {
        ""
    }
}

// Puts what an id of a ring that isn't retired waits for behind a text.
fn put_id(
    out: &mut String,
    scene: &Scene<'_>,
    queue: QueueId,
    ring: &RingState,
    id: u64,
) -> Result<(), AllocError> {
    let number = queue.0;
    if id < scene.core.next_packet(queue) {
        let verb = if ring.processor().raising {
            "advance"
        } else {
            "retire"
        };
        return write!(out, "handed over, its slot waits for `{verb} {number}`");
    }
    if let Some(producer) = producer_of(ring, PacketId(id)) {
        return write!(
            out,
            "reserved, waits for `publish {number} {producer} {id} PACKET`"
        );
    }
    let cause = if id == ring.read_index() {
        cause(scene, queue, header_at(ring, id))
    } else {
        ", behind those before it"
    };
    write!(out, "published, waits for `serve {number}`{cause}")
}

// Puts a line for each of a ring's ids that aren't retired, up to so many.
fn put_ring(
    state: &mut State,
    scene: &Scene<'_>,
    queue: QueueId,
    ring: &RingState,
) -> Result<(), AllocError> {
    let number = queue.0;
    let head = ring.read_index();
    let waiting = ring.write_index().saturating_sub(head);
    for behind in 0..waiting.min(MOST_IDS) {
        let id = head.saturating_add(behind);
        write!(state.lines, "packet {id} of queue {number}: ")?;
        put_id(&mut state.lines, scene, queue, ring, id)?;
        state.end_line()?;
    }
    let further = waiting.saturating_sub(MOST_IDS);
    if further > 0 {
        write!(
            state.lines,
            "queue {number}: {further} more ids reserved or published"
        )?;
        state.end_line()?;
    }
    Ok(())
}

// Puts the lines for a queue.
fn put_queue(
    state: &mut State,
    scene: &Scene<'_>,
    world: &World,
    queue: QueueId,
) -> Result<(), AllocError> {
    let (Some(opening), Some(ring)) = (scene.core.opening(queue), world.ring(queue)) else {
        return Ok(());
    };
    let slots = ring.size();
    let next = scene.core.next_packet(queue);
    put_opening(&mut state.lines, scene.policy, queue, opening)?;
    write!(state.lines, "{slots} slots, next packet {next}")?;
    put_down(&mut state.lines, down_among(scene, queue, usize::MAX))?;
    state.end_line()?;
    for place in scene.core.packets_of(queue) {
        put_flying(state, scene, queue.0, place)?;
    }
    put_ring(state, scene, queue, ring)
}

/// Puts the lines for all open queues.
pub fn put_queues(state: &mut State, scene: &Scene<'_>, world: &World) -> Result<(), AllocError> {
    let mut last = QueueId(0);
    for _ in 0..QUEUES {
        let Some(queue) = world.queue_after(last) else {
            return Ok(());
        };
        put_queue(state, scene, world, queue)?;
        last = queue;
    }
    Ok(())
}
