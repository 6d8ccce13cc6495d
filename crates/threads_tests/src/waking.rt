//! Producers that wait at a doorbell where a slot is busy, and the gate that rings it.

ghost use Rattle.ring.specs.Publishing.{IsOpen};
ghost use Rattle.client_threads.specs.Running.{IsEndOf};
ghost use Rattle.threads_load.specs.Stages.{StaysOf};

use crate::stages::{LOOKS, packet};
use client_threads::{Broker, ClientEnd, Gate, LaneAnswer, Room, ServeAnswer};
use doorbell::Doorbell;
use ring::{Publication, Ticket};
use std::alloc::{AllocError, Global};
use std::sync::Wait;
use std::sync::atomic::{AtomicU64, Ordering};
use threads_load::LoadGate;

/// How many packets each producer publishes.
pub const EACH: u64 = 6_250;

/// How many producers each queue has.
pub const PRODUCERS: usize = 4;

/// The load's gate, which also wakes the producers of a lane that served a packet or ends: they wait where a slot is
/// busy.
#[derive(Drop)]
pub struct WakingGate {
    load: LoadGate,
    // A bell for each producer, those of the first lane first.
    bells: Vec<Doorbell>,
    // How many lanes have ended.
    ended: AtomicU64,
}

impl WakingGate {
    /// A gate for so many lanes of four producers.
    pub fn new(alloc: Global, lanes: usize) -> Result<WakingGate, AllocError> {
        let mut bells = Vec::new(alloc);
        for _bell in 0..lanes.saturating_mul(PRODUCERS) {
            bells.push(Doorbell::new(alloc)?)?;
        }
        Ok(WakingGate {
            load: LoadGate::new(alloc, lanes, PRODUCERS as u64 * EACH)?,
            bells,
            ended: AtomicU64::new(0),
        })
    }

    // Wakes the producers of a lane.
    fn wake(&self, lane: u32) {
        for (producer, bell) in self.bells.iter().enumerate() {
            if producer / PRODUCERS + 1 == lane as usize {
                bell.ring(0);
            }
        }
    }

    // A producer waits until its lane served a packet. Whether no lane has ended.
    fn await_room<R: Wait>(&self, rt: &R, producer: usize) -> bool {
        if let Some(bell) = self.bells.get(producer) {
            bell.wait(rt);
        }
        self.ended.load(Ordering::SeqCst) == 0
    }
}

impl Gate for WakingGate {
    fn enter(&self, lane: u32, turn: u64) -> bool {
        let enters = self.load.enter(lane, turn);
        if !enters {
            if self.load.is_unsettled() {
                self.ended.store(1, Ordering::SeqCst);
            }
            self.wake(lane);
        }
        enters
    }

    fn leave(&self, lane: u32, turn: u64, done: LaneAnswer) {
        self.load.leave(lane, turn, done);
        if let ServeAnswer::Launched(_) = done.served {
            self.wake(lane);
        }
    }
}

// Publishes a packet under a ticket, waiting while its slot is busy. Answers whether it was published.
fn publish_under<B: Room, R: Wait>(
    rt: &R,
    broker: &Broker<B>,
    gate: &WakingGate,
    producer: usize,
    end: &mut ClientEnd,
    ticket: Ticket,
    bytes: &[u8; 64],
) -> bool
    requires end { IsEndOf broker.now end.old }
    requires opened { IsOpen ticket.id.0 end.old.pass }
    ensures { IsEndOf broker.now end.new }
{
    let mut ticket = ticket;
    for _look in 0..LOOKS {
        match end.publish(broker, ticket, bytes) {
            Publication::Published(_) => return true,
            Publication::NotPublishable(_) => return false,
            Publication::SlotBusy(back, _) => ticket = back,
        }
        if !gate.await_room(rt, producer) {
            return false;
        }
    }
    false
}

/// Publishes the packets of a producer, until one is not published.
pub fn publish_turns<B: Room, R: Wait>(
    rt: &R,
    broker: &Broker<B>,
    gate: &WakingGate,
    producer: usize,
    end: &mut ClientEnd,
)
    requires { IsEndOf broker.now end.old }
    ensures { StaysOf broker.now end.old end.new }
{
    for turn in 0..EACH {
        let Ok(ticket) = end.reserve(broker) else {
            return;
        };
        let bytes = packet(producer as u64, turn);
        if !publish_under(rt, broker, gate, producer, end, ticket, &bytes) {
            return;
        }
    }
}
