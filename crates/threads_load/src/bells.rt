//! The gate of lanes that wait at their doorbells.

use crate::gate::LoadGate;
use aql_packet::QueueId;
use client_threads::{Broker, Gate, LaneAnswer, Room};
use std::sync::Wait;

/// The load's gate, where a lane that has had nothing to do for some turns waits at its queue's doorbell. It rings when a
/// packet is published, when a producer has published all or gives up, and when a round is over.
#[derive(Drop)]
pub(crate) struct BellGate<'a, B: Room, R> {
    pub rt: &'a R,
    pub broker: &'a Broker<B>,
    pub gate: &'a LoadGate,
}

/// Rings the doorbell of a queue.
pub(crate) fn ring<B: Room>(broker: &Broker<B>, queue: QueueId) {
    if let Some(bell) = broker.doorbell(queue) {
        bell.ring(0);
    }
}

// Rings the doorbells of so many lanes: of all.
fn ring_all<B: Room>(broker: &Broker<B>, lanes: usize) {
    for before in 0..lanes {
        ring(broker, QueueId(before as u64 + 1));
    }
}

// Waits until the doorbell of a lane rings.
fn wait<B: Room, R: Wait>(rt: &R, broker: &Broker<B>, lane: u32) {
    if let Some(bell) = broker.doorbell(QueueId(u64::from(lane))) {
        bell.wait(rt);
    }
}

impl<B: Room, R: Wait> Gate for BellGate<'_, B, R> {
    fn enter(&self, lane: u32, turn: u64) -> bool {
        let Some(tally) = self.gate.tally(lane) else {
            return false;
        };
        if self.gate.is_to_wait(tally) {
            wait(self.rt, self.broker, lane);
            tally.wake();
        }
        self.gate.lets_in(tally, turn)
    }

    fn leave(&self, lane: u32, turn: u64, done: LaneAnswer) {
        if self.gate.reckon(lane, turn, done) {
            ring_all(self.broker, self.gate.lanes());
        }
    }
}
