//! What a producer publishes, and how.

ghost use Rattle.std.specs.Prelude.{◌≡◌, Some};
ghost use Rattle.aql_packet.specs.Layout.{PacketOf};
ghost use Rattle.aql_packet.specs.Reading.{decoded};
ghost use Rattle.ring.specs.Bytes.{words_of};
ghost use Rattle.ring.specs.Publishing.{IsOpen};
ghost use Rattle.client_threads.specs.Running.{IsEndOf};
ghost use Rattle.threads_load.specs.Additions.{addition};
ghost use Rattle.threads_load.specs.Publications.{PublishesOnly, PublishesPlanned, planned_at};
ghost use Rattle.threads_load.specs.Stages.{StaysOf};

use crate::bells::ring;
use crate::gate::LoadGate;
use crate::plan::PlannedQueue;
use aql_packet::{
    Address, AgentDispatch, Header, Packet, QueueId, REGION_SPAN, RegionHandle, Scope,
    SignalHandle, encode,
};
use client_threads::{Broker, ClientEnd, Room};
use core_model::ADD64;
use ring::{Publication, Ticket};
use std::thread;

/// How often a producer lets others run before it looks again whether its slot is free.
const RESTS: u32 = 2;

/// What each producer does: it publishes so many packets, and tries again so often at the most, over all of them or, if
/// the tries are counted anew, for each.
#[derive(Clone, Copy)]
pub struct Share {
    pub packets: u64,
    pub tries: u64,
    pub are_renewed: bool,
}

/// The bytes of a packet of the load: it adds 1 to the number at a region's start, its result goes nowhere, and it
/// has no completion signal.
pub fn addition(region: RegionHandle) -> [u8; 64]
    ensures layout { PacketOf result (addition region) }
    ensures back { decoded result ≡ Some (addition region) }
{
    encode(&Packet::Agent(AgentDispatch {
        header: Header {
            barrier: false,
            acquire: Scope::System,
            release: Scope::System,
        },
        function: ADD64,
        return_address: Address(0),
        arguments: [region.0 as u64 * REGION_SPAN, 1, 0, 0],
        completion_signal: SignalHandle(0),
    }))
}

// Whether a producer tries again: it has tries left, and the load wasn't stopped.
fn tries_again(gate: &LoadGate, tries_left: &mut u64) -> bool {
    if *tries_left == 0 || gate.is_stopped() {
        return false;
    }
    *tries_left -= 1;
    for _rest in 0..RESTS {
        thread::yield_now();
    }
    true
}

// Publishes a packet under a ticket, trying again while its slot is busy and tries are left. Answers whether it was
// published.
#[tactic(auto, using(crate::proofs::Publishing::only_none, crate::proofs::Publishing::only_published, crate::proofs::Publishing::only_both))]
fn publish_under<B: Room>(
    broker: &Broker<B>,
    end: &mut ClientEnd,
    ticket: Ticket,
    bytes: &[u8; 64],
    gate: &LoadGate,
    tries_left: &mut u64,
) -> bool
    requires end { IsEndOf broker.now end.old }
    requires opened { IsOpen ticket.id.0 end.old.pass }
    ensures end { IsEndOf broker.now end.new }
    ensures queue { end.new.queue ≡ end.old.queue }
    ensures only { PublishesOnly (words_of bytes.now) 0 end.old.pass end.new.pass }
{
    let mut ticket = ticket;
    for _again in 0..u64::MAX {
        match end.publish(broker, ticket, bytes) {
            Publication::Published(_) => return true,
            Publication::NotPublishable(_) => return false,
            Publication::SlotBusy(back, _) => ticket = back,
        }
        if !tries_again(gate, tries_left) {
            return false;
        }
    }
    false
}

// Reserves an id and publishes a packet under it. Answers whether it was published.
#[tactic(auto, using(crate::proofs::Publishing::only_reserved, crate::proofs::Publishing::only_same, crate::proofs::Publishing::only_both))]
fn publish_one<B: Room>(
    broker: &Broker<B>,
    end: &mut ClientEnd,
    bytes: &[u8; 64],
    gate: &LoadGate,
    tries_left: &mut u64,
) -> bool
    requires { IsEndOf broker.now end.old }
    ensures end { IsEndOf broker.now end.new }
    ensures queue { end.new.queue ≡ end.old.queue }
    ensures only { PublishesOnly (words_of bytes.now) 1 end.old.pass end.new.pass }
{
    match end.reserve(broker) {
        Ok(ticket) => publish_under(broker, end, ticket, bytes, gate, tries_left),
        Err(_) => false,
    }
}

// Publishes a producer's packets, until it gives up.
#[tactic(auto, using(crate::proofs::Publishing::only_none, crate::proofs::Publishing::only_both, crate::proofs::Publishing::only_fewer))]
fn publish_all<B: Room>(
    broker: &Broker<B>,
    end: &mut ClientEnd,
    bytes: &[u8; 64],
    share: Share,
    gate: &LoadGate,
)
    requires { IsEndOf broker.now end.old }
    ensures end { IsEndOf broker.now end.new }
    ensures queue { end.new.queue ≡ end.old.queue }
    ensures only { PublishesOnly (words_of bytes.now) share.packets end.old.pass end.new.pass }
{
    let mut tries_left = 0;
    for before in 0..share.packets {
        if before == 0 || share.are_renewed {
            tries_left = share.tries;
        }
        if !publish_one(broker, end, bytes, gate, &mut tries_left) {
            return;
        }
    }
}

// What is planned of the queue of a number, if it is one of the plan.
fn planned_of(plan: &[PlannedQueue], queue: QueueId) -> Option<PlannedQueue>
    ensures { result ≡ planned_at plan.now queue.0 }
{
    let before = (queue.0 as usize).checked_sub(1)?;
    plan.get(before).copied()
}

/// Publishes a producer's packets on the queue of its end, until it gives up, or its gate is stopped: none but those that add
/// 1 in the region that is planned for the queue, and at most so many. Its queue's doorbell rings then, as for each packet.
pub fn produce<B: Room>(
    broker: &Broker<B>,
    plan: &[PlannedQueue],
    share: Share,
    gate: &LoadGate,
    end: &mut ClientEnd,
)
    requires { IsEndOf broker.now end.old }
    ensures stays { StaysOf broker.now end.old end.new }
    ensures published { PublishesPlanned (planned_at plan.now end.old.queue.0) share.packets end.old end.new }
{
    let queue = end.queue();
    if let Some(planned) = planned_of(plan, queue) {
        gate.begin_producer(queue);
        publish_all(broker, end, &addition(planned.region), share, gate);
        gate.end_producer(queue);
        ring(broker, queue);
    }
}
