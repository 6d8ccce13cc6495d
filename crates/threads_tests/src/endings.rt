//! How brokers settle.

ghost use Rattle.std.specs.Prelude.{◌≡◌, IfSome};
ghost use Rattle.client_threads.specs.Running.{IsEndOf};
ghost use Rattle.client_threads.specs.Sections.{Follows};
ghost use Rattle.threads_load.specs.Stages.{IsStage};

use crate::stages::{
    packet, publish_last, run_with, settle, split_last_end, stage, unnamed, with_end,
};
use access_core::AccessCore;
use aql_packet::{AgentHandle, ClientId, PacketId, QueueId, RegionHandle};
use client_threads::{
    Broker, ClientEnd, Gate, LaneAnswer, Room, SettleAllFault, SettledParts, SettledQueue,
    Settlement, UnnamedBroker, settle_all,
};
use std::alloc::Global;
use std::marker::Brand;
use std::sync::Wait;
use std::thread::Threads;
use threads_load::{LoadGate, PlannedQueue, Share, Stage, produce};

/// The plan of the first queue.
const FIRST_PLANNED: [PlannedQueue; 1] = [PlannedQueue {
    client: ClientId(1),
    agent: AgentHandle(1),
    region: RegionHandle(2),
}];

/// Four packets more than a queue has slots, and three tries.
const TOO_MANY: Share = Share {
    packets: 20,
    tries: 3,
    are_renewed: false,
};

/// Ends each lane behind so many turns.
#[derive(Drop)]
struct FewTurns(u64);

impl Gate for FewTurns {
    fn enter(&self, _lane: u32, turn: u64) -> bool {
        turn <= self.0
    }

    fn leave(&self, _lane: u32, _turn: u64, _done: LaneAnswer) {}
}

// The indices of a queue's settled ring.
fn indices(rings: &[SettledQueue]) -> Option<(u64, u64)> {
    let first = rings.first()?;
    Some((first.ring.write_index, first.ring.read_index))
}

// The indices of the first queue, if the broker settles.
fn settled_indices<B: Room>(alloc: Global, stage: Stage<B>) -> Option<(u64, u64)>
    requires { IsStage B.board stage }
{
    match settle(alloc, stage, &[])? {
        Settlement::Settled { rings, .. } => indices(rings.as_slice()),
        _ => None,
    }
}

// How many packets of the first lane are in flight.
fn in_flight<B: Room>(stage: &Stage<B>) -> usize {
    match stage.lanes.first() {
        Some(lane) => lane.pending().len(),
        None => 0,
    }
}

// A lane of eight published packets ends behind its third turn: three are served, one of them is finished.
fn named_ended_early<B: Room + Send + Sync, R: Threads + Wait + Sync>(
    rt: &R,
    alloc: Global,
    unnamed: UnnamedBroker,
) -> Option<(usize, (u64, u64))>
    requires { (unnamed.board ≡ B.board) × (unnamed.core ≡ B.opened) }
{
    let stage = publish_last(stage::<B>(alloc, unnamed, 1, 1)?, 8)?;
    let stage = run_with(rt, alloc, stage, &FewTurns(3));
    let flying = in_flight(&stage);
    Some((flying, settled_indices(alloc, stage)?))
}

// The same, of a broker that is opened for it.
fn ended_early<R: Threads + Wait + Sync>(rt: &R, alloc: Global) -> Option<(usize, (u64, u64))> {
    named_ended_early::<Brand, R>(rt, alloc, unnamed(alloc)?)
}

// Publishes more packets of an end than its queue has slots.
fn produce_too_many<B: Room>(broker: &Broker<B>, gate: &LoadGate, end: &mut ClientEnd)
    requires { IsEndOf broker.now end.old }
    ensures { IsEndOf broker.now end.new }
{
    produce(broker, &FIRST_PLANNED, TOO_MANY, gate, end);
}

// Publishes more packets of the last end of a stage than its queue has slots.
fn with_too_many<B: Room>(stage: Stage<B>, gate: &LoadGate) -> Option<Stage<B>>
    requires { IsStage B.board stage }
    ensures { IfSome result (IsStage B.board) }
{
    let (stage, end) = split_last_end(stage)?;
    let mut end = end;
    produce_too_many(&stage.broker, gate, &mut end);
    with_end(stage, end)
}

// What a producer leaves that gives up: all 16 slots are taken, and the id of the 17th packet is reserved.
fn named_given_up<B: Room>(alloc: Global, unnamed: UnnamedBroker) -> Option<(u64, u64)>
    requires { (unnamed.board ≡ B.board) × (unnamed.core ≡ B.opened) }
{
    let gate = LoadGate::new(alloc, 1, 20).ok()?;
    let stage = with_too_many(stage::<B>(alloc, unnamed, 1, 1)?, &gate)?;
    settled_indices(alloc, stage)
}

// The same, of a broker that is opened for it.
fn given_up(alloc: Global) -> Option<(u64, u64)> {
    named_given_up::<Brand>(alloc, unnamed(alloc)?)
}

// Hands a packet over that no lane served.
#[tactic(auto, using(client_threads::proofs::Turning::call_appends, client_threads::proofs::Sections::appends_follow))]
fn take_alone(alloc: Global, core: &mut AccessCore) -> bool
    ensures { Follows core.old.history core.new.history }
{
    core.take(alloc, QueueId(2), PacketId(0), &packet(0, 0))
        .is_ok()
}

// Hands it over in a section of the core.
fn take_in<B: Room>(alloc: Global, stage: &mut Stage<B>) -> bool
    requires { IsStage B.board stage.old }
    ensures { IsStage B.board stage.new }
{
    let Stage { broker, front, .. } = stage;
    broker.with_core_alone(front, |core| take_alone(alloc, core))
}

// Where a broker differs whose core took a packet that no lane served.
fn named_taken_alone<B: Room>(alloc: Global, unnamed: UnnamedBroker) -> Option<(QueueId, PacketId)>
    requires { (unnamed.board ≡ B.board) × (unnamed.core ≡ B.opened) }
{
    let mut stage = stage::<B>(alloc, unnamed, 3, 1)?;
    if !take_in(alloc, &mut stage) {
        return None;
    }
    match settle(alloc, stage, &[])? {
        Settlement::Mismatch { queue, id, .. } => Some((queue, id)),
        _ => None,
    }
}

// The same, of a broker that is opened for it.
fn taken_alone(alloc: Global) -> Option<(QueueId, PacketId)> {
    named_taken_alone::<Brand>(alloc, unnamed(alloc)?)
}

// Why a stage is not settled, and the stage, which comes back.
fn unsettled<B: Room>(alloc: Global, stage: Stage<B>) -> Option<(SettleAllFault, Stage<B>)>
    requires { IsStage B.board stage }
    ensures stage { IfSome result (λ back. IsStage B.board back.1) }
    ensures broker { IfSome result (λ back. back.1.broker ≡ stage.broker) }
{
    let Stage {
        broker,
        front,
        ends,
        lanes,
    } = stage;
    match settle_all(
        alloc,
        broker,
        front,
        &SettledParts::none(),
        &[],
        ends,
        lanes,
    ) {
        Err(back) => Some((
            back.fault,
            Stage {
                broker: back.broker.again(),
                front: back.front,
                ends: back.ends,
                lanes: back.lanes,
            },
        )),
        Ok(_) => None,
    }
}

// Whether all comes back where an end of a stage is missing, and it settles once that is there.
fn settles_with_its_last<B: Room>(alloc: Global, stage: Stage<B>) -> Option<bool>
    requires { IsStage B.board stage }
{
    let (stage, last) = split_last_end(stage)?;
    let (fault, stage) = unsettled(alloc, stage)?;
    settled_indices(alloc, with_end(stage, last)?)?;
    Some(fault == SettleAllFault::MissingPass)
}

// Whether it does on a queue of two producers.
fn named_settles_at_last<B: Room>(alloc: Global, unnamed: UnnamedBroker) -> Option<bool>
    requires { (unnamed.board ≡ B.board) × (unnamed.core ≡ B.opened) }
{
    settles_with_its_last(alloc, stage::<B>(alloc, unnamed, 1, 2)?)
}

// The same, of a broker that is opened for it.
fn settles_at_last(alloc: Global) -> Option<bool> {
    named_settles_at_last::<Brand>(alloc, unnamed(alloc)?)
}

// Why a broker is not settled with a front that has one share alone, if it isn't.
#[tactic(auto, using(threads_load::proofs::Shares::some_share))]
fn fault_of_one_share<B: Room>(alloc: Global, stage: Stage<B>) -> Option<SettleAllFault>
    requires { IsStage B.board stage }
{
    let Stage {
        broker,
        front,
        ends,
        lanes,
    } = stage;
    let mut whole = front;
    let front = broker.again(&mut whole);
    match settle_all(
        alloc,
        broker,
        front,
        &SettledParts::none(),
        &[],
        ends,
        lanes,
    ) {
        Err(back) => Some(back.fault),
        Ok(_) => None,
    }
}

// The same, of a broker that gets its name.
fn named_fault<B: Room>(alloc: Global, unnamed: UnnamedBroker) -> Option<SettleAllFault>
    requires { (unnamed.board ≡ B.board) × (unnamed.core ≡ B.opened) }
{
    fault_of_one_share(alloc, stage::<B>(alloc, unnamed, 1, 1)?)
}

// The same, of a broker that is opened for it.
fn fault(alloc: Global) -> Option<SettleAllFault> {
    named_fault::<Brand>(alloc, unnamed(alloc)?)
}

#[test]
fn a_missing_front_is_told(rt: HostRuntime) {
    assert!(rt; fault(rt.alloc()) == Some(SettleAllFault::MissingFront));
}

#[test]
fn a_lane_ends_while_packets_are_in_flight(rt: HostRuntime) {
    assert!(rt; ended_early(&rt, rt.alloc()) == Some((2, (8, 3))));
}

#[test]
fn a_producer_gives_up_whose_slot_stays_busy(rt: HostRuntime) {
    assert!(rt; given_up(rt.alloc()) == Some((17, 0)));
}

#[test]
fn the_least_place_is_told_at_which_core_and_lanes_differ(rt: HostRuntime) {
    assert!(rt; taken_alone(rt.alloc()) == Some((QueueId(2), PacketId(0))));
}

#[test]
fn a_missing_pass_is_told_and_all_comes_back(rt: HostRuntime) {
    assert!(rt; settles_at_last(rt.alloc()) == Some(true));
}
