//! Sixteen producers on four queues, and 100,000 packets, which are handed out as one part.

ghost use Rattle.std.specs.Prelude.{◌≡◌, ◌<◌, List, All, length};
ghost use Rattle.std.specs.Thread.{IsSend, IsSync};
ghost use Rattle.core_model.specs.History.{Part};
ghost use Rattle.client_threads.specs.HandedOver.{AreSettledWith};
ghost use Rattle.client_threads.specs.Running.{IsEndOf, IsLaneOf};
ghost use Rattle.threads_load.specs.Stages.{EachStaysOf, IsStage, KeepShares};

use crate::stages::{packet, settle, stage, unnamed};
use crate::waking::{EACH, PRODUCERS, WakingGate, publish_turns};
use aql_packet::PacketId;
use client_threads::{Broker, ClientEnd, Lane, Room, Served, Settlement, UnnamedBroker, run_lanes};
use core_model::{Part, Refusal};
use std::alloc::Global;
use std::marker::Brand;
use std::sync::Wait;
use std::thread;
use std::thread::Threads;
use threads_load::Stage;

// Each producer publishes its packets, on a thread of its own.
fn publish_from_threads<B: Room + Send + Sync, R: Threads + Wait + Sync>(
    rt: &R,
    broker: &Broker<B>,
    gate: &WakingGate,
    ends: &mut [ClientEnd],
)
    requires { All (λ end. IsEndOf broker.now end) ends.old }
    ensures { EachStaysOf broker.now ends.old ends.new }
{
    thread::for_each_mut(
        rt,
        ends,
        16,
        &|producer, end| publish_turns(rt, broker, gate, producer, end),
    );
}

// Any number of producers publish.
fn publish_from_any<B: Room + Send + Sync, R: Threads + Wait + Sync>(
    rt: &R,
    broker: &Broker<B>,
    gate: &WakingGate,
    ends: Vec<ClientEnd>,
) -> Vec<ClientEnd>
    requires { All (λ end. IsEndOf broker.now end) ends.items }
    ensures count { length result.items ≡ length ends.items }
    ensures each { EachStaysOf broker.now ends.items result.items }
{
    let mut ends = ends;
    publish_from_threads(rt, broker, gate, ends.as_mut_slice());
    ends
}

// All producers publish.
fn publish_from_all<B: Room + Send + Sync, R: Threads + Wait + Sync>(
    rt: &R,
    broker: &Broker<B>,
    gate: &WakingGate,
    ends: Vec<ClientEnd>,
) -> Vec<ClientEnd>
    requires { All (λ end. IsEndOf broker.now end) ends.items }
    ensures { All (λ end. IsEndOf broker.now end) result.items }
{
    publish_from_any(rt, broker, gate, ends)
}

// Lanes run.
#[tactic(auto, using(threads_load::proofs::Shares::ran_keep))]
fn run_all<B: Room + Send + Sync, R: Threads + Wait + Sync>(
    rt: &R,
    alloc: Global,
    broker: &Broker<B>,
    gate: &WakingGate,
    lanes: Vec<Lane>,
) -> Vec<Lane>
    requires { All (λ lane. IsLaneOf B.board broker.now lane) lanes.items }
    ensures lanes { All (λ lane. IsLaneOf B.board broker.now lane) result.items }
    ensures settled { (parts : List Part) → AreSettledWith parts lanes.items → AreSettledWith parts result.items }
    ensures shares { KeepShares lanes.items result.items }
{
    run_lanes(rt, alloc, broker, lanes, gate)
}

// Producers and lanes run at once.
fn run_both<B: Room + Send + Sync, R: Threads + Wait + Sync>(
    rt: &R,
    alloc: Global,
    broker: &Broker<B>,
    gate: &WakingGate,
    ends: Vec<ClientEnd>,
    lanes: Vec<Lane>,
) -> (Vec<ClientEnd>, Vec<Lane>)
    requires ends { All (λ end. IsEndOf broker.now end) ends.items }
    requires lanes { All (λ lane. IsLaneOf B.board broker.now lane) lanes.items }
    ensures ends { All (λ end. IsEndOf broker.now end) result.0.items }
    ensures lanes { All (λ lane. IsLaneOf B.board broker.now lane) result.1.items }
    ensures settled { (parts : List Part) → AreSettledWith parts lanes.items → AreSettledWith parts result.1.items }
    ensures shares { KeepShares lanes.items result.1.items }
{
    thread::join(
        rt,
        move || -> Vec<ClientEnd>
            requires { IsSend B.row × IsSync B.row × IsSync R.row × All (λ end. IsEndOf broker.now end) ends.items }
            ensures { All (λ end. IsEndOf broker.entry.now end) result.items }
        { publish_from_all(rt, broker, gate, ends) },
        move || -> Vec<Lane>
            requires { IsSend B.row × IsSync B.row × IsSync R.row × All (λ lane. IsLaneOf B.board broker.now lane) lanes.items }
            ensures { All (λ lane. IsLaneOf B.board broker.entry.now lane) result.items × ((parts : List Part) → AreSettledWith parts lanes.items → AreSettledWith parts result.items) × KeepShares lanes.items result.items }
        { run_all(rt, alloc, broker, gate, lanes) },
    )
}

// Runs the producers and the lanes of a stage.
fn run_many<B: Room + Send + Sync, R: Threads + Wait + Sync>(
    rt: &R,
    alloc: Global,
    stage: Stage<B>,
    gate: &WakingGate,
) -> Stage<B>
    requires { IsStage B.board stage }
    ensures { IsStage B.board result }
{
    let Stage {
        broker,
        front,
        ends,
        lanes,
    } = stage;
    let (ends, lanes) = run_both(rt, alloc, &broker, gate, ends, lanes);
    Stage {
        broker,
        front,
        ends,
        lanes,
    }
}

/// How many packets of each producer have come.
#[derive(Drop)]
struct Turns {
    next: [u64; 16],
}

impl Turns {
    // Whether a packet is whole and the next of its producer. It has come then.
    fn accepts(&mut self, bytes: &[u8; 64]) -> bool {
        let producer = usize::from(bytes[32] % 16);
        let turn = self.next[producer];
        self.next[producer] = turn.wrapping_add(1);
        *bytes == packet(producer as u64, turn)
    }

    // Whether all packets of all producers have come.
    fn is_whole(&self) -> bool {
        self.next == [EACH; 16]
    }
}

// Whether a lane's packets stand under their ids, each whole and the next of its producer.
fn is_in_order(served: &[Served], turns: &mut Turns) -> bool {
    for (index, one) in served.iter().enumerate() {
        if one.id != PacketId(index as u64) || !turns.accepts(&one.bytes) {
            return false;
        }
    }
    true
}

// Whether the packets of all lanes do, and are all.
fn are_whole(lanes: &[Lane]) -> bool {
    let mut turns = Turns { next: [0; 16] };
    for lane in lanes {
        if !is_in_order(lane.served(), &mut turns) {
            return false;
        }
    }
    turns.is_whole()
}

// Rotates the audit of a stage.
#[tactic(auto, using(threads_load::proofs::Handing::rotation_follows))]
fn rotate_in<B: Room>(alloc: Global, stage: &mut Stage<B>) -> Result<Part, Refusal>
    requires { IsStage B.board stage.old }
    ensures { IsStage B.board stage.new }
{
    let Stage { broker, front, .. } = stage;
    broker.with_core_alone(front, |core| core.rotate(alloc))
}

// Whether each of 100,000 packets came once, whole and in its producer's order, and how many entries were handed out
// then, if the broker settles with these.
fn named_run_packets<B: Room + Send + Sync, R: Threads + Wait + Sync>(
    rt: &R,
    alloc: Global,
    unnamed: UnnamedBroker,
) -> Option<(bool, usize)>
    requires { (unnamed.board ≡ B.board) × (unnamed.core ≡ B.opened) }
{
    let stage = stage::<B>(alloc, unnamed, 4, PRODUCERS as u64)?;
    let gate = WakingGate::new(alloc, 4).ok()?;
    let mut stage = run_many(rt, alloc, stage, &gate);
    let is_whole = are_whole(stage.lanes.as_slice());
    let part = rotate_in(alloc, &mut stage).ok()?;
    let handed_out = part.entries().len();
    let parts = [part];
    match settle(alloc, stage, &parts)? {
        Settlement::Settled { .. } => Some((is_whole, handed_out)),
        _ => None,
    }
}

// The same, of a broker that is opened for it.
fn run_packets<R: Threads + Wait + Sync>(rt: &R, alloc: Global) -> Option<(bool, usize)> {
    named_run_packets::<Brand, R>(rt, alloc, unnamed(alloc)?)
}

// Six grants, four openings, and of each packet a launch, a run and a completion.
#[test]
fn a_hundred_thousand_packets_come_once_and_whole(rt: HostRuntime) {
    assert!(rt; run_packets(&rt, rt.alloc()) == Some((true, 300_010)));
}
