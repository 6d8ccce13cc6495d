//! Producers and lanes run, each on a thread of its own.

ghost use Rattle.std.specs.Prelude.{◌≡◌, ◌↔◌, ◌<◌, ℕ, [], ◌∷◌, ◌++◌, List, All, IfErr, IfOk, None, Ok, OnOk, length, option_to_list, true};
ghost use Rattle.std.specs.Thread.{IsSend, IsSync};
ghost use mathlib.Core.List.{IsPrefix};
ghost use Rattle.atomic_table.specs.Seated.{TableId};
ghost use Rattle.client_threads.specs.HandedOver.{AreSettledWith};
ghost use Rattle.client_threads.specs.Rings.{QueueRing};
ghost use Rattle.client_threads.specs.Running.{EachGoesOn, IsEndOf, IsLaneOf};
ghost use Rattle.client_threads.specs.Sections.{IsSection};
ghost use Rattle.core_model.specs.Legal.{IsLegalPart};
ghost use Rattle.core_model.specs.History.{Part};
ghost use Rattle.core_model.specs.Rotation.{Rotates, entries_in};
ghost use Rattle.core_model.specs.declared.entry.Entry.{Entry};
ghost use Rattle.threads_load.specs.Counts.{AreCounts};
ghost use Rattle.threads_load.specs.Publications.{EachProduces, IsPlannedEnd, IsUnused};
ghost use Rattle.threads_load.specs.Rounds.{IsHandedOut, parts_of};
ghost use Rattle.threads_load.specs.Stages.{AreOf, IsReady, IsStage, IsStageWith, KeepShares};
ghost use Rattle.threads_load.specs.declared.plan.PlannedQueue.{PlannedQueue};

use crate::bells::BellGate;
use crate::counting::{PacketCounts, count_on};
use crate::fault::LoadFault;
use crate::gate::LoadGate;
use crate::limits::MOST_TRIES;
use crate::opening::Stage;
use crate::plan::PlannedQueue;
use crate::producing::{Share, produce};
use crate::watch::Watch;
use client_threads::{Broker, ClientEnd, Front, Lane, Room, SettledParts, run_lanes};
use core_model::{Part, Refusal};
use std::alloc::Global;
use std::sync::Wait;
use std::thread;
use std::thread::Threads;

/// What was handed out of an audit while lanes ran, a part between two rounds.
#[derive(Drop)]
pub struct HandedOut {
    /// The parts that were settled as they came.
    pub settled: SettledParts,
    /// The part behind them, if it has something else than the lanes served.
    pub left: Option<Part>,
    /// What all of them tell of the packets of each queue.
    pub counts: Vec<PacketCounts>,
}

impl HandedOut {
    // The part that was not settled, if there is one.
    pub(crate) fn left(&self) -> &[Part]
        ensures { result.now ≡ option_to_list self.now.left }
    {
        self.left.as_slice()
    }
}

// Producers publish, each on a thread of its own.
fn produce_each<B: Room + Send + Sync, R: Threads + Sync>(
    rt: &R,
    broker: &Broker<B>,
    plan: &[PlannedQueue],
    share: Share,
    gate: &LoadGate,
    ends: &mut [ClientEnd],
)
    requires some { 0 < length ends.old }
    requires ends { All (λ end. IsEndOf broker.now end) ends.old }
    ensures { EachProduces broker.now plan.now share.packets ends.old ends.new }
{
    let threads = ends.len();
    thread::for_each_mut(
        rt,
        ends,
        threads,
        &|_, end| produce(broker, plan, share, gate, end),
    );
}

// Any number of producers do.
fn produce_any<B: Room + Send + Sync, R: Threads + Sync>(
    rt: &R,
    broker: &Broker<B>,
    plan: &[PlannedQueue],
    share: Share,
    gate: &LoadGate,
    ends: Vec<ClientEnd>,
) -> Vec<ClientEnd>
    requires { All (λ end. IsEndOf broker.now end) ends.items }
    ensures count { length result.items ≡ length ends.items }
    ensures each { EachProduces broker.now plan.now share.packets ends.items result.items }
{
    let mut ends = ends;
    if ends.len() > 0 {
        produce_each(rt, broker, plan, share, gate, ends.as_mut_slice());
    }
    ends
}

// All producers do.
fn produce_all<B: Room + Send + Sync, R: Threads + Sync>(
    rt: &R,
    broker: &Broker<B>,
    plan: &[PlannedQueue],
    share: Share,
    gate: &LoadGate,
    ends: Vec<ClientEnd>,
) -> Vec<ClientEnd>
    requires { All (λ end. IsEndOf broker.now end) ends.items }
    ensures ends { All (λ end. IsEndOf broker.now end) result.items }
    ensures planned { All IsUnused ends.items → All (IsPlannedEnd plan.now share.packets) result.items }
{
    produce_any(rt, broker, plan, share, gate, ends)
}

// Lanes run. Each stays that of its queue.
#[tactic(auto, using(crate::proofs::Planned::lanes_stay, crate::proofs::Shares::ran_keep))]
fn run_all<B: Room + Send + Sync, R: Threads + Wait + Sync>(
    rt: &R,
    alloc: Global,
    broker: &Broker<B>,
    lanes: Vec<Lane>,
    gate: &LoadGate,
) -> Vec<Lane>
    requires { All (λ lane. IsLaneOf B.board broker.now lane) lanes.items }
    ensures lanes { All (λ lane. IsLaneOf B.board broker.now lane) result.items }
    ensures queues { (queues : ℕ) → AreOf queues lanes.items → AreOf queues result.items }
    ensures settled { (parts : List Part) → AreSettledWith parts lanes.items → AreSettledWith parts result.items }
    ensures shares { KeepShares lanes.items result.items }
{
    let bells = BellGate { rt, broker, gate };
    run_lanes(rt, alloc, broker, lanes, &bells)
}

// Producers and lanes run at once.
fn run_both<B: Room + Send + Sync, R: Threads + Wait + Sync>(
    rt: &R,
    alloc: Global,
    broker: &Broker<B>,
    plan: &[PlannedQueue],
    share: Share,
    gate: &LoadGate,
    ends: Vec<ClientEnd>,
    lanes: Vec<Lane>,
) -> (Vec<ClientEnd>, Vec<Lane>)
    requires ends { All (λ end. IsEndOf broker.now end) ends.items }
    requires lanes { All (λ lane. IsLaneOf B.board broker.now lane) lanes.items }
    ensures ends { All (λ end. IsEndOf broker.now end) result.0.items }
    ensures lanes { All (λ lane. IsLaneOf B.board broker.now lane) result.1.items }
    ensures settled { (parts : List Part) → AreSettledWith parts lanes.items → AreSettledWith parts result.1.items }
    ensures shares { KeepShares lanes.items result.1.items }
{
    thread::join(
        rt,
        move || -> Vec<ClientEnd>
            requires { IsSend B.row × IsSync B.row × IsSync R.row × All (λ end. IsEndOf broker.now end) ends.items }
            ensures { All (λ end. IsEndOf broker.entry.now end) result.items }
        { produce_all(rt, broker, plan, share, gate, ends) },
        move || -> Vec<Lane>
            requires { IsSend B.row × IsSync B.row × IsSync R.row × All (λ lane. IsLaneOf B.board broker.now lane) lanes.items }
            ensures { All (λ lane. IsLaneOf B.board broker.entry.now lane) result.items × ((parts : List Part) → AreSettledWith parts lanes.items → AreSettledWith parts result.items) × KeepShares lanes.items result.items }
        { run_all(rt, alloc, broker, lanes, gate) },
    )
}

// Hands out what the audit of a broker's core tells so far.
#[tactic(auto, using(crate::proofs::Handing::rotation_follows))]
fn rotate<B: Room, R: Wait>(
    rt: &R,
    alloc: Global,
    broker: &Broker<B>,
    front: &mut Front,
) -> Result<Part, Refusal>
    requires { front.old.board ≡ B.board }
    ensures front { front.new.board ≡ B.board }
    ensures section { IsSection B.opened front.old front.new (λ before after.
        Rotates before.history result after.history × IfOk result (λ part. IsLegalPart before.history.kernels part)) }
{
    broker.with_core(rt, front, |core| core.rotate(alloc))
}

// Hands out the next part. It is a legal one.
#[tactic(auto, using(crate::proofs::Handing::handed_legal, crate::proofs::Planned::section_begins, crate::proofs::Shares::section_share))]
fn rotate_next<B: Room, R: Wait>(
    rt: &R,
    alloc: Global,
    broker: &Broker<B>,
    front: &mut Front,
) -> Result<Part, Refusal>
    requires { front.old.board ≡ B.board }
    ensures front { front.new.board ≡ B.board }
    ensures begins { IsPrefix front.old.left front.new.left }
    ensures share { front.new.share ≡ front.old.share }
    ensures part { IfOk result (IsLegalPart B.opened.history.kernels) }
{
    rotate(rt, alloc, broker, front)
}

// Shows a part, and counts what it tells.
fn show_and_count<W: Watch>(
    part: &Part,
    counts: &mut Vec<PacketCounts>,
    watch: &mut W,
) -> Result<(), LoadFault>
    ensures { (before : List Entry) (queues : ℕ) → AreCounts before queues counts.old.items → OnOk result (AreCounts (before ++ part.now.entries) queues counts.new.items) }
{
    watch.take(part.entries())?;
    match count_on(counts, part.entries()) {
        Ok(()) => Ok(()),
        Err(want) => Err(LoadFault::from(want)),
    }
}

// Settles a part with what the lanes hand over. One that doesn't settle comes back.
fn settle_part(part: Part, settled: &mut SettledParts, lanes: &mut Vec<Lane>) -> Option<Part>
    requires { AreSettledWith settled.old lanes.old.items }
    ensures settled { AreSettledWith settled.new lanes.new.items }
    ensures parts { settled.new ++ option_to_list result ≡ settled.old ++ part ∷ [] }
    ensures of { (board : TableId) (rings : List QueueRing) → All (λ lane. IsLaneOf board rings lane) lanes.old.items → All (λ lane. IsLaneOf board rings lane) lanes.new.items }
    ensures queues { (queues : ℕ) → AreOf queues lanes.old.items → AreOf queues lanes.new.items }
    ensures shares { KeepShares lanes.old.items lanes.new.items }
{
    match settled.settle(part, lanes) {
        Ok(()) => None,
        Err(unsettled) => Some(unsettled.part),
    }
}

// Shows a part, counts what it tells, and settles it with what the lanes hand over. One that doesn't settle comes back.
fn take_part<B: Room, W: Watch>(
    part: Part,
    lanes: &mut Vec<Lane>,
    settled: &mut SettledParts,
    counts: &mut Vec<PacketCounts>,
    watch: &mut W,
) -> Result<Option<Part>, LoadFault>
    requires part { IsLegalPart B.opened.history.kernels part }
    requires settled { AreSettledWith settled.old lanes.old.items }
    requires parts { All (IsLegalPart B.opened.history.kernels) settled.old }
    ensures of { (board : TableId) (rings : List QueueRing) → All (λ lane. IsLaneOf board rings lane) lanes.old.items → All (λ lane. IsLaneOf board rings lane) lanes.new.items }
    ensures queues { (queues : ℕ) → AreOf queues lanes.old.items → AreOf queues lanes.new.items }
    ensures shares { KeepShares lanes.old.items lanes.new.items }
    ensures settled { AreSettledWith settled.new lanes.new.items }
    ensures parts { All (IsLegalPart B.opened.history.kernels) settled.new }
    ensures left { IfOk result (λ left. All (IsLegalPart B.opened.history.kernels) (settled.new ++ option_to_list left)) }
    ensures counts { (queues : ℕ) → AreCounts (entries_in settled.old) queues counts.old.items
        → IfOk result (λ left. AreCounts (entries_in (settled.new ++ option_to_list left)) queues counts.new.items) }
{
    match show_and_count(&part, counts, watch) {
        Ok(()) => Ok(settle_part(part, settled, lanes)),
        Err(why) => Err(why),
    }
}

// Hands out the next part, and takes it.
fn hand_out<B: Room, R: Wait, W: Watch>(
    rt: &R,
    alloc: Global,
    broker: &Broker<B>,
    front: &mut Front,
    lanes: &mut Vec<Lane>,
    settled: &mut SettledParts,
    counts: &mut Vec<PacketCounts>,
    watch: &mut W,
) -> Result<Option<Part>, LoadFault>
    requires front { front.old.board ≡ B.board }
    requires lanes { All (λ lane. IsLaneOf B.board broker.now lane) lanes.old.items }
    requires settled { AreSettledWith settled.old lanes.old.items }
    requires parts { All (IsLegalPart B.opened.history.kernels) settled.old }
    ensures front { front.new.board ≡ B.board }
    ensures begins { IsPrefix front.old.left front.new.left }
    ensures share { front.new.share ≡ front.old.share }
    ensures lanes { All (λ lane. IsLaneOf B.board broker.now lane) lanes.new.items }
    ensures queues { (queues : ℕ) → AreOf queues lanes.old.items → AreOf queues lanes.new.items }
    ensures shares { KeepShares lanes.old.items lanes.new.items }
    ensures settled { AreSettledWith settled.new lanes.new.items }
    ensures parts { All (IsLegalPart B.opened.history.kernels) settled.new }
    ensures left { IfOk result (λ left. All (IsLegalPart B.opened.history.kernels) (settled.new ++ option_to_list left)) }
    ensures counts { (queues : ℕ) → AreCounts (entries_in settled.old) queues counts.old.items
        → IfOk result (λ left. AreCounts (entries_in (settled.new ++ option_to_list left)) queues counts.new.items) }
{
    match rotate_next(rt, alloc, broker, front) {
        Ok(part) => take_part::<B, W>(part, lanes, settled, counts, watch),
        Err(why) => Err(LoadFault::from(why)),
    }
}

// Whether a part was handed out and settled, so that the next round may begin.
fn goes_on(handed_out: &Result<Option<Part>, LoadFault>) -> bool
    ensures { result ≡ true → handed_out.now ≡ Ok None }
{
    match handed_out {
        Ok(None) => true,
        _ => false,
    }
}

// Runs lanes round after round, until their gate says that the load is over. Between two rounds it hands out a part. One
// that doesn't settle ends the rounds, and comes back.
fn run_rounds<B: Room + Send + Sync, R: Threads + Wait + Sync, W: Watch>(
    rt: &R,
    alloc: Global,
    broker: &Broker<B>,
    front: &mut Front,
    lanes: Vec<Lane>,
    settled: &mut SettledParts,
    counts: &mut Vec<PacketCounts>,
    gate: &LoadGate,
    watch: &mut W,
) -> (Vec<Lane>, Result<Option<Part>, LoadFault>)
    requires front { front.old.board ≡ B.board }
    requires lanes { All (λ lane. IsLaneOf B.board broker.now lane) lanes.items }
    requires settled { AreSettledWith settled.old lanes.items }
    requires parts { All (IsLegalPart B.opened.history.kernels) settled.old }
    ensures front { front.new.board ≡ B.board }
    ensures begins { IsPrefix front.old.left front.new.left }
    ensures share { front.new.share ≡ front.old.share }
    ensures lanes { All (λ lane. IsLaneOf B.board broker.now lane) result.0.items }
    ensures queues { (queues : ℕ) → AreOf queues lanes.items → AreOf queues result.0.items }
    ensures shares { KeepShares lanes.items result.0.items }
    ensures settled { AreSettledWith settled.new result.0.items }
    ensures parts { All (IsLegalPart B.opened.history.kernels) settled.new }
    ensures left { IfOk result.1 (λ left. All (IsLegalPart B.opened.history.kernels) (settled.new ++ option_to_list left)) }
    ensures counts { (queues : ℕ) → AreCounts (entries_in settled.old) queues counts.old.items
        → IfOk result.1 (λ left. AreCounts (entries_in (settled.new ++ option_to_list left)) queues counts.new.items) }
{
    let mut lanes = lanes;
    gate.begin_rounds();
    for _round in 0..u64::MAX {
        lanes = run_all(rt, alloc, broker, lanes, gate);
        watch.see(gate.finished(), gate.wanted());
        if !gate.begin_next() {
            return (lanes, Ok(None));
        }
        let handed_out = hand_out(rt, alloc, broker, front, &mut lanes, settled, counts, watch);
        if !goes_on(&handed_out) {
            return (lanes, handed_out);
        }
    }
    (lanes, Ok(None))
}

// What was handed out in rounds, and whether all went well. Where a part was not to be had, or didn't settle, the
// producers are to give up.
fn end_rounds(
    settled: SettledParts,
    counts: Vec<PacketCounts>,
    handed_out: Result<Option<Part>, LoadFault>,
    gate: &LoadGate,
) -> (HandedOut, Result<(), LoadFault>)
    ensures settled { result.0.settled ≡ settled }
    ensures counts { result.0.counts.items ≡ counts.items }
    ensures left { IfOk result.1 (λ _. handed_out ≡ Ok result.0.left) }
    ensures none { IfErr result.1 (λ _. result.0.left ≡ None) }
{
    if !goes_on(&handed_out) {
        gate.stop();
    }
    match handed_out {
        Ok(left) => {
            let out = HandedOut {
                settled,
                left,
                counts,
            };
            (out, Ok(()))
        }
        Err(why) => {
            let out = HandedOut {
                settled,
                left: None,
                counts,
            };
            (out, Err(why))
        }
    }
}

// Runs lanes in rounds, of whose audit nothing was handed out yet.
fn run_along<B: Room + Send + Sync, R: Threads + Wait + Sync, W: Watch>(
    rt: &R,
    alloc: Global,
    broker: &Broker<B>,
    front: Front,
    lanes: Vec<Lane>,
    counts: Vec<PacketCounts>,
    gate: &LoadGate,
    watch: &mut W,
) -> (Front, Vec<Lane>, HandedOut, Result<(), LoadFault>)
    requires front { front.board ≡ B.board }
    requires lanes { All (λ lane. IsLaneOf B.board broker.now lane) lanes.items }
    requires settled { AreSettledWith [] lanes.items }
    ensures front { (result.0.board ≡ B.board) × IsPrefix front.left result.0.left × (result.0.share ≡ front.share) }
    ensures lanes { All (λ lane. IsLaneOf B.board broker.now lane) result.1.items }
    ensures queues { (queues : ℕ) → AreOf queues lanes.items → AreOf queues result.1.items }
    ensures shares { KeepShares lanes.items result.1.items }
    ensures out { IsHandedOut B.opened.history.kernels result.1.items result.2 }
    ensures counts { (queues : ℕ) → AreCounts [] queues counts.items → IfOk result.3 (λ _. AreCounts (entries_in (parts_of result.2)) queues result.2.counts.items) }
{
    let mut front = front;
    let mut counts = counts;
    let mut settled = SettledParts::none();
    let (lanes, handed_out) = run_rounds(
        rt,
        alloc,
        broker,
        &mut front,
        lanes,
        &mut settled,
        &mut counts,
        gate,
        watch,
    );
    let (out, run) = end_rounds(settled, counts, handed_out, gate);
    (front, lanes, out, run)
}

// Producers run, and this thread runs the lanes in rounds meanwhile.
fn run_beside<B: Room + Send + Sync, R: Threads + Wait + Sync, W: Watch>(
    rt: &R,
    alloc: Global,
    broker: &Broker<B>,
    plan: &[PlannedQueue],
    share: Share,
    gate: &LoadGate,
    front: Front,
    ends: Vec<ClientEnd>,
    lanes: Vec<Lane>,
    counts: Vec<PacketCounts>,
    watch: &mut W,
) -> (
    Vec<ClientEnd>,
    (Front, Vec<Lane>, HandedOut, Result<(), LoadFault>),
)
    requires front { front.board ≡ B.board }
    requires ends { All (λ end. IsEndOf broker.now end) ends.items }
    requires lanes { All (λ lane. IsLaneOf B.board broker.now lane) lanes.items }
    requires settled { AreSettledWith [] lanes.items }
    ensures ends { All (λ end. IsEndOf broker.now end) result.0.items }
    ensures planned { All IsUnused ends.items → All (IsPlannedEnd plan.now share.packets) result.0.items }
    ensures front { (result.1.0.board ≡ B.board) × IsPrefix front.left result.1.0.left × (result.1.0.share ≡ front.share) }
    ensures lanes { All (λ lane. IsLaneOf B.board broker.now lane) result.1.1.items }
    ensures queues { (queues : ℕ) → AreOf queues lanes.items → AreOf queues result.1.1.items }
    ensures shares { KeepShares lanes.items result.1.1.items }
    ensures out { IsHandedOut B.opened.history.kernels result.1.1.items result.1.2 }
    ensures counts { (queues : ℕ) → AreCounts [] queues counts.items → IfOk result.1.3 (λ _. AreCounts (entries_in (parts_of result.1.2)) queues result.1.2.counts.items) }
{
    thread::join(
        rt,
        move || -> Vec<ClientEnd>
            requires { IsSend B.row × IsSync B.row × IsSync R.row × All (λ end. IsEndOf broker.now end) ends.items }
            ensures { All (λ end. IsEndOf broker.entry.now end) result.items × (All IsUnused ends.items → All (IsPlannedEnd plan.entry.now share.packets) result.items) }
        { produce_all(rt, broker, plan, share, gate, ends) },
        move || -> (Front, Vec<Lane>, HandedOut, Result<(), LoadFault>)
            requires { IsSend B.row × IsSync B.row × IsSync R.row × (front.board ≡ B.board) × All (λ lane. IsLaneOf B.board broker.now lane) lanes.items × AreSettledWith [] lanes.items }
            ensures { ((result.0.board ≡ B.board) × IsPrefix front.left result.0.left × (result.0.share ≡ front.share)) × All (λ lane. IsLaneOf B.board broker.entry.now lane) result.1.items
                × ((queues : ℕ) → AreOf queues lanes.items → AreOf queues result.1.items) × KeepShares lanes.items result.1.items × IsHandedOut B.opened.history.kernels result.1.items result.2
                × ((queues : ℕ) → AreCounts [] queues counts.items → IfOk result.3 (λ _. AreCounts (entries_in (parts_of result.2)) queues result.2.counts.items)) }
        { run_along(rt, alloc, broker, front, lanes, counts, gate, watch) },
    )
}

/// Runs the producers and the lanes of a broker, each on a thread of its own where one can be made, until all have
/// ended. Each producer publishes so many packets, and tries again 10,000,000 times at the most.
pub fn run_stage<B: Room + Send + Sync, R: Threads + Wait + Sync>(
    rt: &R,
    alloc: Global,
    stage: Stage<B>,
    plan: &[PlannedQueue],
    packets: u64,
    gate: &LoadGate,
) -> Stage<B>
    requires { IsStage B.board stage }
    ensures { IsStage B.board result }
{
    let Stage {
        broker,
        front,
        ends,
        lanes,
    } = stage;
    let share = Share {
        packets,
        tries: MOST_TRIES,
        are_renewed: false,
    };
    let (ends, lanes) = run_both(rt, alloc, &broker, plan, share, gate, ends, lanes);
    Stage {
        broker,
        front,
        ends,
        lanes,
    }
}

/// Runs them just so, while this thread hands out the audit in parts: when the first packet is finished, and then as the
/// audit fills, the lanes rest, and it is rotated. What it told is shown, counted, and settled with what the lanes hand
/// over, so that of each part and its packets nothing is kept but the last part. A part that doesn't settle ends the
/// lanes, and is left. All parts are legal, and tell in order what the audit told until the last rotation. Each lane
/// stays that of its queue. Where a part can't be had, or isn't taken, all lanes are ended. The counts are of no entry
/// yet.
#[tactic(auto, using(crate::proofs::Planned::ready_still))]
pub fn run_rotated<B: Room + Send + Sync, R: Threads + Wait + Sync, W: Watch>(
    rt: &R,
    alloc: Global,
    stage: Stage<B>,
    plan: &[PlannedQueue],
    share: Share,
    gate: &LoadGate,
    counts: Vec<PacketCounts>,
    watch: &mut W,
) -> (Stage<B>, HandedOut, Result<(), LoadFault>)
    requires { IsStage B.board stage }
    ensures stage { IsStageWith B.board result.1.settled result.0 }
    ensures rings { result.0.broker ≡ stage.broker }
    ensures planned { All IsUnused stage.ends.items → All (IsPlannedEnd plan.now share.packets) result.0.ends.items }
    ensures ready { (plan : List PlannedQueue) → IsReady plan stage → IsReady plan result.0 }
    ensures parts { All (IsLegalPart B.opened.history.kernels) (parts_of result.1) }
    ensures counts { (queues : ℕ) → AreCounts [] queues counts.items → IfOk result.2 (λ _. AreCounts (entries_in (parts_of result.1)) queues result.1.counts.items) }
{
    let Stage {
        broker,
        front,
        ends,
        lanes,
    } = stage;
    let (ends, (front, lanes, out, run)) = run_beside(
        rt, alloc, &broker, plan, share, gate, front, ends, lanes, counts, watch,
    );
    let stage = Stage {
        broker,
        front,
        ends,
        lanes,
    };
    (stage, out, run)
}
