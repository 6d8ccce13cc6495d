//! The load, from a policy to its report.

ghost use Rattle.std.specs.Prelude.{◌≡◌, ◌≢◌, ℕ, [], ◌++◌, All, IfErr, IfOk, List, Ok, OnOk, length, map, true};
ghost use Rattle.core_model.specs.History.{Part};
ghost use Rattle.core_model.specs.declared.entry.Entry.{Entry};
ghost use Rattle.core_model.specs.Legal.{IsLegalPart, IsOpening};
ghost use Rattle.core_model.specs.Rotation.{entries_in};
ghost use Rattle.access_core.specs.Cores.{Core};
ghost use Rattle.access_core.specs.Opening.{open_fault, program_of};
ghost use Rattle.client_threads.specs.Sections.{IsSection};
ghost use Rattle.client_threads.specs.Boards.{all_shares};
ghost use Rattle.client_threads.specs.Settling.{IsClosed, IsSettlement, core_of, has_all_passes};
ghost use Rattle.client_threads.specs.declared.settling.SettleAllFault.{SettleAllFault};
ghost use Rattle.threads_load.specs.Counts.{AreCounts};
ghost use Rattle.threads_load.specs.Faults.{IsToldFor, TellsOpening};
ghost use Rattle.threads_load.specs.Grantings.{HasAllAllowed};
ghost use Rattle.threads_load.specs.Loads.{EndsBy, EndsLoad, TellsLoad, TellsPlan, ending_if, parts_in, wanted_of};
ghost use Rattle.threads_load.specs.Limits.{load_packets, load_places};
ghost use Rattle.threads_load.specs.Publications.{IsPlannedEnd, IsUnused};
ghost use Rattle.threads_load.specs.Rounds.{parts_of};
ghost use Rattle.threads_load.specs.Stages.{IsLoadRing, IsReady, IsStage, IsStageWith, WasLeft};
ghost use Rattle.threads_load.specs.declared.plan.PlannedQueue.{PlannedQueue};

use crate::counting::{PacketCounts, are_finished, count_none, count_on};
use crate::fault::LoadFault;
use crate::gate::LoadGate;
use crate::granting::grant_all;
use crate::limits::{LoadLimits, LoadTerms, PACKETS};
use crate::looking::find_queues;
use crate::opening::{Stage, open_stage};
use crate::plan::{PlannedQueue, plan_load};
use crate::producing::Share;
use crate::report::{Ending, report_load};
use crate::running::{HandedOut, run_rotated};
use crate::watch::{Unwatched, Watch};
use access_core::{AccessCore, Kernel};
use client_threads::{
    Broker, Front, Room, SettleAllFault, SettledParts, Settlement, UnnamedBroker, UnsettledBroker,
    settle_all,
};
use core_model::{Part, Refusal};
use policy::Policy;
use std::alloc::{AllocError, Global};
use std::marker::Brand;
use std::sync::Wait;
use std::thread::Threads;

/// How many entries the audit of the load has place for.
pub const PLACES: usize = 131_072;

/// What a load came to: its report, and how it ended.
#[derive(Drop)]
pub struct Load {
    pub report: String,
    pub ending: Ending,
}

// What a broker came to: its core, what was handed out of its audit, what all entries of its history tell of the packets
// of each queue, and how the load ended.
#[derive(Drop)]
pub(crate) struct Ended {
    pub core: AccessCore,
    pub settled: SettledParts,
    pub left: Option<Part>,
    pub counts: Vec<PacketCounts>,
    pub ending: Ending,
}

// How a load ended whose lanes' packets are those that the core took: by whether all of them are finished.
fn ending_by(all: bool) -> Ending
    ensures { result ≡ ending_if all }
{
    if all {
        Ending::Settled
    } else {
        Ending::Unsettled
    }
}

// Counts what the audit has of the core that a broker came to.
fn count_last(counts: &mut Vec<PacketCounts>, settlement: &Settlement) -> Result<(), AllocError>
    ensures { (before : List Entry) (queues : ℕ) → AreCounts before queues counts.old.items → OnOk result (AreCounts (before ++ (core_of settlement.now).history.entries) queues counts.new.items) }
{
    match settlement {
        Settlement::Settled { core, .. } => count_on(counts, core.audit()),
        Settlement::Mismatch { core, .. } => count_on(counts, core.audit()),
    }
}

// How a load ended, by what its broker came to and what all entries tell.
fn ending_of(settlement: &Settlement, counts: &[PacketCounts], wanted: u64) -> Ending
    ensures { (plan : List PlannedQueue) (parts : List Part) → AreCounts (entries_in parts ++ (core_of settlement.now).history.entries) (length plan) counts.now
        → EndsBy plan wanted parts settlement.now result }
{
    match settlement {
        Settlement::Settled { .. } => ending_by(are_finished(counts, wanted)),
        Settlement::Mismatch { queue, id, .. } => Ending::Mismatch {
            queue: *queue,
            packet: *id,
        },
    }
}

// The core that a broker came to, to be looked at.
fn core_in(settlement: &Settlement) -> &AccessCore
    ensures { result.now ≡ core_of settlement.now }
{
    match settlement {
        Settlement::Settled { core, .. } => core,
        Settlement::Mismatch { core, .. } => core,
    }
}

// The core that a broker came to.
fn core_of(settlement: Settlement) -> AccessCore
    ensures { result ≡ core_of settlement }
{
    match settlement {
        Settlement::Settled { core, .. } => core,
        Settlement::Mismatch { core, .. } => core,
    }
}

// How a load ended, by what its broker came to.
fn ended_by(settlement: Settlement, out: HandedOut, wanted: u64) -> Result<Ended, LoadFault>
    ensures core { IfOk result (λ ended. ended.core ≡ core_of settlement) }
    ensures parts { IfOk result (λ ended. parts_in ended ≡ parts_of out) }
    ensures counts { (queues : ℕ) → AreCounts (entries_in (parts_of out)) queues out.counts.items
        → IfOk result (λ ended. AreCounts (entries_in (parts_in ended) ++ ended.core.history.entries) queues ended.counts.items) }
    ensures ends { (plan : List PlannedQueue) → AreCounts (entries_in (parts_of out)) (length plan) out.counts.items
        → IfOk result (λ ended. EndsBy plan wanted (parts_of out) settlement ended.ending) }
{
    let HandedOut {
        settled,
        left,
        counts,
    } = out;
    let mut counts = counts;
    match count_last(&mut counts, &settlement) {
        Ok(()) => {
            let ending = ending_of(&settlement, counts.as_slice(), wanted);
            Ok(Ended {
                core: core_of(settlement),
                settled,
                left,
                counts,
                ending,
            })
        }
        Err(want) => Err(LoadFault::from(want)),
    }
}

// Why a broker was not settled, all of whose fronts are there.
fn fault_of<B: Room>(back: UnsettledBroker<B>) -> LoadFault
    requires { back.fault ≢ SettleAllFault.MissingFront }
    ensures { IsToldFor back.fault result }
{
    match back.fault {
        SettleAllFault::OutOfMemory => LoadFault::OutOfMemory,
        SettleAllFault::MissingPass => LoadFault::MissingPass,
        SettleAllFault::NotNext => LoadFault::NotNext,
        SettleAllFault::MissingFront => unreachable!(),
    }
}

// Settles a broker whose threads have ended, and of whose audit this was handed out.
fn settle<B: Room>(
    alloc: Global,
    stage: Stage<B>,
    out: &HandedOut,
) -> Result<Settlement, UnsettledBroker<B>>
    requires { IsStageWith B.board out.now.settled stage }
    ensures settled { IfOk result (IsSettlement stage.broker (parts_of out.now) stage.ends.items stage.lanes.items) }
    ensures closed { IfOk result (λ settlement. IsClosed B.opened stage.front stage.lanes.items (core_of settlement)) }
    ensures passes { IfOk result (λ _. has_all_passes stage.broker stage.ends.items stage.lanes.items ≡ true) }
    ensures refused { IfErr result (λ back. back.fault ≢ SettleAllFault.MissingFront) }
{
    let Stage {
        broker,
        front,
        ends,
        lanes,
    } = stage;
    settle_all(alloc, broker, front, &out.settled, out.left(), ends, lanes)
}

// Settles it, looks whether the queues of the plan are open still, and tells how the load ended.
fn finish<B: Room>(
    alloc: Global,
    stage: Stage<B>,
    out: HandedOut,
    plan: &[PlannedQueue],
    wanted: u64,
) -> Result<Ended, LoadFault>
    requires stage { IsStageWith B.board out.settled stage }
    requires ready { IsReady plan.now stage }
    requires parts { All (IsLegalPart B.opened.history.kernels) (parts_of out) }
    requires counts { AreCounts (entries_in (parts_of out)) (length plan.now) out.counts.items }
    ensures { (producers packets : ℕ) → All (IsLoadRing producers) stage.broker → All (IsPlannedEnd plan.now packets) stage.ends.items → IfOk result (EndsLoad B.opened plan.now producers packets wanted) }
{
    match settle(alloc, stage, &out) {
        Ok(settlement) => {
            find_queues(core_in(&settlement), plan)?;
            ended_by(settlement, out, wanted)
        }
        Err(back) => Err(fault_of(back)),
    }
}

/// Opens a broker over a policy and its kernels, with places for so many entries in its audit. It has no name yet. Where no
/// core is opened, that is told.
#[tactic(auto, using(crate::proofs::Told::opened_tells))]
pub fn open_broker(
    alloc: Global,
    policy: Policy,
    kernels: Vec<Kernel>,
    places: usize,
) -> Result<UnnamedBroker, LoadFault>
    ensures opened { IfOk result (λ broker. IsOpening broker.core.history policy (map program_of kernels.items) places) }
    ensures refused { TellsOpening (open_fault policy kernels.items places) result }
{
    match UnnamedBroker::open(alloc, policy, kernels, places) {
        Ok(broker) => Ok(broker),
        Err(fault) => Err(LoadFault::from(fault)),
    }
}

// Grants all that the policy of a broker's core allows, in a section.
#[tactic(auto, using(crate::proofs::Granted::adds_follow))]
fn grant_alone<B: Room>(broker: &mut Broker<B>, front: &mut Front) -> Result<(), Refusal>
    requires { front.old.board ≡ B.board }
    ensures front { front.new.board ≡ B.board }
    ensures section { IsSection B.opened front.old front.new (λ before after. OnOk result (HasAllAllowed after.history)) }
    ensures rings { broker.new ≡ broker.old }
{
    broker.with_core_alone(front, |core| grant_all(core))
}

/// Gives a broker its name, and grants all that its policy allows, in a section. The front has seen that, and has all
/// shares.
pub fn name_broker<B: Room>(unnamed: UnnamedBroker) -> Result<(Broker<B>, Front), LoadFault>
    requires { (unnamed.board ≡ B.board) × (unnamed.core ≡ B.opened) }
    ensures rings { IfOk result (λ named. named.0 ≡ []) }
    ensures front { IfOk result (λ named. (named.1.board ≡ B.board) × (named.1.share ≡ all_shares)) }
    ensures granted { IfOk result (λ named. WasLeft named.1.left (λ left. HasAllAllowed left.history)) }
{
    let (mut broker, mut front) = unnamed.named::<B>();
    match grant_alone(&mut broker, &mut front) {
        Ok(()) => Ok((broker, front)),
        Err(why) => Err(LoadFault::from(why)),
    }
}

// Settles it, if all parts were handed out.
fn finish_rotated<B: Room>(
    alloc: Global,
    stage: Stage<B>,
    out: HandedOut,
    run: Result<(), LoadFault>,
    plan: &[PlannedQueue],
    wanted: u64,
) -> Result<Ended, LoadFault>
    requires stage { IsStageWith B.board out.settled stage }
    requires ready { IsReady plan.now stage }
    requires parts { All (IsLegalPart B.opened.history.kernels) (parts_of out) }
    requires counts { IfOk run (λ _. AreCounts (entries_in (parts_of out)) (length plan.now) out.counts.items) }
    ensures { (producers packets : ℕ) → All (IsLoadRing producers) stage.broker → All (IsPlannedEnd plan.now packets) stage.ends.items → IfOk result (EndsLoad B.opened plan.now producers packets wanted) }
{
    match run {
        Ok(()) => finish(alloc, stage, out, plan, wanted),
        Err(why) => Err(why),
    }
}

// Runs the load of a plan over a broker, whose queues were opened for it.
fn run_over<B: Room + Send + Sync, R: Threads + Wait + Sync, W: Watch>(
    rt: &R,
    alloc: Global,
    stage: Stage<B>,
    plan: &[PlannedQueue],
    share: Share,
    gate: &LoadGate,
    counts: Vec<PacketCounts>,
    wanted: u64,
    watch: &mut W,
) -> Result<Ended, LoadFault>
    requires stage { IsStage B.board stage }
    requires ready { IsReady plan.now stage }
    requires counts { AreCounts [] (length plan.now) counts.items }
    ensures { (producers : ℕ) → All (IsLoadRing producers) stage.broker → All IsUnused stage.ends.items → IfOk result (EndsLoad B.opened plan.now producers share.packets wanted) }
{
    let (stage, out, run) = run_rotated(rt, alloc, stage, plan, share, gate, counts, watch);
    finish_rotated(alloc, stage, out, run, plan, wanted)
}

// Names a broker, opens the queues of a plan, and runs its load.
#[tactic(auto, using(crate::proofs::Belonging::no_rings))]
fn run_named<B: Room + Send + Sync, R: Threads + Wait + Sync, W: Watch>(
    rt: &R,
    alloc: Global,
    unnamed: UnnamedBroker,
    plan: &[PlannedQueue],
    terms: LoadTerms,
    wanted: u64,
    gate: &LoadGate,
    watch: &mut W,
) -> Result<Ended, LoadFault>
    requires { (unnamed.board ≡ B.board) × (unnamed.core ≡ B.opened) }
    ensures { IfOk result (EndsLoad unnamed.core plan.now terms.producers terms.packets wanted) }
{
    let share = Share {
        packets: terms.packets,
        tries: terms.limits.tries,
        are_renewed: terms.limits.are_renewed,
    };
    let counts = count_none(alloc, plan.len())?;
    let (broker, front) = name_broker::<B>(unnamed)?;
    let stage = open_stage(alloc, broker, front, plan, terms.producers)?;
    run_over(rt, alloc, stage, plan, share, gate, counts, wanted, watch)
}

// A load with its report, if there is one.
fn load_of(report: Result<String, Refusal>, ending: Ending) -> Result<Load, LoadFault>
    ensures { IfOk result (λ load. (report ≡ Ok load.report) × (load.ending ≡ ending)) }
{
    match report {
        Ok(report) => Ok(Load { report, ending }),
        Err(why) => Err(LoadFault::from(why)),
    }
}

// The report of a load that ended.
fn tell(alloc: Global, ended: Ended, plan: &[PlannedQueue]) -> Result<Load, LoadFault>
    ensures { (opened : Core) (producers packets wanted : ℕ) → EndsLoad opened plan.now producers packets wanted ended → IfOk result (TellsPlan opened plan.now producers packets wanted) }
{
    let counts = ended.counts.as_slice();
    let report = report_load(alloc, counts, &ended.core, plan, ended.ending);
    load_of(report, ended.ending)
}

// The report of a load that ended, once the entries in its audit were shown.
fn show_and_tell<W: Watch>(
    alloc: Global,
    ended: Ended,
    plan: &[PlannedQueue],
    watch: &mut W,
) -> Result<Load, LoadFault>
    ensures { (opened : Core) (producers packets wanted : ℕ) → EndsLoad opened plan.now producers packets wanted ended → IfOk result (TellsPlan opened plan.now producers packets wanted) }
{
    match watch.take(ended.core.audit()) {
        Ok(()) => tell(alloc, ended, plan),
        Err(why) => Err(why),
    }
}

// Runs the load of a plan over a policy: the broker gets its name here.
#[tactic(auto, using(crate::proofs::Told::then_tells))]
fn run_plan<R: Threads + Wait + Sync, W: Watch>(
    rt: &R,
    alloc: Global,
    policy: Policy,
    kernels: Vec<Kernel>,
    plan: &[PlannedQueue],
    terms: LoadTerms,
    watch: &mut W,
) -> Result<Ended, LoadFault>
    ensures refused { TellsOpening (open_fault policy kernels.items load_places) result }
    ensures ended { IfOk result (λ ended. (opened : Core) × IsOpening opened.history policy (map program_of kernels.items) load_places × EndsLoad opened plan.now terms.producers terms.packets (wanted_of terms.packets terms.producers) ended) }
{
    let wanted = terms.packets.saturating_mul(terms.producers);
    let gate = LoadGate::within(alloc, plan.len(), wanted, terms.limits)?;
    match open_broker(alloc, policy, kernels, PLACES) {
        Ok(unnamed) => {
            run_named::<Brand, R, W>(rt, alloc, unnamed, plan, terms, wanted, &gate, watch)
        }
        Err(why) => Err(why),
    }
}

/// Runs the load over a policy and its kernels with so many producers a queue, 1 to 16: grants all that the policy
/// allows, opens the queues of the plan, has the producers publish and the lanes serve, each on a thread of its own,
/// while this one rotates the audit, and reports what came of it. It is told as settled just where all packets that
/// producers publish are finished; that they ever are is not promised.
pub fn run_load<R: Threads + Wait + Sync>(
    rt: &R,
    alloc: Global,
    policy: Policy,
    kernels: Vec<Kernel>,
    producers: u64,
) -> Result<Load, LoadFault>
    ensures load { IfOk result (TellsLoad policy kernels.items load_packets producers) }
    ensures refused { TellsOpening (open_fault policy kernels.items load_places) result }
{
    let terms = LoadTerms::of(producers, None);
    run_load_watched(rt, alloc, policy, kernels, terms, &mut Unwatched)
}

/// Runs the load just so, with other limits than 10,000,000 turns of each lane and as many tries of each producer.
pub fn run_load_within<R: Threads + Wait + Sync>(
    rt: &R,
    alloc: Global,
    policy: Policy,
    kernels: Vec<Kernel>,
    producers: u64,
    limits: LoadLimits,
) -> Result<Load, LoadFault>
    ensures load { IfOk result (TellsLoad policy kernels.items load_packets producers) }
    ensures refused { TellsOpening (open_fault policy kernels.items load_places) result }
{
    let terms = LoadTerms {
        producers,
        packets: PACKETS,
        limits,
    };
    run_load_watched(rt, alloc, policy, kernels, terms, &mut Unwatched)
}

/// Runs the load on these terms, and shows the entries of its history as they come. Where no core is opened over the policy
/// and its kernels, that is told before all else, but for want of memory.
#[tactic(auto, using(crate::proofs::Told::then_tells))]
pub fn run_load_watched<R: Threads + Wait + Sync, W: Watch>(
    rt: &R,
    alloc: Global,
    policy: Policy,
    kernels: Vec<Kernel>,
    terms: LoadTerms,
    watch: &mut W,
) -> Result<Load, LoadFault>
    ensures load { IfOk result (TellsLoad policy kernels.items terms.packets terms.producers) }
    ensures refused { TellsOpening (open_fault policy kernels.items load_places) result }
{
    let plan = plan_load(alloc, &policy)?;
    let ended = run_plan(rt, alloc, policy, kernels, plan.as_slice(), terms, watch)?;
    show_and_tell(alloc, ended, plan.as_slice(), watch)
}
