//! Queues of a broker open, a lane serves, and the broker is settled.

ghost use Rattle.std.specs.Prelude.{◌≡◌, ◌<◌, ◌≤◌, ◌+◌, IfErr, IfOk};
ghost use Rattle.threads_load.specs.Stages.{IsStage};

use crate::fault::Fault;
use crate::wants::telling::{tell_one, tell_two, tell_want};
use access_core::Kernel;
use aql_packet::{AgentHandle, ClientId, QueueId, RegionHandle};
use client_threads::{
    Broker, Front, Opened, Room, SettleAllFault, SettledParts, SettledQueue, Settlement,
    UnnamedBroker, settle_all,
};
use core_model::Refusal;
use policy::{Policy, ReadPolicyError, read_policy};
use std::alloc::Global;
use std::marker::Brand;
use std::sync::Wait;
use std::thread::Threads;
use threads_load::{
    LoadFault, LoadGate, PlannedQueue, Stage, name_broker, open_broker, open_stage, run_stage,
};

/// A client that may use an agent, and count in a region.
const POLICY: &str = r#"
client = [{ name = "wanda" }]
agent = [{ name = "press", takes = ["agent"] }]
region = [{ name = "sum", length = 8 }]
allow = [
  { client = "wanda", kind = "agent", object = "press", rights = ["USE"] },
  { client = "wanda", kind = "region", object = "sum", rights = ["READ", "WRITE"] },
]
"#;

const WANDA: ClientId = ClientId(1);

const PRESS: AgentHandle = AgentHandle(1);

/// The queue of which a lane serves.
const PLAN: [PlannedQueue; 1] = [PlannedQueue {
    client: WANDA,
    agent: PRESS,
    region: RegionHandle(1),
}];

/// How many entries an audit has place for.
const PLACES: usize = 64;

/// How many packets are published.
const PACKETS: u64 = 2;

/// How many turns a lane makes: more than its two packets take, each of which is launched, run and finished.
const TURNS: u64 = 8;

/// The gates of a lane: one that lets it make no turn, while packets are published, and one that lets it serve them.
#[derive(Drop)]
struct Gates {
    publishing: LoadGate,
    serving: LoadGate,
}

// (it has no contract, so that its callers don't carry that of `read_policy`)
fn policy(alloc: Global) -> Result<Policy, ReadPolicyError> {
    read_policy(alloc, POLICY.as_bytes())
}

fn open_over(
    alloc: Global,
    policy: Policy,
    kernels: Vec<Kernel>,
) -> Result<UnnamedBroker, LoadFault> {
    open_broker(alloc, policy, kernels, PLACES)
}

// Opens a broker, which has no name yet.
fn open(alloc: Global) -> Result<UnnamedBroker, Fault> {
    let policy = policy(alloc)?;
    Ok(open_over(alloc, policy, Vec::new(alloc))?)
}

// Opens a queue of two slots for one producer.
#[tactic(auto, using(threads_load::proofs::Shares::one_at_most))]
fn open_queue<B: Room>(
    alloc: Global,
    broker: &mut Broker<B>,
    front: &mut Front,
) -> Result<Opened, Refusal>
    requires { (front.old.board ≡ B.board) × (1 < front.old.share) }
    ensures front { front.new.board ≡ B.board }
    ensures share { front.old.share ≤ front.new.share + 1 }
{
    broker.open_queue(alloc, front, WANDA, PRESS, 2, 1)
}

// The number of a queue that opens, or why it doesn't.
fn number_of(opened: Result<Opened, Refusal>) -> Result<QueueId, Refusal> {
    match opened {
        Ok((queue, _, _)) => Ok(queue),
        Err(why) => Err(why),
    }
}

// Opens a queue for the second time.
fn open_queue_again<B: Room>(
    rt: &HostRuntime,
    broker: &mut Broker<B>,
    front: &mut Front,
) -> Result<(), Fault>
    requires { (front.old.board ≡ B.board) × (1 < front.old.share) }
    ensures front { front.new.board ≡ B.board }
    ensures share { front.old.share ≤ front.new.share + 1 }
{
    match number_of(open_queue(rt.alloc(), broker, front)) {
        Ok(queue) => tell_one(rt, "queue", queue.0),
        Err(why) => Err(Fault::from(why)),
    }
}

// Opens a queue, once more where that wants memory.
fn open_one<B: Room>(
    rt: &HostRuntime,
    broker: &mut Broker<B>,
    front: &mut Front,
) -> Result<(), Fault>
    requires { (front.old.board ≡ B.board) × (2 < front.old.share) }
    ensures front { front.new.board ≡ B.board }
    ensures share { front.old.share ≤ front.new.share + 2 }
{
    match number_of(open_queue(rt.alloc(), broker, front)) {
        Ok(queue) => tell_one(rt, "queue", queue.0),
        Err(Refusal::OutOfMemory) => {
            tell_want(rt, "queue")?;
            open_queue_again(rt, broker, front)
        }
        Err(_) => Err(Fault::Refused),
    }
}

// Opens two queues of a broker that gets its name.
fn open_two<B: Room>(host: &HostRuntime, unnamed: UnnamedBroker) -> Result<(), Fault>
    requires { (unnamed.board ≡ B.board) × (unnamed.core ≡ B.opened) }
{
    let (mut broker, mut front) = name_broker::<B>(unnamed)?;
    open_one(host, &mut broker, &mut front)?;
    open_one(host, &mut broker, &mut front)
}

/// Opens two queues of a broker, each once more where that wants memory.
pub fn open_queues(host: &HostRuntime) -> Result<(), Fault> {
    let unnamed = open(host.alloc())?;
    open_two::<Brand>(host, unnamed)
}

// Says to which indices a settled ring came.
fn tell_ring(rt: &HostRuntime, rings: &[SettledQueue]) -> Result<(), Fault> {
    match rings.first() {
        Some(first) => tell_two(rt, "broker", first.ring.write_index, first.ring.read_index),
        None => Err(Fault::Refused),
    }
}

// Says to what a broker came.
fn tell_settlement(rt: &HostRuntime, settlement: Settlement) -> Result<(), Fault> {
    match settlement {
        Settlement::Settled { rings, .. } => tell_ring(rt, rings.as_slice()),
        Settlement::Mismatch { .. } => Err(Fault::Refused),
    }
}

// Settles the broker of a stage, which comes back where that is refused.
fn settle_stage<B: Room>(
    alloc: Global,
    stage: Stage<B>,
) -> Result<Settlement, (SettleAllFault, Stage<B>)>
    requires { IsStage B.board stage }
    ensures { IfErr result (λ back. IsStage B.board back.1) }
{
    let Stage {
        broker,
        front,
        ends,
        lanes,
    } = stage;
    match settle_all(
        alloc,
        broker,
        front,
        &SettledParts::none(),
        &[],
        ends,
        lanes,
    ) {
        Ok(settlement) => Ok(settlement),
        Err(back) => Err((
            back.fault,
            Stage {
                broker: back.broker.again(),
                front: back.front,
                ends: back.ends,
                lanes: back.lanes,
            },
        )),
    }
}

// Ends a stage, and tells why.
fn give_up<B: Room>(_stage: Stage<B>, fault: Fault) -> Fault {
    fault
}

// Says to what the broker of a stage came that came back before.
fn tell_again<B: Room>(
    rt: &HostRuntime,
    settled: Result<Settlement, (SettleAllFault, Stage<B>)>,
) -> Result<(), Fault> {
    match settled {
        Ok(settlement) => tell_settlement(rt, settlement),
        Err((_, stage)) => Err(give_up(stage, Fault::OutOfMemory)),
    }
}

// Settles a broker that came back.
fn settle_again<B: Room>(rt: &HostRuntime, stage: Stage<B>) -> Result<(), Fault>
    requires { IsStage B.board stage }
{
    let said = tell_want(rt, "broker");
    let done = tell_again(rt, settle_stage(rt.alloc(), stage));
    said?;
    done
}

// Settles the broker of a stage, once more where that wants memory.
fn settle<B: Room>(rt: &HostRuntime, stage: Stage<B>) -> Result<(), Fault>
    requires { IsStage B.board stage }
{
    match settle_stage(rt.alloc(), stage) {
        Ok(settlement) => tell_settlement(rt, settlement),
        Err((SettleAllFault::OutOfMemory, stage)) => settle_again(rt, stage),
        Err((_, stage)) => Err(give_up(stage, Fault::Refused)),
    }
}

// Says what a lane's gate tells: that memory was wanted, if it was, and how many packets are finished.
fn tell_served(rt: &HostRuntime, gate: &LoadGate) -> Result<(), Fault> {
    if gate.has_want() {
        tell_want(rt, "serve")?;
    }
    if gate.finished() < PACKETS {
        return Err(Fault::OutOfMemory);
    }
    tell_one(rt, "serve", gate.finished())
}

// Serves what was published on a stage, and settles its broker.
fn serve<B: Room + Send + Sync, R: Threads + Wait + Sync>(
    rt: &R,
    host: &HostRuntime,
    stage: Stage<B>,
    gate: &LoadGate,
) -> Result<(), Fault>
    requires { IsStage B.board stage }
{
    let stage = run_stage(rt, host.alloc(), stage, &PLAN, 0, gate);
    match tell_served(host, gate) {
        Ok(()) => settle(host, stage),
        Err(fault) => Err(give_up(stage, fault)),
    }
}

// Publishes packets while the lanes make no turn, and serves them.
fn publish<B: Room + Send + Sync, R: Threads + Wait + Sync>(
    rt: &R,
    host: &HostRuntime,
    stage: Stage<B>,
    gates: &Gates,
) -> Result<(), Fault>
    requires { IsStage B.board stage }
{
    let stage = run_stage(rt, host.alloc(), stage, &PLAN, PACKETS, &gates.publishing);
    serve(rt, host, stage, &gates.serving)
}

// Opens the stage of the plan over a broker that gets its name.
fn open_planned<B: Room>(alloc: Global, unnamed: UnnamedBroker) -> Result<Stage<B>, Fault>
    requires { (unnamed.board ≡ B.board) × (unnamed.core ≡ B.opened) }
    ensures { IfOk result (IsStage B.board) }
{
    let (broker, front) = name_broker::<B>(unnamed)?;
    match open_stage(alloc, broker, front, &PLAN, 1) {
        Ok(stage) => Ok(stage),
        Err(why) => Err(Fault::from(why)),
    }
}

// Serves the packets of a queue of such a broker.
fn serve_named<B: Room + Send + Sync, R: Threads + Wait + Sync>(
    rt: &R,
    host: &HostRuntime,
    unnamed: UnnamedBroker,
    gates: &Gates,
) -> Result<(), Fault>
    requires { (unnamed.board ≡ B.board) × (unnamed.core ≡ B.opened) }
{
    match open_planned::<B>(host.alloc(), unnamed) {
        Ok(stage) => publish(rt, host, stage, gates),
        Err(fault) => Err(fault),
    }
}

/// Serves the packets of a queue, each once more where that wants memory, and settles the broker.
pub fn serve_queue<R: Threads + Wait + Sync>(rt: &R, host: &HostRuntime) -> Result<(), Fault> {
    let gates = Gates {
        publishing: LoadGate::with_turns(host.alloc(), 1, PACKETS, 0)?,
        serving: LoadGate::with_turns(host.alloc(), 1, PACKETS, TURNS)?,
    };
    let unnamed = open(host.alloc())?;
    serve_named::<Brand, R>(rt, host, unnamed, &gates)
}
