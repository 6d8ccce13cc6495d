//! The measurements of lanes: packets from `publish` to `finish`, over a core under its lock.

ghost use Rattle.std.specs.Prelude.{◌≡◌};
ghost use Rattle.threads_load.specs.Stages.{IsStage};

use crate::fault::Fault;
use client_threads::{Room, SettledParts, Settlement, UnnamedBroker, settle_all};
use policy::{Policy, ReadPolicyError, read_policy};
use std::alloc::Global;
use std::marker::Brand;
use std::sync::Wait;
use std::thread::Threads;
use std::time::{Clock, Duration, Instant};
use threads_load::{
    LoadGate, PlannedQueue, Stage, name_broker, open_broker, open_stage, plan_load, run_stage,
};

/// How many packets each producer publishes at the most: the audit has places for three entries of each.
pub const MOST_LANE_PACKETS: u64 = 5_000;

/// How many entries the audit has places for.
const PLACES: usize = 1_048_576;

/// A client that may send to four agents, and count in a region.
const POLICY: &str = r#"
client = [{ name = "counter" }]
agent = [
  { name = "north", takes = ["agent"] },
  { name = "east", takes = ["agent"] },
  { name = "south", takes = ["agent"] },
  { name = "west", takes = ["agent"] },
]
region = [{ name = "sum", length = 8 }]
allow = [
  { client = "counter", kind = "agent", object = "*", rights = ["USE"] },
  { client = "counter", kind = "region", object = "sum", rights = ["READ", "WRITE"] },
]
"#;

// Reads the policy. It has no contract, so that the proofs of its callers carry none.
fn read(alloc: Global) -> Result<Policy, ReadPolicyError> {
    read_policy(alloc, POLICY.as_bytes())
}

// A plan of so many queues.
fn plan_of(alloc: Global, policy: &Policy, lanes: usize) -> Result<Vec<PlannedQueue>, Fault> {
    let mut plan = plan_load(alloc, policy)?;
    plan.truncate(lanes);
    Ok(plan)
}

// Whether a broker settles, with all packets of its lanes finished.
fn is_settled<B: Room>(alloc: Global, stage: Stage<B>, gate: &LoadGate) -> bool
    requires { IsStage B.board stage }
{
    let Stage {
        broker,
        front,
        ends,
        lanes,
    } = stage;
    match settle_all(
        alloc,
        broker,
        front,
        &SettledParts::none(),
        &[],
        ends,
        lanes,
    ) {
        Ok(Settlement::Settled { .. }) => !gate.is_unsettled(),
        _ => false,
    }
}

// Names a broker, opens the queues of a plan, and runs them.
fn run_named<B: Room + Send + Sync, R: Threads + Wait + Clock + Sync>(
    rt: &R,
    alloc: Global,
    unnamed: UnnamedBroker,
    plan: &[PlannedQueue],
    producers: u64,
    packets: u64,
) -> Result<Duration, Fault>
    requires { (unnamed.board ≡ B.board) × (unnamed.core ≡ B.opened) }
{
    let (broker, front) = name_broker::<B>(unnamed)?;
    let stage = open_stage(alloc, broker, front, plan, producers)?;
    let gate = LoadGate::new(alloc, plan.len(), packets.saturating_mul(producers))?;
    let start = Instant::now(rt)?;
    let stage = run_stage(rt, alloc, stage, plan, packets, &gate);
    let time = start.elapsed(rt)?;
    if is_settled(alloc, stage, &gate) {
        Ok(time)
    } else {
        Err(Fault::Unsettled)
    }
}

/// Has so many producers of each of so many queues publish so many packets each, at most 5,000, each on a thread of its
/// own, while a lane a queue serves and advances them, and tells how long it took until all were finished.
pub fn lanes<R: Threads + Wait + Clock + Sync>(
    rt: &R,
    alloc: Global,
    lanes: usize,
    producers: u64,
    packets: u64,
) -> Result<Duration, Fault> {
    let policy = read(alloc)?;
    let plan = plan_of(alloc, &policy, lanes)?;
    let unnamed = open_broker(alloc, policy, Vec::new(alloc), PLACES)?;
    run_named::<Brand, R>(rt, alloc, unnamed, plan.as_slice(), producers, packets)
}
