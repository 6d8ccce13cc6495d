//! Brokers with queues of the load, what producers and lanes do on them, and what they come to.

ghost use Rattle.std.specs.Prelude.{◌≡◌, IfSome};
ghost use Rattle.client_threads.specs.Running.{IsEndOf};
ghost use Rattle.threads_load.specs.Stages.{IsStage};

use aql_packet::{
    Address, AgentDispatch, Header, Packet, REGION_SPAN, Scope, SignalHandle, encode,
};
use client_threads::{
    Broker, ClientEnd, Gate, Room, SettledParts, Settlement, UnnamedBroker, run_lanes, settle_all,
};
use core_model::{ADD64, Part};
use policy::{Policy, ReadPolicyError, read_policy};
use ring::Publication;
use std::alloc::Global;
use std::sync::Wait;
use std::sync::atomic::{AtomicU64, Ordering};
use std::thread;
use std::thread::Threads;
use std::time::{Clock, Instant};
use threads_load::{PlannedQueue, Stage, name_broker, open_broker, open_stage, plan_load};

/// How often a thread looks for something before it gives up.
pub const LOOKS: u64 = 10_000_000;

/// A client that can send to four agents, and count in the second region.
const FOUR_AGENTS: &str = r#"
client = [{ name = "mira" }]
agent = [
  { name = "north", takes = ["agent"] },
  { name = "east", takes = ["agent"] },
  { name = "south", takes = ["kernel", "agent"] },
  { name = "west", takes = ["agent"] },
]
region = [{ name = "short", length = 7 }, { name = "sum", length = 24 }]
allow = [
  { client = "mira", kind = "agent", object = "*", rights = ["USE"] },
  { client = "*", kind = "region", object = "*", rights = ["READ", "WRITE"] },
]
"#;

/// How many entries an audit has place for.
const PLACES: usize = 400_000;

/// The region that the client counts in.
const REGION: u64 = 2;

/// A packet that counts, and tells who sent it and in which turn by arguments that are ignored.
pub fn packet(producer: u64, turn: u64) -> [u8; 64] {
    encode(&Packet::Agent(AgentDispatch {
        header: Header {
            barrier: false,
            acquire: Scope::Agent,
            release: Scope::None,
        },
        function: ADD64,
        return_address: Address(0),
        arguments: [REGION * REGION_SPAN, 1, producer, turn],
        completion_signal: SignalHandle(0),
    }))
}

/// Reads a policy. It has no contract, so that the proofs of its callers carry none.
pub fn read(alloc: Global, text: &str) -> Result<Policy, ReadPolicyError> {
    read_policy(alloc, text.as_bytes())
}

/// Opens a broker over the policy of four agents. It has no name yet.
pub fn unnamed(alloc: Global) -> Option<UnnamedBroker> {
    let policy = read(alloc, FOUR_AGENTS).ok()?;
    open_broker(alloc, policy, Vec::new(alloc), PLACES).ok()
}

/// The plan of so many queues, up to four. It has no contract either.
pub fn plan_of(alloc: Global, queues: usize) -> Option<Vec<PlannedQueue>> {
    let policy = read(alloc, FOUR_AGENTS).ok()?;
    let mut plan = plan_load(alloc, &policy).ok()?;
    plan.truncate(queues);
    Some(plan)
}

/// Opens a stage with so many queues, up to four, each with so many producers, over a broker that gets its name.
pub fn stage<B: Room>(
    alloc: Global,
    unnamed: UnnamedBroker,
    queues: usize,
    producers: u64,
) -> Option<Stage<B>>
    requires { (unnamed.board ≡ B.board) × (unnamed.core ≡ B.opened) }
    ensures { IfSome result (IsStage B.board) }
{
    let plan = plan_of(alloc, queues)?;
    let (broker, front) = name_broker::<B>(unnamed).ok()?;
    match open_stage(alloc, broker, front, plan.as_slice(), producers) {
        Ok(stage) => Some(stage),
        Err(_) => None,
    }
}

/// Whether a word comes to a number, as far as one looks.
pub fn reaches(word: &AtomicU64, wanted: u64) -> bool {
    for _look in 0..LOOKS {
        if wanted <= word.load(Ordering::SeqCst) {
            return true;
        }
        thread::yield_now();
    }
    false
}

/// Whether a word comes to a number within so many seconds.
pub fn comes_to<C: Clock>(clock: &C, word: &AtomicU64, wanted: u64, seconds: u64) -> bool {
    let Ok(start) = Instant::now(clock) else {
        return false;
    };
    for _look in 0..u64::MAX {
        if wanted <= word.load(Ordering::SeqCst) {
            return true;
        }
        if !is_within(clock, start, seconds) {
            return false;
        }
        thread::yield_now();
    }
    false
}

// Whether fewer seconds have passed since a time.
fn is_within<C: Clock>(clock: &C, start: Instant, seconds: u64) -> bool {
    match start.elapsed(clock) {
        Ok(passed) => passed.as_secs() < seconds,
        Err(_) => false,
    }
}

/// Reserves an id and publishes a packet under it, whose slot has to be free. Answers whether it was published.
pub fn publish_one<B: Room>(broker: &Broker<B>, end: &mut ClientEnd, bytes: &[u8; 64]) -> bool
    requires { IsEndOf broker.now end.old }
    ensures { IsEndOf broker.now end.new }
{
    match end.reserve(broker) {
        Ok(ticket) => match end.publish(broker, ticket, bytes) {
            Publication::Published(_) => true,
            _ => false,
        },
        Err(_) => false,
    }
}

/// Publishes so many packets, no more than there are slots, and counts them in a word as they are published.
pub fn publish_all<B: Room>(
    broker: &Broker<B>,
    end: &mut ClientEnd,
    packets: u64,
    published: &AtomicU64,
)
    requires { IsEndOf broker.now end.old }
    ensures { IsEndOf broker.now end.new }
{
    for turn in 0..packets {
        if !publish_one(broker, end, &packet(0, turn)) {
            return;
        }
        published.fetch_add(1, Ordering::SeqCst);
    }
}

/// Takes the last end of a stage off, if there is one.
pub fn split_last_end<B: Room>(stage: Stage<B>) -> Option<(Stage<B>, ClientEnd)>
    requires { IsStage B.board stage }
    ensures stage { IfSome result (λ split. IsStage B.board split.0) }
    ensures end { IfSome result (λ split. IsEndOf split.0.broker split.1) }
{
    let Stage {
        broker,
        front,
        ends,
        lanes,
    } = stage;
    let mut ends = ends;
    let last = ends.pop()?;
    Some((
        Stage {
            broker,
            front,
            ends,
            lanes,
        },
        last,
    ))
}

/// Puts an end behind those of a stage, if there is memory.
pub fn with_end<B: Room>(stage: Stage<B>, end: ClientEnd) -> Option<Stage<B>>
    requires stage { IsStage B.board stage }
    requires end { IsEndOf stage.broker end }
    ensures { IfSome result (IsStage B.board) }
{
    let Stage {
        broker,
        front,
        ends,
        lanes,
    } = stage;
    let mut ends = ends;
    match ends.push(end) {
        Ok(()) => Some(Stage {
            broker,
            front,
            ends,
            lanes,
        }),
        Err(_) => None,
    }
}

/// Publishes so many packets of the last end of a stage. The stage comes back if all are published.
pub fn publish_last<B: Room>(stage: Stage<B>, packets: u64) -> Option<Stage<B>>
    requires { IsStage B.board stage }
    ensures { IfSome result (IsStage B.board) }
{
    let (stage, end) = split_last_end(stage)?;
    let mut end = end;
    let published = AtomicU64::new(0);
    publish_all(&stage.broker, &mut end, packets, &published);
    if published.load(Ordering::SeqCst) != packets {
        return None;
    }
    with_end(stage, end)
}

/// Runs the lanes of a stage.
pub fn run_with<B: Room + Send + Sync, R: Threads + Wait + Sync, G: Gate + Sync>(
    rt: &R,
    alloc: Global,
    stage: Stage<B>,
    gate: &G,
) -> Stage<B>
    requires { IsStage B.board stage }
    ensures { IsStage B.board result }
{
    let Stage {
        broker,
        front,
        ends,
        lanes,
    } = stage;
    let lanes = run_lanes(rt, alloc, &broker, lanes, gate);
    Stage {
        broker,
        front,
        ends,
        lanes,
    }
}

/// What the broker of a stage comes to, with parts that were handed out and not settled yet. No clause says what that
/// is, so that the proofs of its callers carry none.
pub fn settle<B: Room>(alloc: Global, stage: Stage<B>, parts: &[Part]) -> Option<Settlement>
    requires { IsStage B.board stage }
{
    let Stage {
        broker,
        front,
        ends,
        lanes,
    } = stage;
    match settle_all(
        alloc,
        broker,
        front,
        &SettledParts::none(),
        parts,
        ends,
        lanes,
    ) {
        Ok(settlement) => Some(settlement),
        Err(_) => None,
    }
}
