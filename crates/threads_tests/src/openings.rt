//! How many queues open, and which of them the load opens.

ghost use Rattle.std.specs.Prelude.{◌≡◌, ◌<◌, ◌≤◌, ◌+◌};
ghost use Rattle.client_threads.specs.Boards.{all_shares};
ghost use Rattle.client_threads.specs.Sections.{Follows};

use crate::stages::read;
use access_core::AccessCore;
use aql_packet::{AgentHandle, ClientId, QueueId};
use client_threads::{Broker, Front, Opened, Room, UnnamedBroker};
use core_model::{Entry, Event, Refusal};
use policy::Policy;
use std::alloc::Global;
use std::marker::Brand;
use threads_load::{PlannedQueue, Stage, name_broker, open_broker, open_stage, plan_load};

/// Two clients, of whom the second may use the second agent alone. Both may count in the region.
const TWO_CLIENTS: &str = r#"
client = [{ name = "mira" }, { name = "noor" }]
agent = [{ name = "north", takes = ["agent"] }, { name = "south", takes = ["agent"] }]
region = [{ name = "sum", length = 8 }]
allow = [
  { client = "mira", kind = "agent", object = "*", rights = ["USE"] },
  { client = "noor", kind = "agent", object = "south", rights = ["USE"] },
  { client = "*", kind = "region", object = "*", rights = ["READ", "WRITE"] },
]
"#;

/// An opening: its client, its agent and its size.
#[derive(Clone, Copy)]
struct Asked(u32, u32, u64);

/// What the load opens: the first client's agents in order, then the second's one.
const PLANNED: [Asked; 3] = [Asked(1, 1, 16), Asked(1, 2, 16), Asked(2, 2, 16)];

/// How many queues are opened at the most.
const MOST_QUEUES: u64 = 64;

/// How many slots a queue has at the most.
const MOST_SLOTS: u64 = 4_096;

/// For how many producers it is at the most.
const MOST_PRODUCERS: u64 = 16;

// Reads the policy.
fn two_clients(alloc: Global) -> Option<Policy> {
    read(alloc, TWO_CLIENTS).ok()
}

// A broker without queues, which has no name yet.
fn broker(alloc: Global) -> Option<UnnamedBroker> {
    open_broker(alloc, two_clients(alloc)?, Vec::new(alloc), 128).ok()
}

// Opens a queue of the most slots for the most producers.
#[tactic(auto, using(threads_load::proofs::Shares::one_at_most))]
fn open<B: Room>(
    alloc: Global,
    broker: &mut Broker<B>,
    front: &mut Front,
) -> Result<Opened, Refusal>
    requires { (front.old.board ≡ B.board) × (1 < front.old.share) }
    ensures front { front.new.board ≡ B.board }
    ensures share { front.old.share ≤ front.new.share + 1 }
{
    broker.open_queue(
        alloc,
        front,
        ClientId(1),
        AgentHandle(1),
        MOST_SLOTS,
        MOST_PRODUCERS,
    )
}

// The number of a queue that opens, or why it doesn't.
fn number_of(opened: Result<Opened, Refusal>) -> Result<QueueId, Refusal> {
    match opened {
        Ok((queue, _, _)) => Ok(queue),
        Err(why) => Err(why),
    }
}

// How many queues up to one behind the last have a doorbell.
fn count_doorbells<B: Room>(broker: &Broker<B>) -> u64 {
    let mut doorbells: u64 = 0;
    for queue in 0..MOST_QUEUES + 2 {
        if broker.doorbell(QueueId(queue)).is_some() {
            doorbells = doorbells.saturating_add(1);
        }
    }
    doorbells
}

// Whether one more opening is answered so, and so many queues have a doorbell then.
fn is_answered<B: Room>(
    alloc: Global,
    broker: &mut Broker<B>,
    front: &mut Front,
    answer: Result<QueueId, Refusal>,
    doorbells: u64,
) -> bool
    requires { (front.old.board ≡ B.board) × (1 < front.old.share) }
    ensures front { front.new.board ≡ B.board }
    ensures share { front.old.share ≤ front.new.share + 1 }
{
    number_of(open(alloc, broker, front)) == answer && count_doorbells(broker) == doorbells
}

// Whether as many queues open as may be.
fn opens_all<B: Room>(alloc: Global, broker: &mut Broker<B>, front: &mut Front) -> bool
    requires { (front.old.board ≡ B.board) × (front.old.share ≡ all_shares) }
    ensures { (front.new.board ≡ B.board) × (1 < front.new.share) }
{
    for before in 0..MOST_QUEUES {
        let number = before + 1;
        if !is_answered(alloc, broker, front, Ok(QueueId(number)), number) {
            return false;
        }
    }
    true
}

// Whether a broker that gets its name opens as many queues as may be, and no more.
fn named_fills<B: Room>(alloc: Global, unnamed: UnnamedBroker) -> bool
    requires { (unnamed.board ≡ B.board) × (unnamed.core ≡ B.opened) }
{
    match name_broker::<B>(unnamed) {
        Ok((mut broker, mut front)) => {
            opens_all(alloc, &mut broker, &mut front)
                && is_answered(
                    alloc,
                    &mut broker,
                    &mut front,
                    Err(Refusal::TooMany),
                    MOST_QUEUES,
                )
        }
        Err(_) => false,
    }
}

// Whether a broker does.
fn fills(alloc: Global) -> bool {
    match broker(alloc) {
        Some(unnamed) => named_fills::<Brand>(alloc, unnamed),
        None => false,
    }
}

// Whether an entry tells of this opening.
fn is_opening(entry: &Entry, asked: Asked) -> bool {
    match &entry.event {
        Event::Open {
            client,
            agent,
            size,
        } => client.0 == asked.0 && agent.0 == asked.1 && *size == asked.2,
        _ => false,
    }
}

// Whether the entry of each opening in an audit is that of the row at its place.
#[tactic(auto, using(client_threads::proofs::Sections::follows_self))]
fn are_openings(core: &mut AccessCore, rows: &[Asked]) -> bool
    ensures { Follows core.old.history core.new.history }
{
    let mut opened: usize = 0;
    for entry in core.audit() {
        if let Event::Open { .. } = &entry.event {
            match rows.get(opened) {
                Some(asked) if is_opening(entry, *asked) => opened = opened.saturating_add(1),
                _ => return false,
            }
        }
    }
    opened == rows.len()
}

// Whether the openings in a broker's audit are these.
fn tells_openings<B: Room>(broker: &mut Broker<B>, front: &mut Front, rows: &[Asked]) -> bool
    requires { front.old.board ≡ B.board }
    ensures { front.new.board ≡ B.board }
{
    broker.with_core_alone(front, |core| are_openings(core, rows))
}

// Whether a broker that gets its name opens what is planned, with three producers each.
fn named_opens_planned<B: Room>(
    alloc: Global,
    unnamed: UnnamedBroker,
    plan: &[PlannedQueue],
) -> Option<bool>
    requires { (unnamed.board ≡ B.board) × (unnamed.core ≡ B.opened) }
{
    let (broker, front) = name_broker::<B>(unnamed).ok()?;
    let Ok(stage) = open_stage(alloc, broker, front, plan, 3) else {
        return None;
    };
    let Stage { broker, front, .. } = stage;
    let mut broker = broker;
    let mut front = front;
    Some(tells_openings(&mut broker, &mut front, &PLANNED))
}

// Whether the load opens what is planned.
fn opens_planned(alloc: Global) -> Option<bool> {
    let plan = plan_load(alloc, &two_clients(alloc)?).ok()?;
    named_opens_planned::<Brand>(alloc, broker(alloc)?, plan.as_slice())
}

#[test]
fn sixty_four_queues_open_and_no_more(rt: HostRuntime) {
    assert!(rt; fills(rt.alloc()));
}

#[test]
fn the_load_opens_the_queues_of_its_plan(rt: HostRuntime) {
    assert!(rt; opens_planned(rt.alloc()) == Some(true));
}
