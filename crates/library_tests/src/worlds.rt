//! What no script asks of a world: requests of several seats in one run, and the audit as a query. The calls of the world
//! stand in functions of their own without contracts, so that the proofs of the tests don't carry what each request is owed.

use crate::studio::POLICY;
use aql_packet::{AgentHandle, ClientId, QueueId};
use core_model::{Call, Outcome, Query};
use policy::{Object, Rights};
use ring_core::{Access, Seen, Step};
use script::{Noted, run_script};
use sequences::Reserved;
use std::alloc::{AllocError, Global};
use std::test::*;
use uses::open;
use world::{Answer, Reply, Request, World};

fn world_over(alloc: Global, text: &str) -> Result<World, Fail> {
    match open(alloc, text.as_bytes()) {
        Some(world) => Ok(world),
        None => Err("no world is opened".into()),
    }
}

/// A world over the policy of these tests.
pub fn fresh(alloc: Global) -> Result<World, Fail> {
    world_over(alloc, POLICY)
}

const NORA: ClientId = ClientId(1);

const MIXER: AgentHandle = AgentHandle(1);

const QUEUE: QueueId = QueueId(1);

/// A producer reserves an id.
fn reserve(seat: u64) -> Request {
    Request::Step {
        queue: QUEUE,
        step: Step {
            seat,
            access: Access::Reserve,
        },
    }
}

/// Nora gets the agent, and a queue of two slots for two producers; each of these reserves an id.
fn put_requests(requests: &mut Vec<Request>) -> Result<(), AllocError> {
    requests.push(Request::Call(Call::Grant {
        client: NORA,
        object: Object::Agent(MIXER),
        rights: Rights::USE,
    }))?;
    requests.push(Request::OpenQueue {
        client: NORA,
        agent: MIXER,
        size: 2,
        producers: 2,
    })?;
    requests.push(reserve(2))?;
    requests.push(reserve(1))?;
    Ok(())
}

fn requests_in_turn(alloc: Global) -> Result<Vec<Request>, AllocError> {
    let mut requests = Vec::new(alloc);
    put_requests(&mut requests)?;
    Ok(requests)
}

/// Whether there is a reply that tells this number.
fn tells_number(reply: Option<&Reply>, wanted: u64) -> bool {
    match reply {
        Some(Ok(Answer::Step(Seen::Read(number)))) => *number == wanted,
        _ => false,
    }
}

/// Whether the last two of four replies tell the ids 0 and 1.
fn are_wanted(replies: &[Reply]) -> bool {
    tells_number(replies.get(2), 0) && tells_number(replies.get(3), 1)
}

fn run(
    alloc: Global,
    world: &mut World,
    requests: Vec<Request>,
) -> Result<Reserved<Reply>, AllocError> {
    world.run(alloc, requests)
}

/// Whether a world answers the requests as is wanted.
fn answers(alloc: Global, world: &mut World, requests: Vec<Request>) -> Result<bool, AllocError> {
    let replies = run(alloc, world, requests)?;
    Ok(are_wanted(replies.as_slice()))
}

// (a test that owns a world is dear to prove, so each hands it on at once)
fn answers_in_turn(alloc: Global, mut world: World) -> Result<bool, AllocError> {
    let requests = requests_in_turn(alloc)?;
    answers(alloc, &mut world, requests)
}

#[test]
fn a_run_answers_each_seat_in_turn(rt: HostRuntime) -> Result<(), Fail> {
    let world = fresh(rt.alloc())?;
    assert!(rt; answers_in_turn(rt.alloc(), world) == Ok(true));
    Ok(())
}

/// What a packet goes through, line by line of a script, and how many entries the audit has after that: none yet, then
/// those of a packet in flight, none once they are handed out, and then that the packet ran, and that it is completed.
const STAGES: [(&str, usize); 5] = [
    ("", 0),
    (LAUNCH, 5),
    ("rotate\n", 0),
    ("run 1 0\n", 1),
    ("finish 1 0\n", 2),
];

/// Nora gets what her packet needs, and it is launched: it fills four bytes of the tape.
pub const LAUNCH: &str = "\
grant nora agent mixer USE
grant nora region tape WRITE
grant nora signal cue CHANGE
queue nora mixer 2 1
submit 1 1 04140080000000000000000000000000000000000100000004000000000000005a00000000000000000000000000000000000000000000000100000000000000
serve 1
";

/// Whether the lines of a script are done.
pub fn does(alloc: Global, world: &mut World, lines: &str) -> bool {
    let mut reader = Noted::new(lines.as_bytes());
    let mut replies: Noted<Vec<u8>> = Noted::new(Vec::new(alloc));
    run_script(alloc, &mut reader, &mut replies, world, &[]).is_ok()
}

fn audit(alloc: Global, world: &mut World) -> Reply {
    world.serve(alloc, Request::Query(Query::Audit))
}

/// Whether a reply has so many entries.
fn tells_entries(reply: Reply, count: usize) -> bool {
    match reply {
        Ok(Answer::Core(core_model::Answer::Audit { entries, .. })) => entries.len() == count,
        _other => false,
    }
}

/// Whether the audit is told after each of some stages.
fn tells_its_audit(alloc: Global, mut world: World, stages: &[(&str, usize)]) -> bool {
    let mut well = true;
    for (lines, count) in stages {
        let is_done = does(alloc, &mut world, lines);
        let is_told = tells_entries(audit(alloc, &mut world), *count);
        well = well && is_done && is_told;
    }
    well
}

// (no clause says that memory is found for it)
#[test]
fn an_audit_is_told_whatever_it_has(rt: HostRuntime) -> Result<(), Fail> {
    assert!(rt; tells_its_audit(rt.alloc(), fresh(rt.alloc())?, &STAGES));
    Ok(())
}

/// How many slots a queue's ring has, how many queues the core keeps something of, and of how many packets in flight.
fn kept(world: &World) -> (u64, usize, usize) {
    let sizes = world.core().table_sizes();
    (world.slots(QUEUE), sizes.queues, sizes.argument_blocks)
}

fn close(alloc: Global, world: &mut World) -> Reply {
    world.serve(alloc, Request::Call(Call::Close { queue: QUEUE }))
}

/// Whether a reply tells that what was asked is done.
fn is_accepted(reply: Reply) -> bool {
    matches!(
        reply,
        Ok(Answer::Core(core_model::Answer::Outcome(Outcome::Accepted)))
    )
}

/// Whether a queue with a packet in flight is closed, and nothing is kept of it then.
fn gives_all_back(alloc: Global, mut world: World) -> bool {
    let is_launched = does(alloc, &mut world, LAUNCH) && kept(&world) == (2, 1, 1);
    let is_open = world.queue_after(QueueId(0)) == Some(QUEUE);
    let is_closed = is_accepted(close(alloc, &mut world)) && kept(&world) == (0, 0, 0);
    let is_gone = world.ring(QUEUE).is_none() && world.queue_after(QueueId(0)).is_none();
    is_launched && is_open && is_closed && is_gone
}

#[test]
fn a_close_gives_back_what_was_kept(rt: HostRuntime) -> Result<(), Fail> {
    assert!(rt; gives_all_back(rt.alloc(), fresh(rt.alloc())?));
    Ok(())
}
