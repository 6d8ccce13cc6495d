//! Bells: who publishes wakes who waits at its queue's, and nobody else, and the end of a producer rings.

ghost use Rattle.std.specs.Prelude.{◌≡◌, IfSome};
ghost use Rattle.client_threads.specs.Running.{IsEndOf};
ghost use Rattle.threads_load.specs.Stages.{IsStage};

use crate::stages::{comes_to, packet, publish_one, split_last_end, stage, unnamed};
use aql_packet::{AgentHandle, ClientId, QueueId, RegionHandle};
use client_threads::{Broker, ClientEnd, Room, UnnamedBroker};
use doorbell::Doorbell;
use std::alloc::Global;
use std::marker::Brand;
use std::sync::Wait;
use std::sync::atomic::{AtomicU64, Ordering};
use std::thread;
use std::thread::Threads;
use std::time::Clock;
use threads_load::{LoadGate, PlannedQueue, Share, Stage, produce};

/// How many packets are published, each once the one before was heard.
const PACKETS: u64 = 3;

/// For how many seconds it is looked whether a bell is heard.
const DEADLINE: u64 = 20;

/// For how many seconds it is looked whether a bell stays silent.
const SILENCE: u64 = 1;

/// How often a thread lets others run, so that they come to wait.
const RESTS: u64 = 1_000;

/// The plan of the first queue.
const FIRST_PLANNED: [PlannedQueue; 1] = [PlannedQueue {
    client: ClientId(1),
    agent: AgentHandle(1),
    region: RegionHandle(2),
}];

/// Nothing is published.
const NOTHING: Share = Share {
    packets: 0,
    tries: 0,
    are_renewed: false,
};

/// What a bell tells where nothing else was heard: it frees the thread that waits.
const NOT_HEARD: u64 = u64::MAX;

// Waits at a bell for each packet in turn, and counts in a word which are heard. Whether the bell told their ids.
fn hear_all<R: Wait>(rt: &R, bell: &Doorbell, heard: &AtomicU64) -> bool {
    for id in 0..PACKETS {
        if bell.wait(rt) != id {
            heard.store(PACKETS, Ordering::SeqCst);
            return false;
        }
        heard.store(id + 1, Ordering::SeqCst);
    }
    true
}

// Lets others run for a while.
fn rest() {
    for _rest in 0..RESTS {
        thread::yield_now();
    }
}

// Publishes each packet once the one before was heard, and who hears has had time to wait again.
fn publish_heard<B: Room, C: Clock>(
    clock: &C,
    broker: &Broker<B>,
    end: &mut ClientEnd,
    bell: &Doorbell,
    heard: &AtomicU64,
)
    requires { IsEndOf broker.now end.old }
    ensures { IsEndOf broker.now end.new }
{
    for turn in 0..PACKETS {
        if !publish_one(broker, end, &packet(0, turn))
            || !comes_to(clock, heard, turn + 1, DEADLINE)
        {
            bell.ring(NOT_HEARD);
            return;
        }
        rest();
    }
}

// Whether a bell tells another thread the id of each packet of an end, while it waits for them.
fn tells<B: Room + Send + Sync, R: Threads + Wait + Clock + Sync>(
    rt: &R,
    broker: &Broker<B>,
    end: ClientEnd,
    bell: &Doorbell,
) -> bool
    requires { IsEndOf broker.now end }
{
    let mut end = end;
    let heard = AtomicU64::new(0);
    let (told, _) = thread::join(
        rt,
        || hear_all(rt, bell, &heard),
        || publish_heard(rt, broker, &mut end, bell, &heard),
    );
    told
}

// Whether the bell of an end's queue does.
fn own_bell_tells<B: Room + Send + Sync, R: Threads + Wait + Clock + Sync>(
    rt: &R,
    broker: &Broker<B>,
    end: ClientEnd,
) -> bool
    requires { IsEndOf broker.now end }
{
    match broker.doorbell(end.queue()) {
        Some(bell) => tells(rt, broker, end, bell),
        None => false,
    }
}

// Whether the bell of a stage's last queue does. The stage comes back without that queue's end.
fn last_bell_tells<B: Room + Send + Sync, R: Threads + Wait + Clock + Sync>(
    rt: &R,
    stage: Stage<B>,
) -> Option<(Stage<B>, bool)>
    requires { IsStage B.board stage }
    ensures { IfSome result (λ told. IsStage B.board told.0) }
{
    let (stage, end) = split_last_end(stage)?;
    let told = own_bell_tells(rt, &stage.broker, end);
    Some((stage, told))
}

// Waits at a bell once, and tells in a word that it rang. What it told.
fn hear_once<R: Wait>(rt: &R, bell: &Doorbell, heard: &AtomicU64) -> u64 {
    let told = bell.wait(rt);
    heard.store(1, Ordering::SeqCst);
    told
}

// Frees who waits at a bell, if it isn't heard within so many seconds.
fn free<C: Clock>(clock: &C, bell: &Doorbell, heard: &AtomicU64, seconds: u64) {
    if !comes_to(clock, heard, 1, seconds) {
        bell.ring(NOT_HEARD);
    }
}

// What a thread hears that waits at a bell from now on, within so many seconds.
fn heard_within<R: Threads + Wait + Clock + Sync>(rt: &R, bell: &Doorbell, seconds: u64) -> u64 {
    let heard = AtomicU64::new(0);
    let (told, _) = thread::join(
        rt,
        || hear_once(rt, bell, &heard),
        || free(rt, bell, &heard, seconds),
    );
    told
}

// Whether the bell of a queue stays silent.
fn is_silent<B: Room, R: Threads + Wait + Clock + Sync>(
    rt: &R,
    broker: &Broker<B>,
    queue: u64,
) -> bool {
    match broker.doorbell(QueueId(queue)) {
        Some(bell) => heard_within(rt, bell, SILENCE) == NOT_HEARD,
        None => false,
    }
}

// Whether the bells of the two queues of a broker that gets its name tell what is published there, and each is silent
// while the other does.
fn named_bells_tell<B: Room + Send + Sync, R: Threads + Wait + Clock + Sync>(
    rt: &R,
    alloc: Global,
    unnamed: UnnamedBroker,
) -> Option<[bool; 4]>
    requires { (unnamed.board ≡ B.board) × (unnamed.core ≡ B.opened) }
{
    let (stage, second) = last_bell_tells(rt, stage::<B>(alloc, unnamed, 2, 1)?)?;
    let first_silent = is_silent(rt, &stage.broker, 1);
    let (stage, first) = last_bell_tells(rt, stage)?;
    let second_silent = is_silent(rt, &stage.broker, 2);
    Some([first, second, first_silent, second_silent])
}

// Whether those of a broker do.
fn bells_tell<R: Threads + Wait + Clock + Sync>(rt: &R, alloc: Global) -> Option<[bool; 4]> {
    named_bells_tell::<Brand, R>(rt, alloc, unnamed(alloc)?)
}

// What a thread hears that comes to wait at a bell once two packets are published there.
fn heard_behind<B: Room, R: Threads + Wait + Clock + Sync>(
    rt: &R,
    broker: &Broker<B>,
    end: &mut ClientEnd,
) -> Option<u64>
    requires { IsEndOf broker.now end.old }
{
    let bell = broker.doorbell(end.queue())?;
    for turn in 0..2 {
        if !publish_one(broker, end, &packet(0, turn)) {
            return None;
        }
    }
    Some(heard_within(rt, bell, DEADLINE))
}

// The same, of a broker that gets its name.
fn named_heard_behind<B: Room, R: Threads + Wait + Clock + Sync>(
    rt: &R,
    alloc: Global,
    unnamed: UnnamedBroker,
) -> Option<u64>
    requires { (unnamed.board ≡ B.board) × (unnamed.core ≡ B.opened) }
{
    let (stage, end) = split_last_end(stage::<B>(alloc, unnamed, 1, 1)?)?;
    let mut end = end;
    heard_behind(rt, &stage.broker, &mut end)
}

// The same, of a broker that is opened for it.
fn one_heard_behind<R: Threads + Wait + Clock + Sync>(rt: &R, alloc: Global) -> Option<u64> {
    named_heard_behind::<Brand, R>(rt, alloc, unnamed(alloc)?)
}

// Ends a producer that publishes nothing.
fn end_heard<B: Room, C: Clock>(
    clock: &C,
    broker: &Broker<B>,
    gate: &LoadGate,
    end: &mut ClientEnd,
    bell: &Doorbell,
    heard: &AtomicU64,
)
    requires { IsEndOf broker.now end.old }
    ensures { IsEndOf broker.now end.new }
{
    produce(broker, &FIRST_PLANNED, NOTHING, gate, end);
    free(clock, bell, heard, DEADLINE);
}

// Whether a thread that waits at a bell hears the end of a producer.
fn end_tells<B: Room + Send + Sync, R: Threads + Wait + Clock + Sync>(
    rt: &R,
    broker: &Broker<B>,
    gate: &LoadGate,
    end: ClientEnd,
    bell: &Doorbell,
) -> bool
    requires { IsEndOf broker.now end }
{
    let mut end = end;
    let heard = AtomicU64::new(0);
    let (told, _) = thread::join(
        rt,
        || hear_once(rt, bell, &heard),
        || end_heard(rt, broker, gate, &mut end, bell, &heard),
    );
    told != NOT_HEARD
}

// Whether the end of the first queue's producer is heard at its bell, of a broker that gets its name.
fn named_end_tells<B: Room + Send + Sync, R: Threads + Wait + Clock + Sync>(
    rt: &R,
    alloc: Global,
    unnamed: UnnamedBroker,
) -> Option<bool>
    requires { (unnamed.board ≡ B.board) × (unnamed.core ≡ B.opened) }
{
    let gate = LoadGate::new(alloc, 1, 0).ok()?;
    let (stage, end) = split_last_end(stage::<B>(alloc, unnamed, 1, 1)?)?;
    let bell = stage.broker.doorbell(end.queue())?;
    Some(end_tells(rt, &stage.broker, &gate, end, bell))
}

// The same, of a broker that is opened for it.
fn an_end_tells<R: Threads + Wait + Clock + Sync>(rt: &R, alloc: Global) -> Option<bool> {
    named_end_tells::<Brand, R>(rt, alloc, unnamed(alloc)?)
}

#[test]
fn a_producers_end_is_heard_at_its_queues_bell(rt: HostRuntime) {
    assert!(rt; an_end_tells(&rt, rt.alloc()) == Some(true));
}

#[test]
fn a_published_packet_is_told_by_its_own_queues_bell_alone(rt: HostRuntime) {
    assert!(rt; bells_tell(&rt, rt.alloc()) == Some([true; 4]));
}

#[test]
fn who_waits_behind_the_ring_hears_the_last_packet(rt: HostRuntime) {
    assert!(rt; one_heard_behind(&rt, rt.alloc()) == Some(1));
}
