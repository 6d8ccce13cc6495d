//! Rings that many threads use at once: a thread for each producer, and the processor on another.

ghost use Rattle.std.specs.Prelude.{◌≡◌, ◌<◌, All};
ghost use Rattle.std.specs.Thread.{IsSync};

use crate::load::{
    Turns, packet, publish_all, publish_one, publish_under, shows_nothing, stand_whole, take_all,
    take_shown_all,
};
use crate::two_threads::through;
use ring::{ProcessorPass, ProducerPass, Ring, settle};
use std::test::Fail;
use std::thread;
use std::thread::Threads;

// Publishes so many packets from each pass, each pass on a thread of its own.
fn publish_from_threads<R: Threads + Sync>(
    rt: &R,
    ring: &Ring,
    packets: u64,
    passes: &mut [ProducerPass],
)
    requires { All (λ pass. pass.table ≡ ring.now.table) passes.old }
    ensures { All (λ pass. pass.table ≡ ring.now.table) passes.new }
{
    thread::for_each_mut(rt, passes, 16, &|_, pass| publish_all(ring, pass, packets));
}

// All producers send so many packets each, while the processor takes them. Answers how many came whole and
// in order.
fn send_and_take<R: Threads + Sync>(
    rt: &R,
    ring: &Ring,
    processor: &mut ProcessorPass,
    packets: u64,
    producers: &mut [ProducerPass],
) -> u64
    requires producers { All (λ pass. pass.table ≡ ring.now.table) producers.old }
    requires processor { processor.old.table ≡ ring.now.table }
    ensures producers { All (λ pass. pass.table ≡ ring.now.table) producers.new }
    ensures processor { processor.new.table ≡ ring.now.table }
{
    let wanted = packets.saturating_mul(producers.len() as u64);
    let mut turns = Turns::new();
    let (_, taken) = thread::join_mut(
        rt,
        &mut ||
            requires { IsSync R.row × All (λ pass. pass.table ≡ ring.now.table) producers.now }
            ensures { All (λ pass. pass.table ≡ ring.entry.now.table) producers.exit.now }
        { publish_from_threads(rt, ring, packets, producers) },
        &mut || take_all(ring, processor, &mut turns, wanted),
    );
    taken
}

// The producers send so many packets each, while the processor takes the one that is there, and sees none
// behind it, however often it looks.
fn send_behind_a_gap<R: Threads + Sync>(
    rt: &R,
    ring: &Ring,
    processor: &mut ProcessorPass,
    turns: &mut Turns,
    packets: u64,
    producers: &mut [ProducerPass],
) -> bool
    requires producers { All (λ pass. pass.table ≡ ring.now.table) producers.old }
    requires processor { processor.old.table ≡ ring.now.table }
    ensures producers { All (λ pass. pass.table ≡ ring.now.table) producers.new }
    ensures processor { processor.new.table ≡ ring.now.table }
{
    let (_, seen) = thread::join_mut(
        rt,
        &mut ||
            requires { IsSync R.row × All (λ pass. pass.table ≡ ring.now.table) producers.now }
            ensures { All (λ pass. pass.table ≡ ring.entry.now.table) producers.exit.now }
        { publish_from_threads(rt, ring, packets, producers) },
        &mut || take_one_alone(ring, processor, turns),
    );
    seen
}

// Takes one packet, and looks for a further one in vain.
fn take_one_alone(ring: &Ring, pass: &mut ProcessorPass, turns: &mut Turns) -> bool
    requires { pass.old.table ≡ ring.now.table }
    ensures { pass.new.table ≡ pass.old.table }
{
    take_all(ring, pass, turns, 1) == 1 && shows_nothing(ring, pass, 1000)
}

// The first producer publishes one packet, and its thread ends with the ticket for another; the others
// publish so many.
fn publish_or_end(ring: &Ring, pass: &mut ProducerPass, packets: u64)
    requires { pass.old.table ≡ ring.now.table }
    ensures { pass.new.table ≡ pass.old.table }
{
    let producer = pass.number();
    if producer != 1 {
        publish_all(ring, pass, packets);
    } else if publish_one(ring, pass, &packet(producer, 0)) {
        let _ = pass.reserve(ring);
    }
}

// The same from threads of their own.
fn publish_round_a_gap<R: Threads + Sync>(
    rt: &R,
    ring: &Ring,
    packets: u64,
    passes: &mut [ProducerPass],
)
    requires { All (λ pass. pass.table ≡ ring.now.table) passes.old }
    ensures { All (λ pass. pass.table ≡ ring.now.table) passes.new }
{
    thread::for_each_mut(
        rt,
        passes,
        16,
        &|_, pass| publish_or_end(ring, pass, packets),
    );
}

#[test]
fn what_one_thread_sends_comes_out_in_the_other(rt: HostRuntime) {
    let Ok((ring, mut producers, processor)) = Ring::new(rt.alloc(), 2, 1) else {
        panic!(rt; "a ring opens")
    };
    let Some(producer) = producers.pop() else {
        panic!(rt; "there is one")
    };
    let bytes = packet(1, 0);
    assert!(rt; through(&rt, &ring, producer, processor, &bytes) == Some(bytes));
}

#[test]
fn sixteen_threads_send_and_a_seventeenth_takes(rt: HostRuntime) {
    let Ok((ring, mut producers, mut processor)) = Ring::new(rt.alloc(), 64, 16) else {
        panic!(rt; "a ring opens")
    };
    let taken = send_and_take(&rt, &ring, &mut processor, 1000, producers.as_mut_slice());
    assert_eq!(rt; taken, 16_000);
    let Ok(settled) = settle(rt.alloc(), ring, producers, processor) else {
        panic!(rt; "all passes are there")
    };
    assert_eq!(rt; settled.write_index, 16_000);
    assert_eq!(rt; settled.read_index, 16_000);
}

#[test]
fn a_stalled_producer_delays_the_processor_alone(rt: HostRuntime) -> Result<(), Fail> {
    let Ok((ring, mut producers, mut processor)) = Ring::new(rt.alloc(), 64, 4) else {
        panic!(rt; "a ring opens")
    };
    let Some(mut stalled) = producers.pop() else {
        panic!(rt; "there are four")
    };
    let mut turns = Turns::new();
    assert!(rt; publish_one(&ring, &mut stalled, &packet(4, 0)));
    let Ok(ticket) = stalled.reserve(&ring) else {
        panic!(rt; "an id is left")
    };
    let others = producers.as_mut_slice();
    assert!(rt; send_behind_a_gap(&rt, &ring, &mut processor, &mut turns, 20, others));
    assert!(rt; shows_nothing(&ring, &mut processor, 10));
    assert!(rt; publish_under(&ring, &mut stalled, ticket, &packet(4, 1)));
    assert_eq!(rt; take_all(&ring, &mut processor, &mut turns, 61), 61);
    assert!(rt; shows_nothing(&ring, &mut processor, 10));
    Ok(())
}

#[test]
fn a_thread_ends_with_an_open_ticket(rt: HostRuntime) {
    let Ok((ring, mut producers, mut processor)) = Ring::new(rt.alloc(), 64, 4) else {
        panic!(rt; "a ring opens")
    };
    publish_round_a_gap(&rt, &ring, 20, producers.as_mut_slice());
    let mut turns = Turns::new();
    let taken = take_shown_all(&ring, &mut processor, &mut turns, 61);
    assert!(rt; shows_nothing(&ring, &mut processor, 1000));
    let Ok(settled) = settle(rt.alloc(), ring, producers, processor) else {
        panic!(rt; "all passes are there")
    };
    assert_eq!(rt; settled.write_index, 62);
    assert_eq!(rt; settled.read_index, taken);
    assert!(rt; stand_whole(settled.slots.as_slice(), taken, 62, &mut turns));
}
