//! The measurements of the ring over atomics.

ghost use Rattle.std.specs.Prelude.{◌≡◌, All};
ghost use Rattle.std.specs.Thread.{IsSync};

use crate::fault::Fault;
use crate::lane::{send, send_from_threads, take, take_all};
use crate::mark::Mark;
use ring::{ProcessorPass, ProducerPass, Ring};
use std::alloc::Global;
use std::thread;
use std::thread::Threads;
use std::time::{Clock, Duration, Instant};

/// How many slots the measured rings have.
const MOST_IN_FLIGHT: u64 = 64;

/// Sends packets through a ring and takes each at once, all on one thread, and tells how long it took.
pub fn one_thread(rt: &impl Clock, alloc: Global, packets: u64) -> Result<Duration, Fault> {
    let (ring, mut passes, mut processor) = Ring::new(alloc, MOST_IN_FLIGHT, 1)?;
    let Some(mut producer) = passes.pop() else {
        return Err(Fault::Refused);
    };
    let start = Instant::now(rt)?;
    send_and_take_in_turn(&ring, &mut producer, &mut processor, packets)?;
    Ok(start.elapsed(rt)?)
}

/// Sends packets and takes each at once.
fn send_and_take_in_turn(
    ring: &Ring,
    producer: &mut ProducerPass,
    processor: &mut ProcessorPass,
    packets: u64,
) -> Result<(), Fault>
    requires producer { producer.old.table ≡ ring.now.table }
    requires processor { processor.old.table ≡ ring.now.table }
{
    for number in 0..packets {
        let mark = Mark {
            producer: 1,
            number,
        };
        send(ring, producer, mark)?;
        if take(ring, processor)? != mark {
            return Err(Fault::NotWhole);
        }
    }
    Ok(())
}

/// Sends so many packets from each producer, each on a thread of its own, while the processor takes them
/// on another, and tells how long it took.
pub fn many_threads<R: Threads + Clock + Sync>(
    rt: &R,
    alloc: Global,
    producers: u64,
    packets: u64,
) -> Result<Duration, Fault> {
    let (ring, mut passes, mut processor) = Ring::new(alloc, MOST_IN_FLIGHT, producers)?;
    let start = Instant::now(rt)?;
    send_and_take(rt, &ring, &mut processor, packets, passes.as_mut_slice())?;
    Ok(start.elapsed(rt)?)
}

/// All producers send, while the processor takes what they send.
fn send_and_take<R: Threads + Sync>(
    rt: &R,
    ring: &Ring,
    processor: &mut ProcessorPass,
    packets: u64,
    producers: &mut [ProducerPass],
) -> Result<(), Fault>
    requires producers { All (λ pass. pass.table ≡ ring.now.table) producers.old }
    requires processor { processor.old.table ≡ ring.now.table }
{
    let wanted = packets.saturating_mul(producers.len() as u64);
    let (_, taken) = thread::join_mut(
        rt,
        &mut ||
            requires { IsSync R.row × All (λ pass. pass.table ≡ ring.now.table) producers.now }
        { send_from_threads(rt, ring, packets, producers) },
        &mut || take_all(ring, processor, wanted),
    );
    taken
}
