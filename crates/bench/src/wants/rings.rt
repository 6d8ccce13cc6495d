//! A list of steps is replayed, and a ring opens and is settled.

ghost use Rattle.std.specs.Prelude.{◌≡◌, All};

use crate::fault::Fault;
use crate::wants::telling::{tell_two, tell_want};
use ring::{ProcessorPass, ProducerPass, Ring, RingFault, SettleFault, Settled, Unsettled, settle};
use ring_core::{Access, ReplayFault, RingState, Step, replay};
use std::alloc::Global;

/// How many slots a ring has.
const SLOTS: u64 = 2;

/// How many producers.
const PRODUCERS: u64 = 2;

/// Two producers reserve three ids.
const STEPS: [Step; 3] = [
    Step {
        seat: 1,
        access: Access::Reserve,
    },
    Step {
        seat: 2,
        access: Access::Reserve,
    },
    Step {
        seat: 1,
        access: Access::Reserve,
    },
];

// (it has no contract, so that its callers don't carry that of `replay`)
fn replay_once(alloc: Global) -> Result<RingState, ReplayFault> {
    replay(alloc, SLOTS, PRODUCERS, &STEPS)
}

// Says to which indices a replayed ring came.
fn tell_replayed(rt: &HostRuntime, ring: RingState) -> Result<(), Fault> {
    tell_two(rt, "replay", ring.write_index(), ring.read_index())
}

// Replays the steps for the second time.
fn replay_again(rt: &HostRuntime) -> Result<(), Fault> {
    match replay_once(rt.alloc()) {
        Ok(ring) => tell_replayed(rt, ring),
        Err(ReplayFault::OutOfMemory) => Err(Fault::OutOfMemory),
        Err(ReplayFault::NotAStep(_)) => Err(Fault::Refused),
    }
}

/// Replays steps, once more where that wants memory.
pub fn replay_steps(rt: &HostRuntime) -> Result<(), Fault> {
    match replay_once(rt.alloc()) {
        Ok(ring) => tell_replayed(rt, ring),
        Err(ReplayFault::OutOfMemory) => {
            tell_want(rt, "replay")?;
            replay_again(rt)
        }
        Err(ReplayFault::NotAStep(_)) => Err(Fault::Refused),
    }
}

// Says to which indices a settled ring came.
fn tell_settled(rt: &HostRuntime, settled: Settled) -> Result<(), Fault> {
    tell_two(rt, "settle", settled.write_index, settled.read_index)
}

// Settles a ring that came back.
fn settle_again(
    rt: &HostRuntime,
    ring: Ring,
    producers: Vec<ProducerPass>,
    processor: ProcessorPass,
) -> Result<(), Fault>
    requires producers { All (λ pass. pass.table ≡ ring.table) producers.items }
    requires processor { processor.table ≡ ring.table }
{
    let said = tell_want(rt, "settle");
    let done = match settle(rt.alloc(), ring, producers, processor) {
        Ok(settled) => tell_settled(rt, settled),
        Err(_) => Err(Fault::OutOfMemory),
    };
    said?;
    done
}

// Settles a ring, once more where that wants memory.
fn settle_ring(
    rt: &HostRuntime,
    ring: Ring,
    producers: Vec<ProducerPass>,
    processor: ProcessorPass,
) -> Result<(), Fault>
    requires producers { All (λ pass. pass.table ≡ ring.table) producers.items }
    requires processor { processor.table ≡ ring.table }
{
    match settle(rt.alloc(), ring, producers, processor) {
        Ok(settled) => tell_settled(rt, settled),
        Err(back) => {
            let Unsettled {
                fault,
                ring,
                producers,
                processor,
            } = back;
            match fault {
                SettleFault::OutOfMemory => settle_again(rt, ring, producers, processor),
                SettleFault::MissingPass => Err(Fault::Refused),
            }
        }
    }
}

// Settles a ring that was opened.
fn settle_opened(
    rt: &HostRuntime,
    ring: Ring,
    producers: Vec<ProducerPass>,
    processor: ProcessorPass,
) -> Result<(), Fault>
    requires producers { All (λ pass. pass.table ≡ ring.table) producers.items }
    requires processor { processor.table ≡ ring.table }
{
    let said = tell_two(rt, "ring", SLOTS, ring.producers());
    let done = settle_ring(rt, ring, producers, processor);
    said?;
    done
}

// Opens a ring for the second time, and settles it.
fn open_again(rt: &HostRuntime) -> Result<(), Fault> {
    match Ring::new(rt.alloc(), SLOTS, PRODUCERS) {
        Ok((ring, producers, processor)) => settle_opened(rt, ring, producers, processor),
        Err(_) => Err(Fault::OutOfMemory),
    }
}

/// Opens a ring, once more where that wants memory, and settles it.
pub fn open_ring(rt: &HostRuntime) -> Result<(), Fault> {
    match Ring::new(rt.alloc(), SLOTS, PRODUCERS) {
        Ok((ring, producers, processor)) => settle_opened(rt, ring, producers, processor),
        Err(RingFault::OutOfMemory) => {
            tell_want(rt, "ring")?;
            open_again(rt)
        }
        Err(_) => Err(Fault::Refused),
    }
}
