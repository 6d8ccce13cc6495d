//! Audits that are rotated while lanes rest, and what settles with the parts that were handed out.

ghost use Rattle.std.specs.Prelude.{◌≡◌, IfSome};
ghost use Rattle.threads_load.specs.Stages.{IsStage, IsStageWith};

use crate::stages::{LOOKS, plan_of, stage, unnamed};
use access_core::AccessCore;
use client_threads::{Room, Settlement, UnnamedBroker, settle_all};
use core_model::Entry;
use std::alloc::Global;
use std::marker::Brand;
use std::sync::Wait;
use std::thread::Threads;
use threads_load::{
    HandedOut, LoadFault, LoadGate, PlannedQueue, Share, Stage, Watch, count_none, run_rotated,
};

/// How many packets each of two producers publishes to each of two queues.
const PACKETS: u64 = 500;

/// What each of them does.
const SHARE: Share = Share {
    packets: PACKETS,
    tries: LOOKS,
    are_renewed: false,
};

/// Counts the entries that it is shown.
#[derive(Drop)]
struct Counted(usize);

impl Watch for Counted {
    fn take(&mut self, entries: &[Entry]) -> Result<(), LoadFault> {
        self.0 = self.0.saturating_add(entries.len());
        Ok(())
    }

    fn see(&mut self, _finished: u64, _wanted: u64) {}
}

// Runs a plan in rounds, and rotates between two of them. Answers how many entries were handed out as well.
fn run_planned<B: Room + Send + Sync, R: Threads + Wait + Sync>(
    rt: &R,
    alloc: Global,
    stage: Stage<B>,
    plan: &[PlannedQueue],
) -> Option<(Stage<B>, HandedOut, usize)>
    requires { IsStage B.board stage }
    ensures { IfSome result (λ run. IsStageWith B.board run.1.settled run.0) }
{
    let gate = LoadGate::new(alloc, 2, 2 * PACKETS).ok()?;
    let counts = count_none(alloc, 2).ok()?;
    let mut shown = Counted(0);
    match run_rotated(rt, alloc, stage, plan, SHARE, &gate, counts, &mut shown) {
        (stage, out, Ok(())) => Some((stage, out, shown.0)),
        (_, _, Err(_)) => None,
    }
}

// The core, if the broker settles with what was handed out.
fn core_settled_with<B: Room>(alloc: Global, stage: Stage<B>, out: &HandedOut) -> Option<AccessCore>
    requires { IsStageWith B.board out.now.settled stage }
{
    let Stage {
        broker,
        front,
        ends,
        lanes,
    } = stage;
    let left = out.left.as_slice();
    match settle_all(alloc, broker, front, &out.settled, left, ends, lanes) {
        Ok(Settlement::Settled { core, .. }) => Some(core),
        _ => None,
    }
}

// Whether a finished packet was handed out, and how many entries there are in all.
fn named_run_in_rounds<B: Room + Send + Sync, R: Threads + Wait + Sync>(
    rt: &R,
    alloc: Global,
    unnamed: UnnamedBroker,
) -> Option<(bool, usize)>
    requires { (unnamed.board ≡ B.board) × (unnamed.core ≡ B.opened) }
{
    let plan = plan_of(alloc, 2)?;
    let stage = stage::<B>(alloc, unnamed, 2, 2)?;
    let (stage, out, handed_out) = run_planned(rt, alloc, stage, plan.as_slice())?;
    let core = core_settled_with(alloc, stage, &out)?;
    Some((
        11 <= handed_out,
        handed_out.checked_add(core.audit().len())?,
    ))
}

// The same, of a broker that is opened for it.
fn run_in_rounds<R: Threads + Wait + Sync>(rt: &R, alloc: Global) -> Option<(bool, usize)> {
    named_run_in_rounds::<Brand, R>(rt, alloc, unnamed(alloc)?)
}

// Six grants, two openings, and of each packet a launch, a run and a completion.
#[test]
fn a_broker_settles_with_the_parts_that_were_settled_between_rounds(rt: HostRuntime) {
    assert!(rt; run_in_rounds(&rt, rt.alloc()) == Some((true, 6_008)));
}
