//! The queues of a plan are opened.

ghost use Rattle.std.specs.Prelude.{◌≡◌, ◌<◌, ◌∷◌, ◌++◌, [], All, IfErr, IfOk, List, OnOk, length};
ghost use mathlib.Core.List.{IsPrefix};
ghost use Rattle.client_threads.specs.HandedOver.{KeepsAll};
ghost use Rattle.client_threads.specs.Boards.{all_shares, fresh_of};
ghost use Rattle.client_threads.specs.Opening.{IsOpened, OpensQueue, before_lane, opening_event};
ghost use Rattle.client_threads.specs.Running.{IsEndOf, IsLaneOf};
ghost use Rattle.client_threads.specs.Sections.{IsSection};
ghost use Rattle.core_model.specs.declared.outcome.Outcome.{Outcome};
ghost use Rattle.policy.specs.Results.{map_ok};
ghost use Rattle.threads_load.specs.Grantings.{HasAllAllowed};
ghost use Rattle.threads_load.specs.Limits.{load_slots};
ghost use Rattle.threads_load.specs.Publications.{IsUnused};
ghost use Rattle.threads_load.specs.Stages.{AreOf, HasQueues, HaveShares, IsLoadRing, IsReady, IsStage, WasLeft};
ghost use Rattle.threads_load.specs.declared.plan.PlannedQueue.{PlannedQueue};

use crate::fault::LoadFault;
use crate::looking::look_for_queues;
use crate::plan::PlannedQueue;
use client_threads::{Broker, ClientEnd, Front, Lane, Opened, Room};
use core_model::Refusal;
use std::alloc::{AllocError, AllocFailed, Global};

/// How many slots a queue of the load has.
const MOST_IN_FLIGHT: u64 = 16;

/// A broker, what was seen of its core, and the ends and the lanes of its queues.
#[derive(Drop)]
pub struct Stage<B: Room> {
    pub broker: Broker<B>,
    pub front: Front,
    pub ends: Vec<ClientEnd>,
    pub lanes: Vec<Lane>,
}

// Opens a planned queue for so many producers: the client's, on the agent, as the plan says.
#[tactic(auto, using(crate::proofs::Shares::opened_begins))]
fn open_queue<B: Room>(
    alloc: Global,
    broker: &mut Broker<B>,
    front: &mut Front,
    planned: PlannedQueue,
    producers: u64,
) -> Result<Opened, Refusal>
    requires front { (front.old.board ≡ B.board) × (1 < front.old.share) }
    ensures front { front.new.board ≡ B.board }
    ensures section { IsSection B.opened front.old (before_lane result front.new) (λ before after.
        OpensQueue (opening_event planned.client planned.agent load_slots producers) before.history (map_ok (λ o. Outcome.Opened o.0) result) after.history) }
    ensures begins { IsPrefix front.old.left front.new.left }
    ensures opened { IfOk result (λ o. IsOpened broker.old load_slots producers (fresh_of front.new) o.0 o.1.items o.2 broker.new) }
    ensures refused { IfErr result (λ _. broker.new ≡ broker.old) }
{
    broker.open_queue(
        alloc,
        front,
        planned.client,
        planned.agent,
        MOST_IN_FLIGHT,
        producers,
    )
}

// Puts ends of a broker behind others.
fn put_ends<B: Room>(
    broker: &Broker<B>,
    more: Vec<ClientEnd>,
    ends: &mut Vec<ClientEnd>,
) -> Result<(), AllocError>
    requires more { All (λ end. IsEndOf broker.now end) more.items }
    requires ends { All (λ end. IsEndOf broker.now end) ends.old.items }
    ensures ends { All (λ end. IsEndOf broker.now end) ends.new.items }
    ensures put { OnOk result (ends.new.items ≡ ends.old.items ++ more.items) }
{
    let mut more = more;
    ends.append(&mut more)
}

// Puts a lane of a broker behind others.
#[tactic(auto, using(crate::proofs::Belonging::one_lane_more))]
fn put_lane<B: Room>(
    broker: &Broker<B>,
    lane: Lane,
    lanes: &mut Vec<Lane>,
) -> Result<(), AllocFailed<Lane>>
    requires lane { IsLaneOf B.board broker.now lane }
    requires lanes { All (λ lane. IsLaneOf B.board broker.now lane) lanes.old.items }
    ensures lanes { All (λ lane. IsLaneOf B.board broker.now lane) lanes.new.items }
    ensures put { OnOk result (lanes.new.items ≡ lanes.old.items ++ lane ∷ []) }
{
    lanes.push(lane)
}

// Puts the ends and the lane of a queue that was opened behind the others.
fn put_queue<B: Room>(
    broker: &Broker<B>,
    opened: Opened,
    ends: &mut Vec<ClientEnd>,
    lanes: &mut Vec<Lane>,
) -> Result<(), AllocError>
    requires more { All (λ end. IsEndOf broker.now end) opened.1.items }
    requires lane { IsLaneOf B.board broker.now opened.2 }
    requires ends { All (λ end. IsEndOf broker.now end) ends.old.items }
    requires lanes { All (λ lane. IsLaneOf B.board broker.now lane) lanes.old.items }
    ensures ends { All (λ end. IsEndOf broker.now end) ends.new.items }
    ensures lanes { All (λ lane. IsLaneOf B.board broker.now lane) lanes.new.items }
    ensures put_ends { OnOk result (ends.new.items ≡ ends.old.items ++ opened.1.items) }
    ensures put { OnOk result (lanes.new.items ≡ lanes.old.items ++ opened.2 ∷ []) }
{
    let (_, more, lane) = opened;
    put_ends(broker, more, ends)?;
    match put_lane(broker, lane, lanes) {
        Ok(()) => Ok(()),
        Err(_) => Err(AllocError),
    }
}

// Opens a planned queue, and puts its ends and its lane behind the others. It has the number of its place in the plan.
#[tactic(auto, using(crate::proofs::Belonging::new_ends, crate::proofs::Belonging::new_lane, crate::proofs::Belonging::kept_ends, crate::proofs::Belonging::kept_lanes))]
fn open_next<B: Room>(
    alloc: Global,
    broker: &mut Broker<B>,
    front: &mut Front,
    planned: PlannedQueue,
    producers: u64,
    ends: &mut Vec<ClientEnd>,
    lanes: &mut Vec<Lane>,
) -> Result<(), LoadFault>
    requires front { front.old.board ≡ B.board }
    requires ends { All (λ end. IsEndOf broker.old end) ends.old.items }
    requires lanes { All (λ lane. IsLaneOf B.board broker.old lane) lanes.old.items }
    requires shares { HaveShares front.old lanes.old.items }
    ensures front { front.new.board ≡ B.board }
    ensures begins { IsPrefix front.old.left front.new.left }
    ensures ends { OnOk result (All (λ end. IsEndOf broker.new end) ends.new.items) }
    ensures lanes { OnOk result (All (λ lane. IsLaneOf B.board broker.new lane) lanes.new.items) }
    ensures shares { OnOk result (HaveShares front.new lanes.new.items) }
    ensures keeps { All KeepsAll lanes.old.items → OnOk result (All KeepsAll lanes.new.items) }
    ensures rings { All (IsLoadRing producers) broker.old → OnOk result (All (IsLoadRing producers) broker.new) }
    ensures unused { All IsUnused ends.old.items → OnOk result (All IsUnused ends.new.items) }
    ensures queues { (before : List PlannedQueue) → AreOf (length before) lanes.old.items → OnOk result (AreOf (length (before ++ planned ∷ [])) lanes.new.items) }
{
    let number = lanes.len() as u64 + 1;
    match open_queue(alloc, broker, front, planned, producers) {
        Err(why) => Err(LoadFault::from(why)),
        Ok(opened) => {
            if opened.0.0 != number {
                return Err(LoadFault::OtherQueue);
            }
            match put_queue(broker, opened, ends, lanes) {
                Err(want) => Err(LoadFault::from(want)),
                Ok(()) => Ok(()),
            }
        }
    }
}

// Opens the queues of a plan.
fn open_queues<B: Room>(
    alloc: Global,
    broker: &mut Broker<B>,
    front: &mut Front,
    plan: &[PlannedQueue],
    producers: u64,
    ends: &mut Vec<ClientEnd>,
    lanes: &mut Vec<Lane>,
) -> Result<(), LoadFault>
    requires front { front.old.board ≡ B.board }
    requires ends { All (λ end. IsEndOf broker.old end) ends.old.items }
    requires lanes { All (λ lane. IsLaneOf B.board broker.old lane) lanes.old.items }
    requires shares { HaveShares front.old lanes.old.items }
    ensures front { front.new.board ≡ B.board }
    ensures begins { IsPrefix front.old.left front.new.left }
    ensures ends { OnOk result (All (λ end. IsEndOf broker.new end) ends.new.items) }
    ensures lanes { OnOk result (All (λ lane. IsLaneOf B.board broker.new lane) lanes.new.items) }
    ensures shares { OnOk result (HaveShares front.new lanes.new.items) }
    ensures keeps { All KeepsAll lanes.old.items → OnOk result (All KeepsAll lanes.new.items) }
    ensures rings { All (IsLoadRing producers) broker.old → OnOk result (All (IsLoadRing producers) broker.new) }
    ensures unused { All IsUnused ends.old.items → OnOk result (All IsUnused ends.new.items) }
    ensures queues { AreOf 0 lanes.old.items → OnOk result (AreOf (length plan.now) lanes.new.items) }
{
    for planned in plan {
        open_next(alloc, broker, front, *planned, producers, ends, lanes)?;
    }
    Ok(())
}

// Looks for the queues of a plan, in a section.
fn look_alone<B: Room>(
    broker: &mut Broker<B>,
    front: &mut Front,
    plan: &[PlannedQueue],
) -> Result<(), LoadFault>
    requires { front.old.board ≡ B.board }
    ensures front { front.new.board ≡ B.board }
    ensures section { IsSection B.opened front.old front.new (λ before after. OnOk result (HasQueues after plan.now)) }
    ensures rings { broker.new ≡ broker.old }
{
    broker.with_core_alone(front, |core| look_for_queues(core, plan))
}

/// Opens the queues of a plan over a broker, each for so many producers, through the front that has all shares. Where all
/// that is allowed was granted, the stage is ready: its lanes are just those of the plan's queues, each opened by its
/// client on its agent, in order. Each ring has 16 slots, and as many producers as are asked for.
pub fn open_stage<B: Room>(
    alloc: Global,
    broker: Broker<B>,
    front: Front,
    plan: &[PlannedQueue],
    producers: u64,
) -> Result<Stage<B>, LoadFault>
    requires { (front.board ≡ B.board) × (front.share ≡ all_shares) }
    ensures stage { IfOk result (IsStage B.board) }
    ensures ready { WasLeft front.left (λ left. HasAllAllowed left.history) → IfOk result (IsReady plan.now) }
    ensures rings { All (IsLoadRing producers) broker → IfOk result (λ stage. All (IsLoadRing producers) stage.broker) }
    ensures unused { IfOk result (λ stage. All IsUnused stage.ends.items) }
{
    let mut broker = broker;
    let mut front = front;
    let mut ends = Vec::new(alloc);
    let mut lanes = Vec::new(alloc);
    open_queues(
        alloc,
        &mut broker,
        &mut front,
        plan,
        producers,
        &mut ends,
        &mut lanes,
    )?;
    look_alone(&mut broker, &mut front, plan)?;
    Ok(Stage {
        broker,
        front,
        ends,
        lanes,
    })
}
