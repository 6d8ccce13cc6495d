//! Lanes run, each on a thread of its own.

ghost use Rattle.std.specs.Prelude.{◌≡◌, ◌<◌, ℕ, List, [], length, false, true, All};
ghost use Rattle.std.specs.List.{sum_by};
ghost use Rattle.ring.specs.declared.processor.Peeked.{Peeked};
ghost use Rattle.core_model.specs.History.{Part};
ghost use Rattle.client_threads.specs.HandedOver.{AreSettledWith};
ghost use Rattle.client_threads.specs.Advancing.{AdvancesTo};
ghost use Rattle.client_threads.specs.Lanes.{share_of};
ghost use Rattle.client_threads.specs.Running.{EachGoesOn, GoesOn, IsLaneOf, IsTurn, KeepsOn};
ghost use Rattle.client_threads.specs.inner.Turns.{DoesFound, FoundTo, HasTurned, HasWork, IsFoundBy, IsFoundTurn, ServesIn, StandsIn, StaysOn};

use crate::advancing::{Advanced, advance_one};
use crate::board::Board;
use crate::broker::Broker;
use crate::lane::Lane;
use crate::room::{Held, Room};
use crate::serving::{ServeAnswer, serve_shown};
use access_core::AccessCore;
use ring::{Peeked, Ring};
use std::alloc::Global;
use std::sync::{MutexGuard, Wait};
use std::thread;
use std::thread::Threads;

/// How often a lane looks whether the lock is free before it sleeps.
const LOOKS: u32 = 64;

/// What a lane did in one turn.
#[derive(Clone, Copy, Debug, PartialEq, Eq)]
pub struct LaneAnswer {
    /// What became of the next packet of its queue.
    pub served: ServeAnswer,
    /// What became of the first of its pending packets.
    pub advanced: Advanced,
}

/// What lets lanes make their turns, and is told what they did. Lanes call it from threads of their own.
pub trait Gate {
    /// Whether a lane makes this turn, or ends. The lane's number is its queue's; turns count from 1. It may
    /// wait, at a doorbell for one.
    fn enter(&self, lane: u32, turn: u64) -> bool;

    /// A lane made this turn.
    fn leave(&self, lane: u32, turn: u64, done: LaneAnswer);
}

// Whether a lane has nothing to do: its pass found no packet, and none is pending.
fn is_idle(found: &Peeked, lane: &Lane) -> bool
    ensures idle { result ≡ true → (found.now ≡ Peeked.Empty) × (lane.now.pending ≡ []) }
    ensures busy { result ≡ false → HasWork found.now lane.now }
{
    match found {
        Peeked::Empty => lane.pending().is_empty(),
        Peeked::Shown(_) => false,
    }
}

// A lane hands what its pass found to the core, if that is a packet.
#[tactic(auto, using(crate::proofs::Turning::hands_in, crate::proofs::Turning::stays_in))]
fn serve(
    alloc: Global,
    lane: &mut Lane,
    core: &mut AccessCore,
    ring: &Ring,
    found: Peeked,
) -> ServeAnswer
    requires ring { lane.old.pass.table ≡ ring.now.table }
    requires found { IsFoundBy found lane.old.pass }
    ensures serves { ServesIn lane.old core.old.history lane.new core.new.history }
    ensures found { FoundTo ring.now found lane.old core.old.history result lane.new core.new.history }
{
    match found {
        Peeked::Empty => ServeAnswer::Empty,
        Peeked::Shown(shown) => serve_shown(alloc, lane, core, ring, shown),
    }
}

// It advances its first pending packet.
#[tactic(auto, using(crate::proofs::Turning::advances_in))]
fn advance(alloc: Global, lane: &mut Lane, core: &mut AccessCore) -> Advanced
    ensures serves { ServesIn lane.old core.old.history lane.new core.new.history }
    ensures advances { AdvancesTo lane.old core.old.history result lane.new core.new.history }
{
    advance_one(alloc, lane, core)
}

// One turn of a lane, in a section.
fn do_turn(
    alloc: Global,
    lane: &mut Lane,
    core: &mut AccessCore,
    ring: &Ring,
    found: Peeked,
) -> LaneAnswer
    requires ring { lane.old.pass.table ≡ ring.now.table }
    requires found { IsFoundBy found lane.old.pass }
    ensures serves { ServesIn lane.old core.old.history lane.new core.new.history }
    ensures does { DoesFound ring.now found lane.old core.old.history result lane.new core.new.history }
{
    let served = serve(alloc, lane, core, ring, found);
    let advanced = advance(alloc, lane, core);
    LaneAnswer { served, advanced }
}

impl<B: Room> Held<B> {
    // One turn of a lane, in a section through its front, which the lane has seen then.
    fn turn(
        &mut self,
        alloc: Global,
        board: &Board,
        lane: &mut Lane,
        ring: &Ring,
        found: Peeked,
    ) -> LaneAnswer
        requires board { (board.now ≡ B.board) × (lane.old.front.board ≡ B.board) }
        requires ring { lane.old.pass.table ≡ ring.now.table }
        requires found { IsFoundBy found lane.old.pass }
        requires stands { StandsIn lane.old }
        ensures on { GoesOn lane.old lane.new }
        ensures board { lane.new.front.board ≡ B.board }
        ensures stands { StandsIn lane.new }
        ensures turn { IsFoundTurn B.opened ring.now found lane.old result lane.new }
    {
        self.core.audit();
        let done = do_turn(alloc, lane, &mut self.core, ring, found);
        self.core.audit();
        lane.leave(board, &mut self.keeper, &self.core);
        done
    }
}

impl<B: Room> Broker<B> {
    // What lies under the lock, for a turn. A section is short, so a lane that finds it taken looks again for a while
    // before it sleeps.
    fn hold<R: Wait>(&self, rt: &R) -> MutexGuard<'_, Held<B>> {
        for _look in 0..LOOKS {
            if let Some(guard) = self.held.try_lock() {
                return guard;
            }
            thread::yield_now();
        }
        self.held.lock(rt)
    }

    // One turn of a lane that has something to do.
    fn turn_locked<R: Wait>(
        &self,
        rt: &R,
        alloc: Global,
        lane: &mut Lane,
        ring: &Ring,
        found: Peeked,
    ) -> LaneAnswer
        requires ring { lane.old.pass.table ≡ ring.now.table }
        requires found { IsFoundBy found lane.old.pass }
        requires lane { IsLaneOf B.board self.now lane.old }
        ensures on { StaysOn B.board self.now lane.old lane.new }
        ensures turn { IsFoundTurn B.opened ring.now found lane.old result lane.new }
    {
        let mut guard = self.hold(rt);
        let held = &mut *guard;
        held.turn(alloc, &self.board, lane, ring, found)
    }

    // One turn of a lane. Where it has nothing to do, it doesn't ask for the lock.
    #[tactic(auto, using(crate::proofs::GoingOn::looked_of, crate::proofs::GoingOn::looked_keeps_on, crate::proofs::GoingOn::looked_then_on, crate::proofs::Handing::looked_table, crate::proofs::TurnsMade::idle_turn, crate::proofs::TurnsMade::looked_then_turned))]
    fn turn<R: Wait>(&self, rt: &R, alloc: Global, lane: &mut Lane, ring: &Ring) -> LaneAnswer
        requires ring { lane.old.pass.table ≡ ring.now.table }
        requires lane { IsLaneOf B.board self.now lane.old }
        ensures on { StaysOn B.board self.now lane.old lane.new }
        ensures turn { IsTurn B.opened ring.now lane.old result lane.new }
    {
        let found = lane.look(ring);
        if is_idle(&found, lane) {
            return LaneAnswer {
                served: ServeAnswer::Empty,
                advanced: Advanced::Idle,
            };
        }
        self.turn_locked(rt, alloc, lane, ring, found)
    }
}

// Turns of a lane on its ring, from 1 on, until the gate doesn't let it in.
#[tactic(auto, using(crate::proofs::GoingOn::stays_on_none, crate::proofs::GoingOn::stays_on_both, crate::proofs::GoingOn::still_on, crate::proofs::TurnsMade::no_turn, crate::proofs::TurnsMade::one_turn_more))]
fn run_on<B: Room, R: Wait, G: Gate>(
    rt: &R,
    alloc: Global,
    broker: &Broker<B>,
    lane: &mut Lane,
    ring: &Ring,
    gate: &G,
)
    requires ring { lane.old.pass.table ≡ ring.now.table }
    requires lane { IsLaneOf B.board broker.now lane.old }
    ensures on { StaysOn B.board broker.now lane.old lane.new }
    ensures turns { HasTurned B.opened ring.now lane.old lane.new }
{
    let number = lane.number();
    for before in 0..u64::MAX {
        let turn = before + 1;
        if !gate.enter(number, turn) {
            return;
        }
        let done = broker.turn(rt, alloc, lane, ring);
        gate.leave(number, turn, done);
    }
}

// Turns of a lane. Its ring is looked up once.
#[tactic(auto, using(crate::proofs::GoingOn::table_of, crate::proofs::TurnsMade::turned_on))]
fn run_lane<B: Room, R: Wait, G: Gate>(
    rt: &R,
    alloc: Global,
    broker: &Broker<B>,
    lane: &mut Lane,
    gate: &G,
)
    requires { IsLaneOf B.board broker.now lane.old }
    ensures { KeepsOn B.opened B.board broker.now lane.old lane.new }
{
    let ring = broker.ring_of(lane.queue());
    run_on(rt, alloc, broker, lane, ring, gate);
}

// Runs lanes, each on a thread of its own where one can be made, until each has ended.
fn run_each<B: Room + Send + Sync, R: Threads + Wait + Sync, G: Gate + Sync>(
    rt: &R,
    alloc: Global,
    broker: &Broker<B>,
    lanes: &mut [Lane],
    gate: &G,
)
    requires some { 0 < length lanes.old }
    requires lanes { All (λ lane. IsLaneOf B.board broker.now lane) lanes.old }
    ensures { EachGoesOn B.opened B.board broker.now lanes.old lanes.new }
{
    let threads = lanes.len();
    thread::for_each_mut(
        rt,
        lanes,
        threads,
        &|_, lane| run_lane(rt, alloc, broker, lane, gate),
    );
}

// Runs any number of lanes so.
fn run_any<B: Room + Send + Sync, R: Threads + Wait + Sync, G: Gate + Sync>(
    rt: &R,
    alloc: Global,
    broker: &Broker<B>,
    lanes: Vec<Lane>,
    gate: &G,
) -> Vec<Lane>
    requires { All (λ lane. IsLaneOf B.board broker.now lane) lanes.items }
    ensures count { length result.items ≡ length lanes.items }
    ensures each { EachGoesOn B.opened B.board broker.now lanes.items result.items }
{
    let mut lanes = lanes;
    if lanes.len() > 0 {
        run_each(rt, alloc, broker, lanes.as_mut_slice(), gate);
    }
    lanes
}

/// Runs lanes, each on a thread of its own, until the gate has ended each of them or it made 2^64 - 1 turns.
/// In a turn the gate is asked whether the lane enters; then the next packet of its queue is handed to the core and its
/// first pending packet is advanced, in one section under the core's lock, for which it doesn't ask where its ring shows no
/// packet and none is pending; then the gate is told. Where no thread can be made, lanes run one after another. It takes no
/// memory of its own. The lanes come back in the order in which they were handed in, each of its queue and ring; what each
/// served begins with what it had served, and stands, in order, among what the core took by the states that the lane has
/// seen. Each made turns and nothing else, with these answers: a turn is a section of the lane's own, in which at most a
/// take of its queue is entered, with the bytes that its pass was shown, and at most one call for its first pending packet,
/// or no section where neither is. What they had handed over stays so: parts that were settled with them still are.
pub fn run_lanes<B: Room + Send + Sync, R: Threads + Wait + Sync, G: Gate + Sync>(
    rt: &R,
    alloc: Global,
    broker: &Broker<B>,
    lanes: Vec<Lane>,
    gate: &G,
) -> Vec<Lane>
    requires { All (λ lane. IsLaneOf B.board broker.now lane) lanes.items }
    ensures count { length result.items ≡ length lanes.items }
    ensures each { EachGoesOn B.opened B.board broker.now lanes.items result.items }
    ensures lanes { All (λ lane. IsLaneOf B.board broker.now lane) result.items }
    ensures shares { sum_by share_of result.items ≡ sum_by share_of lanes.items }
    ensures settled { (parts : List Part) → AreSettledWith parts lanes.items → AreSettledWith parts result.items }
{
    run_any(rt, alloc, broker, lanes, gate)
}
