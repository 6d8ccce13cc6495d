//! The end of a broker: once its threads have ended, what the core decided is held against what was
//! published and served.

ghost use Rattle.std.specs.Prelude.{◌≡◌, ◌≢◌, ◌↔◌, ◌==◌, ◌&&◌, ℕ, ◌+◌, ◌<◌, ◌≤◌, [], ◌++◌, IfOk, IfErr, All, Some, None, true, false, length, map, is_some, slice_index_or, vec_capacity};
ghost use Rattle.std.specs.List.{sum_by};
ghost use Rattle.atomic_table.specs.Seated.{TableId};
ghost use Rattle.ring.specs.Settling.{has_pass, has_passes};
ghost use Rattle.client_threads.specs.Desks.{seen};
ghost use Rattle.client_threads.specs.HandedOver.{AreSettledWith};
ghost use Rattle.client_threads.specs.Rings.{AreApart};
ghost use Rattle.client_threads.specs.Running.{IsEndOf, IsLaneOf};
ghost use Rattle.client_threads.specs.Lanes.{LaneSeen};
ghost use Rattle.client_threads.specs.Takes.{lane_at};
ghost use Rattle.client_threads.specs.Settling.{AreSettled, IsClosed, IsLedTo, IsQueueSettled, IsRingSettled, IsSettlement, IsUnsettledFor, core_of, has_all_passes, has_its_passes, have_all_shares, passes_of};
ghost use Rattle.client_threads.specs.inner.Gatherings.{HasGathered, IsOnBoard, KnowsAll};
ghost use Rattle.client_threads.specs.inner.Rooms.{AreReady, AreRoomy, IsRoomFor, IsSomeOf};
ghost use Rattle.core_model.specs.History.{beginning};
ghost use Rattle.core_model.specs.Legal.{IsLegal};
ghost use Rattle.core_model.specs.Rotation.{LeadTo};

use crate::board::{Board, Front, Keeper};
use crate::broker::{Broker, Desk};
use crate::client_end::ClientEnd;
use crate::lane::Lane;
use crate::mismatch::{find_lane, find_mismatch};
use crate::room::Room;
use crate::settled_parts::SettledParts;
use crate::still::{StillBroker, UnsettledBroker};
use access_core::AccessCore;
use aql_packet::{PacketId, QueueId};
use core_model::Part;
use ring::{ProducerPass, Ring, SettleRoom, settle_in};
use std::alloc::{AllocError, Global};

/// A queue with its settled ring.
#[derive(Drop, Debug)]
pub struct SettledQueue {
    pub queue: QueueId,
    pub ring: ring::Settled,
}

/// What a broker came to.
#[derive(Drop)]
pub enum Settlement {
    /// Of each queue the parts and the audit have just the packets that its lane served, ids and bytes, and each
    /// ring is settled.
    Settled {
        core: AccessCore,
        rings: Vec<SettledQueue>,
    },
    /// They differ: this is the least queue and the least id at which.
    Mismatch {
        core: AccessCore,
        queue: QueueId,
        id: PacketId,
    },
}

/// Why a broker was not settled.
#[derive(Clone, Copy, Debug, PartialEq, Eq, thiserror::Error)]
pub enum SettleAllFault {
    /// Memory was wanted and not to be had.
    #[error("out of memory")]
    OutOfMemory,
    /// The end of a producer or the lane of a queue is not there.
    #[error("the end of a producer or the lane of a queue is missing")]
    MissingPass,
    /// The parts that were handed out don't follow each other from nothing on to the audit.
    #[error("the parts that were handed out do not follow each other")]
    NotNext,
    /// The front of one who may have made sections is not there.
    #[error("a front is missing")]
    MissingFront,
}

impl SettleAllFault {
    ghost use Rattle.client_threads.specs.Settling.{number_of_fault};

    /// The refusal's number (own).
    pub fn number(&self) -> u8
        ensures { result ≡ number_of_fault self.now }
    {
        match self {
            SettleAllFault::OutOfMemory => 0,
            SettleAllFault::MissingPass => 3,
            SettleAllFault::NotNext => 4,
            SettleAllFault::MissingFront => 5,
        }
    }
}

// Whether an end is a queue's, for the producer with a number.
fn is_end_of(end: &ClientEnd, queue: QueueId, number: u64) -> bool
    ensures { result ≡ ((end.now.queue.0 == queue.0) && (end.now.pass.number == number)) }
{
    end.queue.0 == queue.0 && end.pass.number() == number
}

// Whether the end of a queue for the producer with a number is among these.
#[tactic(auto, using(crate::proofs::Looking::end_found, crate::proofs::Looking::end_passed, crate::proofs::Looking::end_missing))]
fn has_end(ends: &[ClientEnd], queue: QueueId, number: u64) -> bool
    ensures { result ≡ has_pass number (passes_of queue.0 ends.now) }
{
    for end in ends {
        if is_end_of(end, queue, number) {
            return true;
        }
    }
    false
}

// Whether the ends of a queue for all producers from 1 to this number are.
fn has_ends(ends: &[ClientEnd], queue: QueueId, producers: u64) -> bool
    ensures { result ≡ has_passes producers (passes_of queue.0 ends.now) }
{
    for before in 0..producers {
        if !has_end(ends, queue, before + 1) {
            return false;
        }
    }
    true
}

// Whether all passes of a ring are among these ends and lanes.
fn has_its_passes(desk: &Desk, ends: &[ClientEnd], lanes: &[Lane]) -> bool
    ensures { result ≡ has_its_passes ends.now lanes.now (seen desk.now) }
{
    has_ends(ends, desk.queue, desk.ring.producers()) && find_lane(lanes, desk.queue).is_some()
}

// Whether all passes of all rings are.
#[tactic(auto, using(crate::proofs::Looking::ring_lacks, crate::proofs::Looking::ring_passed, crate::proofs::Looking::rings_have))]
pub(crate) fn has_all_passes(desks: &[Desk], ends: &[ClientEnd], lanes: &[Lane]) -> bool
    ensures { result ≡ has_all_passes (map seen desks.now) ends.now lanes.now }
{
    for desk in desks {
        if !has_its_passes(desk, ends, lanes) {
            return false;
        }
    }
    true
}

// Whether settled parts and then others lead to a core's audit, which is legal.
pub(crate) fn leads(settled: &SettledParts, parts: &[Part], core: &AccessCore) -> bool
    ensures legal { IsLegal (beginning core.now.history) core.now.history.entries }
    ensures lead { result ≡ true ↔ LeadTo (settled.now ++ parts.now) core.now.history.origin }
{
    core.audit();
    settled.lead_to(parts, core.start())
}

// Room to settle the ring of a queue: for the words of its slots, and for its producers' passes.
#[derive(Drop)]
pub(crate) struct QueueRoom {
    words: SettleRoom,
    passes: Vec<ProducerPass>,
}

// How many of these ends are of a queue.
fn count_ends(ends: &[ClientEnd], queue: QueueId) -> usize
    ensures { result ≡ length (passes_of queue.0 ends.now) }
{
    let mut count = 0;
    for end in ends {
        if end.queue.0 == queue.0 {
            count += 1;
        }
    }
    count
}

// Gets room to settle the ring of a queue.
fn room_for(alloc: Global, desk: &Desk, ends: &[ClientEnd]) -> Result<QueueRoom, AllocError>
    ensures { IfOk result (IsRoomFor ends.now (seen desk.now)) }
{
    let words = SettleRoom::new(alloc, &desk.ring)?;
    let passes = Vec::with_capacity(alloc, count_ends(ends, desk.queue))?;
    Ok(QueueRoom { words, passes })
}

// Gets room to settle all rings.
fn rooms_for(
    alloc: Global,
    desks: &[Desk],
    ends: &[ClientEnd],
) -> Result<Vec<QueueRoom>, AllocError>
    ensures { IfOk result (λ rooms. AreRoomy ends.now (map seen desks.now) rooms.items) }
{
    let mut rooms = Vec::with_capacity(alloc, desks.len())?;
    for desk in desks {
        rooms.push(room_for(alloc, desk, ends)?)?;
    }
    Ok(rooms)
}

// Moves the passes of a queue out of these ends, into room that was got for them.
#[tactic(auto, using(crate::proofs::Ends::move_one, crate::proofs::Ends::pass_over, crate::proofs::Ends::room_for_one, crate::proofs::Ends::moved_all, crate::proofs::Ends::moving_begins))]
fn take_passes(
    ends: &mut Vec<ClientEnd>,
    queue: QueueId,
    room: Vec<ProducerPass>,
) -> Vec<ProducerPass>
    requires none { room.items ≡ [] }
    requires room { length (passes_of queue.0 ends.old.items) ≤ vec_capacity room }
    ensures passes { result.items ≡ passes_of queue.0 ends.old.items }
    ensures others { (other : ℕ) → other ≢ queue.0 → passes_of other ends.new.items ≡ passes_of other ends.old.items }
{
    let mut passes = room;
    let mut place = 0;
    while place < ends.len() {
        if ends[place].queue.0 == queue.0 {
            let ClientEnd { pass, .. } = ends.remove(place);
            passes.push_reserved(pass);
        } else {
            place += 1;
        }
    }
    passes
}

// The place of the lane of a queue, which is among these.
fn lane_place(lanes: &[Lane], queue: QueueId) -> usize
    requires { is_some (lane_at queue.0 lanes.now) ≡ true }
    ensures within { result < length lanes.now }
    ensures found { (d : LaneSeen) → lane_at queue.0 lanes.now ≡ Some (slice_index_or lanes.now result d) }
    ensures its { (d : LaneSeen) → ((slice_index_or lanes.now result d).queue.0 == queue.0) ≡ true }
{
    for place in 0..lanes.len() {
        if lanes[place].queue().0 == queue.0 {
            return place;
        }
    }
    unreachable!()
}

// Moves the lane of a queue out of these.
#[tactic(auto, using(crate::proofs::Ends::lane_stays, crate::proofs::Gathering::sum_removed, crate::proofs::Gathering::all_removed, crate::proofs::Gathering::on_board))]
fn take_lane(lanes: &mut Vec<Lane>, queue: QueueId) -> Lane
    requires { is_some (lane_at queue.0 lanes.old.items) ≡ true }
    ensures lane { lane_at queue.0 lanes.old.items ≡ Some result }
    ensures others { (other : ℕ) → other ≢ queue.0 → lane_at other lanes.new.items ≡ lane_at other lanes.old.items }
    ensures sums { (g : LaneSeen → ℕ) → sum_by g lanes.new.items + g result ≡ sum_by g lanes.old.items }
    ensures on { (board : TableId) → All (IsOnBoard board) lanes.old.items → (result.front.board ≡ board) × All (IsOnBoard board) lanes.new.items }
{
    let place = lane_place(lanes.as_slice(), queue);
    lanes.remove(place)
}

// Settles the ring of a queue, of which all passes are there. The lane's front comes back.
fn settle_ring(
    board: &Board,
    keeper: &mut Keeper,
    ring: Ring,
    passes: Vec<ProducerPass>,
    lane: Lane,
    words: SettleRoom,
) -> ring::Settled
    requires passes { All (λ pass. pass.table ≡ ring.table) passes.items }
    requires lane { lane.pass.table ≡ ring.table }
    requires words { words ≡ ring.size }
    requires board { (keeper.old.board ≡ board.now) × (lane.front.board ≡ board.now) }
    ensures settled { IsRingSettled ring passes.items lane result }
    ensures gathered { keeper.new ≡ record keeper.old { share = keeper.old.share + lane.front.share; own = keeper.old.own ++ lane.front.own } }
    ensures knows { KnowsAll keeper.new }
{
    let Lane { pass, front, .. } = lane;
    board.collect(keeper, front);
    settle_in(ring, passes, pass, words)
}

// Settles the ring of a queue, with the passes of its ends and its lane.
#[tactic(auto, using(crate::proofs::Gathering::gathered_one))]
fn settle_queue(
    board: &Board,
    keeper: &mut Keeper,
    desk: Desk,
    room: QueueRoom,
    ends: &mut Vec<ClientEnd>,
    lanes: &mut Vec<Lane>,
) -> SettledQueue
    requires room { IsRoomFor ends.old.items (seen desk) room }
    requires passes { All (λ pass. pass.table ≡ (seen desk).ring.table) (passes_of desk.queue.0 ends.old.items) }
    requires lane { IsSomeOf (seen desk).ring.table (lane_at desk.queue.0 lanes.old.items) }
    requires board { (keeper.old.board ≡ board.now) × All (IsOnBoard board.now) lanes.old.items }
    ensures gathered { HasGathered keeper.old lanes.old.items keeper.new lanes.new.items }
    ensures knows { KnowsAll keeper.new }
    ensures on { All (IsOnBoard board.now) lanes.new.items }
    ensures settled { IsQueueSettled (seen desk) ends.old.items lanes.old.items result }
    ensures ends { (other : ℕ) → other ≢ desk.queue.0 → passes_of other ends.new.items ≡ passes_of other ends.old.items }
    ensures lanes { (other : ℕ) → other ≢ desk.queue.0 → lane_at other lanes.new.items ≡ lane_at other lanes.old.items }
{
    let Desk { queue, ring, .. } = desk;
    let QueueRoom { words, passes } = room;
    let passes = take_passes(ends, queue, passes);
    let lane = take_lane(lanes, queue);
    SettledQueue {
        queue,
        ring: settle_ring(board, keeper, ring.into_inner(), passes, lane, words),
    }
}

// The fronts of all lanes come back.
#[tactic(auto, using(crate::proofs::Gathering::gathered_begins, crate::proofs::Gathering::on_board_begins))]
fn collect_all(board: &Board, keeper: &mut Keeper, lanes: Vec<Lane>)
    requires board { (keeper.old.board ≡ board.now) × All (IsOnBoard board.now) lanes.items }
    requires knows { KnowsAll keeper.old }
    ensures gathered { HasGathered keeper.old lanes.items keeper.new [] }
    ensures knows { KnowsAll keeper.new }
{
    for lane in lanes {
        board.collect(keeper, lane.into_front());
    }
}

// Settles all rings, in order, and all fronts come back. It takes no memory.
#[tactic(auto, using(crate::proofs::Readiness::next_ready, crate::proofs::Readiness::some_room, crate::proofs::Readiness::settled_next, crate::proofs::Readiness::going_begins, crate::proofs::Readiness::going_ends, crate::proofs::Gathering::gathered_none))]
fn settle_rings(
    board: &Board,
    keeper: &mut Keeper,
    desks: Vec<Desk>,
    rooms: Vec<QueueRoom>,
    ends: Vec<ClientEnd>,
    lanes: Vec<Lane>,
    room: Vec<SettledQueue>,
) -> Vec<SettledQueue>
    requires apart { AreApart (map seen desks.items) }
    requires ready { AreReady ends.items lanes.items (map seen desks.items) rooms.items ends.items lanes.items }
    requires none { room.items ≡ [] }
    requires room { length desks.items ≤ vec_capacity room }
    requires board { (keeper.old.board ≡ board.now) × All (IsOnBoard board.now) lanes.items }
    requires knows { KnowsAll keeper.old }
    ensures gathered { HasGathered keeper.old lanes.items keeper.new [] }
    ensures knows { KnowsAll keeper.new }
    ensures settled { AreSettled (map seen desks.items) ends.items lanes.items result.items }
{
    let mut desks = desks;
    let mut rooms = rooms;
    let mut ends = ends;
    let mut lanes = lanes;
    let mut settled = room;
    while !desks.is_empty() {
        let desk = desks.remove(0);
        let room = rooms.remove(0);
        settled.push_reserved(settle_queue(board, keeper, desk, room, &mut ends, &mut lanes));
    }
    collect_all(board, keeper, lanes);
    settled
}

// Gets all memory that settling takes.
pub(crate) fn get_rooms(
    alloc: Global,
    desks: &[Desk],
    ends: &[ClientEnd],
) -> Result<Rooms, AllocError>
    ensures rooms { IfOk result (λ r. AreRoomy ends.now (map seen desks.now) r.0.items) }
    ensures none { IfOk result (λ r. r.1.items ≡ []) }
    ensures room { IfOk result (λ r. length desks.now ≤ vec_capacity r.1) }
{
    let rooms = rooms_for(alloc, desks, ends)?;
    let settled = Vec::with_capacity(alloc, desks.len())?;
    Ok((rooms, settled))
}

/// Room that was got to settle rings: for the words and passes of each, and for what comes of them.
pub(crate) type Rooms = (Vec<QueueRoom>, Vec<SettledQueue>);

// Settles a broker whose passes are all there, and to whose core the parts lead, in rooms that were got for it. All fronts
// come back.
#[tactic(auto, using(crate::proofs::Gathering::gathered_both))]
pub(crate) fn settle_in_rooms(
    board: &Board,
    keeper: &mut Keeper,
    core: AccessCore,
    settled: &SettledParts,
    parts: &[Part],
    desks: Vec<Desk>,
    rooms: Rooms,
    ends: Vec<ClientEnd>,
    lanes: Vec<Lane>,
) -> Settlement
    requires led { IsLedTo (settled.now ++ parts.now) core }
    requires settled { AreSettledWith settled.now lanes.items }
    requires apart { AreApart (map seen desks.items) }
    requires ready { AreReady ends.items lanes.items (map seen desks.items) rooms.0.items ends.items lanes.items }
    requires none { rooms.1.items ≡ [] }
    requires room { length desks.items ≤ vec_capacity rooms.1 }
    requires board { (keeper.old.board ≡ board.now) × All (IsOnBoard board.now) lanes.items }
    requires knows { KnowsAll keeper.old }
    ensures gathered { HasGathered keeper.old lanes.items keeper.new [] }
    ensures knows { KnowsAll keeper.new }
    ensures settled { IsSettlement (map seen desks.items) (settled.now ++ parts.now) ends.items lanes.items result }
    ensures core { core_of result ≡ core }
{
    if let Some((queue, id)) = find_mismatch(settled, parts, core.audit(), lanes.as_slice()) {
        collect_all(board, keeper, lanes);
        return Settlement::Mismatch { core, queue, id };
    }
    let (rooms, room) = rooms;
    let rings = settle_rings(board, keeper, desks, rooms, ends, lanes, room);
    Settlement::Settled { core, rings }
}

/// Settles a broker once its threads have ended, all its ends and lanes and all fronts have come back, and with all parts
/// that were handed out of its core, in order: those that were settled as they came, and then these. Who has several fronts
/// unites them. The core is the one that the broker was opened with, as the last section left it: each section since was
/// made through these fronts, and no other was; what the front has seen stands before, and what each lane served stands, in
/// order, among all that it took. Where all parts and the audit have of each queue just the packets that its lane served,
/// ids and bytes, in order, each ring is settled: they are the packets that were published under the ids below its read
/// index, and every other published packet stands whole in its slot. Else it names the least queue and the least id at which
/// they differ. Refused in this order: a front is missing; a pass is missing; the first of all parts doesn't begin with
/// nothing before it, a later one doesn't begin where the one before it ends, or the audit doesn't begin where the last ends
/// (without parts: the audit has entries before it); memory isn't to be had. All then comes back as it was.
#[tactic(auto, using(crate::proofs::Readiness::all_ready, crate::proofs::GoingOn::all_seen, crate::proofs::GoingOn::all_on_board, crate::proofs::Gathering::closed_of, crate::proofs::Gathering::end_of))]
pub fn settle_all<B: Room>(
    alloc: Global,
    broker: Broker<B>,
    front: Front,
    settled: &SettledParts,
    parts: &[Part],
    ends: Vec<ClientEnd>,
    lanes: Vec<Lane>,
) -> Result<Settlement, UnsettledBroker<B>>
    requires front { front.board ≡ B.board }
    requires ends { All (λ end. IsEndOf broker end) ends.items }
    requires lanes { All (λ lane. IsLaneOf B.board broker lane) lanes.items }
    requires settled { AreSettledWith settled.now lanes.items }
    ensures closed { IfOk result (λ settlement. IsClosed B.opened front lanes.items (core_of settlement)) }
    ensures settled { IfOk result (IsSettlement broker (settled.now ++ parts.now) ends.items lanes.items) }
    ensures all { IfOk result (λ _. (have_all_shares front lanes.items ≡ true) × (has_all_passes broker ends.items lanes.items ≡ true)) }
    ensures fault { IfErr result (λ u. IsUnsettledFor B.opened front broker (settled.now ++ parts.now) ends.items lanes.items u.broker.core u.fault) }
    ensures back { IfErr result (λ u. (u.broker.rings ≡ broker) × (u.front ≡ front) × (u.ends.items ≡ ends.items) × (u.lanes.items ≡ lanes.items)) }
{
    let mut broker = StillBroker::of(broker);
    let mut front = front;
    let mut lanes = lanes;
    broker.end(&mut front, &mut lanes);
    if let Some(fault) = broker.cause(&front, settled, parts, ends.as_slice(), lanes.as_slice()) {
        return Err(UnsettledBroker {
            fault,
            broker,
            front,
            ends,
            lanes,
        });
    }
    match broker.rooms(alloc, ends.as_slice()) {
        Err(_) => Err(UnsettledBroker {
            fault: SettleAllFault::OutOfMemory,
            broker,
            front,
            ends,
            lanes,
        }),
        Ok(rooms) => Ok(broker.settle(front, settled, parts, rooms, ends, lanes)),
    }
}
