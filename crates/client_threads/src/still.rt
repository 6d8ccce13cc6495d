//! A broker whose threads have ended, and what comes back of one that isn't settled.

ghost use Rattle.std.specs.Prelude.{◌≡◌, ◌==◌, ◌+◌, ◌++◌, ◌≤◌, [], All, IfOk, length, map, true, vec_capacity};
ghost use Rattle.std.specs.Option.{IfNone, IfSome};
ghost use Rattle.std.specs.List.{flat_map, sum_by};
ghost use Rattle.client_threads.specs.Boards.{AreAllBelow};
ghost use Rattle.client_threads.specs.HandedOver.{AreSettledWith};
ghost use Rattle.client_threads.specs.Lanes.{own_of};
ghost use Rattle.client_threads.specs.Rings.{AreApart};
ghost use Rattle.client_threads.specs.Settling.{IsCauseOf, IsComplete, IsSettlement, IsShown, core_of, have_all_shares};
ghost use Rattle.client_threads.specs.inner.Gatherings.{EndsBy, IsOnBoard};
ghost use Rattle.client_threads.specs.inner.Rooms.{AreReady, AreRoomy};
ghost use Rattle.client_threads.specs.inner.Turns.{HasSeen};

use crate::board::{Board, Front, SHARES, SharedSight};
use crate::broker::{Broker, Desk};
use crate::client_end::ClientEnd;
use crate::lane::Lane;
use crate::room::{Held, Room};
use crate::settled_parts::SettledParts;
use crate::settling::{
    Rooms, SettleAllFault, Settlement, get_rooms, has_all_passes, leads, settle_in_rooms,
};
use access_core::AccessCore;
use core_model::Part;
use std::alloc::{AllocError, Global};
use std::marker::Model;
use std::sync::Mutex;

/// A broker whose threads have ended: no lock is round its core. A contract sees its rings, its core, and the states in
/// which sections left that.
#[derive(Drop)]
pub struct StillBroker<B: Room> {
    held: Held<B>,
    board: Board,
    desks: Vec<Desk>,
    openings: SharedSight,
}

impl<B: Room> Model for StillBroker<B> {
    ghost use Rattle.std.specs.Prelude.{◌≡◌, map};
    ghost use Rattle.client_threads.specs.Settling.{StillSeen};

    ghost Value = { StillSeen };

    ghost use Rattle.client_threads.specs.Desks.{seen};
    ghost use Rattle.client_threads.specs.Opening.{AreOpened};
    ghost use Rattle.client_threads.specs.Rings.{AreApart};
    ghost use Rattle.client_threads.specs.Sections.{last_of};

    ghost view = { λ b. record { rings = map seen b.desks.items; left = b.held.left; core = b.held.core } };

    ghost invariant = { λ b. AreApart (map seen b.desks.items) × (b.board ≡ B.board) × (b.openings.board ≡ B.board) × AreOpened (last_of B.opened b.openings.left) (map seen b.desks.items) };
}

/// A broker that was not settled, with all that was handed in.
#[derive(Drop)]
pub struct UnsettledBroker<B: Room> {
    pub fault: SettleAllFault,
    pub broker: StillBroker<B>,
    pub front: Front,
    pub ends: Vec<ClientEnd>,
    pub lanes: Vec<Lane>,
}

// Whether a front and the fronts of lanes have all shares.
fn have_all_shares(front: &Front, lanes: &[Lane]) -> bool
    ensures { result ≡ have_all_shares front.now lanes.now }
{
    let mut missing = SHARES;
    for lane in lanes {
        let share = lane.share();
        if share > missing {
            return false;
        }
        missing -= share;
    }
    front.share() == missing
}

impl<B: Room> Held<B> {
    // The core.
    fn core(&self) -> &AccessCore
        ensures { result.now ≡ self.now.core }
    {
        &self.core
    }

    // What a lane served stands among what the core took, in order.
    fn show(&mut self, board: &Board, lane: &mut Lane)
        requires { (board.now ≡ B.board) × HasSeen B.board lane.old }
        ensures same { (self.new ≡ self.old) × (lane.new ≡ lane.old) }
        ensures shown { IsShown B.opened self.old.left lane.old }
    {
        let known = lane.sight(board);
        board.check(&mut self.keeper, known);
    }

    // So it does of all lanes.
    fn show_all(&mut self, board: &Board, lanes: &mut Vec<Lane>)
        requires board { board.now ≡ B.board }
        requires seen { All (HasSeen B.board) lanes.old.items }
        ensures same { (self.new ≡ self.old) × (lanes.new.items ≡ lanes.old.items) }
        ensures shown { All (IsShown B.opened self.old.left) lanes.old.items }
    {
        for place in 0..lanes.len() {
            self.show(board, &mut lanes[place]);
        }
    }

    // What a front has seen stands before, and so does of all lanes what they served.
    fn end(&mut self, board: &Board, front: &mut Front, lanes: &mut Vec<Lane>)
        requires board { (board.now ≡ B.board) × (front.old.board ≡ B.board) }
        requires seen { All (HasSeen B.board) lanes.old.items }
        ensures same { (self.new ≡ self.old) × (front.new ≡ front.old) × (lanes.new.items ≡ lanes.old.items) }
        ensures end { EndsBy B.opened self.old.left front.old.left lanes.old.items self.old.core }
    {
        let known = board.sight(front);
        board.check(&mut self.keeper, known);
        self.show_all(board, lanes);
    }
}

impl<B: Room> StillBroker<B> {
    // A broker whose threads have ended.
    pub(crate) fn of(broker: Broker<B>) -> StillBroker<B>
        ensures { result.rings ≡ broker }
    {
        let Broker {
            held,
            board,
            desks,
            openings,
        } = broker;
        StillBroker {
            held: held.into_inner(),
            board,
            desks,
            openings,
        }
    }

    /// The broker, with its core under its lock again.
    pub fn again(self) -> Broker<B>
        ensures { result ≡ self.rings }
    {
        let StillBroker {
            held,
            board,
            desks,
            openings,
        } = self;
        Broker {
            held: Mutex::new(held),
            board,
            desks,
            openings,
        }
    }

    // What a front has seen stands before, and so does of all lanes what they served.
    pub(crate) fn end(&mut self, front: &mut Front, lanes: &mut Vec<Lane>)
        requires front { front.old.board ≡ B.board }
        requires seen { All (HasSeen B.board) lanes.old.items }
        ensures same { (self.new ≡ self.old) × (front.new ≡ front.old) × (lanes.new.items ≡ lanes.old.items) }
        ensures end { EndsBy B.opened self.old.left front.old.left lanes.old.items self.old.core }
    {
        let StillBroker { held, board, .. } = self;
        held.end(board, front, lanes);
    }

    // The first cause why it isn't settled, apart from want of memory.
    pub(crate) fn cause(
        &self,
        front: &Front,
        settled: &SettledParts,
        parts: &[Part],
        ends: &[ClientEnd],
        lanes: &[Lane],
    ) -> Option<SettleAllFault>
        ensures some { IfSome result (λ why. IsCauseOf front.now self.now.rings (settled.now ++ parts.now) ends.now lanes.now self.now.core why) }
        ensures none { IfNone result (IsComplete front.now self.now.rings (settled.now ++ parts.now) ends.now lanes.now self.now.core) }
    {
        if !have_all_shares(front, lanes) {
            return Some(SettleAllFault::MissingFront);
        }
        if !has_all_passes(self.desks.as_slice(), ends, lanes) {
            return Some(SettleAllFault::MissingPass);
        }
        if !leads(settled, parts, self.held.core()) {
            return Some(SettleAllFault::NotNext);
        }
        None
    }

    // Gets all memory that settling takes.
    pub(crate) fn rooms(&self, alloc: Global, ends: &[ClientEnd]) -> Result<Rooms, AllocError>
        ensures rooms { IfOk result (λ r. AreRoomy ends.now self.now.rings r.0.items) }
        ensures apart { AreApart self.now.rings }
        ensures none { IfOk result (λ r. r.1.items ≡ []) }
        ensures room { IfOk result (λ r. length self.now.rings ≤ vec_capacity r.1) }
    {
        get_rooms(alloc, self.desks.as_slice(), ends)
    }

    // Settles it in rooms that were got for it. All fronts come back.
    #[tactic(auto, using(crate::proofs::Gathering::gathered_all))]
    pub(crate) fn settle(
        self,
        front: Front,
        settled: &SettledParts,
        parts: &[Part],
        rooms: Rooms,
        ends: Vec<ClientEnd>,
        lanes: Vec<Lane>,
    ) -> Settlement
        requires complete { IsComplete front self.rings (settled.now ++ parts.now) ends.items lanes.items self.core }
        requires settled { AreSettledWith settled.now lanes.items }
        requires board { (front.board ≡ B.board) × All (IsOnBoard B.board) lanes.items }
        requires ready { AreReady ends.items lanes.items self.rings rooms.0.items ends.items lanes.items }
        requires none { rooms.1.items ≡ [] }
        requires room { length self.rings ≤ vec_capacity rooms.1 }
        ensures settled { IsSettlement self.rings (settled.now ++ parts.now) ends.items lanes.items result }
        ensures core { core_of result ≡ self.core }
        ensures only { AreAllBelow (length self.left) (front.own ++ flat_map own_of lanes.items) }
    {
        let StillBroker {
            held,
            board,
            desks,
            ..
        } = self;
        let Held { core, keeper, .. } = held;
        let mut keeper = keeper;
        board.collect(&mut keeper, front);
        settle_in_rooms(
            &board,
            &mut keeper,
            core,
            settled,
            parts,
            desks,
            rooms,
            ends,
            lanes,
        )
    }
}
