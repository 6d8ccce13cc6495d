//! A lane: what serves a queue.

ghost use Rattle.std.specs.Prelude.{◌≡◌, ◌+◌, ◌<◌, ◌^◌, ◌++◌, ◌∷◌, [], All, length};
ghost use mathlib.Core.List.{IsPrefix};
ghost use Rattle.ring.specs.Showing.{HasPeeked};
ghost use Rattle.client_threads.specs.Advancing.{IsOfItsKind};
ghost use Rattle.client_threads.specs.Boards.{resting_keeper, sight_of, with_section};
ghost use Rattle.client_threads.specs.HandedOver.{handed_over};
ghost use Rattle.client_threads.specs.Lanes.{IsLane, ids_of};
ghost use Rattle.client_threads.specs.inner.Turns.{IsFoundBy, Looks};

use crate::board::{Board, Front, Keeper, Sight};
use crate::pending::PendingPacket;
use access_core::AccessCore;
use aql_packet::QueueId;
use core_model::Served;
use ring::{Peeked, ProcessorPass, Ring};
use std::marker::Model;

/// What serves a queue: its processor's pass, the packets that it served, which of them are launched and not done, and the
/// front through which it makes its sections, which has seen the core as the lane's last turn left it. A contract sees all five, and that what the lane served is
/// what its pass retired. When it runs, it keeps the last of what it served: what it has not handed over with a part of the
/// audit that was settled.
#[derive(Drop)]
pub struct Lane {
    pub(crate) queue: QueueId,
    pub(crate) pass: ProcessorPass,
    pub(crate) kept: Vec<Served>,
    // How many packets it has handed over.
    pub(crate) handed: u64,
    pub(crate) pending: Vec<PendingPacket>,
    pub(crate) front: Front,
}

impl Model for Lane {
    ghost use Rattle.client_threads.specs.Lanes.{LaneSeen};

    ghost Value = { LaneSeen };

    ghost use Rattle.client_threads.specs.inner.Kept.{lane_of, IsKept};

    ghost view = { lane_of };

    ghost invariant = { IsKept };
}

impl Lane {
    /// Its queue.
    pub fn queue(&self) -> QueueId
        ensures { result ≡ self.now.queue }
    {
        self.queue
    }

    /// The last of the packets that were launched or denied, in order: those that it has not handed over.
    pub fn served(&self) -> &[Served]
        ensures served { result.now ≡ self.now.kept }
        ensures kept { IsLane self.now }
    {
        self.kept.as_slice()
    }

    // How many packets it has handed over.
    pub(crate) fn handed(&self) -> u64
        ensures { (result + length self.now.kept ≡ length self.now.served) × (length self.now.served < 2 ^ 64) }
    {
        self.handed
    }

    // Hands over all that it keeps.
    pub(crate) fn hand_over(&mut self)
        ensures { self.new ≡ handed_over self.old }
    {
        self.handed += self.kept.len() as u64;
        self.kept.clear();
    }

    /// The launched packets that are not done, in the order in which they are advanced.
    pub fn pending(&self) -> &[PendingPacket]
        ensures ids { ids_of result.now ≡ self.now.pending }
        ensures kinds { All (IsOfItsKind self.now.served) result.now }
    {
        self.pending.as_slice()
    }

    // The number by which a gate knows it: its queue's.
    pub(crate) fn number(&self) -> u32
        ensures { result ≡ self.now.queue.0 }
    {
        self.queue.0 as u32
    }

    // What its pass finds at the read index.
    pub(crate) fn look(&mut self, ring: &Ring) -> Peeked
        requires { self.old.pass.table ≡ ring.now.table }
        ensures looks { Looks self.old self.new }
        ensures peeked { HasPeeked ring.now self.old.pass result self.new.pass }
        ensures found { IsFoundBy result self.new.pass }
    {
        self.pass.peek(ring)
    }

    // The share of its front.
    pub(crate) fn share(&self) -> u64
        ensures { result ≡ self.now.front.share }
    {
        self.front.share()
    }

    // Its front alone.
    pub(crate) fn into_front(self) -> Front
        ensures { result ≡ self.front }
    {
        let Lane { front, .. } = self;
        front
    }

    // What its front has seen.
    pub(crate) fn sight(&mut self, board: &Board) -> Sight
        requires { self.old.front.board ≡ board.now }
        ensures { (self.new ≡ self.old) × (result ≡ sight_of self.old.front) }
    {
        board.sight(&mut self.front)
    }

    // Writes how its section left the core.
    pub(crate) fn leave(&mut self, board: &Board, keeper: &mut Keeper, core: &AccessCore)
        requires { (keeper.old ≡ resting_keeper board.now keeper.old.left) × (self.old.front.board ≡ board.now) }
        ensures keeper { keeper.new ≡ resting_keeper board.now (keeper.old.left ++ core.now ∷ []) }
        ensures lane { self.new ≡ record self.old { front = with_section self.old.front keeper.old.left core.now } }
        ensures begins { IsPrefix self.old.front.left keeper.old.left }
    {
        board.write(keeper, &mut self.front, core);
    }
}
