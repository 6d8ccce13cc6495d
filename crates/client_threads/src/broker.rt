//! The broker: one core under its lock, and a ring with its doorbell for each queue.

ghost use Rattle.std.specs.Prelude.{◌≡◌, ◌<◌, [], Some, map};
ghost use Rattle.std.specs.Option.{IfSome, option_copied};
ghost use Rattle.std.specs.List.{find};
ghost use Rattle.std.specs.Fn.{FnOnceReturnsAt, FnOnceReturnsAtMut};
ghost use Rattle.atomic_table.specs.Seated.{TableId};
ghost use Rattle.client_threads.specs.Boards.{Compared, all_shares, fresh_of, one_less, united_with};
ghost use Rattle.client_threads.specs.Desks.{is_desk_of, seen};
ghost use Rattle.client_threads.specs.Opening.{OpensBroker};
ghost use Rattle.client_threads.specs.Rings.{AreApart, IsOf, IsRingOf, ring_of};
ghost use Rattle.client_threads.specs.Sections.{Continues, IsLook, IsSection};

use crate::board::{Board, Front, Keeper, SharedSight};
use crate::room::{Held, Room};
use access_core::{AccessCore, Kernel, OpenFault};
use aql_packet::QueueId;
use crossbeam_utils::CachePadded;
use doorbell::Doorbell;
use policy::Policy;
use ring::Ring;
use std::alloc::Global;
use std::marker::{Model, PhantomData};
use std::sync::{Mutex, Wait};

// What the broker has of a queue.
#[derive(Drop)]
pub(crate) struct Desk {
    pub(crate) queue: QueueId,
    pub(crate) ring: CachePadded<Ring>,
    pub(crate) doorbell: Doorbell,
}

/// The broker: the core under its lock, and beside it a ring and a doorbell for each queue, on which threads step without
/// that lock. A contract sees the rings, each under the number of its queue. The core under the lock goes on from the one
/// that the broker was opened with, which its type names, and stands as the last section left it.
#[derive(Drop)]
pub struct Broker<B: Room> {
    pub(crate) held: Mutex<Held<B>>,
    pub(crate) board: Board,
    pub(crate) desks: Vec<Desk>,
    // It has seen each opening of a queue that has a ring.
    pub(crate) openings: SharedSight,
}

impl<B: Room> Model for Broker<B> {
    ghost use Rattle.std.specs.Prelude.{◌≡◌, List, map};
    ghost use Rattle.client_threads.specs.Rings.{AreApart, QueueRing};

    ghost Value = { List QueueRing };

    ghost use Rattle.client_threads.specs.Desks.{seen};
    ghost use Rattle.client_threads.specs.Opening.{AreOpened};
    ghost use Rattle.client_threads.specs.Sections.{last_of};

    ghost view = { λ b. map seen b.desks.items };

    ghost invariant = { λ b. AreApart (map seen b.desks.items) × (b.board ≡ B.board) × (b.openings.board ≡ B.board) × AreOpened (last_of B.opened b.openings.left) (map seen b.desks.items) };
}

/// A broker that has no name yet, and no ring. A contract sees its board and its core.
#[derive(Drop)]
pub struct UnnamedBroker {
    core: AccessCore,
    board: Board,
    keeper: Keeper,
    front: Front,
    alloc: Global,
}

impl Model for UnnamedBroker {
    ghost use Rattle.std.specs.Prelude.{◌≡◌, []};
    ghost use Rattle.client_threads.specs.Boards.{all_shares, resting_keeper};
    ghost use Rattle.client_threads.specs.Opening.{UnnamedSeen};
    ghost use Rattle.client_threads.specs.Sections.{IsFirst};

    ghost Value = { UnnamedSeen };

    ghost view = { λ b. record { board = b.board; core = b.core } };

    ghost invariant = { λ b. (b.keeper ≡ resting_keeper b.board []) × (b.front ≡ record { board = b.board; left = []; share = all_shares; own = [] }) × IsFirst b.core };
}

impl UnnamedBroker {
    /// A broker whose core is opened over a policy, as `AccessCore::open` opens it and refuses to.
    #[tactic(auto, using(crate::proofs::Opened::opens_first))]
    pub fn open(
        alloc: Global,
        policy: Policy,
        kernels: Vec<Kernel>,
        capacity: usize,
    ) -> Result<UnnamedBroker, OpenFault>
        ensures { OpensBroker policy kernels.items capacity result }
    {
        let core = AccessCore::open(alloc, policy, kernels, capacity)?;
        let (board, keeper, front) = Board::new(alloc)?;
        Ok(UnnamedBroker {
            core,
            board,
            keeper,
            front,
            alloc,
        })
    }

    /// The broker under a name, which its type has from now on, and the front that has seen nothing, through which no
    /// section was made, and which has all shares: no section can be made but through it, and through what `again` gives
    /// of it.
    pub fn named<B: Room>(self) -> (Broker<B>, Front)
        requires { (self.board ≡ B.board) × (self.core ≡ B.opened) }
        ensures rings { result.0 ≡ [] }
        ensures front { result.1 ≡ record { board = B.board; left = []; share = all_shares; own = [] } }
    {
        let UnnamedBroker {
            core,
            board,
            keeper,
            mut front,
            alloc,
        } = self;
        let openings = SharedSight::of(board.sight(&mut front));
        let held = Held {
            core,
            keeper,
            room: PhantomData,
        };
        let broker = Broker {
            held: Mutex::new(held),
            board,
            desks: Vec::new(alloc),
            openings,
        };
        (broker, front)
    }
}

// What stands at a queue's number, the first at 1, if it is of the queue.
#[tactic(auto, using(crate::proofs::RingOfDesks::found_at))]
fn desk_at(desks: &[Desk], queue: QueueId) -> Option<&Desk>
    requires apart { AreApart (map seen desks.now) }
    ensures { IfSome result (λ desk. find (is_desk_of queue.0) desks.now ≡ Some desk.now) }
{
    let desk = desks.get((queue.0 as usize).checked_sub(1)?)?;
    if desk.queue.0 == queue.0 {
        Some(desk)
    } else {
        None
    }
}

// What there is of a queue. Where each queue has a ring, it stands at the queue's number.
fn find_desk(desks: &[Desk], queue: QueueId) -> Option<&Desk>
    requires apart { AreApart (map seen desks.now) }
    ensures { option_copied result ≡ find (is_desk_of queue.0) desks.now }
{
    match desk_at(desks, queue) {
        Some(desk) => Some(desk),
        None => desks.iter().find(|desk| desk.queue.0 == queue.0),
    }
}

impl<B: Room> Broker<B> {
    /// The ring of a queue, if the broker has one: of each queue that `open_queue` opened.
    #[tactic(auto, using(crate::proofs::RingOfDesks::ring_of_desks))]
    pub fn ring(&self, queue: QueueId) -> Option<&Ring>
        ensures { option_copied result ≡ ring_of queue.0 self.now }
    {
        match find_desk(self.desks.as_slice(), queue) {
            None => None,
            Some(desk) => Some(&desk.ring),
        }
    }

    /// The doorbell of a queue, if the broker has a ring for it.
    pub fn doorbell(&self, queue: QueueId) -> Option<&Doorbell> {
        let desk = find_desk(self.desks.as_slice(), queue)?;
        Some(&desk.doorbell)
    }

    // What there is of a queue that has a ring.
    #[tactic(auto, using(crate::proofs::RingOfDesks::ring_of_desks))]
    pub(crate) fn desk_of(&self, queue: QueueId) -> &Desk
        requires { (table : TableId) × IsOf self.now queue.0 table }
        ensures { IsRingOf self.now queue.0 (seen result.now).ring }
    {
        match find_desk(self.desks.as_slice(), queue) {
            Some(desk) => desk,
            None => unreachable!(),
        }
    }

    // The ring of a queue that has one.
    pub(crate) fn ring_of(&self, queue: QueueId) -> &Ring
        requires { (table : TableId) × IsOf self.now queue.0 table }
        ensures { IsRingOf self.now queue.0 result.now }
    {
        match self.ring(queue) {
            Some(ring) => ring,
            None => unreachable!(),
        }
    }

    /// Takes the core's lock, for which it may wait, calls `f` on the core, and answers what `f` answers. The core is the
    /// one that the broker was opened with, as the last section left it, whichever thread made that; `f` goes on from it,
    /// as each call of the core does: it exchanges no core. What the front had seen stands before, and it has seen this
    /// section then, which is its own: it has one more, and no other was made for it.
    pub fn with_core<R: Wait, X, F: FnOnce(&mut AccessCore) -> X>(
        &self,
        rt: &R,
        front: &mut Front,
        f: F,
    ) -> X
        requires front { front.old.board ≡ B.board }
        requires can { F.IsAlwaysCallable f }
        requires continues { Continues (FnOnceReturnsAtMut F.FnOnce f) }
        ensures front { front.new.board ≡ B.board }
        ensures section { IsSection B.opened front.old front.new (λ old new. FnOnceReturnsAtMut F.FnOnce f old result new) }
    {
        let mut guard = self.held.lock(rt);
        let held = &mut *guard;
        held.section(&self.board, front, f)
    }

    /// The same where no thread shares the broker: it doesn't wait.
    pub fn with_core_alone<X, F: FnOnce(&mut AccessCore) -> X>(
        &mut self,
        front: &mut Front,
        f: F,
    ) -> X
        requires front { front.old.board ≡ B.board }
        requires can { F.IsAlwaysCallable f }
        requires continues { Continues (FnOnceReturnsAtMut F.FnOnce f) }
        ensures front { front.new.board ≡ B.board }
        ensures section { IsSection B.opened front.old front.new (λ old new. FnOnceReturnsAtMut F.FnOnce f old result new) }
        ensures rings { self.new ≡ self.old }
    {
        let Broker { held, board, .. } = self;
        let held = held.get_mut();
        held.section(board, front, f)
    }

    /// Takes the core's lock, for which it may wait, and calls `f`, which only looks at the core. It makes no section, and
    /// wants no front.
    pub fn look_at_core<R: Wait, X, F: FnOnce(&AccessCore) -> X>(&self, rt: &R, f: F) -> X
        requires can { F.IsAlwaysCallable f }
        ensures { IsLook B.opened (λ core. FnOnceReturnsAt F.FnOnce f core result) }
    {
        let guard = self.held.lock(rt);
        guard.look(f)
    }

    /// Another front that has seen the same, with one share of this one's. No section was made through it.
    pub fn again(&self, front: &mut Front) -> Front
        requires { (front.old.board ≡ B.board) × (1 < front.old.share) }
        ensures { (front.new ≡ one_less front.old) × (result ≡ fresh_of front.old) }
    {
        self.board.again(front)
    }

    /// A front gets all that another has: its share, and its sections.
    pub fn unite(&self, front: &mut Front, other: Front)
        requires { (front.old.board ≡ B.board) × (other.board ≡ B.board) }
        ensures { front.new ≡ united_with front.old other }
    {
        self.board.unite(front, other);
    }

    /// What two fronts have seen is compared: the one begins the other.
    pub fn compare(&self, front: &mut Front, other: &mut Front)
        requires { (front.old.board ≡ B.board) × (other.old.board ≡ B.board) }
        ensures kept { (front.new ≡ front.old) × (other.new ≡ other.old) }
        ensures one { Compared front.old.left other.old.left }
    {
        let sight = self.board.sight(other);
        self.board.compare(front, sight);
    }
}
