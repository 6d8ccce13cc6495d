//! The board: one word beside a broker's core. In the proofs each state in which a section left the core stands on it, and
//! whose section that was.

ghost use Rattle.std.specs.Prelude.{◌≡◌, ◌<◌, ◌+◌, ◌-◌, [], ◌++◌, ◌∷◌, IfOk, length};
ghost use mathlib.Core.List.{IsPrefix};
ghost use Rattle.client_threads.specs.Boards.{AreAllBelow, Compared, all_shares, fresh_of, one_less, resting_keeper, sight_of, united_with, with_section};

use access_core::AccessCore;
use atomic_table::{Join, Play, Seat, Split, Table, TableRule};
use std::alloc::{AllocError, Global};
use std::collections::LinkedList;
use std::marker::Model;

/// How many shares there are of the right to make sections.
pub(crate) const SHARES: u64 = 4_294_967_296;

// What a seat knows: whether it writes, the states that were left so far, those that another seat showed it, its
// share, and the places of its own sections. No value of it is made.
pub struct View {
    pub writes: bool,
    pub left: LinkedList<AccessCore>,
    pub shown: LinkedList<AccessCore>,
    pub share: u64,
    pub own: LinkedList<u64>,
}

/// The fact that a board keeps.
pub struct Kept;

impl TableRule<AccessCore, View, ()> for Kept {
    ghost use Rattle.std.specs.Prelude.{[]};
    ghost use Rattle.client_threads.specs.Boards.{IsKept, all_shares, keeper_view};

    ghost holds = { λ key state. IsKept state };

    ghost first = { λ key. keeper_view [] all_shares [] };
}

// The writer adds the state that is said.
pub struct Write;

impl Play<AccessCore, View> for Write {
    ghost use Rattle.client_threads.specs.Boards.{Written};

    ghost then = { Written };
}

// The writer is told of what it was shown, and given.
pub struct Check;

impl Play<AccessCore, View> for Check {
    ghost use Rattle.client_threads.specs.Boards.{Checked};

    ghost then = { Checked };
}

// A seat is told how what it was shown stands to what it has seen, and that its share is at most the whole.
pub struct Tell;

impl Play<AccessCore, View> for Tell {
    ghost use Rattle.client_threads.specs.Boards.{Told};

    ghost then = { Told };
}

// What a seat has seen, without a share.
pub struct Look;

impl Split<View> for Look {
    ghost use Rattle.std.specs.Prelude.{[]};
    ghost use Rattle.client_threads.specs.Boards.{front_view};

    ghost left = { λ v. v };

    ghost right = { λ v. front_view v.left 0 [] };
}

// One share goes to a new front, which has made no section.
pub struct Another;

impl Split<View> for Another {
    ghost use Rattle.std.specs.Prelude.{◌-◌, []};
    ghost use Rattle.client_threads.specs.Boards.{front_view};

    ghost left = { λ v. front_view v.left (v.share - 1) v.own };

    ghost right = { λ v. front_view v.left 1 [] };
}

// All that a front has goes to a new seat.
pub struct Move;

impl Split<View> for Move {
    ghost use Rattle.client_threads.specs.Boards.{spent};

    ghost left = { λ v. spent };

    ghost right = { λ v. v };
}

// The writer gives away all share and all places that it has.
pub struct Give;

impl Split<View> for Give {
    ghost use Rattle.std.specs.Prelude.{[]};
    ghost use Rattle.client_threads.specs.Boards.{front_view, keeper_view};

    ghost left = { λ v. keeper_view v.left 0 [] };

    ghost right = { λ v. front_view v.left v.share v.own };
}

// A seat gets all that another has.
pub struct Unite;

impl Join<View> for Unite {
    ghost use Rattle.client_threads.specs.Boards.{spent, united};

    ghost both = { united };

    ghost spent = { spent };
}

/// A board. A contract sees which one it is.
#[derive(Drop)]
pub struct Board {
    table: Table<AccessCore, View, (), Kept, Global>,
}

impl Model for Board {
    ghost use Rattle.std.specs.Prelude.{◌≡◌};
    ghost use Rattle.atomic_table.specs.Seated.{TableId};

    ghost Value = { TableId };

    ghost view = { λ b. b.table.shared.table_id };

    ghost invariant = { λ b. b.table.shared.table_id.words ≡ 1 };
}

/// The one pass that writes on a board: it knows all states that were left.
#[derive(Drop)]
pub struct Keeper {
    seat: Seat<AccessCore, View>,
}

impl Model for Keeper {
    ghost use Rattle.std.specs.Prelude.{◌≡◌, []};
    ghost use Rattle.client_threads.specs.Boards.{KeeperSeen, keeper_view};

    ghost Value = { KeeperSeen };

    ghost view = { λ k. record { board = k.seat.table_id; left = k.seat.me.0.left; share = k.seat.me.0.share; own = k.seat.me.0.own } };

    ghost invariant = { λ k. k.seat.me ≡ (keeper_view k.seat.me.0.left k.seat.me.0.share k.seat.me.0.own, []) };
}

/// What its holder has seen of a broker's core: a beginning of the states in which sections left it. It has a share of the
/// right to make sections, and the places of those that were made through it. A contract sees all of it, and the board of
/// the broker.
#[derive(Drop)]
pub struct Front {
    seat: Seat<AccessCore, View>,
    share: u64,
}

impl Model for Front {
    ghost use Rattle.std.specs.Prelude.{◌≡◌, ◌<◌, []};
    ghost use Rattle.client_threads.specs.Boards.{FrontSeen, front_view};

    ghost Value = { FrontSeen };

    ghost view = { λ k. record { board = k.seat.table_id; left = k.seat.me.0.left; share = k.seat.me.0.share; own = k.seat.me.0.own } };

    ghost invariant = { λ k. (k.seat.me ≡ (front_view k.seat.me.0.left k.seat.me.0.share k.seat.me.0.own, [])) × (k.share ≡ k.seat.me.0.share) × (0 < k.seat.me.0.share) };
}

/// A beginning of the states that were left, without a share: no section is made through it.
#[derive(Drop)]
pub struct Sight {
    seat: Seat<AccessCore, View>,
}

impl Model for Sight {
    ghost use Rattle.std.specs.Prelude.{◌≡◌, []};
    ghost use Rattle.client_threads.specs.Boards.{SightSeen, front_view};

    ghost Value = { SightSeen };

    ghost view = { λ k. record { board = k.seat.table_id; left = k.seat.me.0.left } };

    ghost invariant = { λ k. k.seat.me ≡ (front_view k.seat.me.0.left 0 [], []) };
}

/// What threads may share of a sight: nothing of it is reached through a `&`.
#[derive(Drop)]
pub struct SharedSight {
    pub(crate) sight: Sight,
}

impl Model for SharedSight {
    ghost use base.Fml.{ftrue};
    ghost use Rattle.client_threads.specs.Boards.{SightSeen};

    ghost Value = { SightSeen };

    ghost view = { λ s. s.sight };

    ghost also_owns = { λ _. ftrue };
}

impl SharedSight {
    // A sight, to be shared.
    pub(crate) fn of(sight: Sight) -> SharedSight
        ensures { result ≡ sight }
    {
        SharedSight { sight }
    }
}

unsafe impl Sync for SharedSight {}

impl Front {
    /// Its share.
    pub(crate) fn share(&self) -> u64
        ensures { result ≡ self.now.share }
    {
        self.share
    }
}

impl Board {
    /// A board on which nothing is written, with the pass that writes on it, and the front that has the whole share.
    pub fn new(alloc: Global) -> Result<(Board, Keeper, Front), AllocError>
        ensures { IfOk result (λ o. (o.1 ≡ resting_keeper o.0 []) × (o.2 ≡ record { board = o.0; left = []; share = all_shares; own = [] })) }
    {
        let (table, mut seat) = Table::of_words(alloc, &[0], &())?;
        let given = table.shared.split_seat::<Give>(&mut seat);
        Ok((
            Board { table },
            Keeper { seat },
            Front {
                seat: given,
                share: SHARES,
            },
        ))
    }

    /// Writes the state in which a section through a front left a core: it is that front's own from now on, and
    /// nobody else's.
    pub fn write(&self, keeper: &mut Keeper, front: &mut Front, core: &AccessCore)
        requires { (keeper.old ≡ resting_keeper self.now keeper.old.left) × (front.old.board ≡ self.now) }
        ensures keeper { keeper.new ≡ resting_keeper self.now (keeper.old.left ++ core.now ∷ []) }
        ensures front { front.new ≡ with_section front.old keeper.old.left core.now }
        ensures begins { IsPrefix front.old.left keeper.old.left }
    {
        let moved = self.table.shared.split_seat::<Move>(&mut front.seat);
        self.table
            .shared
            .join_seat::<Unite>(&mut keeper.seat, moved);
        self.table
            .shared
            .compare_exchange_with::<Write>(&mut keeper.seat, 0, 0, 0, core);
        front.seat = self.table.shared.split_seat::<Give>(&mut keeper.seat);
    }

    /// Another front, with one share, that has made no section.
    pub fn again(&self, front: &mut Front) -> Front
        requires { (front.old.board ≡ self.now) × (1 < front.old.share) }
        ensures { (front.new ≡ one_less front.old) × (result ≡ fresh_of front.old) }
    {
        front.share -= 1;
        Front {
            seat: self.table.shared.split_seat::<Another>(&mut front.seat),
            share: 1,
        }
    }

    /// A front comes back, with its share and its places.
    pub fn collect(&self, keeper: &mut Keeper, front: Front)
        requires { (keeper.old.board ≡ self.now) × (front.board ≡ self.now) }
        ensures keeper { keeper.new ≡ record keeper.old { share = keeper.old.share + front.share; own = keeper.old.own ++ front.own } }
        ensures begins { IsPrefix front.left keeper.old.left }
        ensures all { keeper.new.share ≡ all_shares → AreAllBelow (length keeper.new.left) keeper.new.own }
    {
        let Front { seat, share: _ } = front;
        self.table.shared.join_seat::<Unite>(&mut keeper.seat, seat);
        self.table.shared.load::<Check>(&mut keeper.seat, 0);
    }

    /// What is seen is a beginning of all.
    pub fn check(&self, keeper: &mut Keeper, sight: Sight)
        requires { (keeper.old ≡ resting_keeper self.now keeper.old.left) × (sight.board ≡ self.now) }
        ensures kept { keeper.new ≡ keeper.old }
        ensures begins { IsPrefix sight.left keeper.old.left }
    {
        let Sight { seat } = sight;
        self.table.shared.join_seat::<Unite>(&mut keeper.seat, seat);
        self.table.shared.load::<Check>(&mut keeper.seat, 0);
    }

    /// The same sight once more.
    pub fn sight_again(&self, sight: &mut Sight) -> Sight
        requires { sight.old.board ≡ self.now }
        ensures { (sight.new ≡ sight.old) × (result ≡ sight.old) }
    {
        Sight {
            seat: self.table.shared.split_seat::<Look>(&mut sight.seat),
        }
    }

    /// What a front has seen, without its share.
    pub fn sight(&self, front: &mut Front) -> Sight
        requires { front.old.board ≡ self.now }
        ensures { (front.new ≡ front.old) × (result ≡ sight_of front.old) }
    {
        Sight {
            seat: self.table.shared.split_seat::<Look>(&mut front.seat),
        }
    }

    /// Of what a front has seen and a sight the one begins the other.
    pub fn compare(&self, front: &mut Front, sight: Sight)
        requires { (front.old.board ≡ self.now) × (sight.board ≡ self.now) }
        ensures kept { front.new ≡ front.old }
        ensures one { Compared front.old.left sight.left }
    {
        let Sight { seat } = sight;
        self.table.shared.join_seat::<Unite>(&mut front.seat, seat);
        self.table.shared.load::<Tell>(&mut front.seat, 0);
    }

    /// A front gets the share of another, and its places.
    pub fn unite(&self, front: &mut Front, other: Front)
        requires { (front.old.board ≡ self.now) × (other.board ≡ self.now) }
        ensures { front.new ≡ united_with front.old other }
    {
        let Front { seat, share } = other;
        self.table.shared.join_seat::<Unite>(&mut front.seat, seat);
        self.table.shared.load::<Tell>(&mut front.seat, 0);
        front.share += share;
    }
}
