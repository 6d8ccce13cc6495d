//! What lies under a broker's lock: the core, and the pass that knows each state in which a section left it.

ghost use Rattle.std.specs.Prelude.{◌≡◌};
ghost use Rattle.std.specs.Fn.{FnOnceReturnsAt, FnOnceReturnsAtMut};
ghost use Rattle.client_threads.specs.Sections.{Continues, IsLook, IsSection};

use crate::board::{Board, Front, Keeper};
use access_core::AccessCore;
use std::marker::{Brand, Model, PhantomData};

/// Which board a broker has, and the core that it was opened with. It stands in the broker's type, and so is known of
/// whatever its lock gives.
pub trait Room {
    ghost use Rattle.atomic_table.specs.Seated.{TableId};
    ghost use Rattle.access_core.specs.Cores.{Core};

    ghost board: { TableId };

    ghost opened: { Core };
}

impl Room for Brand {
    ghost use Rattle.client_threads.specs.Boards.{no_board};
    ghost use Rattle.client_threads.specs.inner.Nothing.{no_core};

    ghost board = { no_board };

    ghost opened = { no_core };
}

/// What lies under the lock: the core, which goes on from the one that was opened, and the pass that knows all states
/// in which it was left. That pass has no share of the right to make sections. A contract sees the core and these states.
#[derive(Drop)]
pub struct Held<B: Room> {
    pub(crate) core: AccessCore,
    pub(crate) keeper: Keeper,
    pub(crate) room: PhantomData<B>,
}

impl<B: Room> Model for Held<B> {
    ghost use Rattle.std.specs.Prelude.{◌≡◌};
    ghost use Rattle.client_threads.specs.Boards.{resting_keeper};
    ghost use Rattle.client_threads.specs.Sections.{AllFollow, HeldSeen, IsFirst, last_of};

    ghost Value = { HeldSeen };

    ghost view = { λ h. record { core = h.core; left = h.keeper.left } };

    ghost invariant = { λ h. (h.keeper ≡ resting_keeper B.board h.keeper.left) × AllFollow B.opened h.keeper.left × (last_of B.opened h.keeper.left ≡ h.core) × IsFirst B.opened };
}

impl<B: Room> Held<B> {
    // Calls a function on the core, and writes how it left it: a section through the front.
    pub(crate) fn section<X, F: FnOnce(&mut AccessCore) -> X>(
        &mut self,
        board: &Board,
        front: &mut Front,
        f: F,
    ) -> X
        requires board { (board.now ≡ B.board) × (front.old.board ≡ B.board) }
        requires can { F.IsAlwaysCallable f }
        requires continues { Continues (FnOnceReturnsAtMut F.FnOnce f) }
        ensures section { IsSection B.opened front.old front.new (λ old new. FnOnceReturnsAtMut F.FnOnce f old result new) }
    {
        self.core.audit();
        let answer = f(&mut self.core);
        self.core.audit();
        board.write(&mut self.keeper, front, &self.core);
        answer
    }

    // Calls a function that only looks at the core: this is no section.
    pub(crate) fn look<X, F: FnOnce(&AccessCore) -> X>(&self, f: F) -> X
        requires can { F.IsAlwaysCallable f }
        ensures { IsLook B.opened (λ core. FnOnceReturnsAt F.FnOnce f core result) }
    {
        self.core.audit();
        f(&self.core)
    }
}
