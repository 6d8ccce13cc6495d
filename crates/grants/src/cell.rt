//! One cell of the table: a client's rights on an object, and how many holds there are of each.

ghost use Rattle.std.specs.Prelude.{◌≡◌, ◌+◌, ◌-◌, ◌<◌, ◌≤◌, ◌^◌, ◌&&◌, ◌||◌, not, nat_lt, slice_get};
ghost use Rattle.std.specs.List.{list_any};
ghost use Rattle.policy.specs.declared.rights.Right.{Right};
ghost use Rattle.policy.specs.Rights.{has, all_rights};
ghost use Rattle.grants.specs.inner.Counts.{count_of, one_for_right};

use crate::sets::union;
use policy::{Right, Rights};

/// How many holds there are of each right.
#[derive(Clone, Copy)]
pub struct Counts {
    pub use_agent: usize,
    pub read: usize,
    pub write: usize,
    pub wait: usize,
    pub change: usize,
    pub launch: usize,
}

impl Counts {
    /// No hold.
    pub const NONE: Counts = Counts {
        use_agent: 0,
        read: 0,
        write: 0,
        wait: 0,
        change: 0,
        launch: 0,
    };

    // The counts with one more hold of each of some rights.
    fn with(self, rights: Rights) -> Counts
        requires { (right : Right) → count_of self right < 2 ^ 64 - 1 }
        ensures { (right : Right) → count_of result right ≡ count_of self right + one_for_right rights right }
    {
        Counts {
            use_agent: self.use_agent + one_for_right(rights, Right::Use),
            read: self.read + one_for_right(rights, Right::Read),
            write: self.write + one_for_right(rights, Right::Write),
            wait: self.wait + one_for_right(rights, Right::Wait),
            change: self.change + one_for_right(rights, Right::Change),
            launch: self.launch + one_for_right(rights, Right::Launch),
        }
    }

    // The counts with one hold less of each of some rights.
    fn without(self, rights: Rights) -> Counts
        requires { (right : Right) → one_for_right rights right ≤ count_of self right }
        ensures { (right : Right) → count_of result right + one_for_right rights right ≡ count_of self right }
    {
        Counts {
            use_agent: self.use_agent - one_for_right(rights, Right::Use),
            read: self.read - one_for_right(rights, Right::Read),
            write: self.write - one_for_right(rights, Right::Write),
            wait: self.wait - one_for_right(rights, Right::Wait),
            change: self.change - one_for_right(rights, Right::Change),
            launch: self.launch - one_for_right(rights, Right::Launch),
        }
    }

    // How many holds there are of a right.
    fn of(self, right: Right) -> usize
        ensures { result ≡ count_of self right }
    {
        match right {
            Right::Use => self.use_agent,
            Right::Read => self.read,
            Right::Write => self.write,
            Right::Wait => self.wait,
            Right::Change => self.change,
            Right::Launch => self.launch,
        }
    }
}

// One, for a right of the set.
fn one_for_right(rights: Rights, right: Right) -> usize
    ensures value { result ≡ one_for_right rights right }
    ensures bound { result ≤ 1 }
{
    if rights.has(right) { 1 } else { 0 }
}

/// A client's rights on an object, and how many holds there are of each.
#[derive(Clone, Copy)]
pub struct Cell {
    /// The rights in force.
    pub rights: Rights,
    /// How many holds there are of each.
    pub held: Counts,
}

impl Cell {
    /// No right, and no hold.
    pub const EMPTY: Cell = Cell {
        rights: Rights::NONE,
        held: Counts::NONE,
    };

    /// The cell with further rights in force.
    pub fn with(self, rights: Rights) -> Cell
        ensures rights { (right : Right) → has result.rights right ≡ (has self.rights right || has rights right) }
        ensures held { result.held ≡ self.held }
    {
        Cell {
            rights: union(self.rights, rights),
            held: self.held,
        }
    }

    /// The cell without some rights.
    pub fn without(self, rights: Rights) -> Cell
        ensures rights { (right : Right) → has result.rights right ≡ (has self.rights right && not (has rights right)) }
        ensures held { result.held ≡ self.held }
    {
        Cell {
            rights: self.rights.without(rights),
            held: self.held,
        }
    }

    /// The cell with just those of its rights that are allowed.
    pub fn within(self, allowed: Rights) -> Cell
        ensures rights { (right : Right) → has result.rights right ≡ (has self.rights right && has allowed right) }
        ensures held { result.held ≡ self.held }
    {
        let denied = self.rights.without(allowed);
        self.without(denied)
    }

    /// The cell with one more hold of each of some rights.
    pub fn with_hold(self, rights: Rights) -> Cell
        requires { (right : Right) → count_of self.held right < 2 ^ 64 - 1 }
        ensures rights { result.rights ≡ self.rights }
        ensures held { (right : Right) → count_of result.held right ≡ count_of self.held right + one_for_right rights right }
    {
        Cell {
            rights: self.rights,
            held: self.held.with(rights),
        }
    }

    /// The cell with one hold less of each of some rights.
    pub fn without_hold(self, rights: Rights) -> Cell
        requires { (right : Right) → one_for_right rights right ≤ count_of self.held right }
        ensures rights { result.rights ≡ self.rights }
        ensures held { (right : Right) → count_of result.held right + one_for_right rights right ≡ count_of self.held right }
    {
        Cell {
            rights: self.rights,
            held: self.held.without(rights),
        }
    }

    /// Whether there is a hold of one of some rights.
    pub fn is_held(self, rights: Rights) -> bool
        ensures { result ≡ list_any (λ right. has rights right && nat_lt 0 (count_of self.held right)) all_rights }
    {
        Right::ALL
            .iter()
            .any(|right| rights.has(*right) && 0 < self.held.of(*right))
    }
}

/// The cell in a place, if there is one.
pub fn cell_at(cells: &[Cell], place: usize) -> Option<Cell>
    ensures { result ≡ slice_get cells.now place }
{
    cells.get(place).copied()
}
