//! Rights, and sets of them.

ghost use Rattle.std.specs.Prelude.{◌≡◌, ⊤, [], ◌∷◌, codes, Some, if◌then◌else◌};
ghost use Rattle.policy.specs.RightNames.{name_of_right};

use bitflags::{Flag, Flags, bitflag_items};
use std::fmt;

/// One right. Each belongs to one kind of object (own).
#[derive(Clone, Copy, Debug, PartialEq, Eq)]
pub enum Right {
    /// To open queues on an agent and have it run packets.
    Use,
    /// To read a region.
    Read,
    /// To write a region.
    Write,
    /// To wait on a signal, to load and to test it.
    Wait,
    /// To change a signal.
    Change,
    /// To launch a kernel.
    Launch,
}

impl Right {
    /// The six rights, in the order in which they are listed.
    pub const ALL: [Right; 6] = [
        Right::Use,
        Right::Read,
        Right::Write,
        Right::Wait,
        Right::Change,
        Right::Launch,
    ];

    /// The right's name in policies, scripts and audits.
    pub fn name(self) -> &'static str
        ensures { result.now ≡ name_of_right self }
    {
        match self {
            Right::Use => "USE",
            Right::Read => "READ",
            Right::Write => "WRITE",
            Right::Wait => "WAIT",
            Right::Change => "CHANGE",
            Right::Launch => "LAUNCH",
        }
    }
}

impl fmt::Display for Right {
    ghost output = { λ right. Some (name_of_right right) };

    fn fmt<W: fmt::Write>(&self, f: &mut fmt::Formatter<W>) -> fmt::Result {
        f.write_str(self.name())
    }
}

/// A set of rights, a bit each.
#[derive(Clone, Copy, Debug, PartialEq, Eq)]
pub struct Rights(u8);

bitflag_items! {
    impl Rights: u8 {
        const USE = 1;
        const READ = 2;
        const WRITE = 4;
        const WAIT = 8;
        const CHANGE = 16;
        const LAUNCH = 32;
    }
}

impl Flags for Rights {
    type Bits = u8;

    ghost use Rattle.policy.specs.declared.rights.TheConstants.Rights.{USE, READ, WRITE, WAIT, CHANGE, LAUNCH};

    ghost exact = { ⊤ };

    ghost table = { (codes "USE", USE.0) ∷ (codes "READ", READ.0) ∷ (codes "WRITE", WRITE.0) ∷ (codes "WAIT", WAIT.0) ∷ (codes "CHANGE", CHANGE.0) ∷ (codes "LAUNCH", LAUNCH.0) ∷ [] };

    ghost set_of = { λ rights. rights.0 };

    fn flags<'a>() -> &'a [Flag<Rights>] {
        Rights::FLAGS
    }

    fn bits(&self) -> u8 {
        self.0
    }

    fn from_bits_retain(bits: u8) -> Rights {
        Rights(bits)
    }
}

impl Rights {
    ghost use Rattle.std.specs.Prelude.{◌&&◌, not};
    ghost use Rattle.policy.specs.Rights.{has, set_of, each_right, rights_that, by_right};

    /// No right.
    pub const NONE: Rights = Rights(0);

    /// The set of one right.
    pub fn of(right: Right) -> Rights
        ensures { result ≡ set_of right }
    {
        Rights(1 << right as u8)
    }

    /// Whether a right is in the set.
    pub fn has(self, right: Right) -> bool
        ensures { result ≡ has self right }
    {
        self.contains(Rights::of(right))
    }

    /// Whether each right of another set is in this one.
    pub fn includes(self, other: Rights) -> bool
        ensures { result ≡ each_right other (has self) }
    {
        Right::ALL
            .iter()
            .all(|right| !other.has(*right) || self.has(*right))
    }

    /// The rights of this set that aren't in another.
    pub fn without(self, taken: Rights) -> Rights
        ensures { (right : Right) → has result right ≡ (has self right && not (has taken right)) }
    {
        self.difference(taken)
    }

    /// The set of the rights of which it is said so, in the order of `ALL`.
    pub fn from_each(
        use_agent: bool,
        read: bool,
        write: bool,
        wait: bool,
        change: bool,
        launch: bool,
    ) -> Rights
        ensures { result ≡ rights_that (by_right use_agent read write wait change launch) }
    {
        Rights(
            bit(use_agent, Rights::USE)
                + bit(read, Rights::READ)
                + bit(write, Rights::WRITE)
                + bit(wait, Rights::WAIT)
                + bit(change, Rights::CHANGE)
                + bit(launch, Rights::LAUNCH),
        )
    }
}

// The bit of a right, where it is set.
fn bit(is_set: bool, right: Rights) -> u8
    ensures { result ≡ (if is_set then right.0 else 0) }
{
    if is_set { right.0 } else { 0 }
}
