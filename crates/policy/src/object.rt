//! What rights are on.

ghost use Rattle.std.specs.Prelude.{◌≡◌, ◌<◌, ◌^◌, Some};

use aql_packet::{AgentHandle, KernelObject, RegionHandle, SignalHandle};
use std::fmt;

/// A kind of object.
#[derive(Clone, Copy, Debug, PartialEq, Eq)]
pub enum Kind {
    /// What runs packets.
    Agent,
    /// A stretch of memory.
    Region,
    /// A signed number that packets and clients change and wait on.
    Signal,
    /// A kernel's text.
    Kernel,
}

impl Kind {
    ghost use Rattle.policy.specs.KindNames.{name_of_kind};

    /// The kinds, in the order in which objects are listed.
    pub const ALL: [Kind; 4] = [Kind::Agent, Kind::Region, Kind::Signal, Kind::Kernel];

    /// The kind's name in policies, scripts and audits.
    pub fn name(self) -> &'static str
        ensures { result.now ≡ name_of_kind self }
    {
        match self {
            Kind::Agent => "agent",
            Kind::Region => "region",
            Kind::Signal => "signal",
            Kind::Kernel => "kernel",
        }
    }
}

impl fmt::Display for Kind {
    ghost use Rattle.policy.specs.KindNames.{name_of_kind};

    ghost output = { λ kind. Some (name_of_kind kind) };

    fn fmt<W: fmt::Write>(&self, f: &mut fmt::Formatter<W>) -> fmt::Result {
        f.write_str(self.name())
    }
}

/// One object: its kind and its number, from 1 in the order of the policy for each kind (own).
#[derive(Clone, Copy, Debug, PartialEq, Eq)]
pub enum Object {
    /// An agent.
    Agent(AgentHandle),
    /// A region.
    Region(RegionHandle),
    /// A signal.
    Signal(SignalHandle),
    /// A kernel.
    Kernel(KernelObject),
}

impl Object {
    ghost use Rattle.policy.specs.Object.{kind_of, number_of, object_of};

    /// The object of a kind with a number.
    pub fn of(kind: Kind, number: u64) -> Object
        requires { number < 2 ^ 32 }
        ensures { result ≡ object_of kind number }
    {
        match kind {
            Kind::Agent => Object::Agent(AgentHandle(number as u32)),
            Kind::Region => Object::Region(RegionHandle(number as u32)),
            Kind::Signal => Object::Signal(SignalHandle(number)),
            Kind::Kernel => Object::Kernel(KernelObject(number)),
        }
    }

    /// The object's kind.
    pub fn kind(self) -> Kind
        ensures { result ≡ kind_of self }
    {
        match self {
            Object::Agent(_) => Kind::Agent,
            Object::Region(_) => Kind::Region,
            Object::Signal(_) => Kind::Signal,
            Object::Kernel(_) => Kind::Kernel,
        }
    }

    /// The object's number, from 1 for each kind.
    pub fn number(self) -> u64
        ensures { result ≡ number_of self }
    {
        match self {
            Object::Agent(AgentHandle(number)) => number as u64,
            Object::Region(RegionHandle(number)) => number as u64,
            Object::Signal(SignalHandle(number)) => number,
            Object::Kernel(KernelObject(number)) => number,
        }
    }
}
