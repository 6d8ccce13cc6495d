//! The core: what is in force, in memory and in flight, and the audit that says how it came about.

ghost use Rattle.core_model.specs.History.{beginning};
ghost use Rattle.std.specs.Prelude.{◌≡◌, ◌+◌, ◌<◌, length, nat_lt};
ghost use Rattle.core_model.specs.Flight.{flight};
ghost use Rattle.core_model.specs.Legal.{entry_of};
ghost use Rattle.access_core.specs.inner.Cached.{IsEntered, is_full};

mod asked;
mod closing;
mod completing;
mod granting;
mod group_writes;
mod host;
mod leaving;
mod lookups;
mod moving;
mod opening;
mod polling;
mod queries;
mod queueing;
mod reloading;
mod rotating;
mod running;
mod running_kernels;
mod serving;
mod stopping;
mod taking;
mod truncating;
mod viewing;

use crate::fresh::Fresh;
use crate::kernel::Kernel;
use crate::queue::Queue;
use crate::spare_lists::SpareLists;
use aql_packet::KernelObject;
use boxed::Boxed;
use core_model::{Effects, Entry, Event, KernelSegments, Origin, Outcome};
use grants::Grants;
use regions::Regions;
use sequences::Reserved;
use signals::Signals;
use std::alloc::AllocError;
use std::marker::Model;

/// Why a core can't be opened.
#[derive(Clone, Copy, Debug, PartialEq, Eq, thiserror::Error)]
pub enum OpenFault {
    /// Memory was wanted and not to be had.
    #[error("out of memory")]
    OutOfMemory,
    /// There isn't one kernel for each kernel of the policy.
    #[error("not one kernel for each of the policy")]
    KernelCount,
    /// This kernel, the least such, has no index, or one that is none of its checked kernels'.
    #[error("kernel {} has no entry", .0.0)]
    NoEntry(KernelObject),
    /// The audit's capacity isn't 1 to 2^20 entries.
    #[error("the audit has 1 to 1048576 entries")]
    BadCapacity,
}

impl OpenFault {
    ghost use Rattle.std.specs.Prelude.{◌≡◌};
    ghost use Rattle.access_core.specs.Faults.{number_of_fault};

    /// The fault's number (own).
    pub fn number(&self) -> u8
        ensures { result ≡ number_of_fault self.now }
    {
        match self {
            OpenFault::OutOfMemory => 0,
            OpenFault::KernelCount => 1,
            OpenFault::NoEntry(_) => 2,
            OpenFault::BadCapacity => 3,
        }
    }
}

impl From<AllocError> for OpenFault {
    ghost use Rattle.std.specs.Prelude.{◌≡◌};
    ghost use Rattle.access_core.specs.declared.access.OpenFault.TheVariants as fault;

    ghost from_gives = { λ _ why. why ≡ fault.OutOfMemory };

    fn from(_want: AllocError) -> OpenFault {
        OpenFault::OutOfMemory
    }
}

/// The broker's core. A contract sees its history, which is what it began from and its audit's entries,
/// and how many places its tables have.
pub struct AccessCore {
    /// What its history begins from, and with it the policy that it was opened with.
    start: Boxed<Origin>,
    /// The kernels, in order.
    kernels: Vec<Kernel>,
    /// How large their segments are.
    segments: Vec<KernelSegments>,
    /// The rights in force. What packets in flight hold lies with them in their queues, and none is held here.
    grants: Grants,
    /// Memory for the rights of packets that are launched.
    spare: SpareLists,
    /// Memory for what an emptied audit leaves to begin from.
    fresh: Fresh,
    /// Up to which launch the start tells of packets as the core itself told of them, when it last emptied its audit.
    told: u64,
    memory: Regions,
    signals: Signals,
    /// The open queues, by number.
    queues: Vec<Queue>,
    /// How many queues were ever opened: the number of the last.
    opened: u64,
    /// How many packets are in flight, of all queues.
    in_flight_count: usize,
    capacity: usize,
    audit: Reserved<Entry>,
}

// Written out, so that where a core ends stands one call, and not what ends each of its parts.
impl Drop for AccessCore {
    fn drop(self) {
        let AccessCore {
            start: _,
            kernels: _,
            segments: _,
            grants: _,
            spare: _,
            fresh: _,
            told: _,
            memory: _,
            signals: _,
            queues: _,
            opened: _,
            in_flight_count: _,
            capacity: _,
            audit: _,
        } = self;
    }
}

impl Model for AccessCore {
    ghost use Rattle.access_core.specs.Cores.{Core};

    ghost Value = { Core };

    ghost use Rattle.access_core.specs.inner.Cached.{core_of, IsCached};

    ghost view = { core_of };

    ghost invariant = { IsCached };
}

impl AccessCore {
    // Whether the audit has no room for an entry after which as many packets are in flight.
    fn is_full(&self) -> bool
        ensures { result ≡ is_full self.now.history }
    {
        self.capacity < self.audit.len() + 1 + self.in_flight_count
    }

    // Whether it has none for an entry after which one packet more is in flight.
    fn is_full_for_launch(&self) -> bool
        ensures { result ≡ nat_lt self.now.history.capacity
            (length self.now.history.entries + 1 + (length (flight (beginning self.now.history) self.now.history.entries) + 1)) }
    {
        self.capacity < self.audit.len() + 1 + (self.in_flight_count + 1)
    }
}

// Puts an entry behind the others.
fn enter(audit: &mut Reserved<Entry>, event: Event, outcome: Outcome, effects: Effects)
    requires { 0 < audit.old.room }
    ensures { IsEntered audit.old audit.new (entry_of event outcome effects) }
{
    audit.push(Entry {
        event,
        outcome,
        effects,
    });
}
