//! Why a work-group has no writes.

ghost use Rattle.std.specs.Prelude.{◌≡◌};
ghost use Rattle.executor.specs.Results.{fault_number};

use queue_error::{Rule, SegmentAddress};
use std::alloc::AllocError;

/// A rule that a work-item broke (own).
#[derive(Clone, Copy, Debug, PartialEq, Eq, thiserror::Error)]
#[error("item {item} line {line}: rule {rule}")]
pub struct ItemFault {
    /// The work-item's number in its work-group, with x fastest.
    pub item: u32,
    /// The line of the instruction.
    pub line: u32,
    pub rule: Rule,
    /// The address that the instruction asked for; none where the rule was broken without an access.
    pub address: Option<SegmentAddress>,
}

/// Why a work-group has no writes.
#[derive(Clone, Copy, Debug, PartialEq, Eq, thiserror::Error)]
pub enum RunFault {
    /// A growth was refused.
    #[error("out of memory")]
    OutOfMemory,
    #[error("{0}")]
    Fault(ItemFault),
}

impl RunFault {
    /// The number of the refusal: 0 for want of memory, 1 for a rule that was broken.
    pub fn number(self) -> u8
        ensures { result ≡ fault_number self }
    {
        match self {
            RunFault::OutOfMemory => 0,
            RunFault::Fault(_) => 1,
        }
    }
}

impl From<AllocError> for RunFault {
    ghost use Rattle.std.specs.Prelude.{◌≡◌};
    ghost use Rattle.executor.specs.declared.fault.RunFault.TheVariants as fault;

    ghost from_gives = { λ error result. result ≡ fault.OutOfMemory };

    fn from(_: AllocError) -> RunFault {
        RunFault::OutOfMemory
    }
}
