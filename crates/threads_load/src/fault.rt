//! Why a load isn't run.

use access_core::OpenFault;
use core_model::Refusal;
use std::alloc::{AllocError, AllocFailed};

/// Why a load isn't run to its report (own): in the order in which it meets them, want of memory at any.
#[derive(Clone, Copy, Debug, PartialEq, Eq, thiserror::Error)]
pub enum LoadFault {
    /// No core is opened over the policy and its kernels.
    #[error("{0}")]
    Opening(OpenFault),
    /// The core refused a call: a grant, an opening, or the read of a region.
    #[error("{0}")]
    Refused(Refusal),
    /// A planned queue isn't open under the number of its place in the plan: it has another, or was closed.
    #[error("a queue has another number than its place in the plan")]
    OtherQueue,
    /// What is shown of the load couldn't be written.
    #[error("what is shown of the load was not written")]
    Unwritten,
    /// A pass didn't come back from its thread.
    #[error("a pass is missing")]
    MissingPass,
    /// The part that was handed out doesn't lead to the audit.
    #[error("the part that was handed out does not lead to the audit")]
    NotNext,
    /// Memory was wanted and not to be had.
    #[error("out of memory")]
    OutOfMemory,
}

impl From<AllocError> for LoadFault {
    ghost use Rattle.std.specs.Prelude.{◌≡◌};
    ghost use Rattle.threads_load.specs.declared.fault.LoadFault.TheVariants as fault;

    ghost from_gives = { λ _ why. why ≡ fault.OutOfMemory };

    fn from(_want: AllocError) -> LoadFault {
        LoadFault::OutOfMemory
    }
}

impl<T: Drop> From<AllocFailed<T>> for LoadFault {
    fn from(_want: AllocFailed<T>) -> LoadFault {
        LoadFault::OutOfMemory
    }
}

impl From<Refusal> for LoadFault {
    fn from(why: Refusal) -> LoadFault {
        match why {
            Refusal::OutOfMemory => LoadFault::OutOfMemory,
            why => LoadFault::Refused(why),
        }
    }
}

impl From<OpenFault> for LoadFault {
    ghost use Rattle.std.specs.Prelude.{◌≡◌};
    ghost use Rattle.threads_load.specs.Faults.{told_of_opening};

    ghost from_gives = { λ why told. told ≡ told_of_opening why };

    fn from(why: OpenFault) -> LoadFault {
        match why {
            OpenFault::OutOfMemory => LoadFault::OutOfMemory,
            why => LoadFault::Opening(why),
        }
    }
}
