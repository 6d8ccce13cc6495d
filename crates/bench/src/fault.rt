//! Why a run ended early.

use access_core::{Kernel, OpenFault};
use core_model::{JoinFault, Refusal};
use executor::RunFault;
use hsail_reader::ReadError;
use kernel_check::CheckError;
use policy::{Policy, ReadPolicyError};
use ring::{RingFault, Spent};
use std::alloc::{AllocError, AllocFailed};
use std::{fmt, io};
use threads_load::LoadFault;

/// Why a run ended early: a measurement told no figure, or calls were not made to their end.
#[derive(Clone, Copy)]
pub enum Fault {
    /// There was no memory.
    OutOfMemory,
    /// The clock or the output failed.
    System,
    /// No packet and no room came in `LOOKS` looks.
    Stuck,
    /// A packet is not whole, or not the next of its producer.
    NotWhole,
    /// Something was refused, and not for want of memory.
    Refused,
    /// A kernel was refused, or did not end as it has to.
    Kernel,
    /// What the items of a kernel stored is not what they have to store.
    OtherSum,
    /// A script did not end well.
    Script,
    /// A script's replies are not those that are wanted.
    OtherReplies,
    /// A broker did not open, or lanes did not finish what was published.
    Unsettled,
}

/// How often a producer looks for room, and the processor for a packet, before it gives up.
pub const LOOKS: u64 = 100_000_000;

impl Fault {
    // What failed, in words.
    fn text(self) -> &'static str {
        match self {
            Fault::OutOfMemory => "no memory",
            Fault::System => "the clock or the output failed",
            Fault::Stuck => "no packet and no room came, however often they were looked for",
            Fault::NotWhole => "a packet is not whole, or not the next of its producer",
            Fault::Refused => "what was asked is refused",
            Fault::Kernel => "a kernel was refused, or did not end",
            Fault::OtherSum => "what the items stored does not add up",
            Fault::Script => "a script did not end well",
            Fault::OtherReplies => "the replies to a script are not those that are wanted",
            Fault::Unsettled => "a broker did not open, or lanes did not finish what was published",
        }
    }

    /// The exit status: as of the broker's own program, 3 for want of memory.
    pub fn status(self) -> u8 {
        match self {
            Fault::OutOfMemory => 3,
            _ => 1,
        }
    }
}

impl fmt::Display for Fault {
    fn fmt<W: fmt::Write>(&self, f: &mut fmt::Formatter<W>) -> fmt::Result {
        f.write_str(self.text())
    }
}

impl From<AllocError> for Fault {
    fn from(_: AllocError) -> Fault {
        Fault::OutOfMemory
    }
}

impl From<io::Error> for Fault {
    fn from(_: io::Error) -> Fault {
        Fault::System
    }
}

impl From<RingFault> for Fault {
    fn from(fault: RingFault) -> Fault {
        match fault {
            RingFault::OutOfMemory => Fault::OutOfMemory,
            RingFault::BadSize | RingFault::BadProducers => Fault::Refused,
        }
    }
}

impl From<Spent> for Fault {
    fn from(_: Spent) -> Fault {
        Fault::Refused
    }
}

impl From<ReadError> for Fault {
    fn from(error: ReadError) -> Fault {
        match error {
            ReadError::OutOfMemory => Fault::OutOfMemory,
            ReadError::Fault(_) => Fault::Kernel,
        }
    }
}

impl From<CheckError> for Fault {
    fn from(error: CheckError) -> Fault {
        match error {
            CheckError::OutOfMemory => Fault::OutOfMemory,
            CheckError::Fault(_) => Fault::Kernel,
        }
    }
}

impl From<RunFault> for Fault {
    fn from(fault: RunFault) -> Fault {
        match fault {
            RunFault::OutOfMemory => Fault::OutOfMemory,
            RunFault::Fault(_) => Fault::Kernel,
        }
    }
}

impl From<ReadPolicyError> for Fault {
    fn from(error: ReadPolicyError) -> Fault {
        match error {
            ReadPolicyError::OutOfMemory => Fault::OutOfMemory,
            ReadPolicyError::Fault(_) => Fault::Refused,
        }
    }
}

impl From<AllocFailed<[Kernel; 1]>> for Fault {
    fn from(_: AllocFailed<[Kernel; 1]>) -> Fault {
        Fault::OutOfMemory
    }
}

impl From<OpenFault> for Fault {
    fn from(fault: OpenFault) -> Fault {
        match fault {
            OpenFault::OutOfMemory => Fault::OutOfMemory,
            _ => Fault::Refused,
        }
    }
}

impl From<Refusal> for Fault {
    fn from(refusal: Refusal) -> Fault {
        match refusal {
            Refusal::OutOfMemory => Fault::OutOfMemory,
            _ => Fault::Refused,
        }
    }
}

impl From<(Refusal, Policy)> for Fault {
    fn from((refusal, _): (Refusal, Policy)) -> Fault {
        Fault::from(refusal)
    }
}

impl From<JoinFault> for Fault {
    fn from(fault: JoinFault) -> Fault {
        match fault {
            JoinFault::OutOfMemory => Fault::OutOfMemory,
            JoinFault::NotNext => Fault::Refused,
        }
    }
}

impl From<LoadFault> for Fault {
    fn from(fault: LoadFault) -> Fault {
        match fault {
            LoadFault::OutOfMemory => Fault::OutOfMemory,
            LoadFault::Opening(_)
            | LoadFault::Refused(_)
            | LoadFault::OtherQueue
            | LoadFault::Unwritten
            | LoadFault::MissingPass
            | LoadFault::NotNext => Fault::Unsettled,
        }
    }
}
