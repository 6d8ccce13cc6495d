//! Why a replay doesn't go on.

use core_model::{Outcome, Refusal};
use std::alloc::{AllocError, AllocFailed};

/// What was owed in place of an entry.
#[derive(Clone, Copy, Debug, PartialEq, Eq)]
pub enum Due {
    /// A refusal, which leaves no entry.
    Refused(Refusal),
    /// An answer that leaves no entry.
    Answered(Outcome),
    /// Another entry: the last one of the replay.
    Entered,
}

/// Why an entry wasn't taken.
#[derive(Clone, Copy, Debug, PartialEq, Eq)]
pub enum Stop {
    /// Memory was wanted and not to be had.
    OutOfMemory,
    /// No entry more finds room.
    NoRoom,
    /// It puts rows in force that none of the further policies has.
    UnknownRows,
    /// It isn't what its call was owed by the entries before it; this was.
    NotOwed(Due),
}

impl From<AllocError> for Stop {
    ghost use Rattle.std.specs.Prelude.{◌≡◌};
    ghost use Rattle.replay.specs.declared.stop.Stop.TheVariants as stop;

    ghost from_gives = { λ _ why. why ≡ stop.OutOfMemory };

    fn from(_want: AllocError) -> Stop {
        Stop::OutOfMemory
    }
}

impl<T: Drop> From<AllocFailed<T>> for Stop {
    ghost use Rattle.std.specs.Prelude.{◌≡◌};
    ghost use Rattle.replay.specs.declared.stop.Stop.TheVariants as stop;

    ghost from_gives = { λ _ why. why ≡ stop.OutOfMemory };

    fn from(_want: AllocFailed<T>) -> Stop {
        Stop::OutOfMemory
    }
}
