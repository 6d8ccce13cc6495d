//! Why a run ended early.

use std::alloc::{AllocError, AllocFailed};

/// Why a run of a script ended early.
#[derive(Clone, Copy, Debug, PartialEq, Eq, thiserror::Error)]
pub enum ScriptFault {
    /// The engine wanted memory, and none was to be had.
    #[error("out of memory")]
    OutOfMemory,
    /// The line of this number, from 1, is too long or of no form.
    #[error("line {0} is no request")]
    BadLine(u64),
    /// The reader failed, or 2^40 reads were made.
    #[error("reading failed")]
    Read,
    /// The writer failed.
    #[error("writing failed")]
    Write,
}

impl ScriptFault {
    ghost use Rattle.std.specs.Prelude.{◌≡◌};
    ghost use Rattle.script.specs.Faults.{number_of_fault};

    /// The fault's number.
    pub fn number(&self) -> u8
        ensures { result ≡ number_of_fault self.now }
    {
        match self {
            ScriptFault::OutOfMemory => 0,
            ScriptFault::BadLine(_) => 1,
            ScriptFault::Read => 2,
            ScriptFault::Write => 3,
        }
    }
}

impl From<AllocError> for ScriptFault {
    ghost use Rattle.std.specs.Prelude.{◌≡◌};
    ghost use Rattle.script.specs.declared.fault.ScriptFault.TheVariants.{OutOfMemory};

    ghost from_gives = { λ error result. result ≡ OutOfMemory };

    fn from(_: AllocError) -> ScriptFault {
        ScriptFault::OutOfMemory
    }
}

impl From<AllocFailed<u8>> for ScriptFault {
    ghost use Rattle.std.specs.Prelude.{◌≡◌};
    ghost use Rattle.script.specs.declared.fault.ScriptFault.TheVariants.{OutOfMemory};

    ghost from_gives = { λ error result. result ≡ OutOfMemory };

    fn from(_: AllocFailed<u8>) -> ScriptFault {
        ScriptFault::OutOfMemory
    }
}

/// Why a run ended early: it couldn't go on, or a watcher ended it by a fault of its own.
#[derive(Drop)]
pub enum RunFault<F> {
    Script(ScriptFault),
    Watcher(F),
}

impl<F: Drop> From<AllocError> for RunFault<F> {
    ghost use Rattle.std.specs.Prelude.{◌≡◌};
    ghost use Rattle.script.specs.declared.fault.ScriptFault.TheVariants.{OutOfMemory};
    ghost use Rattle.script.specs.declared.fault.RunFault.TheVariants.{Script};

    ghost from_gives = { λ error result. result ≡ Script OutOfMemory };

    fn from(_: AllocError) -> RunFault<F> {
        RunFault::Script(ScriptFault::OutOfMemory)
    }
}

impl<F: Drop> From<ScriptFault> for RunFault<F> {
    ghost use Rattle.std.specs.Prelude.{◌≡◌};
    ghost use Rattle.script.specs.declared.fault.RunFault.TheVariants.{Script};

    ghost from_gives = { λ fault result. result ≡ Script fault };

    fn from(fault: ScriptFault) -> RunFault<F> {
        RunFault::Script(fault)
    }
}
