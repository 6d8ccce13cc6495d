//! Why a command doesn't do what was asked, and how that is told.

ghost use Rattle.std.specs.Prelude.{◌≡◌, IfOk, IfSome, None, string_bytes, true};
ghost use Rattle.commands.specs.Commands.{EndsBy, TellsEnd, TellsRun, no_stop};
ghost use Rattle.commands.specs.Failures.{status_of, has_number, line_of_failure, stream, text_of_failure, NamesFailure, TellsLine, failure_of_reading, failure_of_kernels, failure_of_opening, failure_of_script};

use crate::kernel_judging::{KernelError, KernelFault};
use crate::status::Status;
use access_core::OpenFault;
use aql_packet::KernelObject;
use policy::{PolicyFault, ReadPolicyError};
use script::{Either, Never, NotDone, RunFault, ScriptFault, Sink, write_through};
use std::alloc::{AllocError, Global};
use std::fmt;

/// Why a command doesn't do what was asked (own).
#[derive(Clone, Copy, Debug, PartialEq, Eq, thiserror::Error)]
pub enum Failure {
    /// Memory was wanted and not to be had.
    OutOfMemory,
    /// The policy has this fault.
    Policy(PolicyFault),
    /// A kernel of the policy has this one.
    Kernel(KernelFault),
    /// The kernels that were handed to the core aren't one for each of the policy's.
    KernelCount,
    /// The module of this kernel, the least such, has no kernel of its entry's name.
    NoEntry(KernelObject),
    /// An audit can't have so many places.
    Capacity,
    /// The script's line of this number, from 1, is too long or of no form.
    Line(u64),
    /// The script can't be read.
    Read,
    /// What was asked for can't be written.
    Write,
}

// A text in which no number stands, with its line.
macro_rules! fixed {
    ($text:literal) => {
        ($text, concat!($text, "\n"))
    };
}

// The text that is told where no memory is left for another, with its line.
const NO_MEMORY: (&str, &str) = fixed!("no memory");

impl Failure {
    /// How the command ends.
    pub fn status(self) -> Status
        ensures { result ≡ status_of self }
    {
        match self {
            Failure::Policy(_)
            | Failure::Kernel(_)
            | Failure::KernelCount
            | Failure::NoEntry(_)
            | Failure::Capacity
            | Failure::Line(_) => Status::Refused,
            Failure::OutOfMemory | Failure::Read | Failure::Write => Status::Failed,
        }
    }

    // The text that names a failure, and its line, if no number stands in it.
    fn fixed(self) -> Option<(&'static str, &'static str)>
        ensures text { IfSome result (λ fixed. fixed.0.now ≡ text_of_failure self) }
        ensures line { IfSome result (λ fixed. fixed.1.now ≡ line_of_failure self) }
        ensures numbered { result ≡ None → has_number self ≡ true }
    {
        match self {
            Failure::OutOfMemory => Some(NO_MEMORY),
            Failure::KernelCount => Some(fixed!("kernels: one for each kernel of the policy")),
            Failure::Capacity => Some(fixed!("audit: 1 to 1048576 entries")),
            Failure::Read => Some(fixed!("read fault")),
            Failure::Write => Some(fixed!("write fault")),
            Failure::Policy(_) | Failure::Kernel(_) | Failure::NoEntry(_) | Failure::Line(_) =>
                None,
        }
    }

    /// The failure of the reading of a policy.
    pub fn of_reading(why: ReadPolicyError) -> Failure
        ensures { result ≡ failure_of_reading why }
    {
        match why {
            ReadPolicyError::OutOfMemory => Failure::OutOfMemory,
            ReadPolicyError::Fault(fault) => Failure::Policy(fault),
        }
    }

    /// The failure of the check of its kernels.
    pub fn of_kernels(why: KernelError) -> Failure
        ensures { result ≡ failure_of_kernels why }
    {
        match why {
            KernelError::OutOfMemory => Failure::OutOfMemory,
            KernelError::Fault(fault) => Failure::Kernel(fault),
        }
    }

    /// The failure of the opening of its core.
    pub fn of_opening(why: OpenFault) -> Failure
        ensures { result ≡ failure_of_opening why }
    {
        match why {
            OpenFault::OutOfMemory => Failure::OutOfMemory,
            OpenFault::KernelCount => Failure::KernelCount,
            OpenFault::NoEntry(kernel) => Failure::NoEntry(kernel),
            OpenFault::BadCapacity => Failure::Capacity,
        }
    }

    /// The failure of the run of a script.
    pub fn of_script(why: ScriptFault) -> Failure
        ensures { result ≡ failure_of_script why }
    {
        match why {
            ScriptFault::OutOfMemory => Failure::OutOfMemory,
            ScriptFault::BadLine(number) => Failure::Line(number),
            ScriptFault::Read => Failure::Read,
            ScriptFault::Write => Failure::Write,
        }
    }
}

/// It prints as `policy: 4 UnknownName allow 7`, `kernel 2: read 3 line 4 column 1`, `kernel 2: no entry`, `line 3: bad request`,
/// `no memory`, `read fault` or `write fault`.
impl fmt::Display for Failure {
    ghost use Rattle.std.specs.Prelude.{Some};
    ghost use Rattle.commands.specs.Failures.{text_of_failure};

    ghost output = { λ failure. Some (text_of_failure failure) };

    fn fmt<W: fmt::Write>(&self, f: &mut fmt::Formatter<W>) -> fmt::Result {
        if let Some((text, _line)) = self.fixed() {
            return f.write_str(text);
        }
        match self {
            Failure::Policy(fault) => write!(f, "policy: {fault}"),
            Failure::Kernel(fault) => write!(f, "{fault}"),
            Failure::NoEntry(kernel) => {
                let number = kernel.0;
                write!(f, "kernel {number}: no entry")
            }
            Failure::Line(number) => write!(f, "line {number}: bad request"),
            _fixed => Ok(()),
        }
    }
}

// The line that names a failure.
fn line_of(alloc: Global, failure: Failure) -> Result<String, AllocError>
    ensures { IfOk result (λ line. string_bytes line ≡ line_of_failure failure) }
{
    let mut line = String::new(alloc);
    writeln!(line, "{failure}")?;
    Ok(line)
}

// Writes a line, and tells how the command ends: failed, where the writer failed.
fn tell_line<E: Sink>(line: &str, ending: Status, err: &mut E) -> Status
    ensures { TellsLine line.now ending (stream (E.contents err.old) (E.failed err.old)) (stream (E.contents err.new) (E.failed err.new)) result }
{
    match write_through(err, line.as_bytes()) {
        Ok(()) => ending,
        Err(_) => Status::Failed,
    }
}

/// Names a failure in a line, and tells how the command ends. Where there is no memory for a line with a number in it,
/// that is named.
pub fn name_failure<E: Sink>(alloc: Global, failure: Failure, err: &mut E) -> Status
    ensures { NamesFailure failure (stream (E.contents err.old) (E.failed err.old)) (stream (E.contents err.new) (E.failed err.new)) result }
{
    if let Some((_text, line)) = failure.fixed() {
        return tell_line(line, failure.status(), err);
    }
    match line_of(alloc, failure) {
        Ok(line) => tell_line(line.as_str(), failure.status(), err),
        Err(_) => tell_line(NO_MEMORY.1, Status::Failed, err),
    }
}

/// Names why what was asked wasn't done, if it wasn't.
pub fn tell_end<E: Sink>(alloc: Global, ended: Result<(), ScriptFault>, err: &mut E) -> Status
    ensures { TellsEnd ended (stream (E.contents err.old) (E.failed err.old)) (stream (E.contents err.new) (E.failed err.new)) result }
{
    match ended {
        Ok(()) => Status::Done,
        Err(why) => name_failure(alloc, Failure::of_script(why), err),
    }
}

/// How a command ends whose run a watcher ended (own).
#[derive(Clone, Copy, Debug, PartialEq, Eq)]
pub enum Stop {
    /// So, and nothing is told.
    Quiet(Status),
    /// By a failure, which is named.
    Named(Failure),
}

/// A watcher's fault: it says how the command ends.
pub trait Stops {
    ghost use Rattle.commands.specs.declared.failure.Stop.{Stop};

    /// How the command may end.
    ghost stops: { Stop → Type 0 };

    /// How the command ends.
    fn stop(self) -> Stop
        ensures { stops result };
}

impl Stops for NotDone {
    ghost use Rattle.commands.specs.Commands.{refused_quietly};

    ghost stops = { refused_quietly };

    fn stop(self) -> Stop {
        Stop::Quiet(Status::Refused)
    }
}

impl<A: Stops, B: Stops> Stops for Either<A, B> {
    ghost use Rattle.std.specs.Prelude.{◌⊎◌};

    ghost stops = { λ stop. A.stops stop ⊎ B.stops stop };

    fn stop(self) -> Stop {
        match self {
            Either::First(fault) => fault.stop(),
            Either::Second(fault) => fault.stop(),
        }
    }
}

// How a command ends whose run its watcher ended.
fn tell_stop<E: Sink>(alloc: Global, stop: Stop, err: &mut E) -> Status
    ensures { EndsBy stop (stream (E.contents err.old) (E.failed err.old)) (stream (E.contents err.new) (E.failed err.new)) result }
{
    match stop {
        Stop::Quiet(status) => status,
        Stop::Named(failure) => name_failure(alloc, failure, err),
    }
}

/// Names why a run wasn't done to its end, if it wasn't, unless its watcher ended it and says that nothing is told.
pub fn tell_run<F: Stops + Drop, E: Sink>(
    alloc: Global,
    ended: Result<(), RunFault<F>>,
    err: &mut E,
) -> Status
    ensures { TellsRun F.stops ended (stream (E.contents err.old) (E.failed err.old)) (stream (E.contents err.new) (E.failed err.new)) result }
{
    match ended {
        Ok(()) => Status::Done,
        Err(RunFault::Script(why)) => name_failure(alloc, Failure::of_script(why), err),
        Err(RunFault::Watcher(fault)) => tell_stop(alloc, fault.stop(), err),
    }
}

/// Names why a run that nobody watched wasn't done to its end, if it wasn't.
pub fn tell_unwatched<E: Sink>(
    alloc: Global,
    ended: Result<(), RunFault<Never>>,
    err: &mut E,
) -> Status
    ensures { TellsRun no_stop ended (stream (E.contents err.old) (E.failed err.old)) (stream (E.contents err.new) (E.failed err.new)) result }
{
    match ended {
        Ok(()) => Status::Done,
        Err(RunFault::Script(why)) => name_failure(alloc, Failure::of_script(why), err),
        Err(RunFault::Watcher(fault)) => match fault {},
    }
}
