//! Why a module is refused.

ghost use Rattle.std.specs.Prelude.{◌≡◌};
ghost use Rattle.kernel_check.specs.declared.fault.CheckError.TheVariants as check_error;
ghost use Rattle.kernel_check.specs.Faults.{cause_name, cause_number, error_number};

use std::alloc::{AllocError, AllocFailed};
use std::fmt;

/// What is wrong with an item of a module. An item with several faults has the one of least number.
#[derive(Clone, Copy, Debug, PartialEq, Eq)]
pub enum CheckCause {
    /// The kernel has no label of that name.
    UnknownLabel,
    /// The second of two kernels of a module, or of two variables or two labels of a kernel.
    DoubleName,
    /// A register of another class than the type at its place has.
    WrongRegister,
    /// A load of a kernel argument by a type that isn't as wide as the argument.
    WrongType,
    /// The kernel declares no variable of that name.
    UnknownArgument,
    /// A register's number over 63, a constant out of its type's range, a dimension over 2, or a limit
    /// on kernels, arguments or instructions.
    TooLarge,
    /// A form of address that the segment doesn't have, or a variable of another segment.
    BadAddress,
}

impl CheckCause {
    /// The number of the cause, from 1 for `UnknownLabel` to 7 for `BadAddress`.
    pub fn number(self) -> u8
        ensures { result ≡ cause_number self }
    {
        match self {
            CheckCause::UnknownLabel => 1,
            CheckCause::DoubleName => 2,
            CheckCause::WrongRegister => 3,
            CheckCause::WrongType => 4,
            CheckCause::UnknownArgument => 5,
            CheckCause::TooLarge => 6,
            CheckCause::BadAddress => 7,
        }
    }

    /// The name of the cause, as faults are told.
    fn name(self) -> &'static str
        ensures { result.now ≡ cause_name self }
    {
        match self {
            CheckCause::UnknownLabel => "UnknownLabel",
            CheckCause::DoubleName => "DoubleName",
            CheckCause::WrongRegister => "WrongRegister",
            CheckCause::WrongType => "WrongType",
            CheckCause::UnknownArgument => "UnknownArgument",
            CheckCause::TooLarge => "TooLarge",
            CheckCause::BadAddress => "BadAddress",
        }
    }
}

/// The fault of a module: the line of the item's first token, from 1, and the cause.
#[derive(Clone, Copy, Debug, PartialEq, Eq, thiserror::Error)]
pub struct CheckFault {
    pub line: u32,
    pub cause: CheckCause,
}

/// It prints as `line 4: UnknownLabel`.
impl fmt::Display for CheckFault {
    ghost use Rattle.std.specs.Prelude.{Some};
    ghost use Rattle.kernel_check.specs.Faults.{text_of_fault};

    ghost output = { λ fault. Some (text_of_fault fault) };

    fn fmt<W: fmt::Write>(&self, f: &mut fmt::Formatter<W>) -> fmt::Result {
        let line = self.line;
        let cause = self.cause.name();
        write!(f, "line {line}: {cause}")
    }
}

/// Why a module was not checked to its end.
#[derive(Clone, Copy, Debug, PartialEq, Eq, thiserror::Error)]
pub enum CheckError {
    /// There was no memory for the checked kernels.
    OutOfMemory,
    /// The module has a fault.
    Fault(CheckFault),
}

impl CheckError {
    /// The number of the refusal: 0 for want of memory, else that of the fault's cause.
    pub fn number(self) -> u8
        ensures { result ≡ error_number self }
    {
        match self {
            CheckError::OutOfMemory => 0,
            CheckError::Fault(fault) => fault.cause.number(),
        }
    }
}

/// It prints as `out of memory`, or as its fault.
impl fmt::Display for CheckError {
    ghost use Rattle.std.specs.Prelude.{Some};
    ghost use Rattle.kernel_check.specs.Faults.{text_of_error};

    ghost output = { λ error. Some (text_of_error error) };

    fn fmt<W: fmt::Write>(&self, f: &mut fmt::Formatter<W>) -> fmt::Result {
        match self {
            CheckError::OutOfMemory => write!(f, "out of memory"),
            CheckError::Fault(fault) => write!(f, "{fault}"),
        }
    }
}

impl From<AllocError> for CheckError {
    ghost from_gives = { λ _ e. e ≡ check_error.OutOfMemory };

    fn from(_e: AllocError) -> CheckError {
        CheckError::OutOfMemory
    }
}

impl<T: Drop> From<AllocFailed<T>> for CheckError {
    ghost from_gives = { λ _ e. e ≡ check_error.OutOfMemory };

    fn from(_e: AllocFailed<T>) -> CheckError {
        CheckError::OutOfMemory
    }
}
