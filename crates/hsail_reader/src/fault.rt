//! Why a text was not read.

ghost use Rattle.std.specs.Prelude.{◌≡◌, ◌+◌, ◌≤◌, ◌^◌, length, take};
ghost use Rattle.hsail_reader.specs.declared.fault.Stop.TheVariants as stop;
ghost use Rattle.hsail_reader.specs.Faults.{fault_at, cause_name, cause_number, cause_of, error_of, fault_of};

use std::alloc::{AllocError, AllocFailed};
use std::fmt;

/// What is wrong with a text.
#[derive(Clone, Copy, Debug, PartialEq, Eq)]
pub enum ReadCause {
    /// The bytes from there on begin no lexeme.
    Lexeme,
    /// No module goes on with the token there.
    Syntax,
    /// The word there is in no row of the profile.
    NotInProfile,
    /// The text is over 65,536 bytes.
    TooLong,
}

impl ReadCause {
    /// The number of the cause: Lexeme 1, Syntax 2, NotInProfile 3, TooLong 4.
    pub fn number(self) -> u8
        ensures { result ≡ cause_number self }
    {
        match self {
            ReadCause::Lexeme => 1,
            ReadCause::Syntax => 2,
            ReadCause::NotInProfile => 3,
            ReadCause::TooLong => 4,
        }
    }

    /// The name of the cause, as faults are told.
    fn name(self) -> &'static str
        ensures { result.now ≡ cause_name self }
    {
        match self {
            ReadCause::Lexeme => "Lexeme",
            ReadCause::Syntax => "Syntax",
            ReadCause::NotInProfile => "NotInProfile",
            ReadCause::TooLong => "TooLong",
        }
    }
}

/// The fault of a text: the place, with lines and columns from 1 and columns in bytes, and the cause.
#[derive(Clone, Copy, Debug, PartialEq, Eq, thiserror::Error)]
pub struct ReadFault {
    pub line: u32,
    pub column: u32,
    pub cause: ReadCause,
}

/// It prints as `line 4, column 3: Syntax`.
impl fmt::Display for ReadFault {
    ghost use Rattle.std.specs.Prelude.{Some};
    ghost use Rattle.hsail_reader.specs.Faults.{text_of_fault};

    ghost output = { λ fault. Some (text_of_fault fault) };

    fn fmt<W: fmt::Write>(&self, f: &mut fmt::Formatter<W>) -> fmt::Result {
        let line = self.line;
        let column = self.column;
        let cause = self.cause.name();
        write!(f, "line {line}, column {column}: {cause}")
    }
}

/// Why no module was read.
#[derive(Clone, Copy, Debug, PartialEq, Eq, thiserror::Error)]
pub enum ReadError {
    /// There was no memory for the tokens or the module.
    OutOfMemory,
    /// The text is not one of a module.
    Fault(ReadFault),
}

/// It prints as `out of memory`, or as its fault.
impl fmt::Display for ReadError {
    ghost use Rattle.std.specs.Prelude.{Some};
    ghost use Rattle.hsail_reader.specs.Faults.{text_of_error};

    ghost output = { λ error. Some (text_of_error error) };

    fn fmt<W: fmt::Write>(&self, f: &mut fmt::Formatter<W>) -> fmt::Result {
        match self {
            ReadError::OutOfMemory => write!(f, "out of memory"),
            ReadError::Fault(fault) => write!(f, "{fault}"),
        }
    }
}

/// What is wrong with a text that isn't too long.
#[derive(Clone, Copy)]
pub enum Flaw {
    Lexeme,
    Syntax,
    NotInProfile,
}

impl Flaw {
    fn cause(self) -> ReadCause
        ensures { result ≡ cause_of self }
    {
        match self {
            Flaw::Lexeme => ReadCause::Lexeme,
            Flaw::Syntax => ReadCause::Syntax,
            Flaw::NotInProfile => ReadCause::NotInProfile,
        }
    }
}

/// A flaw, and how many bytes stand before it: `None` at the end of the text. Its line and column aren't
/// counted yet.
#[derive(Clone, Copy)]
pub struct PlacedFlaw {
    pub place: Option<usize>,
    pub flaw: Flaw,
}

/// Why a part of the text was not read.
#[derive(Clone, Copy)]
pub enum Stop {
    OutOfMemory,
    Refused(PlacedFlaw),
}

impl From<AllocError> for Stop {
    ghost from_gives = { λ _ e. e ≡ stop.OutOfMemory };

    fn from(_e: AllocError) -> Stop {
        Stop::OutOfMemory
    }
}

impl<T: Drop> From<AllocFailed<T>> for Stop {
    ghost from_gives = { λ _ e. e ≡ stop.OutOfMemory };

    fn from(_e: AllocFailed<T>) -> Stop {
        Stop::OutOfMemory
    }
}

/// The fault behind the bytes that stand before it.
fn fault_behind(before: &[u8], cause: ReadCause) -> ReadFault
    requires { length before.now ≤ 65536 }
    ensures { result ≡ fault_at 1 1 before.now cause }
{
    let mut rest = before;
    let mut line = 1;
    let mut column = 1;
    while let [first, tail @ ..] = rest {
        if *first == b'\n' {
            line += 1;
            column = 1;
        } else {
            column += 1;
        }
        rest = tail;
    }
    ReadFault {
        line,
        column,
        cause,
    }
}

/// The fault of a text, with its line and column.
fn located(text: &[u8], placed: PlacedFlaw) -> ReadFault
    requires { length text.now ≤ 65536 }
    ensures { result ≡ fault_of text.now placed }
{
    let before = match placed.place {
        Some(place) if place <= text.len() => text.split_at(place).0,
        _ => text,
    };
    fault_behind(before, placed.flaw.cause())
}

/// What a stop is to a reader of the whole text: want of memory, or the fault. It takes no memory.
pub fn told(text: &[u8], stop: Stop) -> ReadError
    requires { length text.now ≤ 65536 }
    ensures { result ≡ error_of text.now stop }
{
    match stop {
        Stop::OutOfMemory => ReadError::OutOfMemory,
        Stop::Refused(placed) => ReadError::Fault(located(text, placed)),
    }
}
