//! Why a line isn't assembled.

ghost use Rattle.std.specs.Prelude.{◌≡◌};

use hsail_reader::DataType;
use std::alloc::{AllocError, AllocFailed};
use std::fmt;

/// What is wanted at a word's place (own).
#[derive(Clone, Copy, Debug, PartialEq, Eq)]
pub enum Want {
    /// A queue's number.
    Queue,
    /// A producer's number.
    Producer,
    /// A client, who writes the argument block: the line names none.
    Writer,
    /// A client of the policy, or the number of a queue.
    ClientOrQueue,
    /// A kernel of the policy.
    Kernel,
    /// A kernel whose module has one of its entry's name.
    Entry,
    /// The word `grid`.
    Grid,
    /// The word `group`.
    Group,
    /// One to three sizes of the grid.
    GridSizes,
    /// As many sizes of a work-group as the grid has.
    GroupSizes,
    /// A value of a kernel's argument, of 8, 16, 32 or 64 bits.
    Value8,
    Value16,
    Value32,
    Value64,
    /// A value of an argument of this type.
    Typed(DataType),
    /// The name of an argument that has no value yet, and its value.
    Argument,
    /// The name of an argument of the kernel.
    ArgumentName,
    /// The name of an argument that has no value yet.
    ArgumentOnce,
    /// A client of the policy.
    Client,
    /// Where an argument block lies: an address, or a region.
    Place,
    /// The option `at`, which says where the argument block lies.
    At,
    /// An address.
    Address,
    /// An address of a script's line, in digits or otherwise.
    LineAddress,
    /// The number of a queue, or the end of the line.
    QueueOrEnd,
    /// The end of the line.
    EndOfLine,
    /// A word that lines begin with, of which this comes nearest, if one is near.
    Verb(Option<&'static str>),
    /// A run: what the line asks can't be assembled.
    Run,
    /// A number of 64 bits.
    Number,
    /// A number of 32 bits.
    Size,
    /// The word `length`.
    Length,
    /// The word `with`.
    With,
    /// The word `to`.
    To,
    /// A signal of the policy.
    Signal,
    /// A signal of the policy, no sixth one.
    FiveSignals,
    /// An option of a dispatch.
    DispatchOption,
    /// An option of an agent's function.
    AgentOption,
    /// An option of a barrier packet.
    BarrierOption,
    /// A line of at most 16,384 bytes.
    ShorterLine,
}

// What is wanted of an argument of a type.
fn text_of_typed(kind: DataType) -> &'static str {
    match kind {
        DataType::B1 | DataType::B8 => "a value of b8, -128 to 255",
        DataType::B16 => "a value of b16, -32768 to 65535",
        DataType::B32 => "a value of b32, -2147483648 to 4294967295",
        DataType::B64 => "a value of b64, a region as buf or buf+16, or a signal",
        DataType::U8 => "a value of u8, 0 to 255",
        DataType::U16 => "a value of u16, 0 to 65535",
        DataType::U32 => "a value of u32, 0 to 4294967295",
        DataType::U64 => "a value of u64, a region as buf or buf+16, or a signal",
        DataType::S8 => "a value of s8, -128 to 127",
        DataType::S16 => "a value of s16, -32768 to 32767",
        DataType::S32 => "a value of s32, -2147483648 to 2147483647",
        DataType::S64 => "a value of s64, -9223372036854775808 to 9223372036854775807",
    }
}

impl Want {
    // What is wanted, in words.
    fn text(self) -> &'static str {
        match self {
            Want::Queue => "the number of a queue",
            Want::Producer => "the number of a producer",
            Want::Writer =>
                "`dispatch CLIENT QUEUE PRODUCER ..`: a client who writes the arguments",
            Want::ClientOrQueue => "a client of the policy, or the number of a queue",
            Want::Kernel => "a kernel of the policy",
            Want::Entry => "a kernel whose text has one of its entry's name",
            Want::Grid => "`grid`",
            Want::Group => "`group`",
            Want::GridSizes => "one to three sizes, as 4 or 4,2,1",
            Want::GroupSizes => "as many sizes as the grid has, each below 65536",
            Want::Value8 => "a value of 8 bits, -128 to 255",
            Want::Value16 => "a value of 16 bits, -32768 to 65535",
            Want::Value32 => "a value of 32 bits, -2147483648 to 4294967295",
            Want::Value64 => "a value of 64 bits, or a region as buf or buf+16",
            Want::Typed(kind) => text_of_typed(kind),
            Want::Argument => "NAME=VALUE of an argument that has no value yet",
            Want::ArgumentName => "the name of an argument, as `brokerd kernel FILE` lists them",
            Want::ArgumentOnce => "an argument that has no value yet",
            Want::Client => "a client of the policy",
            Want::Place =>
                "where the block lies: a region as args, an address as args+16, or a number",
            Want::At => "`at` and where the arguments lie, as at args",
            Want::Address => "an address: a region as buf or buf+16, or a number",
            Want::LineAddress =>
                "an address: 16 hexadecimal digits, a region as buf or buf+16, or a number as 0x100000000",
            Want::QueueOrEnd => "the number of a queue, or the end of the line",
            Want::EndOfLine => "the end of the line",
            Want::Verb(_) => "a word that lines begin with",
            Want::Run => "a line that comes to lines of a script: `run --readable` takes this one",
            Want::Number => "a number of 64 bits, as 7 or 0x5a",
            Want::Size => "a number of 32 bits, as 64",
            Want::Length => "`length`",
            Want::With => "`with`",
            Want::To => "`to`",
            Want::Signal => "a signal of the policy",
            Want::FiveSignals => "no sixth signal",
            Want::DispatchOption => {
                "`arguments` right behind the sizes, at, signal, barrier, acquire=, release=, group-bytes or private-bytes"
            }
            Want::AgentOption => "return, signal, barrier, acquire= or release=",
            Want::BarrierOption =>
                "a signal of the policy, or signal, barrier, acquire= or release=",
            Want::ShorterLine => "a line of at most 16384 bytes",
        }
    }
}

impl fmt::Display for Want {
    fn fmt<W: fmt::Write>(&self, f: &mut fmt::Formatter<W>) -> fmt::Result {
        f.write_str(self.text())?;
        match self {
            Want::Verb(Some(nearest)) => write!(f, ", as {nearest}"),
            _ => Ok(()),
        }
    }
}

/// A word of a line at which the line goes on in no form: how many bytes there are from that word to
/// the end of the line, 0 at its end, and what is wanted there.
#[derive(Clone, Copy, Debug, PartialEq, Eq, thiserror::Error)]
#[error("wanted: {want}")]
pub struct Fault {
    pub left: usize,
    pub want: Want,
}

/// Why a line isn't assembled (own).
#[derive(Clone, Copy, Debug, PartialEq, Eq, thiserror::Error)]
pub enum LineError {
    /// Memory was wanted and not to be had.
    #[error("out of memory")]
    OutOfMemory,
    /// The line is of no form.
    #[error("{0}")]
    Fault(Fault),
}

impl From<AllocError> for LineError {
    ghost use Rattle.assemble.specs.declared.fault.LineError.TheVariants as error;

    ghost from_gives = { λ _ why. why ≡ error.OutOfMemory };

    fn from(_want: AllocError) -> LineError {
        LineError::OutOfMemory
    }
}

impl<T: Drop> From<AllocFailed<T>> for LineError {
    ghost use Rattle.assemble.specs.declared.fault.LineError.TheVariants as error;

    ghost from_gives = { λ _ why. why ≡ error.OutOfMemory };

    fn from(_want: AllocFailed<T>) -> LineError {
        LineError::OutOfMemory
    }
}

impl From<Fault> for LineError {
    ghost use Rattle.assemble.specs.declared.fault.LineError.TheVariants as error;

    ghost from_gives = { λ fault why. why ≡ error.Fault fault };

    fn from(fault: Fault) -> LineError {
        LineError::Fault(fault)
    }
}
