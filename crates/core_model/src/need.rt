//! What a packet asks for: rights on objects and on ranges of memory, and functions of its agent.

use aql_packet::Address;
use policy::{Object, Right};

/// The number of the function that fills a range with a byte (own).
pub const FILL: u16 = 0x8000;

/// The number of the function that copies a range (own).
pub const COPY: u16 = 0x8001;

/// The number of the function that adds to a 64-bit number (own).
pub const ADD64: u16 = 0x8002;

/// A range of addresses.
#[derive(Clone, Copy, Debug, PartialEq, Eq)]
pub struct Range {
    /// Its first address.
    pub address: Address,
    /// How many bytes it has.
    pub size: u64,
}

/// A function that agents have built in, with what it is to work on (own).
#[derive(Clone, Copy, Debug, PartialEq, Eq)]
pub enum AgentFunction {
    /// Each byte of the target becomes this one.
    Fill { target: Range, byte: u8 },
    /// The source's bytes go to the target, as if by a copy aside.
    Copy { source: Range, target: Range },
    /// The 64-bit number gains the addend, wrapping.
    Add64 { number: Range, addend: u64 },
}

/// What a right is needed on.
#[derive(Clone, Copy, Debug, PartialEq, Eq)]
pub enum Subject {
    /// An object.
    Object(Object),
    /// The region in which this range lies; it has to lie there whole.
    Range(Range),
}

/// A right that a packet needs to be launched (own).
#[derive(Clone, Copy, Debug, PartialEq, Eq)]
pub struct Need {
    /// On what.
    pub subject: Subject,
    /// The right.
    pub right: Right,
}
