//! What stands behind the tags of flat steps. The register that a step sets is `to`.

use crate::step::{Dimension, NumberType, RegisterNumber};
use hsail_reader::{Comparison, WorkItemQuery};

/// What a flat step reads at a place: a register, or the constant that stands in the step.
#[derive(Clone, Copy)]
pub struct Operand {
    pub is_register: bool,
    /// The register, if it is one.
    pub number: RegisterNumber,
}

/// A register, or none.
#[derive(Clone, Copy)]
pub struct MaybeRegister {
    pub is_register: bool,
    /// The register, if there is one.
    pub number: RegisterNumber,
}

/// A `$c` register, or a constant bit.
#[derive(Clone, Copy)]
pub struct Bit {
    pub is_register: bool,
    /// The register, if it is one.
    pub number: RegisterNumber,
    /// The bit, if it is none.
    pub constant: bool,
}

/// Whether a type of 8 to 64 bits has a sign.
#[derive(Clone, Copy)]
pub enum Signedness {
    Unsigned,
    Signed,
}

/// What an operation of two sources of 32 or of 64 bits does.
#[derive(Clone, Copy)]
pub enum Operation {
    Add,
    Subtract,
    Multiply,
    And,
    Or,
    Xor,
    DivideUnsigned,
    DivideSigned,
    RemainderUnsigned,
    RemainderSigned,
    LeastUnsigned,
    LeastSigned,
    GreatestUnsigned,
    GreatestSigned,
}

/// What a shift does.
#[derive(Clone, Copy)]
pub enum ShiftOperation {
    Left,
    RightUnsigned,
    RightSigned,
}

/// What an atomic operation of one source does, as in `AtomicChange`.
#[derive(Clone, Copy)]
pub enum Change {
    Add,
    Subtract,
    LeastUnsigned,
    LeastSigned,
    GreatestUnsigned,
    GreatestSigned,
    And,
    Or,
    Xor,
    Exchange,
}

/// One register that an operation reads.
#[derive(Clone, Copy)]
pub struct FromOne {
    pub to: RegisterNumber,
    pub source: RegisterNumber,
}

/// Two registers that an operation reads.
#[derive(Clone, Copy)]
pub struct FromTwo {
    pub to: RegisterNumber,
    pub left: RegisterNumber,
    pub right: RegisterNumber,
}

/// Three registers that an operation reads.
#[derive(Clone, Copy)]
pub struct FromThree {
    pub to: RegisterNumber,
    pub first: RegisterNumber,
    pub second: RegisterNumber,
    pub third: RegisterNumber,
}

/// A register, and a constant of 32 bits behind.
#[derive(Clone, Copy)]
pub struct ConstantBehind {
    pub to: RegisterNumber,
    pub left: RegisterNumber,
    pub constant: u32,
}

/// An operation and its two registers.
#[derive(Clone, Copy)]
pub struct Calculation {
    pub operation: Operation,
    pub to: RegisterNumber,
    pub left: RegisterNumber,
    pub right: RegisterNumber,
}

/// The constants of `cmov` on a register.
#[derive(Clone, Copy)]
pub struct ChosenConstants {
    pub to: RegisterNumber,
    pub condition: RegisterNumber,
    pub one: u32,
    pub zero: u32,
}

/// Two registers that are compared.
#[derive(Clone, Copy)]
pub struct Compared {
    pub comparison: Comparison,
    pub to: RegisterNumber,
    pub left: RegisterNumber,
    pub right: RegisterNumber,
}

/// A register that is compared with a constant of 32 bits.
#[derive(Clone, Copy)]
pub struct ComparedBehind {
    pub comparison: Comparison,
    pub to: RegisterNumber,
    pub left: RegisterNumber,
    pub constant: u32,
}

/// The types of `cvt`, from and to, and its registers.
#[derive(Clone, Copy)]
pub struct Conversion {
    pub from: NumberType,
    pub kind: NumberType,
    pub to: RegisterNumber,
    pub source: RegisterNumber,
}

/// An argument, by the bytes that stand before it in its block.
#[derive(Clone, Copy)]
pub struct ArgumentAt {
    pub sign: Signedness,
    pub to: RegisterNumber,
    pub offset: u32,
}

/// A query of a work-item.
#[derive(Clone, Copy)]
pub struct Question {
    pub to: RegisterNumber,
    pub query: WorkItemQuery,
    pub dimension: Dimension,
}

/// A place in the grid, in a dimension.
#[derive(Clone, Copy)]
pub struct PlaceIn {
    pub to: RegisterNumber,
    pub dimension: Dimension,
}
