//! A module as its text spells it: kernels, items and operations.

ghost use Rattle.std.specs.Prelude.{◌≡◌};
ghost use Rattle.hsail_reader.specs.RowOperations.{IsOfRow};

use crate::rows::Form;
use crate::types::{Alignment, Constant, DataType, Modifiers, Register, Segment, Source};
use sequences::Sequence;
use std::marker::Model;

/// A module as its text spells it (PRM, Modules). Each name has its first byte, `&`, `%` or `@`,
/// and each line counts from 1.
pub struct Module {
    pub name: Sequence<u8>,
    /// The minor version: 0, 1 or 2. The major version is 1.
    pub minor: u8,
    pub profile: Profile,
    pub rounding: Rounding,
    /// The kernels, in the order of the text.
    pub kernels: Sequence<Kernel>,
}

// Written out, so that where a module ends stands one call, and not what ends each of its parts.
impl Drop for Module {
    fn drop(self) {
        let Module {
            name: _,
            minor: _,
            profile: _,
            rounding: _,
            kernels: _,
        } = self;
    }
}

/// The profile of a module (PRM, Profiles).
#[derive(Clone, Copy, Debug, PartialEq, Eq)]
pub enum Profile {
    Base,
    Full,
}

/// The default rounding mode of a module (PRM, Rounding). It has no effect on whole numbers.
#[derive(Clone, Copy, Debug, PartialEq, Eq)]
pub enum Rounding {
    Default,
    Zero,
    Near,
}

/// A kernel (PRM, Kernel), with the line of its first token.
#[derive(Drop)]
pub struct Kernel {
    pub line: u32,
    pub name: Sequence<u8>,
    pub arguments: Sequence<Argument>,
    pub items: Sequence<Item>,
}

/// A kernel argument `align(n) kernarg_T %name` (PRM, Kernarg Segment), with the line of its first
/// token. Its type is not b1.
#[derive(Drop)]
pub struct Argument {
    pub line: u32,
    pub align: Option<Alignment>,
    pub kind: DataType,
    pub name: Sequence<u8>,
}

/// What stands between the braces of a kernel.
#[derive(Drop)]
pub enum Item {
    Label(Label),
    Variable(GroupVariable),
    Instruction(Instruction),
}

/// A label `@name :` (PRM, Labels), with its line.
#[derive(Drop)]
pub struct Label {
    pub line: u32,
    pub name: Sequence<u8>,
}

/// A variable of the group segment, `align(n) group_T %name[length];` (PRM, Group Segment), with the
/// line of its first token. Its type is not b1.
#[derive(Drop)]
pub struct GroupVariable {
    pub line: u32,
    pub align: Option<Alignment>,
    pub kind: DataType,
    pub name: Sequence<u8>,
    /// How many values of the type it has; one, where the text has no brackets.
    pub length: Option<u64>,
}

/// An instruction, with the line of its first token.
#[derive(Drop)]
pub struct Instruction {
    pub line: u32,
    pub operation: Operation,
}

/// What an instruction does (PRM, HSAIL Instructions): what its row does, the modifiers and the type
/// of its word, and its operands in order. A contract sees these four. Every operation is of a row of the
/// table of instructions: `operations_are_of_rows` says so.
#[derive(Drop)]
pub struct Operation {
    form: Form,
    modifiers: Modifiers,
    kind: DataType,
    operands: Operands,
}

impl Model for Operation {
    ghost use Rattle.hsail_reader.specs.Operations as operations;

    ghost Value = { operations.Operation };

    ghost use Rattle.hsail_reader.specs.RowOperations as rows;

    ghost view = { λ o. operations.operation o.form o.modifiers o.kind o.operands };

    ghost invariant = { λ o. rows.IsOfRow (operations.operation o.form o.modifiers o.kind o.operands) };
}

impl Operation {
    ghost use Rattle.hsail_reader.specs.Operations.{operation};

    /// The operation of these parts, which are those of a row.
    pub(crate) fn new(
        form: Form,
        modifiers: Modifiers,
        kind: DataType,
        operands: Operands,
    ) -> Operation
        requires { IsOfRow (operation form modifiers kind operands) }
        ensures { result ≡ operation form modifiers kind operands }
    {
        Operation {
            form,
            modifiers,
            kind,
            operands,
        }
    }

    /// What the row does.
    #[inline(always)]
    pub fn form(&self) -> Form
        ensures { result ≡ self.now.form }
    {
        self.form
    }

    /// The modifiers of the word.
    #[inline(always)]
    pub fn modifiers(&self) -> Modifiers
        ensures { result ≡ self.now.modifiers }
    {
        self.modifiers
    }

    /// The type of the word; b1 where it has none.
    #[inline(always)]
    pub fn kind(&self) -> DataType
        ensures { result ≡ self.now.kind }
    {
        self.kind
    }

    /// The operands, in order.
    #[inline(always)]
    pub fn operands(&self) -> &Operands
        ensures { result.now ≡ self.now.operands }
    {
        &self.operands
    }
}

/// An operation, of whatever module, is of a row of the table of instructions: it does what the row does, with
/// modifiers that the row allows, a type that it has, and its operands at their places, each at the type that
/// the row gives it. It does nothing.
pub fn operations_are_of_rows(operation: &Operation)
    ensures { IsOfRow operation.now }
{
    let _ = &operation.form;
}

/// The operands of an instruction, each as the row has it at its place.
#[derive(Drop)]
pub struct Operands {
    pub first: Operand,
    pub second: Operand,
    pub third: Operand,
    pub fourth: Operand,
}

/// An operand (PRM, Operands), with the type that the row gives to its place.
#[derive(Drop)]
pub enum Operand {
    /// The row has none here.
    Absent,
    Target(Target),
    Source(TypedSource),
    Address(Access),
    /// `@x`, with the label's name
    Label(Sequence<u8>),
    /// The number that the text spells; 0, 1 and 2 are dimensions.
    Dimension(u64),
}

/// A register that is written, at a type.
#[derive(Clone, Copy)]
pub struct Target {
    pub kind: DataType,
    pub register: Register,
}

/// A register or a constant that is read, at a type.
#[derive(Clone, Copy)]
pub struct TypedSource {
    pub kind: DataType,
    pub source: Source,
}

/// `[address]` in a segment, where a value of a type is read or written.
#[derive(Drop)]
pub struct Access {
    pub segment: Segment,
    pub kind: DataType,
    pub address: Address,
}

/// What stands in the brackets of a load or a store (PRM, Address Expressions).
#[derive(Drop)]
pub enum Address {
    /// `[%x]`
    Variable(Sequence<u8>),
    /// `[n]`, `[r]`, `[r+n]` or `[r-n]`, for a register r of any class
    Place(SegmentPlace),
    /// `[%x][..]`
    Indexed(Indexed),
}

/// `[%x][..]`: a variable, and a place counted from it.
#[derive(Drop)]
pub struct Indexed {
    pub variable: Sequence<u8>,
    pub place: SegmentPlace,
}

/// A place in a segment: a register and a number, or a number alone.
#[derive(Clone, Copy, Debug, PartialEq, Eq)]
pub enum SegmentPlace {
    /// `n`
    Absolute(u64),
    /// `r`, which stands for `r+0`, `r+n` or `r-n`
    Relative(Relative),
}

/// A register, and what is added to it.
#[derive(Clone, Copy, Debug, PartialEq, Eq)]
pub struct Relative {
    pub register: Register,
    pub offset: Constant,
}
