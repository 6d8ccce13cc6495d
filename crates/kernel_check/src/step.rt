//! What a checked kernel does: steps that name nothing any more. Each operation has the width and the sign
//! that it computes with, each constant stands at its width, and a label is the number of a step.

ghost use Rattle.std.specs.Prelude.{◌≡◌, ◌<◌};

use hsail_reader::{Comparison, RegisterClass, WorkItemQuery};
use std::marker::Model;

/// The number of a register within its class: 0 to 63 (PRM, Registers). A contract sees the number.
#[derive(Clone, Copy, Debug, PartialEq, Eq)]
pub struct RegisterNumber {
    number: u8,
}

impl Model for RegisterNumber {
    ghost use Rattle.std.specs.Prelude.{ℕ, ◌<◌};

    ghost Value = { ℕ };

    ghost view = { λ register. register.number };

    ghost invariant = { λ register. register.number < 64 };

    ghost inverse = { λ number. record { number = number } };
}

impl RegisterNumber {
    /// The register with a number.
    pub fn new(number: u8) -> RegisterNumber
        requires { number < 64 }
        ensures { result ≡ number }
    {
        RegisterNumber { number }
    }

    /// The number, which is an index into 64 registers.
    #[inline(always)]
    pub fn index(self) -> usize
        ensures value { result ≡ self }
        ensures bound { result < 64 }
    {
        self.number as usize
    }
}

/// A register of any class (PRM, Registers).
#[derive(Clone, Copy)]
pub enum AnyRegister {
    /// `$c`, of 1 bit
    Control(RegisterNumber),
    /// `$s`, of 32 bits
    Single(RegisterNumber),
    /// `$d`, of 64 bits
    Double(RegisterNumber),
}

/// What an operation reads: a register, or a constant of so many bits.
#[derive(Clone, Copy)]
pub enum Source<N> {
    Register(RegisterNumber),
    Constant(N),
}

/// 1 bit, of a `$c` register or a constant.
pub type Source1 = Source<bool>;

/// 32 bits, of an `$s` register or a constant. A place of 8 or 16 bits reads the low ones.
pub type Source32 = Source<u32>;

/// 64 bits, of a `$d` register or a constant.
pub type Source64 = Source<u64>;

/// What an operation of several types reads.
#[derive(Clone, Copy)]
pub enum AnySource {
    Control(Source1),
    Single(Source32),
    Double(Source64),
}

/// The two sources of an operation.
#[derive(Clone, Copy)]
pub struct Pair<S> {
    pub left: S,
    pub right: S,
}

/// The three sources of `mad`: the product of the first two, and the third.
#[derive(Clone, Copy)]
pub struct Triple<S> {
    pub first: S,
    pub second: S,
    pub third: S,
}

/// The sources of `cmov`: one where the condition is 1, the other where it is 0.
#[derive(Clone, Copy)]
pub struct Choice<S> {
    pub condition: Source1,
    pub one: S,
    pub zero: S,
}

/// The sources of a shift of 64 bits, whose count has 32.
#[derive(Clone, Copy)]
pub struct Shift64 {
    pub value: Source64,
    pub count: Source32,
}

/// What `cmp` asks, and of what.
#[derive(Clone, Copy)]
pub struct Compare<S> {
    pub comparison: Comparison,
    pub left: S,
    pub right: S,
}

/// What puts one bit into a `$c` register.
#[derive(Clone, Copy)]
pub enum ControlOperation {
    /// `mov_b1`
    Move(Source1),
    /// `not_b1`
    Not(Source1),
    /// `and_b1`
    And(Pair<Source1>),
    /// `or_b1`
    Or(Pair<Source1>),
    /// `xor_b1`
    Xor(Pair<Source1>),
    /// `cmov_b1`
    Choose(Choice<Source1>),
    /// `cmp_OP_b1_b1`
    Compare(Compare<Source1>),
    /// `cmp_OP_b1_u32`, and `b32`
    CompareUnsigned32(Compare<Source32>),
    /// `cmp_OP_b1_s32`
    CompareSigned32(Compare<Source32>),
    /// `cmp_OP_b1_u64`, and `b64`
    CompareUnsigned64(Compare<Source64>),
    /// `cmp_OP_b1_s64`
    CompareSigned64(Compare<Source64>),
}

/// What puts 32 bits into an `$s` register.
#[derive(Clone, Copy)]
pub enum SingleOperation {
    /// `mov_T`
    Move(Source32),
    /// `not_b32`
    Not(Source32),
    /// `add_T`
    Add(Pair<Source32>),
    /// `sub_T`
    Subtract(Pair<Source32>),
    /// `mul_T`
    Multiply(Pair<Source32>),
    /// `mad_T`
    MultiplyAdd(Triple<Source32>),
    /// `div_u32`
    DivideUnsigned(Pair<Source32>),
    /// `div_s32`
    DivideSigned(Pair<Source32>),
    /// `rem_u32`
    RemainderUnsigned(Pair<Source32>),
    /// `rem_s32`
    RemainderSigned(Pair<Source32>),
    /// `min_u32`
    LeastUnsigned(Pair<Source32>),
    /// `min_s32`
    LeastSigned(Pair<Source32>),
    /// `max_u32`
    GreatestUnsigned(Pair<Source32>),
    /// `max_s32`
    GreatestSigned(Pair<Source32>),
    /// `and_b32`
    And(Pair<Source32>),
    /// `or_b32`
    Or(Pair<Source32>),
    /// `xor_b32`
    Xor(Pair<Source32>),
    /// `shl_T`
    ShiftLeft(Pair<Source32>),
    /// `shr_u32`
    ShiftRightUnsigned(Pair<Source32>),
    /// `shr_s32`
    ShiftRightSigned(Pair<Source32>),
    /// `cmov_b32`
    Choose(Choice<Source32>),
}

/// What puts 64 bits into a `$d` register.
#[derive(Clone, Copy)]
pub enum DoubleOperation {
    /// `mov_T`
    Move(Source64),
    /// `not_b64`
    Not(Source64),
    /// `add_T`
    Add(Pair<Source64>),
    /// `sub_T`
    Subtract(Pair<Source64>),
    /// `mul_T`
    Multiply(Pair<Source64>),
    /// `mad_T`
    MultiplyAdd(Triple<Source64>),
    /// `div_u64`
    DivideUnsigned(Pair<Source64>),
    /// `div_s64`
    DivideSigned(Pair<Source64>),
    /// `rem_u64`
    RemainderUnsigned(Pair<Source64>),
    /// `rem_s64`
    RemainderSigned(Pair<Source64>),
    /// `min_u64`
    LeastUnsigned(Pair<Source64>),
    /// `min_s64`
    LeastSigned(Pair<Source64>),
    /// `max_u64`
    GreatestUnsigned(Pair<Source64>),
    /// `max_s64`
    GreatestSigned(Pair<Source64>),
    /// `and_b64`
    And(Pair<Source64>),
    /// `or_b64`
    Or(Pair<Source64>),
    /// `xor_b64`
    Xor(Pair<Source64>),
    /// `shl_T`
    ShiftLeft(Shift64),
    /// `shr_u64`
    ShiftRightUnsigned(Shift64),
    /// `shr_s64`
    ShiftRightSigned(Shift64),
    /// `cmov_b64`
    Choose(Choice<Source64>),
}

/// The types that `cvt` and `ld` read and write, and `st` writes (PRM, Base Data Types). A `b` type is
/// accessed as the `u` type of its width.
#[derive(Clone, Copy, Debug, PartialEq, Eq)]
pub enum NumberType {
    /// One bit.
    B1,
    /// Eight bits, unsigned.
    U8,
    /// Sixteen bits, unsigned.
    U16,
    /// Thirty-two bits, unsigned.
    U32,
    /// Sixty-four bits, unsigned.
    U64,
    /// Eight bits in two's complement.
    S8,
    /// Sixteen bits in two's complement.
    S16,
    /// Thirty-two bits in two's complement.
    S32,
    /// Sixty-four bits in two's complement.
    S64,
}

/// `cvt_U_T`: from T, the type of the source, to U, the type of the target.
#[derive(Clone, Copy)]
pub struct ConvertStep {
    pub from: NumberType,
    pub to: NumberType,
    pub target: AnyRegister,
    pub source: AnySource,
}

/// A place in memory: what a register has, or nothing, and what is added to it, wrapping.
#[derive(Clone, Copy, Debug, PartialEq, Eq)]
pub struct Pointer {
    /// The `$d` register of an address of global memory.
    pub base: Option<RegisterNumber>,
    pub offset: u64,
}

/// A place in group memory: what a register has, or nothing, and what is added to it, wrapping at 2^32. A
/// group variable is the number of bytes that stand before it.
#[derive(Clone, Copy, Debug, PartialEq, Eq)]
pub struct GroupPointer {
    /// The `$s` register of an address of group memory.
    pub base: Option<RegisterNumber>,
    pub offset: u32,
}

/// A place in the segment of an atomic operation.
#[derive(Clone, Copy, Debug, PartialEq, Eq)]
pub enum AtomicPointer {
    Global(Pointer),
    Group(GroupPointer),
}

/// Which addresses a segment has (PRM, Address Expressions).
#[derive(Clone, Copy, Debug, PartialEq, Eq)]
pub struct AddressForms {
    /// `[%x]`
    pub variable: bool,
    /// `[n]`, `[r]`, `[r+n]` and `[r-n]`, for registers r of this class
    pub base: Option<RegisterClass>,
    /// `[%x][..]`, with one of these in the second brackets
    pub indexed: bool,
}

/// `ld_kernarg_T target, [%p]`, with the bytes that stand before the argument in its block.
#[derive(Clone, Copy)]
pub struct ArgumentStep {
    pub kind: NumberType,
    pub target: AnyRegister,
    pub offset: u32,
}

/// `ld_global_T target, [address]`
#[derive(Clone, Copy)]
pub struct LoadStep {
    pub kind: NumberType,
    pub target: AnyRegister,
    pub pointer: Pointer,
}

/// `st_global_T source, [address]`
#[derive(Clone, Copy)]
pub struct StoreStep {
    pub kind: NumberType,
    pub source: AnySource,
    pub pointer: Pointer,
}

/// `ld_group_T target, [address]`
#[derive(Clone, Copy)]
pub struct GroupLoadStep {
    pub kind: NumberType,
    pub target: AnyRegister,
    pub pointer: GroupPointer,
}

/// `st_group_T source, [address]`
#[derive(Clone, Copy)]
pub struct GroupStoreStep {
    pub kind: NumberType,
    pub source: AnySource,
    pub pointer: GroupPointer,
}

/// The sources of `cas`: where the old value is the expected one, the other is stored.
#[derive(Clone, Copy)]
pub struct Swap<S> {
    pub expected: S,
    pub replacement: S,
}

/// What an atomic operation puts in place of 32 or 64 bits of memory: the old value and its source, joined
/// as it says. The order and the scope of the text have no effect here (own).
#[derive(Clone, Copy)]
pub enum AtomicChange<S> {
    /// `add_T`
    Add(S),
    /// `sub_T`: the old value less the source
    Subtract(S),
    /// `min_u32` and `min_u64`
    LeastUnsigned(S),
    /// `min_s32` and `min_s64`
    LeastSigned(S),
    /// `max_u32` and `max_u64`
    GreatestUnsigned(S),
    /// `max_s32` and `max_s64`
    GreatestSigned(S),
    /// `and_T`
    And(S),
    /// `or_T`
    Or(S),
    /// `xor_T`
    Xor(S),
    /// `exch_T`: the source
    Exchange(S),
    /// `cas_T`: nothing, where the old value is another than the expected one
    CompareAndSwap(Swap<S>),
}

/// `atomic_OP_SEG_O_S_T target, [address], ..`, which puts the old value into an `$s` or `$d` register, as
/// wide as its sources; or `atomicnoret`, which has no target.
#[derive(Clone, Copy)]
pub struct AtomicStep<S> {
    pub target: Option<RegisterNumber>,
    pub pointer: AtomicPointer,
    pub operation: AtomicChange<S>,
}

/// `cbr_b1 condition, @label`, with the number of the step behind the label, from 0. Where the label
/// stands before the closing brace, that is the number of steps.
#[derive(Clone, Copy)]
pub struct BranchStep {
    pub condition: Source1,
    pub next: usize,
}

/// A dimension of a grid.
#[derive(Clone, Copy, Debug, PartialEq, Eq)]
pub enum Dimension {
    X,
    Y,
    Z,
}

/// `workitemid_u32` and its kin: `target, dimension`.
#[derive(Clone, Copy)]
pub struct WorkItemQueryStep {
    pub query: WorkItemQuery,
    pub target: AnyRegister,
    pub dimension: Dimension,
}

/// An operation and the `$c` register that it sets.
#[derive(Clone, Copy)]
pub struct ControlStep {
    pub target: RegisterNumber,
    pub operation: ControlOperation,
}

/// An operation and the `$s` register that it sets.
#[derive(Clone, Copy)]
pub struct SingleStep {
    pub target: RegisterNumber,
    pub operation: SingleOperation,
}

/// An operation and the `$d` register that it sets.
#[derive(Clone, Copy)]
pub struct DoubleStep {
    pub target: RegisterNumber,
    pub operation: DoubleOperation,
}

/// What one instruction does (PRM, HSAIL Instructions).
#[derive(Clone, Copy)]
pub enum Step {
    Control(ControlStep),
    Single(SingleStep),
    Double(DoubleStep),
    Convert(ConvertStep),
    Argument(ArgumentStep),
    Load(LoadStep),
    Store(StoreStep),
    LoadGroup(GroupLoadStep),
    StoreGroup(GroupStoreStep),
    Atomic32(AtomicStep<Source32>),
    Atomic64(AtomicStep<Source64>),
    /// `br @x`, with the number of the step behind the label, as in `BranchStep`
    Branch(usize),
    ConditionalBranch(BranchStep),
    /// `ret`
    Return,
    /// `barrier`; its width has no effect (own)
    Barrier,
    WorkItemQuery(WorkItemQueryStep),
}

/// A step, with the line of its instruction's first token.
#[derive(Clone, Copy)]
pub struct LinedStep {
    pub line: u32,
    pub step: Step,
}
