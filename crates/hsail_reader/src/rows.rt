//! The table of instructions: a row for each, and the modifiers that it may have.

ghost use Rattle.std.specs.Prelude.{◌≡◌, map};
ghost use Rattle.hsail_reader.specs.Rows.{allows, bracketed_rows, kind_at, modifier_rows, modifier_view, row_view, rows, types_of, type_name};

use crate::types::BinaryOperation::{
    Add, And, Compare, Divide, Maximum, Minimum, Multiply, Or, Remainder, ShiftLeft, ShiftRight,
    Subtract, Xor,
};
use crate::types::Comparison::{Equal, Greater, GreaterOrEqual, Less, LessOrEqual, NotEqual};
use crate::types::DataType::{B1, B8, B16, B32, B64, S8, S16, S32, S64, U8, U16, U32, U64};
use crate::types::Modifiers::{One, Two};
use crate::types::Segment::{Global, Group, Kernarg};
use crate::types::TernaryOperation::{ConditionalMove, MultiplyAdd};
use crate::types::UnaryOperation::{Convert, Move, Not};
use crate::types::Width::{All, Number as WithNumber, WaveSize};
use crate::types::WorkItemQuery::{
    CurrentWorkGroupSize, GridSize, WorkGroupId, WorkGroupSize, WorkItemAbsoluteId, WorkItemId,
};
use crate::types::{
    AtomicOperation, BinaryOperation, DataType, MemoryOrder, MemoryScope, Modifier, Modifiers,
    Segment, TernaryOperation, UnaryOperation,
};
use Form::{
    Atomic, AtomicNoReturn, Barrier, Binary, Branch, ConditionalBranch, Load, Return, Store,
    Ternary, Unary, WorkItemQuery,
};
use KindAt::{Given, Own};
use ModifierEnd::{Number, Whole};
use ModifierSet::{Align, AlignAndWidth, OrderAndScope, Plain, Width};
use Shape::{Absent as NO, Address, Dimension, Label, Source, Target};
use TypeSet::{
    Bit, Bits, Bits32And64, BitsAndIntegers, Convertible, Integers, Memory, Unsigned32,
    Unsigned32And64, Untyped,
};

/// What a row does (PRM, HSAIL Instructions).
#[derive(Clone, Copy, Debug, PartialEq, Eq)]
pub enum Form {
    Unary(UnaryOperation),
    Binary(BinaryOperation),
    Ternary(TernaryOperation),
    Load,
    Store,
    /// `atomic`, which has the old value as its result
    Atomic(AtomicOperation),
    /// `atomicnoret`, which has no result
    AtomicNoReturn(AtomicOperation),
    Branch,
    ConditionalBranch,
    Return,
    Barrier,
    WorkItemQuery(crate::types::WorkItemQuery),
}

/// The type at an operand's place: that of the word, or one that the row gives.
#[derive(Clone, Copy)]
pub enum KindAt {
    Own,
    Given(DataType),
}

impl KindAt {
    /// The type at the place, behind a word of a type.
    pub fn kind(self, word: DataType) -> DataType
        ensures { result ≡ kind_at self word }
    {
        match self {
            KindAt::Own => word,
            KindAt::Given(kind) => kind,
        }
    }
}

/// What a row has at a place of its operands.
#[derive(Clone, Copy)]
pub enum Shape {
    /// nothing
    Absent,
    /// `d`: a register of a type, which is written
    Target(KindAt),
    /// `a`: a register or a constant of a type
    Source(KindAt),
    /// `[addr]` in a segment, at the type of the word
    Address(Segment),
    /// `@x`
    Label,
    /// `k`: a dimension's number
    Dimension,
}

/// The operands of a row, with commas between; behind one that is absent stands none.
#[derive(Clone, Copy)]
pub struct Shapes(pub Shape, pub Shape, pub Shape, pub Shape);

/// Modifiers that a row takes, behind its stem and before its type.
#[derive(Clone, Copy)]
pub enum ModifierSet {
    Plain,
    /// `_align(n)`
    Align,
    /// `_width(w)`
    Width,
    /// both, in either order
    AlignAndWidth,
    /// an order, and behind it a scope
    OrderAndScope,
}

/// What stands behind the text of a modifier's row.
#[derive(Clone, Copy)]
pub enum ModifierEnd {
    /// nothing: the text stands for this modifier
    Whole(Modifier),
    /// a number and the closing bracket, which give this modifier its number
    Number(Modifier),
}

/// How a modifier is spelled: a text, and what stands behind it.
#[derive(Clone, Copy)]
pub struct ModifierRow(pub &'static str, pub ModifierEnd);

/// How many modifiers have brackets.
const BRACKETED: usize = 4;

/// The table of modifiers, first those with brackets: a word's lexeme has them inside or at its end. A text
/// that begins with another's stands before it.
const MODIFIERS: [ModifierRow; 12] = [
    ModifierRow("_align(", Number(Modifier::Align(0))),
    ModifierRow("_width(all)", Whole(Modifier::Width(All))),
    ModifierRow("_width(WAVESIZE)", Whole(Modifier::Width(WaveSize))),
    ModifierRow("_width(", Number(Modifier::Width(WithNumber(0)))),
    ModifierRow("_rlx", Whole(Modifier::Order(MemoryOrder::Relaxed))),
    ModifierRow("_scacq", Whole(Modifier::Order(MemoryOrder::Acquire))),
    ModifierRow("_screl", Whole(Modifier::Order(MemoryOrder::Release))),
    ModifierRow("_scar", Whole(Modifier::Order(MemoryOrder::AcquireRelease))),
    ModifierRow("_wave", Whole(Modifier::Scope(MemoryScope::Wavefront))),
    ModifierRow("_wg", Whole(Modifier::Scope(MemoryScope::WorkGroup))),
    ModifierRow("_agent", Whole(Modifier::Scope(MemoryScope::Agent))),
    ModifierRow("_system", Whole(Modifier::Scope(MemoryScope::System))),
];

/// Types that a row takes.
#[derive(Clone, Copy)]
pub enum TypeSet {
    /// b1
    Bit,
    /// b1, b32, b64
    Bits,
    /// b32, b64
    Bits32And64,
    /// u32, s32, u64, s64
    Integers,
    /// those of `Bits` and of `Integers`
    BitsAndIntegers,
    /// b1, u and s of 8 to 64 bits
    Convertible,
    /// u, s and b of 8 to 64 bits
    Memory,
    /// u32
    Unsigned32,
    /// u32, u64
    Unsigned32And64,
    /// no type: nothing stands behind the stem, and the word counts as one of type b1
    Untyped,
}

/// A row of the table of instructions: the front of its words, the modifiers and the types that may
/// stand behind it, what it does, and its operands, each with the type at its place.
#[derive(Clone, Copy)]
pub struct Row(
    pub &'static str,
    pub ModifierSet,
    pub TypeSet,
    pub Form,
    pub Shapes,
);

/// `d`, a register of the word's type
const D: Shape = Target(Own);

/// `a`, a source of the word's type
const A: Shape = Source(Own);

macro_rules! rows {
    ($($stem:expr, $modifiers:expr, $types:expr, $form:expr, $a:expr, $b:expr, $c:expr, $d:expr;)*) => {
        [$(Row($stem, $modifiers, $types, $form, Shapes($a, $b, $c, $d))),*]
    };
}

/// The table of instructions, in the order of the format. A shift's count has 32 bits; a comparison's
/// answer and the condition of `cmov` have one.
const ROWS: [Row; 78] = rows! {
    "mov", Plain, BitsAndIntegers, Unary(Move), D, A, NO, NO;
    "add", Plain, Integers, Binary(Add), D, A, A, NO;
    "sub", Plain, Integers, Binary(Subtract), D, A, A, NO;
    "mul", Plain, Integers, Binary(Multiply), D, A, A, NO;
    "mad", Plain, Integers, Ternary(MultiplyAdd), D, A, A, A;
    "div", Plain, Integers, Binary(Divide), D, A, A, NO;
    "rem", Plain, Integers, Binary(Remainder), D, A, A, NO;
    "min", Plain, Integers, Binary(Minimum), D, A, A, NO;
    "max", Plain, Integers, Binary(Maximum), D, A, A, NO;
    "and", Plain, Bits, Binary(And), D, A, A, NO;
    "or", Plain, Bits, Binary(Or), D, A, A, NO;
    "xor", Plain, Bits, Binary(Xor), D, A, A, NO;
    "not", Plain, Bits, Unary(Not), D, A, NO, NO;
    "shl", Plain, Integers, Binary(ShiftLeft), D, A, Source(Given(U32)), NO;
    "shr", Plain, Integers, Binary(ShiftRight), D, A, Source(Given(U32)), NO;
    "cmp_eq_b1", Plain, BitsAndIntegers, Binary(Compare(Equal)), Target(Given(B1)), A, A, NO;
    "cmp_ne_b1", Plain, BitsAndIntegers, Binary(Compare(NotEqual)), Target(Given(B1)), A, A, NO;
    "cmp_lt_b1", Plain, Integers, Binary(Compare(Less)), Target(Given(B1)), A, A, NO;
    "cmp_le_b1", Plain, Integers, Binary(Compare(LessOrEqual)), Target(Given(B1)), A, A, NO;
    "cmp_gt_b1", Plain, Integers, Binary(Compare(Greater)), Target(Given(B1)), A, A, NO;
    "cmp_ge_b1", Plain, Integers, Binary(Compare(GreaterOrEqual)), Target(Given(B1)), A, A, NO;
    "cmov", Plain, Bits, Ternary(ConditionalMove), D, Source(Given(B1)), A, A;
    "cvt_b1", Plain, Convertible, Unary(Convert(B1)), Target(Given(B1)), A, NO, NO;
    "cvt_u8", Plain, Convertible, Unary(Convert(U8)), Target(Given(U8)), A, NO, NO;
    "cvt_u16", Plain, Convertible, Unary(Convert(U16)), Target(Given(U16)), A, NO, NO;
    "cvt_u32", Plain, Convertible, Unary(Convert(U32)), Target(Given(U32)), A, NO, NO;
    "cvt_u64", Plain, Convertible, Unary(Convert(U64)), Target(Given(U64)), A, NO, NO;
    "cvt_s8", Plain, Convertible, Unary(Convert(S8)), Target(Given(S8)), A, NO, NO;
    "cvt_s16", Plain, Convertible, Unary(Convert(S16)), Target(Given(S16)), A, NO, NO;
    "cvt_s32", Plain, Convertible, Unary(Convert(S32)), Target(Given(S32)), A, NO, NO;
    "cvt_s64", Plain, Convertible, Unary(Convert(S64)), Target(Given(S64)), A, NO, NO;
    "ld_kernarg", AlignAndWidth, Memory, Load, D, Address(Kernarg), NO, NO;
    "ld_global", AlignAndWidth, Memory, Load, D, Address(Global), NO, NO;
    "ld_group", AlignAndWidth, Memory, Load, D, Address(Group), NO, NO;
    "st_global", Align, Memory, Store, A, Address(Global), NO, NO;
    "st_group", Align, Memory, Store, A, Address(Group), NO, NO;
    "atomic_add_global", OrderAndScope, Integers, Atomic(AtomicOperation::Add), D, Address(Global), A, NO;
    "atomic_sub_global", OrderAndScope, Integers, Atomic(AtomicOperation::Subtract), D, Address(Global), A, NO;
    "atomic_min_global", OrderAndScope, Integers, Atomic(AtomicOperation::Minimum), D, Address(Global), A, NO;
    "atomic_max_global", OrderAndScope, Integers, Atomic(AtomicOperation::Maximum), D, Address(Global), A, NO;
    "atomic_and_global", OrderAndScope, Bits32And64, Atomic(AtomicOperation::And), D, Address(Global), A, NO;
    "atomic_or_global", OrderAndScope, Bits32And64, Atomic(AtomicOperation::Or), D, Address(Global), A, NO;
    "atomic_xor_global", OrderAndScope, Bits32And64, Atomic(AtomicOperation::Xor), D, Address(Global), A, NO;
    "atomic_exch_global", OrderAndScope, Bits32And64, Atomic(AtomicOperation::Exchange), D, Address(Global), A, NO;
    "atomic_cas_global", OrderAndScope, Bits32And64, Atomic(AtomicOperation::CompareAndSwap), D, Address(Global), A, A;
    "atomic_add_group", OrderAndScope, Integers, Atomic(AtomicOperation::Add), D, Address(Group), A, NO;
    "atomic_sub_group", OrderAndScope, Integers, Atomic(AtomicOperation::Subtract), D, Address(Group), A, NO;
    "atomic_min_group", OrderAndScope, Integers, Atomic(AtomicOperation::Minimum), D, Address(Group), A, NO;
    "atomic_max_group", OrderAndScope, Integers, Atomic(AtomicOperation::Maximum), D, Address(Group), A, NO;
    "atomic_and_group", OrderAndScope, Bits32And64, Atomic(AtomicOperation::And), D, Address(Group), A, NO;
    "atomic_or_group", OrderAndScope, Bits32And64, Atomic(AtomicOperation::Or), D, Address(Group), A, NO;
    "atomic_xor_group", OrderAndScope, Bits32And64, Atomic(AtomicOperation::Xor), D, Address(Group), A, NO;
    "atomic_exch_group", OrderAndScope, Bits32And64, Atomic(AtomicOperation::Exchange), D, Address(Group), A, NO;
    "atomic_cas_group", OrderAndScope, Bits32And64, Atomic(AtomicOperation::CompareAndSwap), D, Address(Group), A, A;
    "atomicnoret_add_global", OrderAndScope, Integers, AtomicNoReturn(AtomicOperation::Add), Address(Global), A, NO, NO;
    "atomicnoret_sub_global", OrderAndScope, Integers, AtomicNoReturn(AtomicOperation::Subtract), Address(Global), A, NO, NO;
    "atomicnoret_min_global", OrderAndScope, Integers, AtomicNoReturn(AtomicOperation::Minimum), Address(Global), A, NO, NO;
    "atomicnoret_max_global", OrderAndScope, Integers, AtomicNoReturn(AtomicOperation::Maximum), Address(Global), A, NO, NO;
    "atomicnoret_and_global", OrderAndScope, Bits32And64, AtomicNoReturn(AtomicOperation::And), Address(Global), A, NO, NO;
    "atomicnoret_or_global", OrderAndScope, Bits32And64, AtomicNoReturn(AtomicOperation::Or), Address(Global), A, NO, NO;
    "atomicnoret_xor_global", OrderAndScope, Bits32And64, AtomicNoReturn(AtomicOperation::Xor), Address(Global), A, NO, NO;
    "atomicnoret_add_group", OrderAndScope, Integers, AtomicNoReturn(AtomicOperation::Add), Address(Group), A, NO, NO;
    "atomicnoret_sub_group", OrderAndScope, Integers, AtomicNoReturn(AtomicOperation::Subtract), Address(Group), A, NO, NO;
    "atomicnoret_min_group", OrderAndScope, Integers, AtomicNoReturn(AtomicOperation::Minimum), Address(Group), A, NO, NO;
    "atomicnoret_max_group", OrderAndScope, Integers, AtomicNoReturn(AtomicOperation::Maximum), Address(Group), A, NO, NO;
    "atomicnoret_and_group", OrderAndScope, Bits32And64, AtomicNoReturn(AtomicOperation::And), Address(Group), A, NO, NO;
    "atomicnoret_or_group", OrderAndScope, Bits32And64, AtomicNoReturn(AtomicOperation::Or), Address(Group), A, NO, NO;
    "atomicnoret_xor_group", OrderAndScope, Bits32And64, AtomicNoReturn(AtomicOperation::Xor), Address(Group), A, NO, NO;
    "br", Plain, Untyped, Branch, Label, NO, NO, NO;
    "cbr", Width, Bit, ConditionalBranch, A, Label, NO, NO;
    "ret", Plain, Untyped, Return, NO, NO, NO, NO;
    "barrier", Width, Untyped, Barrier, NO, NO, NO, NO;
    "workitemid", Plain, Unsigned32, WorkItemQuery(WorkItemId), D, Dimension, NO, NO;
    "workgroupid", Plain, Unsigned32, WorkItemQuery(WorkGroupId), D, Dimension, NO, NO;
    "workgroupsize", Plain, Unsigned32, WorkItemQuery(WorkGroupSize), D, Dimension, NO, NO;
    "currentworkgroupsize", Plain, Unsigned32, WorkItemQuery(CurrentWorkGroupSize), D, Dimension, NO, NO;
    "workitemabsid", Plain, Unsigned32And64, WorkItemQuery(WorkItemAbsoluteId), D, Dimension, NO, NO;
    "gridsize", Plain, Unsigned32And64, WorkItemQuery(GridSize), D, Dimension, NO, NO;
};

/// The rows of the modifiers with brackets.
pub fn bracketed_table() -> &'static [ModifierRow]
    ensures { map modifier_view result.now ≡ bracketed_rows }
{
    MODIFIERS.split_at(BRACKETED).0
}

/// The rows of all modifiers.
pub fn modifier_table() -> &'static [ModifierRow]
    ensures { map modifier_view result.now ≡ modifier_rows }
{
    &MODIFIERS
}

/// Whether a row takes these modifiers.
pub fn allowed(set: ModifierSet, modifiers: Modifiers) -> bool
    ensures { result ≡ allows set modifiers }
{
    match set {
        ModifierSet::Plain => matches!(modifiers, Modifiers::Plain),
        ModifierSet::Align => matches!(modifiers, Modifiers::Plain | One(Modifier::Align(_))),
        ModifierSet::Width => matches!(modifiers, Modifiers::Plain | One(Modifier::Width(_))),
        ModifierSet::AlignAndWidth => matches!(
            modifiers,
            Modifiers::Plain
                | One(Modifier::Align(_) | Modifier::Width(_))
                | Two(Modifier::Align(_), Modifier::Width(_))
                | Two(Modifier::Width(_), Modifier::Align(_))
        ),
        ModifierSet::OrderAndScope => {
            matches!(modifiers, Two(Modifier::Order(_), Modifier::Scope(_)))
        }
    }
}

/// The rows of the table.
pub fn table() -> &'static [Row]
    ensures { map row_view result.now ≡ rows }
{
    &ROWS
}

/// The types of a set.
pub fn types(set: TypeSet) -> &'static [DataType]
    ensures { result.now ≡ types_of set }
{
    match set {
        TypeSet::Bit => &[B1],
        TypeSet::Bits => &[B1, B32, B64],
        TypeSet::Bits32And64 => &[B32, B64],
        TypeSet::Integers => &[U32, S32, U64, S64],
        TypeSet::BitsAndIntegers => &[B1, B32, B64, U32, S32, U64, S64],
        TypeSet::Convertible => &[B1, U8, U16, U32, U64, S8, S16, S32, S64],
        TypeSet::Memory => &[U8, U16, U32, U64, S8, S16, S32, S64, B8, B16, B32, B64],
        TypeSet::Unsigned32 => &[U32],
        TypeSet::Unsigned32And64 => &[U32, U64],
        TypeSet::Untyped => &[],
    }
}

/// How a type is spelled.
pub fn spelling(kind: DataType) -> &'static str
    ensures { result.now ≡ type_name kind }
{
    match kind {
        B1 => "b1",
        B8 => "b8",
        B16 => "b16",
        B32 => "b32",
        B64 => "b64",
        U8 => "u8",
        U16 => "u16",
        U32 => "u32",
        U64 => "u64",
        S8 => "s8",
        S16 => "s16",
        S32 => "s32",
        S64 => "s64",
    }
}
