//! The nouns of the language: data types, registers, segments, modifiers and operations.

ghost use Rattle.std.specs.Prelude.{◌≡◌};
ghost use Rattle.hsail_reader.specs.Rows.{with_number};
ghost use Rattle.hsail_reader.specs.Types.{type_bits, type_class, alignment_bytes};

/// The data type of an operation or a variable: bits, unsigned or signed, of so many bits
/// (PRM, Data Types).
#[derive(Clone, Copy, Debug, PartialEq, Eq)]
pub enum DataType {
    B1,
    B8,
    B16,
    B32,
    B64,
    U8,
    U16,
    U32,
    U64,
    S8,
    S16,
    S32,
    S64,
}

impl DataType {
    /// How many bits a value of the type has: 1, 8, 16, 32 or 64.
    pub fn bits(self) -> u32
        ensures { result ≡ type_bits self }
    {
        match self {
            DataType::B1 => 1,
            DataType::B8 | DataType::U8 | DataType::S8 => 8,
            DataType::B16 | DataType::U16 | DataType::S16 => 16,
            DataType::B32 | DataType::U32 | DataType::S32 => 32,
            DataType::B64 | DataType::U64 | DataType::S64 => 64,
        }
    }

    /// The class of the registers that hold a value of the type (PRM, Registers): a control register
    /// for 1 bit, a single one for 8, 16 and 32, a double one for 64.
    pub fn class(self) -> RegisterClass
        ensures { result ≡ type_class self }
    {
        match self {
            DataType::B1 => RegisterClass::Control,
            DataType::B64 | DataType::U64 | DataType::S64 => RegisterClass::Double,
            _ => RegisterClass::Single,
        }
    }
}

/// The class of a register (PRM, Registers): `$c` with 1 bit, `$s` with 32, `$d` with 64.
#[derive(Clone, Copy, Debug, PartialEq, Eq)]
pub enum RegisterClass {
    Control,
    Single,
    Double,
}

/// A register as the text names it; its number is any that the text spells.
#[derive(Clone, Copy, Debug, PartialEq, Eq)]
pub struct Register {
    pub class: RegisterClass,
    pub number: u64,
}

/// A whole number with an optional sign, as the text spells it: `-0` is negative.
#[derive(Clone, Copy, Debug, PartialEq, Eq)]
pub struct Constant {
    pub negative: bool,
    pub magnitude: u64,
}

/// What an operation reads: a register or a constant (PRM, Operands).
#[derive(Clone, Copy, Debug, PartialEq, Eq)]
pub enum Source {
    Register(Register),
    Constant(Constant),
}

/// The `align(n)` before a variable, in bytes (PRM, Declaring and Defining Identifiers).
#[derive(Clone, Copy, Debug, PartialEq, Eq)]
pub enum Alignment {
    One,
    Two,
    Four,
    Eight,
    Sixteen,
}

impl Alignment {
    /// The number of bytes: 1, 2, 4, 8 or 16.
    pub fn bytes(self) -> u32
        ensures { result ≡ alignment_bytes self }
    {
        match self {
            Alignment::One => 1,
            Alignment::Two => 2,
            Alignment::Four => 4,
            Alignment::Eight => 8,
            Alignment::Sixteen => 16,
        }
    }
}

/// The segment that an address lies in (PRM, Segments).
#[derive(Clone, Copy, Debug, PartialEq, Eq)]
pub enum Segment {
    Kernarg,
    Global,
    Group,
}

/// The `_width(n)` modifier (PRM, Width Modifier). It has no effect here (own).
#[derive(Clone, Copy, Debug, PartialEq, Eq)]
pub enum Width {
    Number(u64),
    All,
    WaveSize,
}

/// The memory order of an atomic operation (PRM, Memory Order). It has no effect here (own).
#[derive(Clone, Copy)]
pub enum MemoryOrder {
    /// `rlx`
    Relaxed,
    /// `scacq`
    Acquire,
    /// `screl`
    Release,
    /// `scar`
    AcquireRelease,
}

/// The memory scope of an atomic operation (PRM, Memory Scope). It has no effect here (own).
#[derive(Clone, Copy)]
pub enum MemoryScope {
    /// `wave`
    Wavefront,
    /// `wg`
    WorkGroup,
    /// `agent`
    Agent,
    /// `system`
    System,
}

/// A modifier of an operation (PRM, Operations). None has an effect (own).
#[derive(Clone, Copy)]
pub enum Modifier {
    /// `_align(n)`
    Align(u64),
    /// `_width(w)`
    Width(Width),
    /// the order of an atomic operation
    Order(MemoryOrder),
    /// the scope of an atomic operation
    Scope(MemoryScope),
}

impl Modifier {
    /// The modifier with a number in its brackets, if it has some.
    pub fn with_number(self, number: u64) -> Modifier
        ensures { result ≡ with_number self number }
    {
        match self {
            Modifier::Align(_) => Modifier::Align(number),
            Modifier::Width(_) => Modifier::Width(Width::Number(number)),
            Modifier::Order(_) | Modifier::Scope(_) => self,
        }
    }
}

/// The modifiers of an operation, in the order of the text: two at most.
#[derive(Clone, Copy)]
pub enum Modifiers {
    Plain,
    One(Modifier),
    Two(Modifier, Modifier),
}

/// The operations `d, a`.
#[derive(Clone, Copy, Debug, PartialEq, Eq)]
pub enum UnaryOperation {
    /// `mov_T`
    Move,
    /// `not_T`
    Not,
    /// `cvt_U_T`, with the type U that it converts to
    Convert(DataType),
}

/// The operations `d, a, b`.
#[derive(Clone, Copy, Debug, PartialEq, Eq)]
pub enum BinaryOperation {
    Add,
    Subtract,
    Multiply,
    Divide,
    Remainder,
    Minimum,
    Maximum,
    And,
    Or,
    Xor,
    ShiftLeft,
    ShiftRight,
    /// `cmp_OP_b1_T`
    Compare(Comparison),
}

/// What a comparison asks (PRM, Compare Operation).
#[derive(Clone, Copy, Debug, PartialEq, Eq)]
pub enum Comparison {
    Equal,
    NotEqual,
    Less,
    LessOrEqual,
    Greater,
    GreaterOrEqual,
}

/// The operations `d, a, b, c`.
#[derive(Clone, Copy, Debug, PartialEq, Eq)]
pub enum TernaryOperation {
    /// `mad_T`
    MultiplyAdd,
    /// `cmov_T`
    ConditionalMove,
}

/// What an atomic operation does with memory (PRM, Atomic Memory Operations).
#[derive(Clone, Copy, Debug, PartialEq, Eq)]
pub enum AtomicOperation {
    Add,
    Subtract,
    Minimum,
    Maximum,
    And,
    Or,
    Xor,
    /// `exch`
    Exchange,
    /// `cas`
    CompareAndSwap,
}

/// The operations `d, k`: what an item asks of its place in the grid (PRM, Dispatch Packet
/// Operations).
#[derive(Clone, Copy, Debug, PartialEq, Eq)]
pub enum WorkItemQuery {
    WorkItemId,
    WorkGroupId,
    WorkGroupSize,
    CurrentWorkGroupSize,
    WorkItemAbsoluteId,
    GridSize,
}
