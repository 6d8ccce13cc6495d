//! The reader of kernel text: from the bytes of a module to the tree of its kernels.
//! The next line lets the check look for proofs by its tactics.
#![tactic(auto)]

mod fault;
mod grammar;
mod instructions;
mod kernel_reading;
mod lexeme;
mod module;
mod operands;
mod reading;
mod rows;
mod scan;
mod token;
mod tokens;
mod types;
mod words;

pub use fault::{ReadCause, ReadError, ReadFault};
pub use grammar::{
    modules_are_read_as_spelled, spelled_operations_are_of_rows, texts_are_cut_as_spelled,
    texts_are_read_as_spelled, words_are_read_as_spelled,
};
pub use module::{
    Access, Address, Argument, GroupVariable, Indexed, Instruction, Item, Kernel, Label, Module,
    Operand, Operands, Operation, Profile, Relative, Rounding, SegmentPlace, Target, TypedSource,
    operations_are_of_rows,
};
pub use reading::{law_numbers_are_those_of_the_rules, read_module};
pub use rows::Form;
pub use types::{
    Alignment, AtomicOperation, BinaryOperation, Comparison, Constant, DataType, MemoryOrder,
    MemoryScope, Modifier, Modifiers, Register, RegisterClass, Segment, Source, TernaryOperation,
    UnaryOperation, Width, WorkItemQuery,
};
