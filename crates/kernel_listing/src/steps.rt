//! Steps of checked kernels as lines: the instruction's word with the type that it computes with, registers by
//! class and number, constants as numbers of their width, a label as the number of the step after it, an argument
//! as its place in the block, a group variable as its place in group memory.

use hsail_reader::{Comparison, WorkItemQuery};
use kernel_check::{
    AnyRegister, AnySource, ArgumentStep, AtomicChange, AtomicPointer, AtomicStep, BranchStep,
    Choice, ControlOperation, ConvertStep, Dimension, DoubleOperation, GroupLoadStep, GroupPointer,
    GroupStoreStep, LoadStep, NumberType, Pair, Pointer, RegisterNumber, SingleOperation, Source1,
    Source32, Source64, Step, StoreStep, Triple, WorkItemQueryStep,
};
use std::alloc::AllocError;

fn type_name(kind: NumberType) -> &'static str {
    match kind {
        NumberType::B1 => "b1",
        NumberType::U8 => "u8",
        NumberType::U16 => "u16",
        NumberType::U32 => "u32",
        NumberType::U64 => "u64",
        NumberType::S8 => "s8",
        NumberType::S16 => "s16",
        NumberType::S32 => "s32",
        NumberType::S64 => "s64",
    }
}

fn comparison_name(comparison: Comparison) -> &'static str {
    match comparison {
        Comparison::Equal => "eq",
        Comparison::NotEqual => "ne",
        Comparison::Less => "lt",
        Comparison::LessOrEqual => "le",
        Comparison::Greater => "gt",
        Comparison::GreaterOrEqual => "ge",
    }
}

fn query_name(query: WorkItemQuery) -> &'static str {
    match query {
        WorkItemQuery::WorkItemId => "workitemid",
        WorkItemQuery::WorkGroupId => "workgroupid",
        WorkItemQuery::WorkGroupSize => "workgroupsize",
        WorkItemQuery::CurrentWorkGroupSize => "currentworkgroupsize",
        WorkItemQuery::WorkItemAbsoluteId => "workitemabsid",
        WorkItemQuery::GridSize => "gridsize",
    }
}

fn push_slot(line: &mut String, class: &str, slot: RegisterNumber) -> Result<(), AllocError> {
    let number = slot.index();
    write!(line, "${class}{number}")
}

fn push_register(line: &mut String, register: AnyRegister) -> Result<(), AllocError> {
    match register {
        AnyRegister::Control(slot) => push_slot(line, "c", slot),
        AnyRegister::Single(slot) => push_slot(line, "s", slot),
        AnyRegister::Double(slot) => push_slot(line, "d", slot),
    }
}

fn push_comma(line: &mut String) -> Result<(), AllocError> {
    line.push_str(", ")
}

// What an operation reads, as a line has it.
trait Listed: Copy {
    fn push(self, line: &mut String) -> Result<(), AllocError>;
}

impl Listed for Source1 {
    fn push(self, line: &mut String) -> Result<(), AllocError> {
        match self {
            Source1::Register(slot) => push_slot(line, "c", slot),
            Source1::Constant(bit) => line.push_str(if bit { "1" } else { "0" }),
        }
    }
}

impl Listed for Source32 {
    fn push(self, line: &mut String) -> Result<(), AllocError> {
        match self {
            Source32::Register(slot) => push_slot(line, "s", slot),
            Source32::Constant(bits) => write!(line, "{bits}"),
        }
    }
}

impl Listed for Source64 {
    fn push(self, line: &mut String) -> Result<(), AllocError> {
        match self {
            Source64::Register(slot) => push_slot(line, "d", slot),
            Source64::Constant(bits) => write!(line, "{bits}"),
        }
    }
}

fn push_source(line: &mut String, source: AnySource) -> Result<(), AllocError> {
    match source {
        AnySource::Control(source) => source.push(line),
        AnySource::Single(source) => source.push(line),
        AnySource::Double(source) => source.push(line),
    }
}

fn push_two<A: Listed, B: Listed>(
    line: &mut String,
    first: A,
    second: B,
) -> Result<(), AllocError> {
    first.push(line)?;
    push_comma(line)?;
    second.push(line)
}

fn push_pair<S: Listed>(line: &mut String, pair: &Pair<S>) -> Result<(), AllocError> {
    push_two(line, pair.left, pair.right)
}

fn push_choice<S: Listed>(line: &mut String, choice: &Choice<S>) -> Result<(), AllocError> {
    choice.condition.push(line)?;
    push_comma(line)?;
    push_two(line, choice.one, choice.zero)
}

fn push_triple<S: Listed>(line: &mut String, triple: &Triple<S>) -> Result<(), AllocError> {
    triple.first.push(line)?;
    push_comma(line)?;
    push_two(line, triple.second, triple.third)
}

fn control_name(operation: &ControlOperation) -> &'static str {
    match operation {
        ControlOperation::Move(_) => "mov_b1",
        ControlOperation::Not(_) => "not_b1",
        ControlOperation::And(_) => "and_b1",
        ControlOperation::Or(_) => "or_b1",
        ControlOperation::Xor(_) => "xor_b1",
        ControlOperation::Choose(_) => "cmov_b1",
        ControlOperation::Compare(compare) => comparison_name(compare.comparison),
        ControlOperation::CompareUnsigned32(compare) | ControlOperation::CompareSigned32(compare) =>
            comparison_name(compare.comparison),
        ControlOperation::CompareUnsigned64(compare) | ControlOperation::CompareSigned64(compare) =>
            comparison_name(compare.comparison),
    }
}

// The type of what is compared, if the operation is a comparison.
fn compared_type(operation: &ControlOperation) -> Option<&'static str> {
    match operation {
        ControlOperation::Compare(_) => Some("b1"),
        ControlOperation::CompareUnsigned32(_) => Some("u32"),
        ControlOperation::CompareSigned32(_) => Some("s32"),
        ControlOperation::CompareUnsigned64(_) => Some("u64"),
        ControlOperation::CompareSigned64(_) => Some("s64"),
        _ => None,
    }
}

fn push_control_sources(line: &mut String, operation: &ControlOperation) -> Result<(), AllocError> {
    match operation {
        ControlOperation::Move(source) | ControlOperation::Not(source) => source.push(line),
        ControlOperation::And(pair) | ControlOperation::Or(pair) | ControlOperation::Xor(pair) => {
            push_pair(line, pair)
        }
        ControlOperation::Choose(choice) => push_choice(line, choice),
        ControlOperation::Compare(compare) => push_two(line, compare.left, compare.right),
        ControlOperation::CompareUnsigned32(compare) | ControlOperation::CompareSigned32(compare) =>
            push_two(line, compare.left, compare.right),
        ControlOperation::CompareUnsigned64(compare) | ControlOperation::CompareSigned64(compare) =>
            push_two(line, compare.left, compare.right),
    }
}

// The beginning of a step that computes: its word and its target.
fn push_target(
    line: &mut String,
    word: &str,
    class: &str,
    target: RegisterNumber,
) -> Result<(), AllocError> {
    line.push_str(word)?;
    line.push_str(" ")?;
    push_slot(line, class, target)?;
    push_comma(line)
}

// The word of an operation on bits, with the type of what is compared, if it is a comparison.
fn push_control_word(line: &mut String, operation: &ControlOperation) -> Result<(), AllocError> {
    let word = control_name(operation);
    match compared_type(operation) {
        Some(kind) => write!(line, "cmp_{word}_b1_{kind}"),
        None => line.push_str(word),
    }
}

fn push_control(
    line: &mut String,
    target: RegisterNumber,
    operation: &ControlOperation,
) -> Result<(), AllocError> {
    push_control_word(line, operation)?;
    push_target(line, "", "c", target)?;
    push_control_sources(line, operation)
}

fn single_name(operation: &SingleOperation) -> &'static str {
    match operation {
        SingleOperation::Move(_) => "mov_b32",
        SingleOperation::Not(_) => "not_b32",
        SingleOperation::Add(_) => "add_u32",
        SingleOperation::Subtract(_) => "sub_u32",
        SingleOperation::Multiply(_) => "mul_u32",
        SingleOperation::MultiplyAdd(_) => "mad_u32",
        SingleOperation::DivideUnsigned(_) => "div_u32",
        SingleOperation::DivideSigned(_) => "div_s32",
        SingleOperation::RemainderUnsigned(_) => "rem_u32",
        SingleOperation::RemainderSigned(_) => "rem_s32",
        SingleOperation::LeastUnsigned(_) => "min_u32",
        SingleOperation::LeastSigned(_) => "min_s32",
        SingleOperation::GreatestUnsigned(_) => "max_u32",
        SingleOperation::GreatestSigned(_) => "max_s32",
        SingleOperation::And(_) => "and_b32",
        SingleOperation::Or(_) => "or_b32",
        SingleOperation::Xor(_) => "xor_b32",
        SingleOperation::ShiftLeft(_) => "shl_u32",
        SingleOperation::ShiftRightUnsigned(_) => "shr_u32",
        SingleOperation::ShiftRightSigned(_) => "shr_s32",
        SingleOperation::Choose(_) => "cmov_b32",
    }
}

fn push_single_sources(line: &mut String, operation: &SingleOperation) -> Result<(), AllocError> {
    match operation {
        SingleOperation::Move(source) | SingleOperation::Not(source) => source.push(line),
        SingleOperation::MultiplyAdd(triple) => push_triple(line, triple),
        SingleOperation::Choose(choice) => push_choice(line, choice),
        SingleOperation::Add(pair)
        | SingleOperation::Subtract(pair)
        | SingleOperation::Multiply(pair)
        | SingleOperation::DivideUnsigned(pair)
        | SingleOperation::DivideSigned(pair)
        | SingleOperation::RemainderUnsigned(pair)
        | SingleOperation::RemainderSigned(pair)
        | SingleOperation::LeastUnsigned(pair)
        | SingleOperation::LeastSigned(pair)
        | SingleOperation::GreatestUnsigned(pair)
        | SingleOperation::GreatestSigned(pair)
        | SingleOperation::And(pair)
        | SingleOperation::Or(pair)
        | SingleOperation::Xor(pair)
        | SingleOperation::ShiftLeft(pair)
        | SingleOperation::ShiftRightUnsigned(pair)
        | SingleOperation::ShiftRightSigned(pair) => push_pair(line, pair),
    }
}

fn push_single(
    line: &mut String,
    target: RegisterNumber,
    operation: &SingleOperation,
) -> Result<(), AllocError> {
    push_target(line, single_name(operation), "s", target)?;
    push_single_sources(line, operation)
}

fn double_name(operation: &DoubleOperation) -> &'static str {
    match operation {
        DoubleOperation::Move(_) => "mov_b64",
        DoubleOperation::Not(_) => "not_b64",
        DoubleOperation::Add(_) => "add_u64",
        DoubleOperation::Subtract(_) => "sub_u64",
        DoubleOperation::Multiply(_) => "mul_u64",
        DoubleOperation::MultiplyAdd(_) => "mad_u64",
        DoubleOperation::DivideUnsigned(_) => "div_u64",
        DoubleOperation::DivideSigned(_) => "div_s64",
        DoubleOperation::RemainderUnsigned(_) => "rem_u64",
        DoubleOperation::RemainderSigned(_) => "rem_s64",
        DoubleOperation::LeastUnsigned(_) => "min_u64",
        DoubleOperation::LeastSigned(_) => "min_s64",
        DoubleOperation::GreatestUnsigned(_) => "max_u64",
        DoubleOperation::GreatestSigned(_) => "max_s64",
        DoubleOperation::And(_) => "and_b64",
        DoubleOperation::Or(_) => "or_b64",
        DoubleOperation::Xor(_) => "xor_b64",
        DoubleOperation::ShiftLeft(_) => "shl_u64",
        DoubleOperation::ShiftRightUnsigned(_) => "shr_u64",
        DoubleOperation::ShiftRightSigned(_) => "shr_s64",
        DoubleOperation::Choose(_) => "cmov_b64",
    }
}

fn push_double_sources(line: &mut String, operation: &DoubleOperation) -> Result<(), AllocError> {
    match operation {
        DoubleOperation::Move(source) | DoubleOperation::Not(source) => source.push(line),
        DoubleOperation::MultiplyAdd(triple) => push_triple(line, triple),
        DoubleOperation::Choose(choice) => push_choice(line, choice),
        DoubleOperation::ShiftLeft(shift)
        | DoubleOperation::ShiftRightUnsigned(shift)
        | DoubleOperation::ShiftRightSigned(shift) => push_two(line, shift.value, shift.count),
        DoubleOperation::Add(pair)
        | DoubleOperation::Subtract(pair)
        | DoubleOperation::Multiply(pair)
        | DoubleOperation::DivideUnsigned(pair)
        | DoubleOperation::DivideSigned(pair)
        | DoubleOperation::RemainderUnsigned(pair)
        | DoubleOperation::RemainderSigned(pair)
        | DoubleOperation::LeastUnsigned(pair)
        | DoubleOperation::LeastSigned(pair)
        | DoubleOperation::GreatestUnsigned(pair)
        | DoubleOperation::GreatestSigned(pair)
        | DoubleOperation::And(pair)
        | DoubleOperation::Or(pair)
        | DoubleOperation::Xor(pair) => push_pair(line, pair),
    }
}

fn push_double(
    line: &mut String,
    target: RegisterNumber,
    operation: &DoubleOperation,
) -> Result<(), AllocError> {
    push_target(line, double_name(operation), "d", target)?;
    push_double_sources(line, operation)
}

fn push_conversion(line: &mut String, step: &ConvertStep) -> Result<(), AllocError> {
    let from = type_name(step.from);
    let to = type_name(step.to);
    write!(line, "cvt_{to}_{from} ")?;
    push_register(line, step.target)?;
    push_comma(line)?;
    push_source(line, step.source)
}

fn push_pointer(line: &mut String, pointer: Pointer) -> Result<(), AllocError> {
    let offset = pointer.offset;
    match pointer.base {
        None => write!(line, "[{offset}]"),
        Some(slot) => {
            let base = slot.index();
            write!(line, "[$d{base}+{offset}]")
        }
    }
}

fn push_argument(line: &mut String, step: &ArgumentStep) -> Result<(), AllocError> {
    let kind = type_name(step.kind);
    let offset = step.offset;
    write!(line, "ld_kernarg_{kind} ")?;
    push_register(line, step.target)?;
    write!(line, ", [{offset}]")
}

fn push_load(line: &mut String, step: &LoadStep) -> Result<(), AllocError> {
    let kind = type_name(step.kind);
    write!(line, "ld_global_{kind} ")?;
    push_register(line, step.target)?;
    push_comma(line)?;
    push_pointer(line, step.pointer)
}

fn push_store(line: &mut String, step: &StoreStep) -> Result<(), AllocError> {
    let kind = type_name(step.kind);
    write!(line, "st_global_{kind} ")?;
    push_source(line, step.source)?;
    push_comma(line)?;
    push_pointer(line, step.pointer)
}

fn push_group_pointer(line: &mut String, pointer: GroupPointer) -> Result<(), AllocError> {
    let offset = pointer.offset;
    match pointer.base {
        None => write!(line, "[{offset}]"),
        Some(slot) => {
            let base = slot.index();
            write!(line, "[$s{base}+{offset}]")
        }
    }
}

fn push_group_load(line: &mut String, step: &GroupLoadStep) -> Result<(), AllocError> {
    let kind = type_name(step.kind);
    write!(line, "ld_group_{kind} ")?;
    push_register(line, step.target)?;
    push_comma(line)?;
    push_group_pointer(line, step.pointer)
}

fn push_group_store(line: &mut String, step: &GroupStoreStep) -> Result<(), AllocError> {
    let kind = type_name(step.kind);
    write!(line, "st_group_{kind} ")?;
    push_source(line, step.source)?;
    push_comma(line)?;
    push_group_pointer(line, step.pointer)
}

// The operation, without its type.
fn atomic_name<S>(operation: &AtomicChange<S>) -> &'static str {
    match operation {
        AtomicChange::Add(_) => "add",
        AtomicChange::Subtract(_) => "sub",
        AtomicChange::LeastUnsigned(_) | AtomicChange::LeastSigned(_) => "min",
        AtomicChange::GreatestUnsigned(_) | AtomicChange::GreatestSigned(_) => "max",
        AtomicChange::And(_) => "and",
        AtomicChange::Or(_) => "or",
        AtomicChange::Xor(_) => "xor",
        AtomicChange::Exchange(_) => "exch",
        AtomicChange::CompareAndSwap(_) => "cas",
    }
}

// How the type that it computes with reads its bits.
fn atomic_type<S>(operation: &AtomicChange<S>) -> &'static str {
    match operation {
        AtomicChange::Add(_) | AtomicChange::Subtract(_) => "u",
        AtomicChange::LeastUnsigned(_) | AtomicChange::GreatestUnsigned(_) => "u",
        AtomicChange::LeastSigned(_) | AtomicChange::GreatestSigned(_) => "s",
        _ => "b",
    }
}

fn push_atomic_sources<S: Listed>(
    line: &mut String,
    operation: &AtomicChange<S>,
) -> Result<(), AllocError> {
    match operation {
        AtomicChange::CompareAndSwap(swap) => push_two(line, swap.expected, swap.replacement),
        AtomicChange::Add(source)
        | AtomicChange::Subtract(source)
        | AtomicChange::LeastUnsigned(source)
        | AtomicChange::LeastSigned(source)
        | AtomicChange::GreatestUnsigned(source)
        | AtomicChange::GreatestSigned(source)
        | AtomicChange::And(source)
        | AtomicChange::Or(source)
        | AtomicChange::Xor(source)
        | AtomicChange::Exchange(source) => source.push(line),
    }
}

// The place of an atomic operation, and a comma.
fn push_atomic_pointer(line: &mut String, pointer: AtomicPointer) -> Result<(), AllocError> {
    match pointer {
        AtomicPointer::Global(pointer) => push_pointer(line, pointer)?,
        AtomicPointer::Group(pointer) => push_group_pointer(line, pointer)?,
    }
    push_comma(line)
}

// The beginning of an atomic operation: its word, with the segment and without order and scope, and its target.
fn push_atomic_target<S>(
    line: &mut String,
    step: &AtomicStep<S>,
    class: &str,
    width: &str,
) -> Result<(), AllocError> {
    let operation = atomic_name(&step.operation);
    let kind = atomic_type(&step.operation);
    let segment = match step.pointer {
        AtomicPointer::Global(_) => "global",
        AtomicPointer::Group(_) => "group",
    };
    match step.target {
        None => write!(line, "atomicnoret_{operation}_{segment}_{kind}{width} "),
        Some(slot) => {
            write!(line, "atomic_{operation}_{segment}_{kind}{width} ")?;
            push_slot(line, class, slot)?;
            push_comma(line)
        }
    }
}

fn push_atomic<S: Listed>(
    line: &mut String,
    step: &AtomicStep<S>,
    class: &str,
    width: &str,
) -> Result<(), AllocError> {
    push_atomic_target(line, step, class, width)?;
    push_atomic_pointer(line, step.pointer)?;
    push_atomic_sources(line, &step.operation)
}

fn push_conditional_branch(line: &mut String, step: &BranchStep) -> Result<(), AllocError> {
    let next = step.next;
    line.push_str("cbr_b1 ")?;
    step.condition.push(line)?;
    write!(line, ", {next}")
}

fn width_name(target: AnyRegister) -> &'static str {
    match target {
        AnyRegister::Double(_) => "u64",
        _ => "u32",
    }
}

fn dimension_name(dimension: Dimension) -> &'static str {
    match dimension {
        Dimension::X => "0",
        Dimension::Y => "1",
        Dimension::Z => "2",
    }
}

fn push_query(line: &mut String, step: &WorkItemQueryStep) -> Result<(), AllocError> {
    let word = query_name(step.query);
    let kind = width_name(step.target);
    write!(line, "{word}_{kind} ")?;
    push_register(line, step.target)?;
    push_comma(line)?;
    line.push_str(dimension_name(step.dimension))
}

/// Adds a step's line, without its end.
pub fn push_step(line: &mut String, step: &Step) -> Result<(), AllocError> {
    match step {
        Step::Control(step) => push_control(line, step.target, &step.operation),
        Step::Single(step) => push_single(line, step.target, &step.operation),
        Step::Double(step) => push_double(line, step.target, &step.operation),
        Step::Convert(step) => push_conversion(line, step),
        Step::Argument(step) => push_argument(line, step),
        Step::Load(step) => push_load(line, step),
        Step::Store(step) => push_store(line, step),
        Step::LoadGroup(step) => push_group_load(line, step),
        Step::StoreGroup(step) => push_group_store(line, step),
        Step::Atomic32(step) => push_atomic(line, step, "s", "32"),
        Step::Atomic64(step) => push_atomic(line, step, "d", "64"),
        Step::Branch(next) => write!(line, "br {next}"),
        Step::ConditionalBranch(step) => push_conditional_branch(line, step),
        Step::Return => line.push_str("ret"),
        Step::Barrier => line.push_str("barrier"),
        Step::WorkItemQuery(step) => push_query(line, step),
    }
}
