//! The steps that instructions come to, once nothing is wrong with them.

ghost use Rattle.std.specs.Prelude.{◌≡◌};
ghost use Rattle.kernel_check.specs.Names.{find};
ghost use Rattle.kernel_check.specs.Steps.{source1_of, dimension_of, next_of, unary_in, unary_of, control_operation, single_operation, double_operation, compare32, compare64, pair32_of, pair64_of, shift64_of, binary1, binary32, binary64, binary_of, ternary_in, ternary_of, dimension_in, next_at, as_unary, as_binary, as_ternary, as_atomic, as_no_return, step_of, sets1, sets32, sets64};
ghost use Rattle.hsail_reader.specs.Types.{type_class};
ghost use Rattle.hsail_reader.specs.declared.types.TernaryOperation.TheVariants.{MultiplyAdd, ConditionalMove};

use crate::layout::Placed;
use crate::memory::{Atomic, atomic_at, load_at, store_at};
use crate::names::Names;
use crate::step::{
    BranchStep, Choice, Compare, ControlOperation, ControlStep, ConvertStep, Dimension,
    DoubleOperation, DoubleStep, Pair, RegisterNumber, Shift64, SingleOperation, SingleStep,
    Source1, Source32, Source64, Step, Triple, WorkItemQueryStep,
};
use crate::values::{
    any_register, any_source, is_signed, number_type, read_in, register_number, source1, source32,
    source64, target_in,
};
use hsail_reader::{
    AtomicOperation, BinaryOperation, Comparison, DataType, Form, Operand, Operation, Register,
    RegisterClass, TernaryOperation, TypedSource, UnaryOperation,
};

/// An operation `d, a`.
#[derive(Clone, Copy)]
pub struct Unary {
    pub operation: UnaryOperation,
    pub kind: DataType,
    pub target: Register,
    pub source: TypedSource,
}

/// An operation `d, a, b`.
#[derive(Clone, Copy)]
pub struct Binary {
    pub operation: BinaryOperation,
    pub kind: DataType,
    pub target: Register,
    pub left: TypedSource,
    pub right: TypedSource,
}

/// An operation `d, a, b, c`.
#[derive(Clone, Copy)]
pub struct Ternary {
    pub operation: TernaryOperation,
    pub kind: DataType,
    pub target: Register,
    pub first: TypedSource,
    pub second: TypedSource,
    pub third: TypedSource,
}

fn as_unary(operation: UnaryOperation, whole: &Operation) -> Unary
    ensures { result ≡ as_unary operation whole.now }
{
    let operands = whole.operands();
    Unary {
        operation,
        kind: whole.kind(),
        target: target_in(&operands.first),
        source: read_in(&operands.second),
    }
}

fn as_binary(operation: BinaryOperation, whole: &Operation) -> Binary
    ensures { result ≡ as_binary operation whole.now }
{
    let operands = whole.operands();
    Binary {
        operation,
        kind: whole.kind(),
        target: target_in(&operands.first),
        left: read_in(&operands.second),
        right: read_in(&operands.third),
    }
}

fn as_ternary(operation: TernaryOperation, whole: &Operation) -> Ternary
    ensures { result ≡ as_ternary operation whole.now }
{
    let operands = whole.operands();
    Ternary {
        operation,
        kind: whole.kind(),
        target: target_in(&operands.first),
        first: read_in(&operands.second),
        second: read_in(&operands.third),
        third: read_in(&operands.fourth),
    }
}

/// `atomic`, whose first operand gets the old value.
fn as_atomic(operation: AtomicOperation, whole: &Operation) -> Atomic
    ensures { result ≡ as_atomic operation whole.now }
{
    let operands = whole.operands();
    Atomic {
        operation,
        kind: whole.kind(),
        target: Some(register_number(target_in(&operands.first))),
        first: read_in(&operands.third),
        second: read_in(&operands.fourth),
    }
}

/// `atomicnoret`, whose first operand is the address.
fn as_no_return(operation: AtomicOperation, whole: &Operation) -> Atomic
    ensures { result ≡ as_no_return operation whole.now }
{
    let operands = whole.operands();
    Atomic {
        operation,
        kind: whole.kind(),
        target: None,
        first: read_in(&operands.second),
        second: read_in(&operands.third),
    }
}

/// The dimension that a number stands for.
fn dimension(number: u64) -> Dimension
    ensures { result ≡ dimension_of number }
{
    match number {
        0 => Dimension::X,
        1 => Dimension::Y,
        _ => Dimension::Z,
    }
}

/// The number of the step behind a label.
fn next(labels: &Names<'_, usize>, name: &[u8]) -> usize
    ensures { result ≡ next_of (find labels.now) name.now }
{
    match labels.get(name) {
        Some(number) => number,
        None => 0,
    }
}

fn sets1(target: RegisterNumber, operation: ControlOperation) -> Step
    ensures { result ≡ sets1 target operation }
{
    Step::Control(ControlStep { target, operation })
}

fn sets32(target: RegisterNumber, operation: SingleOperation) -> Step
    ensures { result ≡ sets32 target operation }
{
    Step::Single(SingleStep { target, operation })
}

fn sets64(target: RegisterNumber, operation: DoubleOperation) -> Step
    ensures { result ≡ sets64 target operation }
{
    Step::Double(DoubleStep { target, operation })
}

/// `mov_T` and `not_T`, by the class of T.
fn moved(
    operation: UnaryOperation,
    kind: DataType,
    target: RegisterNumber,
    source: TypedSource,
) -> Step
    ensures { result ≡ unary_in (type_class kind) operation target source }
{
    match (kind.class(), operation) {
        (RegisterClass::Control, UnaryOperation::Not) => {
            sets1(target, ControlOperation::Not(source1(source)))
        }
        (RegisterClass::Control, _) => sets1(target, ControlOperation::Move(source1(source))),
        (RegisterClass::Single, UnaryOperation::Not) => {
            sets32(target, SingleOperation::Not(source32(source)))
        }
        (RegisterClass::Single, _) => sets32(target, SingleOperation::Move(source32(source))),
        (RegisterClass::Double, UnaryOperation::Not) => {
            sets64(target, DoubleOperation::Not(source64(source)))
        }
        (RegisterClass::Double, _) => sets64(target, DoubleOperation::Move(source64(source))),
    }
}

fn unary_step(unary: &Unary) -> Step
    ensures { result ≡ unary_of unary.now }
{
    match unary.operation {
        UnaryOperation::Convert(to) => Step::Convert(ConvertStep {
            from: number_type(unary.source.kind),
            to: number_type(to),
            target: any_register(to, unary.target),
            source: any_source(unary.source),
        }),
        operation => moved(
            operation,
            unary.kind,
            register_number(unary.target),
            unary.source,
        ),
    }
}

/// The operation of one bit.
fn control_operation(operation: BinaryOperation, pair: Pair<Source1>) -> ControlOperation
    ensures { result ≡ control_operation operation pair }
{
    match operation {
        BinaryOperation::And => ControlOperation::And(pair),
        BinaryOperation::Or => ControlOperation::Or(pair),
        BinaryOperation::Xor => ControlOperation::Xor(pair),
        BinaryOperation::Compare(comparison) => ControlOperation::Compare(Compare {
            comparison,
            left: pair.left,
            right: pair.right,
        }),
        _ => ControlOperation::Move(pair.left),
    }
}

/// The operation of 32 bits, of a type with a sign or without.
fn single_operation(
    operation: BinaryOperation,
    signed: bool,
    pair: Pair<Source32>,
) -> SingleOperation
    ensures { result ≡ single_operation operation signed pair }
{
    match (operation, signed) {
        (BinaryOperation::Add, _) => SingleOperation::Add(pair),
        (BinaryOperation::Subtract, _) => SingleOperation::Subtract(pair),
        (BinaryOperation::Multiply, _) => SingleOperation::Multiply(pair),
        (BinaryOperation::Divide, false) => SingleOperation::DivideUnsigned(pair),
        (BinaryOperation::Divide, true) => SingleOperation::DivideSigned(pair),
        (BinaryOperation::Remainder, false) => SingleOperation::RemainderUnsigned(pair),
        (BinaryOperation::Remainder, true) => SingleOperation::RemainderSigned(pair),
        (BinaryOperation::Minimum, false) => SingleOperation::LeastUnsigned(pair),
        (BinaryOperation::Minimum, true) => SingleOperation::LeastSigned(pair),
        (BinaryOperation::Maximum, false) => SingleOperation::GreatestUnsigned(pair),
        (BinaryOperation::Maximum, true) => SingleOperation::GreatestSigned(pair),
        (BinaryOperation::And, _) => SingleOperation::And(pair),
        (BinaryOperation::Or, _) => SingleOperation::Or(pair),
        (BinaryOperation::Xor, _) => SingleOperation::Xor(pair),
        (BinaryOperation::ShiftLeft, _) => SingleOperation::ShiftLeft(pair),
        (BinaryOperation::ShiftRight, false) => SingleOperation::ShiftRightUnsigned(pair),
        (BinaryOperation::ShiftRight, true) => SingleOperation::ShiftRightSigned(pair),
        (BinaryOperation::Compare(_), _) => SingleOperation::Move(pair.left),
    }
}

/// The operation of 64 bits, of a type with a sign or without.
fn double_operation(
    operation: BinaryOperation,
    signed: bool,
    pair: Pair<Source64>,
    shift: Shift64,
) -> DoubleOperation
    ensures { result ≡ double_operation operation signed pair shift }
{
    match (operation, signed) {
        (BinaryOperation::Add, _) => DoubleOperation::Add(pair),
        (BinaryOperation::Subtract, _) => DoubleOperation::Subtract(pair),
        (BinaryOperation::Multiply, _) => DoubleOperation::Multiply(pair),
        (BinaryOperation::Divide, false) => DoubleOperation::DivideUnsigned(pair),
        (BinaryOperation::Divide, true) => DoubleOperation::DivideSigned(pair),
        (BinaryOperation::Remainder, false) => DoubleOperation::RemainderUnsigned(pair),
        (BinaryOperation::Remainder, true) => DoubleOperation::RemainderSigned(pair),
        (BinaryOperation::Minimum, false) => DoubleOperation::LeastUnsigned(pair),
        (BinaryOperation::Minimum, true) => DoubleOperation::LeastSigned(pair),
        (BinaryOperation::Maximum, false) => DoubleOperation::GreatestUnsigned(pair),
        (BinaryOperation::Maximum, true) => DoubleOperation::GreatestSigned(pair),
        (BinaryOperation::And, _) => DoubleOperation::And(pair),
        (BinaryOperation::Or, _) => DoubleOperation::Or(pair),
        (BinaryOperation::Xor, _) => DoubleOperation::Xor(pair),
        (BinaryOperation::ShiftLeft, _) => DoubleOperation::ShiftLeft(shift),
        (BinaryOperation::ShiftRight, false) => DoubleOperation::ShiftRightUnsigned(shift),
        (BinaryOperation::ShiftRight, true) => DoubleOperation::ShiftRightSigned(shift),
        (BinaryOperation::Compare(_), _) => DoubleOperation::Move(pair.left),
    }
}

/// `cmp` of 32 bits, of a type with a sign or without.
fn compare32(comparison: Comparison, signed: bool, pair: Pair<Source32>) -> ControlOperation
    ensures { result ≡ compare32 comparison signed pair }
{
    let compare = Compare {
        comparison,
        left: pair.left,
        right: pair.right,
    };
    if signed {
        ControlOperation::CompareSigned32(compare)
    } else {
        ControlOperation::CompareUnsigned32(compare)
    }
}

/// `cmp` of 64 bits, of a type with a sign or without.
fn compare64(comparison: Comparison, signed: bool, pair: Pair<Source64>) -> ControlOperation
    ensures { result ≡ compare64 comparison signed pair }
{
    let compare = Compare {
        comparison,
        left: pair.left,
        right: pair.right,
    };
    if signed {
        ControlOperation::CompareSigned64(compare)
    } else {
        ControlOperation::CompareUnsigned64(compare)
    }
}

fn binary1_step(binary: &Binary) -> Step
    ensures { result ≡ binary1 binary.now }
{
    let pair = Pair {
        left: source1(binary.left),
        right: source1(binary.right),
    };
    sets1(
        register_number(binary.target),
        control_operation(binary.operation, pair),
    )
}

fn binary32_step(
    operation: BinaryOperation,
    signed: bool,
    target: RegisterNumber,
    pair: Pair<Source32>,
) -> Step
    ensures { result ≡ binary32 operation signed target pair }
{
    match operation {
        BinaryOperation::Compare(comparison) => sets1(target, compare32(comparison, signed, pair)),
        _ => sets32(target, single_operation(operation, signed, pair)),
    }
}

fn binary64_step(
    operation: BinaryOperation,
    signed: bool,
    target: RegisterNumber,
    pair: Pair<Source64>,
    shift: Shift64,
) -> Step
    ensures { result ≡ binary64 operation signed target pair shift }
{
    match operation {
        BinaryOperation::Compare(comparison) => sets1(target, compare64(comparison, signed, pair)),
        _ => sets64(target, double_operation(operation, signed, pair, shift)),
    }
}

/// The two sources of an operation of 32 bits.
fn pair32(binary: &Binary) -> Pair<Source32>
    ensures { result ≡ pair32_of binary.now }
{
    Pair {
        left: source32(binary.left),
        right: source32(binary.right),
    }
}

/// The two sources of an operation of 64 bits.
fn pair64(binary: &Binary) -> Pair<Source64>
    ensures { result ≡ pair64_of binary.now }
{
    Pair {
        left: source64(binary.left),
        right: source64(binary.right),
    }
}

/// The two sources of a shift of 64 bits.
fn shift64(binary: &Binary) -> Shift64
    ensures { result ≡ shift64_of binary.now }
{
    Shift64 {
        value: source64(binary.left),
        count: source32(binary.right),
    }
}

fn binary_step(binary: &Binary) -> Step
    ensures { result ≡ binary_of binary.now }
{
    let operation = binary.operation;
    let signed = is_signed(binary.kind);
    let target = register_number(binary.target);
    match binary.kind.class() {
        RegisterClass::Control => binary1_step(binary),
        RegisterClass::Single => binary32_step(operation, signed, target, pair32(binary)),
        RegisterClass::Double => {
            binary64_step(operation, signed, target, pair64(binary), shift64(binary))
        }
    }
}

/// `mad_T`, by the class of T.
fn multiply_add_step(ternary: &Ternary) -> Step
    ensures { result ≡ ternary_in (type_class ternary.now.kind) MultiplyAdd ternary.now }
{
    let target = register_number(ternary.target);
    match ternary.kind.class() {
        RegisterClass::Control => sets1(target, ControlOperation::Move(source1(ternary.first))),
        RegisterClass::Single => sets32(
            target,
            SingleOperation::MultiplyAdd(Triple {
                first: source32(ternary.first),
                second: source32(ternary.second),
                third: source32(ternary.third),
            }),
        ),
        RegisterClass::Double => sets64(
            target,
            DoubleOperation::MultiplyAdd(Triple {
                first: source64(ternary.first),
                second: source64(ternary.second),
                third: source64(ternary.third),
            }),
        ),
    }
}

/// `cmov_T`, by the class of T.
fn choose_step(ternary: &Ternary) -> Step
    ensures { result ≡ ternary_in (type_class ternary.now.kind) ConditionalMove ternary.now }
{
    let target = register_number(ternary.target);
    let condition = source1(ternary.first);
    match ternary.kind.class() {
        RegisterClass::Control => sets1(
            target,
            ControlOperation::Choose(Choice {
                condition,
                one: source1(ternary.second),
                zero: source1(ternary.third),
            }),
        ),
        RegisterClass::Single => sets32(
            target,
            SingleOperation::Choose(Choice {
                condition,
                one: source32(ternary.second),
                zero: source32(ternary.third),
            }),
        ),
        RegisterClass::Double => sets64(
            target,
            DoubleOperation::Choose(Choice {
                condition,
                one: source64(ternary.second),
                zero: source64(ternary.third),
            }),
        ),
    }
}

fn ternary_step(ternary: &Ternary) -> Step
    ensures { result ≡ ternary_of ternary.now }
{
    match ternary.operation {
        TernaryOperation::MultiplyAdd => multiply_add_step(ternary),
        TernaryOperation::ConditionalMove => choose_step(ternary),
    }
}

/// The number of the step behind the label that an operand is.
fn next_at(labels: &Names<'_, usize>, operand: &Operand) -> usize
    ensures { result ≡ next_at (find labels.now) operand.now }
{
    match operand {
        Operand::Label(name) => next(labels, name.as_slice()),
        _ => 0,
    }
}

/// The dimension that an operand is.
fn dimension_in(operand: &Operand) -> Dimension
    ensures { result ≡ dimension_in operand.now }
{
    match operand {
        Operand::Dimension(number) => dimension(*number),
        _ => Dimension::X,
    }
}

/// The step that an instruction comes to, by the kernel's variables and labels.
pub fn translated(
    variables: &Names<'_, Placed>,
    labels: &Names<'_, usize>,
    operation: &Operation,
) -> Step
    ensures { result ≡ step_of (find variables.now) (find labels.now) operation.now }
{
    let operands = operation.operands();
    match operation.form() {
        Form::Unary(unary) => unary_step(&as_unary(unary, operation)),
        Form::Binary(binary) => binary_step(&as_binary(binary, operation)),
        Form::Ternary(ternary) => ternary_step(&as_ternary(ternary, operation)),
        Form::Load => load_at(variables, target_in(&operands.first), &operands.second),
        Form::Store => store_at(variables, read_in(&operands.first), &operands.second),
        Form::Atomic(atomic) => {
            atomic_at(variables, &as_atomic(atomic, operation), &operands.second)
        }
        Form::AtomicNoReturn(atomic) => {
            atomic_at(variables, &as_no_return(atomic, operation), &operands.first)
        }
        Form::Branch => Step::Branch(next_at(labels, &operands.first)),
        Form::ConditionalBranch => Step::ConditionalBranch(BranchStep {
            condition: source1(read_in(&operands.first)),
            next: next_at(labels, &operands.second),
        }),
        Form::Return => Step::Return,
        Form::Barrier => Step::Barrier,
        Form::WorkItemQuery(query) => Step::WorkItemQuery(WorkItemQueryStep {
            query,
            target: any_register(operation.kind(), target_in(&operands.first)),
            dimension: dimension_in(&operands.second),
        }),
    }
}
