//! Atomic operations of one source laid flat.

ghost use Rattle.kernel_check.specs.Flat.{Stands, changed, source_of};
ghost use Rattle.kernel_check.specs.declared.step.Step.TheVariants as step_arm;

use crate::flat::FlatStep;
use crate::flat_operands::{constant_operand, maybe_register, register_operand, short};
use crate::flat_parts::{Change, Operand};
use crate::step::{
    AtomicChange, AtomicPointer, AtomicStep, RegisterNumber, Source, Source32, Source64,
};

/// An atomic operation of 32 bits laid flat.
pub(crate) fn flat_atomic32(step: &AtomicStep<Source32>) -> FlatStep
    ensures { Stands result (step_arm.Atomic32 step.now) }
{
    let to = step.target;
    let at = step.pointer;
    match &step.operation {
        AtomicChange::Add(source) => flat_change32(to, at, Change::Add, *source),
        AtomicChange::Subtract(source) => flat_change32(to, at, Change::Subtract, *source),
        AtomicChange::LeastUnsigned(source) => flat_change32(
            to,
            at,
            Change::LeastUnsigned,
            *source,
        ),
        AtomicChange::LeastSigned(source) => flat_change32(to, at, Change::LeastSigned, *source),
        AtomicChange::GreatestUnsigned(source) => flat_change32(
            to,
            at,
            Change::GreatestUnsigned,
            *source,
        ),
        AtomicChange::GreatestSigned(source) => flat_change32(
            to,
            at,
            Change::GreatestSigned,
            *source,
        ),
        AtomicChange::And(source) => flat_change32(to, at, Change::And, *source),
        AtomicChange::Or(source) => flat_change32(to, at, Change::Or, *source),
        AtomicChange::Xor(source) => flat_change32(to, at, Change::Xor, *source),
        AtomicChange::Exchange(source) => flat_change32(to, at, Change::Exchange, *source),
        AtomicChange::CompareAndSwap(_) => FlatStep::Other,
    }
}

/// An atomic operation of 32 bits and one source laid flat.
fn flat_change32(
    to: Option<RegisterNumber>,
    at: AtomicPointer,
    change: Change,
    source: Source32,
) -> FlatStep
    ensures { Stands result (step_arm.Atomic32 (record { target = to; pointer = at; operation = changed change source })) }
{
    match source {
        Source::Register(number) => flat_operand32(to, at, change, register_operand(number), 0),
        Source::Constant(constant) => flat_operand32(to, at, change, constant_operand(), constant),
    }
}

/// One whose source is an operand.
fn flat_operand32(
    to: Option<RegisterNumber>,
    at: AtomicPointer,
    change: Change,
    source: Operand,
    constant: u32,
) -> FlatStep
    ensures { Stands result (step_arm.Atomic32 (record { target = to; pointer = at; operation = changed change (source_of source constant) })) }
{
    let target = maybe_register(to);
    match at {
        AtomicPointer::Group(pointer) => FlatStep::AtomicGroup32 {
            change,
            target,
            base: maybe_register(pointer.base),
            source,
            offset: pointer.offset,
            constant,
        },
        AtomicPointer::Global(pointer) => {
            let Some(base) = pointer.base else {
                return FlatStep::Other;
            };
            let Some(offset) = short(pointer.offset) else {
                return FlatStep::Other;
            };
            FlatStep::AtomicGlobal32 {
                change,
                target,
                base,
                source,
                offset,
                constant,
            }
        }
    }
}

/// An atomic operation of 64 bits laid flat.
pub(crate) fn flat_atomic64(step: &AtomicStep<Source64>) -> FlatStep
    ensures { Stands result (step_arm.Atomic64 step.now) }
{
    let to = step.target;
    let at = step.pointer;
    match &step.operation {
        AtomicChange::Add(source) => flat_change64(to, at, Change::Add, *source),
        AtomicChange::Subtract(source) => flat_change64(to, at, Change::Subtract, *source),
        AtomicChange::LeastUnsigned(source) => flat_change64(
            to,
            at,
            Change::LeastUnsigned,
            *source,
        ),
        AtomicChange::LeastSigned(source) => flat_change64(to, at, Change::LeastSigned, *source),
        AtomicChange::GreatestUnsigned(source) => flat_change64(
            to,
            at,
            Change::GreatestUnsigned,
            *source,
        ),
        AtomicChange::GreatestSigned(source) => flat_change64(
            to,
            at,
            Change::GreatestSigned,
            *source,
        ),
        AtomicChange::And(source) => flat_change64(to, at, Change::And, *source),
        AtomicChange::Or(source) => flat_change64(to, at, Change::Or, *source),
        AtomicChange::Xor(source) => flat_change64(to, at, Change::Xor, *source),
        AtomicChange::Exchange(source) => flat_change64(to, at, Change::Exchange, *source),
        AtomicChange::CompareAndSwap(_) => FlatStep::Other,
    }
}

/// An atomic operation of 64 bits and one source laid flat.
fn flat_change64(
    to: Option<RegisterNumber>,
    at: AtomicPointer,
    change: Change,
    source: Source64,
) -> FlatStep
    ensures { Stands result (step_arm.Atomic64 (record { target = to; pointer = at; operation = changed change source })) }
{
    match source {
        Source::Register(number) => flat_operand64(to, at, change, register_operand(number), 0),
        Source::Constant(constant) => match short(constant) {
            Some(constant) => flat_operand64(to, at, change, constant_operand(), constant),
            None => FlatStep::Other,
        },
    }
}

/// One whose source is an operand.
fn flat_operand64(
    to: Option<RegisterNumber>,
    at: AtomicPointer,
    change: Change,
    source: Operand,
    constant: u32,
) -> FlatStep
    ensures { Stands result (step_arm.Atomic64 (record { target = to; pointer = at; operation = changed change (source_of source constant) })) }
{
    let target = maybe_register(to);
    match at {
        AtomicPointer::Group(pointer) => FlatStep::AtomicGroup64 {
            change,
            target,
            base: maybe_register(pointer.base),
            source,
            offset: pointer.offset,
            constant,
        },
        AtomicPointer::Global(pointer) => {
            let Some(base) = pointer.base else {
                return FlatStep::Other;
            };
            let Some(offset) = short(pointer.offset) else {
                return FlatStep::Other;
            };
            FlatStep::AtomicGlobal64 {
                change,
                target,
                base,
                source,
                offset,
                constant,
            }
        }
    }
}
