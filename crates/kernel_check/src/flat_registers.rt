//! Operations of 32 and of 64 bits laid flat.

ghost use Rattle.std.specs.Prelude.{◌≡◌};
ghost use Rattle.kernel_check.specs.Flat.{Stands, calculated32, calculated64};
ghost use Rattle.kernel_check.specs.declared.step.DoubleOperation.TheVariants as double;
ghost use Rattle.kernel_check.specs.declared.step.SingleOperation.TheVariants as single;
ghost use Rattle.kernel_check.specs.declared.step.Source.TheVariants as source;
ghost use Rattle.kernel_check.specs.declared.step.Step.TheVariants as step_arm;

use crate::flat::FlatStep;
use crate::flat_operands::{constant32, constant64, operand32, operand64, short};
use crate::flat_parts::{
    Calculation, ChosenConstants, ConstantBehind, FromOne, FromThree, FromTwo, Operation,
    ShiftOperation,
};
use crate::step::{
    Choice, DoubleOperation, DoubleStep, Pair, RegisterNumber, SingleOperation, SingleStep, Source,
    Source32, Source64, Triple,
};

/// An operation of 32 bits and two sources laid flat, of which one is a register.
macro_rules! flat_pair32 {
    ($to:expr, $pair:expr => $operation:ident, $registers:ident, $behind:ident) => {
        match $pair.left {
            Source::Constant(constant) => match $pair.right {
                Source::Register(right) => FlatStep::ConstantCalculate32 {
                    operation: Operation::$operation,
                    to: $to,
                    right,
                    constant,
                },
                Source::Constant(_) => FlatStep::Other,
            },
            Source::Register(left) => match $pair.right {
                Source::Register(right) => FlatStep::$registers(FromTwo {
                    to: $to,
                    left,
                    right,
                }),
                Source::Constant(constant) => FlatStep::$behind(ConstantBehind {
                    to: $to,
                    left,
                    constant,
                }),
            },
        }
    };
}

/// A shift of 32 bits laid flat.
macro_rules! flat_shift32 {
    ($to:expr, $pair:expr => $operation:ident, $registers:ident, $behind:ident) => {
        match $pair.left {
            Source::Constant(constant) => match $pair.right {
                Source::Register(right) => FlatStep::ConstantShift32 {
                    operation: ShiftOperation::$operation,
                    to: $to,
                    right,
                    constant,
                },
                Source::Constant(_) => FlatStep::Other,
            },
            Source::Register(left) => match $pair.right {
                Source::Register(right) => FlatStep::$registers(FromTwo {
                    to: $to,
                    left,
                    right,
                }),
                Source::Constant(constant) => FlatStep::$behind(ConstantBehind {
                    to: $to,
                    left,
                    constant,
                }),
            },
        }
    };
}

/// One of 64 bits.
macro_rules! flat_pair64 {
    ($to:expr, $pair:expr => $operation:ident, $registers:ident, $behind:ident) => {
        match $pair.left {
            Source::Constant(constant) => match $pair.right {
                Source::Register(right) => FlatStep::ConstantCalculate64 {
                    operation: Operation::$operation,
                    to: $to,
                    right,
                    constant,
                },
                Source::Constant(_) => FlatStep::Other,
            },
            Source::Register(left) => match $pair.right {
                Source::Register(right) => FlatStep::$registers(FromTwo {
                    to: $to,
                    left,
                    right,
                }),
                Source::Constant(constant) => FlatStep::$behind {
                    to: $to,
                    left,
                    constant,
                },
            },
        }
    };
}

/// A shift of 64 bits laid flat, whose count has 32.
macro_rules! flat_shift64 {
    ($to:expr, $pair:expr => $operation:ident, $registers:ident, $behind:ident) => {
        match $pair.value {
            Source::Constant(constant) => match $pair.count {
                Source::Register(right) => FlatStep::ConstantShift64 {
                    operation: ShiftOperation::$operation,
                    to: $to,
                    right,
                    constant,
                },
                Source::Constant(_) => FlatStep::Other,
            },
            Source::Register(left) => match $pair.count {
                Source::Register(right) => FlatStep::$registers(FromTwo {
                    to: $to,
                    left,
                    right,
                }),
                Source::Constant(constant) => FlatStep::$behind(ConstantBehind {
                    to: $to,
                    left,
                    constant,
                }),
            },
        }
    };
}

/// What puts 32 bits into a register, laid flat.
pub(crate) fn flat32(set: &SingleStep) -> FlatStep
    ensures { Stands result (step_arm.Single set.now) }
{
    let to = set.target;
    match &set.operation {
        SingleOperation::Move(source) => match *source {
            Source::Register(source) => FlatStep::Move32(FromOne { to, source }),
            Source::Constant(constant) => FlatStep::Set32 { to, constant },
        },
        SingleOperation::Not(source) => match *source {
            Source::Register(source) => FlatStep::Not32(FromOne { to, source }),
            Source::Constant(_) => FlatStep::Other,
        },
        SingleOperation::Add(p) => flat_pair32!(to, p => Add, Add32, Add32Constant),
        SingleOperation::Subtract(p) =>
            flat_pair32!(to, p => Subtract, Subtract32, Subtract32Constant),
        SingleOperation::Multiply(p) =>
            flat_pair32!(to, p => Multiply, Multiply32, Multiply32Constant),
        SingleOperation::And(p) => flat_pair32!(to, p => And, And32, And32Constant),
        SingleOperation::Or(p) => flat_pair32!(to, p => Or, Or32, Or32Constant),
        SingleOperation::Xor(p) => flat_pair32!(to, p => Xor, Xor32, Xor32Constant),
        SingleOperation::ShiftLeft(p) =>
            flat_shift32!(to, p => Left, ShiftLeft32, ShiftLeft32Constant),
        SingleOperation::ShiftRightUnsigned(p) =>
            flat_shift32!(to, p => RightUnsigned, ShiftRightUnsigned32, ShiftRightUnsigned32Constant),
        SingleOperation::ShiftRightSigned(p) =>
            flat_shift32!(to, p => RightSigned, ShiftRightSigned32, ShiftRightSigned32Constant),
        SingleOperation::DivideUnsigned(p) => flat_calculation32(to, Operation::DivideUnsigned, p),
        SingleOperation::DivideSigned(p) => flat_calculation32(to, Operation::DivideSigned, p),
        SingleOperation::RemainderUnsigned(p) => flat_calculation32(
            to,
            Operation::RemainderUnsigned,
            p,
        ),
        SingleOperation::RemainderSigned(p) => flat_calculation32(
            to,
            Operation::RemainderSigned,
            p,
        ),
        SingleOperation::LeastUnsigned(p) => flat_calculation32(to, Operation::LeastUnsigned, p),
        SingleOperation::LeastSigned(p) => flat_calculation32(to, Operation::LeastSigned, p),
        SingleOperation::GreatestUnsigned(p) => flat_calculation32(
            to,
            Operation::GreatestUnsigned,
            p,
        ),
        SingleOperation::GreatestSigned(p) => flat_calculation32(to, Operation::GreatestSigned, p),
        SingleOperation::MultiplyAdd(t) => flat_mad32(to, t),
        SingleOperation::Choose(choice) => flat_choice32(to, choice),
    }
}

/// What puts 64 bits into a register, laid flat.
pub(crate) fn flat64(set: &DoubleStep) -> FlatStep
    ensures { Stands result (step_arm.Double set.now) }
{
    let to = set.target;
    match &set.operation {
        DoubleOperation::Move(source) => match *source {
            Source::Register(source) => FlatStep::Move64(FromOne { to, source }),
            Source::Constant(constant) => FlatStep::Set64 { to, constant },
        },
        DoubleOperation::Not(source) => match *source {
            Source::Register(source) => FlatStep::Not64(FromOne { to, source }),
            Source::Constant(_) => FlatStep::Other,
        },
        DoubleOperation::Add(p) => flat_pair64!(to, p => Add, Add64, Add64Constant),
        DoubleOperation::Subtract(p) =>
            flat_pair64!(to, p => Subtract, Subtract64, Subtract64Constant),
        DoubleOperation::Multiply(p) =>
            flat_pair64!(to, p => Multiply, Multiply64, Multiply64Constant),
        DoubleOperation::And(p) => flat_pair64!(to, p => And, And64, And64Constant),
        DoubleOperation::Or(p) => flat_pair64!(to, p => Or, Or64, Or64Constant),
        DoubleOperation::Xor(p) => flat_pair64!(to, p => Xor, Xor64, Xor64Constant),
        DoubleOperation::ShiftLeft(p) =>
            flat_shift64!(to, p => Left, ShiftLeft64, ShiftLeft64Constant),
        DoubleOperation::ShiftRightUnsigned(p) =>
            flat_shift64!(to, p => RightUnsigned, ShiftRightUnsigned64, ShiftRightUnsigned64Constant),
        DoubleOperation::ShiftRightSigned(p) =>
            flat_shift64!(to, p => RightSigned, ShiftRightSigned64, ShiftRightSigned64Constant),
        DoubleOperation::DivideUnsigned(p) => flat_calculation64(to, Operation::DivideUnsigned, p),
        DoubleOperation::DivideSigned(p) => flat_calculation64(to, Operation::DivideSigned, p),
        DoubleOperation::RemainderUnsigned(p) => flat_calculation64(
            to,
            Operation::RemainderUnsigned,
            p,
        ),
        DoubleOperation::RemainderSigned(p) => flat_calculation64(
            to,
            Operation::RemainderSigned,
            p,
        ),
        DoubleOperation::LeastUnsigned(p) => flat_calculation64(to, Operation::LeastUnsigned, p),
        DoubleOperation::LeastSigned(p) => flat_calculation64(to, Operation::LeastSigned, p),
        DoubleOperation::GreatestUnsigned(p) => flat_calculation64(
            to,
            Operation::GreatestUnsigned,
            p,
        ),
        DoubleOperation::GreatestSigned(p) => flat_calculation64(to, Operation::GreatestSigned, p),
        DoubleOperation::MultiplyAdd(t) => flat_mad64(to, t),
        DoubleOperation::Choose(choice) => flat_choice64(to, choice),
    }
}

/// An operation of 32 bits laid flat that has no form of its own, of whose sources one is a register.
fn flat_calculation32(to: RegisterNumber, operation: Operation, pair: &Pair<Source32>) -> FlatStep
    ensures { Stands result (step_arm.Single (record { target = to; operation = calculated32 operation pair.now })) }
{
    match pair.left {
        Source::Constant(constant) => match pair.right {
            Source::Register(right) => FlatStep::ConstantCalculate32 {
                operation,
                to,
                right,
                constant,
            },
            Source::Constant(_) => FlatStep::Other,
        },
        Source::Register(left) => match pair.right {
            Source::Register(right) => FlatStep::Calculate32(Calculation {
                operation,
                to,
                left,
                right,
            }),
            Source::Constant(constant) => FlatStep::Calculate32Constant {
                operation,
                to,
                left,
                constant,
            },
        },
    }
}

/// An operation of 64 bits laid flat that has no form of its own, of whose sources one is a register.
fn flat_calculation64(to: RegisterNumber, operation: Operation, pair: &Pair<Source64>) -> FlatStep
    ensures { Stands result (step_arm.Double (record { target = to; operation = calculated64 operation pair.now })) }
{
    match pair.left {
        Source::Constant(constant) => match pair.right {
            Source::Register(right) => FlatStep::ConstantCalculate64 {
                operation,
                to,
                right,
                constant,
            },
            Source::Constant(_) => FlatStep::Other,
        },
        Source::Register(left) => match pair.right {
            Source::Register(right) => FlatStep::Calculate64(Calculation {
                operation,
                to,
                left,
                right,
            }),
            Source::Constant(constant) => FlatStep::Calculate64Constant {
                operation,
                to,
                left,
                constant,
            },
        },
    }
}

/// `mad` of 32 bits laid flat.
fn flat_mad32(to: RegisterNumber, t: &Triple<Source32>) -> FlatStep
    ensures { Stands result (step_arm.Single (record { target = to; operation = single.MultiplyAdd t.now })) }
{
    let Source::Register(first) = t.first else {
        return flat_mad32_of(to, t);
    };
    match t.second {
        Source::Register(second) => match t.third {
            Source::Register(third) => FlatStep::MultiplyAdd32(FromThree {
                to,
                first,
                second,
                third,
            }),
            Source::Constant(_) => flat_mad32_of(to, t),
        },
        Source::Constant(second) => match t.third {
            Source::Register(_) => flat_mad32_of(to, t),
            Source::Constant(third) => FlatStep::MultiplyAdd32Constants {
                to,
                first,
                second,
                third,
            },
        },
    }
}

/// `mad` of 64 bits laid flat.
fn flat_mad64(to: RegisterNumber, t: &Triple<Source64>) -> FlatStep
    ensures { Stands result (step_arm.Double (record { target = to; operation = double.MultiplyAdd t.now })) }
{
    let Source::Register(first) = t.first else {
        return flat_mad64_of(to, t);
    };
    let Source::Register(third) = t.third else {
        return flat_mad64_of(to, t);
    };
    match t.second {
        Source::Register(second) => FlatStep::MultiplyAdd64(FromThree {
            to,
            first,
            second,
            third,
        }),
        Source::Constant(second) => FlatStep::MultiplyAdd64Constant {
            to,
            first,
            third,
            second,
        },
    }
}

/// `mad` of 32 bits laid flat, whose sources are no two constants.
fn flat_mad32_of(to: RegisterNumber, t: &Triple<Source32>) -> FlatStep
    ensures { Stands result (step_arm.Single (record { target = to; operation = single.MultiplyAdd t.now })) }
{
    let constant = constant32(t.first, t.second, t.third);
    let Some(first) = operand32(t.first, constant) else {
        return FlatStep::Other;
    };
    let Some(second) = operand32(t.second, constant) else {
        return FlatStep::Other;
    };
    let Some(third) = operand32(t.third, constant) else {
        return FlatStep::Other;
    };
    FlatStep::MultiplyAdd32Of {
        to,
        first,
        second,
        third,
        constant,
    }
}

/// `cmov` of 32 bits laid flat, whose condition is a register.
fn flat_choice32(to: RegisterNumber, choice: &Choice<Source32>) -> FlatStep
    ensures { Stands result (step_arm.Single (record { target = to; operation = single.Choose choice.now })) }
{
    let Source::Register(condition) = choice.condition else {
        return FlatStep::Other;
    };
    let constant = constant32(choice.one, choice.zero, choice.zero);
    let Some(one) = operand32(choice.one, constant) else {
        return FlatStep::Other;
    };
    let Some(zero) = operand32(choice.zero, constant) else {
        return two_constants32(to, condition, choice);
    };
    FlatStep::Choose32 {
        to,
        condition,
        one,
        zero,
        constant,
    }
}

/// `cmov` of 32 bits and two constants laid flat.
fn two_constants32(
    to: RegisterNumber,
    condition: RegisterNumber,
    choice: &Choice<Source32>,
) -> FlatStep
    requires { choice.now.condition ≡ source.Register condition }
    ensures { Stands result (step_arm.Single (record { target = to; operation = single.Choose choice.now })) }
{
    match choice.one {
        Source::Register(_) => FlatStep::Other,
        Source::Constant(one) => match choice.zero {
            Source::Register(_) => FlatStep::Other,
            Source::Constant(zero) => FlatStep::Choose32Constants(ChosenConstants {
                to,
                condition,
                one,
                zero,
            }),
        },
    }
}

/// `mad` of 64 bits laid flat, whose sources are no two constants.
fn flat_mad64_of(to: RegisterNumber, t: &Triple<Source64>) -> FlatStep
    ensures { Stands result (step_arm.Double (record { target = to; operation = double.MultiplyAdd t.now })) }
{
    let constant = constant64(t.first, t.second, t.third);
    let Some(first) = operand64(t.first, constant) else {
        return FlatStep::Other;
    };
    let Some(second) = operand64(t.second, constant) else {
        return FlatStep::Other;
    };
    let Some(third) = operand64(t.third, constant) else {
        return FlatStep::Other;
    };
    FlatStep::MultiplyAdd64Of {
        to,
        first,
        second,
        third,
        constant,
    }
}

/// `cmov` of 64 bits laid flat, whose condition is a register.
fn flat_choice64(to: RegisterNumber, choice: &Choice<Source64>) -> FlatStep
    ensures { Stands result (step_arm.Double (record { target = to; operation = double.Choose choice.now })) }
{
    let Source::Register(condition) = choice.condition else {
        return FlatStep::Other;
    };
    let constant = constant64(choice.one, choice.zero, choice.zero);
    let Some(one) = operand64(choice.one, constant) else {
        return FlatStep::Other;
    };
    let Some(zero) = operand64(choice.zero, constant) else {
        return two_constants64(to, condition, choice);
    };
    FlatStep::Choose64 {
        to,
        condition,
        one,
        zero,
        constant,
    }
}

/// `cmov` of 64 bits and two constants laid flat.
fn two_constants64(
    to: RegisterNumber,
    condition: RegisterNumber,
    choice: &Choice<Source64>,
) -> FlatStep
    requires { choice.now.condition ≡ source.Register condition }
    ensures { Stands result (step_arm.Double (record { target = to; operation = double.Choose choice.now })) }
{
    let Source::Constant(one) = choice.one else {
        return FlatStep::Other;
    };
    let Source::Constant(zero) = choice.zero else {
        return FlatStep::Other;
    };
    let Some(one) = short(one) else {
        return FlatStep::Other;
    };
    let Some(zero) = short(zero) else {
        return FlatStep::Other;
    };
    FlatStep::Choose64Constants(ChosenConstants {
        to,
        condition,
        one,
        zero,
    })
}
