//! Flat steps that put 32 bits into an `$s` register.
ghost use Rattle.std.specs.Prelude.{◌<◌, ◌^◌};
ghost use Rattle.kernel_check.specs.Flat.{plain};
ghost use Rattle.kernel_check.specs.declared.flat.FlatStep.TheVariants as flat;
ghost use Rattle.executor.specs.inner.Flat.{Goes};
ghost use Rattle.executor.specs.inner.Held.{contents, surroundings};

use crate::flat::Gone;
use crate::flat_sources::{both, choice, constant_and, triple, with_constant};
use crate::flat_values::{calculate_front32, calculate32, run32, shift32};
use crate::item::ItemContext;
use crate::memory::Memory;
use crate::registers::Registers;
use kernel_check::{
    Calculation, ChosenConstants, ConstantBehind, FlatStep, FromOne, FromThree, FromTwo,
    SingleOperation, Source,
};

/// A flat step of 32 bits with two registers, by what puts them together.
macro_rules! single {
    ($context:ident, $r:ident, $next:ident, $memory:ident, $p:ident => $operation:ident, $sources:ident) => {
        run32($context, $r, $next, $memory, $p.to, SingleOperation::$operation($sources($p.left, $p.right)))
    };
}

/// One with a constant of 32 bits behind.
macro_rules! single_constant {
    ($context:ident, $r:ident, $next:ident, $memory:ident, $p:ident => $operation:ident, $sources:ident) => {
        run32($context, $r, $next, $memory, $p.to, SingleOperation::$operation($sources($p.left, $p.constant)))
    };
}

/// `mad` of 32 bits.
macro_rules! single_mad {
    ($context:ident, $r:ident, $next:ident, $memory:ident, $to:expr => $first:expr, $second:expr, $third:expr) => {
        run32($context, $r, $next, $memory, $to, SingleOperation::MultiplyAdd(triple($first, $second, $third)))
    };
}

/// `mov_b32` of a register.
#[inline]
pub fn move32(
    context: &ItemContext<'_>,
    r: &mut Registers,
    next: usize,
    memory: &Memory,
    p: &FromOne,
) -> Gone
    requires { next < 2 ^ 32 }
    ensures { Goes (plain (flat.Move32 p.now)) (surroundings context.now) r.old next (contents memory.now) result r.new (contents memory.now) }
{
    run32(
        context,
        r,
        next,
        memory,
        p.to,
        SingleOperation::Move(Source::Register(p.source)),
    )
}

/// `mov_b32` of a constant.
#[inline]
pub fn set32(
    context: &ItemContext<'_>,
    r: &mut Registers,
    next: usize,
    memory: &Memory,
    step: &FlatStep,
) -> Gone
    requires { next < 2 ^ 32 }
    ensures { Goes (plain step.now) (surroundings context.now) r.old next (contents memory.now) result r.new (contents memory.now) }
{
    let FlatStep::Set32 { to, constant } = *step else {
        return Gone::Other;
    };
    run32(
        context,
        r,
        next,
        memory,
        to,
        SingleOperation::Move(Source::Constant(constant)),
    )
}

/// `not_b32` of a register.
#[inline]
pub fn not32(
    context: &ItemContext<'_>,
    r: &mut Registers,
    next: usize,
    memory: &Memory,
    p: &FromOne,
) -> Gone
    requires { next < 2 ^ 32 }
    ensures { Goes (plain (flat.Not32 p.now)) (surroundings context.now) r.old next (contents memory.now) result r.new (contents memory.now) }
{
    run32(
        context,
        r,
        next,
        memory,
        p.to,
        SingleOperation::Not(Source::Register(p.source)),
    )
}

/// `add_u32` of two registers.
#[inline]
pub fn add32(
    context: &ItemContext<'_>,
    r: &mut Registers,
    next: usize,
    memory: &Memory,
    p: &FromTwo,
) -> Gone
    requires { next < 2 ^ 32 }
    ensures { Goes (plain (flat.Add32 p.now)) (surroundings context.now) r.old next (contents memory.now) result r.new (contents memory.now) }
{
    single!(context, r, next, memory, p => Add, both)
}

/// `add_u32` with a constant behind.
#[inline]
pub fn add32_constant(
    context: &ItemContext<'_>,
    r: &mut Registers,
    next: usize,
    memory: &Memory,
    p: &ConstantBehind,
) -> Gone
    requires { next < 2 ^ 32 }
    ensures { Goes (plain (flat.Add32Constant p.now)) (surroundings context.now) r.old next (contents memory.now) result r.new (contents memory.now) }
{
    single_constant!(context, r, next, memory, p => Add, with_constant)
}

/// `sub_u32` of two registers.
#[inline]
pub fn subtract32(
    context: &ItemContext<'_>,
    r: &mut Registers,
    next: usize,
    memory: &Memory,
    p: &FromTwo,
) -> Gone
    requires { next < 2 ^ 32 }
    ensures { Goes (plain (flat.Subtract32 p.now)) (surroundings context.now) r.old next (contents memory.now) result r.new (contents memory.now) }
{
    single!(context, r, next, memory, p => Subtract, both)
}

/// `sub_u32` with a constant behind.
#[inline]
pub fn subtract32_constant(
    context: &ItemContext<'_>,
    r: &mut Registers,
    next: usize,
    memory: &Memory,
    p: &ConstantBehind,
) -> Gone
    requires { next < 2 ^ 32 }
    ensures { Goes (plain (flat.Subtract32Constant p.now)) (surroundings context.now) r.old next (contents memory.now) result r.new (contents memory.now) }
{
    single_constant!(context, r, next, memory, p => Subtract, with_constant)
}

/// `mul_u32` of two registers.
#[inline]
pub fn multiply32(
    context: &ItemContext<'_>,
    r: &mut Registers,
    next: usize,
    memory: &Memory,
    p: &FromTwo,
) -> Gone
    requires { next < 2 ^ 32 }
    ensures { Goes (plain (flat.Multiply32 p.now)) (surroundings context.now) r.old next (contents memory.now) result r.new (contents memory.now) }
{
    single!(context, r, next, memory, p => Multiply, both)
}

/// `mul_u32` with a constant behind.
#[inline]
pub fn multiply32_constant(
    context: &ItemContext<'_>,
    r: &mut Registers,
    next: usize,
    memory: &Memory,
    p: &ConstantBehind,
) -> Gone
    requires { next < 2 ^ 32 }
    ensures { Goes (plain (flat.Multiply32Constant p.now)) (surroundings context.now) r.old next (contents memory.now) result r.new (contents memory.now) }
{
    single_constant!(context, r, next, memory, p => Multiply, with_constant)
}

/// `and_b32` of two registers.
#[inline]
pub fn and32(
    context: &ItemContext<'_>,
    r: &mut Registers,
    next: usize,
    memory: &Memory,
    p: &FromTwo,
) -> Gone
    requires { next < 2 ^ 32 }
    ensures { Goes (plain (flat.And32 p.now)) (surroundings context.now) r.old next (contents memory.now) result r.new (contents memory.now) }
{
    single!(context, r, next, memory, p => And, both)
}

/// `and_b32` with a constant behind.
#[inline]
pub fn and32_constant(
    context: &ItemContext<'_>,
    r: &mut Registers,
    next: usize,
    memory: &Memory,
    p: &ConstantBehind,
) -> Gone
    requires { next < 2 ^ 32 }
    ensures { Goes (plain (flat.And32Constant p.now)) (surroundings context.now) r.old next (contents memory.now) result r.new (contents memory.now) }
{
    single_constant!(context, r, next, memory, p => And, with_constant)
}

/// `or_b32` of two registers.
#[inline]
pub fn or32(
    context: &ItemContext<'_>,
    r: &mut Registers,
    next: usize,
    memory: &Memory,
    p: &FromTwo,
) -> Gone
    requires { next < 2 ^ 32 }
    ensures { Goes (plain (flat.Or32 p.now)) (surroundings context.now) r.old next (contents memory.now) result r.new (contents memory.now) }
{
    single!(context, r, next, memory, p => Or, both)
}

/// `or_b32` with a constant behind.
#[inline]
pub fn or32_constant(
    context: &ItemContext<'_>,
    r: &mut Registers,
    next: usize,
    memory: &Memory,
    p: &ConstantBehind,
) -> Gone
    requires { next < 2 ^ 32 }
    ensures { Goes (plain (flat.Or32Constant p.now)) (surroundings context.now) r.old next (contents memory.now) result r.new (contents memory.now) }
{
    single_constant!(context, r, next, memory, p => Or, with_constant)
}

/// `xor_b32` of two registers.
#[inline]
pub fn xor32(
    context: &ItemContext<'_>,
    r: &mut Registers,
    next: usize,
    memory: &Memory,
    p: &FromTwo,
) -> Gone
    requires { next < 2 ^ 32 }
    ensures { Goes (plain (flat.Xor32 p.now)) (surroundings context.now) r.old next (contents memory.now) result r.new (contents memory.now) }
{
    single!(context, r, next, memory, p => Xor, both)
}

/// `xor_b32` with a constant behind.
#[inline]
pub fn xor32_constant(
    context: &ItemContext<'_>,
    r: &mut Registers,
    next: usize,
    memory: &Memory,
    p: &ConstantBehind,
) -> Gone
    requires { next < 2 ^ 32 }
    ensures { Goes (plain (flat.Xor32Constant p.now)) (surroundings context.now) r.old next (contents memory.now) result r.new (contents memory.now) }
{
    single_constant!(context, r, next, memory, p => Xor, with_constant)
}

/// `shl_u32` of a register by a register.
#[inline]
pub fn shift_left32(
    context: &ItemContext<'_>,
    r: &mut Registers,
    next: usize,
    memory: &Memory,
    p: &FromTwo,
) -> Gone
    requires { next < 2 ^ 32 }
    ensures { Goes (plain (flat.ShiftLeft32 p.now)) (surroundings context.now) r.old next (contents memory.now) result r.new (contents memory.now) }
{
    single!(context, r, next, memory, p => ShiftLeft, both)
}

/// `shl_u32` by a constant.
#[inline]
pub fn shift_left32_constant(
    context: &ItemContext<'_>,
    r: &mut Registers,
    next: usize,
    memory: &Memory,
    p: &ConstantBehind,
) -> Gone
    requires { next < 2 ^ 32 }
    ensures { Goes (plain (flat.ShiftLeft32Constant p.now)) (surroundings context.now) r.old next (contents memory.now) result r.new (contents memory.now) }
{
    single_constant!(context, r, next, memory, p => ShiftLeft, with_constant)
}

/// `shr_u32` of a register by a register.
#[inline]
pub fn shift_right_unsigned32(
    context: &ItemContext<'_>,
    r: &mut Registers,
    next: usize,
    memory: &Memory,
    p: &FromTwo,
) -> Gone
    requires { next < 2 ^ 32 }
    ensures { Goes (plain (flat.ShiftRightUnsigned32 p.now)) (surroundings context.now) r.old next (contents memory.now) result r.new (contents memory.now) }
{
    single!(context, r, next, memory, p => ShiftRightUnsigned, both)
}

/// `shr_u32` by a constant.
#[inline]
pub fn shift_right_unsigned32_constant(
    context: &ItemContext<'_>,
    r: &mut Registers,
    next: usize,
    memory: &Memory,
    p: &ConstantBehind,
) -> Gone
    requires { next < 2 ^ 32 }
    ensures { Goes (plain (flat.ShiftRightUnsigned32Constant p.now)) (surroundings context.now) r.old next (contents memory.now) result r.new (contents memory.now) }
{
    single_constant!(context, r, next, memory, p => ShiftRightUnsigned, with_constant)
}

/// `shr_s32` of a register by a register.
#[inline]
pub fn shift_right_signed32(
    context: &ItemContext<'_>,
    r: &mut Registers,
    next: usize,
    memory: &Memory,
    p: &FromTwo,
) -> Gone
    requires { next < 2 ^ 32 }
    ensures { Goes (plain (flat.ShiftRightSigned32 p.now)) (surroundings context.now) r.old next (contents memory.now) result r.new (contents memory.now) }
{
    single!(context, r, next, memory, p => ShiftRightSigned, both)
}

/// `shr_s32` by a constant.
#[inline]
pub fn shift_right_signed32_constant(
    context: &ItemContext<'_>,
    r: &mut Registers,
    next: usize,
    memory: &Memory,
    p: &ConstantBehind,
) -> Gone
    requires { next < 2 ^ 32 }
    ensures { Goes (plain (flat.ShiftRightSigned32Constant p.now)) (surroundings context.now) r.old next (contents memory.now) result r.new (contents memory.now) }
{
    single_constant!(context, r, next, memory, p => ShiftRightSigned, with_constant)
}

/// An operation of 32 bits and two registers.
#[inline]
pub fn calculate32_both(
    context: &ItemContext<'_>,
    r: &mut Registers,
    next: usize,
    memory: &Memory,
    p: &Calculation,
) -> Gone
    requires { next < 2 ^ 32 }
    ensures { Goes (plain (flat.Calculate32 p.now)) (surroundings context.now) r.old next (contents memory.now) result r.new (contents memory.now) }
{
    calculate32(
        context,
        r,
        next,
        memory,
        p.to,
        p.operation,
        both(p.left, p.right),
    )
}

/// One with a constant behind.
#[inline]
pub fn calculate32_constant(
    context: &ItemContext<'_>,
    r: &mut Registers,
    next: usize,
    memory: &Memory,
    step: &FlatStep,
) -> Gone
    requires { next < 2 ^ 32 }
    ensures { Goes (plain step.now) (surroundings context.now) r.old next (contents memory.now) result r.new (contents memory.now) }
{
    let FlatStep::Calculate32Constant {
        operation,
        to,
        left,
        constant,
    } = *step
    else {
        return Gone::Other;
    };
    calculate32(
        context,
        r,
        next,
        memory,
        to,
        operation,
        with_constant(left, constant),
    )
}

/// One with a constant in front.
#[inline]
pub fn constant_calculate32(
    context: &ItemContext<'_>,
    r: &mut Registers,
    next: usize,
    memory: &Memory,
    step: &FlatStep,
) -> Gone
    requires { next < 2 ^ 32 }
    ensures { Goes (plain step.now) (surroundings context.now) r.old next (contents memory.now) result r.new (contents memory.now) }
{
    let FlatStep::ConstantCalculate32 {
        operation,
        to,
        right,
        constant,
    } = *step
    else {
        return Gone::Other;
    };
    calculate_front32(
        context,
        r,
        next,
        memory,
        to,
        operation,
        constant_and(constant, right),
    )
}

/// A shift of a constant of 32 bits.
#[inline]
pub fn constant_shift32(
    context: &ItemContext<'_>,
    r: &mut Registers,
    next: usize,
    memory: &Memory,
    step: &FlatStep,
) -> Gone
    requires { next < 2 ^ 32 }
    ensures { Goes (plain step.now) (surroundings context.now) r.old next (contents memory.now) result r.new (contents memory.now) }
{
    let FlatStep::ConstantShift32 {
        operation,
        to,
        right,
        constant,
    } = *step
    else {
        return Gone::Other;
    };
    shift32(
        context,
        r,
        next,
        memory,
        to,
        operation,
        constant_and(constant, right),
    )
}

/// `mad_u32` of three registers.
#[inline]
pub fn multiply_add32(
    context: &ItemContext<'_>,
    r: &mut Registers,
    next: usize,
    memory: &Memory,
    p: &FromThree,
) -> Gone
    requires { next < 2 ^ 32 }
    ensures { Goes (plain (flat.MultiplyAdd32 p.now)) (surroundings context.now) r.old next (contents memory.now) result r.new (contents memory.now) }
{
    single_mad!(context, r, next, memory, p.to => Source::Register(p.first), Source::Register(p.second), Source::Register(p.third))
}

/// `mad_u32` of a register and then two constants.
#[inline]
pub fn multiply_add32_constants(
    context: &ItemContext<'_>,
    r: &mut Registers,
    next: usize,
    memory: &Memory,
    step: &FlatStep,
) -> Gone
    requires { next < 2 ^ 32 }
    ensures { Goes (plain step.now) (surroundings context.now) r.old next (contents memory.now) result r.new (contents memory.now) }
{
    let FlatStep::MultiplyAdd32Constants {
        to,
        first,
        second,
        third,
    } = *step
    else {
        return Gone::Other;
    };
    single_mad!(context, r, next, memory, to => Source::Register(first), Source::Constant(second), Source::Constant(third))
}

/// `cmov_b32` of two constants.
#[inline]
pub fn choose32_constants(
    context: &ItemContext<'_>,
    r: &mut Registers,
    next: usize,
    memory: &Memory,
    p: &ChosenConstants,
) -> Gone
    requires { next < 2 ^ 32 }
    ensures { Goes (plain (flat.Choose32Constants p.now)) (surroundings context.now) r.old next (contents memory.now) result r.new (contents memory.now) }
{
    run32(
        context,
        r,
        next,
        memory,
        p.to,
        SingleOperation::Choose(choice(
            p.condition,
            Source::Constant(p.one),
            Source::Constant(p.zero),
        )),
    )
}
