//! Flat steps that compare, and put a bit into a `$c` register.
ghost use Rattle.std.specs.Prelude.{◌<◌, ◌^◌};
ghost use Rattle.kernel_check.specs.Flat.{plain};
ghost use Rattle.kernel_check.specs.declared.flat.FlatStep.TheVariants as flat;
ghost use Rattle.executor.specs.inner.Flat.{Goes};
ghost use Rattle.executor.specs.inner.Held.{contents, surroundings};

use crate::flat::Gone;
use crate::flat_sources::{both_compared, compared_with_constant, constant_compared};
use crate::flat_values::{compare32, compare64, run1};
use crate::item::ItemContext;
use crate::memory::Memory;
use crate::registers::Registers;
use kernel_check::{Compared, ComparedBehind, ControlOperation, FlatStep};

/// `cmp_OP_b1_u32` of two registers.
#[inline]
pub fn compare_unsigned32(
    context: &ItemContext<'_>,
    r: &mut Registers,
    next: usize,
    memory: &Memory,
    p: &Compared,
) -> Gone
    requires { next < 2 ^ 32 }
    ensures { Goes (plain (flat.CompareUnsigned32 p.now)) (surroundings context.now) r.old next (contents memory.now) result r.new (contents memory.now) }
{
    run1(
        context,
        r,
        next,
        memory,
        p.to,
        ControlOperation::CompareUnsigned32(both_compared(p.comparison, p.left, p.right)),
    )
}

/// `cmp_OP_b1_u32` with a constant behind.
#[inline]
pub fn compare_unsigned32_constant(
    context: &ItemContext<'_>,
    r: &mut Registers,
    next: usize,
    memory: &Memory,
    p: &ComparedBehind,
) -> Gone
    requires { next < 2 ^ 32 }
    ensures { Goes (plain (flat.CompareUnsigned32Constant p.now)) (surroundings context.now) r.old next (contents memory.now) result r.new (contents memory.now) }
{
    run1(
        context,
        r,
        next,
        memory,
        p.to,
        ControlOperation::CompareUnsigned32(compared_with_constant(
            p.comparison,
            p.left,
            p.constant,
        )),
    )
}

/// `cmp_OP_b1_s32` of two registers.
#[inline]
pub fn compare_signed32(
    context: &ItemContext<'_>,
    r: &mut Registers,
    next: usize,
    memory: &Memory,
    p: &Compared,
) -> Gone
    requires { next < 2 ^ 32 }
    ensures { Goes (plain (flat.CompareSigned32 p.now)) (surroundings context.now) r.old next (contents memory.now) result r.new (contents memory.now) }
{
    run1(
        context,
        r,
        next,
        memory,
        p.to,
        ControlOperation::CompareSigned32(both_compared(p.comparison, p.left, p.right)),
    )
}

/// `cmp_OP_b1_s32` with a constant behind.
#[inline]
pub fn compare_signed32_constant(
    context: &ItemContext<'_>,
    r: &mut Registers,
    next: usize,
    memory: &Memory,
    p: &ComparedBehind,
) -> Gone
    requires { next < 2 ^ 32 }
    ensures { Goes (plain (flat.CompareSigned32Constant p.now)) (surroundings context.now) r.old next (contents memory.now) result r.new (contents memory.now) }
{
    run1(
        context,
        r,
        next,
        memory,
        p.to,
        ControlOperation::CompareSigned32(compared_with_constant(p.comparison, p.left, p.constant)),
    )
}

/// `cmp_OP_b1` of 32 bits with a constant in front.
#[inline]
pub fn constant_compare32(
    context: &ItemContext<'_>,
    r: &mut Registers,
    next: usize,
    memory: &Memory,
    step: &FlatStep,
) -> Gone
    requires { next < 2 ^ 32 }
    ensures { Goes (plain step.now) (surroundings context.now) r.old next (contents memory.now) result r.new (contents memory.now) }
{
    let FlatStep::ConstantCompare32 {
        sign,
        comparison,
        to,
        right,
        constant,
    } = *step
    else {
        return Gone::Other;
    };
    compare32(
        context,
        r,
        next,
        memory,
        to,
        sign,
        constant_compared(comparison, constant, right),
    )
}

/// `cmp_OP_b1_u64` of two registers.
#[inline]
pub fn compare_unsigned64(
    context: &ItemContext<'_>,
    r: &mut Registers,
    next: usize,
    memory: &Memory,
    p: &Compared,
) -> Gone
    requires { next < 2 ^ 32 }
    ensures { Goes (plain (flat.CompareUnsigned64 p.now)) (surroundings context.now) r.old next (contents memory.now) result r.new (contents memory.now) }
{
    run1(
        context,
        r,
        next,
        memory,
        p.to,
        ControlOperation::CompareUnsigned64(both_compared(p.comparison, p.left, p.right)),
    )
}

/// `cmp_OP_b1_u64` with a constant behind.
#[inline]
pub fn compare_unsigned64_constant(
    context: &ItemContext<'_>,
    r: &mut Registers,
    next: usize,
    memory: &Memory,
    step: &FlatStep,
) -> Gone
    requires { next < 2 ^ 32 }
    ensures { Goes (plain step.now) (surroundings context.now) r.old next (contents memory.now) result r.new (contents memory.now) }
{
    let FlatStep::CompareUnsigned64Constant {
        comparison,
        to,
        left,
        constant,
    } = *step
    else {
        return Gone::Other;
    };
    run1(
        context,
        r,
        next,
        memory,
        to,
        ControlOperation::CompareUnsigned64(compared_with_constant(comparison, left, constant)),
    )
}

/// `cmp_OP_b1_s64` of two registers.
#[inline]
pub fn compare_signed64(
    context: &ItemContext<'_>,
    r: &mut Registers,
    next: usize,
    memory: &Memory,
    p: &Compared,
) -> Gone
    requires { next < 2 ^ 32 }
    ensures { Goes (plain (flat.CompareSigned64 p.now)) (surroundings context.now) r.old next (contents memory.now) result r.new (contents memory.now) }
{
    run1(
        context,
        r,
        next,
        memory,
        p.to,
        ControlOperation::CompareSigned64(both_compared(p.comparison, p.left, p.right)),
    )
}

/// `cmp_OP_b1_s64` with a constant behind.
#[inline]
pub fn compare_signed64_constant(
    context: &ItemContext<'_>,
    r: &mut Registers,
    next: usize,
    memory: &Memory,
    step: &FlatStep,
) -> Gone
    requires { next < 2 ^ 32 }
    ensures { Goes (plain step.now) (surroundings context.now) r.old next (contents memory.now) result r.new (contents memory.now) }
{
    let FlatStep::CompareSigned64Constant {
        comparison,
        to,
        left,
        constant,
    } = *step
    else {
        return Gone::Other;
    };
    run1(
        context,
        r,
        next,
        memory,
        to,
        ControlOperation::CompareSigned64(compared_with_constant(comparison, left, constant)),
    )
}

/// `cmp_OP_b1` of 64 bits with a constant in front.
#[inline]
pub fn constant_compare64(
    context: &ItemContext<'_>,
    r: &mut Registers,
    next: usize,
    memory: &Memory,
    step: &FlatStep,
) -> Gone
    requires { next < 2 ^ 32 }
    ensures { Goes (plain step.now) (surroundings context.now) r.old next (contents memory.now) result r.new (contents memory.now) }
{
    let FlatStep::ConstantCompare64 {
        sign,
        comparison,
        to,
        right,
        constant,
    } = *step
    else {
        return Gone::Other;
    };
    compare64(
        context,
        r,
        next,
        memory,
        to,
        sign,
        constant_compared(comparison, constant, right),
    )
}
