//! Flat steps of one bit.
ghost use Rattle.std.specs.Prelude.{◌≡◌, ◌<◌, ◌^◌};
ghost use Rattle.kernel_check.specs.Flat.{bit_source, plain};
ghost use Rattle.executor.specs.Registers.{read1};
ghost use Rattle.executor.specs.inner.Flat.{Goes};
ghost use Rattle.executor.specs.inner.Held.{contents, surroundings};

use crate::flat::Gone;
use crate::item::ItemContext;
use crate::memory::Memory;
use crate::number::Number;
use crate::registers::Registers;
use crate::values::bit;
use kernel_check::{Bit, FlatStep, Source};

/// A bit: a register is read in any case, so that no jump is needed.
#[inline(always)]
fn read(r: &Registers, bit: Bit) -> bool
    ensures { result ≡ read1 r.now (bit_source bit) }
{
    let stored = r.read1(Source::Register(bit.number));
    if bit.is_register {
        stored
    } else {
        bit.constant
    }
}

/// `mov_b1`.
#[inline]
pub fn move1(
    context: &ItemContext<'_>,
    r: &mut Registers,
    next: usize,
    memory: &Memory,
    step: &FlatStep,
) -> Gone
    requires { next < 2 ^ 32 }
    ensures { Goes (plain step.now) (surroundings context.now) r.old next (contents memory.now) result r.new (contents memory.now) }
{
    let FlatStep::Move1 { to, source } = *step else {
        return Gone::Other;
    };
    let value = read(r, source);
    r.set1(to, value);
    Gone::Onward
}

/// `not_b1`.
#[inline]
pub fn not1(
    context: &ItemContext<'_>,
    r: &mut Registers,
    next: usize,
    memory: &Memory,
    step: &FlatStep,
) -> Gone
    requires { next < 2 ^ 32 }
    ensures { Goes (plain step.now) (surroundings context.now) r.old next (contents memory.now) result r.new (contents memory.now) }
{
    let FlatStep::Not1 { to, source } = *step else {
        return Gone::Other;
    };
    let value = !read(r, source);
    r.set1(to, value);
    Gone::Onward
}

/// `and_b1`.
#[inline]
pub fn and1(
    context: &ItemContext<'_>,
    r: &mut Registers,
    next: usize,
    memory: &Memory,
    step: &FlatStep,
) -> Gone
    requires { next < 2 ^ 32 }
    ensures { Goes (plain step.now) (surroundings context.now) r.old next (contents memory.now) result r.new (contents memory.now) }
{
    let FlatStep::And1 { to, left, right } = *step else {
        return Gone::Other;
    };
    let value = read(r, left) & read(r, right);
    r.set1(to, value);
    Gone::Onward
}

/// `or_b1`.
#[inline]
pub fn or1(
    context: &ItemContext<'_>,
    r: &mut Registers,
    next: usize,
    memory: &Memory,
    step: &FlatStep,
) -> Gone
    requires { next < 2 ^ 32 }
    ensures { Goes (plain step.now) (surroundings context.now) r.old next (contents memory.now) result r.new (contents memory.now) }
{
    let FlatStep::Or1 { to, left, right } = *step else {
        return Gone::Other;
    };
    let value = read(r, left) | read(r, right);
    r.set1(to, value);
    Gone::Onward
}

/// `xor_b1`.
#[inline]
pub fn xor1(
    context: &ItemContext<'_>,
    r: &mut Registers,
    next: usize,
    memory: &Memory,
    step: &FlatStep,
) -> Gone
    requires { next < 2 ^ 32 }
    ensures { Goes (plain step.now) (surroundings context.now) r.old next (contents memory.now) result r.new (contents memory.now) }
{
    let FlatStep::Xor1 { to, left, right } = *step else {
        return Gone::Other;
    };
    let value = read(r, left) ^ read(r, right);
    r.set1(to, value);
    Gone::Onward
}

/// `cmov_b1`.
#[inline]
pub fn choose1(
    context: &ItemContext<'_>,
    r: &mut Registers,
    next: usize,
    memory: &Memory,
    step: &FlatStep,
) -> Gone
    requires { next < 2 ^ 32 }
    ensures { Goes (plain step.now) (surroundings context.now) r.old next (contents memory.now) result r.new (contents memory.now) }
{
    let FlatStep::Choose1 {
        to,
        condition,
        one,
        zero,
    } = *step
    else {
        return Gone::Other;
    };
    let value = if read(r, condition) {
        read(r, one)
    } else {
        read(r, zero)
    };
    r.set1(to, value);
    Gone::Onward
}

/// `cmp_OP_b1_b1`.
#[inline]
pub fn compare1(
    context: &ItemContext<'_>,
    r: &mut Registers,
    next: usize,
    memory: &Memory,
    step: &FlatStep,
) -> Gone
    requires { next < 2 ^ 32 }
    ensures { Goes (plain step.now) (surroundings context.now) r.old next (contents memory.now) result r.new (contents memory.now) }
{
    let FlatStep::Compare1 {
        to,
        comparison,
        left,
        right,
    } = *step
    else {
        return Gone::Other;
    };
    let left = bit(read(r, left));
    let right = bit(read(r, right));
    let value = Number::compare_unsigned(comparison, left, right);
    r.set1(to, value);
    Gone::Onward
}
