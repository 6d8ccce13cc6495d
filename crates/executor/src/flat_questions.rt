//! Flat steps that load an argument or ask for an item's place.
ghost use Rattle.std.specs.Prelude.{◌<◌, ◌^◌};
ghost use Rattle.kernel_check.specs.Flat.{plain};
ghost use Rattle.kernel_check.specs.declared.flat.FlatStep.TheVariants as flat;
ghost use Rattle.executor.specs.inner.Flat.{Goes};
ghost use Rattle.executor.specs.inner.Held.{contents, surroundings};

use crate::flat::Gone;
use crate::flat_accesses::{absolute, answer, argument_step};
use crate::flat_sources::{kind8, kind16, kind32, kind64};
use crate::item::ItemContext;
use crate::memory::Memory;
use crate::registers::Registers;
use kernel_check::{AnyRegister, ArgumentAt, ArgumentStep, PlaceIn, Question};

/// `ld_kernarg`, by its size and the class of its target.
macro_rules! argument {
    ($context:ident, $r:ident, $next:ident, $memory:ident, $p:ident => $kind:ident, $class:ident) => {
        argument_step(
            $context,
            $r,
            $next,
            $memory,
            &ArgumentStep {
                kind: $kind($p.sign),
                target: AnyRegister::$class($p.to),
                offset: $p.offset,
            },
        )
    };
}

/// `ld_kernarg` of 8 bits.
#[inline]
pub fn argument8(
    context: &ItemContext<'_>,
    r: &mut Registers,
    next: usize,
    memory: &Memory,
    p: &ArgumentAt,
) -> Gone
    requires { next < 2 ^ 32 }
    ensures { Goes (plain (flat.Argument8 p.now)) (surroundings context.now) r.old next (contents memory.now) result r.new (contents memory.now) }
{
    argument!(context, r, next, memory, p => kind8, Single)
}

/// `ld_kernarg` of 16 bits.
#[inline]
pub fn argument16(
    context: &ItemContext<'_>,
    r: &mut Registers,
    next: usize,
    memory: &Memory,
    p: &ArgumentAt,
) -> Gone
    requires { next < 2 ^ 32 }
    ensures { Goes (plain (flat.Argument16 p.now)) (surroundings context.now) r.old next (contents memory.now) result r.new (contents memory.now) }
{
    argument!(context, r, next, memory, p => kind16, Single)
}

/// `ld_kernarg` of 32 bits.
#[inline]
pub fn argument32(
    context: &ItemContext<'_>,
    r: &mut Registers,
    next: usize,
    memory: &Memory,
    p: &ArgumentAt,
) -> Gone
    requires { next < 2 ^ 32 }
    ensures { Goes (plain (flat.Argument32 p.now)) (surroundings context.now) r.old next (contents memory.now) result r.new (contents memory.now) }
{
    argument!(context, r, next, memory, p => kind32, Single)
}

/// `ld_kernarg` of 64 bits.
#[inline]
pub fn argument64(
    context: &ItemContext<'_>,
    r: &mut Registers,
    next: usize,
    memory: &Memory,
    p: &ArgumentAt,
) -> Gone
    requires { next < 2 ^ 32 }
    ensures { Goes (plain (flat.Argument64 p.now)) (surroundings context.now) r.old next (contents memory.now) result r.new (contents memory.now) }
{
    argument!(context, r, next, memory, p => kind64, Double)
}

/// A query of 32 bits.
#[inline]
pub fn answer32(
    context: &ItemContext<'_>,
    r: &mut Registers,
    next: usize,
    memory: &Memory,
    p: &Question,
) -> Gone
    requires { next < 2 ^ 32 }
    ensures { Goes (plain (flat.Answer32 p.now)) (surroundings context.now) r.old next (contents memory.now) result r.new (contents memory.now) }
{
    answer(
        context,
        r,
        next,
        memory,
        p.query,
        AnyRegister::Single(p.to),
        p.dimension,
    )
}

/// `workitemabsid_u32`.
#[inline]
pub fn absolute32(
    context: &ItemContext<'_>,
    r: &mut Registers,
    next: usize,
    memory: &Memory,
    p: &PlaceIn,
) -> Gone
    requires { next < 2 ^ 32 }
    ensures { Goes (plain (flat.Absolute32 p.now)) (surroundings context.now) r.old next (contents memory.now) result r.new (contents memory.now) }
{
    absolute(
        context,
        r,
        next,
        memory,
        AnyRegister::Single(p.to),
        p.dimension,
    )
}

/// A query of 64 bits.
#[inline]
pub fn answer64(
    context: &ItemContext<'_>,
    r: &mut Registers,
    next: usize,
    memory: &Memory,
    p: &Question,
) -> Gone
    requires { next < 2 ^ 32 }
    ensures { Goes (plain (flat.Answer64 p.now)) (surroundings context.now) r.old next (contents memory.now) result r.new (contents memory.now) }
{
    answer(
        context,
        r,
        next,
        memory,
        p.query,
        AnyRegister::Double(p.to),
        p.dimension,
    )
}

/// `workitemabsid_u64`.
#[inline]
pub fn absolute64(
    context: &ItemContext<'_>,
    r: &mut Registers,
    next: usize,
    memory: &Memory,
    p: &PlaceIn,
) -> Gone
    requires { next < 2 ^ 32 }
    ensures { Goes (plain (flat.Absolute64 p.now)) (surroundings context.now) r.old next (contents memory.now) result r.new (contents memory.now) }
{
    absolute(
        context,
        r,
        next,
        memory,
        AnyRegister::Double(p.to),
        p.dimension,
    )
}
