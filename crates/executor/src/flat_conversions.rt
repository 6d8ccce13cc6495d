//! Flat steps that convert a value to another type.
ghost use Rattle.std.specs.Prelude.{◌<◌, ◌^◌};
ghost use Rattle.kernel_check.specs.Flat.{plain};
ghost use Rattle.kernel_check.specs.declared.flat.FlatStep.TheVariants as flat;
ghost use Rattle.executor.specs.inner.Flat.{Goes};
ghost use Rattle.executor.specs.inner.Held.{contents, surroundings};

use crate::flat::Gone;
use crate::flat_values::convert_step;
use crate::item::ItemContext;
use crate::memory::Memory;
use crate::registers::Registers;
use kernel_check::{AnyRegister, AnySource, Conversion, ConvertStep, FromOne, NumberType, Source};

/// `cvt`, by its types and the classes of its registers.
macro_rules! conversion {
    ($context:ident, $r:ident, $next:ident, $memory:ident, $to:expr, $source:expr => $from:expr, $kind:expr, $from_class:ident, $to_class:ident) => {
        convert_step(
            $context,
            $r,
            $next,
            $memory,
            &ConvertStep {
                from: $from,
                to: $kind,
                target: AnyRegister::$to_class($to),
                source: AnySource::$from_class(Source::Register($source)),
            },
        )
    };
}

/// `cvt_s64_s32`.
#[inline]
pub fn widen_signed(
    context: &ItemContext<'_>,
    r: &mut Registers,
    next: usize,
    memory: &Memory,
    p: &FromOne,
) -> Gone
    requires { next < 2 ^ 32 }
    ensures { Goes (plain (flat.WidenSigned p.now)) (surroundings context.now) r.old next (contents memory.now) result r.new (contents memory.now) }
{
    conversion!(context, r, next, memory, p.to, p.source => NumberType::S32, NumberType::S64, Single, Double)
}

/// `cvt_u32_u64`.
#[inline]
pub fn narrow(
    context: &ItemContext<'_>,
    r: &mut Registers,
    next: usize,
    memory: &Memory,
    p: &FromOne,
) -> Gone
    requires { next < 2 ^ 32 }
    ensures { Goes (plain (flat.Narrow p.now)) (surroundings context.now) r.old next (contents memory.now) result r.new (contents memory.now) }
{
    conversion!(context, r, next, memory, p.to, p.source => NumberType::U64, NumberType::U32, Double, Single)
}

/// `cvt` of other types from a `$c` to a `$s` register.
#[inline]
pub fn convert_control_to_single(
    context: &ItemContext<'_>,
    r: &mut Registers,
    next: usize,
    memory: &Memory,
    p: &Conversion,
) -> Gone
    requires { next < 2 ^ 32 }
    ensures { Goes (plain (flat.ConvertControlToSingle p.now)) (surroundings context.now) r.old next (contents memory.now) result r.new (contents memory.now) }
{
    conversion!(context, r, next, memory, p.to, p.source => p.from, p.kind, Control, Single)
}

/// `cvt` of other types from a `$c` to a `$d` register.
#[inline]
pub fn convert_control_to_double(
    context: &ItemContext<'_>,
    r: &mut Registers,
    next: usize,
    memory: &Memory,
    p: &Conversion,
) -> Gone
    requires { next < 2 ^ 32 }
    ensures { Goes (plain (flat.ConvertControlToDouble p.now)) (surroundings context.now) r.old next (contents memory.now) result r.new (contents memory.now) }
{
    conversion!(context, r, next, memory, p.to, p.source => p.from, p.kind, Control, Double)
}

/// `cvt` of other types from a `$s` to a `$c` register.
#[inline]
pub fn convert_single_to_control(
    context: &ItemContext<'_>,
    r: &mut Registers,
    next: usize,
    memory: &Memory,
    p: &Conversion,
) -> Gone
    requires { next < 2 ^ 32 }
    ensures { Goes (plain (flat.ConvertSingleToControl p.now)) (surroundings context.now) r.old next (contents memory.now) result r.new (contents memory.now) }
{
    conversion!(context, r, next, memory, p.to, p.source => p.from, p.kind, Single, Control)
}

/// `cvt` of other types from a `$s` to a `$s` register.
#[inline]
pub fn convert_single_to_single(
    context: &ItemContext<'_>,
    r: &mut Registers,
    next: usize,
    memory: &Memory,
    p: &Conversion,
) -> Gone
    requires { next < 2 ^ 32 }
    ensures { Goes (plain (flat.ConvertSingleToSingle p.now)) (surroundings context.now) r.old next (contents memory.now) result r.new (contents memory.now) }
{
    conversion!(context, r, next, memory, p.to, p.source => p.from, p.kind, Single, Single)
}

/// `cvt` of other types from a `$s` to a `$d` register.
#[inline]
pub fn convert_single_to_double(
    context: &ItemContext<'_>,
    r: &mut Registers,
    next: usize,
    memory: &Memory,
    p: &Conversion,
) -> Gone
    requires { next < 2 ^ 32 }
    ensures { Goes (plain (flat.ConvertSingleToDouble p.now)) (surroundings context.now) r.old next (contents memory.now) result r.new (contents memory.now) }
{
    conversion!(context, r, next, memory, p.to, p.source => p.from, p.kind, Single, Double)
}

/// `cvt` of other types from a `$d` to a `$c` register.
#[inline]
pub fn convert_double_to_control(
    context: &ItemContext<'_>,
    r: &mut Registers,
    next: usize,
    memory: &Memory,
    p: &Conversion,
) -> Gone
    requires { next < 2 ^ 32 }
    ensures { Goes (plain (flat.ConvertDoubleToControl p.now)) (surroundings context.now) r.old next (contents memory.now) result r.new (contents memory.now) }
{
    conversion!(context, r, next, memory, p.to, p.source => p.from, p.kind, Double, Control)
}

/// `cvt` of other types from a `$d` to a `$s` register.
#[inline]
pub fn convert_double_to_single(
    context: &ItemContext<'_>,
    r: &mut Registers,
    next: usize,
    memory: &Memory,
    p: &Conversion,
) -> Gone
    requires { next < 2 ^ 32 }
    ensures { Goes (plain (flat.ConvertDoubleToSingle p.now)) (surroundings context.now) r.old next (contents memory.now) result r.new (contents memory.now) }
{
    conversion!(context, r, next, memory, p.to, p.source => p.from, p.kind, Double, Single)
}

/// `cvt` of other types from a `$d` to a `$d` register.
#[inline]
pub fn convert_double_to_double(
    context: &ItemContext<'_>,
    r: &mut Registers,
    next: usize,
    memory: &Memory,
    p: &Conversion,
) -> Gone
    requires { next < 2 ^ 32 }
    ensures { Goes (plain (flat.ConvertDoubleToDouble p.now)) (surroundings context.now) r.old next (contents memory.now) result r.new (contents memory.now) }
{
    conversion!(context, r, next, memory, p.to, p.source => p.from, p.kind, Double, Double)
}
