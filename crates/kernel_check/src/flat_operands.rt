//! Sources as operands of flat steps.

ghost use Rattle.std.specs.Prelude.{◌≡◌, IfSome, true, false};
ghost use Rattle.kernel_check.specs.Flat.{bit_source, maybe, source_of};

use crate::flat_parts::{Bit, MaybeRegister, Operand};
use crate::step::{RegisterNumber, Source, Source1, Source32, Source64};

/// A register as an operand.
pub(crate) fn register_operand(number: RegisterNumber) -> Operand
    ensures { result ≡ record { is_register = true; number = number } }
{
    Operand {
        is_register: true,
        number,
    }
}

/// The step's constant as an operand.
pub(crate) fn constant_operand() -> Operand
    ensures { result ≡ record { is_register = false; number = 0 } }
{
    Operand {
        is_register: false,
        number: RegisterNumber::new(0),
    }
}

/// A register or none.
pub(crate) fn maybe_register(register: Option<RegisterNumber>) -> MaybeRegister
    ensures { maybe result ≡ register }
{
    match register {
        Some(number) => MaybeRegister {
            is_register: true,
            number,
        },
        None => MaybeRegister {
            is_register: false,
            number: RegisterNumber::new(0),
        },
    }
}

/// A source of one bit.
pub(crate) fn bit(source: Source1) -> Bit
    ensures { bit_source result ≡ source }
{
    match source {
        Source::Register(number) => Bit {
            is_register: true,
            number,
            constant: false,
        },
        Source::Constant(constant) => Bit {
            is_register: false,
            number: RegisterNumber::new(0),
            constant,
        },
    }
}

/// The first constant among three sources, or 0.
pub(crate) fn constant32(first: Source32, second: Source32, third: Source32) -> u32 {
    if let Source::Constant(constant) = first {
        return constant;
    }
    if let Source::Constant(constant) = second {
        return constant;
    }
    match third {
        Source::Constant(constant) => constant,
        Source::Register(_) => 0,
    }
}

/// A source as an operand beside a constant, if it is no other constant.
pub(crate) fn operand32(source: Source32, constant: u32) -> Option<Operand>
    ensures { IfSome result (λ operand. source_of operand constant ≡ source) }
{
    match source {
        Source::Register(number) => Some(register_operand(number)),
        Source::Constant(own) => if own == constant {
            Some(constant_operand())
        } else {
            None
        },
    }
}

/// The first constant among three sources, or 0.
pub(crate) fn constant64(first: Source64, second: Source64, third: Source64) -> u64 {
    if let Source::Constant(constant) = first {
        return constant;
    }
    if let Source::Constant(constant) = second {
        return constant;
    }
    match third {
        Source::Constant(constant) => constant,
        Source::Register(_) => 0,
    }
}

/// A source as an operand beside a constant, if it is no other constant.
pub(crate) fn operand64(source: Source64, constant: u64) -> Option<Operand>
    ensures { IfSome result (λ operand. source_of operand constant ≡ source) }
{
    match source {
        Source::Register(number) => Some(register_operand(number)),
        Source::Constant(own) => if own == constant {
            Some(constant_operand())
        } else {
            None
        },
    }
}

/// A number of 64 bits that has 32.
pub(crate) fn short(number: u64) -> Option<u32>
    ensures { IfSome result (λ few. few ≡ number) }
{
    if number < 1 << 32 {
        Some(number as u32)
    } else {
        None
    }
}

/// A source of 64 bits as one of 32, if it is a register or has no more.
pub(crate) fn short_source(source: Source64) -> Option<Source32>
    ensures { IfSome result (λ few. few ≡ source) }
{
    match source {
        Source::Register(number) => Some(Source::Register(number)),
        Source::Constant(constant) => match short(constant) {
            Some(constant) => Some(Source::Constant(constant)),
            None => None,
        },
    }
}
