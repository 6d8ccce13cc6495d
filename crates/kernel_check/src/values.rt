//! Registers, constants and types, as steps have them.

ghost use Rattle.std.specs.Prelude.{◌≡◌};
ghost use Rattle.kernel_check.specs.Steps.{target_in, read_in, number_type, is_signed, register_number, register_of, source1_of, source32_of, source64_of, source_of};

use crate::constants::bits;
use crate::limits::MAX_REGISTER;
use crate::step::{
    AnyRegister, AnySource, NumberType, RegisterNumber, Source1, Source32, Source64,
};
use hsail_reader::{Constant, DataType, Operand, Register, RegisterClass, Source, TypedSource};

/// The register that an operand is.
pub fn target_in(operand: &Operand) -> Register
    ensures { result ≡ target_in operand.now }
{
    match operand {
        Operand::Target(target) => target.register,
        _ => Register {
            class: RegisterClass::Control,
            number: 0,
        },
    }
}

/// The source that an operand is, at its type.
pub fn read_in(operand: &Operand) -> TypedSource
    ensures { result ≡ read_in operand.now }
{
    match operand {
        Operand::Source(typed) => *typed,
        _ => TypedSource {
            kind: DataType::B1,
            source: Source::Constant(Constant {
                negative: false,
                magnitude: 0,
            }),
        },
    }
}

/// The type of a number in memory.
pub fn number_type(kind: DataType) -> NumberType
    ensures { result ≡ number_type kind }
{
    match kind {
        DataType::B1 => NumberType::B1,
        DataType::B8 | DataType::U8 => NumberType::U8,
        DataType::B16 | DataType::U16 => NumberType::U16,
        DataType::B32 | DataType::U32 => NumberType::U32,
        DataType::B64 | DataType::U64 => NumberType::U64,
        DataType::S8 => NumberType::S8,
        DataType::S16 => NumberType::S16,
        DataType::S32 => NumberType::S32,
        DataType::S64 => NumberType::S64,
    }
}

/// Whether a type has a sign.
pub fn is_signed(kind: DataType) -> bool
    ensures { result ≡ is_signed kind }
{
    match kind {
        DataType::S8 | DataType::S16 | DataType::S32 | DataType::S64 => true,
        _ => false,
    }
}

/// A register by its number.
pub fn register_number(register: Register) -> RegisterNumber
    ensures { result ≡ register_number register }
{
    if register.number > MAX_REGISTER {
        RegisterNumber::new(0)
    } else {
        RegisterNumber::new(register.number as u8)
    }
}

/// The register of a value of a type.
pub fn any_register(kind: DataType, register: Register) -> AnyRegister
    ensures { result ≡ register_of kind register }
{
    match kind.class() {
        RegisterClass::Control => AnyRegister::Control(register_number(register)),
        RegisterClass::Single => AnyRegister::Single(register_number(register)),
        RegisterClass::Double => AnyRegister::Double(register_number(register)),
    }
}

/// A source of one bit.
pub fn source1(typed: TypedSource) -> Source1
    ensures { result ≡ source1_of typed }
{
    match typed.source {
        Source::Register(register) => Source1::Register(register_number(register)),
        Source::Constant(constant) => Source1::Constant(bits(typed.kind, constant) == 1),
    }
}

/// A source of 8, 16 or 32 bits.
pub fn source32(typed: TypedSource) -> Source32
    ensures { result ≡ source32_of typed }
{
    match typed.source {
        Source::Register(register) => Source32::Register(register_number(register)),
        Source::Constant(constant) => {
            Source32::Constant((bits(typed.kind, constant) % (1 << 32)) as u32)
        }
    }
}

/// A source of 64 bits.
pub fn source64(typed: TypedSource) -> Source64
    ensures { result ≡ source64_of typed }
{
    match typed.source {
        Source::Register(register) => Source64::Register(register_number(register)),
        Source::Constant(constant) => Source64::Constant(bits(typed.kind, constant)),
    }
}

/// A source by the class of its type.
pub fn any_source(typed: TypedSource) -> AnySource
    ensures { result ≡ source_of typed }
{
    match typed.kind.class() {
        RegisterClass::Control => AnySource::Control(source1(typed)),
        RegisterClass::Single => AnySource::Single(source32(typed)),
        RegisterClass::Double => AnySource::Double(source64(typed)),
    }
}
