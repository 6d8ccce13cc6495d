//! What may be wrong with the operands of an instruction, whatever the names of its kernel.

ghost use Rattle.std.specs.Prelude.{◌≡◌};
ghost use Rattle.kernel_check.specs.Operands.{any_operand, is_far, is_far_address, is_far_place, is_of_other_class, is_over, is_over_source, is_same_class, is_wrong, is_wrong_source};

use crate::constants::in_range;
use crate::limits::{MAX_DIMENSION, MAX_REGISTER};
use hsail_reader::{
    Address, DataType, Operand, Operands, Register, RegisterClass, SegmentPlace, Source,
};

/// Whether two classes are one.
pub fn same_class(left: RegisterClass, right: RegisterClass) -> bool
    ensures { result ≡ is_same_class left right }
{
    matches!(
        (left, right),
        (RegisterClass::Control, RegisterClass::Control)
            | (RegisterClass::Single, RegisterClass::Single)
            | (RegisterClass::Double, RegisterClass::Double)
    )
}

/// Whether a register is of another class than a type's.
fn of_other_class(kind: DataType, register: Register) -> bool
    ensures { result ≡ is_of_other_class kind register }
{
    !same_class(kind.class(), register.class)
}

/// Whether a source is a register of another class than its type's.
fn wrong_source(kind: DataType, source: Source) -> bool
    ensures { result ≡ is_wrong_source kind source }
{
    match source {
        Source::Register(register) => of_other_class(kind, register),
        Source::Constant(_) => false,
    }
}

/// Whether an operand is a register of another class than its type's.
fn wrong(operand: &Operand) -> bool
    ensures { result ≡ is_wrong operand.now }
{
    match operand {
        Operand::Target(target) => of_other_class(target.kind, target.register),
        Operand::Source(source) => wrong_source(source.kind, source.source),
        _ => false,
    }
}

/// Whether some operand is a register of another class than its type's.
pub fn any_wrong(operands: &Operands) -> bool
    ensures { result ≡ any_operand is_wrong operands.now }
{
    wrong(&operands.first)
        || wrong(&operands.second)
        || wrong(&operands.third)
        || wrong(&operands.fourth)
}

/// Whether a register's number is over 63.
fn far(register: Register) -> bool
    ensures { result ≡ is_far register }
{
    register.number > MAX_REGISTER
}

/// Whether a source is a register whose number is over 63, or a constant out of its type's range.
fn over_source(kind: DataType, source: Source) -> bool
    ensures { result ≡ is_over_source kind source }
{
    match source {
        Source::Register(register) => far(register),
        Source::Constant(constant) => !in_range(kind, constant),
    }
}

/// Whether a place has a register whose number is over 63.
fn far_place(place: SegmentPlace) -> bool
    ensures { result ≡ is_far_place place }
{
    match place {
        SegmentPlace::Absolute(_) => false,
        SegmentPlace::Relative(relative) => far(relative.register),
    }
}

/// Whether an address has a register whose number is over 63.
fn far_address(address: &Address) -> bool
    ensures { result ≡ is_far_address address.now }
{
    match address {
        Address::Variable(_) => false,
        Address::Place(place) => far_place(*place),
        Address::Indexed(indexed) => far_place(indexed.place),
    }
}

/// Whether a number in an operand is too large.
fn over(operand: &Operand) -> bool
    ensures { result ≡ is_over operand.now }
{
    match operand {
        Operand::Target(target) => far(target.register),
        Operand::Source(source) => over_source(source.kind, source.source),
        Operand::Address(access) => far_address(&access.address),
        Operand::Dimension(number) => *number > MAX_DIMENSION,
        Operand::Absent | Operand::Label(_) => false,
    }
}

/// Whether a number in some operand is too large.
pub fn any_over(operands: &Operands) -> bool
    ensures { result ≡ any_operand is_over operands.now }
{
    over(&operands.first)
        || over(&operands.second)
        || over(&operands.third)
        || over(&operands.fourth)
}
