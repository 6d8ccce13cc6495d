//! What operations compute of the registers.
ghost use Rattle.std.specs.Prelude.{◌≡◌, if◌then◌else◌};
ghost use Rattle.executor.specs.Values.{bit, value1, value32, value64};

use crate::number::Number;
use crate::registers::Registers;
use kernel_check::{ControlOperation, DoubleOperation, SingleOperation};

/// A bit as a number.
#[inline(always)]
pub fn bit(value: bool) -> u32
    ensures { result ≡ bit value }
{
    if value { 1 } else { 0 }
}

/// The first where the condition is 1, else the second (PRM, Conditional Move (cmov) Operation).
#[inline(always)]
fn choose<N: Copy>(condition: bool, one: N, zero: N) -> N
    ensures { result ≡ (if condition then one else zero) }
{
    if condition { one } else { zero }
}

/// What an operation puts into a `$c` register.
#[inline(always)]
pub fn value1(r: &Registers, operation: &ControlOperation) -> bool
    ensures { result ≡ value1 r.now operation.now }
{
    match operation {
        ControlOperation::Move(a) => r.read1(*a),
        ControlOperation::Not(a) => !r.read1(*a),
        ControlOperation::And(p) => r.read1(p.left) & r.read1(p.right),
        ControlOperation::Or(p) => r.read1(p.left) | r.read1(p.right),
        ControlOperation::Xor(p) => r.read1(p.left) ^ r.read1(p.right),
        ControlOperation::Choose(c) => r.read1(if r.read1(c.condition) { c.one } else { c.zero }),
        ControlOperation::Compare(c) => {
            let left = bit(r.read1(c.left));
            let right = bit(r.read1(c.right));
            Number::compare_unsigned(c.comparison, left, right)
        }
        ControlOperation::CompareUnsigned32(c) => {
            Number::compare_unsigned(c.comparison, r.read32(c.left), r.read32(c.right))
        }
        ControlOperation::CompareSigned32(c) => {
            Number::compare_signed(c.comparison, r.read32(c.left), r.read32(c.right))
        }
        ControlOperation::CompareUnsigned64(c) => {
            Number::compare_unsigned(c.comparison, r.read64(c.left), r.read64(c.right))
        }
        ControlOperation::CompareSigned64(c) => {
            Number::compare_signed(c.comparison, r.read64(c.left), r.read64(c.right))
        }
    }
}

/// What an operation puts into an `$s` register.
#[inline(always)]
pub fn value32(r: &Registers, operation: &SingleOperation) -> u32
    ensures { result ≡ value32 r.now operation.now }
{
    match operation {
        SingleOperation::Move(a) => r.read32(*a),
        SingleOperation::Not(a) => !r.read32(*a),
        SingleOperation::Add(p) => Number::add(r.read32(p.left), r.read32(p.right)),
        SingleOperation::Subtract(p) => Number::subtract(r.read32(p.left), r.read32(p.right)),
        SingleOperation::Multiply(p) => Number::multiply(r.read32(p.left), r.read32(p.right)),
        SingleOperation::MultiplyAdd(t) => {
            Number::multiply_add(r.read32(t.first), r.read32(t.second), r.read32(t.third))
        }
        SingleOperation::DivideUnsigned(p) => Number::divide_unsigned(
            r.read32(p.left),
            r.read32(p.right),
        ),
        SingleOperation::DivideSigned(p) => Number::divide_signed(
            r.read32(p.left),
            r.read32(p.right),
        ),
        SingleOperation::RemainderUnsigned(p) => Number::remainder_unsigned(
            r.read32(p.left),
            r.read32(p.right),
        ),
        SingleOperation::RemainderSigned(p) => Number::remainder_signed(
            r.read32(p.left),
            r.read32(p.right),
        ),
        SingleOperation::LeastUnsigned(p) => Number::least_unsigned(
            r.read32(p.left),
            r.read32(p.right),
        ),
        SingleOperation::LeastSigned(p) => Number::least_signed(
            r.read32(p.left),
            r.read32(p.right),
        ),
        SingleOperation::GreatestUnsigned(p) => Number::greatest_unsigned(
            r.read32(p.left),
            r.read32(p.right),
        ),
        SingleOperation::GreatestSigned(p) => Number::greatest_signed(
            r.read32(p.left),
            r.read32(p.right),
        ),
        SingleOperation::And(p) => r.read32(p.left) & r.read32(p.right),
        SingleOperation::Or(p) => r.read32(p.left) | r.read32(p.right),
        SingleOperation::Xor(p) => r.read32(p.left) ^ r.read32(p.right),
        SingleOperation::ShiftLeft(p) => Number::shift_left(r.read32(p.left), r.read32(p.right)),
        SingleOperation::ShiftRightUnsigned(p) => Number::shift_right_unsigned(
            r.read32(p.left),
            r.read32(p.right),
        ),
        SingleOperation::ShiftRightSigned(p) => Number::shift_right_signed(
            r.read32(p.left),
            r.read32(p.right),
        ),
        SingleOperation::Choose(c) => choose(
            r.read1(c.condition),
            r.read32(c.one),
            r.read32(c.zero),
        ),
    }
}

/// What an operation puts into a `$d` register.
#[inline(always)]
pub fn value64(r: &Registers, operation: &DoubleOperation) -> u64
    ensures { result ≡ value64 r.now operation.now }
{
    match operation {
        DoubleOperation::Move(a) => r.read64(*a),
        DoubleOperation::Not(a) => !r.read64(*a),
        DoubleOperation::Add(p) => Number::add(r.read64(p.left), r.read64(p.right)),
        DoubleOperation::Subtract(p) => Number::subtract(r.read64(p.left), r.read64(p.right)),
        DoubleOperation::Multiply(p) => Number::multiply(r.read64(p.left), r.read64(p.right)),
        DoubleOperation::MultiplyAdd(t) => {
            Number::multiply_add(r.read64(t.first), r.read64(t.second), r.read64(t.third))
        }
        DoubleOperation::DivideUnsigned(p) => Number::divide_unsigned(
            r.read64(p.left),
            r.read64(p.right),
        ),
        DoubleOperation::DivideSigned(p) => Number::divide_signed(
            r.read64(p.left),
            r.read64(p.right),
        ),
        DoubleOperation::RemainderUnsigned(p) => Number::remainder_unsigned(
            r.read64(p.left),
            r.read64(p.right),
        ),
        DoubleOperation::RemainderSigned(p) => Number::remainder_signed(
            r.read64(p.left),
            r.read64(p.right),
        ),
        DoubleOperation::LeastUnsigned(p) => Number::least_unsigned(
            r.read64(p.left),
            r.read64(p.right),
        ),
        DoubleOperation::LeastSigned(p) => Number::least_signed(
            r.read64(p.left),
            r.read64(p.right),
        ),
        DoubleOperation::GreatestUnsigned(p) => Number::greatest_unsigned(
            r.read64(p.left),
            r.read64(p.right),
        ),
        DoubleOperation::GreatestSigned(p) => Number::greatest_signed(
            r.read64(p.left),
            r.read64(p.right),
        ),
        DoubleOperation::And(p) => r.read64(p.left) & r.read64(p.right),
        DoubleOperation::Or(p) => r.read64(p.left) | r.read64(p.right),
        DoubleOperation::Xor(p) => r.read64(p.left) ^ r.read64(p.right),
        DoubleOperation::ShiftLeft(p) => Number::shift_left(r.read64(p.value), r.read32(p.count)),
        DoubleOperation::ShiftRightUnsigned(p) => Number::shift_right_unsigned(
            r.read64(p.value),
            r.read32(p.count),
        ),
        DoubleOperation::ShiftRightSigned(p) => Number::shift_right_signed(
            r.read64(p.value),
            r.read32(p.count),
        ),
        DoubleOperation::Choose(c) => choose(
            r.read1(c.condition),
            r.read64(c.one),
            r.read64(c.zero),
        ),
    }
}
