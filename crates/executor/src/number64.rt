//! Integer operations on the 64 bits of a register (PRM, Arithmetic Operations), as `Number` says.
ghost use Rattle.std.specs.Int.{w64};

use crate::number::Number;
use hsail_reader::Comparison;

impl Number for u64 {
    ghost width = { w64 };

    ghost value = { λ n. n };

    #[inline(always)]
    fn add(a: u64, b: u64) -> u64 {
        a.wrapping_add(b)
    }

    #[inline(always)]
    fn subtract(a: u64, b: u64) -> u64 {
        a.wrapping_sub(b)
    }

    #[inline(always)]
    fn multiply(a: u64, b: u64) -> u64 {
        a.wrapping_mul(b)
    }

    #[inline(always)]
    fn multiply_add(a: u64, b: u64, c: u64) -> u64 {
        a.wrapping_mul(b).wrapping_add(c)
    }

    #[inline(always)]
    fn divide_unsigned(a: u64, b: u64) -> u64 {
        if b == 0 {
            return 0;
        }
        a / b
    }

    #[inline(always)]
    fn divide_signed(a: u64, b: u64) -> u64 {
        if b == 0 {
            return 0;
        }
        a.cast_signed()
            .wrapping_div(b.cast_signed())
            .cast_unsigned()
    }

    #[inline(always)]
    fn remainder_unsigned(a: u64, b: u64) -> u64 {
        if b == 0 {
            return 0;
        }
        a % b
    }

    #[inline(always)]
    fn remainder_signed(a: u64, b: u64) -> u64 {
        if b == 0 {
            return 0;
        }
        a.cast_signed()
            .wrapping_rem(b.cast_signed())
            .cast_unsigned()
    }

    #[inline(always)]
    fn least_unsigned(a: u64, b: u64) -> u64 {
        if b < a { b } else { a }
    }

    #[inline(always)]
    fn least_signed(a: u64, b: u64) -> u64 {
        if b.cast_signed() < a.cast_signed() {
            b
        } else {
            a
        }
    }

    #[inline(always)]
    fn greatest_unsigned(a: u64, b: u64) -> u64 {
        if b < a { a } else { b }
    }

    #[inline(always)]
    fn greatest_signed(a: u64, b: u64) -> u64 {
        if b.cast_signed() < a.cast_signed() {
            a
        } else {
            b
        }
    }

    #[inline(always)]
    fn shift_left(a: u64, count: u32) -> u64 {
        a.wrapping_shl(count)
    }

    #[inline(always)]
    fn shift_right_unsigned(a: u64, count: u32) -> u64 {
        a.wrapping_shr(count)
    }

    #[inline(always)]
    fn shift_right_signed(a: u64, count: u32) -> u64 {
        a.cast_signed().wrapping_shr(count).cast_unsigned()
    }

    #[inline(always)]
    fn compare_unsigned(comparison: Comparison, a: u64, b: u64) -> bool {
        match comparison {
            Comparison::Equal => a == b,
            Comparison::NotEqual => a != b,
            Comparison::Less => a < b,
            Comparison::LessOrEqual => a <= b,
            Comparison::Greater => a > b,
            Comparison::GreaterOrEqual => a >= b,
        }
    }

    #[inline(always)]
    fn compare_signed(comparison: Comparison, a: u64, b: u64) -> bool {
        let first = a.cast_signed();
        let second = b.cast_signed();
        match comparison {
            Comparison::Equal => first == second,
            Comparison::NotEqual => first != second,
            Comparison::Less => first < second,
            Comparison::LessOrEqual => first <= second,
            Comparison::Greater => first > second,
            Comparison::GreaterOrEqual => first >= second,
        }
    }
}
