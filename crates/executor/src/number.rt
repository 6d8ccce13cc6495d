//! Integer operations on the 32 or 64 bits of a register (PRM, Arithmetic Operations). A type `s` reads the
//! bits in two's complement. Where no name says a sign, the bits of the result are the same for both.
ghost use Rattle.std.specs.Prelude.{◌≡◌, ℕ};
ghost use Rattle.std.specs.Int.{Width};
ghost use Rattle.executor.specs.Numbers.{Sign, unsigned, signed, number, computed, compared, wrapped, sum, difference, product, quotient, remainder, least, greatest, shifted_left, shifted_right};

use hsail_reader::Comparison;

/// The bits of an `$s` or a `$d` register: how many they are, and what a contract sees of them.
pub trait Number: Copy {
    ghost width: { Width };

    ghost value: { Self → ℕ };

    /// `add`: the sum, wrapping (PRM, Integer Arithmetic Operations).
    fn add(a: Self, b: Self) -> Self
        ensures { (sign : Sign) → value result ≡ computed sum sign width (value a) (value b) };

    /// `sub`: the difference, wrapping (PRM, Integer Arithmetic Operations).
    fn subtract(a: Self, b: Self) -> Self
        ensures { (sign : Sign) → value result ≡ computed difference sign width (value a) (value b) };

    /// `mul`: the low half of the product (PRM, Integer Arithmetic Operations).
    fn multiply(a: Self, b: Self) -> Self
        ensures { (sign : Sign) → value result ≡ computed product sign width (value a) (value b) };

    /// `mad`: the product of the first two and then the third added, wrapping once for all (PRM, Integer
    /// Arithmetic Operations).
    fn multiply_add(a: Self, b: Self, c: Self) -> Self
        ensures { (sign : Sign) → value result ≡
            wrapped width (sum (product (number sign width (value a)) (number sign width (value b))) (number sign width (value c))) };

    /// `div_uN`: the quotient rounded toward zero; by 0 it is 0 (PRM, Integer Arithmetic Operations;
    /// division by 0 is this project's own).
    fn divide_unsigned(a: Self, b: Self) -> Self
        ensures { value result ≡ computed quotient unsigned width (value a) (value b) };

    /// `div_sN`: the quotient rounded toward zero; by 0 it is 0, and the least number divided by -1 is
    /// itself (PRM, Integer Arithmetic Operations; those two are this project's own).
    fn divide_signed(a: Self, b: Self) -> Self
        ensures { value result ≡ computed quotient signed width (value a) (value b) };

    /// `rem_uN`: what the division leaves; by 0 it is 0 (PRM, Integer Arithmetic Operations; by 0 own).
    fn remainder_unsigned(a: Self, b: Self) -> Self
        ensures { value result ≡ computed remainder unsigned width (value a) (value b) };

    /// `rem_sN`: what the division leaves, with the sign of the first; by 0 it is 0 (PRM, Integer
    /// Arithmetic Operations; by 0 own).
    fn remainder_signed(a: Self, b: Self) -> Self
        ensures { value result ≡ computed remainder signed width (value a) (value b) };

    /// `min_uN`: the lesser of two (PRM, Integer Arithmetic Operations).
    fn least_unsigned(a: Self, b: Self) -> Self
        ensures { value result ≡ computed least unsigned width (value a) (value b) };

    /// `min_sN`: the lesser of two (PRM, Integer Arithmetic Operations).
    fn least_signed(a: Self, b: Self) -> Self
        ensures { value result ≡ computed least signed width (value a) (value b) };

    /// `max_uN`: the greater of two (PRM, Integer Arithmetic Operations).
    fn greatest_unsigned(a: Self, b: Self) -> Self
        ensures { value result ≡ computed greatest unsigned width (value a) (value b) };

    /// `max_sN`: the greater of two (PRM, Integer Arithmetic Operations).
    fn greatest_signed(a: Self, b: Self) -> Self
        ensures { value result ≡ computed greatest signed width (value a) (value b) };

    /// `shl`: the bits moved up by the count's low 5 or 6 bits, zeros below (PRM, Integer Shift Operations).
    fn shift_left(a: Self, count: u32) -> Self
        ensures { value result ≡ shifted_left width (value a) count };

    /// `shr_uN`: the bits moved down by the count's low 5 or 6 bits, zeros above (PRM, Integer Shift
    /// Operations).
    fn shift_right_unsigned(a: Self, count: u32) -> Self
        ensures { value result ≡ shifted_right unsigned width (value a) count };

    /// `shr_sN`: the bits moved down by the count's low 5 or 6 bits, copies of the sign above (PRM,
    /// Integer Shift Operations).
    fn shift_right_signed(a: Self, count: u32) -> Self
        ensures { value result ≡ shifted_right signed width (value a) count };

    /// `cmp` of `uN` and `bN` (PRM, Compare Operation).
    fn compare_unsigned(comparison: Comparison, a: Self, b: Self) -> bool
        ensures { result ≡ compared comparison (number unsigned width (value a)) (number unsigned width (value b)) };

    /// `cmp` of `sN` (PRM, Compare Operation).
    fn compare_signed(comparison: Comparison, a: Self, b: Self) -> bool
        ensures { result ≡ compared comparison (number signed width (value a)) (number signed width (value b)) };
}
