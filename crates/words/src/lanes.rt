//! Hexadecimal digits, sixteen at a time.

ghost use Rattle.std.specs.Prelude.{◌≡◌, ◌+◌, ◌≤◌, length, map};
ghost use lib.Lanes.{put_chunk};
ghost use Rattle.words.specs.Bytes.{bytes_word};
ghost use Rattle.words.specs.inner.Lanes.{lane_value};

use std::simd::prelude::*;

// The value of each of sixteen digits, in either case; above 15 where a byte is none.
#[inline(always)]
fn values(digits: u8x16) -> u8x16
    ensures { result ≡ map lane_value digits }
{
    let figures = (digits + u8x16::splat(198)).saturating_sub(u8x16::splat(6)) + u8x16::splat(16);
    let capitals = digits & u8x16::splat(223);
    let letters = (capitals + u8x16::splat(191)).simd_min(u8x16::splat(245)) + u8x16::splat(10);
    figures.simd_min(letters)
}

/// The bytes of 32 digits, two digits each.
#[inline(always)]
pub(crate) fn sixteen_bytes(digits: &[u8]) -> Option<[u8; 16]>
    requires { length digits.now ≡ 32 }
    ensures { result ≡ bytes_word digits.now }
{
    let first = u8x16::from_slice(digits);
    let second = u8x16::from_slice(&digits[16..]);
    let (high, low) = first.deinterleave(second);
    let high = values(high);
    let low = values(low);
    let others = (high | low).simd_ge(u8x16::splat(16)).to_bitmask();
    if others == 0 {
        Some((high * u8x16::splat(16) + low).to_array())
    } else {
        None
    }
}

/// Lays sixteen bytes over others from a place on.
#[inline(always)]
pub(crate) fn lay_sixteen(bytes: &mut [u8], place: usize, sixteen: [u8; 16])
    requires { place + 16 ≤ length bytes.old }
    ensures { bytes.new ≡ put_chunk place bytes.old sixteen }
{
    u8x16::from_array(sixteen).copy_to_slice(&mut bytes[place..]);
}
