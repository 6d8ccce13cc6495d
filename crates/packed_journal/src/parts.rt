//! Bytes, flags and digests.

ghost use Rattle.std.specs.Prelude.{◌≡◌, ◌++◌, ◌+◌, ◌≤◌, ◌<◌, IfSome, is_ok, length, take, if◌then◌else◌, option_map, vec_capacity, vec_len};
ghost use Rattle.packed_journal.specs.Words.{Bytes, Flags, Digest, appended, packed, bits_of, split_at, flags_of, flags_at, digest_at, seen};

use crate::numbers::{byte_at, write_number, write_tag};
use std::alloc::AllocError;

/// Takes what was added back, where memory was refused for what stands behind it.
pub(crate) fn undone(
    out: &mut Vec<u8>,
    before: usize,
    made: Result<(), AllocError>,
) -> Result<(), AllocError>
    ensures items { out.new.items ≡ (if is_ok result then out.old.items else take before out.old.items) }
    ensures made { result ≡ made }
{
    match made {
        Ok(()) => Ok(()),
        Err(why) => {
            out.truncate(before);
            Err(why)
        }
    }
}

/// Writes bytes behind their count. Where memory is refused nothing changes.
pub fn write_bytes(out: &mut Vec<u8>, bytes: &[u8]) -> Result<(), AllocError>
    ensures { out.new.items ≡ appended result out.old.items (packed (Bytes bytes.now)) }
{
    let before = out.len();
    write_number(out, bytes.len() as u64)?;
    let made = out.extend_from_slice(bytes);
    undone(out, before, made)
}

// Puts bytes, for which there is room.
pub(crate) fn put_bytes(out: &mut Vec<u8>, bytes: &[u8])
    requires { vec_len out.old + length bytes.now ≤ vec_capacity out.old }
    ensures items { out.new.items ≡ out.old.items ++ bytes.now }
    ensures len { vec_len out.new ≡ vec_len out.old + length bytes.now }
    ensures capacity { vec_capacity out.old ≤ vec_capacity out.new }
{
    let _put = out.extend_from_slice(bytes);
}

/// So many bytes.
pub(crate) fn split_at(count: u64, bytes: &[u8]) -> Option<(&[u8], &[u8])>
    ensures read { option_map (λ read. (read.0.now, read.1.now)) result ≡ split_at count bytes.now }
    ensures count { IfSome result (λ read. length read.0.now ≡ count) }
{
    if count <= bytes.len() as u64 {
        Some(bytes.split_at(count as usize))
    } else {
        None
    }
}

/// A digest's 32 bytes.
pub fn digest_at(bytes: &[u8]) -> Option<([u8; 32], &[u8])>
    ensures { seen result ≡ digest_at bytes.now }
{
    let (digest, rest) = split_at(32, bytes)?;
    let mut read = [0; 32];
    read.copy_from_slice(digest);
    Some((read, rest))
}

// Five flags, of their bits.
#[tactic(auto, unfolding(crate::specs::Words::flags_in))]
fn flags_of(bits: u8) -> Option<[bool; 5]>
    ensures { result ≡ flags_of bits }
{
    if bits < 32 {
        let second = bits / 2;
        let third = second / 2;
        let fourth = third / 2;
        let fifth = fourth / 2;
        Some([
            bits % 2 == 1,
            second % 2 == 1,
            third % 2 == 1,
            fourth % 2 == 1,
            fifth % 2 == 1,
        ])
    } else {
        None
    }
}

/// Five flags.
pub fn flags_at(bytes: &[u8]) -> Option<([bool; 5], &[u8])>
    ensures { seen result ≡ flags_at bytes.now }
{
    let (bits, rest) = byte_at(bytes)?;
    Some((flags_of(bits)?, rest))
}

// A flag's bit.
fn bit(set: bool) -> u8
    ensures value { result ≡ (if set then 1 else 0) }
    ensures few { result < 2 }
{
    if set { 1 } else { 0 }
}

// The bits of five flags.
#[tactic(auto, unfolding(crate::specs::Words::bits_of))]
fn bits_of(flags: &[bool; 5]) -> u8
    ensures { result ≡ bits_of flags.now }
{
    let [first, second, third, fourth, fifth] = *flags;
    bit(first) + 2 * (bit(second) + 2 * (bit(third) + 2 * (bit(fourth) + 2 * bit(fifth))))
}

/// Writes five flags. Where memory is refused nothing changes.
pub fn write_flags(out: &mut Vec<u8>, flags: &[bool; 5]) -> Result<(), AllocError>
    ensures { out.new.items ≡ appended result out.old.items (packed (Flags flags.now)) }
{
    write_tag(out, bits_of(flags))
}

/// Writes a digest's 32 bytes. Where memory is refused nothing changes.
pub fn write_digest(out: &mut Vec<u8>, digest: &[u8; 32]) -> Result<(), AllocError>
    ensures { out.new.items ≡ appended result out.old.items (packed (Digest digest.now)) }
{
    out.extend_from_slice(digest)
}
