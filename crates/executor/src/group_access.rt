//! Accesses to group memory.
ghost use Rattle.std.specs.Prelude.{◌≡◌, ◌+◌, ◌≤◌, None, Some, Ok, Err, IfOk, IfErr, OnOk, length, take, drop};
ghost use Rattle.executor.specs.Accesses.{group_atomic_broken, group_broken, group_loaded, group_stored, overlaid};

use crate::word;
use queue_error::Rule;

/// Where the bytes of an access begin, or the rule that it breaks.
#[inline(always)]
pub fn begin_of(group: &[u8], address: u32, size: usize) -> Result<usize, Rule>
    requires { size ≤ 8 }
    ensures allowed { IfOk result (λ begin. group_broken group.now address size ≡ None) }
    ensures begin { IfOk result (λ begin. begin ≡ address) }
    ensures end { IfOk result (λ begin. begin + size ≤ length group.now) }
    ensures refused { IfErr result (λ rule. group_broken group.now address size ≡ Some rule) }
{
    let begin = address as usize;
    if begin + size <= group.len() {
        Ok(begin)
    } else {
        Err(Rule::A7)
    }
}

/// Where the bytes of an atomic access begin, or the rule that it breaks first.
#[inline(always)]
pub fn atomic_begin_of(group: &[u8], address: u32, size: usize) -> Result<usize, Rule>
    requires some { 1 ≤ size }
    requires few { size ≤ 8 }
    ensures allowed { IfOk result (λ begin. group_atomic_broken group.now address size ≡ None) }
    ensures begin { IfOk result (λ begin. begin ≡ address) }
    ensures end { IfOk result (λ begin. begin + size ≤ length group.now) }
    ensures refused { IfErr result (λ rule. group_atomic_broken group.now address size ≡ Some rule) }
{
    let begin = begin_of(group, address, size)?;
    if begin % size == 0 {
        Ok(begin)
    } else {
        Err(Rule::A4)
    }
}

/// A load: what the bytes have, the lowest first, or the rule that it breaks.
#[inline(always)]
pub fn load(group: &[u8], address: u32, size: usize) -> Result<u64, Rule>
    requires some { 1 ≤ size }
    requires few { size ≤ 8 }
    ensures { result ≡ group_loaded group.now address size }
{
    match begin_of(group, address, size) {
        Err(rule) => Err(rule),
        Ok(begin) => {
            let (_, bytes) = group.split_at(begin);
            Ok(word::read(bytes, size))
        }
    }
}

/// Lays bytes over group memory from an address on.
#[inline(always)]
pub fn put(group: &mut [u8], begin: usize, bytes: &[u8])
    requires { begin + length bytes.now ≤ length group.old }
    ensures { group.new ≡ overlaid group.old begin bytes.now }
{
    group[begin..begin + bytes.len()].copy_from_slice(bytes);
}

/// A store of a value's low bytes, the lowest first.
#[inline(always)]
pub fn store(group: &mut [u8], address: u32, size: usize, value: u64) -> Result<(), Rule>
    requires { size ≤ 8 }
    ensures ok { OnOk result (group_stored group.old address size value ≡ Ok group.new) }
    ensures err { IfErr result (λ rule. group_stored group.old address size value ≡ Err rule) }
{
    match begin_of(group, address, size) {
        Err(rule) => Err(rule),
        Ok(begin) => {
            let bytes = value.to_le_bytes();
            let (low, _) = bytes.split_at(size);
            put(group, begin, low);
            Ok(())
        }
    }
}
