//! Addresses of memory (PRM, Address Expressions).
ghost use Rattle.std.specs.Prelude.{◌≡◌};
ghost use Rattle.executor.specs.Addresses.{address_of, group_address_of};

use crate::registers::Registers;
use kernel_check::{GroupPointer, Pointer};

/// The address of an access to global memory.
#[inline(always)]
pub fn address_of(registers: &Registers, pointer: Pointer) -> u64
    ensures { result ≡ address_of registers.now pointer }
{
    match pointer.base {
        None => pointer.offset,
        Some(number) => registers.double[number.index()].wrapping_add(pointer.offset),
    }
}

/// The address of an access to group memory.
#[inline(always)]
pub fn group_address_of(registers: &Registers, pointer: GroupPointer) -> u32
    ensures { result ≡ group_address_of registers.now pointer }
{
    match pointer.base {
        None => pointer.offset,
        Some(number) => registers.single[number.index()].wrapping_add(pointer.offset),
    }
}
