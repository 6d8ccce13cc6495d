//! The places of atomic operations, and the numbers at them.
ghost use Rattle.std.specs.Prelude.{◌≡◌, ◌+◌, ◌%◌, ◌≤◌, ◌^◌, None, Some, Ok, IfSome, IfOk, IfErr, OnOk, length, map, option_map, take};
ghost use Rattle.std.specs.Int.{w64, to_le_bytes};
ghost use Rattle.byteorder.specs.Endian.{little_number};
ghost use Rattle.executor.specs.Accesses.{atomic_broken, lent, region_of};
ghost use Rattle.executor.specs.Atomics.{place_of, put};
ghost use Rattle.executor.specs.Written.{seen};
ghost use Rattle.executor.specs.inner.Found.{global_number, group_number, number_found};
ghost use Rattle.executor.specs.inner.Pages.{byte_at, IsPage};
ghost use Rattle.executor.specs.inner.Room.{HasRoom};
ghost use Rattle.executor.specs.inner.Whole.{allowed_in, atomic_broken_first};
ghost use Rattle.policy.specs.declared.rights.Right.TheVariants.{Read, Write};
ghost use Rattle.std.specs.Option.{option_copied};
ghost use Rattle.executor.specs.inner.Held.{contents};
ghost use Rattle.executor.specs.Items.{lent_region};

use crate::access::region_of;
use crate::address::{address_of, group_address_of};
use crate::group_access;
use crate::held::HeldRegion;
use crate::memory::Memory;
use crate::registers::Registers;
use crate::view::View;
use crate::written::{KnownNumber, WrittenBytes};
use byteorder::{ByteOrder, LittleEndian};
use kernel_check::AtomicPointer;
use policy::Right;
use queue_error::{Rule, SegmentAddress};
use std::alloc::{AllocError, Global};

/// Where the operation at a pointer takes place.
#[inline(always)]
pub fn place_of(registers: &Registers, pointer: AtomicPointer) -> SegmentAddress
    ensures { result ≡ place_of registers.now pointer }
{
    match pointer {
        AtomicPointer::Global(pointer) => SegmentAddress::Global(address_of(registers, pointer)),
        AtomicPointer::Group(pointer) => SegmentAddress::Group(group_address_of(
            registers, pointer,
        )),
    }
}

/// The held region that an access of a size lies in as a whole, if its bytes may be read and written.
#[inline(always)]
fn changeable_region_of<'v>(
    view: &'v View<'v>,
    address: u64,
    size: usize,
) -> Option<&'v HeldRegion<'v>>
    requires some { 1 ≤ size }
    requires few { size ≤ 8 }
    ensures { option_map lent_region (option_copied result) ≡ allowed_in Write (allowed_in Read (region_of (map lent_region view.now) address) address size) address size }
{
    view.find_changeable(address, size)
}

/// The rule that an atomic access breaks first whose bytes may not be read and written.
#[cold]
#[inline(never)]
fn first_broken(view: &View<'_>, address: u64) -> Rule
    ensures { result ≡ atomic_broken_first (region_of (map lent_region view.now) address) }
{
    match region_of(view, address) {
        None => Rule::A1,
        Some(region) => {
            if region.rights.has(Right::Read) && region.rights.has(Right::Write) {
                Rule::A3
            } else {
                Rule::A2
            }
        }
    }
}

/// The bytes that are lent for an atomic access of a size, or the rule that it breaks first.
#[inline(always)]
fn atomic_access<'v>(view: &'v View<'v>, address: u64, size: usize) -> Result<&'v [u8], Rule>
    requires some { 1 ≤ size }
    requires few { size ≤ 8 }
    ensures allowed { IfOk result (λ bytes. atomic_broken (map lent_region view.now) address size ≡ None) }
    ensures bytes { IfOk result (λ bytes. bytes.now ≡ lent (map lent_region view.now) address size) }
    ensures size { IfOk result (λ bytes. length bytes.now ≡ size) }
    ensures end { IfOk result (λ bytes. address + size ≤ 2 ^ 64) }
    ensures refused { IfErr result (λ rule. atomic_broken (map lent_region view.now) address size ≡ Some rule) }
{
    match changeable_region_of(view, address, size) {
        None => Err(first_broken(view, address)),
        Some(region) => {
            if address % size as u64 != 0 {
                return Err(Rule::A4);
            }
            let offset = (address % (1 << 32)) as usize;
            Ok(&region.bytes[offset..offset + size])
        }
    }
}

/// The number of 32 bits that an access sees. That what it reads has no more bits is known of bytes in a buffer
/// alone, so a number that had more would be read there.
#[inline(always)]
fn read32(written: &WrittenBytes, address: u64, below: &[u8]) -> u32
    requires size { length below.now ≡ 4 }
    requires end { address + 4 ≤ 2 ^ 64 }
    ensures { result ≡ little_number 4 (seen (byte_at written.now) address below.now) }
{
    let number = written.read(address, below);
    if number < 1 << 32 {
        return number as u32;
    }
    read_bytes32(written, address, below)
}

/// The same from a buffer.
#[cold]
#[inline(never)]
fn read_bytes32(written: &WrittenBytes, address: u64, below: &[u8]) -> u32
    requires size { length below.now ≡ 4 }
    requires end { address + 4 ≤ 2 ^ 64 }
    ensures { result ≡ little_number 4 (seen (byte_at written.now) address below.now) }
{
    let mut bytes = [0; 4];
    bytes.copy_from_slice(below);
    written.load(address, &mut bytes);
    LittleEndian::read_u32(&bytes)
}

/// The number of 32 bits in global memory, or the rule that an operation on it breaks first.
#[inline(always)]
fn find_global32(view: &View<'_>, written: &WrittenBytes, address: u64) -> Result<u32, Rule>
    ensures found { result ≡ global_number (map lent_region view.now) (byte_at written.now) address 4 }
    ensures room { IfOk result (λ old. address + 4 ≤ 2 ^ 64) }
{
    match atomic_access(view, address, 4) {
        Err(rule) => Err(rule),
        Ok(below) => Ok(read32(written, address, below)),
    }
}

/// The number of 64 bits in global memory, or the rule that an operation on it breaks first.
#[inline(always)]
fn find_global64(view: &View<'_>, written: &WrittenBytes, address: u64) -> Result<u64, Rule>
    ensures found { result ≡ global_number (map lent_region view.now) (byte_at written.now) address 8 }
    ensures room { IfOk result (λ old. address + 8 ≤ 2 ^ 64) }
{
    match atomic_access(view, address, 8) {
        Err(rule) => Err(rule),
        Ok(below) => Ok(written.read(address, below)),
    }
}

/// The number of 32 bits in group memory, or the rule that an operation on it breaks first.
#[inline(always)]
fn find_group32(group: &[u8], address: u32) -> Result<u32, Rule>
    ensures found { result ≡ group_number group.now address 4 }
    ensures room { IfOk result (λ old. address + 4 ≤ length group.now) }
{
    match group_access::atomic_begin_of(group, address, 4) {
        Err(rule) => Err(rule),
        Ok(begin) => {
            let (_, bytes) = group.split_at(begin);
            Ok(LittleEndian::read_u32(bytes))
        }
    }
}

/// The number of 64 bits in group memory, or the rule that an operation on it breaks first.
#[inline(always)]
fn find_group64(group: &[u8], address: u32) -> Result<u64, Rule>
    ensures found { result ≡ group_number group.now address 8 }
    ensures room { IfOk result (λ old. address + 8 ≤ length group.now) }
{
    match group_access::atomic_begin_of(group, address, 8) {
        Err(rule) => Err(rule),
        Ok(begin) => {
            let (_, bytes) = group.split_at(begin);
            Ok(LittleEndian::read_u64(bytes))
        }
    }
}

/// The number of 32 bits at a place, or the rule that an operation on it breaks first.
#[inline(always)]
pub fn find32(view: &View<'_>, memory: &Memory, place: SegmentAddress) -> Result<u32, Rule>
    ensures found { result ≡ number_found (map lent_region view.now) (contents memory.now) place 4 }
    ensures room { IfOk result (λ old. HasRoom (contents memory.now) place 4) }
{
    match place {
        SegmentAddress::Global(address) => find_global32(view, &memory.written, address),
        SegmentAddress::Group(address) => find_group32(memory.group.as_slice(), address),
    }
}

/// The number of 64 bits at a place, or the rule that an operation on it breaks first.
#[inline(always)]
pub fn find64(view: &View<'_>, memory: &Memory, place: SegmentAddress) -> Result<u64, Rule>
    ensures found { result ≡ number_found (map lent_region view.now) (contents memory.now) place 8 }
    ensures room { IfOk result (λ old. HasRoom (contents memory.now) place 8) }
{
    match place {
        SegmentAddress::Global(address) => find_global64(view, &memory.written, address),
        SegmentAddress::Group(address) => find_group64(memory.group.as_slice(), address),
    }
}

/// Puts a number's low bytes at a place.
#[inline(always)]
pub fn put(
    alloc: Global,
    memory: &mut Memory,
    place: SegmentAddress,
    size: usize,
    value: u64,
) -> Result<(), AllocError>
    requires few { size ≤ 8 }
    requires room { HasRoom (contents memory.old) place size }
    ensures { OnOk result (contents memory.new ≡ put (contents memory.old) place (take size (to_le_bytes w64 value))) }
{
    match place {
        SegmentAddress::Global(address) => memory.written.write(alloc, address, size, value),
        SegmentAddress::Group(address) => {
            let bytes = value.to_le_bytes();
            let (low, _) = bytes.split_at(size);
            group_access::put(memory.group.as_mut_slice(), address as usize, low);
            Ok(())
        }
    }
}

/// A number of global memory that an operation may change, if all its bytes are written in the chunk at hand.
#[inline(always)]
pub fn known_number(
    view: &View<'_>,
    written: &WrittenBytes,
    address: u64,
    size: usize,
) -> Option<KnownNumber>
    requires some { 1 ≤ size }
    requires few { size ≤ 8 }
    ensures number { IfSome result (λ known. global_number (map lent_region view.now) (byte_at written.now) address size ≡ Ok known.number) }
    ensures place { IfSome result (λ known. IsPage written.now address known.chunk known.page) }
    ensures page { IfSome result (λ known. address % 64 + size ≤ 64) }
{
    match changeable_region_of(view, address, size) {
        None => None,
        Some(_) => {
            if address % size as u64 != 0 {
                return None;
            }
            written.read_whole(address, size)
        }
    }
}
