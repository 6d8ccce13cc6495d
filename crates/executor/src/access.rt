//! Accesses to the memory that is lent, and to what is written over it.
ghost use Rattle.std.specs.Prelude.{◌≡◌, ◌+◌, ◌/◌, ◌==◌, ◌≤◌, ◌^◌, None, Some, Ok, Err, IfOk, IfErr, OnOk, MatchResult, length, map, option_map};
ghost use Rattle.std.specs.Option.{option_copied};
ghost use Rattle.executor.specs.Accesses.{region_of, broken, lent, loaded, stored};
ghost use Rattle.executor.specs.Items.{lent_region};
ghost use Rattle.policy.specs.declared.rights.Right.TheVariants.{Read, Write};
ghost use Rattle.executor.specs.inner.Outcomes.{StoreFails};
ghost use Rattle.executor.specs.inner.Whole.{allowed_in, broken_first};
ghost use Rattle.executor.specs.inner.Pages.{byte_at};

use crate::held::HeldRegion;
use crate::view::View;
use crate::written::WrittenBytes;
use aql_packet::REGION_SPAN;
use policy::Right;
use queue_error::Rule;
use std::alloc::Global;

/// Why a store didn't take place.
#[derive(Clone, Copy)]
pub enum StoreError {
    OutOfMemory,
    Broke(Rule),
}

/// The held region that an address lies in.
#[inline(always)]
pub fn region_of<'v>(view: &'v View<'v>, address: u64) -> Option<&'v HeldRegion<'v>>
    ensures { option_map lent_region (option_copied result) ≡ region_of (map lent_region view.now) address }
{
    view.find(address)
}

/// The rule that an access breaks first, where it breaks one.
#[cold]
#[inline(never)]
fn first_broken(view: &View<'_>, right: Right, address: u64) -> Rule
    ensures { result ≡ broken_first (region_of (map lent_region view.now) address) right }
{
    match region_of(view, address) {
        None => Rule::A1,
        Some(region) => {
            if region.rights.has(right) {
                Rule::A3
            } else {
                Rule::A2
            }
        }
    }
}

/// The held region that an access of a size lies in as a whole, if its bytes may be read.
#[inline(always)]
fn readable_region_of<'v>(
    view: &'v View<'v>,
    address: u64,
    size: usize,
) -> Option<&'v HeldRegion<'v>>
    requires some { 1 ≤ size }
    requires few { size ≤ 8 }
    ensures { option_map lent_region (option_copied result) ≡ allowed_in Read (region_of (map lent_region view.now) address) address size }
{
    view.find_readable(address, size)
}

/// The same, if its bytes may be written.
#[inline(always)]
fn writable_region_of<'v>(
    view: &'v View<'v>,
    address: u64,
    size: usize,
) -> Option<&'v HeldRegion<'v>>
    requires some { 1 ≤ size }
    requires few { size ≤ 8 }
    ensures { option_map lent_region (option_copied result) ≡ allowed_in Write (region_of (map lent_region view.now) address) address size }
{
    view.find_writable(address, size)
}

/// The bytes that are lent for an access of a size that reads, or the rule that it breaks first.
#[inline(always)]
fn bytes_read<'v>(view: &'v View<'v>, address: u64, size: usize) -> Result<&'v [u8], Rule>
    requires some { 1 ≤ size }
    requires few { size ≤ 8 }
    ensures allowed { IfOk result (λ bytes. broken (map lent_region view.now) Read address size ≡ None) }
    ensures bytes { IfOk result (λ bytes. bytes.now ≡ lent (map lent_region view.now) address size) }
    ensures size { IfOk result (λ bytes. length bytes.now ≡ size) }
    ensures end { IfOk result (λ bytes. address + size ≤ 2 ^ 64) }
    ensures refused { IfErr result (λ rule. broken (map lent_region view.now) Read address size ≡ Some rule) }
{
    match readable_region_of(view, address, size) {
        None => Err(first_broken(view, Right::Read, address)),
        Some(region) => {
            let offset = (address % REGION_SPAN) as usize;
            Ok(&region.bytes[offset..offset + size])
        }
    }
}

/// That an access of a size may write, or the rule that it breaks first.
#[inline(always)]
fn may_write(view: &View<'_>, address: u64, size: usize) -> Result<(), Rule>
    requires some { 1 ≤ size }
    requires few { size ≤ 8 }
    ensures allowed { OnOk result (broken (map lent_region view.now) Write address size ≡ None) }
    ensures end { OnOk result (address + size ≤ 2 ^ 64) }
    ensures refused { IfErr result (λ rule. broken (map lent_region view.now) Write address size ≡ Some rule) }
{
    match writable_region_of(view, address, size) {
        None => Err(first_broken(view, Right::Write, address)),
        Some(_) => Ok(()),
    }
}

/// A load: what the addresses have, the lowest byte first, or the rule that it breaks first.
#[inline(always)]
pub fn load(view: &View<'_>, written: &WrittenBytes, address: u64, size: usize) -> Result<u64, Rule>
    requires some { 1 ≤ size }
    requires few { size ≤ 8 }
    ensures { result ≡ loaded (map lent_region view.now) (byte_at written.now) address size }
{
    match bytes_read(view, address, size) {
        Err(rule) => Err(rule),
        Ok(bytes) => Ok(written.read(address, bytes)),
    }
}

/// A store of a value's low bytes, the lowest first.
#[inline(always)]
pub fn store(
    alloc: Global,
    view: &View<'_>,
    written: &mut WrittenBytes,
    address: u64,
    size: usize,
    value: u64,
) -> Result<(), StoreError>
    requires some { 1 ≤ size }
    requires few { size ≤ 8 }
    ensures ok { OnOk result (stored (map lent_region view.now) (byte_at written.old) address size value ≡ Ok (byte_at written.new)) }
    ensures err { IfErr result (StoreFails (stored (map lent_region view.now) (byte_at written.old) address size value)) }
{
    match may_write(view, address, size) {
        Err(rule) => Err(StoreError::Broke(rule)),
        Ok(()) => match written.write(alloc, address, size, value) {
            Ok(()) => Ok(()),
            Err(_) => Err(StoreError::OutOfMemory),
        },
    }
}
