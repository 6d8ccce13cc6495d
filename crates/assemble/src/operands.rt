//! The words of a line one by one: each is read as what is wanted at its place, and what stands behind
//! it is told beside.

ghost use Rattle.std.specs.Prelude.{◌≡◌, ◌≤◌, IfOk, IfSome};
ghost use Rattle.assemble.specs.Sizes.{AreAtMost, AreGridSizes, AreGroupSizes};

use crate::fault::{Fault, Want};
use aql_packet::{Address, KernelObject, REGION_SPAN, SignalHandle};
use hsail_reader::DataType;
use policy::{Kind, Object, Policy};
use words::{decimal, is_word, natural, skip_blanks, split_item, split_word};

/// What a word stands for, and what stands behind it.
pub type Read<'a, T> = Result<(T, &'a [u8]), Fault>;

/// The fault at the first word of what is left of a line.
pub fn fault_at(line: &[u8], want: Want) -> Fault {
    Fault {
        left: skip_blanks(line).len(),
        want,
    }
}

/// The next word.
pub fn next(line: &[u8], want: Want) -> Read<'_, &[u8]> {
    match split_word(line) {
        Some(found) => Ok(found),
        None => Err(fault_at(line, want)),
    }
}

/// A word that stands for itself.
pub fn keyword<'a>(line: &'a [u8], spelled: &str, want: Want) -> Result<&'a [u8], Fault> {
    let (word, rest) = next(line, want)?;
    if is_word(word, spelled) {
        Ok(rest)
    } else {
        Err(fault_at(line, want))
    }
}

/// A decimal number, as it is spelled.
pub fn numeral(line: &[u8], want: Want) -> Read<'_, &[u8]> {
    let (word, rest) = next(line, want)?;
    match decimal(word) {
        Some(_) => Ok((word, rest)),
        None => Err(fault_at(line, want)),
    }
}

/// A number of 64 bits.
pub fn number(line: &[u8]) -> Read<'_, u64> {
    let (word, rest) = next(line, Want::Number)?;
    match natural(word) {
        Some(number) => Ok((number, rest)),
        None => Err(fault_at(line, Want::Number)),
    }
}

/// A number of 32 bits.
pub fn size(line: &[u8]) -> Read<'_, u32> {
    let (word, rest) = next(line, Want::Size)?;
    match natural(word) {
        Some(number) if number < 1 << 32 => Ok((number as u32, rest)),
        _ => Err(fault_at(line, Want::Size)),
    }
}

// The signal of a name.
fn signal_named(policy: &Policy, name: &[u8]) -> Option<SignalHandle> {
    match policy.object_named(Kind::Signal, name) {
        Object::Signal(signal) if signal.0 > 0 => Some(signal),
        _ => None,
    }
}

/// A signal by its name.
pub fn signal<'a>(policy: &Policy, line: &'a [u8], want: Want) -> Read<'a, SignalHandle> {
    let (name, rest) = next(line, want)?;
    match signal_named(policy, name) {
        Some(signal) => Ok((signal, rest)),
        None => Err(fault_at(line, want)),
    }
}

/// A kernel by its name.
pub fn kernel<'a>(policy: &Policy, line: &'a [u8]) -> Read<'a, KernelObject> {
    let (name, rest) = next(line, Want::Kernel)?;
    match policy.object_named(Kind::Kernel, name) {
        Object::Kernel(kernel) if kernel.0 > 0 => Ok((kernel, rest)),
        _ => Err(fault_at(line, Want::Kernel)),
    }
}

/// The begin of the region of a name.
pub fn region_start(policy: &Policy, name: &[u8]) -> Option<u64> {
    match policy.object_named(Kind::Region, name) {
        Object::Region(region) if region.0 > 0 => Some(region.0 as u64 * REGION_SPAN),
        _ => None,
    }
}

// What stands before the first `+`, and what stands behind it where there is one.
fn split_sum(word: &[u8]) -> (&[u8], Option<&[u8]>) {
    for (index, byte) in word.iter().enumerate() {
        if *byte == b'+' {
            let (front, behind) = word.split_at(index);
            return (front, Some(behind.split_at(1).1));
        }
    }
    (word, None)
}

// An offset in a region, below the next one's begin.
fn offset(word: Option<&[u8]>) -> Option<u64> {
    let Some(word) = word else {
        return Some(0);
    };
    match natural(word) {
        Some(offset) if offset < REGION_SPAN => Some(offset),
        _ => None,
    }
}

// The address that a word stands for: a number, or a region with an offset.
fn address_in(policy: &Policy, word: &[u8]) -> Option<u64> {
    if let Some(number) = natural(word) {
        return Some(number);
    }
    let (name, behind) = split_sum(word);
    region_start(policy, name)?.checked_add(offset(behind)?)
}

/// An address.
pub fn address<'a>(policy: &Policy, line: &'a [u8], want: Want) -> Read<'a, Address> {
    let (word, rest) = next(line, want)?;
    match address_in(policy, word) {
        Some(address) => Ok((Address(address), rest)),
        None => Err(fault_at(line, want)),
    }
}

// A negative number by the digits behind its sign, in so many bits: no less than the least that has its
// highest bit alone.
fn negative_in(bits: u32, digits: &[u8]) -> Option<u64> {
    let size = natural(digits)?;
    if size > 1u64 << bits.saturating_sub(1).min(63) {
        return None;
    }
    Some(0u64.wrapping_sub(size))
}

// A number that is no greater than the greatest of so many bits.
fn positive_in(bits: u32, number: u64) -> Option<u64> {
    if bits >= 64 || number < 1u64 << bits.min(63) {
        Some(number)
    } else {
        None
    }
}

// The value that a word stands for in so many bits, as their number.
fn value_in(policy: &Policy, bits: u32, word: &[u8]) -> Option<u64> {
    match word {
        [b'-', digits @ ..] => negative_in(bits, digits),
        _ => positive_in(bits, address_in(policy, word)?),
    }
}

// What is wanted of an argument of so many bits.
fn wanted_value(bits: u32) -> Want {
    match bits {
        8 => Want::Value8,
        16 => Want::Value16,
        32 => Want::Value32,
        _ => Want::Value64,
    }
}

/// A value of a kernel's argument: its low bits are those of the number that is told.
pub fn value<'a>(policy: &Policy, kind: DataType, line: &'a [u8]) -> Read<'a, u64> {
    let bits = kind.bits();
    let (word, rest) = next(line, wanted_value(bits))?;
    match value_in(policy, bits, word) {
        Some(value) => Ok((value, rest)),
        None => Err(fault_at(line, wanted_value(bits))),
    }
}

// Whether values of a type may be negative.
fn may_be_negative(kind: DataType) -> bool {
    match kind {
        DataType::U8 | DataType::U16 | DataType::U32 | DataType::U64 => false,
        _ => true,
    }
}

// Whether a type's values are numbers with a sign.
fn is_signed(kind: DataType) -> bool {
    match kind {
        DataType::S8 | DataType::S16 | DataType::S32 | DataType::S64 => true,
        _ => false,
    }
}

// An object that a word names: a region's begin with an offset, or a signal.
fn object_in(policy: &Policy, word: &[u8]) -> Option<u64> {
    match address_in(policy, word) {
        Some(address) => Some(address),
        None => Some(signal_named(policy, word)?.0),
    }
}

// The value of a type without a sign that a word stands for.
fn plain_value(policy: &Policy, kind: DataType, word: &[u8]) -> Option<u64> {
    let bits = kind.bits();
    match natural(word) {
        Some(number) if is_signed(kind) => positive_in(bits.saturating_sub(1), number),
        Some(number) => positive_in(bits, number),
        None if bits == 64 && !is_signed(kind) => object_in(policy, word),
        None => None,
    }
}

/// The value of a type that a word stands for: its low bits are those of the number that is told.
pub fn typed_value(policy: &Policy, kind: DataType, word: &[u8]) -> Option<u64> {
    match word {
        [b'-', digits @ ..] if may_be_negative(kind) => negative_in(kind.bits(), digits),
        [b'-', ..] => None,
        _ => plain_value(policy, kind, word),
    }
}

/// One to three sizes: how many there are, and 1 for those that there aren't.
#[derive(Clone, Copy)]
pub struct Sizes {
    pub count: u8,
    pub x: u32,
    pub y: u32,
    pub z: u32,
}

// A size, no greater than the most.
fn size_in(most: u32, item: &[u8]) -> Option<u32>
    ensures { IfSome result (λ size. size ≤ most) }
{
    let size = decimal(item)?;
    if size <= most as u64 {
        Some(size as u32)
    } else {
        None
    }
}

// The sizes behind the first.
fn sizes_behind(most: u32, x: u32, word: &[u8]) -> Option<Sizes>
    requires least { 1 ≤ most }
    requires x { x ≤ most }
    ensures { IfSome result (AreAtMost most) }
{
    let (item, further) = split_item(word);
    let y = size_in(most, item)?;
    match further {
        None => Some(Sizes {
            count: 2,
            x,
            y,
            z: 1,
        }),
        Some(last) => Some(Sizes {
            count: 3,
            x,
            y,
            z: size_in(most, last)?,
        }),
    }
}

// The sizes of a word, none greater than the most.
fn sizes_in(most: u32, word: &[u8]) -> Option<Sizes>
    requires { 1 ≤ most }
    ensures { IfSome result (AreAtMost most) }
{
    let (item, further) = split_item(word);
    let x = size_in(most, item)?;
    match further {
        None => Some(Sizes {
            count: 1,
            x,
            y: 1,
            z: 1,
        }),
        Some(behind) => sizes_behind(most, x, behind),
    }
}

/// The sizes of a grid.
pub fn grid_sizes(line: &[u8]) -> Read<'_, Sizes>
    ensures { IfOk result (λ read. AreGridSizes read.0) }
{
    let (word, rest) = next(line, Want::GridSizes)?;
    match sizes_in(u32::MAX, word) {
        Some(sizes) => Ok((sizes, rest)),
        None => Err(fault_at(line, Want::GridSizes)),
    }
}

/// The sizes of a work-group, as many as its grid has.
pub fn group_sizes(line: &[u8], count: u8) -> Read<'_, Sizes>
    ensures { IfOk result (λ read. AreGroupSizes read.0) }
{
    let (word, rest) = next(line, Want::GroupSizes)?;
    match sizes_in(u16::MAX as u32, word) {
        Some(sizes) if sizes.count == count => Ok((sizes, rest)),
        _ => Err(fault_at(line, Want::GroupSizes)),
    }
}
