//! The line by which a client writes the argument block of a kernel.

ghost use Rattle.std.specs.Prelude.{◌≡◌, ◌++◌, [], IfOk, List, OnOk, length, ℕ};
ghost use Rattle.assemble.specs.Blocks.{block_from};
ghost use Rattle.assemble.specs.Writes.{Writes, block_line, write_line};

use crate::block::laid;
use crate::book::{Book, KernelShape};
use crate::fault::{LineError, Want};
use crate::named::read_named;
use crate::operands::{Read, address, fault_at, kernel, next, region_start};
use crate::places::Places;
use crate::spacing::put_word;
use aql_packet::Address;
use policy::Policy;
use std::alloc::{AllocError, Global};
use words::{natural, put_address, put_bytes, split_word};

// Puts the line by which a client writes bytes behind a text.
fn put_write(
    out: &mut Vec<u8>,
    writer: &[u8],
    place: Address,
    block: &[u8],
) -> Result<(), AllocError>
    ensures { OnOk result (out.new.items ≡ out.old.items ++ write_line writer.now place block.now) }
{
    put_word(out, b"write")?;
    put_word(out, writer)?;
    put_address(out, place)?;
    out.push(b' ')?;
    put_bytes(out, block)?;
    Ok(out.push(b'\n')?)
}

/// Puts the line by which a client writes an argument block behind a text; there is none for an empty block.
pub fn put_block(
    out: &mut Vec<u8>,
    writer: &[u8],
    place: Address,
    block: &[u8],
) -> Result<(), AllocError>
    ensures { OnOk result (out.new.items ≡ out.old.items ++ block_line writer.now place block.now) }
{
    if block.is_empty() {
        return Ok(());
    }
    put_write(out, writer, place, block)
}

/// Where a block is to lie: an address, or a region by its name, in which it comes behind the blocks that lie there.
pub fn read_place<'a>(policy: &Policy, places: &Places, line: &'a [u8]) -> Read<'a, Address> {
    let (word, rest) = next(line, Want::Place)?;
    match region_start(policy, word) {
        Some(start) if natural(word).is_none() => Ok((places.next_in(start), rest)),
        _ => address(policy, line, Want::Place),
    }
}

/// The block of a kernel by its arguments' names, and what stands behind them.
pub fn read_named_block<'a>(
    alloc: Global,
    policy: &Policy,
    shape: &KernelShape,
    line: &'a [u8],
) -> Result<(Vec<u8>, &'a [u8]), LineError>
    ensures { IfOk result (λ read. (values : List ℕ) × (length values ≡ length shape.now.arguments) × (read.0.items ≡ block_from [] shape.now.arguments values)) }
{
    let (values, rest) = read_named(alloc, policy, shape, line)?;
    let block = laid(alloc, shape.arguments.as_slice(), values.as_slice())?;
    Ok((block, rest))
}

// The client who writes.
fn read_writer<'a>(policy: &Policy, line: &'a [u8]) -> Read<'a, &'a [u8]> {
    let (word, rest) = next(line, Want::Client)?;
    if policy.client_named(word).0 == 0 {
        return Err(fault_at(line, Want::Client));
    }
    Ok((word, rest))
}

// Puts the line by which a client writes a kernel's arguments there, which stand in the rest of the line.
fn put_named(
    alloc: Global,
    policy: &Policy,
    shape: &KernelShape,
    writer: &[u8],
    place: Address,
    line: &[u8],
    out: &mut Vec<u8>,
) -> Result<usize, LineError>
    ensures { OnOk result (Writes writer.now place shape.now.arguments out.old.items out.new.items) }
{
    let (block, rest) = read_named_block(alloc, policy, shape, line)?;
    if split_word(rest).is_some() {
        return Err(LineError::Fault(fault_at(rest, Want::EndOfLine)));
    }
    put_block(out, writer, place, block.as_slice())?;
    Ok(block.len())
}

/// `args CLIENT PLACE KERNEL NAME=VALUE ..`
pub fn args(
    alloc: Global,
    book: &Book,
    places: &mut Places,
    line: &[u8],
    out: &mut Vec<u8>,
) -> Result<(), LineError> {
    let (writer, rest) = read_writer(&book.policy, line)?;
    let (place, named) = read_place(&book.policy, places, rest)?;
    let (kernel, rest) = kernel(&book.policy, named)?;
    let Some(shape) = book.shape(kernel) else {
        return Err(LineError::Fault(fault_at(named, Want::Entry)));
    };
    let length = put_named(alloc, &book.policy, shape, writer, place, rest, out)?;
    Ok(places.take(place, length)?)
}
