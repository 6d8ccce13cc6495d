//! The argument block of a kernel, by its own layout (PRM, Kernarg Segment).

ghost use Rattle.std.specs.Prelude.{◌≡◌, ◌++◌, ◌∷◌, [], OnOk, IfOk};
ghost use Rattle.assemble.specs.Blocks.{block_from, low_bytes, padded, with_argument, zeros};

use crate::fault::LineError;
use crate::layout::{ArgumentPlace, bytes};
use crate::operands::value;
use policy::Policy;
use std::alloc::{AllocError, Global};

// Puts zeros behind bytes.
fn put_zeros(block: &mut Vec<u8>, count: usize) -> Result<(), AllocError>
    ensures { OnOk result (block.new.items ≡ block.old.items ++ zeros count) }
{
    'zeros: for done in 0..count {
        block.push(0)?;
    }
    Ok(())
}

// Puts the lowest bytes of a number behind others, the lowest first.
fn put_low_bytes(block: &mut Vec<u8>, count: u32, number: u64) -> Result<(), AllocError>
    ensures { OnOk result (block.new.items ≡ block.old.items ++ low_bytes count number) }
{
    if count == 0 {
        return Ok(());
    }
    block.push((number % 256) as u8)?;
    put_low_bytes(block, count - 1, number / 256)
}

// Puts an argument at its place behind others.
fn put_argument(block: &mut Vec<u8>, place: ArgumentPlace, value: u64) -> Result<(), AllocError>
    ensures { OnOk result (block.new.items ≡ with_argument block.old.items place value) }
{
    let offset = place.offset as usize;
    put_zeros(block, offset.saturating_sub(block.len()))?;
    put_low_bytes(block, bytes(place.kind), value)
}

// The values of arguments at these places, and what stands behind them.
fn values<'a>(
    alloc: Global,
    policy: &Policy,
    places: &[ArgumentPlace],
    line: &'a [u8],
) -> Result<(Vec<u64>, &'a [u8]), LineError> {
    let mut values = Vec::new(alloc);
    let mut rest = line;
    for place in places {
        let (next, behind) = value(policy, place.kind, rest)?;
        values.push(next)?;
        rest = behind;
    }
    Ok((values, rest))
}

// Puts arguments at their places behind others.
#[tactic(auto, unfolding(crate::specs::Blocks::block_from))]
fn put_arguments(
    block: &mut Vec<u8>,
    places: &[ArgumentPlace],
    values: &[u64],
) -> Result<(), AllocError>
    ensures { OnOk result (block.new.items ≡ block_from block.old.items places.now values.now) }
{
    let [place, later @ ..] = places else {
        return Ok(());
    };
    let [value, others @ ..] = values else {
        return Ok(());
    };
    put_argument(block, *place, *value)?;
    put_arguments(block, later, others)
}

/// The block of arguments at their places.
pub fn laid(alloc: Global, places: &[ArgumentPlace], values: &[u64]) -> Result<Vec<u8>, AllocError>
    ensures { IfOk result (λ block. block.items ≡ block_from [] places.now values.now) }
{
    let mut block = Vec::new(alloc);
    put_arguments(&mut block, places, values)?;
    Ok(block)
}

/// The block of a kernel whose arguments lie at these places, by their values in order, and what stands behind them.
pub fn read_block<'a>(
    alloc: Global,
    policy: &Policy,
    places: &[ArgumentPlace],
    line: &'a [u8],
) -> Result<(Vec<u8>, &'a [u8]), LineError> {
    let (values, rest) = values(alloc, policy, places, line)?;
    let block = laid(alloc, places, values.as_slice())?;
    Ok((block, rest))
}
