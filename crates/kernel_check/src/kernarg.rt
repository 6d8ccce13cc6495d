//! The arguments of a kernel, checked and laid out in order.

ghost use Rattle.std.specs.Prelude.{◌≡◌, ◌≤◌, ◌++◌, ◌∷◌, [], None, IfOk, OnOk};
ghost use Rattle.kernel_check.specs.Checks.{argument_check, argument_checks};
ghost use Rattle.kernel_check.specs.Faults.{first_fault, unless, Gives};
ghost use Rattle.kernel_check.specs.inner.Judged.{Judges};
ghost use Rattle.kernel_check.specs.Layout.{placed_at, end_behind, wide_at};
ghost use Rattle.kernel_check.specs.inner.Laid.{laid_out, kernarg_laid};
ghost use Rattle.kernel_check.specs.Names.{find};
ghost use Rattle.kernel_check.specs.declared.fault.CheckError.TheVariants as check_error;
ghost use Rattle.kernel_check.specs.Faults.{fault};
ghost use Rattle.kernel_check.specs.declared.limits.TheConstants.{MAX_ARGUMENT_BYTES};

use crate::causes::argument_cause;
use crate::fault::{CheckCause, CheckError, CheckFault};
use crate::layout::{Placed, bytes, place_behind, wide};
use crate::names::Names;
use hsail_reader::Argument;
use std::alloc::{AllocError, Global};

/// The arguments of a kernel at their places: by name, the offsets of those of 64 bits, and where the
/// last one ends.
#[derive(Drop)]
pub struct KernargSegment<'a> {
    pub names: Names<'a, Placed>,
    pub wide: Vec<u32>,
    pub end: u32,
}

/// The fault of an item at a line.
pub fn refused(line: u32, cause: CheckCause) -> CheckError
    ensures { result ≡ check_error.Fault (fault line cause) }
{
    CheckError::Fault(CheckFault { line, cause })
}

/// Puts the offset of an argument of 64 bits behind the others.
fn put_wide(offsets: &mut Vec<u32>, end: u32, argument: &Argument) -> Result<(), AllocError>
    requires { end ≤ MAX_ARGUMENT_BYTES }
    ensures { OnOk result (offsets.new.items ≡ offsets.old.items ++ wide_at end argument.now) }
{
    if !wide(argument.kind) {
        return Ok(());
    }
    offsets.push(place_behind(end, argument).offset)?;
    Ok(())
}

/// Puts an argument behind the others, and tells where it ends.
fn put_argument<'a>(
    names: &mut Names<'a, Placed>,
    offsets: &mut Vec<u32>,
    end: u32,
    argument: &'a Argument,
) -> Result<u32, AllocError>
    requires end { end ≤ MAX_ARGUMENT_BYTES }
    requires new_name { find names.old argument.now.name ≡ None }
    ensures names { OnOk result (names.new ≡ names.old ++ (argument.now.name, placed_at end argument.now) ∷ []) }
    ensures wide { OnOk result (offsets.new.items ≡ offsets.old.items ++ wide_at end argument.now) }
    ensures end { IfOk result (λ e. e ≡ end_behind end argument.now) }
{
    let placed = place_behind(end, argument);
    names.add(argument.name.as_slice(), placed)?;
    put_wide(offsets, end, argument)?;
    Ok(placed.offset + bytes(argument.kind))
}

/// Puts an argument behind the others unless it fails, and tells where it ends.
fn judge_argument<'a>(
    names: &mut Names<'a, Placed>,
    offsets: &mut Vec<u32>,
    end: u32,
    argument: &'a Argument,
) -> Result<u32, CheckError>
    requires { end ≤ MAX_ARGUMENT_BYTES }
    ensures judged { Judges result (argument_check names.old end argument.now ∷ []) }
    ensures names { OnOk result (names.new ≡ names.old ++ (argument.now.name, placed_at end argument.now) ∷ []) }
    ensures wide { OnOk result (offsets.new.items ≡ offsets.old.items ++ wide_at end argument.now) }
    ensures end { IfOk result (λ e. e ≡ end_behind end argument.now) }
    ensures bound { IfOk result (λ e. e ≤ MAX_ARGUMENT_BYTES) }
{
    match argument_cause(names, end, argument) {
        Some(cause) => Err(refused(argument.line, cause)),
        None => Ok(put_argument(names, offsets, end, argument)?),
    }
}

/// The arguments of a kernel at their places, or the fault of the first that fails.
pub fn place_arguments<'a>(
    alloc: Global,
    arguments: &'a [Argument],
) -> Result<KernargSegment<'a>, CheckError>
    ensures value { Gives kernarg_laid result (unless (first_fault (argument_checks [] 0 arguments.now)) (laid_out arguments.now)) }
    ensures bound { IfOk result (λ block. block.end ≤ MAX_ARGUMENT_BYTES) }
{
    let mut names = Names::new(alloc);
    let mut offsets = Vec::new(alloc);
    let mut end = 0;
    'arguments: for argument in arguments {
        end = judge_argument(&mut names, &mut offsets, end, argument)?;
    }
    Ok(KernargSegment {
        names,
        wide: offsets,
        end,
    })
}
