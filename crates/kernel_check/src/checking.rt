//! The check of a module.

ghost use Rattle.std.specs.Prelude.{◌≡◌, ◌<◌, ◌++◌, ◌∷◌, [], None, OnOk, length};
ghost use Rattle.kernel_check.specs.Checks.{body_checks, kernel_checks, module_checks, program_of, checking};
ghost use Rattle.kernel_check.specs.Faults.{first_fault, unless, Gives};
ghost use Rattle.kernel_check.specs.inner.Judged.{Judges};
ghost use Rattle.kernel_check.specs.Names.{find};
ghost use Rattle.kernel_check.specs.Programs.{IsSound};

use crate::body::checked_items;
use crate::causes::kernel_cause;
use crate::checked::Checked;
use crate::fault::CheckError;
use crate::kernarg::{KernargSegment, place_arguments, refused};
use crate::labels::labels;
use crate::names::Names;
use crate::program::Program;
use hsail_reader::{Kernel, Module};
use std::alloc::Global;

/// What the arguments and items of a kernel come to, or the fault of the first that fails.
fn checked_body(alloc: Global, kernel: &Kernel) -> Result<Program, CheckError>
    ensures { Gives (λ program. program) result (unless (first_fault (body_checks kernel.now)) (program_of kernel.now)) }
{
    let arguments = kernel.arguments.as_slice();
    let items = kernel.items.as_slice();
    let block = place_arguments(alloc, arguments)?;
    let KernargSegment {
        mut names,
        wide,
        end,
    } = block;
    let labels = labels(alloc, items)?;
    let body = checked_items(alloc, &mut names, &labels, items)?;
    let name = kernel.name.copy(alloc)?;
    let lined = body.steps.as_slice();
    let program = Program::new(alloc, name, end, body.group_bytes, wide, lined)?;
    Ok(program)
}

/// Puts what a kernel comes to behind the others.
fn put_kernel<'a>(
    alloc: Global,
    before: &mut Names<'a, usize>,
    kernels: &mut Vec<Program>,
    kernel: &'a Kernel,
) -> Result<(), CheckError>
    requires { find before.old kernel.now.name ≡ None }
    ensures judged { Judges result (body_checks kernel.now) }
    ensures names { OnOk result (before.new ≡ before.old ++ (kernel.now.name, length before.old) ∷ []) }
    ensures kernels { OnOk result (kernels.new.items ≡ kernels.old.items ++ program_of kernel.now ∷ []) }
    ensures sound { OnOk result (IsSound (program_of kernel.now)) }
{
    let program = checked_body(alloc, kernel)?;
    program.law_is_sound();
    before.add(kernel.name.as_slice(), before.len())?;
    Ok(kernels.push(program)?)
}

/// Puts what a kernel comes to behind the others, unless an item in it fails.
fn judge_kernel<'a>(
    alloc: Global,
    before: &mut Names<'a, usize>,
    kernels: &mut Vec<Program>,
    kernel: &'a Kernel,
) -> Result<(), CheckError>
    ensures judged { Judges result (kernel_checks before.old kernel.now) }
    ensures names { OnOk result (before.new ≡ before.old ++ (kernel.now.name, length before.old) ∷ []) }
    ensures kernels { OnOk result (kernels.new.items ≡ kernels.old.items ++ program_of kernel.now ∷ []) }
    ensures sound { OnOk result (IsSound (program_of kernel.now)) }
    ensures room { OnOk result (length before.old < 64) }
{
    match kernel_cause(before, kernel.name.as_slice()) {
        Some(cause) => Err(refused(kernel.line, cause)),
        None => put_kernel(alloc, before, kernels, kernel),
    }
}

/// What the kernels of a module come to if no item of it fails; else the fault of the earliest item
/// that fails, with its cause of least number. An item is a kernel's head, an argument, a label, a group
/// variable or an instruction.
pub fn check(alloc: Global, source: &Module) -> Result<Checked, CheckError>
    ensures { Gives (λ checked. checked) result (checking source.now) }
{
    let mut before = Names::new(alloc);
    let mut programs = Vec::new(alloc);
    'kernels: for kernel in source.kernels.as_slice() {
        judge_kernel(alloc, &mut before, &mut programs, kernel)?;
    }
    Ok(Checked::new(programs))
}
