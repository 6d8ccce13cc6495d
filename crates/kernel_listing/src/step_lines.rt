//! The kernels of a module as the cases have them: a layout a line, and below it a step a line.

use crate::steps::push_step;
use kernel_check::{Checked, Program};
use std::alloc::{AllocError, Global};

// A kernel's layout in a line, as `kernel &inc kernarg 8 group 0 wide 0`: the bytes of its arguments and of its
// group variables, and the offsets of its arguments of 64 bits.
fn push_layout(out: &mut String, program: &Program) -> Result<(), AllocError> {
    let bytes = program.kernarg_bytes();
    let group = program.group_bytes();
    out.push_str("kernel ")?;
    for letter in program.name() {
        out.push(char::from(*letter))?;
    }
    write!(out, " kernarg {bytes} group {group} wide")?;
    for offset in program.wide_arguments() {
        write!(out, " {offset}")?;
    }
    out.push_str("\n")
}

// A kernel's steps, a line each, with the line that each stands on in the text.
fn push_steps(out: &mut String, program: &Program) -> Result<(), AllocError> {
    for (step, line) in program.steps().iter().zip(program.lines()) {
        write!(out, "{line} ")?;
        push_step(out, step)?;
        out.push_str("\n")?;
    }
    Ok(())
}

/// The kernels of a module with their layout and steps, and `ok`.
pub(crate) fn stepped(alloc: Global, checked: &Checked) -> Result<String, AllocError> {
    let mut out = String::new(alloc);
    for index in 0..checked.count() {
        let program = checked.kernel(index);
        push_layout(&mut out, program)?;
        push_steps(&mut out, program)?;
    }
    out.push_str("ok\n")?;
    Ok(out)
}
