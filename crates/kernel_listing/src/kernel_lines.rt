//! The kernels of a module, in lines.

use crate::lines::{blanks, line, lines, show, without_end};
use hsail_reader::{Alignment, Argument, DataType, GroupVariable, Item, Kernel, Module};
use kernel_check::{Checked, Program};
use std::alloc::{AllocError, Global};

// The name of a type.
fn type_name(kind: DataType) -> &'static str {
    match kind {
        DataType::B1 => "b1",
        DataType::B8 => "b8",
        DataType::B16 => "b16",
        DataType::B32 => "b32",
        DataType::B64 => "b64",
        DataType::U8 => "u8",
        DataType::U16 => "u16",
        DataType::U32 => "u32",
        DataType::U64 => "u64",
        DataType::S8 => "s8",
        DataType::S16 => "s16",
        DataType::S32 => "s32",
        DataType::S64 => "s64",
    }
}

// How many bytes a value of a type takes.
fn bytes(kind: DataType) -> u64 {
    kind.bits() as u64 / 8
}

// The number of which a variable's offset is a multiple.
fn boundary(kind: DataType, align: Option<Alignment>) -> u64 {
    let natural = bytes(kind).max(1);
    match align {
        None | Some(Alignment::One) => natural,
        Some(Alignment::Two) => natural.max(2),
        Some(Alignment::Four) => natural.max(4),
        Some(Alignment::Eight) => natural.max(8),
        Some(Alignment::Sixteen) => natural.max(16),
    }
}

// The place of a variable behind so many bytes: the next multiple of its boundary.
fn offset(end: u64, kind: DataType, align: Option<Alignment>) -> u64 {
    let boundary = boundary(kind, align).max(1);
    let blocks = end.saturating_add(boundary - 1) / boundary;
    blocks.saturating_mul(boundary)
}

// Adds an argument's line, as `argument 0 u64 %p`, and tells where the argument ends.
fn push_argument(out: &mut String, end: u64, argument: &Argument) -> Result<u64, AllocError> {
    let offset = offset(end, argument.kind, argument.align);
    let kind = type_name(argument.kind);
    write!(out, "argument {offset} {kind} ")?;
    show(out, argument.name.as_slice())?;
    out.push_str("\n")?;
    Ok(offset.saturating_add(bytes(argument.kind)))
}

// Adds the lines of a kernel's arguments, in order.
fn push_arguments(out: &mut String, arguments: &[Argument]) -> Result<(), AllocError> {
    let mut end = 0;
    for argument in arguments {
        end = push_argument(out, end, argument)?;
    }
    Ok(())
}

// Adds a group variable's line, as `group 0 u32 %x[16]`, and tells where the variable ends.
fn push_variable(out: &mut String, end: u64, variable: &GroupVariable) -> Result<u64, AllocError> {
    let offset = offset(end, variable.kind, variable.align);
    let kind = type_name(variable.kind);
    write!(out, "group {offset} {kind} ")?;
    show(out, variable.name.as_slice())?;
    if let Some(length) = variable.length {
        write!(out, "[{length}]")?;
    }
    out.push_str("\n")?;
    let size = bytes(variable.kind).saturating_mul(variable.length.unwrap_or(1));
    Ok(offset.saturating_add(size))
}

// Adds the lines of a kernel's group variables, in order.
fn push_variables(out: &mut String, items: &[Item]) -> Result<(), AllocError> {
    let mut end = 0;
    for item in items {
        if let Item::Variable(variable) = item {
            end = push_variable(out, end, variable)?;
        }
    }
    Ok(())
}

// Adds the lines of a kernel's steps, as `step 0 line 4 ret;`, each with the text of the line that it stands on.
fn push_steps(out: &mut String, text: &[&[u8]], steps: &[u32]) -> Result<(), AllocError> {
    for (number, of) in steps.iter().enumerate() {
        let shown = without_end(line(text, *of));
        write!(out, "step {number} line {of} ")?;
        show(out, shown.split_at(blanks(shown).min(shown.len())).1)?;
        out.push_str("\n")?;
    }
    Ok(())
}

// Adds the line of a kernel, as `kernel &inc arguments 8 group 0 steps 9`: the bytes of its argument block and of its group
// variables, and how many steps it has.
fn push_head(out: &mut String, program: &Program) -> Result<(), AllocError> {
    let arguments = program.kernarg_bytes();
    let group = program.group_bytes();
    let steps = program.steps().len();
    out.push_str("kernel ")?;
    show(out, program.name())?;
    writeln!(out, " arguments {arguments} group {group} steps {steps}")
}

// Adds a kernel's lines.
fn push_kernel(
    out: &mut String,
    text: &[&[u8]],
    kernel: &Kernel,
    program: &Program,
) -> Result<(), AllocError> {
    push_head(out, program)?;
    push_arguments(out, kernel.arguments.as_slice())?;
    push_variables(out, kernel.items.as_slice())?;
    push_steps(out, text, program.lines())
}

/// The kernels of a module, in order, and `ok`.
pub fn listed(
    alloc: Global,
    text: &[u8],
    module: &Module,
    checked: &Checked,
) -> Result<String, AllocError> {
    let text = lines(alloc, text)?;
    let mut out = String::new(alloc);
    for index in 0..checked.count() {
        if let Some(kernel) = module.kernels.get(index as usize) {
            push_kernel(&mut out, text.as_slice(), kernel, checked.kernel(index))?;
        }
    }
    out.push_str("ok\n")?;
    Ok(out)
}
