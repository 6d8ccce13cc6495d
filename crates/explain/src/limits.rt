//! Which limit a kernel's text passes.

use hsail_reader::{
    Address, Constant, DataType, Item, Kernel, Module, Operand, Operation, ReadError, Register,
    RegisterClass, SegmentPlace, Source, read_module,
};
use kernel_check::{MAX_ARGUMENT_BYTES, MAX_GROUP_BYTES, MAX_INSTRUCTIONS, MAX_KERNELS};
use std::alloc::{AllocError, Global};

/// The greatest number of a register.
const MOST_REGISTER: u64 = 63;

/// The greatest number of a dimension.
const MOST_DIMENSION: u64 = 2;

/// A number in an instruction that is over its limit.
#[derive(Clone, Copy)]
enum Over {
    Register(Register),
    Constant(DataType, Constant),
    Dimension(u64),
}

// A register, if its number is over the greatest.
fn far(register: Register) -> Option<Over> {
    if register.number > MOST_REGISTER {
        Some(Over::Register(register))
    } else {
        None
    }
}

// The greatest number of a type's bits.
fn greatest(kind: DataType) -> u64 {
    match kind {
        DataType::B1 => 1,
        DataType::B8 | DataType::U8 | DataType::S8 => 0xff,
        DataType::B16 | DataType::U16 | DataType::S16 => 0xffff,
        DataType::B32 | DataType::U32 | DataType::S32 => 0xffff_ffff,
        DataType::B64 | DataType::U64 | DataType::S64 => u64::MAX,
    }
}

// How far below 0 the least number of a type's bits is.
fn depth(kind: DataType) -> u64 {
    match kind {
        DataType::B1 => 0,
        _ => greatest(kind) / 2 + 1,
    }
}

// A constant, if it is out of its type's range.
fn out_of_range(kind: DataType, constant: Constant) -> Option<Over> {
    let most = if constant.negative {
        depth(kind)
    } else {
        greatest(kind)
    };
    if constant.magnitude > most {
        Some(Over::Constant(kind, constant))
    } else {
        None
    }
}

// A register in brackets, if its number is over the greatest.
fn far_in(address: &Address) -> Option<Over> {
    let place = match address {
        Address::Variable(_) => return None,
        Address::Place(place) => *place,
        Address::Indexed(indexed) => indexed.place,
    };
    match place {
        SegmentPlace::Absolute(_) => None,
        SegmentPlace::Relative(relative) => far(relative.register),
    }
}

// What is over a limit in an operand.
fn over_in(operand: &Operand) -> Option<Over> {
    match operand {
        Operand::Target(target) => far(target.register),
        Operand::Source(source) => match source.source {
            Source::Register(register) => far(register),
            Source::Constant(constant) => out_of_range(source.kind, constant),
        },
        Operand::Address(access) => far_in(&access.address),
        Operand::Dimension(number) if *number > MOST_DIMENSION => Some(Over::Dimension(*number)),
        _ => None,
    }
}

// What is over a limit in the operands of an instruction: the first.
fn over_of(operation: &Operation) -> Option<Over> {
    let operands = operation.operands();
    over_in(&operands.first)
        .or(over_in(&operands.second))
        .or(over_in(&operands.third))
        .or(over_in(&operands.fourth))
}

// Adds the range of a type's bits to the output.
fn put_range(out: &mut String, kind: DataType) -> Result<(), AllocError> {
    if kind == DataType::B1 {
        return out.push_str("a number of 1 bit is 0 or 1\n");
    }
    let bits = kind.bits();
    let depth = depth(kind);
    let greatest = greatest(kind);
    writeln!(out, "a number of {bits} bits is -{depth} to {greatest}")
}

// Adds a number that is over its limit, and the limit, to the output.
fn put_over(out: &mut String, over: Over) -> Result<(), AllocError> {
    match over {
        Over::Register(register) => {
            let number = register.number;
            let class = match register.class {
                RegisterClass::Control => 'c',
                RegisterClass::Single => 's',
                RegisterClass::Double => 'd',
            };
            writeln!(
                out,
                "`${class}{number}`: the number of a register is {MOST_REGISTER} at the most"
            )
        }
        Over::Constant(kind, constant) => {
            let magnitude = constant.magnitude;
            let sign = if constant.negative { "-" } else { "" };
            write!(out, "`{sign}{magnitude}`: ")?;
            put_range(out, kind)
        }
        Over::Dimension(number) => writeln!(
            out,
            "`{number}`: a dimension is {MOST_DIMENSION} at the most"
        ),
    }
}

// Adds which limit an item of a kernel passes to the output, if it stands in a line; whether it does.
fn put_item(out: &mut String, item: &Item, line: u32) -> Result<bool, AllocError> {
    match item {
        Item::Instruction(instruction) if instruction.line == line => {
            match over_of(&instruction.operation) {
                Some(over) => put_over(out, over)?,
                None => return Ok(false),
            }
        }
        Item::Variable(variable) if variable.line == line => writeln!(
            out,
            "the group variables of a kernel take {MAX_GROUP_BYTES} bytes at the most"
        )?,
        _ => return Ok(false),
    }
    Ok(true)
}

// Adds which limit the items of a kernel pass in a line to the output; whether one of them does.
fn put_items(out: &mut String, items: &[Item], line: u32) -> Result<bool, AllocError> {
    for item in items {
        if put_item(out, item, line)? {
            return Ok(true);
        }
    }
    Ok(false)
}

// Whether a line is that of an argument of a kernel.
fn has_argument(kernel: &Kernel, line: u32) -> bool {
    kernel
        .arguments
        .as_slice()
        .iter()
        .any(|argument| argument.line == line)
}

// Adds which limit a kernel passes in a line to the output; whether one is known.
fn put_kernel(out: &mut String, kernel: &Kernel, line: u32) -> Result<bool, AllocError> {
    if put_items(out, kernel.items.as_slice(), line)? {
        return Ok(true);
    }
    if has_argument(kernel, line) {
        writeln!(
            out,
            "the arguments of a kernel take {MAX_ARGUMENT_BYTES} bytes at the most"
        )?;
        return Ok(true);
    }
    Ok(false)
}

// Adds which limit a module passes in a line to the output.
fn put_module(out: &mut String, module: &Module, line: u32) -> Result<(), AllocError> {
    for (index, kernel) in module.kernels.as_slice().iter().enumerate() {
        if index >= MAX_KERNELS && kernel.line == line {
            return writeln!(out, "a module has {MAX_KERNELS} kernels at the most");
        }
        if put_kernel(out, kernel, line)? {
            return Ok(());
        }
    }
    writeln!(
        out,
        "a kernel has {MAX_INSTRUCTIONS} instructions at the most"
    )
}

/// Adds which limit a line of a kernel's text passes, with its number, to the output.
pub fn put_limit(
    alloc: Global,
    out: &mut String,
    text: &[u8],
    line: u32,
) -> Result<(), AllocError> {
    match read_module(alloc, text) {
        Ok(module) => put_module(out, &module, line),
        Err(ReadError::OutOfMemory) => Err(AllocError),
        Err(ReadError::Fault(_)) => Ok(()),
    }
}
