//! Which register of a line of a kernel's text is of another class than its type wants.

use crate::positions::{Position, small};
use hsail_reader::{
    DataType, Item, Operand, Operation, ReadError, Register, RegisterClass, Source, read_module,
};
use std::alloc::{AllocError, Global};

/// A register of another class than that of its type.
#[derive(Clone, Copy)]
struct Other {
    kind: DataType,
    register: Register,
}

// The letter of a class.
fn letter(class: RegisterClass) -> char {
    match class {
        RegisterClass::Control => 'c',
        RegisterClass::Single => 's',
        RegisterClass::Double => 'd',
    }
}

// A register, if it is of another class than a type's.
fn class_other_than(kind: DataType, register: Register) -> Option<Other> {
    if letter(kind.class()) == letter(register.class) {
        None
    } else {
        Some(Other { kind, register })
    }
}

// The register in an operand that is of another class than its type's.
fn other_in(operand: &Operand) -> Option<Other> {
    match operand {
        Operand::Target(target) => class_other_than(target.kind, target.register),
        Operand::Source(source) => match source.source {
            Source::Register(register) => class_other_than(source.kind, register),
            Source::Constant(_) => None,
        },
        _ => None,
    }
}

// The first such register of an instruction.
fn other_of(operation: &Operation) -> Option<Other> {
    let operands = operation.operands();
    other_in(&operands.first)
        .or(other_in(&operands.second))
        .or(other_in(&operands.third))
        .or(other_in(&operands.fourth))
}

// The first such register of some items in a line.
fn other_at(items: &[Item], line: u32) -> Option<Other> {
    for item in items {
        if let Item::Instruction(instruction) = item {
            if instruction.line == line {
                if let Some(found) = other_of(&instruction.operation) {
                    return Some(found);
                }
            }
        }
    }
    None
}

// The first such register in a line of a text.
fn find(alloc: Global, text: &[u8], line: u32) -> Result<Option<Other>, AllocError> {
    let module = match read_module(alloc, text) {
        Ok(module) => module,
        Err(ReadError::OutOfMemory) => return Err(AllocError),
        Err(ReadError::Fault(_)) => return Ok(None),
    };
    for kernel in module.kernels.as_slice() {
        if let Some(found) = other_at(kernel.items.as_slice(), line) {
            return Ok(Some(found));
        }
    }
    Ok(None)
}

// Whether a text begins with a word that no digit goes on with.
fn begins_with(text: &[u8], word: &[u8]) -> bool {
    match text.strip_prefix(word) {
        Some([b'0'..=b'9', ..]) => false,
        Some(_) => true,
        None => false,
    }
}

// The column of the first place of a word in a line; 1 where it isn't there.
fn column_of(line: &[u8], word: &[u8]) -> u32 {
    for before in 0..line.len() {
        if begins_with(line.split_at(before.min(line.len())).1, word) {
            return small(before).saturating_add(1);
        }
    }
    1
}

/// Adds the first register of a line of a kernel's text that is of another class than its type wants to the output, with the
/// class that is wanted, and tells where it stands; none where there is none.
pub fn put_class(
    alloc: Global,
    out: &mut String,
    text: &[u8],
    line: u32,
    shown: &[u8],
) -> Result<Option<Position>, AllocError> {
    let Some(Other { kind, register }) = find(alloc, text, line)? else {
        return Ok(None);
    };
    let class = letter(register.class);
    let number = register.number;
    let wanted = letter(kind.class());
    let bits = kind.bits();
    let spelled = format!(in alloc; "${class}{number}")?;
    let unit = if bits == 1 { "bit" } else { "bits" };
    writeln!(
        out,
        "`{spelled}`: what has {bits} {unit} here lies in a register `${wanted}`"
    )?;
    let column = column_of(shown, spelled.as_str().as_bytes());
    Ok(Some(Position { line, column }))
}
