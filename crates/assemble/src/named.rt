//! The arguments of a kernel by their names, in any order.

ghost use Rattle.std.specs.Prelude.{◌≡◌, IfOk, length};

use crate::book::KernelShape;
use crate::fault::{Fault, LineError, Want};
use crate::operands::{fault_at, next, typed_value};
use policy::Policy;
use sequences::Sequence;
use std::alloc::{AllocError, Global};

/// An argument that has its value: how many stand before it, the value, and the line behind it.
#[derive(Clone, Copy)]
struct Named<'a> {
    before: usize,
    value: u64,
    rest: &'a [u8],
}

// The name and the value of `NAME=VALUE`.
fn split_named(word: &[u8]) -> Option<(&[u8], &[u8])> {
    for (index, byte) in word.iter().enumerate() {
        if *byte == b'=' {
            let (name, behind) = word.split_at(index);
            return Some((name, behind.split_at(1).1));
        }
    }
    None
}

// Whether an argument has a name, with `%` in front of it or without.
fn has_name(argument: &[u8], name: &[u8]) -> bool {
    match argument {
        [b'%', bare @ ..] => bare == name || argument == name,
        _ => argument == name,
    }
}

// How many arguments stand before the one of a name.
fn place_named(names: &[Sequence<u8>], name: &[u8]) -> Option<usize> {
    for (before, argument) in names.iter().enumerate() {
        if has_name(argument.as_slice(), name) {
            return Some(before);
        }
    }
    None
}

// Whether an argument has its value already.
fn is_given(given: &[bool], before: usize) -> bool {
    match given.get(before) {
        Some(is_given) => *is_given,
        None => false,
    }
}

// The next argument by its name, which has no value yet.
fn next_named<'a>(
    policy: &Policy,
    shape: &KernelShape,
    given: &[bool],
    line: &'a [u8],
) -> Result<Named<'a>, Fault> {
    let (word, rest) = next(line, Want::Argument)?;
    let Some((name, value)) = split_named(word) else {
        return Err(fault_at(line, Want::Argument));
    };
    let Some(before) = place_named(shape.names.as_slice(), name) else {
        return Err(fault_at(line, Want::ArgumentName));
    };
    let Some(place) = shape.arguments.as_slice().get(before) else {
        return Err(fault_at(line, Want::ArgumentName));
    };
    if is_given(given, before) {
        return Err(fault_at(line, Want::ArgumentOnce));
    }
    match typed_value(policy, place.kind, value) {
        Some(value) => Ok(Named {
            before,
            value,
            rest,
        }),
        None => Err(fault_at(line, Want::Typed(place.kind))),
    }
}

// So many values of no argument yet.
fn no_values(alloc: Global, count: usize) -> Result<Vec<u64>, AllocError>
    ensures { IfOk result (λ values. length values.items ≡ count) }
{
    let mut values = Vec::new(alloc);
    'values: for done in 0..count {
        values.push(0)?;
    }
    Ok(values)
}

// So many arguments without a value.
fn none_given(alloc: Global, count: usize) -> Result<Vec<bool>, AllocError> {
    let mut given = Vec::new(alloc);
    for _ in 0..count {
        given.push(false)?;
    }
    Ok(given)
}

// Puts an argument's value at its place.
fn put_value(values: &mut Vec<u64>, before: usize, value: u64)
    ensures { length values.new.items ≡ length values.old.items }
{
    if before < values.len() {
        values[before] = value;
    }
}

// Keeps that an argument has its value.
fn put_given(given: &mut Vec<bool>, before: usize) {
    if before < given.len() {
        given[before] = true;
    }
}

/// The values of all arguments of a kernel in their order, each by its name once, and what stands behind them.
pub fn read_named<'a>(
    alloc: Global,
    policy: &Policy,
    shape: &KernelShape,
    line: &'a [u8],
) -> Result<(Vec<u64>, &'a [u8]), LineError>
    ensures { IfOk result (λ read. length read.0.items ≡ length shape.now.arguments) }
{
    let count = shape.arguments.len();
    let mut values = no_values(alloc, count)?;
    let mut given = none_given(alloc, count)?;
    let mut rest = line;
    'words: for done in 0..count {
        let named = next_named(policy, shape, given.as_slice(), rest)?;
        put_value(&mut values, named.before, named.value);
        put_given(&mut given, named.before);
        rest = named.rest;
    }
    Ok((values, rest))
}
