//! The steps that loads, stores and atomic operations come to.

ghost use Rattle.std.specs.Prelude.{◌≡◌, ◌+◌, ◌%◌, ◌^◌};
ghost use Rattle.kernel_check.specs.Names.{find};
ghost use Rattle.kernel_check.specs.Steps.{forms_of, pointer_of, pointer_in, known_offset, offset_of, group_place, group_pointer, load_from, load_at, store_from, store_at, atomic_pointer, change_of, atomic_in, atomic_at};
ghost use Rattle.hsail_reader.specs.Types.{type_class};

use crate::constants::bits;
use crate::layout::Placed;
use crate::names::Names;
use crate::step::{
    AddressForms, ArgumentStep, AtomicChange, AtomicPointer, AtomicStep, GroupLoadStep,
    GroupPointer, GroupStoreStep, LoadStep, Pointer, RegisterNumber, Step, StoreStep, Swap,
};
use crate::values::{
    any_register, any_source, is_signed, number_type, register_number, source32, source64,
};
use hsail_reader::{
    Access, Address, AtomicOperation, DataType, Operand, Register, RegisterClass, Segment,
    SegmentPlace, TypedSource,
};

/// The addresses that a segment has.
pub fn forms(segment: Segment) -> AddressForms
    ensures { result ≡ forms_of segment }
{
    match segment {
        Segment::Kernarg => AddressForms {
            variable: true,
            base: None,
            indexed: false,
        },
        Segment::Global => AddressForms {
            variable: false,
            base: Some(RegisterClass::Double),
            indexed: false,
        },
        Segment::Group => AddressForms {
            variable: true,
            base: Some(RegisterClass::Single),
            indexed: true,
        },
    }
}

/// A place of global memory.
fn pointer(place: SegmentPlace) -> Pointer
    ensures { result ≡ pointer_of place }
{
    match place {
        SegmentPlace::Absolute(number) => Pointer {
            base: None,
            offset: number,
        },
        SegmentPlace::Relative(relative) => Pointer {
            base: Some(register_number(relative.register)),
            offset: bits(DataType::U64, relative.offset),
        },
    }
}

/// The place in the brackets of an access to global memory.
fn pointer_in_brackets(address: &Address) -> Pointer
    ensures { result ≡ pointer_in address.now }
{
    match address {
        Address::Place(place) => pointer(*place),
        Address::Variable(_) | Address::Indexed(_) => Pointer {
            base: None,
            offset: 0,
        },
    }
}

/// Where the variable of a name lies in its segment.
fn offset_of_variable(variables: &Names<'_, Placed>, name: &[u8]) -> u32
    ensures { result ≡ known_offset (find variables.now name.now) }
{
    match variables.get(name) {
        Some(placed) => placed.offset,
        None => 0,
    }
}

/// Where the argument in the brackets of a load lies.
fn argument_offset(variables: &Names<'_, Placed>, address: &Address) -> u32
    ensures { result ≡ offset_of (find variables.now) address.now }
{
    match address {
        Address::Variable(name) => offset_of_variable(variables, name.as_slice()),
        Address::Place(_) | Address::Indexed(_) => 0,
    }
}

/// A sum of addresses of group memory.
fn group_sum(start: u32, number: u64) -> u32
    ensures { result ≡ (start + number) % 2 ^ 32 }
{
    start.wrapping_add((number % (1 << 32)) as u32)
}

/// A place of group memory, counted from a number of bytes.
fn group_place(start: u32, place: SegmentPlace) -> GroupPointer
    ensures { result ≡ group_place start place }
{
    match place {
        SegmentPlace::Absolute(number) => GroupPointer {
            base: None,
            offset: group_sum(start, number),
        },
        SegmentPlace::Relative(relative) => GroupPointer {
            base: Some(register_number(relative.register)),
            offset: group_sum(start, bits(DataType::U64, relative.offset)),
        },
    }
}

/// The place in the brackets of an access to group memory.
fn group_pointer(variables: &Names<'_, Placed>, address: &Address) -> GroupPointer
    ensures { result ≡ group_pointer (find variables.now) address.now }
{
    match address {
        Address::Variable(name) => GroupPointer {
            base: None,
            offset: offset_of_variable(variables, name.as_slice()),
        },
        Address::Place(place) => group_place(0, *place),
        Address::Indexed(indexed) => {
            let start = offset_of_variable(variables, indexed.variable.as_slice());
            group_place(start, indexed.place)
        }
    }
}

fn load_step(variables: &Names<'_, Placed>, target: Register, access: &Access) -> Step
    ensures { result ≡ load_from (find variables.now) access.now.segment target access.now }
{
    let kind = number_type(access.kind);
    let target = any_register(access.kind, target);
    match access.segment {
        Segment::Kernarg => Step::Argument(ArgumentStep {
            kind,
            target,
            offset: argument_offset(variables, &access.address),
        }),
        Segment::Global => Step::Load(LoadStep {
            kind,
            target,
            pointer: pointer_in_brackets(&access.address),
        }),
        Segment::Group => Step::LoadGroup(GroupLoadStep {
            kind,
            target,
            pointer: group_pointer(variables, &access.address),
        }),
    }
}

/// The step of a load, by the operand that is its address.
pub fn load_at(variables: &Names<'_, Placed>, target: Register, address: &Operand) -> Step
    ensures { result ≡ load_at (find variables.now) target address.now }
{
    match address {
        Operand::Address(access) => load_step(variables, target, access),
        _ => Step::Return,
    }
}

fn store_step(variables: &Names<'_, Placed>, source: TypedSource, access: &Access) -> Step
    ensures { result ≡ store_from (find variables.now) access.now.segment source access.now }
{
    let kind = number_type(source.kind);
    let source = any_source(source);
    match access.segment {
        Segment::Kernarg | Segment::Global => Step::Store(StoreStep {
            kind,
            source,
            pointer: pointer_in_brackets(&access.address),
        }),
        Segment::Group => Step::StoreGroup(GroupStoreStep {
            kind,
            source,
            pointer: group_pointer(variables, &access.address),
        }),
    }
}

/// The step of a store, by the operand that is its address.
pub fn store_at(variables: &Names<'_, Placed>, source: TypedSource, address: &Operand) -> Step
    ensures { result ≡ store_at (find variables.now) source address.now }
{
    match address {
        Operand::Address(access) => store_step(variables, source, access),
        _ => Step::Return,
    }
}

/// An atomic operation, with the register that gets the old value, if one does. Only `cas` has a second
/// source.
#[derive(Clone, Copy)]
pub struct Atomic {
    pub operation: AtomicOperation,
    pub kind: DataType,
    pub target: Option<RegisterNumber>,
    pub first: TypedSource,
    pub second: TypedSource,
}

/// The place in the brackets of an atomic operation.
fn atomic_pointer(
    variables: &Names<'_, Placed>,
    segment: Segment,
    address: &Address,
) -> AtomicPointer
    ensures { result ≡ atomic_pointer (find variables.now) segment address.now }
{
    match segment {
        Segment::Kernarg | Segment::Global => AtomicPointer::Global(pointer_in_brackets(address)),
        Segment::Group => AtomicPointer::Group(group_pointer(variables, address)),
    }
}

/// The operation on sources of a width, of a type with a sign or without.
fn change<S: Copy>(
    operation: AtomicOperation,
    signed: bool,
    source: S,
    replacement: S,
) -> AtomicChange<S>
    ensures { result ≡ change_of operation signed source replacement }
{
    match (operation, signed) {
        (AtomicOperation::Add, _) => AtomicChange::Add(source),
        (AtomicOperation::Subtract, _) => AtomicChange::Subtract(source),
        (AtomicOperation::Minimum, false) => AtomicChange::LeastUnsigned(source),
        (AtomicOperation::Minimum, true) => AtomicChange::LeastSigned(source),
        (AtomicOperation::Maximum, false) => AtomicChange::GreatestUnsigned(source),
        (AtomicOperation::Maximum, true) => AtomicChange::GreatestSigned(source),
        (AtomicOperation::And, _) => AtomicChange::And(source),
        (AtomicOperation::Or, _) => AtomicChange::Or(source),
        (AtomicOperation::Xor, _) => AtomicChange::Xor(source),
        (AtomicOperation::Exchange, _) => AtomicChange::Exchange(source),
        (AtomicOperation::CompareAndSwap, _) => AtomicChange::CompareAndSwap(Swap {
            expected: source,
            replacement,
        }),
    }
}

fn atomic_step(atomic: &Atomic, pointer: AtomicPointer) -> Step
    ensures { result ≡ atomic_in (type_class atomic.now.kind) atomic.now pointer }
{
    let target = atomic.target;
    let operation = atomic.operation;
    let signed = is_signed(atomic.kind);
    match atomic.kind.class() {
        RegisterClass::Double => {
            let operation = change(
                operation,
                signed,
                source64(atomic.first),
                source64(atomic.second),
            );
            Step::Atomic64(AtomicStep {
                target,
                pointer,
                operation,
            })
        }
        RegisterClass::Control | RegisterClass::Single => {
            let operation = change(
                operation,
                signed,
                source32(atomic.first),
                source32(atomic.second),
            );
            Step::Atomic32(AtomicStep {
                target,
                pointer,
                operation,
            })
        }
    }
}

/// The step of an atomic operation, by the operand that is its address.
pub fn atomic_at(variables: &Names<'_, Placed>, atomic: &Atomic, address: &Operand) -> Step
    ensures { result ≡ atomic_at (find variables.now) atomic.now address.now }
{
    match address {
        Operand::Address(access) => {
            let pointer = atomic_pointer(variables, access.segment, &access.address);
            atomic_step(atomic, pointer)
        }
        _ => Step::Return,
    }
}
