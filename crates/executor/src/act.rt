//! One step of one work-item.
ghost use Rattle.std.specs.Prelude.{◌≡◌, ◌+◌, ◌<◌, ◌≤◌, ◌^◌, drop, length};
ghost use Rattle.byteorder.specs.Endian.{little_number};
ghost use Rattle.kernel_check.specs.Steps.{number_bytes};
ghost use Rattle.kernel_check.specs.declared.step.Step.TheVariants as step_arm;
ghost use Rattle.executor.specs.Conversions.{converted};
ghost use Rattle.executor.specs.inner.Held.{contents, surroundings};
ghost use Rattle.executor.specs.Meaning.{act, onward};
ghost use Rattle.executor.specs.Registers.{with_any};
ghost use Rattle.executor.specs.inner.Turns.{Acts, ReadsWithin};

use crate::access::{StoreError, load, store};
use crate::address::{address_of, group_address_of};
use crate::atomic::{atomic_step32, atomic_step64};
use crate::conversion::{bytes_of, convert};
use crate::group_access;
use crate::item::{Item, ItemContext};
use crate::memory::Memory;
use crate::registers::Registers;
use crate::values::{value1, value32, value64};
use byteorder::{ByteOrder, LittleEndian};
use kernel_check::{
    AnyRegister, ArgumentStep, GroupLoadStep, GroupStoreStep, LoadStep, Step, StoreStep,
};
use queue_error::{Rule, SegmentAddress};
use std::alloc::Global;

/// What comes of a turn.
#[derive(Clone, Copy)]
pub enum Outcome {
    /// The item has another turn.
    GoesOn,
    /// The item waits at a barrier.
    Arrived,
    Ended,
    /// It broke a rule by an access to an address.
    Broke(Rule, SegmentAddress),
    OutOfMemory,
}

/// What an argument has, as its type reads it.
#[inline(always)]
pub fn argument(arguments: &[u8], step: &ArgumentStep) -> u64
    requires { step.now.offset + number_bytes step.now.kind ≤ length arguments.now }
    ensures { result ≡ converted step.now.kind step.now.kind
        (little_number (number_bytes step.now.kind) (drop step.now.offset arguments.now)) }
{
    let (_, bytes) = arguments.split_at(step.offset as usize);
    let number = LittleEndian::read_uint(bytes, bytes_of(step.kind));
    convert(step.kind, step.kind, number)
}

/// Sets a register of any class, and goes on.
#[inline(always)]
fn set(item: &mut Item, target: AnyRegister, bits: u64)
    requires { item.old.next < 2 ^ 32 }
    ensures { item.new ≡ onward item.old (with_any item.old.registers target bits) }
{
    item.registers.set_any(target, bits);
    item.next += 1;
}

#[inline(always)]
fn load_step(
    context: &ItemContext<'_>,
    item: &mut Item,
    memory: &Memory,
    step: &LoadStep,
) -> Outcome
    requires { item.old.next < 2 ^ 32 }
    ensures { Acts (act (surroundings context.now) item.old (contents memory.now) (step_arm.Load step.now)) result item.new (contents memory.now) }
{
    let address = address_of(&item.registers, step.pointer);
    match load(context.view, &memory.written, address, bytes_of(step.kind)) {
        Ok(value) => {
            set(item, step.target, convert(step.kind, step.kind, value));
            Outcome::GoesOn
        }
        Err(rule) => Outcome::Broke(rule, SegmentAddress::Global(address)),
    }
}

#[inline(always)]
fn store_step(
    alloc: Global,
    context: &ItemContext<'_>,
    item: &mut Item,
    memory: &mut Memory,
    step: &StoreStep,
) -> Outcome
    requires { item.old.next < 2 ^ 32 }
    ensures { Acts (act (surroundings context.now) item.old (contents memory.old) (step_arm.Store step.now)) result item.new (contents memory.new) }
{
    let address = address_of(&item.registers, step.pointer);
    let value = item.registers.read_any(step.source);
    let size = bytes_of(step.kind);
    match store(
        alloc,
        context.view,
        &mut memory.written,
        address,
        size,
        value,
    ) {
        Ok(()) => {
            item.next += 1;
            Outcome::GoesOn
        }
        Err(StoreError::Broke(rule)) => Outcome::Broke(rule, SegmentAddress::Global(address)),
        Err(StoreError::OutOfMemory) => Outcome::OutOfMemory,
    }
}

#[inline(always)]
fn group_load_step(
    context: &ItemContext<'_>,
    item: &mut Item,
    memory: &Memory,
    step: &GroupLoadStep,
) -> Outcome
    requires { item.old.next < 2 ^ 32 }
    ensures { Acts (act (surroundings context.now) item.old (contents memory.now) (step_arm.LoadGroup step.now)) result item.new (contents memory.now) }
{
    let address = group_address_of(&item.registers, step.pointer);
    match group_access::load(memory.group.as_slice(), address, bytes_of(step.kind)) {
        Ok(value) => {
            set(item, step.target, convert(step.kind, step.kind, value));
            Outcome::GoesOn
        }
        Err(rule) => Outcome::Broke(rule, SegmentAddress::Group(address)),
    }
}

#[inline(always)]
fn group_store_step(
    context: &ItemContext<'_>,
    item: &mut Item,
    memory: &mut Memory,
    step: &GroupStoreStep,
) -> Outcome
    requires { item.old.next < 2 ^ 32 }
    ensures { Acts (act (surroundings context.now) item.old (contents memory.old) (step_arm.StoreGroup step.now)) result item.new (contents memory.new) }
{
    let address = group_address_of(&item.registers, step.pointer);
    let value = item.registers.read_any(step.source);
    let size = bytes_of(step.kind);
    match group_access::store(memory.group.as_mut_slice(), address, size, value) {
        Ok(()) => {
            item.next += 1;
            Outcome::GoesOn
        }
        Err(rule) => Outcome::Broke(rule, SegmentAddress::Group(address)),
    }
}

/// One step of one work-item.
#[inline]
pub fn act(
    alloc: Global,
    context: &ItemContext<'_>,
    item: &mut Item,
    memory: &mut Memory,
    step: &Step,
) -> Outcome
    requires next { item.old.next < 2 ^ 32 }
    requires within { ReadsWithin (length context.now.arguments.now) step.now }
    ensures { Acts (act (surroundings context.now) item.old (contents memory.old) step.now) result item.new (contents memory.new) }
{
    match step {
        Step::Control(set) => {
            let bit = value1(&item.registers, &set.operation);
            item.registers.set1(set.target, bit);
            item.next += 1;
        }
        Step::Single(set) => {
            let bits = value32(&item.registers, &set.operation);
            item.registers.set32(set.target, bits);
            item.next += 1;
        }
        Step::Double(set) => {
            let bits = value64(&item.registers, &set.operation);
            item.registers.set64(set.target, bits);
            item.next += 1;
        }
        Step::Convert(step) => {
            let source = item.registers.read_any(step.source);
            set(item, step.target, convert(step.from, step.to, source));
        }
        Step::Argument(step) => set(item, step.target, argument(context.arguments, step)),
        Step::Load(step) => return load_step(context, item, memory, step),
        Step::Store(step) => return store_step(alloc, context, item, memory, step),
        Step::LoadGroup(step) => return group_load_step(context, item, memory, step),
        Step::StoreGroup(step) => return group_store_step(context, item, memory, step),
        Step::Atomic32(step) => return atomic_step32(alloc, context, item, memory, step),
        Step::Atomic64(step) => return atomic_step64(alloc, context, item, memory, step),
        Step::Branch(next) => item.next = *next,
        Step::ConditionalBranch(branch) => {
            let next = item.next + 1;
            item.next = if item.registers.read1(branch.condition) {
                branch.next
            } else {
                next
            };
        }
        Step::Return => return Outcome::Ended,
        Step::Barrier => {
            item.next += 1;
            return Outcome::Arrived;
        }
        Step::WorkItemQuery(query) => {
            let answer = context.location.answer(query.query, query.dimension);
            set(item, query.target, answer);
        }
    }
    Outcome::GoesOn
}
