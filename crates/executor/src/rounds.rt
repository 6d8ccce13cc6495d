//! The items of a work-group, from barrier to barrier.
ghost use Rattle.std.specs.Prelude.{◌≡◌, ◌+◌, ◌-◌, ◌≤◌, true, IfOk, IfErr, OnOk, length, map};
ghost use Rattle.std.specs.List.{list_all};
ghost use Rattle.executor.specs.Group.{beginning, context_of_item, done, running, least_waiting, waits_before, Leads};
ghost use Rattle.executor.specs.inner.Few.{SetFew};
ghost use Rattle.executor.specs.inner.Held.{contents, surroundings};
ghost use Rattle.executor.specs.Locations.{count_of};
ghost use Rattle.executor.specs.Runs.{Fails};
ghost use Rattle.executor.specs.inner.Stops.{after, standing, stopped_again, keep_stopped, CanGoOnFrom};
ghost use Rattle.executor.specs.declared.limits.TheConstants.{MOST_GROUP_ITEMS};

use crate::fault::RunFault;
use crate::item::{ItemContext, StoppedItem};
use crate::item_run::{fault, id_behind, run_item};
use crate::memory::Memory;
use crate::registers_set::set_few;
use kernel_check::Program;
use queue_error::Rule;
use std::alloc::{AllocError, Global};

/// A work-item that waits at a barrier.
#[derive(Clone, Copy)]
pub struct Waiter {
    /// The work-item's number in its work-group.
    pub number: u32,
    /// The number of the step behind the barrier.
    pub next: usize,
}

/// Runs the items of a work-group, one after another from barrier to barrier, until all have ended or one
/// breaks a rule.
pub fn run_items(
    alloc: Global,
    context: &ItemContext<'_>,
    program: &Program,
    count: u32,
    memory: &mut Memory,
) -> Result<(), RunFault>
    requires arguments { length context.now.arguments.now ≡ program.now.argument_bytes }
    requires count { count ≡ count_of context.now.location.current_size }
    requires few { count ≤ MOST_GROUP_ITEMS }
    ensures ok { OnOk result (Leads (surroundings context.now) program.now (beginning count (contents memory.old)) (done (contents memory.new))) }
    ensures err { IfErr result (Fails (surroundings context.now) program.now (beginning count (contents memory.old))) }
{
    let mut stopped = run_to_first_barrier(alloc, context, program, count, memory)?;
    let ended = count - stopped.len() as u32;
    'rounds: loop {
        let Some(waiter) = least_waiting(ended, stopped.as_slice()) else {
            return Ok(());
        };
        if !wait_together(ended, stopped.as_slice(), waiter.next) {
            let barrier = waiter.next.saturating_sub(1);
            return Err(fault(program, waiter.number, barrier, Rule::A6, None));
        }
        if let Err(fault) = run_past_barrier(
            alloc,
            context,
            program,
            stopped.as_mut_slice(),
            memory,
        ) {
            return Err(fault);
        }
    }
}

/// Runs items that begin, one after another, each until it stops; those that ended before the first that
/// waits aren't kept.
#[inline(never)]
fn run_to_first_barrier(
    alloc: Global,
    context: &ItemContext<'_>,
    program: &Program,
    count: u32,
    memory: &mut Memory,
) -> Result<Vec<StoppedItem>, RunFault>
    requires arguments { length context.now.arguments.now ≡ program.now.argument_bytes }
    requires count { count ≡ count_of context.now.location.current_size }
    requires few { count ≤ MOST_GROUP_ITEMS }
    ensures ok { IfOk result (λ stopped. Leads (surroundings context.now) program.now (beginning count (contents memory.old))
        (running (after (count - length stopped.items) (map standing stopped.items)) (contents memory.new))) }
    ensures few { IfOk result (λ stopped. length stopped.items ≤ count) }
    ensures err { IfErr result (Fails (surroundings context.now) program.now (beginning count (contents memory.old))) }
{
    let mut stopped: Vec<StoppedItem> = Vec::new(alloc);
    let mut own = first_of(context);
    let mut broken = RunFault::OutOfMemory;
    let few = sets_few(program, count);
    let mut item = StoppedItem::fresh();
    'items: for number in 0..count {
        item.begin_anew(few);
        if !run_item(alloc, &own, program, number, &mut item, memory, &mut broken) {
            return Err(broken);
        }
        keep_stopped(&mut stopped, &item)?;
        let item_behind = id_behind(&own.location.current_size(), &own.location.item_id());
        own.location.move_to(&item_behind);
    }
    Ok(stopped)
}

/// Whether a kernel sets few registers, where so many items gain more by it than a look at each step costs.
fn sets_few(program: &Program, count: u32) -> bool
    ensures { result ≡ true → SetFew program.now.steps }
{
    let steps = program.steps();
    if steps.len() / 8 < count as usize {
        return set_few(steps);
    }
    false
}

/// What surrounds the first item of a group.
fn first_of<'a>(context: &ItemContext<'a>) -> ItemContext<'a>
    ensures { surroundings result ≡ context_of_item (surroundings context.now) 0 }
{
    ItemContext {
        arguments: context.arguments,
        view: context.view,
        location: context.location.first(),
    }
}

/// Puts an item behind others, but one that ended before any waits.
fn keep_stopped(stopped: &mut Vec<StoppedItem>, item: &StoppedItem) -> Result<(), AllocError>
    ensures { OnOk result (stopped.new.items ≡ keep_stopped stopped.old.items item.now) }
{
    if stopped.len() > 0 || item.waits() {
        stopped.push(*item)?;
    }
    Ok(())
}

/// Runs items that wait, one after another, each until it stops again.
#[inline(never)]
fn run_past_barrier(
    alloc: Global,
    context: &ItemContext<'_>,
    program: &Program,
    stopped: &mut [StoppedItem],
    memory: &mut Memory,
) -> Result<(), RunFault>
    requires arguments { length context.now.arguments.now ≡ program.now.argument_bytes }
    requires count { length stopped.old ≡ count_of context.now.location.current_size }
    requires few { length stopped.old ≤ MOST_GROUP_ITEMS }
    requires can { CanGoOnFrom 0 stopped.old }
    ensures ok { OnOk result (Leads (surroundings context.now) program.now (running (stopped_again 0 stopped.old) (contents memory.old))
        (running (map standing stopped.new) (contents memory.new))) }
    ensures count { OnOk result (length stopped.new ≡ length stopped.old) }
    ensures err { IfErr result (Fails (surroundings context.now) program.now (running (stopped_again 0 stopped.old) (contents memory.old))) }
{
    let mut own = first_of(context);
    let mut broken = RunFault::OutOfMemory;
    'items: for number in 0..stopped.len() {
        let item = &mut stopped[number];
        if !run_item(
            alloc,
            &own,
            program,
            number as u32,
            item,
            memory,
            &mut broken,
        ) {
            return Err(broken);
        }
        let item_behind = id_behind(&own.location.current_size(), &own.location.item_id());
        own.location.move_to(&item_behind);
    }
    Ok(())
}

/// The least item that waits, so many that have ended being before these.
fn least_waiting(ended: u32, stopped: &[StoppedItem]) -> Option<Waiter>
    requires { ended + length stopped.now ≤ MOST_GROUP_ITEMS }
    ensures { result ≡ least_waiting 0 (after ended (map standing stopped.now)) }
{
    'items: for index in 0..stopped.len() {
        let item = &stopped[index];
        if item.waits() {
            return Some(Waiter {
                number: ended + index as u32,
                next: item.item.next,
            });
        }
    }
    None
}

/// Whether all items wait at the barrier before a step, so many that have ended being before these.
fn wait_together(ended: u32, stopped: &[StoppedItem], next: usize) -> bool
    ensures { result ≡ list_all (waits_before next) (after ended (map standing stopped.now)) }
{
    if ended > 0 {
        return false;
    }
    'items: for item in stopped {
        if !item.waits() || item.item.next != next {
            return false;
        }
    }
    true
}
