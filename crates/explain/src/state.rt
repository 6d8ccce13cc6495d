//! What there is at a moment of a run: rights in force, queues with their packets, signals, memory that isn't zero, and the
//! audit's room.

use crate::known::Known;
use crate::queue_states::put_queues;
use crate::scene::Scene;
use crate::texts::put_client;
use access_core::AccessCore;
use aql_packet::{Address, ClientId, REGION_SPAN, RegionHandle, SignalHandle};
use core_model::{Effect, Entry};
use policy::{Kind, Object, Policy, Right, Rights};
use regions::Regions;
use std::alloc::{AllocError, Global};
use world::World;

/// How many bytes of memory a line tells (own).
const ROW: usize = 16;

/// How many such lines are told of a region at the most (own).
const MOST_ROWS: u64 = 16;

/// What there is, a line for each thing, and how many lines that are.
#[derive(Drop)]
pub struct State {
    pub count: u64,
    pub lines: String,
}

impl State {
    /// Ends a line.
    pub fn end_line(&mut self) -> Result<(), AllocError> {
        self.count = self.count.saturating_add(1);
        self.lines.push_str("\n")
    }
}

// Puts rights behind a text, with commas.
fn put_rights(out: &mut String, rights: Rights) -> Result<(), AllocError> {
    let mut before = "";
    for right in Right::ALL {
        if rights.has(right) {
            out.push_str(before)?;
            out.push_str(right.name())?;
            before = ",";
        }
    }
    Ok(())
}

// Puts a client's rights on objects behind a text.
fn put_listed(
    out: &mut String,
    policy: &Policy,
    listed: &[(Object, Rights)],
) -> Result<(), AllocError> {
    let mut before = " ";
    for (object, rights) in listed {
        let kind = object.kind();
        write!(out, "{before}{kind} ")?;
        out.push_str(policy.object_name(*object).unwrap_or("?"))?;
        out.push_str(" ")?;
        put_rights(out, *rights)?;
        before = "; ";
    }
    out.push_str(if listed.is_empty() { " no rights" } else { "" })
}

// Puts a line for each client: the rights that are in force.
fn put_clients(alloc: Global, state: &mut State, core: &AccessCore) -> Result<(), AllocError> {
    let policy = core.policy();
    for before in 0..policy.client_count() {
        let client = ClientId((before as u32).saturating_add(1));
        let Ok(listed) = core.list(alloc, client) else {
            return Err(AllocError);
        };
        state.lines.push_str("client ")?;
        put_client(&mut state.lines, policy, client)?;
        state.lines.push_str(":")?;
        put_listed(&mut state.lines, policy, listed.as_slice())?;
        state.end_line()?;
    }
    Ok(())
}

// Puts a line for each signal: its value.
fn put_signals(state: &mut State, core: &AccessCore) -> Result<(), AllocError> {
    let policy = core.policy();
    for before in 0..policy.object_count(Kind::Signal) {
        let signal = SignalHandle((before as u64).saturating_add(1));
        let name = policy.object_name(Object::Signal(signal)).unwrap_or("?");
        let value = core.value_of(signal).unwrap_or(0);
        write!(state.lines, "signal {name}: {value}")?;
        state.end_line()?;
    }
    Ok(())
}

// Lays what an entry wrote over the memory before it.
fn lay(memory: &mut Regions, entry: &Entry) {
    for effect in entry.effects.as_slice() {
        if let Effect::Write { address, bytes } = effect {
            let _ = memory.write(*address, bytes.as_slice());
        }
    }
}

// The memory as it is: that from which the audit goes on, and what its entries wrote.
fn memory_of(alloc: Global, core: &AccessCore) -> Result<Regions, AllocError> {
    let mut memory = core.start().memory.copy(alloc)?;
    for entry in core.audit() {
        lay(&mut memory, entry);
    }
    Ok(memory)
}

// Whether all of some bytes are zero.
fn are_zeros(bytes: &[u8]) -> bool {
    bytes.iter().all(|byte| *byte == 0)
}

// Puts a line for some bytes of a region from an offset on.
fn put_row(state: &mut State, name: &str, offset: usize, bytes: &[u8]) -> Result<(), AllocError> {
    write!(state.lines, "memory {name}+{offset}: ")?;
    for byte in bytes {
        write!(state.lines, "{byte:02x}")?;
    }
    state.end_line()
}

// Puts a line for each sixteen bytes of a region that aren't all zero, up to so many, and how many further ones there are.
fn put_region(state: &mut State, name: &str, bytes: &[u8]) -> Result<(), AllocError> {
    let mut rows = 0u64;
    for (place, row) in bytes.chunks(ROW).enumerate() {
        if are_zeros(row) {
            continue;
        }
        if rows < MOST_ROWS {
            put_row(state, name, place.saturating_mul(ROW), row)?;
        }
        rows = rows.saturating_add(1);
    }
    let further = rows.saturating_sub(MOST_ROWS);
    if further > 0 {
        write!(state.lines, "memory {name}: {further} more of {ROW} bytes")?;
        state.end_line()?;
    }
    Ok(())
}

// Puts the lines for the memory that isn't zero.
fn put_memory(alloc: Global, state: &mut State, core: &AccessCore) -> Result<(), AllocError> {
    let memory = memory_of(alloc, core)?;
    let policy = core.policy();
    for before in 0..policy.object_count(Kind::Region) {
        let region = RegionHandle((before as u32).saturating_add(1));
        let first = Address((region.0 as u64).saturating_mul(REGION_SPAN));
        let name = policy.object_name(Object::Region(region)).unwrap_or("?");
        let length = policy.region_length(region).unwrap_or(0);
        if let Ok(bytes) = memory.read(first, length as u64) {
            put_region(state, name, bytes)?;
        }
    }
    Ok(())
}

// Puts a line for the audit's room.
fn put_audit(state: &mut State, core: &AccessCore) -> Result<(), AllocError> {
    let sizes = core.table_sizes();
    let taken = core.audit().len();
    let kept = sizes.argument_blocks;
    let before = core.entries_before();
    let places = sizes.audit_places;
    write!(
        state.lines,
        "audit: {taken} of {places} places taken, {kept} kept for packets in flight, {before} entries handed out"
    )?;
    state.end_line()
}

/// What there is in a world.
pub fn state_of(alloc: Global, world: &World) -> Result<State, AllocError> {
    let core = world.core();
    let scene = Scene::of(Known::Now(core), 0);
    let mut state = State {
        count: 0,
        lines: String::new(alloc),
    };
    put_clients(alloc, &mut state, core)?;
    put_queues(&mut state, &scene, world)?;
    put_signals(&mut state, core)?;
    put_memory(alloc, &mut state, core)?;
    put_audit(&mut state, core)?;
    Ok(state)
}
