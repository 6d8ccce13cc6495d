//! A core is opened.

ghost use Rattle.std.specs.Prelude.{◌≡◌, ◌+◌, ◌<◌, [], All, IfOk, IfSome, IsTrue, Some, length, map, true};
ghost use Rattle.policy.specs.Policy.{initial_values, region_lengths, row_of};
ghost use Rattle.aql_packet.specs.Memory.{are_region_lengths};
ghost use Rattle.regions.specs.Memory.{zeros};
ghost use Rattle.core_model.specs.History.{IsOpeningOrigin};
ghost use Rattle.core_model.specs.Kernels.{segments_of};
ghost use Rattle.core_model.specs.Legal.{IsOpening};
ghost use Rattle.access_core.specs.inner.Untouched.{IsFirst, IsUntouched};
ghost use Rattle.access_core.specs.Opening.{first_missing, has_entry, is_capacity, open_fault, Opens, program_of};

use crate::access::{AccessCore, OpenFault};
use crate::fresh::Fresh;
use crate::kernel::Kernel;
use crate::spare_lists::SpareLists;
use aql_packet::{KernelObject, RegionHandle, SignalHandle};
use boxed::Boxed;
use core_model::{
    ALL_IN_FLIGHT, Entry, KernelSegments, MOST_ENTRIES, Origin, PacketOrigin, QUEUES, QueueOrigin,
};
use grants::Grants;
use policy::{Kind, Policy};
use regions::Regions;
use sequences::{Ample, Reserved, Sequence};
use signals::Signals;
use std::alloc::{AllocError, Global};

/// What calls change beside queues and packets.
#[derive(Drop)]
struct State {
    grants: Grants,
    memory: Regions,
    signals: Signals,
}

/// What a core gets memory for when it is opened, beside what its history begins from.
#[derive(Drop)]
struct Parts {
    segments: Vec<KernelSegments>,
    state: State,
    fresh: Fresh,
    audit: Reserved<Entry>,
}

impl AccessCore {
    /// Opens a core over a policy, with a kernel for each of the policy's: no right is in force, memory
    /// is all zeros, each signal has its initial value, no queue is open, and the audit is empty, with
    /// places for `capacity` entries. Memory for all of them is got here. Refused in this order: there
    /// isn't one kernel for each of the policy's; one has no index, or one that is no checked kernel's; the
    /// capacity isn't 1 to 2^20.
    pub fn open(
        alloc: Global,
        policy: Policy,
        kernels: Vec<Kernel>,
        capacity: usize,
    ) -> Result<AccessCore, OpenFault>
        ensures { Opens policy kernels.items capacity result }
    {
        if let Some(fault) = open_fault(&policy, kernels.as_slice(), capacity) {
            return Err(fault);
        }
        match get_parts(alloc, &policy, kernels.as_slice(), capacity) {
            Ok(parts) => match opening_origin(alloc, policy) {
                Ok(start) => Ok(blank(alloc, start, kernels, capacity, parts)),
                Err(_) => Err(OpenFault::OutOfMemory),
            },
            Err(_) => Err(OpenFault::OutOfMemory),
        }
    }
}

// Why a core can't be opened, if it can't.
fn open_fault(policy: &Policy, kernels: &[Kernel], capacity: usize) -> Option<OpenFault>
    ensures { result ≡ open_fault policy.now kernels.now capacity }
{
    if kernels.len() != policy.object_count(Kind::Kernel) {
        return Some(OpenFault::KernelCount);
    }
    match first_missing(kernels) {
        Some(index) => Some(OpenFault::NoEntry(KernelObject(index as u64 + 1))),
        None if !is_capacity(capacity) => Some(OpenFault::BadCapacity),
        None => None,
    }
}

// The place of the first kernel that has no index, or one that is no checked kernel's, if there is one.
fn first_missing(kernels: &[Kernel]) -> Option<usize>
    ensures place { result ≡ first_missing kernels.now }
    ensures within { IfSome result (λ index. index < length kernels.now) }
{
    'kernels: for (index, kernel) in kernels.iter().enumerate() {
        if !kernel.has_entry() {
            return Some(index);
        }
    }
    None
}

// Gets memory for what a policy declares, for its kernels' segments, and for an audit with so many
// places.
fn get_parts(
    alloc: Global,
    policy: &Policy,
    kernels: &[Kernel],
    capacity: usize,
) -> Result<Parts, AllocError>
    requires { All (λ kernel. has_entry kernel ≡ true) kernels.now }
    ensures { IfOk result (IsUntouched policy.now kernels.now capacity) }
{
    let segments = segments(alloc, kernels)?;
    let state = first_state(alloc, policy)?;
    let fresh = Fresh::get(alloc)?;
    let audit = Reserved::with_room(alloc, capacity)?;
    Ok(Parts {
        segments,
        state,
        fresh,
        audit,
    })
}

// What is in force, in memory and in signals where nothing has happened.
fn first_state(alloc: Global, policy: &Policy) -> Result<State, AllocError>
    ensures { IfOk result (IsFirst policy.now) }
{
    let grants = Grants::new(alloc, policy)?;
    let memory = zero_memory(alloc, policy)?;
    let signals = begin_signals(alloc, policy)?;
    Ok(State {
        grants,
        memory,
        signals,
    })
}

// How large the segments of kernels are.
fn segments(alloc: Global, kernels: &[Kernel]) -> Result<Vec<KernelSegments>, AllocError>
    requires { All (λ kernel. has_entry kernel ≡ true) kernels.now }
    ensures { IfOk result (λ segments. segments.items ≡ map segments_of (map program_of kernels.now)) }
{
    let mut segments = Vec::new(alloc);
    for kernel in kernels {
        segments.push(kernel.segments())?;
    }
    Ok(segments)
}

// A policy's regions, all zeros.
fn zero_memory(alloc: Global, policy: &Policy) -> Result<Regions, AllocError>
    ensures { IfOk result (λ memory. memory ≡ zeros (region_lengths policy.now)) }
{
    let lengths = region_lengths(alloc, policy)?;
    law_of_lengths(policy, lengths.as_slice());
    Regions::new(alloc, lengths.as_slice())
}

// A policy's signals, with their initial values.
fn begin_signals(alloc: Global, policy: &Policy) -> Result<Signals, AllocError>
    ensures { IfOk result (λ signals. signals ≡ initial_values policy.now) }
{
    let values = signal_values(alloc, policy)?;
    Signals::new(alloc, values.as_slice())
}

// Whether an audit may have so many places: 1 to 2^20.
fn is_capacity(capacity: usize) -> bool
    ensures { result ≡ is_capacity capacity }
{
    1 <= capacity && capacity <= MOST_ENTRIES
}

// The lengths of a policy's regions, in order.
fn region_lengths(alloc: Global, policy: &Policy) -> Result<Sequence<u32>, AllocError>
    ensures { IfOk result (λ lengths. lengths ≡ region_lengths policy.now) }
{
    let mut lengths = Sequence::new(alloc);
    for before in 0..policy.object_count(Kind::Region) {
        lengths.push(length_at(policy, before))?;
    }
    Ok(lengths)
}

// The length of the region behind so many others.
#[tactic(auto, using(crate::proofs::PolicyRows::rows_none))]
fn length_at(policy: &Policy, before: usize) -> u32
    requires there { before < length policy.now.regions }
    requires small { before < 1024 }
    ensures { row_of policy.now.regions (before + 1) ≡ Some result }
{
    policy
        .region_length(RegionHandle(before as u32 + 1))
        .unwrap_or(0)
}

// Memory takes the lengths of a policy's regions: each policy is within its limits.
#[tactic(none)]
fn law_of_lengths(policy: &Policy, lengths: &[u32])
    requires { lengths.now ≡ region_lengths policy.now }
    ensures { IsTrue (are_region_lengths lengths.now) }
{
    policy.object_count(Kind::Region);
}

// The initial values of a policy's signals, in order.
fn signal_values(alloc: Global, policy: &Policy) -> Result<Sequence<i64>, AllocError>
    ensures { IfOk result (λ values. values ≡ initial_values policy.now) }
{
    let mut values = Sequence::new(alloc);
    for before in 0..policy.object_count(Kind::Signal) {
        values.push(value_at(policy, before))?;
    }
    Ok(values)
}

// The initial value of the signal behind so many others.
#[tactic(auto, using(crate::proofs::PolicyRows::rows_none))]
fn value_at(policy: &Policy, before: usize) -> i64
    requires there { before < length policy.now.signals }
    requires small { before < 1024 }
    ensures { row_of policy.now.signals (before + 1) ≡ Some result }
{
    policy
        .signal_initial(SignalHandle(before as u64 + 1))
        .unwrap_or(0)
}

// What a history begins from in which nothing has happened, in memory of its own.
fn opening_origin(alloc: Global, policy: Policy) -> Result<Boxed<Origin>, AllocError>
    ensures { IfOk result (IsOpeningOrigin policy) }
{
    match first_state(alloc, &policy) {
        Ok(state) => match first_lists(alloc) {
            Ok(lists) => boxed(alloc, first_origin(policy, state, lists)),
            Err(want) => Err(want),
        },
        Err(want) => Err(want),
    }
}

/// Lists for queues and packets, which are empty.
#[derive(Drop)]
struct Lists {
    queues: Ample<QueueOrigin, QUEUES>,
    packets: Ample<PacketOrigin, ALL_IN_FLIGHT>,
}

// Memory for what is told of queues and packets.
fn first_lists(alloc: Global) -> Result<Lists, AllocError>
    ensures { IfOk result (λ lists. (lists.queues ≡ []) × (lists.packets ≡ [])) }
{
    Ok(Lists {
        queues: Ample::get(alloc)?,
        packets: Ample::get(alloc)?,
    })
}

// What a history begins from, in memory of its own.
fn boxed(alloc: Global, origin: Origin) -> Result<Boxed<Origin>, AllocError>
    ensures { IfOk result (λ kept. kept ≡ origin) }
{
    Ok(Boxed::new(alloc, origin)?)
}

// What a history begins from in which nothing has happened.
fn first_origin(policy: Policy, state: State, lists: Lists) -> Origin
    requires first { IsFirst policy state }
    requires none { (lists.queues ≡ []) × (lists.packets ≡ []) }
    ensures { IsOpeningOrigin policy result }
{
    let State {
        grants,
        memory,
        signals,
    } = state;
    Origin {
        policy,
        grants,
        memory,
        signals,
        queues: lists.queues,
        opened: 0,
        packets: lists.packets,
        before: 0,
    }
}

// A core in which nothing has happened.
#[tactic(none)]
fn blank(
    alloc: Global,
    start: Boxed<Origin>,
    kernels: Vec<Kernel>,
    capacity: usize,
    parts: Parts,
) -> AccessCore
    requires begins { IsOpeningOrigin start.policy start }
    requires untouched { IsUntouched start.policy kernels.items capacity parts }
    requires entries { All (λ kernel. has_entry kernel ≡ true) kernels.items }
    requires few { is_capacity capacity ≡ true }
    ensures { IsOpening result.history start.policy (map program_of kernels.items) capacity }
{
    let Parts {
        segments,
        state,
        fresh,
        audit,
    } = parts;
    let State {
        grants,
        memory,
        signals,
    } = state;
    AccessCore {
        start,
        kernels,
        segments,
        grants,
        spare: SpareLists::new(alloc),
        fresh,
        told: 0,
        memory,
        signals,
        queues: Vec::new(alloc),
        opened: 0,
        in_flight_count: 0,
        capacity,
        audit,
    }
}
