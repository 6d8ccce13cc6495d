//! The audit is rotated: its entries so far are handed out, and the history goes on from the state behind them.

ghost use Rattle.std.specs.Prelude.{◌≡◌, ◌≤◌, ◌<◌, ◌++◌, false, fold, length, map, option_to_list, All, IfOk, List, None, OnOk};
ghost use Rattle.core_model.specs.declared.limits.TheConstants.{ALL_IN_FLIGHT, MOST_IN_FLIGHT, QUEUES};
ghost use Rattle.std.specs.List.{filter_map};
ghost use Rattle.std.specs.Option.{option_copied};
ghost use Rattle.core_model.specs.History.{begin, beginning};
ghost use Rattle.policy.specs.Policy.{region_lengths};
ghost use Rattle.regions.specs.Memory.{lengths_of};
ghost use Rattle.core_model.specs.Legal.{IsLegalPart, SameOrigin};
ghost use Rattle.core_model.specs.Rotation.{Rotates, lies_too_far};
ghost use Rattle.core_model.specs.States.{state_after};
ghost use Rattle.grants.specs.Ledger.{IsCopy};
ghost use Rattle.access_core.specs.declared.argument_blocks.ArgumentBlock.{ArgumentBlock};
ghost use Rattle.access_core.specs.inner.ArgumentBlocks.{all_blocks};
ghost use Rattle.access_core.specs.inner.Cached.{IsKeptStart, IsSound};
ghost use Rattle.access_core.specs.inner.Numbers.{AscendFrom, queue_in};
ghost use Rattle.access_core.specs.inner.Origins.{AreInOrder, NumbersFit, packet_origin, queue_origin, sooner, sought_in, told_origin};

use crate::access::AccessCore;
use crate::access::lookups::queue_of;
use crate::argument_blocks::ArgumentBlock;
use crate::fresh::flying;
use crate::queue::Queue;
use aql_packet::{PacketId, QueueId};
use boxed::Boxed;
use core_model::{
    ALL_IN_FLIGHT, MOST_BEFORE, Opening, Origin, PacketOrigin, Part, QUEUES, QueueOrigin, Refusal,
};
use packet_processor::Place;
use sequences::{Ample, Few, Reserved};
use std::alloc::{AllocError, Global};
use std::mem::replace;

impl AccessCore {
    /// Hands out the history so far, as a part: what it began from, its entries, and the state behind them. From
    /// that state it goes on, with an empty audit of the same capacity. No entry tells of it, numbers of entries
    /// go on, and no packet, right or signal changes. Refused in this order: more than 2^62 entries would lie
    /// before the new start; memory for the state, twice, and for the audit isn't to be had.
    pub fn rotate(&mut self, alloc: Global) -> Result<Part, Refusal>
        ensures rotated { Rotates self.old.history result self.new.history }
        ensures legal { IfOk result (λ part. IsLegalPart self.old.history.kernels part) }
        ensures places { self.new.places ≡ self.old.places }
    {
        if self.lies_too_far() {
            return Err(Refusal::AuditFull);
        }
        let end = self.boxed_origin(alloc)?;
        let next = boxed_copy(alloc, end.as_ref())?;
        let empty = Reserved::with_room(alloc, self.capacity)?;
        self.fresh.provide(alloc, self.in_flight_count, 0, 0)?;
        let start = replace(&mut self.start, next);
        let entries = replace(&mut self.audit, empty);
        self.told = 0;
        Ok(Part::new(start, entries, end))
    }

    /// Whether more entries would lie before the next start than may.
    pub(crate) fn lies_too_far(&self) -> bool
        ensures { result ≡ lies_too_far self.now.history }
    {
        self.entries_before() + self.audit.len() as u64 > MOST_BEFORE
    }

    // What the history goes on from behind the audit, in memory of its own.
    fn boxed_origin(&self, alloc: Global) -> Result<Boxed<Origin>, AllocError>
        requires { lies_too_far self.now.history ≡ false }
        ensures begins { IfOk result (λ origin.
            begin self.now.history.kernels origin ≡ state_after (beginning self.now.history) self.now.history.entries) }
        ensures kept { IfOk result IsKeptStart }
        ensures policy { IfOk result (λ origin. origin.policy ≡ self.now.history.origin.policy) }
        ensures lengths { IfOk result (λ origin. lengths_of origin.memory ≡ region_lengths self.now.history.origin.policy) }
    {
        let origin = self.origin_behind(alloc)?;
        Ok(Boxed::new(alloc, origin)?)
    }

    // What the history goes on from behind the audit, as data.
    fn origin_behind(&self, alloc: Global) -> Result<Origin, AllocError>
        requires { lies_too_far self.now.history ≡ false }
        ensures begins { IfOk result (λ origin.
            begin self.now.history.kernels origin ≡ state_after (beginning self.now.history) self.now.history.entries) }
        ensures kept { IfOk result IsKeptStart }
        ensures policy { IfOk result (λ origin. origin.policy ≡ self.now.history.origin.policy) }
        ensures lengths { IfOk result (λ origin. lengths_of origin.memory ≡ region_lengths self.now.history.origin.policy) }
    {
        self.regions_fit();
        Ok(Origin {
            policy: self.policy().copy(alloc)?,
            grants: self.grants.copy(alloc)?,
            memory: self.memory.copy(alloc)?,
            signals: self.signals.copy(alloc)?,
            queues: queue_origins(alloc, self.queues.as_slice())?,
            opened: self.opened,
            packets: packet_origins(alloc, self.queues.as_slice(), self.in_flight_count)?,
            before: self.entries_before() + self.audit.len() as u64,
        })
    }
}

// The same to begin from once more, in memory of its own.
fn boxed_copy(alloc: Global, origin: &Origin) -> Result<Boxed<Origin>, AllocError>
    ensures same { IfOk result (λ copy. SameOrigin copy origin.now) }
    ensures policy { IfOk result (λ copy. copy.policy ≡ origin.now.policy) }
    ensures grants { IfOk result (λ copy. IsCopy origin.now.grants copy.grants) }
{
    let copy = origin.copy(alloc)?;
    Ok(Boxed::new(alloc, copy)?)
}

// What is kept of a queue, as data.
fn queue_origin(queue: &Queue) -> QueueOrigin
    requires { length queue.now.errors.items ≤ MOST_IN_FLIGHT }
    ensures { result ≡ queue_origin queue.now }
{
    QueueOrigin {
        queue: queue.number,
        opening: Opening {
            client: queue.client,
            agent: queue.agent,
        },
        next: queue.next,
        stopped: queue.stopped,
        errors: Few::of(queue.errors.as_slice()),
    }
}

/// Puts what is kept of all queues in the place of what was told of others.
pub(crate) fn tell_queues(origins: &mut Ample<QueueOrigin, QUEUES>, queues: &[Queue])
    requires few { length queues.now ≤ QUEUES }
    requires sound { All IsSound queues.now }
    ensures { origins.new ≡ map queue_origin queues.now }
{
    origins.clear();
    for queue in queues {
        origins.push(queue_origin(queue));
    }
}

// What is kept of all queues.
fn queue_origins(alloc: Global, queues: &[Queue]) -> Result<Ample<QueueOrigin, QUEUES>, AllocError>
    requires few { length queues.now ≤ QUEUES }
    requires sound { All IsSound queues.now }
    ensures { IfOk result (λ origins. origins ≡ map queue_origin queues.now) }
{
    let mut origins = Ample::get(alloc)?;
    tell_queues(&mut origins, queues);
    Ok(origins)
}

/// The place of a packet in its queue, if it is in flight.
pub(crate) fn place_in(queues: &[Queue], queue: QueueId, packet: PacketId) -> Option<&Place>
    requires { AscendFrom 0 queues.now }
    ensures { option_copied result ≡ sought_in (queue_in queues.now queue) packet }
{
    match queue_of(queues, queue) {
        Some(kept) => kept.places.get(packet),
        None => None,
    }
}

// What is kept of a packet in flight, as data, by its argument block and its place.
fn packet_origin(
    alloc: Global,
    block: &ArgumentBlock,
    place: &Place,
) -> Result<PacketOrigin, AllocError>
    ensures { IfOk result (λ origin. origin ≡ told_origin block.now place.now) }
{
    Ok(PacketOrigin {
        flying: flying(block, place),
        progress: place.progress,
        client: block.client,
        rights: block.rights.copy(alloc)?,
        arguments: block.bytes.copy(alloc)?,
    })
}

// Of a block and another the one with the lower number, if the block's number isn't below this one.
fn sooner<'a>(
    from: u64,
    other: Option<&'a ArgumentBlock>,
    block: &'a ArgumentBlock,
) -> Option<&'a ArgumentBlock>
    ensures { option_copied result ≡ sooner from (option_copied other.entry) block.now }
{
    if block.number < from {
        return other;
    }
    match other {
        None => Some(block),
        Some(one) => {
            if one.number <= block.number {
                Some(one)
            } else {
                Some(block)
            }
        }
    }
}

// Of these blocks and another the one with the lowest number, of those that aren't below this one.
fn soonest<'a>(
    from: u64,
    other: Option<&'a ArgumentBlock>,
    blocks: &'a [ArgumentBlock],
) -> Option<&'a ArgumentBlock>
    ensures { option_copied result ≡ fold (sooner from) (option_copied other.entry) blocks.now }
{
    let mut next = other;
    for block in blocks {
        next = sooner(from, next, block);
    }
    next
}

/// The argument block of the first launch from a number on, of the packets in flight.
pub(crate) fn next_launched<'a>(queues: &'a [Queue], from: u64) -> Option<&'a ArgumentBlock>
    ensures { option_copied result ≡ fold (sooner from) None (all_blocks queues.now) }
{
    let mut next = None;
    for queue in queues {
        next = soonest(from, next, queue.blocks.as_slice());
    }
    next
}

// What is kept of a packet in flight, as data, behind what is of others, if its place is there.
fn tell_packet(
    alloc: Global,
    origins: &mut Ample<PacketOrigin, ALL_IN_FLIGHT>,
    queues: &[Queue],
    block: &ArgumentBlock,
) -> Result<(), AllocError>
    requires ascending { AscendFrom 0 queues.now }
    requires free { length origins.old < ALL_IN_FLIGHT }
    ensures { OnOk result (origins.new ≡ origins.old ++ option_to_list (packet_origin queues.now block.now)) }
{
    if let Some(place) = place_in(queues, block.queue, block.packet) {
        origins.push(packet_origin(alloc, block, place)?);
    }
    Ok(())
}

/// What is kept of all packets in flight, which are so many, in the order of their launches.
pub(crate) fn packet_origins(
    alloc: Global,
    queues: &[Queue],
    count: usize,
) -> Result<Ample<PacketOrigin, ALL_IN_FLIGHT>, AllocError>
    requires ascending { AscendFrom 0 queues.now }
    requires few { NumbersFit (all_blocks queues.now) }
    requires fit { (count ≤ ALL_IN_FLIGHT) × ((blocks : List ArgumentBlock) × AreInOrder queues.now count blocks) }
    ensures { IfOk result (λ origins. (blocks : List ArgumentBlock) → AreInOrder queues.now count blocks → origins ≡ filter_map (packet_origin queues.now) blocks) }
{
    let mut origins = Ample::get(alloc)?;
    let mut from = 0;
    for told in 0..count {
        if let Some(block) = next_launched(queues, from) {
            tell_packet(alloc, &mut origins, queues, block)?;
            from = block.number + 1;
        }
    }
    Ok(origins)
}
