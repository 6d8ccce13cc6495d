//! The audit is truncated: its entries are dropped, and what the history begins from moves on by what they changed.

ghost use Rattle.std.specs.Prelude.{◌≡◌, ◌+◌, ◌<◌, ◌≤◌, [], ◌++◌, List, length, option_to_list};
ghost use Rattle.std.specs.List.{filter_map};
ghost use Rattle.aql_packet.specs.Ids.{same_packet};
ghost use Rattle.core_model.specs.Rotation.{Truncates};
ghost use Rattle.core_model.specs.declared.limits.TheConstants.{ALL_IN_FLIGHT};
ghost use Rattle.access_core.specs.declared.argument_blocks.ArgumentBlock.{ArgumentBlock};
ghost use Rattle.access_core.specs.inner.ArgumentBlocks.{all_blocks};
ghost use Rattle.access_core.specs.inner.MovingOn.{IsIndexIn, MayMove, MayTell, MovesOn};
ghost use Rattle.access_core.specs.inner.Numbers.{AscendFrom};
ghost use Rattle.access_core.specs.inner.Origins.{AreInOrder, NumbersFit, packet_origin, told_origin};
ghost use Rattle.access_core.specs.inner.Ready.{HasRoomFor, IsTold, LeavesOthers, Spends, WasTold};

use crate::access::AccessCore;
use crate::access::moving::move_on;
use crate::access::rotating::{next_launched, place_in, tell_queues};
use crate::argument_blocks::ArgumentBlock;
use crate::fresh::{Fresh, flying};
use crate::queue::Queue;
use aql_packet::{PacketId, QueueId};
use core_model::{ALL_IN_FLIGHT, Entry, Origin, PacketOrigin, Refusal};
use packet_processor::Place;
use sequences::{Ample, Reserved};
use std::alloc::Global;
use std::mem::{replace, swap};

impl AccessCore {
    /// Empties the audit as a rotation does whose part nobody gets: its entries were written down elsewhere. The history
    /// goes on from the state behind them, with an empty audit of the same capacity. It takes no memory, and of memory and
    /// signals nothing is copied but what the entries wrote. Refused where more than 2^62 entries would lie before the new
    /// start.
    pub fn truncate(&mut self, alloc: Global) -> Result<(), Refusal>
        ensures truncated { Truncates self.old.history result self.new.history }
        ensures places { self.new.places ≡ self.old.places }
    {
        if self.lies_too_far() {
            return Err(Refusal::AuditFull);
        }
        self.regions_fit();
        let before = self.entries_before() + self.audit.len() as u64;
        let entries = replace(&mut self.audit, Reserved::new(alloc));
        let start = self.start.as_mut();
        self.audit = go_on(start, entries);
        start.opened = self.opened;
        start.before = before;
        tell_queues(&mut start.queues, self.queues.as_slice());
        tell_packets(
            &mut start.packets,
            &mut self.fresh,
            self.told,
            self.queues.as_slice(),
            self.in_flight_count,
        );
        self.told = before;
        Ok(())
    }
}

// Moves what the history begins from on by entries, which are dropped: it answers their memory.
fn go_on(start: &mut Origin, audit: Reserved<Entry>) -> Reserved<Entry>
    requires { MayMove start.old audit.items }
    ensures moved { MovesOn start.old audit.items start.new }
    ensures empty { result.items ≡ [] }
    ensures room { result.room ≡ length audit.items + audit.room }
{
    let mut entries = audit.into_vec();
    move_on(start, entries.as_mut_slice());
    Reserved::empty_in(entries)
}

// Puts what is kept of all packets in flight, which are so many, in the place of what was told of others, in the order of their
// launches. What was told before of those that were launched before a number is told again, in the memory that it has.
fn tell_packets(
    origins: &mut Ample<PacketOrigin, ALL_IN_FLIGHT>,
    fresh: &mut Fresh,
    told: u64,
    queues: &[Queue],
    count: usize,
)
    requires ascending { AscendFrom 0 queues.now }
    requires few { NumbersFit (all_blocks queues.now) }
    requires ready { (blocks : List ArgumentBlock) × MayTell queues.now count told origins.old fresh.old blocks }
    ensures told { (blocks : List ArgumentBlock) → MayTell queues.now count told origins.old fresh.old blocks → origins.new ≡ filter_map (packet_origin queues.now) blocks }
    ensures spent { Spends count fresh.old fresh.new }
{
    fresh.packets.clear();
    swap(origins, &mut fresh.packets);
    tell_all(origins, fresh, told, queues, count);
    fresh.keep_told();
}

// Tells them behind those that are told, which are none yet.
fn tell_all(
    origins: &mut Ample<PacketOrigin, ALL_IN_FLIGHT>,
    fresh: &mut Fresh,
    told: u64,
    queues: &[Queue],
    count: usize,
)
    requires ascending { AscendFrom 0 queues.now }
    requires few { NumbersFit (all_blocks queues.now) }
    requires none { origins.old ≡ [] }
    requires ready { (blocks : List ArgumentBlock) × MayTell queues.now count told fresh.old.packets fresh.old blocks }
    ensures told { (blocks : List ArgumentBlock) → MayTell queues.now count told fresh.old.packets fresh.old blocks → origins.new ≡ filter_map (packet_origin queues.now) blocks }
    ensures spent { Spends count fresh.old fresh.new }
{
    let mut from = 0;
    for turns in 0..count {
        if let Some(block) = next_launched(queues, from) {
            tell_packet(origins, fresh, told, queues, block);
            from = block.number + 1;
        }
    }
}

// What is kept of a packet in flight, as data, behind what is of others, if its place is there.
fn tell_packet(
    origins: &mut Ample<PacketOrigin, ALL_IN_FLIGHT>,
    fresh: &mut Fresh,
    told: u64,
    queues: &[Queue],
    block: &ArgumentBlock,
)
    requires ascending { AscendFrom 0 queues.now }
    requires free { length origins.old < ALL_IN_FLIGHT }
    requires before { WasTold told fresh.old.packets block.now }
    requires room { told ≤ block.now.number → HasRoomFor fresh.old block.now }
    ensures origins { origins.new ≡ origins.old ++ option_to_list (packet_origin queues.now block.now) }
    ensures others { LeavesOthers block.now fresh.old.packets fresh.new.packets }
    ensures again { block.now.number < told → Spends 0 fresh.old fresh.new }
    ensures spent { Spends 1 fresh.old fresh.new }
{
    let Some(place) = place_in(queues, block.queue, block.packet) else {
        return;
    };
    if block.number < told {
        origins.push(told_again(&mut fresh.packets, block, place));
    } else {
        origins.push(fresh.origin(block, place));
    }
}

// What is told of a packet again, in the memory that what was told before has.
fn told_again(
    packets: &mut Ample<PacketOrigin, ALL_IN_FLIGHT>,
    block: &ArgumentBlock,
    place: &Place,
) -> PacketOrigin
    requires { IsTold packets.old block.now }
    ensures origin { result ≡ told_origin block.now place.now }
    ensures others { LeavesOthers block.now packets.old packets.new }
{
    let index = index_in(packets.as_slice(), block.queue, block.packet);
    let before = packets.remove(index);
    PacketOrigin {
        flying: flying(block, place),
        progress: place.progress,
        client: before.client,
        rights: before.rights,
        arguments: before.arguments,
    }
}

// Whether a packet is told of here.
fn is_told_of(told: &PacketOrigin, queue: QueueId, packet: PacketId) -> bool
    ensures { result ≡ same_packet told.now.flying.queue told.now.flying.id queue packet }
{
    told.flying.queue == queue && told.flying.id == packet
}

// At which index a packet is told of, of these; behind the last it isn't.
fn index_in(packets: &[PacketOrigin], queue: QueueId, packet: PacketId) -> usize
    ensures { IsIndexIn packets.now queue packet result }
{
    'packets: for (index, told) in packets.iter().enumerate() {
        if is_told_of(told, queue, packet) {
            return index;
        }
    }
    packets.len()
}
