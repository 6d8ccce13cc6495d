//! Memory for what an emptied audit leaves to begin from, got before it is emptied.

ghost use Rattle.std.specs.Prelude.{◌≡◌, ◌≤◌, IfOk, OnOk};
ghost use Rattle.access_core.specs.inner.Ready.{HasRoomFor, Spends};
ghost use Rattle.access_core.specs.inner.Origins.{told_origin};

use crate::argument_blocks::ArgumentBlock;
use core_model::{ALL_IN_FLIGHT, InFlight, PacketOrigin};
use packet_processor::Place;
use policy::{Object, Rights};
use sequences::{Ample, Pool};
use std::alloc::{AllocError, Global};

/// Memory for what is told of packets in flight where an audit is emptied: those that were launched since it was last. What was
/// told then of others is told again in the memory that it has.
#[derive(Drop)]
pub struct Fresh {
    /// What was told before, while it is told anew.
    pub packets: Ample<PacketOrigin, ALL_IN_FLIGHT>,
    /// For the rights that they hold.
    pub rights: Pool<(Object, Rights)>,
    /// For their argument blocks.
    pub bytes: Pool<u8>,
}

impl Fresh {
    /// Memory for as many packets as can be in flight, but not yet for what each is given.
    pub fn get(alloc: Global) -> Result<Fresh, AllocError> {
        Ok(Fresh {
            packets: Ample::get(alloc)?,
            rights: Pool::new(alloc),
            bytes: Pool::new(alloc),
        })
    }

    /// Gets memory for what so many packets are given, each so many rights and bytes, where it isn't there. What is there stays,
    /// also where more isn't to be had.
    pub fn provide(
        &mut self,
        alloc: Global,
        packets: usize,
        rights: usize,
        bytes: usize,
    ) -> Result<(), AllocError>
        ensures rights { OnOk result ((packets ≤ self.new.rights.lists) × (rights ≤ self.new.rights.each)) }
        ensures bytes { OnOk result ((packets ≤ self.new.bytes.lists) × (bytes ≤ self.new.bytes.each)) }
        ensures rights_kept { (self.old.rights.lists ≤ self.new.rights.lists) × (self.old.rights.each ≤ self.new.rights.each) }
        ensures bytes_kept { (self.old.bytes.lists ≤ self.new.bytes.lists) × (self.old.bytes.each ≤ self.new.bytes.each) }
    {
        self.rights.provide(alloc, packets, rights)?;
        self.bytes.provide(alloc, packets, bytes)
    }

    /// What is told of a packet in flight, by its argument block and its place, in memory of here.
    pub fn origin(&mut self, block: &ArgumentBlock, place: &Place) -> PacketOrigin
        requires { HasRoomFor self.old block.now }
        ensures origin { result ≡ told_origin block.now place.now }
        ensures spent { Spends 1 self.old self.new }
        ensures packets { self.new.packets ≡ self.old.packets }
    {
        PacketOrigin {
            flying: flying(block, place),
            progress: place.progress,
            client: block.client,
            rights: self.rights.copy(block.rights.as_slice()),
            arguments: self.bytes.copy(block.bytes.as_slice()),
        }
    }

    /// Keeps the memory of what was told before, and of packets that left flight.
    pub fn keep_told(&mut self)
        ensures { Spends 0 self.old self.new }
    {
        for _left in 0..self.packets.len() {
            self.keep_one();
        }
        self.packets.clear();
    }

    // Keeps the memory of what was told of the last.
    fn keep_one(&mut self)
        ensures { Spends 0 self.old self.new }
    {
        if let Some(told) = self.packets.pop() {
            let PacketOrigin {
                rights,
                arguments,
                ..
            } = told;
            self.rights.keep(rights);
            self.bytes.keep(arguments);
        }
    }
}

/// A packet in flight, as data: its block has its name, its place the packet.
pub fn flying(block: &ArgumentBlock, place: &Place) -> InFlight
    ensures { result ≡ record { queue = block.now.queue; id = block.now.packet; packet = place.now.packet } }
{
    InFlight {
        queue: block.queue,
        id: block.packet,
        packet: place.packet,
    }
}
