//! The audit's entries.

ghost use Rattle.std.specs.Prelude.{◌≡◌, IfOk};

use crate::bytes::Bytes;
use crate::effects::Effects;
use crate::event::Event;
use crate::outcome::Outcome;
use aql_packet::{Address, PacketId, QueueId, SignalHandle};
use std::alloc::{AllocError, Global};
use std::mem::size_of;

/// A change that an event made.
#[derive(Debug, Drop, PartialEq, Eq)]
pub enum Effect {
    /// These bytes, at least one, were written from this address on.
    Write {
        address: Address,
        bytes: Bytes,
    },
    /// A signal went from one value to another, which may be the same.
    Signal {
        signal: SignalHandle,
        old: i64,
        new: i64,
    },
    /// A packet left flight, and its rights are held no more.
    Release {
        queue: QueueId,
        packet: PacketId,
    },
}

impl Effect {
    /// The same change once more, with bytes of its own.
    pub fn copy(&self, alloc: Global) -> Result<Effect, AllocError>
        ensures { IfOk result (λ copy. copy ≡ self.now) }
    {
        Ok(match self {
            Effect::Write { address, bytes } => Effect::Write {
                address: *address,
                bytes: bytes.copy(alloc)?,
            },
            Effect::Signal { signal, old, new } => Effect::Signal {
                signal: *signal,
                old: *old,
                new: *new,
            },
            Effect::Release { queue, packet } => Effect::Release {
                queue: *queue,
                packet: *packet,
            },
        })
    }
}

/// An event that was not refused and changed something, with what it came to and what it changed.
#[derive(Debug, Drop)]
pub struct Entry {
    pub event: Event,
    pub outcome: Outcome,
    pub effects: Effects,
}

// The audit's room is got for so many entries at once.
const _: () = prove!(size_of::<Entry>() <= 320);

impl Entry {
    /// The same entry once more, with bytes of its own.
    pub fn copy(&self, alloc: Global) -> Result<Entry, AllocError>
        ensures { IfOk result (λ copy. copy ≡ self.now) }
    {
        Ok(Entry {
            event: self.event.copy(alloc)?,
            outcome: self.outcome,
            effects: self.effects.copy(alloc)?,
        })
    }
}
