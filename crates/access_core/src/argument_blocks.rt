//! What packets in flight were given at their launches: the rights that each holds, and its argument block. It lies with the
//! packet, in its queue's eight places.

ghost use Rattle.std.specs.Prelude.{Some, ◌≡◌, ◌<◌, ◌++◌, ◌∷◌, [], IfOk, length, slice_get};
ghost use Rattle.std.specs.List.{remove};
ghost use Rattle.core_model.specs.Limits.{most_in_flight};
ghost use Rattle.access_core.specs.inner.ArgumentBlocks.{rights_for};

use aql_packet::{ClientId, PacketId, QueueId};
use core_model::MOST_IN_FLIGHT;
use policy::{Object, Rights};
use sequences::Sequence;
use std::alloc::{AllocError, Global};
use std::marker::Model;

/// The argument block of a packet in flight, with the rights that the packet holds.
#[derive(Drop)]
pub struct ArgumentBlock {
    /// The packet's queue.
    pub queue: QueueId,
    /// The packet.
    pub packet: PacketId,
    /// Whose queue it is.
    pub client: ClientId,
    /// The launch's number: how many entries the whole history had before its own.
    pub number: u64,
    /// The rights that it holds, of that client.
    pub rights: Sequence<(Object, Rights)>,
    /// The block's bytes: none but of a kernel dispatch.
    pub bytes: Sequence<u8>,
}

/// The argument blocks of a queue's packets in flight, in the order of their places, with memory for eight from the queue's
/// opening on. A contract sees the list.
#[derive(Drop)]
pub struct ArgumentBlocks {
    blocks: Vec<ArgumentBlock>,
}

impl Model for ArgumentBlocks {
    ghost use Rattle.std.specs.Prelude.{List};
    ghost use Rattle.access_core.specs.declared.argument_blocks.ArgumentBlock.{ArgumentBlock};

    ghost Value = { List ArgumentBlock };

    ghost view = { λ b. b.blocks.items };

    ghost use Rattle.access_core.specs.inner.ArgumentBlocks.{HasEightPlaces};

    ghost invariant = { λ b. HasEightPlaces b.blocks };
}

impl ArgumentBlock {
    /// The rights that the packet holds, if they are this client's.
    pub fn rights_for(&self, client: ClientId) -> &[(Object, Rights)]
        ensures { result.now ≡ rights_for client (Some self.now) }
    {
        if self.client == client {
            self.rights.as_slice()
        } else {
            &[]
        }
    }
}

impl ArgumentBlocks {
    /// Gets places for eight blocks: so many packets of a queue are in flight at the most.
    pub fn get(alloc: Global) -> Result<ArgumentBlocks, AllocError>
        ensures { IfOk result (λ blocks. blocks ≡ []) }
    {
        Ok(ArgumentBlocks {
            blocks: Vec::with_capacity(alloc, MOST_IN_FLIGHT)?,
        })
    }

    /// The blocks, in the order of their packets' places.
    pub fn as_slice(&self) -> &[ArgumentBlock]
        ensures { result.now ≡ self.now }
    {
        self.blocks.as_slice()
    }

    /// The block at an index.
    pub fn at(&self, index: usize) -> &ArgumentBlock
        requires { index < length self.now }
        ensures { slice_get self.now index ≡ Some result.now }
    {
        &self.blocks[index]
    }

    /// Puts the block of a packet that is launched behind the others. It takes no memory.
    pub fn push(&mut self, block: ArgumentBlock)
        requires { length self.old < most_in_flight }
        ensures { self.new ≡ self.old ++ block ∷ [] }
    {
        self.blocks.push_reserved(block);
    }

    /// Takes the block at an index out, that of a packet that leaves flight.
    pub fn remove(&mut self, index: usize) -> ArgumentBlock
        requires { index < length self.old }
        ensures rest { self.new ≡ remove self.old index }
        ensures block { slice_get self.old index ≡ Some result }
    {
        if index == self.blocks.len() - 1 {
            return self.blocks.pop().unwrap();
        }
        self.remove_before(index)
    }

    // Takes a block out that others lie behind. It stands apart, since most queues have one packet in flight.
    #[inline(never)]
    fn remove_before(&mut self, index: usize) -> ArgumentBlock
        requires { index < length self.old }
        ensures rest { self.new ≡ remove self.old index }
        ensures block { slice_get self.old index ≡ Some result }
    {
        self.blocks.remove(index)
    }
}
