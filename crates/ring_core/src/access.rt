//! The eight steps, and what each reads and writes in a ring's words.

ghost use Rattle.std.specs.Prelude.{◌≡◌, ◌%◌, ◌<◌, true};
ghost use Rattle.aql_packet.specs.Ring.{is_ring_size};
ghost use Rattle.ring_core.specs.Machine.{word_place, place_of, word_after, Fits64, NamesWord};
ghost use Rattle.ring_core.specs.Parts.{seen_by};

use aql_packet::{INVALID, PacketId};

/// The place of the write index among a ring's words.
pub const WRITE_PLACE: usize = 0;

/// The place of the read index among a ring's words.
pub const READ_PLACE: usize = 1;

/// The place of the first slot's word 0 among a ring's words.
pub const FIRST_SLOT: usize = 2;

/// The place of word `place`, 0 to 7, of the packet with this id, in a ring of this size.
#[tactic(auto, unfolding(crate::specs::Machine::word_place))]
pub fn word_place(size: u64, id: u64, place: u64) -> usize
    requires size { is_ring_size size ≡ true }
    requires named { place < 8 }
    ensures { result ≡ word_place size id place }
{
    FIRST_SLOT + (8 * slot_of(size, id) + place) as usize
}

// The slot of the packet with this id: the id modulo the size, which is a power of two.
#[tactic(auto, using(crate::proofs::Sizes::mask_is_remainder, crate::proofs::Sizes::ring_size_bounds))]
fn slot_of(size: u64, id: u64) -> u64
    requires { is_ring_size size ≡ true }
    ensures slot { result ≡ id % size }
    ensures few { result < 4096 }
{
    id & (size - 1)
}

/// One atomic access to a ring's words, with all that its maker decides (PSA, User Mode Queuing).
#[derive(Clone, Copy, Debug, PartialEq, Eq)]
pub enum Access {
    /// A producer adds 1 to the write index. The value before is its new ticket.
    Reserve,
    /// A producer reads the read index, to see whether there is room for a ticket.
    LoadReadIndex {
        ticket: PacketId,
    },
    /// A producer writes body word `place`, 1 to 7, of a ticket's slot.
    StoreBody {
        ticket: PacketId,
        place: u64,
        word: u64,
    },
    /// A producer writes word 0 of a ticket's slot, and so publishes the packet.
    StoreHeader {
        ticket: PacketId,
        word: u64,
    },
    /// The processor reads word 0 of the slot at the read index.
    LoadHeader,
    /// The processor reads body word `place`, 1 to 7, of the slot at the read index.
    LoadBody {
        place: u64,
    },
    /// The processor writes the type INVALID to word 0 of the slot at the read index.
    ClearHeader,
    /// The processor adds 1 to the read index, and so retires the packet.
    RaiseReadIndex,
}

/// A step: an access, and the seat that makes it.
#[derive(Clone, Copy, Debug, PartialEq, Eq)]
pub struct Step {
    /// 0 is the processor, the producers are numbered from 1.
    pub seat: u64,
    pub access: Access,
}

/// What an access read.
#[derive(Clone, Copy, Debug, PartialEq, Eq)]
pub enum Seen {
    /// The word as it was before the access: a load or an addition.
    Read(u64),
    /// Nothing: a store.
    Stored,
}

/// An access that a seat made, with what it read.
#[derive(Clone, Copy, Debug, PartialEq, Eq)]
pub struct Made {
    pub access: Access,
    pub seen: Seen,
}

impl Access {
    /// What the access tells of the word as it was: loads and additions read it, stores read nothing.
    pub(crate) fn seen(self, old: u64) -> Seen
        ensures { result ≡ seen_by self old }
    {
        match self {
            Access::StoreBody { .. } | Access::StoreHeader { .. } | Access::ClearHeader => {
                Seen::Stored
            }
            _ => Seen::Read(old),
        }
    }

    /// The place of the word that the access touches, in a ring of this size with this read index.
    pub(crate) fn place(self, size: u64, read_index: u64) -> usize
        requires size { is_ring_size size ≡ true }
        requires named { NamesWord self }
        ensures { result ≡ place_of size read_index self }
    {
        match self {
            Access::Reserve => WRITE_PLACE,
            Access::LoadReadIndex { .. } | Access::RaiseReadIndex => READ_PLACE,
            Access::StoreBody { ticket, place, .. } => word_place(size, ticket.0, place),
            Access::StoreHeader { ticket, .. } => word_place(size, ticket.0, 0),
            Access::LoadHeader | Access::ClearHeader => word_place(size, read_index, 0),
            Access::LoadBody { place } => word_place(size, read_index, place),
        }
    }

    /// That word after the access.
    pub(crate) fn word_after(self, old: u64) -> u64
        requires { Fits64 self old }
        ensures { result ≡ word_after self old }
    {
        match self {
            Access::Reserve | Access::RaiseReadIndex => old + 1,
            Access::StoreBody { word, .. } | Access::StoreHeader { word, .. } => word,
            Access::ClearHeader => INVALID as u64,
            _ => old,
        }
    }

    /// The access with what it read.
    pub(crate) fn made(self, old: u64) -> Made
        ensures access { result.access ≡ self }
        ensures seen { result.seen ≡ seen_by self old }
    {
        Made {
            access: self,
            seen: self.seen(old),
        }
    }
}
