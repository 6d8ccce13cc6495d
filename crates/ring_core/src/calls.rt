//! What the calls on a ring are, as lists of steps.

ghost use Rattle.ring_core.specs.Calls.{has_room, made_of, publication, showing};
ghost use Rattle.ring_core.specs.declared.access.Access.TheVariants.{LoadBody, StoreBody};
ghost use Rattle.std.specs.Prelude.{◌≡◌, ◌<◌, slice_index};

use crate::access::{Access, Made};
use aql_packet::PacketId;

/// Whether a read index shows room for the packet with an id, in a ring of this size: its slot holds no
/// packet that is not retired (PSA, User Mode Queuing).
pub fn has_room(size: u64, id: PacketId, read_index: u64) -> bool
    ensures { result ≡ has_room size id.0 read_index }
{
    id.0 < read_index || id.0 - read_index < size
}

// The store of a body word.
fn store_of(ticket: PacketId, place: usize, words: &[u64; 8]) -> Access
    requires { place < 8 }
    ensures { result ≡ StoreBody ticket place (slice_index words.now place) }
{
    Access::StoreBody {
        ticket,
        place: place as u64,
        word: words[place],
    }
}

/// The accesses of a publication whose look saw this read index.
pub(crate) fn publication(ticket: PacketId, seen: u64, words: &[u64; 8]) -> [Made; 9]
    ensures { result ≡ publication ticket.0 seen words.now }
{
    [
        Access::LoadReadIndex { ticket }.made(seen),
        store_of(ticket, 1, words).made(seen),
        store_of(ticket, 2, words).made(seen),
        store_of(ticket, 3, words).made(seen),
        store_of(ticket, 4, words).made(seen),
        store_of(ticket, 5, words).made(seen),
        store_of(ticket, 6, words).made(seen),
        store_of(ticket, 7, words).made(seen),
        Access::StoreHeader {
            ticket,
            word: words[0],
        }
        .made(seen),
    ]
}

/// The loads that show a packet of these words.
pub(crate) fn showing(words: &[u64; 8]) -> [Made; 8]
    ensures { result ≡ showing words.now }
{
    [
        Access::LoadHeader.made(words[0]),
        load_of(1, words),
        load_of(2, words),
        load_of(3, words),
        load_of(4, words),
        load_of(5, words),
        load_of(6, words),
        load_of(7, words),
    ]
}

// The load of a body word.
fn load_of(place: usize, words: &[u64; 8]) -> Made
    requires { place < 8 }
    ensures { result ≡ made_of (LoadBody place) (slice_index words.now place) }
{
    Access::LoadBody {
        place: place as u64,
    }
    .made(words[place])
}
