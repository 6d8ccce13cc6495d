//! Where the words of a ring lie among those of its table: each index and the slots on cache lines of
//! their own, so that threads that use one of them don't slow those that use another. No step touches a
//! word between them.

ghost use Rattle.aql_packet.specs.Ring.{is_ring_size};
ghost use Rattle.ring.specs.Places.{table_count, table_place, words_seen};
ghost use Rattle.ring_core.specs.Machine.{opened, word_place};
ghost use Rattle.std.specs.Prelude.{IfOk, length, true, ◌<◌, ◌^◌, ◌≡◌};

use aql_packet::INVALID;
use ring_core::{FIRST_SLOT, READ_PLACE, WRITE_PLACE, word_place};
use std::alloc::{AllocError, Global};

/// The place of the write index among a table's words. Before it lie 128 bytes, two cache lines, since
/// processors fetch lines in pairs; so it shares none with what lies before the table.
pub const TABLE_WRITE_PLACE: usize = 16;

/// The place of the read index among a table's words: 128 bytes behind the write index.
pub const TABLE_READ_PLACE: usize = 32;

/// The place of the first slot's word 0 among a table's words: 128 bytes behind the read index.
pub const TABLE_FIRST_SLOT: usize = 48;

/// The place among a table's words of a place among the machine's.
#[tactic(auto, using(crate::proofs::Places::table_high))]
pub(crate) fn table_place(place: usize) -> usize
    requires { place < 2 ^ 63 }
    ensures { result ≡ table_place place }
{
    match place {
        WRITE_PLACE => TABLE_WRITE_PLACE,
        READ_PLACE => TABLE_READ_PLACE,
        _ => place + (TABLE_FIRST_SLOT - FIRST_SLOT),
    }
}

/// The place of word 0 of the packet with this id among a table's words.
pub(crate) fn slot_place(size: u64, id: u64) -> usize
    requires { is_ring_size size ≡ true }
    ensures place { result ≡ table_place (word_place size id 0) }
    ensures near { result < 2 ^ 16 }
{
    table_place(word_place(size, id, 0))
}

/// The words of a table as its ring opens: both indices 0, each slot free, and 0 between them.
#[tactic(auto, using(crate::proofs::Places::opening_count))]
pub(crate) fn opening_table(alloc: Global, size: u64) -> Result<Vec<u64>, AllocError>
    ensures seen { IfOk result (λ words. words_seen words.items ≡ (opened size 0).words) }
    ensures count { IfOk result (λ words. length words.items ≡ table_count size) }
{
    let mut words = Vec::from_elem(alloc, 0, TABLE_FIRST_SLOT)?;
    for _slot in 0..size {
        words.extend_from_slice(&[INVALID as u64, 0, 0, 0, 0, 0, 0, 0])?;
    }
    Ok(words)
}
