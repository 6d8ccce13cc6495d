//! The end of a ring: once its passes have come back, what its words are.

ghost use Rattle.std.specs.Prelude.{◌≡◌, ◌↔◌, ◌+◌, ◌*◌, ◌<◌, [], ◌++◌, IfOk, IfErr, All, true, false, length, map, ◌∷◌};
ghost use Rattle.ring.specs.Settling.{has_pass, has_passes, IsSettled, IsClosed, share_of};
ghost use Rattle.ring.specs.declared.closing.SettleFault.{SettleFault};

use crate::place::table_place;
use crate::processor::ProcessorPass;
use crate::producer::ProducerPass;
use crate::ring::Ring;
use crate::share::{RingSeat, Together};
use ring_core::{FIRST_SLOT, READ_PLACE, WRITE_PLACE};
use sequences::Sequence;
use std::alloc::{AllocError, Global};
use std::marker::Model;

/// What a ring came to.
#[derive(Drop, Debug)]
pub struct Settled {
    /// How many ids were reserved.
    pub write_index: u64,
    /// How many packets were retired.
    pub read_index: u64,
    /// The words of the slots, eight a slot, in order.
    pub slots: Sequence<u64>,
}

/// Why a ring was not settled.
#[derive(Clone, Copy, Debug, PartialEq, Eq, thiserror::Error)]
pub enum SettleFault {
    /// There was no memory for the words of the slots.
    #[error("out of memory")]
    OutOfMemory,
    /// The pass of one of the producers is not there.
    #[error("the pass of a producer is missing")]
    MissingPass,
}

impl SettleFault {
    ghost use Rattle.std.specs.Prelude.{◌≡◌};
    ghost use Rattle.ring.specs.Faults.{number_of_settle_fault};

    /// The fault's number (own).
    pub fn number(&self) -> u8
        ensures { result ≡ number_of_settle_fault self.now }
    {
        match self {
            SettleFault::OutOfMemory => 0,
            SettleFault::MissingPass => 3,
        }
    }
}

/// A ring that was not settled, with all that was handed in.
#[derive(Drop)]
pub struct Unsettled {
    pub fault: SettleFault,
    pub ring: Ring,
    pub producers: Vec<ProducerPass>,
    pub processor: ProcessorPass,
}

/// Room for the words of a ring's slots, got before a ring is settled. A contract sees for how many
/// slots.
#[derive(Drop)]
pub struct SettleRoom {
    words: Vec<u64>,
    slots: u64,
}

impl Model for SettleRoom {
    ghost use Rattle.std.specs.Prelude.{ℕ, ◌≡◌, ◌*◌, length};

    ghost Value = { ℕ };

    ghost view = { λ r. r.slots };

    ghost invariant = { λ r. length r.words.items ≡ 8 * r.slots };
}

impl SettleRoom {
    /// Gets room to settle a ring of as many slots as this one has.
    pub fn new(alloc: Global, ring: &Ring) -> Result<SettleRoom, AllocError>
        ensures { IfOk result (λ room. room ≡ ring.now.size) }
    {
        let words = Vec::from_elem(alloc, 0, 8 * ring.size as usize)?;
        Ok(SettleRoom {
            words,
            slots: ring.size,
        })
    }
}

// Whether the pass of the producer with this number is among these.
fn has_pass(passes: &[ProducerPass], number: u64) -> bool
    ensures { result ≡ has_pass number passes.now }
{
    passes.iter().any(|pass| pass.number == number)
}

/// Whether the passes of all producers from 1 to this number are among these.
pub fn has_passes(passes: &[ProducerPass], producers: u64) -> bool
    ensures { result ≡ has_passes producers passes.now }
{
    for before in 0..producers {
        if !has_pass(passes, before + 1) {
            return false;
        }
    }
    true
}

impl Ring {
    // Joins the seats of the producers' passes, in order, into one seat.
    fn join(&self, seat: &mut RingSeat, passes: Vec<ProducerPass>)
        requires table { seat.old.table_id ≡ self.now.table }
        requires no_slot { seat.old.me.1 ≡ [] }
        requires passes { All (λ pass. pass.table ≡ self.now.table) passes.items }
        ensures seat { (seat.new.table_id ≡ self.now.table) × (seat.new.me ≡ (seat.old.me.0 ++ map share_of passes.items, [])) }
    {
        for pass in passes {
            let ProducerPass { seat: other, .. } = pass;
            self.table.shared.join_seat::<Together>(seat, other);
        }
    }

    // Takes the ring apart, and reads its words: those of the slots into a list that has room for them.
    fn close(self, seat: RingSeat, slots: Vec<u64>) -> Settled
        requires table { seat.table_id ≡ self.table }
        requires room { length slots.items ≡ 8 * self.size }
        ensures { IsClosed self seat.me.0 (result.write_index ∷ result.read_index ∷ result.slots) }
    {
        let Ring { table, .. } = self;
        let mut slots = slots;
        let closed = table.close_with(seat);
        let write_index = closed.word(table_place(WRITE_PLACE));
        let read_index = closed.word(table_place(READ_PLACE));
        for index in 0..slots.len() {
            slots[index] = closed.word(table_place(FIRST_SLOT + index));
        }
        closed.free();
        Settled {
            write_index,
            read_index,
            slots: Sequence::from_vec(slots),
        }
    }
}

/// Settles a ring once all its passes have come back: its indices and its slots. Where the pass of a
/// producer is missing, or there is no memory, all comes back as it was.
pub fn settle(
    alloc: Global,
    ring: Ring,
    producers: Vec<ProducerPass>,
    processor: ProcessorPass,
) -> Result<Settled, Unsettled>
    requires producers { All (λ pass. pass.table ≡ ring.table) producers.items }
    requires processor { processor.table ≡ ring.table }
    ensures settled { IfOk result (λ s. IsSettled ring producers.items processor s.write_index s.read_index s.slots) }
    ensures all { IfOk result (λ s. has_passes ring.producers producers.items ≡ true) }
    ensures fault { IfErr result (λ u. u.fault ≡ SettleFault.MissingPass ↔ has_passes ring.producers producers.items ≡ false) }
    ensures back { IfErr result (λ u. (u.ring ≡ ring) × (u.producers.items ≡ producers.items) × (u.processor ≡ processor)) }
{
    if !has_passes(producers.as_slice(), ring.producers) {
        return Err(Unsettled {
            fault: SettleFault::MissingPass,
            ring,
            producers,
            processor,
        });
    }
    let Ok(room) = SettleRoom::new(alloc, &ring) else {
        return Err(Unsettled {
            fault: SettleFault::OutOfMemory,
            ring,
            producers,
            processor,
        });
    };
    Ok(settle_in(ring, producers, processor, room))
}

/// Settles a ring of which all passes have come back, in room that was got before. It takes no memory,
/// and can't fail.
pub fn settle_in(
    ring: Ring,
    producers: Vec<ProducerPass>,
    processor: ProcessorPass,
    room: SettleRoom,
) -> Settled
    requires producers { All (λ pass. pass.table ≡ ring.table) producers.items }
    requires processor { processor.table ≡ ring.table }
    requires room { room ≡ ring.size }
    ensures { IsSettled ring producers.items processor result.write_index result.read_index result.slots }
{
    let _ = &ring.size;
    let SettleRoom { words, .. } = room;
    let ProcessorPass { seat, .. } = processor;
    let mut seat = seat;
    ring.join(&mut seat, producers);
    ring.close(seat, words)
}
