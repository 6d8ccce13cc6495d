//! The ring: its table of words, and how its passes are cut from one seat.

ghost use Rattle.std.specs.Prelude.{◌≡◌, [], IfOk, IfErr, true, take, drop, replicate, All};
ghost use Rattle.aql_packet.specs.Ring.{is_ring_size};
ghost use Rattle.ring_core.specs.Parts.{new_producer};
ghost use Rattle.ring.specs.Dealt.{dealt, new_processor_pass};
ghost use Rattle.ring.specs.Shares.{first_share, numbered, shape_of};
ghost use Rattle.ring_core.specs.Machine.{is_producer_count};
ghost use Rattle.ring.specs.Opening.{IsRingFault};

use crate::place::opening_table;
use crate::processor::ProcessorPass;
use crate::producer::ProducerPass;
use crate::share::{FirstOff, Kept, RingSeat, RingShape, Share};
use aql_packet::is_ring_size;
use atomic_table::Table;
use ring_core::{ALLOWANCE, is_producer_count};
use std::alloc::{AllocError, Global};
use std::marker::Model;

/// A ring that threads share: they step on its words through the passes that came with it. A contract
/// sees which table of words it is, how many slots it has and how many producers.
#[derive(Drop)]
pub struct Ring {
    pub(crate) table: Table<(), Share, RingShape, Kept, Global>,
    pub(crate) size: u64,
    pub(crate) producers: u64,
}

impl Model for Ring {
    ghost use Rattle.ring.specs.Passes.{RingSeen, IsRing};

    ghost Value = { RingSeen };

    ghost view = { λ r. record { table = r.table.shared.table_id; size = r.size; producers = r.producers } };

    ghost invariant = { λ r. IsRing r.table.shared.table_id r.table.shared.key r.size r.producers };
}

/// Why a ring was not made.
#[derive(Clone, Copy, Debug, PartialEq, Eq, thiserror::Error)]
pub enum RingFault {
    /// There was no memory for the words or the passes.
    #[error("out of memory")]
    OutOfMemory,
    /// The number of slots is not a power of two from 2 to 4,096.
    #[error("the number of slots is no power of two from 2 to 4096")]
    BadSize,
    /// The number of producers is not from 1 to 16.
    #[error("the number of producers is not from 1 to 16")]
    BadProducers,
}

impl RingFault {
    ghost use Rattle.std.specs.Prelude.{◌≡◌};
    ghost use Rattle.ring.specs.Faults.{number_of_ring_fault};

    /// The fault's number (own).
    pub fn number(&self) -> u8
        ensures { result ≡ number_of_ring_fault self.now }
    {
        match self {
            RingFault::OutOfMemory => 0,
            RingFault::BadSize => 1,
            RingFault::BadProducers => 2,
        }
    }
}

impl From<AllocError> for RingFault {
    ghost use Rattle.std.specs.Prelude.{◌≡◌};
    ghost use Rattle.ring.specs.declared.ring.RingFault.{RingFault};

    ghost from_gives = { λ _ fault. fault ≡ RingFault.OutOfMemory };

    fn from(_: AllocError) -> RingFault {
        RingFault::OutOfMemory
    }
}

// A ring with all its parts in one seat.
fn with_one_seat(alloc: Global, size: u64, producers: u64) -> Result<(Ring, RingSeat), AllocError>
    requires size { is_ring_size size ≡ true }
    requires producers { is_producer_count producers ≡ true }
    ensures ring { IfOk result (λ o. (o.0.size ≡ size) × (o.0.producers ≡ producers)) }
    ensures seat { IfOk result (λ o. (o.1.table_id ≡ o.0.table) × (o.1.me ≡ (first_share (shape_of size producers), []))) }
{
    let words = opening_table(alloc, size)?;
    let shape = RingShape { size, producers };
    let (table, seat) = Table::of_words(alloc, words.as_slice(), &shape)?;
    let ring = Ring {
        table,
        size,
        producers,
    };
    Ok((ring, seat))
}

impl Ring {
    /// A ring of so many slots, with a pass for each of so many producers, numbered from 1, and one for
    /// the processor. Both indices are 0, and each slot is free.
    pub fn new(
        alloc: Global,
        size: u64,
        producers: u64,
    ) -> Result<(Ring, Vec<ProducerPass>, ProcessorPass), RingFault>
        ensures fits { IfOk result (λ _. (is_ring_size size ≡ true) × (is_producer_count producers ≡ true)) }
        ensures ring { IfOk result (λ o. (o.0.size ≡ size) × (o.0.producers ≡ producers)) }
        ensures producers { IfOk result (λ o. o.1.items ≡ dealt o.0.table producers) }
        ensures processor { IfOk result (λ o. o.2 ≡ new_processor_pass o.0.table) }
        ensures belong { IfOk result (λ o. All (λ pass. pass.table ≡ o.0.table) o.1.items) }
        ensures refused { IfErr result (λ fault. IsRingFault size producers fault) }
    {
        if !is_ring_size(size) {
            return Err(RingFault::BadSize);
        }
        if !is_producer_count(producers) {
            return Err(RingFault::BadProducers);
        }
        let (ring, mut seat) = with_one_seat(alloc, size, producers)?;
        let processor = ring.processor_pass(&mut seat);
        let passes = ring.producer_passes(alloc, seat)?;
        Ok((ring, passes, processor))
    }

    /// How many producers the ring has.
    pub fn producers(&self) -> u64
        ensures { result ≡ self.now.producers }
    {
        self.producers
    }

    // The pass of the processor, from the seat that has all parts.
    fn processor_pass(&self, seat: &mut RingSeat) -> ProcessorPass
        requires table { seat.old.table_id ≡ self.now.table }
        requires all { seat.old.me ≡ (first_share (shape_of self.now.size self.now.producers), []) }
        ensures seat { (seat.new.table_id ≡ self.now.table) × (seat.new.me ≡ (numbered 1 (replicate self.now.producers new_producer), [])) }
        ensures pass { result ≡ new_processor_pass self.now.table }
    {
        ProcessorPass {
            seat: self.cut(seat),
            next: 0,
            whole: false,
            packet: [0; 8],
        }
    }

    // The passes of the producers, from the seat that has their parts.
    fn producer_passes(
        &self,
        alloc: Global,
        seat: RingSeat,
    ) -> Result<Vec<ProducerPass>, AllocError>
        requires table { seat.table_id ≡ self.now.table }
        requires all { seat.me ≡ (numbered 1 (replicate self.now.producers new_producer), []) }
        ensures { IfOk result (λ passes. passes.items ≡ dealt self.now.table self.now.producers) }
    {
        let mut seat = seat;
        let mut passes = Vec::new(alloc);
        for before in 0..self.producers {
            let one = self.cut(&mut seat);
            passes.push(ProducerPass {
                seat: one,
                number: before + 1,
                allowance: ALLOWANCE,
            })?;
        }
        Ok(passes)
    }

    // Cuts the first of a seat's parts off.
    fn cut(&self, seat: &mut RingSeat) -> RingSeat
        requires { seat.old.table_id ≡ self.now.table }
        ensures rest { (seat.new.table_id ≡ seat.old.table_id) × (seat.new.me ≡ (drop 1 seat.old.me.0, seat.old.me.1)) }
        ensures first { (result.table_id ≡ seat.old.table_id) × (result.me ≡ (take 1 seat.old.me.0, [])) }
    {
        self.table.shared.split_seat::<FirstOff>(seat)
    }
}
