//! The machine: a ring's words and the part of each seat.

ghost use Rattle.std.specs.Prelude.{◌≡◌, ◌≤◌, ◌↔◌, ◌+◌, IfOk, IfErr, OnErr, Err, length, slice_index, true, false};
ghost use Rattle.aql_packet.specs.Ring.{is_ring_size};
ghost use Rattle.ring_core.specs.declared.access.Access.{Access};
ghost use Rattle.ring_core.specs.Machine.{Makes, is_allowed, opened, Replays, is_producer_count, judged_size, producers_of, write_index, read_index};
ghost use Rattle.ring_core.specs.Rule.{IsRule, processor_of};
ghost use Rattle.ring_core.specs.Faults.{IsReplayFault, fault_at};
ghost use Rattle.ring_core.specs.InTurn.{Collects, Publishes, Reserves, Retires, packet_among};
ghost use Rattle.ring_core.specs.Words.{is_invalid};
ghost use Rattle.ring_core.specs.inner.Together.{packet_in, packet_put};

use crate::access::{Access, READ_PLACE, Seen, Step, WRITE_PLACE, word_place};
use crate::calls::has_room;
use crate::part::{ProcessorPart, SeatPart};
use aql_packet::{INVALID, PacketId, is_invalid};
use std::alloc::{AllocError, Global};
use std::marker::Model;

/// A ring as a pure machine: its words and what each seat knows (PSA, User Mode Queuing). A contract
/// sees the size, the words and the parts; every ring state meets the ring rule.
#[derive(Drop, Debug)]
pub struct RingState {
    size: u64,
    words: Vec<u64>,
    parts: Vec<SeatPart>,
}

impl Model for RingState {
    ghost use Rattle.ring_core.specs.Machine.{Machine, machine_of};

    ghost Value = { Machine };

    ghost use Rattle.ring_core.specs.Rule.{IsRing};

    ghost view = { λ s. machine_of s.size s.words.items s.parts.items };

    ghost invariant = { λ s. IsRing (machine_of s.size s.words.items s.parts.items) };
}

/// What a producer's look for room came to.
#[derive(Clone, Copy, Debug)]
pub enum Look {
    /// It saw room, and the packet is published.
    Published,
    /// The read index that it saw shows no room: the slot is still taken, and the ticket stays open.
    Busy(u64),
}

/// Why a step was not made. Nothing has changed.
#[derive(Clone, Copy, Debug, PartialEq, Eq, thiserror::Error)]
pub enum StepFault {
    /// There was no memory to note the step.
    #[error("out of memory")]
    OutOfMemory,
    /// The step is not allowed.
    #[error("the step is not allowed")]
    NotAStep,
}

impl StepFault {
    ghost use Rattle.std.specs.Prelude.{◌≡◌};
    ghost use Rattle.ring_core.specs.Faults.{number_of_step_fault};

    /// The fault's number (own).
    pub fn number(&self) -> u8
        ensures { result ≡ number_of_step_fault self.now }
    {
        match self {
            StepFault::OutOfMemory => 0,
            StepFault::NotAStep => 1,
        }
    }
}

impl From<AllocError> for StepFault {
    ghost use Rattle.std.specs.Prelude.{◌≡◌};
    ghost use Rattle.ring_core.specs.declared.state.StepFault.{StepFault};

    ghost from_gives = { λ _ fault. fault ≡ StepFault.OutOfMemory };

    fn from(_: AllocError) -> StepFault {
        StepFault::OutOfMemory
    }
}

/// How many producers a ring has at the most.
pub const MOST_PRODUCERS: u64 = 16;

// A size that no ring has.
const NO_RING_SIZE: u64 = 0;

/// Whether a ring may have so many producers: at least one.
pub fn is_producer_count(producers: u64) -> bool
    ensures { result ≡ is_producer_count producers }
{
    1 <= producers && producers <= MOST_PRODUCERS
}

/// The size by which the opening of a ring of so many slots for so many producers is judged: a bad count of
/// producers is refused as a bad size is, at the same place in the order of refusals (own).
pub fn judged_size(size: u64, producers: u64) -> u64
    ensures { result ≡ judged_size size producers }
{
    if is_producer_count(producers) {
        size
    } else {
        NO_RING_SIZE
    }
}

impl RingState {
    /// The ring as it opens: both indices 0, each slot free, and no step made.
    pub fn new(alloc: Global, size: u64, producers: u64) -> Result<RingState, AllocError>
        requires size { is_ring_size size ≡ true }
        requires producers { is_producer_count producers ≡ true }
        ensures { IfOk result (λ ring. ring ≡ opened size producers) }
    {
        let words = opening_words(alloc, size)?;
        let parts = opening_parts(alloc, producers)?;
        Ok(RingState { size, words, parts })
    }

    /// How many slots the ring has: 4,096 at most.
    pub fn size(&self) -> u64
        ensures size { result ≡ self.now.size }
        ensures most { self.now.size ≤ 4096 }
    {
        self.size
    }

    /// The ring's words: the write index, the read index, and eight words a slot.
    pub fn words(&self) -> &[u64]
        ensures { result.now ≡ self.now.words }
    {
        self.words.as_slice()
    }

    /// The part of each seat: the processor's, then those of the producers.
    pub fn parts(&self) -> &[SeatPart]
        ensures { result.now ≡ self.now.parts }
    {
        self.parts.as_slice()
    }

    /// The write index: how many ids are reserved.
    pub fn write_index(&self) -> u64
        ensures { result ≡ write_index self.now }
    {
        self.words[WRITE_PLACE]
    }

    /// The read index: how many packets are retired.
    pub fn read_index(&self) -> u64
        ensures { result ≡ read_index self.now }
    {
        self.words[READ_PLACE]
    }

    /// The part of the processor.
    pub fn processor(&self) -> &ProcessorPart
        ensures { result.now ≡ processor_of self.now.parts }
    {
        match &self.parts[0] {
            SeatPart::Processor(part) => part,
            SeatPart::Producer(_) => unreachable!(),
        }
    }

    /// Whether a step is allowed.
    pub fn allows(&self, step: Step) -> bool
        ensures { result ≡ is_allowed self.now step }
    {
        match self.parts.get(step.seat as usize) {
            None => false,
            Some(part) => part.may_make(self.size, step.access),
        }
    }

    /// Makes a step, and tells what it read. A step that is not allowed is NotAStep. Only a reservation
    /// wants memory.
    pub fn step(&mut self, step: Step) -> Result<Seen, StepFault>
        ensures made { IfOk result (λ seen. Makes self.old step seen self.new) }
        ensures exact { result ≡ Err StepFault.NotAStep ↔ is_allowed self.old step ≡ false }
        ensures err { OnErr result (self.new ≡ self.old) }
        ensures due { IfErr result (λ fault. fault ≡ StepFault.OutOfMemory → step.access ≡ Access.Reserve) }
    {
        if !self.allows(step) {
            return Err(StepFault::NotAStep);
        }
        let place = step.access.place(self.size, self.words[READ_PLACE]);
        let old = self.words[place];
        self.parts[step.seat as usize].record(step.access, old)?;
        self.words[place] = step.access.word_after(old);
        Ok(step.access.seen(old))
    }

    /// A producer reserves the next id, which is its new ticket: one step. Refused as that step is.
    pub fn reserve(&mut self, seat: u64) -> Result<u64, StepFault>
        ensures { Reserves self.old seat result self.new }
    {
        let access = Access::Reserve;
        match self.step(Step { seat, access })? {
            Seen::Read(id) => Ok(id),
            Seen::Stored => unreachable!(),
        }
    }

    /// A producer publishes a packet under its ticket: it looks for room, and, where the read index that it saw shows
    /// room, stores the body, and the header last. Refused where the ticket is none of its open ones: no step is made
    /// then. After the look no step is refused.
    pub fn publish(
        &mut self,
        seat: u64,
        ticket: PacketId,
        words: &[u64; 8],
    ) -> Result<Look, StepFault>
        requires { is_invalid (slice_index words.now 0) ≡ false }
        ensures { Publishes self.old seat ticket.0 words.now result self.new }
    {
        if seat as usize >= self.parts.len() {
            return Err(StepFault::NotAStep);
        }
        let seen = self.words[READ_PLACE];
        let room = has_room(self.size, ticket, seen);
        if !self.parts[seat as usize].publish(ticket, seen, room, words) {
            return Err(StepFault::NotAStep);
        }
        if !room {
            return Ok(Look::Busy(seen));
        }
        let slot = word_place(self.size, ticket.0, 0);
        put_packet(&mut self.words, slot, words);
        Ok(Look::Published)
    }

    /// The processor collects the packet at the read index, header first; none where the header's type is INVALID.
    /// Refused between clearing a header and raising the read index: no step is made then. Behind the look at the
    /// header no step is refused.
    pub fn collect(&mut self) -> Result<Option<[u64; 8]>, StepFault>
        ensures { Collects self.old result self.new }
    {
        let slot = word_place(self.size, self.words[READ_PLACE], 0);
        let words = packet_in(&self.words, slot);
        if !self.parts[0].collect(&words) {
            return Err(StepFault::NotAStep);
        }
        Ok(packet_among(words))
    }

    /// The processor retires the packet at the read index, and tells that index: it gives the slot the type INVALID,
    /// and raises the index. Refused where it has not collected the packet whole, or has cleared its header before:
    /// no step is made then. Once the header is cleared, raising is not refused.
    pub fn retire(&mut self) -> Result<u64, StepFault>
        ensures { Retires self.old result self.new }
    {
        let index = self.words[READ_PLACE];
        if !self.parts[0].retire(index) {
            return Err(StepFault::NotAStep);
        }
        self.words[word_place(self.size, index, 0)] = INVALID as u64;
        self.words[READ_PLACE] = index + 1;
        Ok(index)
    }

    /// Every ring state meets the ring rule.
    pub fn keeps_rule(&self)
        ensures { IsRule (producers_of self.now) self.now }
    {
        let _ = &self.size;
    }
}

/// Why there is no state after a list of steps.
#[derive(Clone, Copy, Debug, PartialEq, Eq, thiserror::Error)]
pub enum ReplayFault {
    /// There was no memory for the ring or for noting a step.
    #[error("out of memory")]
    OutOfMemory,
    /// The step at this index, from 0, is the first that is not allowed.
    #[error("step {0} is not allowed")]
    NotAStep(usize),
}

impl ReplayFault {
    ghost use Rattle.std.specs.Prelude.{◌≡◌};
    ghost use Rattle.ring_core.specs.Faults.{number_of_replay_fault};

    /// The fault's number (own).
    pub fn number(&self) -> u8
        ensures { result ≡ number_of_replay_fault self.now }
    {
        match self {
            ReplayFault::OutOfMemory => 0,
            ReplayFault::NotAStep(_) => 1,
        }
    }
}

impl From<AllocError> for ReplayFault {
    ghost use Rattle.std.specs.Prelude.{◌≡◌};
    ghost use Rattle.ring_core.specs.declared.state.ReplayFault.{ReplayFault};

    ghost from_gives = { λ _ fault. fault ≡ ReplayFault.OutOfMemory };

    fn from(_: AllocError) -> ReplayFault {
        ReplayFault::OutOfMemory
    }
}

/// The ring after these steps, in turn from the opening.
pub fn replay(
    alloc: Global,
    size: u64,
    producers: u64,
    steps: &[Step],
) -> Result<RingState, ReplayFault>
    requires size { is_ring_size size ≡ true }
    requires producers { is_producer_count producers ≡ true }
    ensures replays { IfOk result (λ ring. Replays size producers steps.now ring) }
    ensures rule { IfOk result (λ ring. IsRule producers ring) }
    ensures stops { IfErr result (λ fault. IsReplayFault size producers steps.now fault) }
{
    let mut ring = RingState::new(alloc, size, producers)?;
    for (index, step) in steps.iter().enumerate() {
        match ring.step(*step) {
            Ok(_) => {}
            Err(fault) => return Err(fault_at(index, fault)),
        }
    }
    Ok(ring)
}

// What a fault of the step at an index is to the list that it stands in.
fn fault_at(index: usize, fault: StepFault) -> ReplayFault
    ensures { result ≡ fault_at index fault }
{
    match fault {
        StepFault::OutOfMemory => ReplayFault::OutOfMemory,
        StepFault::NotAStep => ReplayFault::NotAStep(index),
    }
}

/// The words of a ring as it opens: both indices 0, and each slot free.
#[tactic(auto, using(crate::proofs::Places::free_more))]
pub fn opening_words(alloc: Global, size: u64) -> Result<Vec<u64>, AllocError>
    ensures { IfOk result (λ words. words.items ≡ (opened size 0).words) }
{
    let mut words = Vec::new(alloc);
    words.push(0)?;
    words.push(0)?;
    for _slot in 0..size {
        words.extend_from_slice(&[INVALID as u64, 0, 0, 0, 0, 0, 0, 0])?;
    }
    Ok(words)
}

// Puts a packet into a slot whose word 0 lies here.
fn put_packet(words: &mut Vec<u64>, slot: usize, packet: &[u64; 8])
    requires { slot + 8 ≤ length words.old.items }
    ensures { words.new.items ≡ packet_put words.old.items slot packet.now }
{
    words[slot + 1] = packet[1];
    words[slot + 2] = packet[2];
    words[slot + 3] = packet[3];
    words[slot + 4] = packet[4];
    words[slot + 5] = packet[5];
    words[slot + 6] = packet[6];
    words[slot + 7] = packet[7];
    words[slot] = packet[0];
}

// The packet in the slot whose word 0 lies here.
fn packet_in(words: &Vec<u64>, slot: usize) -> [u64; 8]
    requires { slot + 8 ≤ length words.now.items }
    ensures { result ≡ packet_in words.now.items slot }
{
    [
        words[slot],
        words[slot + 1],
        words[slot + 2],
        words[slot + 3],
        words[slot + 4],
        words[slot + 5],
        words[slot + 6],
        words[slot + 7],
    ]
}

// The packet among words that were found: none where the header's type is INVALID.
fn packet_among(words: [u64; 8]) -> Option<[u64; 8]>
    ensures { result ≡ packet_among words }
{
    if is_invalid(words[0]) {
        None
    } else {
        Some(words)
    }
}

// The parts of a ring as it opens.
#[tactic(auto, using(std::proofs::lemmas::List::replicate_more))]
fn opening_parts(alloc: Global, producers: u64) -> Result<Vec<SeatPart>, AllocError>
    ensures { IfOk result (λ parts. parts.items ≡ (opened 0 producers).parts) }
{
    let mut parts = Vec::new(alloc);
    parts.push(SeatPart::new_processor())?;
    for _producer in 0..producers {
        parts.push(SeatPart::new_producer(alloc))?;
    }
    Ok(parts)
}
