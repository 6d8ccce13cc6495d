//! What each seat of a ring knows: the parts that the steps of its own seat alone change.

ghost use Rattle.std.specs.Prelude.{◌≡◌, ◌∷◌, [], ℕ, OnOk, OnErr, false, is_some, not, slice_index};
ghost use Rattle.std.specs.List.{fold};
ghost use Rattle.ring_core.specs.declared.access.Access.{Access};
ghost use Rattle.ring_core.specs.Parts.{producer_may, processor_may, may_make, part_after, new_producer, new_processor, after_producing, after_processing, passes, collected_packet, Suits, SuitsPart};
ghost use Rattle.ring_core.specs.Words.{has_body, is_invalid};
ghost use Rattle.ring_core.specs.Tickets.{open_ticket, shows_room};
ghost use Rattle.ring_core.specs.declared.access.Access.TheVariants.{LoadReadIndex};
ghost use Rattle.ring_core.specs.declared.part.SeatPart.TheVariants.{Processor, Producer};
ghost use Rattle.ring_core.specs.Calls.{made_of, publication, retiring, showing};
ghost use Rattle.ring_core.specs.InTurn.{collecting, stored_if};
ghost use Rattle.ring_core.specs.Runs.{after_own};
ghost use Rattle.ring_core.specs.inner.Together.{after_all};

use crate::access::{Access, Made};
use crate::calls::{publication, showing};
use crate::log::Log;
use crate::ticket::{Ticket, has_body, is_body, known, packet_of, whole, with_word};
use crate::tickets::Tickets;
use aql_packet::{PacketId, is_invalid};
use std::alloc::{AllocError, Global};

/// What a producer knows.
#[derive(Drop, Debug)]
pub struct ProducerPart {
    /// How many more ids it may reserve.
    pub allowance: u64,
    /// The ids that it reserved, in order.
    pub tickets: Tickets,
    /// The steps that it made, in order.
    pub steps: Log<Made>,
}

/// What the processor knows.
#[derive(Drop, Debug)]
pub struct ProcessorPart {
    /// The retired packets: the packet with id `n` is at index `n`.
    pub retired: Log<[u64; 8]>,
    /// The words collected of the slot at the read index.
    pub collected: [Option<u64>; 8],
    /// Whether it has cleared the header of the slot at the read index, and not yet raised the index.
    pub raising: bool,
    /// The steps that it made, in order.
    pub steps: Log<Made>,
}

/// What one seat knows.
#[derive(Drop, Debug)]
pub enum SeatPart {
    Processor(ProcessorPart),
    Producer(ProducerPart),
}

/// How many ids a producer may reserve: 2^40.
pub const ALLOWANCE: u64 = 1 << 40;

impl ProducerPart {
    /// Whether the producer may make an access, in a ring of this size.
    pub(crate) fn may_make(&self, size: u64, access: Access) -> bool
        ensures { result ≡ producer_may size self.now access }
    {
        match access {
            Access::Reserve => self.allowance > 0,
            Access::LoadReadIndex { ticket } => self.tickets.get_open(ticket).is_some(),
            Access::StoreBody { ticket, place, .. } => {
                is_body(place) && saw_room(self.tickets.get_open(ticket), size, ticket)
            }
            Access::StoreHeader { ticket, word } => {
                !is_invalid(word) && has_all(self.tickets.get_open(ticket))
            }
            _ => false,
        }
    }

    /// Notes an access that the producer made and the word that it found. Only a reservation wants
    /// memory, and without it nothing changes.
    pub(crate) fn record(&mut self, access: Access, old: u64) -> Result<(), AllocError>
        requires { Suits access old self.old.tickets }
        ensures ok { OnOk result (self.new ≡ after_producing self.old access old) }
        ensures err { OnErr result (self.new ≡ self.old) }
        ensures due { OnErr result (access ≡ Access.Reserve) }
    {
        match access {
            Access::Reserve => {
                self.tickets.push(PacketId(old))?;
                self.allowance = self.allowance.saturating_sub(1);
            }
            Access::LoadReadIndex { ticket } => self.tickets.note_read_index(ticket, old),
            Access::StoreBody {
                ticket,
                place,
                word,
            } => self.tickets.note_word(ticket, place, word),
            Access::StoreHeader { ticket, word } => self.tickets.publish(ticket, word),
            _ => {}
        }
        self.steps.push(&access.made(old));
        Ok(())
    }

    /// Notes a publication whose look saw this read index: the look, and, if that saw room, the stores.
    /// Without an open ticket of this id nothing changes: whether there is one.
    pub(crate) fn publish(
        &mut self,
        ticket: PacketId,
        seen: u64,
        room: bool,
        words: &[u64; 8],
    ) -> bool
        ensures open { result ≡ is_some (open_ticket ticket.0 self.old.tickets) }
        ensures noted { Producer self.new ≡ after_all result (Producer self.old) (stored_if room ticket.0 seen words.now) }
    {
        if room {
            self.store(ticket, seen, words)
        } else {
            self.look(ticket, seen)
        }
    }

    // Notes a look for room that saw this read index.
    fn look(&mut self, ticket: PacketId, seen: u64) -> bool
        ensures open { result ≡ is_some (open_ticket ticket.0 self.old.tickets) }
        ensures noted { Producer self.new ≡ after_all result (Producer self.old) (made_of (LoadReadIndex ticket) seen ∷ []) }
    {
        if !self.tickets.look(ticket, seen) {
            return false;
        }
        self.steps
            .push(&Access::LoadReadIndex { ticket }.made(seen));
        true
    }

    // Notes a look that saw room at this read index, and the stores of a packet.
    fn store(&mut self, ticket: PacketId, seen: u64, words: &[u64; 8]) -> bool
        ensures open { result ≡ is_some (open_ticket ticket.0 self.old.tickets) }
        ensures noted { Producer self.new ≡ after_all result (Producer self.old) (publication ticket.0 seen words.now) }
    {
        if !self.tickets.publish_whole(ticket, seen, words) {
            return false;
        }
        self.steps.push_all(&publication(ticket, seen, words));
        true
    }
}

// Whether there is a ticket, and it saw room for its packet.
fn saw_room(ticket: Option<Ticket>, size: u64, id: PacketId) -> bool
    ensures { result ≡ passes (λ t. shows_room size id.0 t.saw) ticket }
{
    match ticket {
        None => false,
        Some(ticket) => ticket.shows_room(size, id),
    }
}

// Whether there is a ticket, and all its body words are written.
fn has_all(ticket: Option<Ticket>) -> bool
    ensures { result ≡ passes (λ t. has_body t.words) ticket }
{
    match ticket {
        None => false,
        Some(ticket) => has_body(&ticket.words),
    }
}

impl ProcessorPart {
    /// The packet collected, once it is whole.
    pub fn collected_packet(&self) -> Option<[u64; 8]>
        ensures { result ≡ collected_packet self.now }
    {
        whole(&self.collected)
    }

    /// Whether the processor may make an access.
    pub(crate) fn may_make(&self, access: Access) -> bool
        ensures { result ≡ processor_may self.now access }
    {
        match access {
            Access::LoadHeader => !self.raising,
            Access::LoadBody { place } => is_body(place) && self.collected[0].is_some(),
            Access::ClearHeader => !self.raising && has_body(&self.collected),
            Access::RaiseReadIndex => self.raising,
            _ => false,
        }
    }

    /// Notes an access that the processor made and the word that it found.
    pub(crate) fn record(&mut self, access: Access, old: u64)
        ensures { self.new ≡ after_processing self.old access old }
    {
        match access {
            Access::LoadHeader => {
                if !is_invalid(old) {
                    self.collected = with_word(self.collected, 0, old);
                }
            }
            Access::LoadBody { place } => self.collected = with_word(self.collected, place, old),
            Access::ClearHeader => self.raising = true,
            Access::RaiseReadIndex => {
                self.retired.push(&packet_of(&self.collected));
                self.collected = [None; 8];
                self.raising = false;
            }
            _ => {}
        }
        self.steps.push(&access.made(old));
    }

    /// Notes that a header was read, and, where its type is another than INVALID, the body. Between clearing a
    /// header and raising the read index nothing changes: whether it is read.
    pub(crate) fn collect(&mut self, words: &[u64; 8]) -> bool
        ensures may { result ≡ not self.old.raising }
        ensures noted { Processor self.new ≡ after_all result (Processor self.old) (collecting words.now) }
    {
        if self.raising {
            return false;
        }
        if is_invalid(words[0]) {
            self.steps.push(&Access::LoadHeader.made(words[0]));
        } else {
            self.gather(words);
        }
        true
    }

    // Notes that a whole packet was read.
    fn gather(&mut self, words: &[u64; 8])
        requires { is_invalid (slice_index words.now 0) ≡ false }
        ensures { Processor self.new ≡ fold after_own (Processor self.old) (showing words.now) }
    {
        self.collected = known(words);
        self.steps.push_all(&showing(words));
    }

    /// Notes that a packet was retired which had this read index. Unless it may be, nothing changes: whether it
    /// may be.
    pub(crate) fn retire(&mut self, index: u64) -> bool
        ensures may { result ≡ processor_may self.old Access.ClearHeader }
        ensures noted { Processor self.new ≡ after_all result (Processor self.old) (retiring index) }
    {
        if !self.may_make(Access::ClearHeader) {
            return false;
        }
        self.record(Access::ClearHeader, index);
        self.record(Access::RaiseReadIndex, index);
        true
    }
}

impl SeatPart {
    /// The part of a producer as a ring opens. It takes no memory.
    pub(crate) fn new_producer(alloc: Global) -> SeatPart
        ensures { result ≡ new_producer }
    {
        SeatPart::Producer(ProducerPart {
            allowance: ALLOWANCE,
            tickets: Tickets::new(alloc),
            steps: Log::new(),
        })
    }

    /// The part of the processor as a ring opens. It takes no memory.
    pub(crate) fn new_processor() -> SeatPart
        ensures { result ≡ new_processor }
    {
        SeatPart::Processor(ProcessorPart {
            retired: Log::new(),
            collected: [None; 8],
            raising: false,
            steps: Log::new(),
        })
    }

    /// Whether a seat with this part may make an access, in a ring of this size.
    pub(crate) fn may_make(&self, size: u64, access: Access) -> bool
        ensures { result ≡ may_make size self.now access }
    {
        match self {
            SeatPart::Processor(part) => part.may_make(access),
            SeatPart::Producer(part) => part.may_make(size, access),
        }
    }

    /// Notes an access that the seat made and the word that it found. Only a reservation wants memory,
    /// and without it nothing changes.
    pub(crate) fn record(&mut self, access: Access, old: u64) -> Result<(), AllocError>
        requires { SuitsPart self.old access old }
        ensures ok { OnOk result (self.new ≡ part_after self.old access old) }
        ensures err { OnErr result (self.new ≡ self.old) }
        ensures due { OnErr result (access ≡ Access.Reserve) }
    {
        match self {
            SeatPart::Processor(part) => {
                part.record(access, old);
                Ok(())
            }
            SeatPart::Producer(part) => part.record(access, old),
        }
    }

    /// Notes a publication whose look saw this read index, the stores if it saw room, if the seat may look for it:
    /// whether it may.
    pub(crate) fn publish(
        &mut self,
        ticket: PacketId,
        seen: u64,
        room: bool,
        words: &[u64; 8],
    ) -> bool
        ensures may { (size : ℕ) → result ≡ may_make size self.old (LoadReadIndex ticket) }
        ensures noted { self.new ≡ after_all result self.old (stored_if room ticket.0 seen words.now) }
    {
        match self {
            SeatPart::Processor(_) => false,
            SeatPart::Producer(part) => part.publish(ticket, seen, room, words),
        }
    }

    /// Notes that these words were found at the read index, if the seat may look there: whether it may.
    pub(crate) fn collect(&mut self, words: &[u64; 8]) -> bool
        ensures may { (size : ℕ) → result ≡ may_make size self.old Access.LoadHeader }
        ensures noted { self.new ≡ after_all result self.old (collecting words.now) }
    {
        match self {
            SeatPart::Processor(part) => part.collect(words),
            SeatPart::Producer(_) => false,
        }
    }

    /// Notes that a packet was retired which had this read index, if the seat may clear its header: whether it may.
    pub(crate) fn retire(&mut self, index: u64) -> bool
        ensures may { (size : ℕ) → result ≡ may_make size self.old Access.ClearHeader }
        ensures noted { self.new ≡ after_all result self.old (retiring index) }
    {
        match self {
            SeatPart::Processor(part) => part.retire(index),
            SeatPart::Producer(_) => false,
        }
    }
}
