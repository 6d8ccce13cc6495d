//! The ring of one queue, beside what the core decided of the packet at its read index.

ghost use Rattle.std.specs.Prelude.{◌≡◌, ◌&&◌, ℕ, false, option_map, slice_get, slice_index};
ghost use Rattle.std.specs.Option.{option_copied};
ghost use Rattle.ring_core.specs.Parts.{seen_by};
ghost use Rattle.world.specs.Dues.{answer_to, has_spent, may_follow, reserves};
ghost use Rattle.world.specs.Making.{MakesOn, decided_after};
ghost use Rattle.world.specs.Obeying.{next_of};
ghost use Rattle.ring_core.specs.Words.{is_invalid};
ghost use Rattle.world.specs.Lanes.{shown_as};
ghost use Rattle.world.specs.inner.Calling.{CollectsOn, PublishesOn, ReservesOn, RetiresOn, sent_as};

use crate::lane::{Sent, Shown};
use crate::reply::{Answer, Refusal, Reply};
use aql_packet::{PacketId, QueueId};
use ring_core::{Access, Look, RingState, SeatPart, Seen, Step, StepFault};

/// A queue's ring.
#[derive(Drop)]
pub struct QueueRing {
    pub queue: QueueId,
    pub ring: RingState,
    /// Whether the packet at the read index was launched or denied.
    pub decided: bool,
}

/// The packet that a queue's processor has collected whole, with its id.
#[derive(Clone, Copy)]
pub struct Next {
    pub packet: PacketId,
    pub words: [u64; 8],
}

impl QueueRing {
    /// The packet at the read index, if the processor has collected it whole.
    pub(crate) fn next(&self) -> Option<Next>
        ensures { result ≡ next_of self.now }
    {
        let words = self.ring.processor().collected_packet()?;
        Some(Next {
            packet: PacketId(self.ring.read_index()),
            words,
        })
    }

    /// A seat makes a step, unless it is none that it may make now.
    pub(crate) fn make(&mut self, step: Step) -> Reply
        ensures { MakesOn self.old step result self.new }
    {
        if self.is_spent(step) {
            return Err(Refusal::Spent);
        }
        if !may_follow(self.decided, step.access) {
            return Err(Refusal::NotAStep);
        }
        let index = PacketId(self.ring.read_index());
        match self.ring.step(step) {
            Ok(seen) => {
                self.decided = decided_after(self.decided, step.access);
                Ok(answer_to(step.access, index, seen))
            }
            Err(StepFault::OutOfMemory) => Err(Refusal::Core(core_model::Refusal::OutOfMemory)),
            Err(StepFault::NotAStep) => Err(Refusal::NotAStep),
        }
    }

    /// A producer reserves a ticket, unless it has reserved all that it may.
    pub(crate) fn reserve(&mut self, producer: u64) -> Result<u64, Refusal>
        ensures { ReservesOn producer self.old result self.new }
    {
        if has_spent(self.ring.parts().get(producer as usize)) {
            return Err(Refusal::Spent);
        }
        match self.ring.reserve(producer) {
            Ok(ticket) => Ok(ticket),
            Err(StepFault::OutOfMemory) => Err(Refusal::Core(core_model::Refusal::OutOfMemory)),
            Err(StepFault::NotAStep) => Err(Refusal::NotAStep),
        }
    }

    /// The processor collects the packet at the read index, if one is published there.
    pub(crate) fn collect(&mut self) -> Result<Option<Shown>, Refusal>
        ensures { CollectsOn self.old result self.new }
    {
        let packet = PacketId(self.ring.read_index());
        match self.ring.collect() {
            Ok(words) => Ok(shown(packet, words)),
            Err(_) => Err(Refusal::NotAStep),
        }
    }

    /// The processor retires the packet at the read index, if that was launched or denied.
    pub(crate) fn retire(&mut self) -> Result<u64, Refusal>
        ensures { RetiresOn self.old result self.new }
    {
        if !self.decided {
            return Err(Refusal::NotAStep);
        }
        match self.ring.retire() {
            Ok(index) => {
                self.decided = false;
                Ok(index)
            }
            Err(_) => Err(Refusal::NotAStep),
        }
    }

    /// A producer publishes a packet, its type another than INVALID, under a ticket of its own, if the read index
    /// shows room for it.
    pub(crate) fn publish(
        &mut self,
        producer: u64,
        ticket: PacketId,
        words: &[u64; 8],
    ) -> Result<Sent, Refusal>
        requires { is_invalid (slice_index words.now 0) ≡ false }
        ensures { PublishesOn producer ticket words.now self.old result self.new }
    {
        match self.ring.publish(producer, ticket, words) {
            Ok(look) => Ok(sent(ticket, look)),
            Err(_) => Err(Refusal::NotAStep),
        }
    }

    // Whether a step reserves an id for a producer that has reserved all that it may.
    fn is_spent(&self, step: Step) -> bool
        ensures { result ≡ (reserves step.access && has_spent (slice_get self.now.ring.parts step.seat)) }
    {
        reserves(step.access) & has_spent(self.ring.parts().get(step.seat as usize))
    }
}

// A packet with its id, if there is one.
fn shown(packet: PacketId, words: Option<[u64; 8]>) -> Option<Shown>
    ensures { result ≡ option_map (shown_as packet) words }
{
    match words {
        None => None,
        Some(words) => Some(Shown { packet, words }),
    }
}

// What became of a packet that was to be published under a ticket, whose look came to this.
fn sent(ticket: PacketId, look: Look) -> Sent
    ensures { result ≡ sent_as ticket look }
{
    match look {
        Look::Published => Sent::Published(ticket),
        Look::Busy(read) => Sent::Busy { ticket, read },
    }
}

// Whether an access reserves an id.
fn reserves(access: Access) -> bool
    ensures { result ≡ reserves access }
{
    match access {
        Access::Reserve => true,
        _ => false,
    }
}

// Whether a seat is a producer that has reserved all that it may.
fn has_spent(part: Option<&SeatPart>) -> bool
    ensures { result ≡ has_spent (option_copied part.entry) }
{
    match part {
        Some(SeatPart::Producer(part)) => part.allowance == 0,
        _ => false,
    }
}

// Whether an access may be made, where it is known whether the packet at the read index was decided.
fn may_follow(decided: bool, access: Access) -> bool
    ensures { result ≡ may_follow decided access }
{
    match access {
        Access::ClearHeader => decided,
        _ => true,
    }
}

// Whether the packet at the read index is decided after an access.
fn decided_after(decided: bool, access: Access) -> bool
    ensures { result ≡ decided_after decided access }
{
    match access {
        Access::RaiseReadIndex => false,
        _ => decided,
    }
}

// What a step that was made answers, at a read index.
fn answer_to(access: Access, index: PacketId, seen: Seen) -> Answer
    ensures { (old : ℕ) → seen ≡ seen_by access old → result ≡ answer_to access index.0 old }
{
    match (access, seen) {
        (Access::LoadHeader, Seen::Read(word)) => Answer::Header {
            packet: index,
            word,
        },
        _ => Answer::Step(seen),
    }
}
