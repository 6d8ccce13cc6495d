//! A producer's pass: it reserves ids and publishes packets under them.

ghost use Rattle.std.specs.Prelude.{◌≡◌, ◌≢◌, ℕ, [], ◌∷◌, IfOk, IfErr, false, get_or};
ghost use Rattle.ring_core.specs.declared.access.Access.{Access};
ghost use Rattle.ring_core.specs.Words.{is_invalid};
ghost use Rattle.ring.specs.Bytes.{words_of};
ghost use Rattle.ring.specs.Made.{read, packet_stored};
ghost use Rattle.ring.specs.Steps.{HasGained};
ghost use Rattle.ring.specs.Publishing.{IsOpen, ProducerGains, HasPublished, IsFillable, IsGivenBack};

use crate::place::{slot_place, table_place};
use crate::ring::Ring;
use crate::share::RingSeat;
use aql_packet::{PacketId, is_invalid, words_of};
use ring_core::{Access, READ_PLACE, WRITE_PLACE, has_room};
use std::marker::Model;

/// An id that a producer reserved and has not published yet.
#[derive(Drop, Debug, PartialEq, Eq)]
pub struct Ticket {
    id: PacketId,
}

impl Ticket {
    /// The id of the packet that will be published with the ticket.
    pub fn id(&self) -> PacketId
        ensures { result ≡ self.now.id }
    {
        self.id
    }
}

/// A producer's pass to one ring. A contract sees which table of words it is for, its number from 1,
/// and what it knows: how many more ids it may reserve, its tickets, and the steps that it made. At run
/// time it keeps its number and the first of these.
#[derive(Drop)]
pub struct ProducerPass {
    pub(crate) seat: RingSeat,
    pub(crate) number: u64,
    pub(crate) allowance: u64,
}

impl Model for ProducerPass {
    ghost use Rattle.ring.specs.Passes.{ProducerSeen, IsProducerPass, as_producer, only_part};

    ghost Value = { ProducerSeen };

    ghost view = { λ p. record { table = p.seat.table_id; number = p.number; part = as_producer (only_part p.seat.me.0) } };

    ghost invariant = { λ p. IsProducerPass p.number p.allowance p.seat.me };
}

/// A producer has reserved 2^40 ids, and may reserve no more.
#[derive(Clone, Copy, Debug, PartialEq, Eq, thiserror::Error)]
#[error("the producer has reserved all ids that it may")]
pub struct Spent;

/// What became of a packet that was to be published.
#[derive(Drop, Debug, PartialEq, Eq)]
pub enum Publication {
    /// It is published under this id.
    Published(PacketId),
    /// Its slot still has a packet that is not retired, as far as the read index told that the look
    /// for room read. The ticket stays open.
    SlotBusy(Ticket, u64),
    /// Its type is INVALID. No step was made, and the ticket stays open.
    NotPublishable(Ticket),
}

impl Ring {
    // Stores the seven body words of a ticket's packet, and then its header, which publishes it.
    fn store_packet(&self, seat: &mut RingSeat, id: PacketId, words: &[u64; 8])
        requires table { seat.old.table_id ≡ self.now.table }
        requires fillable { IsFillable self.now.size seat.old.me id.0 }
        requires valid { is_invalid (get_or words.now 0 0) ≡ false }
        ensures seat { seat.new.table_id ≡ seat.old.table_id }
        ensures gained { HasGained self.now.size self.now.producers seat.old.me (packet_stored id.0 words.now) seat.new.me }
    {
        let slot = slot_place(self.size, id.0);
        for before in 0..7 {
            let place = before + 1;
            let word = words[place];
            let access = Access::StoreBody {
                ticket: id,
                place: place as u64,
                word,
            };
            self.store(seat, access, slot + place, word);
        }
        let word = words[0];
        self.store(seat, Access::StoreHeader { ticket: id, word }, slot, word);
    }
}

impl ProducerPass {
    /// The number of its producer, from 1.
    pub fn number(&self) -> u64
        ensures { result ≡ self.now.number }
    {
        self.number
    }

    /// Reserves the next id, or answers that 2^40 are reserved and changes nothing. One addition to the
    /// write index.
    pub fn reserve(&mut self, ring: &Ring) -> Result<Ticket, Spent>
        requires ring { self.old.table ≡ ring.now.table }
        ensures steps { IfOk result (λ ticket. ProducerGains ring.now self.old (read Access.Reserve ticket.id.0 ∷ []) self.new) }
        ensures opened { IfOk result (λ ticket. IsOpen ticket.id.0 self.new) }
        ensures others { IfOk result (λ ticket. (id : ℕ) → IsOpen id self.old → (id ≢ ticket.id.0) × IsOpen id self.new) }
        ensures spent { IfErr result (λ _. (self.old.part.allowance ≡ 0) × (self.new ≡ self.old)) }
    {
        if self.allowance == 0 {
            return Err(Spent);
        }
        let id = ring.add_one(&mut self.seat, Access::Reserve, table_place(WRITE_PLACE));
        self.allowance -= 1;
        Ok(Ticket { id: PacketId(id) })
    }

    /// Publishes a packet under a ticket of this pass that is open. A packet of type INVALID is not
    /// publishable. Otherwise the read index is looked at, and where it shows room the packet's eight
    /// words are stored, the header last.
    pub fn publish(&mut self, ring: &Ring, ticket: Ticket, bytes: &[u8; 64]) -> Publication
        requires ring { self.old.table ≡ ring.now.table }
        requires opened { IsOpen ticket.id.0 self.old }
        ensures published { HasPublished ring.now self.old ticket.id.0 (words_of bytes.now) result self.new }
        ensures given_back { IsGivenBack result self.new }
        ensures others { (id : ℕ) → id ≢ ticket.id.0 → IsOpen id self.old → IsOpen id self.new }
    {
        let words = words_of(bytes);
        if is_invalid(words[0]) {
            return Publication::NotPublishable(ticket);
        }
        let id = ticket.id;
        let look = Access::LoadReadIndex { ticket: id };
        let read_index = ring.load(&mut self.seat, look, table_place(READ_PLACE));
        if !has_room(ring.size, id, read_index) {
            return Publication::SlotBusy(ticket, read_index);
        }
        ring.store_packet(&mut self.seat, id, &words);
        Publication::Published(id)
    }
}
