//! The processor's pass: it is shown packets, in the order of their ids, and retires them.

ghost use Rattle.std.specs.Prelude.{◌≡◌, ◌↔◌, ◌+◌, ◌<◌, ◌^◌, ◌++◌, ◌∷◌, [], IsTrue, length, true};
ghost use Rattle.aql_packet.specs.Ring.{is_ring_size};
ghost use Rattle.ring.specs.Bytes.{words_of};
ghost use Rattle.ring.specs.Made.{retiring};
ghost use Rattle.ring.specs.Showing.{IsShownBy, ProcessorGains, HasPeeked, ShowsAgain, IsLoadable, HasLoaded};

use crate::place::{slot_place, table_place};
use crate::ring::Ring;
use crate::share::RingSeat;
use aql_packet::{PacketId, bytes_of, is_invalid, words_of};
use ring_core::{Access, READ_PLACE};
use std::marker::Model;

/// The packet at the read index.
#[derive(Clone, Copy, Debug, PartialEq, Eq)]
pub struct Shown {
    pub id: PacketId,
    pub bytes: [u8; 64],
}

/// What the processor found at the read index.
#[derive(Clone, Copy, Debug, PartialEq, Eq)]
pub enum Peeked {
    /// A packet.
    Shown(Shown),
    /// A slot with the type INVALID: the packet of that id is not published.
    Empty,
}

/// The processor's pass to one ring. A contract sees which table of words it is for, and what it knows:
/// the packets that it retired, the words that it has collected, and the steps that it made. At run time
/// it keeps the read index and the packet that it has collected.
#[derive(Drop)]
pub struct ProcessorPass {
    pub(crate) seat: RingSeat,
    pub(crate) next: u64,
    /// Whether the words below are those of a packet that was shown and is not retired.
    pub(crate) whole: bool,
    pub(crate) packet: [u64; 8],
}

impl Model for ProcessorPass {
    ghost use Rattle.std.specs.Bool.{then_some};
    ghost use Rattle.ring.specs.Passes.{ProcessorSeen, IsProcessorPass, as_processor, only_part};

    ghost Value = { ProcessorSeen };

    ghost view = { λ p. record { table = p.seat.table_id; part = as_processor (only_part p.seat.me.0) } };

    ghost invariant = { λ p. IsProcessorPass p.next (then_some p.whole p.packet) p.seat.me };
}

impl Ring {
    // Loads the header at the read index and, where its type is not INVALID, the body under it.
    fn load_packet(&self, seat: &mut RingSeat, next: u64) -> Option<[u64; 8]>
        requires table { seat.old.table_id ≡ self.now.table }
        requires loadable { IsLoadable seat.old.me next }
        ensures seat { seat.new.table_id ≡ seat.old.table_id }
        ensures loaded { HasLoaded self.now.size self.now.producers seat.old.me result seat.new.me }
        ensures fits { is_ring_size self.now.size ≡ true }
    {
        let slot = slot_place(self.size, next);
        let header = self.load(seat, Access::LoadHeader, slot);
        if is_invalid(header) {
            return None;
        }
        let mut words = [header, 0, 0, 0, 0, 0, 0, 0];
        for before in 0..7 {
            let place = before + 1;
            let access = Access::LoadBody {
                place: place as u64,
            };
            words[place] = self.load(seat, access, slot + place);
        }
        Some(words)
    }
}

impl ProcessorPass {
    /// Shows the packet at the read index, if it is published: its header is loaded, and where that has a
    /// type other than INVALID its seven body words. Until it is retired, it is shown again.
    pub fn peek(&mut self, ring: &Ring) -> Peeked
        requires ring { self.old.table ≡ ring.now.table }
        ensures peeked { HasPeeked ring.now self.old result self.new }
        ensures again { ShowsAgain self.old result }
        ensures leaves { self.new.part.retired ≡ self.old.part.retired }
    {
        match ring.load_packet(&mut self.seat, self.next) {
            None => Peeked::Empty,
            Some(words) => {
                self.whole = true;
                self.packet = words;
                Peeked::Shown(Shown {
                    id: PacketId(self.next),
                    bytes: bytes_of(&words),
                })
            }
        }
    }

    /// Whether this pass has collected just this packet, whole and under its next id, and not retired it.
    pub fn shows(&self, shown: &Shown) -> bool
        ensures { IsTrue result ↔ IsShownBy shown.now self.now }
    {
        self.whole && shown.id.0 == self.next && words_of(&shown.bytes) == self.packet
    }

    /// Retires the packet that it was shown: the type INVALID is stored in its header, and 1 is added to
    /// the read index.
    pub fn retire(&mut self, ring: &Ring, shown: Shown)
        requires ring { self.old.table ≡ ring.now.table }
        requires shown { IsShownBy shown self.old }
        ensures retired { ProcessorGains ring.now self.old (retiring (length self.old.part.retired)) self.new }
        ensures adds { self.new.part.retired ≡ self.old.part.retired ++ words_of shown.bytes ∷ [] }
        ensures few { length self.new.part.retired < 2 ^ 64 }
    {
        let _ = shown;
        let slot = slot_place(ring.size, self.next);
        ring.store(&mut self.seat, Access::ClearHeader, slot, 1);
        let index = ring.add_one(
            &mut self.seat,
            Access::RaiseReadIndex,
            table_place(READ_PLACE),
        );
        self.next = index + 1;
        self.whole = false;
    }
}
