//! The places in which a packet processor keeps the packets of a queue in flight.

ghost use Rattle.std.specs.Prelude.{◌≡◌, ◌==◌, ◌+◌, ◌&&◌, ◌<◌, ◌≤◌, ◌++◌, ◌∷◌, [], All, IfSome, drop, find, length, map, option_map};
ghost use Rattle.std.specs.List.{list_any};
ghost use Rattle.std.specs.Option.{option_copied};
ghost use Rattle.core_model.specs.Limits.{most_in_flight};
ghost use Rattle.packet_processor.specs.declared.places.TheConstants.{PLACES};
ghost use Rattle.core_model.specs.LaunchRules.{is_barrier};
ghost use Rattle.packet_processor.specs.Queueing.{IsFoundIn, IsIndexOf, as_launched, is_place_of, with_progress, without_packet};
ghost use Rattle.packet_processor.specs.inner.Ascending.{holds_barrier};

use crate::packets::is_barrier;
use aql_packet::{Barrier, Header, Packet, PacketId, Scope, SignalHandle};
use arrayvec::ArrayVec;
use core_model::{LAUNCH_PROGRESS, MOST_IN_FLIGHT, Progress};
use std::marker::Model;

/// How many places there are: twice as many as packets can be in flight, so that those in front are seldom moved.
const PLACES: usize = 2 * MOST_IN_FLIGHT;

/// What lies in a place that isn't taken.
const NOTHING: Barrier = Barrier {
    header: Header {
        barrier: false,
        acquire: Scope::None,
        release: Scope::None,
    },
    dependencies: [SignalHandle(0); 5],
    completion_signal: SignalHandle(0),
};

/// A packet in flight in its place.
#[derive(Clone, Copy, Debug, PartialEq, Eq)]
pub struct Place {
    /// Its id in its queue.
    pub id: PacketId,
    /// The packet.
    pub packet: Packet,
    /// How far it has come.
    pub progress: Progress,
}

/// A packet in flight that was found: its id, and which of its queue's places it has.
#[derive(Clone, Copy, Debug, PartialEq, Eq)]
pub struct FoundPacket {
    /// Its id in its queue.
    pub packet: PacketId,
    /// The index of its place.
    pub index: usize,
}

/// The packets of one queue in flight, in the order in which they were launched, which is that of their ids. They
/// lie in sixteen places of the value itself, and take no memory. The first packet leaves its place behind, and the
/// others are moved only where no place behind them is left. A contract sees the list.
#[derive(Drop)]
pub struct Places {
    taken: ArrayVec<Place, PLACES>,
    /// How many places in front were left behind.
    left: usize,
    /// Whether a barrier packet is in flight.
    barred: bool,
}

impl Model for Places {
    ghost use Rattle.std.specs.Prelude.{List};
    ghost use Rattle.packet_processor.specs.declared.places.Place.{Place};

    ghost Value = { List Place };

    ghost use Rattle.std.specs.Prelude.{drop};

    ghost view = { λ p. drop p.left p.taken.items };

    ghost use Rattle.packet_processor.specs.inner.Ascending.{AreBehind};

    ghost invariant = { λ p. AreBehind p.left p.barred p.taken.items };
}

impl Default for Place {
    /// What lies in a place that isn't taken.
    fn default() -> Place {
        Place {
            id: PacketId(0),
            packet: Packet::BarrierOr(NOTHING),
            progress: LAUNCH_PROGRESS,
        }
    }
}

impl Places {
    /// No packet is in flight.
    pub fn new() -> Places
        ensures { result ≡ [] }
    {
        Places {
            taken: ArrayVec::new(),
            left: 0,
            barred: false,
        }
    }

    /// The packets, in the order in which they were launched.
    pub fn as_slice(&self) -> &[Place]
        ensures { result.now ≡ self.now }
    {
        let (_, flying) = self.taken.as_slice().split_at(self.left);
        flying
    }

    /// The packet with an id, if it is in flight.
    pub fn get(&self, id: PacketId) -> Option<&Place>
        ensures { option_copied result ≡ find (is_place_of id) self.now }
    {
        self.as_slice().iter().find(|place| place.id.0 == id.0)
    }

    /// The index of the place of the packet with an id, if it is in flight.
    pub fn index_of(&self, id: PacketId) -> Option<usize>
        ensures { IsIndexOf (is_place_of id) self.now result }
    {
        for (index, place) in self.as_slice().iter().enumerate() {
            if is_place_of(place, id) {
                return Some(index);
            }
        }
        None
    }

    /// The barrier packet in flight, if there is one, the first of them.
    pub fn barrier(&self) -> Option<FoundPacket>
        ensures first { option_map (λ found. found.packet) result ≡ option_map (λ place. place.id) (find (λ place. is_barrier place.packet) self.now) }
        ensures found { IfSome result (λ found. IsFoundIn found self.now) }
    {
        for (index, place) in self.as_slice().iter().enumerate() {
            if is_barrier(&place.packet) {
                let packet = place.id;
                return Some(FoundPacket { packet, index });
            }
        }
        None
    }

    /// Whether a barrier packet is in flight.
    pub fn has_barrier(&self) -> bool
        ensures { result ≡ list_any is_barrier (map (λ place. place.packet) self.now) }
    {
        self.barred
    }

    /// Puts a packet that is launched into a place that is free. Its id is above those of the others.
    pub fn launch(&mut self, id: PacketId, packet: Packet)
        requires free { length self.old < most_in_flight }
        requires above { All (λ place. place.id.0 < id.0) self.old }
        ensures { self.new ≡ self.old ++ as_launched id packet ∷ [] }
    {
        self.left = make_room(&mut self.taken, self.left);
        self.barred = self.barred | is_barrier(&packet);
        self.taken.push(Place {
            id,
            packet,
            progress: LAUNCH_PROGRESS,
        });
    }

    /// How many packets of the queue are in flight.
    pub fn len(&self) -> usize
        ensures { result ≡ length self.now }
    {
        self.taken.len() - self.left
    }

    /// Takes a packet that was found out of flight.
    pub fn release(&mut self, found: FoundPacket)
        requires { IsFoundIn found self.old }
        ensures without { self.new ≡ without_packet found.packet self.old }
        ensures fewer { length self.new + 1 ≡ length self.old }
    {
        if found.index == 0 {
            self.left += 1;
            self.barred = stays_barred(self.barred, &self.taken, self.left);
            return;
        }
        self.release_behind(found);
    }

    // Takes a packet that was found behind another out of flight. It stands apart, since the first packet leaves most often.
    #[inline(never)]
    fn release_behind(&mut self, found: FoundPacket)
        requires found { IsFoundIn found self.old }
        requires behind { 0 < found.index }
        ensures without { self.new ≡ without_packet found.packet self.old }
        ensures fewer { length self.new + 1 ≡ length self.old }
    {
        self.taken.remove(self.left + found.index);
        self.barred = stays_barred(self.barred, &self.taken, self.left);
    }

    /// Notes how far a packet that was found has come.
    pub fn advance(&mut self, found: FoundPacket, progress: Progress)
        requires { IsFoundIn found self.old }
        ensures { self.new ≡ map (with_progress found.packet progress) self.old }
    {
        if let Some(place) = self.taken.get_mut(self.left + found.index) {
            place.progress = progress;
        }
    }
}

// Sees to it that there is a place behind the packets, and answers how many lie in front that were left behind: where
// the last place is taken the packets move to the front.
fn make_room(taken: &mut ArrayVec<Place, PLACES>, left: usize) -> usize
    requires within { left ≤ length taken.old.items }
    requires few { length (drop left taken.old.items) < most_in_flight }
    ensures same { drop result taken.new.items ≡ drop left taken.old.items }
    ensures within { result ≤ length taken.new.items }
    ensures room { length taken.new.items < PLACES }
{
    let count = taken.len();
    if count < PLACES {
        return left;
    }
    taken.as_mut_slice().copy_within(left..count, 0);
    taken.truncate(count - left);
    0
}

// Whether a barrier packet is still in flight after a packet left. Where none was before, no place is looked at.
fn stays_barred(before: bool, taken: &ArrayVec<Place, PLACES>, left: usize) -> bool
    requires { left ≤ length taken.now.items }
    ensures { result ≡ (before && holds_barrier (drop left taken.now.items)) }
{
    before && holds_barrier(taken.as_slice().split_at(left).1)
}

// Whether one of these places is a barrier packet's.
fn holds_barrier(places: &[Place]) -> bool
    ensures { result ≡ holds_barrier places.now }
{
    places.iter().any(|place| is_barrier(&place.packet))
}

// Whether a place is that of the packet with an id.
fn is_place_of(place: &Place, id: PacketId) -> bool
    ensures { result ≡ is_place_of id place.now }
{
    place.id.0 == id.0
}
