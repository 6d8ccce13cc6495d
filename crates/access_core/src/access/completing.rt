//! Packets in flight are found, completed and released.

ghost use Rattle.core_model.specs.History.{beginning};
ghost use Rattle.std.specs.Prelude.{◌≡◌, ◌++◌, ◌∷◌, [], Err, IfErr, IfNone, IfOk, IfSome, None, Ok, Some, find, fold, true};
ghost use Rattle.core_model.specs.declared.entry.Effect.TheVariants as effect;
ghost use Rattle.policy.specs.Policy.{region_lengths};
ghost use Rattle.core_model.specs.Memory.{signals_after};
ghost use Rattle.core_model.specs.Owed.{is_finished, refuses, signal_decrement};
ghost use Rattle.core_model.specs.Legal.{Meets, as_accepted, due};
ghost use Rattle.access_core.specs.inner.LiesInRegions.{lies_in_regions};
ghost use Rattle.packet_processor.specs.Queueing.{IsFoundIn, is_place_of};
ghost use Rattle.access_core.specs.inner.InPlace.{finish_owed, IsFinishedAs, IsFoundAt, IsInPlace, IsSized, RefusedAt};

use crate::access::host::change;
use crate::access::leaving::{Leaving, leave_flight};
use crate::access::lookups::queue_of;
use crate::access::running_kernels::group_count;
use crate::access::{AccessCore, enter};
use aql_packet::{Packet, PacketId, QueueId, SignalHandle};
use core_model::{Call, Effect, Effects, Event, Outcome, Refusal};
use packet_processor::{FoundPacket, Place, Places, completion_signal, is_ready};
use signals::{SignalOp, Signals};

/// The place of a packet in flight as it was found, and its index among its queue's.
#[derive(Clone, Copy)]
pub(crate) struct FoundPlace {
    pub place: Place,
    pub index: usize,
}

impl AccessCore {
    /// Completes a packet whose work is done: its completion signal, if it has one, is decremented
    /// by 1, and the packet leaves flight (PSA, Signals). It takes no memory, and finds room in the
    /// audit.
    pub fn finish(&mut self, queue: QueueId, packet: PacketId) -> Result<(), Refusal>
        ensures met { Meets (Event.Call (Call.Finish queue packet)) self.old.history self.new.history (as_accepted result) }
        ensures places { self.new.places ≡ self.old.places }
        ensures room { result ≡ Err Refusal.AuditFull → ⊥ }
    {
        let found = self.may_finish(queue, packet)?;
        let signal = completion_signal(&found.place.packet);
        let index = found.index;
        self.complete_found(queue, FoundPacket { packet, index }, signal);
        Ok(())
    }

    // Completes a packet that was found and whose work is done.
    fn complete_found(&mut self, queue: QueueId, found: FoundPacket, signal: SignalHandle)
        requires finished { IsFinishedAs self.old.history queue found.packet signal }
        requires at { IsFoundAt self.old.history queue found }
        ensures met { Meets (Event.Call (Call.Finish queue found.packet)) self.old.history self.new.history (Ok Outcome.Accepted) }
        ensures places { self.new.places ≡ self.old.places }
    {
        let packet = found.packet;
        let effects = complete(&mut self.signals, queue, packet, signal);
        leave_flight(
            &mut self.queues,
            &mut self.in_flight_count,
            &mut self.spare,
            queue,
            Some(found),
            Leaving::Completed,
        );
        let event = Event::Call(Call::Finish { queue, packet });
        enter(&mut self.audit, event, Outcome::Accepted, effects);
    }

    // The place of the packet in flight with this queue and id, if its work is done.
    fn may_finish(&self, queue: QueueId, packet: PacketId) -> Result<FoundPlace, Refusal>
        ensures may { IfOk result (λ found. due self.now.history (Event.Call (Call.Finish queue packet)) ≡ finish_owed self.now.history queue packet found.place.packet) }
        ensures found { IfOk result (λ found. IsInPlace self.now.history queue packet found.place) }
        ensures at { IfOk result (λ found. IsFoundAt self.now.history queue (record { packet = packet; index = found.index })) }
        ensures why { IfErr result (λ why. due self.now.history (Event.Call (Call.Finish queue packet)) ≡ refuses why) }
        ensures room { IfErr result (λ why. why ≡ Refusal.AuditFull → ⊥) }
    {
        let found = self.place_of(queue, packet)?;
        if !is_finished(&found.place) {
            return Err(Refusal::NotFinished);
        }
        // The audit has room: the packet leaves flight for the entry.
        let _ = &self.audit;
        Ok(found)
    }

    // The place of the packet in flight with this queue and id, or why a call about it is refused.
    pub(crate) fn place_of(&self, queue: QueueId, packet: PacketId) -> Result<FoundPlace, Refusal>
        ensures found { IfOk result (λ found. IsInPlace self.now.history queue packet found.place) }
        ensures at { IfOk result (λ found. IsFoundAt self.now.history queue (record { packet = packet; index = found.index })) }
        ensures why { IfErr result (λ why. RefusedAt self.now.history queue packet why) }
        ensures room { IfErr result (λ why. why ≡ Refusal.AuditFull → ⊥) }
        ensures within { IfOk result (λ found. lies_in_regions (region_lengths (beginning self.now.history).policy) found.place.packet ≡ true) }
        ensures sized { IfOk result (λ found. IsSized found.place.packet) }
    {
        let Some(kept) = queue_of(self.queues.as_slice(), queue) else {
            return Err(Refusal::UnknownQueue);
        };
        match found_in(&kept.places, packet) {
            Some(found) => Ok(found),
            None => Err(Refusal::NotInFlight),
        }
    }
}

// The place of the packet with an id, if it is in flight.
fn found_in(places: &Places, id: PacketId) -> Option<FoundPlace>
    ensures none { IfNone result (find (is_place_of id) places.now ≡ None) }
    ensures found { IfSome result (λ found. find (is_place_of id) places.now ≡ Some found.place) }
    ensures at { IfSome result (λ found. IsFoundIn (record { packet = id; index = found.index }) places.now) }
{
    let index = places.index_of(id)?;
    let place = places.as_slice()[index];
    Some(FoundPlace { place, index })
}

// Decrements a packet's completion signal, if it has one, and tells that and the packet's release.
fn complete(
    signals: &mut Signals,
    queue: QueueId,
    packet: PacketId,
    signal: SignalHandle,
) -> Effects
    ensures effects { result ≡ signal_decrement signals.old signal ++ effect.Release queue packet ∷ [] }
    ensures values { signals.new ≡ fold signals_after signals.old result }
{
    let release = Effect::Release { queue, packet };
    if signal.0 == 0 {
        return Effects::one(release);
    }
    match signals.value(signal) {
        None => Effects::one(release),
        Some(old) => {
            let new = change(signals, signal, SignalOp::Subtract(1), old);
            Effects::two(Effect::Signal { signal, old, new }, release)
        }
    }
}

// Whether a packet's work is done.
fn is_finished(place: &Place) -> bool
    requires { IsSized place.now.packet }
    ensures { result ≡ is_finished place.now.packet place.now.progress }
{
    match &place.packet {
        Packet::Kernel(dispatch) => place.progress.groups_run >= group_count(dispatch),
        Packet::Agent(_) => place.progress.groups_run >= 1,
        barrier => is_ready(barrier, &place.progress.satisfied),
    }
}
