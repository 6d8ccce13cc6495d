//! Queues are stopped.

ghost use Rattle.aql_packet.specs.declared.ids.PacketId.{PacketId};
ghost use Rattle.core_model.specs.History.{beginning};
ghost use Rattle.std.specs.Prelude.{◌≡◌, Err, IfErr, IfOk, IfSome, Some};
ghost use Rattle.core_model.specs.Flight.{flight_of};
ghost use Rattle.core_model.specs.Owed.{barrier_in, enters, refuses, release_of};
ghost use Rattle.core_model.specs.Legal.{Meets, as_accepted, due};
ghost use Rattle.access_core.specs.inner.InPlace.{IsFoundAt};
ghost use Rattle.access_core.specs.inner.QueueChanges.{packet_in};

use crate::access::leaving::{Leaving, leave_flight};
use crate::access::lookups::queue_of;
use crate::access::{AccessCore, enter};
use aql_packet::QueueId;
use core_model::{Call, Effect, Effects, Event, Outcome, Refusal};
use packet_processor::FoundPacket;

impl AccessCore {
    /// Stops a queue: it launches nothing more, and its barrier packet in flight leaves flight with
    /// its completion signal as it is. Its other packets in flight go on (own). It takes no memory.
    #[inline(never)]
    pub fn stop(&mut self, queue: QueueId) -> Result<(), Refusal>
        ensures met { Meets (Event.Call (Call.Stop queue)) self.old.history self.new.history (as_accepted result) }
        ensures places { self.new.places ≡ self.old.places }
        ensures room { (id : PacketId) → barrier_in (flight_of (beginning self.old.history) self.old.history.entries queue) ≡ Some id → result ≡ Err Refusal.AuditFull → ⊥ }
    {
        let barrier = self.may_stop(queue)?;
        leave_flight(
            &mut self.queues,
            &mut self.in_flight_count,
            &mut self.spare,
            queue,
            barrier,
            Leaving::Stopped,
        );
        let effects = release_of(queue, barrier);
        let event = Event::Call(Call::Stop { queue });
        enter(&mut self.audit, event, Outcome::Accepted, effects);
        Ok(())
    }

    // The barrier packet in flight of a queue that may be stopped, if there is one: then the audit has
    // room for the stop, else it is looked for.
    fn may_stop(&self, queue: QueueId) -> Result<Option<FoundPacket>, Refusal>
        ensures may { IfOk result (λ barrier. due self.now.history (Event.Call (Call.Stop queue)) ≡ enters Outcome.Accepted (release_of queue (packet_in barrier))) }
        ensures found { IfOk result (λ barrier. IfSome barrier (IsFoundAt self.now.history queue)) }
        ensures why { IfErr result (λ why. due self.now.history (Event.Call (Call.Stop queue)) ≡ refuses why) }
        ensures room { IfErr result (λ why. (id : PacketId) → barrier_in (flight_of (beginning self.now.history) self.now.history.entries queue) ≡ Some id → why ≡ Refusal.AuditFull → ⊥) }
    {
        let kept = match queue_of(self.queues.as_slice(), queue) {
            None => return Err(Refusal::UnknownQueue),
            Some(kept) => kept,
        };
        if kept.stopped {
            return Err(Refusal::QueueDown);
        }
        let barrier = kept.places.barrier();
        if barrier.is_none() && self.is_full() {
            return Err(Refusal::AuditFull);
        }
        Ok(barrier)
    }
}

// What a packet's release tells, if one is named.
fn release_of(queue: QueueId, barrier: Option<FoundPacket>) -> Effects
    ensures { result ≡ release_of queue (packet_in barrier) }
{
    match barrier {
        None => Effects::none(),
        Some(found) => {
            let packet = found.packet;
            Effects::one(Effect::Release { queue, packet })
        }
    }
}
