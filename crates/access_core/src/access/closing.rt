//! Queues are closed.

ghost use Rattle.core_model.specs.History.{beginning};
ghost use Rattle.std.specs.Prelude.{◌≡◌, ◌-◌, ◌≤◌, All, Err, IfErr, OnOk, vec_capacity};
ghost use Rattle.std.specs.List.{Contains};
ghost use Rattle.core_model.specs.declared.flight.InFlight.{InFlight};
ghost use Rattle.core_model.specs.Flight.{flight_of};
ghost use Rattle.core_model.specs.Owed.{enters, refuses, releases_of};
ghost use Rattle.core_model.specs.Legal.{Meets, as_accepted, due};
ghost use Rattle.access_core.specs.Keeping.{ClosesInPlace};
ghost use Rattle.access_core.specs.inner.CachedQueue.{IsSound};
ghost use Rattle.access_core.specs.inner.Closing.{flying_in, releases_in, without_queue};
ghost use Rattle.access_core.specs.inner.Numbers.{IsThere};

use crate::access::lookups::{open_index, queue_of};
use crate::access::{AccessCore, enter};
use crate::queue::Queue;
use aql_packet::QueueId;
use core_model::{Call, Effects, Event, Outcome, Refusal};

impl AccessCore {
    /// Closes a queue: from then on no open queue has its number, which is given to none again. Its packets in flight leave
    /// flight in the order of their ids, with their completion signals as they are, and what they held is released; of its
    /// errors nothing is told any more. Refused in this order: no open queue has the number; the audit is full, which is never
    /// met where a packet of the queue is in flight. It takes no memory.
    #[inline(never)]
    pub fn close(&mut self, queue: QueueId) -> Result<(), Refusal>
        ensures met { Meets (Event.Call (Call.Close queue)) self.old.history self.new.history (as_accepted result) }
        ensures places { ClosesInPlace queue self.old self.new }
        ensures room { (f : InFlight) → Contains (flight_of (beginning self.old.history) self.old.history.entries queue) f → result ≡ Err Refusal.AuditFull → ⊥ }
    {
        self.may_close(queue)?;
        let effects = close_open(&mut self.queues, &mut self.in_flight_count, queue);
        let event = Event::Call(Call::Close { queue });
        enter(&mut self.audit, event, Outcome::Accepted, effects);
        Ok(())
    }

    // Whether a queue may be closed: it is open, and the audit has room for that, as it always has where a packet of the queue is
    // in flight.
    fn may_close(&self, queue: QueueId) -> Result<(), Refusal>
        ensures may { OnOk result (due self.now.history (Event.Call (Call.Close queue))
            ≡ enters Outcome.Accepted (releases_of queue (flight_of (beginning self.now.history) self.now.history.entries queue))) }
        ensures why { IfErr result (λ why. due self.now.history (Event.Call (Call.Close queue)) ≡ refuses why) }
        ensures room { IfErr result (λ why. (f : InFlight) → Contains (flight_of (beginning self.now.history) self.now.history.entries queue) f → why ≡ Refusal.AuditFull → ⊥) }
    {
        let Some(kept) = queue_of(self.queues.as_slice(), queue) else {
            return Err(Refusal::UnknownQueue);
        };
        if kept.places.len() == 0 && self.is_full() {
            return Err(Refusal::AuditFull);
        }
        Ok(())
    }
}

// Takes a queue out of the others, and with it its packets out of flight: they count no more, and the rights that they held and their
// arguments are dropped. It answers their releases.
fn close_open(queues: &mut Vec<Queue>, in_flight_count: &mut usize, queue: QueueId) -> Effects
    requires there { IsThere queues.old.items queue }
    requires sound { All IsSound queues.old.items }
    requires counted { flying_in queues.old.items queue ≤ in_flight_count.old }
    ensures effects { result ≡ releases_in queues.old.items queue }
    ensures queues { queues.new.items ≡ without_queue queue queues.old.items }
    ensures capacity { vec_capacity queues.new ≡ vec_capacity queues.old }
    ensures in_flight_count { in_flight_count.new ≡ in_flight_count.old - flying_in queues.old.items queue }
{
    let closed = queues.remove(open_index(queues.as_slice(), queue));
    *in_flight_count -= closed.places.len();
    let Queue {
        places,
        releases,
        ..
    } = closed;
    releases.tell(queue, places.as_slice())
}
