//! A client's end of a queue.

ghost use Rattle.std.specs.Prelude.{◌≡◌, ◌≢◌, ℕ, [], ◌∷◌, IfOk, IfErr};
ghost use Rattle.ring_core.specs.declared.access.Access.{Access};
ghost use Rattle.ring.specs.Bytes.{words_of};
ghost use Rattle.ring.specs.Made.{read};
ghost use Rattle.ring.specs.Passes.{RingSeen};
ghost use Rattle.ring.specs.Publishing.{IsOpen, ProducerGains, HasPublished, IsGivenBack};
ghost use Rattle.client_threads.specs.Rings.{IsRingOf};
ghost use Rattle.client_threads.specs.Running.{IsEndOf};

use crate::broker::Broker;
use crate::room::Room;
use aql_packet::QueueId;
use ring::{ProducerPass, Publication, Ring, Spent, Ticket};

/// A client's end of a queue: the pass of one of its producers to the broker's ring for it. Its calls take
/// no memory and never wait, whoever holds the core's lock.
#[derive(Drop)]
pub struct ClientEnd {
    pub(crate) queue: QueueId,
    pub(crate) pass: ProducerPass,
}

impl ClientEnd {
    /// Its queue.
    pub fn queue(&self) -> QueueId
        ensures { result ≡ self.now.queue }
    {
        self.queue
    }

    /// Reserves the next id, as its pass does on the broker's ring: one addition to the write index, or none
    /// where 2^40 are reserved.
    #[tactic(auto, using(crate::proofs::EndsOf::stays_of))]
    pub fn reserve<B: Room>(&mut self, broker: &Broker<B>) -> Result<Ticket, Spent>
        requires end { IsEndOf broker.now self.old }
        ensures queue { self.new.queue ≡ self.old.queue }
        ensures steps { IfOk result (λ ticket. (ring : RingSeen) → IsRingOf broker.now self.old.queue.0 ring → ProducerGains ring self.old.pass (read Access.Reserve ticket.id.0 ∷ []) self.new.pass) }
        ensures opened { IfOk result (λ ticket. IsOpen ticket.id.0 self.new.pass) }
        ensures others { IfOk result (λ ticket. (id : ℕ) → IsOpen id self.old.pass → (id ≢ ticket.id.0) × IsOpen id self.new.pass) }
        ensures spent { IfErr result (λ _. (self.old.pass.part.allowance ≡ 0) × (self.new.pass ≡ self.old.pass)) }
        ensures end { IsEndOf broker.now self.new }
    {
        let ring = broker.ring_of(self.queue);
        self.pass.reserve(ring)
    }

    /// Publishes a packet under an open ticket of its own, as its pass does on the broker's ring. Where it is
    /// published, the queue's doorbell rings with its id.
    #[tactic(auto, using(crate::proofs::EndsOf::published_of))]
    pub fn publish<B: Room>(
        &mut self,
        broker: &Broker<B>,
        ticket: Ticket,
        bytes: &[u8; 64],
    ) -> Publication
        requires end { IsEndOf broker.now self.old }
        requires opened { IsOpen ticket.id.0 self.old.pass }
        ensures queue { self.new.queue ≡ self.old.queue }
        ensures published { (ring : RingSeen) → IsRingOf broker.now self.old.queue.0 ring → HasPublished ring self.old.pass ticket.id.0 (words_of bytes.now) result self.new.pass }
        ensures given_back { IsGivenBack result self.new.pass }
        ensures others { (id : ℕ) → id ≢ ticket.id.0 → IsOpen id self.old.pass → IsOpen id self.new.pass }
        ensures end { IsEndOf broker.now self.new }
    {
        let desk = broker.desk_of(self.queue);
        let ring: &Ring = &desk.ring;
        let told = self.pass.publish(ring, ticket, bytes);
        if let Publication::Published(id) = &told {
            desk.doorbell.ring(id.0);
        }
        told
    }
}
