//! Grants and revocations.

ghost use Rattle.std.specs.Prelude.{◌≡◌};
ghost use Rattle.core_model.specs.Legal.{Meets, as_accepted};
ghost use Rattle.access_core.specs.inner.Deciding.{refusal_of};

use crate::access::{AccessCore, enter};
use crate::holders::least_holder;
use aql_packet::ClientId;
use core_model::{Call, Effects, Event, Outcome, Refusal};
use policy::{Object, Rights};

impl AccessCore {
    /// Gives a client rights on an object. It takes no memory.
    pub fn grant(&mut self, client: ClientId, object: Object, rights: Rights) -> Result<(), Refusal>
        ensures met { Meets (Event.Call (Call.Grant client object rights)) self.old.history self.new.history (as_accepted result) }
        ensures places { self.new.places ≡ self.old.places }
    {
        if let Err(why) = self.grants.may_grant(client, object, rights) {
            return Err(refusal_of(why));
        }
        if self.is_full() {
            return Err(Refusal::AuditFull);
        }
        self.grants.put_in_force(client, object, rights);
        let event = Event::Call(Call::Grant {
            client,
            object,
            rights,
        });
        enter(&mut self.audit, event, Outcome::Accepted, Effects::none());
        Ok(())
    }

    /// Takes rights on an object from a client, unless a packet in flight of the client's queues
    /// holds one of them. It takes no memory.
    #[inline(never)]
    pub fn revoke(
        &mut self,
        client: ClientId,
        object: Object,
        rights: Rights,
    ) -> Result<(), Refusal>
        ensures met { Meets (Event.Call (Call.Revoke client object rights)) self.old.history self.new.history (as_accepted result) }
        ensures places { self.new.places ≡ self.old.places }
    {
        if let Err(why) = self.grants.may_revoke(client, object, rights) {
            return Err(refusal_of(why));
        }
        match least_holder(self.queues.as_slice(), client, object, rights) {
            Some((queue, packet)) => return Err(Refusal::Busy { queue, packet }),
            None => {}
        }
        if self.is_full() {
            return Err(Refusal::AuditFull);
        }
        self.grants.take_out_of_force(client, object, rights);
        let event = Event::Call(Call::Revoke {
            client,
            object,
            rights,
        });
        enter(&mut self.audit, event, Outcome::Accepted, Effects::none());
        Ok(())
    }
}

// The core's refusal where a change of grants is refused.
fn refusal_of(why: grants::GrantRefusal) -> Refusal
    ensures { result ≡ refusal_of why }
{
    match why {
        grants::GrantRefusal::UnknownClient => Refusal::UnknownClient,
        grants::GrantRefusal::UnknownObject => Refusal::UnknownObject,
        grants::GrantRefusal::NotAllowed => Refusal::NotAllowed,
        grants::GrantRefusal::Busy { queue, packet } => Refusal::Busy { queue, packet },
    }
}
