//! Another policy is put in force.

ghost use Rattle.std.specs.Prelude.{◌≡◌, ◌↔◌, IfErr, IfOk, Ok, [], true};
ghost use Rattle.policy.specs.Declaring.{DeclaresAs};
ghost use Rattle.core_model.specs.History.{beginning};
ghost use Rattle.core_model.specs.Legal.{Meets, MeetsOrLacks, ReloadMeetsOrLacks, as_accepted, due};
ghost use Rattle.core_model.specs.Owed.{enters, refuses};
ghost use Rattle.access_core.specs.Reloads.{as_reloaded};

use crate::access::{AccessCore, enter};
use crate::holders::least_denied;
use crate::lists::copied_rows;
use core_model::{Effects, Event, Outcome, Refusal};
use policy::{Policy, PolicyRows};
use std::alloc::Global;

impl AccessCore {
    /// Puts the rows on rights of another policy in force: grants that they don't allow go out of force, and
    /// they decide from then on what may be granted. Refused in this order: the policy declares other clients,
    /// agents, regions, signals or kernels than the core's, in any of their keys; a packet in flight holds a
    /// right that it doesn't allow, of which the least is named; the audit is full; memory for the entry's copy
    /// of the rows isn't to be had. A refusal hands the policy back.
    pub fn reload(&mut self, alloc: Global, policy: Policy) -> Result<(), (Refusal, Policy)>
        ensures met { ReloadMeetsOrLacks policy self.old.history self.new.history (as_reloaded result) }
        ensures back { IfErr result (λ refused. refused.1 ≡ policy) }
        ensures places { self.new.places ≡ self.old.places }
    {
        if !self.declares_as(&policy) {
            return Err((Refusal::OtherObjects, policy));
        }
        if let Err(why) = self.may_reload(policy.rows()) {
            return Err((why, policy));
        }
        let copied = copied_rows(alloc, policy.rows());
        match copied {
            Ok(told) => {
                self.put_rows(policy.into_rows(), told);
                Ok(())
            }
            Err(_) => Err((Refusal::OutOfMemory, policy)),
        }
    }

    // Whether a policy declares the same clients and objects as the core's.
    fn declares_as(&self, policy: &Policy) -> bool
        ensures { result ≡ true ↔ DeclaresAs (beginning self.now.history).policy policy.now }
    {
        self.start.as_ref().policy.declares_as(policy)
    }

    // Whether rows may be put in force: no packet in flight holds a right that they don't allow, and the audit
    // has room for the entry.
    fn may_reload(&mut self, rows: &PolicyRows) -> Result<(), Refusal>
        ensures may { IfOk result (λ done. due self.old.history (Event.Reload rows.now) ≡ enters Outcome.Accepted []) }
        ensures why { IfErr result (λ why. due self.old.history (Event.Reload rows.now) ≡ refuses why) }
        ensures same { self.new ≡ self.old }
    {
        if let Some((queue, packet)) = least_denied(
            &mut self.grants,
            self.queues.as_slice(),
            rows,
        ) {
            return Err(Refusal::Busy { queue, packet });
        }
        if self.is_full() {
            return Err(Refusal::AuditFull);
        }
        Ok(())
    }

    // Puts rows in force that may be, and enters a copy of them.
    fn put_rows(&mut self, rows: PolicyRows, told: PolicyRows)
        requires may { due self.old.history (Event.Reload rows) ≡ enters Outcome.Accepted [] }
        requires told { told ≡ rows }
        ensures met { Meets (Event.Reload rows) self.old.history self.new.history (Ok Outcome.Accepted) }
        ensures places { self.new.places ≡ self.old.places }
    {
        self.grants.put_rows(rows);
        let event = Event::Reload { rows: told };
        enter(&mut self.audit, event, Outcome::Accepted, Effects::none());
    }
}
