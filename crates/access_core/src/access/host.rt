//! What clients do from outside their queues: they write memory and change signals.

ghost use Rattle.core_model.specs.History.{beginning};
ghost use Rattle.std.specs.Prelude.{◌≡◌, ◌<◌, ◌-◌, ◌∷◌, [], OnOk, IfOk, IfErr, Some, true, length, slice_set};
ghost use Rattle.regions.specs.Memory.{is_within};
ghost use Rattle.signals.specs.Values.{applied, value_of};
ghost use Rattle.core_model.specs.Owed.{enters, old_if_asked, refuses};
ghost use Rattle.policy.specs.Results.{map_ok};
ghost use Rattle.core_model.specs.Legal.{Meets, MeetsOrLacks, as_accepted, due};
ghost use Rattle.policy.specs.Policy.{region_lengths};
ghost use Rattle.core_model.specs.Memory.{signals};

use crate::access::{AccessCore, enter};
use aql_packet::{Address, ClientId, SignalHandle};
use core_model::{Bytes, Call, Effect, Effects, Event, MOST_HOST_BYTES, Outcome, Refusal};
use policy::{Object, Right};
use regions::region_of;
use sequences::Sequence;
use signals::{SignalOp, Signals};
use std::alloc::Global;

impl AccessCore {
    /// Changes a signal, and answers its old value for an exchange or a compare-and-swap, else 0.
    /// It takes no memory.
    #[inline(never)]
    pub fn signal_op(
        &mut self,
        client: ClientId,
        signal: SignalHandle,
        operation: SignalOp,
    ) -> Result<i64, Refusal>
        ensures met { Meets (Event.Call (Call.ChangeSignal client signal operation)) self.old.history self.new.history (map_ok Outcome.Changed result) }
        ensures places { self.new.places ≡ self.old.places }
    {
        let old = self.may_change(client, signal, operation)?;
        let new = change(&mut self.signals, signal, operation, old);
        let event = Event::Call(Call::ChangeSignal {
            client,
            signal,
            operation,
        });
        let answer = old_if_asked(operation, old);
        let effects = Effects::one(Effect::Signal { signal, old, new });
        enter(&mut self.audit, event, Outcome::Changed(answer), effects);
        Ok(answer)
    }

    /// Writes bytes to memory, from an address on: 1 to 65,536, all in one region that the client
    /// may write.
    #[inline(never)]
    pub fn host_write(
        &mut self,
        alloc: Global,
        client: ClientId,
        address: Address,
        bytes: Sequence<u8>,
    ) -> Result<(), Refusal>
        ensures met { MeetsOrLacks (Event.Call (Call.HostWrite client address bytes)) self.old.history self.new.history (as_accepted result) }
        ensures places { self.new.places ≡ self.old.places }
    {
        self.may_write(client, address, &bytes)?;
        let written = Bytes::copied(alloc, bytes.as_slice())?;
        self.memory.lay(address, bytes.as_slice());
        let event = Event::Call(Call::HostWrite {
            client,
            address,
            bytes,
        });
        let effects = Effects::one(Effect::Write {
            address,
            bytes: written,
        });
        enter(&mut self.audit, event, Outcome::Accepted, effects);
        Ok(())
    }

    // Whether a client may write these bytes from an address on, and the audit has room for that.
    #[tactic(auto, unfolding(core_model::specs::Owed::owed))]
    fn may_write(
        &self,
        client: ClientId,
        address: Address,
        bytes: &Sequence<u8>,
    ) -> Result<(), Refusal>
        ensures within { OnOk result (is_within (region_lengths (beginning self.now.history).policy) address.0 (length bytes.now) ≡ true) }
        ensures some { OnOk result (0 < length bytes.now) }
        ensures may { OnOk result (due self.now.history (Event.Call (Call.HostWrite client address bytes.now))
            ≡ enters Outcome.Accepted (Effect.Write address bytes.now ∷ [])) }
        ensures why { IfErr result (λ why. due self.now.history (Event.Call (Call.HostWrite client address bytes.now)) ≡ refuses why) }
    {
        if !self.policy().declares_client(client) {
            return Err(Refusal::UnknownClient);
        }
        if bytes.is_empty() || bytes.len() as u64 > MOST_HOST_BYTES {
            return Err(Refusal::BadSize);
        }
        let region = Object::Region(region_of(address));
        if !self.lies_within(address, bytes.len() as u64)
            || !self.is_in_force(client, region, Right::Write)
        {
            return Err(Refusal::Denied(Right::Write));
        }
        if self.is_full() {
            return Err(Refusal::AuditFull);
        }
        Ok(())
    }

    // Whether a range of addresses lies whole in one region.
    pub(crate) fn lies_within(&self, address: Address, size: u64) -> bool
        ensures { result ≡ is_within (region_lengths (beginning self.now.history).policy) address.0 size }
    {
        self.memory.contains(address, size)
    }

    // The value of a signal that a client may change, where the audit has room for that.
    #[tactic(auto, unfolding(core_model::specs::Owed::owed))]
    fn may_change(
        &self,
        client: ClientId,
        signal: SignalHandle,
        operation: SignalOp,
    ) -> Result<i64, Refusal>
        ensures value { IfOk result (λ old. value_of (signals (beginning self.now.history) self.now.history.entries) signal.0 ≡ Some old) }
        ensures may { IfOk result (λ old. due self.now.history (Event.Call (Call.ChangeSignal client signal operation))
            ≡ enters (Outcome.Changed (old_if_asked operation old))
            (Effect.Signal signal old (applied operation old) ∷ [])) }
        ensures why { IfErr result (λ why. due self.now.history (Event.Call (Call.ChangeSignal client signal operation)) ≡ refuses why) }
    {
        if !self.policy().declares_client(client) {
            return Err(Refusal::UnknownClient);
        }
        if !self.is_in_force(client, Object::Signal(signal), Right::Change) {
            return Err(Refusal::Denied(Right::Change));
        }
        let Some(old) = self.signal_value(signal) else {
            return Err(Refusal::Denied(Right::Change));
        };
        if self.is_full() {
            return Err(Refusal::AuditFull);
        }
        Ok(old)
    }
}

// Changes a signal whose old value is known, and answers the new one.
#[tactic(auto, unfolding(signals::specs::Values::after))]
pub(crate) fn change(
    signals: &mut Signals,
    signal: SignalHandle,
    operation: SignalOp,
    old: i64,
) -> i64
    requires { value_of signals.old signal.0 ≡ Some old }
    ensures new { result ≡ applied operation old }
    ensures values { signals.new ≡ slice_set signals.old (signal.0 - 1) (applied operation old) }
{
    signals.change(signal, operation);
    operation.applied(old)
}

// What a change answers of the old value.
fn old_if_asked(operation: SignalOp, old: i64) -> i64
    ensures { result ≡ old_if_asked operation old }
{
    match operation {
        SignalOp::Exchange(_) | SignalOp::Cas { .. } => old,
        _ => 0,
    }
}
