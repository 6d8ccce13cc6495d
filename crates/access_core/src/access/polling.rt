//! Barrier packets in flight look at the signals that they depend on.

ghost use Rattle.core_model.specs.History.{beginning};
ghost use Rattle.std.specs.Prelude.{◌≡◌, Err, IfErr, IfOk, List, Ok, Some, is_some, map};
ghost use Rattle.std.specs.List.{list_any, zip};
ghost use Rattle.std.specs.Option.{IfSome};
ghost use Rattle.core_model.specs.Flight.{satisfied_by_either};
ghost use Rattle.core_model.specs.LaunchRules.{is_barrier};
ghost use Rattle.core_model.specs.Needs.{dependencies};
ghost use Rattle.core_model.specs.Work.{is_negative, is_zero, signal_value};
ghost use Rattle.core_model.specs.Owed.{enters, owed, owed_poll, refuses};
ghost use Rattle.policy.specs.Results.{map_ok};
ghost use Rattle.core_model.specs.Legal.{Meets, due};
ghost use Rattle.access_core.specs.inner.Polling.{look_owed, polled_as};
ghost use Rattle.access_core.specs.inner.InPlace.{IsFoundAt, IsInPlace};

use crate::access::completing::FoundPlace;
use crate::access::leaving::{Leaving, leave_flight};
use crate::access::running::advance;
use crate::access::{AccessCore, enter};
use aql_packet::{Packet, PacketId, QueueId, SignalHandle};
use core_model::{
    Call, Effect, Effects, Event, NONE_SATISFIED, Outcome, Polled, Progress, Refusal, Satisfied,
};
use packet_processor::{FoundPacket, Place, is_ready};
use queue_error::{QueueError, Rule};
use signals::Signals;

/// What a poll of a barrier packet finds.
#[derive(Clone, Copy)]
enum Look {
    /// The barrier was ready before, or nothing is seen for the first time.
    Still(Polled),
    /// A dependency that is still looked at is negative.
    Fails,
    /// These positions are seen as 0 for the first time, and the barrier is ready with them or not.
    Sees { new: Satisfied, ready: bool },
}

impl AccessCore {
    /// Looks at the signals that a barrier packet in flight depends on, unless it is ready already.
    /// A negative one fails the packet, which leaves flight (own). One that is 0 counts as seen from
    /// then on, whatever becomes of it (PSA, Architected Queuing Language: barrier packets). It takes
    /// no memory.
    pub fn poll(&mut self, queue: QueueId, packet: PacketId) -> Result<Polled, Refusal>
        ensures met { Meets (Event.Call (Call.Poll queue packet)) self.old.history self.new.history (map_ok Outcome.Polled result) }
        ensures places { self.new.places ≡ self.old.places }
        ensures room { (error : QueueError) (effects : List Effect) →
            owed (beginning self.old.history) self.old.history.entries (Event.Call (Call.Poll queue packet)) ≡ enters (Outcome.Polled (Polled.Failed error)) effects →
            result ≡ Err Refusal.AuditFull → ⊥ }
    {
        self.keeps_room();
        let (FoundPlace { place, index }, look) = self.may_poll(queue, packet)?;
        let found = FoundPacket { packet, index };
        match look {
            Look::Still(told) => Ok(told),
            Look::Fails => Ok(self.fail(queue, found, place)),
            Look::Sees { new, ready } => Ok(self.see(queue, found, place, new, ready)),
        }
    }

    // The place of the packet in flight with this queue and id, and what a poll of it finds.
    fn may_poll(&self, queue: QueueId, packet: PacketId) -> Result<(FoundPlace, Look), Refusal>
        ensures may { IfOk result (λ found.
            due self.now.history (Event.Call (Call.Poll queue packet)) ≡ look_owed queue packet found.1) }
        ensures found { IfOk result (λ found. IsInPlace self.now.history queue packet found.0.place) }
        ensures at { IfOk result (λ found. IsFoundAt self.now.history queue (record { packet = packet; index = found.0.index })) }
        ensures why { IfErr result (λ why. due self.now.history (Event.Call (Call.Poll queue packet)) ≡ refuses why) }
    {
        let found = self.place_of(queue, packet)?;
        let look = match look_at(&self.signals, &found.place, queue, packet) {
            Err(why) => return Err(why),
            Ok(look) => look,
        };
        match look {
            Look::Still(told) => Ok((found, Look::Still(told))),
            Look::Fails => Ok((found, Look::Fails)),
            Look::Sees { new, ready } => {
                if self.is_full() {
                    return Err(Refusal::AuditFull);
                }
                Ok((found, Look::Sees { new, ready }))
            }
        }
    }

    // Fails a packet in flight: its queue has an error more, and it leaves flight.
    fn fail(&mut self, queue: QueueId, found: FoundPacket, place: Place) -> Polled
        requires may { due self.old.history (Event.Call (Call.Poll queue found.packet)) ≡ look_owed queue found.packet Look.Fails }
        requires found { IsInPlace self.old.history queue found.packet place }
        requires at { IsFoundAt self.old.history queue found }
        ensures met { Meets (Event.Call (Call.Poll queue found.packet)) self.old.history self.new.history (Ok (Outcome.Polled result)) }
        ensures places { self.new.places ≡ self.old.places }
    {
        let packet = found.packet;
        let error = QueueError {
            queue,
            packet,
            rule: Rule::B1,
            place: None,
        };
        leave_flight(
            &mut self.queues,
            &mut self.in_flight_count,
            &mut self.spare,
            queue,
            Some(found),
            Leaving::Failed(error),
        );
        let told = Polled::Failed(error);
        let event = Event::Call(Call::Poll { queue, packet });
        let effects = Effects::one(Effect::Release { queue, packet });
        enter(&mut self.audit, event, Outcome::Polled(told), effects);
        told
    }

    // Notes positions that are seen as 0 for the first time.
    fn see(
        &mut self,
        queue: QueueId,
        found: FoundPacket,
        place: Place,
        new: Satisfied,
        ready: bool,
    ) -> Polled
        requires may { due self.old.history (Event.Call (Call.Poll queue found.packet)) ≡ look_owed queue found.packet (Look.Sees new ready) }
        requires found { IsInPlace self.old.history queue found.packet place }
        requires at { IsFoundAt self.old.history queue found }
        ensures met { Meets (Event.Call (Call.Poll queue found.packet)) self.old.history self.new.history (Ok (Outcome.Polled result)) }
        ensures places { self.new.places ≡ self.old.places }
    {
        let progress = Progress {
            satisfied: satisfied_by_either(&place.progress.satisfied, &new),
            ..place.progress
        };
        advance(&mut self.queues, queue, found, progress);
        let packet = found.packet;
        let told = polled_as(ready, new);
        let event = Event::Call(Call::Poll { queue, packet });
        enter(
            &mut self.audit,
            event,
            Outcome::Polled(told),
            Effects::none(),
        );
        told
    }
}

// What a poll of a packet in flight finds.
fn look_at(
    signals: &Signals,
    place: &Place,
    queue: QueueId,
    packet: PacketId,
) -> Result<Look, Refusal>
    ensures may { IfOk result (λ look.
        owed_poll signals.now queue packet place.now.packet place.now.progress ≡ look_owed queue packet look) }
    ensures why { IfErr result (λ why.
        owed_poll signals.now queue packet place.now.packet place.now.progress ≡ refuses why) }
{
    let dependencies = match dependencies(&place.packet) {
        None => return Err(Refusal::NotInFlight),
        Some(dependencies) => dependencies,
    };
    let seen = &place.progress.satisfied;
    if is_ready(&place.packet, seen) {
        return Ok(Look::Still(Polled::Ready(NONE_SATISFIED)));
    }
    if is_any_negative(signals, &dependencies, seen) {
        return Ok(Look::Fails);
    }
    let new = newly_seen_positions(signals, &dependencies, seen);
    if !is_any(&new) {
        return Ok(Look::Still(Polled::Pending(NONE_SATISFIED)));
    }
    let ready = is_ready(&place.packet, &satisfied_by_either(seen, &new));
    Ok(Look::Sees { new, ready })
}

// The signals that a barrier packet depends on; of another packet, none.
fn dependencies(packet: &Packet) -> Option<[SignalHandle; 5]>
    ensures barrier { is_some result ≡ is_barrier packet.now }
    ensures all { IfSome result (λ all. all ≡ dependencies packet.now) }
{
    match packet {
        Packet::BarrierAnd(barrier) | Packet::BarrierOr(barrier) => Some(barrier.dependencies),
        _ => None,
    }
}

// A signal's value, 0 for a number that no signal has.
fn signal_value(signals: &Signals, signal: SignalHandle) -> i64
    ensures { result ≡ signal_value signals.now signal }
{
    signals.value(signal).unwrap_or(0)
}

// Whether a dependency that is still looked at is negative.
fn is_negative(signals: &Signals, signal: SignalHandle, seen: bool) -> bool
    ensures { result ≡ is_negative signals.now (signal, seen) }
{
    signal.0 != 0 && !seen && signal_value(signals, signal) < 0
}

// Whether a dependency that is still looked at is 0.
fn is_zero(signals: &Signals, signal: SignalHandle, seen: bool) -> bool
    ensures { result ≡ is_zero signals.now (signal, seen) }
{
    signal.0 != 0 && !seen && signal_value(signals, signal) == 0
}

// Whether one of the dependencies that are still looked at is negative.
fn is_any_negative(signals: &Signals, dependencies: &[SignalHandle; 5], seen: &Satisfied) -> bool
    ensures { result ≡ list_any (is_negative signals.now) (zip dependencies.now seen.now.0) }
{
    dependencies
        .iter()
        .zip(seen.0.iter())
        .any(|(signal, seen)| is_negative(signals, *signal, *seen))
}

// The positions that are seen as 0 for the first time.
fn newly_seen_positions(
    signals: &Signals,
    dependencies: &[SignalHandle; 5],
    seen: &Satisfied,
) -> Satisfied
    ensures { result.0 ≡ map (is_zero signals.now) (zip dependencies.now seen.now.0) }
{
    Satisfied([
        is_zero(signals, dependencies[0], seen.0[0]),
        is_zero(signals, dependencies[1], seen.0[1]),
        is_zero(signals, dependencies[2], seen.0[2]),
        is_zero(signals, dependencies[3], seen.0[3]),
        is_zero(signals, dependencies[4], seen.0[4]),
    ])
}

// Whether there is a position.
fn is_any(seen: &Satisfied) -> bool
    ensures { result ≡ list_any (λ at. at) seen.now.0 }
{
    seen.0.iter().any(|at| *at)
}

// The positions seen by either.
fn satisfied_by_either(before: &Satisfied, new: &Satisfied) -> Satisfied
    ensures { result ≡ satisfied_by_either before.now new.now }
{
    Satisfied([
        before.0[0] | new.0[0],
        before.0[1] | new.0[1],
        before.0[2] | new.0[2],
        before.0[3] | new.0[3],
        before.0[4] | new.0[4],
    ])
}

// What is told of positions that are seen as 0 for the first time.
fn polled_as(ready: bool, new: Satisfied) -> Polled
    ensures { result ≡ polled_as ready new }
{
    if ready {
        Polled::Ready(new)
    } else {
        Polled::Pending(new)
    }
}
