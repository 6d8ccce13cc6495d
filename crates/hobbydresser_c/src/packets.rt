//! The life of a packet: it is handed over, works, and is completed.

ghost use Rattle.std.specs.Prelude.{◌≡◌, true, false};
ghost use Rattle.core_model.specs.declared.call.Call.TheVariants as call;
ghost use Rattle.core_model.specs.declared.event.Event.TheVariants as event;
ghost use Rattle.core_model.specs.declared.outcome.Outcome.TheVariants as outcome;
ghost use Rattle.hobbydresser_c.specs.Statuses.{closed};
ghost use Rattle.hobbydresser_c.specs.Told.{polled_told, worked_told};
ghost use Rattle.hobbydresser_c.specs.Calls.{Answered, IsMade, IsSame, Keeps, Tells, TellsTaken, is_open};

use crate::broker::Broker;
use crate::granting::status_of;
use crate::status;
use crate::told::{PolledRecord, TakenRecord, WorkedRecord, polled_told, taken_told, tell_group};
use aql_packet::{PacketId, QueueId};
use core_model::{Polled, Refusal, Taken, Worked};
use std::alloc::Global;

// Tells what became of a packet that was handed over, or which was due.
fn tell_taken(answer: Result<Taken, Refusal>, out: &mut TakenRecord, next: &mut u64) -> u32
    ensures { TellsTaken result out.old out.new next.old next.new answer }
{
    match answer {
        Ok(taken) => {
            *out = taken_told(taken);
            status::OK
        }
        Err(why) => {
            if let Refusal::OutOfStep(due) = why {
                *next = due;
            }
            status::of_refusal(why)
        }
    }
}

/// Hands over the next packet of a queue: its id and its 64 bytes.
#[unsafe(no_mangle)]
pub extern "C" fn hd_take(
    alloc: Global,
    broker: &mut Broker,
    queue: u64,
    packet: u64,
    bytes: &[u8; 64],
    out: &mut TakenRecord,
    next: &mut u64,
) -> u32
    ensures closed { is_open broker.old ≡ false → (result ≡ closed) × IsSame broker.old broker.new × (out.new ≡ out.old) × (next.new ≡ next.old) }
    ensures open { Keeps broker.old broker.new }
    ensures met { is_open broker.old ≡ true → Answered (event.Take (record { 0 = queue }) (record { 0 = packet }) bytes.now) outcome.Taken broker.old broker.new
        (TellsTaken result out.old out.new next.old next.new) }
{
    if !broker.called() {
        return status::CLOSED;
    }
    let core = &mut broker.pointer.session_mut().core;
    let answer = core.take(alloc, QueueId(queue), PacketId(packet), bytes);
    tell_taken(answer, out, next)
}

// Tells what became of a group.
fn tell_worked(answer: Result<Worked, Refusal>, out: &mut WorkedRecord) -> u32
    ensures { Tells worked_told result out.old out.new answer }
{
    match answer {
        Ok(worked) => {
            tell_group(worked, out);
            status::OK
        }
        Err(why) => status::of_refusal(why),
    }
}

/// Runs the next group of a dispatch in flight.
#[unsafe(no_mangle)]
pub extern "C" fn hd_run(
    alloc: Global,
    broker: &mut Broker,
    queue: u64,
    packet: u64,
    out: &mut WorkedRecord,
) -> u32
    ensures closed { is_open broker.old ≡ false → (result ≡ closed) × IsSame broker.old broker.new × (out.new ≡ out.old) }
    ensures open { Keeps broker.old broker.new }
    ensures met { is_open broker.old ≡ true → Answered (event.Call (call.RunNext (record { 0 = queue }) (record { 0 = packet }))) outcome.Worked broker.old broker.new
        (Tells worked_told result out.old out.new) }
{
    if !broker.called() {
        return status::CLOSED;
    }
    let core = &mut broker.pointer.session_mut().core;
    let answer = core.run_next(alloc, QueueId(queue), PacketId(packet));
    tell_worked(answer, out)
}

// Tells what a poll found.
fn tell_polled(answer: Result<Polled, Refusal>, out: &mut PolledRecord) -> u32
    ensures { Tells polled_told result out.old out.new answer }
{
    match answer {
        Ok(polled) => {
            *out = polled_told(polled);
            status::OK
        }
        Err(why) => status::of_refusal(why),
    }
}

/// Looks at the signals that a barrier packet in flight depends on.
#[unsafe(no_mangle)]
pub extern "C" fn hd_poll(
    broker: &mut Broker,
    queue: u64,
    packet: u64,
    out: &mut PolledRecord,
) -> u32
    ensures closed { is_open broker.old ≡ false → (result ≡ closed) × IsSame broker.old broker.new × (out.new ≡ out.old) }
    ensures open { Keeps broker.old broker.new }
    ensures met { is_open broker.old ≡ true → Answered (event.Call (call.Poll (record { 0 = queue }) (record { 0 = packet }))) outcome.Polled broker.old broker.new
        (Tells polled_told result out.old out.new) }
{
    if !broker.called() {
        return status::CLOSED;
    }
    let core = &mut broker.pointer.session_mut().core;
    let answer = core.poll(QueueId(queue), PacketId(packet));
    tell_polled(answer, out)
}

/// Completes a packet whose work is done.
#[unsafe(no_mangle)]
pub extern "C" fn hd_finish(broker: &mut Broker, queue: u64, packet: u64) -> u32
    ensures closed { is_open broker.old ≡ false → (result ≡ closed) × IsSame broker.old broker.new }
    ensures open { Keeps broker.old broker.new }
    ensures met { is_open broker.old ≡ true → IsMade (event.Call (call.Finish (record { 0 = queue }) (record { 0 = packet }))) broker.old broker.new result }
{
    if !broker.called() {
        return status::CLOSED;
    }
    let core = &mut broker.pointer.session_mut().core;
    status_of(core.finish(QueueId(queue), PacketId(packet)))
}
