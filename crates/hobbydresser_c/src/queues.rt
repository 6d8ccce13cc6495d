//! Queues are opened, stopped and closed.

ghost use Rattle.std.specs.Prelude.{◌≡◌, true, false};
ghost use Rattle.aql_packet.specs.declared.ids.QueueId.{QueueId};
ghost use Rattle.core_model.specs.declared.call.Call.TheVariants as call;
ghost use Rattle.core_model.specs.declared.event.Event.TheVariants as event;
ghost use Rattle.core_model.specs.declared.outcome.Outcome.TheVariants as outcome;
ghost use Rattle.hobbydresser_c.specs.Statuses.{closed};
ghost use Rattle.hobbydresser_c.specs.Calls.{Answered, IsMade, IsSame, Keeps, KeepsLacking, Tells, is_open};
ghost use Rattle.hobbydresser_c.specs.LastCalls.{lacked};
ghost use Rattle.policy.specs.declared.object.Object.TheVariants as object;
ghost use Rattle.policy.specs.declared.rights.Right.TheVariants as right;

use crate::broker::Broker;
use crate::granting::status_of;
use crate::status;
use aql_packet::{AgentHandle, ClientId, QueueId};
use core_model::Refusal;
use policy::{Object, Right};
use std::alloc::Global;

// Tells a queue's number.
fn tell_queue(answer: Result<QueueId, Refusal>, out: &mut u64) -> u32
    ensures { Tells (λ (queue : QueueId). queue.0) result out.old out.new answer }
{
    match answer {
        Ok(queue) => {
            *out = queue.0;
            status::OK
        }
        Err(why) => status::of_refusal(why),
    }
}

/// Opens a queue of so many slots for a client, whose packets an agent runs.
#[unsafe(no_mangle)]
pub extern "C" fn hd_open_queue(
    alloc: Global,
    broker: &mut Broker,
    client: u32,
    agent: u32,
    size: u64,
    queue: &mut u64,
) -> u32
    ensures closed { is_open broker.old ≡ false → (result ≡ closed) × IsSame broker.old broker.new × (queue.new ≡ queue.old) }
    ensures open { KeepsLacking (lacked result (object.Agent (record { 0 = agent })) right.Use) broker.old broker.new }
    ensures met { is_open broker.old ≡ true → Answered (event.Open (record { 0 = client }) (record { 0 = agent }) size) outcome.Opened broker.old broker.new
        (Tells (λ (opened : QueueId). opened.0) result queue.old queue.new) }
{
    if !broker.called() {
        return status::CLOSED;
    }
    let session = broker.pointer.session_mut();
    let answer = session
        .core
        .open_queue(alloc, ClientId(client), AgentHandle(agent), size);
    let status = tell_queue(answer, queue);
    session.note_lacking(status, Object::Agent(AgentHandle(agent)), Right::Use);
    status
}

/// Stops a queue.
#[unsafe(no_mangle)]
pub extern "C" fn hd_stop(broker: &mut Broker, queue: u64) -> u32
    ensures closed { is_open broker.old ≡ false → (result ≡ closed) × IsSame broker.old broker.new }
    ensures open { Keeps broker.old broker.new }
    ensures met { is_open broker.old ≡ true → IsMade (event.Call (call.Stop (record { 0 = queue }))) broker.old broker.new result }
{
    if !broker.called() {
        return status::CLOSED;
    }
    let core = &mut broker.pointer.session_mut().core;
    status_of(core.stop(QueueId(queue)))
}

/// Closes a queue: what it has in flight is released, and no open queue has its number from then on.
#[unsafe(no_mangle)]
pub extern "C" fn hd_close_queue(broker: &mut Broker, queue: u64) -> u32
    ensures closed { is_open broker.old ≡ false → (result ≡ closed) × IsSame broker.old broker.new }
    ensures open { Keeps broker.old broker.new }
    ensures met { is_open broker.old ≡ true → IsMade (event.Call (call.Close (record { 0 = queue }))) broker.old broker.new result }
{
    if !broker.called() {
        return status::CLOSED;
    }
    let core = &mut broker.pointer.session_mut().core;
    status_of(core.close(QueueId(queue)))
}
