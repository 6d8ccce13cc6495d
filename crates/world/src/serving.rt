//! Requests are served: each by the core, by a queue's ring, or by both.

ghost use Rattle.std.specs.Prelude.{◌≡◌, ◌<◌, IfOk, OnOk, true, vec_capacity, vec_len};
ghost use Rattle.core_model.specs.declared.answer.Answer.TheVariants as told;
ghost use Rattle.core_model.specs.declared.event.CoreRequest.TheVariants as asked;
ghost use Rattle.core_model.specs.declared.outcome.Outcome.TheVariants as outcome;
ghost use Rattle.aql_packet.specs.Ring.{is_ring_size};
ghost use Rattle.ring_core.specs.Machine.{is_producer_count, opened};
ghost use Rattle.world.specs.declared.reply.Answer.TheVariants as answer;
ghost use Rattle.world.specs.Dues.{closed_by};
ghost use Rattle.world.specs.InStep.{AreApart};
ghost use Rattle.world.specs.Making.{ring_in, rings_of};
ghost use Rattle.world.specs.Obeying.{Asks, HandsOut, IsNext, Leaves, MayOpen, Obeys, Opens, TakesAt};

use crate::queue_ring::{Next, QueueRing};
use crate::reply::{Answer, Refusal, Reply};
use crate::request::Request;
use crate::rings::{close, make_step, next_packet, note_taken};
use access_core::AccessCore;
use aql_packet::{AgentHandle, ClientId, QueueId, bytes_of};
use core_model::{Call, Outcome};
use ring_core::{Log, RingState, judged_size};
use std::alloc::{AllocError, Global};

/// Who opens a queue, on which agent, and with which ring.
#[derive(Clone, Copy)]
struct RingOpening {
    client: ClientId,
    agent: AgentHandle,
    size: u64,
    producers: u64,
}

// Serves a request.
pub(crate) fn serve_request(
    alloc: Global,
    core: &mut AccessCore,
    rings: &mut Vec<QueueRing>,
    closed: &mut Log<QueueRing>,
    request: Request,
) -> Reply
    requires { AreApart (rings_of rings.old.items) }
    ensures { Obeys request core.old.history rings.old.items closed.old result core.new.history rings.new.items closed.new }
{
    match request {
        Request::Step { queue, step } => make_step(rings, queue, step),
        Request::Take { queue } => take(alloc, core, rings, queue),
        Request::OpenQueue {
            client,
            agent,
            size,
            producers,
        } => {
            let opening = RingOpening {
                client,
                agent,
                size,
                producers,
            };
            open(alloc, core, rings, opening)
        }
        Request::Call(call) => make_call(alloc, core, rings, closed, call),
        Request::Query(query) => ask(alloc, core, core_model::CoreRequest::Query(query)),
        Request::Reload(policy) => ask(alloc, core, core_model::CoreRequest::Reload(policy)),
        Request::Rotate => rotate(alloc, core),
    }
}

// Has the core hand out its audit.
fn rotate(alloc: Global, core: &mut AccessCore) -> Reply
    ensures { HandsOut core.old.history result core.new.history }
{
    match core.rotate(alloc) {
        Ok(part) => Ok(Answer::Rotated(part)),
        Err(why) => Err(Refusal::Core(why)),
    }
}

// Has the core serve a request.
fn ask(alloc: Global, core: &mut AccessCore, request: core_model::CoreRequest) -> Reply
    ensures { Asks request core.old.history result core.new.history }
{
    match core.serve(alloc, request) {
        Ok(answer) => Ok(Answer::Core(answer)),
        Err(why) => Err(Refusal::Core(why)),
    }
}

// Has the core serve a call. A queue that it closes has its ring no longer.
fn make_call(
    alloc: Global,
    core: &mut AccessCore,
    rings: &mut Vec<QueueRing>,
    closed: &mut Log<QueueRing>,
    call: Call,
) -> Reply
    requires { AreApart (rings_of rings.old.items) }
    ensures asks { Asks (asked.Call call) core.old.history result core.new.history }
    ensures leaves { Leaves (closed_by call) result rings.old.items closed.old rings.new.items closed.new }
{
    let closing = closed_by(&call);
    let reply = ask(alloc, core, core_model::CoreRequest::Call(call));
    leave(rings, closed, closing, &reply);
    reply
}

// The queue that a call closes, if it does.
fn closed_by(call: &Call) -> Option<QueueId>
    ensures { result ≡ closed_by call.now }
{
    match call {
        Call::Close { queue } => Some(*queue),
        _ => None,
    }
}

// The ring of a queue goes that was to be closed, where it was.
fn leave(
    rings: &mut Vec<QueueRing>,
    closed: &mut Log<QueueRing>,
    closing: Option<QueueId>,
    reply: &Reply,
)
    requires { AreApart (rings_of rings.old.items) }
    ensures { Leaves closing reply.now rings.old.items closed.old rings.new.items closed.new }
{
    match (closing, reply) {
        (Some(queue), Ok(_)) => close(rings, closed, queue),
        _ => {}
    }
}

// A queue's processor hands over the packet that it has collected.
pub(crate) fn take(
    alloc: Global,
    core: &mut AccessCore,
    rings: &mut Vec<QueueRing>,
    queue: QueueId,
) -> Reply
    requires { AreApart (rings_of rings.old.items) }
    ensures { TakesAt (ring_in rings.old.items queue) queue core.old.history rings.old.items result core.new.history rings.new.items }
{
    match next_packet(rings, queue) {
        None => Err(Refusal::Core(core_model::Refusal::UnknownQueue)),
        Some(None) => Err(Refusal::NotAStep),
        Some(Some(next)) => hand_over(alloc, core, rings, queue, next),
    }
}

// Hands over a packet that a queue's processor has collected.
fn hand_over(
    alloc: Global,
    core: &mut AccessCore,
    rings: &mut Vec<QueueRing>,
    queue: QueueId,
    next: Next,
) -> Reply
    requires next { IsNext rings.old.items queue next }
    requires apart { AreApart (rings_of rings.old.items) }
    ensures { TakesAt (ring_in rings.old.items queue) queue core.old.history rings.old.items result core.new.history rings.new.items }
{
    let packet = next.packet;
    let bytes = bytes_of(&next.words);
    match core.take(alloc, queue, packet, &bytes) {
        Ok(taken) => {
            note_taken(rings, queue, taken);
            Ok(Answer::Taken { packet, taken })
        }
        Err(why) => Err(Refusal::Core(why)),
    }
}

// Opens a queue, with its ring. Whether it opens is decided once, by the core.
fn open(
    alloc: Global,
    core: &mut AccessCore,
    rings: &mut Vec<QueueRing>,
    opening: RingOpening,
) -> Reply
    ensures { Opens opening.client opening.agent opening.size opening.producers core.old.history rings.old.items result core.new.history rings.new.items }
{
    let size = judged_size(opening.size, opening.producers);
    match core.may_open(opening.client, opening.agent, size) {
        Ok(queue) => open_allowed(alloc, core, rings, opening, queue),
        Err(why) => Err(Refusal::Core(why)),
    }
}

// Opens a queue that the core has just allowed, with its ring. All that can want memory is got before the first
// change.
fn open_allowed(
    alloc: Global,
    core: &mut AccessCore,
    rings: &mut Vec<QueueRing>,
    opening: RingOpening,
    queue: QueueId,
) -> Reply
    requires { MayOpen core.old.history opening.client opening.agent opening.size opening.producers queue }
    ensures { Opens opening.client opening.agent opening.size opening.producers core.old.history rings.old.items result core.new.history rings.new.items }
{
    let ring = match make_ring(alloc, rings, opening.size, opening.producers) {
        Ok(ring) => ring,
        Err(_) => return Err(Refusal::Core(core_model::Refusal::OutOfMemory)),
    };
    let size = judged_size(opening.size, opening.producers);
    match core.open_allowed(alloc, opening.client, opening.agent, size, queue) {
        Ok(queue) => {
            rings.push_reserved(QueueRing {
                queue,
                ring,
                decided: false,
            });
            Ok(opened(queue))
        }
        Err(why) => Err(Refusal::Core(why)),
    }
}

// A ring in which nothing has happened, and room for it behind the others.
fn make_ring(
    alloc: Global,
    rings: &mut Vec<QueueRing>,
    size: u64,
    producers: u64,
) -> Result<RingState, AllocError>
    requires size { is_ring_size size ≡ true }
    requires producers { is_producer_count producers ≡ true }
    ensures ring { IfOk result (λ ring. ring ≡ opened size producers) }
    ensures room { OnOk result (vec_len rings.new < vec_capacity rings.new) }
    ensures rings { rings.new.items ≡ rings.old.items }
{
    rings.reserve(1)?;
    RingState::new(alloc, size, producers)
}

// What a queue that was opened is answered.
fn opened(queue: QueueId) -> Answer
    ensures { result ≡ answer.Core (told.Outcome (outcome.Opened queue)) }
{
    Answer::Core(core_model::Answer::Outcome(Outcome::Opened(queue)))
}
