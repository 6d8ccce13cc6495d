//! Lines are done: each makes a request of the world, or has a packet go its way through a ring, and its value is told.

ghost use Rattle.std.specs.Prelude.{◌≡◌, IfOk};
ghost use Rattle.std.specs.Option.{option_copied};
ghost use Rattle.policy.specs.Policy.{numbered};
ghost use Rattle.world.specs.Actions.{asks};
ghost use Rattle.script.specs.Expansions.{ask, IsCopied, does, meaning_of, meaning_of_access, meaning_of_call, gives_old, peek_line, publish_line, raised, reload, retire_line, serve_line, served_or_empty, shown_or_empty, submit_line};

use crate::command::{Command, LineAnswer, LineReply, NumberMeaning};
use aql_packet::{PacketId, QueueId};
use boxed::Boxed;
use core_model::Call;
use policy::Policy;
use ring_core::{Access, Seen};
use signals::SignalOp;
use std::alloc::{AllocError, Global};
use world::{Answer, Refusal, Reply, Request, Served, Shown, World};

// Whether an operation's old value is told.
fn gives_old(operation: &SignalOp) -> bool
    ensures { result ≡ gives_old operation.now }
{
    match operation {
        SignalOp::Exchange(_) => true,
        SignalOp::Cas { .. } => true,
        _ => false,
    }
}

// How the answer to a call is told.
fn meaning_of_call(call: &Call) -> NumberMeaning
    ensures { result ≡ meaning_of_call call.now }
{
    match call {
        Call::ChangeSignal { operation, .. } => if gives_old(operation) {
            NumberMeaning::Old
        } else {
            NumberMeaning::Plain
        },
        _ => NumberMeaning::Plain,
    }
}

// How what a step read is told.
fn meaning_of_access(access: Access) -> NumberMeaning
    ensures { result ≡ meaning_of_access access }
{
    match access {
        Access::Reserve => NumberMeaning::Ticket,
        Access::LoadBody { .. } => NumberMeaning::Word,
        Access::RaiseReadIndex => NumberMeaning::Raised,
        _ => NumberMeaning::Plain,
    }
}

// How the answer to a request is told.
fn meaning_of(request: &Request) -> NumberMeaning
    ensures { result ≡ meaning_of request.now }
{
    match request {
        Request::Step { step, .. } => meaning_of_access(step.access),
        Request::Call(call) => meaning_of_call(call),
        _ => NumberMeaning::Plain,
    }
}

// A request is made.
#[tactic(auto, unfolding(world::specs::Actions::asks))]
fn request(alloc: Global, world: &mut World, asked: Request) -> Reply
    ensures { asks asked world.old result world.new }
{
    world.serve(alloc, asked)
}

// One request is made.
fn ask(alloc: Global, world: &mut World, asked: Request) -> LineReply
    ensures { ask asked world.old result world.new }
{
    let meaning = meaning_of(&asked);
    let answer = request(alloc, world, asked)?;
    Ok(LineAnswer::Answered { meaning, answer })
}

// A producer publishes a packet under its ticket.
fn publish_line(
    alloc: Global,
    world: &mut World,
    queue: QueueId,
    producer: u64,
    ticket: PacketId,
    words: &[u64; 8],
) -> LineReply
    ensures { publish_line queue producer ticket words.now world.old result world.new }
{
    let sent = world.publish(alloc, queue, producer, ticket, words)?;
    Ok(LineAnswer::Sent(sent))
}

// A producer reserves a ticket, and publishes a packet under it.
fn submit_line(
    alloc: Global,
    world: &mut World,
    queue: QueueId,
    producer: u64,
    words: &[u64; 8],
) -> LineReply
    ensures { submit_line queue producer words.now world.old result world.new }
{
    let sent = world.submit(alloc, queue, producer, words)?;
    Ok(LineAnswer::Sent(sent))
}

// What a look at the packet at the read index is answered.
fn shown_or_empty(shown: Option<Shown>) -> LineAnswer
    ensures { result ≡ shown_or_empty shown }
{
    match shown {
        Some(shown) => LineAnswer::Shown(shown),
        None => LineAnswer::Empty,
    }
}

// A queue's processor collects the packet at the read index.
fn peek_line(alloc: Global, world: &mut World, queue: QueueId) -> LineReply
    ensures { peek_line queue world.old result world.new }
{
    let shown = world.peek(alloc, queue)?;
    Ok(shown_or_empty(shown))
}

// What the retirement of the packet at this read index is answered.
fn raised(read: u64) -> LineAnswer
    ensures { result ≡ raised read }
{
    LineAnswer::Answered {
        meaning: NumberMeaning::Raised,
        answer: Answer::Step(Seen::Read(read)),
    }
}

// A queue's processor retires the packet at the read index.
fn retire_line(alloc: Global, world: &mut World, queue: QueueId) -> LineReply
    ensures { retire_line queue world.old result world.new }
{
    let read = world.retire(alloc, queue)?;
    Ok(raised(read))
}

// What became of the next packet is told as the answer to its take.
fn served_or_empty(served: Option<Served>) -> LineAnswer
    ensures { result ≡ served_or_empty served }
{
    match served {
        Some(Served { packet, taken }) => LineAnswer::Answered {
            meaning: NumberMeaning::Plain,
            answer: Answer::Taken { packet, taken },
        },
        None => LineAnswer::Empty,
    }
}

// A queue's processor serves the next packet.
fn serve_line(alloc: Global, world: &mut World, queue: QueueId) -> LineReply
    ensures { serve_line queue world.old result world.new }
{
    let served = world.serve_next(alloc, queue)?;
    Ok(served_or_empty(served))
}

// A copy of the further policy of a number, from 1, if there is one.
fn copied(alloc: Global, later: &[Policy], number: u64) -> Result<Boxed<Policy>, Refusal>
    ensures { IsCopied (numbered later.now number) result }
{
    match named(later, number) {
        Some(policy) => match boxed_copy(alloc, policy) {
            Ok(copy) => Ok(copy),
            Err(_) => Err(Refusal::Core(core_model::Refusal::OutOfMemory)),
        },
        None => Err(Refusal::NotAStep),
    }
}

// A copy of a policy, in memory of its own.
fn boxed_copy(alloc: Global, policy: &Policy) -> Result<Boxed<Policy>, AllocError>
    ensures { IfOk result (λ copy. copy ≡ policy.now) }
{
    let copy = policy.copy(alloc)?;
    Ok(Boxed::new(alloc, copy)?)
}

// The further policy of a number, from 1, if there is one.
fn named(later: &[Policy], number: u64) -> Option<&Policy>
    ensures { option_copied result ≡ numbered later.now number }
{
    if number == 0 {
        return None;
    }
    later.get(number as usize - 1)
}

// A further policy is handed in, as a copy.
fn reload(alloc: Global, world: &mut World, later: &[Policy], number: u64) -> LineReply
    ensures { reload (numbered later.now number) world.old result world.new }
{
    let policy = copied(alloc, later, number)?;
    ask(alloc, world, Request::Reload(policy))
}

/// Does what a line asks, and tells what it came to: a request, or a call of the world that makes some in turn, up to the
/// first that is refused. These are the further policies.
#[tactic(auto, unfolding(crate::specs::Expansions::does))]
#[inline(always)]
pub fn perform(alloc: Global, world: &mut World, later: &[Policy], command: Command) -> LineReply
    ensures { does later.now command world.old result world.new }
{
    match command {
        Command::Ask(asked) => ask(alloc, world, asked),
        Command::Publish {
            queue,
            producer,
            ticket,
            words,
        } => publish_line(alloc, world, queue, producer, ticket, &words),
        Command::Submit {
            queue,
            producer,
            words,
        } => submit_line(alloc, world, queue, producer, &words),
        Command::Peek { queue } => peek_line(alloc, world, queue),
        Command::Retire { queue } => retire_line(alloc, world, queue),
        Command::Serve { queue } => serve_line(alloc, world, queue),
        Command::Reload { number } => reload(alloc, world, later, number),
    }
}
