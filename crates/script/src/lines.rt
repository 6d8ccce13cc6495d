//! Lines to requests: a function for each row of the forms.

ghost use Rattle.std.specs.Prelude.{◌≡◌, IfOk, option_map};
ghost use Rattle.words.specs.Lines.{words};
ghost use Rattle.script.specs.Lines.{client_in, object_in, agent_in, signal_in, rights_on, grant_row, revoke_row, queue_row, queue_of, packet_of_queue, calls, asks, steps, processes, reserve_row, room_row, store_of, word_row, part_row, publish_row, submit_row, write_row, read_row, plain_operation, cas_operation, signal_row, load_row, test_row, list_row, is_later, reload_row, audit_row, rotate_row, command_of, line_of, asked_by, is_comment, IsPlain};

use crate::command::Command;
use crate::forms::{Verb, verb_named};
use crate::operations::{condition, operation};
use crate::rights::{kind, rights};
use aql_packet::{AgentHandle, ClientId, PacketId, QueueId, SignalHandle};
use core_model::{Call, Query};
use policy::{Kind, Object, Policy, Rights};
use ring_core::{Access, Step};
use sequences::Sequence;
use signals::SignalOp;
use std::alloc::{AllocError, Global};
use words::{
    address, bytes, decimal, five_words, four_words, is_word, no_words, one_word, only_decimal,
    only_packet, packet_word, signed, split_decimal, split_word, three_words, two_words,
};
use world::Request;

/// The most bytes that a line has.
pub const LONGEST_LINE: usize = 16_384;

// The seat of a queue's processor.
const PROCESSOR: u64 = 0;

/// What a line stands for.
#[derive(Drop)]
pub enum Line {
    /// Nothing: no word, or a comment.
    Quiet,
    /// A command.
    Asks(Command),
}

// The client of a name.
fn client(policy: &Policy, name: &[u8]) -> ClientId
    ensures { result ≡ client_in policy.now name.now }
{
    policy.client_named(name)
}

// The object of a kind and a name.
fn object(policy: &Policy, kind: Kind, name: &[u8]) -> Object
    ensures { result ≡ object_in policy.now kind name.now }
{
    policy.object_named(kind, name)
}

// The agent of a name.
fn agent(policy: &Policy, name: &[u8]) -> AgentHandle
    ensures { result ≡ agent_in policy.now name.now }
{
    match object(policy, Kind::Agent, name) {
        Object::Agent(agent) => agent,
        _ => AgentHandle(0),
    }
}

// The signal of a name.
fn signal(policy: &Policy, name: &[u8]) -> SignalHandle
    ensures { result ≡ signal_in policy.now name.now }
{
    match object(policy, Kind::Signal, name) {
        Object::Signal(signal) => signal,
        _ => SignalHandle(0),
    }
}

// A call as a command.
fn calls(call: Call) -> Command
    ensures { result ≡ Command.Ask (Request.Call call) }
{
    Command::Ask(Request::Call(call))
}

// A query as a command.
fn asks(query: Query) -> Command
    ensures { result ≡ Command.Ask (Request.Query query) }
{
    Command::Ask(Request::Query(query))
}

// A step of a seat on a queue's ring as a command.
fn steps(queue: u64, seat: u64, access: Access) -> Command
    ensures { result ≡ steps queue seat access }
{
    Command::Ask(Request::Step {
        queue: QueueId(queue),
        step: Step { seat, access },
    })
}

// A step of a queue's processor as a command.
fn processes(access: Access, queue: QueueId) -> Command
    ensures { result ≡ processes access queue }
{
    steps(queue.0, PROCESSOR, access)
}

// `C KIND NAME R,R`
fn rights_on(policy: &Policy, line: &[u8]) -> Option<(ClientId, Object, Rights)>
    ensures { result ≡ rights_on policy.now (words line.now) }
{
    let (holder, of, name, given) = four_words(line)?;
    let kind = kind(of)?;
    let rights = rights(given)?;
    Some((client(policy, holder), object(policy, kind, name), rights))
}

// `grant C KIND NAME R,R`
fn grant(policy: &Policy, line: &[u8]) -> Option<Command>
    ensures { result ≡ grant_row policy.now (words line.now) }
{
    let (client, object, rights) = rights_on(policy, line)?;
    Some(calls(Call::Grant {
        client,
        object,
        rights,
    }))
}

// `revoke C KIND NAME R,R`
fn revoke(policy: &Policy, line: &[u8]) -> Option<Command>
    ensures { result ≡ revoke_row policy.now (words line.now) }
{
    let (client, object, rights) = rights_on(policy, line)?;
    Some(calls(Call::Revoke {
        client,
        object,
        rights,
    }))
}

// `queue C AGENT SIZE PRODUCERS`
fn queue(policy: &Policy, line: &[u8]) -> Option<Command>
    ensures { result ≡ queue_row policy.now (words line.now) }
{
    let (owner, on, size, producers) = four_words(line)?;
    let size = decimal(size)?;
    let producers = decimal(producers)?;
    Some(Command::Ask(Request::OpenQueue {
        client: client(policy, owner),
        agent: agent(policy, on),
        size,
        producers,
    }))
}

// `Q`
#[tactic(auto, using(crate::proofs::Submitting::queue_is))]
fn queue_id(line: &[u8]) -> Option<QueueId>
    ensures { result ≡ queue_of (words line.now) }
{
    Some(QueueId(only_decimal(line)?))
}

// `Q ID`
#[tactic(auto, using(crate::proofs::Submitting::packet_is))]
fn packet_id(line: &[u8]) -> Option<(QueueId, PacketId)>
    ensures { result ≡ packet_of_queue (words line.now) }
{
    let (queue, rest) = split_decimal(line)?;
    let packet = only_decimal(rest)?;
    Some((QueueId(queue), PacketId(packet)))
}

// `stop Q`
fn stop(line: &[u8]) -> Option<Command>
    ensures { result ≡ option_map (λ queue. calls (Call.Stop queue)) (queue_of (words line.now)) }
{
    Some(calls(Call::Stop {
        queue: queue_id(line)?,
    }))
}

// `close Q`
fn close(line: &[u8]) -> Option<Command>
    ensures { result ≡ option_map (λ queue. calls (Call.Close queue)) (queue_of (words line.now)) }
{
    Some(calls(Call::Close {
        queue: queue_id(line)?,
    }))
}

// `run Q ID`
fn run(line: &[u8]) -> Option<Command>
    ensures { result ≡ option_map (λ row. calls (Call.RunNext row.0 row.1)) (packet_of_queue (words line.now)) }
{
    let (queue, packet) = packet_id(line)?;
    Some(calls(Call::RunNext { queue, packet }))
}

// `poll Q ID`
fn poll(line: &[u8]) -> Option<Command>
    ensures { result ≡ option_map (λ row. calls (Call.Poll row.0 row.1)) (packet_of_queue (words line.now)) }
{
    let (queue, packet) = packet_id(line)?;
    Some(calls(Call::Poll { queue, packet }))
}

// `finish Q ID`
fn finish(line: &[u8]) -> Option<Command>
    ensures { result ≡ option_map (λ row. calls (Call.Finish row.0 row.1)) (packet_of_queue (words line.now)) }
{
    let (queue, packet) = packet_id(line)?;
    Some(calls(Call::Finish { queue, packet }))
}

// `reserve Q P`
fn reserve(line: &[u8]) -> Option<Command>
    ensures { result ≡ reserve_row (words line.now) }
{
    let (queue, producer) = two_words(line)?;
    let queue = decimal(queue)?;
    let producer = decimal(producer)?;
    Some(steps(queue, producer, Access::Reserve))
}

// `room Q P T`
fn room(line: &[u8]) -> Option<Command>
    ensures { result ≡ room_row (words line.now) }
{
    let (queue, producer, ticket) = three_words(line)?;
    let queue = decimal(queue)?;
    let producer = decimal(producer)?;
    let ticket = PacketId(decimal(ticket)?);
    Some(steps(queue, producer, Access::LoadReadIndex { ticket }))
}

// The store of a word of a packet: of the header, or of a word of its body.
fn store_of(ticket: u64, place: u64, word: u64) -> Access
    ensures { result ≡ store_of ticket place word }
{
    let ticket = PacketId(ticket);
    if place == 0 {
        Access::StoreHeader { ticket, word }
    } else {
        Access::StoreBody {
            ticket,
            place,
            word,
        }
    }
}

// `word Q P T K H`
fn word(alloc: Global, line: &[u8]) -> Result<Option<Command>, AllocError>
    ensures { IfOk result (λ read. read ≡ word_row (words line.now)) }
{
    let Some((queue, producer, ticket, place, digits)) = five_words(line) else {
        return Ok(None);
    };
    let Some(queue) = decimal(queue) else {
        return Ok(None);
    };
    let Some(producer) = decimal(producer) else {
        return Ok(None);
    };
    let Some(ticket) = decimal(ticket) else {
        return Ok(None);
    };
    let Some(place) = decimal(place) else {
        return Ok(None);
    };
    let Some(word) = packet_word(alloc, digits)? else {
        return Ok(None);
    };
    Ok(Some(steps(queue, producer, store_of(ticket, place, word))))
}

// `part Q K`
fn part(line: &[u8]) -> Option<Command>
    ensures { result ≡ part_row (words line.now) }
{
    let (queue, place) = two_words(line)?;
    let queue = decimal(queue)?;
    let place = decimal(place)?;
    Some(steps(queue, PROCESSOR, Access::LoadBody { place }))
}

// `publish Q P T H`
#[tactic(auto, using(crate::proofs::Submitting::publish_is))]
fn publish(line: &[u8]) -> Option<Command>
    ensures { result ≡ publish_row (words line.now) }
{
    let (queue, rest) = split_decimal(line)?;
    let (producer, rest) = split_decimal(rest)?;
    let (ticket, rest) = split_decimal(rest)?;
    let words = only_packet(rest)?;
    Some(Command::Publish {
        queue: QueueId(queue),
        producer,
        ticket: PacketId(ticket),
        words,
    })
}

// `submit Q P H`
#[tactic(auto, using(crate::proofs::Submitting::submit_is))]
fn submit(line: &[u8]) -> Option<Command>
    ensures { result ≡ submit_row (words line.now) }
{
    let (queue, rest) = split_decimal(line)?;
    let (producer, rest) = split_decimal(rest)?;
    let words = only_packet(rest)?;
    Some(Command::Submit {
        queue: QueueId(queue),
        producer,
        words,
    })
}

// `write C ADDR H`
fn write(alloc: Global, policy: &Policy, line: &[u8]) -> Result<Option<Command>, AllocError>
    ensures { IfOk result (λ read. read ≡ write_row policy.now (words line.now)) }
{
    let Some((writer, place, digits)) = three_words(line) else {
        return Ok(None);
    };
    let Some(address) = address(place) else {
        return Ok(None);
    };
    let Some(bytes) = bytes(alloc, digits)? else {
        return Ok(None);
    };
    Ok(Some(calls(Call::HostWrite {
        client: client(policy, writer),
        address,
        bytes: Sequence::from_vec(bytes),
    })))
}

// `read C ADDR N`
fn read(policy: &Policy, line: &[u8]) -> Option<Command>
    ensures { result ≡ read_row policy.now (words line.now) }
{
    let (reader, place, count) = three_words(line)?;
    let address = address(place)?;
    let length = decimal(count)?;
    Some(asks(Query::HostRead {
        client: client(policy, reader),
        address,
        length,
    }))
}

// `signal C NAME OP V`
fn plain_operation(policy: &Policy, line: &[u8]) -> Option<Command>
    ensures { result ≡ plain_operation policy.now (words line.now) }
{
    let (changer, name, word, value) = four_words(line)?;
    let value = signed(value)?;
    let operation = operation(word, value)?;
    Some(calls(Call::ChangeSignal {
        client: client(policy, changer),
        signal: signal(policy, name),
        operation,
    }))
}

// `signal C NAME cas V V`
fn cas_operation(policy: &Policy, line: &[u8]) -> Option<Command>
    ensures { result ≡ cas_operation policy.now (words line.now) }
{
    let (changer, name, word, expected, value) = five_words(line)?;
    if !is_word(word, "cas") {
        return None;
    }
    let expected = signed(expected)?;
    let value = signed(value)?;
    Some(calls(Call::ChangeSignal {
        client: client(policy, changer),
        signal: signal(policy, name),
        operation: SignalOp::Cas { expected, value },
    }))
}

// `signal C NAME OP V`, `signal C NAME cas V V`
fn change(policy: &Policy, line: &[u8]) -> Option<Command>
    ensures { result ≡ signal_row policy.now (words line.now) }
{
    match plain_operation(policy, line) {
        Some(command) => Some(command),
        None => cas_operation(policy, line),
    }
}

// `load C NAME`
fn load(policy: &Policy, line: &[u8]) -> Option<Command>
    ensures { result ≡ load_row policy.now (words line.now) }
{
    let (loader, name) = two_words(line)?;
    Some(asks(Query::LoadSignal {
        client: client(policy, loader),
        signal: signal(policy, name),
    }))
}

// `test C NAME COND V`
fn test(policy: &Policy, line: &[u8]) -> Option<Command>
    ensures { result ≡ test_row policy.now (words line.now) }
{
    let (tester, name, word, value) = four_words(line)?;
    let condition = condition(word)?;
    let value = signed(value)?;
    Some(asks(Query::TestSignal {
        client: client(policy, tester),
        signal: signal(policy, name),
        condition,
        value,
    }))
}

// `list C`
fn list(policy: &Policy, line: &[u8]) -> Option<Command>
    ensures { result ≡ list_row policy.now (words line.now) }
{
    let name = one_word(line)?;
    Some(asks(Query::List {
        client: client(policy, name),
    }))
}

// `errors Q`
fn errors(line: &[u8]) -> Option<Command>
    ensures { result ≡ option_map (λ queue. asks (Query.Errors queue)) (queue_of (words line.now)) }
{
    Some(asks(Query::Errors {
        queue: queue_id(line)?,
    }))
}

// `audit`
fn audit(line: &[u8]) -> Option<Command>
    ensures { result ≡ audit_row (words line.now) }
{
    if no_words(line) {
        Some(asks(Query::Audit))
    } else {
        None
    }
}

// `rotate`
fn rotate(line: &[u8]) -> Option<Command>
    ensures { result ≡ rotate_row (words line.now) }
{
    if no_words(line) {
        Some(Command::Ask(Request::Rotate))
    } else {
        None
    }
}

// Whether a number of further policies has this one, counted from 1.
fn is_later(later: usize, number: u64) -> bool
    ensures { result ≡ is_later later number }
{
    1 <= number && number <= later as u64
}

// `reload N`, where there are so many further policies
fn reload(later: usize, line: &[u8]) -> Option<Command>
    ensures { result ≡ reload_row later (words line.now) }
{
    let number = decimal(one_word(line)?)?;
    if is_later(later, number) {
        Some(Command::Reload { number })
    } else {
        None
    }
}

// The row of a verb that takes no memory, and none where it takes some.
fn plain_command(policy: &Policy, later: usize, verb: Verb, line: &[u8]) -> Option<Command>
    ensures { IsPlain verb → result ≡ command_of policy.now later verb (words line.now) }
{
    match verb {
        Verb::Grant => grant(policy, line),
        Verb::Revoke => revoke(policy, line),
        Verb::Queue => queue(policy, line),
        Verb::Stop => stop(line),
        Verb::Close => close(line),
        Verb::Reserve => reserve(line),
        Verb::Room => room(line),
        Verb::Publish => publish(line),
        Verb::Submit => submit(line),
        Verb::Look => Some(processes(Access::LoadHeader, queue_id(line)?)),
        Verb::Part => part(line),
        Verb::Peek => Some(Command::Peek {
            queue: queue_id(line)?,
        }),
        Verb::Take => Some(Command::Ask(Request::Take {
            queue: queue_id(line)?,
        })),
        Verb::Clear => Some(processes(Access::ClearHeader, queue_id(line)?)),
        Verb::Advance => Some(processes(Access::RaiseReadIndex, queue_id(line)?)),
        Verb::Retire => Some(Command::Retire {
            queue: queue_id(line)?,
        }),
        Verb::Serve => Some(Command::Serve {
            queue: queue_id(line)?,
        }),
        Verb::Run => run(line),
        Verb::Poll => poll(line),
        Verb::Finish => finish(line),
        Verb::Read => read(policy, line),
        Verb::Signal => change(policy, line),
        Verb::Load => load(policy, line),
        Verb::Test => test(policy, line),
        Verb::List => list(policy, line),
        Verb::Errors => errors(line),
        Verb::Audit => audit(line),
        Verb::Reload => reload(later, line),
        Verb::Rotate => rotate(line),
        Verb::Word | Verb::Write => None,
    }
}

// The row of a verb.
fn command(
    alloc: Global,
    policy: &Policy,
    later: usize,
    verb: Verb,
    line: &[u8],
) -> Result<Option<Command>, AllocError>
    ensures { IfOk result (λ read. read ≡ command_of policy.now later verb (words line.now)) }
{
    match verb {
        Verb::Word => word(alloc, line),
        Verb::Write => write(alloc, policy, line),
        _ => Ok(plain_command(policy, later, verb, line)),
    }
}

// What words ask.
fn asked(
    alloc: Global,
    policy: &Policy,
    later: usize,
    line: &[u8],
) -> Result<Option<Line>, AllocError>
    ensures { IfOk result (λ read. read ≡ asked_by policy.now later (words line.now)) }
{
    let Some((word, rest)) = split_word(line) else {
        return Ok(Some(Line::Quiet));
    };
    let Some(verb) = verb_named(word) else {
        return Ok(None);
    };
    match command(alloc, policy, later, verb, rest)? {
        Some(command) => Ok(Some(Line::Asks(command))),
        None => Ok(None),
    }
}

// Whether a line is a comment.
fn is_comment(line: &[u8]) -> bool
    ensures { result ≡ is_comment line.now }
{
    match line.split_first() {
        Some((first, _)) => *first == b'#',
        None => false,
    }
}

/// What a line stands for, without its line feed; none where it is too long or has no form. Names
/// go by the policy, and a name that isn't there is number 0; there are so many further policies.
pub fn read_line(
    alloc: Global,
    policy: &Policy,
    later: usize,
    line: &[u8],
) -> Result<Option<Line>, AllocError>
    ensures { IfOk result (λ read. read ≡ line_of policy.now later line.now) }
{
    if line.len() > LONGEST_LINE {
        return Ok(None);
    }
    if is_comment(line) {
        return Ok(Some(Line::Quiet));
    }
    asked(alloc, policy, later, line)
}
