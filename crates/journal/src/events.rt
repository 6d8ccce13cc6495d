//! Events as they are read.

ghost use Rattle.std.specs.Prelude.{◌≡◌, IfOk};
ghost use Rattle.journal.specs.Words.{seen, words_behind};
ghost use Rattle.journal.specs.Readings.{grant_at, revoke_at, stop_at, close_at, run_at, poll_at, finish_at, operation_of, one_operand_at, cas_at, operation_named, operation_at, change_at, packet_call_named, call_named, open_at, take_at, write_at, reload_at, as_call, plain_event_named, event_named, event_at};

use crate::digits::{bytes_at, number_at, packet_at, signed_at, small_at};
use crate::reading::{client_at, packet_named_at, rights_on_at, rows_at};
use crate::splitting::{Rest, is_word, next_word};
use aql_packet::{Address, AgentHandle, QueueId, SignalHandle};
use core_model::{Call, Event};
use signals::SignalOp;
use std::alloc::{AllocError, Global};

// A grant.
fn grant_at(rest: Rest) -> Option<(Call, Rest)>
    ensures { seen result ≡ grant_at (words_behind rest.entry) }
{
    let ((client, object, rights), rest) = rights_on_at(rest)?;
    Some((
        Call::Grant {
            client,
            object,
            rights,
        },
        rest,
    ))
}

// A revocation.
fn revoke_at(rest: Rest) -> Option<(Call, Rest)>
    ensures { seen result ≡ revoke_at (words_behind rest.entry) }
{
    let ((client, object, rights), rest) = rights_on_at(rest)?;
    Some((
        Call::Revoke {
            client,
            object,
            rights,
        },
        rest,
    ))
}

// A stop.
fn stop_at(rest: Rest) -> Option<(Call, Rest)>
    ensures { seen result ≡ stop_at (words_behind rest.entry) }
{
    let (queue, rest) = number_at(rest)?;
    Some((
        Call::Stop {
            queue: QueueId(queue),
        },
        rest,
    ))
}

// The end of a queue.
fn close_at(rest: Rest) -> Option<(Call, Rest)>
    ensures { seen result ≡ close_at (words_behind rest.entry) }
{
    let (queue, rest) = number_at(rest)?;
    Some((
        Call::Close {
            queue: QueueId(queue),
        },
        rest,
    ))
}

// A run of the next group.
fn run_at(rest: Rest) -> Option<(Call, Rest)>
    ensures { seen result ≡ run_at (words_behind rest.entry) }
{
    let ((queue, packet), rest) = packet_named_at(rest)?;
    Some((Call::RunNext { queue, packet }, rest))
}

// A poll.
fn poll_at(rest: Rest) -> Option<(Call, Rest)>
    ensures { seen result ≡ poll_at (words_behind rest.entry) }
{
    let ((queue, packet), rest) = packet_named_at(rest)?;
    Some((Call::Poll { queue, packet }, rest))
}

// A completion.
fn finish_at(rest: Rest) -> Option<(Call, Rest)>
    ensures { seen result ≡ finish_at (words_behind rest.entry) }
{
    let ((queue, packet), rest) = packet_named_at(rest)?;
    Some((Call::Finish { queue, packet }, rest))
}

// The operation of a name, with one operand.
fn operation_of(word: &[u8], value: i64) -> Option<SignalOp>
    ensures { result ≡ operation_of word.now value }
{
    if is_word(word, "store") {
        Some(SignalOp::Store(value))
    } else if is_word(word, "add") {
        Some(SignalOp::Add(value))
    } else if is_word(word, "subtract") {
        Some(SignalOp::Subtract(value))
    } else if is_word(word, "and") {
        Some(SignalOp::And(value))
    } else if is_word(word, "or") {
        Some(SignalOp::Or(value))
    } else if is_word(word, "xor") {
        Some(SignalOp::Xor(value))
    } else if is_word(word, "exchange") {
        Some(SignalOp::Exchange(value))
    } else {
        None
    }
}

// An operation with one operand.
fn one_operand_at<'a>(word: &[u8], rest: Rest<'a>) -> Option<(SignalOp, Rest<'a>)>
    ensures { seen result ≡ one_operand_at word.now (words_behind rest.entry) }
{
    let (value, rest) = signed_at(rest)?;
    Some((operation_of(word, value)?, rest))
}

// A compare-and-swap.
fn cas_at(rest: Rest) -> Option<(SignalOp, Rest)>
    ensures { seen result ≡ cas_at (words_behind rest.entry) }
{
    let (expected, rest) = signed_at(rest)?;
    let (value, rest) = signed_at(rest)?;
    Some((SignalOp::Cas { expected, value }, rest))
}

// An operation, as a word names it.
fn operation_named<'a>(word: &[u8], rest: Rest<'a>) -> Option<(SignalOp, Rest<'a>)>
    ensures { seen result ≡ operation_named word.now (words_behind rest.entry) }
{
    if is_word(word, "cas") {
        cas_at(rest)
    } else {
        one_operand_at(word, rest)
    }
}

// An operation.
fn operation_at(rest: Rest) -> Option<(SignalOp, Rest)>
    ensures { seen result ≡ operation_at (words_behind rest.entry) }
{
    let (word, rest) = next_word(rest)?;
    operation_named(word, rest)
}

// A change of a signal.
fn change_at(rest: Rest) -> Option<(Call, Rest)>
    ensures { seen result ≡ change_at (words_behind rest.entry) }
{
    let (client, rest) = client_at(rest)?;
    let (signal, rest) = number_at(rest)?;
    let (operation, rest) = operation_at(rest)?;
    let call = Call::ChangeSignal {
        client,
        signal: SignalHandle(signal),
        operation,
    };
    Some((call, rest))
}

// A call on a packet in flight, as a word names it.
fn packet_call_named<'a>(word: &[u8], rest: Rest<'a>) -> Option<(Call, Rest<'a>)>
    ensures { seen result ≡ packet_call_named word.now (words_behind rest.entry) }
{
    if is_word(word, "run") {
        run_at(rest)
    } else if is_word(word, "poll") {
        poll_at(rest)
    } else if is_word(word, "finish") {
        finish_at(rest)
    } else {
        None
    }
}

// A call that hands over no bytes, as a word names it.
fn call_named<'a>(word: &[u8], rest: Rest<'a>) -> Option<(Call, Rest<'a>)>
    ensures { seen result ≡ call_named word.now (words_behind rest.entry) }
{
    if is_word(word, "grant") {
        grant_at(rest)
    } else if is_word(word, "revoke") {
        revoke_at(rest)
    } else if is_word(word, "stop") {
        stop_at(rest)
    } else if is_word(word, "close") {
        close_at(rest)
    } else if is_word(word, "signal") {
        change_at(rest)
    } else {
        packet_call_named(word, rest)
    }
}

// An opening.
fn open_at(rest: Rest) -> Option<(Event, Rest)>
    ensures { seen result ≡ open_at (words_behind rest.entry) }
{
    let (client, rest) = client_at(rest)?;
    let (agent, rest) = small_at(rest)?;
    let (size, rest) = number_at(rest)?;
    let event = Event::Open {
        client,
        agent: AgentHandle(agent),
        size,
    };
    Some((event, rest))
}

// A packet that is handed over.
fn take_at(rest: Rest) -> Option<(Event, Rest)>
    ensures { seen result ≡ take_at (words_behind rest.entry) }
{
    let ((queue, packet), rest) = packet_named_at(rest)?;
    let (bytes, rest) = packet_at(rest)?;
    Some((
        Event::Take {
            queue,
            packet,
            bytes,
        },
        rest,
    ))
}

// A client's write to memory.
fn write_at(alloc: Global, rest: Rest) -> Result<Option<(Event, Rest)>, AllocError>
    ensures { IfOk result (λ read. seen read ≡ write_at (words_behind rest.entry)) }
{
    let Some((client, rest)) = client_at(rest) else {
        return Ok(None);
    };
    let Some((address, rest)) = number_at(rest) else {
        return Ok(None);
    };
    let Some((bytes, rest)) = bytes_at(alloc, rest)? else {
        return Ok(None);
    };
    let call = Call::HostWrite {
        client,
        address: Address(address),
        bytes,
    };
    Ok(Some((Event::Call(call), rest)))
}

// Another policy.
fn reload_at(alloc: Global, rest: Rest) -> Result<Option<(Event, Rest)>, AllocError>
    ensures { IfOk result (λ read. seen read ≡ reload_at (words_behind rest.entry)) }
{
    let Some((rows, rest)) = rows_at(alloc, rest)? else {
        return Ok(None);
    };
    Ok(Some((Event::Reload { rows }, rest)))
}

// A call that hands over no bytes, as an event.
fn as_event(read: Option<(Call, Rest)>) -> Option<(Event, Rest)>
    ensures { seen result ≡ as_call (seen read.entry) }
{
    let (call, rest) = read?;
    Some((Event::Call(call), rest))
}

// An event that hands over no list, as a word names it.
fn plain_event_named<'a>(word: &[u8], rest: Rest<'a>) -> Option<(Event, Rest<'a>)>
    ensures { seen result ≡ plain_event_named word.now (words_behind rest.entry) }
{
    if is_word(word, "open") {
        open_at(rest)
    } else if is_word(word, "take") {
        take_at(rest)
    } else {
        as_event(call_named(word, rest))
    }
}

// An event, as a word names it.
fn event_named<'a>(
    alloc: Global,
    word: &[u8],
    rest: Rest<'a>,
) -> Result<Option<(Event, Rest<'a>)>, AllocError>
    ensures { IfOk result (λ read. seen read ≡ event_named word.now (words_behind rest.entry)) }
{
    if is_word(word, "write") {
        write_at(alloc, rest)
    } else if is_word(word, "reload") {
        reload_at(alloc, rest)
    } else {
        Ok(plain_event_named(word, rest))
    }
}

/// An event, with all that was handed to it.
pub fn event_at(alloc: Global, rest: Rest) -> Result<Option<(Event, Rest)>, AllocError>
    ensures { IfOk result (λ read. seen read ≡ event_at (words_behind rest.entry)) }
{
    match next_word(rest) {
        Some((word, rest)) => event_named(alloc, word, rest),
        None => Ok(None),
    }
}
