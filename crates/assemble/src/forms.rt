//! The forms of lines: each is read word by word, and comes to the lines of a script.

ghost use Rattle.std.specs.Prelude.{◌≡◌, ◌≤◌, ◌||◌, IfOk, IsTrue, true};
ghost use Rattle.aql_packet.specs.Layout.{is_well_formed};
ghost use Rattle.assemble.specs.Sizes.{AreGridSizes, AreGroupSizes};
ghost use Rattle.assemble.specs.Verbs.{begins_as_script};
ghost use Rattle.assemble.specs.Comments.{is_comment};
ghost use Rattle.words.specs.Lines.{words};

use crate::argument_lines::{args, put_block, read_named_block, read_place};
use crate::block::read_block;
use crate::book::{Book, KernelShape};
use crate::comments::is_comment;
use crate::fault::{Fault, LineError, Want};
use crate::operands::{
    Read, Sizes, address, fault_at, grid_sizes, group_sizes, kernel, keyword, next, number,
    numeral, signal,
};
use crate::options::{Options, PacketKind, is_option, read_options};
use crate::packets::{
    add_packet, all_of_packet, any_of_packet, copy_packet, dispatch_packet, fill_packet, put_packet,
};
use crate::places::Places;
use crate::spacing::put_word;
use crate::verbs::{Verb, is_of_script, nearest, verb_named};
use aql_packet::{Address, KernelObject, Packet, QueueId, SignalHandle};
use policy::Policy;
use script::Class;
use std::alloc::{AllocError, Global};
use words::{decimal, is_word, put_address, split_word};

/// The words of a line that name a queue and a producer.
#[derive(Clone, Copy)]
struct Seat<'a> {
    queue: &'a [u8],
    producer: &'a [u8],
}

// `Q P`
fn read_seat(line: &[u8]) -> Read<'_, Seat<'_>> {
    let (queue, rest) = numeral(line, Want::Queue)?;
    let (producer, rest) = numeral(rest, Want::Producer)?;
    Ok((Seat { queue, producer }, rest))
}

// `fill Q P ADDRESS length N with VALUE`, and options.
fn fill<'a>(policy: &Policy, line: &'a [u8]) -> Result<(Seat<'a>, Packet), Fault>
    ensures { IfOk result (λ read. IsTrue (is_well_formed read.1)) }
{
    let (seat, rest) = read_seat(line)?;
    let (start, rest) = address(policy, rest, Want::Address)?;
    let rest = keyword(rest, "length", Want::Length)?;
    let (length, rest) = number(rest)?;
    let rest = keyword(rest, "with", Want::With)?;
    let (value, rest) = number(rest)?;
    let said = read_options(policy, PacketKind::Agent, rest)?;
    Ok((seat, fill_packet(start, length, value, said)))
}

// `copy Q P ADDRESS to ADDRESS length N`, and options.
fn copy<'a>(policy: &Policy, line: &'a [u8]) -> Result<(Seat<'a>, Packet), Fault>
    ensures { IfOk result (λ read. IsTrue (is_well_formed read.1)) }
{
    let (seat, rest) = read_seat(line)?;
    let (from, rest) = address(policy, rest, Want::Address)?;
    let rest = keyword(rest, "to", Want::To)?;
    let (to, rest) = address(policy, rest, Want::Address)?;
    let rest = keyword(rest, "length", Want::Length)?;
    let (length, rest) = number(rest)?;
    let said = read_options(policy, PacketKind::Agent, rest)?;
    Ok((seat, copy_packet(from, to, length, said)))
}

// `add Q P NUMBER to ADDRESS`, and options.
fn add<'a>(policy: &Policy, line: &'a [u8]) -> Result<(Seat<'a>, Packet), Fault>
    ensures { IfOk result (λ read. IsTrue (is_well_formed read.1)) }
{
    let (seat, rest) = read_seat(line)?;
    let (amount, rest) = number(rest)?;
    let rest = keyword(rest, "to", Want::To)?;
    let (to, rest) = address(policy, rest, Want::Address)?;
    let said = read_options(policy, PacketKind::Agent, rest)?;
    Ok((seat, add_packet(amount, to, said)))
}

// The next signal that a barrier packet depends on: none where an option comes, or the end.
fn dependency<'a>(policy: &Policy, line: &'a [u8]) -> Read<'a, Option<SignalHandle>> {
    match split_word(line) {
        Some((word, _)) if !is_option(word) => {
            let (signal, rest) = signal(policy, line, Want::BarrierOption)?;
            Ok((Some(signal), rest))
        }
        _ => Ok((None, line)),
    }
}

// Up to five signals that a barrier packet depends on; what isn't named is the null signal.
fn dependencies<'a>(policy: &Policy, line: &'a [u8]) -> Read<'a, [SignalHandle; 5]> {
    let mut found = [SignalHandle(0); 5];
    let mut rest = line;
    for place in 0..5 {
        let (named, behind) = dependency(policy, rest)?;
        match named {
            Some(signal) => found[place] = signal,
            None => return Ok((found, behind)),
        }
        rest = behind;
    }
    match split_word(rest) {
        Some((word, _)) if !is_option(word) => Err(fault_at(rest, Want::FiveSignals)),
        _ => Ok((found, rest)),
    }
}

// `all-of Q P SIGNAL..`, and options.
fn all_of<'a>(policy: &Policy, line: &'a [u8]) -> Result<(Seat<'a>, Packet), Fault>
    ensures { IfOk result (λ read. IsTrue (is_well_formed read.1)) }
{
    let (seat, rest) = read_seat(line)?;
    let (dependencies, rest) = dependencies(policy, rest)?;
    let said = read_options(policy, PacketKind::Barrier, rest)?;
    Ok((seat, all_of_packet(dependencies, said)))
}

// `any-of Q P SIGNAL..`, and options.
fn any_of<'a>(policy: &Policy, line: &'a [u8]) -> Result<(Seat<'a>, Packet), Fault>
    ensures { IfOk result (λ read. IsTrue (is_well_formed read.1)) }
{
    let (seat, rest) = read_seat(line)?;
    let (dependencies, rest) = dependencies(policy, rest)?;
    let said = read_options(policy, PacketKind::Barrier, rest)?;
    Ok((seat, any_of_packet(dependencies, said)))
}

// Puts what a packet's line comes to behind a text.
fn put_form(out: &mut Vec<u8>, read: Result<(Seat<'_>, Packet), Fault>) -> Result<(), LineError>
    requires { IfOk read (λ found. IsTrue (is_well_formed found.1)) }
{
    let (seat, packet) = read?;
    Ok(put_packet(out, seat.queue, seat.producer, &packet)?)
}

// The client whom a dispatch names in front of its queue: none where the queue's number comes first.
fn writer<'a>(policy: &Policy, line: &'a [u8]) -> Read<'a, Option<&'a [u8]>> {
    let (word, rest) = next(line, Want::ClientOrQueue)?;
    if numeral(line, Want::ClientOrQueue).is_ok() {
        return Ok((None, line));
    }
    if policy.client_named(word).0 == 0 {
        return Err(fault_at(line, Want::ClientOrQueue));
    }
    Ok((Some(word), rest))
}

/// What a dispatch says before its arguments.
#[derive(Clone, Copy)]
struct Front<'a> {
    writer: Option<&'a [u8]>,
    seat: Seat<'a>,
    kernel: KernelObject,
    // The line from the kernel's name on.
    named: &'a [u8],
    grid: Sizes,
    group: Sizes,
}

// `CLIENT? Q P KERNEL grid SIZES group SIZES`
fn read_front<'a>(policy: &Policy, line: &'a [u8]) -> Read<'a, Front<'a>>
    ensures grid { IfOk result (λ read. AreGridSizes read.0.grid) }
    ensures group { IfOk result (λ read. AreGroupSizes read.0.group) }
{
    let (writer, rest) = writer(policy, line)?;
    let (seat, named) = read_seat(rest)?;
    let (kernel, rest) = kernel(policy, named)?;
    let rest = keyword(rest, "grid", Want::Grid)?;
    let (grid, rest) = grid_sizes(rest)?;
    let rest = keyword(rest, "group", Want::Group)?;
    let (group, rest) = group_sizes(rest, grid.count)?;
    Ok((
        Front {
            writer,
            seat,
            kernel,
            named,
            grid,
            group,
        },
        rest,
    ))
}

// Puts the line that submits a dispatch behind a text.
fn put_dispatch(
    out: &mut Vec<u8>,
    front: Front<'_>,
    shape: &KernelShape,
    said: Options,
) -> Result<(), AllocError>
    requires grid { AreGridSizes front.grid }
    requires group { AreGroupSizes front.group }
{
    let bytes = said.group_bytes.unwrap_or(shape.group_bytes);
    let packet = dispatch_packet(front.kernel, front.grid, front.group, bytes, said);
    put_packet(out, front.seat.queue, front.seat.producer, &packet)
}

// The rest of a dispatch with `arguments`; `line` begins with that word.
fn with_arguments(
    alloc: Global,
    book: &Book,
    places: &mut Places,
    front: Front<'_>,
    shape: &KernelShape,
    line: &[u8],
    out: &mut Vec<u8>,
) -> Result<(), LineError>
    requires grid { AreGridSizes front.grid }
    requires group { AreGroupSizes front.group }
{
    let (_, values) = next(line, Want::DispatchOption)?;
    let Some(writer) = front.writer else {
        return Err(LineError::Fault(fault_at(line, Want::Writer)));
    };
    let (bytes, rest) = read_block(alloc, &book.policy, shape.arguments.as_slice(), values)?;
    let said = read_options(&book.policy, PacketKind::Dispatch, rest)?;
    match said.block {
        Some(place) => {
            places.take(place, bytes.len())?;
            put_block(out, writer, place, bytes.as_slice())?
        }
        None if bytes.is_empty() => {}
        None => return Err(LineError::Fault(fault_at(&[], Want::At))),
    }
    Ok(put_dispatch(out, front, shape, said)?)
}

// The rest of a dispatch with `args`; `line` begins with that word.
fn with_named_arguments(
    alloc: Global,
    book: &Book,
    places: &mut Places,
    front: Front<'_>,
    shape: &KernelShape,
    line: &[u8],
    out: &mut Vec<u8>,
) -> Result<(), LineError>
    requires grid { AreGridSizes front.grid }
    requires group { AreGroupSizes front.group }
{
    let (_, behind) = next(line, Want::DispatchOption)?;
    let Some(writer) = front.writer else {
        return Err(LineError::Fault(fault_at(line, Want::Writer)));
    };
    let (place, named) = read_place(&book.policy, places, behind)?;
    let (bytes, rest) = read_named_block(alloc, &book.policy, shape, named)?;
    let said = read_options(&book.policy, PacketKind::Dispatch, rest)?;
    let place = said.block.unwrap_or(place);
    places.take(place, bytes.len())?;
    put_block(out, writer, place, bytes.as_slice())?;
    let block = Some(place);
    Ok(put_dispatch(out, front, shape, Options { block, ..said })?)
}

// Whether a line goes on with a word.
fn goes_on_with(line: &[u8], spelled: &str) -> bool {
    match split_word(line) {
        Some((word, _)) => is_word(word, spelled),
        None => false,
    }
}

// `dispatch CLIENT? Q P KERNEL grid SIZES group SIZES`, perhaps `arguments VALUE..` or `args PLACE NAME=VALUE ..`, and
// options.
fn dispatch(
    alloc: Global,
    book: &Book,
    places: &mut Places,
    line: &[u8],
    out: &mut Vec<u8>,
) -> Result<(), LineError> {
    let (front, rest) = read_front(&book.policy, line)?;
    let Some(shape) = book.shape(front.kernel) else {
        return Err(LineError::Fault(fault_at(front.named, Want::Entry)));
    };
    if goes_on_with(rest, "arguments") {
        return with_arguments(alloc, book, places, front, shape, rest, out);
    }
    if goes_on_with(rest, "args") {
        return with_named_arguments(alloc, book, places, front, shape, rest, out);
    }
    let said = read_options(&book.policy, PacketKind::Dispatch, rest)?;
    Ok(put_dispatch(out, front, shape, said)?)
}

// Puts what a readable line comes to behind a text, by its verb and what stands behind it. A drain and a state come to no lines.
fn put_readable(
    alloc: Global,
    book: &Book,
    places: &mut Places,
    verb: Verb,
    line: &[u8],
    out: &mut Vec<u8>,
) -> Result<Turned, LineError>
    ensures { IfOk result (λ turned. turned ≡ Turned.Itself → ⊥) }
{
    match verb {
        Verb::Args => args(alloc, book, places, line, out)?,
        Verb::Dispatch => dispatch(alloc, book, places, line, out)?,
        Verb::Fill => put_form(out, fill(&book.policy, line))?,
        Verb::Copy => put_form(out, copy(&book.policy, line))?,
        Verb::Add => put_form(out, add(&book.policy, line))?,
        Verb::AllOf => put_form(out, all_of(&book.policy, line))?,
        Verb::AnyOf => put_form(out, any_of(&book.policy, line))?,
        Verb::Drain => return Ok(Turned::Drain(read_drain(line)?)),
        Verb::State => return Ok(read_state(line)?),
    }
    Ok(Turned::Lines)
}

// `drain Q?`: the queue, if one is named.
fn read_drain(line: &[u8]) -> Result<Option<QueueId>, Fault> {
    let Some((word, rest)) = split_word(line) else {
        return Ok(None);
    };
    match decimal(word) {
        None => Err(fault_at(line, Want::QueueOrEnd)),
        Some(_) if split_word(rest).is_some() => Err(fault_at(rest, Want::EndOfLine)),
        Some(queue) => Ok(Some(QueueId(queue))),
    }
}

// `state`.
fn read_state(line: &[u8]) -> Result<Turned, Fault>
    ensures { IfOk result (λ turned. turned ≡ Turned.Itself → ⊥) }
{
    if split_word(line).is_some() {
        return Err(fault_at(line, Want::EndOfLine));
    }
    Ok(Turned::State)
}

// The address of a line of a script that doesn't stand there in digits, and what stands behind it.
fn named_address<'a>(
    policy: &Policy,
    line: &'a [u8],
) -> Result<Option<(Address, &'a [u8])>, Fault> {
    match split_word(line) {
        Some((word, _)) if !Class::Address.has(word) => {
            let (place, rest) = address(policy, line, Want::LineAddress)?;
            Ok(Some((place, rest)))
        }
        _ => Ok(None),
    }
}

// Puts a line of a verb, a client, an address and what stands behind it behind a text.
fn put_addressed(
    out: &mut Vec<u8>,
    verb: &[u8],
    client: &[u8],
    place: Address,
    rest: &[u8],
) -> Result<(), AllocError> {
    put_word(out, verb)?;
    put_word(out, client)?;
    put_address(out, place)?;
    out.extend_from_slice(rest)?;
    Ok(out.push(b'\n')?)
}

// Puts `read CLIENT ADDRESS N` or `write CLIENT ADDRESS BYTES` behind a text, with the digits of an address that stands
// there by a region's name or as a number.
fn put_access(
    policy: &Policy,
    verb: &[u8],
    line: &[u8],
    out: &mut Vec<u8>,
) -> Result<Turned, LineError>
    ensures { IfOk result (λ turned. turned ≡ Turned.Itself → out.new.items ≡ out.old.items) }
{
    let Some((client, behind)) = split_word(line) else {
        return Ok(Turned::Itself);
    };
    match named_address(policy, behind)? {
        None => Ok(Turned::Itself),
        Some((place, rest)) => {
            put_addressed(out, verb, client, place, rest)?;
            Ok(Turned::Lines)
        }
    }
}

/// What a line comes to.
#[derive(Clone, Copy, Debug, PartialEq, Eq)]
pub enum Turned {
    /// Itself: it is a line that a script may have, or it has no word.
    Itself,
    /// Lines of a script, which were put behind a text.
    Lines,
    /// No line of a script: a queue is to be drained, or all are.
    Drain(Option<QueueId>),
    /// No line of a script: what there is is to be told.
    State,
}

/// Puts the lines that a line comes to behind a text, and tells what it comes to. The places are those of
/// the argument blocks of the lines before. A line that comes to itself puts nothing there, and is a comment, has no word, or begins with a word that a script's line may begin with.
pub fn put_lines(
    alloc: Global,
    book: &Book,
    places: &mut Places,
    line: &[u8],
    out: &mut Vec<u8>,
) -> Result<Turned, LineError>
    ensures kept { IfOk result (λ turned. turned ≡ Turned.Itself → out.new.items ≡ out.old.items) }
    ensures verb { IfOk result (λ turned. turned ≡ Turned.Itself → (is_comment line.now || begins_as_script (words line.now)) ≡ true) }
{
    if is_comment(line) {
        return Ok(Turned::Itself);
    }
    let Some((word, rest)) = split_word(line) else {
        return Ok(Turned::Itself);
    };
    if let Some(verb) = verb_named(word) {
        return put_readable(alloc, book, places, verb, rest, out);
    }
    if !is_of_script(word) {
        let nearest = nearest(alloc, word)?;
        return Err(LineError::Fault(fault_at(line, Want::Verb(nearest))));
    }
    if is_word(word, "read") || is_word(word, "write") {
        return put_access(&book.policy, word, rest, out);
    }
    Ok(Turned::Itself)
}
