//! What an entry is drawn as. This file alone speaks of events.

ghost use Rattle.std.specs.Prelude.{◌≡◌, ◌+◌, ◌<◌, ◌^◌, length, Some};
ghost use Rattle.picture.specs.Reading.{in_lane, in_row, at_hosts, opened, spot_of, ending_of, end_of, closes, close_of, work_of, sign_of_take, sign_of_work, sign_of_call, sign_of_poll, sign_of, reach_of, element_of, lane_from_start, stop_before, bar_from_start};
ghost use Rattle.aql_packet.specs.Reading.{decoded};

use crate::element::{Element, Ending, Sign, Spot, Work};
use crate::seats::{Seat, free_row, releases, row_at};
use aql_packet::{Packet, PacketId, QueueId, decode};
use core_model::{Call, Entry, Event, Opening, Outcome, Polled, Taken, Worked};

/// Where a sign ends, and how its packet ended.
#[derive(Clone, Copy)]
pub(crate) struct End {
    pub at: u32,
    pub ending: Ending,
}

// In the lane of a queue.
fn in_lane(at: u32, queue: QueueId) -> Spot
    ensures { result ≡ in_lane at queue }
{
    Spot {
        at,
        lane: queue.0,
        row: 0,
    }
}

// In a row of the lane of a queue.
fn in_row(at: u32, queue: QueueId, row: u8) -> Spot
    ensures { result ≡ in_row at queue row }
{
    Spot {
        at,
        lane: queue.0,
        row,
    }
}

// In the lane of the administrator and of clients.
fn at_hosts(at: u32) -> Spot
    ensures { result ≡ at_hosts at }
{
    Spot {
        at,
        lane: 0,
        row: 0,
    }
}

/// The queue that an opening opened.
pub(crate) fn opened(outcome: &Outcome) -> QueueId
    ensures { result ≡ opened outcome.now }
{
    match outcome {
        Outcome::Opened(queue) => *queue,
        _ => QueueId(0),
    }
}

/// Where an entry stands, by the seats before it.
pub(crate) fn spot_of(seats: &[Seat], at: u32, entry: &Entry) -> Spot
    ensures { result ≡ spot_of seats.now at entry.now }
{
    match &entry.event {
        Event::Open { .. } => in_lane(at, opened(&entry.outcome)),
        Event::Call(Call::Stop { queue }) | Event::Call(Call::Close { queue }) => {
            in_lane(at, *queue)
        }
        Event::Take { queue, .. } => in_row(at, *queue, free_row(seats, *queue)),
        Event::Call(Call::RunNext { queue, packet })
        | Event::Call(Call::Poll { queue, packet })
        | Event::Call(Call::Finish { queue, packet }) => {
            in_row(at, *queue, row_at(seats, *queue, *packet))
        }
        Event::Call(Call::Grant { .. })
        | Event::Call(Call::Revoke { .. })
        | Event::Reload { .. }
        | Event::Call(Call::HostWrite { .. })
        | Event::Call(Call::ChangeSignal { .. }) => at_hosts(at),
    }
}

// How a packet ended that an entry releases.
fn ending_of(event: &Event) -> Ending
    ensures { result ≡ ending_of event.now }
{
    match event {
        Event::Call(Call::Finish { .. }) => Ending::Finished,
        Event::Call(Call::RunNext { .. }) => Ending::Faulted,
        Event::Call(Call::Poll { .. }) => Ending::Failed,
        _ => Ending::Stopped,
    }
}

// The entry that ends a packet in flight, and how.
fn end_of(queue: QueueId, packet: PacketId, at: u32, after: &[Entry]) -> End
    requires { at + length after.now < 2 ^ 32 }
    ensures { result ≡ end_of queue packet at after.now }
{
    'entries: for index in 0..after.len() {
        let entry = &after[index];
        if releases(entry, queue, packet) {
            return End {
                at: at + index as u32 + 1,
                ending: ending_of(&entry.event),
            };
        }
    }
    End {
        at: at + after.len() as u32,
        ending: Ending::Open,
    }
}

/// Whether an event closes a queue.
pub(crate) fn closes(event: &Event, queue: QueueId) -> bool
    ensures { result ≡ closes queue event.now }
{
    match event {
        Event::Call(Call::Close { queue: closed }) => closed.0 == queue.0,
        _ => false,
    }
}

// The entry that closes a queue.
fn close_of(queue: QueueId, at: u32, after: &[Entry]) -> u32
    requires { at + length after.now < 2 ^ 32 }
    ensures { result ≡ close_of queue at after.now }
{
    'entries: for index in 0..after.len() {
        let entry = &after[index];
        if closes(&entry.event, queue) {
            return at + index as u32 + 1;
        }
    }
    at + after.len() as u32
}

// What a packet is, by its bytes.
#[tactic(auto, using(crate::proofs::Packets::refused))]
fn work_of(bytes: &[u8; 64]) -> Work
    ensures { result ≡ work_of (decoded bytes.now) }
{
    match decode(bytes) {
        Ok(packet) => work_in(&packet),
        Err(_) => Work::Agent(0),
    }
}

// What the hand-over of a packet is drawn as.
fn sign_of_take(packet: PacketId, bytes: &[u8; 64], ending: Ending, outcome: &Outcome) -> Sign
    ensures { result ≡ sign_of_take packet bytes.now ending outcome.now }
{
    match outcome {
        Outcome::Taken(Taken::Launched) => Sign::Bar {
            packet,
            work: work_of(bytes),
            ending,
        },
        Outcome::Taken(Taken::Denied(error)) => Sign::Denial(*error),
        _ => Sign::Nothing,
    }
}

// What the work of a group is drawn as.
fn sign_of_work(packet: PacketId, outcome: &Outcome) -> Sign
    ensures { result ≡ sign_of_work packet outcome.now }
{
    match outcome {
        Outcome::Worked(Worked::Ran { group, .. }) => Sign::Group {
            packet,
            group: *group,
        },
        Outcome::Worked(Worked::Faulted(error)) => Sign::Fault(*error),
        _ => Sign::Nothing,
    }
}

// What a poll is drawn as.
fn sign_of_poll(packet: PacketId, outcome: &Outcome) -> Sign
    ensures { result ≡ sign_of_poll packet outcome.now }
{
    match outcome {
        Outcome::Polled(Polled::Pending(seen)) => Sign::Look {
            packet,
            seen: *seen,
        },
        Outcome::Polled(Polled::Ready(seen)) => Sign::Look {
            packet,
            seen: *seen,
        },
        Outcome::Polled(Polled::Failed(error)) => Sign::Failure(*error),
        _ => Sign::Nothing,
    }
}

// What the entry of a call is drawn as.
fn sign_of_call(call: &Call, outcome: &Outcome) -> Sign
    ensures { result ≡ sign_of_call call.now outcome.now }
{
    match call {
        Call::Grant {
            client,
            object,
            rights,
        } => Sign::Grant {
            client: *client,
            object: *object,
            rights: *rights,
        },
        Call::Revoke {
            client,
            object,
            rights,
        } => Sign::Revocation {
            client: *client,
            object: *object,
            rights: *rights,
        },
        Call::Stop { .. } => Sign::Stop,
        Call::Close { .. } => Sign::Close,
        Call::RunNext { packet, .. } => sign_of_work(*packet, outcome),
        Call::Poll { packet, .. } => sign_of_poll(*packet, outcome),
        Call::Finish { packet, .. } => Sign::Completion(*packet),
        Call::HostWrite { client, .. } => Sign::Write(*client),
        Call::ChangeSignal { client, .. } => Sign::Change(*client),
    }
}

// What an entry is drawn as; `ending` is how its packet ended, if it launches one.
fn sign_of(ending: Ending, event: &Event, outcome: &Outcome) -> Sign
    ensures { result ≡ sign_of ending event.now outcome.now }
{
    match event {
        Event::Open { client, agent, .. } => Sign::Lane {
            queue: opened(outcome),
            client: *client,
            agent: *agent,
        },
        Event::Take { packet, bytes, .. } => sign_of_take(*packet, bytes, ending, outcome),
        Event::Call(call) => sign_of_call(call, outcome),
        Event::Reload { rows } => Sign::Reload {
            allows: rows.allows.len(),
            denies: rows.denies.len(),
        },
    }
}

// How far an entry's sign reaches.
fn reach_of(at: u32, event: &Event, outcome: &Outcome, after: &[Entry]) -> End
    requires { at + length after.now < 2 ^ 32 }
    ensures { result ≡ reach_of at event.now outcome.now after.now }
{
    match event {
        Event::Open { .. } => End {
            at: close_of(opened(outcome), at, after),
            ending: Ending::Open,
        },
        Event::Take { queue, packet, .. } => end_of(*queue, *packet, at, after),
        _ => End {
            at,
            ending: Ending::Open,
        },
    }
}

/// What is drawn of the entry at a place, from 1, behind these seats and before others.
pub(crate) fn element_of(seats: &[Seat], at: u32, entry: &Entry, after: &[Entry]) -> Element
    requires { at + length after.now < 2 ^ 32 }
    ensures { result ≡ element_of seats.now at entry.now after.now }
{
    let reach = reach_of(at, &entry.event, &entry.outcome, after);
    Element {
        spot: spot_of(seats, at, entry),
        until: reach.at,
        sign: sign_of(reach.ending, &entry.event, &entry.outcome),
    }
}

/// The lane of a queue with which an audit of these entries begins.
pub(crate) fn lane_from_start(entries: &[Entry], queue: QueueId, opening: Opening) -> Element
    requires { length entries.now < 2 ^ 32 }
    ensures { result ≡ lane_from_start entries.now queue opening }
{
    Element {
        spot: in_lane(0, queue),
        until: close_of(queue, 0, entries),
        sign: Sign::Lane {
            queue,
            client: opening.client,
            agent: opening.agent,
        },
    }
}

/// The stop of a queue that was stopped before.
pub(crate) fn stop_before(queue: QueueId) -> Element
    ensures { result ≡ stop_before queue }
{
    Element {
        spot: in_lane(0, queue),
        until: 0,
        sign: Sign::Stop,
    }
}

// What a packet is.
fn work_in(packet: &Packet) -> Work
    ensures { result ≡ work_of (Some packet.now) }
{
    match packet {
        Packet::Kernel(dispatch) => Work::Kernel(dispatch.kernel_object),
        Packet::Agent(dispatch) => Work::Agent(dispatch.function),
        Packet::BarrierAnd(_) => Work::BarrierAnd,
        Packet::BarrierOr(_) => Work::BarrierOr,
    }
}

/// The bar of a packet that is in flight from the start on.
pub(crate) fn bar_from_start(entries: &[Entry], seat: &Seat) -> Element
    requires { length entries.now < 2 ^ 32 }
    ensures { result ≡ bar_from_start entries.now seat.now }
{
    let queue = seat.flying.queue;
    let packet = seat.flying.id;
    let end = end_of(queue, packet, 0, entries);
    Element {
        spot: in_row(0, queue, seat.row),
        until: end.at,
        sign: Sign::Bar {
            packet,
            work: work_in(&seat.flying.packet),
            ending: end.ending,
        },
    }
}
