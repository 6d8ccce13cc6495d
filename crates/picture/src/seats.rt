//! In which rows of their queues' lanes packets in flight stand.

ghost use Rattle.std.specs.Prelude.{◌≡◌, OnOk, IfOk, [], find, not};
ghost use Rattle.std.specs.Option.{option_copied, option_map};
ghost use Rattle.aql_packet.specs.Reading.{decoded};
ghost use Rattle.core_model.specs.Flight.{launched_by};
ghost use Rattle.picture.specs.Seats.{is_release, releases, is_taken, free_row, seat_of, row_at, with_seat, seats_with, seats_left, seats_after, seats_of};

use aql_packet::{PacketId, QueueId, decode};
use core_model::{Effect, Entry, Event, InFlight, Outcome, PacketOrigin, Taken};
use std::alloc::{AllocError, Global};

/// A packet in flight, and the row of its queue's lane in which it stands.
#[derive(Clone, Copy)]
pub struct Seat {
    pub flying: InFlight,
    pub row: u8,
}

// The rows of a lane, from the top: one for each packet of its queue that may be in flight.
const ROWS: [u8; 8] = [0, 1, 2, 3, 4, 5, 6, 7];

// Whether a change releases a packet.
fn is_release(effect: &Effect, queue: QueueId, packet: PacketId) -> bool
    ensures { result ≡ is_release queue packet effect.now }
{
    match effect {
        Effect::Release {
            queue: of,
            packet: released,
        } => of.0 == queue.0 && released.0 == packet.0,
        _ => false,
    }
}

/// Whether an entry releases a packet.
pub(crate) fn releases(entry: &Entry, queue: QueueId, packet: PacketId) -> bool
    ensures { result ≡ releases queue packet entry.now }
{
    entry
        .effects
        .as_slice()
        .iter()
        .any(|effect| is_release(effect, queue, packet))
}

// Whether a packet stands in a row of a queue's lane.
fn is_taken(seats: &[Seat], queue: QueueId, row: u8) -> bool
    ensures { result ≡ is_taken seats.now queue row }
{
    seats
        .iter()
        .any(|seat| seat.flying.queue.0 == queue.0 && seat.row == row)
}

// The first of some rows of a queue's lane in which no packet stands.
fn first_free<'r>(seats: &[Seat], queue: QueueId, rows: &'r [u8]) -> Option<&'r u8>
    ensures { option_copied result ≡ find (λ row. not (is_taken seats.now queue row)) rows.now }
{
    rows.iter().find(|row| !is_taken(seats, queue, **row))
}

/// The first row of a queue's lane in which no packet stands.
pub(crate) fn free_row(seats: &[Seat], queue: QueueId) -> u8
    ensures { result ≡ free_row seats.now queue }
{
    match first_free(seats, queue, &ROWS) {
        Some(row) => *row,
        None => 0,
    }
}

/// A packet's seat, if it is in flight.
pub(crate) fn seat_of(seats: &[Seat], queue: QueueId, packet: PacketId) -> Option<&Seat>
    ensures { option_copied result ≡ seat_of seats.now queue packet }
{
    seats.iter().find(|seat| seat.flying.queue.0 == queue.0 && seat.flying.id.0 == packet.0)
}

/// The row of a packet.
pub(crate) fn row_at(seats: &[Seat], queue: QueueId, packet: PacketId) -> u8
    ensures { result ≡ row_at seats.now queue packet }
{
    match seat_of(seats, queue, packet) {
        Some(seat) => seat.row,
        None => 0,
    }
}

// The packet of these bytes, in flight.
#[tactic(auto, using(crate::proofs::Packets::refused))]
fn flying(queue: QueueId, id: PacketId, bytes: &[u8; 64]) -> Option<InFlight>
    ensures { result ≡ option_map (λ packet. record { queue = queue; id = id; packet = packet }) (decoded bytes.now) }
{
    match decode(bytes) {
        Ok(packet) => Some(InFlight { queue, id, packet }),
        Err(_) => None,
    }
}

// The packet that an entry launches, if it launches one.
fn launched_by(entry: &Entry) -> Option<InFlight>
    ensures { result ≡ launched_by entry.now.event entry.now.outcome }
{
    match &entry.event {
        Event::Take {
            queue,
            packet,
            bytes,
        } => match &entry.outcome {
            Outcome::Taken(Taken::Launched) => flying(*queue, *packet, bytes),
            _ => None,
        },
        _ => None,
    }
}

// Seats a packet in the first row that is free.
fn put_seat(seats: &mut Vec<Seat>, flying: InFlight) -> Result<(), AllocError>
    ensures { OnOk result (seats.new.items ≡ with_seat seats.old.items flying) }
{
    let row = free_row(seats.as_slice(), flying.queue);
    let seat = Seat { flying, row };
    Ok(seats.push(seat)?)
}

// Seats a packet, if there is one.
fn put_launched(seats: &mut Vec<Seat>, launched: Option<InFlight>) -> Result<(), AllocError>
    ensures { OnOk result (seats.new.items ≡ seats_with seats.old.items launched) }
{
    match launched {
        Some(flying) => put_seat(seats, flying),
        None => Ok(()),
    }
}

// Drops the seats of packets that an entry releases.
fn drop_released(seats: &mut Vec<Seat>, entry: &Entry)
    ensures { seats.new.items ≡ seats_left seats.old.items entry.now }
{
    seats.retain(|seat| !releases(entry, seat.flying.queue, seat.flying.id));
}

/// Goes on behind an entry: the packet that it launches gets a seat, and those that it releases leave theirs.
pub(crate) fn pass_seats(seats: &mut Vec<Seat>, entry: &Entry) -> Result<(), AllocError>
    ensures { OnOk result (seats.new.items ≡ seats_after seats.old.items entry.now) }
{
    put_launched(seats, launched_by(entry))?;
    drop_released(seats, entry);
    Ok(())
}

/// The seats of packets with which an audit begins.
pub(crate) fn seats_of(alloc: Global, packets: &[PacketOrigin]) -> Result<Vec<Seat>, AllocError>
    ensures { IfOk result (λ seats. seats.items ≡ seats_of [] packets.now) }
{
    let mut seats = Vec::new(alloc);
    'packets: for index in 0..packets.len() {
        let packet = &packets[index];
        put_seat(&mut seats, packet.flying)?;
    }
    Ok(seats)
}
