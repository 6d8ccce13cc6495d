//! Which queues have a lane, from the top, and how many rows each needs.

ghost use Rattle.std.specs.Prelude.{◌≡◌, ◌==◌, ◌++◌, ◌∷◌, [], OnOk, IfOk};
ghost use Rattle.picture.specs.Lanes.{lane_for, place_of, deeper, deepened, without, lanes_behind, lanes_after, lanes_in, lanes_of, lanes_from};
ghost use Rattle.picture.specs.Reading.{greater};

use crate::element::Lane;
use crate::reading::{opened, spot_of};
use crate::seats::{Seat, pass_seats};
use core_model::{Call, Entry, Event, Outcome, QueueOrigin};
use sequences::Sequence;
use std::alloc::{AllocError, Global};

// The greater of two numbers.
fn greater(a: u8, b: u8) -> u8
    ensures { result ≡ greater a b }
{
    if a < b { b } else { a }
}

// A queue's lane, of one row.
fn lane_for(queue: u64) -> Lane
    ensures { result ≡ lane_for queue }
{
    Lane { queue, depth: 0 }
}

// Whether a lane is a queue's.
fn is_lane_of(lane: &Lane, queue: u64) -> bool
    ensures { result ≡ (lane.now.queue == queue) }
{
    lane.queue == queue
}

/// The place of a queue's lane among these, from 0; how many there are, where it has none.
pub(crate) fn place_of(lanes: &[Lane], queue: u64) -> usize
    ensures { result ≡ place_of lanes.now queue }
{
    'lanes: for index in 0..lanes.len() {
        let lane = &lanes[index];
        if is_lane_of(lane, queue) {
            return index;
        }
    }
    lanes.len()
}

// A lane as deep as a row, where it isn't as deep.
fn deeper(lane: Lane, row: u8) -> Lane
    ensures { result ≡ deeper lane row }
{
    Lane {
        queue: lane.queue,
        depth: greater(lane.depth, row),
    }
}

// Deepens the lane of a queue to a row, where it isn't as deep.
fn deepen(lanes: &mut Sequence<Lane>, queue: u64, row: u8)
    ensures { lanes.new ≡ deepened lanes.old queue row }
{
    let place = place_of(lanes.as_slice(), queue);
    if let Some(lane) = lanes.get(place) {
        let lane = deeper(*lane, row);
        lanes.set(place, lane);
    }
}

// Drops the lane of a queue.
fn drop_lane(lanes: &mut Sequence<Lane>, queue: u64)
    ensures { lanes.new ≡ without lanes.old queue }
{
    let place = place_of(lanes.as_slice(), queue);
    if place < lanes.len() {
        lanes.remove(place);
    }
}

// Puts the lane of a queue behind others.
fn put_lane(lanes: &mut Sequence<Lane>, queue: u64) -> Result<(), AllocError>
    ensures { OnOk result (lanes.new ≡ lanes.old ++ lane_for queue ∷ []) }
{
    Ok(lanes.push(lane_for(queue))?)
}

// Goes on behind an event: a queue that it opens gets a lane, and one that it closes loses its own, where it isn't drawn.
fn pass_event(
    lanes: &mut Sequence<Lane>,
    is_drawn: bool,
    event: &Event,
    outcome: &Outcome,
) -> Result<(), AllocError>
    ensures { OnOk result (lanes.new ≡ lanes_behind is_drawn lanes.old event.now outcome.now) }
{
    match event {
        Event::Open { .. } => put_lane(lanes, opened(outcome).0),
        Event::Call(Call::Close { queue }) => {
            if !is_drawn {
                drop_lane(lanes, queue.0);
            }
            Ok(())
        }
        _ => Ok(()),
    }
}

// Goes on behind an entry, before which packets have these seats.
fn pass_lanes(
    lanes: &mut Sequence<Lane>,
    is_drawn: bool,
    seats: &[Seat],
    entry: &Entry,
) -> Result<(), AllocError>
    ensures { OnOk result (lanes.new ≡ lanes_after is_drawn lanes.old seats.now entry.now) }
{
    let spot = spot_of(seats, 0, entry);
    deepen(lanes, spot.lane, spot.row);
    pass_event(lanes, is_drawn, &entry.event, &entry.outcome)
}

// Deepens lanes to the rows that seats are in.
fn deepen_by_seats(lanes: &mut Sequence<Lane>, seats: &[Seat])
    ensures { lanes.new ≡ lanes_of lanes.old seats.now }
{
    'seats: for index in 0..seats.len() {
        let seat = &seats[index];
        deepen(lanes, seat.flying.queue.0, seat.row);
    }
}

/// Goes on behind entries, of which so many aren't drawn, and before which packets have these seats.
pub(crate) fn pass_entries(
    lanes: &mut Sequence<Lane>,
    seats: Vec<Seat>,
    skipped: u32,
    entries: &[Entry],
) -> Result<(), AllocError>
    ensures { OnOk result (lanes.new ≡ lanes_in skipped 0 (lanes_of lanes.old seats.items) seats.items entries.now) }
{
    let mut seats = seats;
    deepen_by_seats(lanes, seats.as_slice());
    'entries: for index in 0..entries.len() {
        let entry = &entries[index];
        pass_lanes(lanes, skipped as usize <= index, seats.as_slice(), entry)?;
        pass_seats(&mut seats, entry)?;
    }
    Ok(())
}

/// The lanes of queues with which an audit begins.
pub(crate) fn lanes_from(
    alloc: Global,
    queues: &[QueueOrigin],
) -> Result<Sequence<Lane>, AllocError>
    ensures { IfOk result (λ lanes. lanes ≡ lanes_from queues.now) }
{
    let mut lanes = Sequence::new(alloc);
    for queue in queues {
        put_lane(&mut lanes, queue.queue.0)?;
    }
    Ok(lanes)
}
