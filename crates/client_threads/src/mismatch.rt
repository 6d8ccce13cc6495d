//! Where what the core took of a queue and what its lane served differ.

ghost use Rattle.std.specs.Prelude.{◌≡◌, ◌≢◌, ℕ, ◌<◌, ◌≤◌, ◌∷◌, ◌++◌, Some, None, IfOk, IfErr, length, slice_get, true, false, []};
ghost use Rattle.std.specs.Option.{IfSome, IfNone, option_copied};
ghost use Rattle.core_model.specs.Rotation.{entries_in};
ghost use Rattle.client_threads.specs.HandedOver.{AreSettledWith, kept_by};
ghost use Rattle.client_threads.specs.inner.Partings.{HandedBy, PartsBefore};
ghost use Rattle.client_threads.specs.Takes.{AllAgree, DiffersAt, IsLeastMismatch, lane_at, served_by, taken_by, takes};

use crate::lane::Lane;
use crate::settled_parts::SettledParts;
use aql_packet::{PacketId, QueueId};
use core_model::{Entry, Event, Part, Served};

// The packet of a queue that an entry says was handed over, if it does.
fn taken(entry: &Entry, queue: QueueId) -> Option<Served>
    ensures { result ≡ taken_by queue.0 entry.now.event }
{
    match &entry.event {
        Event::Take {
            queue: of,
            packet,
            bytes,
        } => {
            if of.0 == queue.0 {
                let id = *packet;
                let bytes = *bytes;
                Some(Served { id, bytes })
            } else {
                None
            }
        }
        _ => None,
    }
}

// Whether two served packets are the same.
fn is_same(one: &Served, other: &Served) -> bool
    ensures same { result ≡ true → one.now ≡ other.now }
    ensures differ { result ≡ false → one.now ≢ other.now }
{
    one.id.0 == other.id.0 && one.bytes == other.bytes
}

// What is left behind a packet, if that comes first.
fn behind<'a>(left: &'a [Served], one: &Served) -> Option<&'a [Served]>
    ensures some { IfSome result (λ more. left.now ≡ one.now ∷ more.now) }
    ensures none { IfNone result (slice_get left.now 0 ≢ Some one.now) }
{
    match left.split_first() {
        None => None,
        Some((first, more)) => {
            if is_same(first, one) {
                Some(more)
            } else {
                None
            }
        }
    }
}

// Goes through entries, and what they say was taken of a queue: what is left of what was served, behind all of it
// or from where they part on.
#[tactic(auto, using(crate::proofs::Differences::skip, crate::proofs::Differences::more, crate::proofs::Differences::parts_here, crate::proofs::Differences::all_alike))]
fn go_through<'a>(
    entries: &[Entry],
    queue: QueueId,
    served: &'a [Served],
) -> Result<&'a [Served], &'a [Served]>
    ensures same { IfOk result (λ left. served.now ≡ takes entries.now queue.0 ++ left.now) }
    ensures parts { IfErr result (λ left. PartsBefore (takes entries.now queue.0) served.now left.now) }
{
    let mut left = served;
    for entry in entries {
        if let Some(one) = taken(entry, queue) {
            match behind(left, &one) {
                None => return Err(left),
                Some(more) => left = more,
            }
        }
    }
    Ok(left)
}

// Goes through the entries of parts in order, just so.
#[tactic(auto, using(crate::proofs::Differences::part_behind, crate::proofs::Differences::part_parts, crate::proofs::Differences::parts_behind))]
fn go_through_parts<'a>(
    parts: &[Part],
    queue: QueueId,
    served: &'a [Served],
) -> Result<&'a [Served], &'a [Served]>
    ensures same { IfOk result (λ left. served.now ≡ takes (entries_in parts.now) queue.0 ++ left.now) }
    ensures parts { IfErr result (λ left. PartsBefore (takes (entries_in parts.now) queue.0) served.now left.now) }
{
    let mut left = served;
    for part in parts {
        match go_through(part.entries(), queue, left) {
            Err(rest) => return Err(rest),
            Ok(rest) => left = rest,
        }
    }
    Ok(left)
}

// Goes through the entries of parts and then through others, just so.
#[tactic(auto, using(crate::proofs::Differences::same_behind, crate::proofs::Differences::parts_early, crate::proofs::Differences::parts_late))]
fn go_through_all<'a>(
    parts: &[Part],
    entries: &[Entry],
    queue: QueueId,
    served: &'a [Served],
) -> Result<&'a [Served], &'a [Served]>
    ensures same { IfOk result (λ left. served.now ≡ takes (entries_in parts.now ++ entries.now) queue.0 ++ left.now) }
    ensures parts { IfErr result (λ left. PartsBefore (takes (entries_in parts.now ++ entries.now) queue.0) served.now left.now) }
{
    match go_through_parts(parts, queue, served) {
        Err(left) => Err(left),
        Ok(left) => go_through(entries, queue, left),
    }
}

// The first place at which what all entries say was taken of a queue and what was served differ.
#[tactic(auto, using(crate::proofs::Differences::differs_there, crate::proofs::Differences::differs_at_end, crate::proofs::Differences::same_at_end))]
fn first_difference(
    parts: &[Part],
    entries: &[Entry],
    queue: QueueId,
    served: &[Served],
) -> Option<u64>
    ensures same { IfNone result (takes (entries_in parts.now ++ entries.now) queue.0 ≡ served.now) }
    ensures differs { IfSome result (λ place. DiffersAt (takes (entries_in parts.now ++ entries.now) queue.0) served.now place) }
    ensures within { IfSome result (λ place. place ≤ length served.now) }
{
    match go_through_all(parts, entries, queue, served) {
        Err(left) => Some((served.len() - left.len()) as u64),
        Ok(left) => {
            if left.is_empty() {
                None
            } else {
                Some((served.len() - left.len()) as u64)
            }
        }
    }
}

// The lane of a queue, if there is one.
pub(crate) fn find_lane(lanes: &[Lane], queue: QueueId) -> Option<&Lane>
    ensures { option_copied result ≡ lane_at queue.0 lanes.now }
{
    lanes.iter().find(|lane| lane.queue().0 == queue.0)
}

// What the lane of a queue keeps; of a queue without a lane, nothing.
fn kept_by(lanes: &[Lane], queue: QueueId) -> &[Served]
    ensures { result.now ≡ kept_by lanes.now queue.0 }
{
    match find_lane(lanes, queue) {
        None => &[],
        Some(lane) => lane.served(),
    }
}

// How many packets the lane of a queue handed over; of a queue without a lane, none.
#[tactic(auto, using(crate::proofs::HandingOver::handed_none, crate::proofs::HandingOver::handed_some))]
fn handed_by(lanes: &[Lane], queue: QueueId) -> u64
    ensures { HandedBy lanes.now queue.0 result }
{
    match find_lane(lanes, queue) {
        None => 0,
        Some(lane) => lane.handed(),
    }
}

// The first id at which what all entries say was taken of a queue and what its lane served differ.
#[tactic(auto, using(crate::proofs::HandingOver::id_fits, crate::proofs::HandingOver::differs_in_all, crate::proofs::HandingOver::same_in_all))]
fn first_id(
    settled: &SettledParts,
    parts: &[Part],
    entries: &[Entry],
    lanes: &[Lane],
    queue: QueueId,
) -> Option<PacketId>
    requires settled { AreSettledWith settled.now lanes.now }
    ensures same { IfNone result (takes (entries_in settled.now ++ (entries_in parts.now ++ entries.now)) queue.0 ≡ served_by lanes.now queue.0) }
    ensures differs { IfSome result (λ id. DiffersAt (takes (entries_in settled.now ++ (entries_in parts.now ++ entries.now)) queue.0) (served_by lanes.now queue.0) id.0) }
{
    let handed = handed_by(lanes, queue);
    match first_difference(parts, entries, queue, kept_by(lanes, queue)) {
        None => None,
        Some(place) => Some(PacketId(handed + place)),
    }
}

// The least queue, and there the least id, at which what was taken and what was served differ. No packet was
// taken or served of a queue behind the last.
fn least_mismatch(
    settled: &SettledParts,
    parts: &[Part],
    entries: &[Entry],
    lanes: &[Lane],
    last: u64,
) -> Option<(QueueId, PacketId)>
    requires settled { AreSettledWith settled.now lanes.now }
    requires last { (queue : ℕ) → last < queue → takes (entries_in settled.now ++ (entries_in parts.now ++ entries.now)) queue ≡ served_by lanes.now queue }
    ensures same { IfNone result (AllAgree (entries_in settled.now ++ (entries_in parts.now ++ entries.now)) lanes.now) }
    ensures least { IfSome result (λ found. IsLeastMismatch (entries_in settled.now ++ (entries_in parts.now ++ entries.now)) lanes.now found.0.0 found.1.0) }
{
    for queue in 0..=last {
        if let Some(id) = first_id(settled, parts, entries, lanes, QueueId(queue)) {
            return Some((QueueId(queue), id));
        }
    }
    None
}

// The greater number.
fn greater(one: u64, other: u64) -> u64
    ensures first { one ≤ result }
    ensures second { other ≤ result }
{
    if one < other { other } else { one }
}

// The number of the queue of which an entry says that a packet was taken, or 0.
fn queue_taken(entry: &Entry) -> u64
    ensures { (queue : ℕ) → result < queue → taken_by queue entry.now.event ≡ None }
{
    match &entry.event {
        Event::Take { queue, .. } => queue.0,
        _ => 0,
    }
}

// A number above which no queue has a packet that was taken.
#[tactic(auto, using(crate::proofs::Lasts::none_taken))]
fn last_taken(entries: &[Entry]) -> u64
    ensures { (queue : ℕ) → result < queue → takes entries.now queue ≡ [] }
{
    let mut last = 0;
    for entry in entries {
        let queue = queue_taken(entry);
        if last < queue {
            last = queue;
        }
    }
    last
}

// The same, of the entries of parts.
#[tactic(auto, using(crate::proofs::Lasts::none_taken_in))]
fn last_taken_in(parts: &[Part]) -> u64
    ensures { (queue : ℕ) → result < queue → takes (entries_in parts.now) queue ≡ [] }
{
    let mut last = 0;
    for part in parts {
        last = greater(last, last_taken(part.entries()));
    }
    last
}

// A number above which no queue has a lane.
fn last_kept(lanes: &[Lane]) -> u64
    ensures { (queue : ℕ) → result < queue → kept_by lanes.now queue ≡ [] }
{
    let mut last = 0;
    for lane in lanes {
        let queue = lane.queue().0;
        if last < queue {
            last = queue;
        }
    }
    last
}

// A number above which no packet of a queue was taken by these parts and entries, or is kept.
#[tactic(auto, using(crate::proofs::Lasts::none_at_all))]
fn last_queue(parts: &[Part], entries: &[Entry], lanes: &[Lane]) -> u64
    ensures { (queue : ℕ) → result < queue → takes (entries_in parts.now ++ entries.now) queue ≡ kept_by lanes.now queue }
{
    let taken = greater(last_taken_in(parts), last_taken(entries));
    greater(taken, last_kept(lanes))
}

// The least queue, and there the least id, at which what was taken, by the parts that are settled, the entries of
// parts behind them and then others, and what was served differ. What lanes keep is compared: what they handed over
// was.
#[tactic(auto, using(crate::proofs::HandingOver::none_behind))]
pub(crate) fn find_mismatch(
    settled: &SettledParts,
    parts: &[Part],
    entries: &[Entry],
    lanes: &[Lane],
) -> Option<(QueueId, PacketId)>
    requires settled { AreSettledWith settled.now lanes.now }
    ensures same { IfNone result (AllAgree (entries_in settled.now ++ (entries_in parts.now ++ entries.now)) lanes.now) }
    ensures least { IfSome result (λ found. IsLeastMismatch (entries_in settled.now ++ (entries_in parts.now ++ entries.now)) lanes.now found.0.0 found.1.0) }
{
    let last = last_queue(parts, entries, lanes);
    least_mismatch(settled, parts, entries, lanes, last)
}
