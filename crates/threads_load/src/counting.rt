//! What became of packets is counted in the audit.

ghost use Rattle.std.specs.Prelude.{◌≡◌, ◌==◌, ℕ, [], ◌++◌, ◌+◌, IfOk, List, OnOk, count_by};
ghost use Rattle.std.specs.List.{list_all};
ghost use Rattle.core_model.specs.declared.entry.Entry.{Entry};
ghost use Rattle.threads_load.specs.Counts.{AreCounts, are_finished, counts_at, is_completion, is_denial, is_denied, is_launch, is_launched, packet_counts};

use aql_packet::QueueId;
use core_model::{Call, Entry, Event, Outcome, Taken};
use std::alloc::{AllocError, Global};

/// How many packets of a queue were launched, finished and denied.
#[derive(Clone, Copy, Debug, PartialEq, Eq)]
pub struct PacketCounts {
    pub launched: usize,
    pub finished: usize,
    pub denied: usize,
}

// Whether a packet was launched.
fn is_launched(outcome: Outcome) -> bool
    ensures { result ≡ is_launched outcome }
{
    match outcome {
        Outcome::Taken(Taken::Launched) => true,
        _ => false,
    }
}

// Whether a packet was denied.
fn is_denied(outcome: Outcome) -> bool
    ensures { result ≡ is_denied outcome }
{
    match outcome {
        Outcome::Taken(Taken::Denied(_)) => true,
        _ => false,
    }
}

// Whether an entry tells that a packet of a queue was launched.
fn is_launch(queue: QueueId, entry: &Entry) -> bool
    ensures { result ≡ is_launch queue.0 entry.now }
{
    match &entry.event {
        Event::Take { queue: of, .. } => of.0 == queue.0 && is_launched(entry.outcome),
        _ => false,
    }
}

// Whether an entry tells that a packet of a queue was denied.
fn is_denial(queue: QueueId, entry: &Entry) -> bool
    ensures { result ≡ is_denial queue.0 entry.now }
{
    match &entry.event {
        Event::Take { queue: of, .. } => of.0 == queue.0 && is_denied(entry.outcome),
        _ => false,
    }
}

// Whether an entry tells that a packet of a queue was finished.
fn is_completion(queue: QueueId, entry: &Entry) -> bool
    ensures { result ≡ is_completion queue.0 entry.now }
{
    match &entry.event {
        Event::Call(Call::Finish { queue: of, .. }) => of.0 == queue.0,
        _ => false,
    }
}

// How many packets of a queue were launched.
fn launches(audit: &[Entry], queue: QueueId) -> usize
    ensures { result ≡ count_by (is_launch queue.0) audit.now }
{
    audit.iter().filter(|entry| is_launch(queue, entry)).count()
}

// How many were finished.
fn completions(audit: &[Entry], queue: QueueId) -> usize
    ensures { result ≡ count_by (is_completion queue.0) audit.now }
{
    audit
        .iter()
        .filter(|entry| is_completion(queue, entry))
        .count()
}

// How many were denied.
fn denials(audit: &[Entry], queue: QueueId) -> usize
    ensures { result ≡ count_by (is_denial queue.0) audit.now }
{
    audit.iter().filter(|entry| is_denial(queue, entry)).count()
}

/// Counts in an audit what became of the packets of a queue.
pub fn count_packets(audit: &[Entry], queue: QueueId) -> PacketCounts
    ensures { result ≡ packet_counts audit.now queue.0 }
{
    PacketCounts {
        launched: launches(audit, queue),
        finished: completions(audit, queue),
        denied: denials(audit, queue),
    }
}

// The sum of two counts; none where it is greater than entries can be.
fn sum(one: usize, other: usize) -> Result<usize, AllocError>
    ensures { IfOk result (λ sum. sum ≡ one + other) }
{
    match one.checked_add(other) {
        Some(sum) => Ok(sum),
        None => Err(AllocError),
    }
}

// The sum of what was counted in one place and in another.
fn sum_of(one: PacketCounts, other: PacketCounts) -> Result<PacketCounts, AllocError>
    ensures { IfOk result (λ sum. (sum.launched ≡ one.launched + other.launched) × (sum.finished ≡ one.finished + other.finished) × (sum.denied ≡ one.denied + other.denied)) }
{
    let launched = sum(one.launched, other.launched)?;
    let finished = sum(one.finished, other.finished)?;
    let denied = sum(one.denied, other.denied)?;
    Ok(PacketCounts {
        launched,
        finished,
        denied,
    })
}

// Counts what became of the packets of a queue in some entries, and adds it to what was counted in those before.
fn count_more(
    counts: PacketCounts,
    entries: &[Entry],
    queue: QueueId,
) -> Result<PacketCounts, AllocError>
    ensures { (before : List Entry) → counts ≡ packet_counts before queue.0 → IfOk result (λ sum. sum ≡ packet_counts (before ++ entries.now) queue.0) }
{
    sum_of(counts, count_packets(entries, queue))
}

// What is counted of no packet.
const NONE: PacketCounts = PacketCounts {
    launched: 0,
    finished: 0,
    denied: 0,
};

/// What is counted of the packets of so many queues, which are numbered from 1 on, before the first entry.
#[tactic(auto, using(crate::proofs::Counted::no_counts, crate::proofs::Counted::one_more))]
pub fn count_none(alloc: Global, queues: usize) -> Result<Vec<PacketCounts>, AllocError>
    ensures { IfOk result (λ counts. AreCounts [] queues counts.items) }
{
    let mut counts = Vec::with_capacity(alloc, queues)?;
    for _queue in 0..queues {
        counts.push(NONE)?;
    }
    Ok(counts)
}

/// Counts on in the next entries. It takes no memory, and is refused only where a count is greater than entries can be.
pub fn count_on(counts: &mut Vec<PacketCounts>, entries: &[Entry]) -> Result<(), AllocError>
    ensures { (before : List Entry) (queues : ℕ) → AreCounts before queues counts.old.items → OnOk result (AreCounts (before ++ entries.now) queues counts.new.items) }
{
    for place in 0..counts.len() {
        counts[place] = count_more(counts[place], entries, QueueId(place as u64 + 1))?;
    }
    Ok(())
}

/// What was counted of the queue at a place among these, from 0 on; of one behind them, nothing.
pub fn counts_at(counts: &[PacketCounts], place: usize) -> PacketCounts
    ensures { result ≡ counts_at counts.now place }
{
    match counts.get(place) {
        Some(one) => *one,
        None => NONE,
    }
}

/// Whether of each of the queues that were counted so many packets are finished.
pub fn are_finished(counts: &[PacketCounts], wanted: u64) -> bool
    ensures { (entries : List Entry) (queues : ℕ) → AreCounts entries queues counts.now → result ≡ are_finished entries wanted queues }
{
    all_counted(counts, wanted)
}

// The same, by the counts alone.
fn all_counted(counts: &[PacketCounts], wanted: u64) -> bool
    ensures { result ≡ list_all (λ one. one.finished == wanted) counts.now }
{
    counts.iter().all(|one| one.finished as u64 == wanted)
}
