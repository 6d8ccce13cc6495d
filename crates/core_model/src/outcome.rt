//! What the core answers to a call that it doesn't refuse.

use aql_packet::QueueId;
use queue_error::QueueError;
use std::mem::size_of;

/// Why a packet may not start yet (PSA, Architected Queuing Language: the barrier bit and barrier
/// packets; the number of slots is own).
#[derive(Clone, Copy, Debug, PartialEq, Eq)]
pub enum WaitCause {
    /// A barrier packet of the queue is in flight.
    Barrier,
    /// The packet's barrier bit is set, and a packet of the queue is in flight.
    Active,
    /// As many packets of the queue are in flight as the packet processor holds.
    Slots,
}

/// What became of a packet that was handed over.
#[derive(Clone, Copy, Debug, PartialEq, Eq)]
pub enum Taken {
    /// It is in flight from now on.
    Launched,
    /// It failed a launch rule, which the error names, and its queue launches nothing more.
    Denied(QueueError),
    /// It may not start yet. Nothing changed.
    Waiting(WaitCause),
}

/// What became of the next group of a dispatch.
#[derive(Clone, Copy, Debug, PartialEq, Eq)]
pub enum Worked {
    /// Group number `group` ran, and `left` groups are left.
    Ran { group: u32, left: u32 },
    /// The group faulted: it left nothing, and its packet is released.
    Faulted(QueueError),
    /// All groups had run already. Nothing changed.
    Done,
}

/// For each of the five dependencies of a barrier packet, whether it was seen as 0.
#[derive(Clone, Copy, Debug, PartialEq, Eq)]
pub struct Satisfied(pub [bool; 5]);

/// None of the five was seen as 0.
pub const NONE_SATISFIED: Satisfied = Satisfied([false; 5]);

/// What a poll of a barrier packet found, with the positions that it is the first to have seen as 0.
#[derive(Clone, Copy, Debug, PartialEq, Eq)]
pub enum Polled {
    /// The barrier isn't ready.
    Pending(Satisfied),
    /// The barrier is ready.
    Ready(Satisfied),
    /// A dependency was negative: the packet faulted and is released.
    Failed(QueueError),
}

/// What an event came to.
#[derive(Clone, Copy, Debug, PartialEq, Eq)]
pub enum Outcome {
    /// A grant, a revocation, a stop, a close, a completion or a write was made.
    Accepted,
    /// A queue was opened under this number.
    Opened(QueueId),
    Taken(Taken),
    Worked(Worked),
    Polled(Polled),
    /// A signal was changed: its old value for an exchange or a compare-and-swap, else 0.
    Changed(i64),
}

// An outcome is small, since each hand moves the whole value.
const _: () = prove!(size_of::<Outcome>() <= 128);
