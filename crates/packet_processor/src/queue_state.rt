//! What is known of one queue at a moment.

ghost use Rattle.std.specs.Prelude.{◌≡◌, ◌||◌, length, nat_lt};
ghost use Rattle.core_model.specs.LaunchRules.{cause_to_wait};
ghost use Rattle.packet_processor.specs.Queueing.{may_launch_unless, packets, state_of};

use crate::places::Places;
use aql_packet::RawHeader;
use core_model::{MOST_IN_FLIGHT, WaitCause};
use queue_error::QueueError;

/// Whether a queue's packets are launched.
#[derive(Clone, Copy, Debug, PartialEq, Eq)]
pub enum State {
    /// They are.
    Running,
    /// The queue has an error: none is launched any more.
    Error,
    /// The queue was stopped: none is launched any more.
    Stopped,
}

/// Whether a queue's next packet may be launched now.
#[derive(Clone, Copy, Debug, PartialEq, Eq)]
pub enum MayLaunch {
    /// It may start.
    Go,
    /// It has to wait, and why.
    Waiting(WaitCause),
}

/// What is known of one queue at a moment, lent by who keeps it.
#[derive(Drop)]
pub struct QueueState<'a> {
    /// The queue's packets in flight, in the order of their launches.
    pub places: &'a Places,
    /// The queue's errors, in order.
    pub errors: &'a [QueueError],
    /// Whether the queue was stopped.
    pub stopped: bool,
}

impl QueueState<'_> {
    /// Whether the queue's packets are launched: not once it was stopped or has an error.
    pub fn state(&self) -> State
        ensures { result ≡ state_of self.now }
    {
        if self.stopped {
            State::Stopped
        } else if self.errors.is_empty() {
            State::Running
        } else {
            State::Error
        }
    }

    /// Whether the queue launches nothing more.
    pub fn is_down(&self) -> bool
        ensures { result ≡ (nat_lt 0 (length self.now.errors.now) || self.now.stopped) }
    {
        !matches!(self.state(), State::Running)
    }

    /// Whether the queue's next packet may start, by its header's barrier bit, whatever its type
    /// (PSA, Architected Queuing Language): not while a barrier packet of the queue is in flight, nor,
    /// where the bit is set, while any packet of it is, nor while eight are (own).
    #[tactic(auto, unfolding(core_model::specs::LaunchRules::cause_to_wait))]
    pub fn may_launch(&self, header: &RawHeader) -> MayLaunch
        ensures { result ≡ may_launch_unless (cause_to_wait (packets self.now) header.now.barrier) }
    {
        if self.places.has_barrier() {
            return MayLaunch::Waiting(WaitCause::Barrier);
        }
        let count = self.places.len();
        if header.barrier && count > 0 {
            return MayLaunch::Waiting(WaitCause::Active);
        }
        if count >= MOST_IN_FLIGHT {
            return MayLaunch::Waiting(WaitCause::Slots);
        }
        MayLaunch::Go
    }
}
