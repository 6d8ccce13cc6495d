//! How often the requests of a drain came to what.

ghost use Rattle.std.specs.Prelude.{◌≡◌};
ghost use Rattle.readable.specs.Tallies.{none_yet, one_more, with_came, with_outcome, with_polled, with_taken, with_worked};

use crate::moves::Came;
use core_model::{Outcome, Polled, Taken, Worked};

/// How many packets were launched and denied, how many groups ran and faulted, how many barrier packets became ready and
/// failed, and how many packets were finished. No count goes above 2^64 - 1.
#[derive(Clone, Copy)]
pub struct Tally {
    pub launched: u64,
    pub denied: u64,
    pub ran: u64,
    pub faulted: u64,
    pub ready: u64,
    pub failed: u64,
    pub finished: u64,
}

/// A count and one more, up to the greatest.
pub(crate) fn one_more(count: u64) -> u64
    ensures { result ≡ one_more count }
{
    if count < u64::MAX { count + 1 } else { count }
}

// With what became of a packet that was handed over.
fn with_taken(tally: Tally, taken: Taken) -> Tally
    ensures { result ≡ with_taken tally taken }
{
    match taken {
        Taken::Launched => Tally {
            launched: one_more(tally.launched),
            ..tally
        },
        Taken::Denied(_) => Tally {
            denied: one_more(tally.denied),
            ..tally
        },
        Taken::Waiting(_) => tally,
    }
}

// With what became of a group.
fn with_worked(tally: Tally, worked: Worked) -> Tally
    ensures { result ≡ with_worked tally worked }
{
    match worked {
        Worked::Ran { .. } => Tally {
            ran: one_more(tally.ran),
            ..tally
        },
        Worked::Faulted(_) => Tally {
            faulted: one_more(tally.faulted),
            ..tally
        },
        Worked::Done => tally,
    }
}

// With what a poll found.
fn with_polled(tally: Tally, polled: Polled) -> Tally
    ensures { result ≡ with_polled tally polled }
{
    match polled {
        Polled::Pending(_) => tally,
        Polled::Ready(_) => Tally {
            ready: one_more(tally.ready),
            ..tally
        },
        Polled::Failed(_) => Tally {
            failed: one_more(tally.failed),
            ..tally
        },
    }
}

// With what an event came to; a packet that is finished is accepted.
fn with_outcome(tally: Tally, outcome: Outcome) -> Tally
    ensures { result ≡ with_outcome tally outcome }
{
    match outcome {
        Outcome::Accepted => Tally {
            finished: one_more(tally.finished),
            ..tally
        },
        Outcome::Worked(worked) => with_worked(tally, worked),
        Outcome::Polled(polled) => with_polled(tally, polled),
        _ => tally,
    }
}

impl Tally {
    /// Nothing was asked yet.
    pub fn none() -> Tally
        ensures { result ≡ none_yet }
    {
        Tally {
            launched: 0,
            denied: 0,
            ran: 0,
            faulted: 0,
            ready: 0,
            failed: 0,
            finished: 0,
        }
    }
}

/// With what a further request came to.
pub fn with_came(tally: Tally, came: Came) -> Tally
    ensures { result ≡ with_came tally came }
{
    match came {
        Came::Taken { taken, .. } => with_taken(tally, taken),
        Came::Outcome(outcome) => with_outcome(tally, outcome),
        Came::Nothing | Came::Refused(_) => tally,
    }
}
