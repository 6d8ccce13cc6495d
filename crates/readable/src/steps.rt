//! What follows from what a request of a drain came to.

ghost use Rattle.std.specs.Prelude.{◌≡◌};
ghost use Rattle.readable.specs.Steps.{is_again, is_done, moves, step_of, step_of_outcome, step_of_worked};

use crate::moves::Came;
use core_model::{Outcome, Polled, Taken, Worked};

/// What follows from what a request came to.
#[derive(Clone, Copy)]
pub enum Step {
    /// Something moved, and the same is asked once more.
    Again,
    /// A packet's work is done.
    Done,
    /// A packet left flight.
    Gone,
    /// There is nothing.
    Nothing,
    /// It waits, or was refused.
    Waits,
}

// What follows from what became of a group.
fn step_of_worked(worked: Worked) -> Step
    ensures { result ≡ step_of_worked worked }
{
    match worked {
        Worked::Ran { left, .. } => { if left > 0 { Step::Again } else { Step::Done } }
        Worked::Done => Step::Done,
        Worked::Faulted(_) => Step::Gone,
    }
}

// What follows from what an event came to.
fn step_of_outcome(outcome: Outcome) -> Step
    ensures { result ≡ step_of_outcome outcome }
{
    match outcome {
        Outcome::Worked(worked) => step_of_worked(worked),
        Outcome::Polled(Polled::Pending(_)) => Step::Waits,
        Outcome::Polled(Polled::Ready(_)) => Step::Done,
        _ => Step::Gone,
    }
}

/// What follows from what a request came to.
pub(crate) fn step_of(came: Came) -> Step
    ensures { result ≡ step_of came }
{
    match came {
        Came::Nothing => Step::Nothing,
        Came::Taken { taken, .. } => match taken {
            Taken::Waiting(_) => Step::Waits,
            _ => Step::Again,
        },
        Came::Outcome(outcome) => step_of_outcome(outcome),
        Came::Refused(_) => Step::Waits,
    }
}

/// Whether something moved.
pub(crate) fn moves(step: Step) -> bool
    ensures { result ≡ moves step }
{
    match step {
        Step::Again | Step::Gone => true,
        Step::Done | Step::Nothing | Step::Waits => false,
    }
}

/// Whether the same is asked once more.
pub(crate) fn is_again(step: Step) -> bool
    ensures { result ≡ is_again step }
{
    match step {
        Step::Again => true,
        Step::Done | Step::Gone | Step::Nothing | Step::Waits => false,
    }
}

/// Whether a packet's work is done.
pub(crate) fn is_done(step: Step) -> bool
    ensures { result ≡ is_done step }
{
    match step {
        Step::Done => true,
        Step::Again | Step::Gone | Step::Nothing | Step::Waits => false,
    }
}

/// Whether it is a fault: a packet was denied or failed, or a group faulted.
pub(crate) fn is_fault(came: Came) -> bool {
    match came {
        Came::Taken {
            taken: Taken::Denied(_),
            ..
        } => true,
        Came::Outcome(Outcome::Worked(Worked::Faulted(_))) => true,
        Came::Outcome(Outcome::Polled(Polled::Failed(_))) => true,
        _ => false,
    }
}
