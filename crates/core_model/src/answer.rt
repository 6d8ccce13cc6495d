//! Replies to requests.

use crate::entry::Entry;
use crate::outcome::Outcome;
use crate::refusal::Refusal;
use policy::{Object, Rights};
use queue_error::QueueError;
use sequences::Sequence;
use std::mem::size_of;

/// What a request that isn't refused is answered.
#[derive(Debug, Drop)]
pub enum Answer {
    /// What an event came to.
    Outcome(Outcome),
    /// The bytes read.
    Bytes(Sequence<u8>),
    /// A signal's value.
    Value(i64),
    /// Whether the condition held.
    Test(bool),
    /// Each object on which the client has a right in force, with those rights.
    Listing(Sequence<(Object, Rights)>),
    /// A queue's errors, in order.
    Errors(Sequence<QueueError>),
    /// The audit's entries, in order, and how many came before: the first of them is the one behind these.
    Audit {
        before: u64,
        entries: Sequence<Entry>,
    },
}

/// The answer to a request, or why it was refused.
pub type Reply = Result<Answer, Refusal>;

// A reply is small, since each hand moves the whole value.
const _: () = prove!(size_of::<Reply>() <= 128);
