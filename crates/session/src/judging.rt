//! What is refused before the core is asked.

ghost use Rattle.std.specs.Prelude.{◌≡◌, nat_lt};
ghost use Rattle.session.specs.Judging.{owner_in, queues_of, is_own, own, within, is_make, judged};

use crate::requests::Request;

/// A queue that is open, with the session that opened it and that session's client.
#[derive(Clone, Copy, Debug, PartialEq, Eq)]
pub struct OpenQueue {
    pub queue: u64,
    pub session: u64,
    pub client: u32,
}

/// A session that was greeted, and its client.
#[derive(Clone, Copy, Debug, PartialEq, Eq)]
pub struct Asker {
    pub session: u64,
    pub client: u32,
}

/// What comes of a request.
#[derive(Clone, Copy, Debug, PartialEq, Eq)]
pub enum Verdict {
    /// It is made, and its answer is the core's.
    Make,
    /// It comes at a time at which it may not.
    NotNow,
    /// The client has as many as it may have.
    Quota,
    /// The queue isn't one that the session opened.
    NotYours,
    /// It comes more often than it may.
    TooOften,
    /// It comes after its time.
    TooLate,
    /// There is no such session, or the user isn't one that may come.
    Unknown,
    /// There is no room for one more.
    NoRoom,
}

impl Verdict {
    // Whether what was asked is made.
    pub(crate) fn is_make(self) -> bool
        ensures { result ≡ is_make self }
    {
        match self {
            Verdict::Make => true,
            Verdict::NotNow => false,
            Verdict::Quota => false,
            Verdict::NotYours => false,
            Verdict::TooOften => false,
            Verdict::TooLate => false,
            Verdict::Unknown => false,
            Verdict::NoRoom => false,
        }
    }
}

/// The session that opened a queue, if one did and the queue is open.
#[tactic(auto, unfolding(crate::specs::Judging::owner_in))]
pub fn owner_of(open: &[OpenQueue], queue: u64) -> Option<u64>
    ensures { result ≡ owner_in open.now queue }
{
    match open {
        [] => None,
        [row, rest @ ..] => {
            if row.queue == queue {
                Some(row.session)
            } else {
                owner_of(rest, queue)
            }
        }
    }
}

/// Whether a client has fewer queues open than so many, in all its sessions.
#[tactic(auto, unfolding(crate::specs::Judging::queues_of))]
pub fn has_fewer(open: &[OpenQueue], client: u32, most: u64) -> bool
    ensures { result ≡ nat_lt (queues_of open.now client) most }
{
    match open {
        [] => most > 0,
        [row, rest @ ..] => {
            if row.client != client {
                has_fewer(rest, client, most)
            } else if most == 0 {
                false
            } else {
                has_fewer(rest, client, most - 1)
            }
        }
    }
}

// Whether a session opened a queue, which is open.
pub(crate) fn is_own(open: &[OpenQueue], asker: &Asker, queue: u64) -> bool
    ensures { result ≡ is_own open.now asker.now queue }
{
    match owner_of(open, queue) {
        Some(session) => session == asker.session,
        None => false,
    }
}

// What comes of a request about a queue.
fn own(is_own: bool) -> Verdict
    ensures { result ≡ own is_own }
{
    if is_own {
        Verdict::Make
    } else {
        Verdict::NotYours
    }
}

// What comes of a request for a queue.
pub(crate) fn within(is_within: bool) -> Verdict
    ensures { result ≡ within is_within }
{
    if is_within {
        Verdict::Make
    } else {
        Verdict::Quota
    }
}

/// Judges what a session asks that was greeted, where a client may have so many queues open: a queue is closed, and its errors
/// are told, only where the asker opened it; nobody is greeted twice; all else is made.
pub fn judge(open: &[OpenQueue], most: u64, asker: &Asker, request: &Request) -> Verdict
    ensures { result ≡ judged open.now most asker.now request.now }
{
    match request {
        Request::Hello(_) => Verdict::NotNow,
        Request::Queue(_) => within(has_fewer(open, asker.client, most)),
        Request::Close(queue) => own(is_own(open, asker, *queue)),
        Request::Errors(queue) => own(is_own(open, asker, *queue)),
        Request::Region(_) => Verdict::Make,
        Request::Read(_) => Verdict::Make,
        Request::Write(_) => Verdict::Make,
        Request::Signal(_) => Verdict::Make,
        Request::Load(_) => Verdict::Make,
        Request::List => Verdict::Make,
        Request::Sync(_) => Verdict::Make,
        Request::Number(_) => Verdict::Make,
    }
}
