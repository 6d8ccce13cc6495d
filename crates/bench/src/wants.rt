//! Wants memory: steps of a ring are replayed, a ring opens and is settled, queues of a broker open, a lane serves, and its
//! broker is settled. It is there to be refused memory (`tests/wants.py`): where one of these calls is, it says so, and
//! makes it once more with what came back.

mod broker;
mod rings;
mod telling;

use crate::fault::Fault;
use broker::{open_queues, serve_queue};
use rings::{open_ring, replay_steps};
use std::sync::Wait;
use std::thread::Threads;

/// Makes all calls, in turn.
pub fn call_all<R: Threads + Wait + Sync>(rt: &R, host: &HostRuntime) -> Result<(), Fault> {
    replay_steps(host)?;
    open_ring(host)?;
    open_queues(host)?;
    serve_queue(rt, host)
}
