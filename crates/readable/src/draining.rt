//! Queues are drained: they are served, and their packets worked on, until nothing moves.

ghost use Rattle.std.specs.Prelude.{◌≡◌, List, IfOk, MatchResult};
ghost use Rattle.readable.specs.Drains.{Drains, Makes, queues_of, story_in};
ghost use Rattle.readable.specs.Moves.{Made};
ghost use Rattle.readable.specs.inner.Keeping.{Ends};

use crate::drained::Drained;
use crate::flight::Queues;
use crate::log::Log;
use crate::rounds::{MOST_REQUESTS, make_round};
use aql_packet::QueueId;
use std::alloc::{AllocError, Global};
use world::World;

// Makes rounds until nothing moves in one.
fn drive(alloc: Global, world: &mut World, queues: Queues, log: &mut Log) -> Result<(), AllocError>
    ensures { MatchResult result
        (λ done. (made : List Made) × Ends queues world.old log.old made world.new log.new)
        (λ error. Makes world.old world.new) }
{
    'rounds: for _ in 0..MOST_REQUESTS {
        log.begin_round();
        make_round(alloc, world, queues, log)?;
        let has_moved = log.has_moved;
        if !has_moved {
            return Ok(());
        }
    }
    Err(AllocError)
}

// Which queues are to be drained: the one that is named, or all that are open.
fn queues_of(queue: Option<QueueId>) -> Queues
    ensures { result ≡ queues_of queue }
{
    match queue {
        Some(queue) => Queues::One(queue),
        None => Queues::All,
    }
}

/// Drains a queue, or all that are open: in rounds each queue's packets are served as far as they come, and each packet in
/// flight is worked on and, once it is done, finished; behind a round in which nothing moved it is over. A drain is a list
/// of the requests that the lines `serve`, `run`, `poll` and `finish` make, in turn, each refused or not as these are. It
/// tells just what they came to, and only once it is over. Its rounds end: each but the last adds to the audit, which has
/// at most 2^20 entries, as 8 packets a queue are in flight at most and each has 2^32 groups at most. Where memory is
/// wanted for what is to be told, the requests so far are made, and nothing is told.
pub fn drain(
    alloc: Global,
    world: &mut World,
    queue: Option<QueueId>,
) -> Result<Drained, AllocError>
    ensures made { Makes world.old world.new }
    ensures over { IfOk result (λ drained. Drains (queues_of queue) world.old (story_in drained) world.new) }
{
    let mut log = Log::new(alloc);
    match drive(alloc, world, queues_of(queue), &mut log) {
        Ok(()) => Ok(log.ended()),
        Err(error) => Err(error),
    }
}
