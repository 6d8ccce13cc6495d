//! The headline of a world of one's own: after two lists of requests, a packet that is submitted, and a script. What each
//! of them handed out of the audit is known, so that what holds after all is said of the whole history.

ghost use Rattle.std.specs.Prelude.{◌++◌, [], IfSome, List};
ghost use Rattle.core_model.specs.declared.entry.Entry.{Entry};
ghost use Rattle.core_model.specs.History.{Part};
ghost use Rattle.core_model.specs.Rotation.{entries_in};
ghost use Rattle.policy.specs.Policy.{Declared};
ghost use Rattle.world.specs.Actions.{Reaches};
ghost use Rattle.world.specs.Dues.{handed_out};
ghost use Rattle.world.specs.Headline.{Headline};
ghost use Rattle.world.specs.InStep.{IsJoinedBehind};

use aql_packet::QueueId;
use script::{Sink, Source, law_scripts_are_requests, run_script};
use sequences::Reserved;
use std::alloc::Global;
use world::{Reply, Request, World, law_each_run_goes_on, law_lane_calls_are_requests};

/// The replies to two lists of requests.
#[derive(Drop)]
pub struct Replies {
    pub first: Reserved<Reply>,
    pub second: Reserved<Reply>,
}

// Producer 1 of queue 1 submits a packet, whatever comes of it.
fn submit(alloc: Global, world: &mut World, words: &[u64; 8])
    ensures { Reaches world.old [] world.new }
{
    law_lane_calls_are_requests();
    let _sent = world.submit(alloc, QueueId(1), 1, words);
}

// A script runs, whatever comes of it.
fn run<R: Source, W: Sink>(alloc: Global, world: &mut World, reader: &mut R, writer: &mut W)
    ensures { (parts : List Part) × Reaches world.old parts world.new }
{
    law_scripts_are_requests(world.policy());
    let _ended = run_script(alloc, reader, writer, world, &[]);
}

/// Asks a world two lists of requests, has producer 1 of queue 1 submit a packet, and runs a script, whatever comes of these
/// two. Behind whatever the world was in step, the headline holds of it then behind all that was handed out since: by the
/// replies to the first list, by those to the second, and by the script.
pub fn drive<R: Source, W: Sink>(
    alloc: Global,
    world: &mut World,
    first: Vec<Request>,
    second: Vec<Request>,
    words: &[u64; 8],
    reader: &mut R,
    writer: &mut W,
) -> Option<Replies>
    ensures { (policy : Declared) (prior : List Entry) → IsJoinedBehind policy prior world.old →
        IfSome result (λ replies. (parts : List Part) × Headline policy (((prior ++ handed_out replies.first.items) ++ handed_out replies.second.items) ++ entries_in parts) world.new) }
{
    law_each_run_goes_on();
    let first = world.run(alloc, first).ok()?;
    let second = world.run(alloc, second).ok()?;
    submit(alloc, world, words);
    run(alloc, world, reader, writer);
    world.headline();
    Some(Replies { first, second })
}
