//! An audit that is emptied leaves the same to begin from as one that is rotated.

use crate::worlds::{LAUNCH, does, fresh};
use std::alloc::Global;
use std::test::*;
use world::World;

/// What happens from one emptied audit to the next, as lines of a script: packets are launched, run, wait, are completed, fail
/// and leave with their queue, and what was told of some of them is told again.
const STAGES: [&str; 14] = [
    LAUNCH,
    "",
    "run 1 0\n",
    "grant nora signal cue WAIT\nsubmit 1 1 03140000000000000100000000000000000000000000000000000000000000000000000000000000000000000000000000000000000000000000000000000000\nserve 1\n",
    "queue nora mixer 4 1\nsubmit 2 1 04140080000000000000000000000000040000000100000004000000000000005b00000000000000000000000000000000000000000000000100000000000000\nserve 2\n",
    "signal nora cue store 0\npoll 1 1\n",
    "finish 1 0\nrun 2 0\n",
    "revoke nora region tape WRITE\ngrant nora region tape READ\n",
    "submit 2 1 04140080000000000000000000000000040000000100000004000000000000005c00000000000000000000000000000000000000000000000000000000000000\nserve 2\n",
    "finish 2 0\nrevoke nora region tape WRITE\n",
    "finish 1 1\nsubmit 1 1 00140000000000000000000000000000000000000000000000000000000000000000000000000000000000000000000000000000000000000000000000000000\nserve 1\n",
    "stop 2\nqueue nora mixer 2 1\n",
    "close 2\n",
    "close 1\nqueue nora mixer 8 1\n",
];

fn is_truncated(alloc: Global, world: &mut World) -> bool {
    world.truncate(alloc) == Ok(())
}

/// Whether both worlds do these lines, and begin from the same once one's audit is emptied and the other's rotated.
fn begin_alike(alloc: Global, truncated: &mut World, rotated: &mut World, lines: &str) -> bool {
    let are_done = does(alloc, truncated, lines) && does(alloc, rotated, lines);
    let are_emptied = is_truncated(alloc, truncated) && does(alloc, rotated, "rotate\n");
    let begun = truncated.core().start();
    are_done && are_emptied && begun.is_same(rotated.core().start())
}

/// Whether they do so stage by stage.
fn go_on_alike(alloc: Global, mut truncated: World, mut rotated: World) -> bool {
    let mut well = true;
    for lines in STAGES {
        well = well && begin_alike(alloc, &mut truncated, &mut rotated, lines);
    }
    well
}

#[test]
fn an_emptied_audit_begins_anew_as_a_rotated_one(rt: HostRuntime) -> Result<(), Fail> {
    let alloc = rt.alloc();
    assert!(rt; go_on_alike(alloc, fresh(alloc)?, fresh(alloc)?));
    Ok(())
}
