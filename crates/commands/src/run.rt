//! The command that runs a script over a policy.

ghost use Rattle.std.specs.Prelude.{◌≡◌, [], Ok};
ghost use Rattle.commands.specs.Commands.{OpensPolicies, OpensVerdict, OpensWorld, RunsIn, RunsOver, RunsPolicies, no_stop, of_first, refused_quietly, streams, strictly};
ghost use Rattle.commands.specs.Failures.{stream};
ghost use Rattle.script.specs.Runs.{as_text, by_line, law};
ghost use Rattle.script.specs.Watchers.{worlds};
ghost use Rattle.script.specs.declared.watch.Never.{Never};
ghost use Rattle.script.specs.declared.watchers.NotDone.{NotDone};
ghost use Rattle.world.specs.Starting.{Begins};

use crate::check::{Setup, judge};
use crate::failure::{Failure, Stops, name_failure, tell_run, tell_unwatched};
use crate::further::{Further, PolicyText, read_further};
use crate::status::Status;
use access_core::{Kernel, OpenFault};
use policy::Policy;
use script::{Nobody, Plain, RunFault, Sink, Source, Strict, Style, Text, Watch, run_watched};
use std::alloc::Global;
use world::World;

// The call below says in a word what is promised of worlds, so that the proofs of its callers don't carry it.

/// Opens a world under a policy.
fn open_world(
    alloc: Global,
    policy: Policy,
    kernels: Vec<Kernel>,
    places: usize,
) -> Result<World, OpenFault>
    ensures { Begins policy kernels.items places result }
{
    World::open(alloc, policy, kernels, places)
}

/// A world that was opened over a policy, and the further policies that a script may hand in.
pub struct Opened {
    pub world: World,
    pub later: Further,
}

impl Drop for Opened {
    fn drop(self) {
        let Opened { world: _, later: _ } = self;
    }
}

/// Why its policies keep a command from its work, and which of them: 0 for the first.
#[derive(Clone, Copy)]
pub struct Unopened {
    pub failure: Failure,
    pub place: usize,
}

// Why the first policy keeps a command from its work.
fn of_first(failure: Failure) -> Unopened
    ensures { result ≡ of_first failure }
{
    Unopened { failure, place: 0 }
}

// Reads the further policies behind a world.
fn open_behind(alloc: Global, world: World, further: &[PolicyText]) -> Result<Opened, Unopened>
    ensures { OpensWorld (Ok world) further.now result }
{
    match read_further(alloc, further) {
        Ok(later) => Ok(Opened { world, later }),
        Err(fault) => Err(Unopened {
            failure: Failure::of_reading(fault.why),
            place: fault.place.saturating_add(1),
        }),
    }
}

// Opens a world under a policy that was let pass, and reads the further policies behind it.
fn open_under(
    alloc: Global,
    setup: Setup,
    further: &[PolicyText],
    places: usize,
) -> Result<Opened, Unopened>
    ensures { OpensVerdict (Ok setup) further.now places result }
{
    let Setup { policy, kernels } = setup;
    match open_world(alloc, policy, kernels, places) {
        Ok(world) => open_behind(alloc, world, further),
        Err(why) => Err(of_first(Failure::of_opening(why))),
    }
}

/// Opens a world over the policy in a text, with places for so many entries (1 to 2^20) in the audit, and reads the further
/// policies behind it; else the first failure: that of the policy, of its kernels, of the first of these whose module has
/// none of its entry's name, and then of the further policies in order.
pub fn open_policies(
    alloc: Global,
    text: &[u8],
    further: &[PolicyText],
    places: usize,
) -> Result<Opened, Unopened>
    ensures { OpensPolicies text.now further.now places result }
{
    match judge(alloc, text) {
        Ok(setup) => open_under(alloc, setup, further, places),
        Err(why) => Err(of_first(why)),
    }
}

/// Runs a script over a world that was opened, in a style, under a watcher (`run_watched` in `script`).
#[tactic(auto, unfolding(crate::specs::Commands::RunsOver))]
pub fn run_over<L: Style, V: Watch, R: Source, O: Sink>(
    alloc: Global,
    opened: &mut Opened,
    style: &mut L,
    watcher: &mut V,
    script: &mut R,
    out: &mut O,
) -> Result<(), RunFault<V::Fault>>
    ensures ran { RunsOver (law L.answering V.watching opened.old.later) opened.old.world opened.new.world (stream (R.remaining script.old) (R.failed script.old))
        (stream (R.remaining script.new) (R.failed script.new)) (stream (O.contents out.old) (O.failed out.old)) (stream (O.contents out.new) (O.failed out.new)) result }
    ensures later { opened.new.later ≡ opened.old.later }
{
    run_watched(
        alloc,
        script,
        out,
        &mut opened.world,
        opened.later.policies(),
        style,
        watcher,
    )
}

// Runs a script over what was opened, each line one of a script and each reply a text, and lets that go.
fn run_opened<V: Watch, R: Source, O: Sink, E: Sink>(
    alloc: Global,
    opened: Opened,
    watcher: &mut V,
    script: &mut R,
    out: &mut O,
    err: &mut E,
) -> Status
where
    V::Fault: Stops,
    ensures { RunsIn V.Fault (law (by_line as_text) V.watching) V.Fault.stops opened
        (streams (stream (R.remaining script.old) (R.failed script.old)) (stream (O.contents out.old) (O.failed out.old)) (stream (E.contents err.old) (E.failed err.old)))
        (streams (stream (R.remaining script.new) (R.failed script.new)) (stream (O.contents out.new) (O.failed out.new)) (stream (E.contents err.new) (E.failed err.new))) result }
{
    let mut opened = opened;
    let style = &mut Plain { voice: Text };
    let ended = run_over(alloc, &mut opened, style, watcher, script, out);
    tell_run(alloc, ended, err)
}

// Runs a script over what was opened so, with nobody who watches.
fn run_unwatched<R: Source, O: Sink, E: Sink>(
    alloc: Global,
    opened: Opened,
    script: &mut R,
    out: &mut O,
    err: &mut E,
) -> Status
    ensures { RunsIn Never worlds no_stop opened
        (streams (stream (R.remaining script.old) (R.failed script.old)) (stream (O.contents out.old) (O.failed out.old)) (stream (E.contents err.old) (E.failed err.old)))
        (streams (stream (R.remaining script.new) (R.failed script.new)) (stream (O.contents out.new) (O.failed out.new)) (stream (E.contents err.new) (E.failed err.new))) result }
{
    let mut opened = opened;
    let style = &mut Plain { voice: Text };
    let ended = run_over(alloc, &mut opened, style, &mut Nobody, script, out);
    tell_unwatched(alloc, ended, err)
}

// Runs a script over the policies in texts, under a watcher.
fn run_watching<V: Watch, R: Source, O: Sink, E: Sink>(
    alloc: Global,
    text: &[u8],
    further: &[PolicyText],
    places: usize,
    watcher: &mut V,
    script: &mut R,
    out: &mut O,
    err: &mut E,
) -> Status
where
    V::Fault: Stops,
    ensures { RunsPolicies V.Fault (law (by_line as_text) V.watching) V.Fault.stops text.now further.now places
        (streams (stream (R.remaining script.old) (R.failed script.old)) (stream (O.contents out.old) (O.failed out.old)) (stream (E.contents err.old) (E.failed err.old)))
        (streams (stream (R.remaining script.new) (R.failed script.new)) (stream (O.contents out.new) (O.failed out.new)) (stream (E.contents err.new) (E.failed err.new))) result }
{
    match open_policies(alloc, text, further, places) {
        Ok(opened) => run_opened(alloc, opened, watcher, script, out, err),
        Err(why) => name_failure(alloc, why.failure, err),
    }
}

/// Runs a script over the policy in a text, with places for so many entries (1 to 2^20) in the
/// audit. Replies go to `out`. A fault of the policy or of a kernel is named on `err` as
/// `check_policy` does, and after all of these the first kernel whose module has none of its entry's
/// name as `kernel 2: no entry`, and after that the first fault of the further policies, as that of a
/// policy, before any reply; a line of no form as `line 3: bad request`, after the replies to the
/// lines before it. It fails only where `no memory` stands on `err`, or `read fault` or `write fault`,
/// each with its cause (`run_watched` in `script`), or where the writer of faults failed.
pub fn run_policies<R: Source, O: Sink, E: Sink>(
    alloc: Global,
    text: &[u8],
    further: &[PolicyText],
    places: usize,
    script: &mut R,
    out: &mut O,
    err: &mut E,
) -> Status
    ensures { RunsPolicies Never worlds no_stop text.now further.now places
        (streams (stream (R.remaining script.old) (R.failed script.old)) (stream (O.contents out.old) (O.failed out.old)) (stream (E.contents err.old) (E.failed err.old)))
        (streams (stream (R.remaining script.new) (R.failed script.new)) (stream (O.contents out.new) (O.failed out.new)) (stream (E.contents err.new) (E.failed err.new))) result }
{
    match open_policies(alloc, text, further, places) {
        Ok(opened) => run_unwatched(alloc, opened, script, out, err),
        Err(why) => name_failure(alloc, why.failure, err),
    }
}

/// Runs a script over the policy in a text as `run_policies` does, with no further policies.
pub fn run_policy<R: Source, O: Sink, E: Sink>(
    alloc: Global,
    text: &[u8],
    places: usize,
    script: &mut R,
    out: &mut O,
    err: &mut E,
) -> Status
    ensures { RunsPolicies Never worlds no_stop text.now [] places
        (streams (stream (R.remaining script.old) (R.failed script.old)) (stream (O.contents out.old) (O.failed out.old)) (stream (E.contents err.old) (E.failed err.old)))
        (streams (stream (R.remaining script.new) (R.failed script.new)) (stream (O.contents out.new) (O.failed out.new)) (stream (E.contents err.new) (E.failed err.new))) result }
{
    run_policies(alloc, text, &[], places, script, out, err)
}

/// Runs a script over the policies in texts as `run_policies` does, and ends with `Status::Refused` after the first reply
/// that tells that a line was refused, or that a packet was denied or failed, or a group faulted: no further line is served.
pub fn run_strictly<R: Source, O: Sink, E: Sink>(
    alloc: Global,
    text: &[u8],
    further: &[PolicyText],
    places: usize,
    script: &mut R,
    out: &mut O,
    err: &mut E,
) -> Status
    ensures { RunsPolicies NotDone strictly refused_quietly text.now further.now places
        (streams (stream (R.remaining script.old) (R.failed script.old)) (stream (O.contents out.old) (O.failed out.old)) (stream (E.contents err.old) (E.failed err.old)))
        (streams (stream (R.remaining script.new) (R.failed script.new)) (stream (O.contents out.new) (O.failed out.new)) (stream (E.contents err.new) (E.failed err.new))) result }
{
    let watcher = &mut Strict;
    run_watching(alloc, text, further, places, watcher, script, out, err)
}
