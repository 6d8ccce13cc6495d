//! The run of a script, from a reader to a writer.

ghost use Rattle.std.specs.Prelude.{◌≡◌, [], ◌+◌, ◌<◌, ◌^◌, IfErr, OnErr, OnOk, MatchResult, length, string_bytes, true, false};
ghost use Rattle.std.specs.Io.KnownBytes.{Appends};
ghost use Rattle.script.specs.Streams.{AppendsBeginning};
ghost use Rattle.core_model.specs.Rotation.{lies_too_far};
ghost use Rattle.script.specs.Runs.{Rotates, law};
ghost use Rattle.script.specs.Scripts.{EndedAll, FailedBlock, HasCause, IsCaused, RunsScript, TakesTurn, TookBlock, TookUpTo, unwatched};
ghost use Rattle.script.specs.Sessions.{at_end, pending, with_further};
ghost use Rattle.script.specs.Watchers.{worlds};
ghost use Rattle.script.specs.declared.fault.ScriptFault.TheVariants.{Write};

use crate::engine::{Plain, Style};
use crate::fault::{RunFault, ScriptFault};
use crate::session::{Session, take_bytes, take_end};
use crate::streams::{Sink, Source, flush_once, read_once, write_through};
use crate::voice::Text;
use crate::watch::{Flow, Turn, Watch};
use crate::watchers::Nobody;
use policy::Policy;
use std::alloc::Global;
use world::World;

// The most reads of a run (own).
const MOST_READS: u64 = 1 << 40;

// The most bytes of a read (own).
const BLOCK: usize = 4096;

// Hands replies over to the writer, and keeps none.
fn hand_over<W: Sink>(writer: &mut W, out: &mut String) -> Result<(), ScriptFault>
    ensures handed { OnOk result (Appends (W.contents writer.old) (W.contents writer.new) (string_bytes out.old)) }
    ensures begun { OnErr result (AppendsBeginning (W.contents writer.old) (W.contents writer.new) (string_bytes out.old)) }
    ensures empty { string_bytes out.new ≡ [] }
    ensures fault { IfErr result (λ fault. fault ≡ Write) }
    ensures written { OnOk result (W.failed writer.new ≡ W.failed writer.old) }
    ensures failed { OnErr result (W.failed writer.new ≡ true) }
{
    let written = write_through(writer, out.as_bytes());
    out.clear();
    match written {
        Ok(()) => flush_once(writer),
        Err(fault) => Err(fault),
    }
}

// Empties the audit, whose entries are handed out to nobody: whether it did. No memory is wanted for that.
fn empty_audit(alloc: Global, world: &mut World) -> bool
    ensures emptied { result ≡ true → Rotates world.old world.new }
    ensures far { result ≡ false → lies_too_far world.old.core ≡ true }
    ensures kept { result ≡ false → world.new ≡ world.old }
{
    world.truncate(alloc).is_ok()
}

// The watcher has its turn, between two lines, unless it said that the run goes on.
fn take_turn<V: Watch>(
    alloc: Global,
    world: &mut World,
    watcher: &mut V,
    said: Flow,
) -> Result<(), RunFault<V::Fault>>
    ensures { TakesTurn V.watching.passes world.old world.new said result }
{
    if said == Flow::GoOn {
        return Ok(());
    }
    match watcher.told(world, said) {
        Ok(Turn::GoOn) => Ok(()),
        Ok(Turn::Rotate) => {
            if empty_audit(alloc, world) {
                Ok(())
            } else {
                Err(RunFault::Script(ScriptFault::OutOfMemory))
            }
        }
        Err(fault) => Err(RunFault::Watcher(fault)),
    }
}

// Takes bytes up to the end of a line behind which the watcher has its turn, hands the replies over, and gives it that turn:
// the bytes that are left.
fn take_some<'a, L: Style, W: Sink, V: Watch>(
    alloc: Global,
    world: &mut World,
    later: &[Policy],
    style: &mut L,
    watcher: &mut V,
    session: &mut Session,
    writer: &mut W,
    bytes: &'a [u8],
) -> Result<&'a [u8], RunFault<V::Fault>>
    requires number { session.old.number + length bytes.now < 2 ^ 64 }
    requires empty { pending session.old ≡ [] }
    requires some { 0 < length bytes.now }
    ensures taken { MatchResult result
        (λ left. TookUpTo (law L.answering V.watching later.now) world.old world.new (W.contents writer.old) (W.contents writer.new) session.old session.new bytes.now left.now)
        (FailedBlock (law L.answering V.watching later.now) world.old world.new (W.contents writer.old) (W.contents writer.new) session.old.number (with_further session.old bytes.now)) }
    ensures written { OnOk result (W.failed writer.new ≡ W.failed writer.old) }
    ensures caused { IfErr result (IsCaused (W.failed writer.old) (W.failed writer.new)) }
{
    let taken = take_bytes(alloc, world, later, style, watcher, session, bytes);
    hand_over(writer, &mut session.out)?;
    let (said, left) = taken?;
    take_turn(alloc, world, watcher, said)?;
    Ok(left)
}

// Takes bytes that were read, hands the replies over, and gives the watcher its turns.
fn take_block<L: Style, W: Sink, V: Watch>(
    alloc: Global,
    world: &mut World,
    later: &[Policy],
    style: &mut L,
    watcher: &mut V,
    session: &mut Session,
    writer: &mut W,
    bytes: &[u8],
) -> Result<(), RunFault<V::Fault>>
    requires number { session.old.number + length bytes.now < 2 ^ 64 }
    requires empty { pending session.old ≡ [] }
    ensures taken { MatchResult result
        (λ _. TookBlock (law L.answering V.watching later.now) world.old world.new (W.contents writer.old) (W.contents writer.new) session.old session.new bytes.now)
        (FailedBlock (law L.answering V.watching later.now) world.old world.new (W.contents writer.old) (W.contents writer.new) session.old.number (with_further session.old bytes.now)) }
    ensures written { OnOk result (W.failed writer.new ≡ W.failed writer.old) }
    ensures caused { IfErr result (IsCaused (W.failed writer.old) (W.failed writer.new)) }
{
    let mut rest = bytes;
    while !rest.is_empty() {
        rest = take_some(alloc, world, later, style, watcher, session, writer, rest)?;
    }
    Ok(())
}

// Takes the end of what is read, hands the last replies over, and gives the watcher its turn.
fn take_last<L: Style, W: Sink, V: Watch>(
    alloc: Global,
    world: &mut World,
    later: &[Policy],
    style: &mut L,
    watcher: &mut V,
    session: &mut Session,
    writer: &mut W,
) -> Result<(), RunFault<V::Fault>>
    requires number { session.old.number + 1 < 2 ^ 64 }
    requires empty { pending session.old ≡ [] }
    ensures taken { MatchResult result
        (λ _. EndedAll (law L.answering V.watching later.now) world.old world.new (W.contents writer.old) (W.contents writer.new) session.old)
        (FailedBlock (law L.answering V.watching later.now) world.old world.new (W.contents writer.old) (W.contents writer.new) session.old.number (at_end session.old)) }
    ensures written { OnOk result (W.failed writer.new ≡ W.failed writer.old) }
    ensures caused { IfErr result (IsCaused (W.failed writer.old) (W.failed writer.new)) }
{
    let ended = take_end(alloc, world, later, style, watcher, session);
    hand_over(writer, &mut session.out)?;
    let said = ended?;
    take_turn(alloc, world, watcher, said)
}

/// Runs a script in a style: reads its lines, does what each asks in turn, shows the replies to a watcher, writes them, and
/// gives the watcher its turn between two lines where it says so, once the replies before it are handed over.
///
/// Whatever the reader, the writer, the style and the watcher are, the world is one that doing some lines in turn leads to, and
/// the writer gained just the replies that are owed to them; where the reader tells its bytes, those are the lines of its
/// bytes. A turn of the watcher leaves the world, or its audit is rotated. After `Write` the writer gained a beginning of the
/// replies. After a watcher's fault it gained all up to those of the line to which the watcher had said so, or up to the reply
/// that it failed to see; after another fault, all replies of the lines before it. After `OutOfMemory` and `Write` the next line
/// may have been served too, and nothing else.
///
/// A run makes at most 2^40 reads. The line `reload N` hands in a copy of the N-th of the later policies. `Read` is told just
/// where the reader has failed, or was asked 2^40 times, and `Write` just where the writer has.
pub fn run_watched<L: Style, R: Source, W: Sink, V: Watch>(
    alloc: Global,
    reader: &mut R,
    writer: &mut W,
    world: &mut World,
    later: &[Policy],
    style: &mut L,
    watcher: &mut V,
) -> Result<(), RunFault<V::Fault>>
    ensures outcome { RunsScript (law L.answering V.watching later.now) world.old world.new (W.contents writer.old) (W.contents writer.new)
        (R.remaining reader.old) (R.remaining reader.new) result }
    ensures caused { HasCause (R.failed reader.old) (R.failed reader.new) (W.failed writer.old) (W.failed writer.new) result }
{
    let mut session = Session::new(alloc);
    let mut block = [0; BLOCK];
    for _ in 0..MOST_READS {
        let Some(count) = read_once(reader, &mut block)? else {
            continue;
        };
        if count == 0 {
            return take_last(alloc, world, later, style, watcher, &mut session, writer);
        }
        take_block(
            alloc,
            world,
            later,
            style,
            watcher,
            &mut session,
            writer,
            &block[..count],
        )?;
    }
    reader.give_up();
    Err(RunFault::Script(ScriptFault::Read))
}

/// Runs a script as `run_watched` does, each line one of a script and each reply a text, with nobody who would end the run.
pub fn run_script<R: Source, W: Sink>(
    alloc: Global,
    reader: &mut R,
    writer: &mut W,
    world: &mut World,
    later: &[Policy],
) -> Result<(), ScriptFault>
    ensures outcome { RunsScript (worlds later.now) world.old world.new (W.contents writer.old) (W.contents writer.new)
        (R.remaining reader.old) (R.remaining reader.new) (unwatched result) }
    ensures caused { HasCause (R.failed reader.old) (R.failed reader.new) (W.failed writer.old) (W.failed writer.new) (unwatched result) }
{
    let ended = run_watched(
        alloc,
        reader,
        writer,
        world,
        later,
        &mut Plain { voice: Text },
        &mut Nobody,
    );
    match ended {
        Ok(()) => Ok(()),
        Err(RunFault::Script(fault)) => Err(fault),
        Err(RunFault::Watcher(fault)) => match fault {},
    }
}
