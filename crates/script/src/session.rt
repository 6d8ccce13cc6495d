//! A script in the course of its run: bytes are taken as they come, and each line that ends is served.

ghost use Rattle.std.specs.Prelude.{◌≡◌, ◌⊎◌, ◌∷◌, [], ◌++◌, ◌+◌, ◌<◌, ◌^◌, MatchOption, MatchResult, length, true};
ghost use Rattle.script.specs.Runs.{law};
ghost use Rattle.script.specs.Sessions.{AnsweredLine, Failed, FailedLine, FailedPart, FeedBetween, FlowOf, GoesBy, HasNoFeed, TookPart, TookSome, AnsweredEnd, begun, pending, with_further, at_end};
ghost use Rattle.script.specs.declared.fault.ScriptFault.TheVariants.{BadLine, OutOfMemory};

use crate::engine::Style;
use crate::fault::{RunFault, ScriptFault};
use crate::lines::LONGEST_LINE;
use crate::watch::{Flow, Watch};
use memchr::memchr;
use policy::Policy;
use std::alloc::Global;
use world::World;

/// What a run keeps between bytes.
#[derive(Drop)]
pub struct Session {
    /// The bytes of the line that is begun.
    pub line: Vec<u8>,
    /// That line's number, from 1.
    pub number: u64,
    /// The text in which each reply is made, kept for its room.
    pub reply: String,
    /// The replies that were not handed over yet.
    pub out: String,
}

impl Session {
    /// A run that has taken nothing yet.
    pub fn new(alloc: Global) -> Session
        ensures line { begun result ≡ [] }
        ensures number { result.number ≡ 1 }
        ensures out { pending result ≡ [] }
    {
        Session {
            line: Vec::new(alloc),
            number: 1,
            reply: String::new(alloc),
            out: String::new(alloc),
        }
    }
}

// Begins the next line.
fn next_line(session: &mut Session)
    requires { session.old.number + 1 < 2 ^ 64 }
    ensures line { begun session.new ≡ [] }
    ensures number { session.new.number ≡ session.old.number + 1 }
    ensures out { pending session.new ≡ pending session.old }
{
    session.line.clear();
    session.number += 1;
}

// Tells the watcher of a line of no form: it has its turn, and the run goes on; or the run ends.
fn go_by<V: Watch>(
    watcher: &mut V,
    number: u64,
    line: &[u8],
    wanted: &str,
) -> Result<Flow, ScriptFault>
    ensures { GoesBy V.watching.lets_by number result }
{
    let goes_by = watcher.goes_by();
    watcher.unread(number, line, wanted, !goes_by);
    if goes_by {
        Ok(Flow::Pause)
    } else {
        Err(ScriptFault::BadLine(number))
    }
}

// What is said to a line, if it has a form; else what follows where it has none.
fn flow_of<V: Watch>(
    watcher: &mut V,
    number: u64,
    line: &[u8],
    wanted: &str,
    said: Option<Flow>,
) -> Result<Flow, ScriptFault>
    ensures { FlowOf V.watching.lets_by number said result }
{
    match said {
        Some(flow) => Ok(flow),
        None => go_by(watcher, number, line, wanted),
    }
}

// Serves a line that lies whole in what was read.
#[tactic(auto, unfolding(crate::specs::Runs::law))]
fn serve_line<L: Style, V: Watch>(
    alloc: Global,
    world: &mut World,
    later: &[Policy],
    style: &mut L,
    watcher: &mut V,
    session: &mut Session,
    line: &[u8],
) -> Result<Flow, RunFault<V::Fault>>
    requires { session.old.number + 1 < 2 ^ 64 }
    ensures { MatchResult result
        (AnsweredLine (law L.answering V.watching later.now) world.old world.new line.now session.old session.new)
        (FailedLine (law L.answering V.watching later.now) world.old world.new line.now session.old session.new) }
{
    let number = session.number;
    let said = style.answer(
        alloc,
        world,
        later,
        watcher,
        number,
        line,
        &mut session.reply,
        &mut session.out,
    )?;
    let flow = flow_of(watcher, number, line, style.wanted(), said)?;
    next_line(session);
    Ok(flow)
}

// Serves the line that was begun, which ends here.
#[tactic(auto, unfolding(crate::specs::Runs::law))]
fn end_line<L: Style, V: Watch>(
    alloc: Global,
    world: &mut World,
    later: &[Policy],
    style: &mut L,
    watcher: &mut V,
    session: &mut Session,
) -> Result<Flow, RunFault<V::Fault>>
    requires { session.old.number + 1 < 2 ^ 64 }
    ensures { MatchResult result
        (AnsweredLine (law L.answering V.watching later.now) world.old world.new (begun session.old) session.old session.new)
        (FailedLine (law L.answering V.watching later.now) world.old world.new (begun session.old) session.old session.new) }
{
    let number = session.number;
    let said = style.answer(
        alloc,
        world,
        later,
        watcher,
        number,
        session.line.as_slice(),
        &mut session.reply,
        &mut session.out,
    )?;
    let line = session.line.as_slice();
    let flow = flow_of(watcher, number, line, style.wanted(), said)?;
    next_line(session);
    Ok(flow)
}

// The first bytes of some, so many, or all.
fn first_of(bytes: &[u8], count: usize) -> &[u8] {
    bytes.split_at(count.min(bytes.len())).0
}

// Tells the watcher of a line that this part makes too long, by as many of its bytes as show that: why the run ends.
fn refuse_long<V: Watch>(watcher: &mut V, session: &mut Session, part: &[u8]) -> ScriptFault
    ensures out { pending session.new ≡ pending session.old }
    ensures fault { (result ≡ BadLine session.old.number) ⊎ (result ≡ OutOfMemory) }
{
    let room = LONGEST_LINE
        .saturating_sub(session.line.len())
        .saturating_add(1);
    if session
        .line
        .extend_from_slice(first_of(part, room))
        .is_err()
    {
        return ScriptFault::OutOfMemory;
    }
    watcher.unread(session.number, session.line.as_slice(), "", true);
    ScriptFault::BadLine(session.number)
}

// Takes a part of a line: it belongs to the line that is begun. A line that is too long ends the run.
fn take_part<V: Watch>(
    watcher: &mut V,
    session: &mut Session,
    part: &[u8],
) -> Result<(), ScriptFault>
    ensures { MatchResult result
        (λ _. TookPart session.old session.new part.now)
        (FailedPart session.old session.new part.now) }
{
    if part.is_empty() {
        return Ok(());
    }
    if session.line.len() + part.len() > LONGEST_LINE {
        return Err(refuse_long(watcher, session, part));
    }
    session.line.extend_from_slice(part)?;
    Ok(())
}

// Takes the rest of a line, and the line feed behind it: what the watcher says to it.
fn take_line<L: Style, V: Watch>(
    alloc: Global,
    world: &mut World,
    later: &[Policy],
    style: &mut L,
    watcher: &mut V,
    session: &mut Session,
    part: &[u8],
) -> Result<Flow, RunFault<V::Fault>>
    requires number { session.old.number + 1 < 2 ^ 64 }
    requires part { HasNoFeed part.now }
    ensures { MatchResult result
        (AnsweredLine (law L.answering V.watching later.now) world.old world.new (begun session.old ++ part.now) session.old session.new)
        (Failed (law L.answering V.watching later.now) world.old world.new session.old session.new (with_further session.old (part.now ++ 10 ∷ []))) }
{
    if session.line.is_empty() {
        return serve_line(alloc, world, later, style, watcher, session, part);
    }
    take_part(watcher, session, part)?;
    end_line(alloc, world, later, style, watcher, session)
}

// The bytes before the first line feed, and those behind it.
fn split_line(bytes: &[u8]) -> Option<(&[u8], &[u8])>
    ensures { MatchOption result (HasNoFeed bytes.now) (λ found. FeedBetween bytes.now found.0.now found.1.now) }
{
    let place = memchr(b'\n', bytes)?;
    let (line, behind) = bytes.split_at(place);
    Some((line, behind.split_at(1).1))
}

/// Takes further bytes of the script, up to the end of a line behind which the watcher has its turn: what that said, and the
/// bytes that are left. Where it said that the run goes on, none are left.
pub fn take_bytes<'a, L: Style, V: Watch>(
    alloc: Global,
    world: &mut World,
    later: &[Policy],
    style: &mut L,
    watcher: &mut V,
    session: &mut Session,
    bytes: &'a [u8],
) -> Result<(Flow, &'a [u8]), RunFault<V::Fault>>
    requires { session.old.number + length bytes.now < 2 ^ 64 }
    ensures { MatchResult result
        (λ taken. TookSome (law L.answering V.watching later.now) world.old world.new session.old session.new bytes.now taken.1.now taken.0)
        (Failed (law L.answering V.watching later.now) world.old world.new session.old session.new (with_further session.old bytes.now)) }
{
    let mut rest = bytes;
    while let Some((line, further)) = split_line(rest) {
        let said = take_line(alloc, world, later, style, watcher, session, line)?;
        rest = further;
        if said.has_turn() {
            return Ok((said, rest));
        }
    }
    take_part(watcher, session, rest)?;
    Ok((Flow::GoOn, &[]))
}

/// Takes the end of the script: a line that is begun ends there. What the watcher says to it.
pub fn take_end<L: Style, V: Watch>(
    alloc: Global,
    world: &mut World,
    later: &[Policy],
    style: &mut L,
    watcher: &mut V,
    session: &mut Session,
) -> Result<Flow, RunFault<V::Fault>>
    requires { session.old.number + 1 < 2 ^ 64 }
    ensures { MatchResult result
        (AnsweredEnd (law L.answering V.watching later.now) world.old world.new session.old session.new)
        (Failed (law L.answering V.watching later.now) world.old world.new session.old session.new (at_end session.old)) }
{
    if session.line.is_empty() {
        return Ok(Flow::GoOn);
    }
    end_line(alloc, world, later, style, watcher, session)
}
