//! The engine: it reads a line, does what it asks, and writes the reply.

ghost use Rattle.std.specs.Prelude.{◌≡◌, [], ◌++◌, IfErr, IfOk, MatchResult, OnErr, OnOk, string_bytes, true};
ghost use Rattle.script.specs.Expansions.{does};
ghost use Rattle.script.specs.Runs.{Cut, IsCutBy, Served, TellsBehind, Told, audit_reply, by_line, law, names};

use crate::command::{Command, LineReply};
use crate::expansions::perform;
use crate::fault::RunFault;
use crate::lines::{Line, read_line};
use crate::voice::Voice;
use crate::watch::{Flow, Watch};
use core_model::Query;
use policy::Policy;
use std::alloc::{AllocError, Global};
use world::{Request, World};

// The most room that is kept from one reply to the next (own).
const KEPT_ROOM: usize = 4096;

// Whether a line asks for the audit.
fn asks_for_audit(command: &Command) -> bool
    ensures { result ≡ true → command.now ≡ Command.Ask (Request.Query Query.Audit) }
{
    match command {
        Command::Ask(Request::Query(Query::Audit)) => true,
        _ => false,
    }
}

// Puts the audit behind the other replies. For want of memory nothing is put there.
fn tell_audit<S: Voice>(
    alloc: Global,
    world: &World,
    voice: &S,
    number: u64,
    out: &mut String,
) -> Result<(), AllocError>
    ensures told { OnOk result (TellsBehind (S.tells (names world.now) (audit_reply world.now)) (string_bytes out.old) (string_bytes out.new)) }
    ensures wanted { OnErr result (string_bytes out.new ≡ string_bytes out.old) }
{
    let mut reply = String::new(alloc);
    voice.tell_audit(&mut reply, world, number)?;
    out.push_str(reply.as_str())
}

// Empties the text in which a reply is made; it keeps its room, unless that is large.
fn empty(alloc: Global, reply: &mut String)
    ensures { string_bytes reply.new ≡ [] }
{
    if reply.capacity() > KEPT_ROOM {
        *reply = String::new(alloc);
    } else {
        reply.clear();
    }
}

// Makes a reply in a text that is kept for its room.
#[inline(always)]
fn make_reply<S: Voice>(
    alloc: Global,
    world: &World,
    voice: &S,
    number: u64,
    told: &LineReply,
    reply: &mut String,
) -> Result<(), AllocError>
    ensures { OnOk result (S.tells (names world.now) told.now (string_bytes reply.new)) }
{
    empty(alloc, reply);
    voice.tell(alloc, reply, world.policy(), number, told)
}

// Shows a reply to the watcher, and puts its text behind the others; where the watcher fails, or for want of memory, nothing
// is put there.
fn show<V: Watch>(
    world: &World,
    watcher: &mut V,
    number: u64,
    told: &LineReply,
    reply: &str,
    out: &mut String,
) -> Result<Flow, RunFault<V::Fault>>
    ensures shown { IfOk result (λ flow. (string_bytes out.new ≡ string_bytes out.old ++ reply.now) × V.watching.says told.now flow) }
    ensures kept { OnErr result (string_bytes out.new ≡ string_bytes out.old) }
    ensures cut { IfErr result (IsCutBy V.watching.may_fail) }
{
    match watcher.seen(world, number, told) {
        Ok(flow) => {
            out.push_str(reply)?;
            Ok(flow)
        }
        Err(fault) => Err(RunFault::Watcher(fault)),
    }
}

// Does what the line of a number asks, shows the reply to the watcher, and puts it behind the others; where the watcher fails,
// or for want of memory, nothing is put there.
fn serve<S: Voice, V: Watch>(
    alloc: Global,
    world: &mut World,
    later: &[Policy],
    voice: &S,
    watcher: &mut V,
    number: u64,
    command: Command,
    reply: &mut String,
    out: &mut String,
) -> Result<Flow, RunFault<V::Fault>>
    ensures served { (told : Told) × does later.now command world.old told world.new
        × IfOk result (λ flow. TellsBehind (S.tells (names world.new) told) (string_bytes out.old) (string_bytes out.new) × V.watching.says told flow) }
    ensures kept { OnErr result (string_bytes out.new ≡ string_bytes out.old) }
    ensures cut { IfErr result (IsCutBy V.watching.may_fail) }
{
    if asks_for_audit(&command) {
        tell_audit(alloc, world, voice, number, out)?;
        return Ok(Flow::GoOn);
    }
    watcher.asks(&command);
    let told = perform(alloc, world, later, command);
    make_reply(alloc, world, voice, number, &told, reply)?;
    show(world, watcher, number, &told, reply.as_str(), out)
}

/// Does what the line of a number asks, shows the reply to the watcher, puts it behind the others, and answers what the watcher
/// says to it; none where the line has no form. Where it wants memory, or the watcher fails, nothing is put there, and what the
/// line asks is done or nothing is. The reply is made in a text of its own, which is kept for its room.
#[tactic(auto, unfolding(crate::specs::Runs::law))]
pub fn answer<S: Voice, V: Watch>(
    alloc: Global,
    world: &mut World,
    later: &[Policy],
    voice: &S,
    watcher: &mut V,
    number: u64,
    line: &[u8],
    reply: &mut String,
    out: &mut String,
) -> Result<Option<Flow>, RunFault<V::Fault>>
    ensures { MatchResult result
        (Served (law (by_line S.tells) V.watching later.now) world.old world.new line.now (string_bytes out.old) (string_bytes out.new))
        (Cut (law (by_line S.tells) V.watching later.now) world.old world.new line.now (string_bytes out.old) (string_bytes out.new)) }
{
    match read_line(alloc, world.policy(), later.len(), line)? {
        None => Ok(None),
        Some(Line::Quiet) => Ok(Some(Flow::GoOn)),
        Some(Line::Asks(command)) => {
            let flow = serve(
                alloc, world, later, voice, watcher, number, command, reply, out,
            )?;
            Ok(Some(flow))
        }
    }
}

/// How the lines of a run are read and replied to.
pub trait Style {
    ghost use Rattle.std.specs.Prelude.{MatchResult, string_bytes};
    ghost use Rattle.script.specs.Runs.{Answering, Cut, Served, law};

    /// What a line may come to.
    ghost answering: { Answering };

    /// Does what the line of a number asks, shows its replies to the watcher, puts them behind the others, and answers what the
    /// watcher says to them; none where the line has no form.
    fn answer<V: Watch>(
        &mut self,
        alloc: Global,
        world: &mut World,
        later: &[Policy],
        watcher: &mut V,
        number: u64,
        line: &[u8],
        reply: &mut String,
        out: &mut String,
    ) -> Result<Option<Flow>, RunFault<V::Fault>>
        ensures { MatchResult result
            (Served (law answering V.watching later.now) world.old world.new line.now (string_bytes out.old) (string_bytes out.new))
            (Cut (law answering V.watching later.now) world.old world.new line.now (string_bytes out.old) (string_bytes out.new)) };

    /// What is wanted in the last line of no form, in a line of text; nothing where no more is known of it.
    fn wanted(&self) -> &str;
}

/// Each line is one of a script, and replied to in a voice.
#[derive(Clone, Copy)]
pub struct Plain<S> {
    pub voice: S,
}

impl<S: Voice> Style for Plain<S> {
    ghost use Rattle.script.specs.Runs.{by_line};

    ghost answering = { by_line S.tells };

    #[inline(always)]
    fn answer<V: Watch>(
        &mut self,
        alloc: Global,
        world: &mut World,
        later: &[Policy],
        watcher: &mut V,
        number: u64,
        line: &[u8],
        reply: &mut String,
        out: &mut String,
    ) -> Result<Option<Flow>, RunFault<V::Fault>> {
        answer(
            alloc,
            world,
            later,
            &self.voice,
            watcher,
            number,
            line,
            reply,
            out,
        )
    }

    fn wanted(&self) -> &str {
        ""
    }
}
