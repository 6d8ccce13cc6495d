//! Who watches a run: it sees each line and its reply as these happen, and may write between two lines and end the run there.

use crate::command::{Command, LineReply};
use world::World;

/// Whether a run goes on at once behind a reply.
#[derive(Clone, Copy, Debug, PartialEq, Eq)]
pub enum Flow {
    /// With what is left of the line, and the next one.
    GoOn,
    /// The watcher has its turn before the next line.
    Pause,
    /// The watcher has its turn, and nothing more of this line is done.
    End,
}

impl Flow {
    ghost use Rattle.std.specs.Prelude.{◌≡◌, true, false};
    ghost use Rattle.script.specs.declared.watch.Flow.TheVariants.{GoOn};

    /// Whether the watcher has its turn.
    pub fn has_turn(self) -> bool
        ensures none { result ≡ false → self ≡ GoOn }
        ensures some { result ≡ true → self ≡ GoOn → ⊥ }
    {
        match self {
            Flow::GoOn => false,
            Flow::Pause | Flow::End => true,
        }
    }
}

/// What is done between two lines.
#[derive(Clone, Copy, Debug, PartialEq, Eq)]
pub enum Turn {
    /// Nothing.
    GoOn,
    /// The audit is rotated: the watcher has no use any more for the entries so far.
    Rotate,
}

/// Why a watcher that never ends a run ended it: it has no value.
#[derive(Clone, Copy)]
pub enum Never {}

/// Sees what each line asks and what it is answered, and says whether the run goes on at once. Where it doesn't, the replies so
/// far are handed over, and the watcher has its turn: it may write, have the audit rotated, or end the run by a fault of its
/// own. Of the world it changes nothing else. An audit isn't shown, since it is lent and not copied; the run goes on there.
pub trait Watch {
    ghost use Rattle.std.specs.Prelude.{◌≡◌, ℕ, List, IfOk, OnErr, OnOk, Ok, true};
    ghost use Rattle.core_model.specs.declared.entry.Entry.{Entry};
    ghost use Rattle.core_model.specs.declared.answer.Answer.TheVariants.{Audit};
    ghost use Rattle.world.specs.declared.reply.Answer.TheVariants.{Core};
    ghost use Rattle.script.specs.declared.command.LineAnswer.TheVariants.{Answered};
    ghost use Rattle.script.specs.declared.command.NumberMeaning.TheVariants.{Plain};
    ghost use Rattle.script.specs.declared.watch.Flow.TheVariants.{GoOn};
    ghost use Rattle.script.specs.Runs.{Watching};

    /// Why it ends a run.
    type Fault: Drop;

    /// What it may say to a reply, and where it may end the run or let it go on.
    ghost watching: { Watching };

    /// It goes on behind an audit.
    ghost passes_audits: { (before : ℕ) (entries : List Entry) → Self.watching.says (Ok (Answered Plain (Core (Audit before entries)))) GoOn };

    /// A line asks this.
    fn asks(&mut self, command: &Command);

    /// The line of this number, from 1, is replied to; the world is the one behind it. Where the watcher fails the run ends, and
    /// the reply isn't told.
    fn seen(&mut self, world: &World, number: u64, reply: &LineReply) -> Result<Flow, Self::Fault>
        ensures said { IfOk result (watching.says reply.now) }
        ensures failed { OnErr result watching.may_fail };

    /// Whether the run goes on behind lines of no form, and a turn of the watcher.
    fn goes_by(&self) -> bool
        ensures { result ≡ true → watching.lets_by };

    /// The line of this number has no form, as this text tells, unless it is empty; of one that is too long these are the first
    /// bytes, one more than a line may have. Whether the run ends there.
    fn unread(&mut self, number: u64, line: &[u8], wanted: &str, ends: bool);

    /// Its turn, behind the replies to a line to which it said so: they are handed over, and the next line isn't begun.
    fn told(&mut self, world: &World, said: Flow) -> Result<Turn, Self::Fault>
        ensures { OnOk result (watching.passes said) };
}
