//! The watchers of a plain run and of a strict one, and how watchers stack.

ghost use Rattle.std.specs.Prelude.{◌≡◌};
ghost use Rattle.script.specs.Watchers.{of_answer, of_outcome, strictly};

use crate::command::{Command, LineAnswer, LineReply};
use crate::watch::{Flow, Never, Turn, Watch};
use core_model::{Answer, Outcome, Polled, Taken, Worked};
use world::World;

/// Nobody: the run goes on whatever is replied.
#[derive(Clone, Copy)]
pub struct Nobody;

impl Watch for Nobody {
    ghost use Rattle.script.specs.Watchers.{nobody};
    ghost use Rattle.std.specs.Prelude.{refl};

    type Fault = Never;

    ghost watching = { nobody };

    ghost passes_audits = { λ before entries. refl };

    fn asks(&mut self, _command: &Command) {}

    fn seen(&mut self, _world: &World, _number: u64, _reply: &LineReply) -> Result<Flow, Never> {
        Ok(Flow::GoOn)
    }

    fn goes_by(&self) -> bool {
        false
    }

    fn unread(&mut self, _number: u64, _line: &[u8], _wanted: &str, _ends: bool) {}

    fn told(&mut self, _world: &World, _said: Flow) -> Result<Turn, Never> {
        Ok(Turn::GoOn)
    }
}

// What is said of what an event came to.
fn of_outcome(outcome: &Outcome) -> Flow
    ensures { result ≡ of_outcome outcome.now }
{
    match outcome {
        Outcome::Worked(Worked::Faulted(_)) | Outcome::Polled(Polled::Failed(_)) => Flow::End,
        _ => Flow::GoOn,
    }
}

// What is said of an answer of the world.
fn of_answer(answer: &world::Answer) -> Flow
    ensures { result ≡ of_answer answer.now }
{
    match answer {
        world::Answer::Taken { taken, .. } => match taken {
            Taken::Denied(_) => Flow::End,
            _ => Flow::GoOn,
        },
        world::Answer::Core(Answer::Outcome(outcome)) => of_outcome(outcome),
        _ => Flow::GoOn,
    }
}

/// What a strict watcher says: it ends the run where a line was refused, a packet denied or failed, or a group faulted.
pub fn strictly(reply: &LineReply) -> Flow
    ensures { result ≡ strictly reply.now }
{
    match reply {
        Ok(LineAnswer::Answered { answer, .. }) => of_answer(answer),
        Ok(_) => Flow::GoOn,
        Err(_) => Flow::End,
    }
}

/// A line wasn't done, and the run is strict.
#[derive(Clone, Copy, Debug, PartialEq, Eq)]
pub struct NotDone;

/// It ends a run behind the first reply that tells that a line wasn't done, and nowhere else.
#[derive(Clone, Copy)]
pub struct Strict;

impl Watch for Strict {
    ghost use Rattle.script.specs.Watchers.{strict};
    ghost use Rattle.std.specs.Prelude.{refl};

    type Fault = NotDone;

    ghost watching = { strict };

    ghost passes_audits = { λ before entries. refl };

    fn asks(&mut self, _command: &Command) {}

    fn seen(&mut self, _world: &World, _number: u64, reply: &LineReply) -> Result<Flow, NotDone> {
        Ok(strictly(reply))
    }

    fn goes_by(&self) -> bool {
        false
    }

    fn unread(&mut self, _number: u64, _line: &[u8], _wanted: &str, _ends: bool) {}

    fn told(&mut self, _world: &World, said: Flow) -> Result<Turn, NotDone> {
        match said {
            Flow::End => Err(NotDone),
            _ => Ok(Turn::GoOn),
        }
    }
}

// What follows from what two watchers say.
fn stronger(first: Flow, second: Flow) -> Flow {
    match (first, second) {
        (Flow::End, _) | (_, Flow::End) => Flow::End,
        (Flow::Pause, _) | (_, Flow::Pause) => Flow::Pause,
        (Flow::GoOn, Flow::GoOn) => Flow::GoOn,
    }
}

/// Two watchers: each sees all, and at each turn the second has it behind the first, unless that ends the run.
#[derive(Drop)]
pub struct Both<A, B> {
    pub first: A,
    pub second: B,
    // What each said since its last turn.
    first_said: Flow,
    second_said: Flow,
}

impl<A, B> Both<A, B> {
    /// These two.
    pub fn new(first: A, second: B) -> Both<A, B> {
        Both {
            first,
            second,
            first_said: Flow::GoOn,
            second_said: Flow::GoOn,
        }
    }
}

/// Which of two watchers ended a run, and why.
#[derive(Drop)]
pub enum Either<A, B> {
    First(A),
    Second(B),
}

impl<A: Watch, B: Watch> Watch for Both<A, B> {
    ghost use Rattle.script.specs.Watchers.{anyone};

    type Fault = Either<A::Fault, B::Fault>;

    ghost watching = { anyone };

    ghost passes_audits = { λ before entries. tt };

    fn asks(&mut self, command: &Command) {
        self.first.asks(command);
        self.second.asks(command);
    }

    fn seen(
        &mut self,
        world: &World,
        number: u64,
        reply: &LineReply,
    ) -> Result<Flow, Either<A::Fault, B::Fault>> {
        let first = match self.first.seen(world, number, reply) {
            Ok(flow) => flow,
            Err(fault) => return Err(Either::First(fault)),
        };
        let second = match self.second.seen(world, number, reply) {
            Ok(flow) => flow,
            Err(fault) => return Err(Either::Second(fault)),
        };
        self.first_said = stronger(self.first_said, first);
        self.second_said = stronger(self.second_said, second);
        Ok(stronger(first, second))
    }

    fn goes_by(&self) -> bool {
        self.first.goes_by() || self.second.goes_by()
    }

    fn unread(&mut self, number: u64, line: &[u8], wanted: &str, ends: bool) {
        self.first.unread(number, line, wanted, ends);
        self.second.unread(number, line, wanted, ends);
    }

    fn told(&mut self, world: &World, _said: Flow) -> Result<Turn, Either<A::Fault, B::Fault>> {
        let (first_said, second_said) = (self.first_said, self.second_said);
        self.first_said = Flow::GoOn;
        self.second_said = Flow::GoOn;
        let first = match self.first.told(world, first_said) {
            Ok(turn) => turn,
            Err(fault) => return Err(Either::First(fault)),
        };
        match self.second.told(world, second_said) {
            Ok(Turn::GoOn) => Ok(first),
            Ok(Turn::Rotate) => Ok(Turn::Rotate),
            Err(fault) => Err(Either::Second(fault)),
        }
    }
}

/// A watcher, if there is one.
impl<A: Watch> Watch for Option<A> {
    ghost use Rattle.script.specs.Watchers.{anyone};

    type Fault = A::Fault;

    ghost watching = { anyone };

    ghost passes_audits = { λ before entries. tt };

    fn asks(&mut self, command: &Command) {
        if let Some(watcher) = self {
            watcher.asks(command);
        }
    }

    fn seen(&mut self, world: &World, number: u64, reply: &LineReply) -> Result<Flow, A::Fault> {
        match self {
            Some(watcher) => watcher.seen(world, number, reply),
            None => Ok(Flow::GoOn),
        }
    }

    fn goes_by(&self) -> bool {
        match self {
            Some(watcher) => watcher.goes_by(),
            None => false,
        }
    }

    fn unread(&mut self, number: u64, line: &[u8], wanted: &str, ends: bool) {
        if let Some(watcher) = self {
            watcher.unread(number, line, wanted, ends);
        }
    }

    fn told(&mut self, world: &World, said: Flow) -> Result<Turn, A::Fault> {
        match self {
            Some(watcher) => watcher.told(world, said),
            None => Ok(Turn::GoOn),
        }
    }
}
