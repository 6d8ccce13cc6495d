//! What is asked of queues and packets as queues are drained, and what it comes to.

ghost use Rattle.std.specs.Prelude.{◌≡◌};
ghost use Rattle.readable.specs.Moves.{came_of, command_of, of_answer, of_core, packet_of, queue_of};

use aql_packet::{PacketId, QueueId};
use core_model::{Answer, Call, Outcome, Taken};
use script::{Command, LineAnswer, LineReply, NumberMeaning};
use world::{Answer as Made, Refusal, Request};

/// A request of a drain: what a line of a script asks.
#[derive(Clone, Copy)]
pub enum Move {
    /// `serve Q`
    Serve { queue: QueueId },
    /// `run Q ID`
    Run { queue: QueueId, packet: PacketId },
    /// `poll Q ID`
    Poll { queue: QueueId, packet: PacketId },
    /// `finish Q ID`
    Finish { queue: QueueId, packet: PacketId },
}

/// What a request of a drain came to.
#[derive(Clone, Copy)]
pub enum Came {
    /// Nothing: no packet is published there.
    Nothing,
    /// This became of a packet that was handed over.
    Taken { packet: PacketId, taken: Taken },
    /// An event came to this.
    Outcome(Outcome),
    /// It was refused.
    Refused(Refusal),
}

// A call as a command.
fn calls(call: Call) -> Command
    ensures { result ≡ Command.Ask (Request.Call call) }
{
    Command::Ask(Request::Call(call))
}

/// What the line of a request asks.
pub fn command_of(asked: Move) -> Command
    ensures { result ≡ command_of asked }
{
    match asked {
        Move::Serve { queue } => Command::Serve { queue },
        Move::Run { queue, packet } => calls(Call::RunNext { queue, packet }),
        Move::Poll { queue, packet } => calls(Call::Poll { queue, packet }),
        Move::Finish { queue, packet } => calls(Call::Finish { queue, packet }),
    }
}

// What an answer of the core says.
fn of_core(answer: &Answer) -> Came
    ensures { result ≡ of_core answer.now }
{
    match answer {
        Answer::Outcome(outcome) => Came::Outcome(*outcome),
        _ => Came::Nothing,
    }
}

// What an answer of the world says.
fn of_answer(answer: &Made) -> Came
    ensures { result ≡ of_answer answer.now }
{
    match answer {
        Made::Taken { packet, taken } => Came::Taken {
            packet: *packet,
            taken: *taken,
        },
        Made::Core(answer) => of_core(answer),
        _ => Came::Nothing,
    }
}

/// What a reply says.
pub fn came_of(reply: &LineReply) -> Came
    ensures { result ≡ came_of reply.now }
{
    match reply {
        Ok(LineAnswer::Answered { answer, .. }) => of_answer(answer),
        Ok(_) => Came::Nothing,
        Err(why) => Came::Refused(*why),
    }
}

/// The reply that says it.
pub fn reply_of(came: Came) -> LineReply {
    let meaning = NumberMeaning::Plain;
    match came {
        Came::Nothing => Ok(LineAnswer::Empty),
        Came::Taken { packet, taken } => Ok(LineAnswer::Answered {
            meaning,
            answer: Made::Taken { packet, taken },
        }),
        Came::Outcome(outcome) => Ok(LineAnswer::Answered {
            meaning,
            answer: Made::Core(Answer::Outcome(outcome)),
        }),
        Came::Refused(why) => Err(why),
    }
}

impl Move {
    /// The queue that it is about.
    pub fn queue(self) -> QueueId
        ensures { result ≡ queue_of self }
    {
        match self {
            Move::Serve { queue } => queue,
            Move::Run { queue, .. } => queue,
            Move::Poll { queue, .. } => queue,
            Move::Finish { queue, .. } => queue,
        }
    }

    /// The packet that it is about, if it names one.
    pub fn packet(self) -> Option<PacketId>
        ensures { result ≡ packet_of self }
    {
        match self {
            Move::Serve { .. } => None,
            Move::Run { packet, .. } => Some(packet),
            Move::Poll { packet, .. } => Some(packet),
            Move::Finish { packet, .. } => Some(packet),
        }
    }
}
