//! What the lines of a script ask of a world, and what they are answered.

use aql_packet::{PacketId, QueueId};
use world::{Answer, Refusal, Request, Sent, Shown};

/// What a line of a script asks: one request, or several in turn.
#[derive(Drop)]
pub enum Command {
    /// One request.
    Ask(Request),
    /// A producer of a queue publishes a packet, its words in order, under a ticket of its own.
    Publish {
        queue: QueueId,
        producer: u64,
        ticket: PacketId,
        words: [u64; 8],
    },
    /// A producer of a queue reserves a ticket, and publishes a packet under it.
    Submit {
        queue: QueueId,
        producer: u64,
        words: [u64; 8],
    },
    /// A queue's processor collects the packet at the read index.
    Peek {
        queue: QueueId,
    },
    /// A queue's processor retires the packet that it has handed over.
    Retire {
        queue: QueueId,
    },
    /// A queue's processor collects the next packet, hands it over, and retires it once it is launched or denied.
    Serve {
        queue: QueueId,
    },
    /// An administrator hands in the further policy of this number, from 1.
    Reload {
        number: u64,
    },
}

/// How the answer to a request is told.
#[derive(Clone, Copy)]
pub enum NumberMeaning {
    /// As it is: a number that was read is the read index.
    Plain,
    /// The number that was read is a ticket.
    Ticket,
    /// The number that was read is a packet's word.
    Word,
    /// The number that was read is the read index before it was raised.
    Raised,
    /// The signal's old value is told.
    Old,
}

/// What a line is answered that isn't refused.
#[derive(Drop)]
pub enum LineAnswer {
    /// What the world answered to a request.
    Answered {
        meaning: NumberMeaning,
        answer: Answer,
    },
    /// What became of a packet that was to be published.
    Sent(Sent),
    /// The packet at the read index.
    Shown(Shown),
    /// No packet is published at the read index.
    Empty,
}

/// The reply to a line.
pub type LineReply = Result<LineAnswer, Refusal>;
