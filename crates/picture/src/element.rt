//! What is drawn.

use aql_packet::{AgentHandle, ClientId, KernelObject, PacketId, QueueId};
use core_model::Satisfied;
use policy::{Object, Rights};
use queue_error::QueueError;
use sequences::Sequence;

/// What a packet in flight is.
#[derive(Clone, Copy)]
pub enum Work {
    /// A dispatch of this kernel.
    Kernel(KernelObject),
    /// A dispatch of the agent's function of this number.
    Agent(u16),
    /// A barrier-AND.
    BarrierAnd,
    /// A barrier-OR.
    BarrierOr,
}

/// How a packet left flight.
#[derive(Clone, Copy)]
pub enum Ending {
    /// It was completed.
    Finished,
    /// It broke a rule at its work.
    Faulted,
    /// A signal that it waited for failed it.
    Failed,
    /// Its queue was stopped or closed.
    Stopped,
    /// It hadn't, at the audit's end.
    Open,
}

/// What an entry is drawn as.
#[derive(Clone, Copy)]
pub enum Sign {
    /// A grant.
    Grant {
        client: ClientId,
        object: Object,
        rights: Rights,
    },
    /// A revocation.
    Revocation {
        client: ClientId,
        object: Object,
        rights: Rights,
    },
    /// A queue's lane, from its opening to its close.
    Lane {
        queue: QueueId,
        client: ClientId,
        agent: AgentHandle,
    },
    /// The stop of a queue.
    Stop,
    /// The close of a queue.
    Close,
    /// A packet, from its launch to its release.
    Bar {
        packet: PacketId,
        work: Work,
        ending: Ending,
    },
    /// A denial.
    Denial(QueueError),
    /// A group of a packet that has run.
    Group {
        packet: PacketId,
        group: u32,
    },
    /// A fault of a packet in flight.
    Fault(QueueError),
    /// The failure of a barrier packet by a signal that it waited for.
    Failure(QueueError),
    /// A poll of a packet that saw a signal as 0.
    Look {
        packet: PacketId,
        seen: Satisfied,
    },
    /// A completion.
    Completion(PacketId),
    /// A client's own write.
    Write(ClientId),
    /// A client's own change of a signal.
    Change(ClientId),
    /// A reload of a policy with so many allow rows and deny rows.
    Reload {
        allows: usize,
        denies: usize,
    },
    /// An entry that no legal history has.
    Nothing,
}

/// A place of the page: below the place of an entry among those of the audit, from 1, where 0 is what the audit begins
/// from; in a lane (0 is that of the administrator and of clients, any other that of the queue of this number), in a row of
/// it.
#[derive(Clone, Copy)]
pub struct Spot {
    pub at: u32,
    pub lane: u64,
    pub row: u8,
}

/// A queue's lane.
#[derive(Clone, Copy, Debug)]
pub struct Lane {
    /// The queue's number.
    pub queue: u64,
    /// The lowest row, from 0, that it needs.
    pub depth: u8,
}

/// Which entries are asked for, by their numbers.
#[derive(Clone, Copy, Debug, PartialEq, Eq)]
pub struct Span {
    /// The first, and where it isn't in the audit the audit's first.
    pub first: u64,
    /// The last, and where it isn't in the audit the audit's last.
    pub last: u64,
}

/// What the elements of a layer of the page are drawn by.
#[derive(Drop)]
pub struct Frame {
    /// Whether the layer is that of what goes over whole lanes, behind the other.
    pub is_behind: bool,
    /// How many entries came before the audit's.
    pub before: u64,
    /// How many entries of the audit aren't drawn, on the left.
    pub skipped: u32,
    /// The lanes of queues, from the top.
    pub lanes: Sequence<Lane>,
    /// How far entries are from each other.
    pub step: u8,
    /// How many places of a band stand behind its first.
    pub more: u8,
    /// Of how many entries between two numbers on the axis none has its own there.
    pub bare: u8,
}

/// What is drawn of an entry: a sign at a place, as wide as up to another entry's place.
#[derive(Clone, Copy)]
pub struct Element {
    pub spot: Spot,
    pub until: u32,
    pub sign: Sign,
}
