//! What happens to the core, and what can be asked of it, as values.

ghost use Rattle.std.specs.Prelude.{◌≡◌, IfOk};

use crate::call::Call;
use aql_packet::{Address, AgentHandle, ClientId, PacketId, QueueId, SignalHandle};
use boxed::Boxed;
use policy::{Policy, PolicyRows};
use signals::Condition;
use std::alloc::{AllocError, Global};
use std::mem::size_of;

/// What can change the core, with all that was handed to it. An audit entry keeps it.
#[derive(Debug, Drop, PartialEq, Eq)]
pub enum Event {
    /// A client opens a queue of `size` slots on an agent.
    Open {
        client: ClientId,
        agent: AgentHandle,
        size: u64,
    },
    /// The packet processor hands over the next packet of a queue: its id and its 64 bytes.
    Take {
        queue: QueueId,
        packet: PacketId,
        bytes: [u8; 64],
    },
    /// A client or an administrator calls.
    Call(Call),
    /// An administrator puts another policy in force, which declares the same: these are its rows on rights.
    Reload {
        rows: PolicyRows,
    },
}

impl Event {
    /// The same event once more, with bytes of its own.
    pub fn copy(&self, alloc: Global) -> Result<Event, AllocError>
        ensures { IfOk result (λ copy. copy ≡ self.now) }
    {
        Ok(match self {
            Event::Open {
                client,
                agent,
                size,
            } => Event::Open {
                client: *client,
                agent: *agent,
                size: *size,
            },
            Event::Take {
                queue,
                packet,
                bytes,
            } => Event::Take {
                queue: *queue,
                packet: *packet,
                bytes: *bytes,
            },
            Event::Call(call) => Event::Call(call.copy(alloc)?),
            Event::Reload { rows } => Event::Reload {
                rows: rows.copy(alloc)?,
            },
        })
    }
}

/// A call that changes nothing.
#[derive(Clone, Copy, Debug, PartialEq, Eq)]
pub enum Query {
    /// A client reads `length` bytes of memory.
    HostRead {
        client: ClientId,
        address: Address,
        length: u64,
    },
    /// A client reads a signal.
    LoadSignal {
        client: ClientId,
        signal: SignalHandle,
    },
    /// A client compares a signal with a value.
    TestSignal {
        client: ClientId,
        signal: SignalHandle,
        condition: Condition,
        value: i64,
    },
    /// The objects on which a client has a right in force.
    List {
        client: ClientId,
    },
    /// The errors of a queue, in order.
    Errors {
        queue: QueueId,
    },
    /// The audit's entries, in order, and how many came before them.
    Audit,
}

/// A call of the core: one for each event but a reload, which is asked for by its policy.
#[derive(Drop)]
pub enum CoreRequest {
    /// A client opens a queue of `size` slots on an agent.
    Open {
        client: ClientId,
        agent: AgentHandle,
        size: u64,
    },
    /// The packet processor hands over the next packet of a queue: its id and its 64 bytes.
    Take {
        queue: QueueId,
        packet: PacketId,
        bytes: [u8; 64],
    },
    /// A client or an administrator calls.
    Call(Call),
    /// A call that changes nothing.
    Query(Query),
    /// An administrator hands in a policy, whose rows on rights are to be in force from then on.
    Reload(Boxed<Policy>),
}

// Values that are passed on with each call are small, since each hand moves the whole value.
const _: () = prove!(size_of::<Event>() <= 128);

const _: () = prove!(size_of::<CoreRequest>() <= 128);
