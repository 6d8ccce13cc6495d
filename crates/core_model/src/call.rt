//! The calls of clients and administrators as values.

ghost use Rattle.std.specs.Prelude.{◌≡◌, IfOk};

use aql_packet::{Address, ClientId, PacketId, QueueId, SignalHandle};
use policy::{Object, Rights};
use sequences::Sequence;
use signals::SignalOp;
use std::alloc::{AllocError, Global};
use std::mem::size_of;

/// A call of a client or an administrator that can change the core, with all that was handed to it. It neither
/// opens a queue nor hands over a packet.
#[derive(Debug, Drop, PartialEq, Eq)]
pub enum Call {
    /// An administrator gives a client rights on an object.
    Grant {
        client: ClientId,
        object: Object,
        rights: Rights,
    },
    /// An administrator takes rights on an object from a client.
    Revoke {
        client: ClientId,
        object: Object,
        rights: Rights,
    },
    /// A queue is stopped: it launches nothing from then on.
    Stop {
        queue: QueueId,
    },
    /// A queue is closed: it is gone from then on, with each packet of it in flight.
    Close {
        queue: QueueId,
    },
    /// The next group of a kernel or agent dispatch in flight is run.
    RunNext {
        queue: QueueId,
        packet: PacketId,
    },
    /// A barrier packet in flight looks at its dependencies.
    Poll {
        queue: QueueId,
        packet: PacketId,
    },
    /// A packet whose work is done is completed and released.
    Finish {
        queue: QueueId,
        packet: PacketId,
    },
    /// A client writes bytes to memory.
    HostWrite {
        client: ClientId,
        address: Address,
        bytes: Sequence<u8>,
    },
    /// A client changes a signal.
    ChangeSignal {
        client: ClientId,
        signal: SignalHandle,
        operation: SignalOp,
    },
}

// A call is small, since each hand moves the whole value.
const _: () = prove!(size_of::<Call>() <= 128);

impl Call {
    /// The same call once more, with bytes of its own.
    pub fn copy(&self, alloc: Global) -> Result<Call, AllocError>
        ensures { IfOk result (λ copy. copy ≡ self.now) }
    {
        Ok(match self {
            Call::Grant {
                client,
                object,
                rights,
            } => Call::Grant {
                client: *client,
                object: *object,
                rights: *rights,
            },
            Call::Revoke {
                client,
                object,
                rights,
            } => Call::Revoke {
                client: *client,
                object: *object,
                rights: *rights,
            },
            Call::Stop { queue } => Call::Stop { queue: *queue },
            Call::Close { queue } => Call::Close { queue: *queue },
            Call::RunNext { queue, packet } => Call::RunNext {
                queue: *queue,
                packet: *packet,
            },
            Call::Poll { queue, packet } => Call::Poll {
                queue: *queue,
                packet: *packet,
            },
            Call::Finish { queue, packet } => Call::Finish {
                queue: *queue,
                packet: *packet,
            },
            Call::HostWrite {
                client,
                address,
                bytes,
            } => Call::HostWrite {
                client: *client,
                address: *address,
                bytes: bytes.copy(alloc)?,
            },
            Call::ChangeSignal {
                client,
                signal,
                operation,
            } => Call::ChangeSignal {
                client: *client,
                signal: *signal,
                operation: *operation,
            },
        })
    }
}
