//! Why the core refuses a call.

ghost use Rattle.std.specs.Prelude.{◌≡◌};

use aql_packet::{PacketId, QueueId};
use policy::Right;
use std::alloc::{AllocError, AllocFailed};

/// Why a call was refused. After every refusal all is as before (own).
#[derive(Clone, Copy, Debug, PartialEq, Eq, thiserror::Error)]
pub enum Refusal {
    /// Memory was wanted and not to be had.
    #[error("out of memory")]
    OutOfMemory,
    /// No client has this number.
    #[error("no client has this number")]
    UnknownClient,
    /// No open queue has this number.
    #[error("no open queue has this number")]
    UnknownQueue,
    /// The client lacks this right on the object, or there is no such object.
    #[error("the client lacks {0}")]
    Denied(Right),
    /// A right to be taken is held by this packet in flight: of all such, the one with the least
    /// queue, then the least id.
    #[error("packet {} of queue {} holds a right that is to be taken", .packet.0, .queue.0)]
    Busy { queue: QueueId, packet: PacketId },
    /// The policy doesn't allow the rights to this client.
    #[error("the policy does not allow the rights")]
    NotAllowed,
    /// The packet handed over isn't the queue's next, which has this id.
    #[error("the next packet of the queue is {0}")]
    OutOfStep(u64),
    /// The queue launches nothing more, or was stopped before.
    #[error("the queue launches nothing more")]
    QueueDown,
    /// No packet in flight has this id and is of a kind that the call takes.
    #[error("no such packet is in flight")]
    NotInFlight,
    /// The packet's work isn't done.
    #[error("the work of the packet is not done")]
    NotFinished,
    /// The audit has no room for the entry beside those that packets in flight still need.
    #[error("the audit has no room")]
    AuditFull,
    /// A queue's size is no power of two from 2 to 4,096, or a range isn't 1 to 65,536 bytes long.
    #[error("the size is none that may be")]
    BadSize,
    /// As many queues are open as there may be at once.
    #[error("no more queues may be open")]
    TooMany,
    /// No object of its kind has this number.
    #[error("no object has this number")]
    UnknownObject,
    /// Another policy declares other clients, agents, regions, signals or kernels.
    #[error("the policy declares other objects")]
    OtherObjects,
}

impl Refusal {
    ghost use Rattle.core_model.specs.Refusals.{number_of};

    /// The refusal's number (own).
    pub fn number(&self) -> u8
        ensures { result ≡ number_of self.now }
    {
        match self {
            Refusal::OutOfMemory => 0,
            Refusal::UnknownClient => 1,
            Refusal::UnknownQueue => 2,
            Refusal::Denied(_) => 3,
            Refusal::Busy { .. } => 4,
            Refusal::NotAllowed => 5,
            Refusal::OutOfStep(_) => 6,
            Refusal::QueueDown => 7,
            Refusal::NotInFlight => 8,
            Refusal::NotFinished => 9,
            Refusal::AuditFull => 10,
            Refusal::BadSize => 11,
            Refusal::TooMany => 12,
            Refusal::UnknownObject => 13,
            Refusal::OtherObjects => 16,
        }
    }
}

impl From<AllocError> for Refusal {
    ghost use Rattle.core_model.specs.declared.refusal.Refusal.TheVariants as refusal;

    ghost from_gives = { λ _ why. why ≡ refusal.OutOfMemory };

    fn from(_want: AllocError) -> Refusal {
        Refusal::OutOfMemory
    }
}

impl<T: Drop> From<AllocFailed<T>> for Refusal {
    ghost use Rattle.core_model.specs.declared.refusal.Refusal.TheVariants as refusal;

    ghost from_gives = { λ _ why. why ≡ refusal.OutOfMemory };

    fn from(_want: AllocFailed<T>) -> Refusal {
        Refusal::OutOfMemory
    }
}
