//! Why a change of grants is refused.

use aql_packet::{PacketId, QueueId};

/// Why a change of grants is refused.
#[derive(Clone, Copy, Debug, PartialEq, Eq, thiserror::Error)]
pub enum GrantRefusal {
    /// The policy doesn't allow one of the rights.
    #[error("the policy does not allow one of the rights")]
    NotAllowed,
    /// A packet in flight of a queue of the client holds one of the rights: of these packets the one
    /// with the least queue, and of that queue the one with the least id.
    #[error("packet {} of queue {} holds one of the rights", .packet.0, .queue.0)]
    Busy {
        /// Its queue.
        queue: QueueId,
        /// The packet.
        packet: PacketId,
    },
    /// The policy doesn't declare the object.
    #[error("the policy does not declare the object")]
    UnknownObject,
    /// The policy doesn't declare the client.
    #[error("the policy does not declare the client")]
    UnknownClient,
}

impl GrantRefusal {
    ghost use Rattle.std.specs.Prelude.{◌≡◌};
    ghost use Rattle.grants.specs.Refusals.{number_of};

    /// The refusal's number (own).
    pub fn number(&self) -> u8
        ensures { result ≡ number_of self.now }
    {
        match self {
            GrantRefusal::NotAllowed => 1,
            GrantRefusal::Busy { .. } => 2,
            GrantRefusal::UnknownObject => 3,
            GrantRefusal::UnknownClient => 4,
        }
    }
}
