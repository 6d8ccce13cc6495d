//! What a lane keeps of a packet that is pending.

use aql_packet::PacketId;

/// A packet that was launched and is not done.
#[derive(Clone, Copy, Debug, PartialEq, Eq)]
pub struct PendingPacket {
    pub id: PacketId,
    /// Whether it is a barrier packet.
    pub is_barrier: bool,
    /// Whether a group of it is to run, as far as the lane knows: none has, or the last that did left some. Such a packet
    /// isn't asked to finish before, which would be refused.
    pub has_work: bool,
}
