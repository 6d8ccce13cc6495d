//! Packets that were taken of a queue.

use aql_packet::PacketId;

/// A packet that was launched or denied: its id, and its 64 bytes as the core got them.
#[derive(Clone, Copy, Debug, PartialEq, Eq)]
pub struct Served {
    pub id: PacketId,
    pub bytes: [u8; 64],
}
