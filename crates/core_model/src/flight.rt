//! Packets in flight, and how far they have come.

use crate::outcome::{NONE_SATISFIED, Satisfied};
use aql_packet::{Packet, PacketId, QueueId};

/// A packet in flight, by name: it was launched, and not released since.
#[derive(Clone, Copy, Debug, PartialEq, Eq)]
pub struct InFlight {
    pub queue: QueueId,
    pub id: PacketId,
    pub packet: Packet,
}

/// How far a packet has come since its launch.
#[derive(Clone, Copy, Debug, PartialEq, Eq)]
pub struct Progress {
    /// How many of its groups have run.
    pub groups_run: u32,
    /// Of a barrier packet: which of its dependencies were seen as 0.
    pub satisfied: Satisfied,
}

/// How far a packet has come as it is launched: no group has run, and no dependency was seen.
pub const LAUNCH_PROGRESS: Progress = Progress {
    groups_run: 0,
    satisfied: NONE_SATISFIED,
};
