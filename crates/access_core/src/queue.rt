//! What the core keeps of a queue.

use crate::argument_blocks::ArgumentBlocks;
use crate::release_room::ReleaseRoom;
use aql_packet::{AgentHandle, ClientId, QueueId};
use packet_processor::Places;
use queue_error::QueueError;
use sequences::Reserved;

/// A queue that is open.
#[derive(Drop)]
pub struct Queue {
    /// Its number, which no other queue has, before it or since.
    pub number: QueueId,
    /// Whose it is.
    pub client: ClientId,
    /// The agent that runs its packets.
    pub agent: AgentHandle,
    /// The id of its next packet.
    pub next: u64,
    /// Whether it was stopped.
    pub stopped: bool,
    /// Its errors, in order, with room for one of each packet in flight.
    pub errors: Reserved<QueueError>,
    /// Its packets in flight, at most eight.
    pub places: Places,
    /// What each of them was given at its launch, in the same order.
    pub blocks: ArgumentBlocks,
    /// Room for what its closing tells.
    pub releases: ReleaseRoom,
}
