//! How long the tables are that a core keeps.

/// How long the tables are that a core keeps of its queues, of its packets in flight and of its entries (own).
/// Memory, signals and rights in force are as long as the policy has them.
#[derive(Clone, Copy, Debug, PartialEq, Eq)]
pub struct TableSizes {
    /// Queues: as many as are open.
    pub queues: usize,
    /// Argument blocks: one of each packet in flight.
    pub argument_blocks: usize,
    /// Places of the audit, for its entries and those to come: its capacity.
    pub audit_places: usize,
}
