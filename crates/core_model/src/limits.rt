//! The limits of the core (own).

/// How many packets of one queue are in flight at the most. So many errors a queue can have, too: it
/// launches nothing more after the first, and each packet in flight leaves one at the most.
pub const MOST_IN_FLIGHT: usize = 8;

/// How many queues are open at the most.
pub const QUEUES: usize = 64;

/// How many packets are in flight at the most, of all queues.
pub const ALL_IN_FLIGHT: usize = QUEUES * MOST_IN_FLIGHT;

/// How many bytes a client reads or writes in one call at the most.
pub const MOST_HOST_BYTES: u64 = 65_536;

/// How many entries an audit has place for at the most.
pub const MOST_ENTRIES: usize = 1 << 20;

/// How many entries lie before what a history begins from at the most: so the numbers of entries, and the ids of
/// packets, stay below 2^63.
pub const MOST_BEFORE: u64 = 1 << 62;
