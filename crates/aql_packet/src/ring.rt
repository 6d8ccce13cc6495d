//! What packets say of the ring that they lie in: how many slots it may have, and the type of a slot without one.

ghost use Rattle.aql_packet.specs.Ring.{is_ring_size};
ghost use Rattle.std.specs.Prelude.{◌≡◌};

/// The numbers of slots that a ring may have (PSA, User Mode Queuing: a power of two; the bounds are own).
pub const RING_SIZES: [u64; 12] = [2, 4, 8, 16, 32, 64, 128, 256, 512, 1024, 2048, 4096];

/// The type of a slot that holds no packet (PSA, Architected Queuing Language).
pub const INVALID: u8 = 1;

/// Whether a ring may have so many slots: a power of two from 2 to 4,096.
pub fn is_ring_size(size: u64) -> bool
    ensures { result ≡ is_ring_size size }
{
    RING_SIZES.contains(&size)
}
