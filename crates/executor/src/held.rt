//! The memory that a work-group is lent.
ghost use Rattle.std.specs.Prelude.{◌≤◌, ◌^◌, length};

use aql_packet::RegionHandle;
use policy::Rights;

/// A region that a packet holds: its number, the rights that are held, and its bytes, lent and not copied.
#[derive(Clone, Copy)]
pub struct HeldRegion<'a> {
    /// The region's number.
    pub handle: RegionHandle,
    /// The rights that the packet holds on it.
    pub rights: Rights,
    /// Its bytes, at most 2^24.
    pub bytes: &'a [u8],
    pub ghost short: { length bytes.now ≤ 2 ^ 24 },
}
