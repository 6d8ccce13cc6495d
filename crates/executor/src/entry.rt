//! The place of a region among those that a packet holds.
ghost use Rattle.std.specs.Prelude.{◌≡◌, ◌≤◌, ℕ, length, if◌then◌else◌};
ghost use Rattle.policy.specs.declared.rights.Right.TheVariants.{Read, Write};
ghost use Rattle.executor.specs.inner.Places.{reach, IsEntry};

use crate::held::HeldRegion;
use aql_packet::RegionHandle;
use policy::{Right, Rights};

/// A region at its number, or none, and how many of its bytes may be read, and written.
#[derive(Clone, Copy)]
pub struct Entry<'a> {
    /// Its number is 0 where there is none.
    pub region: HeldRegion<'a>,
    pub readable: usize,
    pub writable: usize,
}

/// So many bytes, or none where they may not be accessed.
fn if_allowed(allowed: bool, count: usize) -> usize
    ensures { result ≡ (if allowed then count else 0) }
{
    if allowed { count } else { 0 }
}

impl<'a> Entry<'a> {
    /// No region.
    pub fn none() -> Entry<'a>
        ensures none { result.region.handle.0 ≡ 0 }
        ensures entry { (number : ℕ) → IsEntry number result }
    {
        Entry {
            region: HeldRegion {
                handle: RegionHandle(0),
                rights: Rights::NONE,
                bytes: &[],
            },
            readable: 0,
            writable: 0,
        }
    }

    /// A region.
    pub fn of(region: HeldRegion<'a>) -> Entry<'a>
        requires { 1 ≤ region.handle.0 }
        ensures region { result.region ≡ region.entry }
        ensures entry { IsEntry region.entry.handle.0 result }
    {
        let length = region.bytes.len();
        Entry {
            region,
            readable: if_allowed(region.rights.has(Right::Read), length),
            writable: if_allowed(region.rights.has(Right::Write), length),
        }
    }
}
