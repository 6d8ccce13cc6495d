//! One region: a run of bytes of a fixed length.
ghost use Rattle.std.specs.Prelude.{◌≡◌, ◌+◌, ◌≤◌, IfOk, length, take, drop, replicate};
ghost use Rattle.std.specs.Str.{bytes_eq};
ghost use Rattle.regions.specs.Memory.{overlaid};

use std::alloc::{AllocError, Global};
use std::boxed::BoxedSlice;
use std::marker::Model;

/// The bytes of one region, whose number of bytes never changes. A contract sees them as a list. They lie in a
/// slice of its own, which no call can make longer.
#[derive(Drop, Debug)]
pub struct Region {
    bytes: BoxedSlice<u8>,
}

impl Model for Region {
    ghost use Rattle.std.specs.Box.{boxed_slice_items};
    ghost use Rattle.std.specs.Prelude.{List, ℕ};

    ghost Value = { List ℕ };

    ghost view = { λ r. boxed_slice_items r.bytes };
}

impl Region {
    /// A region of zeros.
    pub fn zeroed(alloc: Global, length: usize) -> Result<Region, AllocError>
        ensures { IfOk result (λ region. region ≡ replicate length 0) }
    {
        Ok(Region {
            bytes: vec![in alloc; 0; length]?.into_boxed_slice(),
        })
    }

    /// A region of the same bytes.
    pub fn copy(&self, alloc: Global) -> Result<Region, AllocError>
        ensures { IfOk result (λ copy. copy ≡ self.now) }
    {
        Ok(Region {
            bytes: BoxedSlice::from_slice(alloc, self.bytes.as_slice())?,
        })
    }

    /// Whether another region has the same bytes.
    pub fn is_same(&self, other: &Region) -> bool
        ensures { result ≡ bytes_eq self.now other.now }
    {
        self.bytes.as_slice() == other.bytes.as_slice()
    }

    /// How many bytes the region has.
    pub fn len(&self) -> usize
        ensures { result ≡ length self.now }
    {
        self.bytes.len()
    }

    /// `size` bytes from `offset` on.
    pub fn part(&self, offset: usize, size: usize) -> &[u8]
        requires { offset + size ≤ length self.now }
        ensures { result.now ≡ take size (drop offset self.now) }
    {
        &self.bytes.as_slice()[offset..offset + size]
    }

    /// Lays `bytes` over the region from `offset` on.
    pub fn put(&mut self, offset: usize, bytes: &[u8])
        requires { offset + length bytes.now ≤ length self.old }
        ensures { self.new ≡ overlaid self.old offset bytes.now }
    {
        self.bytes.as_mut_slice()[offset..offset + bytes.len()].copy_from_slice(bytes);
    }

    /// Makes each of `size` bytes from `offset` on the byte `byte`.
    pub fn fill(&mut self, offset: usize, size: usize, byte: u8)
        requires { offset + size ≤ length self.old }
        ensures { self.new ≡ overlaid self.old offset (replicate size byte) }
    {
        self.bytes.as_mut_slice()[offset..offset + size].fill(byte);
    }

    /// Lays the `size` bytes from `source` on over those from `target` on, as if by a copy aside.
    pub fn copy_within(&mut self, source: usize, target: usize, size: usize)
        requires source { source + size ≤ length self.old }
        requires target { target + size ≤ length self.old }
        ensures { self.new ≡ overlaid self.old target (take size (drop source self.old)) }
    {
        self.bytes
            .as_mut_slice()
            .copy_within(source..source + size, target);
    }
}

impl PartialEq for Region {
    ghost use Rattle.std.specs.Str.{bytes_eq};
    ghost use Rattle.std.specs.Cmp.{partial_equiv_from_equiv};
    ghost use Rattle.std.specs.Cmp.Lexicographic.{nat_list_eq_equiv};

    ghost eq = { bytes_eq };

    ghost laws = { partial_equiv_from_equiv nat_list_eq_equiv };

    fn eq(&self, other: &Region) -> bool {
        self.is_same(other)
    }
}
