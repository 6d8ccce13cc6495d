//! The regions that a packet holds, and how the one that an address lies in is found.
ghost use Rattle.std.specs.Prelude.{◌≡◌, ◌%◌, ◌<◌, ◌≤◌, ◌++◌, ◌∷◌, [], All, OnErr, OnOk, find};
ghost use Rattle.std.specs.Option.{option_copied};
ghost use Rattle.aql_packet.specs.Memory.{most_regions, region_span};
ghost use Rattle.policy.specs.declared.rights.Right.TheVariants.{Read, Write};
ghost use Rattle.executor.specs.inner.Places.{if_reached};
ghost use Rattle.executor.specs.Views.{has_byte_at};

use crate::entry::Entry;
use crate::held::HeldRegion;
use aql_packet::REGION_SPAN;
use std::alloc::{AllocError, Global};
use std::marker::Model;

/// The regions that a packet holds, in the order of their numbers. However many there are, the one that an
/// address lies in is found by one look-up. A contract sees the list of regions.
#[derive(Drop)]
pub struct View<'a> {
    // By number.
    entries: Vec<Entry<'a>>,
}

impl<'a> Model for View<'a> {
    ghost use Rattle.std.specs.Prelude.{List};
    ghost use Rattle.executor.specs.inner.Places.{held, IsView};
    ghost use Rattle.executor.specs.declared.held.HeldRegion.{HeldRegion};

    ghost Value = { List HeldRegion };

    ghost view = { λ x. held x.entries.items };

    ghost invariant = { λ x. IsView x.entries.items };
}

impl<'a> View<'a> {
    /// No region. It takes no memory.
    pub fn new(alloc: Global) -> View<'a>
        ensures { result ≡ [] }
    {
        View {
            entries: Vec::new(alloc),
        }
    }

    /// Puts a region behind others, whose numbers are less.
    pub fn put(&mut self, region: HeldRegion<'a>) -> Result<(), AllocError>
        requires begins { 1 ≤ region.handle.0 }
        requires ends { region.handle.0 ≤ most_regions }
        requires behind { All (λ before. before.handle.0 < region.handle.0) self.old }
        ensures ok { OnOk result (self.new ≡ self.old ++ region.entry ∷ []) }
        ensures err { OnErr result (self.new ≡ self.old) }
    {
        let number = region.handle.0 as usize;
        self.entries.resize(number + 1, Entry::none())?;
        self.entries[number] = Entry::of(region);
        Ok(())
    }

    /// The region that an address lies in.
    pub fn find(&self, address: u64) -> Option<&HeldRegion<'a>>
        ensures { option_copied result ≡ find (λ region. has_byte_at region address) self.now }
    {
        let number = (address / REGION_SPAN) as usize;
        match self.entries.get(number) {
            None => None,
            Some(entry) => {
                if address % REGION_SPAN < entry.region.bytes.len() as u64 {
                    Some(&entry.region)
                } else {
                    None
                }
            }
        }
    }

    /// The region that an access begins in, if it ends in there too and its bytes may be read.
    #[inline(always)]
    pub fn find_readable(&self, address: u64, size: usize) -> Option<&HeldRegion<'a>>
        requires some { 1 ≤ size }
        requires few { size ≤ 8 }
        ensures { option_copied result ≡ if_reached Read (address % region_span) size (find (λ region. has_byte_at region address) self.now) }
    {
        let number = (address / REGION_SPAN) as usize;
        match self.entries.get(number) {
            None => None,
            Some(entry) => {
                let end = (address % REGION_SPAN) as usize + size;
                if end <= entry.readable {
                    Some(&entry.region)
                } else {
                    None
                }
            }
        }
    }

    /// The region that an access begins in, if it ends in there too and its bytes may be written.
    #[inline(always)]
    pub fn find_writable(&self, address: u64, size: usize) -> Option<&HeldRegion<'a>>
        requires some { 1 ≤ size }
        requires few { size ≤ 8 }
        ensures { option_copied result ≡ if_reached Write (address % region_span) size (find (λ region. has_byte_at region address) self.now) }
    {
        let number = (address / REGION_SPAN) as usize;
        match self.entries.get(number) {
            None => None,
            Some(entry) => {
                let end = (address % REGION_SPAN) as usize + size;
                if end <= entry.writable {
                    Some(&entry.region)
                } else {
                    None
                }
            }
        }
    }

    /// The region that an access begins in, if it ends in there too and its bytes may be read and written.
    #[inline(always)]
    pub fn find_changeable(&self, address: u64, size: usize) -> Option<&HeldRegion<'a>>
        requires some { 1 ≤ size }
        requires few { size ≤ 8 }
        ensures { option_copied result ≡ if_reached Write (address % region_span) size (if_reached Read (address % region_span) size (find (λ region. has_byte_at region address) self.now)) }
    {
        let number = (address / REGION_SPAN) as usize;
        match self.entries.get(number) {
            None => None,
            Some(entry) => {
                let end = (address % REGION_SPAN) as usize + size;
                if end > entry.readable {
                    return None;
                }
                if end <= entry.writable {
                    Some(&entry.region)
                } else {
                    None
                }
            }
        }
    }
}
