//! All regions, found by address.
ghost use Rattle.std.specs.Prelude.{◌≡◌, ◌↔◌, ◌+◌, ◌<◌, IfOk, OnOk, OnErr, IsTrue, true, length, replicate};
ghost use Rattle.std.specs.Str.{bytes_eq};
ghost use Rattle.std.specs.List.{list_all};
ghost use Rattle.std.specs.Result.{result_err};
ghost use Rattle.aql_packet.specs.Memory.{are_region_lengths, is_region_length};
ghost use Rattle.regions.specs.Memory.{bytes_from, is_within, IsMemory, IsWritten, lengths_of, offset_of, region_length, region_of, zeros};
ghost use Rattle.regions.specs.Faults.{range_fault, copy_fault};
ghost use Rattle.regions.specs.Place.{IsPlaceOf, LiesInside, handle_at, laid_at, length_of_region, part_at};

use crate::fault::RegionFault;
use crate::region::Region;
use aql_packet::{Address, MOST_REGION_BYTES, MOST_REGIONS, REGION_SPAN, RegionHandle};
use std::alloc::{AllocError, Global};
use std::boxed::BoxedSlice;
use std::marker::Model;

/// The byte memory. Region number `h`, from 1, is the item `h - 1` of the list that a contract sees,
/// and covers addresses from `h * 2^32`, as many as its length. There are at most 64 regions, each
/// of 1 to 2^24 bytes. No call but `new` and `copy` takes memory: regions and bytes lie in slices of their own,
/// which no call can make longer. A refused call leaves all as before (own).
#[derive(Drop, Debug)]
pub struct Regions {
    regions: BoxedSlice<Region>,
}

impl Model for Regions {
    ghost use Rattle.std.specs.Box.{boxed_slice_items};
    ghost use Rattle.std.specs.Prelude.{List, ℕ};
    ghost use Rattle.regions.specs.Memory.{IsMemory};

    ghost Value = { List (List ℕ) };

    ghost view = { λ r. boxed_slice_items r.regions };

    ghost invariant = { λ r. IsMemory (boxed_slice_items r.regions) };
}

/// The region in which an address would lie: region `h` covers addresses from `h * 2^32` (own).
pub fn region_of(address: Address) -> RegionHandle
    ensures { result.0 ≡ region_of address.0 }
{
    RegionHandle((address.0 / REGION_SPAN) as u32)
}

/// Where a range lies: the index of its region, and the offset of its first byte there.
#[derive(Clone, Copy)]
struct RegionPlace {
    index: usize,
    offset: usize,
}

impl Regions {
    /// Whether `new` takes these lengths: at most 64, each from 1 to 2^24 bytes.
    pub fn accepts(lengths: &[u32]) -> bool
        ensures { result ≡ are_region_lengths lengths.now }
    {
        lengths.len() <= MOST_REGIONS && are_sized(lengths)
    }

    /// Regions of these lengths in bytes, numbered from 1 in this order, all zeros.
    pub fn new(alloc: Global, lengths: &[u32]) -> Result<Regions, AllocError>
        requires { IsTrue (are_region_lengths lengths.now) }
        ensures { IfOk result (λ regions. regions ≡ zeros lengths.now) }
    {
        let mut regions = Vec::with_capacity(alloc, lengths.len())?;
        for length in lengths {
            regions.push(Region::zeroed(alloc, *length as usize)?)?;
        }
        Ok(Regions {
            regions: regions.into_boxed_slice(),
        })
    }

    /// The same memory once more. Without memory for it there is none.
    pub fn copy(&self, alloc: Global) -> Result<Regions, AllocError>
        ensures { IfOk result (λ copy. copy ≡ self.now) }
    {
        let mut regions = Vec::with_capacity(alloc, self.regions.len())?;
        for region in self.regions.as_slice() {
            regions.push(region.copy(alloc)?)?;
        }
        Ok(Regions {
            regions: regions.into_boxed_slice(),
        })
    }

    /// Whether another memory has as many regions, each of the same bytes. It takes no memory.
    pub fn is_same(&self, other: &Regions) -> bool
        ensures { result ≡ true ↔ self.now ≡ other.now }
    {
        self.regions.as_slice() == other.regions.as_slice()
    }

    /// The region in which an address lies, if it lies in one.
    pub fn find(&self, address: Address) -> Option<RegionHandle>
        ensures found { result ≡ handle_at (lengths_of self.now) address.0 }
        ensures memory { IsMemory self.now }
    {
        let region = region_of(address);
        if address.0 % REGION_SPAN < self.room(region) {
            Some(region)
        } else {
            None
        }
    }

    /// How many bytes a region has, if there is one of this number.
    pub fn length(&self, region: RegionHandle) -> Option<u64>
        ensures length { result ≡ length_of_region (lengths_of self.now) region.0 }
        ensures memory { IsMemory self.now }
    {
        let regions = self.regions.as_slice();
        if region.0 == 0 {
            return None;
        }
        regions
            .get(region.0 as usize - 1)
            .map(|region| region.len() as u64)
    }

    /// How many bytes a region has: 0 where there is none of this number.
    fn room(&self, region: RegionHandle) -> u64
        ensures room { result ≡ region_length (lengths_of self.now) region.0 }
        ensures memory { IsMemory self.now }
    {
        self.length(region).unwrap_or(0)
    }

    /// The `length` bytes from an address on. Refused where the address lies in no region, and else
    /// where the bytes leave that region.
    pub fn read(&self, address: Address, length: u64) -> Result<&[u8], RegionFault>
        ensures fault { result_err result ≡ range_fault (lengths_of self.now) address.0 length }
        ensures bytes { IfOk result (λ bytes. bytes.now ≡ bytes_from self.now address.0 length) }
        ensures memory { IsMemory self.now }
    {
        self.locate(address, length)?;
        Ok(self.bytes(address, length))
    }

    /// Lays `bytes` over the memory from an address on. Refused as a read of that range is.
    pub fn write(&mut self, address: Address, bytes: &[u8]) -> Result<(), RegionFault>
        ensures fault { result_err result ≡
            range_fault (lengths_of self.old) address.0 (length bytes.now) }
        ensures bytes { OnOk result (IsWritten self.old address.0 bytes.now self.new) }
        ensures lengths { lengths_of self.new ≡ lengths_of self.old }
        ensures err { OnErr result (self.new ≡ self.old) }
        ensures memory { IsMemory self.new }
    {
        self.locate(address, bytes.len() as u64)?;
        self.lay(address, bytes);
        Ok(())
    }

    /// Whether a range lies whole in one region, so that `bytes` and `lay` can't fail there.
    pub fn contains(&self, address: Address, length: u64) -> bool
        ensures { result ≡ is_within (lengths_of self.now) address.0 length }
    {
        self.locate(address, length).is_ok()
    }

    /// The bytes of a range that lies whole in one region.
    pub fn bytes(&self, address: Address, length: u64) -> &[u8]
        requires { is_within (lengths_of self.now) address.0 length ≡ true }
        ensures bytes { result.now ≡ bytes_from self.now address.0 length }
        ensures memory { IsMemory self.now }
    {
        let place = place_of(address);
        self.regions[place.index].part(place.offset, length as usize)
    }

    /// Lays bytes over a range that lies whole in one region.
    pub fn lay(&mut self, address: Address, bytes: &[u8])
        requires { is_within (lengths_of self.old) address.0 (length bytes.now) ≡ true }
        ensures bytes { IsWritten self.old address.0 bytes.now self.new }
        ensures lengths { lengths_of self.new ≡ lengths_of self.old }
        ensures memory { IsMemory self.new }
    {
        let place = place_of(address);
        self.regions[place.index].put(place.offset, bytes);
    }

    /// Makes each of `length` bytes from an address on the byte `byte`. Refused as a read of that
    /// range is.
    pub fn fill(&mut self, address: Address, length: u64, byte: u8) -> Result<(), RegionFault>
        ensures fault { result_err result ≡ range_fault (lengths_of self.old) address.0 length }
        ensures bytes { OnOk result (IsWritten self.old address.0 (replicate length byte) self.new) }
        ensures lengths { lengths_of self.new ≡ lengths_of self.old }
        ensures err { OnErr result (self.new ≡ self.old) }
        ensures memory { IsMemory self.new }
    {
        let place = self.locate(address, length)?;
        self.regions[place.index].fill(place.offset, length as usize, byte);
        Ok(())
    }

    /// Lays the `length` bytes from `source` on over those from `target` on, as if by a copy aside:
    /// the two ranges may overlap, or lie in different regions. Each is refused as a read of it is;
    /// where both are, the fault is that of `source`.
    pub fn copy_within(
        &mut self,
        source: Address,
        target: Address,
        length: u64,
    ) -> Result<(), RegionFault>
        ensures fault { result_err result ≡
            copy_fault (lengths_of self.old) source.0 target.0 length }
        ensures bytes { OnOk result
            (IsWritten self.old target.0 (bytes_from self.old source.0 length) self.new) }
        ensures lengths { lengths_of self.new ≡ lengths_of self.old }
        ensures err { OnErr result (self.new ≡ self.old) }
        ensures memory { IsMemory self.new }
    {
        let from = self.locate(source, length)?;
        let to = self.locate(target, length)?;
        copy_part(self.regions.as_mut_slice(), from, to, length as usize);
        Ok(())
    }

    /// Where a range of `length` bytes from an address on lies.
    fn locate(&self, address: Address, length: u64) -> Result<RegionPlace, RegionFault>
        ensures fault { result_err result ≡ range_fault (lengths_of self.now) address.0 length }
        ensures place { IfOk result (λ place. IsPlaceOf self.now address.0 length place) }
        ensures memory { IsMemory self.now }
    {
        let offset = address.0 % REGION_SPAN;
        let room = self.room(region_of(address));
        if offset >= room {
            return Err(RegionFault::NoRegion);
        }
        if length > room - offset {
            return Err(RegionFault::PastEnd);
        }
        Ok(place_of(address))
    }
}

/// Where an address lies whose region has a number from 1 on.
fn place_of(address: Address) -> RegionPlace
    requires { 0 < region_of address.0 }
    ensures index { result.index + 1 ≡ region_of address.0 }
    ensures offset { result.offset ≡ offset_of address.0 }
{
    RegionPlace {
        index: (address.0 / REGION_SPAN) as usize - 1,
        offset: (address.0 % REGION_SPAN) as usize,
    }
}

/// Whether each length is one that a region may have: 1 to 2^24 bytes.
fn are_sized(lengths: &[u32]) -> bool
    ensures { result ≡ list_all is_region_length lengths.now }
{
    lengths
        .iter()
        .all(|length| 1 <= *length && *length <= MOST_REGION_BYTES)
}

/// Lays `size` bytes at one place over those at another, as if by a copy aside.
fn copy_part(regions: &mut [Region], source: RegionPlace, target: RegionPlace, size: usize)
    requires source { LiesInside regions.old source size }
    requires target { LiesInside regions.old target size }
    ensures { regions.new ≡ laid_at regions.old target (part_at regions.old source size) }
{
    if source.index == target.index {
        regions[target.index].copy_within(source.offset, target.offset, size);
    } else if source.index < target.index {
        let (low, high) = regions.split_at_mut(target.index);
        high[0].put(target.offset, low[source.index].part(source.offset, size));
    } else {
        let (low, high) = regions.split_at_mut(source.index);
        low[target.index].put(target.offset, high[0].part(source.offset, size));
    }
}
