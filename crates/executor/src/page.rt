//! Pages of 64 bytes.
ghost use Rattle.std.specs.Prelude.{◌≡◌, ◌≢◌, ◌+◌, ◌-◌, ◌^◌, ◌<◌, ◌≤◌, ℕ, Option, None, IfSome, OnOk, length, take, ◌==◌};
ghost use Rattle.std.specs.Int.{w64, to_le_bytes};
ghost use Rattle.executor.specs.inner.Pages.{page_byte};
ghost use Rattle.executor.specs.Written.{laid, seen};
ghost use Rattle.executor.specs.inner.Told.{Gathers, NextRun};
ghost use Rattle.executor.specs.inner.Words.{or_below, seen_number, IsWhole};

use crate::word;
use crate::written_range::{WrittenRange, note_all};
use byteorder::{ByteOrder, LittleEndian};
use std::alloc::{AllocError, Global};
use std::marker::Model;

/// How many bytes a page has.
const PAGE: usize = 64;

/// The bytes written in 64 places from a multiple of 64 on: where a bit of the mask is set, the byte
/// at its place was written.
#[derive(Clone, Copy, Debug)]
pub struct Page {
    mask: u64,
    bytes: [u8; 64],
}

impl Page {
    /// The page in which nothing is written.
    pub fn new() -> Page
        ensures { (place : ℕ) → page_byte result place ≡ None }
    {
        Page {
            mask: 0,
            bytes: [0; 64],
        }
    }

    /// The byte written at a place, if there is one.
    #[inline(always)]
    fn get(&self, place: usize) -> Option<u8>
        requires { place < 64 }
        ensures { result ≡ page_byte self.now place }
    {
        if (self.mask >> place) & 1 == 1 {
            Some(self.bytes[place])
        } else {
            None
        }
    }

    /// Writes bytes from a place on.
    #[inline]
    pub fn store(&mut self, place: usize, bytes: &[u8])
        requires { place + length bytes.now ≤ 64 }
        ensures { (x : ℕ) → page_byte self.new x ≡ laid (page_byte self.old) place bytes.now x }
    {
        let mut mask = self.mask;
        for index in 0..bytes.len() {
            mask |= 1 << (place + index);
            self.bytes[place + index] = bytes[index];
        }
        self.mask = mask;
    }

    /// Lays what is written from a place on over the bytes of a buffer.
    #[inline]
    pub fn load(&self, place: usize, buffer: &mut [u8])
        requires { place + length buffer.old ≤ 64 }
        ensures { buffer.new ≡ seen (page_byte self.now) place buffer.old }
    {
        for index in 0..buffer.len() {
            if let Some(byte) = self.get(place + index) {
                buffer[index] = byte;
            }
        }
    }

    /// The number that an access from a place on sees, or none where all bytes are those below. Where all
    /// are written, they are read at once.
    #[inline(always)]
    pub fn read(&self, place: usize, below: &[u8]) -> Option<u64>
        requires some { 1 ≤ length below.now }
        requires few { length below.now ≤ 8 }
        requires page { place + length below.now ≤ 64 }
        ensures { or_below result below.now ≡ seen_number (page_byte self.now) place below.now }
    {
        let all = ones(below.len());
        let set = (self.mask >> place) & all;
        if set == 0 {
            None
        } else if set == all {
            Some(word::read(&self.bytes[place..], below.len()))
        } else {
            Some(self.read_mixed(place, below))
        }
    }

    /// The number from a place on, if all its bytes lie in the page and are written.
    #[inline(always)]
    pub fn read_whole(&self, place: usize, size: usize) -> Option<u64>
        requires place { place < 64 }
        requires some { 1 ≤ size }
        requires few { size ≤ 8 }
        ensures number { IfSome result (IsWhole (page_byte self.now) place size) }
        ensures page { IfSome result (λ number. place + size ≤ 64) }
        ensures written { IfSome result (λ number. page_byte self.now place ≢ None) }
    {
        let all = ones(size);
        let set = (self.mask >> place) & all;
        if set == all {
            Some(word::read(&self.bytes[place..], size))
        } else {
            None
        }
    }

    /// The number that an access from a place on sees, byte by byte.
    #[cold]
    #[inline(never)]
    fn read_mixed(&self, place: usize, below: &[u8]) -> u64
        requires some { 1 ≤ length below.now }
        requires few { length below.now ≤ 8 }
        requires page { place + length below.now ≤ 64 }
        ensures { result ≡ seen_number (page_byte self.now) place below.now }
    {
        let mut buffer = [0; 8];
        let (part, _) = buffer.split_at_mut(below.len());
        part.copy_from_slice(below);
        self.load(place, part);
        LittleEndian::read_uint(part, below.len())
    }

    /// Writes a number's low bytes from a place on, all at once.
    #[inline(always)]
    pub fn write(&mut self, place: usize, size: usize, value: u64)
        requires few { size ≤ 8 }
        requires place { place < 64 }
        requires page { place + size ≤ 64 }
        ensures { (x : ℕ) → page_byte self.new x ≡ laid (page_byte self.old) place (take size (to_le_bytes w64 value)) x }
    {
        self.mask |= ones(size) << place;
        word::write(&mut self.bytes[place..], size, value);
    }

    /// Adds the written bytes to runs of addresses below `base`, the page's first.
    pub fn add_runs(
        &self,
        alloc: Global,
        base: u64,
        runs: &mut Vec<WrittenRange>,
    ) -> Result<(), AllocError>
        requires { base + 64 ≤ 2 ^ 64 }
        ensures { OnOk result (Gathers base 64 (page_byte self.now) 64 runs.old.items runs.new.items) }
    {
        let mut place = 0;
        while place < PAGE {
            let (first, end) = next_run(self.mask, place);
            if first == PAGE {
                return Ok(());
            }
            note_all(alloc, runs, base + first as u64, &self.bytes[first..end])?;
            place = end;
        }
        Ok(())
    }
}

/// Where the next bits begin that are set, from a place on, and where they end: behind the last place where
/// none is.
#[inline(always)]
pub fn next_run(mask: u64, place: usize) -> (usize, usize)
    requires { place < 64 }
    ensures { NextRun mask place result.0 result.1 }
{
    let left = mask >> place;
    if left == 0 {
        return (PAGE, PAGE);
    }
    let first = place + left.trailing_zeros() as usize;
    let count = (mask >> first).trailing_ones() as usize;
    (first, first + count)
}

/// So many lowest bits, set.
#[inline(always)]
fn ones(count: usize) -> u64
    requires { count ≤ 8 }
    ensures { result ≡ 2 ^ count - 1 }
{
    (1 << count) - 1
}
