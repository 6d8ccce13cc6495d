//! Chunks of 128 pages.
ghost use Rattle.std.specs.Prelude.{◌≡◌, ◌+◌, ◌/◌, ◌%◌, ◌^◌, ◌<◌, ◌≤◌, ℕ, None, IfSome, OnOk, OnErr, IfOk, length, get_or, take};
ghost use Rattle.std.specs.Int.{w64, to_le_bytes};
ghost use Rattle.executor.specs.inner.Pages.{ChunkSeen, chunk_byte};
ghost use Rattle.executor.specs.Written.{laid, seen};
ghost use Rattle.executor.specs.inner.Told.{Gathers};
ghost use Rattle.executor.specs.inner.Words.{laid_if, or_below, seen_number, IsWhole};

use crate::page::{Page, next_run};
use crate::written_range::WrittenRange;
use std::alloc::{AllocError, Global};
use std::marker::Model;

/// How many bytes a page covers.
const PAGE: usize = 64;

/// How many pages a chunk has.
const PAGES: usize = 128;

/// How many pages there is room for at first.
const FIRST_PAGES: usize = 4;

/// A number whose bytes are all written, and where the page stands in which it lies.
#[derive(Clone, Copy)]
pub struct WholeNumber {
    pub page: usize,
    pub number: u64,
}

/// What is written in 2^13 addresses from a multiple of 2^13 on: the pages that were written to. A contract
/// sees its fields.
#[derive(Drop, Debug)]
pub struct Chunk {
    // The number of its first address, in chunks.
    number: u64,
    // A bit for each page that there is, 64 pages a word.
    touched: [u64; 2],
    // Where each page stands among those that there are. The first of these is empty, and stands for all that
    // weren't written to.
    places: [u8; PAGES],
    pages: Vec<Page>,
}

impl Model for Chunk {
    ghost use Rattle.executor.specs.inner.Pages.{ChunkSeen, IsChunk};

    ghost Value = { ChunkSeen };

    ghost view = { λ x. record { number = x.number; touched = x.touched; places = x.places; pages = x.pages.items } };

    ghost invariant = { λ x. IsChunk (record { number = x.number; touched = x.touched; places = x.places; pages = x.pages.items }) };
}

impl Chunk {
    /// The chunk of a number in which nothing is written.
    pub fn new(alloc: Global, number: u64) -> Result<Chunk, AllocError>
        ensures number { IfOk result (λ chunk. chunk.number ≡ number) }
        ensures bytes { IfOk result (λ chunk. (x : ℕ) → chunk_byte chunk x ≡ None) }
    {
        let mut pages = Vec::with_capacity(alloc, FIRST_PAGES)?;
        pages.push(Page::new())?;
        Ok(Chunk {
            number,
            touched: [0; 2],
            places: [0; PAGES],
            pages,
        })
    }

    /// The number of its first address, in chunks.
    #[inline(always)]
    pub fn number(&self) -> u64
        ensures { result ≡ self.now.number }
    {
        self.number
    }

    /// Writes bytes from a place on; they lie in one page. Without memory all is as before.
    #[inline]
    pub fn store(&mut self, place: usize, bytes: &[u8]) -> Result<(), AllocError>
        requires place { place < 2 ^ 13 }
        requires page { place % 64 + length bytes.now ≤ 64 }
        ensures number { self.new.number ≡ self.old.number }
        ensures ok { OnOk result ((x : ℕ) → chunk_byte self.new x ≡ laid (chunk_byte self.old) place bytes.now x) }
        ensures err { OnErr result ((x : ℕ) → chunk_byte self.new x ≡ chunk_byte self.old x) }
    {
        let page = self.page_made(place / PAGE)?;
        self.pages[page].store(place % PAGE, bytes);
        Ok(())
    }

    /// Lays what is written from a place on, in one page, over the bytes of a buffer.
    #[inline]
    pub fn load(&self, place: usize, buffer: &mut [u8])
        requires place { place < 2 ^ 13 }
        requires page { place % 64 + length buffer.old ≤ 64 }
        ensures { buffer.new ≡ seen (chunk_byte self.now) place buffer.old }
    {
        let page = self.places[place / PAGE] as usize;
        self.pages[page].load(place % PAGE, buffer);
    }

    /// The number that an access from a place on, in one page, sees, or none where all bytes are those
    /// below.
    #[inline(always)]
    pub fn read(&self, place: usize, below: &[u8]) -> Option<u64>
        requires place { place < 2 ^ 13 }
        requires some { 1 ≤ length below.now }
        requires few { length below.now ≤ 8 }
        requires page { place % 64 + length below.now ≤ 64 }
        ensures { or_below result below.now ≡ seen_number (chunk_byte self.now) place below.now }
    {
        let page = self.places[place / PAGE] as usize;
        self.pages[page].read(place % PAGE, below)
    }

    /// The number from a place on, if all its bytes lie in one page and are written.
    #[inline(always)]
    pub fn read_whole(&self, place: usize, size: usize) -> Option<WholeNumber>
        requires place { place < 2 ^ 13 }
        requires some { 1 ≤ size }
        requires few { size ≤ 8 }
        ensures number { IfSome result (λ whole. IsWhole (chunk_byte self.now) place size whole.number) }
        ensures fits { IfSome result (λ whole. place % 64 + size ≤ 64) }
        ensures page { IfSome result (λ whole. get_or self.now.places (place / 64) 0 ≡ whole.page) }
        ensures own { IfSome result (λ whole. 0 < whole.page) }
    {
        let page = self.places[place / PAGE] as usize;
        match self.pages[page].read_whole(place % PAGE, size) {
            None => None,
            Some(number) => Some(WholeNumber { page, number }),
        }
    }

    /// Writes a number's low bytes from a place on, in one page, which stands at a place of its own.
    #[inline(always)]
    pub fn overwrite_at(&mut self, page: usize, place: usize, size: usize, value: u64)
        requires place { place < 2 ^ 13 }
        requires few { size ≤ 8 }
        requires page { place % 64 + size ≤ 64 }
        requires stands { get_or self.old.places (place / 64) 0 ≡ page }
        requires own { 0 < page }
        ensures number { self.new.number ≡ self.old.number }
        ensures bytes { (x : ℕ) → chunk_byte self.new x ≡ laid (chunk_byte self.old) place (take size (to_le_bytes w64 value)) x }
    {
        self.pages[page].write(place % PAGE, size, value);
    }

    /// Writes a number's low bytes from a place on, in one page, where that page is there already.
    /// Whether it is.
    #[inline(always)]
    pub fn overwrite(&mut self, place: usize, size: usize, value: u64) -> bool
        requires place { place < 2 ^ 13 }
        requires few { size ≤ 8 }
        requires page { place % 64 + size ≤ 64 }
        ensures number { self.new.number ≡ self.old.number }
        ensures bytes { (x : ℕ) → chunk_byte self.new x ≡ laid_if result (chunk_byte self.old) place (take size (to_le_bytes w64 value)) x }
    {
        let page = self.places[place / PAGE] as usize;
        if page == 0 {
            return false;
        }
        self.pages[page].write(place % PAGE, size, value);
        true
    }

    /// Adds the written bytes to runs of addresses below `base`, the chunk's first.
    pub fn add_runs(
        &self,
        alloc: Global,
        base: u64,
        runs: &mut Vec<WrittenRange>,
    ) -> Result<(), AllocError>
        requires { base + 2 ^ 13 ≤ 2 ^ 64 }
        ensures { OnOk result (Gathers base (2 ^ 13) (chunk_byte self.now) (2 ^ 13) runs.old.items runs.new.items) }
    {
        let mut index = self.next_from(0);
        while index < PAGES {
            let page = self.places[index] as usize;
            self.pages[page].add_runs(alloc, base + (index * PAGE) as u64, runs)?;
            index = self.next_from(index + 1);
        }
        Ok(())
    }

    /// Where the page of a number stands, which is made if it isn't there. No byte is written.
    #[inline(never)]
    fn page_made(&mut self, index: usize) -> Result<usize, AllocError>
        requires { index < 128 }
        ensures number { self.new.number ≡ self.old.number }
        ensures bytes { (x : ℕ) → chunk_byte self.new x ≡ chunk_byte self.old x }
        ensures place { IfOk result (λ page. get_or self.new.places index 0 ≡ page) }
        ensures own { IfOk result (λ page. 0 < page) }
    {
        let known = self.places[index] as usize;
        if known != 0 {
            return Ok(known);
        }
        let page = self.pages.len();
        self.pages.push(Page::new())?;
        self.places[index] = page as u8;
        self.touched[index / 64] |= 1 << (index % 64);
        Ok(page)
    }

    /// The number of the next page that there is, from one on, or 128 where there is none.
    #[inline(always)]
    fn next_from(&self, index: usize) -> usize
        requires { index ≤ 128 }
        ensures begins { index ≤ result }
        ensures ends { result ≤ 128 }
        ensures none { (i : ℕ) → index ≤ i → i < result → get_or self.now.places i 0 ≡ 0 }
    {
        if index < 64 {
            let (low, _) = next_run(self.touched[0], index);
            if low < 64 {
                return low;
            }
            let (high, _) = next_run(self.touched[1], 0);
            return 64 + high;
        }
        if index < PAGES {
            let (rest, _) = next_run(self.touched[1], index - 64);
            return 64 + rest;
        }
        PAGES
    }
}
