//! What a work-group has written.
ghost use Rattle.std.specs.Prelude.{◌≡◌, ◌+◌, ◌/◌, ◌%◌, ◌^◌, ◌<◌, ◌≤◌, ℕ, List, None, IfSome, OnOk, OnErr, IfOk, length, nat_lt, take, true};
ghost use Rattle.std.specs.Int.{w64, to_le_bytes};
ghost use Rattle.executor.specs.inner.Pages.{byte_at, BreaksOff, IsApart, IsPage, Parts, PlaceOf, StandsAt};
ghost use Rattle.executor.specs.Written.{laid, seen, AreRuns};
ghost use Rattle.executor.specs.Told.{runs_of};
ghost use Rattle.executor.specs.inner.Words.{laid_if, or_below, seen_number, IsWhole};

use crate::chunk::Chunk;
use crate::word;
use crate::written_range::WrittenRange;
use byteorder::{ByteOrder, LittleEndian};
use sequences::Sequence;
use std::alloc::{AllocError, Global};
use std::marker::Model;

/// How many bytes a page has.
const PAGE: usize = 64;

/// How many addresses a chunk covers.
const CHUNK: u64 = 1 << 13;

/// How many chunks are found without a search, by the low bits of their numbers.
const HINTS: usize = 16;

/// No chunk's number.
const NO_CHUNK: u64 = u64::MAX;

/// A number whose bytes are all written, and where the chunk and the page stand in which it lies.
#[derive(Clone, Copy)]
pub struct KnownNumber {
    pub chunk: usize,
    pub page: usize,
    pub number: u64,
}

/// What a work-group has written so far, over memory that stays as it is: a finite map from address to
/// byte, which a contract sees by `byte_at`. It takes memory for the pages that were written to. A store or a
/// load in the chunk that got a page last makes the same few look-ups whatever was written before: chunk, page,
/// mask. Another chunk is looked for where the last with the low bits of its number stood, then by halves.
#[derive(Drop, Debug)]
pub struct WrittenBytes {
    // The chunks that were written to, by ascending number.
    chunks: Vec<Chunk>,
    // Where the chunk that was made or got a page last stands, and its number.
    last: usize,
    last_number: u64,
    // No chunk has a number before this one, and none from the end on.
    begin: u64,
    end: u64,
    // By the low bits of a number, where the chunk of such a number likely stands.
    hints: [usize; HINTS],
}

impl Model for WrittenBytes {
    ghost use Rattle.std.specs.Prelude.{List};
    ghost use Rattle.executor.specs.inner.Pages.{ChunkSeen, IsWritten};

    ghost Value = { List ChunkSeen };

    ghost view = { λ x. x.chunks.items };

    ghost invariant = { λ x. IsWritten x.chunks.items x.last x.last_number x.begin x.end };
}

impl WrittenBytes {
    /// Nothing written. It takes no memory.
    pub fn new(alloc: Global) -> WrittenBytes
        ensures { (address : ℕ) → byte_at result address ≡ None }
    {
        WrittenBytes {
            chunks: Vec::new(alloc),
            last: 0,
            last_number: NO_CHUNK,
            begin: NO_CHUNK,
            end: 0,
            hints: [0; HINTS],
        }
    }

    /// Writes the bytes of one access from an address on. Without memory all is as before; but of an
    /// access that crosses into the next page of 64 bytes the part before that page may then be written.
    #[inline]
    pub fn store(&mut self, alloc: Global, address: u64, bytes: &[u8]) -> Result<(), AllocError>
        requires few { length bytes.now ≤ 64 }
        requires end { address + length bytes.now ≤ 2 ^ 64 }
        ensures ok { OnOk result ((x : ℕ) → byte_at self.new x ≡ laid (byte_at self.old) address bytes.now x) }
        ensures err { OnErr result (BreaksOff (byte_at self.old) (byte_at self.new) address bytes.now) }
    {
        let room = PAGE - (address % PAGE as u64) as usize;
        if bytes.len() <= room {
            return self.store_in_page(alloc, address, bytes);
        }
        let (first, rest) = bytes.split_at(room);
        self.store_in_page(alloc, address, first)?;
        self.store_in_page(alloc, address + room as u64, rest)
    }

    /// Lays what is written from an address on over the bytes of a buffer, which are those below.
    #[inline]
    pub fn load(&self, address: u64, buffer: &mut [u8])
        requires few { length buffer.old ≤ 64 }
        requires end { address + length buffer.old ≤ 2 ^ 64 }
        ensures { buffer.new ≡ seen (byte_at self.now) address buffer.old }
    {
        let room = PAGE - (address % PAGE as u64) as usize;
        if buffer.len() <= room {
            self.load_in_page(address, buffer);
            return;
        }
        let (first, rest) = buffer.split_at_mut(room);
        self.load_in_page(address, first);
        self.load_in_page(address + room as u64, rest);
    }

    /// The number that an access from an address on sees, over the bytes below.
    #[inline(always)]
    pub fn read(&self, address: u64, below: &[u8]) -> u64
        requires some { 1 ≤ length below.now }
        requires few { length below.now ≤ 8 }
        requires end { address + length below.now ≤ 2 ^ 64 }
        ensures { result ≡ seen_number (byte_at self.now) address below.now }
    {
        let number = address / CHUNK;
        if let Some(chunk) = self.at_hand(number) {
            return self.read_written(chunk, address, below);
        }
        if self.is_apart(number) {
            return word::read(below, below.len());
        }
        self.read_beside(address, below)
    }

    /// The number from an address on, if all its bytes lie in one page of the chunk at hand and are written.
    #[inline(always)]
    pub fn read_whole(&self, address: u64, size: usize) -> Option<KnownNumber>
        requires some { 1 ≤ size }
        requires few { size ≤ 8 }
        ensures number { IfSome result (λ known. IsWhole (byte_at self.now) address size known.number) }
        ensures place { IfSome result (λ known. IsPage self.now address known.chunk known.page) }
        ensures page { IfSome result (λ known. address % 64 + size ≤ 64) }
    {
        match self.at_hand(address / CHUNK) {
            None => None,
            Some(chunk) => match self.chunks[chunk].read_whole((address % CHUNK) as usize, size) {
                None => None,
                Some(whole) => Some(KnownNumber {
                    chunk,
                    page: whole.page,
                    number: whole.number,
                }),
            },
        }
    }

    /// Writes a number's low bytes from an address on, in one page, where chunk and page stand.
    #[inline(always)]
    pub fn overwrite_at(&mut self, chunk: usize, page: usize, address: u64, size: usize, value: u64)
        requires few { size ≤ 8 }
        requires page { address % 64 + size ≤ 64 }
        requires place { IsPage self.old address chunk page }
        ensures { (x : ℕ) → byte_at self.new x ≡ laid (byte_at self.old) address (take size (to_le_bytes w64 value)) x }
    {
        self.chunks[chunk].overwrite_at(page, (address % CHUNK) as usize, size, value);
    }

    /// Writes a number's low bytes from an address on. Without memory all is as before; but of an access
    /// that crosses into the next page of 64 bytes the part before that page may then be written.
    #[inline(always)]
    pub fn write(
        &mut self,
        alloc: Global,
        address: u64,
        size: usize,
        value: u64,
    ) -> Result<(), AllocError>
        requires few { size ≤ 8 }
        requires end { address + size ≤ 2 ^ 64 }
        ensures ok { OnOk result ((x : ℕ) → byte_at self.new x ≡ laid (byte_at self.old) address (take size (to_le_bytes w64 value)) x) }
        ensures err { OnErr result (BreaksOff (byte_at self.old) (byte_at self.new) address (take size (to_le_bytes w64 value))) }
    {
        if (address % PAGE as u64) as usize + size > PAGE {
            return self.write_anew(alloc, address, size, value);
        }
        if self.overwrite_at_hand(address, size, value) {
            Ok(())
        } else {
            self.write_beside(alloc, address, size, value)
        }
    }

    /// The maximal runs of written addresses, ascending, with their bytes.
    pub fn runs(&self, alloc: Global) -> Result<Sequence<WrittenRange>, AllocError>
        ensures runs { IfOk result (λ runs. AreRuns (byte_at self.now) runs) }
        ensures only { IfOk result (λ runs. (others : List WrittenRange) → AreRuns (byte_at self.now) others → others ≡ runs) }
        ensures value { IfOk result (λ runs. runs ≡ runs_of (byte_at self.now)) }
    {
        let mut runs = Vec::new(alloc);
        for index in 0..self.chunks.len() {
            let chunk = &self.chunks[index];
            chunk.add_runs(alloc, chunk.number() * CHUNK, &mut runs)?;
        }
        Ok(Sequence::from_vec(runs))
    }

    /// Writes bytes that lie in one page. Without memory all is as before.
    #[inline]
    fn store_in_page(&mut self, alloc: Global, address: u64, bytes: &[u8]) -> Result<(), AllocError>
        requires { address % 64 + length bytes.now ≤ 64 }
        ensures ok { OnOk result ((x : ℕ) → byte_at self.new x ≡ laid (byte_at self.old) address bytes.now x) }
        ensures err { OnErr result ((x : ℕ) → byte_at self.new x ≡ byte_at self.old x) }
    {
        let chunk = self.chunk_made(alloc, address / CHUNK)?;
        self.chunks[chunk].store((address % CHUNK) as usize, bytes)?;
        Ok(())
    }

    /// The number that an access sees which begins in any chunk, or in none.
    #[inline(never)]
    fn read_beside(&self, address: u64, below: &[u8]) -> u64
        requires some { 1 ≤ length below.now }
        requires few { length below.now ≤ 8 }
        requires end { address + length below.now ≤ 2 ^ 64 }
        ensures { result ≡ seen_number (byte_at self.now) address below.now }
    {
        match self.place_of(address / CHUNK) {
            None => self.read_unwritten(address, below),
            Some(chunk) => self.read_written(chunk, address, below),
        }
    }

    /// The number that an access sees which begins where there is no chunk.
    #[inline(always)]
    fn read_unwritten(&self, address: u64, below: &[u8]) -> u64
        requires some { 1 ≤ length below.now }
        requires few { length below.now ≤ 8 }
        requires end { address + length below.now ≤ 2 ^ 64 }
        requires none { PlaceOf self.now (address / 2 ^ 13) None }
        ensures { result ≡ seen_number (byte_at self.now) address below.now }
    {
        if (address % PAGE as u64) as usize + below.len() > PAGE {
            return self.read_across(address, below);
        }
        word::read(below, below.len())
    }

    /// The number that an access sees which begins in a chunk.
    #[inline(always)]
    fn read_written(&self, chunk: usize, address: u64, below: &[u8]) -> u64
        requires some { 1 ≤ length below.now }
        requires few { length below.now ≤ 8 }
        requires end { address + length below.now ≤ 2 ^ 64 }
        requires stands { StandsAt self.now chunk (address / 2 ^ 13) }
        ensures { result ≡ seen_number (byte_at self.now) address below.now }
    {
        let place = (address % CHUNK) as usize;
        let found = &self.chunks[chunk];
        if let Some(whole) = found.read_whole(place, below.len()) {
            return whole.number;
        }
        if (address % PAGE as u64) as usize + below.len() > PAGE {
            return self.read_across(address, below);
        }
        match found.read(place, below) {
            Some(number) => number,
            None => word::read(below, below.len()),
        }
    }

    /// The number that an access sees, byte by byte.
    #[cold]
    #[inline(never)]
    fn read_across(&self, address: u64, below: &[u8]) -> u64
        requires some { 1 ≤ length below.now }
        requires few { length below.now ≤ 8 }
        requires end { address + length below.now ≤ 2 ^ 64 }
        ensures { result ≡ seen_number (byte_at self.now) address below.now }
    {
        let mut buffer = [0; 8];
        let (part, _) = buffer.split_at_mut(below.len());
        part.copy_from_slice(below);
        self.load(address, part);
        LittleEndian::read_uint(part, below.len())
    }

    /// Writes a number's low bytes in one page of any chunk. Without memory all is as before.
    #[inline(never)]
    fn write_beside(
        &mut self,
        alloc: Global,
        address: u64,
        size: usize,
        value: u64,
    ) -> Result<(), AllocError>
        requires few { size ≤ 8 }
        requires page { address % 64 + size ≤ 64 }
        requires end { address + size ≤ 2 ^ 64 }
        ensures ok { OnOk result ((x : ℕ) → byte_at self.new x ≡ laid (byte_at self.old) address (take size (to_le_bytes w64 value)) x) }
        ensures err { OnErr result (BreaksOff (byte_at self.old) (byte_at self.new) address (take size (to_le_bytes w64 value))) }
    {
        if self.overwrite(address, size, value) {
            Ok(())
        } else {
            self.write_anew(alloc, address, size, value)
        }
    }

    /// Writes a number's low bytes in one page of the chunk at hand, where that page is there already. Whether it is.
    #[inline(always)]
    fn overwrite_at_hand(&mut self, address: u64, size: usize, value: u64) -> bool
        requires few { size ≤ 8 }
        requires page { address % 64 + size ≤ 64 }
        ensures { (x : ℕ) → byte_at self.new x ≡ laid_if result (byte_at self.old) address (take size (to_le_bytes w64 value)) x }
    {
        match self.at_hand(address / CHUNK) {
            Some(chunk) => self.chunks[chunk].overwrite((address % CHUNK) as usize, size, value),
            None => false,
        }
    }

    /// Writes a number's low bytes in one page, where that page is there already. Whether it is.
    #[inline(always)]
    fn overwrite(&mut self, address: u64, size: usize, value: u64) -> bool
        requires few { size ≤ 8 }
        requires page { address % 64 + size ≤ 64 }
        ensures { (x : ℕ) → byte_at self.new x ≡ laid_if result (byte_at self.old) address (take size (to_le_bytes w64 value)) x }
    {
        match self.place_of(address / CHUNK) {
            Some(chunk) => self.chunks[chunk].overwrite((address % CHUNK) as usize, size, value),
            None => false,
        }
    }

    /// Writes a number's low bytes, and makes the pages that they lie in.
    #[cold]
    #[inline(never)]
    fn write_anew(
        &mut self,
        alloc: Global,
        address: u64,
        size: usize,
        value: u64,
    ) -> Result<(), AllocError>
        requires few { size ≤ 8 }
        requires end { address + size ≤ 2 ^ 64 }
        ensures ok { OnOk result ((x : ℕ) → byte_at self.new x ≡ laid (byte_at self.old) address (take size (to_le_bytes w64 value)) x) }
        ensures err { OnErr result (BreaksOff (byte_at self.old) (byte_at self.new) address (take size (to_le_bytes w64 value))) }
    {
        let bytes = value.to_le_bytes();
        let (low, _) = bytes.split_at(size);
        self.store(alloc, address, low)
    }

    /// Lays what is written in one page over the bytes of a buffer.
    #[inline]
    fn load_in_page(&self, address: u64, buffer: &mut [u8])
        requires { address % 64 + length buffer.old ≤ 64 }
        ensures { buffer.new ≡ seen (byte_at self.now) address buffer.old }
    {
        if let Some(chunk) = self.place_of(address / CHUNK) {
            self.chunks[chunk].load((address % CHUNK) as usize, buffer);
        }
    }

    /// Whether chunks of a number and of the next lie apart from all that there are.
    #[inline(always)]
    fn is_apart(&self, number: u64) -> bool
        requires { number < 2 ^ 51 }
        ensures { result ≡ true → IsApart self.now number }
    {
        if number + 1 < self.begin {
            return true;
        }
        if number >= self.end {
            return true;
        }
        false
    }

    /// Where the chunk of a number stands, if it is the one at hand.
    #[inline(always)]
    fn at_hand(&self, number: u64) -> Option<usize>
        requires { number < 2 ^ 51 }
        ensures { IfSome result (λ place. StandsAt self.now place number) }
    {
        if number == self.last_number {
            Some(self.last)
        } else {
            None
        }
    }

    /// Where the chunk of a number stands, if it is there.
    #[inline(always)]
    fn place_of(&self, number: u64) -> Option<usize>
        requires { number < 2 ^ 51 }
        ensures { PlaceOf self.now number result }
    {
        if number == self.last_number {
            return Some(self.last);
        }
        if number < self.begin {
            return None;
        }
        if number >= self.end {
            return None;
        }
        let hint = self.hints[(number % HINTS as u64) as usize];
        if self.stands_at(hint, number) {
            return Some(hint);
        }
        self.search(number)
    }

    /// Whether the chunk of a number stands at a place.
    #[inline(always)]
    fn stands_at(&self, place: usize, number: u64) -> bool
        ensures { result ≡ true → StandsAt self.now place number }
    {
        if place >= self.chunks.len() {
            return false;
        }
        self.chunks[place].number() == number
    }

    /// Where the chunk of a number stands, found by halves, if it is there.
    #[inline(never)]
    fn search(&self, number: u64) -> Option<usize>
        ensures { PlaceOf self.now number result }
    {
        let place = self.place_from(number);
        if place >= self.chunks.len() {
            return None;
        }
        let found = self.chunks[place].number();
        if found == number { Some(place) } else { None }
    }

    /// How many chunks have lesser numbers.
    fn place_from(&self, number: u64) -> usize
        ensures { Parts self.now number result }
    {
        self.chunks.as_slice().partition_point(
            |chunk: &Chunk| -> bool
                ensures { result ≡ nat_lt chunk.now.number number }
            { chunk.number() < number },
        )
    }

    /// Where the chunk of a number stands, which is made if it isn't there, and is the last from now on. No
    /// byte is written.
    fn chunk_made(&mut self, alloc: Global, number: u64) -> Result<usize, AllocError>
        requires { number < 2 ^ 51 }
        ensures bytes { (x : ℕ) → byte_at self.new x ≡ byte_at self.old x }
        ensures place { IfOk result (λ place. StandsAt self.new place number) }
    {
        if let Some(known) = self.place_of(number) {
            self.last = known;
            self.last_number = number;
            self.hints[(number % HINTS as u64) as usize] = known;
            return Ok(known);
        }
        let place = self.place_from(number);
        let chunk = Chunk::new(alloc, number)?;
        self.chunks.insert(place, chunk)?;
        self.last = place;
        self.last_number = number;
        self.hints[(number % HINTS as u64) as usize] = place;
        self.begin = self.begin.min(number);
        self.end = self.end.max(number + 1);
        Ok(place)
    }
}
