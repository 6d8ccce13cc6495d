//! The lines of a journal, read one at a time.

use memchr::memchr;
use std::alloc::Global;
use std::io;

// The most reads of a line (own).
const MOST_READS: u64 = 1 << 40;

// The most bytes of a read (own).
const BLOCK: usize = 4096;

/// The lines of a reader.
#[derive(Drop)]
pub struct Lines<'a, R> {
    reader: &'a mut R,
    // What was read, and which of it belongs to no line yet.
    block: [u8; BLOCK],
    from: usize,
    to: usize,
    line: Vec<u8>,
    number: u64,
}

impl<'a, R: io::Read> Lines<'a, R> {
    /// The lines of a reader, of which none was read yet.
    pub fn new(alloc: Global, reader: &'a mut R) -> Lines<'a, R> {
        Lines {
            reader,
            block: [0; BLOCK],
            from: 0,
            to: 0,
            line: Vec::new(alloc),
            number: 0,
        }
    }

    /// The line that was read last, without its line feed.
    pub fn line(&self) -> &[u8] {
        self.line.as_slice()
    }

    /// The number of that line, from 1.
    pub fn number(&self) -> u64 {
        self.number
    }

    /// Reads the next line; false where none is left that ends in a line feed. What is left then is the line.
    pub fn read_next(&mut self) -> io::Result<bool> {
        self.line.clear();
        self.number = self.number.saturating_add(1);
        for _ in 0..MOST_READS {
            if self.take_of_block()? {
                return Ok(true);
            }
            if !self.fill()? {
                return Ok(false);
            }
        }
        Ok(false)
    }

    // Takes what the block has of the line, and tells whether the line ends there.
    fn take_of_block(&mut self) -> io::Result<bool> {
        let Some(left) = self.block.get(self.from..self.to) else {
            return Ok(false);
        };
        match memchr(b'\n', left) {
            Some(place) => {
                self.line.extend_from_slice(left.split_at(place).0)?;
                self.from = self.from.saturating_add(place).saturating_add(1);
                Ok(true)
            }
            None => {
                self.line.extend_from_slice(left)?;
                self.from = self.to;
                Ok(false)
            }
        }
    }

    // Reads a block; false at the end of the input. A read that is interrupted reads nothing, and is made again.
    fn fill(&mut self) -> io::Result<bool> {
        self.from = 0;
        self.to = 0;
        match self.reader.read(&mut self.block) {
            Ok(count) => {
                self.to = count;
                Ok(count > 0)
            }
            Err(error) if error.kind() == io::ErrorKind::Interrupted => Ok(true),
            Err(error) => Err(error),
        }
    }
}
