//! A writer that asks for no memory.

use std::io;

/// A writer that takes all and keeps nothing.
#[derive(Drop)]
pub struct Nowhere;

impl io::Write for Nowhere {
    fn write(&mut self, bytes: &[u8]) -> io::Result<usize> {
        Ok(bytes.len())
    }

    fn flush(&mut self) -> io::Result<()> {
        Ok(())
    }
}
