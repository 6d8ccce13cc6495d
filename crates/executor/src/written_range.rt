//! Runs of written bytes.
ghost use Rattle.std.specs.Prelude.{◌≡◌, ◌==◌, ◌+◌, ◌++◌, OnOk, OnErr, length};
ghost use Rattle.executor.specs.inner.Told.{adjoins_last, noted_all};

use sequences::Sequence;
use std::alloc::{AllocError, Global};
use std::mem::replace;

/// Bytes at addresses that follow one another.
#[derive(Drop, Debug)]
pub struct WrittenRange {
    /// The address of the first byte.
    pub address: u64,
    /// The bytes, by ascending address.
    pub bytes: Sequence<u8>,
}

impl WrittenRange {
    /// Puts bytes behind the last.
    fn push_all(&mut self, alloc: Global, bytes: &[u8]) -> Result<(), AllocError>
        ensures address { self.new.address ≡ self.old.address }
        ensures bytes { OnOk result (self.new.bytes ≡ self.old.bytes ++ bytes.now) }
    {
        let mut kept = replace(&mut self.bytes, Sequence::new(alloc)).into_vec();
        let done = kept.extend_from_slice(bytes);
        self.bytes = Sequence::from_vec(kept);
        done
    }

    /// Whether an address is the one behind the last byte.
    fn adjoins(&self, address: u64) -> bool
        ensures { result ≡ (self.now.address + length self.now.bytes == address) }
    {
        self.address <= address && address - self.address == self.bytes.len() as u64
    }
}

/// Adds bytes at addresses that follow one another: to the last run where they adjoin it, else as a run of
/// their own.
pub fn note_all(
    alloc: Global,
    runs: &mut Vec<WrittenRange>,
    address: u64,
    bytes: &[u8],
) -> Result<(), AllocError>
    ensures { OnOk result (runs.new.items ≡ noted_all runs.old.items address bytes.now) }
{
    if does_adjoin(runs.as_slice(), address) {
        let last = runs.len() - 1;
        return runs[last].push_all(alloc, bytes);
    }
    let bytes = Sequence::from_vec(Vec::from_slice(alloc, bytes)?);
    runs.push(WrittenRange { address, bytes })?;
    Ok(())
}

/// Whether an address is the one behind the last of some runs.
fn does_adjoin(runs: &[WrittenRange], address: u64) -> bool
    ensures { result ≡ adjoins_last runs.now address }
{
    let count = runs.len();
    count > 0 && runs[count - 1].adjoins(address)
}
