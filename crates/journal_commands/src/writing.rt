//! A journal that is written as a history goes.

use crate::policies::digests_of;
use commands::{Failure, PolicyText, Stop, Stops};
use core_model::Entry;
use journal::{Chain, Head, chain_behind, write_end, write_entry_line, write_head};
use std::alloc::{AllocError, Global};
use std::io;
use world::World;

// How many bytes are gathered before they are written (own).
const BLOCK: usize = 65_536;

// The most entries of a journal (own).
const MOST_ENTRIES: u64 = 1 << 62;

/// Why a journal isn't written.
#[derive(Clone, Copy, Debug, PartialEq, Eq)]
pub enum JournalFault {
    /// Memory was wanted and not to be had.
    OutOfMemory,
    /// The writer failed.
    Write,
}

impl From<AllocError> for JournalFault {
    fn from(_want: AllocError) -> JournalFault {
        JournalFault::OutOfMemory
    }
}

impl From<JournalFault> for Failure {
    fn from(fault: JournalFault) -> Failure {
        match fault {
            JournalFault::OutOfMemory => Failure::OutOfMemory,
            JournalFault::Write => Failure::Write,
        }
    }
}

impl Stops for JournalFault {
    ghost use Rattle.std.specs.Prelude.{⊤};

    ghost stops = { λ stop. ⊤ };

    fn stop(self) -> Stop {
        Stop::Named(Failure::from(self))
    }
}

/// Writes the entries of a world into a journal, block by block.
#[derive(Drop)]
pub struct JournalWriter<'a, J> {
    alloc: Global,
    journal: &'a mut J,
    chain: Chain,
    // Lines that aren't written yet.
    text: String,
}

impl<'a, J: io::Write> JournalWriter<'a, J> {
    /// Begins the journal of a core that was just opened over the policies of texts, with so many places in its audit.
    pub fn begin(
        alloc: Global,
        text: &[u8],
        further: &[PolicyText],
        places: usize,
        journal: &'a mut J,
    ) -> Result<JournalWriter<'a, J>, JournalFault> {
        let head = Head {
            capacity: places as u64,
            before: 0,
            policies: digests_of(alloc, text, further)?,
        };
        let mut first = String::new(alloc);
        write_head(&mut first, alloc, &head)?;
        first.push_str("\n")?;
        let chain = chain_behind(alloc, &head)?;
        Ok(JournalWriter {
            alloc,
            journal,
            chain,
            text: first,
        })
    }

    // Writes the lines that aren't written yet.
    fn pass_on(&mut self) -> Result<(), JournalFault> {
        let written = self.journal.write_all(self.text.as_bytes());
        self.text.clear();
        if written.is_err() || self.journal.flush().is_err() {
            return Err(JournalFault::Write);
        }
        Ok(())
    }

    // Writes the line of an entry.
    fn put(&mut self, entry: &Entry) -> Result<(), JournalFault> {
        if self.chain.number >= MOST_ENTRIES {
            return Err(JournalFault::Write);
        }
        self.chain = write_entry_line(&mut self.text, self.alloc, &self.chain, entry)?;
        self.text.push_str("\n")?;
        if self.text.len() >= BLOCK {
            self.pass_on()?;
        }
        Ok(())
    }

    /// Writes the entries of a world that aren't written yet. Those before its audit's were.
    pub fn note(&mut self, world: &World) -> Result<(), JournalFault> {
        let core = world.core();
        let entries = core.audit();
        let written = self.chain.number.saturating_sub(core.entries_before());
        let first = written.min(entries.len() as u64) as usize;
        for entry in entries.split_at(first).1 {
            self.put(entry)?;
        }
        Ok(())
    }

    /// Writes the entries that follow on those that are written.
    pub fn take(&mut self, entries: &[Entry]) -> Result<(), JournalFault> {
        for entry in entries {
            self.put(entry)?;
        }
        Ok(())
    }

    /// Writes the last line.
    pub fn end(&mut self) -> Result<(), JournalFault> {
        write_end(&mut self.text, self.alloc, &self.chain)?;
        self.text.push_str("\n")?;
        self.pass_on()
    }
}
