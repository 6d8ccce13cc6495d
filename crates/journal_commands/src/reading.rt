//! The entries of a journal, read one at a time.

use crate::fault::Fault;
use crate::lines::Lines;
use core_model::Entry;
use journal::{Chain, Head, chain_behind, entry_line_fault, is_end, read_entry_line, read_head};
use sequences::Sequence;
use std::alloc::Global;
use std::io;

/// The most entries of a journal (own).
pub const MOST_ENTRIES: u64 = 1 << 62;

// What is told of a journal that ends too early.
const NO_END: &str = "the journal has no last line";

// What is told of one that goes on after its last line.
const BEHIND_END: &str = "a line stands behind the last";

// What the last line begins with, and no entry's line does.
const END_BEGINS: u8 = b'e';

/// A reader of a journal that begins with a history: where it stands in the chain of its lines.
#[derive(Drop)]
pub struct JournalReader<'a, R> {
    alloc: Global,
    lines: Lines<'a, R>,
    chain: Chain,
}

// Where a journal stands after a head with which a history begins.
fn opening_chain(alloc: Global, head: &Head) -> Result<Chain, Fault> {
    if head.before > 0 {
        return Err(Fault::of_part(alloc, head.before));
    }
    Ok(chain_behind(alloc, head)?)
}

// Reads the next line, if there is one.
fn next_line<R: io::Read>(alloc: Global, lines: &mut Lines<'_, R>) -> Result<(), Fault> {
    if lines.read_next()? {
        Ok(())
    } else {
        Err(Fault::of_end(alloc, lines.number(), NO_END))
    }
}

// Reads the head of a journal over these policies: where the journal stands after it.
fn read_first<R: io::Read>(
    alloc: Global,
    policies: Sequence<[u8; 32]>,
    lines: &mut Lines<'_, R>,
) -> Result<Chain, Fault> {
    next_line(alloc, lines)?;
    match read_head(alloc, policies, lines.line())? {
        Ok(head) => opening_chain(alloc, &head),
        Err(fault) => Err(Fault::of_head(alloc, fault)),
    }
}

// Why a line can't be read that isn't the last.
fn unread_line<R: io::Read>(
    alloc: Global,
    chain: &Chain,
    lines: &Lines<'_, R>,
) -> Result<Fault, Fault> {
    if chain.number >= MOST_ENTRIES {
        return Ok(Fault::of_end(alloc, lines.number(), NO_END));
    }
    match entry_line_fault(alloc, chain, lines.line())? {
        Some(fault) => Ok(Fault::of_line(alloc, lines.number(), fault)),
        None => Ok(Fault::of_end(alloc, lines.number(), NO_END)),
    }
}

// Reads the entry of a line: where the journal stands after it.
fn read_line<R: io::Read>(
    alloc: Global,
    chain: &Chain,
    lines: &Lines<'_, R>,
) -> Result<(Entry, Chain), Fault> {
    if chain.number >= MOST_ENTRIES {
        return Err(unread_line(alloc, chain, lines)?);
    }
    match read_entry_line(alloc, chain, lines.line())? {
        Some(read) => Ok(read),
        None => Err(unread_line(alloc, chain, lines)?),
    }
}

// Whether the line is the last of a journal that stands so, and nothing stands after it.
fn is_over<R: io::Read>(
    alloc: Global,
    chain: &Chain,
    lines: &mut Lines<'_, R>,
) -> Result<bool, Fault> {
    if lines.line().first() != Some(&END_BEGINS) || !is_end(alloc, chain, lines.line())? {
        return Ok(false);
    }
    if lines.read_next()? || !lines.line().is_empty() {
        return Err(Fault::of_end(alloc, lines.number(), BEHIND_END));
    }
    Ok(true)
}

impl<'a, R: io::Read> JournalReader<'a, R> {
    /// Reads the head of a journal over policies of these digests. It is refused where the first line is no such head, and
    /// where other entries came before.
    pub fn begin(
        alloc: Global,
        policies: Sequence<[u8; 32]>,
        journal: &'a mut R,
    ) -> Result<JournalReader<'a, R>, Fault> {
        let mut lines = Lines::new(alloc, journal);
        let chain = read_first(alloc, policies, &mut lines)?;
        Ok(JournalReader {
            alloc,
            lines,
            chain,
        })
    }

    /// The number of the entry that was read last.
    pub fn number(&self) -> u64 {
        self.chain.number
    }

    /// The next entry; none where the journal has come to its end. It is refused at the first line that isn't that of the
    /// next entry or the last, and where a line stands after the last.
    pub fn next_entry(&mut self) -> Result<Option<Entry>, Fault> {
        next_line(self.alloc, &mut self.lines)?;
        if is_over(self.alloc, &self.chain, &mut self.lines)? {
            return Ok(None);
        }
        let (entry, chain) = read_line(self.alloc, &self.chain, &self.lines)?;
        self.chain = chain;
        Ok(Some(entry))
    }
}
