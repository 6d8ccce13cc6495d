//! A reader of a script that a person may wait for: it prompts for each line, or tells now and then how many were read.

ghost use Rattle.std.specs.Prelude.{◌≤◌};

use std::alloc::Global;
use std::io;
use std::io::Write;

/// What stands before each line that is asked of a person (own).
const PROMPT: &str = "> ";

/// After how many lines their count is told (own).
const COUNTED: u64 = 10_000;

/// What takes a count off a terminal's line (own).
const CLEARED: &str = "                          \r";

/// What is written beside the lines that are read.
#[derive(Clone, Copy, Debug, PartialEq, Eq)]
pub enum Beside {
    /// Nothing.
    Nothing,
    /// A prompt before each line.
    Prompt,
    /// The count of lines, after each ten thousand.
    Count,
}

/// A reader of another's bytes. What it writes beside them may fail, and changes nothing.
#[derive(Drop)]
pub struct TerminalReader<'a, R, E> {
    alloc: Global,
    reader: &'a mut R,
    err: &'a mut E,
    beside: Beside,
    // How many lines have ended, and how many had when that was told last.
    lines: u64,
    told: u64,
    // Whether the next byte begins a line.
    is_between: bool,
}

impl<'a, R: io::Read, E: io::Write> TerminalReader<'a, R, E> {
    /// A reader of these bytes that writes there.
    pub fn new(
        alloc: Global,
        reader: &'a mut R,
        err: &'a mut E,
        beside: Beside,
    ) -> TerminalReader<'a, R, E> {
        TerminalReader {
            alloc,
            reader,
            err,
            beside,
            lines: 0,
            told: 0,
            is_between: true,
        }
    }

    fn write(&mut self, text: &str) {
        let _ = self.err.write_all(text.as_bytes());
        let _ = self.err.flush();
    }

    // Tells how many lines have ended.
    fn tell_count(&mut self) {
        let lines = self.lines;
        self.told = lines;
        if let Ok(text) = format!(in self.alloc; "{lines} lines\r") {
            self.write(text.as_str());
        }
    }

    // Takes note of what was read for a person, and ends the last prompt's line after the end.
    fn note_prompted(&mut self, bytes: &[u8]) {
        match bytes.last() {
            Some(byte) => self.is_between = *byte == b'\n',
            None => self.write("\n"),
        }
    }

    // Counts the lines that end in what was read, and tells their count where it is due.
    fn note_counted(&mut self, bytes: &[u8]) {
        self.lines = self.lines.saturating_add(ends_in(bytes));
        if bytes.is_empty() && 0 < self.told {
            self.write(CLEARED);
        } else if COUNTED <= self.lines.saturating_sub(self.told) {
            self.tell_count();
        }
    }

    // Takes note of what was read.
    fn note(&mut self, bytes: &[u8]) {
        match self.beside {
            Beside::Nothing => {}
            Beside::Prompt => self.note_prompted(bytes),
            Beside::Count => self.note_counted(bytes),
        }
    }
}

// A count, or a limit that it is above.
fn at_most(count: usize, limit: usize) -> usize
    ensures { result ≤ limit }
{
    if count <= limit { count } else { limit }
}

// How many lines end in some bytes.
fn ends_in(bytes: &[u8]) -> u64 {
    let mut count = 0u64;
    for byte in bytes {
        if *byte == b'\n' {
            count = count.saturating_add(1);
        }
    }
    count
}

impl<'a, R: io::Read, E: io::Write> io::Read for TerminalReader<'a, R, E> {
    fn read(&mut self, bytes: &mut [u8]) -> io::Result<usize> {
        if self.beside == Beside::Prompt && self.is_between {
            self.write(PROMPT);
        }
        let count = self.reader.read(bytes)?;
        let count = at_most(count, bytes.len());
        self.note(bytes.split_at(count).0);
        Ok(count)
    }
}
