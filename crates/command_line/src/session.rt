//! What a person at a terminal may ask beside the lines of a script: `help`, `help WORD`, `state`, `why` and `quit`.

use crate::help::further_help;
use crate::meanings::explained;
use explain::state_of;
use pages::{Page, rows_of};
use std::alloc::{AllocError, Global};
use world::World;

/// What is told as a session begins.
pub const GREETING: &str =
    "a line is a request: `help` lists them, `help WORD` tells of one; `state` tells what there is, `why` of the last refusal, `quit` or Ctrl-D ends";

/// What is told of `why` where nothing was refused yet, or explanations are off.
pub const NOTHING_REFUSED: &str = "nothing was refused, denied or failed yet\n";

pub const NOTHING_EXPLAINED: &str = "nothing is explained with `--explain=never`\n";

/// What is told of a line with the bytes that a key which moves the cursor sends.
const KEYS: &str =
    "; the line has a key that moves the cursor, as an arrow: nothing edits a line here, rlwrap does (docs/terminal.md)";

// What such a key's bytes begin with.
const ESCAPE: u8 = 0x1b;

/// What a person asks who is prompted, and what no line of a script asks.
#[derive(Clone, Copy, Debug, PartialEq, Eq)]
pub enum Prompted {
    /// What there is.
    State,
    /// Why the last line was refused that was.
    Why,
    /// That the run ends.
    Quit,
}

// What is asked of `help`, if a line asks it: nothing, or the first of the words after it.
fn help_asked(line: &str) -> Option<&str> {
    let rest = line.trim().strip_prefix("help")?;
    if rest.is_empty() || rest.starts_with(' ') {
        rest.trim().split(' ').next()
    } else {
        None
    }
}

// What is told of a word: the rows on it of the pages on scripts and readable lines, or what a rule, a refusal or a cause of this name means.
fn word_told(alloc: Global, word: &str) -> Result<String, AllocError> {
    let mut told = rows_of(alloc, word)?;
    if told.is_empty() {
        told = explained(alloc, word)?;
    }
    if told.is_empty() && Page::named(word).is_some() {
        told = format!(in alloc; "`brokerd help {word}` prints the page of this name\n")?;
    }
    if told.is_empty() {
        told = format!(in alloc; "nothing is called `{word}`: `help` lists the lines\n")?;
    }
    Ok(told)
}

// What is told where nothing is asked: the forms of all lines.
fn forms_told(alloc: Global) -> Result<String, AllocError> {
    let mut told = further_help(alloc)?;
    told.push_str("\n")?;
    Ok(told)
}

/// What is told of a line that asks for help; none of another line.
pub fn help_told(alloc: Global, line: &[u8]) -> Option<Result<String, AllocError>> {
    let line = std::str::from_utf8(line).ok()?;
    let word = help_asked(line)?;
    Some(if word.is_empty() {
        forms_told(alloc)
    } else {
        word_told(alloc, word)
    })
}

// What some words ask, if it is that.
fn prompted_by(words: &str) -> Option<Prompted> {
    match words {
        "state" => Some(Prompted::State),
        "why" => Some(Prompted::Why),
        "quit" | "exit" => Some(Prompted::Quit),
        _ => None,
    }
}

/// What a line asks of this, if it does.
pub fn read_prompted(line: &[u8]) -> Option<Prompted> {
    prompted_by(std::str::from_utf8(line).ok()?.trim())
}

/// What is told of a line's bytes behind why it has no form: of keys that move the cursor, or nothing.
pub fn keys_told(line: &[u8]) -> &'static str {
    if line.contains(&ESCAPE) { KEYS } else { "" }
}

/// What there is, told to a person.
pub fn state_told(alloc: Global, world: &World) -> Result<String, AllocError> {
    let state = state_of(alloc, world)?;
    let count = state.count;
    let mut told = format!(in alloc; "state {count}\n")?;
    told.push_str(state.lines.as_str())?;
    Ok(told)
}
