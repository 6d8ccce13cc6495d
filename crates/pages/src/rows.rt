//! The rows of the pages on scripts and on readable lines.

use crate::{readable_page, scripts_page};
use std::alloc::{AllocError, Global};

// How a table of lines begins.
const LINES: &str = "| Line |";

// The word in back quotes with which a row of a table begins: of a form of lines, its verb.
fn head_of(line: &str) -> Option<&str> {
    line.strip_prefix("| `")?
        .split('`')
        .next()?
        .split(' ')
        .next()
}

// Adds the cells of a row, a line each: the first, and the others below it.
fn push_cells(out: &mut String, row: &str) -> Result<(), AllocError> {
    let mut is_first = true;
    for cell in row.split('|') {
        let cell = cell.trim();
        if !cell.is_empty() {
            out.push_str(if is_first { "" } else { "  " })?;
            out.push_str(cell)?;
            out.push_str("\n")?;
            is_first = false;
        }
    }
    Ok(())
}

// Adds the rows on a word of all tables of the page on scripts.
fn push_script_rows(out: &mut String, word: &str) -> Result<(), AllocError> {
    for line in scripts_page::TEXT.lines() {
        if head_of(line) == Some(word) {
            push_cells(out, line)?;
        }
    }
    Ok(())
}

// Adds the rows on a word of the tables of lines of the page on readable ones.
fn push_readable_rows(out: &mut String, word: &str) -> Result<(), AllocError> {
    let mut is_inside = false;
    for line in readable_page::TEXT.lines() {
        is_inside = line.starts_with(LINES) || (is_inside && !line.is_empty());
        if is_inside && head_of(line) == Some(word) {
            push_cells(out, line)?;
        }
    }
    Ok(())
}

/// The rows of the tables of lines on the page on readable lines whose first word in back quotes is this one: the cells of
/// each, a line each. None where there is no such row.
pub fn readable_rows_of(alloc: Global, word: &str) -> Result<String, AllocError> {
    let mut out = String::new(alloc);
    push_readable_rows(&mut out, word)?;
    Ok(out)
}

/// The rows of the pages' tables whose first word in back quotes is this one, as a verb of a line, a reply or a cause: the
/// cells of each, a line each. Rows on readable lines stand behind those on lines of scripts. None where there is no such
/// row.
pub fn rows_of(alloc: Global, word: &str) -> Result<String, AllocError> {
    let mut out = String::new(alloc);
    push_script_rows(&mut out, word)?;
    push_readable_rows(&mut out, word)?;
    Ok(out)
}
