//! Where the rows and keys of a policy stand in its file, which is TOML.

use std::alloc::{AllocError, Global};
use toml_parser::text::{skip_blank, skip_ws};
use toml_parser::{ParseError, dotted_key, quoted, starts_string};

/// A line and a column of a text, both from 1; a column counts bytes.
#[derive(Clone, Copy, Debug, PartialEq, Eq)]
pub struct Position {
    pub line: u32,
    pub column: u32,
}

/// A place in a file, as far as it is known.
#[derive(Clone, Copy)]
pub enum Place {
    Unknown,
    Line(u32),
    At(Position),
}

/// A number of 32 bits, the greatest where it is greater.
pub fn small(number: usize) -> u32 {
    if number < 4_294_967_295 {
        number as u32
    } else {
        4_294_967_295
    }
}

// Whether a key stands next that is this one, without dots, and what stands after it; none where no key stands there.
fn key_next<'a>(
    alloc: Global,
    text: &'a str,
    name: &str,
) -> Result<Option<(bool, &'a str)>, AllocError> {
    match dotted_key(alloc, text) {
        Ok((key, behind)) => {
            let is_named = key.path.is_empty() && key.last.as_str() == name;
            Ok(Some((is_named, behind)))
        }
        Err(ParseError::OutOfMemory) => Err(AllocError),
        Err(_) => Ok(None),
    }
}

// Whether a key of this name stands next, and its value.
fn pair_next<'a>(
    alloc: Global,
    text: &'a str,
    name: &str,
) -> Result<Option<(bool, &'a str)>, AllocError> {
    let Some((is_named, behind)) = key_next(alloc, text, name)? else {
        return Ok(None);
    };
    match behind.strip_prefix("=") {
        Some(value) => Ok(Some((is_named, skip_ws(value)))),
        None => Ok(None),
    }
}

// Whether a table's header of this name stands next, and what stands after it.
fn header_next<'a>(
    alloc: Global,
    text: &'a str,
    name: &str,
) -> Result<Option<(bool, &'a str)>, AllocError> {
    let (inside, close) = match text.strip_prefix("[[") {
        Some(inside) => (inside, "]]"),
        None => (text.strip_prefix("[").unwrap_or(text), "]"),
    };
    let Some((is_named, behind)) = key_next(alloc, skip_ws(inside), name)? else {
        return Ok(None);
    };
    match behind.strip_prefix(close) {
        Some(behind) => Ok(Some((is_named, behind))),
        None => Ok(None),
    }
}

// What stands after a string.
fn behind_string<'a>(alloc: Global, text: &'a str) -> Result<Option<&'a str>, AllocError> {
    if !starts_string(text) {
        return Ok(None);
    }
    match quoted(alloc, text) {
        Ok((_, behind)) => Ok(Some(behind)),
        Err(ParseError::OutOfMemory) => Err(AllocError),
        Err(_) => Ok(None),
    }
}

// What stands after a string, or after one letter of ASCII.
fn behind_piece<'a>(alloc: Global, text: &'a str) -> Result<Option<&'a str>, AllocError> {
    if starts_string(text) {
        return behind_string(alloc, text);
    }
    match text.split_at_checked(1) {
        Some((_, behind)) => Ok(Some(behind)),
        None => Ok(None),
    }
}

// In how many brackets one stands after what stands next.
fn depth_behind(depth: usize, text: &str) -> usize {
    match text.as_bytes() {
        [b'[' | b'{', ..] => depth.saturating_add(1),
        [b']' | b'}', ..] => depth.saturating_sub(1),
        _ => depth,
    }
}

// Whether what stands next ends a value that is in no brackets of its own.
fn ends_value(text: &str) -> bool {
    matches!(
        text.as_bytes(),
        [] | [b',' | b']' | b'}' | b'#' | b'\r' | b'\n', ..]
    )
}

// What stands after blanks: within brackets, after ends of lines and remarks too.
fn behind_blanks(text: &str, depth: usize) -> &str {
    if depth > 0 {
        skip_blank(text, true)
    } else {
        skip_ws(text)
    }
}

// What stands after a value; none where it doesn't end.
fn behind_value<'a>(alloc: Global, value: &'a str) -> Result<Option<&'a str>, AllocError> {
    let mut rest = value;
    let mut depth = 0;
    for _ in 0..value.len() {
        rest = behind_blanks(rest, depth);
        if depth == 0 && ends_value(rest) {
            return Ok(Some(rest));
        }
        depth = depth_behind(depth, rest);
        let Some(behind) = behind_piece(alloc, rest)? else {
            return Ok(None);
        };
        rest = behind;
    }
    Ok(Some(rest))
}

// What stands after a value and a comma; none where no comma stands there.
fn behind_comma<'a>(alloc: Global, value: &'a str) -> Result<Option<&'a str>, AllocError> {
    match behind_value(alloc, value)? {
        Some(behind) => Ok(skip_blank(behind, true).strip_prefix(",")),
        None => Ok(None),
    }
}

// The item of a number, from 1, of an array in brackets, if it is a table.
fn item_of<'a>(alloc: Global, array: &'a str, number: u32) -> Result<Option<&'a str>, AllocError> {
    let Some(first) = array.strip_prefix("[") else {
        return Ok(None);
    };
    let mut rest = first;
    for _ in 1..number {
        let Some(behind) = behind_comma(alloc, skip_blank(rest, true))? else {
            return Ok(None);
        };
        rest = behind;
    }
    let item = skip_blank(rest, true);
    Ok(if item.starts_with("{") {
        Some(item)
    } else {
        None
    })
}

// A key of a table in brackets, and its value: each as what stands there and after it.
fn pair_in<'a>(
    alloc: Global,
    table: &'a str,
    key: &str,
) -> Result<Option<(&'a str, &'a str)>, AllocError> {
    let mut rest = table.strip_prefix("{").unwrap_or(table);
    for _ in 0..table.len() {
        let pair = skip_blank(rest, true);
        let Some((is_key, value)) = pair_next(alloc, pair, key)? else {
            return Ok(None);
        };
        if is_key {
            return Ok(Some((pair, value)));
        }
        let Some(behind) = behind_comma(alloc, value)? else {
            return Ok(None);
        };
        rest = behind;
    }
    Ok(None)
}

/// What is looked for in a file: a key of the row of a number, from 1, of an array; in row 0 a key before all tables.
#[derive(Clone, Copy)]
struct Wanted<'a> {
    array: &'a str,
    row: u32,
    key: &'a str,
}

/// What was found in a file, each as what stands there and after it.
#[derive(Clone, Copy)]
pub struct Found<'a> {
    text: &'a str,
    /// The row.
    pub row: Option<&'a str>,
    // Whether the row stands in brackets, among others of its line.
    is_in_brackets: bool,
    /// The key.
    pub key: Option<&'a str>,
    /// The value of the key.
    pub value: Option<&'a str>,
}

/// In which part of a file what stands next lies.
#[derive(Clone, Copy, PartialEq, Eq)]
enum FilePart {
    /// Before all tables.
    Head,
    /// In the row that is looked for.
    Row,
    /// In another row or table.
    Other,
}

/// How far a file was looked through.
#[derive(Clone, Copy)]
struct Looked<'a> {
    found: Found<'a>,
    rest: &'a str,
    part: FilePart,
    // How many rows of the array have begun.
    rows: u32,
}

// Looks on at a table's header.
fn with_header<'a>(
    alloc: Global,
    looked: Looked<'a>,
    wanted: &Wanted<'_>,
) -> Result<Option<Looked<'a>>, AllocError> {
    let Some((is_row, rest)) = header_next(alloc, looked.rest, wanted.array)? else {
        return Ok(None);
    };
    let rows = if is_row {
        looked.rows.saturating_add(1)
    } else {
        looked.rows
    };
    let mut found = looked.found;
    let mut part = FilePart::Other;
    if is_row && rows == wanted.row {
        found.row = Some(looked.rest);
        part = FilePart::Row;
    }
    Ok(Some(Looked {
        found,
        rest,
        part,
        rows,
    }))
}

// What is found of an array whose value is this: its row and the row's key, or where it isn't one in brackets, the value.
fn in_brackets<'a>(
    alloc: Global,
    looked: Looked<'a>,
    value: &'a str,
    wanted: &Wanted<'_>,
) -> Result<Found<'a>, AllocError> {
    let row = item_of(alloc, value, wanted.row)?;
    let pair = match row {
        Some(row) => pair_in(alloc, row, wanted.key)?,
        None => Some((looked.rest, value)),
    };
    let (key, value) = match pair {
        Some((key, value)) => (Some(key), Some(value)),
        None => (None, None),
    };
    Ok(Found {
        text: looked.found.text,
        row,
        is_in_brackets: true,
        key,
        value,
    })
}

// What is found at the value of the key that is looked for.
fn found_at<'a>(
    alloc: Global,
    looked: Looked<'a>,
    wanted: &Wanted<'_>,
    value: &'a str,
) -> Result<Found<'a>, AllocError> {
    if looked.part == FilePart::Head && wanted.row > 0 {
        return in_brackets(alloc, looked, value, wanted);
    }
    let mut found = looked.found;
    found.key = Some(looked.rest);
    found.value = Some(value);
    Ok(found)
}

// Looks on at a key and its value.
fn with_pair<'a>(
    alloc: Global,
    looked: Looked<'a>,
    wanted: &Wanted<'_>,
) -> Result<Option<Looked<'a>>, AllocError> {
    let name = if looked.part == FilePart::Head && wanted.row > 0 {
        wanted.array
    } else {
        wanted.key
    };
    let Some((is_named, value)) = pair_next(alloc, looked.rest, name)? else {
        return Ok(None);
    };
    if is_named && looked.part != FilePart::Other {
        let found = found_at(alloc, looked, wanted, value)?;
        return Ok(Some(Looked {
            found,
            rest: "",
            ..looked
        }));
    }
    match behind_value(alloc, value)? {
        Some(rest) => Ok(Some(Looked { rest, ..looked })),
        None => Ok(None),
    }
}

// Looks on after blanks; none at the end, and where nothing is found any more.
fn looked_on<'a>(
    alloc: Global,
    looked: Looked<'a>,
    wanted: &Wanted<'_>,
) -> Result<Option<Looked<'a>>, AllocError> {
    let looked = Looked {
        rest: skip_blank(looked.rest, true),
        ..looked
    };
    if looked.rest.is_empty() {
        return Ok(None);
    }
    if looked.rest.starts_with("[") {
        with_header(alloc, looked, wanted)
    } else {
        with_pair(alloc, looked, wanted)
    }
}

/// Where the row of a number, from 1, of an array stands in a file, and the value of a key in it. With row 0: the value
/// of a key before all tables.
pub fn find<'a>(
    alloc: Global,
    text: &'a [u8],
    array: &str,
    row: u32,
    key: &str,
) -> Result<Found<'a>, AllocError> {
    let text = std::str::from_utf8(text).unwrap_or("");
    let wanted = Wanted { array, row, key };
    let mut looked = Looked {
        found: Found {
            text,
            row: None,
            is_in_brackets: false,
            key: None,
            value: None,
        },
        rest: text,
        part: FilePart::Head,
        rows: 0,
    };
    for _ in 0..text.len() {
        match looked_on(alloc, looked, &wanted)? {
            Some(further) => looked = further,
            None => return Ok(looked.found),
        }
    }
    Ok(looked.found)
}

impl Found<'_> {
    /// The line and the column at which the last part of the file begins.
    pub fn position_of(&self, rest: &str) -> Position {
        position_of(self.text, rest)
    }

    /// Where the key stands, or else the row.
    pub fn key_place(&self) -> Place {
        match self.key {
            Some(key) => Place::At(position_of(self.text, key)),
            None => self.place(),
        }
    }

    /// Where it stands: the key's value, or else the row.
    pub fn place(&self) -> Place {
        match (self.value, self.row) {
            (Some(value), _) => Place::At(position_of(self.text, value)),
            (None, Some(row)) if self.is_in_brackets => Place::At(position_of(self.text, row)),
            (None, Some(row)) => Place::Line(position_of(self.text, row).line),
            (None, None) => Place::Unknown,
        }
    }
}

// The line and the column at which the last part of a text begins.
fn position_of(text: &str, end: &str) -> Position {
    position_at(text.as_bytes(), text.len().saturating_sub(end.len()))
}

/// The line and the column of a place in a text, so many bytes from its beginning.
pub fn position_at(text: &[u8], before: usize) -> Position {
    let mut line = 1u32;
    let mut column = 1u32;
    for byte in text.split_at(before.min(text.len())).0 {
        if *byte == b'\n' {
            line = line.saturating_add(1);
            column = 1;
        } else {
            column = column.saturating_add(1);
        }
    }
    Position { line, column }
}
