//! Texts as a policy's file has them.

use std::alloc::AllocError;

// Adds a letter of a string: a quote, a backslash and what doesn't print stand behind a backslash, but for ends of lines and
// tabs.
fn put_letter(out: &mut String, letter: char) -> Result<(), AllocError> {
    match letter {
        '"' => out.push_str("\\\""),
        '\\' => out.push_str("\\\\"),
        '\n' | '\t' => out.push(letter),
        '\r' => out.push_str("\\r"),
        '\0'..='\u{1f}' | '\u{7f}' => {
            let code = u32::from(letter);
            write!(out, "\\u{code:04X}")
        }
        _ => out.push(letter),
    }
}

/// Adds a text as a string of TOML of several lines, whose first line is that of the text.
pub fn put_lines(out: &mut String, text: &str) -> Result<(), AllocError> {
    out.push_str("\"\"\"\n")?;
    for letter in text.chars() {
        put_letter(out, letter)?;
    }
    out.push_str("\"\"\"")
}
