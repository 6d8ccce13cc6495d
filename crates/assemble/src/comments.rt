//! Comments: whole lines, and the ends of lines.

ghost use Rattle.std.specs.Prelude.{◌≡◌};
ghost use Rattle.assemble.specs.Comments.{is_comment};

use words::is_blank;

/// Whether a line is a comment.
pub fn is_comment(line: &[u8]) -> bool
    ensures { result ≡ is_comment line.now }
{
    match line.split_first() {
        Some((first, _)) => *first == b'#',
        None => false,
    }
}

/// A line without the comment at its end: up to the first word that begins with `#`. A line that is a comment stays.
pub fn without_comment(line: &[u8]) -> &[u8] {
    let mut is_between = false;
    for (index, byte) in line.iter().enumerate() {
        if is_between && *byte == b'#' {
            return line.split_at(index).0;
        }
        is_between = is_blank(*byte);
    }
    line
}
