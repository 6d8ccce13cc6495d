//! The rule that a packet broke, and where.

ghost use Rattle.std.specs.Prelude.{◌≡◌, ◌++◌, OnOk, string_bytes};
ghost use Rattle.words.specs.Errors.{text_of_broken};

use queue_error::QueueError;
use std::alloc::AllocError;

/// Writes the rule of an error, and its place where there is one.
pub fn write_broken(out: &mut String, error: &QueueError) -> Result<(), AllocError>
    ensures { OnOk result (string_bytes out.new ≡ string_bytes out.old ++ text_of_broken error.now) }
{
    write!(out, "{}", error.rule)?;
    match error.place {
        Some(place) => write!(out, " {place}"),
        None => Ok(()),
    }
}
