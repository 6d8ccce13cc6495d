//! What is told of an entry that tells of a failure.

use crate::denied::tell_denied;
use crate::faults::{tell_failed, tell_fault};
use crate::known::Known;
use crate::scene::Scene;
use access_core::AccessCore;
use core_model::{Entry, Outcome, Polled, Taken, Worked};
use std::alloc::{AllocError, Global};

/// What is told of the last of some entries, which come behind what a core began from, if its packet was denied, faulted or
/// failed: why, in lines that begin with this number; no text where none of that happened.
pub fn failure_told(
    alloc: Global,
    core: &AccessCore,
    entries: &[Entry],
    line: u64,
) -> Result<String, AllocError> {
    let mut out = String::new(alloc);
    let Some(entry) = entries.last() else {
        return Ok(out);
    };
    let scene = Scene::of(Known::Told { core, entries }, line);
    match &entry.outcome {
        Outcome::Taken(Taken::Denied(error)) => tell_denied(&mut out, &scene, error)?,
        Outcome::Worked(Worked::Faulted(error)) => tell_fault(alloc, &mut out, &scene, error)?,
        Outcome::Polled(Polled::Failed(error)) => tell_failed(&mut out, &scene, error)?,
        _ => {}
    }
    Ok(out)
}
