//! A check that tells beside a policy's fault where it lies, and what mends it.

use crate::policies::{entries_told, judge, name_blame};
use commands::{KernelCause, KernelFault, Setup, Status, count_rows};
use explain::{kernel_fault, policy_fault};
use kernel_listing::TextFault;
use pages::rows_of;
use policy::{Policy, PolicyCause, PolicyFault};
use script::Noted;
use std::alloc::{AllocError, Global};
use std::io;
use std::io::Write;

/// A policy's file: what it is called, and its text.
#[derive(Clone, Copy)]
pub struct PolicyFile<'a> {
    pub name: &'a str,
    pub text: &'a [u8],
}

// What is wrong with a kernel's text.
fn text_fault(cause: KernelCause) -> TextFault {
    match cause {
        KernelCause::Read(fault) => TextFault::Read(fault),
        KernelCause::Check(fault) => TextFault::Check(fault),
    }
}

/// What is told of a kernel of a policy that is refused.
pub fn kernel_told(
    alloc: Global,
    file: PolicyFile<'_>,
    policy: &Policy,
    fault: KernelFault,
) -> Result<String, AllocError> {
    let KernelFault { kernel, cause } = fault;
    kernel_fault(
        alloc,
        file.name,
        file.text,
        policy,
        kernel,
        text_fault(cause),
    )
}

// The number and the text of the first line of a text that has a word and is no remark.
fn first_line(text: &str) -> Option<(usize, &str)> {
    for (place, line) in text.lines().enumerate() {
        let line = line.trim();
        if !line.is_empty() && !line.starts_with('#') {
            return Some((place.saturating_add(1), line));
        }
    }
    None
}

// What is told of a file that looks like a script, as its first line begins with a word that a script's lines begin with.
fn script_told(alloc: Global, file: PolicyFile<'_>, text: &str) -> Result<String, AllocError> {
    let Some((number, line)) = first_line(text) else {
        return Ok(String::new(alloc));
    };
    let word = line.split(' ').next().unwrap_or(line);
    if line.contains('=') || rows_of(alloc, word)?.is_empty() {
        return Ok(String::new(alloc));
    }
    let name = file.name;
    format!(in alloc;
        "{name}: this looks like a script, as its line {number} begins with `{word}`: a policy is asked for here, and a script on standard input\n"
    )
}

/// What is told of a policy's first fault.
pub fn fault_told(
    alloc: Global,
    file: PolicyFile<'_>,
    fault: &PolicyFault,
) -> Result<String, AllocError> {
    let mut told = policy_fault(alloc, file.name, file.text, fault)?;
    if fault.cause == PolicyCause::NotToml {
        if let Ok(text) = std::str::from_utf8(file.text) {
            told.push_str(script_told(alloc, file, text)?.as_str())?;
        }
    }
    Ok(told)
}

/// Writes an explanation, if there was memory for it, and tells how the command ends.
pub fn tell<E: io::Write>(err: &mut E, told: Result<String, AllocError>, status: Status) -> Status {
    match told {
        Ok(text) => {
            if err.write_all(text.as_bytes()).is_err() || err.flush().is_err() {
                return Status::Failed;
            }
            status
        }
        Err(_) => status,
    }
}

/// What is told of a policy beside its counts: of a fault where it lies, and of one without a fault which kernel's text has
/// none of its entry's name.
#[derive(Clone, Copy)]
pub struct Tells {
    pub faults: bool,
    pub entries: bool,
}

/// Tells which kernel's text of a policy has none of its entry's name, behind what was written of it.
pub fn tell_entries<E: io::Write>(
    alloc: Global,
    file: PolicyFile<'_>,
    judged: &Setup,
    err: &mut E,
    status: Status,
) -> Status {
    tell(err, entries_told(alloc, file, judged), status)
}

// Counts a policy that was let pass.
fn count<O: io::Write, E: io::Write>(
    alloc: Global,
    file: PolicyFile<'_>,
    judged: &Setup,
    tells: Tells,
    out: &mut O,
    err: &mut E,
) -> Status {
    match count_rows(
        alloc,
        &judged.policy,
        &mut Noted::new(&mut *out),
        &mut Noted::new(&mut *err),
    ) {
        Status::Done if tells.entries => tell_entries(alloc, file, judged, err, Status::Done),
        status => status,
    }
}

/// Checks the policy in a file as `check_policy` does, and tells beside what is to be told.
pub fn check_telling<O: io::Write, E: io::Write>(
    alloc: Global,
    file: PolicyFile<'_>,
    tells: Tells,
    out: &mut O,
    err: &mut E,
) -> Status {
    match judge(alloc, file, tells.faults) {
        Ok(judged) => count(alloc, file, &judged, tells, out, err),
        Err(blame) => name_blame(alloc, blame, err),
    }
}
