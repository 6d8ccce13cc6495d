//! The commands for authors of kernels, scripts and policies.

use crate::explaining::{PolicyFile, tell};
use crate::meanings::{Unknown, explained, nearest};
use crate::perform::{failed, read_most, unread};
use crate::policies::{judge, name_blame};
use crate::writers::Nowhere;
use assemble::{AssembleError, Book, BookError, assemble_script};
use commands::{Status, check_policy};
use explain::text_help;
use kernel_listing::{Form, Listing, TextFault, list, told as fault_told};
use script::Noted;
use std::alloc::{AllocError, Global};
use std::fs::File;
use std::io;
use std::io::Write;

/// How many bytes of a kernel's text are read: one more than a text may have.
pub const MOST_TEXT: u64 = 65_537;

/// Writes a text, and tells how that ended.
pub(crate) fn told<W: io::Write>(out: &mut W, text: &str, status: Status) -> Status {
    if out.write_all(text.as_bytes()).is_err() || out.flush().is_err() {
        return Status::Failed;
    }
    status
}

/// Writes what failed.
pub(crate) fn fails<E: io::Write>(err: &mut E, what: &str) -> Status {
    let _ = err.write_all(what.as_bytes());
    Status::Failed
}

// Tells a kernel's text's fault.
fn tell_fault<E: io::Write>(alloc: Global, text: &[u8], fault: TextFault, err: &mut E) -> Status {
    match fault_told(alloc, text, fault) {
        Ok(fault) => told(err, fault.as_str(), Status::Refused),
        Err(_) => fails(err, "no memory\n"),
    }
}

// Writes what is told of a text, and if it has a fault, tells that on `err`.
fn write_listing<O: io::Write, E: io::Write>(
    alloc: Global,
    text: &[u8],
    listing: &Listing,
    out: &mut O,
    err: &mut E,
) -> Status {
    match listing {
        Listing::Kernels(listing) => match told(out, listing.as_str(), Status::Done) {
            Status::Failed => fails(err, "write fault\n"),
            status => status,
        },
        Listing::Fault(fault) => tell_fault(alloc, text, *fault, err),
    }
}

// Lists the kernels of a text on `out` in a form, or tells the text's fault on `err`.
fn list_plainly<O: io::Write, E: io::Write>(
    alloc: Global,
    text: &[u8],
    form: Form,
    out: &mut O,
    err: &mut E,
) -> Status {
    match list(alloc, text, form) {
        Ok(listing) => write_listing(alloc, text, &listing, out, err),
        Err(_) => fails(err, "no memory\n"),
    }
}

// Lists the kernels of the text in a file as `list_plainly` does, and tells after a fault what helps.
fn list_explaining<O: io::Write, E: io::Write>(
    alloc: Global,
    file: &str,
    text: &[u8],
    form: Form,
    out: &mut O,
    err: &mut E,
) -> Status {
    let Ok(listing) = list(alloc, text, form) else {
        return fails(err, "no memory\n");
    };
    match (write_listing(alloc, text, &listing, out, err), listing) {
        (Status::Refused, Listing::Fault(fault)) => {
            tell(err, text_help(alloc, file, text, fault), Status::Refused)
        }
        (status, _) => status,
    }
}

// Lists the kernels of the text in a file, and tells after a fault what helps, if it explains.
fn list_file(rt: &HostRuntime, file: &str, form: Form, explains: bool, text: &[u8]) -> Status {
    let mut out = rt.stdout();
    let mut err = rt.stderr();
    if explains {
        list_explaining(rt.alloc(), file, text, form, &mut out, &mut err)
    } else {
        list_plainly(rt.alloc(), text, form, &mut out, &mut err)
    }
}

/// Lists the kernels of the text in a file in a form, and tells why it has a fault, if it explains.
pub fn kernel(rt: &HostRuntime, file: &str, form: Form, explains: bool) -> Status {
    match read_most(rt, file, MOST_TEXT) {
        Ok(text) => list_file(rt, file, form, explains, text.as_slice()),
        Err(error) => unread(rt, file, explains, &error),
    }
}

// Tells why a script wasn't assembled to its end.
fn unassembled<E: io::Write>(err: &mut E, error: &AssembleError) -> Status {
    match error {
        AssembleError::OutOfMemory => fails(err, "no memory\n"),
        AssembleError::Read => fails(err, "read fault\n"),
        AssembleError::Write => fails(err, "write fault\n"),
        AssembleError::Refused(text) => match told(err, text.as_str(), Status::Refused) {
            Status::Refused => told(err, "\n", Status::Refused),
            status => status,
        },
    }
}

// Assembles a script by a policy without a fault.
fn assemble_checked<R: io::Read, O: io::Write, E: io::Write>(
    alloc: Global,
    policy: &[u8],
    script: &mut R,
    out: &mut O,
    err: &mut E,
) -> Status {
    match Book::read(alloc, policy) {
        Ok(book) => match assemble_script(alloc, &book, script, out) {
            Ok(()) => Status::Done,
            Err(error) => unassembled(err, &error),
        },
        Err(BookError::OutOfMemory) => fails(err, "no memory\n"),
        Err(BookError::Refused) => Status::Refused,
    }
}

/// Assembles a script by the policy in a text, or tells the first fault of the policy and its kernels as `check_policy`
/// does.
pub fn assemble_policy<R: io::Read, O: io::Write, E: io::Write>(
    alloc: Global,
    policy: &[u8],
    script: &mut R,
    out: &mut O,
    err: &mut E,
) -> Status {
    match check_policy(
        alloc,
        policy,
        &mut Noted::new(Nowhere),
        &mut Noted::new(&mut *err),
    ) {
        Status::Done => assemble_checked(alloc, policy, script, out, err),
        status => status,
    }
}

/// Assembles the same as `assemble_policy`, and tells after a fault of the policy where it lies and what may stand there.
pub fn assemble_explaining<R: io::Read, O: io::Write, E: io::Write>(
    alloc: Global,
    file: PolicyFile<'_>,
    script: &mut R,
    out: &mut O,
    err: &mut E,
) -> Status {
    match judge(alloc, file, true) {
        Ok(_) => assemble_checked(alloc, file.text, script, out, err),
        Err(blame) => name_blame(alloc, blame, err),
    }
}

// Assembles a script by the policy in a file, and tells why it has a fault, if it explains.
fn assemble_read<R: io::Read>(
    rt: &HostRuntime,
    file: PolicyFile<'_>,
    explains: bool,
    script: &mut R,
) -> Status {
    let mut out = rt.stdout();
    let mut err = rt.stderr();
    if explains {
        assemble_explaining(rt.alloc(), file, script, &mut out, &mut err)
    } else {
        assemble_policy(rt.alloc(), file.text, script, &mut out, &mut err)
    }
}

/// Assembles the script in a file, or that on standard input, by the policy in another, and tells why it has a fault, if it
/// explains.
pub fn assemble_from(
    rt: &HostRuntime,
    file: PolicyFile<'_>,
    script: Option<&str>,
    explains: bool,
) -> Status {
    let Some(name) = script else {
        return assemble_read(rt, file, explains, &mut rt.stdin());
    };
    match File::open(rt, name) {
        Ok(mut opened) => assemble_read(rt, file, explains, &mut opened),
        Err(error) => unread(rt, name, explains, &error),
    }
}

// Says which word is the nearest to one that isn't known, where one is near.
fn tell_nearest(rt: &HostRuntime, word: &str) -> Option<Status> {
    let name = match nearest(rt.alloc(), word) {
        Ok(Some(near)) => near.name,
        Ok(None) => return None,
        Err(_) => return Some(failed(rt, "no memory")),
    };
    match eprintln!(rt; "no word of explain is `{word}`: the nearest is `{name}`") {
        Ok(()) => None,
        Err(_) => Some(Status::Failed),
    }
}

// Says what `explain` takes; none where that could be said.
fn tell_unknown(rt: &HostRuntime, word: &str) -> Option<Status> {
    let unknown = Unknown;
    if let Some(status) = tell_nearest(rt, word) {
        return Some(status);
    }
    match eprintln!(rt; "{unknown}") {
        Ok(()) => None,
        Err(_) => Some(Status::Failed),
    }
}

// Prints what a word means, if it means something.
fn print_meaning(rt: &HostRuntime, word: &str, text: &str) -> Option<Status> {
    if text.is_empty() {
        return tell_unknown(rt, word);
    }
    match told(&mut rt.stdout(), text, Status::Done) {
        Status::Failed => Some(failed(rt, "write fault")),
        status => Some(status),
    }
}

/// Tells what a rule, a refusal or a cause means; none where the word is none of them, which is told too.
pub fn explain(rt: &HostRuntime, word: &str) -> Option<Status> {
    match explained(rt.alloc(), word) {
        Ok(text) => print_meaning(rt, word, text.as_str()),
        Err(_) => Some(failed(rt, "no memory")),
    }
}
