//! The command that checks a policy.

ghost use Rattle.std.specs.Prelude.{◌≡◌, ◌++◌, IfOk, OnOk, string_bytes};
ghost use Rattle.commands.specs.Commands.{JudgesPolicy, PassesPolicy, text_of_count, text_of_counts, text_of_denies, WritesText, TellsCounts, ChecksPolicy};
ghost use Rattle.commands.specs.Failures.{stream};

use crate::failure::{Failure, name_failure, tell_end};
use crate::kernel_judging::check_kernels;
use crate::status::Status;
use access_core::Kernel;
use policy::{Kind, Policy, Version, read_policy};
use script::{ScriptFault, Sink, flush_once, write_through};
use std::alloc::{AllocError, Global};

// Writes a line with the name of an array and how many rows it has.
fn write_count(out: &mut String, name: &str, count: usize) -> Result<(), AllocError>
    ensures { OnOk result (string_bytes out.new ≡ string_bytes out.old ++ text_of_count name.now count) }
{
    writeln!(out, "{name} {count}")
}

// Writes how many deny rows a policy has, if its version has any.
fn write_denies(policy: &Policy, out: &mut String) -> Result<(), AllocError>
    ensures { OnOk result (string_bytes out.new ≡ string_bytes out.old ++ text_of_denies policy.now.version policy.now.rows.denies) }
{
    match policy.version() {
        Version::First => Ok(()),
        Version::Second => write_count(out, "denies", policy.rows().denies.len()),
    }
}

// Writes how many rows each array of a policy has, a line an array, and then `ok`.
fn write_rows(policy: &Policy, out: &mut String) -> Result<(), AllocError>
    ensures { OnOk result (string_bytes out.new ≡ string_bytes out.old ++ text_of_counts policy.now) }
{
    write_count(out, "clients", policy.client_count())?;
    write_count(out, "agents", policy.object_count(Kind::Agent))?;
    write_count(out, "regions", policy.object_count(Kind::Region))?;
    write_count(out, "signals", policy.object_count(Kind::Signal))?;
    write_count(out, "kernels", policy.object_count(Kind::Kernel))?;
    write_count(out, "allows", policy.rows().allows.len())?;
    write_denies(policy, out)?;
    writeln!(out, "ok")
}

// The counts of a policy as a text.
fn text_of_counts(alloc: Global, policy: &Policy) -> Result<String, AllocError>
    ensures { IfOk result (λ text. string_bytes text ≡ text_of_counts policy.now) }
{
    let mut text = String::new(alloc);
    write_rows(policy, &mut text)?;
    Ok(text)
}

/// Writes a text, and has the writer pass it on.
pub(crate) fn pass_on<W: Sink>(text: &str, out: &mut W) -> Result<(), ScriptFault>
    ensures { WritesText text.now result (stream (W.contents out.old) (W.failed out.old)) (stream (W.contents out.new) (W.failed out.new)) }
{
    match write_through(out, text.as_bytes()) {
        Ok(()) => flush_once(out),
        Err(_) => Err(ScriptFault::Write),
    }
}

// Writes the counts of a policy.
fn write_counts<W: Sink>(alloc: Global, policy: &Policy, out: &mut W) -> Result<(), ScriptFault>
    ensures { WritesText (text_of_counts policy.now) result (stream (W.contents out.old) (W.failed out.old)) (stream (W.contents out.new) (W.failed out.new)) }
{
    match text_of_counts(alloc, policy) {
        Ok(text) => pass_on(text.as_str(), out),
        Err(_) => Err(ScriptFault::OutOfMemory),
    }
}

/// A policy that was let pass, with what packets may launch by its kernels, in order.
#[derive(Drop)]
pub struct Setup {
    pub policy: Policy,
    pub kernels: Vec<Kernel>,
}

/// Counts the rows of a policy on `out`, as `check_policy` does of one without a fault.
pub fn count_rows<O: Sink, E: Sink>(
    alloc: Global,
    policy: &Policy,
    out: &mut O,
    err: &mut E,
) -> Status
    ensures { TellsCounts policy.now (stream (O.contents out.old) (O.failed out.old)) (stream (O.contents out.new) (O.failed out.new))
        (stream (E.contents err.old) (E.failed err.old)) (stream (E.contents err.new) (E.failed err.new)) result }
{
    let ended = write_counts(alloc, policy, out);
    tell_end(alloc, ended, err)
}

// The policy with its kernels, where these are let pass.
fn checked(alloc: Global, policy: Policy) -> Result<Setup, Failure>
    ensures { PassesPolicy policy result }
{
    match check_kernels(alloc, &policy) {
        Ok(kernels) => Ok(Setup { policy, kernels }),
        Err(why) => Err(Failure::of_kernels(why)),
    }
}

/// Reads the text of a policy, and checks its kernels in order.
pub fn judge(alloc: Global, text: &[u8]) -> Result<Setup, Failure>
    ensures { JudgesPolicy text.now result }
{
    match read_policy(alloc, text) {
        Ok(policy) => checked(alloc, policy),
        Err(why) => Err(Failure::of_reading(why)),
    }
}

/// Checks the text of a policy, and then its kernels in order. A good one is counted on `out`; the
/// first fault of another is named on `err`: as `policy: 4 UnknownName allow 7`, with the array and
/// the row that it lies in, or as `kernel 1: check 3 line 4`; nothing stands on `out` then. It fails only
/// where `no memory` stands on `err`, or `write fault`, which the writer of the counts failed for, or where
/// the writer of faults failed.
pub fn check_policy<O: Sink, E: Sink>(
    alloc: Global,
    text: &[u8],
    out: &mut O,
    err: &mut E,
) -> Status
    ensures { ChecksPolicy text.now (stream (O.contents out.old) (O.failed out.old)) (stream (O.contents out.new) (O.failed out.new))
        (stream (E.contents err.old) (E.failed err.old)) (stream (E.contents err.new) (E.failed err.new)) result }
{
    match judge(alloc, text) {
        Ok(setup) => count_rows(alloc, &setup.policy, out, err),
        Err(why) => name_failure(alloc, why, err),
    }
}
