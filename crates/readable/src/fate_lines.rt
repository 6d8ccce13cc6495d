//! How it is told what came of packets in a drain.

ghost use Rattle.std.specs.Prelude.{◌≡◌, ◌++◌, [], OnOk, if◌then◌else◌, string_bytes};
ghost use Rattle.readable.specs.FateLines.{text_of_about, text_of_course, text_of_ending, text_of_fate, text_of_fates, text_of_name, text_of_packet, text_of_ran, word_of_function};

use crate::fates::{Ending, Fate};
use aql_packet::{KernelObject, Packet};
use core_model::{ADD64, COPY, FILL};
use json_replies::{put_bool, put_comma, put_number, put_text};
use policy::{Object, Policy};
use queue_error::Rule;
use std::alloc::AllocError;
use words::{object_name, write_object};

// The word that an agent's function has in readable lines.
fn function_word(function: u16) -> &'static str
    ensures { result.now ≡ word_of_function function }
{
    if function == FILL {
        "fill"
    } else if function == COPY {
        "copy"
    } else if function == ADD64 {
        "add"
    } else {
        ""
    }
}

// Writes what a packet is.
fn write_packet(out: &mut String, policy: &Policy, packet: &Packet) -> Result<(), AllocError>
    ensures { OnOk result (string_bytes out.new ≡ string_bytes out.old ++ text_of_packet policy.now packet.now) }
{
    match packet {
        Packet::Kernel(kernel) => {
            out.push_str(" kernel ")?;
            write_object(out, policy, Object::Kernel(kernel.kernel_object))
        }
        Packet::Agent(agent) => {
            out.push_str(" ")?;
            out.push_str(function_word(agent.function))
        }
        Packet::BarrierAnd(_) => out.push_str(" all-of"),
        Packet::BarrierOr(_) => out.push_str(" any-of"),
    }
}

// Writes what a packet is, where that is known.
fn write_about(out: &mut String, policy: &Policy, about: &Option<Packet>) -> Result<(), AllocError>
    ensures { OnOk result (string_bytes out.new ≡ string_bytes out.old ++ text_of_about policy.now about.now) }
{
    match about {
        Some(packet) => write_packet(out, policy, packet),
        None => Ok(()),
    }
}

// Writes how many groups ran, if one did.
fn write_ran(out: &mut String, ran: u64) -> Result<(), AllocError>
    ensures { OnOk result (string_bytes out.new ≡ string_bytes out.old ++ text_of_ran ran) }
{
    if ran == 0 {
        return Ok(());
    }
    write!(out, " ran {ran}")
}

// Writes how a packet ended.
fn write_ending(out: &mut String, ending: &Ending) -> Result<(), AllocError>
    ensures { OnOk result (string_bytes out.new ≡ string_bytes out.old ++ text_of_ending ending.now) }
{
    match ending {
        Ending::Open => Ok(()),
        Ending::Denied(rule) => write!(out, " denied {rule}"),
        Ending::Faulted(rule) => write!(out, " faulted {rule}"),
        Ending::Failed(rule) => write!(out, " failed {rule}"),
        Ending::Finished => out.push_str(" finished"),
    }
}

// Writes which packet it is.
fn write_name(out: &mut String, fate: &Fate) -> Result<(), AllocError>
    ensures { OnOk result (string_bytes out.new ≡ string_bytes out.old ++ text_of_name fate.now) }
{
    let queue = fate.queue.0;
    let packet = fate.packet.0;
    write!(out, "packet {queue} {packet}")
}

// Writes a word, where it is so.
fn write_where(out: &mut String, is_so: bool, word: &str) -> Result<(), AllocError>
    ensures { OnOk result (string_bytes out.new ≡ string_bytes out.old ++ (if is_so then word.now else [])) }
{
    if is_so {
        return out.push_str(word);
    }
    Ok(())
}

// Writes how a packet got on.
fn write_course(out: &mut String, fate: &Fate) -> Result<(), AllocError>
    ensures { OnOk result (string_bytes out.new ≡ string_bytes out.old ++ text_of_course fate.now) }
{
    write_where(out, fate.launched, " launched")?;
    write_ran(out, fate.ran)?;
    write_where(out, fate.ready, " ready")
}

// Writes what came of a packet.
#[tactic(auto, unfolding(crate::specs::FateLines::text_of_fate))]
fn write_fate(out: &mut String, policy: &Policy, fate: &Fate) -> Result<(), AllocError>
    ensures { OnOk result (string_bytes out.new ≡ string_bytes out.old ++ text_of_fate policy.now fate.now) }
{
    write_name(out, fate)?;
    write_about(out, policy, &fate.about)?;
    write_course(out, fate)?;
    write_ending(out, &fate.ending)?;
    out.push_str("\n")
}

/// Writes a line of each packet: what it is, and what came of it.
pub(crate) fn write_fates(
    out: &mut String,
    policy: &Policy,
    fates: &[Fate],
) -> Result<(), AllocError>
    ensures { OnOk result (string_bytes out.new ≡ string_bytes out.old ++ text_of_fates policy.now fates.now) }
{
    for fate in fates.iter() {
        write_fate(out, policy, fate)?;
    }
    Ok(())
}

// Puts the kernel of a packet.
fn put_kernel(out: &mut String, policy: &Policy, kernel: KernelObject) -> Result<(), AllocError> {
    put_text(out, "kind", "kernel")?;
    put_text(out, "kernel", object_name(policy, Object::Kernel(kernel)))
}

// Puts what a packet is, where that is known.
fn put_about(out: &mut String, policy: &Policy, about: &Option<Packet>) -> Result<(), AllocError> {
    match about {
        Some(Packet::Kernel(kernel)) => put_kernel(out, policy, kernel.kernel_object),
        Some(Packet::Agent(agent)) => put_text(out, "kind", function_word(agent.function)),
        Some(Packet::BarrierAnd(_)) => put_text(out, "kind", "all-of"),
        Some(Packet::BarrierOr(_)) => put_text(out, "kind", "any-of"),
        None => Ok(()),
    }
}

// Puts an end and the rule that was broken.
fn put_broken(out: &mut String, ending: &str, rule: Rule) -> Result<(), AllocError> {
    put_text(out, "ending", ending)?;
    put_comma(out)?;
    write!(out, "\"rule\":\"{rule}\"")
}

// Puts how a packet ended.
fn put_ending(out: &mut String, ending: Ending) -> Result<(), AllocError> {
    match ending {
        Ending::Open => put_text(out, "ending", "open"),
        Ending::Denied(rule) => put_broken(out, "denied", rule),
        Ending::Faulted(rule) => put_broken(out, "faulted", rule),
        Ending::Failed(rule) => put_broken(out, "failed", rule),
        Ending::Finished => put_text(out, "ending", "finished"),
    }
}

/// Puts what came of a packet, as an object behind others.
pub(crate) fn put_fate(out: &mut String, policy: &Policy, fate: &Fate) -> Result<(), AllocError> {
    put_comma(out)?;
    out.push_str("{")?;
    put_number(out, "queue", fate.queue.0)?;
    put_number(out, "packet", fate.packet.0)?;
    put_about(out, policy, &fate.about)?;
    put_bool(out, "launched", fate.launched)?;
    put_number(out, "ran", fate.ran)?;
    put_bool(out, "ready", fate.ready)?;
    put_ending(out, fate.ending)?;
    out.push_str("}")
}
