//! What is said of an entry in words.

ghost use Rattle.std.specs.Prelude.{◌≡◌, ◌++◌, ◌≤◌, OnOk, flat_map, string_bytes, slice_index_or, false};
ghost use Rattle.picture.specs.Words.{right_in, words_of_rights, words_of_function, words_of_work, position_in, words_of_seen, words_of_error, words_of, brief_of, lead_of, has_queue, words_of_queue, words_of_effect, told_of};
ghost use Rattle.words.specs.Names.{name_of_client, name_of_object};
ghost use Rattle.policy.specs.Rights.{all_rights};
ghost use Rattle.picture.specs.declared.element.Sign.TheVariants as signs;

use crate::element::{Element, Sign, Work};
use aql_packet::{AgentHandle, ClientId, QueueId};
use core_model::{ADD64, COPY, Effect, FILL, Satisfied};
use policy::{Object, Policy, Right, Rights};
use queue_error::QueueError;
use regions::region_of;
use std::alloc::AllocError;
use words::{write_broken, write_client, write_object};

// Writes a right behind a blank, if the set has it.
fn write_right(out: &mut String, rights: Rights, right: Right) -> Result<(), AllocError>
    ensures { OnOk result (string_bytes out.new ≡ string_bytes out.old ++ right_in rights right) }
{
    if rights.has(right) {
        out.push_str(" ")?;
        out.push_str(right.name())
    } else {
        Ok(())
    }
}

// Writes the rights of a set, each behind a blank.
fn write_all_rights(out: &mut String, rights: Rights) -> Result<(), AllocError>
    ensures { OnOk result (string_bytes out.new ≡ string_bytes out.old ++ flat_map (right_in rights) all_rights) }
{
    write_right(out, rights, Right::Use)?;
    write_right(out, rights, Right::Read)?;
    write_right(out, rights, Right::Write)?;
    write_right(out, rights, Right::Wait)?;
    write_right(out, rights, Right::Change)?;
    write_right(out, rights, Right::Launch)
}

// Writes the verb, the client, the object and the rights.
fn write_rights(
    out: &mut String,
    policy: &Policy,
    verb: &str,
    client: ClientId,
    object: Object,
    rights: Rights,
) -> Result<(), AllocError>
    ensures { OnOk result (string_bytes out.new ≡ string_bytes out.old ++ (verb.now ++ words_of_rights policy.now client object rights)) }
{
    out.push_str(verb)?;
    write_client(out, policy, client)?;
    out.push_str(" ")?;
    out.push_str(object.kind().name())?;
    out.push_str(" ")?;
    write_object(out, policy, object)?;
    write_all_rights(out, rights)
}

// The name of an agent's function.
fn function_name(function: u16) -> &'static str
    ensures { result.now ≡ words_of_function function }
{
    if function == FILL {
        "FILL"
    } else if function == COPY {
        "COPY"
    } else if function == ADD64 {
        "ADD64"
    } else {
        "agent"
    }
}

// Writes what a packet is.
fn write_work(out: &mut String, policy: &Policy, work: Work) -> Result<(), AllocError>
    ensures { OnOk result (string_bytes out.new ≡ string_bytes out.old ++ words_of_work policy.now work) }
{
    match work {
        Work::Kernel(kernel) => write_object(out, policy, Object::Kernel(kernel)),
        Work::Agent(function) => out.push_str(function_name(function)),
        Work::BarrierAnd => out.push_str("barrier-AND"),
        Work::BarrierOr => out.push_str("barrier-OR"),
    }
}

/// Whether the dependency at a place, from 0, was newly seen.
pub(crate) fn is_seen(seen: Satisfied, place: usize) -> bool
    ensures { result ≡ slice_index_or seen.0 place false }
{
    match seen.0.get(place) {
        Some(was_seen) => *was_seen,
        None => false,
    }
}

// Writes a position behind a blank, if it was newly seen.
fn write_position(out: &mut String, seen: Satisfied, position: u8) -> Result<(), AllocError>
    requires { 1 ≤ position }
    ensures { OnOk result (string_bytes out.new ≡ string_bytes out.old ++ position_in seen position) }
{
    if is_seen(seen, position as usize - 1) {
        write!(out, " {position}")
    } else {
        Ok(())
    }
}

// Writes the positions that were newly seen.
fn write_seen(out: &mut String, seen: Satisfied) -> Result<(), AllocError>
    ensures { OnOk result (string_bytes out.new ≡ string_bytes out.old ++ words_of_seen seen) }
{
    write_position(out, seen, 1)?;
    write_position(out, seen, 2)?;
    write_position(out, seen, 3)?;
    write_position(out, seen, 4)?;
    write_position(out, seen, 5)
}

// Writes the rule that a packet broke, and where.
fn write_error(out: &mut String, error: &QueueError) -> Result<(), AllocError>
    ensures { OnOk result (string_bytes out.new ≡ string_bytes out.old ++ words_of_error error.now) }
{
    write!(out, "{} ", error.packet.0)?;
    write_broken(out, error)
}

// Writes the name of a lane.
fn write_lane(
    out: &mut String,
    policy: &Policy,
    queue: QueueId,
    client: ClientId,
    agent: AgentHandle,
) -> Result<(), AllocError>
    ensures { OnOk result (string_bytes out.new ≡ string_bytes out.old ++ words_of policy.now (signs.Lane queue client agent)) }
{
    write!(out, "queue {} ", queue.0)?;
    write_client(out, policy, client)?;
    out.push_str(" ")?;
    write_object(out, policy, Object::Agent(agent))
}

/// Writes what is said of an entry.
pub(crate) fn write_words(out: &mut String, policy: &Policy, sign: &Sign) -> Result<(), AllocError>
    ensures { OnOk result (string_bytes out.new ≡ string_bytes out.old ++ words_of policy.now sign.now) }
{
    match sign {
        Sign::Grant {
            client,
            object,
            rights,
        } => write_rights(out, policy, "grant ", *client, *object, *rights),
        Sign::Revocation {
            client,
            object,
            rights,
        } => write_rights(out, policy, "revoke ", *client, *object, *rights),
        Sign::Lane {
            queue,
            client,
            agent,
        } => write_lane(out, policy, *queue, *client, *agent),
        Sign::Stop => out.push_str("stop"),
        Sign::Close => out.push_str("close"),
        Sign::Bar { packet, work, .. } => {
            write!(out, "{} ", packet.0)?;
            write_work(out, policy, *work)
        }
        Sign::Denial(error) => write_error(out, error),
        Sign::Group { packet, group } => write!(out, "{} group {group}", packet.0),
        Sign::Fault(error) | Sign::Failure(error) => write_error(out, error),
        Sign::Look { packet, seen } => {
            write!(out, "{} seen", packet.0)?;
            write_seen(out, *seen)
        }
        Sign::Completion(packet) => write!(out, "{} completed", packet.0),
        Sign::Write(client) => {
            out.push_str("write ")?;
            write_client(out, policy, *client)
        }
        Sign::Change(client) => {
            out.push_str("signal ")?;
            write_client(out, policy, *client)
        }
        Sign::Reload { allows, denies } => write!(out, "reload {allows} allow {denies} deny"),
        Sign::Nothing => Ok(()),
    }
}

/// Writes what is said of a packet's bar where there is no room for more.
pub(crate) fn write_brief(out: &mut String, sign: &Sign) -> Result<(), AllocError>
    ensures { OnOk result (string_bytes out.new ≡ string_bytes out.old ++ brief_of sign.now) }
{
    match sign {
        Sign::Bar { packet, .. } => write!(out, "{}", packet.0),
        _ => Ok(()),
    }
}

// What stands before a sign's words, where they begin with a packet's id.
fn lead_of(sign: &Sign) -> &'static str
    ensures { result.now ≡ lead_of sign.now }
{
    match sign {
        Sign::Denial(_) => "denied packet ",
        Sign::Fault(_) => "faulted packet ",
        Sign::Failure(_) => "failed packet ",
        Sign::Bar { .. } | Sign::Group { .. } | Sign::Look { .. } | Sign::Completion(_) => {
            "packet "
        }
        _ => "",
    }
}

// Whether a sign's words tell its queue.
fn has_queue(sign: &Sign) -> bool
    ensures { result ≡ has_queue sign.now }
{
    matches!(sign, Sign::Lane { .. })
}

// Writes the queue in whose lane an element stands, where its words don't tell it.
fn write_queue(out: &mut String, element: &Element) -> Result<(), AllocError>
    ensures { OnOk result (string_bytes out.new ≡ string_bytes out.old ++ words_of_queue element.now) }
{
    if has_queue(&element.sign) || element.spot.lane == 0 {
        Ok(())
    } else {
        write!(out, "queue {} ", element.spot.lane)
    }
}

// Writes a change, behind a semicolon.
fn write_effect(out: &mut String, policy: &Policy, effect: &Effect) -> Result<(), AllocError>
    ensures { OnOk result (string_bytes out.new ≡ string_bytes out.old ++ words_of_effect policy.now effect.now) }
{
    match effect {
        Effect::Write { address, bytes } => {
            write!(out, "; {} bytes of ", bytes.len())?;
            write_object(out, policy, Object::Region(region_of(*address)))
        }
        Effect::Signal { signal, old, new } => {
            out.push_str("; signal ")?;
            write_object(out, policy, Object::Signal(*signal))?;
            write!(out, " {old} to {new}")
        }
        Effect::Release { packet, .. } => write!(out, "; releases packet {}", packet.0),
    }
}

// Writes changes, each behind a semicolon.
fn write_effects(out: &mut String, policy: &Policy, effects: &[Effect]) -> Result<(), AllocError>
    ensures { OnOk result (string_bytes out.new ≡ string_bytes out.old ++ flat_map (words_of_effect policy.now) effects.now) }
{
    for effect in effects {
        write_effect(out, policy, effect)?;
    }
    Ok(())
}

/// Writes what is said under the pointer of an element whose entry made these changes.
pub(crate) fn write_told(
    out: &mut String,
    policy: &Policy,
    element: &Element,
    effects: &[Effect],
) -> Result<(), AllocError>
    ensures { OnOk result (string_bytes out.new ≡ string_bytes out.old ++ told_of policy.now element.now effects.now) }
{
    write_queue(out, element)?;
    out.push_str(lead_of(&element.sign))?;
    write_words(out, policy, &element.sign)?;
    write_effects(out, policy, effects)
}
