//! Why a packet was denied, by the rule that is told and the packet's own bytes.

use crate::failed::handed_over;
use crate::keys::rights_of;
use crate::lacks::object_of;
use crate::packets::{tell_header, tell_reserved, tell_sizes, tell_type};
use crate::scene::{Mended, Scene, begin, lacks_on, say, tell_anew, tell_lacks};
use crate::texts::{lies_whole, put_object, put_range};
use aql_packet::{KernelDispatch, Packet, REGION_SPAN, decode};
use core_model::{Need, Opening, Range, Subject};
use executor::MOST_SEGMENT_BYTES;
use kernel_check::Program;
use packet_processor::{PacketNeeds, function_of};
use policy::{Object, Right};
use queue_error::{QueueError, Rule};
use script::{Occasion, rule_rows};
use std::alloc::AllocError;

// For what a rule wants a right.
fn wanted(rule: Rule) -> &'static str {
    match rule {
        Rule::L4 => ", the queue's agent",
        Rule::L6 => ", which the packet dispatches",
        Rule::L8 => ", in which the packet works",
        Rule::L9 => ", on which the packet depends",
        Rule::L10 => ", the packet's completion signal",
        _ => "",
    }
}

// A range that doesn't lie whole in a region.
fn tell_range(out: &mut String, scene: &Scene<'_>, range: Range) -> Result<(), AllocError> {
    let region = Object::Region(regions::region_of(range.address));
    begin(out, scene)?;
    out.push_str("the ")?;
    put_range(out, range)?;
    if scene.policy.object_name(region).is_none() {
        return out.push_str(" lie in no region of the policy\n");
    }
    let offset = range.address.0 % REGION_SPAN;
    out.push_str(if begins_in(scene, region, offset) {
        " don't end in "
    } else {
        " begin behind "
    })?;
    put_object(out, scene.policy, region)?;
    out.push_str("\n")
}

// Whether an offset lies in a region.
fn begins_in(scene: &Scene<'_>, region: Object, offset: u64) -> bool {
    let Object::Region(region) = region else {
        return false;
    };
    match scene.policy.region_length(region) {
        Some(length) => offset < length as u64,
        None => false,
    }
}

// Whether a need is of a range that doesn't lie whole in a region.
fn is_adrift(scene: &Scene<'_>, need: &Need) -> bool {
    match need.subject {
        Subject::Range(range) => !lies_whole(scene.policy, range),
        _ => false,
    }
}

// Whether one of some needs is of a right on an object: of any, where none is named.
fn is_needed(
    scene: &Scene<'_>,
    needs: &[Option<Need>],
    object: Object,
    right: Option<Right>,
) -> bool {
    for need in needs {
        if let Some(need) = need {
            let is_same = match right {
                Some(right) => need.right == right,
                None => true,
            };
            if is_same && !is_adrift(scene, need) && object_of(&need.subject) == object {
                return true;
            }
        }
    }
    false
}

// What is missing of what a packet needs for a rule on an object: all rights on it at once.
fn tell_object(
    out: &mut String,
    scene: &Scene<'_>,
    opening: &Opening,
    rule: Rule,
    needs: &[Option<Need>],
    object: Object,
) -> Result<(), AllocError> {
    let rights = rights_of(object.kind());
    let asked = [
        is_needed(scene, needs, object, rights.first().copied()),
        is_needed(scene, needs, object, rights.get(1).copied()),
    ];
    let lacks = lacks_on(scene, opening, object, asked);
    tell_lacks(out, scene, &lacks, wanted(rule), Mended::Packet)
}

// What is missing of one of the needs of a packet for a rule, by its place among them: an object of an earlier one was told.
fn tell_need(
    out: &mut String,
    scene: &Scene<'_>,
    opening: &Opening,
    rule: Rule,
    needs: &[Option<Need>],
    place: usize,
) -> Result<(), AllocError> {
    let (before, behind) = needs.split_at(place.min(needs.len()));
    let Some(Some(need)) = behind.first() else {
        return Ok(());
    };
    if let Subject::Range(range) = need.subject {
        if is_adrift(scene, need) {
            return tell_range(out, scene, range);
        }
    }
    let object = object_of(&need.subject);
    if is_needed(scene, before, object, None) {
        return Ok(());
    }
    tell_object(out, scene, opening, rule, needs, object)
}

// Whether the agent takes packets of this kind.
fn tell_kind(
    out: &mut String,
    scene: &Scene<'_>,
    opening: &Opening,
    packet: &Packet,
) -> Result<(), AllocError> {
    let Some(takes) = scene.policy.takes(opening.agent) else {
        return Ok(());
    };
    let (taken, kind) = match packet {
        Packet::Kernel(_) => (takes.kernel, "kernel"),
        Packet::Agent(_) => (takes.agent, "agent"),
        _ => return Ok(()),
    };
    if taken {
        return Ok(());
    }
    begin(out, scene)?;
    put_object(out, scene.policy, Object::Agent(opening.agent))?;
    writeln!(
        out,
        " takes no {kind} dispatches: `takes` in the agent's row of the policy has no \"{kind}\""
    )
}

// What is wrong with the segments that a dispatch asks for.
fn tell_segments(
    out: &mut String,
    scene: &Scene<'_>,
    dispatch: &KernelDispatch,
    program: Option<&Program>,
) -> Result<(), AllocError> {
    let group = dispatch.group_segment_size;
    let private = dispatch.private_segment_size;
    let most = MOST_SEGMENT_BYTES;
    if let Some(program) = program {
        let least = program.group_bytes();
        if group < least {
            begin(out, scene)?;
            writeln!(
                out,
                "group_segment_size is {group}, and the kernel's group variables take {least} bytes"
            )?;
        }
    }
    if group > most {
        begin(out, scene)?;
        writeln!(
            out,
            "group_segment_size is {group}, and may be {most} at the most"
        )?;
    }
    if private > most {
        begin(out, scene)?;
        writeln!(
            out,
            "private_segment_size is {private}, and may be {most} at the most"
        )?;
    }
    Ok(())
}

// What is missing of a dispatch's argument block.
fn tell_block(
    out: &mut String,
    scene: &Scene<'_>,
    opening: &Opening,
    dispatch: &KernelDispatch,
    program: &Program,
) -> Result<(), AllocError> {
    let size = program.kernarg_bytes() as u64;
    let range = Range {
        address: dispatch.kernarg_address,
        size,
    };
    if size == 0 {
        return Ok(());
    }
    if !lies_whole(scene.policy, range) {
        say(out, scene, "of the kernel's argument block:")?;
        return tell_range(out, scene, range);
    }
    let region = Object::Region(regions::region_of(range.address));
    let lack = scene.known.lack_of(opening.client, region, Right::Read);
    let wanted = ", in which the argument block lies";
    tell_lacks(out, scene, &[lack], wanted, Mended::Packet)
}

// What is wrong with a packet for a rule beside the rights that the rule's table names.
fn tell_form(
    out: &mut String,
    scene: &Scene<'_>,
    opening: &Opening,
    rule: Rule,
    packet: &Packet,
) -> Result<(), AllocError> {
    match (rule, packet) {
        (Rule::L4, _) => tell_kind(out, scene, opening, packet),
        (Rule::L5, Packet::Kernel(dispatch)) => tell_sizes(out, scene, dispatch),
        (Rule::L5, Packet::Agent(dispatch)) => {
            if function_of(dispatch).is_some() {
                return Ok(());
            }
            let function = dispatch.function;
            begin(out, scene)?;
            writeln!(
                out,
                "agents have no function {function}: 32768 is FILL, 32769 COPY and 32770 ADD64"
            )
        }
        (Rule::L7, Packet::Kernel(dispatch)) => {
            tell_segments(
                out,
                scene,
                dispatch,
                scene.core.program(dispatch.kernel_object),
            )
        }
        (Rule::L8, Packet::Kernel(dispatch)) => {
            match scene.core.program(dispatch.kernel_object) {
                Some(program) => tell_block(out, scene, opening, dispatch, program),
                None => Ok(()),
            }
        }
        _ => Ok(()),
    }
}

// What is missing of a packet for a rule: its form, and the rights that it needs.
fn tell_rule(
    out: &mut String,
    scene: &Scene<'_>,
    opening: &Opening,
    rule: Rule,
    packet: &Packet,
) -> Result<(), AllocError> {
    tell_form(out, scene, opening, rule, packet)?;
    let needs = PacketNeeds::of(opening.agent, *packet).of_rule(rule);
    for place in 0..needs.len() {
        tell_need(out, scene, opening, rule, &needs, place)?;
    }
    Ok(())
}

// What is missing of a packet for a rule and those behind it.
fn tell_rules(
    out: &mut String,
    scene: &Scene<'_>,
    error: &QueueError,
    packet: &Packet,
) -> Result<(), AllocError> {
    let Some(opening) = scene.known.opening(error.queue) else {
        return Ok(());
    };
    let mut is_tried = false;
    for row in rule_rows() {
        is_tried |= row.rule == error.rule;
        if is_tried && row.occasion == Occasion::Launch {
            tell_rule(out, scene, &opening, row.rule, packet)?;
        }
    }
    Ok(())
}

// What is wrong with 64 bytes by a rule.
fn tell_bytes(
    out: &mut String,
    scene: &Scene<'_>,
    error: &QueueError,
    bytes: &[u8; 64],
) -> Result<(), AllocError> {
    match error.rule {
        Rule::L1 => tell_type(out, scene, bytes),
        Rule::L2 => tell_header(out, scene, bytes),
        Rule::L3 => tell_reserved(out, scene, bytes),
        _ => match decode(bytes) {
            Ok(packet) => tell_rules(out, scene, error, &packet),
            Err(_) => Ok(()),
        },
    }
}

/// Why a packet was denied.
pub fn tell_denied(
    out: &mut String,
    scene: &Scene<'_>,
    error: &QueueError,
) -> Result<(), AllocError> {
    let queue = error.queue.0;
    let packet = error.packet.0;
    let rule = error.rule;
    begin(out, scene)?;
    writeln!(
        out,
        "packet {packet} of queue {queue} breaks {rule}, and the queue launches nothing more"
    )?;
    if let Some(found) = handed_over(scene.known.entries(), error.queue, error.packet) {
        tell_bytes(out, scene, error, &found.bytes)?;
    }
    match scene.known.opening(error.queue) {
        Some(opening) => tell_anew(out, scene, error, &opening),
        None => Ok(()),
    }
}
