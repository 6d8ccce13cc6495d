//! The launch rules, tried in order on a packet.

ghost use Rattle.std.specs.Prelude.{◌≡◌, find, option_to_list};
ghost use Rattle.std.specs.List.{flat_map, list_all};
ghost use Rattle.core_model.specs.LaunchRules as rules;
ghost use Rattle.core_model.specs.Needs as model;
ghost use Rattle.core_model.specs.Needs.{object_of};
ghost use Rattle.regions.specs.Memory.{lengths_of};
ghost use Rattle.packet_processor.specs.Judged.{facts_seen, Judges};
ghost use Rattle.packet_processor.specs.inner.FieldRules.{later_failing, verdict_if};

use crate::dispatch_rules::{has_arguments, has_segments, has_sizes};
use crate::facts::{Facts, Verdict};
use crate::need_table::{
    agent_needs, completion_needs, function_of, kernel_needs, memory_needs, wait_needs,
};
use crate::packet_needs::PacketNeeds;
use aql_packet::{Packet, decode};
use core_model::{Need, Subject};
use policy::{Object, Right, Takes};
use queue_error::Rule;
use regions::{Regions, region_of};

/// Judges 64 bytes by the launch rules in order: they are launched as the packet that they lay out,
/// or denied by the first rule that fails.
pub fn verdict(bytes: &[u8; 64], facts: &Facts) -> Verdict
    ensures { Judges (facts_seen facts.now) bytes.now result }
{
    match decode(bytes) {
        Err(rule) => Verdict::Deny(Rule::from(rule)),
        Ok(packet) => judge(facts, PacketNeeds::of(facts.agent, packet)),
    }
}

// Judges a packet that is laid out.
fn judge(facts: &Facts, asked: PacketNeeds) -> Verdict
    requires agent { asked.agent ≡ facts.now.agent }
    ensures { result ≡ verdict_if asked (later_failing (facts_seen facts.now) asked.packet) }
{
    match first_failing(facts, &asked) {
        Some(rule) => Verdict::Deny(rule),
        None => Verdict::Launch(asked),
    }
}

// The first rule that fails of those that look at the packet's fields. Each is asked for by itself, and not in a loop, so
// that what only packets of another kind are asked for is not even reckoned.
fn first_failing(facts: &Facts, asked: &PacketNeeds) -> Option<Rule>
    requires { asked.now.agent ≡ facts.now.agent }
    ensures { result ≡ later_failing (facts_seen facts.now) asked.now.packet }
{
    if !meets_rule(facts, asked, Rule::L4) {
        return Some(Rule::L4);
    }
    if !meets_rule(facts, asked, Rule::L5) {
        return Some(Rule::L5);
    }
    if !meets_rule(facts, asked, Rule::L6) {
        return Some(Rule::L6);
    }
    if !meets_rule(facts, asked, Rule::L7) {
        return Some(Rule::L7);
    }
    if !meets_rule(facts, asked, Rule::L8) {
        return Some(Rule::L8);
    }
    if !meets_rule(facts, asked, Rule::L9) {
        return Some(Rule::L9);
    }
    if !meets_rule(facts, asked, Rule::L10) {
        return Some(Rule::L10);
    }
    None
}

// Whether a packet is as a rule asks, and the rights that it needs are in force.
#[inline(always)]
fn meets_rule(facts: &Facts, asked: &PacketNeeds, rule: Rule) -> bool
    requires { asked.now.agent ≡ facts.now.agent }
    ensures { result ≡ rules.meets_rule (facts_seen facts.now) asked.now.packet rule }
{
    has_form(facts, asked.packet(), rule) && has_rights(facts, asked, rule)
}

// Whether a packet is as a rule asks, beside the rights that it then holds.
#[inline(always)]
fn has_form(facts: &Facts, packet: &Packet, rule: Rule) -> bool
    ensures { result ≡ rules.has_form (facts_seen facts.now) packet.now rule }
{
    match rule {
        Rule::L4 => agent_takes_kind(facts.takes, packet),
        Rule::L5 => asks_for_known_work(packet),
        Rule::L7 => has_segments(facts, packet),
        Rule::L8 => has_arguments(facts, packet),
        _ => true,
    }
}

// Whether an agent takes a packet of this kind.
#[inline(always)]
fn agent_takes_kind(takes: Takes, packet: &Packet) -> bool
    ensures { result ≡ rules.agent_takes_kind takes packet.now }
{
    match packet {
        Packet::Kernel(_) => takes.kernel,
        Packet::Agent(_) => takes.agent,
        _ => true,
    }
}

// Whether what a dispatch asks for can be done.
#[inline(always)]
fn asks_for_known_work(packet: &Packet) -> bool
    ensures { result ≡ rules.asks_for_known_work packet.now }
{
    match packet {
        Packet::Kernel(dispatch) => has_sizes(dispatch),
        Packet::Agent(dispatch) => function_of(dispatch).is_some(),
        _ => true,
    }
}

// Whether the rights that a rule asks for are in force. What most packets don't need is not even looked for.
#[inline(always)]
fn has_rights(facts: &Facts, asked: &PacketNeeds, rule: Rule) -> bool
    ensures { result ≡ list_all (rules.need_is_met (facts_seen facts.now)) (model.needs rule asked.now.agent asked.now.packet) }
{
    let packet = asked.packet();
    match rule {
        Rule::L4 => are_met(facts, &agent_needs(asked.agent())),
        Rule::L6 => are_met(facts, &kernel_needs(packet)),
        Rule::L8 => has_memory_rights(facts, packet),
        Rule::L9 => has_wait_rights(facts, packet),
        Rule::L10 => are_met(facts, &completion_needs(packet)),
        _ => true,
    }
}

// Whether the rights on ranges of memory are in force.
#[inline(always)]
fn has_memory_rights(facts: &Facts, packet: &Packet) -> bool
    ensures { result ≡ list_all (rules.need_is_met (facts_seen facts.now)) (model.memory_needs packet.now) }
{
    match packet {
        Packet::Agent(_) => are_met(facts, &memory_needs(packet)),
        _ => true,
    }
}

// Whether the rights to wait on dependencies are in force.
#[inline(always)]
fn has_wait_rights(facts: &Facts, packet: &Packet) -> bool
    ensures { result ≡ list_all (rules.need_is_met (facts_seen facts.now)) (flat_map (model.signal_need Right.Wait) (model.dependencies packet.now)) }
{
    match packet {
        Packet::BarrierAnd(_) | Packet::BarrierOr(_) => are_met(facts, &wait_needs(packet)),
        _ => true,
    }
}

// Whether all rights that are needed are in force.
fn are_met(facts: &Facts, needs: &[Option<Need>]) -> bool
    ensures { result ≡ list_all (rules.need_is_met (facts_seen facts.now)) (flat_map option_to_list needs.now) }
{
    needs.iter().all(|need| is_met_or_none(facts, need))
}

// Whether a right is in force, if one is needed.
pub(crate) fn is_met_or_none(facts: &Facts, need: &Option<Need>) -> bool
    ensures { result ≡ list_all (rules.need_is_met (facts_seen facts.now)) (option_to_list need.now) }
{
    match need {
        Some(need) => is_met(facts, need),
        None => true,
    }
}

// Whether a right that is needed is in force, and where it is on a range, the range lies whole in one
// region.
fn is_met(facts: &Facts, need: &Need) -> bool
    ensures { result ≡ rules.need_is_met (facts_seen facts.now) need.now }
{
    lies_whole(facts.regions, &need.subject)
        && facts
            .grants
            .is_in_force(facts.client, object_of(&need.subject), need.right)
}

// Whether a range lies whole in one region.
fn lies_whole(regions: &Regions, subject: &Subject) -> bool
    ensures { result ≡ rules.lies_whole (lengths_of regions.now) subject.now }
{
    match subject {
        Subject::Object(_) => true,
        Subject::Range(range) => regions.contains(range.address, range.size),
    }
}

// The object that a right is needed on.
pub(crate) fn object_of(subject: &Subject) -> Object
    ensures { result ≡ object_of subject.now }
{
    match subject {
        Subject::Object(object) => *object,
        Subject::Range(range) => Object::Region(region_of(range.address)),
    }
}
