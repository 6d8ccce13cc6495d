//! What a packet in flight holds: the rights that can't be taken back until it is released.

ghost use Rattle.std.specs.Prelude.{◌≡◌, ◌≤◌, ◌+◌, ◌++◌, ◌∷◌, [], All, IfOk, OnOk, drop, length, map, option_to_list, take};
ghost use Rattle.std.specs.Int.{from_le_bytes, w64};
ghost use Rattle.std.specs.List.{flat_map};
ghost use Rattle.aql_packet.specs.declared.ids.ClientId.{ClientId};
ghost use Rattle.core_model.specs.Holds.{all_in_force, right_needed, held_by_needs, held_by_pointer};
ghost use Rattle.core_model.specs.Kernels.{wide_arguments};
ghost use Rattle.packet_processor.specs.Judged.{facts_seen};
ghost use Rattle.packet_processor.specs.Holding.{as_rights};
ghost use Rattle.packet_processor.specs.inner.RightsPassing.{rights_passing};

use crate::facts::Facts;
use crate::judging::object_of;
use crate::need_table::{agent_needs, completion_needs, kernel_needs, memory_needs, wait_needs};
use crate::packet_needs::PacketNeeds;
use aql_packet::Address;
use byteorder::{ByteOrder, LittleEndian};
use core_model::Need;
use policy::{Object, Right, Rights};
use sequences::Sequence;
use std::alloc::{AllocError, Global};

/// An object, and rights on it.
type Held = (Object, Rights);

/// What a packet holds from its launch on an agent on by what it needs, rule by rule.
pub fn held_by_needs(alloc: Global, asked: &PacketNeeds) -> Result<Sequence<Held>, AllocError>
    ensures { (client : ClientId) → IfOk result (λ held. held
        ≡ map as_rights (held_by_needs (record { client = client; agent = asked.now.agent }) asked.now.packet)) }
{
    let mut held = Sequence::new(alloc);
    hold_needs(&mut held, asked)?;
    Ok(held)
}

/// Puts what a packet holds by what it needs behind what stands in a list, rule by rule.
pub fn hold_needs(held: &mut Sequence<Held>, asked: &PacketNeeds) -> Result<(), AllocError>
    ensures { (client : ClientId) → OnOk result (held.new
        ≡ held.old ++ map as_rights (held_by_needs (record { client = client; agent = asked.now.agent }) asked.now.packet)) }
{
    let packet = asked.packet();
    hold_all(held, &agent_needs(asked.agent()))?;
    hold_all(held, &kernel_needs(packet))?;
    hold_all(held, &memory_needs(packet))?;
    hold_all(held, &wait_needs(packet))?;
    hold_all(held, &completion_needs(packet))?;
    Ok(())
}

/// What a kernel dispatch holds by its arguments: all rights in force on each region in which one of the
/// arguments of 64 bits points that lie at these offsets of its argument block (own).
pub fn held_by_arguments(
    alloc: Global,
    facts: &Facts,
    offsets: &[u32],
    block: &[u8],
) -> Result<Sequence<Held>, AllocError>
    requires { All (λ offset. offset + 8 ≤ length block.now) offsets.now }
    ensures { IfOk result (λ held. held
        ≡ map as_rights (flat_map (held_by_pointer (facts_seen facts.now).in_force (facts_seen facts.now).lengths) (wide_arguments offsets.now block.now))) }
{
    let mut held = Sequence::new(alloc);
    'offsets: for offset in offsets {
        hold_pointed(&mut held, facts, wide_argument(block, *offset))?;
    }
    Ok(held)
}

// The argument of 64 bits at an offset of an argument block.
fn wide_argument(block: &[u8], offset: u32) -> u64
    requires { offset + 8 ≤ length block.now }
    ensures { result ≡ from_le_bytes w64 (take 8 (drop offset block.now)) }
{
    let (_, rest) = block.split_at(offset as usize);
    LittleEndian::read_u64(rest)
}

// Puts behind what is held all rights in force on the region in which an argument points.
fn hold_pointed(held: &mut Sequence<Held>, facts: &Facts, address: u64) -> Result<(), AllocError>
    ensures { OnOk result (held.new
        ≡ held.old ++ map as_rights (held_by_pointer (facts_seen facts.now).in_force (facts_seen facts.now).lengths address)) }
{
    match facts.regions.find(Address(address)) {
        None => Ok(()),
        Some(region) => hold_all_in_force(held, facts, Object::Region(region)),
    }
}

// Puts behind what is held all rights in force on an object, each by itself.
fn hold_all_in_force(
    held: &mut Sequence<Held>,
    facts: &Facts,
    object: Object,
) -> Result<(), AllocError>
    ensures { OnOk result (held.new ≡ held.old ++ map as_rights (all_in_force (facts_seen facts.now).in_force object)) }
{
    'rights: for right in &Right::ALL {
        hold_if_in_force(held, facts, object, *right)?;
    }
    Ok(())
}

// Puts a right on an object behind what is held, if it is in force.
fn hold_if_in_force(
    held: &mut Sequence<Held>,
    facts: &Facts,
    object: Object,
    right: Right,
) -> Result<(), AllocError>
    ensures { OnOk result (held.new ≡ held.old ++ rights_passing ((facts_seen facts.now).in_force object) object (right ∷ [])) }
{
    if facts.grants.is_in_force(facts.client, object, right) {
        held.push((object, Rights::of(right)))?;
    }
    Ok(())
}

// Puts what is needed behind what is held.
fn hold_all(held: &mut Sequence<Held>, needs: &[Option<Need>]) -> Result<(), AllocError>
    ensures { OnOk result (held.new
        ≡ held.old ++ map (λ need. as_rights (right_needed need)) (flat_map option_to_list needs.now)) }
{
    for need in needs {
        hold_one(held, *need)?;
    }
    Ok(())
}

// Puts what is needed behind what is held, if it is anything.
fn hold_one(held: &mut Sequence<Held>, need: Option<Need>) -> Result<(), AllocError>
    ensures { OnOk result (held.new
        ≡ held.old ++ map (λ need. as_rights (right_needed need)) (option_to_list need)) }
{
    if let Some(need) = need {
        held.push((object_of(&need.subject), Rights::of(need.right)))?;
    }
    Ok(())
}
