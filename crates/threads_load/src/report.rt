//! What is told of a load.

ghost use Rattle.std.specs.Prelude.{◌≡◌, ◌++◌, IfOk, List, OnOk, string_bytes, length};
ghost use Rattle.core_model.specs.History.{beginning};
ghost use Rattle.core_model.specs.declared.entry.Entry.{Entry};
ghost use Rattle.std.specs.Option.{option_copied};
ghost use Rattle.threads_load.specs.Counts.{AreCounts};
ghost use Rattle.threads_load.specs.Reports.{counted_bytes, text_of_counts, text_of_ending, text_of_lines, text_of_names, text_of_region, text_of_regions, text_of_report, text_of_used, user_of};

use crate::counting::{PacketCounts, counts_at};
use crate::plan::{COUNTED_BYTES, PlannedQueue};
use access_core::AccessCore;
use aql_packet::{Address, ClientId, PacketId, QueueId, REGION_SPAN, RegionHandle};
use core_model::Refusal;
use policy::{Kind, Object, Policy};
use sequences::Sequence;
use std::alloc::{AllocError, Global};
use words::{client_name, object_name, write_bytes};

/// How a load ended.
#[derive(Clone, Copy, Debug, PartialEq, Eq)]
pub enum Ending {
    /// Of each queue the core took what its lane served, and all packets that its producers publish are finished.
    Settled,
    /// Of each queue the core took what its lane served, and of some not all of these are finished: its lane met its
    /// turns.
    Unsettled,
    /// They differ: this is the least queue and the least id at which.
    Mismatch { queue: QueueId, packet: PacketId },
}

// Writes whose a queue is.
fn write_names(
    policy: &Policy,
    queue: QueueId,
    planned: PlannedQueue,
    out: &mut String,
) -> Result<(), AllocError>
    ensures { OnOk result (string_bytes out.new ≡ string_bytes out.old ++ text_of_names policy.now queue.0 planned) }
{
    let number = queue.0;
    let client = client_name(policy, planned.client);
    let agent = object_name(policy, Object::Agent(planned.agent));
    write!(out, "queue {number} client {client} agent {agent}")
}

// Writes what was counted of a queue's packets.
fn write_counts(counts: PacketCounts, out: &mut String) -> Result<(), AllocError>
    ensures { OnOk result (string_bytes out.new ≡ string_bytes out.old ++ text_of_counts counts) }
{
    let launched = counts.launched;
    let finished = counts.finished;
    let denied = counts.denied;
    writeln!(
        out,
        " launched {launched} finished {finished} denied {denied}"
    )
}

// Writes a queue's line.
fn write_queue(
    policy: &Policy,
    counts: PacketCounts,
    queue: QueueId,
    planned: PlannedQueue,
    out: &mut String,
) -> Result<(), AllocError>
    ensures { OnOk result (string_bytes out.new ≡ string_bytes out.old ++ (text_of_names policy.now queue.0 planned ++ text_of_counts counts)) }
{
    write_names(policy, queue, planned, out)?;
    write_counts(counts, out)
}

// Writes the lines of all queues, which are numbered from 1 in the order of the plan.
fn write_queues(
    policy: &Policy,
    counts: &[PacketCounts],
    plan: &[PlannedQueue],
    out: &mut String,
) -> Result<(), AllocError>
    ensures { OnOk result (string_bytes out.new ≡ string_bytes out.old ++ text_of_lines policy.now counts.now 0 plan.now) }
{
    let mut place = 0;
    for planned in plan {
        let counted = counts_at(counts, place);
        write_queue(policy, counted, QueueId(place as u64 + 1), *planned, out)?;
        place += 1;
    }
    Ok(())
}

// The bytes of a region that the load counts in, as one of its clients reads them.
#[tactic(auto, unfolding(core_model::specs::Queries::query_answer))]
fn counted_bytes(
    alloc: Global,
    core: &AccessCore,
    client: ClientId,
    region: RegionHandle,
) -> Result<Sequence<u8>, Refusal>
    ensures { IfOk result (λ bytes. bytes ≡ counted_bytes (beginning core.now.history) core.now.history.entries region.0) }
{
    let start = Address(region.0 as u64 * REGION_SPAN);
    core.host_read(alloc, client, start, COUNTED_BYTES as u64)
}

// Writes a region's line, with these bytes of it.
fn write_region(
    policy: &Policy,
    region: RegionHandle,
    bytes: &[u8],
    out: &mut String,
) -> Result<(), AllocError>
    ensures { OnOk result (string_bytes out.new ≡ string_bytes out.old ++ text_of_region policy.now region.0 bytes.now) }
{
    let number = region.0;
    let name = object_name(policy, Object::Region(region));
    write!(out, "region {number} {name} ")?;
    write_bytes(out, bytes)?;
    out.push_str("\n")
}

// The first planned queue whose packets count in a region, if there is one.
fn user_of(plan: &[PlannedQueue], region: RegionHandle) -> Option<&PlannedQueue>
    ensures { option_copied result ≡ user_of region.0 plan.now }
{
    plan.iter().find(|planned| planned.region.0 == region.0)
}

// Writes the line of a region, if the load counts in it.
fn write_used(
    alloc: Global,
    core: &AccessCore,
    plan: &[PlannedQueue],
    region: RegionHandle,
    out: &mut String,
) -> Result<(), Refusal>
    ensures { OnOk result (string_bytes out.new ≡ string_bytes out.old ++ text_of_used (beginning core.now.history) core.now.history.entries plan.now region.0) }
{
    match user_of(plan, region) {
        None => Ok(()),
        Some(planned) => {
            let bytes = counted_bytes(alloc, core, planned.client, region)?;
            write_region(core.policy(), region, bytes.as_slice(), out)?;
            Ok(())
        }
    }
}

// Writes the lines of all regions that the load counts in, in order.
fn write_regions(
    alloc: Global,
    core: &AccessCore,
    plan: &[PlannedQueue],
    out: &mut String,
) -> Result<(), Refusal>
    ensures { OnOk result (string_bytes out.new ≡ string_bytes out.old ++ text_of_regions (beginning core.now.history) core.now.history.entries plan.now) }
{
    for before in 0..core.policy().object_count(Kind::Region) {
        write_used(alloc, core, plan, RegionHandle(before as u32 + 1), out)?;
    }
    Ok(())
}

// Writes how the load ended.
fn write_ending(ending: Ending, out: &mut String) -> Result<(), AllocError>
    ensures { OnOk result (string_bytes out.new ≡ string_bytes out.old ++ text_of_ending ending) }
{
    match ending {
        Ending::Settled => out.push_str("settled\n"),
        Ending::Unsettled => out.push_str("unsettled\n"),
        Ending::Mismatch { queue, packet } => {
            let number = queue.0;
            let id = packet.0;
            writeln!(out, "mismatch {number} {id}")
        }
    }
}

// Writes all lines.
fn write_lines(
    alloc: Global,
    counts: &[PacketCounts],
    core: &AccessCore,
    plan: &[PlannedQueue],
    ending: Ending,
    out: &mut String,
) -> Result<(), Refusal>
    ensures { OnOk result (string_bytes out.new ≡ string_bytes out.old ++ (text_of_lines (beginning core.now.history).policy counts.now 0 plan.now ++ text_of_regions (beginning core.now.history) core.now.history.entries plan.now ++ text_of_ending ending)) }
{
    write_queues(core.policy(), counts, plan, out)?;
    write_regions(alloc, core, plan, out)?;
    write_ending(ending, out)?;
    Ok(())
}

/// The report of a load, from what was counted in all entries of its history and the core that it left: a line for each
/// queue of the plan, with how many of its packets were launched, finished and denied; a line for each region that is
/// counted in, with its first eight bytes; and how the load ended.
pub fn report_load(
    alloc: Global,
    counts: &[PacketCounts],
    core: &AccessCore,
    plan: &[PlannedQueue],
    ending: Ending,
) -> Result<String, Refusal>
    ensures { (handed_out : List Entry) → AreCounts (handed_out ++ core.now.history.entries) (length plan.now) counts.now
        → IfOk result (λ text. string_bytes text ≡ text_of_report (beginning core.now.history) handed_out core.now.history.entries plan.now ending) }
{
    let mut text = String::new(alloc);
    write_lines(alloc, counts, core, plan, ending, &mut text)?;
    Ok(text)
}
