//! A lane advances its pending packets.

ghost use Rattle.std.specs.Prelude.{◌≡◌, ◌<◌, ◌++◌, ◌∷◌, [], length, if◌then◌else◌};
ghost use Rattle.aql_packet.specs.Reading.{decoded, packet_type};
ghost use Rattle.core_model.specs.Legal.{MeetsOrLacks};
ghost use Rattle.core_model.specs.declared.event.Event.{Event};
ghost use Rattle.client_threads.specs.Advancing.{AdvancesTo, IsLastCall, has_barrier_type, has_work_after, is_some_barrier, leaves, next_call, told};
ghost use Rattle.client_threads.specs.inner.Turns.{RunsTo};

use crate::lane::Lane;
use crate::pending::PendingPacket;
use access_core::AccessCore;
use aql_packet::{
    Packet, PacketId, QueueId, decode, header_of, law_header_in_first_word, words_of,
};
use core_model::{Outcome, Polled, Refusal, Worked};
use queue_error::QueueError;
use std::alloc::Global;

/// What became of a lane's first pending packet.
#[derive(Clone, Copy, Debug, PartialEq, Eq)]
pub enum Advanced {
    /// None is pending.
    Idle,
    /// A group of it ran.
    Ran(PacketId),
    /// It was polled.
    Polled(PacketId, Polled),
    /// It is finished.
    Finished(PacketId),
    /// A group of it faulted.
    Faulted(QueueError),
    /// The call was refused.
    Refused(PacketId, Refusal),
}

/// Advances the first pending packet of a lane: it is finished, and only where its work isn't done, a barrier packet is
/// polled and another's next group is run. A packet that stays pending then goes last. One that isn't in flight, or whose
/// queue was closed, is pending no more.
pub fn advance_one(alloc: Global, lane: &mut Lane, core: &mut AccessCore) -> Advanced
    ensures { AdvancesTo lane.old core.old.history result lane.new core.new.history }
{
    if lane.pending.is_empty() {
        return Advanced::Idle;
    }
    let packet = lane.pending.remove(0);
    let reply = call(alloc, core, lane.queue, packet);
    if !leaves(&reply) {
        lane.pending.push_reserved(left_by(packet, &reply));
    }
    told(packet.id, reply)
}

// The type of a packet.
fn type_of(bytes: &[u8; 64]) -> u8
    ensures { result ≡ packet_type bytes.now }
{
    law_header_in_first_word();
    header_of(words_of(bytes)[0]).kind
}

// Whether the type of a packet is that of a barrier packet.
fn has_barrier_type(bytes: &[u8; 64]) -> bool
    ensures { result ≡ has_barrier_type bytes.now }
{
    let kind = type_of(bytes);
    kind == 3 || kind == 5
}

// Whether bytes are a barrier packet's. Those of another type aren't decoded for it.
#[tactic(auto, using(crate::proofs::OtherTypes::other_type))]
pub(crate) fn lays_out_barrier(bytes: &[u8; 64]) -> bool
    ensures { result ≡ is_some_barrier (decoded bytes.now) }
{
    if !has_barrier_type(bytes) {
        return false;
    }
    decodes_to_barrier(bytes)
}

// Whether bytes are decoded to a barrier packet.
#[inline(never)]
fn decodes_to_barrier(bytes: &[u8; 64]) -> bool
    ensures { result ≡ is_some_barrier (decoded bytes.now) }
{
    match decode(bytes) {
        Err(_) => false,
        Ok(Packet::BarrierAnd(_)) => true,
        Ok(Packet::BarrierOr(_)) => true,
        Ok(Packet::Kernel(_)) => false,
        Ok(Packet::Agent(_)) => false,
    }
}

// Runs the next group of a packet that has one, as far as its lane knows. Another is finished or, where its work isn't done,
// polled, or its next group is run.
fn call(
    alloc: Global,
    core: &mut AccessCore,
    queue: QueueId,
    packet: PendingPacket,
) -> Result<Outcome, Refusal>
    ensures { (event : Event) × IsLastCall core.old.history queue packet.id packet.is_barrier event result × MeetsOrLacks event core.old.history core.new.history result }
{
    if !packet.is_barrier && packet.has_work {
        if let Some(worked) = run(alloc, core, queue, packet.id) {
            return Ok(Outcome::Worked(worked));
        }
    }
    finish_or_next(alloc, core, queue, packet)
}

// Runs the next group of a packet. Answers what became of it, if it ran or faulted: the packet's work wasn't done then.
fn run(alloc: Global, core: &mut AccessCore, queue: QueueId, id: PacketId) -> Option<Worked>
    ensures { RunsTo queue id core.old.history result core.new.history }
{
    match core.run_next(alloc, queue, id) {
        Ok(Worked::Ran { group, left }) => Some(Worked::Ran { group, left }),
        Ok(Worked::Faulted(error)) => Some(Worked::Faulted(error)),
        Ok(Worked::Done) => None,
        Err(_) => None,
    }
}

// Finishes a packet or, where its work isn't done, polls it or runs its next group.
fn finish_or_next(
    alloc: Global,
    core: &mut AccessCore,
    queue: QueueId,
    packet: PendingPacket,
) -> Result<Outcome, Refusal>
    ensures { (event : Event) × IsLastCall core.old.history queue packet.id packet.is_barrier event result × MeetsOrLacks event core.old.history core.new.history result }
{
    match core.finish(queue, packet.id) {
        Ok(()) => Ok(Outcome::Accepted),
        Err(Refusal::NotFinished) => call_next(alloc, core, queue, packet),
        Err(why) => Err(why),
    }
}

// Polls a barrier packet, or runs the next group of another.
fn call_next(
    alloc: Global,
    core: &mut AccessCore,
    queue: QueueId,
    packet: PendingPacket,
) -> Result<Outcome, Refusal>
    ensures { MeetsOrLacks (next_call queue packet.id packet.is_barrier) core.old.history core.new.history result }
{
    if packet.is_barrier {
        match core.poll(queue, packet.id) {
            Ok(found) => Ok(Outcome::Polled(found)),
            Err(why) => Err(why),
        }
    } else {
        match core.run_next(alloc, queue, packet.id) {
            Ok(worked) => Ok(Outcome::Worked(worked)),
            Err(why) => Err(why),
        }
    }
}

// Whether a packet is pending no more.
fn leaves(reply: &Result<Outcome, Refusal>) -> bool
    ensures { result ≡ leaves reply.now }
{
    match reply {
        Ok(Outcome::Worked(Worked::Faulted(_))) => true,
        Ok(Outcome::Worked(_)) => false,
        Ok(Outcome::Polled(Polled::Failed(_))) => true,
        Ok(Outcome::Polled(_)) => false,
        Ok(_) => true,
        Err(Refusal::NotInFlight) => true,
        Err(Refusal::UnknownQueue) => true,
        Err(_) => false,
    }
}

// A packet that stays pending after this reply.
fn left_by(packet: PendingPacket, reply: &Result<Outcome, Refusal>) -> PendingPacket
    ensures same { (result.id ≡ packet.id) × (result.is_barrier ≡ packet.is_barrier) }
    ensures work { result.has_work ≡ has_work_after packet.has_work reply.now }
{
    let has_work = match reply {
        Ok(Outcome::Worked(Worked::Ran { left, .. })) => *left != 0,
        _ => packet.has_work,
    };
    PendingPacket { has_work, ..packet }
}

// What is told of the reply.
fn told(id: PacketId, reply: Result<Outcome, Refusal>) -> Advanced
    ensures { result ≡ told id reply }
{
    match reply {
        Ok(Outcome::Worked(Worked::Faulted(error))) => Advanced::Faulted(error),
        Ok(Outcome::Worked(_)) => Advanced::Ran(id),
        Ok(Outcome::Polled(found)) => Advanced::Polled(id, found),
        Ok(_) => Advanced::Finished(id),
        Err(why) => Advanced::Refused(id, why),
    }
}
