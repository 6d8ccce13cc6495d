//! The groups of dispatches in flight are run: those of agent dispatches here.

ghost use Rattle.core_model.specs.History.{beginning};
ghost use Rattle.std.specs.Prelude.{Some, ◌≡◌, ◌++◌, ◌+◌, ◌-◌, ◌<◌, ◌^◌, Err, IfOk, List, OnErr, length, option_to_list, true, vec_capacity};
ghost use Rattle.std.specs.Int.{w64, to_le_bytes};
ghost use Rattle.aql_packet.specs.declared.packet.Packet.TheVariants as kind;
ghost use Rattle.regions.specs.Memory.{is_within, lengths_of};
ghost use Rattle.policy.specs.Policy.{region_lengths};
ghost use Rattle.core_model.specs.Memory.{memory_from};
ghost use Rattle.core_model.specs.Needs.{function_of};
ghost use Rattle.core_model.specs.Work.{function_result, function_writes, number_in_memory, result_writes, write_of};
ghost use Rattle.queue_error.specs.declared.error.QueueError.{QueueError};
ghost use Rattle.core_model.specs.Owed.{enters, owed};
ghost use Rattle.policy.specs.Results.{map_ok};
ghost use Rattle.core_model.specs.Legal.{MeetsOrLacks};
ghost use Rattle.access_core.specs.inner.Numbers.{IsThere};
ghost use Rattle.access_core.specs.inner.QueueChanges.{IsFoundOf, with_advance, with_queue};
ghost use Rattle.access_core.specs.inner.LiesInRegions.{lies_in_regions};
ghost use Rattle.access_core.specs.inner.InPlace.{IsChanged, IsFoundAt, IsInPlace, IsPlaced, is_placed};

use crate::access::completing::FoundPlace;
use crate::access::lookups::open_index;
use crate::access::{AccessCore, enter};
use crate::lists::copied;
use crate::queue::Queue;
use aql_packet::{Address, AgentDispatch, Packet, PacketId, QueueId};
use core_model::{
    AgentFunction, Bytes, Call, Effect, Effects, Event, Outcome, Progress, Range, Refusal, Worked,
};
use packet_processor::{FoundPacket, Place, function_of};
use regions::Regions;
use sequences::Sequence;
use std::alloc::{AllocError, Global};

/// Bytes that go to memory from an address on.
#[derive(Drop)]
struct Piece {
    address: Address,
    bytes: Bytes,
}

impl AccessCore {
    /// Runs the next group of a dispatch in flight. An agent dispatch has one, number 0, which
    /// writes its function's target and then its result. A kernel dispatch has its work-groups, one at
    /// a time; one that breaks a rule leaves nothing, its queue has an error more, and its packet
    /// leaves flight (own).
    pub fn run_next(
        &mut self,
        alloc: Global,
        queue: QueueId,
        packet: PacketId,
    ) -> Result<Worked, Refusal>
        ensures met { MeetsOrLacks (Event.Call (Call.RunNext queue packet)) self.old.history self.new.history (map_ok Outcome.Worked result) }
        ensures places { self.new.places ≡ self.old.places }
        ensures room { (error : QueueError) (effects : List Effect) →
            owed (beginning self.old.history) self.old.history.entries (Event.Call (Call.RunNext queue packet)) ≡ enters (Outcome.Worked (Worked.Faulted error)) effects →
            result ≡ Err Refusal.AuditFull → ⊥ }
    {
        self.keeps_room();
        let FoundPlace { place, index } = self.place_of(queue, packet)?;
        let found = FoundPacket { packet, index };
        match place.packet {
            Packet::Agent(dispatch) => self.run_agent(alloc, queue, found, place, dispatch),
            Packet::Kernel(dispatch) => self.run_kernel(alloc, queue, found, place, dispatch),
            Packet::BarrierAnd(_) => Err(Refusal::NotInFlight),
            Packet::BarrierOr(_) => Err(Refusal::NotInFlight),
        }
    }

    // Runs the one group of an agent dispatch in flight.
    fn run_agent(
        &mut self,
        alloc: Global,
        queue: QueueId,
        found: FoundPacket,
        place: Place,
        dispatch: AgentDispatch,
    ) -> Result<Worked, Refusal>
        requires found { IsInPlace self.old.history queue found.packet place }
        requires at { IsFoundAt self.old.history queue found }
        requires within { lies_in_regions (region_lengths (beginning self.old.history).policy) place.packet ≡ true }
        requires packet_is { place.packet ≡ kind.Agent dispatch }
        ensures met { MeetsOrLacks (Event.Call (Call.RunNext queue found.packet)) self.old.history self.new.history (map_ok Outcome.Worked result) }
        ensures places { self.new.places ≡ self.old.places }
    {
        if place.progress.groups_run >= 1 {
            return Ok(Worked::Done);
        }
        if self.is_full() {
            return Err(Refusal::AuditFull);
        }
        let target = self.function_piece(alloc, &dispatch)?;
        let result = self.result_piece(alloc, &dispatch)?;
        let effects = lay_both(&mut self.memory, target, result);
        advance(&mut self.queues, queue, found, one_more(&place.progress));
        let packet = found.packet;
        let worked = Worked::Ran { group: 0, left: 0 };
        let event = Event::Call(Call::RunNext { queue, packet });
        enter(&mut self.audit, event, Outcome::Worked(worked), effects);
        Ok(worked)
    }

    // What an agent's function writes, and where.
    fn function_piece(&self, alloc: Global, dispatch: &AgentDispatch) -> Result<Piece, AllocError>
        requires { lies_in_regions (region_lengths (beginning self.now.history).policy) (kind.Agent dispatch.now) ≡ true }
        ensures written { IfOk result (λ piece. write_of piece.address.0 piece.bytes
            ≡ function_writes (beginning self.now.history) self.now.history.entries (function_of dispatch.now)) }
        ensures placed { IfOk result (λ piece. IsPlaced self.now.history piece.address.0 (length piece.bytes)) }
        ensures lacks { OnErr result (0 < length (function_writes (beginning self.now.history) self.now.history.entries (function_of dispatch.now))) }
    {
        match function_of(dispatch) {
            Some(AgentFunction::Fill { target, byte }) => Ok(Piece {
                address: target.address,
                bytes: Bytes::repeated(alloc, byte, target.size as usize)?,
            }),
            Some(AgentFunction::Copy { source, target }) => Ok(Piece {
                address: target.address,
                bytes: self.written_of(alloc, source)?,
            }),
            Some(AgentFunction::Add64 { number, addend }) => Ok(Piece {
                address: number.address,
                bytes: number_bytes(alloc, self.number(number.address).wrapping_add(addend))?,
            }),
            None => Ok(Piece {
                address: Address(0),
                bytes: Bytes::none(),
            }),
        }
    }

    // What an agent's function leaves at its return address.
    fn result_piece(&self, alloc: Global, dispatch: &AgentDispatch) -> Result<Piece, AllocError>
        requires { lies_in_regions (region_lengths (beginning self.now.history).policy) (kind.Agent dispatch.now) ≡ true }
        ensures written { IfOk result (λ piece.
            write_of piece.address.0 piece.bytes ≡ result_writes (beginning self.now.history) self.now.history.entries dispatch.now) }
        ensures placed { IfOk result (λ piece. IsPlaced self.now.history piece.address.0 (length piece.bytes)) }
        ensures lacks { OnErr result (0 < length (result_writes (beginning self.now.history) self.now.history.entries dispatch.now)) }
    {
        let address = dispatch.return_address;
        if address.0 == 0 {
            return Ok(Piece {
                address,
                bytes: Bytes::none(),
            });
        }
        Ok(Piece {
            address,
            bytes: number_bytes(alloc, self.result_number(dispatch))?,
        })
    }

    // The result of an agent's function: the old number of an addition, else 0.
    fn result_number(&self, dispatch: &AgentDispatch) -> u64
        requires { lies_in_regions (region_lengths (beginning self.now.history).policy) (kind.Agent dispatch.now) ≡ true }
        ensures { result ≡ function_result (beginning self.now.history) self.now.history.entries (function_of dispatch.now) }
    {
        match function_of(dispatch) {
            Some(AgentFunction::Add64 { number, .. }) => self.number(number.address),
            _ => 0,
        }
    }

    // The bytes of a range, as a list of its own.
    pub(crate) fn copy_range(&self, alloc: Global, range: Range) -> Result<Sequence<u8>, AllocError>
        requires { IsPlaced self.now.history range.address.0 range.size }
        ensures bytes { IfOk result (λ bytes.
            bytes ≡ memory_from (beginning self.now.history) self.now.history.entries range.address.0 range.size) }
        ensures lacks { OnErr result (0 < range.size) }
    {
        if range.size == 0 {
            return Ok(Sequence::new(alloc));
        }
        copied(alloc, self.memory.bytes(range.address, range.size))
    }

    // The bytes of a range, as they are written elsewhere.
    fn written_of(&self, alloc: Global, range: Range) -> Result<Bytes, AllocError>
        requires { IsPlaced self.now.history range.address.0 range.size }
        ensures bytes { IfOk result (λ bytes.
            bytes ≡ memory_from (beginning self.now.history) self.now.history.entries range.address.0 range.size) }
        ensures lacks { OnErr result (0 < range.size) }
    {
        if range.size == 0 {
            return Ok(Bytes::none());
        }
        Bytes::copied(alloc, self.memory.bytes(range.address, range.size))
    }

    // The 64-bit number at an address.
    fn number(&self, address: Address) -> u64
        requires { is_within (region_lengths (beginning self.now.history).policy) address.0 8 ≡ true }
        ensures { result ≡ number_in_memory (beginning self.now.history) self.now.history.entries address.0 }
    {
        let mut number = [0; 8];
        number.copy_from_slice(self.memory.bytes(address, 8));
        u64::from_le_bytes(number)
    }
}

// How far a packet has come once one more of its groups has run.
pub(crate) fn one_more(progress: &Progress) -> Progress
    requires { progress.now.groups_run < 2 ^ 32 - 1 }
    ensures { result ≡ record { groups_run = progress.now.groups_run + 1; satisfied = progress.now.satisfied } }
{
    Progress {
        groups_run: progress.groups_run + 1,
        satisfied: progress.satisfied,
    }
}

// Notes how far a packet in flight that was found has come.
pub(crate) fn advance(
    queues: &mut Vec<Queue>,
    queue: QueueId,
    found: FoundPacket,
    progress: Progress,
)
    requires there { IsThere queues.old.items queue }
    requires found { IsFoundOf queues.old.items queue (Some found) }
    ensures queues { queues.new.items ≡ with_queue queues.old.items queue (with_advance found.packet progress) }
    ensures capacity { vec_capacity queues.new ≡ vec_capacity queues.old }
{
    let index = open_index(queues.as_slice(), queue);
    queues[index].places.advance(found, progress);
}

// The 8 bytes of a number, the lowest first.
fn number_bytes(alloc: Global, number: u64) -> Result<Bytes, AllocError>
    ensures { IfOk result (λ bytes. bytes ≡ to_le_bytes w64 number) }
{
    Bytes::copied(alloc, &number.to_le_bytes())
}

// Lays one piece and then another over memory, and tells the changes.
fn lay_both(memory: &mut Regions, first: Piece, second: Piece) -> Effects
    requires first { is_placed (lengths_of memory.old) first.address.0 (length first.bytes) ≡ true }
    requires second { is_placed (lengths_of memory.old) second.address.0 (length second.bytes) ≡ true }
    ensures effects { result ≡
        write_of first.address.0 first.bytes ++ write_of second.address.0 second.bytes }
    ensures changed { IsChanged memory.old
        (write_of first.address.0 first.bytes ++ write_of second.address.0 second.bytes) memory.new }
    ensures lengths { lengths_of memory.new ≡ lengths_of memory.old }
{
    lay(memory, &first);
    lay(memory, &second);
    match (change(first), change(second)) {
        (Some(first), Some(second)) => Effects::two(first, second),
        (Some(only), None) | (None, Some(only)) => Effects::one(only),
        (None, None) => Effects::none(),
    }
}

// Lays a piece over memory.
fn lay(memory: &mut Regions, piece: &Piece)
    requires { is_placed (lengths_of memory.old) piece.now.address.0 (length piece.now.bytes) ≡ true }
    ensures changed { IsChanged memory.old (write_of piece.now.address.0 piece.now.bytes) memory.new }
    ensures lengths { lengths_of memory.new ≡ lengths_of memory.old }
{
    if piece.bytes.is_empty() {
        return;
    }
    memory.lay(piece.address, piece.bytes.as_slice());
}

// The change that a piece makes: none where it has no bytes.
fn change(piece: Piece) -> Option<Effect>
    ensures { option_to_list result ≡ write_of piece.address.0 piece.bytes }
{
    let Piece { address, bytes } = piece;
    if bytes.is_empty() {
        None
    } else {
        Some(Effect::Write { address, bytes })
    }
}
