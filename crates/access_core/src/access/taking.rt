//! Packets are handed over: they wait, are launched, or denied.

ghost use Rattle.core_model.specs.History.{beginning};
ghost use Rattle.std.specs.Prelude.{◌≡◌, ◌<◌, ◌++◌, [], All, IfErr, IfOk, Ok, OnOk, map, vec_capacity};
ghost use Rattle.aql_packet.specs.Reading.{barrier_bit};
ghost use Rattle.core_model.specs.Holds.{arguments_of, rights_at_launch};
ghost use Rattle.core_model.specs.Owed.{facts_of, refuses};
ghost use Rattle.packet_processor.specs.Holding.{as_rights};
ghost use Rattle.packet_processor.specs.Judged.{facts_seen, Judges};
ghost use Rattle.access_core.specs.inner.Deciding.{Decides, IsBlockPlaced, opening_of};
ghost use Rattle.access_core.specs.inner.CachedQueue.{IsSound};
ghost use Rattle.access_core.specs.inner.QueueChanges.{CanFail, CanLaunch, IsAbove, with_denied, with_launched, with_queue};
ghost use Rattle.policy.specs.Results.{map_ok};
ghost use Rattle.core_model.specs.Legal.{Meets, MeetsOrLacks, due, entry_of};
ghost use Rattle.access_core.specs.inner.Cached.{IsEntered};

use crate::access::lookups::{open_index, queue_of};
use crate::access::{AccessCore, enter};
use crate::argument_blocks::ArgumentBlock;
use crate::queue::Queue;
use aql_packet::{
    AgentHandle, ClientId, Packet, PacketId, QueueId, RawHeader, header_of,
    law_header_in_first_word, words_of,
};
use core_model::{Effects, Entry, Event, Outcome, Range, Refusal, Taken, WaitCause};
use packet_processor::{
    Facts, MayLaunch, PacketNeeds, QueueState, Verdict, held_by_arguments, hold_needs, verdict,
};
use policy::{Object, Rights, TAKES_NOTHING};
use queue_error::{QueueError, Rule};
use sequences::{Reserved, Sequence};
use std::alloc::{AllocError, Global};

// What a packet's header says, which its first word holds.
fn header(bytes: &[u8; 64]) -> RawHeader
    ensures { result.barrier ≡ barrier_bit bytes.now }
{
    law_header_in_first_word();
    header_of(words_of(bytes)[0])
}

// What is decided of a packet that is next.
#[derive(Drop)]
enum Decision {
    Wait(WaitCause),
    Deny(Rule),
    Launch(Launching),
}

// A packet that is launched with what it needs on its agent, and whose queue it is.
#[derive(Drop)]
struct Launching {
    client: ClientId,
    asked: PacketNeeds,
}

// Puts the next packet of a queue into a place, with its argument block.
fn place_next(queues: &mut Vec<Queue>, queue: QueueId, packet: Packet, block: ArgumentBlock)
    requires free { CanLaunch queues.old.items queue }
    requires above { IsAbove queues.old.items queue block.packet }
    requires sound { All IsSound queues.old.items }
    ensures queues { queues.new.items ≡ with_queue queues.old.items queue (with_launched packet block) }
    ensures capacity { vec_capacity queues.new ≡ vec_capacity queues.old }
{
    let index = open_index(queues.as_slice(), queue);
    let kept = &mut queues[index];
    kept.next += 1;
    kept.places.launch(block.packet, packet);
    kept.blocks.push(block);
}

// Counts the next packet of a queue as handed over, and puts an error behind the queue's others.
fn fail_next(queues: &mut Vec<Queue>, queue: QueueId, error: QueueError)
    requires { CanFail queues.old.items queue }
    ensures queues { queues.new.items ≡ with_queue queues.old.items queue (with_denied error) }
    ensures capacity { vec_capacity queues.new ≡ vec_capacity queues.old }
{
    let index = open_index(queues.as_slice(), queue);
    let kept = &mut queues[index];
    kept.next += 1;
    kept.errors.push(error);
}

// Puts rights behind others.
fn append(
    rights: &mut Sequence<(Object, Rights)>,
    more: &[(Object, Rights)],
) -> Result<(), AllocError>
    ensures { OnOk result (rights.new ≡ rights.old ++ more.now) }
{
    for one in more {
        rights.push(*one)?;
    }
    Ok(())
}

// Puts the entry of a launch behind the others.
fn enter_launch(audit: &mut Reserved<Entry>, queue: QueueId, packet: PacketId, bytes: &[u8; 64])
    requires { 0 < audit.old.room }
    ensures { IsEntered audit.old audit.new (entry_of (Event.Take queue packet bytes.now) (Outcome.Taken Taken.Launched) []) }
{
    let event = Event::Take {
        queue,
        packet,
        bytes: *bytes,
    };
    enter(
        audit,
        event,
        Outcome::Taken(Taken::Launched),
        Effects::none(),
    );
}

impl AccessCore {
    // What packets of a client's queue on an agent are judged by.
    fn facts(&self, client: ClientId, agent: AgentHandle) -> Facts<'_>
        ensures { facts_seen result ≡ facts_of (beginning self.now.history) self.now.history.entries (record { client = client; agent = agent }) }
    {
        Facts {
            client,
            agent,
            takes: self.policy().takes(agent).unwrap_or(TAKES_NOTHING),
            grants: &self.grants,
            regions: &self.memory,
            kernels: self.segments.as_slice(),
        }
    }

    // Judges a packet of a client's queue on an agent.
    fn judge(&self, client: ClientId, agent: AgentHandle, bytes: &[u8; 64]) -> Verdict
        ensures { Judges (facts_of (beginning self.now.history) self.now.history.entries (record { client = client; agent = agent })) bytes.now result }
    {
        let facts = self.facts(client, agent);
        verdict(bytes, &facts)
    }

    // What is decided of the packet that is handed over, if the queue takes one and it is the next.
    fn may_take(
        &self,
        queue: QueueId,
        packet: PacketId,
        bytes: &[u8; 64],
    ) -> Result<Decision, Refusal>
        ensures may { IfOk result (λ decision. Decides self.now.history queue packet bytes.now decision) }
        ensures why { IfErr result (λ why. due self.now.history (Event.Take queue packet bytes.now) ≡ refuses why) }
    {
        let kept = match queue_of(self.queues.as_slice(), queue) {
            None => return Err(Refusal::UnknownQueue),
            Some(kept) => kept,
        };
        let state = QueueState {
            places: &kept.places,
            errors: kept.errors.as_slice(),
            stopped: kept.stopped,
        };
        if state.is_down() {
            return Err(Refusal::QueueDown);
        }
        if packet.0 != kept.next {
            return Err(Refusal::OutOfStep(kept.next));
        }
        match state.may_launch(&header(bytes)) {
            MayLaunch::Waiting(cause) => Ok(Decision::Wait(cause)),
            MayLaunch::Go => {
                match self.judge(kept.client, kept.agent, bytes) {
                    Verdict::Launch(asked) => {
                        if self.is_full_for_launch() {
                            return Err(Refusal::AuditFull);
                        }
                        let client = kept.client;
                        Ok(Decision::Launch(Launching { client, asked }))
                    }
                    Verdict::Deny(rule) => {
                        if self.is_full() {
                            return Err(Refusal::AuditFull);
                        }
                        Ok(Decision::Deny(rule))
                    }
                }
            }
        }
    }

    /// Hands over the next packet of a queue: its id and its 64 bytes. It waits, is launched, or is
    /// denied by the first launch rule that fails, after which the queue launches nothing more.
    pub fn take(
        &mut self,
        alloc: Global,
        queue: QueueId,
        packet: PacketId,
        bytes: &[u8; 64],
    ) -> Result<Taken, Refusal>
        ensures met { MeetsOrLacks (Event.Take queue packet bytes.now) self.old.history self.new.history (map_ok Outcome.Taken result) }
        ensures places { self.new.places ≡ self.old.places }
    {
        match self.may_take(queue, packet, bytes)? {
            Decision::Wait(cause) => Ok(Taken::Waiting(cause)),
            Decision::Deny(rule) => Ok(self.deny(queue, packet, bytes, rule)),
            Decision::Launch(launching) => self.launch(alloc, queue, packet, bytes, &launching),
        }
    }

    // Denies the next packet of a queue.
    #[inline(never)]
    fn deny(&mut self, queue: QueueId, packet: PacketId, bytes: &[u8; 64], rule: Rule) -> Taken
        requires { Decides self.old.history queue packet bytes.now (Decision.Deny rule) }
        ensures met { Meets (Event.Take queue packet bytes.now) self.old.history self.new.history (Ok (Outcome.Taken result)) }
        ensures places { self.new.places ≡ self.old.places }
    {
        let error = QueueError {
            queue,
            packet,
            rule,
            place: None,
        };
        fail_next(&mut self.queues, queue, error);
        let event = Event::Take {
            queue,
            packet,
            bytes: *bytes,
        };
        let became = Taken::Denied(error);
        enter(
            &mut self.audit,
            event,
            Outcome::Taken(became),
            Effects::none(),
        );
        became
    }

    // The bytes of a packet's argument block, as a list of its own: none but of a kernel dispatch.
    fn argument_block(&self, alloc: Global, packet: &Packet) -> Result<Sequence<u8>, AllocError>
        requires { IsBlockPlaced self.now.history packet.now }
        ensures { IfOk result (λ block. block ≡ arguments_of (beginning self.now.history) self.now.history.entries packet.now) }
    {
        let Packet::Kernel(dispatch) = packet else {
            return Ok(Sequence::new(alloc));
        };
        match self.kernel(dispatch) {
            None => Ok(Sequence::new(alloc)),
            Some(program) => {
                let range = Range {
                    address: dispatch.kernarg_address,
                    size: program.kernarg_bytes() as u64,
                };
                self.copy_range(alloc, range)
            }
        }
    }

    // Lists what a packet holds that is launched now with this argument block.
    fn list_rights(
        &self,
        alloc: Global,
        launching: &Launching,
        block: &[u8],
        rights: &mut Sequence<(Object, Rights)>,
    ) -> Result<(), AllocError>
        requires empty { rights.old ≡ [] }
        requires block { block.now ≡ arguments_of (beginning self.now.history) self.now.history.entries launching.now.asked.packet }
        ensures { OnOk result (rights.new
            ≡ map as_rights (rights_at_launch (beginning self.now.history) self.now.history.entries (opening_of launching.now) launching.now.asked.packet)) }
    {
        hold_needs(rights, &launching.asked)?;
        let Packet::Kernel(dispatch) = launching.asked.packet() else {
            return Ok(());
        };
        let Some(program) = self.kernel(dispatch) else {
            return Ok(());
        };
        let facts = self.facts(launching.client, launching.asked.agent());
        let pointed = held_by_arguments(alloc, &facts, program.wide_arguments(), block)?;
        append(rights, pointed.as_slice())?;
        Ok(())
    }

    // An empty list for the rights of a packet that is launched.
    fn empty_list(&mut self, alloc: Global) -> Sequence<(Object, Rights)>
        ensures empty { result ≡ [] }
        ensures same { self.new ≡ self.old }
    {
        self.spare.empty_list(alloc)
    }

    // Launches the next packet of a queue: it holds its rights from then on.
    fn launch(
        &mut self,
        alloc: Global,
        queue: QueueId,
        packet: PacketId,
        bytes: &[u8; 64],
        launching: &Launching,
    ) -> Result<Taken, Refusal>
        requires { Decides self.old.history queue packet bytes.now (Decision.Launch launching.now) }
        ensures met { MeetsOrLacks (Event.Take queue packet bytes.now) self.old.history self.new.history (map_ok Outcome.Taken result) }
        ensures places { self.new.places ≡ self.old.places }
    {
        let rights = self.empty_list(alloc);
        match self.launch_with(alloc, queue, packet, bytes, launching, rights) {
            Ok(()) => Ok(Taken::Launched),
            Err(why) => Err(why),
        }
    }

    // Launches it with its rights in this list, which is empty yet.
    fn launch_with(
        &mut self,
        alloc: Global,
        queue: QueueId,
        packet: PacketId,
        bytes: &[u8; 64],
        launching: &Launching,
        mut rights: Sequence<(Object, Rights)>,
    ) -> Result<(), Refusal>
        requires decided { Decides self.old.history queue packet bytes.now (Decision.Launch launching.now) }
        requires empty { rights ≡ [] }
        ensures met { MeetsOrLacks (Event.Take queue packet bytes.now) self.old.history self.new.history (map_ok (λ done. Outcome.Taken Taken.Launched) result) }
        ensures places { self.new.places ≡ self.old.places }
    {
        let block = self.argument_block(alloc, launching.asked.packet())?;
        self.list_rights(alloc, launching, block.as_slice(), &mut rights)?;
        let given = ArgumentBlock {
            queue,
            packet,
            client: launching.client,
            number: self.entries_before() + self.audit.len() as u64,
            rights,
            bytes: block,
        };
        self.fresh.provide(
            alloc,
            self.in_flight_count + 1,
            given.rights.len(),
            given.bytes.len(),
        )?;
        place_next(&mut self.queues, queue, *launching.asked.packet(), given);
        self.in_flight_count += 1;
        enter_launch(&mut self.audit, queue, packet, bytes);
        Ok(())
    }
}
