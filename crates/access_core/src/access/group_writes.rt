//! What a group of a kernel dispatch wrote is laid over memory.

ghost use Rattle.core_model.specs.History.{beginning};
ghost use Rattle.std.specs.Prelude.{◌≡◌, ◌∷◌, ◌-◌, ◌<◌, ◌^◌, All, IfOk, [], length, map, true};
ghost use Rattle.regions.specs.Memory.{is_within, lengths_of};
ghost use Rattle.policy.specs.Results.{map_ok};
ghost use Rattle.core_model.specs.Legal.{MeetsOrLacks};
ghost use Rattle.policy.specs.Policy.{region_lengths};
ghost use Rattle.core_model.specs.Owed.{enters, owed};
ghost use Rattle.core_model.specs.Work.{write_of_run};
ghost use Rattle.access_core.specs.inner.InPlace.{IsChanged, IsFoundAt, IsInPlace, IsKernel};
ghost use Rattle.access_core.specs.inner.Laying.{LiesWithin};

use crate::access::running::{advance, one_more};
use crate::access::{AccessCore, enter};
use aql_packet::{Address, QueueId};
use core_model::{Bytes, Call, Effect, Effects, Event, Outcome, Refusal, Worked};
use executor::WrittenRange;
use packet_processor::{FoundPacket, Place};
use regions::Regions;
use sequences::Sequence;
use std::alloc::{AllocError, Global};

impl AccessCore {
    // Enters a group of a kernel dispatch that ran: its runs are laid over memory, and its packet is one
    // group further.
    pub(crate) fn enter_group(
        &mut self,
        alloc: Global,
        queue: QueueId,
        found: FoundPacket,
        place: Place,
        left: u32,
        runs: Sequence<WrittenRange>,
    ) -> Result<Worked, Refusal>
        requires found { IsInPlace self.old.history queue found.packet place }
        requires at { IsFoundAt self.old.history queue found }
        requires owed { owed (beginning self.old.history) self.old.history.entries (Event.Call (Call.RunNext queue found.packet))
            ≡ enters (Outcome.Worked (Worked.Ran place.progress.groups_run left)) (map write_of_run runs) }
        requires written { All (λ run. is_within (region_lengths (beginning self.old.history).policy) run.address (length run.bytes) ≡ true) runs }
        requires room { place.progress.groups_run < 2 ^ 32 - 1 }
        requires kernel { IsKernel place.packet }
        ensures met { MeetsOrLacks (Event.Call (Call.RunNext queue found.packet)) self.old.history self.new.history (map_ok Outcome.Worked result) }
        ensures places { self.new.places ≡ self.old.places }
    {
        let changes = changes_of(alloc, runs)?;
        if self.is_full() {
            return Err(Refusal::AuditFull);
        }
        lay_changes(&mut self.memory, changes.as_slice());
        advance(&mut self.queues, queue, found, one_more(&place.progress));
        let packet = found.packet;
        let group = place.progress.groups_run;
        let worked = Worked::Ran { group, left };
        let event = Event::Call(Call::RunNext { queue, packet });
        let effects = Effects::many(changes);
        enter(&mut self.audit, event, Outcome::Worked(worked), effects);
        Ok(worked)
    }
}

// The changes of memory that runs of written bytes are, with the runs' own bytes.
fn changes_of(alloc: Global, runs: Sequence<WrittenRange>) -> Result<Vec<Effect>, AllocError>
    ensures { IfOk result (λ changes. changes.items ≡ map write_of_run runs) }
{
    let mut changes = Vec::with_capacity(alloc, runs.len())?;
    for run in runs.into_vec() {
        changes.push(change_of(run))?;
    }
    Ok(changes)
}

// The change of memory that a run of written bytes is.
fn change_of(run: WrittenRange) -> Effect
    ensures { result ≡ write_of_run run }
{
    let WrittenRange { address, bytes } = run;
    Effect::Write {
        address: Address(address),
        bytes: Bytes::of(bytes),
    }
}

/// Lays changes over memory, one after another.
pub(crate) fn lay_changes(memory: &mut Regions, changes: &[Effect])
    requires { All (LiesWithin (lengths_of memory.old)) changes.now }
    ensures changed { IsChanged memory.old changes.now memory.new }
    ensures lengths { lengths_of memory.new ≡ lengths_of memory.old }
{
    for change in changes {
        lay_change(memory, change);
    }
}

// Lays a change over memory: the bytes of a write, and of another change nothing.
fn lay_change(memory: &mut Regions, change: &Effect)
    requires { LiesWithin (lengths_of memory.old) change.now }
    ensures changed { IsChanged memory.old (change.now ∷ []) memory.new }
    ensures lengths { lengths_of memory.new ≡ lengths_of memory.old }
{
    match change {
        Effect::Write { address, bytes } => memory.lay(*address, bytes.as_slice()),
        Effect::Signal { .. } | Effect::Release { .. } => {}
    }
}
