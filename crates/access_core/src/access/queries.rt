//! Queries: they change nothing, and no entry tells of them.

ghost use Rattle.core_model.specs.History.{beginning};
ghost use Rattle.std.specs.Prelude.{◌≡◌, ◌≤◌, length};
ghost use Rattle.core_model.specs.Limits.{most_before, most_entries};
ghost use Rattle.core_model.specs.declared.answer.Answer.TheVariants as answer;
ghost use Rattle.policy.specs.Results.{map_ok};
ghost use Rattle.core_model.specs.Legal.{IsLegal, Replies, RepliesOrLacks};
ghost use Rattle.access_core.specs.Tables.{table_sizes};
ghost use Rattle.core_model.specs.Policies.{rows_at};
ghost use Rattle.core_model.specs.Room.{HasRoom};

use crate::access::AccessCore;
use crate::lists::copied;
use crate::tables::TableSizes;
use aql_packet::{Address, ClientId, QueueId, SignalHandle};
use core_model::{Entry, MOST_HOST_BYTES, Origin, Query, Range, Refusal};
use policy::{Object, Policy, PolicyRows, Right, Rights};
use queue_error::QueueError;
use regions::region_of;
use sequences::Sequence;
use signals::Condition;
use std::alloc::Global;

impl AccessCore {
    /// The policy that the core was opened with: all that it declares stays, and its rows on rights are in
    /// force until others are (`rows`).
    pub fn policy(&self) -> &Policy
        ensures { result.now ≡ self.now.history.origin.policy }
    {
        &self.start.as_ref().policy
    }

    /// What its history began from: the opening, or where the last rotation left off.
    pub fn start(&self) -> &Origin
        ensures { result.now ≡ self.now.history.origin }
    {
        self.start.as_ref()
    }

    /// The rows on rights in force: those of the policy that was put in force last.
    pub fn rows(&self) -> &PolicyRows
        ensures { result.now ≡ rows_at (beginning self.now.history) self.now.history.entries }
    {
        self.grants.rows()
    }

    /// Does nothing but say to callers what holds of each core: its audit keeps a place for each packet in
    /// flight.
    pub fn keeps_room(&self)
        ensures { HasRoom self.now.history }
    {
        let _ = &self.audit;
    }

    /// The audit's entries, in order, 2^20 at most: a legal history, of which the laws of `core_model` speak.
    pub fn audit(&self) -> &[Entry]
        ensures entries { result.now ≡ self.now.history.entries }
        ensures few { length result.now ≤ most_entries }
        ensures legal { IsLegal (beginning self.now.history) self.now.history.entries }
    {
        self.audit.as_slice()
    }

    /// How many entries came before the audit's, 2^62 at the most: rotations handed them out.
    pub fn entries_before(&self) -> u64
        ensures before { result ≡ (beginning self.now.history).before }
        ensures few { result ≤ most_before }
    {
        self.start.as_ref().before
    }

    /// How long these tables of the core are, as its history says: calls that take no memory make none of them
    /// longer.
    pub fn table_sizes(&self) -> TableSizes
        ensures { result ≡ table_sizes self.now.history }
    {
        TableSizes {
            queues: self.queues.len(),
            argument_blocks: self.in_flight_count,
            audit_places: self.audit.len() + self.audit.room(),
        }
    }

    /// The `length` bytes of memory from an address on. Refused in this order: no client has the
    /// number; the length isn't 1 to 65,536; the range doesn't lie whole in a region on which the
    /// client's right to read is in force.
    #[tactic(auto, unfolding(core_model::specs::Queries::query_answer))]
    pub fn host_read(
        &self,
        alloc: Global,
        client: ClientId,
        address: Address,
        length: u64,
    ) -> Result<Sequence<u8>, Refusal>
        ensures { RepliesOrLacks
            (Query.HostRead client address length) self.now.history (map_ok answer.Bytes result) }
    {
        if !self.policy().declares_client(client) {
            return Err(Refusal::UnknownClient);
        }
        if length == 0 || length > MOST_HOST_BYTES {
            return Err(Refusal::BadSize);
        }
        let region = Object::Region(region_of(address));
        if !self.lies_within(address, length) || !self.is_in_force(client, region, Right::Read) {
            return Err(Refusal::Denied(Right::Read));
        }
        let range = Range {
            address,
            size: length,
        };
        Ok(self.copy_range(alloc, range)?)
    }

    /// A signal's value. Refused in this order: no client has the number; the client's right to
    /// wait on the signal isn't in force.
    #[tactic(auto, unfolding(core_model::specs::Queries::query_answer))]
    pub fn signal_load(&self, client: ClientId, signal: SignalHandle) -> Result<i64, Refusal>
        ensures { Replies (Query.LoadSignal client signal) self.now.history (map_ok answer.Value result) }
    {
        if !self.policy().declares_client(client) {
            return Err(Refusal::UnknownClient);
        }
        if !self.is_in_force(client, Object::Signal(signal), Right::Wait) {
            return Err(Refusal::Denied(Right::Wait));
        }
        match self.signal_value(signal) {
            Some(value) => Ok(value),
            None => Err(Refusal::Denied(Right::Wait)),
        }
    }

    /// Whether a signal's value meets a condition against another value. Refused as a load is.
    #[tactic(auto, unfolding(core_model::specs::Queries::query_answer))]
    pub fn signal_test(
        &self,
        client: ClientId,
        signal: SignalHandle,
        condition: Condition,
        value: i64,
    ) -> Result<bool, Refusal>
        ensures { Replies
            (Query.TestSignal client signal condition value) self.now.history (map_ok answer.Test result) }
    {
        let current = self.signal_load(client, signal)?;
        Ok(condition.is_met(current, value))
    }

    /// Each object on which a client has a right in force, with those rights: agents, regions,
    /// signals and kernels, each kind by number. Refused where no client has the number. For a client
    /// without rights it takes no memory.
    #[tactic(auto, unfolding(core_model::specs::Queries::query_answer))]
    pub fn list(
        &self,
        alloc: Global,
        client: ClientId,
    ) -> Result<Sequence<(Object, Rights)>, Refusal>
        ensures { RepliesOrLacks (Query.List client) self.now.history (map_ok answer.Listing result) }
    {
        if !self.policy().declares_client(client) {
            return Err(Refusal::UnknownClient);
        }
        Ok(self.grants.list(alloc, client)?)
    }

    /// The errors of a queue, in order. Refused where no queue has the number. For a queue without errors
    /// it takes no memory.
    #[tactic(auto, unfolding(core_model::specs::Queries::query_answer))]
    pub fn errors(&self, alloc: Global, queue: QueueId) -> Result<Sequence<QueueError>, Refusal>
        ensures { RepliesOrLacks (Query.Errors queue) self.now.history (map_ok answer.Errors result) }
    {
        let Some(kept) = self.queue(queue) else {
            return Err(Refusal::UnknownQueue);
        };
        Ok(copied(alloc, kept.errors.as_slice())?)
    }
}
