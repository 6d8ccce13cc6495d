//! What a history begins from, as data.

ghost use Rattle.std.specs.Prelude.{◌≡◌, ◌↔◌, IfOk, true};
ghost use Rattle.core_model.specs.History.{policy_in};
ghost use Rattle.core_model.specs.Legal.{SameOrigin};
ghost use Rattle.grants.specs.Ledger.{IsCopy};

use crate::flight::{InFlight, Progress};
use crate::limits::{ALL_IN_FLIGHT, MOST_IN_FLIGHT, QUEUES};
use aql_packet::{AgentHandle, ClientId, QueueId};
use grants::Grants;
use policy::{Object, Policy, PolicyRows, Right, Rights};
use queue_error::QueueError;
use regions::Regions;
use sequences::{Ample, Few, Sequence};
use signals::Signals;
use std::alloc::{AllocError, Global};

/// A queue's opening.
#[derive(Clone, Copy, Debug, PartialEq, Eq)]
pub struct Opening {
    /// Whose the queue is.
    pub client: ClientId,
    /// The agent that runs its packets.
    pub agent: AgentHandle,
}

/// An open queue, as a history begins with it.
#[derive(Debug, Drop, PartialEq, Eq)]
pub struct QueueOrigin {
    /// Its number.
    pub queue: QueueId,
    pub opening: Opening,
    /// The id of its next packet.
    pub next: u64,
    /// Whether it was stopped.
    pub stopped: bool,
    /// Its errors, in order: at most one of each packet that can be in flight.
    pub errors: Few<QueueError, MOST_IN_FLIGHT>,
}

/// A packet in flight, as a history begins with it.
#[derive(Debug, Drop, PartialEq, Eq)]
pub struct PacketOrigin {
    pub flying: InFlight,
    /// How far it has come.
    pub progress: Progress,
    /// Whose queue it is in.
    pub client: ClientId,
    /// The rights that it holds, of that client.
    pub rights: Sequence<(Object, Rights)>,
    /// Its argument block, as it was at its launch.
    pub arguments: Sequence<u8>,
}

/// What a history begins from. A rotation makes one of what the core keeps.
#[derive(Drop)]
pub struct Origin {
    /// The policy that the core was opened with: what it declares stays.
    pub policy: Policy,
    /// What is in force, and by which rows on rights. What packets in flight hold lies with them.
    pub grants: Grants,
    /// The bytes of each region.
    pub memory: Regions,
    /// The values of the signals.
    pub signals: Signals,
    /// How many queues were ever opened: the next that is opened has the number behind.
    pub opened: u64,
    /// The open queues, in the order in which they were opened.
    pub queues: Ample<QueueOrigin, QUEUES>,
    /// The packets in flight, in the order of their launches.
    pub packets: Ample<PacketOrigin, ALL_IN_FLIGHT>,
    /// How many entries came before.
    pub before: u64,
}

impl QueueOrigin {
    /// The same queue once more.
    pub fn copy(&self) -> QueueOrigin
        ensures { result ≡ self.now }
    {
        QueueOrigin {
            queue: self.queue,
            opening: self.opening,
            next: self.next,
            stopped: self.stopped,
            errors: Few::of(self.errors.as_slice()),
        }
    }
}

impl PacketOrigin {
    ghost use Rattle.core_model.specs.History.{packet_holds};
    ghost use Rattle.std.specs.Prelude.{Some};

    /// Whether it holds a client's right on an object.
    pub fn holds(&self, client: ClientId, object: Object, right: Right) -> bool
        ensures { result ≡ packet_holds client object right (Some self.now) }
    {
        let holder = self.client;
        self.rights.as_slice().iter().any(|named| client == holder
            && object == named.0
            && named.1.has(right))
    }

    /// The same packet once more, with rights and arguments of its own.
    pub fn copy(&self, alloc: Global) -> Result<PacketOrigin, AllocError>
        ensures { IfOk result (λ copy. copy ≡ self.now) }
    {
        Ok(PacketOrigin {
            flying: self.flying,
            progress: self.progress,
            client: self.client,
            rights: self.rights.copy(alloc)?,
            arguments: self.arguments.copy(alloc)?,
        })
    }
}

impl Origin {
    /// The same to begin from, in memory of its own.
    pub fn copy(&self, alloc: Global) -> Result<Origin, AllocError>
        ensures same { IfOk result (λ copy. SameOrigin copy self.now) }
        ensures policy { IfOk result (λ copy. copy.policy ≡ self.now.policy) }
        ensures grants { IfOk result (λ copy. IsCopy self.now.grants copy.grants) }
    {
        Ok(Origin {
            policy: self.policy.copy(alloc)?,
            grants: self.grants.copy(alloc)?,
            memory: self.memory.copy(alloc)?,
            signals: self.signals.copy(alloc)?,
            opened: self.opened,
            queues: copy_queues(alloc, &self.queues)?,
            packets: copy_packets(alloc, &self.packets)?,
            before: self.before,
        })
    }

    /// Whether another is the same to begin from: the same policy in force, the same in force and held, and all
    /// else equal. Room for further holds, and the order in which holds came, don't count. It takes no memory.
    pub fn is_same(&self, other: &Origin) -> bool
        ensures { result ≡ true ↔ SameOrigin self.now other.now }
    {
        is_same_policy(self, other)
            & self.grants.is_same(&other.grants)
            & self.memory.is_same(&other.memory)
            & self.signals.is_same(&other.signals)
            & (self.opened == other.opened)
            & are_same_queues(self.queues.as_slice(), other.queues.as_slice())
            & are_same_packets(self.packets.as_slice(), other.packets.as_slice())
            & (self.before == other.before)
    }
}

// Whether the same policy is in force: of one version, with the same declared, and with the same rows.
fn is_same_policy(one: &Origin, other: &Origin) -> bool
    ensures { result ≡ true ↔ policy_in one.now ≡ policy_in other.now }
{
    one.policy.declares_as(&other.policy)
        & (one.policy.version() == other.policy.version())
        & is_same_rows(one.grants.rows(), other.grants.rows())
}

// Whether rows on rights are the same, in the same order.
fn is_same_rows(one: &PolicyRows, other: &PolicyRows) -> bool
    ensures { result ≡ true ↔ one.now ≡ other.now }
{
    *one == *other
}

// Whether queues are the same.
fn are_same_queues(queues: &[QueueOrigin], others: &[QueueOrigin]) -> bool
    ensures { result ≡ true ↔ queues.now ≡ others.now }
{
    queues == others
}

// Whether packets are the same, in the same order, and have come as far.
fn are_same_packets(packets: &[PacketOrigin], others: &[PacketOrigin]) -> bool
    ensures { result ≡ true ↔ packets.now ≡ others.now }
{
    packets == others
}

// The same queues once more.
fn copy_queues(
    alloc: Global,
    queues: &Ample<QueueOrigin, QUEUES>,
) -> Result<Ample<QueueOrigin, QUEUES>, AllocError>
    ensures { IfOk result (λ copy. copy ≡ queues.now) }
{
    let mut copies = Ample::get(alloc)?;
    for queue in queues.as_slice() {
        copies.push(queue.copy());
    }
    Ok(copies)
}

// The same packets once more.
fn copy_packets(
    alloc: Global,
    packets: &Ample<PacketOrigin, ALL_IN_FLIGHT>,
) -> Result<Ample<PacketOrigin, ALL_IN_FLIGHT>, AllocError>
    ensures { IfOk result (λ copy. copy ≡ packets.now) }
{
    let mut copies = Ample::get(alloc)?;
    for packet in packets.as_slice() {
        copies.push(packet.copy(alloc)?);
    }
    Ok(copies)
}
