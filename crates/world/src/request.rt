//! What can be asked of the world.

use aql_packet::{AgentHandle, ClientId, QueueId};
use boxed::Boxed;
use core_model::{Call, Query};
use policy::Policy;
use ring_core::Step;
use std::mem::size_of;

/// What can be asked of the world: one step, or a query.
#[derive(Drop)]
pub enum Request {
    /// A seat of a queue's ring makes one atomic access to the ring's words (PSA, User Mode Queuing).
    Step {
        queue: QueueId,
        step: Step,
    },
    /// A client opens a queue on an agent, with a ring of so many slots and producers.
    OpenQueue {
        client: ClientId,
        agent: AgentHandle,
        size: u64,
        producers: u64,
    },
    /// A queue's processor hands over the packet that it has collected.
    Take {
        queue: QueueId,
    },
    /// A call of the core. A queue that it closes has its ring no longer.
    Call(Call),
    /// A call of the core that changes nothing.
    Query(Query),
    /// An administrator hands in a policy, whose rows on rights are to be in force from then on.
    Reload(Boxed<Policy>),
    /// The audit so far is to be handed out, as a part, and another begun.
    Rotate,
}

// A request is small, since each hand moves the whole value.
const _: () = prove!(size_of::<Request>() <= 128);
