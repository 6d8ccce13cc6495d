//! Which queues the load opens, by the policy alone.

ghost use Rattle.std.specs.Prelude.{◌≡◌, ◌++◌, ◌+◌, ◌<◌, IfOk, OnOk};
ghost use Rattle.threads_load.specs.Plans.{can_count_in, can_send_to, client_queues, all_queues, first_region, is_counted_in, planned, queue_for, queues_in};

use aql_packet::{AgentHandle, ClientId, RegionHandle};
use core_model::QUEUES;
use policy::{Kind, Object, Policy, Rights};
use std::alloc::{AllocError, Global};

/// How many bytes of a region the load counts in.
pub const COUNTED_BYTES: u32 = 8;

/// A queue of the load: whose it is, which agent runs its packets, and in which region they count.
#[derive(Clone, Copy, Debug, PartialEq, Eq)]
pub struct PlannedQueue {
    pub client: ClientId,
    pub agent: AgentHandle,
    pub region: RegionHandle,
}

// Whether a client can count in a region: it has room for the number, and the client may be granted to read and to
// write it.
fn can_count_in(policy: &Policy, client: ClientId, region: RegionHandle) -> bool
    ensures { result ≡ can_count_in policy.now client region }
{
    let object = Object::Region(region);
    has_room(policy.region_length(region))
        && policy.allows(client, object, Rights::READ)
        && policy.allows(client, object, Rights::WRITE)
}

// Whether a region of this length, if it is one, has room for the number.
fn has_room(length: Option<u32>) -> bool
    ensures { result ≡ is_counted_in length }
{
    match length {
        None => false,
        Some(bytes) => COUNTED_BYTES <= bytes,
    }
}

// The first region that a client can count in.
fn first_region(policy: &Policy, client: ClientId) -> Option<RegionHandle>
    ensures { result ≡ first_region policy.now client }
{
    for before in 0..policy.object_count(Kind::Region) {
        let region = RegionHandle(before as u32 + 1);
        if can_count_in(policy, client, region) {
            return Some(region);
        }
    }
    None
}

// Whether a client may be granted to use an agent, which takes agent packets.
fn can_send_to(policy: &Policy, client: ClientId, agent: AgentHandle) -> bool
    ensures { result ≡ can_send_to policy.now client agent }
{
    match policy.takes(agent) {
        None => false,
        Some(takes) => takes.agent && policy.allows(client, Object::Agent(agent), Rights::USE),
    }
}

// Puts a client's queue on an agent behind the others, if it can send there.
fn plan_queue(
    policy: &Policy,
    client: ClientId,
    region: RegionHandle,
    agent: AgentHandle,
    queues: &mut Vec<PlannedQueue>,
) -> Result<(), AllocError>
    ensures { OnOk result (queues.new.items ≡ queues.old.items ++ queue_for policy.now client region agent.0) }
{
    if can_send_to(policy, client, agent) {
        queues.push(PlannedQueue {
            client,
            agent,
            region,
        })?;
    }
    Ok(())
}

// Puts a client's queues that count in a region behind the others, in the order of their agents.
fn plan_region(
    policy: &Policy,
    client: ClientId,
    region: RegionHandle,
    queues: &mut Vec<PlannedQueue>,
) -> Result<(), AllocError>
    ensures { OnOk result (queues.new.items ≡ queues.old.items ++ queues_in policy.now client region) }
{
    for before in 0..policy.object_count(Kind::Agent) {
        plan_queue(
            policy,
            client,
            region,
            AgentHandle(before as u32 + 1),
            queues,
        )?;
    }
    Ok(())
}

// Puts a client's queues behind the others.
fn plan_client(
    policy: &Policy,
    client: ClientId,
    queues: &mut Vec<PlannedQueue>,
) -> Result<(), AllocError>
    ensures { OnOk result (queues.new.items ≡ queues.old.items ++ client_queues policy.now client.0) }
{
    match first_region(policy, client) {
        None => Ok(()),
        Some(region) => plan_region(policy, client, region, queues),
    }
}

// The queues of all clients, in order.
fn plan_clients(alloc: Global, policy: &Policy) -> Result<Vec<PlannedQueue>, AllocError>
    ensures { IfOk result (λ queues. queues.items ≡ all_queues policy.now) }
{
    let mut queues = Vec::new(alloc);
    for before in 0..policy.client_count() {
        plan_client(policy, ClientId(before as u32 + 1), &mut queues)?;
    }
    Ok(queues)
}

/// The queues that the load opens over a policy: for each client in order that can count in a region, and each agent in
/// order that the client can send to, one; as many as a core opens at the most.
pub fn plan_load(alloc: Global, policy: &Policy) -> Result<Vec<PlannedQueue>, AllocError>
    ensures { IfOk result (λ queues. queues.items ≡ planned policy.now) }
{
    let mut queues = plan_clients(alloc, policy)?;
    queues.truncate(QUEUES);
    Ok(queues)
}
