//! A world of its own: a policy is read, rights are granted, a queue is opened, and a packet goes through its ring. What
//! each call is owed is said by the contracts of `World`; nothing here has to be proved of it.

use access_core::Kernel;
use aql_packet::{Address, AgentHandle, ClientId, PacketId, QueueId, RegionHandle};
use core_model::{Call, Outcome, Query, Taken};
use policy::{Object, Policy, Rights, read_policy};
use std::alloc::Global;
use world::{Answer, Reply, Request, Sent, World};

/// A world over the policy in a text, which declares no kernels, with places for 1,000 entries.
pub fn open(alloc: Global, text: &[u8]) -> Option<World> {
    let policy = read(alloc, text)?;
    open_over(alloc, policy, Vec::new(alloc))
}

fn read(alloc: Global, text: &[u8]) -> Option<Policy> {
    read_policy(alloc, text).ok()
}

fn open_over(alloc: Global, policy: Policy, kernels: Vec<Kernel>) -> Option<World> {
    World::open(alloc, policy, kernels, 1000).ok()
}

// Each request goes through here: what the world promises of it is then carried once.
fn ask(alloc: Global, world: &mut World, request: Request) -> Reply {
    world.serve(alloc, request)
}

// Asks for something, of which only matters whether it was refused.
fn make_call(alloc: Global, world: &mut World, wanted: Call) -> Option<()> {
    match ask(alloc, world, Request::Call(wanted)) {
        Ok(_) => Some(()),
        Err(_) => None,
    }
}

// The administrator gives a client rights.
fn grant(
    alloc: Global,
    world: &mut World,
    client: ClientId,
    object: Object,
    rights: Rights,
) -> Option<()> {
    let granted = Call::Grant {
        client,
        object,
        rights,
    };
    make_call(alloc, world, granted)
}

// A client opens a queue of two slots for one producer.
fn open_queue(
    alloc: Global,
    world: &mut World,
    client: ClientId,
    agent: AgentHandle,
) -> Option<QueueId> {
    let opening = Request::OpenQueue {
        client,
        agent,
        size: 2,
        producers: 1,
    };
    match ask(alloc, world, opening) {
        Ok(Answer::Core(core_model::Answer::Outcome(Outcome::Opened(queue)))) => Some(queue),
        _ => None,
    }
}

// Producer 1 reserves an id, and publishes a packet under it.
fn publish(alloc: Global, world: &mut World, queue: QueueId, words: &[u64; 8]) -> Option<PacketId> {
    match world.submit(alloc, queue, 1, words) {
        Ok(Sent::Published(packet)) => Some(packet),
        _ => None,
    }
}

// The processor collects the next packet, hands it over, and frees its slot unless it waits.
fn take(alloc: Global, world: &mut World, queue: QueueId) -> Option<Taken> {
    match world.serve_next(alloc, queue) {
        Ok(Some(served)) => Some(served.taken),
        _ => None,
    }
}

// The packet's work is done, and it is completed.
fn finish(alloc: Global, world: &mut World, queue: QueueId, packet: PacketId) -> Option<()> {
    make_call(alloc, world, Call::RunNext { queue, packet })?;
    make_call(alloc, world, Call::Finish { queue, packet })
}

/// Client 1 fills the first four bytes of region 1 by a packet, and reads one of them: that byte, where all was granted and
/// done.
pub fn fill(alloc: Global, world: &mut World) -> Option<u8> {
    let client = ClientId(1);
    let agent = AgentHandle(1);
    let region = Object::Region(RegionHandle(1));
    let address = 1 << 32;
    grant(alloc, world, client, Object::Agent(agent), Rights::USE)?;
    grant(alloc, world, client, region, Rights::READ)?;
    grant(alloc, world, client, region, Rights::WRITE)?;
    let queue = open_queue(alloc, world, client, agent)?;
    // type 4 and function 0x8000, FILL; no return address; a0 the address, a1 four bytes, a2 the byte; no signal
    let words = [0x8000_0004, 0, address, 4, 0x5a, 0, 0, 0];
    let packet = publish(alloc, world, queue, &words)?;
    take(alloc, world, queue)?;
    finish(alloc, world, queue, packet)?;
    read_byte(alloc, world, client, Address(address))
}

// A client reads a byte.
fn read_byte(alloc: Global, world: &mut World, client: ClientId, address: Address) -> Option<u8> {
    let query = Query::HostRead {
        client,
        address,
        length: 1,
    };
    match ask(alloc, world, Request::Query(query)) {
        Ok(Answer::Core(core_model::Answer::Bytes(bytes))) => bytes.as_slice().first().copied(),
        _ => None,
    }
}
