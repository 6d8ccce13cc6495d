//! What a policy declares is gathered by its own questions.

use crate::declared::{Agent, Allowed, Client, Declared, Kernel, Region, Signal};
use aql_packet::{AgentHandle, ClientId, KernelObject, REGION_SPAN, RegionHandle, SignalHandle};
use policy::{Kind, Object, Policy, Right, Rights};
use std::alloc::{AllocError, Global};

// How many objects of a kind there are.
fn count_of(policy: &Policy, kind: Kind) -> u32 {
    policy.object_count(kind) as u32
}

// How many clients there are.
fn clients_of(policy: &Policy) -> u32 {
    policy.client_count() as u32
}

// A row of a policy that is read by its number.
trait Row<'a>: Copy {
    fn of(policy: &'a Policy, number: u32) -> Option<Self>;
}

impl<'a> Row<'a> for Client<'a> {
    fn of(policy: &'a Policy, number: u32) -> Option<Client<'a>> {
        let name = policy.client_name(ClientId(number))?;
        Some(Client { number, name })
    }
}

impl<'a> Row<'a> for Agent<'a> {
    fn of(policy: &'a Policy, number: u32) -> Option<Agent<'a>> {
        let agent = AgentHandle(number);
        let name = policy.object_name(Object::Agent(agent))?;
        let takes = policy.takes(agent)?;
        Some(Agent {
            number,
            name,
            takes_kernel: takes.kernel,
            takes_agent: takes.agent,
        })
    }
}

impl<'a> Row<'a> for Region<'a> {
    fn of(policy: &'a Policy, number: u32) -> Option<Region<'a>> {
        let region = RegionHandle(number);
        let name = policy.object_name(Object::Region(region))?;
        let length = policy.region_length(region)?;
        Some(Region {
            number,
            name,
            address: (number as u64).saturating_mul(REGION_SPAN),
            length,
        })
    }
}

impl<'a> Row<'a> for Signal<'a> {
    fn of(policy: &'a Policy, number: u32) -> Option<Signal<'a>> {
        let signal = SignalHandle(number as u64);
        let name = policy.object_name(Object::Signal(signal))?;
        let initial = policy.signal_initial(signal)?;
        Some(Signal {
            number,
            name,
            initial,
        })
    }
}

impl<'a> Row<'a> for Kernel<'a> {
    fn of(policy: &'a Policy, number: u32) -> Option<Kernel<'a>> {
        let kernel = KernelObject(number as u64);
        let name = policy.object_name(Object::Kernel(kernel))?;
        let entry = policy.kernel_source(kernel)?.entry();
        Some(Kernel {
            number,
            name,
            entry,
        })
    }
}

// The names of the rights of a set.
fn names_of(alloc: Global, rights: Rights) -> Result<Vec<&'static str>, AllocError> {
    let mut names = Vec::new(alloc);
    for right in Right::ALL {
        if rights.has(right) {
            names.push(right.name())?;
        }
    }
    Ok(names)
}

// Adds what a client is allowed on an object, if it is anything.
fn push_allowed<'a>(
    alloc: Global,
    policy: &'a Policy,
    client: Client<'a>,
    object: Object,
    number: u32,
    allowed: &mut Vec<Allowed<'a>>,
) -> Result<(), AllocError> {
    let rights = policy.rows().allowed(ClientId(client.number), object);
    if rights == Rights::NONE {
        return Ok(());
    }
    let Some(name) = policy.object_name(object) else {
        return Ok(());
    };
    let rights = names_of(alloc, rights)?;
    allowed.push(Allowed {
        client: client.name,
        kind: object.kind().name(),
        number,
        name,
        rights,
    })?;
    Ok(())
}

// Adds what a client is allowed on the objects of a kind.
fn push_kind<'a>(
    alloc: Global,
    policy: &'a Policy,
    client: Client<'a>,
    kind: Kind,
    allowed: &mut Vec<Allowed<'a>>,
) -> Result<(), AllocError> {
    for number in 1..=count_of(policy, kind) {
        let object = Object::of(kind, number as u64);
        push_allowed(alloc, policy, client, object, number, allowed)?;
    }
    Ok(())
}

// What the clients are allowed.
fn allowed_of<'a>(
    alloc: Global,
    policy: &'a Policy,
    clients: &[Client<'a>],
) -> Result<Vec<Allowed<'a>>, AllocError> {
    let mut allowed = Vec::new(alloc);
    for client in clients {
        for kind in Kind::ALL {
            push_kind(alloc, policy, *client, kind, &mut allowed)?;
        }
    }
    Ok(allowed)
}

// The rows of the numbers from 1 to a count.
fn rows_of<'a, T: Row<'a>>(
    alloc: Global,
    policy: &'a Policy,
    count: u32,
) -> Result<Vec<T>, AllocError> {
    let mut rows = Vec::new(alloc);
    for number in 1..=count {
        if let Some(row) = T::of(policy, number) {
            rows.push(row)?;
        }
    }
    Ok(rows)
}

// The rows of a kind.
fn kind_of<'a, T: Row<'a>>(
    alloc: Global,
    policy: &'a Policy,
    kind: Kind,
) -> Result<Vec<T>, AllocError> {
    rows_of(alloc, policy, count_of(policy, kind))
}

/// What a policy declares and allows, in the policy's order. It fails only where memory is wanted and not to be had.
pub fn gather(alloc: Global, policy: &Policy) -> Result<Declared<'_>, AllocError> {
    let clients = rows_of(alloc, policy, clients_of(policy))?;
    let allowed = allowed_of(alloc, policy, clients.as_slice())?;
    let agents = kind_of(alloc, policy, Kind::Agent)?;
    let regions = kind_of(alloc, policy, Kind::Region)?;
    let signals = kind_of(alloc, policy, Kind::Signal)?;
    let kernels = kind_of(alloc, policy, Kind::Kernel)?;
    Ok(Declared {
        clients,
        agents,
        regions,
        signals,
        kernels,
        allowed,
    })
}
