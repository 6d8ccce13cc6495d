//! A policy: what exists, and which rights may be granted to whom.

ghost use Rattle.std.specs.Prelude.{◌≡◌, ◌<◌, ◌≤◌, ◌↔◌, true, [], length, Some, IfOk, IfSome};
ghost use Rattle.std.specs.Option.{option_copied};
ghost use Rattle.policy.specs.Object.{kind_of, number_of};
ghost use Rattle.policy.specs.Declaring.{DeclaresAs};
ghost use Rattle.policy.specs.Limits.{IsWithinLimits, most_allow_rows, most_deny_rows, most_signals};
ghost use Rattle.policy.specs.Names.{AreDistinct};
ghost use Rattle.policy.specs.Policy.{names, numbered, number_in, names_of, name_in, row_of, rules_of};
ghost use Rattle.policy.specs.Rules.{are_allowed, count, knows_object, knows_client};

use crate::kernel_source::KernelSource;
use crate::object::{Kind, Object};
use crate::rights::Rights;
use crate::row::{RightsRow, Takes};
use crate::rows::PolicyRows;
use crate::table::Table;
use crate::version::Version;
use aql_packet::{AgentHandle, ClientId, KernelObject, RegionHandle, SignalHandle};
use std::alloc::{AllocError, Global};
use std::marker::Model;

/// What a policy declares, in the order of its rows. Clients and the objects of each kind are
/// numbered from 1.
pub struct Policy {
    version: Version,
    clients: Table<()>,
    agents: Table<Takes>,
    regions: Table<u32>,
    signals: Table<i64>,
    kernels: Table<KernelSource>,
    rows: PolicyRows,
}

// Written out for the same reason as that of `Table`.
impl Drop for Policy {
    fn drop(self) {
        let Policy {
            version: _,
            clients: _,
            agents: _,
            regions: _,
            signals: _,
            kernels: _,
            rows: _,
        } = self;
    }
}

impl Model for Policy {
    ghost use Rattle.policy.specs.Policy.{Declared};

    ghost Value = { Declared };

    ghost use Rattle.policy.specs.Inside.{declared_in};
    ghost use Rattle.policy.specs.Limits.{IsWithinLimits};

    ghost view = { declared_in };

    ghost invariant = { λ policy. IsWithinLimits (declared_in policy) };
}

impl Policy {
    // A policy with no rows on rights. It takes no memory.
    pub(crate) fn new(
        alloc: Global,
        version: Version,
        clients: Table<()>,
        agents: Table<Takes>,
        regions: Table<u32>,
        signals: Table<i64>,
        kernels: Table<KernelSource>,
    ) -> Policy
        requires { IsWithinLimits (record {
          version = version;
          clients = names clients;
          agents = agents;
          regions = regions;
          signals = signals;
          kernels = kernels;
          rows = record { allows = []; denies = [] };
        }) }
        ensures { result ≡ record {
          version = version;
          clients = names clients;
          agents = agents;
          regions = regions;
          signals = signals;
          kernels = kernels;
          rows = record { allows = []; denies = [] };
        } }
    {
        Policy {
            version,
            clients,
            agents,
            regions,
            signals,
            kernels,
            rows: PolicyRows::none(alloc),
        }
    }

    /// Puts rows on rights in the place of those before.
    pub fn set_rows(&mut self, rows: PolicyRows)
        requires allows { length rows.allows ≤ most_allow_rows }
        requires denies { length rows.denies ≤ most_deny_rows }
        ensures { self.new ≡ record self.old { rows = rows } }
    {
        self.rows = rows;
    }

    /// The rows on rights alone. It takes no memory.
    pub fn into_rows(self) -> PolicyRows
        ensures rows { result ≡ self.rows }
        ensures limits { IsWithinLimits self }
    {
        let Policy {
            version: _,
            clients: _,
            agents: _,
            regions: _,
            signals: _,
            kernels: _,
            rows,
        } = self;
        rows
    }

    /// The same policy in memory of its own.
    pub fn copy(&self, alloc: Global) -> Result<Policy, AllocError>
        ensures { IfOk result (λ copy. copy ≡ self.now) }
    {
        Ok(Policy {
            version: self.version,
            clients: self.clients.copy()?,
            agents: self.agents.copy()?,
            regions: self.regions.copy()?,
            signals: self.signals.copy()?,
            kernels: self.kernels.copy()?,
            rows: self.rows.copy(alloc)?,
        })
    }

    /// Whether another policy declares the same clients and objects, in the same order and in all their keys.
    pub fn declares_as(&self, other: &Policy) -> bool
        ensures { result ≡ true ↔ DeclaresAs self.now other.now }
    {
        self.clients.is_same(&other.clients)
            & self.agents.is_same(&other.agents)
            & self.regions.is_same(&other.regions)
            & self.signals.is_same(&other.signals)
            & self.kernels.is_same(&other.kernels)
    }

    /// The version of the file that the policy was read from.
    pub fn version(&self) -> Version
        ensures { result ≡ self.now.version }
    {
        self.version
    }

    /// How many clients there are.
    pub fn client_count(&self) -> usize
        ensures count { result ≡ length self.now.clients }
        ensures bound { result ≤ most_signals }
        ensures limits { IsWithinLimits self.now }
    {
        self.clients.len()
    }

    /// How many objects of a kind there are.
    pub fn object_count(&self, kind: Kind) -> usize
        ensures count { result ≡ count (rules_of self.now) kind }
        ensures bound { result ≤ most_signals }
        ensures limits { IsWithinLimits self.now }
    {
        match kind {
            Kind::Agent => self.agents.len(),
            Kind::Region => self.regions.len(),
            Kind::Signal => self.signals.len(),
            Kind::Kernel => self.kernels.len(),
        }
    }

    /// Whether a client is one of the policy's.
    pub fn declares_client(&self, client: ClientId) -> bool
        ensures { result ≡ knows_client (rules_of self.now) client }
    {
        1 <= client.0 && client.0 as usize <= self.client_count()
    }

    /// Whether an object is one of the policy's.
    pub fn declares(&self, object: Object) -> bool
        ensures { result ≡ knows_object (rules_of self.now) object }
    {
        1 <= object.number() && object.number() <= self.object_count(object.kind()) as u64
    }

    /// The client of a name; a name that isn't there is number 0.
    pub fn client_named(&self, name: &[u8]) -> ClientId
        ensures number { result.0 ≡ number_in self.now.clients name.now }
        ensures back { 0 < result.0 → numbered self.now.clients result.0 ≡ Some name.now }
    {
        ClientId(self.clients.number(name))
    }

    /// The name of a client, if it is one of the policy's.
    pub fn client_name(&self, client: ClientId) -> Option<&str>
        ensures name { option_copied result ≡ numbered self.now.clients client.0 }
        ensures back { IfSome result (λ name. number_in self.now.clients name.now ≡ client.0) }
    {
        self.clients.name(client.0 as u64)
    }

    /// The object of a kind and a name; a name that isn't there is number 0.
    pub fn object_named(&self, kind: Kind, name: &[u8]) -> Object
        ensures kind { kind_of result ≡ kind }
        ensures number { number_of result ≡ number_in (names_of self.now kind) name.now }
        ensures back { 0 < number_of result → numbered (names_of self.now kind) (number_of result) ≡ Some name.now }
    {
        match kind {
            Kind::Agent => Object::Agent(AgentHandle(self.agents.number(name))),
            Kind::Region => Object::Region(RegionHandle(self.regions.number(name))),
            Kind::Signal => Object::Signal(SignalHandle(self.signals.number(name) as u64)),
            Kind::Kernel => Object::Kernel(KernelObject(self.kernels.number(name) as u64)),
        }
    }

    /// The name of an object, if it is one of the policy's.
    pub fn object_name(&self, object: Object) -> Option<&str>
        ensures name { option_copied result ≡ name_in self.now object }
        ensures back { IfSome result (λ name. number_in (names_of self.now (kind_of object)) name.now ≡ number_of object) }
    {
        match object {
            Object::Agent(agent) => self.agents.name(agent.0 as u64),
            Object::Region(region) => self.regions.name(region.0 as u64),
            Object::Signal(signal) => self.signals.name(signal.0),
            Object::Kernel(kernel) => self.kernels.name(kernel.0),
        }
    }

    /// Which dispatches an agent takes, if it is one of the policy's.
    pub fn takes(&self, agent: AgentHandle) -> Option<Takes>
        ensures { result ≡ row_of self.now.agents agent.0 }
    {
        self.agents.get(agent.0 as u64).copied()
    }

    /// The length of a region in bytes, if it is one of the policy's.
    pub fn region_length(&self, region: RegionHandle) -> Option<u32>
        ensures { result ≡ row_of self.now.regions region.0 }
    {
        self.regions.get(region.0 as u64).copied()
    }

    /// The value with which a signal begins, if it is one of the policy's.
    pub fn signal_initial(&self, signal: SignalHandle) -> Option<i64>
        ensures { result ≡ row_of self.now.signals signal.0 }
    {
        self.signals.get(signal.0).copied()
    }

    /// The source of a kernel, if it is one of the policy's.
    pub fn kernel_source(&self, kernel: KernelObject) -> Option<&KernelSource>
        ensures { option_copied result ≡ row_of self.now.kernels kernel.0 }
    {
        self.kernels.get(kernel.0)
    }

    /// No two clients, and no two objects of a kind, have the same name.
    pub fn names_are_distinct(&self)
        ensures clients { AreDistinct self.now.clients }
        ensures agents { AreDistinct (names self.now.agents) }
        ensures regions { AreDistinct (names self.now.regions) }
        ensures signals { AreDistinct (names self.now.signals) }
        ensures kernels { AreDistinct (names self.now.kernels) }
    {
        self.clients.names_are_distinct();
        self.agents.names_are_distinct();
        self.regions.names_are_distinct();
        self.signals.names_are_distinct();
        self.kernels.names_are_distinct();
    }

    /// The rows on rights.
    pub fn rows(&self) -> &PolicyRows
        ensures rows { result.now ≡ self.now.rows }
        ensures limits { IsWithinLimits self.now }
    {
        &self.rows
    }

    /// Whether the policy allows each of some rights to a client on an object: for each of them
    /// some allow row covers the client, the object and the right, and no deny row does.
    pub fn allows(&self, client: ClientId, object: Object, rights: Rights) -> bool
        ensures { result ≡ are_allowed (rules_of self.now) client object rights }
    {
        self.rows.allow(client, object, rights)
    }
}
