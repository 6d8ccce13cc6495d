//! What grants keep of a policy.

ghost use Rattle.std.specs.Prelude.{◌≡◌, ◌≤◌, ◌*◌, ◌+◌, ◌-◌, ◌&&◌, IfOk, Some, None, if◌then◌else◌, nat_le, nat_lt};

use aql_packet::ClientId;
use policy::{Kind, Object, Policy, PolicyRows, Target};
use std::alloc::{AllocError, Global};
use std::marker::Model;
use std::mem::swap;

/// How many clients and objects a policy declares, and its rows on rights.
#[derive(Drop)]
pub struct PolicyGrid {
    clients: usize,
    agents: usize,
    regions: usize,
    signals: usize,
    kernels: usize,
    objects: usize,
    rows: PolicyRows,
}

impl Model for PolicyGrid {
    ghost use Rattle.policy.specs.Rules.{Rules};

    ghost Value = { Rules };

    ghost view = { λ grid. record {
      clients = grid.clients;
      agents = grid.agents;
      regions = grid.regions;
      signals = grid.signals;
      kernels = grid.kernels;
      rows = grid.rows;
    } };

    ghost use Rattle.std.specs.Prelude.{◌≡◌, ◌≤◌, ◌+◌};

    ghost invariant = { λ grid. ((((grid.clients ≤ 1024) × (grid.agents ≤ 1024)) × (grid.regions ≤ 1024)) × (grid.signals ≤ 1024)) × (grid.kernels ≤ 1024)
        × (grid.objects ≡ grid.agents + grid.regions + grid.signals + grid.kernels) };
}

// The place of the object with this number, of so many of its kind, behind so many others.
fn place_behind(others: usize, count: usize, number: u64) -> Option<usize>
    requires { (others ≤ 3072) × (count ≤ 1024) }
    ensures { result ≡ (if nat_lt 0 number && nat_le number count then Some (others + (number - 1)) else None) }
{
    if number < 1 || number > count as u64 {
        return None;
    }
    Some(others + (number as usize - 1))
}

impl PolicyGrid {
    ghost use Rattle.policy.specs.Policy.{rules_of};
    ghost use Rattle.std.specs.Prelude.{true};
    ghost use Rattle.policy.specs.Object.{number_of, object_of};
    ghost use Rattle.policy.specs.Rules.{count, knows_client, knows_object};
    ghost use Rattle.grants.specs.Cells.{object_count, object_place, objects_before, place_of};
    ghost use Rattle.grants.specs.inner.Weighing.{kind_place, kind_place_at, target_place};

    /// What grants keep of a policy.
    pub fn of(alloc: Global, policy: &Policy) -> Result<PolicyGrid, AllocError>
        ensures { IfOk result (λ grid. grid ≡ rules_of policy.now) }
    {
        let agents = policy.object_count(Kind::Agent);
        let regions = policy.object_count(Kind::Region);
        let signals = policy.object_count(Kind::Signal);
        let kernels = policy.object_count(Kind::Kernel);
        Ok(PolicyGrid {
            clients: policy.client_count(),
            agents,
            regions,
            signals,
            kernels,
            objects: agents + regions + signals + kernels,
            rows: policy.rows().copy(alloc)?,
        })
    }

    /// The same in memory of its own.
    pub fn copy(&self, alloc: Global) -> Result<PolicyGrid, AllocError>
        ensures { IfOk result (λ copy. copy ≡ self.now) }
    {
        Ok(PolicyGrid {
            clients: self.clients,
            agents: self.agents,
            regions: self.regions,
            signals: self.signals,
            kernels: self.kernels,
            objects: self.objects,
            rows: self.rows.copy(alloc)?,
        })
    }

    /// Puts rows on rights in the place of those before.
    pub fn set_rows(&mut self, rows: PolicyRows)
        ensures { self.new ≡ record self.old { rows = rows } }
    {
        self.rows = rows;
    }

    /// Exchanges the rows on rights for others.
    pub fn exchange_rows(&mut self, rows: &mut PolicyRows)
        ensures grid { self.new ≡ record self.old { rows = rows.old } }
        ensures rows { rows.new ≡ self.old.rows }
    {
        swap(&mut self.rows, rows);
    }

    /// The rows on rights.
    pub fn rows(&self) -> &PolicyRows
        ensures { result.now ≡ self.now.rows }
    {
        &self.rows
    }

    /// How many clients there are.
    pub fn client_count(&self) -> usize
        ensures count { result ≡ self.now.clients }
        ensures bound { result ≤ 1024 }
    {
        self.clients
    }

    /// How many objects of a kind there are.
    pub fn count(&self, kind: Kind) -> usize
        ensures count { result ≡ count self.now kind }
        ensures bound { result ≤ 1024 }
    {
        match kind {
            Kind::Agent => self.agents,
            Kind::Region => self.regions,
            Kind::Signal => self.signals,
            Kind::Kernel => self.kernels,
        }
    }

    /// How many objects there are.
    pub fn object_count(&self) -> usize
        ensures count { result ≡ object_count self.now }
        ensures bound { result ≤ 4096 }
    {
        self.objects
    }

    /// How many objects come before those of a kind.
    pub fn objects_before(&self, kind: Kind) -> usize
        ensures count { result ≡ objects_before self.now kind }
        ensures bound { result ≤ 3072 }
    {
        match kind {
            Kind::Agent => 0,
            Kind::Region => self.agents,
            Kind::Signal => self.agents + self.regions,
            Kind::Kernel => self.agents + self.regions + self.signals,
        }
    }

    /// How many cells a table needs: one for each client and object.
    pub fn cell_count(&self) -> usize
        ensures { result ≡ self.now.clients * object_count self.now }
    {
        self.clients * self.object_count()
    }

    /// The place of the cell of a client and an object, if both are declared: the clients' rows one
    /// after another, and in each the objects, kind by kind.
    pub fn place_of(&self, client: ClientId, object: Object) -> Option<usize>
        ensures { result ≡ place_of self.now client object }
    {
        if !self.knows_client(client) {
            return None;
        }
        let place = self.object_place(object)?;
        Some((client.0 as usize - 1) * self.objects + place)
    }

    /// The place of the cell of a client and the object of a kind and a number, if both are declared.
    pub fn place_at(&self, client: ClientId, kind: Kind, number: u64) -> Option<usize>
        ensures { result ≡ place_of self.now client (object_of kind number) }
    {
        if !self.knows_client(client) {
            return None;
        }
        let place = self.place_of_number(kind, number)?;
        Some((client.0 as usize - 1) * self.objects + place)
    }

    /// Whether the client is declared.
    pub fn knows_client(&self, client: ClientId) -> bool
        ensures { result ≡ knows_client self.now client }
    {
        1 <= client.0 && client.0 as usize <= self.clients
    }

    /// Whether the object is declared.
    pub fn knows(&self, object: Object) -> bool
        ensures known { result ≡ knows_object self.now object }
        ensures bound { result ≡ true → number_of object ≤ 1024 }
    {
        1 <= object.number() && object.number() <= self.count(object.kind()) as u64
    }

    /// How many places there are in a line of one for each object and kind.
    pub fn line_length(&self) -> usize
        ensures { result ≡ object_count self.now + 4 }
    {
        self.object_count() + 4
    }

    /// The place of what a row on rights is on, in a line of one for each object and, behind these, each kind.
    pub fn target_place(&self, target: Target) -> Option<usize>
        ensures { result ≡ target_place self.now target }
    {
        match target {
            Target::Any(kind) => Some(self.kind_place(kind)),
            Target::One(object) => self.object_place(object),
        }
    }

    // The place of an object among all, if it is declared.
    fn object_place(&self, object: Object) -> Option<usize>
        ensures { result ≡ (if knows_object self.now object then Some (object_place self.now object) else None) }
    {
        match object {
            Object::Agent(agent) => self.place_of_number(Kind::Agent, agent.0 as u64),
            Object::Region(region) => self.place_of_number(Kind::Region, region.0 as u64),
            Object::Signal(signal) => self.place_of_number(Kind::Signal, signal.0),
            Object::Kernel(kernel) => self.place_of_number(Kind::Kernel, kernel.0),
        }
    }

    // The place of the object of a kind and a number among all, if it is declared.
    fn place_of_number(&self, kind: Kind, number: u64) -> Option<usize>
        ensures { result ≡ (if knows_object self.now (object_of kind number) then Some (object_place self.now (object_of kind number)) else None) }
    {
        match kind {
            Kind::Agent => place_behind(0, self.agents, number),
            Kind::Region => place_behind(self.agents, self.regions, number),
            Kind::Signal => place_behind(self.agents + self.regions, self.signals, number),
            Kind::Kernel => place_behind(
                self.agents + self.regions + self.signals,
                self.kernels,
                number,
            ),
        }
    }

    /// The place of all objects of a kind in such a line.
    pub fn kind_place(&self, kind: Kind) -> usize
        ensures { result ≡ kind_place self.now kind }
    {
        let objects = self.object_count();
        match kind {
            Kind::Agent => objects,
            Kind::Region => objects + 1,
            Kind::Signal => objects + 2,
            Kind::Kernel => objects + 3,
        }
    }

    /// In such a line the place of the kind of the object in a place.
    pub fn kind_place_at(&self, place: usize) -> usize
        ensures { result ≡ kind_place_at self.now place }
    {
        let objects = self.object_count();
        if place < self.agents {
            objects
        } else if place < self.agents + self.regions {
            objects + 1
        } else if place < self.agents + self.regions + self.signals {
            objects + 2
        } else {
            objects + 3
        }
    }
}
