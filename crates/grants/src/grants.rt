//! Grants and holds.

ghost use Rattle.std.specs.Prelude.{◌≡◌, ◌↔◌, ◌+◌, ◌<◌, ◌≤◌, ◌++◌, ◌∷◌, [], true, None, IfOk, OnOk, OnErr, Ok, length};
ghost use Rattle.policy.specs.declared.rights.Right.{Right};
ghost use Rattle.policy.specs.Object.{object_of};
ghost use Rattle.policy.specs.Rights.{has, each_right, rights_that};
ghost use Rattle.policy.specs.Listing.{objects_of_kind, listing_by};
ghost use Rattle.policy.specs.Policy.{rules_of};
ghost use Rattle.policy.specs.Rules.{count};

use crate::cells::Cells;
use crate::comparing::{are_held_too, includes_all};
use crate::counting::{put_holds, uncount_packet};
use crate::hold::{Hold, drop_holds, first_denied, first_holder, is_held};
use crate::refusal::GrantRefusal;
use crate::sets::known;
use aql_packet::{ClientId, PacketId, QueueId};
use bitflags::Flags;
use policy::{Kind, Object, Policy, PolicyRows, Right, Rights};
use sequences::Sequence;
use std::alloc::{AllocError, Global};
use std::marker::Model;

/// Which rights are in force, and which packets hold them: a right that a packet in flight holds is
/// not taken away. The rights stand in a table of a cell for each client and object, with how many
/// holds there are of each; the list of the holds names the packet that stands against a revocation.
#[derive(Drop)]
pub struct Grants {
    table: Cells,
    holds: Vec<Hold>,
}

impl Model for Grants {
    ghost use Rattle.std.specs.Prelude.{◌-◌, vec_len, vec_capacity};
    ghost use Rattle.grants.specs.inner.Counts.{IsCounted};
    ghost use Rattle.grants.specs.Ledger.{Ledger};

    ghost Value = { Ledger };

    ghost view = { λ grants. record {
      table = grants.table;
      list = grants.holds.items;
      room = vec_capacity grants.holds - vec_len grants.holds;
    } };

    ghost invariant = { λ grants. IsCounted grants.table grants.holds.items };
}

impl Grants {
    ghost use Rattle.grants.specs.Ledger.{IsNew, PutsInForce, TakesOutOfForce, Holds, Releases, Reloads, RevokeAnswers, IsBlockedBy, IsCopy, SameGrants, AllowsInForce, rules_in, in_force, holds, grant_due, rights_on, are_in_force, listing, places};

    /// No right is in force yet, and no packet holds one.
    pub fn new(alloc: Global, policy: &Policy) -> Result<Grants, AllocError>
        ensures rules { IfOk result (λ grants. rules_in grants ≡ rules_of policy.now) }
        ensures none { IfOk result IsNew }
    {
        Ok(Grants {
            table: Cells::new(alloc, policy)?,
            holds: Vec::new(alloc),
        })
    }

    /// Gives a client rights on an object. It is refused as `may_grant` says. A right in force stays
    /// so. It takes no memory.
    pub fn grant(
        &mut self,
        client: ClientId,
        object: Object,
        rights: Rights,
    ) -> Result<(), GrantRefusal>
        ensures answer { result ≡ grant_due self.old client object rights }
        ensures ok { OnOk result (PutsInForce self.old self.new client object rights) }
        ensures err { OnErr result (self.new ≡ self.old) }
    {
        self.may_grant(client, object, rights)?;
        self.put_in_force(client, object, rights);
        Ok(())
    }

    /// Whether rights on an object may be granted to a client. It is refused, in this order, for a
    /// client or an object that the policy doesn't declare, or a right that it doesn't allow.
    pub fn may_grant(
        &self,
        client: ClientId,
        object: Object,
        rights: Rights,
    ) -> Result<(), GrantRefusal>
        ensures { result ≡ grant_due self.now client object rights }
    {
        let rules = self.table.rules();
        if !rules.knows_client(client) {
            return Err(GrantRefusal::UnknownClient);
        }
        if !rules.knows(object) {
            return Err(GrantRefusal::UnknownObject);
        }
        if !self.table.allows(client, object, rights) {
            return Err(GrantRefusal::NotAllowed);
        }
        Ok(())
    }

    /// Puts a client's rights on an object in force, which `may_grant` allows.
    pub fn put_in_force(&mut self, client: ClientId, object: Object, rights: Rights)
        requires { grant_due self.old client object rights ≡ Ok tt }
        ensures { PutsInForce self.old self.new client object rights }
    {
        self.table.put_in_force(client, object, rights);
    }

    /// Takes rights on an object from a client. It is refused as `may_revoke` says. A right that
    /// isn't in force stays so. It takes no memory.
    pub fn revoke(
        &mut self,
        client: ClientId,
        object: Object,
        rights: Rights,
    ) -> Result<(), GrantRefusal>
        ensures answer { RevokeAnswers self.old client object rights result }
        ensures ok { OnOk result (TakesOutOfForce self.old self.new client object rights) }
        ensures err { OnErr result (self.new ≡ self.old) }
    {
        self.may_revoke(client, object, rights)?;
        self.take_out_of_force(client, object, rights);
        Ok(())
    }

    /// Whether rights on an object may be taken from a client. It is refused, in this order, for a
    /// client or an object that the policy doesn't declare, or while a packet of a queue of the client
    /// holds one of the rights; of these packets the one with the least queue is named, and of that
    /// queue the one with the least id.
    pub fn may_revoke(
        &self,
        client: ClientId,
        object: Object,
        rights: Rights,
    ) -> Result<(), GrantRefusal>
        ensures { RevokeAnswers self.now client object rights result }
    {
        let rules = self.table.rules();
        if !rules.knows_client(client) {
            return Err(GrantRefusal::UnknownClient);
        }
        let Some(cell) = self.table.get(client, object) else {
            return Err(GrantRefusal::UnknownObject);
        };
        if !cell.is_held(rights) {
            return Ok(());
        }
        match first_holder(self.holds.as_slice(), client, object, rights) {
            Some((queue, packet)) => Err(GrantRefusal::Busy { queue, packet }),
            None => Ok(()),
        }
    }

    /// Takes a client's rights on an object out of force, which `may_revoke` allows.
    pub fn take_out_of_force(&mut self, client: ClientId, object: Object, rights: Rights)
        requires { RevokeAnswers self.old client object rights (Ok tt) }
        ensures { TakesOutOfForce self.old self.new client object rights }
    {
        self.table.take_out_of_force(client, object, rights);
    }

    /// The rights of a client on an object.
    pub fn in_force(&self, client: ClientId, object: Object) -> Rights
        ensures set { result ≡ rights_on self.now client object }
        ensures each { (right : Right) → has result right ≡ in_force self.now client object right }
    {
        match self.table.get(client, object) {
            Some(cell) => known(cell.rights),
            None => Rights::NONE,
        }
    }

    /// Whether a client's right on an object is in force.
    pub fn is_in_force(&self, client: ClientId, object: Object, right: Right) -> bool
        ensures { result ≡ in_force self.now client object right }
    {
        self.stands(client, object.kind(), object.number(), right)
    }

    // Whether a client's right on the object of a kind and a number is in force. It is called, not laid into its callers, so
    // that the judging of a packet stays in one piece; and with plain numbers, so that no object is put into memory for it.
    #[inline(never)]
    fn stands(&self, client: ClientId, kind: Kind, number: u64, right: Right) -> bool
        ensures { result ≡ in_force self.now client (object_of kind number) right }
    {
        match self.table.get_at(client, kind, number) {
            Some(cell) => cell.rights.has(right),
            None => false,
        }
    }

    /// Whether each of some rights on objects is in force for a client.
    pub fn are_in_force(&self, client: ClientId, rights: &[(Object, Rights)]) -> bool
        ensures { result ≡ are_in_force self.now client rights.now }
    {
        rights
            .iter()
            .all(|named| self.has_all(client, named.0, named.1))
    }

    // Whether each of some rights on an object is in force for a client.
    fn has_all(&self, client: ClientId, object: Object, rights: Rights) -> bool
        ensures { result ≡ each_right rights (in_force self.now client object) }
    {
        self.in_force(client, object).includes(rights)
    }

    /// Has a packet of a queue of a client hold rights on objects, each of which is in force for the
    /// client. Of an object that is named twice the rights of both are held; a packet that holds
    /// rights already holds these beside them.
    pub fn hold(
        &mut self,
        client: ClientId,
        queue: QueueId,
        packet: PacketId,
        rights: &[(Object, Rights)],
    ) -> Result<(), AllocError>
        requires { are_in_force self.old client rights.now ≡ true }
        ensures ok { OnOk result (Holds self.old self.new client queue packet rights.now) }
        ensures err { OnErr result (self.new ≡ self.old) }
        ensures full { OnErr result (self.old.room < length rights.now) }
    {
        self.reserve(rights.len())?;
        self.hold_reserved(client, queue, packet, rights);
        Ok(())
    }

    /// Gets room for holds on this many further objects, so that `hold_reserved` can have a packet
    /// hold them. Room is never lost.
    pub fn reserve(&mut self, further: usize) -> Result<(), AllocError>
        ensures ok { OnOk result (further ≤ self.new.room) }
        ensures err { OnErr result (self.new ≡ self.old) }
        ensures full { OnErr result (self.old.room < further) }
        ensures same { self.new ≡ record self.old { room = self.new.room } }
        ensures room { self.old.room ≤ self.new.room }
    {
        self.holds.reserve(further)
    }

    /// Has a packet hold rights as `hold` does, in room that was got before. It takes no memory.
    pub fn hold_reserved(
        &mut self,
        client: ClientId,
        queue: QueueId,
        packet: PacketId,
        rights: &[(Object, Rights)],
    )
        requires in_force { are_in_force self.old client rights.now ≡ true }
        requires room { length rights.now ≤ self.old.room }
        ensures holds { Holds self.old self.new client queue packet rights.now }
        ensures room { self.new.room + length rights.now ≡ self.old.room }
        ensures places { places self.new ≡ places self.old }
    {
        put_holds(
            &mut self.table,
            &mut self.holds,
            client,
            queue,
            packet,
            rights,
        );
    }

    /// Has a packet hold nothing any more; a packet that holds nothing changes nothing. It takes no
    /// memory.
    pub fn release(&mut self, queue: QueueId, packet: PacketId)
        ensures { Releases self.old self.new queue packet }
    {
        uncount_packet(&mut self.table, self.holds.as_slice(), queue, packet);
        drop_holds(&mut self.holds, queue, packet);
    }

    /// The first packet, by queue and then by id, that holds a right that a policy doesn't allow, over all
    /// clients. It takes no memory.
    pub fn blocked(&self, policy: &Policy) -> Option<(QueueId, PacketId)>
        ensures { IsBlockedBy self.now policy.now.rows result }
    {
        self.blocked_by(policy.rows())
    }

    /// The same by rows on rights alone.
    pub fn blocked_by(&self, rows: &PolicyRows) -> Option<(QueueId, PacketId)>
        ensures { IsBlockedBy self.now rows.now result }
    {
        first_denied(self.holds.as_slice(), rows)
    }

    /// Whether rows on rights allow all that is in force, over all clients and objects. What is in force and held stays: it
    /// is asked of `&mut self` for room to reckon in. It takes no memory, and looks at no packet.
    pub fn are_allowed_by(&mut self, rows: &PolicyRows) -> bool
        ensures allowed { result ≡ true ↔ AllowsInForce self.old rows.now }
        ensures same { self.new ≡ self.old }
    {
        self.table.are_allowed_by(rows)
    }

    /// The rows on rights by which grants are allowed.
    pub fn rows(&self) -> &PolicyRows
        ensures { result.now ≡ (rules_in self.now).rows }
    {
        self.table.rules().rows()
    }

    /// Takes all rights that another policy doesn't allow out of force; from then on it decides what may be
    /// granted. It declares the same clients and objects, and allows all that is held.
    pub fn reload(&mut self, alloc: Global, policy: &Policy) -> Result<(), AllocError>
        requires declared { rules_of policy.now ≡ record (rules_in self.old) { rows = policy.now.rows } }
        requires allowed { IsBlockedBy self.old policy.now.rows None }
        ensures ok { OnOk result (Reloads self.old self.new policy.now.rows) }
        ensures err { OnErr result (self.new ≡ self.old) }
    {
        let rows = policy.rows().copy(alloc)?;
        self.put_rows(rows);
        Ok(())
    }

    /// Puts the rows of another policy in force as `reload` does, in memory that was got before. It takes none.
    pub fn put_rows(&mut self, rows: PolicyRows)
        requires { IsBlockedBy self.old rows None }
        ensures { Reloads self.old self.new rows }
    {
        self.table.put_rows(rows);
    }

    /// The same, in exchange for the rows before, which come back.
    pub fn exchange_rows(&mut self, rows: &mut PolicyRows)
        requires { IsBlockedBy self.old rows.old None }
        ensures { Reloads self.old self.new rows.old }
    {
        self.table.exchange_rows(rows);
    }

    /// The same grants and holds in memory of their own, with no more room than they take.
    pub fn copy(&self, alloc: Global) -> Result<Grants, AllocError>
        ensures { IfOk result (IsCopy self.now) }
    {
        Ok(Grants {
            table: self.table.copy(alloc)?,
            holds: Vec::from_slice(alloc, self.holds.as_slice())?,
        })
    }

    /// Whether other grants have the same rights in force, and the same packets hold the same. Room, and the order
    /// in which holds came, don't count. It takes no memory.
    pub fn is_same(&self, other: &Grants) -> bool
        ensures { result ≡ true ↔ SameGrants self.now other.now }
    {
        includes_all(&self.table, &other.table)
            & includes_all(&other.table, &self.table)
            & are_held_too(self.holds.as_slice(), other.holds.as_slice())
            & are_held_too(other.holds.as_slice(), self.holds.as_slice())
    }

    /// The rights on an object that a packet holds, of a queue of a client.
    pub fn rights_held(
        &self,
        queue: QueueId,
        packet: PacketId,
        client: ClientId,
        object: Object,
    ) -> Rights
        ensures { result ≡ rights_that (holds self.now queue packet client object) }
    {
        let holds = self.holds.as_slice();
        Rights::from_each(
            is_held(holds, queue, packet, client, object, Right::Use),
            is_held(holds, queue, packet, client, object, Right::Read),
            is_held(holds, queue, packet, client, object, Right::Write),
            is_held(holds, queue, packet, client, object, Right::Wait),
            is_held(holds, queue, packet, client, object, Right::Change),
            is_held(holds, queue, packet, client, object, Right::Launch),
        )
    }

    /// The objects on which a client has a right, with its rights: agents, regions, signals, kernels,
    /// each by number. A client without rights is listed in no memory.
    pub fn list(
        &self,
        alloc: Global,
        client: ClientId,
    ) -> Result<Sequence<(Object, Rights)>, AllocError>
        ensures rows { IfOk result (λ rows. rows ≡ listing self.now client) }
        ensures lacks { OnErr result (0 < length (listing self.now client)) }
    {
        let mut rows = Sequence::new(alloc);
        self.list_kinds(&mut rows, client)?;
        Ok(rows)
    }

    // Puts the objects on which the client has a right behind the others.
    fn list_kinds(
        &self,
        rows: &mut Sequence<(Object, Rights)>,
        client: ClientId,
    ) -> Result<(), AllocError>
        ensures rows { OnOk result (rows.new ≡ rows.old ++ listing self.now client) }
        ensures lacks { OnErr result (0 < length (listing self.now client)) }
    {
        self.list_kind(rows, client, Kind::Agent)?;
        self.list_kind(rows, client, Kind::Region)?;
        self.list_kind(rows, client, Kind::Signal)?;
        self.list_kind(rows, client, Kind::Kernel)?;
        Ok(())
    }

    // Puts the objects of a kind on which the client has a right behind the others.
    fn list_kind(
        &self,
        rows: &mut Sequence<(Object, Rights)>,
        client: ClientId,
        kind: Kind,
    ) -> Result<(), AllocError>
        ensures rows { OnOk result (rows.new ≡ rows.old ++ listing_by (in_force self.now client) (objects_of_kind (count (rules_in self.now)) kind)) }
        ensures lacks { OnErr result (0 < length (listing_by (in_force self.now client) (objects_of_kind (count (rules_in self.now)) kind))) }
    {
        for before in 0..self.table.rules().count(kind) {
            self.list_object(rows, client, Object::of(kind, before as u64 + 1))?;
        }
        Ok(())
    }

    // Puts an object on which the client has a right behind the others.
    #[tactic(auto, unfolding(policy::specs::Listing::listing_by))]
    fn list_object(
        &self,
        rows: &mut Sequence<(Object, Rights)>,
        client: ClientId,
        object: Object,
    ) -> Result<(), AllocError>
        ensures rows { OnOk result (rows.new ≡ rows.old ++ listing_by (in_force self.now client) (object ∷ [])) }
        ensures lacks { OnErr result (0 < length (listing_by (in_force self.now client) (object ∷ []))) }
    {
        let rights = self.in_force(client, object);
        if !rights.is_empty() {
            rows.push((object, rights))?;
        }
        Ok(())
    }
}
