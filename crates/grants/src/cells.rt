//! The table: a cell for each client and object that a policy declares.

ghost use Rattle.std.specs.Box.{boxed_slice_items};
ghost use Rattle.std.specs.Prelude.{ℕ, ◌≡◌, ◌+◌, ◌-◌, ◌<◌, ◌==◌, ◌≤◌, ◌^◌, ◌↔◌, IfOk, true, false, if◌then◌else◌, ◌&&◌, ◌||◌, not, length, replicate, slice_get, slice_set};
ghost use Rattle.std.specs.Option.{is_some};
ghost use Rattle.aql_packet.specs.declared.ids.ClientId.{ClientId};
ghost use Rattle.policy.specs.declared.object.Object.{Object};
ghost use Rattle.policy.specs.Object.{object_of};
ghost use Rattle.policy.specs.declared.rights.Right.{Right};
ghost use Rattle.policy.specs.Rights.{each_right, has};
ghost use Rattle.grants.specs.Pairs.{same_pair, is_one_of};
ghost use Rattle.policy.specs.Policy.{rules_of};
ghost use Rattle.policy.specs.Rules.{are_allowed, knows_client, knows_object, rows_allow};
ghost use Rattle.grants.specs.inner.Counts.{count_in, is_hold_of, SameRights, SameCounts, hold_count, empty_cell, one_for_right, replacement};
ghost use Rattle.grants.specs.inner.Weighing.{has_at};
ghost use Rattle.grants.specs.Cells.{cell_of, has_right, in_table};

use crate::cell::{Cell, cell_at};
use crate::hold::Hold;
use crate::policy_grid::PolicyGrid;
use crate::sets::is_none;
use crate::weighing::{Allowed, rights_at};
use aql_packet::ClientId;
use policy::{Kind, Object, Policy, PolicyRows, Rights};
use std::alloc::{AllocError, Global};
use std::boxed::BoxedSlice;
use std::marker::Model;

/// The rules of a policy, and a cell for each client and object that it declares. A cell is found in
/// one step, by the numbers of client and object; in the same place of a second table stands what the rows in force
/// allow there. All lie in slices of their own, which no call can make longer.
#[derive(Drop)]
pub struct Cells {
    rules: PolicyGrid,
    cells: BoxedSlice<Cell>,
    allowed: Allowed,
}

impl Model for Cells {
    ghost use Rattle.std.specs.Box.{boxed_slice_items};
    ghost use Rattle.std.specs.Prelude.{◌≡◌, ◌*◌, length};
    ghost use Rattle.grants.specs.Cells.{Table, object_count};

    ghost Value = { Table };

    ghost view = { λ table. record { rules = table.rules; cells = boxed_slice_items table.cells } };

    ghost use Rattle.grants.specs.inner.Weighing.{HasRoom, IsAllowedBy};

    // There is a cell in each place, and in each place of the other table stands what the rows allow.
    ghost invariant = { λ table. (length (boxed_slice_items table.cells) ≡ table.rules.clients * object_count table.rules)
        × HasRoom table.rules (boxed_slice_items table.allowed.table) (boxed_slice_items table.allowed.granted) (boxed_slice_items table.allowed.denied)
        × IsAllowedBy table.rules table.rules.rows (boxed_slice_items table.allowed.table) };
}

// This many empty cells.
fn empty_cells(alloc: Global, count: usize) -> Result<BoxedSlice<Cell>, AllocError>
    ensures { IfOk result (λ cells. boxed_slice_items cells ≡ replicate count empty_cell) }
{
    Ok(vec![in alloc; Cell::EMPTY; count]?.into_boxed_slice())
}

// Takes what isn't allowed in its place out of force in a cell.
fn settle_cell(cells: &mut BoxedSlice<Cell>, allowed: Rights, place: usize)
    ensures rights { (other : ℕ) (right : Right) → has_right right (slice_get (boxed_slice_items cells.new) other)
        ≡ (has_right right (slice_get (boxed_slice_items cells.old) other) && (not (other == place) || has allowed right)) }
    ensures held { (other : ℕ) (right : Right) → count_in right (slice_get (boxed_slice_items cells.new) other) ≡ count_in right (slice_get (boxed_slice_items cells.old) other) }
    ensures len { length (boxed_slice_items cells.new) ≡ length (boxed_slice_items cells.old) }
{
    if let Some(cell) = cell_at(cells.as_slice(), place) {
        if !is_none(cell.rights.without(allowed)) {
            put(cells, place, cell.within(allowed));
        }
    }
}

// Takes what isn't allowed in its place out of force in each cell.
fn settle(cells: &mut BoxedSlice<Cell>, allowed: &[Rights])
    ensures rights { (place : ℕ) (right : Right) → has_right right (slice_get (boxed_slice_items cells.new) place)
        ≡ (has_right right (slice_get (boxed_slice_items cells.old) place) && has_at right (slice_get allowed.now place)) }
    ensures held { (place : ℕ) (right : Right) → count_in right (slice_get (boxed_slice_items cells.new) place) ≡ count_in right (slice_get (boxed_slice_items cells.old) place) }
    ensures len { length (boxed_slice_items cells.new) ≡ length (boxed_slice_items cells.old) }
{
    for place in 0..cells.len() {
        settle_cell(cells, rights_at(allowed, place), place);
    }
}

// Puts a cell in a place.
fn put(cells: &mut BoxedSlice<Cell>, place: usize, cell: Cell)
    requires { place < length (boxed_slice_items cells.old) }
    ensures { boxed_slice_items cells.new ≡ slice_set (boxed_slice_items cells.old) place cell }
{
    cells[place] = cell;
}

impl Cells {
    /// An empty cell for each client and object.
    pub fn new(alloc: Global, policy: &Policy) -> Result<Cells, AllocError>
        ensures rules { IfOk result (λ table. table.rules ≡ rules_of policy.now) }
        ensures empty { IfOk result (λ table. (client : ClientId) (object : Object) (right : Right)
            → (in_table table client object right ≡ false) × (hold_count table client object right ≡ 0)) }
    {
        let rules = PolicyGrid::of(alloc, policy)?;
        let cells = empty_cells(alloc, rules.cell_count())?;
        let mut allowed = Allowed::none(alloc, &rules)?;
        allowed.weigh(&rules, policy.rows());
        Ok(Cells {
            rules,
            cells,
            allowed,
        })
    }

    /// The same table in memory of its own.
    pub fn copy(&self, alloc: Global) -> Result<Cells, AllocError>
        ensures { IfOk result (λ copy. copy ≡ self.now) }
    {
        let rules = self.rules.copy(alloc)?;
        let cells = BoxedSlice::from_slice(alloc, self.cells.as_slice())?;
        let allowed = self.allowed.copy(alloc, &self.rules)?;
        Ok(Cells {
            rules,
            cells,
            allowed,
        })
    }

    /// Puts rows on rights in the place of those before, and takes what they don't allow out of force. It takes no
    /// memory.
    pub fn put_rows(&mut self, rows: PolicyRows)
        ensures kept { (client : ClientId) (object : Object) (right : Right) → in_table self.new client object right
            ≡ (in_table self.old client object right && rows_allow rows client object right) }
        ensures counts { (client : ClientId) (object : Object) (right : Right) → hold_count self.new client object right ≡ hold_count self.old client object right }
        ensures rules { self.new.rules ≡ record self.old.rules { rows = rows } }
    {
        self.allowed.weigh(&self.rules, &rows);
        settle(&mut self.cells, self.allowed.table.as_slice());
        self.rules.set_rows(rows);
    }

    /// The same, in exchange for those before, which come back.
    pub fn exchange_rows(&mut self, rows: &mut PolicyRows)
        ensures kept { (client : ClientId) (object : Object) (right : Right) → in_table self.new client object right
            ≡ (in_table self.old client object right && rows_allow rows.old client object right) }
        ensures counts { (client : ClientId) (object : Object) (right : Right) → hold_count self.new client object right ≡ hold_count self.old client object right }
        ensures rules { self.new.rules ≡ record self.old.rules { rows = rows.old } }
    {
        self.allowed.weigh(&self.rules, rows);
        settle(&mut self.cells, self.allowed.table.as_slice());
        self.rules.exchange_rows(rows);
    }

    /// Whether other rows allow all that is in force. The table stays: what it changes is room to reckon in. It takes no
    /// memory.
    pub fn are_allowed_by(&mut self, rows: &PolicyRows) -> bool
        ensures allowed { result ≡ true ↔ ((client : ClientId) (object : Object) (right : Right) → in_table self.old client object right ≡ true → rows_allow rows.now client object right ≡ true) }
        ensures same { self.new ≡ self.old }
    {
        self.allowed.allow(&self.rules, rows, self.cells.as_slice())
    }

    /// Whether both client and object are declared, and the rows allow each of some rights. No row is looked at.
    pub fn allows(&self, client: ClientId, object: Object, rights: Rights) -> bool
        ensures { result ≡ ((knows_client self.now.rules client && knows_object self.now.rules object) && are_allowed self.now.rules client object rights) }
    {
        match self.rules.place_of(client, object) {
            Some(place) => rights_at(self.allowed.table.as_slice(), place).includes(rights),
            None => false,
        }
    }

    /// What the policy declares and allows.
    pub fn rules(&self) -> &PolicyGrid
        ensures { result.now ≡ self.now.rules }
    {
        &self.rules
    }

    /// The cell of a client and an object, if both are declared.
    pub fn get(&self, client: ClientId, object: Object) -> Option<Cell>
        ensures cell { result ≡ cell_of self.now client object }
        ensures declared { is_some result ≡ (knows_client self.now.rules client && knows_object self.now.rules object) }
    {
        let place = self.rules.place_of(client, object)?;
        cell_at(self.cells.as_slice(), place)
    }

    /// The same, of the object of a kind and a number.
    pub fn get_at(&self, client: ClientId, kind: Kind, number: u64) -> Option<Cell>
        ensures { result ≡ cell_of self.now client (object_of kind number) }
    {
        let place = self.rules.place_at(client, kind, number)?;
        cell_at(self.cells.as_slice(), place)
    }

    // Puts a cell in the place of that of a client and an object, if both are declared.
    fn set(&mut self, client: ClientId, object: Object, cell: Cell)
        ensures cells { (client' : ClientId) (object' : Object) → cell_of self.new client' object'
            ≡ (if same_pair client' object' client object then replacement cell (cell_of self.old client' object') else cell_of self.old client' object') }
        ensures rules { self.new.rules ≡ self.old.rules }
    {
        if let Some(place) = self.rules.place_of(client, object) {
            put(&mut self.cells, place, cell);
        }
    }

    /// Puts rights of a declared client on a declared object in force.
    pub fn put_in_force(&mut self, client: ClientId, object: Object, rights: Rights)
        requires { (knows_client self.old.rules client && knows_object self.old.rules object) ≡ true }
        ensures in_force { (client' : ClientId) (object' : Object) (right : Right) → in_table self.new client' object' right
            ≡ (in_table self.old client' object' right || is_one_of client' object' right client object rights) }
        ensures counts { SameCounts self.old self.new }
    {
        if let Some(cell) = self.get(client, object) {
            self.set(client, object, cell.with(rights));
        }
    }

    /// Takes rights of a client on an object out of force.
    pub fn take_out_of_force(&mut self, client: ClientId, object: Object, rights: Rights)
        ensures in_force { (client' : ClientId) (object' : Object) (right : Right) → in_table self.new client' object' right
            ≡ (in_table self.old client' object' right && not (is_one_of client' object' right client object rights)) }
        ensures counts { SameCounts self.old self.new }
    {
        if let Some(cell) = self.get(client, object) {
            self.set(client, object, cell.without(rights));
        }
    }

    /// Counts one hold more, of rights that are in force.
    pub fn count_hold(&mut self, hold: &Hold)
        requires in_force { each_right hold.now.rights (in_table self.old hold.now.client hold.now.object) ≡ true }
        requires fits { (right : Right) → hold_count self.old hold.now.client hold.now.object right < 2 ^ 64 - 1 }
        ensures counts { (client : ClientId) (object : Object) (right : Right) → hold_count self.new client object right
            ≡ hold_count self.old client object right + (if is_hold_of client object right hold.now then 1 else 0) }
        ensures rights { SameRights self.old self.new }
    {
        if let Some(cell) = self.get(hold.client, hold.object) {
            let more = cell.with_hold(hold.rights);
            self.set(hold.client, hold.object, more);
        }
    }

    /// Counts one hold less, of rights that are counted.
    pub fn uncount_hold(&mut self, hold: &Hold)
        requires { (right : Right) → one_for_right hold.now.rights right ≤ hold_count self.old hold.now.client hold.now.object right }
        ensures counts { (client : ClientId) (object : Object) (right : Right) → hold_count self.old client object right
            ≡ hold_count self.new client object right + (if is_hold_of client object right hold.now then 1 else 0) }
        ensures rights { SameRights self.old self.new }
    {
        if let Some(cell) = self.get(hold.client, hold.object) {
            let fewer = cell.without_hold(hold.rights);
            self.set(hold.client, hold.object, fewer);
        }
    }
}
