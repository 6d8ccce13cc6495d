//! What rows on rights allow each client on each object, reckoned for all of them at once.

ghost use Rattle.std.specs.Box.{boxed_slice_items};
ghost use Rattle.std.specs.Prelude.{IfOk, ℕ, true, ◌↔◌, ◌≡◌, ◌+◌, ◌*◌, ◌<◌, ◌&&◌, ◌||◌, not, length, replicate, slice_get, slice_set};
ghost use Rattle.policy.specs.declared.rights.Right.{Right};
ghost use Rattle.policy.specs.declared.rows.PolicyRows.{PolicyRows};
ghost use Rattle.policy.specs.Rights.{has};
ghost use Rattle.policy.specs.Rules.{count, is_for};
ghost use Rattle.grants.specs.Cells.{object_count, objects_before};
ghost use Rattle.grants.specs.inner.Weighing.{AllowsUpTo, AreWithin, HasRoom, IsAllowedBy, IsFilled, IsLine, IsWithin, covers_place, has_at, no_rights, settled_at};

use crate::cell::{Cell, cell_at};
use crate::policy_grid::PolicyGrid;
use crate::sets::{is_none, union};
use aql_packet::ClientId;
use policy::{Grantee, Kind, PolicyRows, Rights, RightsRow};
use std::alloc::{AllocError, Global};
use std::boxed::BoxedSlice;

/// What rows allow in the place of each cell, with two lines to reckon it in. None of the three gets longer.
#[derive(Drop)]
pub struct Allowed {
    /// What is allowed in each place.
    pub table: BoxedSlice<Rights>,
    /// What is granted one client.
    granted: BoxedSlice<Rights>,
    /// What is denied one client.
    denied: BoxedSlice<Rights>,
}

impl Allowed {
    /// A place for each cell, and nothing allowed in any.
    pub fn none(alloc: Global, rules: &PolicyGrid) -> Result<Allowed, AllocError>
        ensures { IfOk result (λ allowed. HasRoom rules.now (boxed_slice_items allowed.table) (boxed_slice_items allowed.granted) (boxed_slice_items allowed.denied)) }
    {
        let table = no_rights(alloc, rules.cell_count())?;
        let granted = no_rights(alloc, rules.line_length())?;
        let denied = no_rights(alloc, rules.line_length())?;
        Ok(Allowed {
            table,
            granted,
            denied,
        })
    }

    /// The same table in memory of its own.
    pub fn copy(&self, alloc: Global, rules: &PolicyGrid) -> Result<Allowed, AllocError>
        requires { HasRoom rules.now (boxed_slice_items self.now.table) (boxed_slice_items self.now.granted) (boxed_slice_items self.now.denied) }
        ensures room { IfOk result (λ copy. HasRoom rules.now (boxed_slice_items copy.table) (boxed_slice_items copy.granted) (boxed_slice_items copy.denied)) }
        ensures table { IfOk result (λ copy. boxed_slice_items copy.table ≡ boxed_slice_items self.now.table) }
    {
        let table = BoxedSlice::from_slice(alloc, self.table.as_slice())?;
        let granted = no_rights(alloc, rules.line_length())?;
        let denied = no_rights(alloc, rules.line_length())?;
        Ok(Allowed {
            table,
            granted,
            denied,
        })
    }

    /// Whether other rows allow all rights of these cells. The table stays. It takes no memory.
    pub fn allow(&mut self, rules: &PolicyGrid, rows: &PolicyRows, cells: &[Cell]) -> bool
        requires room { HasRoom rules.now (boxed_slice_items self.old.table) (boxed_slice_items self.old.granted) (boxed_slice_items self.old.denied) }
        requires cells { length cells.now ≡ rules.now.clients * object_count rules.now }
        ensures allowed { result ≡ true ↔ AllowsUpTo rules.now rows.now rules.now.clients cells.now }
        ensures room { HasRoom rules.now (boxed_slice_items self.new.table) (boxed_slice_items self.new.granted) (boxed_slice_items self.new.denied) }
        ensures table { boxed_slice_items self.new.table ≡ boxed_slice_items self.old.table }
    {
        are_cells_allowed(&mut self.granted, &mut self.denied, rules, rows, cells)
    }

    /// Makes the table anew, for other rows. It takes no memory.
    pub fn weigh(&mut self, rules: &PolicyGrid, rows: &PolicyRows)
        requires { HasRoom rules.now (boxed_slice_items self.old.table) (boxed_slice_items self.old.granted) (boxed_slice_items self.old.denied) }
        ensures room { HasRoom rules.now (boxed_slice_items self.new.table) (boxed_slice_items self.new.granted) (boxed_slice_items self.new.denied) }
        ensures allowed { IsAllowedBy rules.now rows.now (boxed_slice_items self.new.table) }
    {
        fill_table(
            &mut self.table,
            &mut self.granted,
            &mut self.denied,
            rules,
            rows,
        );
    }
}

// No right in each of this many places.
fn no_rights(alloc: Global, count: usize) -> Result<BoxedSlice<Rights>, AllocError>
    ensures { IfOk result (λ sets. length (boxed_slice_items sets) ≡ count) }
{
    Ok(vec![in alloc; Rights::NONE; count]?.into_boxed_slice())
}

/// The rights in a place of a line or table; none where it has no such place.
pub fn rights_at(sets: &[Rights], place: usize) -> Rights
    ensures { (right : Right) → has result right ≡ has_at right (slice_get sets.now place) }
{
    match sets.get(place).copied() {
        Some(rights) => rights,
        None => Rights::NONE,
    }
}

// Puts rights in a place.
fn put_rights(sets: &mut BoxedSlice<Rights>, place: usize, rights: Rights)
    requires { place < length (boxed_slice_items sets.old) }
    ensures { boxed_slice_items sets.new ≡ slice_set (boxed_slice_items sets.old) place rights }
{
    sets[place] = rights;
}

// Puts no right in each place.
fn clear(line: &mut BoxedSlice<Rights>)
    ensures { boxed_slice_items line.new ≡ replicate (length (boxed_slice_items line.old)) no_rights }
{
    line.as_mut_slice().fill(Rights::NONE);
}

// Whether a row on rights is for a client.
fn is_for(subject: Grantee, client: ClientId) -> bool
    ensures { result ≡ is_for subject client }
{
    match subject {
        Grantee::Any => true,
        Grantee::One(named) => named.0 == client.0,
    }
}

// Adds what a row covers for a client to a line, in the place of what the row is on.
fn add_row(line: &mut BoxedSlice<Rights>, rules: &PolicyGrid, client: ClientId, row: &RightsRow)
    requires { length (boxed_slice_items line.old) ≡ object_count rules.now + 4 }
    ensures rights { (place : ℕ) (right : Right) → place < object_count rules.now + 4 → has_at right (slice_get (boxed_slice_items line.new) place)
        ≡ (has_at right (slice_get (boxed_slice_items line.old) place) || covers_place rules.now client right place row.now) }
    ensures len { length (boxed_slice_items line.new) ≡ object_count rules.now + 4 }
{
    if !is_for(row.subject, client) {
        return;
    }
    if let Some(place) = rules.target_place(row.target) {
        let more = union(rights_at(line.as_slice(), place), row.rights);
        put_rights(line, place, more);
    }
}

// Puts what rows cover for a client on each object, and on all objects of each kind, in a line.
fn cover(line: &mut BoxedSlice<Rights>, rules: &PolicyGrid, client: ClientId, rows: &[RightsRow])
    requires { length (boxed_slice_items line.old) ≡ object_count rules.now + 4 }
    ensures line { IsLine rules.now client rows.now (boxed_slice_items line.new) }
    ensures len { length (boxed_slice_items line.new) ≡ object_count rules.now + 4 }
{
    clear(line);
    for row in rows {
        add_row(line, rules, client, row);
    }
}

// Puts what rows grant and deny a client in two lines.
fn cover_client(
    granted: &mut BoxedSlice<Rights>,
    denied: &mut BoxedSlice<Rights>,
    rules: &PolicyGrid,
    client: ClientId,
    rows: &PolicyRows,
)
    requires granted { length (boxed_slice_items granted.old) ≡ object_count rules.now + 4 }
    requires denied { length (boxed_slice_items denied.old) ≡ object_count rules.now + 4 }
    ensures allows { IsLine rules.now client rows.now.allows (boxed_slice_items granted.new) }
    ensures denies { IsLine rules.now client rows.now.denies (boxed_slice_items denied.new) }
    ensures granted { length (boxed_slice_items granted.new) ≡ object_count rules.now + 4 }
    ensures denied { length (boxed_slice_items denied.new) ≡ object_count rules.now + 4 }
{
    cover(granted, rules, client, rows.allows.as_slice());
    cover(denied, rules, client, rows.denies.as_slice());
}

// What is granted in a place or by these further rights, and denied in neither way.
fn settled(granted: &[Rights], denied: &[Rights], place: usize, all: Rights, none: Rights) -> Rights
    ensures { (right : Right) → has result right
        ≡ ((has_at right (slice_get granted.now place) || has all right) && not (has_at right (slice_get denied.now place) || has none right)) }
{
    let allowed = union(rights_at(granted, place), all);
    allowed.without(union(rights_at(denied, place), none))
}

// Puts what rows allow a client on the objects of a kind in their places of the table.
fn fill_kind(
    allowed: &mut BoxedSlice<Rights>,
    rules: &PolicyGrid,
    granted: &[Rights],
    denied: &[Rights],
    before: usize,
    kind: Kind,
)
    requires client { before < rules.now.clients }
    requires len { length (boxed_slice_items allowed.old) ≡ rules.now.clients * object_count rules.now }
    ensures filled { (rows : PolicyRows) → IsLine rules.now (record { 0 = before + 1 }) rows.allows granted.now
        → IsLine rules.now (record { 0 = before + 1 }) rows.denies denied.now
        → IsFilled rules.now rows (before * object_count rules.now + objects_before rules.now kind) (boxed_slice_items allowed.old)
        → IsFilled rules.now rows (before * object_count rules.now + (objects_before rules.now kind + count rules.now kind)) (boxed_slice_items allowed.new) }
    ensures len { length (boxed_slice_items allowed.new) ≡ rules.now.clients * object_count rules.now }
{
    let all = rights_at(granted, rules.kind_place(kind));
    let none = rights_at(denied, rules.kind_place(kind));
    let begin = before * rules.object_count();
    let first = rules.objects_before(kind);
    for index in 0..rules.count(kind) {
        let rights = settled(granted, denied, first + index, all, none);
        put_rights(allowed, begin + (first + index), rights);
    }
}

// Puts what rows allow a client, by the lines of what they grant and deny it, in the client's places of the table.
fn fill_client(
    allowed: &mut BoxedSlice<Rights>,
    rules: &PolicyGrid,
    granted: &[Rights],
    denied: &[Rights],
    before: usize,
)
    requires client { before < rules.now.clients }
    requires len { length (boxed_slice_items allowed.old) ≡ rules.now.clients * object_count rules.now }
    ensures filled { (rows : PolicyRows) → IsLine rules.now (record { 0 = before + 1 }) rows.allows granted.now
        → IsLine rules.now (record { 0 = before + 1 }) rows.denies denied.now
        → IsFilled rules.now rows (before * object_count rules.now) (boxed_slice_items allowed.old)
        → IsFilled rules.now rows ((before + 1) * object_count rules.now) (boxed_slice_items allowed.new) }
    ensures len { length (boxed_slice_items allowed.new) ≡ rules.now.clients * object_count rules.now }
{
    fill_kind(allowed, rules, granted, denied, before, Kind::Agent);
    fill_kind(allowed, rules, granted, denied, before, Kind::Region);
    fill_kind(allowed, rules, granted, denied, before, Kind::Signal);
    fill_kind(allowed, rules, granted, denied, before, Kind::Kernel);
}

// Puts what rows allow each client on each object in its place of the table. Each row is looked at once for each client,
// and each place once.
fn fill_table(
    allowed: &mut BoxedSlice<Rights>,
    granted: &mut BoxedSlice<Rights>,
    denied: &mut BoxedSlice<Rights>,
    rules: &PolicyGrid,
    rows: &PolicyRows,
)
    requires table { length (boxed_slice_items allowed.old) ≡ rules.now.clients * object_count rules.now }
    requires granted { length (boxed_slice_items granted.old) ≡ object_count rules.now + 4 }
    requires denied { length (boxed_slice_items denied.old) ≡ object_count rules.now + 4 }
    ensures allowed { IsAllowedBy rules.now rows.now (boxed_slice_items allowed.new) }
    ensures table { length (boxed_slice_items allowed.new) ≡ rules.now.clients * object_count rules.now }
    ensures granted { length (boxed_slice_items granted.new) ≡ object_count rules.now + 4 }
    ensures denied { length (boxed_slice_items denied.new) ≡ object_count rules.now + 4 }
{
    for before in 0..rules.client_count() {
        let client = ClientId(before as u32 + 1);
        cover_client(granted, denied, rules, client, rows);
        fill_client(
            allowed,
            rules,
            granted.as_slice(),
            denied.as_slice(),
            before,
        );
    }
}

// Whether two lines tell each of some rights of a place. Most cells have none at all.
fn are_rights_allowed(
    rules: &PolicyGrid,
    granted: &[Rights],
    denied: &[Rights],
    place: usize,
    rights: Rights,
) -> bool
    ensures { result ≡ true ↔ ((right : Right) → has rights right ≡ true → settled_at rules.now granted.now denied.now right place ≡ true) }
{
    if is_none(rights) {
        return true;
    }
    let kind = rules.kind_place_at(place);
    let all = rights_at(granted, kind);
    let none = rights_at(denied, kind);
    settled(granted, denied, place, all, none).includes(rights)
}

// Whether a cell has no right but those that two lines tell of its place.
fn is_cell_allowed(
    rules: &PolicyGrid,
    granted: &[Rights],
    denied: &[Rights],
    place: usize,
    cell: Option<Cell>,
) -> bool
    ensures { result ≡ true ↔ IsWithin rules.now granted.now denied.now place cell }
{
    match cell {
        Some(cell) => are_rights_allowed(rules, granted, denied, place, cell.rights),
        None => true,
    }
}

// Whether that is so of each cell of a client.
fn are_client_cells_allowed(
    rules: &PolicyGrid,
    granted: &[Rights],
    denied: &[Rights],
    before: usize,
    cells: &[Cell],
) -> bool
    requires client { before < rules.now.clients }
    requires cells { length cells.now ≡ rules.now.clients * object_count rules.now }
    ensures { result ≡ true ↔ AreWithin rules.now granted.now denied.now before (object_count rules.now) cells.now }
{
    let begin = before * rules.object_count();
    for place in 0..rules.object_count() {
        let cell = cell_at(cells, begin + place);
        if !is_cell_allowed(rules, granted, denied, place, cell) {
            return false;
        }
    }
    true
}

// Whether rows allow all rights of the cells.
fn are_cells_allowed(
    granted: &mut BoxedSlice<Rights>,
    denied: &mut BoxedSlice<Rights>,
    rules: &PolicyGrid,
    rows: &PolicyRows,
    cells: &[Cell],
) -> bool
    requires granted { length (boxed_slice_items granted.old) ≡ object_count rules.now + 4 }
    requires denied { length (boxed_slice_items denied.old) ≡ object_count rules.now + 4 }
    requires cells { length cells.now ≡ rules.now.clients * object_count rules.now }
    ensures allowed { result ≡ true ↔ AllowsUpTo rules.now rows.now rules.now.clients cells.now }
    ensures granted { length (boxed_slice_items granted.new) ≡ object_count rules.now + 4 }
    ensures denied { length (boxed_slice_items denied.new) ≡ object_count rules.now + 4 }
{
    for before in 0..rules.client_count() {
        let client = ClientId(before as u32 + 1);
        cover_client(granted, denied, rules, client, rows);
        if !are_client_cells_allowed(rules, granted.as_slice(), denied.as_slice(), before, cells) {
            return false;
        }
    }
    true
}
