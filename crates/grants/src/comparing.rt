//! Whether what is in force or held in one place is so in another.

ghost use Rattle.std.specs.Prelude.{◌≡◌, ◌↔◌, true};
ghost use Rattle.std.specs.List.{list_all};
ghost use Rattle.grants.specs.Cells.{in_table};
ghost use Rattle.grants.specs.inner.Reloading.{of_kind, of_client, of_all};
ghost use Rattle.grants.specs.inner.Comparing.{IsIncluded, is_included, AreHeldToo, has_hold};

use crate::cells::Cells;
use crate::hold::{Hold, is_held};
use aql_packet::ClientId;
use policy::{Kind, Object, Right};

// Whether a client's right on an object is in force.
fn is_in_force(table: &Cells, client: ClientId, object: Object, right: Right) -> bool
    ensures { result ≡ in_table table.now client object right }
{
    match table.get(client, object) {
        Some(cell) => cell.rights.has(right),
        None => false,
    }
}

// Whether a client's rights on an object are in force in another table.
fn is_included(table: &Cells, other: &Cells, client: ClientId, object: Object) -> bool
    ensures { result ≡ is_included table.now other.now client object }
{
    Right::ALL.iter().all(|right| !is_in_force(table, client, object, *right)
        || is_in_force(other, client, object, *right))
}

// The same of its rights on all objects of a kind.
fn includes_kind(table: &Cells, other: &Cells, client: ClientId, kind: Kind) -> bool
    ensures { result ≡ true ↔ IsIncluded (of_kind client kind) table.now other.now }
{
    for before in 0..table.rules().count(kind) {
        if !is_included(table, other, client, Object::of(kind, before as u64 + 1)) {
            return false;
        }
    }
    true
}

// The same of its rights on all objects.
fn includes_client(table: &Cells, other: &Cells, client: ClientId) -> bool
    ensures { result ≡ true ↔ IsIncluded (of_client client) table.now other.now }
{
    includes_kind(table, other, client, Kind::Agent)
        && includes_kind(table, other, client, Kind::Region)
        && includes_kind(table, other, client, Kind::Signal)
        && includes_kind(table, other, client, Kind::Kernel)
}

/// Whether all rights in force in a table are so in another.
pub fn includes_all(table: &Cells, other: &Cells) -> bool
    ensures { result ≡ true ↔ IsIncluded of_all table.now other.now }
{
    for before in 0..table.rules().client_count() {
        if !includes_client(table, other, ClientId(before as u32 + 1)) {
            return false;
        }
    }
    true
}

// Whether a list of holds has each right of a hold.
fn has_hold(other: &[Hold], hold: &Hold) -> bool
    ensures { result ≡ has_hold other.now hold.now }
{
    Right::ALL.iter().all(|right| !hold.rights.has(*right)
        || is_held(
            other,
            hold.queue,
            hold.packet,
            hold.client,
            hold.object,
            *right,
        ))
}

fn have_holds(other: &[Hold], holds: &[Hold]) -> bool
    ensures { result ≡ list_all (has_hold other.now) holds.now }
{
    holds.iter().all(|hold| has_hold(other, hold))
}

/// Whether all that holds hold others hold too.
pub fn are_held_too(holds: &[Hold], other: &[Hold]) -> bool
    ensures { result ≡ true ↔ AreHeldToo holds.now other.now }
{
    have_holds(other, holds)
}
