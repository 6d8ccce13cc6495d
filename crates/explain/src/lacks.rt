//! Which right a client lacks, and whether the rows in force allow it: told from the client's own grants and rows alone.

ghost use Rattle.std.specs.Prelude.{◌≡◌};
ghost use Rattle.core_model.specs.Grants.{in_force_after};
ghost use Rattle.core_model.specs.Needs.{object_of};
ghost use Rattle.policy.specs.Pairs.{is_one_of};
ghost use Rattle.explain.specs.Lacks.{in_force_since, lack_of, lacked};

use access_core::AccessCore;
use aql_packet::ClientId;
use core_model::{Call, Entry, Event, Origin, Subject};
use policy::{Object, PolicyRows, Right, Rights};
use regions::region_of;

/// A right on an object that a client lacks (own).
#[derive(Clone, Copy, Debug, PartialEq, Eq)]
pub struct Lack {
    /// Who lacks it: the one who asked, or whose queue has the packet.
    pub client: ClientId,
    pub object: Object,
    pub right: Right,
    /// Whether the rows of the policy in force allow it to the client.
    pub is_allowed: bool,
}

// Whether a right of a client on an object is one of those that a call names.
fn is_one_of(
    client: ClientId,
    object: Object,
    right: Right,
    holder: ClientId,
    on: Object,
    rights: Rights,
) -> bool
    ensures { result ≡ is_one_of client object right holder on rights }
{
    client == holder && object == on && rights.has(right)
}

// Whether a client's right on an object is in force after an event, by whether it was before.
fn in_force_after(
    client: ClientId,
    object: Object,
    right: Right,
    before: bool,
    event: &Event,
) -> bool
    ensures { result ≡ in_force_after client object right before event.now }
{
    match event {
        Event::Call(
            Call::Grant {
                client: holder,
                object: on,
                rights,
            },
        ) => before || is_one_of(client, object, right, *holder, *on, *rights),
        Event::Call(
            Call::Revoke {
                client: holder,
                object: on,
                rights,
            },
        ) => before && !is_one_of(client, object, right, *holder, *on, *rights),
        Event::Reload { rows } => before && rows.allowed(client, object).has(right),
        _ => before,
    }
}

/// Whether a client's right on an object was in force, by what a history begins from and its first entries, as those before
/// a launch: it was in force there or was granted since, and no later revocation or reload took it.
pub fn was_in_force(
    start: &Origin,
    entries: &[Entry],
    client: ClientId,
    object: Object,
    right: Right,
) -> bool
    ensures { result ≡ in_force_since start.now entries.now client object right }
{
    let mut held = start.grants.is_in_force(client, object, right);
    'entries: for entry in entries {
        held = in_force_after(client, object, right, held, &entry.event);
    }
    held
}

/// A right on an object as one that a client lacks.
pub fn lacked(rows: &PolicyRows, client: ClientId, object: Object, right: Right) -> Lack
    ensures { result ≡ lacked rows.now client object right }
{
    Lack {
        client,
        object,
        right,
        is_allowed: rows.allowed(client, object).has(right),
    }
}

/// The right on an object that a client lacks, if it isn't in force: the core knows.
pub fn lack_of(core: &AccessCore, client: ClientId, object: Object, right: Right) -> Option<Lack>
    ensures { result ≡ lack_of core.now.history client object right }
{
    if core.has_right(client, object, right) {
        None
    } else {
        Some(lacked(core.rows(), client, object, right))
    }
}

/// The object that a right is needed on: of a range, its region.
pub fn object_of(subject: &Subject) -> Object
    ensures { result ≡ object_of subject.now }
{
    match subject {
        Subject::Object(object) => *object,
        Subject::Range(range) => Object::Region(region_of(range.address)),
    }
}
