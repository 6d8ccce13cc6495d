//! What a client may do.

ghost use Rattle.std.specs.Prelude.{◌≡◌, ◌≤◌, ◌++◌, drop, false, length, map, true};
ghost use Rattle.core_model.specs.declared.answer.Answer.TheVariants as answers;
ghost use Rattle.core_model.specs.declared.event.Query.TheVariants as query;
ghost use Rattle.policy.specs.declared.rights.Rights.{Rights};
ghost use Rattle.hobbydresser_c.specs.Statuses.{closed, no_such};
ghost use Rattle.hobbydresser_c.specs.Buffers.{FillsRecords};
ghost use Rattle.hobbydresser_c.specs.Told.{held_told};
ghost use Rattle.hobbydresser_c.specs.Calls.{IsNoted, Replied, Tells, TellsRecords, WhereKnown, history_of, is_open, object_named, rights_in_force};

use crate::broker::Broker;
use crate::granting::kind_of_number;
use crate::status;
use crate::told::{HeldRecord, held_told};
use access_core::AccessCore;
use aql_packet::ClientId;
use bitflags::Flags;
use core_model::Refusal;
use policy::{Object, Right, Rights};
use sequences::Sequence;
use std::alloc::Global;

// Puts what is told of each row of a listing into the caller's records.
fn put_listing(rows: &[(Object, Rights)], out: &mut [HeldRecord])
    requires { length rows.now ≤ length out.old }
    ensures { out.new ≡ map held_told rows.now ++ drop (length rows.now) out.old }
{
    'rows: for place in 0..rows.len() {
        let (object, rights) = rows[place];
        out[place] = held_told(object, rights);
    }
}

// Fills the caller's records by a listing, and tells how many rows it has.
fn fill_listing(rows: &[(Object, Rights)], out: &mut [HeldRecord], needed: &mut u64) -> u32
    ensures { FillsRecords held_told rows.now result out.old out.new needed.new }
{
    *needed = rows.len() as u64;
    if rows.len() > out.len() {
        return status::TOO_SHORT;
    }
    put_listing(rows, out);
    status::OK
}

// Tells a listing.
fn tell_listing(
    answer: Result<Sequence<(Object, Rights)>, Refusal>,
    out: &mut [HeldRecord],
    needed: &mut u64,
) -> u32
    ensures { TellsRecords held_told result out.old out.new needed.old needed.new answer }
{
    match answer {
        Ok(rows) => fill_listing(rows.as_slice(), out, needed),
        Err(why) => status::of_refusal(why),
    }
}

/// Each object on which a client has a right in force, with those rights.
#[unsafe(no_mangle)]
pub extern "C" fn hd_list(
    alloc: Global,
    broker: &mut Broker,
    client: u32,
    out: &mut [HeldRecord],
    needed: &mut u64,
) -> u32
    ensures closed { is_open broker.old ≡ false → (result ≡ closed) × (out.new ≡ out.old) × (needed.new ≡ needed.old) }
    ensures same { IsNoted broker.old broker.new }
    ensures met { is_open broker.old ≡ true → Replied (query.List (record { 0 = client })) answers.Listing broker.old
        (TellsRecords held_told result out.old out.new needed.old needed.new) }
{
    if !broker.called() {
        return status::CLOSED;
    }
    let core = &mut broker.pointer.session_mut().core;
    let answer = core.list(alloc, ClientId(client));
    tell_listing(answer, out, needed)
}

// The rights on an object that a client has in force.
fn rights_in_force(core: &AccessCore, client: ClientId, object: Object) -> Result<Rights, Refusal>
    ensures { result ≡ rights_in_force core.now.history client object }
{
    if !core.policy().declares_client(client) {
        return Err(Refusal::UnknownClient);
    }
    Ok(Rights::from_each(
        core.has_right(client, object, Right::Use),
        core.has_right(client, object, Right::Read),
        core.has_right(client, object, Right::Write),
        core.has_right(client, object, Right::Wait),
        core.has_right(client, object, Right::Change),
        core.has_right(client, object, Right::Launch),
    ))
}

// Tells rights, a bit each.
fn tell_rights(answer: Result<Rights, Refusal>, out: &mut u32) -> u32
    ensures { Tells (λ (rights : Rights). rights.0) result out.old out.new answer }
{
    match answer {
        Ok(rights) => {
            *out = rights.bits() as u32;
            status::OK
        }
        Err(why) => status::of_refusal(why),
    }
}

// An object, by its kind's number.
fn object_named(kind: u32, number: u32) -> Option<Object>
    ensures { result ≡ object_named kind number }
{
    let kind = kind_of_number(kind)?;
    Some(Object::of(kind, number as u64))
}

/// The rights that a client has in force on an object.
#[unsafe(no_mangle)]
pub extern "C" fn hd_rights(
    broker: &mut Broker,
    client: u32,
    kind: u32,
    number: u32,
    rights: &mut u32,
) -> u32
    ensures closed { is_open broker.old ≡ false → (result ≡ closed) × (rights.new ≡ rights.old) }
    ensures same { IsNoted broker.old broker.new }
    ensures met { is_open broker.old ≡ true → WhereKnown (object_named kind number) ((result ≡ no_such) × (rights.new ≡ rights.old))
        (λ object. Tells (λ (in_force : Rights). in_force.0) result rights.old rights.new (rights_in_force (history_of broker.old) (record { 0 = client }) object)) }
{
    if !broker.called() {
        return status::CLOSED;
    }
    let Some(object) = object_named(kind, number) else {
        return status::NO_SUCH;
    };
    let core = &mut broker.pointer.session_mut().core;
    let answer = rights_in_force(core, ClientId(client), object);
    tell_rights(answer, rights)
}
