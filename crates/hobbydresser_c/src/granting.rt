//! Rights are granted and revoked.

ghost use Rattle.std.specs.Prelude.{◌≡◌, Err, true, false};
ghost use Rattle.core_model.specs.declared.call.Call.TheVariants as call;
ghost use Rattle.core_model.specs.declared.event.Event.TheVariants as event;
ghost use Rattle.hobbydresser_c.specs.Statuses.{closed};
ghost use Rattle.hobbydresser_c.specs.Calls.{IsMade, IsRevoked, IsSame, IsUnknown, Keeps, TellsHolder, WhereKnown, is_open, kind_of_number, rights_named, rights_of_bits, status_of};

use crate::broker::Broker;
use crate::status;
use aql_packet::ClientId;
use bitflags::Flags;
use core_model::Refusal;
use policy::{Kind, Object, Rights};

// The kind of a number.
pub(crate) fn kind_of_number(number: u32) -> Option<Kind>
    ensures { result ≡ kind_of_number number }
{
    Kind::ALL.get(number as usize).copied()
}

// The rights of a set's bits.
fn rights_of_bits(bits: u32) -> Option<Rights>
    ensures { result ≡ rights_of_bits bits }
{
    if bits >= 64 {
        return None;
    }
    Some(Rights::from_bits_retain(bits as u8))
}

// An object, and rights on it.
fn rights_named(kind: u32, number: u32, bits: u32) -> Option<(Object, Rights)>
    ensures { result ≡ rights_named kind number bits }
{
    let kind = kind_of_number(kind)?;
    let rights = rights_of_bits(bits)?;
    Some((Object::of(kind, number as u64), rights))
}

// The status of an answer that tells nothing more.
pub(crate) fn status_of(answer: Result<(), Refusal>) -> u32
    ensures { result ≡ status_of answer }
{
    match answer {
        Ok(()) => status::OK,
        Err(why) => status::of_refusal(why),
    }
}

/// Gives a client rights on an object.
#[unsafe(no_mangle)]
pub extern "C" fn hd_grant(
    broker: &mut Broker,
    client: u32,
    kind: u32,
    number: u32,
    rights: u32,
) -> u32
    ensures closed { is_open broker.old ≡ false → (result ≡ closed) × IsSame broker.old broker.new }
    ensures open { Keeps broker.old broker.new }
    ensures met { is_open broker.old ≡ true → WhereKnown (rights_named kind number rights) (IsUnknown broker.old broker.new result)
        (λ named. IsMade (event.Call (call.Grant (record { 0 = client }) named.0 named.1)) broker.old broker.new result) }
{
    if !broker.called() {
        return status::CLOSED;
    }
    let Some((object, rights)) = rights_named(kind, number, rights) else {
        return status::NO_SUCH;
    };
    let core = &mut broker.pointer.session_mut().core;
    status_of(core.grant(ClientId(client), object, rights))
}

// Tells a refusal, and which packet stands against the call.
pub(crate) fn tell_refusal(why: Refusal, queue: &mut u64, packet: &mut u64) -> u32
    ensures { TellsHolder result queue.old queue.new packet.old packet.new (Err why) }
{
    if let Refusal::Busy {
        queue: of,
        packet: id,
    } = why
    {
        *queue = of.0;
        *packet = id.0;
    }
    status::of_refusal(why)
}

// Tells an answer, and which packet stands against it.
fn tell_holder(answer: Result<(), Refusal>, queue: &mut u64, packet: &mut u64) -> u32
    ensures { TellsHolder result queue.old queue.new packet.old packet.new answer }
{
    match answer {
        Ok(()) => status::OK,
        Err(why) => tell_refusal(why, queue, packet),
    }
}

/// Takes rights on an object from a client.
#[unsafe(no_mangle)]
pub extern "C" fn hd_revoke(
    broker: &mut Broker,
    client: u32,
    kind: u32,
    number: u32,
    rights: u32,
    queue: &mut u64,
    packet: &mut u64,
) -> u32
    ensures closed { is_open broker.old ≡ false → (result ≡ closed) × IsSame broker.old broker.new × (queue.new ≡ queue.old) × (packet.new ≡ packet.old) }
    ensures open { Keeps broker.old broker.new }
    ensures met { is_open broker.old ≡ true → WhereKnown (rights_named kind number rights)
        (IsUnknown broker.old broker.new result × (queue.new ≡ queue.old) × (packet.new ≡ packet.old))
        (λ named. IsRevoked (event.Call (call.Revoke (record { 0 = client }) named.0 named.1)) broker.old broker.new result queue.old queue.new packet.old packet.new) }
{
    if !broker.called() {
        return status::CLOSED;
    }
    let Some((object, rights)) = rights_named(kind, number, rights) else {
        return status::NO_SUCH;
    };
    let core = &mut broker.pointer.session_mut().core;
    let answer = core.revoke(ClientId(client), object, rights);
    tell_holder(answer, queue, packet)
}
