//! Rings used by one thread.

ghost use Rattle.std.specs.Prelude.{◌≡◌};
ghost use Rattle.ring.specs.Publishing.{IsOpen};

use crate::load::{
    Turns, packet, publish_all, publish_one, settle_two, slot_bytes, take_all, take_shown,
};
use aql_packet::PacketId;
use ring::{
    Peeked, ProcessorPass, ProducerPass, Publication, Ring, RingFault, SettleFault, SettleRoom,
    Ticket, settle, settle_in,
};
use std::process::Abort;
use std::test::Fail;

#[test]
fn wrong_sizes_and_producers_are_refused(rt: HostRuntime) {
    let rows = [
        (3, 1, RingFault::BadSize),
        (0, 17, RingFault::BadSize),
        (8192, 1, RingFault::BadSize),
        (2, 0, RingFault::BadProducers),
        (2, 17, RingFault::BadProducers),
    ];
    for (size, producers, fault) in rows {
        match Ring::new(rt.alloc(), size, producers) {
            Ok(_) => panic!(rt; "a ring of {size} with {producers} producers opens"),
            Err(found) => assert!(rt; found == fault),
        }
    }
}

#[test]
fn a_missing_pass_is_told_and_all_comes_back(rt: HostRuntime) -> Result<(), Fail> {
    let Ok((ring, mut producers, processor)) = Ring::new(rt.alloc(), 2, 2) else {
        panic!(rt; "a ring opens")
    };
    let Some(last) = producers.pop() else {
        panic!(rt; "there are two")
    };
    let Err(back) = settle(rt.alloc(), ring, producers, processor) else {
        panic!(rt; "a pass is missing")
    };
    assert!(rt; back.fault == SettleFault::MissingPass);
    let mut producers = back.producers;
    producers.push(last)?;
    let Ok(settled) = settle(rt.alloc(), back.ring, producers, back.processor) else {
        panic!(rt; "all passes are there")
    };
    assert_eq!(rt; settled.write_index, 0);
    Ok(())
}

#[test]
fn rings_are_apart(rt: HostRuntime) -> Result<(), Fail> {
    let Ok((one, mut ones, first)) = Ring::new(rt.alloc(), 2, 1) else {
        panic!(rt; "a ring opens")
    };
    let Ok((other, others, second)) = Ring::new(rt.alloc(), 2, 1) else {
        panic!(rt; "another opens")
    };
    let Some(mut pass) = ones.pop() else {
        panic!(rt; "there is one")
    };
    assert!(rt; publish_one(&one, &mut pass, &packet(1, 0)));
    ones.push(pass)?;
    let reserved = settle_two(rt.alloc(), one, ones, first, other, others, second);
    assert!(rt; reserved == Some((1, 0)));
    Ok(())
}

// The third id of a ring of two slots waits until slot 0 is free.
fn check_two_producers(
    rt: &impl Abort,
    ring: &Ring,
    first: &mut ProducerPass,
    second: &mut ProducerPass,
    processor: &mut ProcessorPass,
)
    requires first { first.old.table ≡ ring.now.table }
    requires second { second.old.table ≡ ring.now.table }
    requires processor { processor.old.table ≡ ring.now.table }
    ensures first { first.new.table ≡ ring.now.table }
    ensures second { second.new.table ≡ ring.now.table }
    ensures processor { processor.new.table ≡ ring.now.table }
{
    assert!(rt; publish_one(ring, first, &packet(1, 0)));
    assert!(rt; publish_one(ring, second, &packet(2, 0)));
    let Ok(two) = first.reserve(ring) else {
        panic!(rt; "an id is left")
    };
    let Publication::SlotBusy(two, read_index) = first.publish(ring, two, &packet(1, 1)) else {
        panic!(rt; "slot 0 is taken")
    };
    assert!(rt; two.id() == PacketId(2) && read_index == 0);
    assert!(rt; take_shown(ring, processor) == Some(packet(1, 0)));
    let published = first.publish(ring, two, &packet(1, 1));
    assert!(rt; published == Publication::Published(PacketId(2)));
}

#[test]
fn two_producers_share_two_slots(rt: HostRuntime) -> Result<(), Fail> {
    let Ok((ring, mut producers, mut processor)) = Ring::new(rt.alloc(), 2, 2) else {
        panic!(rt; "a ring opens")
    };
    let (Some(mut second), Some(mut first)) = (producers.pop(), producers.pop()) else {
        panic!(rt; "there are two")
    };
    check_two_producers(&rt, &ring, &mut first, &mut second, &mut processor);
    producers.push(first)?;
    producers.push(second)?;
    let room = SettleRoom::new(rt.alloc(), &ring)?;
    let settled = settle_in(ring, producers, processor, room);
    let slots = settled.slots.as_slice();
    assert!(rt; slots.len() == 16);
    assert!(rt; slot_bytes(slots, 0) == packet(1, 1));
    Ok(())
}

// Whether a processor sees no packet.
fn sees_nothing(ring: &Ring, pass: &mut ProcessorPass) -> bool
    requires { pass.old.table ≡ ring.now.table }
    ensures { pass.new.table ≡ pass.old.table }
{
    match pass.peek(ring) {
        Peeked::Empty => true,
        Peeked::Shown(_) => false,
    }
}

// The id under which a packet is published, if it is.
fn publish_at(
    ring: &Ring,
    pass: &mut ProducerPass,
    ticket: Ticket,
    bytes: &[u8; 64],
) -> Option<PacketId>
    requires table { pass.old.table ≡ ring.now.table }
    requires opened { IsOpen ticket.id.0 pass.old }
    ensures { pass.new.table ≡ pass.old.table }
{
    match pass.publish(ring, ticket, bytes) {
        Publication::Published(id) => Some(id),
        Publication::NotPublishable(_) => None,
        Publication::SlotBusy(_, _) => None,
    }
}

// The next id that a producer reserves.
fn next_id(ring: &Ring, pass: &mut ProducerPass) -> Option<PacketId>
    requires { pass.old.table ≡ ring.now.table }
    ensures { pass.new.table ≡ pass.old.table }
{
    match pass.reserve(ring) {
        Ok(ticket) => Some(ticket.id()),
        Err(_) => None,
    }
}

// A packet that is published behind an open ticket is not seen before the ticket's own.
fn check_gap(
    rt: &impl Abort,
    ring: &Ring,
    first: &mut ProducerPass,
    second: &mut ProducerPass,
    processor: &mut ProcessorPass,
)
    requires first { first.old.table ≡ ring.now.table }
    requires second { second.old.table ≡ ring.now.table }
    requires processor { processor.old.table ≡ ring.now.table }
{
    let Ok(ticket) = first.reserve(ring) else {
        panic!(rt; "an id is left")
    };
    assert!(rt; publish_one(ring, second, &packet(2, 0)));
    assert!(rt; sees_nothing(ring, processor));
    let published = first.publish(ring, ticket, &packet(1, 0));
    assert!(rt; published == Publication::Published(PacketId(0)));
    assert!(rt; take_shown(ring, processor) == Some(packet(1, 0)));
    assert!(rt; take_shown(ring, processor) == Some(packet(2, 0)));
    assert!(rt; take_shown(ring, processor) == None);
}

#[test]
fn an_open_ticket_is_a_gap(rt: HostRuntime) {
    let Ok((ring, mut producers, mut processor)) = Ring::new(rt.alloc(), 2, 2) else {
        panic!(rt; "a ring opens")
    };
    let (Some(mut second), Some(mut first)) = (producers.pop(), producers.pop()) else {
        panic!(rt; "there are two")
    };
    check_gap(&rt, &ring, &mut first, &mut second, &mut processor);
}

// A packet of type INVALID is not published, and its ticket stays open.
fn check_invalid_type(rt: &impl Abort, ring: &Ring, pass: &mut ProducerPass)
    requires { pass.old.table ≡ ring.now.table }
{
    let Ok(ticket) = pass.reserve(ring) else {
        panic!(rt; "an id is left")
    };
    let mut invalid = packet(1, 0);
    invalid[0] = 1;
    let Publication::NotPublishable(ticket) = pass.publish(ring, ticket, &invalid) else {
        panic!(rt; "its type is INVALID")
    };
    let published = pass.publish(ring, ticket, &packet(1, 0));
    assert!(rt; published == Publication::Published(PacketId(0)));
}

#[test]
fn an_invalid_type_is_not_publishable(rt: HostRuntime) {
    let Ok((ring, mut producers, _processor)) = Ring::new(rt.alloc(), 2, 1) else {
        panic!(rt; "a ring opens")
    };
    let Some(mut pass) = producers.pop() else {
        panic!(rt; "there is one")
    };
    check_invalid_type(&rt, &ring, &mut pass);
}

// A full ring has no room until a packet is taken, and past a hundred packets taken ids still rise by one.
fn check_full_ring(
    rt: &impl Abort,
    ring: &Ring,
    pass: &mut ProducerPass,
    processor: &mut ProcessorPass,
)
    requires pass { pass.old.table ≡ ring.now.table }
    requires processor { processor.old.table ≡ ring.now.table }
    ensures pass { pass.new.table ≡ ring.now.table }
    ensures processor { processor.new.table ≡ ring.now.table }
{
    publish_all(ring, pass, 4_096);
    let Ok(ticket) = pass.reserve(ring) else {
        panic!(rt; "an id is left")
    };
    let Publication::SlotBusy(ticket, read_index) = pass.publish(ring, ticket, &packet(1, 4_096))
    else {
        panic!(rt; "the ring is full")
    };
    assert!(rt; ticket.id() == PacketId(4_096) && read_index == 0);
    assert!(rt; take_all(ring, processor, &mut Turns::new(), 150) == 150);
    assert!(rt; publish_at(ring, pass, ticket, &packet(1, 4_096)) == Some(PacketId(4_096)));
    assert!(rt; next_id(ring, pass) == Some(PacketId(4_097)));
}

#[test]
fn the_largest_ring_fills_and_settles(rt: HostRuntime) -> Result<(), Fail> {
    let Ok((ring, mut producers, mut processor)) = Ring::new(rt.alloc(), 4_096, 1) else {
        panic!(rt; "a ring opens")
    };
    let Some(mut pass) = producers.pop() else {
        panic!(rt; "there is one")
    };
    check_full_ring(&rt, &ring, &mut pass, &mut processor);
    producers.push(pass)?;
    let Ok(settled) = settle(rt.alloc(), ring, producers, processor) else {
        panic!(rt; "all passes are there")
    };
    assert!(rt; (settled.write_index, settled.read_index) == (4_098, 150));
    let slots = settled.slots.as_slice();
    assert!(rt; slots.len() == 8 * 4_096);
    assert!(rt; slot_bytes(slots, 0) == packet(1, 4_096));
    assert!(rt; slot_bytes(slots, 149)[0] == 1 && slot_bytes(slots, 150) == packet(1, 150));
    assert!(rt; slot_bytes(slots, 4_095) == packet(1, 4_095));
    Ok(())
}
