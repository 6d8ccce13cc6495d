//! One thread sends a packet, and another takes it.

ghost use Rattle.std.specs.Prelude.{◌≡◌};

use aql_packet::PacketId;
use ring::{Peeked, ProcessorPass, ProducerPass, Publication, Ring};
use std::thread;
use std::thread::Threads;

/// Publishes one packet in a ring that has room.
fn send(ring: &Ring, pass: ProducerPass, bytes: &[u8; 64]) -> Option<PacketId>
    requires { pass.table ≡ ring.now.table }
{
    let mut pass = pass;
    let ticket = pass.reserve(ring).ok()?;
    match pass.publish(ring, ticket, bytes) {
        Publication::Published(id) => Some(id),
        _ => None,
    }
}

/// Takes the next packet, looking for it a million times at most.
fn receive(ring: &Ring, pass: ProcessorPass) -> Option<[u8; 64]>
    requires { pass.table ≡ ring.now.table }
{
    let mut pass = pass;
    for _look in 0..1_000_000 {
        if let Peeked::Shown(shown) = pass.peek(ring) {
            pass.retire(ring, shown);
            return Some(shown.bytes);
        }
        thread::yield_now();
    }
    None
}

/// What one thread sends comes out in the other.
pub fn through<R: Threads + Sync>(
    rt: &R,
    ring: &Ring,
    producer: ProducerPass,
    processor: ProcessorPass,
    bytes: &[u8; 64],
) -> Option<[u8; 64]>
    requires producer { producer.table ≡ ring.now.table }
    requires processor { processor.table ≡ ring.now.table }
{
    let (sent, received) = thread::join(
        rt,
        move || send(ring, producer, bytes),
        move || receive(ring, processor),
    );
    sent?;
    received
}
