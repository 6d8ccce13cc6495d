//! Packets that tell who sent them and in which turn, and the loops that send and take them.

ghost use Rattle.std.specs.Prelude.{◌≡◌, ◌+◌, ◌*◌, ◌≤◌, length, All};
ghost use Rattle.ring.specs.Publishing.{IsOpen};

use ring::{Peeked, ProcessorPass, ProducerPass, Publication, Ring, Ticket, settle};
use std::alloc::Global;
use std::thread;

/// How often a thread looks for room, or for a packet, before it gives up.
const LOOKS: u64 = 10_000_000;

/// A packet of type AGENT_DISPATCH whose bytes are all told by its producer and its turn.
pub fn packet(producer: u64, turn: u64) -> [u8; 64] {
    let mut bytes = [(turn % 251) as u8; 64];
    bytes[0] = 4;
    bytes[1] = 0;
    bytes[8] = (producer % 256) as u8;
    bytes[9] = (turn % 256) as u8;
    bytes[10] = (turn / 256 % 256) as u8;
    bytes
}

/// How many packets of each producer have come.
#[derive(Drop)]
pub struct Turns {
    next: [u64; 256],
}

impl Turns {
    /// None has come.
    pub fn new() -> Turns {
        Turns { next: [0; 256] }
    }

    /// Whether a packet is whole and the next of its producer. It has come then.
    pub fn accept(&mut self, bytes: &[u8; 64]) -> bool {
        let producer = usize::from(bytes[8]);
        let turn = self.next[producer];
        self.next[producer] = turn.wrapping_add(1);
        *bytes == packet(producer as u64, turn)
    }
}

/// Publishes a packet under a ticket, trying again while its slot is busy. Answers whether it was
/// published.
pub fn publish_under(ring: &Ring, pass: &mut ProducerPass, ticket: Ticket, bytes: &[u8; 64]) -> bool
    requires table { pass.old.table ≡ ring.now.table }
    requires opened { IsOpen ticket.id.0 pass.old }
    ensures { pass.new.table ≡ pass.old.table }
{
    let mut ticket = ticket;
    for _look in 0..LOOKS {
        match pass.publish(ring, ticket, bytes) {
            Publication::Published(_) => return true,
            Publication::NotPublishable(_) => return false,
            Publication::SlotBusy(back, _) => ticket = back,
        }
        thread::yield_now();
    }
    false
}

/// Reserves an id and publishes a packet under it. Answers whether it was published.
pub fn publish_one(ring: &Ring, pass: &mut ProducerPass, bytes: &[u8; 64]) -> bool
    requires { pass.old.table ≡ ring.now.table }
    ensures { pass.new.table ≡ pass.old.table }
{
    match pass.reserve(ring) {
        Ok(ticket) => publish_under(ring, pass, ticket, bytes),
        Err(_) => false,
    }
}

/// Publishes so many packets of the pass's producer, until one is not published.
pub fn publish_all(ring: &Ring, pass: &mut ProducerPass, packets: u64)
    requires { pass.old.table ≡ ring.now.table }
    ensures { pass.new.table ≡ pass.old.table }
{
    let producer = pass.number();
    for turn in 0..packets {
        if !publish_one(ring, pass, &packet(producer, turn)) {
            return;
        }
    }
}

/// Takes the next packet, if one is shown.
pub fn take_shown(ring: &Ring, pass: &mut ProcessorPass) -> Option<[u8; 64]>
    requires { pass.old.table ≡ ring.now.table }
    ensures { pass.new.table ≡ pass.old.table }
{
    match pass.peek(ring) {
        Peeked::Empty => None,
        Peeked::Shown(shown) => {
            pass.retire(ring, shown);
            Some(shown.bytes)
        }
    }
}

/// Takes the next packet, looking again while there is none.
pub fn take_one(ring: &Ring, pass: &mut ProcessorPass) -> Option<[u8; 64]>
    requires { pass.old.table ≡ ring.now.table }
    ensures { pass.new.table ≡ pass.old.table }
{
    for _look in 0..LOOKS {
        if let Some(bytes) = take_shown(ring, pass) {
            return Some(bytes);
        }
        thread::yield_now();
    }
    None
}

/// Takes so many packets, each of which has to be whole and the next of its producer. Answers how many
/// came so.
pub fn take_all(ring: &Ring, pass: &mut ProcessorPass, turns: &mut Turns, packets: u64) -> u64
    requires { pass.old.table ≡ ring.now.table }
    ensures { pass.new.table ≡ pass.old.table }
{
    for taken in 0..packets {
        match take_one(ring, pass) {
            Some(bytes) if turns.accept(&bytes) => {}
            _ => return taken,
        }
    }
    packets
}

/// Takes packets, each of which has to be whole and the next of its producer, until none is shown.
/// Answers how many came so.
pub fn take_shown_all(ring: &Ring, pass: &mut ProcessorPass, turns: &mut Turns, most: u64) -> u64
    requires { pass.old.table ≡ ring.now.table }
    ensures { pass.new.table ≡ pass.old.table }
{
    for taken in 0..most {
        match take_shown(ring, pass) {
            Some(bytes) if turns.accept(&bytes) => {}
            _ => return taken,
        }
    }
    most
}

/// Whether no packet is shown, however often one looks.
pub fn shows_nothing(ring: &Ring, pass: &mut ProcessorPass, looks: u64) -> bool
    requires { pass.old.table ≡ ring.now.table }
    ensures { pass.new.table ≡ pass.old.table }
{
    for _look in 0..looks {
        if pass.peek(ring) != Peeked::Empty {
            return false;
        }
        thread::yield_now();
    }
    true
}

/// Settles two rings, each with its own passes. Answers how many ids were reserved in each.
pub fn settle_two(
    alloc: Global,
    one: Ring,
    ones: Vec<ProducerPass>,
    first: ProcessorPass,
    other: Ring,
    others: Vec<ProducerPass>,
    second: ProcessorPass,
) -> Option<(u64, u64)>
    requires ones { All (λ pass. pass.table ≡ one.table) ones.items }
    requires first { first.table ≡ one.table }
    requires others { All (λ pass. pass.table ≡ other.table) others.items }
    requires second { second.table ≡ other.table }
{
    let one = settle(alloc, one, ones, first).ok()?;
    let other = settle(alloc, other, others, second).ok()?;
    Some((one.write_index, other.write_index))
}

/// The bytes of a slot, from the words of all slots.
pub fn slot_bytes(words: &[u64], slot: usize) -> [u8; 64]
    requires { 8 * slot + 8 ≤ length words.now }
{
    let mut bytes = [0; 64];
    for place in 0..64 {
        bytes[place] = words[8 * slot + place / 8].to_le_bytes()[place % 8];
    }
    bytes
}

/// Whether the slots behind a gap and below the last have packets that are whole and the next of their
/// producers.
pub fn stand_whole(words: &[u64], gap: u64, last: usize, turns: &mut Turns) -> bool {
    if words.len() / 8 < last {
        return false;
    }
    for slot in 0..last {
        if gap < slot as u64 && !turns.accept(&slot_bytes(words, slot)) {
            return false;
        }
    }
    true
}
