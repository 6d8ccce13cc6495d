//! A ring's two ends: producers send packets, and the processor takes them. Where there is no room or no
//! packet they look again, a bounded number of times.

ghost use Rattle.std.specs.Prelude.{◌≡◌, All};
ghost use Rattle.ring.specs.Publishing.{IsOpen};

use crate::fault::{Fault, LOOKS};
use crate::mark::Mark;
use ring::{Peeked, ProcessorPass, ProducerPass, Publication, Ring, Ticket};
use std::hint::spin_loop;
use std::thread;
use std::thread::{Threads, yield_now};

/// After so many looks in a row a thread lets others run.
const SPINS: u64 = 16;

/// How many threads send at the most: as many as a ring may have producers.
const MOST_PRODUCERS: usize = 16;

/// Waits a moment before a further look.
fn rest(look: u64) {
    if look % SPINS == SPINS - 1 {
        yield_now();
    } else {
        spin_loop();
    }
}

/// Publishes a packet under a ticket, as soon as a look shows room.
#[inline(always)]
fn publish(
    ring: &Ring,
    pass: &mut ProducerPass,
    ticket: Ticket,
    bytes: &[u8; 64],
) -> Result<(), Fault>
    requires table { pass.old.table ≡ ring.now.table }
    requires opened { IsOpen ticket.id.0 pass.old }
    ensures { pass.new.table ≡ pass.old.table }
{
    let mut ticket = ticket;
    for look in 0..LOOKS {
        match pass.publish(ring, ticket, bytes) {
            Publication::Published(_) => return Ok(()),
            Publication::SlotBusy(again, _) => ticket = again,
            Publication::NotPublishable(_) => return Err(Fault::Refused),
        }
        rest(look);
    }
    Err(Fault::Stuck)
}

/// Reserves an id, and publishes a packet under it.
#[inline(always)]
pub fn send(ring: &Ring, pass: &mut ProducerPass, mark: Mark) -> Result<(), Fault>
    requires { pass.old.table ≡ ring.now.table }
    ensures { pass.new.table ≡ pass.old.table }
{
    let ticket = pass.reserve(ring)?;
    publish(ring, pass, ticket, &mark.bytes())
}

/// Sends so many packets, marked with the pass's producer.
fn send_all(ring: &Ring, pass: &mut ProducerPass, packets: u64) -> Result<(), Fault>
    requires { pass.old.table ≡ ring.now.table }
    ensures { pass.new.table ≡ pass.old.table }
{
    let producer = pass.number();
    for number in 0..packets {
        send(ring, pass, Mark { producer, number })?;
    }
    Ok(())
}

/// Sends so many packets from each pass, each on a thread of its own. What one can't send doesn't come, and
/// so is seen by the processor.
pub fn send_from_threads<R: Threads + Sync>(
    rt: &R,
    ring: &Ring,
    packets: u64,
    passes: &mut [ProducerPass],
)
    requires { All (λ pass. pass.table ≡ ring.now.table) passes.old }
{
    thread::for_each_mut(
        rt,
        passes,
        MOST_PRODUCERS,
        &|_, pass| {
            let _ = send_all(ring, pass, packets);
        },
    );
}

/// Takes the next packet, as soon as a look shows it.
#[inline(always)]
pub fn take(ring: &Ring, pass: &mut ProcessorPass) -> Result<Mark, Fault>
    requires { pass.old.table ≡ ring.now.table }
    ensures { pass.new.table ≡ pass.old.table }
{
    for look in 0..LOOKS {
        if let Peeked::Shown(shown) = pass.peek(ring) {
            pass.retire(ring, shown);
            return Mark::read(&shown.bytes).ok_or(Fault::NotWhole);
        }
        rest(look);
    }
    Err(Fault::Stuck)
}

/// Takes so many packets, each of which has to be the next of its producer.
pub fn take_all(ring: &Ring, pass: &mut ProcessorPass, packets: u64) -> Result<(), Fault>
    requires { pass.old.table ≡ ring.now.table }
{
    let mut next = [0u64; 256];
    for _taken in 0..packets {
        let mark = take(ring, pass)?;
        let wanted = next.get_mut(mark.producer as usize).ok_or(Fault::NotWhole)?;
        if mark.number != *wanted {
            return Err(Fault::NotWhole);
        }
        *wanted = mark.number.wrapping_add(1);
    }
    Ok(())
}
