//! Arrows: from the entry that made a signal 0 to the poll that saw it.

ghost use Rattle.std.specs.Prelude.{◌≡◌, ◌<◌, ◌==◌, ◌++◌, ◌∷◌, [], OnOk, Some, None, if◌then◌else◌};
ghost use Rattle.picture.specs.Arrows.{zero_by, zeros_after, last_zero, signal_at, dependency_of, dependency_at, arrow_from};

use crate::element::Spot;
use crate::said::is_seen;
use crate::seats::{Seat, seat_of};
use aql_packet::{Packet, PacketId, QueueId, SignalHandle};
use core_model::{Effect, Satisfied};
use std::alloc::AllocError;

/// A signal that was made 0, and where.
#[derive(Clone, Copy)]
pub struct Zero {
    pub signal: SignalHandle,
    pub spot: Spot,
}

// Puts a signal behind those that were made 0.
fn put_zero(zeros: &mut Vec<Zero>, zero: Zero) -> Result<(), AllocError>
    ensures { OnOk result (zeros.new.items ≡ zeros.old.items ++ zero ∷ []) }
{
    Ok(zeros.push(zero)?)
}

// Notes the signal that a change at a place makes 0, if it makes one 0.
fn note_zero(zeros: &mut Vec<Zero>, spot: Spot, effect: &Effect) -> Result<(), AllocError>
    ensures { OnOk result (zeros.new.items ≡ zeros.old.items ++ zero_by spot effect.now) }
{
    match effect {
        Effect::Signal { signal, new, .. } if *new == 0 => {
            let signal = *signal;
            put_zero(zeros, Zero { signal, spot })
        }
        _ => Ok(()),
    }
}

/// Notes the signals that an entry at a place makes 0.
pub(crate) fn note_zeros(
    zeros: &mut Vec<Zero>,
    spot: Spot,
    effects: &[Effect],
) -> Result<(), AllocError>
    ensures { OnOk result (zeros.new.items ≡ zeros_after zeros.old.items spot effects.now) }
{
    for effect in effects {
        note_zero(zeros, spot, effect)?;
    }
    Ok(())
}

// The place of a zero, if it is of a signal; else the place found before.
fn latest(found: Option<Spot>, zero: &Zero, signal: u64) -> Option<Spot>
    ensures { result ≡ (if zero.now.signal.0 == signal then Some zero.now.spot else found) }
{
    if zero.signal.0 == signal {
        Some(zero.spot)
    } else {
        found
    }
}

// Where a signal was made 0 last.
fn last_zero(signal: u64, zeros: &[Zero]) -> Option<Spot>
    ensures { result ≡ last_zero signal None zeros.now }
{
    let mut found = None;
    'zeros: for index in 0..zeros.len() {
        let zero = &zeros[index];
        found = latest(found, zero, signal);
    }
    found
}

// A signal of five, by its place.
fn signal_at(signals: &[SignalHandle; 5], position: usize) -> u64
    requires { position < 5 }
    ensures { result ≡ (signal_at signals.now position).0 }
{
    signals[position].0
}

// The signal that a packet depends on at a position; 0 is none.
fn dependency_of(packet: &Packet, position: usize) -> u64
    requires { position < 5 }
    ensures { result ≡ dependency_of packet.now position }
{
    match packet {
        Packet::BarrierAnd(barrier) => signal_at(&barrier.dependencies, position),
        Packet::BarrierOr(barrier) => signal_at(&barrier.dependencies, position),
        Packet::Kernel(_) | Packet::Agent(_) => 0,
    }
}

// The signal that a packet in flight depends on at a position; 0 is none.
fn dependency_at(seats: &[Seat], queue: QueueId, packet: PacketId, position: usize) -> u64
    requires { position < 5 }
    ensures { result ≡ dependency_at seats.now queue packet position }
{
    match seat_of(seats, queue, packet) {
        Some(seat) => dependency_of(&seat.flying.packet, position),
        None => 0,
    }
}

/// Where the arrow comes from to a poll that saw a signal as 0, at a position from 0.
pub(crate) fn arrow_from(
    seats: &[Seat],
    zeros: &[Zero],
    queue: QueueId,
    packet: PacketId,
    seen: Satisfied,
    position: usize,
) -> Option<Spot>
    requires { position < 5 }
    ensures { result ≡ arrow_from seats.now zeros.now queue packet seen position }
{
    if is_seen(seen, position) {
        last_zero(dependency_at(seats, queue, packet, position), zeros)
    } else {
        None
    }
}
