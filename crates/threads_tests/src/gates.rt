//! Lanes run at once, and their gate is told what they did.

ghost use Rattle.std.specs.Prelude.{◌≡◌};

use crate::stages::{publish_last, reaches, run_with, stage, unnamed};
use aql_packet::PacketId;
use client_threads::{Advanced, Gate, LaneAnswer, Room, ServeAnswer, UnnamedBroker};
use std::alloc::Global;
use std::marker::Brand;
use std::sync::Wait;
use std::sync::atomic::{AtomicU64, Ordering};
use std::thread::Threads;

/// How many turns a lane makes.
const TURNS: u64 = 100;

/// Holds one lane in its first `enter` until another has left.
#[derive(Drop)]
struct HeldLane {
    held: u32,
    left: AtomicU64,
    let_in: AtomicU64,
}

impl Gate for HeldLane {
    fn enter(&self, lane: u32, turn: u64) -> bool {
        if lane == self.held && turn == 1 {
            if !reaches(&self.left, 1) {
                return false;
            }
            self.let_in.store(1, Ordering::SeqCst);
        }
        turn <= TURNS
    }

    fn leave(&self, lane: u32, _turn: u64, _done: LaneAnswer) {
        if lane != self.held {
            self.left.store(1, Ordering::SeqCst);
        }
    }
}

/// Holds each of two lanes in its first `enter` until both have entered.
#[derive(Drop)]
struct BothIn {
    entered: AtomicU64,
    let_in: AtomicU64,
}

impl Gate for BothIn {
    fn enter(&self, _lane: u32, turn: u64) -> bool {
        if turn == 1 {
            self.entered.fetch_add(1, Ordering::SeqCst);
            if !reaches(&self.entered, 2) {
                return false;
            }
            self.let_in.fetch_add(1, Ordering::SeqCst);
        }
        turn <= TURNS
    }

    fn leave(&self, _lane: u32, _turn: u64, _done: LaneAnswer) {}
}

/// How many turns each lane makes that is told of.
const TOLD_TURNS: u64 = 5;

/// Counts the turns of two lanes of which it is told what they make.
#[derive(Drop)]
struct ToldTurns {
    told: AtomicU64,
}

impl Gate for ToldTurns {
    fn enter(&self, _lane: u32, turn: u64) -> bool {
        turn <= TOLD_TURNS
    }

    fn leave(&self, lane: u32, turn: u64, done: LaneAnswer) {
        if done == made(lane, turn) {
            self.told.fetch_add(1, Ordering::SeqCst);
        }
    }
}

// What the second lane makes of its two packets, turn by turn: a packet is launched, its only group runs, and it is
// finished.
fn made_of_two(turn: u64) -> (ServeAnswer, Advanced) {
    let first = PacketId(0);
    let second = PacketId(1);
    match turn {
        1 => (ServeAnswer::Launched(first), Advanced::Ran(first)),
        2 => (ServeAnswer::Launched(second), Advanced::Finished(first)),
        3 => (ServeAnswer::Empty, Advanced::Ran(second)),
        4 => (ServeAnswer::Empty, Advanced::Finished(second)),
        _ => (ServeAnswer::Empty, Advanced::Idle),
    }
}

// What a lane makes in a turn. The first has no packet.
fn made(lane: u32, turn: u64) -> LaneAnswer {
    let (served, advanced) = if lane == 2 {
        made_of_two(turn)
    } else {
        (ServeAnswer::Empty, Advanced::Idle)
    };
    LaneAnswer { served, advanced }
}

// Whether a lane that is held until another has left once gets in.
fn named_lets_in<B: Room + Send + Sync, R: Threads + Wait + Sync>(
    rt: &R,
    alloc: Global,
    unnamed: UnnamedBroker,
    held: u32,
) -> bool
    requires { (unnamed.board ≡ B.board) × (unnamed.core ≡ B.opened) }
{
    let Some(stage) = stage::<B>(alloc, unnamed, 2, 1) else {
        return false;
    };
    let gate = HeldLane {
        held,
        left: AtomicU64::new(0),
        let_in: AtomicU64::new(0),
    };
    let _stage = run_with(rt, alloc, stage, &gate);
    gate.let_in.load(Ordering::SeqCst) == 1
}

// The same, of a broker that is opened for it.
fn lets_in<R: Threads + Wait + Sync>(rt: &R, alloc: Global, held: u32) -> bool {
    match unnamed(alloc) {
        Some(unnamed) => named_lets_in::<Brand, R>(rt, alloc, unnamed, held),
        None => false,
    }
}

// Whether two lanes get in that are held until both are there.
fn named_lets_both_in<B: Room + Send + Sync, R: Threads + Wait + Sync>(
    rt: &R,
    alloc: Global,
    unnamed: UnnamedBroker,
) -> bool
    requires { (unnamed.board ≡ B.board) × (unnamed.core ≡ B.opened) }
{
    let Some(stage) = stage::<B>(alloc, unnamed, 2, 1) else {
        return false;
    };
    let gate = BothIn {
        entered: AtomicU64::new(0),
        let_in: AtomicU64::new(0),
    };
    let _stage = run_with(rt, alloc, stage, &gate);
    gate.let_in.load(Ordering::SeqCst) == 2
}

// The same, of a broker that is opened for it.
fn lets_both_in<R: Threads + Wait + Sync>(rt: &R, alloc: Global) -> bool {
    match unnamed(alloc) {
        Some(unnamed) => named_lets_both_in::<Brand, R>(rt, alloc, unnamed),
        None => false,
    }
}

// Of how many turns the gate of two lanes, the second with two packets, is told what they make.
fn named_count_told<B: Room + Send + Sync, R: Threads + Wait + Sync>(
    rt: &R,
    alloc: Global,
    unnamed: UnnamedBroker,
) -> Option<u64>
    requires { (unnamed.board ≡ B.board) × (unnamed.core ≡ B.opened) }
{
    let stage = publish_last(stage::<B>(alloc, unnamed, 2, 1)?, 2)?;
    let gate = ToldTurns {
        told: AtomicU64::new(0),
    };
    let _stage = run_with(rt, alloc, stage, &gate);
    Some(gate.told.load(Ordering::SeqCst))
}

// The same, of a broker that is opened for it.
fn count_told<R: Threads + Wait + Sync>(rt: &R, alloc: Global) -> Option<u64> {
    named_count_told::<Brand, R>(rt, alloc, unnamed(alloc)?)
}

#[test]
fn a_lane_gets_on_while_another_is_held(rt: HostRuntime) {
    assert!(rt; lets_in(&rt, rt.alloc(), 1));
    assert!(rt; lets_in(&rt, rt.alloc(), 2));
}

#[test]
fn two_lanes_are_inside_at_once(rt: HostRuntime) {
    assert!(rt; lets_both_in(&rt, rt.alloc()));
}

#[test]
fn a_gate_is_told_of_each_turn_what_it_made(rt: HostRuntime) {
    assert!(rt; count_told(&rt, rt.alloc()) == Some(2 * TOLD_TURNS));
}
