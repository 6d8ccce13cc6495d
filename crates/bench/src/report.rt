//! What is measured, and what is told of it.

use crate::fault::Fault;
use crate::kernel_speed::{Taken, count, meet, store};
use crate::lane_speed::{MOST_LANE_PACKETS, lanes};
use crate::replay_speed::{Replayed, time_replay};
use crate::ring_speed::{many_threads, one_thread};
use crate::script_speed::{LINES, serve};
use std::sync::Wait;
use std::thread::Threads;
use std::time::{Clock, Duration};

/// With how many producers the ring is measured.
const PRODUCERS: [u64; 5] = [1, 2, 4, 8, 16];

// Nanoseconds a packet, whole ones and tenths, where so many packets took so long.
fn each(packets: u64, least: Duration) -> (u128, u128) {
    let tenths = least.as_nanos() * 10 / u128::from(packets.max(1));
    (tenths / 10, tenths % 10)
}

// The least time of all runs on one thread.
fn least_of_one(
    rt: &(impl Clock + AllocGlobal),
    packets: u64,
    runs: u64,
) -> Result<Duration, Fault> {
    let mut least = one_thread(rt, rt.alloc(), packets)?;
    for _ in 1..runs {
        least = least.min(one_thread(rt, rt.alloc(), packets)?);
    }
    Ok(least)
}

// Measures one thread.
fn measure_one<R: Print + Eprint + Clock + AllocGlobal>(
    rt: &R,
    packets: u64,
    runs: u64,
) -> Result<(), Fault> {
    let (whole, tenth) = each(packets, least_of_one(rt, packets, runs)?);
    println!(rt; "one thread: {packets} packets, each whole")?;
    eprintln!(rt; "one thread: {whole}.{tenth} ns a packet")?;
    Ok(())
}

// The least time of all runs with so many producers.
fn least_of_many<R: Clock + AllocGlobal + Threads + Sync>(
    rt: &R,
    packets: u64,
    runs: u64,
    producers: u64,
) -> Result<Duration, Fault> {
    let mut least = many_threads(rt, rt.alloc(), producers, packets)?;
    for _ in 1..runs {
        least = least.min(many_threads(rt, rt.alloc(), producers, packets)?);
    }
    Ok(least)
}

// Measures so many producers, each on a thread, and the processor on another.
fn measure_many<R: Print + Eprint + Clock + AllocGlobal + Threads + Sync>(
    rt: &R,
    packets: u64,
    runs: u64,
    producers: u64,
) -> Result<(), Fault> {
    let all = packets.saturating_mul(producers);
    let (whole, tenth) = each(all, least_of_many(rt, packets, runs, producers)?);
    println!(rt; "producers {producers}: {all} packets, each whole and in order")?;
    eprintln!(rt; "producers {producers}: {whole}.{tenth} ns a packet")?;
    Ok(())
}

/// Measures the ring, with more and more threads.
pub fn measure_ring<R: Print + Eprint + Clock + AllocGlobal + Threads + Sync>(
    rt: &R,
    packets: u64,
    runs: u64,
) -> Result<(), Fault> {
    measure_one(rt, packets, runs)?;
    for producers in PRODUCERS {
        measure_many(rt, packets, runs, producers)?;
    }
    Ok(())
}

/// How many lanes are measured, each with how many producers.
const LANES: [(usize, u64); 9] = [
    (1, 1),
    (1, 4),
    (1, 16),
    (2, 1),
    (2, 4),
    (2, 16),
    (4, 1),
    (4, 4),
    (4, 16),
];

// The least time of all runs with so many lanes.
fn least_of_lanes<R: Clock + AllocGlobal + Threads + Wait + Sync>(
    rt: &R,
    packets: u64,
    runs: u64,
    (count, producers): (usize, u64),
) -> Result<Duration, Fault> {
    let mut least = lanes(rt, rt.alloc(), count, producers, packets)?;
    for _ in 1..runs {
        least = least.min(lanes(rt, rt.alloc(), count, producers, packets)?);
    }
    Ok(least)
}

// Measures so many lanes, each with so many producers on threads of their own.
fn measure_some_lanes<R: Print + Eprint + Clock + AllocGlobal + Threads + Wait + Sync>(
    rt: &R,
    packets: u64,
    runs: u64,
    shape: (usize, u64),
) -> Result<(), Fault> {
    let (count, producers) = shape;
    let all = packets
        .saturating_mul(producers)
        .saturating_mul(count as u64);
    let (whole, tenth) = each(all, least_of_lanes(rt, packets, runs, shape)?);
    println!(rt; "lanes {count}, producers {producers} each: {all} packets, each finished")?;
    eprintln!(rt; "lanes {count}, producers {producers} each: {whole}.{tenth} ns a packet")?;
    Ok(())
}

/// Measures lanes over a core under its lock, with more and more threads; each producer sends so many packets, at most
/// 5,000.
pub fn measure_lanes<R: Print + Eprint + Clock + AllocGlobal + Threads + Wait + Sync>(
    rt: &R,
    packets: u64,
    runs: u64,
) -> Result<(), Fault> {
    for shape in LANES {
        measure_some_lanes(rt, packets.min(MOST_LANE_PACKETS), runs, shape)?;
    }
    Ok(())
}

// Whole millions of steps a second.
fn millions(taken: Taken) -> u128 {
    u128::from(taken.steps) * 1_000 / taken.time.as_nanos().max(1)
}

// The faster of two runs.
fn faster(one: Taken, other: Taken) -> Taken {
    if other.time < one.time { other } else { one }
}

/// Measures kernels: items that count in registers, that load, add and store, and that meet at barriers.
pub fn measure_kernels<R: Print + Eprint + Clock + AllocGlobal>(
    rt: &R,
    items: u32,
    runs: u64,
) -> Result<(), Fault> {
    let mut counted = count(rt, rt.alloc(), items)?;
    let mut stored = store(rt, rt.alloc(), items)?;
    let mut met = meet(rt, rt.alloc(), items)?;
    for _ in 1..runs {
        counted = faster(counted, count(rt, rt.alloc(), items)?);
        stored = faster(stored, store(rt, rt.alloc(), items)?);
        met = faster(met, meet(rt, rt.alloc(), items)?);
    }
    let counting = millions(counted);
    let storing = millions(stored);
    let meeting = millions(met);
    println!(rt; "counting: {items} items, each to its end")?;
    eprintln!(rt; "counting: {counting} million steps a second")?;
    println!(rt; "storing: {items} items, and what they stored adds up")?;
    eprintln!(rt; "storing: {storing} million steps a second")?;
    println!(rt; "meeting: {items} items, and what they added is there")?;
    eprintln!(rt; "meeting: {meeting} million steps a second")?;
    Ok(())
}

// Lines a second, where so many packets took so long.
fn lines_a_second(packets: u64, time: Duration) -> u128 {
    u128::from(packets) * u128::from(LINES) * 1_000_000_000 / time.as_nanos().max(1)
}

/// Measures a script that submits, serves, runs and finishes so many packets.
pub fn measure_script<R: Print + Eprint + Clock + AllocGlobal>(
    rt: &R,
    packets: u64,
    runs: u64,
) -> Result<(), Fault> {
    let mut least = serve(rt, rt.alloc(), packets)?;
    for _ in 1..runs {
        least = least.min(serve(rt, rt.alloc(), packets)?);
    }
    let lines = lines_a_second(packets, least);
    println!(rt; "script: {packets} packets, each reply as wanted")?;
    eprintln!(rt; "script: {lines} lines a second")?;
    Ok(())
}

// Of two runs the least times of both.
fn least_of(one: Replayed, other: Replayed) -> Replayed {
    Replayed {
        entries: one.entries,
        made: one.made.min(other.made),
        replayed: one.replayed.min(other.replayed),
    }
}

// How many tenths the replay took of what the core did.
fn tenths(least: Replayed) -> u128 {
    least.replayed.as_nanos() * 10 / least.made.as_nanos().max(1)
}

/// Measures the replay of a journal of so many packets, beside what the core took that made its history.
pub fn measure_replay<R: Print + Eprint + Clock + AllocGlobal>(
    rt: &R,
    packets: u64,
    runs: u64,
) -> Result<(), Fault> {
    let mut least = time_replay(rt, rt.alloc(), packets)?;
    for _ in 1..runs {
        least = least_of(least, time_replay(rt, rt.alloc(), packets)?);
    }
    let entries = least.entries;
    let (made, made_tenth) = each(entries, least.made);
    let (told, told_tenth) = each(entries, least.replayed);
    let (times, tenth) = (tenths(least) / 10, tenths(least) % 10);
    println!(rt; "replay: {entries} entries, all legal")?;
    eprintln!(rt; "core: {made}.{made_tenth} ns an entry")?;
    eprintln!(rt; "replay: {told}.{told_tenth} ns an entry, {times}.{tenth} times the core")?;
    Ok(())
}
