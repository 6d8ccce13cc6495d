//! The program that measures, and that is refused memory. `bench ring PACKETS` measures the ring over atomics,
//! `bench lanes PACKETS` lanes over a core under its lock, `bench script PACKETS` the broker from a script's text to its
//! replies, `bench replay PACKETS` the replay of a journal beside the core that made its history, and
//! `bench kernels ITEMS` the executor of kernels. `bench joins` joins two parts of a history, and `bench wants` makes
//! calls of rings, lanes and a broker, each once more where it wants memory. `bench all PACKETS ITEMS` does all of this
//! but the replay. The figures go to standard error, and standard output says what is the same in every run.
#![tactic(auto)]

mod fault;
mod joins;
mod kernel_speed;
mod lane;
mod lane_speed;
mod mark;
mod replay_speed;
mod report;
mod ring_speed;
mod script_speed;
mod wants;

use clap::builder::ValueParser;
use clap::error::ErrorKind;
use clap::{Arg, ArgAction, ArgMatches, Command, Error};
use fault::Fault;
use joins::open_and_join;
use kernel_speed::MOST_ITEMS;
use lane_speed::MOST_LANE_PACKETS;
use replay_speed::MOST_REPLAYED;
use report::{measure_kernels, measure_lanes, measure_replay, measure_ring, measure_script};
use script_speed::MOST_PACKETS;
use std::alloc::{AllocError, Global};
use std::process::ExitCode;
use std::sync::Wait;
use std::thread::Threads;
use std::time::Clock;
use std::{env, io};
use wants::call_all;

/// How many packets a producer sends at the most, where the ring alone is measured.
const MOST_RING_PACKETS: u64 = 1_000_000_000;

/// How often everything is measured at the most.
const MOST_RUNS: u64 = 1_000;

/// The exit status for a command line that isn't understood.
const NOT_UNDERSTOOD: u8 = 2;

// The argument that says how many packets are sent.
fn packets<'a>(alloc: Global, most: u64, help: &'static str) -> Arg<'a> {
    Arg::new(alloc, "PACKETS")
        .required(true)
        .action(ArgAction::Set)
        .value_parser(ValueParser::Unsigned(1, most))
        .help(help)
}

// That argument where the ring alone is measured.
fn ring_packets<'a>(alloc: Global) -> Arg<'a> {
    packets(
        alloc,
        MOST_RING_PACKETS,
        "How many packets each producer sends, 1 to 1000000000",
    )
}

// That argument where lanes are measured.
fn lane_packets<'a>(alloc: Global) -> Arg<'a> {
    packets(
        alloc,
        MOST_LANE_PACKETS,
        "How many packets each producer sends, 1 to 5000",
    )
}

// That argument where a script is measured.
fn script_packets<'a>(alloc: Global) -> Arg<'a> {
    packets(
        alloc,
        MOST_PACKETS,
        "How many packets are sent, 1 to 300000",
    )
}

// That argument where a replay is measured.
fn replayed_packets<'a>(alloc: Global) -> Arg<'a> {
    packets(
        alloc,
        MOST_REPLAYED,
        "How many packets the history has, 1 to 340000, with three entries each",
    )
}

// The argument that says how many items are run.
fn items<'a>(alloc: Global) -> Arg<'a> {
    Arg::new(alloc, "ITEMS")
        .required(true)
        .action(ArgAction::Set)
        .value_parser(ValueParser::Unsigned(1, u64::from(MOST_ITEMS)))
        .help("How many items the work-group has, 1 to 1024")
}

// The argument that says how often all is measured.
fn runs<'a>(alloc: Global) -> Arg<'a> {
    Arg::new(alloc, "runs")
        .long("runs")
        .value_name("N")
        .action(ArgAction::Set)
        .value_parser(ValueParser::Unsigned(1, MOST_RUNS))
        .help("How often all is measured, 1 to 1000, of which the least is told; 1 if not given")
}

// The command that measures the ring.
fn ring_command<'a>(alloc: Global) -> Result<Command<'a>, AllocError> {
    Command::new(alloc, "ring")
        .about("Measures the ring over atomics, with 64 slots")
        .arg(ring_packets(alloc))?
        .arg(runs(alloc))
}

// The command that measures lanes.
fn lanes_command<'a>(alloc: Global) -> Result<Command<'a>, AllocError> {
    Command::new(alloc, "lanes")
        .about("Measures lanes over a core under its lock, from publish to finish")
        .arg(lane_packets(alloc))?
        .arg(runs(alloc))
}

// The command that measures scripts.
fn script_command<'a>(alloc: Global) -> Result<Command<'a>, AllocError> {
    Command::new(alloc, "script")
        .about("Measures a script: each packet is submitted, served, run and finished, a line each")
        .arg(script_packets(alloc))?
        .arg(runs(alloc))
}

// The command that measures a replay.
fn replay_command<'a>(alloc: Global) -> Result<Command<'a>, AllocError> {
    Command::new(alloc, "replay")
        .about("Measures the replay of a journal, beside the core that made its history")
        .arg(replayed_packets(alloc))?
        .arg(runs(alloc))
}

// The command that measures kernels.
fn kernels_command<'a>(alloc: Global) -> Result<Command<'a>, AllocError> {
    Command::new(alloc, "kernels")
        .about("Measures the executor, with some 65,500 steps an item")
        .arg(items(alloc))?
        .arg(runs(alloc))
}

// The command that joins parts.
fn joins_command<'a>(alloc: Global) -> Command<'a> {
    Command::new(alloc, "joins").about(
        "Joins two parts of a history, once more where that wants memory",
    )
}

// The command that makes calls which want memory.
fn wants_command<'a>(alloc: Global) -> Command<'a> {
    Command::new(alloc, "wants").about(
        "Makes calls of rings, lanes and a broker, each once more where it wants memory",
    )
}

// The command that does all.
fn all_command<'a>(alloc: Global) -> Result<Command<'a>, AllocError> {
    Command::new(alloc, "all")
        .about("Measures ring, lanes, scripts and kernels, and does what joins and wants do")
        .arg(script_packets(alloc))?
        .arg(items(alloc))?
        .arg(runs(alloc))
}

// The command line that the program understands.
fn command<'a>(alloc: Global) -> Result<Command<'a>, AllocError> {
    let ring = ring_command(alloc)?;
    let lanes = lanes_command(alloc)?;
    let script = script_command(alloc)?;
    let replay = replay_command(alloc)?;
    let kernels = kernels_command(alloc)?;
    let joins = joins_command(alloc);
    let wants = wants_command(alloc);
    let all = all_command(alloc)?;
    Command::new(alloc, "bench")
        .about("Measures the broker, and wants memory; the figures go to standard error")
        .version("0.1.0")
        .subcommand_required(true)
        .subcommand(ring)?
        .subcommand(lanes)?
        .subcommand(script)?
        .subcommand(replay)?
        .subcommand(kernels)?
        .subcommand(joins)?
        .subcommand(wants)?
        .subcommand(all)
}

// What a command line asks for.
#[derive(Clone, Copy)]
struct Request {
    // How many packets each producer sends, where the ring is measured.
    ring: Option<u64>,
    // The same where lanes are.
    lanes: Option<u64>,
    // How many packets a script has, where one is measured.
    script: Option<u64>,
    // How many packets a history has, where its replay is measured.
    replay: Option<u64>,
    // How many items a kernel has, where kernels are measured.
    items: Option<u32>,
    // Whether parts are joined.
    joins: bool,
    // Whether calls are made that want memory.
    wants: bool,
    // How often all is measured.
    runs: u64,
}

// Measures what is asked for.
fn measure<R: Print + Eprint + Clock + AllocGlobal + Threads + Wait + Sync>(
    rt: &R,
    request: Request,
) -> Result<(), Fault> {
    if let Some(packets) = request.ring {
        measure_ring(rt, packets, request.runs)?;
    }
    if let Some(packets) = request.lanes {
        measure_lanes(rt, packets, request.runs)?;
    }
    if let Some(packets) = request.script {
        measure_script(rt, packets, request.runs)?;
    }
    if let Some(packets) = request.replay {
        measure_replay(rt, packets, request.runs)?;
    }
    if let Some(items) = request.items {
        measure_kernels(rt, items, request.runs)?;
    }
    Ok(())
}

// Does what is asked for.
fn perform<R: Print + Eprint + Clock + AllocGlobal + Threads + Wait + Sync>(
    rt: &R,
    host: &HostRuntime,
    request: Request,
) -> Result<(), Fault> {
    measure(rt, request)?;
    if request.joins {
        open_and_join(host)?;
    }
    if request.wants {
        call_all(rt, host)?;
    }
    Ok(())
}

// What the words of a command line are, if they are understood.
fn matched<'a>(alloc: Global, words: &'a [String]) -> Result<ArgMatches<'a>, Error> {
    command(alloc)?.try_get_matches_from(words)
}

// Tells what a command line is refused for, or its help, and the exit status.
fn refused(rt: &HostRuntime, error: &Error) -> u8 {
    if error.kind() == ErrorKind::OutOfMemory {
        return failed(rt, Fault::OutOfMemory);
    }
    let _ = error.print(rt);
    if error.use_stderr() {
        NOT_UNDERSTOOD
    } else {
        0
    }
}

// What a command line asks for; or else the exit status, after what it is refused for, or its help, is
// told.
fn understand(rt: &HostRuntime, words: &[String]) -> Result<Request, u8> {
    match matched(rt.alloc(), words) {
        Ok(matches) => requested(&matches).ok_or(NOT_UNDERSTOOD),
        Err(error) => Err(refused(rt, &error)),
    }
}

// What the words of a command line ask for.
fn requested(matches: &ArgMatches<'_>) -> Option<Request> {
    let (name, asked) = matches.subcommand()?;
    let packets = asked.get_one("PACKETS");
    let all = name == "all";
    Some(Request {
        ring: packets.filter(|_| all || name == "ring"),
        lanes: packets.filter(|_| all || name == "lanes"),
        script: packets.filter(|_| all || name == "script"),
        replay: packets.filter(|_| name == "replay"),
        items: asked.get_one("ITEMS"),
        joins: all || name == "joins",
        wants: all || name == "wants",
        runs: asked.get_one("runs").unwrap_or(1),
    })
}

// Tells what failed, and the exit status.
fn failed(rt: &impl Eprint, fault: Fault) -> u8 {
    let _ = eprintln!(rt; "{fault}");
    fault.status()
}

// The words of the command line, the program's own name first.
fn words(rt: &HostRuntime) -> io::Result<Vec<String>> {
    Ok(env::args(rt)?.collect(rt.alloc())?)
}

// What the program's command line asks for, or else the exit status.
fn asked(rt: &HostRuntime) -> Result<Request, u8> {
    match words(rt) {
        Ok(words) => understand(rt, words.as_slice()),
        Err(_) => Err(failed(rt, Fault::OutOfMemory)),
    }
}

fn main(rt: HostRuntime) -> ExitCode {
    let request = match asked(&rt) {
        Ok(request) => request,
        Err(status) => return ExitCode::from(status),
    };
    match perform(&rt, &rt, request) {
        Ok(()) => ExitCode::SUCCESS,
        Err(fault) => ExitCode::from(failed(&rt, fault)),
    }
}
