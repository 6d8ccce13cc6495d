//! The measurement of scripts: packets that are submitted, served, run and finished, a line each.

use crate::fault::Fault;
use aql_packet::{Address, AgentDispatch, Header, Packet, Scope, SignalHandle, encode};
use commands::{Status, run_policy};
use script::Noted;
use std::alloc::{AllocError, Global};
use std::time::{Clock, Duration, Instant};

/// How many packets a script has at the most: the largest audit has room for the three entries of each.
pub const MOST_PACKETS: u64 = 300_000;

/// How many lines each packet has.
pub const LINES: u64 = 4;

/// The most entries of an audit.
pub const PLACES: usize = 1 << 20;

/// A client that may use an agent, write a region and change a signal.
pub const POLICY: &str = r#"
client = [{ name = "sender" }]
agent = [{ name = "engine", takes = ["agent"] }]
region = [{ name = "cells", length = 64 }]
signal = [{ name = "through", initial = 1 }]
allow = [
    { client = "sender", kind = "agent", object = "engine", rights = ["USE"] },
    { client = "sender", kind = "region", object = "cells", rights = ["WRITE"] },
    { client = "sender", kind = "signal", object = "through", rights = ["CHANGE"] },
]
"#;

/// The client gets its rights, and a queue of 64 slots.
const OPENING: &str = "grant sender agent engine USE
grant sender region cells WRITE
grant sender signal through CHANGE
queue sender engine 64 1
";

/// What the opening is answered.
const OPENED: &str = "ok\nok\nok\nqueue 1\n";

/// An agent dispatch that fills 4 bytes at the region's first address, and completes by the signal.
pub const FILL: Packet = Packet::Agent(AgentDispatch {
    header: Header {
        barrier: false,
        acquire: Scope::System,
        release: Scope::System,
    },
    function: 0x8000,
    return_address: Address(0),
    arguments: [0x1_0000_0000, 4, 0x5a, 0],
    completion_signal: SignalHandle(1),
});

/// Bytes as scripts write them: in order, two digits each.
fn spelled(alloc: Global, bytes: &[u8]) -> Result<String, AllocError> {
    let mut text = String::new(alloc);
    for byte in bytes {
        write!(text, "{byte:02x}")?;
    }
    Ok(text)
}

/// The lines of so many packets, each through before the next comes.
fn script(alloc: Global, packets: u64) -> Result<String, AllocError> {
    let fill = spelled(alloc, &encode(&FILL))?;
    let mut text = String::new(alloc);
    text.push_str(OPENING)?;
    for packet in 0..packets {
        write!(
            text,
            "submit 1 1 {fill}\nserve 1\nrun 1 {packet}\nfinish 1 {packet}\n"
        )?;
    }
    Ok(text)
}

/// The replies to these lines.
fn replies(alloc: Global, packets: u64) -> Result<String, AllocError> {
    let mut text = String::new(alloc);
    text.push_str(OPENED)?;
    for packet in 0..packets {
        write!(
            text,
            "published {packet}\nlaunched {packet}\nran 0 left 0\nok\n"
        )?;
    }
    Ok(text)
}

/// Runs a script, and tells its replies where it ended well.
fn run(alloc: Global, script: &str) -> Result<Vec<u8>, Fault> {
    let mut reader = script.as_bytes();
    let mut out = Vec::new(alloc);
    let mut err = Vec::new(alloc);
    let policy = POLICY.as_bytes();
    let ended = run_policy(
        alloc,
        policy,
        PLACES,
        &mut Noted::new(&mut reader),
        &mut Noted::new(&mut out),
        &mut Noted::new(&mut err),
    );
    match ended {
        Status::Done => Ok(out),
        _ => Err(Fault::Script),
    }
}

/// Measures a script of so many packets, from its text to its replies, which have to be those wanted.
pub fn serve(rt: &impl Clock, alloc: Global, packets: u64) -> Result<Duration, Fault> {
    let script = script(alloc, packets)?;
    let wanted = replies(alloc, packets)?;
    let start = Instant::now(rt)?;
    let out = run(alloc, script.as_str())?;
    let time = start.elapsed(rt)?;
    if out.as_slice() != wanted.as_bytes() {
        return Err(Fault::OtherReplies);
    }
    Ok(time)
}
