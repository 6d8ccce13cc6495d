//! The options at the end of a line, in any order.

use crate::fault::{Fault, Want};
use crate::operands::{Read, address, fault_at, next, signal, size};
use aql_packet::{Address, Header, Scope, SignalHandle};
use policy::Policy;
use words::{is_word, split_word};

/// The packet that a line is about.
#[derive(Clone, Copy, PartialEq, Eq)]
pub enum PacketKind {
    Dispatch,
    Agent,
    Barrier,
}

/// What the options of a line say, or what holds where they don't.
#[derive(Clone, Copy)]
pub struct Options {
    /// `barrier`, `acquire=..`, `release=..`; both scopes are that of the system where nothing is said.
    pub header: Header,
    /// `signal NAME`, or the null signal.
    pub completion: SignalHandle,
    /// `at ADDRESS`: where the argument block of a dispatch lies.
    pub block: Option<Address>,
    /// `group-bytes N`: the group memory of a dispatch, where it isn't what the kernel's variables take.
    pub group_bytes: Option<u32>,
    /// `private-bytes N`, or none.
    pub private_bytes: u32,
    /// `return ADDRESS`: where the result of an agent's function goes, or nowhere.
    pub result: Address,
}

impl Options {
    /// What holds where nothing is said.
    pub fn unsaid() -> Options {
        Options {
            header: Header {
                barrier: false,
                acquire: Scope::System,
                release: Scope::System,
            },
            completion: SignalHandle(0),
            block: None,
            group_bytes: None,
            private_bytes: 0,
            result: Address(0),
        }
    }
}

// The header with what a word says of it, if it says something.
fn with_header(header: Header, word: &[u8]) -> Option<Header> {
    let mut next = header;
    if is_word(word, "barrier") {
        next.barrier = true;
    } else if is_word(word, "acquire=none") {
        next.acquire = Scope::None;
    } else if is_word(word, "acquire=agent") {
        next.acquire = Scope::Agent;
    } else if is_word(word, "acquire=system") {
        next.acquire = Scope::System;
    } else if is_word(word, "release=none") {
        next.release = Scope::None;
    } else if is_word(word, "release=agent") {
        next.release = Scope::Agent;
    } else if is_word(word, "release=system") {
        next.release = Scope::System;
    } else {
        return None;
    }
    Some(next)
}

// What is wanted where a word is no option of such a packet.
fn wanted_option(kind: PacketKind) -> Want {
    match kind {
        PacketKind::Dispatch => Want::DispatchOption,
        PacketKind::Agent => Want::AgentOption,
        PacketKind::Barrier => Want::BarrierOption,
    }
}

// `signal NAME`
fn with_signal<'a>(policy: &Policy, said: Options, line: &'a [u8]) -> Read<'a, Options> {
    let (completion, rest) = signal(policy, line, Want::Signal)?;
    Ok((Options { completion, ..said }, rest))
}

// `at ADDRESS`
fn with_block<'a>(policy: &Policy, said: Options, line: &'a [u8]) -> Read<'a, Options> {
    let (block, rest) = address(policy, line, Want::Address)?;
    let block = Some(block);
    Ok((Options { block, ..said }, rest))
}

// `group-bytes N`
fn with_group_bytes(said: Options, line: &[u8]) -> Read<'_, Options> {
    let (bytes, rest) = size(line)?;
    let group_bytes = Some(bytes);
    Ok((
        Options {
            group_bytes,
            ..said
        },
        rest,
    ))
}

// `private-bytes N`
fn with_private_bytes(said: Options, line: &[u8]) -> Read<'_, Options> {
    let (private_bytes, rest) = size(line)?;
    Ok((
        Options {
            private_bytes,
            ..said
        },
        rest,
    ))
}

// `return ADDRESS`
fn with_result<'a>(policy: &Policy, said: Options, line: &'a [u8]) -> Read<'a, Options> {
    let (result, rest) = address(policy, line, Want::Address)?;
    Ok((Options { result, ..said }, rest))
}

// An option with an operand, by its word and what stands behind it; `line` begins with the word.
fn with_operand<'a>(
    policy: &Policy,
    kind: PacketKind,
    said: Options,
    line: &'a [u8],
) -> Read<'a, Options> {
    let (word, rest) = next(line, wanted_option(kind))?;
    if is_word(word, "signal") {
        return with_signal(policy, said, rest);
    }
    if kind == PacketKind::Dispatch && is_word(word, "at") {
        return with_block(policy, said, rest);
    }
    if kind == PacketKind::Dispatch && is_word(word, "group-bytes") {
        return with_group_bytes(said, rest);
    }
    if kind == PacketKind::Dispatch && is_word(word, "private-bytes") {
        return with_private_bytes(said, rest);
    }
    if kind == PacketKind::Agent && is_word(word, "return") {
        return with_result(policy, said, rest);
    }
    Err(fault_at(line, wanted_option(kind)))
}

// The option that a line begins with.
fn read_option<'a>(
    policy: &Policy,
    kind: PacketKind,
    said: Options,
    line: &'a [u8],
) -> Read<'a, Options> {
    let (word, rest) = next(line, wanted_option(kind))?;
    match with_header(said.header, word) {
        Some(header) => Ok((Options { header, ..said }, rest)),
        None => with_operand(policy, kind, said, line),
    }
}

/// The options of a packet to the end of the line.
pub fn read_options(policy: &Policy, kind: PacketKind, line: &[u8]) -> Result<Options, Fault> {
    let mut said = Options::unsaid();
    let mut rest = line;
    for _ in 0..line.len() {
        if split_word(rest).is_none() {
            return Ok(said);
        }
        (said, rest) = read_option(policy, kind, said, rest)?;
    }
    Ok(said)
}

/// Whether a word begins an option of a barrier packet.
pub fn is_option(word: &[u8]) -> bool {
    is_word(word, "signal") || with_header(Options::unsaid().header, word).is_some()
}
