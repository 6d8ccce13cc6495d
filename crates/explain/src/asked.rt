//! What a line asks, as far as an explanation of its reply needs it.

use aql_packet::{Address, AgentHandle, ClientId, PacketId, QueueId, SignalHandle, is_invalid};
use core_model::{Call, Query};
use policy::{Object, Right, Rights};
use ring_core::Access;
use script::Command;
use world::Request;

/// What a line asks, without its bytes (own).
#[derive(Clone, Copy)]
pub enum Asked {
    /// To give or to take rights.
    Rights {
        client: ClientId,
        object: Object,
        rights: Rights,
    },
    /// To open a queue.
    Opening {
        client: ClientId,
        agent: AgentHandle,
        size: u64,
        producers: u64,
    },
    /// To read or to write memory.
    Memory {
        client: ClientId,
        address: Address,
        length: u64,
        right: Right,
    },
    /// To change a signal, or to look at it.
    Signal {
        client: ClientId,
        signal: SignalHandle,
        right: Right,
    },
    /// What a client has.
    Listing {
        client: ClientId,
    },
    /// Something of a packet in flight.
    Flying {
        queue: QueueId,
        packet: PacketId,
        verb: Verb,
    },
    /// A step of a producer on a ring, under a ticket if it has one.
    Producing {
        queue: QueueId,
        producer: u64,
        ticket: Option<PacketId>,
        stored: Stored,
    },
    /// A step of a queue's processor.
    Processing {
        queue: QueueId,
        verb: Verb,
    },
    /// To put a further policy in force.
    Reloading,
    /// Something else of a queue.
    Queue {
        queue: QueueId,
    },
    /// Something that nothing refuses.
    Nothing,
}

/// What a producer's step stores.
#[derive(Clone, Copy, PartialEq, Eq)]
pub enum Stored {
    /// No word, or a whole packet.
    Nothing,
    /// A word of a packet's body, by its number.
    Word(u64),
    /// A header, of the type INVALID or not.
    Header { is_invalid: bool },
}

/// What is done to a packet.
#[derive(Clone, Copy, PartialEq, Eq)]
pub enum Verb {
    Run,
    Poll,
    Finish,
    Look,
    Part,
    /// `part` of a word that a body doesn't have.
    NoPart,
    Peek,
    Take,
    Clear,
    Advance,
    Retire,
    Serve,
}

/// The queue that a line asks something of; 0 where it asks nothing of one.
pub fn queue_of(asked: Asked) -> QueueId {
    match asked {
        Asked::Flying { queue, .. }
        | Asked::Producing { queue, .. }
        | Asked::Processing { queue, .. }
        | Asked::Queue { queue } => queue,
        _ => QueueId(0),
    }
}

// What a call asks.
fn of_call(call: &Call) -> Asked {
    match call {
        Call::Grant {
            client,
            object,
            rights,
        }
        | Call::Revoke {
            client,
            object,
            rights,
        } => Asked::Rights {
            client: *client,
            object: *object,
            rights: *rights,
        },
        Call::Stop { queue } | Call::Close { queue } => Asked::Queue { queue: *queue },
        Call::RunNext { queue, packet } => flying(*queue, *packet, Verb::Run),
        Call::Poll { queue, packet } => flying(*queue, *packet, Verb::Poll),
        Call::Finish { queue, packet } => flying(*queue, *packet, Verb::Finish),
        Call::HostWrite {
            client,
            address,
            bytes,
        } => Asked::Memory {
            client: *client,
            address: *address,
            length: bytes.len() as u64,
            right: Right::Write,
        },
        Call::ChangeSignal { client, signal, .. } => Asked::Signal {
            client: *client,
            signal: *signal,
            right: Right::Change,
        },
    }
}

// Something of a packet in flight.
fn flying(queue: QueueId, packet: PacketId, verb: Verb) -> Asked {
    Asked::Flying {
        queue,
        packet,
        verb,
    }
}

// What a query asks.
fn of_query(query: &Query) -> Asked {
    match query {
        Query::HostRead {
            client,
            address,
            length,
        } => Asked::Memory {
            client: *client,
            address: *address,
            length: *length,
            right: Right::Read,
        },
        Query::LoadSignal { client, signal } => Asked::Signal {
            client: *client,
            signal: *signal,
            right: Right::Wait,
        },
        Query::TestSignal { client, signal, .. } => Asked::Signal {
            client: *client,
            signal: *signal,
            right: Right::Wait,
        },
        Query::List { client } => Asked::Listing { client: *client },
        Query::Errors { queue } => Asked::Queue { queue: *queue },
        Query::Audit => Asked::Nothing,
    }
}

// What a step on a ring asks.
fn of_step(queue: QueueId, seat: u64, access: &Access) -> Asked {
    match access {
        Access::Reserve => producing(queue, seat, None, Stored::Nothing),
        Access::LoadReadIndex { ticket } => {
            producing(queue, seat, Some(*ticket), Stored::Nothing)
        }
        Access::StoreBody { ticket, place, .. } => {
            producing(queue, seat, Some(*ticket), Stored::Word(*place))
        }
        Access::StoreHeader { ticket, word } => {
            let is_invalid = is_invalid(*word);
            producing(queue, seat, Some(*ticket), Stored::Header { is_invalid })
        }
        Access::LoadHeader => processing(queue, Verb::Look),
        Access::LoadBody { place } if 1 <= *place && *place <= 7 => processing(queue, Verb::Part),
        Access::LoadBody { .. } => processing(queue, Verb::NoPart),
        Access::ClearHeader => processing(queue, Verb::Clear),
        Access::RaiseReadIndex => processing(queue, Verb::Advance),
    }
}

// A step of a producer.
fn producing(queue: QueueId, producer: u64, ticket: Option<PacketId>, stored: Stored) -> Asked {
    Asked::Producing {
        queue,
        producer,
        ticket,
        stored,
    }
}

// A step of a queue's processor.
fn processing(queue: QueueId, verb: Verb) -> Asked {
    Asked::Processing { queue, verb }
}

// What a request asks.
fn of_request(request: &Request) -> Asked {
    match request {
        Request::Step { queue, step } => of_step(*queue, step.seat, &step.access),
        Request::OpenQueue {
            client,
            agent,
            size,
            producers,
        } => Asked::Opening {
            client: *client,
            agent: *agent,
            size: *size,
            producers: *producers,
        },
        Request::Take { queue } => processing(*queue, Verb::Take),
        Request::Call(call) => of_call(call),
        Request::Query(query) => of_query(query),
        Request::Reload(_) => Asked::Reloading,
        Request::Rotate => Asked::Nothing,
    }
}

/// What a line asks.
pub fn asked_by(command: &Command) -> Asked {
    match command {
        Command::Ask(request) => of_request(request),
        Command::Publish {
            queue,
            producer,
            ticket,
            ..
        } => producing(*queue, *producer, Some(*ticket), Stored::Nothing),
        Command::Submit {
            queue,
            producer,
            ..
        } => producing(*queue, *producer, None, Stored::Nothing),
        Command::Peek { queue } => processing(*queue, Verb::Peek),
        Command::Retire { queue } => processing(*queue, Verb::Retire),
        Command::Serve { queue } => processing(*queue, Verb::Serve),
        Command::Reload { .. } => Asked::Reloading,
    }
}
