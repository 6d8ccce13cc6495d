//! What the world answers.

use aql_packet::PacketId;
use core_model::{Part, Taken};
use ring_core::Seen;
use std::mem::size_of;

/// What a request that isn't refused is answered.
#[derive(Drop)]
pub enum Answer {
    /// A step on a ring was made, and read this.
    Step(Seen),
    /// The processor read the header word of the packet at the read index, which has this id.
    Header { packet: PacketId, word: u64 },
    /// What became of the packet at the read index, which was handed over.
    Taken { packet: PacketId, taken: Taken },
    /// What the core answers.
    Core(core_model::Answer),
    /// The audit so far, with what it began from and what it ends in.
    Rotated(Part),
}

/// Why a request was refused. After every refusal all is as before.
#[derive(Clone, Copy, Debug, PartialEq, Eq, thiserror::Error)]
pub enum Refusal {
    /// The core's refusal, or that a queue isn't open.
    #[error("{0}")]
    Core(core_model::Refusal),
    /// The step is none that the seat may make now, the header would be cleared of a packet that is
    /// neither launched nor denied, or no packet is collected whole.
    #[error("the step is not allowed")]
    NotAStep,
    /// The producer has reserved as many ids as it may.
    #[error("the producer has reserved all ids that it may")]
    Spent,
}

/// The reply to a request.
pub type Reply = Result<Answer, Refusal>;

// A reply is small, since each hand moves the whole value.
const _: () = prove!(size_of::<Reply>() <= 128);
