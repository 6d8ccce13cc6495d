//! What a packet is judged by, and the verdict.

use crate::packet_needs::PacketNeeds;
use aql_packet::{AgentHandle, ClientId};
use core_model::KernelSegments;
use grants::Grants;
use policy::Takes;
use queue_error::Rule;
use regions::Regions;
use std::mem::size_of;

/// What a packet is judged by: its queue's client and agent, and what is in force at that moment.
#[derive(Drop)]
pub struct Facts<'a> {
    /// Whose queue it is.
    pub client: ClientId,
    /// The agent that runs the queue's packets.
    pub agent: AgentHandle,
    /// Which kinds of dispatch the agent takes.
    pub takes: Takes,
    /// The rights in force.
    pub grants: &'a Grants,
    /// The memory, for its regions' lengths.
    pub regions: &'a Regions,
    /// The segments of the kernels, in order.
    pub kernels: &'a [KernelSegments],
}

/// What is found of 64 bytes that are to be launched.
#[derive(Drop)]
pub enum Verdict {
    /// No launch rule fails, and the bytes lay out this packet, which holds from then on what it needs.
    Launch(PacketNeeds),
    /// This is the first launch rule that fails.
    Deny(Rule),
}

// A verdict is small, since each hand moves the whole value.
const _: () = prove!(size_of::<Verdict>() <= 128);
