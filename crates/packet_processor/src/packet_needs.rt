//! A packet for an agent. What it needs follows from both: it is judged by it, and then holds it.

ghost use Rattle.std.specs.Prelude.{◌≡◌, option_to_list};
ghost use Rattle.std.specs.List.{flat_map};
ghost use Rattle.core_model.specs.Needs as model;

use crate::need_table::{agent_needs, completion_needs, kernel_needs, memory_needs, wait_needs};
use aql_packet::{AgentHandle, Packet};
use core_model::Need;
use queue_error::Rule;
use std::marker::Model;

/// How many rights a launch rule asks for at the most: those to wait on five dependencies.
pub const MOST_NEEDS: usize = 5;

/// A packet for an agent, with the rights that it needs. A contract sees the agent and the packet.
#[derive(Drop)]
pub struct PacketNeeds {
    agent: AgentHandle,
    packet: Packet,
}

impl Model for PacketNeeds {
    ghost use Rattle.packet_processor.specs.Asked.{AskedPacket};

    ghost Value = { AskedPacket };

    ghost view = { λ needs. record { agent = needs.agent; packet = needs.packet } };
}

impl PacketNeeds {
    /// What a packet needs on an agent.
    pub fn of(agent: AgentHandle, packet: Packet) -> PacketNeeds
        ensures { result ≡ record { agent = agent; packet = packet } }
    {
        PacketNeeds { agent, packet }
    }

    /// The packet.
    pub fn packet(&self) -> &Packet
        ensures { result.now ≡ self.now.packet }
    {
        &self.packet
    }

    /// The agent that it is for.
    pub fn agent(&self) -> AgentHandle
        ensures { result ≡ self.now.agent }
    {
        self.agent
    }

    /// The rights that a launch rule asks for, and on what: L4 the use of the agent, L6 to launch a kernel, L8 ranges
    /// of memory, L9 to wait on dependencies, L10 to change the completion signal; the other rules ask for none (own).
    pub fn of_rule(&self, rule: Rule) -> [Option<Need>; MOST_NEEDS]
        ensures { flat_map option_to_list result ≡ model.needs rule self.now.agent self.now.packet }
    {
        match rule {
            Rule::L4 => only(agent_needs(self.agent)),
            Rule::L6 => only(kernel_needs(&self.packet)),
            Rule::L8 => three(memory_needs(&self.packet)),
            Rule::L9 => wait_needs(&self.packet),
            Rule::L10 => only(completion_needs(&self.packet)),
            _ => [None; MOST_NEEDS],
        }
    }
}

// One need, if it is any, among places for as many as a rule may ask for.
fn only(needs: [Option<Need>; 1]) -> [Option<Need>; MOST_NEEDS]
    ensures { flat_map option_to_list result ≡ flat_map option_to_list needs }
{
    let [one] = needs;
    [one, None, None, None, None]
}

// Three, if they are any.
fn three(needs: [Option<Need>; 3]) -> [Option<Need>; MOST_NEEDS]
    ensures { flat_map option_to_list result ≡ flat_map option_to_list needs }
{
    let [first, second, third] = needs;
    [first, second, third, None, None]
}
