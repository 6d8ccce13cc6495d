//! What a packet says, each field under the standard's word (PSA, Architected Queuing Language).

ghost use Rattle.aql_packet.specs.Layout.{is_well_formed};
ghost use Rattle.std.specs.Prelude.{◌≡◌};

use crate::ids::{Address, KernelObject, SignalHandle};

/// How far a memory fence reaches. As a two-bit field: 0, 1 and 2; 3 is reserved.
#[derive(Clone, Copy, Debug, PartialEq, Eq)]
pub enum Scope {
    /// No fence.
    None,
    /// The agent that runs the packet.
    Agent,
    /// All agents.
    System,
}

/// What every packet's header says beside its type.
#[derive(Clone, Copy, Debug, PartialEq, Eq)]
pub struct Header {
    /// Whether the packet waits until all packets before it in its queue are complete.
    pub barrier: bool,
    /// The scope of the acquire fence, before the packet runs.
    pub acquire: Scope,
    /// The scope of the release fence, after it has run.
    pub release: Scope,
}

/// The type and the barrier bit of a header, whatever the rest of the packet holds.
#[derive(Clone, Copy, Debug, PartialEq, Eq)]
pub struct RawHeader {
    /// The packet's type, header bits 7:0.
    pub kind: u8,
    /// The barrier bit, header bit 8.
    pub barrier: bool,
}

/// A kernel dispatch packet: a grid of work-items for one kernel.
#[derive(Clone, Copy, Debug, PartialEq, Eq)]
pub struct KernelDispatch {
    pub header: Header,
    /// How many dimensions the grid has: 0 to 3 in a packet's two bits.
    pub dimensions: u8,
    /// Size of a work-group in work-items.
    pub workgroup_size_x: u16,
    pub workgroup_size_y: u16,
    pub workgroup_size_z: u16,
    /// Size of the grid in work-items.
    pub grid_size_x: u32,
    pub grid_size_y: u32,
    pub grid_size_z: u32,
    /// Bytes of private memory asked for each work-item.
    pub private_segment_size: u32,
    /// Bytes of group memory asked for each work-group.
    pub group_segment_size: u32,
    pub kernel_object: KernelObject,
    /// Where the kernel's argument block begins.
    pub kernarg_address: Address,
    /// The signal that is decremented when the packet completes; 0 is none.
    pub completion_signal: SignalHandle,
}

/// An agent dispatch packet: a call of a function that the agent has built in.
#[derive(Clone, Copy, Debug, PartialEq, Eq)]
pub struct AgentDispatch {
    pub header: Header,
    /// The function's number. The standard calls the field type.
    pub function: u16,
    /// Where the function's result goes; 0 is nowhere.
    pub return_address: Address,
    pub arguments: [u64; 4],
    /// The signal that is decremented when the packet completes; 0 is none.
    pub completion_signal: SignalHandle,
}

/// A barrier packet: it completes after all, or after one, of the signals that it names were 0.
#[derive(Clone, Copy, Debug, PartialEq, Eq)]
pub struct Barrier {
    pub header: Header,
    /// The signals that it depends on; 0 is none.
    pub dependencies: [SignalHandle; 5],
    /// The signal that is decremented when the packet completes; 0 is none.
    pub completion_signal: SignalHandle,
}

/// A packet of one of the four types that are run (PSA, Architected Queuing Language).
#[derive(Clone, Copy, Debug, PartialEq, Eq)]
pub enum Packet {
    /// Type 2.
    Kernel(KernelDispatch),
    /// Type 4.
    Agent(AgentDispatch),
    /// Type 3: all of the signals.
    BarrierAnd(Barrier),
    /// Type 5: one of the signals.
    BarrierOr(Barrier),
}

impl Packet {
    /// Whether the packet has a spelling in 64 bytes: its dimensions fit two bits.
    pub fn well_formed(&self) -> bool
        ensures { result ≡ is_well_formed self.now }
    {
        match self {
            Packet::Kernel(kernel) => kernel.dimensions <= 3,
            _ => true,
        }
    }
}

/// The rules of a packet's layout, in the order in which they are tried.
#[derive(Clone, Copy, Debug, PartialEq, Eq, thiserror::Error)]
pub enum CodecRule {
    /// The type is 2, 3, 4 or 5.
    #[error("the type is none of a packet that is run")]
    L1,
    /// Header bits 15:13 are zero and no scope is 3.
    #[error("a reserved bit of the header is set, or a scope is 3")]
    L2,
    /// The fields that the type reserves are zero.
    #[error("a field that the type reserves is not zero")]
    L3,
}
