//! The numbers by which packets and calls name things.

/// A client's number, from 1 in the order in which the policy declares clients (own).
#[derive(Clone, Copy, Debug, PartialEq, Eq, PartialOrd, Ord, Hash)]
pub struct ClientId(pub u32);

/// A queue's number, from 1 in the order in which queues are opened (own).
#[derive(Clone, Copy, Debug, PartialEq, Eq, PartialOrd, Ord, Hash)]
pub struct QueueId(pub u64);

/// A packet's id: the write index that its producer reserved (PSA, User Mode Queuing).
#[derive(Clone, Copy, Debug, PartialEq, Eq, PartialOrd, Ord, Hash)]
pub struct PacketId(pub u64);

/// A byte address. Region `h` covers addresses from `h * REGION_SPAN` (own).
#[derive(Clone, Copy, Debug, PartialEq, Eq, PartialOrd, Ord, Hash)]
pub struct Address(pub u64);

/// An agent's number, from 1 (own).
#[derive(Clone, Copy, Debug, PartialEq, Eq, PartialOrd, Ord, Hash)]
pub struct AgentHandle(pub u32);

/// A region's number, from 1 (own).
#[derive(Clone, Copy, Debug, PartialEq, Eq, PartialOrd, Ord, Hash)]
pub struct RegionHandle(pub u32);

/// A signal's number, from 1; 0 in a packet is the null signal (PSA, Signals; the numbering is own).
#[derive(Clone, Copy, Debug, PartialEq, Eq, PartialOrd, Ord, Hash)]
pub struct SignalHandle(pub u64);

/// A kernel's number, from 1: what a packet's `kernel_object` holds (PSA, Architected Queuing Language; the numbering is own).
#[derive(Clone, Copy, Debug, PartialEq, Eq, PartialOrd, Ord, Hash)]
pub struct KernelObject(pub u64);
