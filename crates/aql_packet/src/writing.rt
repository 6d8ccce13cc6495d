//! Packets to bytes (PSA, Architected Queuing Language).

ghost use Rattle.aql_packet.specs.Layout.{IsHeader, Lays, LaysAgent, LaysBarrier, LaysKernel, PacketOf, is_well_formed, scope_number};
ghost use Rattle.aql_packet.specs.Reading.{decoded};
ghost use Rattle.std.specs.Prelude.{IsTrue, List, Some, ℕ, ◌<◌, ◌≡◌, ◌≤◌};

use crate::numbers::{put_u16, put_u32, put_u64};
use crate::packet::{AgentDispatch, Barrier, Header, KernelDispatch, Packet, Scope};

/// The 64 bytes of a packet, reserved parts zero (PSA, Architected Queuing Language). The caller
/// sees to it that a kernel dispatch has at most 3 dimensions: `Packet::well_formed` is the test.
/// It takes no memory.
pub fn encode(packet: &Packet) -> [u8; 64]
    requires { IsTrue (is_well_formed packet.now) }
    // The bytes lay the packet out, and no others do.
    ensures layout { PacketOf result packet.now }
    ensures only { (bytes : List ℕ) → PacketOf bytes packet.now → result ≡ bytes }
    // They are decoded to the packet.
    ensures back { decoded result ≡ Some packet.now }
{
    bytes_of(packet)
}

fn bytes_of(packet: &Packet) -> [u8; 64]
    requires { IsTrue (is_well_formed packet.now) }
    ensures { Lays result packet.now }
{
    match packet {
        Packet::Kernel(kernel) => kernel_bytes(kernel),
        Packet::Agent(agent) => agent_bytes(agent),
        Packet::BarrierAnd(barrier) => barrier_bytes(3, barrier),
        Packet::BarrierOr(barrier) => barrier_bytes(5, barrier),
    }
}

fn kernel_bytes(packet: &KernelDispatch) -> [u8; 64]
    requires { packet.now.dimensions ≤ 3 }
    ensures { LaysKernel result packet.now }
{
    let mut bytes = [0; 64];
    put_u16(&mut bytes, 0, header_number(2, packet.header));
    put_u16(&mut bytes, 2, u16::from(packet.dimensions));
    put_u16(&mut bytes, 4, packet.workgroup_size_x);
    put_u16(&mut bytes, 6, packet.workgroup_size_y);
    put_u16(&mut bytes, 8, packet.workgroup_size_z);
    put_u32(&mut bytes, 12, packet.grid_size_x);
    put_u32(&mut bytes, 16, packet.grid_size_y);
    put_u32(&mut bytes, 20, packet.grid_size_z);
    put_u32(&mut bytes, 24, packet.private_segment_size);
    put_u32(&mut bytes, 28, packet.group_segment_size);
    put_u64(&mut bytes, 32, packet.kernel_object.0);
    put_u64(&mut bytes, 40, packet.kernarg_address.0);
    put_u64(&mut bytes, 56, packet.completion_signal.0);
    bytes
}

fn agent_bytes(packet: &AgentDispatch) -> [u8; 64]
    ensures { LaysAgent result packet.now }
{
    let mut bytes = [0; 64];
    put_u16(&mut bytes, 0, header_number(4, packet.header));
    put_u16(&mut bytes, 2, packet.function);
    put_u64(&mut bytes, 8, packet.return_address.0);
    put_u64(&mut bytes, 16, packet.arguments[0]);
    put_u64(&mut bytes, 24, packet.arguments[1]);
    put_u64(&mut bytes, 32, packet.arguments[2]);
    put_u64(&mut bytes, 40, packet.arguments[3]);
    put_u64(&mut bytes, 56, packet.completion_signal.0);
    bytes
}

// The bytes of a barrier packet of either type, 3 or 5.
fn barrier_bytes(kind: u16, packet: &Barrier) -> [u8; 64]
    requires { kind < 256 }
    ensures { LaysBarrier result kind packet.now }
{
    let [first, second, third, fourth, fifth] = packet.dependencies;
    let mut bytes = [0; 64];
    put_u16(&mut bytes, 0, header_number(kind, packet.header));
    put_u64(&mut bytes, 8, first.0);
    put_u64(&mut bytes, 16, second.0);
    put_u64(&mut bytes, 24, third.0);
    put_u64(&mut bytes, 32, fourth.0);
    put_u64(&mut bytes, 40, fifth.0);
    put_u64(&mut bytes, 56, packet.completion_signal.0);
    bytes
}

// The 16-bit header of a packet of a type.
fn header_number(kind: u16, header: Header) -> u16
    requires { kind < 256 }
    ensures { IsHeader result kind header }
{
    let barrier = u16::from(header.barrier);
    let acquire = number_of(header.acquire);
    let release = number_of(header.release);
    kind + barrier * 0x100 + acquire * 0x200 + release * 0x800
}

// A fence scope as its two bits.
fn number_of(scope: Scope) -> u16
    ensures value { result ≡ scope_number scope }
    ensures small { result ≤ 2 }
{
    match scope {
        Scope::None => 0,
        Scope::Agent => 1,
        Scope::System => 2,
    }
}
