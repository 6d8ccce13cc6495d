//! Which packet a line stands for, and the line that submits it (PSA, Architected Queuing Language).

ghost use Rattle.std.specs.Prelude.{◌≡◌, ◌≤◌, ◌++◌, OnOk, IsTrue};
ghost use Rattle.aql_packet.specs.Layout.{is_well_formed};
ghost use Rattle.assemble.specs.Packets.{Submits, submit_line, dispatch_packet, agent_packet, fill_packet, copy_packet, add_packet, barrier_of, all_of_packet, any_of_packet};

use crate::operands::Sizes;
use crate::options::Options;
use crate::spacing::put_word;
use aql_packet::{
    Address, AgentDispatch, Barrier, KernelDispatch, KernelObject, Packet, SignalHandle, encode,
};
use std::alloc::AllocError;
use words::put_bytes;

/// The agent's function FILL.
const FILL: u16 = 0x8000;

/// The agent's function COPY.
const COPY: u16 = 0x8001;

/// The agent's function ADD64.
const ADD64: u16 = 0x8002;

/// The dispatch of a kernel over a grid, with work-groups of a size and so many bytes of group memory.
pub fn dispatch_packet(
    kernel: KernelObject,
    grid: Sizes,
    group: Sizes,
    group_bytes: u32,
    said: Options,
) -> Packet
    requires few { grid.count ≤ 3 }
    requires x { group.x ≤ 65535 }
    requires y { group.y ≤ 65535 }
    requires z { group.z ≤ 65535 }
    ensures value { result ≡ dispatch_packet kernel grid group group_bytes said }
    ensures spelled { IsTrue (is_well_formed result) }
{
    Packet::Kernel(KernelDispatch {
        header: said.header,
        dimensions: grid.count,
        workgroup_size_x: group.x as u16,
        workgroup_size_y: group.y as u16,
        workgroup_size_z: group.z as u16,
        grid_size_x: grid.x,
        grid_size_y: grid.y,
        grid_size_z: grid.z,
        private_segment_size: said.private_bytes,
        group_segment_size: group_bytes,
        kernel_object: kernel,
        kernarg_address: said.block.unwrap_or(Address(0)),
        completion_signal: said.completion,
    })
}

// The call of an agent's function.
fn agent_packet(function: u16, arguments: [u64; 4], said: Options) -> Packet
    ensures { result ≡ agent_packet function arguments said }
{
    Packet::Agent(AgentDispatch {
        header: said.header,
        function,
        return_address: said.result,
        arguments,
        completion_signal: said.completion,
    })
}

/// `fill`: so many bytes from an address on become the low byte of a value.
pub fn fill_packet(start: Address, length: u64, value: u64, said: Options) -> Packet
    ensures value { result ≡ fill_packet start length value said }
    ensures spelled { IsTrue (is_well_formed result) }
{
    agent_packet(FILL, [start.0, length, value, 0], said)
}

/// `copy`: so many bytes go from one address to another.
pub fn copy_packet(from: Address, to: Address, length: u64, said: Options) -> Packet
    ensures value { result ≡ copy_packet from to length said }
    ensures spelled { IsTrue (is_well_formed result) }
{
    agent_packet(COPY, [from.0, to.0, length, 0], said)
}

/// `add`: the number at an address gains an amount.
pub fn add_packet(amount: u64, to: Address, said: Options) -> Packet
    ensures value { result ≡ add_packet amount to said }
    ensures spelled { IsTrue (is_well_formed result) }
{
    agent_packet(ADD64, [to.0, amount, 0, 0], said)
}

// A barrier packet on some signals.
fn barrier_of(dependencies: [SignalHandle; 5], said: Options) -> Barrier
    ensures { result ≡ barrier_of dependencies said }
{
    Barrier {
        header: said.header,
        dependencies,
        completion_signal: said.completion,
    }
}

/// `all-of`: a barrier-AND packet.
pub fn all_of_packet(dependencies: [SignalHandle; 5], said: Options) -> Packet
    ensures value { result ≡ all_of_packet dependencies said }
    ensures spelled { IsTrue (is_well_formed result) }
{
    Packet::BarrierAnd(barrier_of(dependencies, said))
}

/// `any-of`: a barrier-OR packet.
pub fn any_of_packet(dependencies: [SignalHandle; 5], said: Options) -> Packet
    ensures value { result ≡ any_of_packet dependencies said }
    ensures spelled { IsTrue (is_well_formed result) }
{
    Packet::BarrierOr(barrier_of(dependencies, said))
}

// Puts the line that submits a packet of these bytes behind a text.
fn put_submit(
    out: &mut Vec<u8>,
    queue: &[u8],
    producer: &[u8],
    bytes: &[u8],
) -> Result<(), AllocError>
    ensures { OnOk result (out.new.items ≡ out.old.items ++ submit_line queue.now producer.now bytes.now) }
{
    put_word(out, b"submit")?;
    put_word(out, queue)?;
    put_word(out, producer)?;
    put_bytes(out, bytes)?;
    Ok(out.push(b'\n')?)
}

/// Puts the line that submits a packet behind a text: its 128 digits are those of the 64 bytes that lay the
/// packet out.
pub fn put_packet(
    out: &mut Vec<u8>,
    queue: &[u8],
    producer: &[u8],
    packet: &Packet,
) -> Result<(), AllocError>
    requires { IsTrue (is_well_formed packet.now) }
    ensures { OnOk result (Submits queue.now producer.now packet.now out.old.items out.new.items) }
{
    put_submit(out, queue, producer, &encode(packet))
}
