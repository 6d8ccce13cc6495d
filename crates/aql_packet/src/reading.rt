//! Bytes to packets (PSA, Architected Queuing Language).

ghost use Rattle.aql_packet.specs.Layout.{PacketOf, is_well_formed};
ghost use Rattle.aql_packet.specs.Numbers.{bits};
ghost use Rattle.aql_packet.specs.Reading.{agent_at, barrier_at, decoded, header_at, is_known, is_plain_header, kernel_at, packet_at, packet_type, refusal, reserved_is_zero, scope_of};
ghost use Rattle.std.specs.Prelude.{IsTrue, MatchResult, ◌==◌, ◌<◌, ◌≡◌, IfOk};

use crate::ids::{Address, KernelObject, SignalHandle};
use crate::numbers::{is_zero_at, u16_at, u32_at, u64_at};
use crate::packet::{
    AgentDispatch, Barrier, CodecRule, Header, KernelDispatch, Packet, RawHeader, Scope,
};

/// The packet that the bytes lay out, or the first of the rules L1 to L3 that they break
/// (PSA, Architected Queuing Language). It takes no memory.
pub fn decode(bytes: &[u8; 64]) -> Result<Packet, CodecRule>
    // What is answered Ok is laid out so, and what is laid out is answered Ok.
    ensures found { IfOk result (λ packet. PacketOf bytes.now packet) }
    ensures only { (packet : Packet) → PacketOf bytes.now packet → result ≡ Ok packet }
    ensures spelled { IfOk result (λ packet. IsTrue (is_well_formed packet)) }
    // Which packet, and which rule, as functions of the bytes.
    ensures exact { MatchResult result (λ packet. decoded bytes.now ≡ Some packet)
        (λ rule. refusal bytes.now ≡ Some rule) }
{
    match first_refusal(bytes) {
        Some(rule) => Err(rule),
        None => Ok(packet(bytes)),
    }
}

/// The type and the barrier bit in the first word of a packet, its first eight bytes.
pub fn header_of(word: u64) -> RawHeader
    ensures kind { result.kind ≡ bits word 7 0 }
    ensures barrier { result.barrier ≡ (bits word 8 8 == 1) }
{
    RawHeader {
        kind: (word % 256) as u8,
        barrier: (word >> 8) % 2 == 1,
    }
}

// The first rule that fails.
#[tactic(auto, unfolding(crate::specs::Reading::refusal, crate::specs::Reading::passes))]
fn first_refusal(bytes: &[u8; 64]) -> Option<CodecRule>
    ensures { result ≡ refusal bytes.now }
{
    let kind = type_of(bytes);
    if !is_run(kind) {
        return Some(CodecRule::L1);
    }
    if !has_plain_header(bytes) {
        return Some(CodecRule::L2);
    }
    if !has_zero_reserved(kind, bytes) {
        return Some(CodecRule::L3);
    }
    None
}

// Header bits 7:0.
fn type_of(bytes: &[u8; 64]) -> u16
    ensures { result ≡ packet_type bytes.now }
{
    u16_at(bytes, 0) % 256
}

// Kernel dispatch, barrier-AND, agent dispatch or barrier-OR.
fn is_run(kind: u16) -> bool
    ensures { result ≡ is_known kind }
{
    kind == 2 || kind == 3 || kind == 4 || kind == 5
}

// Header bits 15:13 are zero, and no scope is 3.
fn has_plain_header(bytes: &[u8; 64]) -> bool
    ensures { result ≡ is_plain_header bytes.now }
{
    let header = u16_at(bytes, 0);
    let reserved = (header >> 13) % 8;
    let acquire = (header >> 9) % 4;
    let release = (header >> 11) % 4;
    reserved == 0 && acquire != 3 && release != 3
}

// The fields that the type reserves are zero.
fn has_zero_reserved(kind: u16, bytes: &[u8; 64]) -> bool
    ensures { result ≡ reserved_is_zero kind bytes.now }
{
    match kind {
        2 => {
            let setup = u16_at(bytes, 2);
            (setup >> 2) % 16_384 == 0 && is_zero_at(bytes, 10, 2) && is_zero_at(bytes, 48, 8)
        }
        4 => is_zero_at(bytes, 4, 4) && is_zero_at(bytes, 48, 8),
        _ => is_zero_at(bytes, 2, 6) && is_zero_at(bytes, 48, 8),
    }
}

// The packet of a known type, whatever its reserved fields hold.
#[tactic(auto, unfolding(crate::specs::Reading::packet_at))]
fn packet(bytes: &[u8; 64]) -> Packet
    ensures { result ≡ packet_at (packet_type bytes.now) bytes.now }
{
    match type_of(bytes) {
        2 => Packet::Kernel(kernel_dispatch(bytes)),
        4 => Packet::Agent(agent_dispatch(bytes)),
        3 => Packet::BarrierAnd(barrier(bytes)),
        _ => Packet::BarrierOr(barrier(bytes)),
    }
}

#[tactic(auto, unfolding(crate::specs::Reading::header_at))]
fn header(bytes: &[u8; 64]) -> Header
    ensures { result ≡ header_at bytes.now }
{
    let header = u16_at(bytes, 0);
    Header {
        barrier: (header >> 8) % 2 == 1,
        acquire: scope((header >> 9) % 4),
        release: scope((header >> 11) % 4),
    }
}

fn scope(number: u16) -> Scope
    ensures { result ≡ scope_of number }
{
    match number {
        0 => Scope::None,
        1 => Scope::Agent,
        _ => Scope::System,
    }
}

#[tactic(auto, unfolding(crate::specs::Reading::kernel_at))]
fn kernel_dispatch(bytes: &[u8; 64]) -> KernelDispatch
    ensures { result ≡ kernel_at bytes.now }
{
    KernelDispatch {
        header: header(bytes),
        dimensions: (u16_at(bytes, 2) % 4) as u8,
        workgroup_size_x: u16_at(bytes, 4),
        workgroup_size_y: u16_at(bytes, 6),
        workgroup_size_z: u16_at(bytes, 8),
        grid_size_x: u32_at(bytes, 12),
        grid_size_y: u32_at(bytes, 16),
        grid_size_z: u32_at(bytes, 20),
        private_segment_size: u32_at(bytes, 24),
        group_segment_size: u32_at(bytes, 28),
        kernel_object: KernelObject(u64_at(bytes, 32)),
        kernarg_address: Address(u64_at(bytes, 40)),
        completion_signal: SignalHandle(u64_at(bytes, 56)),
    }
}

#[tactic(auto, unfolding(crate::specs::Reading::agent_at))]
fn agent_dispatch(bytes: &[u8; 64]) -> AgentDispatch
    ensures { result ≡ agent_at bytes.now }
{
    AgentDispatch {
        header: header(bytes),
        function: u16_at(bytes, 2),
        return_address: Address(u64_at(bytes, 8)),
        arguments: [
            u64_at(bytes, 16),
            u64_at(bytes, 24),
            u64_at(bytes, 32),
            u64_at(bytes, 40),
        ],
        completion_signal: SignalHandle(u64_at(bytes, 56)),
    }
}

#[tactic(auto, unfolding(crate::specs::Reading::barrier_at))]
fn barrier(bytes: &[u8; 64]) -> Barrier
    ensures { result ≡ barrier_at bytes.now }
{
    Barrier {
        header: header(bytes),
        dependencies: [
            SignalHandle(u64_at(bytes, 8)),
            SignalHandle(u64_at(bytes, 16)),
            SignalHandle(u64_at(bytes, 24)),
            SignalHandle(u64_at(bytes, 32)),
            SignalHandle(u64_at(bytes, 40)),
        ],
        completion_signal: SignalHandle(u64_at(bytes, 56)),
    }
}
