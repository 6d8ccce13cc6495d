//! What a packet needs: the tables by which it is judged, holds its rights, and runs.

ghost use Rattle.std.specs.Prelude.{◌≡◌, ◌∷◌, [], option_to_list};
ghost use Rattle.std.specs.List.{flat_map};
ghost use Rattle.core_model.specs.Needs as model;

use crate::packets::completion_signal;
use aql_packet::{Address, AgentDispatch, AgentHandle, KernelDispatch, Packet, SignalHandle};
use core_model::{ADD64, AgentFunction, COPY, FILL, Need, Range, Subject};
use policy::{Object, Right};

/// The function that a dispatch names, and what it is to work on; none where agents have no function
/// of its number (own).
pub fn function_of(dispatch: &AgentDispatch) -> Option<AgentFunction>
    ensures { result ≡ model.function_of dispatch.now }
{
    let [first, second, third, _] = dispatch.arguments;
    match dispatch.function {
        FILL => Some(AgentFunction::Fill {
            target: range_at(first, second),
            byte: (third % 256) as u8,
        }),
        COPY => Some(AgentFunction::Copy {
            source: range_at(first, third),
            target: range_at(second, third),
        }),
        ADD64 => Some(AgentFunction::Add64 {
            number: range_at(first, 8),
            addend: second,
        }),
        _ => None,
    }
}

/// Where a dispatch's result goes: 8 bytes at its return address, none where that is 0 (own).
pub fn result_range(dispatch: &AgentDispatch) -> Range
    ensures { result ≡ model.result_range dispatch.now }
{
    let address = dispatch.return_address.0;
    range_at(address, if address == 0 { 0 } else { 8 })
}

/// What a packet needs of the agent that it is for: its use.
pub(crate) fn agent_needs(agent: AgentHandle) -> [Option<Need>; 1]
    ensures { flat_map option_to_list result
        ≡ record { subject = Subject.Object (Object.Agent agent); right = Right.Use } ∷ [] }
{
    [on_object(Object::Agent(agent), Right::Use)]
}

/// What a packet needs of kernels: a kernel dispatch to launch its own.
pub(crate) fn kernel_needs(packet: &Packet) -> [Option<Need>; 1]
    ensures { flat_map option_to_list result ≡ model.kernel_needs packet.now }
{
    match packet {
        Packet::Kernel(dispatch) => [on_object(
            Object::Kernel(dispatch.kernel_object),
            Right::Launch,
        )],
        _ => [None],
    }
}

/// What a kernel dispatch needs of its argument block: to read it, unless it is empty (PRM, Kernarg
/// Segment; that it is read by a right is own).
pub(crate) fn argument_need(dispatch: &KernelDispatch, size: u32) -> Option<Need>
    ensures { option_to_list result ≡ model.range_need Right.Read (model.range_at dispatch.now.kernarg_address.0 size) }
{
    on_range(
        range_at(dispatch.kernarg_address.0, size as u64),
        Right::Read,
    )
}

/// What a packet needs of memory.
pub(crate) fn memory_needs(packet: &Packet) -> [Option<Need>; 3]
    ensures { flat_map option_to_list result ≡ model.memory_needs packet.now }
{
    match packet {
        Packet::Agent(dispatch) => {
            let [first, second] = function_needs(function_of(dispatch));
            let third = on_range(result_range(dispatch), Right::Write);
            [first, second, third]
        }
        _ => [None; 3],
    }
}

// What a function needs of memory.
fn function_needs(function: Option<AgentFunction>) -> [Option<Need>; 2]
    ensures { flat_map option_to_list result ≡ model.function_needs function }
{
    match function {
        None => [None, None],
        Some(AgentFunction::Fill { target, .. }) => [on_range(target, Right::Write), None],
        Some(AgentFunction::Copy { source, target }) => [
            on_range(source, Right::Read),
            on_range(target, Right::Write),
        ],
        Some(AgentFunction::Add64 { number, .. }) => [
            on_range(number, Right::Read),
            on_range(number, Right::Write),
        ],
    }
}

/// What a packet needs of the signals that it depends on.
pub(crate) fn wait_needs(packet: &Packet) -> [Option<Need>; 5]
    ensures { flat_map option_to_list result
        ≡ flat_map (model.signal_need Right.Wait) (model.dependencies packet.now) }
{
    match packet {
        Packet::BarrierAnd(barrier) | Packet::BarrierOr(barrier) => [
            on_signal(barrier.dependencies[0], Right::Wait),
            on_signal(barrier.dependencies[1], Right::Wait),
            on_signal(barrier.dependencies[2], Right::Wait),
            on_signal(barrier.dependencies[3], Right::Wait),
            on_signal(barrier.dependencies[4], Right::Wait),
        ],
        _ => [None; 5],
    }
}

/// What a packet needs of the signal that is decremented when it completes.
pub(crate) fn completion_needs(packet: &Packet) -> [Option<Need>; 1]
    ensures { flat_map option_to_list result ≡ model.signal_need Right.Change (model.completion_signal packet.now) }
{
    [on_signal(completion_signal(packet), Right::Change)]
}

// So many bytes from an address on.
fn range_at(address: u64, size: u64) -> Range
    ensures { result ≡ model.range_at address size }
{
    Range {
        address: Address(address),
        size,
    }
}

// A right on an object.
fn on_object(object: Object, right: Right) -> Option<Need>
    ensures { option_to_list result
        ≡ record { subject = Subject.Object object; right = right } ∷ [] }
{
    Some(Need {
        subject: Subject::Object(object),
        right,
    })
}

// A right on a signal; the null signal needs none.
fn on_signal(signal: SignalHandle, right: Right) -> Option<Need>
    ensures { option_to_list result ≡ model.signal_need right signal }
{
    if signal.0 == 0 {
        None
    } else {
        on_object(Object::Signal(signal), right)
    }
}

// A right on a range; an empty one needs none.
fn on_range(range: Range, right: Right) -> Option<Need>
    ensures { option_to_list result ≡ model.range_need right range }
{
    if range.size == 0 {
        None
    } else {
        Some(Need {
            subject: Subject::Range(range),
            right,
        })
    }
}
