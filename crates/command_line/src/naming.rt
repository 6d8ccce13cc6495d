//! What the numbers of a packet stand for in a policy.

use aql_packet::{
    Address, AgentDispatch, Barrier, KernelDispatch, Packet, REGION_SPAN, RegionHandle,
    SignalHandle, decode,
};
use core_model::AgentFunction;
use packet_processor::function_of;
use policy::{Object, Policy};
use std::alloc::AllocError;

// Adds the line of a field that names an object.
fn push_object(
    out: &mut String,
    policy: &Policy,
    field: &str,
    object: Object,
) -> Result<(), AllocError> {
    let kind = object.kind();
    match policy.object_name(object) {
        Some(name) => writeln!(out, "{field}: {kind} {name}"),
        None => writeln!(out, "{field}: the policy declares no such {kind}"),
    }
}

// Adds the line of a field that names a signal, if it names one.
fn push_signal(
    out: &mut String,
    policy: &Policy,
    field: &str,
    signal: SignalHandle,
) -> Result<(), AllocError> {
    if signal.0 == 0 {
        return Ok(());
    }
    push_object(out, policy, field, Object::Signal(signal))
}

// Adds the region of an address, how far behind the region's begin it lies, and whether it lies behind its end.
fn push_place(
    out: &mut String,
    policy: &Policy,
    region: RegionHandle,
    offset: u64,
) -> Result<(), AllocError> {
    let (Some(name), Some(length)) = (
        policy.object_name(Object::Region(region)),
        policy.region_length(region),
    ) else {
        return out.push_str("in no region of the policy\n");
    };
    out.push_str("region ")?;
    out.push_str(name)?;
    if offset > 0 {
        write!(out, "+{offset}")?;
    }
    out.push_str(if offset < u64::from(length) {
        "\n"
    } else {
        ", past its end\n"
    })
}

// Adds the line of a field that is an address, if it is one.
fn push_address(
    out: &mut String,
    policy: &Policy,
    field: &str,
    address: Address,
) -> Result<(), AllocError> {
    if address.0 == 0 {
        return Ok(());
    }
    write!(out, "{field}: ")?;
    let region = RegionHandle((address.0 / REGION_SPAN) as u32);
    push_place(out, policy, region, address.0 % REGION_SPAN)
}

// Adds the lines of a kernel dispatch.
fn push_kernel(
    out: &mut String,
    policy: &Policy,
    dispatch: &KernelDispatch,
) -> Result<(), AllocError> {
    push_object(
        out,
        policy,
        "kernel_object",
        Object::Kernel(dispatch.kernel_object),
    )?;
    push_address(out, policy, "kernarg_address", dispatch.kernarg_address)?;
    push_signal(out, policy, "completion_signal", dispatch.completion_signal)
}

// Adds the lines of an agent's function.
fn push_function(
    out: &mut String,
    policy: &Policy,
    function: AgentFunction,
) -> Result<(), AllocError> {
    match function {
        AgentFunction::Fill { target, .. } => push_address(out, policy, "target", target.address),
        AgentFunction::Copy { source, target } => {
            push_address(out, policy, "source", source.address)?;
            push_address(out, policy, "target", target.address)
        }
        AgentFunction::Add64 { number, .. } => {
            push_address(out, policy, "number", number.address)
        }
    }
}

// Adds the lines of an agent dispatch.
fn push_agent(
    out: &mut String,
    policy: &Policy,
    dispatch: &AgentDispatch,
) -> Result<(), AllocError> {
    push_address(out, policy, "return_address", dispatch.return_address)?;
    if let Some(function) = function_of(dispatch) {
        push_function(out, policy, function)?;
    }
    push_signal(out, policy, "completion_signal", dispatch.completion_signal)
}

// Adds the lines of a barrier packet.
fn push_barrier(out: &mut String, policy: &Policy, barrier: &Barrier) -> Result<(), AllocError> {
    for signal in barrier.dependencies {
        push_signal(out, policy, "dependency", signal)?;
    }
    push_signal(out, policy, "completion_signal", barrier.completion_signal)
}

/// Adds a line for each field of a packet that names an object of a policy or is an address: the object's kind and name, and
/// the region that the address lies in.
pub fn push_names(out: &mut String, policy: &Policy, bytes: &[u8; 64]) -> Result<(), AllocError> {
    match decode(bytes) {
        Ok(Packet::Kernel(dispatch)) => push_kernel(out, policy, &dispatch),
        Ok(Packet::Agent(dispatch)) => push_agent(out, policy, &dispatch),
        Ok(Packet::BarrierAnd(barrier) | Packet::BarrierOr(barrier)) => {
            push_barrier(out, policy, &barrier)
        }
        Err(_) => Ok(()),
    }
}
