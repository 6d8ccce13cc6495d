//! Public calls that no program and no case makes, each once. What each answers its contract says exactly. A value that is
//! dear to own is handed on at once, and the call stands in a function that has it lent.

ghost use Rattle.std.specs.Prelude.{◌≡◌};
ghost use Rattle.grants.specs.Ledger.{rules_in};
ghost use Rattle.policy.specs.Policy.{rules_of};

use crate::studio::{FADE, POLICY, checked, module_of, read};
use aql_packet::{
    Address, ClientId, Header, KernelDispatch, KernelObject, Packet, RegionHandle, Scope,
    SignalHandle,
};
use grants::Grants;
use hsail_reader::{Item, Modifier, Modifiers, Module, Operation};
use kernel_check::Checked;
use policy::{Object, Policy, Rights};
use regions::Regions;
use signals::{Condition, Signals};
use std::alloc::{AllocError, Global};
use std::process::Abort;
use std::test::*;

const FIRST: Address = Address(0x1_0000_0000);

const SECOND: Address = Address(0x2_0000_0000);

/// Two regions, of 8 and of 4 bytes.
fn two_regions(alloc: Global) -> Result<Regions, AllocError> {
    Regions::new(alloc, &[8, 4])
}

/// Whether the bytes from an address on are these.
fn shows(memory: &Regions, address: Address, bytes: &[u8]) -> bool {
    memory.read(address, bytes.len() as u64) == Ok(bytes)
}

/// Whether two bytes are written and copied, and the first is then another.
fn changes(memory: &mut Regions) -> bool {
    memory.write(FIRST, &[1, 2]).is_ok()
        && memory.copy_within(FIRST, SECOND, 2).is_ok()
        && memory.fill(FIRST, 1, 7).is_ok()
        && shows(memory, FIRST, &[7, 2])
        && shows(memory, SECOND, &[1, 2])
}

fn changes_alone(mut memory: Regions) -> bool {
    changes(&mut memory)
}

#[test]
fn memory_is_written_copied_and_filled(rt: HostRuntime) -> Result<(), Fail> {
    assert!(rt; Regions::accepts(&[8, 4]));
    assert!(rt; changes_alone(two_regions(rt.alloc())?));
    Ok(())
}

/// A dispatch of more dimensions than two bits hold.
const STEEP: Packet = Packet::Kernel(KernelDispatch {
    header: Header {
        barrier: false,
        acquire: Scope::System,
        release: Scope::System,
    },
    dimensions: 4,
    workgroup_size_x: 1,
    workgroup_size_y: 1,
    workgroup_size_z: 1,
    grid_size_x: 1,
    grid_size_y: 1,
    grid_size_z: 1,
    private_segment_size: 0,
    group_segment_size: 0,
    kernel_object: KernelObject(1),
    kernarg_address: FIRST,
    completion_signal: SignalHandle(0),
});

#[test]
fn a_dispatch_of_four_dimensions_has_no_spelling(rt: HostRuntime) {
    assert!(rt; !STEEP.well_formed());
}

fn policy_of(alloc: Global, text: &str) -> Result<Policy, Fail> {
    Ok(read(alloc, text.as_bytes())?)
}

fn studio(alloc: Global) -> Result<Policy, Fail> {
    policy_of(alloc, POLICY)
}

const NORA: ClientId = ClientId(1);

const TAPE: Object = Object::Region(RegionHandle(1));

const NO_REGION: Object = Object::Region(RegionHandle(2));

fn check_declared(rt: &impl Abort, policy: &Policy) {
    assert!(rt; policy.declares(TAPE));
    assert!(rt; !policy.declares(NO_REGION));
}

fn check_its_declarations(rt: &impl Abort, policy: Policy) {
    check_declared(rt, &policy);
}

#[test]
fn objects_are_declared_by_their_numbers(rt: HostRuntime) -> Result<(), Fail> {
    check_its_declarations(&rt, studio(rt.alloc())?);
    Ok(())
}

/// Whether a right to read is in force, and is taken back.
fn is_revoked(grants: &mut Grants) -> bool {
    grants.are_in_force(NORA, &[(TAPE, Rights::READ)])
        && grants.revoke(NORA, TAPE, Rights::READ).is_ok()
}

/// Whether a right to read is granted, stays in force once a policy is put in force over itself, and is taken back.
fn is_granted_and_revoked(
    alloc: Global,
    grants: &mut Grants,
    policy: &Policy,
) -> Result<bool, AllocError>
    requires { rules_in grants.old ≡ rules_of policy.now }
{
    let _ = grants.grant(NORA, TAPE, Rights::READ);
    if grants.blocked(policy).is_some() {
        return Ok(false);
    }
    grants.reload(alloc, policy)?;
    Ok(is_revoked(grants))
}

fn are_granted_under(alloc: Global, policy: &Policy) -> Result<bool, AllocError> {
    let mut grants = Grants::new(alloc, policy)?;
    is_granted_and_revoked(alloc, &mut grants, policy)
}

fn are_granted(alloc: Global, policy: Policy) -> Result<bool, AllocError> {
    are_granted_under(alloc, &policy)
}

#[test]
fn a_reload_leaves_what_its_policy_allows(rt: HostRuntime) -> Result<(), Fail> {
    assert!(rt; are_granted(rt.alloc(), studio(rt.alloc())?) == Ok(true));
    Ok(())
}

fn first_operation<'a>(module: &'a Module) -> Option<&'a Operation> {
    match module.kernels.get(0)?.items.get(0)? {
        Item::Instruction(instruction) => Some(&instruction.operation),
        Item::Label(_) | Item::Variable(_) => None,
    }
}

/// Whether the first instruction says how its address is aligned.
fn is_aligned(module: &Module) -> bool {
    match first_operation(module) {
        Some(operation) => matches!(operation.modifiers(), Modifiers::One(Modifier::Align(2))),
        None => false,
    }
}

fn begins_aligned(alloc: Global, text: &str) -> bool {
    match module_of(alloc, text.as_bytes()) {
        Ok(module) => is_aligned(&module),
        Err(_) => false,
    }
}

#[test]
fn modifiers_are_kept(rt: HostRuntime) {
    assert!(rt; begins_aligned(rt.alloc(), FADE));
}

/// Whether the first kernel has one argument of 64 bits, after eight bytes.
fn has_one_wide(kernels: &Checked) -> bool {
    if kernels.count() == 0 {
        return false;
    }
    kernels.wide_arguments(0) == [8].as_slice()
}

fn has_one_wide_alone(kernels: Checked) -> bool {
    has_one_wide(&kernels)
}

#[test]
fn wide_arguments_have_their_offsets(rt: HostRuntime) -> Result<(), Fail> {
    assert!(rt; has_one_wide_alone(checked(rt.alloc(), FADE)?));
    Ok(())
}

/// There are two signals, 1 and 0.
fn check_two(rt: &impl Abort, signals: &Signals) {
    assert!(rt; signals.len() == 2);
    assert!(rt; !signals.is_empty());
}

fn check_all(rt: &impl Abort, signals: Signals) {
    check_two(rt, &signals);
    assert!(rt; signals.test(SignalHandle(1), Condition::Gte, 1) == Ok(true));
}

#[test]
fn signals_are_counted_and_tested(rt: HostRuntime) -> Result<(), Fail> {
    check_all(&rt, Signals::new(rt.alloc(), &[1, 0])?);
    Ok(())
}
