//! The calls of a core whose entries the parts have. Each stands in a function of its own without a contract, so that the
//! proofs of its callers don't carry what it is owed.

use crate::fault::Fault;
use access_core::{AccessCore, Kernel, OpenFault};
use aql_packet::{
    Address, AgentHandle, ClientId, Header, KernelDispatch, KernelObject, Packet, PacketId,
    QueueId, RegionHandle, Scope, SignalHandle, encode,
};
use bitflags::Flags;
use core_model::{Part, Refusal};
use hsail_reader::{Module, ReadError, read_module};
use kernel_check::{CheckError, Checked, check};
use policy::{KernelSource, Object, Policy, ReadPolicyError, Rights, read_policy};
use sequences::Sequence;
use std::alloc::{AllocError, Global};

/// A client that may use an agent, read and write a region, and launch a kernel, which stores two numbers apart from
/// each other. There are rows of both kinds.
const POLICY: &str = r#"
version = 2
client = [{ name = "joan" }, { name = "olaf" }]
agent = [{ name = "lathe", takes = ["kernel"] }]
region = [{ name = "oak", length = 32 }]
allow = [
    { client = "joan", kind = "agent", object = "lathe", rights = ["USE"] },
    { client = "*", kind = "region", object = "oak", rights = ["READ", "WRITE"] },
    { client = "joan", kind = "kernel", object = "turn", rights = ["LAUNCH"] },
]
deny = [
    { client = "olaf", kind = "region", object = "oak", rights = ["WRITE"] },
]

[[kernel]]
name = "turn"
entry = "&turn"
text = '''
module &shop:1:0:$base:$large:$default;
prog kernel &turn(kernarg_u64 %at)
{
  ld_kernarg_u64 $d0, [%at];
  st_global_u32 0x5a, [$d0];
  st_global_u16 0x69, [$d0+6];
};
'''
"#;

const JOAN: ClientId = ClientId(1);

const LATHE: AgentHandle = AgentHandle(1);

const OAK: RegionHandle = RegionHandle(1);

const TURN: KernelObject = KernelObject(1);

/// Where the kernel's argument lies in the region.
const ARGUMENT: Address = Address(0x1_0000_0008);

/// The argument: the region's first address. Behind it stand twelve more bytes, so that what is written takes memory.
const START: [u8; 20] = [0, 0, 0, 0, 1, 0, 0, 0, 7, 7, 7, 7, 7, 7, 7, 7, 7, 7, 7, 7];

const QUEUE: QueueId = QueueId(1);

const PACKET: PacketId = PacketId(0);

/// How many entries the audit has place for.
const PLACES: usize = 16;

/// Launches the kernel with one item.
const DISPATCH: Packet = Packet::Kernel(KernelDispatch {
    header: Header {
        barrier: false,
        acquire: Scope::System,
        release: Scope::System,
    },
    dimensions: 1,
    workgroup_size_x: 1,
    workgroup_size_y: 1,
    workgroup_size_z: 1,
    grid_size_x: 1,
    grid_size_y: 1,
    grid_size_z: 1,
    private_segment_size: 0,
    group_segment_size: 0,
    kernel_object: TURN,
    kernarg_address: ARGUMENT,
    completion_signal: SignalHandle(0),
});

fn policy(alloc: Global) -> Result<Policy, ReadPolicyError> {
    read_policy(alloc, POLICY.as_bytes())
}

fn read_text(alloc: Global, source: &KernelSource) -> Result<Module, ReadError> {
    read_module(alloc, source.text().as_bytes())
}

fn check_module(alloc: Global, module: &Module) -> Result<Checked, CheckError> {
    check(alloc, module)
}

// Ends a module, in a function of one exit.
fn let_go(_module: Module) {}

// The kernel of a text, the only one.
fn kernel_of(alloc: Global, source: &KernelSource) -> Result<Kernel, Fault> {
    let module = read_text(alloc, source)?;
    let checked = check_module(alloc, &module);
    let_go(module);
    let entry = Some(0);
    Ok(Kernel {
        checked: checked?,
        entry,
    })
}

// The kernels of the policy, one for its one row.
fn kernels(alloc: Global, policy: &Policy) -> Result<Vec<Kernel>, Fault> {
    match policy.kernel_source(TURN) {
        Some(source) => Ok(vec![in alloc; kernel_of(alloc, source)?]?),
        None => Err(Fault::Refused),
    }
}

fn open_over(alloc: Global, policy: Policy, kernels: Vec<Kernel>) -> Result<AccessCore, OpenFault> {
    AccessCore::open(alloc, policy, kernels, PLACES)
}

/// Opens a core over the policy.
pub fn open(alloc: Global) -> Result<AccessCore, Fault> {
    let policy = policy(alloc)?;
    let kernels = kernels(alloc, &policy)?;
    Ok(open_over(alloc, policy, kernels)?)
}

fn rotate(alloc: Global, core: &mut AccessCore) -> Result<Part, Refusal> {
    core.rotate(alloc)
}

fn grant(core: &mut AccessCore, object: Object, rights: Rights) -> Result<(), Refusal> {
    core.grant(JOAN, object, rights)
}

fn write(alloc: Global, core: &mut AccessCore, bytes: Sequence<u8>) -> Result<(), Refusal> {
    core.host_write(alloc, JOAN, ARGUMENT, bytes)
}

fn open_queue(alloc: Global, core: &mut AccessCore) -> Result<QueueId, Refusal> {
    core.open_queue(alloc, JOAN, LATHE, 2)
}

fn take(alloc: Global, core: &mut AccessCore) -> Result<(), Refusal> {
    core.take(alloc, QUEUE, PACKET, &encode(&DISPATCH))?;
    Ok(())
}

fn run(alloc: Global, core: &mut AccessCore) -> Result<(), Refusal> {
    core.run_next(alloc, QUEUE, PACKET)?;
    Ok(())
}

fn finish(core: &mut AccessCore) -> Result<(), Refusal> {
    core.finish(QUEUE, PACKET)
}

fn reload(alloc: Global, core: &mut AccessCore, policy: Policy) -> Result<(), (Refusal, Policy)> {
    core.reload(alloc, policy)
}

// The argument's bytes.
fn argument(alloc: Global) -> Result<Sequence<u8>, AllocError> {
    Ok(Sequence::from_vec(Vec::from_slice(alloc, &START)?))
}

/// The first part, of five entries: three grants, the kernel's argument, and a queue.
pub fn first_part(alloc: Global, core: &mut AccessCore) -> Result<Part, Fault> {
    grant(core, Object::Agent(LATHE), Rights::USE)?;
    grant(core, Object::Region(OAK), Rights::READ.union(Rights::WRITE))?;
    grant(core, Object::Kernel(TURN), Rights::LAUNCH)?;
    write(alloc, core, argument(alloc)?)?;
    open_queue(alloc, core)?;
    Ok(rotate(alloc, core)?)
}

/// The next one, of four: a packet is launched, run and completed, and the policy is put in force once more.
pub fn second_part(alloc: Global, core: &mut AccessCore) -> Result<Part, Fault> {
    take(alloc, core)?;
    run(alloc, core)?;
    finish(core)?;
    reload(alloc, core, policy(alloc)?)?;
    Ok(rotate(alloc, core)?)
}
