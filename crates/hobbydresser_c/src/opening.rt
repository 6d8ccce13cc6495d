//! A broker is opened and closed.

ghost use Rattle.std.specs.Prelude.{◌≡◌, IfSome, true, false, if◌then◌else◌};
ghost use Rattle.hobbydresser_c.specs.Calls.{IsSame, is_open};
ghost use Rattle.hobbydresser_c.specs.Opening.{Judges, Opened, failure_told, kernel_told, number_of_section, opening_told, policy_fault_told, status_of_failure, status_of_kernel, status_of_opening};
ghost use Rattle.hobbydresser_c.specs.Statuses.{closed, ok, open_already, status_of_cause};

use crate::broker::Broker;
use crate::digests::digest_of;
use crate::kernels::{KernelCause, KernelError, KernelFault, check_kernels};
use crate::last_call::NO_CALL;
use crate::session::Session;
use crate::session_pointer::SessionPointer;
use crate::status;
use access_core::{AccessCore, OpenFault};
use policy::{PolicyFault, ReadPolicyError, Section, read_policy};
use std::alloc::Global;

/// Where an opening failed, `hd_fault` in C: 0 stands for nothing.
#[repr(C)]
#[derive(Clone, Copy)]
pub struct FaultRecord {
    /// The array of the policy, 1 for the clients to 7 for the deny rows, and its row.
    pub section: u32,
    pub row: u32,
    /// The kernel's number, and the line and the column of its text.
    pub kernel: u64,
    pub line: u32,
    pub column: u32,
}

// No fault.
const NO_FAULT: FaultRecord = FaultRecord {
    section: 0,
    row: 0,
    kernel: 0,
    line: 0,
    column: 0,
};

/// Why no broker is opened.
#[derive(Clone, Copy)]
pub enum Failure {
    /// Memory was wanted and not to be had.
    OutOfMemory,
    /// The text is no policy.
    Policy(PolicyFault),
    /// A kernel of the policy is refused.
    Kernel(KernelFault),
    /// No core is opened with the policy and its kernels.
    Opening(OpenFault),
}

// A core over the policy that a text declares, with its kernels.
fn open_session(alloc: Global, text: &[u8], places: usize) -> Result<Session, Failure>
    ensures { Judges text.now places result }
{
    let policy = match read_policy(alloc, text) {
        Ok(policy) => policy,
        Err(ReadPolicyError::OutOfMemory) => return Err(Failure::OutOfMemory),
        Err(ReadPolicyError::Fault(fault)) => return Err(Failure::Policy(fault)),
    };
    let kernels = match check_kernels(alloc, &policy) {
        Ok(kernels) => kernels,
        Err(KernelError::OutOfMemory) => return Err(Failure::OutOfMemory),
        Err(KernelError::Fault(fault)) => return Err(Failure::Kernel(fault)),
    };
    match AccessCore::open(alloc, policy, kernels, places) {
        Ok(core) => {
            let digest = digest_of(text);
            Ok(Session {
                core,
                digest,
                last: NO_CALL,
            })
        }
        Err(why) => Err(Failure::Opening(why)),
    }
}

// The number of a policy's array, 0 for none.
fn number_of_section(section: Option<Section>) -> u32
    ensures { result ≡ number_of_section section }
{
    match section {
        None => 0,
        Some(Section::Client) => 1,
        Some(Section::Agent) => 2,
        Some(Section::Region) => 3,
        Some(Section::Signal) => 4,
        Some(Section::Kernel) => 5,
        Some(Section::Allow) => 6,
        Some(Section::Deny) => 7,
    }
}

// The status of what is wrong with a kernel.
fn status_of_kernel(cause: KernelCause) -> u32
    ensures { result ≡ status_of_kernel cause }
{
    match cause {
        KernelCause::Read(fault) => status::of_read(fault.cause),
        KernelCause::Check(fault) => status::of_check(fault.cause),
    }
}

// Where it is.
fn kernel_told(kernel: u32, cause: KernelCause) -> FaultRecord
    ensures { result ≡ kernel_told kernel cause }
{
    let (line, column) = match cause {
        KernelCause::Read(fault) => (fault.line, fault.column),
        KernelCause::Check(fault) => (fault.line, 0),
    };
    FaultRecord {
        kernel: kernel as u64,
        line,
        column,
        ..NO_FAULT
    }
}

// Tells why no core is opened.
fn tell_opening(why: OpenFault, fault: &mut FaultRecord) -> u32
    ensures status { result ≡ status_of_opening why }
    ensures fault { fault.new ≡ opening_told fault.old why }
{
    match why {
        OpenFault::OutOfMemory => status::OUT_OF_MEMORY,
        OpenFault::KernelCount => status::OTHER_KERNELS,
        OpenFault::NoEntry(kernel) => {
            *fault = FaultRecord {
                kernel: kernel.0,
                ..NO_FAULT
            };
            status::NO_ENTRY
        }
        OpenFault::BadCapacity => status::BAD_PLACES,
    }
}

// Tells what is wrong with a policy's text, and where.
pub(crate) fn tell_policy_fault(of: PolicyFault, fault: &mut FaultRecord) -> u32
    ensures status { result ≡ status_of_cause of.cause }
    ensures fault { fault.new ≡ policy_fault_told of }
{
    *fault = FaultRecord {
        section: number_of_section(of.kind),
        row: of.row,
        ..NO_FAULT
    };
    status::of_cause(of.cause)
}

// Tells why no broker is opened.
fn tell_failure(why: Failure, fault: &mut FaultRecord) -> u32
    ensures status { result ≡ status_of_failure why }
    ensures fault { fault.new ≡ failure_told fault.old why }
{
    match why {
        Failure::OutOfMemory => status::OUT_OF_MEMORY,
        Failure::Policy(of) => tell_policy_fault(of, fault),
        Failure::Kernel(of) => {
            *fault = kernel_told(of.kernel, of.cause);
            status_of_kernel(of.cause)
        }
        Failure::Opening(why) => tell_opening(why, fault),
    }
}

// A pointer to a session, in memory of its own, where there is some.
fn pointer_to(alloc: Global, session: Session) -> Option<SessionPointer>
    ensures { IfSome result (λ pointer. (pointer.live ≡ true) × (pointer.session ≡ session)) }
{
    match Box::new(alloc, session) {
        Ok(made) => Some(SessionPointer::new(made)),
        Err(_) => None,
    }
}

/// Opens a broker over the text of a policy, with so many places in its audit.
#[unsafe(no_mangle)]
pub extern "C" fn hd_open(
    alloc: Global,
    broker: &mut Broker,
    text: &[u8],
    places: usize,
    fault: &mut FaultRecord,
) -> u32
    ensures already { is_open broker.old ≡ true → (result ≡ open_already) × IsSame broker.old broker.new × (fault.new ≡ fault.old) }
    ensures met { is_open broker.old ≡ false → Opened text.now places broker.old broker.new result fault.old fault.new }
{
    if broker.is_open() {
        return status::OPEN_ALREADY;
    }
    let session = match open_session(alloc, text, places) {
        Ok(session) => session,
        Err(why) => return tell_failure(why, fault),
    };
    match pointer_to(alloc, session) {
        Some(pointer) => {
            *broker = Broker { state: 1, pointer };
            status::OK
        }
        None => tell_failure(Failure::OutOfMemory, fault),
    }
}

/// Closes a broker, which C has no more from then on.
#[unsafe(no_mangle)]
pub extern "C" fn hd_close_handle(broker: Broker) -> u32
    ensures { result ≡ (if is_open broker then ok else closed) }
{
    if !broker.is_open() {
        return status::CLOSED;
    }
    let Broker { state: _, pointer } = broker;
    drop(pointer.into_box());
    status::OK
}
