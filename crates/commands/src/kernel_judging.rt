//! The kernels of a policy are read and checked.

ghost use Rattle.std.specs.Prelude.{◌≡◌, ◌+◌, ◌<◌, ◌++◌, ◌∷◌, [], IfOk, IfErr, OnOk, Some, length};
ghost use Rattle.policy.specs.Policy.{row_of};
ghost use Rattle.kernel_check.specs.Checks.{checking};
ghost use Rattle.commands.specs.Kernels.{AreLaunchable, AreRefused, ChecksSource, ChecksText, checked_or_cause, checked_text, JudgesKernel};

use access_core::Kernel;
use aql_packet::KernelObject;
use hsail_reader::{Module, ReadError, ReadFault, read_module};
use kernel_check::{CheckError, CheckFault, Checked, check};
use policy::{KernelSource, Kind, Policy};
use std::alloc::{AllocError, Global};
use std::fmt;

/// What is wrong with a kernel.
#[derive(Clone, Copy, Debug, PartialEq, Eq)]
pub enum KernelCause {
    /// Its text is no module.
    Read(ReadFault),
    /// Its module is refused.
    Check(CheckFault),
}

/// A kernel of a policy that is refused, by its number from 1.
#[derive(Clone, Copy, Debug, PartialEq, Eq, thiserror::Error)]
pub struct KernelFault {
    pub kernel: u32,
    pub cause: KernelCause,
}

/// It prints as `kernel 2: read 3 line 4 column 1`, or `kernel 2: check 1 line 9`.
impl fmt::Display for KernelFault {
    ghost use Rattle.std.specs.Prelude.{Some};
    ghost use Rattle.commands.specs.KernelTexts.{text_of_kernel_fault};

    ghost output = { λ fault. Some (text_of_kernel_fault fault) };

    fn fmt<W: fmt::Write>(&self, f: &mut fmt::Formatter<W>) -> fmt::Result {
        let kernel = self.kernel;
        match self.cause {
            KernelCause::Read(fault) => {
                let cause = fault.cause.number();
                let line = fault.line;
                let column = fault.column;
                write!(
                    f,
                    "kernel {kernel}: read {cause} line {line} column {column}"
                )
            }
            KernelCause::Check(fault) => {
                let cause = fault.cause.number();
                let line = fault.line;
                write!(f, "kernel {kernel}: check {cause} line {line}")
            }
        }
    }
}

/// Why a policy's kernels can't be used.
#[derive(Clone, Copy, Debug, PartialEq, Eq, thiserror::Error)]
pub enum KernelError {
    /// Memory was wanted and not to be had.
    #[error("out of memory")]
    OutOfMemory,
    /// A kernel is refused.
    #[error("{0}")]
    Fault(KernelFault),
}

impl From<AllocError> for KernelError {
    ghost use Rattle.std.specs.Prelude.{◌≡◌};
    ghost use Rattle.commands.specs.declared.kernel_judging.KernelError.TheVariants as error;

    ghost from_gives = { λ _ why. why ≡ error.OutOfMemory };

    fn from(_want: AllocError) -> KernelError {
        KernelError::OutOfMemory
    }
}

// The checked kernels of the text of the kernel of a number.
#[tactic(auto, unfolding(crate::specs::Kernels::checked_text))]
fn checked_text(alloc: Global, number: u32, text: &[u8]) -> Result<Checked, KernelError>
    ensures { ChecksText (checked_text text.now) number result }
{
    match read_module(alloc, text) {
        Ok(module) => checked_module(alloc, number, &module),
        Err(ReadError::OutOfMemory) => Err(KernelError::OutOfMemory),
        Err(ReadError::Fault(fault)) => Err(KernelError::Fault(KernelFault {
            kernel: number,
            cause: KernelCause::Read(fault),
        })),
    }
}

// The checked kernels of its module.
fn checked_module(alloc: Global, number: u32, source: &Module) -> Result<Checked, KernelError>
    ensures { ChecksText (checked_or_cause (checking source.now)) number result }
{
    match check(alloc, source) {
        Ok(checked) => Ok(checked),
        Err(CheckError::OutOfMemory) => Err(KernelError::OutOfMemory),
        Err(CheckError::Fault(fault)) => Err(KernelError::Fault(KernelFault {
            kernel: number,
            cause: KernelCause::Check(fault),
        })),
    }
}

// What packets may launch by a source, that of the kernel of a number.
fn check_source(alloc: Global, number: u32, source: &KernelSource) -> Result<Kernel, KernelError>
    ensures { ChecksSource source.now number result }
{
    match checked_text(alloc, number, source.text().as_bytes()) {
        Ok(checked) => {
            let entry = checked.find(source.entry().as_bytes());
            Ok(Kernel { checked, entry })
        }
        Err(why) => Err(why),
    }
}

// The source of the kernel after so many others.
fn source_behind(policy: &Policy, before: usize) -> &KernelSource
    requires there { before < length policy.now.kernels }
    requires small { before < 1024 }
    ensures { row_of policy.now.kernels (before + 1) ≡ Some result.now }
{
    policy
        .kernel_source(KernelObject(before as u64 + 1))
        .unwrap()
}

// What packets may launch by the kernel after so many others.
fn check_kernel(alloc: Global, policy: &Policy, before: usize) -> Result<Kernel, KernelError>
    requires there { before < length policy.now.kernels }
    requires small { before < 1024 }
    ensures { JudgesKernel policy.now.kernels (before + 1) result }
{
    check_source(alloc, before as u32 + 1, source_behind(policy, before))
}

// Puts a kernel after the others.
fn put_kernel(kernels: &mut Vec<Kernel>, kernel: Kernel) -> Result<(), AllocError>
    ensures { OnOk result (kernels.new.items ≡ kernels.old.items ++ kernel ∷ []) }
{
    Ok(kernels.push(kernel)?)
}

/// Reads and checks each kernel of a policy, in order, and tells what packets may launch by them, or the
/// first that is refused. A kernel whose module has none of its entry's name is let pass: it has no
/// index, and no core is opened with it.
pub fn check_kernels(alloc: Global, policy: &Policy) -> Result<Vec<Kernel>, KernelError>
    ensures passed { IfOk result (λ kernels. AreLaunchable policy.now.kernels kernels.items) }
    ensures refused { IfErr result (AreRefused policy.now.kernels) }
{
    let mut kernels = Vec::new(alloc);
    'kernels: for before in 0..policy.object_count(Kind::Kernel) {
        let kernel = check_kernel(alloc, policy, before)?;
        put_kernel(&mut kernels, kernel)?;
    }
    Ok(kernels)
}
