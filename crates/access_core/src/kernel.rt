//! Kernels that packets may launch.

ghost use Rattle.std.specs.Prelude.{◌≡◌, Some, true};
ghost use Rattle.std.specs.Option.{option_copied};
ghost use Rattle.policy.specs.Policy.{numbered};
ghost use Rattle.core_model.specs.Kernels.{segments_of};
ghost use Rattle.access_core.specs.Opening.{IsNumber, has_entry, program_of};

use aql_packet::KernelObject;
use core_model::KernelSegments;
use kernel_check::{Checked, Program};

/// A kernel that packets may launch: one of the checked kernels of a module.
#[derive(Drop)]
pub struct Kernel {
    /// The module's checked kernels.
    pub checked: Checked,
    /// The kernel's index among them, if the module has it.
    pub entry: Option<u32>,
}

impl Kernel {
    /// Whether it has an index, and that is the index of a checked kernel.
    pub fn has_entry(&self) -> bool
        ensures { result ≡ has_entry self.now }
    {
        self.entry.is_some_and(|index| index < self.checked.count())
    }

    /// Its index.
    pub fn index(&self) -> u32
        requires { has_entry self.now ≡ true }
        ensures { self.now.entry ≡ Some result }
    {
        self.entry.unwrap()
    }

    /// The checked kernel.
    pub fn program(&self) -> &Program
        requires { has_entry self.now ≡ true }
        ensures { result.now ≡ program_of self.now }
    {
        self.checked.kernel(self.index())
    }

    /// How large its segments are.
    pub fn segments(&self) -> KernelSegments
        requires { has_entry self.now ≡ true }
        ensures { result ≡ segments_of (program_of self.now) }
    {
        let program = self.program();
        KernelSegments {
            kernarg: program.kernarg_bytes(),
            group: program.group_bytes(),
        }
    }
}

/// The kernel of a number, which counts from 1, if there is one.
pub fn kernel_named(kernels: &[Kernel], number: KernelObject) -> Option<&Kernel>
    ensures { option_copied result ≡ numbered kernels.now number.0 }
{
    if number.0 == 0 {
        return None;
    }
    kernels.get((number.0 - 1) as usize)
}

/// The kernel of a number, which counts from 1 and is that of a kernel.
pub fn kernel_at(kernels: &[Kernel], number: KernelObject) -> &Kernel
    requires { IsNumber kernels.now number.0 }
    ensures { numbered kernels.now number.0 ≡ Some result.now }
{
    &kernels[(number.0 - 1) as usize]
}
