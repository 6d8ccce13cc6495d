//! The checked kernels of a module.

ghost use Rattle.std.specs.Prelude.{◌≡◌, ◌<◌, ◌≤◌, length, position, slice_get, option_map, Some, IfSome};
ghost use Rattle.std.specs.Str.{bytes_eq};

use crate::program::Program;
use std::marker::Model;

/// The kernels of a module in which nothing fails, in the order of the text. A contract sees the list
/// of them. There are at most 64.
#[derive(Drop)]
pub struct Checked {
    kernels: Vec<Program>,
}

impl Model for Checked {
    ghost use Rattle.std.specs.Prelude.{List, length, ◌≤◌};
    ghost use Rattle.std.specs.List.{All};
    ghost use Rattle.kernel_check.specs.Programs as programs;

    ghost Value = { List programs.Program };

    ghost view = { λ checked. checked.kernels.items };

    ghost invariant = { λ checked. (length checked.kernels.items ≤ 64) × All programs.IsSound checked.kernels.items };
}

/// The place of the first kernel with a name.
fn place_named(kernels: &[Program], name: &[u8]) -> Option<usize>
    ensures place { result ≡ position (λ kernel. bytes_eq name.now kernel.name) kernels.now }
    ensures within { IfSome result (λ index. index < length kernels.now) }
{
    'kernels: for (index, kernel) in kernels.iter().enumerate() {
        if kernel.is_named(name) {
            return Some(index);
        }
    }
    None
}

impl Checked {
    ghost use Rattle.std.specs.List.{All};
    ghost use Rattle.kernel_check.specs.Programs.{IsSound};

    /// Any checked kernels are at most 64, and each is sound. It does nothing.
    pub fn law_are_sound(&self)
        ensures few { length self.now ≤ 64 }
        ensures sound { All IsSound self.now }
    {
        let _ = &self.kernels;
    }

    /// The kernels, in order.
    pub(crate) fn new(kernels: Vec<Program>) -> Checked
        requires few { length kernels.items ≤ 64 }
        requires sound { All IsSound kernels.items }
        ensures { result ≡ kernels.items }
    {
        Checked { kernels }
    }

    /// How many kernels there are, at most 64.
    pub fn count(&self) -> u32
        ensures value { result ≡ length self.now }
        ensures bound { result ≤ 64 }
    {
        self.kernels.len() as u32
    }

    /// The index of the kernel with a name, which begins with `&`; the first is 0.
    pub fn find(&self, name: &[u8]) -> Option<u32>
        ensures place { result ≡ position (λ kernel. bytes_eq name.now kernel.name) self.now }
        ensures within { IfSome result (λ index. index < length self.now) }
    {
        match place_named(self.kernels.as_slice(), name) {
            Some(index) => Some(index as u32),
            None => None,
        }
    }

    /// The kernel at an index.
    pub fn kernel(&self, index: u32) -> &Program
        requires { index < length self.now }
        ensures { slice_get self.now index ≡ Some result.now }
    {
        &self.kernels[index as usize]
    }

    /// How many bytes the argument block of a kernel has.
    pub fn kernarg_bytes(&self, index: u32) -> u32
        requires { index < length self.now }
        ensures { option_map (λ kernel. kernel.argument_bytes) (slice_get self.now index) ≡ Some result }
    {
        self.kernel(index).kernarg_bytes()
    }

    /// How many bytes the group variables of a kernel take.
    pub fn group_bytes(&self, index: u32) -> u32
        requires { index < length self.now }
        ensures { option_map (λ kernel. kernel.group_bytes) (slice_get self.now index) ≡ Some result }
    {
        self.kernel(index).group_bytes()
    }

    /// The offsets of a kernel's arguments of 64 bits in its argument block, ascending.
    pub fn wide_arguments(&self, index: u32) -> &[u32]
        requires { index < length self.now }
        ensures { option_map (λ kernel. kernel.wide) (slice_get self.now index) ≡ Some result.now }
    {
        self.kernel(index).wide_arguments()
    }
}
