//! A checked kernel.

ghost use Rattle.std.specs.Prelude.{◌≡◌, ◌<◌, ◌≤◌, ◌+◌, length, map, Bool, IfOk};
ghost use Rattle.std.specs.List.{All};
ghost use Rattle.std.specs.Str.{bytes_eq};
ghost use Rattle.kernel_check.specs.Limits.{most_argument_bytes, most_group_bytes, most_instructions};

use crate::flat::FlatStep;
use crate::flattening::flat_steps;
use crate::step::{LinedStep, Step};
use sequences::Sequence;
use std::alloc::{AllocError, Global};
use std::marker::Model;

/// A kernel in which nothing fails. A contract sees its name, the bytes of its argument block and of its
/// group variables, the offsets of its arguments of 64 bits, and its steps; every label and argument
/// named in these exists and fits.
#[derive(Drop)]
pub struct Program {
    name: Sequence<u8>,
    argument_bytes: u32,
    group_bytes: u32,
    wide: Sequence<u32>,
    steps: Sequence<Step>,
    flat: Sequence<FlatStep>,
    lines: Sequence<u32>,
}

impl Model for Program {
    ghost use Rattle.kernel_check.specs.Flat as flats;
    ghost use Rattle.kernel_check.specs.Programs as programs;

    ghost Value = { programs.Program };

    ghost view = { λ p. record { name = p.name; argument_bytes = p.argument_bytes; group_bytes = p.group_bytes; wide = p.wide; steps = p.steps; lines = p.lines } };

    ghost invariant = { λ p. programs.IsSound (record { name = p.name; argument_bytes = p.argument_bytes; group_bytes = p.group_bytes; wide = p.wide; steps = p.steps; lines = p.lines }) × flats.AreFlat p.flat p.steps };
}

/// Steps without their lines.
fn steps_of(alloc: Global, lined: &[LinedStep]) -> Result<Vec<Step>, AllocError>
    ensures { IfOk result (λ steps. steps.items ≡ map (λ one. one.step) lined.now) }
{
    let mut steps = Vec::new(alloc);
    'steps: for one in lined {
        steps.push(one.step)?;
    }
    Ok(steps)
}

/// The lines of steps.
fn lines_of(alloc: Global, lined: &[LinedStep]) -> Result<Vec<u32>, AllocError>
    ensures { IfOk result (λ lines. lines.items ≡ map (λ one. one.line) lined.now) }
{
    let mut lines = Vec::new(alloc);
    'lines: for one in lined {
        lines.push(one.line)?;
    }
    Ok(lines)
}

impl Program {
    ghost use Rattle.kernel_check.specs.Flat.{AreFlat};
    ghost use Rattle.kernel_check.specs.Programs.{Ascends, HasItsClasses, IsSound, StaysWithin, program};

    /// Any checked kernel is sound: each label that a step names exists, each argument that one loads stands there
    /// with that width, each register is of the class that its step asks, each constant lies in its width, and
    /// the arguments of 64 bits ascend. It does nothing.
    pub fn law_is_sound(&self)
        ensures { IsSound self.now }
    {
        let _ = &self.name;
    }

    /// The kernel of these parts.
    pub(crate) fn new(
        alloc: Global,
        name: Sequence<u8>,
        argument_bytes: u32,
        group_bytes: u32,
        wide: Vec<u32>,
        lined: &[LinedStep],
    ) -> Result<Program, AllocError>
        requires { IsSound (program name argument_bytes group_bytes wide.items lined.now) }
        ensures { IfOk result (λ p. p ≡ program name argument_bytes group_bytes wide.items lined.now) }
    {
        let steps = steps_of(alloc, lined)?;
        let flat = flat_steps(alloc, steps.as_slice())?;
        let lines = lines_of(alloc, lined)?;
        Ok(Program {
            name,
            argument_bytes,
            group_bytes,
            wide: Sequence::from_vec(wide),
            steps: Sequence::from_vec(steps),
            flat: Sequence::from_vec(flat),
            lines: Sequence::from_vec(lines),
        })
    }

    /// The kernel's name, with its `&`.
    pub fn name(&self) -> &[u8]
        ensures { result.now ≡ self.now.name }
    {
        self.name.as_slice()
    }

    /// Whether the kernel has this name, which begins with `&`.
    pub fn is_named(&self, name: &[u8]) -> bool
        ensures { result ≡ bytes_eq name.now self.now.name }
    {
        name == self.name.as_slice()
    }

    /// How many bytes the argument block has.
    pub fn kernarg_bytes(&self) -> u32
        ensures value { result ≡ self.now.argument_bytes }
        ensures bound { result ≤ most_argument_bytes }
    {
        self.argument_bytes
    }

    /// How many bytes the group variables take.
    pub fn group_bytes(&self) -> u32
        ensures value { result ≡ self.now.group_bytes }
        ensures bound { result ≤ most_group_bytes }
    {
        self.group_bytes
    }

    /// The offsets of the arguments of 64 bits in the argument block, ascending.
    pub fn wide_arguments(&self) -> &[u32]
        ensures value { result.now ≡ self.now.wide }
        ensures ascending { Ascends result.now }
        ensures within { All (λ offset. offset + 8 ≤ self.now.argument_bytes) result.now }
    {
        self.wide.as_slice()
    }

    /// The steps, in the order of the text. An item whose next step is none of them has ended.
    pub fn steps(&self) -> &[Step]
        ensures value { result.now ≡ self.now.steps }
        ensures count { length result.now ≤ most_instructions }
        ensures within { All (StaysWithin (length self.now.steps) self.now.argument_bytes) result.now }
        ensures classes { All HasItsClasses result.now }
    {
        self.steps.as_slice()
    }

    /// The steps laid flat, one for each step.
    #[inline(always)]
    pub fn flat_steps(&self) -> &[FlatStep]
        ensures value { AreFlat result.now self.now.steps }
        ensures count { length result.now ≡ length self.now.steps }
        ensures few { length result.now ≤ most_instructions }
    {
        self.flat.as_slice()
    }

    /// The line that each step stands on in the text, that of its instruction's first token.
    pub fn lines(&self) -> &[u32]
        ensures value { result.now ≡ self.now.lines }
        ensures count { length result.now ≡ length self.now.steps }
    {
        self.lines.as_slice()
    }
}
