//! What lines may name: a policy, and how the arguments of its kernels lie.

ghost use Rattle.std.specs.Prelude.{◌≡◌, IfOk};
ghost use Rattle.policy.specs.Format.{Declares};

use crate::layout::{ArgumentPlace, end_of, place_behind};
use aql_packet::KernelObject;
use hsail_reader::{Argument, Module, ReadError, read_module};
use kernel_check::{CheckError, Checked, check};
use policy::{KernelSource, Kind, Policy, ReadPolicyError, read_policy};
use sequences::Sequence;
use std::alloc::{AllocError, AllocFailed, Global};

// The most bytes of an argument block.
const MOST_ARGUMENT_BYTES: u32 = 4096;

/// How a kernel is dispatched: where its arguments lie in their block, in order, their names, and the bytes of its
/// group variables.
#[derive(Drop)]
pub struct KernelShape {
    pub arguments: Sequence<ArgumentPlace>,
    pub names: Vec<Sequence<u8>>,
    pub group_bytes: u32,
}

/// What lines may name: the objects of a policy, and the shape of each kernel, `None` where its module
/// has no kernel of its entry's name.
#[derive(Drop)]
pub struct Book {
    pub policy: Policy,
    pub shapes: Vec<Option<KernelShape>>,
}

/// Why there is no book of a policy (own).
#[derive(Clone, Copy, Debug, PartialEq, Eq, thiserror::Error)]
pub enum BookError {
    /// Memory was wanted and not to be had.
    #[error("out of memory")]
    OutOfMemory,
    /// The policy, or one of its kernels, has a fault.
    #[error("the policy or one of its kernels has a fault")]
    Refused,
}

impl From<AllocError> for BookError {
    ghost use Rattle.assemble.specs.declared.book.BookError.TheVariants as error;

    ghost from_gives = { λ _ why. why ≡ error.OutOfMemory };

    fn from(_want: AllocError) -> BookError {
        BookError::OutOfMemory
    }
}

impl<T: Drop> From<AllocFailed<T>> for BookError {
    ghost use Rattle.assemble.specs.declared.book.BookError.TheVariants as error;

    ghost from_gives = { λ _ why. why ≡ error.OutOfMemory };

    fn from(_want: AllocFailed<T>) -> BookError {
        BookError::OutOfMemory
    }
}

// The arguments of a kernel at their places.
fn placed(alloc: Global, arguments: &[Argument]) -> Result<Sequence<ArgumentPlace>, BookError> {
    let mut places = Vec::new(alloc);
    let mut end = 0;
    for argument in arguments {
        if end > MOST_ARGUMENT_BYTES {
            return Err(BookError::Refused);
        }
        places.push(place_behind(end, argument))?;
        end = end_of(end, argument);
    }
    Ok(Sequence::from_vec(places))
}

// The names of a kernel's arguments, in order.
fn names_of(alloc: Global, arguments: &[Argument]) -> Result<Vec<Sequence<u8>>, BookError> {
    let mut names = Vec::new(alloc);
    for argument in arguments {
        let mut name = Vec::new(alloc);
        name.extend_from_slice(argument.name.as_slice())?;
        names.push(Sequence::from_vec(name))?;
    }
    Ok(names)
}

// The shape of the kernel of a module at an index.
fn shape_at(
    alloc: Global,
    module: &Module,
    checked: &Checked,
    index: u32,
) -> Result<Option<KernelShape>, BookError> {
    let Some(kernel) = module.kernels.get(index as usize) else {
        return Ok(None);
    };
    if index >= checked.count() {
        return Ok(None);
    }
    Ok(Some(KernelShape {
        arguments: placed(alloc, kernel.arguments.as_slice())?,
        names: names_of(alloc, kernel.arguments.as_slice())?,
        group_bytes: checked.group_bytes(index),
    }))
}

// The shape of the kernel that an entry names.
fn shape_named(
    alloc: Global,
    module: &Module,
    checked: &Checked,
    entry: &[u8],
) -> Result<Option<KernelShape>, BookError> {
    match checked.find(entry) {
        Some(index) => shape_at(alloc, module, checked, index),
        None => Ok(None),
    }
}

// Reads the text of a kernel.
fn module_in(alloc: Global, text: &[u8]) -> Result<Module, BookError> {
    match read_module(alloc, text) {
        Ok(module) => Ok(module),
        Err(ReadError::OutOfMemory) => Err(BookError::OutOfMemory),
        Err(ReadError::Fault(_)) => Err(BookError::Refused),
    }
}

// Checks its module.
fn checked_in(alloc: Global, module: &Module) -> Result<Checked, BookError> {
    match check(alloc, module) {
        Ok(checked) => Ok(checked),
        Err(CheckError::OutOfMemory) => Err(BookError::OutOfMemory),
        Err(CheckError::Fault(_)) => Err(BookError::Refused),
    }
}

// The shape of a kernel of the policy.
fn shape_of(alloc: Global, source: &KernelSource) -> Result<Option<KernelShape>, BookError> {
    let module = module_in(alloc, source.text().as_bytes())?;
    let checked = checked_in(alloc, &module)?;
    shape_named(alloc, &module, &checked, source.entry().as_bytes())
}

// The shapes of the kernels of a policy, in order.
fn shapes(alloc: Global, policy: &Policy) -> Result<Vec<Option<KernelShape>>, BookError> {
    let mut shapes = Vec::new(alloc);
    for before in 0..policy.object_count(Kind::Kernel) {
        let number = KernelObject(before as u64 + 1);
        if let Some(source) = policy.kernel_source(number) {
            shapes.push(shape_of(alloc, source)?)?;
        }
    }
    Ok(shapes)
}

// Reads the text of a policy.
fn policy_in(alloc: Global, text: &[u8]) -> Result<Policy, BookError>
    ensures { IfOk result (Declares text.now) }
{
    match read_policy(alloc, text) {
        Ok(policy) => Ok(policy),
        Err(ReadPolicyError::OutOfMemory) => Err(BookError::OutOfMemory),
        Err(ReadPolicyError::Fault(_)) => Err(BookError::Refused),
    }
}

impl Book {
    /// The book of the policy in a text. `Refused` is told without its cause: what checks policies names it.
    pub fn read(alloc: Global, text: &[u8]) -> Result<Book, BookError>
        ensures { IfOk result (λ book. Declares text.now book.policy) }
    {
        let policy = policy_in(alloc, text)?;
        let shapes = shapes(alloc, &policy)?;
        Ok(Book { policy, shapes })
    }

    /// The shape of a kernel by its number, if its module has one of its entry's name.
    pub fn shape(&self, kernel: KernelObject) -> Option<&KernelShape> {
        let before = kernel.0.checked_sub(1)?;
        self.shapes.get(before as usize)?.as_ref()
    }
}
