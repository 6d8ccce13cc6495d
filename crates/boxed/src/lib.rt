//! A value in memory of its own, which contracts see as the value itself.
#![tactic(auto)]

ghost use Rattle.std.specs.Prelude.{◌≡◌, IfErr, IfOk};

use std::alloc::{AllocFailed, Global};
use std::boxed::Box;
use std::marker::Model;

/// A large value in memory of its own, so that whoever passes it on moves one word. A contract sees the value, and
/// nothing of the memory behind it.
#[derive(Drop)]
pub struct Boxed<T> {
    kept: Box<T>,
}

impl<T> Model for Boxed<T> {
    ghost Value = { T };

    ghost view = { λ b. b.kept.value };
}

impl<T> Boxed<T> {
    ghost use Rattle.std.specs.Borrow.{Lends, sem};
    ghost use Rattle.boxed.specs.contracts.Boxed.{the_row};

    /// Puts a value into memory of its own; without memory for it, it comes back.
    pub fn new(alloc: Global, value: T) -> Result<Boxed<T>, AllocFailed<T>>
        ensures kept { IfOk result (λ boxed. boxed ≡ value) }
        ensures given_back { IfErr result (λ refused. refused.value ≡ value) }
    {
        match Box::new(alloc, value) {
            Ok(kept) => Ok(Boxed { kept }),
            Err(refused) => Err(refused),
        }
    }

    /// The value.
    pub fn as_ref(&self) -> &T
        ensures { result.now ≡ self.now }
    {
        self.kept.as_ref()
    }

    /// The value, to be changed in place.
    pub fn as_mut(&mut self) -> &mut T
        ensures* writes_back { sem 𝓛 (Lends (the_row T.row) T.row self.entry result (λ w. w)) }
        ensures value { result.now ≡ self.old }
    {
        self.kept.as_mut()
    }

    /// The value out of its memory.
    pub fn into_inner(self) -> T
        ensures { result ≡ self }
    {
        let Boxed { kept } = self;
        Box::into_inner(kept)
    }
}
