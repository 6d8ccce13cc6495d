//! The changes of an entry, kept in place where they are few.

ghost use Rattle.std.specs.Prelude.{◌≡◌, ◌∷◌, [], IfOk};

use crate::entry::Effect;
use std::alloc::{AllocError, Global};
use std::marker::Model;

/// The changes that an event made, in order. Up to two take no memory, so that a completion, which
/// may not fail, can be told. A contract sees the list.
#[derive(Drop, Debug)]
pub struct Effects {
    kept: Kept,
}

/// Where the changes are kept.
#[derive(Drop, Debug)]
enum Kept {
    Few0,
    Few1([Effect; 1]),
    Few2([Effect; 2]),
    Many(Vec<Effect>),
}

impl Model for Effects {
    ghost use Rattle.std.specs.Prelude.{List};
    ghost use Rattle.core_model.specs.declared.entry.Effect.{Effect};

    ghost Value = { List Effect };

    ghost use Rattle.core_model.specs.inner.Effects.{effects_in_order};

    ghost view = { λ e. effects_in_order e.kept };
}

impl Effects {
    /// No change.
    pub fn none() -> Effects
        ensures { result ≡ [] }
    {
        Effects { kept: Kept::Few0 }
    }

    /// One change.
    pub fn one(only: Effect) -> Effects
        ensures { result ≡ only ∷ [] }
    {
        Effects {
            kept: Kept::Few1([only]),
        }
    }

    /// Two changes, in this order.
    pub fn two(first: Effect, second: Effect) -> Effects
        ensures { result ≡ first ∷ second ∷ [] }
    {
        Effects {
            kept: Kept::Few2([first, second]),
        }
    }

    /// Any number of changes, in order.
    pub fn many(all: Vec<Effect>) -> Effects
        ensures { result ≡ all.items }
    {
        Effects {
            kept: Kept::Many(all),
        }
    }

    /// The changes, in order.
    pub fn as_slice(&self) -> &[Effect]
        ensures { result.now ≡ self.now }
    {
        match &self.kept {
            Kept::Few0 => &[],
            Kept::Few1(few) => few,
            Kept::Few2(few) => few,
            Kept::Many(many) => many.as_slice(),
        }
    }

    /// The same changes once more, with bytes of their own.
    pub fn copy(&self, alloc: Global) -> Result<Effects, AllocError>
        ensures { IfOk result (λ copy. copy ≡ self.now) }
    {
        match &self.kept {
            Kept::Few0 => Ok(Effects::none()),
            Kept::Few1([only]) => Ok(Effects::one(only.copy(alloc)?)),
            Kept::Few2([first, second]) => {
                Ok(Effects::two(first.copy(alloc)?, second.copy(alloc)?))
            }
            Kept::Many(many) => Ok(Effects::many(copy_all(alloc, many.as_slice())?)),
        }
    }
}

// The same changes once more.
fn copy_all(alloc: Global, effects: &[Effect]) -> Result<Vec<Effect>, AllocError>
    ensures { IfOk result (λ copy. copy.items ≡ effects.now) }
{
    let mut copies = Vec::with_capacity(alloc, effects.len())?;
    for effect in effects {
        copies.push(effect.copy(alloc)?)?;
    }
    Ok(copies)
}
