//! What names stand for.

ghost use Rattle.std.specs.Prelude.{◌≡◌, ◌++◌, [], ◌∷◌, length, None, OnOk, OnErr};
ghost use Rattle.kernel_check.specs.Names.{find};

use indexmap::IndexMap;
use std::alloc::{AllocError, Global};
use std::marker::Model;

/// Names, each with what it stands for, found without a look at the others.
#[derive(Drop)]
pub struct Names<'a, V> {
    entries: IndexMap<&'a [u8], V>,
}

impl<'a, V> Model for Names<'a, V> {
    ghost use Rattle.std.specs.Prelude.{List, ℕ};
    ghost use Rattle.kernel_check.specs.inner.Bound.{plain};

    ghost Value = { List (List ℕ × V) };

    ghost view = { λ names. plain names.entries.entries };
}

impl<'a, V: Copy> Names<'a, V> {
    /// No names. It takes no memory.
    pub fn new(alloc: Global) -> Names<'a, V>
        ensures { result ≡ [] }
    {
        Names {
            entries: IndexMap::new(alloc),
        }
    }

    /// How many names there are.
    pub fn len(&self) -> usize
        ensures { result ≡ length self.now }
    {
        self.entries.len()
    }

    /// What a name stands for.
    pub fn get(&self, name: &[u8]) -> Option<V>
        ensures { result ≡ find self.now name.now }
    {
        self.entries.get(name).copied()
    }

    /// Puts a new name behind the others. Without memory for it the names stay.
    pub fn add(&mut self, name: &'a [u8], value: V) -> Result<(), AllocError>
        requires { find self.old name.now ≡ None }
        ensures ok { OnOk result (self.new ≡ self.old ++ (name.now, value) ∷ []) }
        ensures err { OnErr result (self.new ≡ self.old) }
    {
        self.entries.insert(name, value)?;
        Ok(())
    }
}
