//! A list in memory of its own.

ghost use Rattle.std.specs.Prelude.{◌≡◌, ◌==◌, ◌<◌, ◌++◌, ◌∷◌, [], IfErr, IfOk, length, remove, slice_get, slice_set, if◌then◌else◌, is_ok};
ghost use Rattle.std.specs.Option.{option_copied};
ghost use Rattle.std.specs.Fn.{CalledAt};
ghost use Rattle.std.specs.List.Retain.{IsFiltered};

use std::alloc::{AllocError, AllocFailed, Global};
use std::marker::Model;

/// A list in memory of its own. A contract sees the list of its items, and nothing of the memory
/// behind it: two sequences with the same items in the same order are equal.
#[derive(Drop, Debug)]
pub struct Sequence<T> {
    items: Vec<T>,
}

impl<T> Model for Sequence<T> {
    ghost use Rattle.std.specs.Prelude.{List};

    ghost Value = { List T };

    ghost view = { λ s. s.items.items };
}

impl<T> Sequence<T> {
    /// The empty list. It takes no memory.
    pub fn new(alloc: Global) -> Sequence<T>
        ensures { result ≡ [] }
    {
        Sequence {
            items: Vec::new(alloc),
        }
    }

    /// The items of a vector, in order. It takes no memory.
    pub fn from_vec(items: Vec<T>) -> Sequence<T>
        ensures { result ≡ items.items }
    {
        Sequence { items }
    }

    /// The items as a vector, in order. It takes no memory.
    pub fn into_vec(self) -> Vec<T>
        ensures { result.items ≡ self }
    {
        let Sequence { items } = self;
        items
    }

    /// How many items there are.
    pub fn len(&self) -> usize
        ensures { result ≡ length self.now }
    {
        self.items.len()
    }

    /// Whether there is no item.
    pub fn is_empty(&self) -> bool
        ensures { result ≡ (length self.now == 0) }
    {
        self.items.is_empty()
    }

    /// The items, in order.
    pub fn as_slice(&self) -> &[T]
        ensures { result.now ≡ self.now }
    {
        self.items.as_slice()
    }

    /// The item at an index from 0, if there is one.
    pub fn get(&self, index: usize) -> Option<&T>
        ensures { option_copied result ≡ slice_get self.now index }
    {
        self.items.get(index)
    }

    /// Puts an item behind the others; without memory for it the item comes back and the list stays.
    pub fn push(&mut self, item: T) -> Result<(), AllocFailed<T>>
        ensures items { self.new ≡ (if is_ok result then self.old ++ item ∷ [] else self.old) }
        ensures given_back { IfErr result (λ e. e.value ≡ item) }
    {
        self.items.push(item)
    }

    /// Puts an item in the place of another.
    pub fn set(&mut self, index: usize, item: T)
    where
        T: Drop,
        requires { index < length self.old }
        ensures { self.new ≡ slice_set self.old index item }
    {
        self.items[index] = item;
    }

    /// Takes the item at an index out of the list, and those behind it move up.
    pub fn remove(&mut self, index: usize) -> T
        requires { index < length self.old }
        ensures rest { self.new ≡ remove self.old index }
        ensures item { slice_get self.old index ≡ Some result }
    {
        self.items.remove(index)
    }

    /// Keeps the items for which the test holds, in order.
    pub fn retain<F: FnMut(&T) -> bool>(&mut self, test: F)
    where
        T: Drop,
        requires { F.IsAlwaysCallable test }
        ensures { IsFiltered (CalledAt F.FnMut) test self.old self.new }
    {
        self.items.retain(test);
    }
}

impl<T: PartialEq> PartialEq for Sequence<T> {
    ghost use Rattle.std.specs.Cmp.Lexicographic.{pointwise, lists_per};

    ghost eq = { λ x y. pointwise T.eq x y };

    ghost laws = { lists_per T.laws };

    /// Whether two lists have equal items in the same order.
    fn eq(&self, other: &Self) -> bool {
        self.items == other.items
    }
}

impl<T: Eq> Eq for Sequence<T> {
    ghost use Rattle.std.specs.Cmp.Lexicographic.{lists_equiv};

    ghost laws = { lists_equiv T.Eq.laws };
}

impl<T: Copy> Sequence<T> {
    /// A list of its own of the same items.
    pub fn copy(&self, alloc: Global) -> Result<Sequence<T>, AllocError>
        ensures { IfOk result (λ copy. copy ≡ self.now) }
    {
        Ok(Sequence {
            items: Vec::from_slice(alloc, self.items.as_slice())?,
        })
    }
}
