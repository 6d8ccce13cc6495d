//! A list whose memory was got for as many items as it will ever have.

ghost use Rattle.std.specs.Prelude.{◌≡◌, ◌≤◌, ◌<◌, ◌↔◌, ◌++◌, ◌∷◌, [], IfOk, IsSome, length, option_to_list, remove, slice_get, Some};

use std::alloc::{AllocError, Global};
use std::marker::Model;

/// A list of at most so many items, whose memory was got for as many, so that no item put into it wants memory. A contract
/// sees the list of its items.
#[derive(Drop, Debug)]
pub struct Ample<T, const MOST: usize> {
    items: Vec<T>,
}

impl<T, const MOST: usize> Model for Ample<T, MOST> {
    ghost use Rattle.std.specs.Prelude.{◌≤◌, List, length, vec_capacity};

    ghost Value = { List T };

    ghost view = { λ a. a.items.items };

    ghost invariant = { λ a. (length a.items.items ≤ MOST) × (MOST ≤ vec_capacity a.items) };
}

impl<T, const MOST: usize> Ample<T, MOST> {
    /// The empty list, with memory for all items.
    pub fn get(alloc: Global) -> Result<Ample<T, MOST>, AllocError>
        ensures { IfOk result (λ list. list ≡ []) }
    {
        Ok(Ample {
            items: Vec::with_capacity(alloc, MOST)?,
        })
    }

    /// How many items there are.
    pub fn len(&self) -> usize
        ensures { result ≡ length self.now }
    {
        self.items.len()
    }

    /// The items, in order.
    pub fn as_slice(&self) -> &[T]
        ensures items { result.now ≡ self.now }
        ensures fits { length result.now ≤ MOST }
    {
        self.items.as_slice()
    }

    /// Puts an item behind the others. It takes no memory.
    pub fn push(&mut self, item: T)
        requires { length self.old < MOST }
        ensures { self.new ≡ self.old ++ item ∷ [] }
    {
        self.items.push_reserved(item);
    }

    /// Takes the item at an index out of the list, and those behind it move up.
    pub fn remove(&mut self, index: usize) -> T
        requires { index < length self.old }
        ensures rest { self.new ≡ remove self.old index }
        ensures item { slice_get self.old index ≡ Some result }
    {
        self.items.remove(index)
    }

    /// Takes the last item out of the list, if there is one.
    pub fn pop(&mut self) -> Option<T>
        ensures items { self.old ≡ self.new ++ option_to_list result }
        ensures one { IsSome result ↔ (0 < length self.old) }
    {
        self.items.pop()
    }

    /// Drops all items.
    pub fn clear(&mut self)
    where
        T: Drop,
        ensures { self.new ≡ [] }
    {
        self.items.clear();
    }
}
