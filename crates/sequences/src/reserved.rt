//! A list whose room is got before it is needed.

ghost use Rattle.std.specs.Prelude.{◌≡◌, ◌≤◌, ◌<◌, ◌+◌, ◌-◌, ◌++◌, ◌∷◌, [], OnOk, OnErr, IfOk, length, slice_get, vec_capacity};
ghost use Rattle.std.specs.Option.{option_copied};

use std::alloc::{AllocError, Global};
use std::marker::Model;

/// A list whose room is got before it is needed, so that an item can be added where nothing may
/// fail any more. A contract sees the items, and beside them the room: how many more items fit.
#[derive(Drop, Debug)]
pub struct Reserved<T> {
    items: Vec<T>,
}

impl<T> Model for Reserved<T> {
    ghost use Rattle.std.specs.Prelude.{◌-◌, vec_len, vec_capacity};
    ghost use Rattle.sequences.specs.Room.{Roomy};

    ghost Value = { Roomy T };

    ghost view = { λ r. record { items = r.items.items; room = vec_capacity r.items - vec_len r.items } };
}

impl<T> Reserved<T> {
    /// The empty list. It takes no memory.
    pub fn new(alloc: Global) -> Reserved<T>
        ensures items { result.items ≡ [] }
        ensures room { result.room ≡ 0 }
    {
        Reserved {
            items: Vec::new(alloc),
        }
    }

    /// The empty list, with room for this many items.
    pub fn with_room(alloc: Global, room: usize) -> Result<Reserved<T>, AllocError>
        ensures empty { IfOk result (λ list. list.items ≡ []) }
        ensures room { IfOk result (λ list. list.room ≡ room) }
    {
        Ok(Reserved {
            items: Vec::with_capacity(alloc, room)?,
        })
    }

    /// The empty list, in the memory of a vector, whose items are dropped.
    pub fn empty_in(items: Vec<T>) -> Reserved<T>
    where
        T: Drop,
        ensures items { result.items ≡ [] }
        ensures room { result.room ≡ vec_capacity items }
    {
        let mut items = items;
        items.clear();
        Reserved { items }
    }

    /// The items as a vector, in order, with the room behind them. It takes no memory.
    pub fn into_vec(self) -> Vec<T>
        ensures items { result.items ≡ self.items }
        ensures capacity { vec_capacity result ≡ length self.items + self.room }
    {
        let Reserved { items } = self;
        items
    }

    /// Gets room for this many further items. The items stay, and room is never lost. It is refused
    /// only where less room was left, and then nothing changes.
    pub fn reserve(&mut self, further: usize) -> Result<(), AllocError>
        ensures items { self.new.items ≡ self.old.items }
        ensures room { OnOk result (further ≤ self.new.room) }
        ensures kept { self.old.room ≤ self.new.room }
        ensures refused { OnErr result ((self.old.room < further) × (self.new ≡ self.old)) }
    {
        self.items.reserve(further)
    }

    /// Puts an item behind the others, into the room got before.
    pub fn push(&mut self, item: T)
        requires { 0 < self.old.room }
        ensures items { self.new.items ≡ self.old.items ++ item ∷ [] }
        ensures room { self.new.room + 1 ≡ self.old.room }
    {
        self.items.push_reserved(item);
    }

    /// How many items there are.
    pub fn len(&self) -> usize
        ensures { result ≡ length self.now.items }
    {
        self.items.len()
    }

    /// How many further items fit.
    pub fn room(&self) -> usize
        ensures { result ≡ self.now.room }
    {
        self.items.capacity() - self.items.len()
    }

    /// The items, in order.
    pub fn as_slice(&self) -> &[T]
        ensures { result.now ≡ self.now.items }
    {
        self.items.as_slice()
    }

    /// The item at an index from 0, if there is one.
    pub fn get(&self, index: usize) -> Option<&T>
        ensures { option_copied result ≡ slice_get self.now.items index }
    {
        self.items.get(index)
    }
}
