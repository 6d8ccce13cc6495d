//! Memory for lists that are made later, where none may be wanted any more.

ghost use Rattle.std.specs.Prelude.{◌≡◌, ◌≤◌, ◌<◌, ◌+◌, IfOk, OnOk, length, vec_capacity};

use crate::sequence::Sequence;
use std::alloc::{AllocError, Global};
use std::marker::Model;

/// Memory for so many lists of so many items each. A contract sees for how many, and of how many.
#[derive(Drop)]
pub struct Pool<T> {
    lists: Vec<Vec<T>>,
    /// For how many items each has room.
    each: usize,
}

impl<T> Model for Pool<T> {
    ghost use Rattle.std.specs.Prelude.{length};
    ghost use Rattle.sequences.specs.Room.{HaveRoom, Pooled};

    ghost Value = { Pooled };

    ghost view = { λ p. record { lists = length p.lists.items; each = p.each } };

    ghost invariant = { λ p. HaveRoom p.each p.lists.items };
}

impl<T> Pool<T> {
    /// Memory for no list. It takes none.
    pub fn new(alloc: Global) -> Pool<T>
        ensures { (result.lists ≡ 0) × (result.each ≡ 0) }
    {
        Pool {
            lists: Vec::new(alloc),
            each: 0,
        }
    }

    /// Gets memory for so many lists of so many items each, where it isn't there. What is there stays, also where more isn't
    /// to be had.
    pub fn provide(&mut self, alloc: Global, lists: usize, each: usize) -> Result<(), AllocError>
    where
        T: Drop,
        ensures lists { OnOk result (lists ≤ self.new.lists) }
        ensures each { OnOk result (each ≤ self.new.each) }
        ensures kept { (self.old.lists ≤ self.new.lists) × (self.old.each ≤ self.new.each) }
    {
        if lists <= self.lists.len() && each <= self.each {
            return Ok(());
        }
        self.grow(alloc, lists, each)
    }

    // Gets more memory.
    #[inline(never)]
    fn grow(&mut self, alloc: Global, lists: usize, each: usize) -> Result<(), AllocError>
    where
        T: Drop,
        ensures lists { OnOk result (lists ≤ self.new.lists) }
        ensures each { OnOk result (each ≤ self.new.each) }
        ensures kept { (self.old.lists ≤ self.new.lists) × (self.old.each ≤ self.new.each) }
    {
        if self.each < each {
            *self = Pool::with_room(alloc, lists.max(self.lists.len()), each)?;
            return Ok(());
        }
        self.lengthen(alloc, lists)
    }

    // Gets memory for so many lists of as many items as the others, where it isn't there.
    fn lengthen(&mut self, alloc: Global, lists: usize) -> Result<(), AllocError>
    where
        T: Drop,
        ensures lists { OnOk result (lists ≤ self.new.lists) }
        ensures each { self.new.each ≡ self.old.each }
        ensures kept { self.old.lists ≤ self.new.lists }
    {
        for have in self.lists.len()..lists {
            self.lists.push(Vec::with_capacity(alloc, self.each)?)?;
        }
        Ok(())
    }

    // Memory for so many lists of so many items each.
    fn with_room(alloc: Global, lists: usize, each: usize) -> Result<Pool<T>, AllocError>
    where
        T: Drop,
        ensures lists { IfOk result (λ pool. lists ≤ pool.lists) }
        ensures each { IfOk result (λ pool. pool.each ≡ each) }
    {
        let mut pool = Pool {
            lists: Vec::new(alloc),
            each,
        };
        pool.lengthen(alloc, lists)?;
        Ok(pool)
    }

    /// Keeps the memory of a list for another, where it is large enough and there is a place for it. It takes none.
    pub fn keep(&mut self, list: Sequence<T>)
    where
        T: Drop,
        ensures lists { self.old.lists ≤ self.new.lists }
        ensures each { self.new.each ≡ self.old.each }
    {
        let mut list = list.into_vec();
        list.clear();
        if self.each <= list.capacity() && self.lists.len() < self.lists.capacity() {
            self.lists.push_reserved(list);
        }
    }
}

impl<T: Copy> Pool<T> {
    /// A list of its own of these items, in memory of here.
    pub fn copy(&mut self, items: &[T]) -> Sequence<T>
        requires there { 0 < self.old.lists }
        requires few { length items.now ≤ self.old.each }
        ensures copy { result ≡ items.now }
        ensures lists { self.new.lists + 1 ≡ self.old.lists }
        ensures each { self.new.each ≡ self.old.each }
    {
        let last = self.lists.len() - 1;
        let list = self.lists.remove(last);
        Sequence::from_vec(filled(list, items))
    }
}

// A vector with these items in place of its own, in its memory.
fn filled<T: Copy>(list: Vec<T>, items: &[T]) -> Vec<T>
    requires { length items.now ≤ vec_capacity list }
    ensures { result.items ≡ items.now }
{
    let mut list = list;
    list.clear();
    for item in items {
        list.push_reserved(*item);
    }
    list
}
