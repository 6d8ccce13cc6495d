//! Lists of rights of packets that left flight, kept for the memory behind them.

ghost use Rattle.std.specs.Prelude.{◌≡◌, ◌≤◌, [], OnErr, OnOk, max};

use policy::{Object, Rights};
use sequences::Sequence;
use std::alloc::{AllocError, Global};
use std::marker::Model;

/// Lists of rights of packets that left flight, kept for the memory behind them: packets that are launched later list their
/// rights there. A contract sees how many can be kept.
#[derive(Drop)]
pub struct SpareLists {
    lists: Vec<Sequence<(Object, Rights)>>,
}

impl Model for SpareLists {
    ghost use Rattle.std.specs.Prelude.{ℕ, vec_capacity};

    ghost Value = { ℕ };

    ghost view = { λ s. vec_capacity s.lists };
}

impl SpareLists {
    /// No list is kept.
    pub fn new(alloc: Global) -> SpareLists {
        SpareLists {
            lists: Vec::new(alloc),
        }
    }

    /// Gets places for so many lists in all, unless there are as many.
    pub fn get_places(&mut self, places: usize) -> Result<(), AllocError>
        ensures exact { OnOk result (self.new ≡ max self.old places) }
        ensures err { OnErr result (self.new ≡ self.old) }
    {
        self.lists
            .reserve_exact(places.saturating_sub(self.lists.len()))
    }

    /// An empty list: with the memory of one that is kept, if there is any.
    pub fn empty_list(&mut self, alloc: Global) -> Sequence<(Object, Rights)>
        ensures empty { result ≡ [] }
        ensures same { self.new ≡ self.old }
    {
        match self.lists.pop() {
            Some(list) => emptied(list),
            None => Sequence::new(alloc),
        }
    }

    /// Keeps the memory of a list, where there is a place for it. It takes none.
    pub fn keep(&mut self, list: Sequence<(Object, Rights)>)
        ensures { self.new ≡ self.old }
    {
        if self.lists.len() < self.lists.capacity() {
            self.lists.push_reserved(list);
        }
    }
}

// A list without its items, in the same memory.
fn emptied(list: Sequence<(Object, Rights)>) -> Sequence<(Object, Rights)>
    ensures { result ≡ [] }
{
    let mut items = list.into_vec();
    items.clear();
    Sequence::from_vec(items)
}
