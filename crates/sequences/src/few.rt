//! A list of a few items, which lie in the value itself.

ghost use Rattle.std.specs.Prelude.{◌≡◌, ◌≤◌, length};

use arrayvec::ArrayVec;
use std::marker::Model;

/// A list of at most so many items, which lie in the value itself, so that it takes no memory. A contract sees the list of its
/// items.
#[derive(Drop, Debug)]
pub struct Few<T, const MOST: usize> {
    items: ArrayVec<T, MOST>,
}

impl<T, const MOST: usize> Model for Few<T, MOST> {
    ghost use Rattle.std.specs.Prelude.{List};

    ghost Value = { List T };

    ghost view = { λ f. f.items.items };
}

impl<T, const MOST: usize> Few<T, MOST> {
    /// The items, in order.
    pub fn as_slice(&self) -> &[T]
        ensures items { result.now ≡ self.now }
        ensures fits { length result.now ≤ MOST }
    {
        self.items.as_slice()
    }
}

impl<T: Copy + Default, const MOST: usize> Few<T, MOST> {
    /// A list of its own of these items.
    pub fn of(items: &[T]) -> Few<T, MOST>
        requires { length items.now ≤ MOST }
        ensures { result ≡ items.now }
    {
        let mut copies = ArrayVec::new();
        for item in items {
            copies.push(*item);
        }
        Few { items: copies }
    }
}

impl<T: PartialEq, const MOST: usize> PartialEq for Few<T, MOST> {
    ghost use Rattle.std.specs.Cmp.Lexicographic.{pointwise, lists_per};

    ghost eq = { λ x y. pointwise T.eq x y };

    ghost laws = { lists_per T.laws };

    /// Whether two lists have equal items in the same order.
    fn eq(&self, other: &Self) -> bool {
        self.items.as_slice() == other.items.as_slice()
    }
}

impl<T: Eq, const MOST: usize> Eq for Few<T, MOST> {
    ghost use Rattle.std.specs.Cmp.Lexicographic.{lists_equiv};

    ghost laws = { lists_equiv T.Eq.laws };
}
