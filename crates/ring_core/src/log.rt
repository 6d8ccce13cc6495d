//! What was, as contracts see it: a list that nothing keeps when it runs.

ghost use Rattle.std.specs.Prelude.{◌≡◌, ◌++◌, ◌∷◌, []};

use crate::past::Past;
use std::fmt;
use std::fmt::{Debug, Formatter};
use std::marker::Model;

/// What was, in order. A contract sees the list. It takes no memory: when it runs, none of it is kept.
#[derive(Drop)]
pub struct Log<T> {
    past: Past<T>,
}

impl<T> Model for Log<T> {
    ghost use Rattle.std.specs.Prelude.{List};

    ghost Value = { List T };

    ghost view = { λ l. l.past.items };
}

impl<T: Drop> Log<T> {
    /// Nothing was yet.
    pub fn new() -> Log<T>
        ensures { result ≡ [] }
    {
        Log { past: Past::new() }
    }

    /// One thing more was.
    pub fn push(&mut self, item: &T)
        ensures { self.new ≡ self.old ++ item.now ∷ [] }
    {
        self.past = self.past.with(item);
    }

    /// Several things more were, in this order.
    pub(crate) fn push_all(&mut self, items: &[T])
        ensures { self.new ≡ self.old ++ items.now }
    {
        for item in items {
            self.push(item);
        }
    }
}

impl<T> Debug for Log<T> {
    fn fmt<W: fmt::Write>(&self, f: &mut Formatter<W>) -> fmt::Result {
        f.write_str("Log")
    }
}
