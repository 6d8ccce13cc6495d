//! A table of names: rows in order, each found by its name or by its number.

ghost use Rattle.std.specs.Prelude.{◌≡◌, ◌<◌, ◌≤◌, ◌++◌, [], ◌∷◌, length, position, option_map, string_bytes, sum_by, IfOk, IfSome, OnOk, OnErr};
ghost use Rattle.std.specs.Bool.{Decides};
ghost use Rattle.std.specs.Option.{option_copied};
ghost use Rattle.std.specs.Str.{bytes_eq};
ghost use Rattle.policy.specs.declared.limits.TheConstants.{MOST_SIGNALS};
ghost use Rattle.policy.specs.Names.{names, numbered, number_in, AreDistinct};
ghost use Rattle.policy.specs.Table.{named_row};

use indexmap::IndexMap;
use std::alloc::{AllocError, Global};
use std::marker::Model;

/// Rows in order, each with a name of its own. Numbers count from 1.
pub struct Table<V> {
    rows: IndexMap<String, V>,
}

// Written out, so that where a table ends stands one call, and not what ends each of its parts.
impl<V: Drop> Drop for Table<V> {
    fn drop(self) {
        let Table { rows: _ } = self;
    }
}

impl<V> Model for Table<V> {
    ghost use Rattle.std.specs.Prelude.{◌≤◌, ℕ, List, length};

    ghost Value = { List (List ℕ × V) };

    ghost use Rattle.policy.specs.declared.limits.TheConstants.{MOST_SIGNALS};
    ghost use Rattle.policy.specs.Table.{named_rows};

    ghost view = { λ table. named_rows table.rows.entries };

    ghost invariant = { λ table. length table.rows.entries ≤ MOST_SIGNALS };
}

impl<V> Table<V> {
    /// No rows. It takes no memory.
    pub fn new(alloc: Global) -> Table<V>
        ensures { result ≡ [] }
    {
        Table {
            rows: IndexMap::new(alloc),
        }
    }

    /// How many rows there are.
    pub fn len(&self) -> usize
        ensures count { result ≡ length self.now }
        ensures bound { length self.now ≤ MOST_SIGNALS }
    {
        self.rows.len()
    }

    /// The number of a name, from 1, and 0 for a name that isn't there.
    pub fn number(&self, name: &[u8]) -> u32
        ensures value { result ≡ number_in (names self.now) name.now }
        ensures back { 0 < result → numbered (names self.now) result ≡ Some name.now }
        ensures bound { result ≤ length self.now }
    {
        match self.index_of(name) {
            Some(index) => index as u32 + 1,
            None => 0,
        }
    }

    /// Puts a row behind the others, with a name that is new. Without memory for it the rows stay.
    pub fn insert(&mut self, name: String, row: V) -> Result<(), AllocError>
    where
        V: Drop,
        requires new_name { number_in (names self.old) (string_bytes name) ≡ 0 }
        requires room { length self.old < MOST_SIGNALS }
        ensures ok { OnOk result (self.new ≡ self.old ++ (string_bytes name, row) ∷ []) }
        ensures err { OnErr result (self.new ≡ self.old) }
    {
        self.rows.insert(name, row)?;
        Ok(())
    }

    /// No two rows have the same name.
    pub fn names_are_distinct(&self)
        ensures { AreDistinct (names self.now) }
    {
        // The call of `len` tells the proof that names are distinct.
        let _count = self.rows.len();
    }

    // The place of a name, from 0.
    fn index_of(&self, name: &[u8]) -> Option<usize>
        ensures place { result ≡ position (bytes_eq name.now) (names self.now) }
        ensures bound { length self.now ≤ MOST_SIGNALS }
    {
        match std::str::from_utf8(name) {
            Ok(text) => self.rows.get_index_of(text),
            Err(_) => {
                let _rows = &self.rows;
                None
            }
        }
    }

    // The row with a number: its name, and what it holds.
    fn row(&self, number: u64) -> Option<(&String, &V)>
        ensures row { option_map named_row result ≡ numbered self.now number }
    {
        let index = number.checked_sub(1)?;
        self.rows.get_index(index as usize)
    }

    /// The name with a number, if there is one.
    pub fn name(&self, number: u64) -> Option<&str>
        ensures value { option_copied result ≡ numbered (names self.now) number }
        ensures back { IfSome result (λ name. number_in (names self.now) name.now ≡ number) }
    {
        // The call of `len` tells the proof that names are distinct.
        let _count = self.rows.len();
        match self.row(number) {
            Some((name, _)) => Some(name.as_str()),
            None => None,
        }
    }

    /// What the row with a number holds, if there is one.
    pub fn get(&self, number: u64) -> Option<&V>
        ensures { option_copied result ≡ option_map (λ row. row.1) (numbered self.now number) }
    {
        match self.row(number) {
            Some((_, row)) => Some(row),
            None => None,
        }
    }
}

impl<V: Clone + Drop> Table<V> {
    /// The same rows in memory of their own, where a clone of what a row holds is the same.
    pub fn copy(&self) -> Result<Table<V>, AllocError>
        ensures { ((held copy : V) → V.is_clone held copy → copy ≡ held) → IfOk result (λ copy. copy ≡ self.now) }
    {
        Ok(Table {
            rows: self.rows.clone()?,
        })
    }
}

impl<V: PartialEq> Table<V> {
    /// Whether another table has the same rows in the same order, where `==` tells whether what two rows hold is
    /// the same.
    pub fn is_same(&self, other: &Table<V>) -> bool
        ensures { ((held other : V) → Decides (V.eq held other) (held ≡ other)) → Decides result (self.now ≡ other.now) }
    {
        self.rows.as_slice() == other.rows.as_slice()
    }
}

impl Table<u32> {
    /// The sum of what the rows hold.
    pub fn total(&self) -> u64
        ensures { result ≡ sum_by (λ row. row.1) self.now }
    {
        self.rows.values().map(|length| *length as u64).sum()
    }
}
