//! Bytes that were written, kept in place where they are few.

ghost use Rattle.std.specs.Prelude.{◌≡◌, ◌==◌, ◌<◌, ◌≤◌, [], IfOk, OnErr, length, replicate};
ghost use Rattle.std.specs.Str.{bytes_eq};

use sequences::Sequence;
use std::alloc::{AllocError, Global};
use std::marker::Model;

/// How many bytes are kept in place.
const MOST_IN_PLACE: usize = 16;

/// Bytes that were written. Up to 16 take no memory, so that most writes of an agent or a client are told without it.
/// A contract sees the list.
#[derive(Drop, Debug)]
pub struct Bytes {
    kept: KeptBytes,
}

/// Where the bytes are kept.
#[derive(Drop, Debug)]
enum KeptBytes {
    /// So many of the first of these.
    Few(usize, [u8; 16]),
    Many(Sequence<u8>),
}

impl Model for Bytes {
    ghost use Rattle.std.specs.Prelude.{List, ℕ};

    ghost Value = { List ℕ };

    ghost use Rattle.core_model.specs.inner.Bytes.{bytes_in_order, IsBytes};

    ghost view = { bytes_in_order };

    ghost invariant = { IsBytes };
}

impl Bytes {
    /// No bytes.
    pub fn none() -> Bytes
        ensures { result ≡ [] }
    {
        Bytes {
            kept: KeptBytes::Few(0, [0; 16]),
        }
    }

    /// The bytes of a list. It takes no memory.
    pub fn of(bytes: Sequence<u8>) -> Bytes
        ensures { result ≡ bytes }
    {
        Bytes {
            kept: KeptBytes::Many(bytes),
        }
    }

    /// The same bytes once more. Up to 16 take no memory.
    pub fn copied(alloc: Global, bytes: &[u8]) -> Result<Bytes, AllocError>
        ensures copy { IfOk result (λ copy. copy ≡ bytes.now) }
        ensures lacks { OnErr result (16 < length bytes.now) }
    {
        let count = bytes.len();
        if count > MOST_IN_PLACE {
            return Ok(Bytes::of(Sequence::from_vec(Vec::from_slice(alloc, bytes)?)));
        }
        let mut few = [0; 16];
        few[..count].copy_from_slice(bytes);
        Ok(Bytes {
            kept: KeptBytes::Few(count, few),
        })
    }

    /// The same byte so many times. Up to 16 take no memory.
    pub fn repeated(alloc: Global, byte: u8, count: usize) -> Result<Bytes, AllocError>
        ensures bytes { IfOk result (λ bytes. bytes ≡ replicate count byte) }
        ensures lacks { OnErr result (16 < count) }
    {
        if count > MOST_IN_PLACE {
            return Ok(Bytes::of(Sequence::from_vec(vec![in alloc; byte; count]?)));
        }
        Ok(Bytes {
            kept: KeptBytes::Few(count, [byte; 16]),
        })
    }

    /// The bytes, in order.
    pub fn as_slice(&self) -> &[u8]
        ensures { result.now ≡ self.now }
    {
        match &self.kept {
            KeptBytes::Few(count, few) => &few[..*count],
            KeptBytes::Many(many) => many.as_slice(),
        }
    }

    /// How many there are.
    pub fn len(&self) -> usize
        ensures { result ≡ length self.now }
    {
        self.as_slice().len()
    }

    /// Whether there is none.
    pub fn is_empty(&self) -> bool
        ensures { result ≡ (length self.now == 0) }
    {
        self.as_slice().is_empty()
    }

    /// The same bytes once more.
    pub fn copy(&self, alloc: Global) -> Result<Bytes, AllocError>
        ensures { IfOk result (λ copy. copy ≡ self.now) }
    {
        Bytes::copied(alloc, self.as_slice())
    }
}

impl PartialEq for Bytes {
    ghost use Rattle.std.specs.Str.{bytes_eq};
    ghost use Rattle.std.specs.Cmp.{partial_equiv_from_equiv};
    ghost use Rattle.std.specs.Cmp.Lexicographic.{nat_list_eq_equiv};

    ghost eq = { bytes_eq };

    ghost laws = { partial_equiv_from_equiv nat_list_eq_equiv };

    fn eq(&self, other: &Bytes) -> bool {
        self.as_slice() == other.as_slice()
    }
}

impl Eq for Bytes {
    ghost use Rattle.std.specs.Cmp.Lexicographic.{nat_list_eq_equiv};

    ghost laws = { nat_list_eq_equiv };
}
