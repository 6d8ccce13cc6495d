//! Where a journal stands in a block, with the digest so far.

ghost use Rattle.std.specs.Prelude.{◌≡◌, ◌++◌, ◌+◌, ◌≤◌, ◌<◌, ◌^◌, [], IfOk, length, vec_capacity, vec_len};
ghost use Rattle.sha2.specs.Hashers.{Holds512};
ghost use Rattle.packed_journal.specs.Words.{packed_number};
ghost use Rattle.packed_journal.specs.Journals.{Place, begins, digest_of, end_of, turn_of, with_form};
ghost use Rattle.packed_journal.specs.Standing.{Stands};

use crate::numbers::put_number;
use crate::parts::put_bytes;
use sha2::{Digest, Sha512};
use std::alloc::AllocError;

/// Where a journal stands in a block.
#[derive(Drop)]
pub struct Chain {
    // What the block's digest is over so far.
    pub(crate) hasher: Sha512,
    // How many bytes the block's entries have.
    pub(crate) filled: u64,
    // The number of the last entry.
    pub(crate) number: u64,
}

// The same again.
pub(crate) fn copied(chain: &Chain) -> Result<Chain, AllocError>
    ensures { IfOk result (λ made. made ≡ chain.now) }
{
    Ok(Chain {
        hasher: chain.hasher.clone()?,
        filled: chain.filled,
        number: chain.number,
    })
}

// Adds the form of one entry more.
pub(crate) fn add(chain: &mut Chain, form: &[u8])
    requires few { chain.old.filled < 65536 }
    requires number { chain.old.number + 1 < 2 ^ 64 }
    ensures stands { (place : Place) → Stands chain.old place → Stands chain.new (with_form place form.now) }
    ensures filled { chain.new.filled ≡ chain.old.filled + length form.now }
    ensures number { chain.new.number ≡ chain.old.number + 1 }
{
    chain.hasher.update(form);
    chain.filled = chain.filled + form.len() as u64;
    chain.number = chain.number + 1;
}

// Puts the end of a block, for whose 75 bytes at most there is room, and tells its digest. The hasher is empty then.
pub(crate) fn put_end(out: &mut Vec<u8>, chain: &mut Chain) -> [u8; 64]
    requires { vec_len out.old + 75 ≤ vec_capacity out.old }
    ensures items { (place : Place) → Stands chain.old place → out.new.items ≡ out.old.items ++ end_of place }
    ensures digest { (place : Place) → Stands chain.old place → result ≡ digest_of place }
    ensures len { vec_len out.new ≤ vec_len out.old + 75 }
    ensures capacity { vec_capacity out.old ≤ vec_capacity out.new }
    ensures empty { Holds512 chain.new.hasher [] }
    ensures number { chain.new.number ≡ chain.old.number }
{
    let before = out.len();
    out.push_reserved(0);
    put_number(out, chain.filled);
    chain.hasher.update(&out[before..]);
    let digest = chain.hasher.finalize_reset();
    put_bytes(out, &digest);
    digest
}

// Begins a block behind one with this digest: puts the number of its first entry, for whose ten bytes at most there is room.
pub(crate) fn put_beginning(out: &mut Vec<u8>, chain: &mut Chain, digest: &[u8])
    requires room { vec_len out.old + 10 ≤ vec_capacity out.old }
    requires empty { Holds512 chain.old.hasher [] }
    requires number { chain.old.number + 1 < 2 ^ 64 }
    ensures items { out.new.items ≡ out.old.items ++ packed_number (chain.old.number + 1) }
    ensures stands { Stands chain.new (begins digest.now chain.old.number) }
    ensures few { chain.new.filled ≡ 0 }
    ensures number { chain.new.number ≡ chain.old.number }
{
    let before = out.len();
    put_number(out, chain.number + 1);
    chain.hasher.update(digest);
    chain.hasher.update(&out[before..]);
    chain.filled = 0;
}

// Puts the end of a full block and the beginning of the next, for whose 85 bytes at most there is room.
pub(crate) fn put_between(out: &mut Vec<u8>, chain: &mut Chain)
    requires room { vec_len out.old + 85 ≤ vec_capacity out.old }
    requires number { chain.old.number + 1 < 2 ^ 64 }
    ensures items { (place : Place) → Stands chain.old place → out.new.items ≡ out.old.items ++ turn_of place }
    ensures stands { (place : Place) → Stands chain.old place → Stands chain.new (begins (digest_of place) place.number) }
    ensures few { chain.new.filled ≡ 0 }
    ensures number { chain.new.number ≡ chain.old.number }
{
    let digest = put_end(out, chain);
    put_beginning(out, chain, &digest);
}

// Begins the first block, behind a head with this digest: puts the number of its first entry, for whose ten bytes at most there
// is room.
pub(crate) fn put_first(out: &mut Vec<u8>, digest: &[u8]) -> Chain
    requires { vec_len out.old + 10 ≤ vec_capacity out.old }
    ensures items { out.new.items ≡ out.old.items ++ packed_number 1 }
    ensures stands { Stands result (begins digest.now 0) }
    ensures few { result.filled ≡ 0 }
    ensures number { result.number ≡ 0 }
{
    let mut chain = Chain {
        hasher: Sha512::new(),
        filled: 0,
        number: 0,
    };
    put_beginning(out, &mut chain, digest);
    chain
}
