//! What a journal begins with.

ghost use Rattle.std.specs.Prelude.{◌≡◌, ◌++◌, ◌+◌, ◌≤◌, Ok, vec_capacity, vec_len};
ghost use Rattle.packed_journal.specs.Journals.{form_of_head};
ghost use Rattle.packed_journal.specs.Readings.{reads};
ghost use Rattle.packed_journal.specs.JournalReadings.{begins_with, rest_behind, behind_name, heads, of_version, read_head, read_told, rests};

use crate::numbers::put_number;
use crate::parts::put_bytes;
use crate::stepping::Headless;
use crate::unread::{Unread, read_digest, read_number, wrong};

/// What a journal begins with.
#[derive(Clone, Copy, Debug, PartialEq, Eq)]
pub struct Head {
    /// The digest of the text of the policy that the core was opened with.
    pub policy: [u8; 32],
    /// How many places the audit has.
    pub room: u64,
}

// Puts a head, for whose 59 bytes at most there is room.
pub(crate) fn put_head(out: &mut Vec<u8>, head: &Head)
    requires { vec_len out.old + 59 ≤ vec_capacity out.old }
    ensures items { out.new.items ≡ out.old.items ++ form_of_head head.now }
    ensures len { vec_len out.new ≤ vec_len out.old + 59 }
    ensures capacity { vec_capacity out.old ≤ vec_capacity out.new }
{
    put_bytes(out, b"journal");
    put_number(out, 2);
    put_bytes(out, &head.policy);
    put_number(out, head.room);
}

// The bytes behind those that must stand there.
pub(crate) fn rest_behind<'a>(wanted: &[u8], bytes: &'a [u8]) -> Result<&'a [u8], Unread>
    ensures { rests result ≡ rest_behind wanted.now bytes.now }
{
    match wanted.split_first() {
        None => Ok(bytes),
        Some((byte, more)) => match bytes.split_first() {
            None => Err(Unread::Ended),
            Some((other, rest)) => {
                if *byte == *other {
                    rest_behind(more, rest)
                } else {
                    Err(wrong(bytes))
                }
            }
        },
    }
}

// Whether bytes begin with this one.
pub(crate) fn begins_with(first: u8, bytes: &[u8]) -> bool
    ensures { result ≡ begins_with first bytes.now }
{
    match bytes.split_first() {
        None => false,
        Some((byte, _)) => *byte == first,
    }
}

// Reads the digest of a policy's text, and the audit's room.
fn read_told(bytes: &[u8]) -> Result<(Head, &[u8]), Unread>
    ensures { reads result ≡ read_told bytes.now }
{
    let (policy, rest) = read_digest(bytes)?;
    let (room, rest) = read_number(rest)?;
    Ok((Head { policy, room }, rest))
}

// Reads what a head of this version tells.
fn of_version(version: u64, bytes: &[u8]) -> Result<(Head, &[u8]), Headless>
    ensures { heads result ≡ of_version (Ok (version, bytes.now)) }
{
    if version != 2 {
        return Err(Headless::Version(version));
    }
    match read_told(bytes) {
        Ok(read) => Ok(read),
        Err(Unread::Ended) => Err(Headless::Cut),
        Err(Unread::Wrong(left)) => Err(Headless::Wrong(left)),
    }
}

// Reads a head behind its name.
fn behind_name(bytes: &[u8]) -> Result<(Head, &[u8]), Headless>
    ensures { heads result ≡ behind_name (Ok bytes.now) }
{
    if begins_with(32, bytes) {
        return Err(Headless::Text);
    }
    match read_number(bytes) {
        Ok((version, rest)) => of_version(version, rest),
        Err(Unread::Ended) => Err(Headless::Cut),
        Err(Unread::Wrong(left)) => Err(Headless::Wrong(left)),
    }
}

/// Reads the head of a journal at the front of some bytes.
pub fn read_head(bytes: &[u8]) -> Result<(Head, &[u8]), Headless>
    ensures { heads result ≡ read_head bytes.now }
{
    match rest_behind(b"journal", bytes) {
        Ok(rest) => behind_name(rest),
        Err(Unread::Ended) => Err(Headless::Cut),
        Err(Unread::Wrong(_)) => Err(Headless::NoJournal),
    }
}
