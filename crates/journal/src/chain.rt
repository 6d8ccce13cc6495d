//! The lines of a journal, each with the digest of the line before and of its own text.

ghost use Rattle.std.specs.Prelude.{◌≡◌, ◌++◌, ◌∷◌, ◌+◌, ◌<◌, ◌^◌, [], IfOk, IfSome, OnOk, Some, bytes_eq, is_some, option_map, string_bytes};
ghost use Rattle.journal.specs.Words.{text_of_bytes, words_behind, words_from};
ghost use Rattle.journal.specs.Readings.{done, entry_at};
ghost use Rattle.journal.specs.Lines.{digest_of, line, numbered, after, entry_line, line_text, entry_behind_number, entry_of_text, entry_of_line, fault_behind, fault_of_line};

use crate::faults::{LineCause, LineFault};
use crate::fitting::line_is_read_back;
use crate::outcomes::{entry_at, whole};
use crate::spelling::{are_spelled, write_bytes};
use crate::splitting::{Rest, split_word};
use crate::writing::write_entry;
use core_model::Entry;
use sequences::Sequence;
use sha2::{Digest, Sha256};
use std::alloc::{AllocError, Global};

/// Where a journal stands: behind a line with this digest, which has the entry of this number.
#[derive(Clone, Copy, Debug, PartialEq, Eq)]
pub struct Chain {
    /// The digest of the last line.
    pub digest: [u8; 32],
    /// The number of the last entry: how many entries came before the next.
    pub number: u64,
}

/// What a journal begins with.
#[derive(Debug, Drop)]
pub struct Head {
    /// How many places the audit has.
    pub capacity: u64,
    /// How many entries came before.
    pub before: u64,
    /// The digests of the policies: of the one that the core was opened with, and of those that may be put in force
    /// later.
    pub policies: Sequence<[u8; 32]>,
}

// The digest of a line (FIPS 180-4, SHA-256).
#[tactic(auto, unfolding(crate::specs::Lines::digest_of))]
pub(crate) fn digest_of(last: &[u8], text: &[u8]) -> [u8; 32]
    ensures { result ≡ digest_of last.now text.now }
{
    let mut hasher = Sha256::new();
    hasher.update(last);
    hasher.update(text);
    hasher.finalize()
}

// Writes a line of a text without its line feed, and tells its digest.
pub(crate) fn write_line(out: &mut String, last: &[u8], text: &str) -> Result<[u8; 32], AllocError>
    ensures text { OnOk result (string_bytes out.new ≡ string_bytes out.old ++ line last.now text.now) }
    ensures digest { IfOk result (λ digest. digest ≡ digest_of last.now text.now) }
{
    let digest = digest_of(last, text.as_bytes());
    out.push_str(text)?;
    out.push_str(" ")?;
    write_bytes(out, &digest)?;
    Ok(digest)
}

// The text of an entry's line: its number, and its words.
fn numbered(alloc: Global, number: u64, entry: &Entry) -> Result<String, AllocError>
    ensures { IfOk result (λ text. string_bytes text ≡ numbered number entry.now) }
{
    let mut text = String::new(alloc);
    write!(text, "{number}")?;
    write_entry(&mut text, entry)?;
    Ok(text)
}

/// Writes the line of the next entry without its line feed, and tells where the journal stands behind it: the line is read
/// as that entry, whatever entry it is.
pub fn write_entry_line(
    out: &mut String,
    alloc: Global,
    chain: &Chain,
    entry: &Entry,
) -> Result<Chain, AllocError>
    requires { chain.now.number + 1 < 2 ^ 64 }
    ensures text { OnOk result (string_bytes out.new ≡ string_bytes out.old ++ entry_line chain.now entry.now) }
    ensures chain { IfOk result (λ next. next ≡ after chain.now entry.now) }
    ensures read { entry_of_line chain.now (entry_line chain.now entry.now) ≡ Some (entry.now, after chain.now entry.now) }
{
    line_is_read_back(chain, entry);
    let number = chain.number + 1;
    let text = numbered(alloc, number, entry)?;
    let digest = write_line(out, &chain.digest, text.as_str())?;
    Ok(Chain { digest, number })
}

// Whether the end of a line tells a digest: a blank, and its digits.
fn tells_digest(told: &[u8], digest: &[u8]) -> bool
    ensures { result ≡ bytes_eq told.now (32 ∷ text_of_bytes digest.now) }
{
    match told.split_first() {
        Some((first, digits)) => *first == b' ' && are_spelled(digits, digest),
        None => false,
    }
}

// The text of a line and its digest, if that is the digest of the line before and of this text.
pub(crate) fn line_text<'a>(last: &[u8], line: &'a [u8]) -> Option<(&'a [u8], [u8; 32])>
    ensures text { option_map (λ found. found.0.now) result ≡ line_text last.now line.now }
    ensures digest { IfSome result (λ found. found.1 ≡ digest_of last.now found.0.now) }
{
    if line.len() < 65 {
        return None;
    }
    let (text, told) = line.split_at(line.len() - 65);
    let digest = digest_of(last, text);
    if tells_digest(told, &digest) {
        Some((text, digest))
    } else {
        None
    }
}

// The entry of a line's words, if they begin with its number.
fn entry_behind_number(alloc: Global, number: u64, text: &[u8]) -> Result<Option<Entry>, AllocError>
    ensures { IfOk result (λ read. read ≡ entry_behind_number number (words_from [] text.now)) }
{
    let (word, rest) = split_word(text);
    let spelled = format!(in alloc; "{number}")?;
    if word != spelled.as_bytes() {
        return Ok(None);
    }
    Ok(whole(entry_at(alloc, rest)?))
}

// The next entry of a text with this digest, and where the journal stands behind it.
fn entry_of_text(
    alloc: Global,
    chain: &Chain,
    text: &[u8],
    digest: [u8; 32],
) -> Result<Option<(Entry, Chain)>, AllocError>
    requires small { chain.now.number + 1 < 2 ^ 64 }
    requires digest { digest ≡ digest_of chain.now.digest text.now }
    ensures { IfOk result (λ read. read ≡ entry_of_text chain.now text.now) }
{
    let number = chain.number + 1;
    match entry_behind_number(alloc, number, text)? {
        Some(entry) => Ok(Some((entry, Chain { digest, number }))),
        None => Ok(None),
    }
}

/// The next entry of a journal that stands so, read from its line without the line feed, and where the journal stands
/// behind it. None, where the line has another digest than that of the line before and of its own text, another number,
/// or is the line of no entry.
pub fn read_entry_line(
    alloc: Global,
    chain: &Chain,
    line: &[u8],
) -> Result<Option<(Entry, Chain)>, AllocError>
    requires { chain.now.number + 1 < 2 ^ 64 }
    ensures { IfOk result (λ read. read ≡ entry_of_line chain.now line.now) }
{
    match line_text(&chain.digest, line) {
        Some(found) => {
            let text = found.0;
            let digest = found.1;
            entry_of_text(alloc, chain, text, digest)
        }
        None => Ok(None),
    }
}

// Whether words are those of an entry, and no others are left.
fn is_entry(alloc: Global, rest: Rest) -> Result<bool, AllocError>
    ensures { IfOk result (λ is. is ≡ is_some (done (entry_at (words_behind rest.entry)))) }
{
    let read = whole(entry_at(alloc, rest)?);
    Ok(read.is_some())
}

// Whether a text with a good digest is no entry of this number, and why.
fn fault_behind(alloc: Global, number: u64, text: &[u8]) -> Result<Option<LineFault>, AllocError>
    ensures { IfOk result (λ fault. fault ≡ fault_behind number text.now (words_from [] text.now)) }
{
    let (word, rest) = split_word(text);
    let spelled = format!(in alloc; "{number}")?;
    if word != spelled.as_bytes() {
        return Ok(Some(LineFault {
            cause: LineCause::OtherNumber,
            column: 1,
        }));
    }
    if is_entry(alloc, rest)? {
        return Ok(None);
    }
    Ok(Some(LineFault {
        cause: LineCause::NoEntry,
        column: word.len() + 2,
    }))
}

/// Why a line isn't that of the next entry of a journal that stands so; None, where it is. Refused for want of memory
/// alone.
pub fn entry_line_fault(
    alloc: Global,
    chain: &Chain,
    line: &[u8],
) -> Result<Option<LineFault>, AllocError>
    requires { chain.now.number + 1 < 2 ^ 64 }
    ensures { IfOk result (λ fault. fault ≡ fault_of_line chain.now line.now) }
{
    if line.len() < 65 {
        return Ok(Some(LineFault {
            cause: LineCause::NoDigest,
            column: line.len() + 1,
        }));
    }
    match line_text(&chain.digest, line) {
        Some((text, _)) => fault_behind(alloc, chain.number + 1, text),
        None => Ok(Some(LineFault {
            cause: LineCause::OtherDigest,
            column: line.len() - 63,
        })),
    }
}
