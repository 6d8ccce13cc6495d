//! The first and the last line of a journal.

ghost use Rattle.std.specs.Prelude.{◌≡◌, ◌++◌, ◌∷◌, [], IfOk, OnOk, option_map, string_bytes};
ghost use Rattle.journal.specs.Entries.{words_of_list};
ghost use Rattle.journal.specs.Words.{Bytes, behind_blanks, seen, words_behind, words_from};
ghost use Rattle.journal.specs.Lines.{line, text_of_head, behind_head, text_of_end, numbers_at, version_at, numbers_in, head_over, head_in, head_of_line, is_end};

use crate::chain::{Chain, Head, digest_of, line_text, write_line};
use crate::digits::number_at;
use crate::faults::HeadFault;
use crate::spelling::write_bytes;
use crate::splitting::{Rest, is_word, next_word, split_word};
use sequences::Sequence;
use std::alloc::{AllocError, Global};

// Writes the digests of policies, each behind a blank.
fn write_policies(out: &mut String, policies: &[[u8; 32]]) -> Result<(), AllocError>
    ensures { OnOk result (string_bytes out.new ≡ string_bytes out.old ++ behind_blanks (words_of_list (λ digest. Bytes digest ∷ []) policies.now)) }
{
    write!(out, " {}", policies.len())?;
    for policy in policies {
        out.push_str(" ")?;
        write_bytes(out, policy)?;
    }
    Ok(())
}

// The text of a head.
fn head_text(alloc: Global, head: &Head) -> Result<String, AllocError>
    ensures { IfOk result (λ text. string_bytes text ≡ text_of_head head.now) }
{
    let mut text = String::new(alloc);
    write!(text, "journal 1 {} {}", head.capacity, head.before)?;
    write_policies(&mut text, head.policies.as_slice())?;
    Ok(text)
}

/// Writes the first line of a journal without its line feed, and tells where the journal stands behind it.
pub fn write_head(out: &mut String, alloc: Global, head: &Head) -> Result<Chain, AllocError>
    ensures text { OnOk result (string_bytes out.new ≡ string_bytes out.old ++ line [] (text_of_head head.now)) }
    ensures chain { IfOk result (λ chain. chain ≡ behind_head head.now) }
{
    let text = head_text(alloc, head)?;
    let digest = write_line(out, &[], text.as_str())?;
    Ok(Chain {
        digest,
        number: head.before,
    })
}

/// Writes the last line of a journal without its line feed: the number of its last entry.
pub fn write_end(out: &mut String, alloc: Global, chain: &Chain) -> Result<(), AllocError>
    ensures { OnOk result (string_bytes out.new ≡ string_bytes out.old ++ line chain.now.digest (text_of_end chain.now)) }
{
    let text = format!(in alloc; "end {}", chain.number)?;
    write_line(out, &chain.digest, text.as_str())?;
    Ok(())
}

// The capacity, and how many entries came before.
fn numbers_at(rest: Rest) -> Option<((u64, u64), Rest)>
    ensures { seen result ≡ numbers_at (words_behind rest.entry) }
{
    let (capacity, rest) = number_at(rest)?;
    let (before, rest) = number_at(rest)?;
    Some(((capacity, before), rest))
}

// They stand behind the number of the version.
fn version_at(rest: Rest) -> Option<((u64, u64), Rest)>
    ensures { seen result ≡ version_at (words_behind rest.entry) }
{
    let (word, rest) = next_word(rest)?;
    if is_word(word, "1") {
        numbers_at(rest)
    } else {
        None
    }
}

// And that behind the name of the form.
fn numbers_in(text: &[u8]) -> Option<(u64, u64)>
    ensures { result ≡ numbers_in (words_from [] text.now) }
{
    let (word, rest) = split_word(text);
    if is_word(word, "journal") {
        let (numbers, _) = version_at(rest)?;
        Some(numbers)
    } else {
        None
    }
}

// The head of a text, if it is that of a journal over just these policies.
fn head_over(
    alloc: Global,
    policies: Sequence<[u8; 32]>,
    text: &[u8],
    numbers: (u64, u64),
) -> Result<Result<Head, HeadFault>, AllocError>
    ensures { IfOk result (λ read. read ≡ head_over policies text.now numbers) }
{
    let head = Head {
        capacity: numbers.0,
        before: numbers.1,
        policies,
    };
    let spelled = head_text(alloc, &head)?;
    if text == spelled.as_bytes() {
        Ok(Ok(head))
    } else {
        Ok(Err(HeadFault::OtherPolicies))
    }
}

// The head of a text.
fn head_in(
    alloc: Global,
    policies: Sequence<[u8; 32]>,
    text: &[u8],
) -> Result<Result<Head, HeadFault>, AllocError>
    ensures { IfOk result (λ read. read ≡ head_in policies text.now) }
{
    match numbers_in(text) {
        Some(numbers) => head_over(alloc, policies, text, numbers),
        None => Ok(Err(HeadFault::NoHead)),
    }
}

/// The head of a journal over these policies, read from its first line without the line feed; or why the line is no
/// such head. Refused for want of memory alone.
pub fn read_head(
    alloc: Global,
    policies: Sequence<[u8; 32]>,
    line: &[u8],
) -> Result<Result<Head, HeadFault>, AllocError>
    ensures { IfOk result (λ read. read ≡ head_of_line policies line.now) }
{
    match line_text(&[], line) {
        Some((text, _)) => head_in(alloc, policies, text),
        None => Ok(Err(HeadFault::OtherDigest)),
    }
}

/// Where a journal stands behind its head. Refused for want of memory alone.
pub fn chain_behind(alloc: Global, head: &Head) -> Result<Chain, AllocError>
    ensures { IfOk result (λ chain. chain ≡ behind_head head.now) }
{
    let text = head_text(alloc, head)?;
    Ok(Chain {
        digest: digest_of(&[], text.as_bytes()),
        number: head.before,
    })
}

/// Whether a line without its line feed is the last of a journal that stands so: it has the number of the last entry,
/// and its digest. Refused for want of memory alone.
pub fn is_end(alloc: Global, chain: &Chain, line: &[u8]) -> Result<bool, AllocError>
    ensures { IfOk result (λ is. is ≡ is_end chain.now line.now) }
{
    let mut end = String::new(alloc);
    write_end(&mut end, alloc, chain)?;
    Ok(line == end.as_bytes())
}
