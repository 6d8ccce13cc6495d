//! The journal of a broker: its head, the line of each entry, and its end.

ghost use Rattle.std.specs.Prelude.{◌≡◌, ◌+◌, ◌<◌, ◌^◌, ◌++◌, ◌∷◌, [], IfOk, IfSome, false, map, string_bytes, true};
ghost use Rattle.std.specs.Option.{option_copied};
ghost use Rattle.journal.specs.Lines.{after, behind_head, entry_line, line, text_of_end, text_of_head};
ghost use Rattle.hobbydresser_c.specs.Audits.{entry_numbered};
ghost use Rattle.hobbydresser_c.specs.Buffers.{FillsOrLacks};
ghost use Rattle.hobbydresser_c.specs.Calls.{IsNoted, WhereKnown, history_of, is_open, session_of};
ghost use Rattle.hobbydresser_c.specs.Journals.{TellsLine, TellsLineOrLacks, chain_of, chain_told, head_of};
ghost use Rattle.hobbydresser_c.specs.Statuses.{closed, no_such};

use crate::auditing::entry_numbered;
use crate::broker::Broker;
use crate::buffers::fill;
use crate::digests::DigestRecord;
use crate::session::Session;
use crate::status;
use access_core::AccessCore;
use core_model::Entry;
use journal::{Chain, Head, chain_behind, write_end, write_entry_line, write_head};
use sequences::Sequence;
use std::alloc::{AllocError, Global};

/// Where a journal stands, `hd_chain` in C: the digest of its last line, and the number of the last entry.
#[repr(C)]
#[derive(Clone, Copy)]
pub struct ChainRecord {
    pub digest: [u8; 32],
    pub number: u64,
}

// Where a journal stands, as C sees it.
fn chain_told(chain: Chain) -> ChainRecord
    ensures { result ≡ chain_told chain }
{
    let digest = chain.digest;
    ChainRecord {
        digest,
        number: chain.number,
    }
}

// Where a journal stands, as C says.
fn chain_of(told: &ChainRecord) -> Chain
    ensures { result ≡ chain_of told.now }
{
    let digest = told.digest;
    Chain {
        digest,
        number: told.number,
    }
}

// A line with its line feed goes into a buffer, and the journal stands after it, where the buffer had room.
fn tell_line(
    line: &str,
    next: Chain,
    out: &mut [u8],
    needed: &mut u64,
    chain: &mut ChainRecord,
) -> u32
    ensures { TellsLine line.now next result out.old out.new needed.new chain.old chain.new }
{
    if line.len() <= out.len() {
        *chain = chain_told(next);
    }
    fill(line.as_bytes(), out, needed)
}

// The digests of the policies of a journal: of the one that a broker was opened with, and of further ones.
fn policies_of(
    alloc: Global,
    first: [u8; 32],
    further: &[DigestRecord],
) -> Result<Sequence<[u8; 32]>, AllocError>
    ensures { IfOk result (λ policies. policies ≡ first ∷ map (λ digest. digest.bytes) further.now) }
{
    let mut policies = Sequence::new(alloc);
    policies.push(first)?;
    for digest in further {
        let bytes = digest.bytes;
        policies.push(bytes)?;
    }
    Ok(policies)
}

// The head of a session's journal.
fn head_of(alloc: Global, session: &Session, further: &[DigestRecord]) -> Result<Head, AllocError>
    ensures { IfOk result (λ head. head ≡ head_of session.now further.now) }
{
    let first = session.digest;
    let policies = policies_of(alloc, first, further)?;
    Ok(Head {
        capacity: session.core.table_sizes().audit_places as u64,
        before: session.core.entries_before(),
        policies,
    })
}

// A head's line with its line feed, and where the journal stands after it.
fn head_line(alloc: Global, head: &Head) -> Result<(String, Chain), AllocError>
    ensures { IfOk result (λ made. (string_bytes made.0 ≡ line [] (text_of_head head.now) ++ 10 ∷ []) × (made.1 ≡ behind_head head.now)) }
{
    let mut text = String::new(alloc);
    let chain = write_head(&mut text, alloc, head)?;
    text.push_str("\n")?;
    Ok((text, chain))
}

// The entry after that of a number, if the audit has it.
fn entry_after(core: &AccessCore, number: u64) -> Option<&Entry>
    ensures entry { option_copied result ≡ entry_numbered core.now.history (number + 1) }
    ensures small { IfSome result (λ _. number + 1 < 2 ^ 64) }
{
    // (how many entries there may be is known by these two)
    let _ = core.entries_before();
    let _ = core.audit();
    if number == u64::MAX {
        return None;
    }
    entry_numbered(core, number + 1)
}

// The line of the next entry with its line feed, and where the journal stands after it.
fn next_line(alloc: Global, chain: &Chain, entry: &Entry) -> Result<(String, Chain), AllocError>
    requires { chain.now.number + 1 < 2 ^ 64 }
    ensures { IfOk result (λ made. (string_bytes made.0 ≡ entry_line chain.now entry.now ++ 10 ∷ []) × (made.1 ≡ after chain.now entry.now)) }
{
    let mut text = String::new(alloc);
    let next = write_entry_line(&mut text, alloc, chain, entry)?;
    text.push_str("\n")?;
    Ok((text, next))
}

// The last line with its line feed.
fn end_line(alloc: Global, chain: &Chain) -> Result<String, AllocError>
    ensures { IfOk result (λ text. string_bytes text ≡ line chain.now.digest (text_of_end chain.now) ++ 10 ∷ []) }
{
    let mut text = String::new(alloc);
    write_end(&mut text, alloc, chain)?;
    text.push_str("\n")?;
    Ok(text)
}

/// The first line of the broker's journal, over the policy that it was opened with and further ones, by their digests.
#[unsafe(no_mangle)]
pub extern "C" fn hd_journal_head(
    alloc: Global,
    broker: &mut Broker,
    further: &[DigestRecord],
    out: &mut [u8],
    needed: &mut u64,
    chain: &mut ChainRecord,
) -> u32
    ensures closed { is_open broker.old ≡ false → (result ≡ closed) × (out.new ≡ out.old) × (needed.new ≡ needed.old) × (chain.new ≡ chain.old) }
    ensures same { IsNoted broker.old broker.new }
    ensures met { is_open broker.old ≡ true → TellsLineOrLacks (line [] (text_of_head (head_of (session_of broker.old) further.now)) ++ 10 ∷ [])
        (behind_head (head_of (session_of broker.old) further.now)) result out.old out.new needed.old needed.new chain.old chain.new }
{
    if !broker.called() {
        return status::CLOSED;
    }
    let session = broker.pointer.session_mut();
    let Ok(head) = head_of(alloc, session, further) else {
        return status::OUT_OF_MEMORY;
    };
    match head_line(alloc, &head) {
        Ok((text, next)) => tell_line(text.as_str(), next, out, needed, chain),
        Err(_) => status::OUT_OF_MEMORY,
    }
}

/// The journal's line of the entry after the one that the journal stands at.
#[unsafe(no_mangle)]
pub extern "C" fn hd_journal_line(
    alloc: Global,
    broker: &mut Broker,
    out: &mut [u8],
    needed: &mut u64,
    chain: &mut ChainRecord,
) -> u32
    ensures closed { is_open broker.old ≡ false → (result ≡ closed) × (out.new ≡ out.old) × (needed.new ≡ needed.old) × (chain.new ≡ chain.old) }
    ensures same { IsNoted broker.old broker.new }
    ensures met { is_open broker.old ≡ true → WhereKnown (entry_numbered (history_of broker.old) (chain.old.number + 1))
        ((result ≡ no_such) × (out.new ≡ out.old) × (needed.new ≡ needed.old) × (chain.new ≡ chain.old))
        (λ entry. TellsLineOrLacks (entry_line (chain_of chain.old) entry ++ 10 ∷ []) (after (chain_of chain.old) entry)
        result out.old out.new needed.old needed.new chain.old chain.new) }
{
    if !broker.called() {
        return status::CLOSED;
    }
    let core = &mut broker.pointer.session_mut().core;
    let Some(entry) = entry_after(core, chain.number) else {
        return status::NO_SUCH;
    };
    match next_line(alloc, &chain_of(chain), entry) {
        Ok((text, next)) => tell_line(text.as_str(), next, out, needed, chain),
        Err(_) => status::OUT_OF_MEMORY,
    }
}

/// The last line of a journal that stands so.
#[unsafe(no_mangle)]
pub extern "C" fn hd_journal_end(
    alloc: Global,
    chain: &ChainRecord,
    out: &mut [u8],
    needed: &mut u64,
) -> u32
    ensures { FillsOrLacks (line (chain_of chain.now).digest (text_of_end (chain_of chain.now)) ++ 10 ∷ []) result out.old out.new needed.old needed.new }
{
    match end_line(alloc, &chain_of(chain)) {
        Ok(text) => fill(text.as_bytes(), out, needed),
        Err(_) => status::OUT_OF_MEMORY,
    }
}
