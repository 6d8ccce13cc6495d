//! Outcomes, changes and whole entries as they are read.

ghost use Rattle.std.specs.Prelude.{◌≡◌, IfOk, option_map};
ghost use Rattle.journal.specs.Words.{seen, words_behind};
ghost use Rattle.journal.specs.Readings.{opened_at, changed_at, denied_at, cause_named, waiting_at, ran_at, faulted_at, pending_at, ready_at, failed_at, polled_named, worked_named, taken_named, outcome_named, outcome_at, written_at, signalled_at, released_at, plain_effect_named, effect_named, effect_at, list_at, entry_at, done, entry_of};

use crate::digits::{bytes_at, flags_at, number_at, signed_at, small_at};
use crate::events::event_at;
use crate::reading::{error_at, packet_named_at};
use crate::splitting::{Rest, is_word, next_word, split_word};
use aql_packet::{Address, QueueId, SignalHandle};
use core_model::{
    Bytes, Effect, Effects, Entry, Outcome, Polled, Satisfied, Taken, WaitCause, Worked,
};
use std::alloc::{AllocError, Global};

// A queue was opened.
fn opened_at(rest: Rest) -> Option<(Outcome, Rest)>
    ensures { seen result ≡ opened_at (words_behind rest.entry) }
{
    let (queue, rest) = number_at(rest)?;
    Some((Outcome::Opened(QueueId(queue)), rest))
}

// A signal was changed.
fn changed_at(rest: Rest) -> Option<(Outcome, Rest)>
    ensures { seen result ≡ changed_at (words_behind rest.entry) }
{
    let (old, rest) = signed_at(rest)?;
    Some((Outcome::Changed(old), rest))
}

// A packet was denied.
fn denied_at(rest: Rest) -> Option<(Outcome, Rest)>
    ensures { seen result ≡ denied_at (words_behind rest.entry) }
{
    let (error, rest) = error_at(rest)?;
    Some((Outcome::Taken(Taken::Denied(error)), rest))
}

// The reason why a packet may not start yet that has a name.
fn cause_named(word: &[u8]) -> Option<WaitCause>
    ensures { result ≡ cause_named word.now }
{
    if is_word(word, "barrier") {
        Some(WaitCause::Barrier)
    } else if is_word(word, "active") {
        Some(WaitCause::Active)
    } else if is_word(word, "slots") {
        Some(WaitCause::Slots)
    } else {
        None
    }
}

// A packet waits.
fn waiting_at(rest: Rest) -> Option<(Outcome, Rest)>
    ensures { seen result ≡ waiting_at (words_behind rest.entry) }
{
    let (word, rest) = next_word(rest)?;
    Some((Outcome::Taken(Taken::Waiting(cause_named(word)?)), rest))
}

// A group ran.
fn ran_at(rest: Rest) -> Option<(Outcome, Rest)>
    ensures { seen result ≡ ran_at (words_behind rest.entry) }
{
    let (group, rest) = small_at(rest)?;
    let (left, rest) = small_at(rest)?;
    Some((Outcome::Worked(Worked::Ran { group, left }), rest))
}

// A group faulted.
fn faulted_at(rest: Rest) -> Option<(Outcome, Rest)>
    ensures { seen result ≡ faulted_at (words_behind rest.entry) }
{
    let (error, rest) = error_at(rest)?;
    Some((Outcome::Worked(Worked::Faulted(error)), rest))
}

// A barrier packet isn't ready.
fn pending_at(rest: Rest) -> Option<(Outcome, Rest)>
    ensures { seen result ≡ pending_at (words_behind rest.entry) }
{
    let (seen, rest) = flags_at(rest)?;
    Some((Outcome::Polled(Polled::Pending(Satisfied(seen))), rest))
}

// A barrier packet is ready.
fn ready_at(rest: Rest) -> Option<(Outcome, Rest)>
    ensures { seen result ≡ ready_at (words_behind rest.entry) }
{
    let (seen, rest) = flags_at(rest)?;
    Some((Outcome::Polled(Polled::Ready(Satisfied(seen))), rest))
}

// A barrier packet faulted.
fn failed_at(rest: Rest) -> Option<(Outcome, Rest)>
    ensures { seen result ≡ failed_at (words_behind rest.entry) }
{
    let (error, rest) = error_at(rest)?;
    Some((Outcome::Polled(Polled::Failed(error)), rest))
}

// What a poll found, as a word names it.
fn polled_named<'a>(word: &[u8], rest: Rest<'a>) -> Option<(Outcome, Rest<'a>)>
    ensures { seen result ≡ polled_named word.now (words_behind rest.entry) }
{
    if is_word(word, "pending") {
        pending_at(rest)
    } else if is_word(word, "ready") {
        ready_at(rest)
    } else if is_word(word, "failed") {
        failed_at(rest)
    } else {
        None
    }
}

// What became of a group or a poll, as a word names it.
fn worked_named<'a>(word: &[u8], rest: Rest<'a>) -> Option<(Outcome, Rest<'a>)>
    ensures { seen result ≡ worked_named word.now (words_behind rest.entry) }
{
    if is_word(word, "ran") {
        ran_at(rest)
    } else if is_word(word, "faulted") {
        faulted_at(rest)
    } else if is_word(word, "done") {
        Some((Outcome::Worked(Worked::Done), rest))
    } else {
        polled_named(word, rest)
    }
}

// What became of a packet, a group or a poll, as a word names it.
fn taken_named<'a>(word: &[u8], rest: Rest<'a>) -> Option<(Outcome, Rest<'a>)>
    ensures { seen result ≡ taken_named word.now (words_behind rest.entry) }
{
    if is_word(word, "launched") {
        Some((Outcome::Taken(Taken::Launched), rest))
    } else if is_word(word, "denied") {
        denied_at(rest)
    } else if is_word(word, "waiting") {
        waiting_at(rest)
    } else {
        worked_named(word, rest)
    }
}

// What a call came to, as a word names it.
fn outcome_named<'a>(word: &[u8], rest: Rest<'a>) -> Option<(Outcome, Rest<'a>)>
    ensures { seen result ≡ outcome_named word.now (words_behind rest.entry) }
{
    if is_word(word, "accepted") {
        Some((Outcome::Accepted, rest))
    } else if is_word(word, "opened") {
        opened_at(rest)
    } else if is_word(word, "changed") {
        changed_at(rest)
    } else {
        taken_named(word, rest)
    }
}

// What a call came to.
fn outcome_at(rest: Rest) -> Option<(Outcome, Rest)>
    ensures { seen result ≡ outcome_at (words_behind rest.entry) }
{
    let (word, rest) = next_word(rest)?;
    outcome_named(word, rest)
}

// Bytes were written.
fn written_at(alloc: Global, rest: Rest) -> Result<Option<(Effect, Rest)>, AllocError>
    ensures { IfOk result (λ read. seen read ≡ written_at (words_behind rest.entry)) }
{
    let Some((address, rest)) = number_at(rest) else {
        return Ok(None);
    };
    let Some((bytes, rest)) = bytes_at(alloc, rest)? else {
        return Ok(None);
    };
    let effect = Effect::Write {
        address: Address(address),
        bytes: Bytes::of(bytes),
    };
    Ok(Some((effect, rest)))
}

// A signal went from one value to another.
fn signalled_at(rest: Rest) -> Option<(Effect, Rest)>
    ensures { seen result ≡ signalled_at (words_behind rest.entry) }
{
    let (signal, rest) = number_at(rest)?;
    let (old, rest) = signed_at(rest)?;
    let (new, rest) = signed_at(rest)?;
    let effect = Effect::Signal {
        signal: SignalHandle(signal),
        old,
        new,
    };
    Some((effect, rest))
}

// A packet left flight.
fn released_at(rest: Rest) -> Option<(Effect, Rest)>
    ensures { seen result ≡ released_at (words_behind rest.entry) }
{
    let ((queue, packet), rest) = packet_named_at(rest)?;
    Some((Effect::Release { queue, packet }, rest))
}

// A change that hands over no bytes, as a word names it.
fn plain_effect_named<'a>(word: &[u8], rest: Rest<'a>) -> Option<(Effect, Rest<'a>)>
    ensures { seen result ≡ plain_effect_named word.now (words_behind rest.entry) }
{
    if is_word(word, "signal") {
        signalled_at(rest)
    } else if is_word(word, "release") {
        released_at(rest)
    } else {
        None
    }
}

// A change, as a word names it.
fn effect_named<'a>(
    alloc: Global,
    word: &[u8],
    rest: Rest<'a>,
) -> Result<Option<(Effect, Rest<'a>)>, AllocError>
    ensures { IfOk result (λ read. seen read ≡ effect_named word.now (words_behind rest.entry)) }
{
    if is_word(word, "write") {
        written_at(alloc, rest)
    } else {
        Ok(plain_effect_named(word, rest))
    }
}

// A change.
fn effect_at(alloc: Global, rest: Rest) -> Result<Option<(Effect, Rest)>, AllocError>
    ensures { IfOk result (λ read. seen read ≡ effect_at (words_behind rest.entry)) }
{
    match next_word(rest) {
        Some((word, rest)) => effect_named(alloc, word, rest),
        None => Ok(None),
    }
}

// So many changes as a number says.
fn effect_list_at(alloc: Global, rest: Rest) -> Result<Option<(Vec<Effect>, Rest)>, AllocError>
    ensures { IfOk result (λ read. option_map (λ found. (found.0.items, words_behind found.1)) read ≡ list_at effect_at (words_behind rest.entry)) }
{
    let Some((count, behind)) = number_at(rest) else {
        return Ok(None);
    };
    let mut effects = Vec::new(alloc);
    let mut left = behind;
    for _place in 0..count {
        let Some((effect, further)) = effect_at(alloc, left)? else {
            return Ok(None);
        };
        effects.push(effect)?;
        left = further;
    }
    Ok(Some((effects, left)))
}

/// An entry: what happened, what it came to, and what it changed, with the words behind it.
pub fn entry_at(alloc: Global, rest: Rest) -> Result<Option<(Entry, Rest)>, AllocError>
    ensures { IfOk result (λ read. seen read ≡ entry_at (words_behind rest.entry)) }
{
    let Some((event, rest)) = event_at(alloc, rest)? else {
        return Ok(None);
    };
    let Some((outcome, rest)) = outcome_at(rest) else {
        return Ok(None);
    };
    let Some((effects, rest)) = effect_list_at(alloc, rest)? else {
        return Ok(None);
    };
    let entry = Entry {
        event,
        outcome,
        effects: Effects::many(effects),
    };
    Ok(Some((entry, rest)))
}

/// What was read, if no words are left behind it.
#[tactic(auto, using(crate::proofs::WordSteps::left_over))]
pub fn whole(read: Option<(Entry, Rest)>) -> Option<Entry>
    ensures { result ≡ done (seen read.entry) }
{
    let (entry, rest) = read?;
    match rest {
        None => Some(entry),
        Some(_) => None,
    }
}

/// The entry that a text is, as `write_entry` writes it; none, where it is the text of no entry. Refused for want of
/// memory alone.
pub fn read_entry(alloc: Global, text: &[u8]) -> Result<Option<Entry>, AllocError>
    ensures { IfOk result (λ read. read ≡ entry_of text.now) }
{
    let (word, rest) = split_word(text);
    if !word.is_empty() {
        return Ok(None);
    }
    Ok(whole(entry_at(alloc, rest)?))
}
