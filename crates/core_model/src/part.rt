//! Parts of a history, and how two of them are joined.

ghost use Rattle.std.specs.Prelude.{◌≡◌, ◌↔◌, ◌+◌, ◌≤◌, ◌++◌, IfOk, OnOk, true, length};
ghost use Rattle.core_model.specs.Legal.{IsFollowedBy, joined};
ghost use Rattle.core_model.specs.Rotation.{GoOn, Joins, LeadTo};

use crate::entry::Entry;
use crate::origin::Origin;
use boxed::Boxed;
use sequences::Reserved;
use std::alloc::{AllocError, Global};
use std::marker::Model;

/// A part of a history: what it begins from, its entries in order, and what follows from both, from which the
/// history goes on. A rotation hands one out.
#[derive(Drop)]
pub struct Part {
    start: Boxed<Origin>,
    entries: Reserved<Entry>,
    end: Boxed<Origin>,
}

impl Model for Part {
    ghost use Rattle.core_model.specs.History.{Part};

    ghost Value = { Part };

    ghost view = { λ part. record { start = part.start; entries = part.entries.items; end = part.end } };
}

/// Why two parts aren't joined.
#[derive(Clone, Copy, Debug, PartialEq, Eq, thiserror::Error)]
pub enum JoinFault {
    /// Memory was wanted and not to be had.
    #[error("out of memory")]
    OutOfMemory,
    /// The second doesn't begin from what the first ends in.
    #[error("the second part does not begin where the first ends")]
    NotNext,
}

/// Two parts that weren't joined, and why.
#[derive(Drop)]
pub struct NotJoined {
    pub why: JoinFault,
    pub first: Part,
    pub second: Part,
}

impl JoinFault {
    ghost use Rattle.core_model.specs.Rotation.{number_of_fault};

    /// The refusal's number (own).
    pub fn number(&self) -> u8
        ensures { result ≡ number_of_fault self.now }
    {
        match self {
            JoinFault::OutOfMemory => 0,
            JoinFault::NotNext => 1,
        }
    }
}

impl Part {
    /// A part of what it begins from, its entries, and what follows from both.
    pub fn new(start: Boxed<Origin>, entries: Reserved<Entry>, end: Boxed<Origin>) -> Part
        ensures { result ≡ record { start = start; entries = entries.items; end = end } }
    {
        Part {
            start,
            entries,
            end,
        }
    }

    /// What it begins from.
    pub fn start(&self) -> &Origin
        ensures { result.now ≡ self.now.start }
    {
        self.start.as_ref()
    }

    /// Its entries, in order.
    pub fn entries(&self) -> &[Entry]
        ensures { result.now ≡ self.now.entries }
    {
        self.entries.as_slice()
    }

    /// What a history goes on from behind it.
    pub fn end(&self) -> &Origin
        ensures { result.now ≡ self.now.end }
    {
        self.end.as_ref()
    }

    /// Whether another part begins from what this one ends in. It takes no memory.
    pub fn is_followed_by(&self, next: &Part) -> bool
        ensures { result ≡ true ↔ IsFollowedBy self.now next.now }
    {
        next.start().is_same(self.end())
    }
}

/// Whether parts lead to where a history begins: no entry came before the first of them, each later one begins
/// from what the one before it ends in, and the history from what the last ends in. Without parts: whether no
/// entry came before the history. It takes no memory.
#[tactic(auto, using(crate::proofs::Handed::leads_first))]
pub fn lead_to(parts: &[Part], start: &Origin) -> bool
    ensures { result ≡ true ↔ LeadTo parts.now start.now }
{
    match parts.split_first() {
        None => start.before == 0,
        Some((first, more)) => (first.start().before == 0) & go_on(first.end(), more, start),
    }
}

// Whether parts go on from where something ends, and then what a history begins from.
#[tactic(auto, using(crate::proofs::Handed::next_leads, crate::proofs::Handed::other_breaks, crate::proofs::Handed::last_leads))]
fn go_on(end: &Origin, parts: &[Part], start: &Origin) -> bool
    ensures { result ≡ true ↔ GoOn end.now parts.now start.now }
{
    let mut reached = end;
    for part in parts {
        if !part.start().is_same(reached) {
            return false;
        }
        reached = part.end();
    }
    start.is_same(reached)
}

/// Joins two parts to one: the first's start, the entries of both, and the second's end. Refused in this order:
/// the second doesn't begin from what the first ends in; memory for the entries isn't to be had. Both parts then
/// come back. Two that are legal for the same kernels are joined to one that is legal for them
/// (`law_joined_parts_are_legal`).
pub fn join(alloc: Global, first: Part, second: Part) -> Result<Part, NotJoined>
    ensures { Joins first second result }
{
    if !first.is_followed_by(&second) {
        return Err(NotJoined {
            why: JoinFault::NotNext,
            first,
            second,
        });
    }
    match entries_of_both(alloc, first.entries(), second.entries()) {
        Ok(entries) => Ok(joined(first, second, entries)),
        Err(_) => Err(NotJoined {
            why: JoinFault::OutOfMemory,
            first,
            second,
        }),
    }
}

// The part that two make, with the entries of both.
fn joined(first: Part, second: Part, entries: Reserved<Entry>) -> Part
    requires { entries.items ≡ first.entries ++ second.entries }
    ensures { result ≡ joined first second }
{
    let Part {
        start,
        entries: _,
        end: _,
    } = first;
    let Part {
        start: _,
        entries: _,
        end,
    } = second;
    Part {
        start,
        entries,
        end,
    }
}

// The entries of one list, and behind them those of another, in memory of their own.
fn entries_of_both(
    alloc: Global,
    first: &[Entry],
    second: &[Entry],
) -> Result<Reserved<Entry>, AllocError>
    ensures { IfOk result (λ entries. entries.items ≡ first.now ++ second.now) }
{
    let mut entries = Reserved::with_room(alloc, first.len() + second.len())?;
    put_copies(alloc, &mut entries, first)?;
    put_copies(alloc, &mut entries, second)?;
    Ok(entries)
}

// Puts copies of entries behind those of a list that has room for them.
fn put_copies(
    alloc: Global,
    list: &mut Reserved<Entry>,
    entries: &[Entry],
) -> Result<(), AllocError>
    requires { length entries.now ≤ list.old.room }
    ensures items { OnOk result (list.new.items ≡ list.old.items ++ entries.now) }
    ensures room { OnOk result (list.new.room + length entries.now ≡ list.old.room) }
{
    for entry in entries {
        let copy = entry.copy(alloc)?;
        list.push(copy);
    }
    Ok(())
}
