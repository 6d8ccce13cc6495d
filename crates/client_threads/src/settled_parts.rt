//! Parts of the audit that are settled as they come.

ghost use Rattle.std.specs.Prelude.{◌≡◌, ◌↔◌, ◌++◌, ◌∷◌, [], ℕ, All, IfOk, IfErr, List, map, true};
ghost use Rattle.atomic_table.specs.Seated.{TableId};
ghost use Rattle.core_model.specs.Rotation.{GoOn, LeadTo};
ghost use Rattle.client_threads.specs.HandedOver.{AreSettledWith, IsUnsettledPartFor, handed_over};
ghost use Rattle.client_threads.specs.Rings.{QueueRing};
ghost use Rattle.client_threads.specs.Running.{IsLaneOf};

use crate::lane::Lane;
use crate::mismatch::find_mismatch;
use aql_packet::{PacketId, QueueId};
use core_model::{Origin, Part, lead_to};
use ring_core::Log;
use std::marker::Model;

/// The parts that were settled with what lanes handed over, in order. A contract sees all of them; when it runs, the
/// last is kept.
#[derive(Drop)]
pub struct SettledParts {
    parts: Log<Part>,
    last: Option<Part>,
}

impl Model for SettledParts {
    ghost use Rattle.std.specs.Prelude.{List};
    ghost use Rattle.core_model.specs.History.{Part};
    ghost use Rattle.client_threads.specs.inner.SettledEnds.{EndIn};

    ghost Value = { List Part };

    ghost view = { λ s. s.parts };

    ghost invariant = { λ s. EndIn s.parts s.last };
}

/// Why a part was not settled.
#[derive(Clone, Copy, Debug, PartialEq, Eq)]
pub enum PartFault {
    /// The parts before it don't lead to where it begins.
    NotNext,
    /// It has something else of a queue than its lane keeps: this is the least queue, and the least id at which.
    Mismatch { queue: QueueId, id: PacketId },
}

impl PartFault {
    ghost use Rattle.client_threads.specs.HandedOver.{number_of_part_fault};

    /// The refusal's number, as `settle_all` has it; a mismatch is no refusal, and has none (own).
    pub fn number(&self) -> Option<u8>
        ensures { result ≡ number_of_part_fault self.now }
    {
        match self {
            PartFault::NotNext => Some(4),
            PartFault::Mismatch { .. } => None,
        }
    }
}

/// A part that was not settled, and why.
#[derive(Drop)]
pub struct UnsettledPart {
    pub fault: PartFault,
    pub part: Part,
}

impl SettledParts {
    /// No part was settled yet.
    pub fn none() -> SettledParts
        ensures { result ≡ [] }
    {
        SettledParts {
            parts: Log::new(),
            last: None,
        }
    }

    /// Settles the next part with what the lanes keep: of each queue it has just that, ids and bytes, in order. Each lane
    /// hands it over then: it keeps none of it, and its room for packets stays. It takes no memory, and lets go of the
    /// part before. Refused in this order: the parts before don't lead to where it begins; it has of a queue something
    /// else than its lane keeps. All then stays as it was, and the part comes back.
    #[tactic(auto, using(crate::proofs::HandingOver::is_next, crate::proofs::HandingOver::not_next, crate::proofs::HandingOver::settled_so, crate::proofs::HandingOver::least_so, crate::proofs::HandingOver::of_so, crate::proofs::HandingOver::ends_in_more))]
    pub fn settle(&mut self, part: Part, lanes: &mut Vec<Lane>) -> Result<(), UnsettledPart>
        requires settled { AreSettledWith self.old lanes.old.items }
        ensures next { IfOk result (λ _. LeadTo self.old part.start) }
        ensures parts { IfOk result (λ _. self.new ≡ self.old ++ part ∷ []) }
        ensures lanes { IfOk result (λ _. lanes.new.items ≡ map handed_over lanes.old.items) }
        ensures fault { IfErr result (λ u. IsUnsettledPartFor self.old part lanes.old.items u.fault) }
        ensures back { IfErr result (λ u. (u.part ≡ part) × (self.new ≡ self.old) × (lanes.new.items ≡ lanes.old.items)) }
        ensures settled { AreSettledWith self.new lanes.new.items }
        ensures of { (board : TableId) (rings : List QueueRing) → All (IsLaneOf board rings) lanes.old.items → All (IsLaneOf board rings) lanes.new.items }
    {
        if !self.lead_to(&[], part.start()) {
            let fault = PartFault::NotNext;
            return Err(UnsettledPart { fault, part });
        }
        if let Some((queue, id)) = find_mismatch(self, &[], part.entries(), lanes.as_slice()) {
            let fault = PartFault::Mismatch { queue, id };
            return Err(UnsettledPart { fault, part });
        }
        hand_over_all(lanes);
        self.parts.push(&part);
        self.last = Some(part);
        Ok(())
    }

    // Whether these parts and then others lead to where a history begins.
    #[tactic(auto, using(crate::proofs::HandingOver::leads_first, crate::proofs::HandingOver::leads_on))]
    pub(crate) fn lead_to(&self, parts: &[Part], start: &Origin) -> bool
        ensures { result ≡ true ↔ LeadTo (self.now ++ parts.now) start.now }
    {
        match &self.last {
            None => lead_to(parts, start),
            Some(last) => go_on(last.end(), parts, start),
        }
    }
}

// Whether parts go on from where something ends, and then what a history begins from.
#[tactic(auto, using(core_model::proofs::Handed::next_leads, core_model::proofs::Handed::other_breaks, core_model::proofs::Handed::last_leads))]
fn go_on(end: &Origin, parts: &[Part], start: &Origin) -> bool
    ensures { result ≡ true ↔ GoOn end.now parts.now start.now }
{
    let mut reached = end;
    for part in parts {
        if !part.start().is_same(reached) {
            return false;
        }
        reached = part.end();
    }
    start.is_same(reached)
}

// Each lane hands over all that it keeps.
fn hand_over_all(lanes: &mut Vec<Lane>)
    ensures { lanes.new.items ≡ map handed_over lanes.old.items }
{
    for place in 0..lanes.len() {
        lanes[place].hand_over();
    }
}
