//! What a drain has come to so far.

ghost use Rattle.std.specs.Prelude.{◌≡◌, ◌||◌, [], false, OnOk};
ghost use Rattle.readable.specs.Fates.{with_fate};
ghost use Rattle.readable.specs.Steps.{moves, step_of};
ghost use Rattle.readable.specs.Tallies.{none_yet, with_came};

use crate::drained::{Drained, Wait};
use crate::fates::{Fate, note};
use crate::flight::dependencies;
use crate::moves::{Came, Move};
use crate::steps::{Step, is_fault, moves, step_of};
use crate::tally::{Tally, with_came};
use aql_packet::Packet;
use std::alloc::{AllocError, Global};

/// What a drain has come to so far: its counts, what came of its packets, and what waits.
#[derive(Drop)]
pub(crate) struct Log {
    pub(crate) tally: Tally,
    pub(crate) fates: Vec<Fate>,
    /// Whether something moved in this round.
    pub(crate) has_moved: bool,
    waits: Vec<Wait>,
    // The request of the first fault, and that of the first wait of this round.
    fault: Option<(Move, Came)>,
    wait: Option<(Move, Came)>,
}

impl Log {
    /// Nothing was asked yet.
    pub(crate) fn new(alloc: Global) -> Log
        ensures tally { result.tally ≡ none_yet }
        ensures fates { result.fates.items ≡ [] }
    {
        Log {
            tally: Tally::none(),
            fates: Vec::new(alloc),
            has_moved: false,
            waits: Vec::new(alloc),
            fault: None,
            wait: None,
        }
    }

    /// Begins a round: nothing moved or waits in it yet.
    pub(crate) fn begin_round(&mut self)
        ensures tally { self.new.tally ≡ self.old.tally }
        ensures fates { self.new.fates.items ≡ self.old.fates.items }
        ensures moved { self.new.has_moved ≡ false }
    {
        self.has_moved = false;
        self.waits.clear();
        self.wait = None;
    }

    // Keeps what waits.
    fn keep_wait(
        &mut self,
        asked: Move,
        about: Option<Packet>,
        came: Came,
    ) -> Result<(), AllocError>
        ensures tally { self.new.tally ≡ self.old.tally }
        ensures fates { self.new.fates.items ≡ self.old.fates.items }
        ensures moved { self.new.has_moved ≡ self.old.has_moved }
    {
        let signals = match (asked, about) {
            (Move::Poll { .. }, Some(packet)) => dependencies(&packet),
            _ => None,
        };
        if self.wait.is_none() {
            self.wait = Some((asked, came));
        }
        self.waits.push(Wait {
            asked,
            came,
            signals,
        })?;
        Ok(())
    }

    // Keeps the first fault, and what waits.
    fn keep(
        &mut self,
        asked: Move,
        about: Option<Packet>,
        came: Came,
        step: Step,
    ) -> Result<(), AllocError>
        ensures tally { self.new.tally ≡ self.old.tally }
        ensures fates { self.new.fates.items ≡ self.old.fates.items }
        ensures moved { self.new.has_moved ≡ self.old.has_moved }
    {
        if is_fault(came) && self.fault.is_none() {
            self.fault = Some((asked, came));
        }
        match step {
            Step::Waits => self.keep_wait(asked, about, came),
            _ => Ok(()),
        }
    }

    /// Takes note of what a request came to that is about this packet; memory may be wanted for it.
    pub(crate) fn note(
        &mut self,
        asked: Move,
        about: Option<Packet>,
        came: Came,
    ) -> Result<(), AllocError>
        ensures tally { OnOk result (self.new.tally ≡ with_came self.old.tally came) }
        ensures fates { OnOk result (self.new.fates.items ≡ with_fate self.old.fates.items asked about came) }
        ensures moved { OnOk result (self.new.has_moved ≡ (self.old.has_moved || moves (step_of came))) }
    {
        let step = step_of(came);
        self.tally = with_came(self.tally, came);
        self.has_moved = self.has_moved || moves(step);
        note(&mut self.fates, asked, about, came)?;
        self.keep(asked, about, came, step)
    }

    /// What the drain came to.
    pub(crate) fn ended(self) -> Drained
        ensures tally { result.tally ≡ self.tally }
        ensures fates { result.fates.items ≡ self.fates.items }
    {
        Drained {
            tally: self.tally,
            fates: self.fates,
            waits: self.waits,
            noted: self.fault.or(self.wait),
        }
    }
}
