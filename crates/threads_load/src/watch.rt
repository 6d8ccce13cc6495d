//! What a load tells while it runs.

use crate::fault::LoadFault;
use core_model::Entry;

/// Is told what a load does while it runs, on the thread that rotates its audit between rounds.
pub trait Watch {
    /// These are the next entries of the load's history: what a rotation handed out, and at the end what the audit has.
    /// A fault ends the load.
    fn take(&mut self, entries: &[Entry]) -> Result<(), LoadFault>;

    /// So many packets are finished, of so many. It is told while lanes rest, at the end of each round.
    fn see(&mut self, finished: u64, wanted: u64);
}

/// Nobody watches.
#[derive(Drop)]
pub struct Unwatched;

impl Watch for Unwatched {
    fn take(&mut self, _entries: &[Entry]) -> Result<(), LoadFault> {
        Ok(())
    }

    fn see(&mut self, _finished: u64, _wanted: u64) {}
}
