//! Tests of the crate `ring`, of what no clause says: that packets come through, between threads too, and
//! that a ring can be settled. They stand in a crate of their own, so that `ring` is proved once. The caller of two
//! threads is the one that `docs/rings.md` shows.
//! The next line lets the check look for proofs by its tactics.
#![tactic(auto)]

pub mod load;
#[cfg(test)]
mod rows;
#[cfg(test)]
mod threads;
pub mod two_threads;
