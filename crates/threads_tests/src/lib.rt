//! Tests of what no clause says of the broker for threads: that lanes run at once, that clients publish while the core
//! is busy, and what runs come to. They stand in a crate of their own, so that the libraries are proved once.
//! The next line lets the check look for proofs by its tactics.
#![tactic(auto)]

#[cfg(test)]
mod bells;
#[cfg(test)]
mod endings;
#[cfg(test)]
mod gates;
#[cfg(test)]
mod loads;
#[cfg(test)]
mod many;
#[cfg(test)]
mod openings;
#[cfg(test)]
mod rotations;
#[cfg(test)]
mod sections;
#[cfg(test)]
mod stages;
#[cfg(test)]
mod waking;
