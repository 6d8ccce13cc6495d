//! Tests of the libraries, of what no clause and no case says: public calls that no program and no case makes, what errors
//! print, callers of the libraries, and readers and writers that fail. They stand in a crate of their own, so that the
//! libraries are proved once.
//! The next line lets the check look for proofs by its tactics.
#![tactic(auto)]

#[cfg(test)]
mod callers;
#[cfg(test)]
mod calls;
#[cfg(test)]
mod errors;
#[cfg(test)]
mod files;
#[cfg(test)]
mod line_forms;
#[cfg(test)]
mod streams;
#[cfg(test)]
mod studio;
#[cfg(test)]
mod truncated;
#[cfg(test)]
mod worlds;
