//! Tests of journals: rows of texts.
#![tactic(auto)]

#[cfg(test)]
mod entries;
#[cfg(test)]
mod lines;
