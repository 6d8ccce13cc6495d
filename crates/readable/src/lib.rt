//! Runs of scripts for people and programs, a line at a time: readable lines are done by way of the lines that they come
//! to, queues are drained, and replies are told as text or as JSON.

// The check tries its tactics on what is left of each proof.
#![tactic(auto)]

mod drained;
mod draining;
mod fate_lines;
mod fates;
mod flight;
mod lines;
mod log;
mod moves;
mod rounds;
mod states;
mod steps;
mod tally;

pub use drained::{Drained, Wait};
pub use draining::drain;
pub use fates::{Ending, Fate};
pub use flight::Queues;
pub use lines::{DrainVoice, Readable};
pub use moves::{Came, Move, command_of};
pub use steps::Step;
pub use tally::Tally;
