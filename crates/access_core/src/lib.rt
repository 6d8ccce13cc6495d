//! The broker's core: every call of clients, administrators and packet processors, decided one at a
//! time, with an audit of all that was done.

// The check tries its tactics on what is left of each proof.
#![tactic(auto)]

mod access;
mod argument_blocks;
mod fresh;
mod holders;
mod kernel;
mod lists;
mod queue;
mod release_room;
mod spare_lists;
mod tables;

pub use access::{AccessCore, OpenFault};
pub use kernel::Kernel;
pub use tables::TableSizes;
