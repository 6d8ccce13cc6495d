//! Grants: which rights are in force, and which packets hold them.

// The check tries its tactics on what is left of each proof.
#![tactic(auto)]

mod cell;
mod cells;
mod comparing;
mod counting;
mod grants;
mod hold;
mod laws;
mod policy_grid;
mod refusal;
mod sets;
mod weighing;

pub use grants::Grants;
pub use laws::law_of_calls;
pub use refusal::GrantRefusal;
