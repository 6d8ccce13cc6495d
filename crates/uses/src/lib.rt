//! Callers of the broker as a library, as a program of one's own would have them: a world of its own, and the headline
//! after whatever was done with it. `docs/embedding.md` shows them.

// The check tries its tactics on what is left of each proof.
#![tactic(auto)]

mod own_world;
mod whole_run;

pub use own_world::{fill, open};
pub use whole_run::{Replies, drive};
