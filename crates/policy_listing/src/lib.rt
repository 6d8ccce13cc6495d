//! What a policy declares, in the order of its file: clients and objects with their numbers, names and addresses, and the
//! rights that each client may have on each object; as a table for people, and as JSON for programs. And what stands where in
//! the file, what it is with kernels' texts in their place, and one to begin with.

// The check tries its tactics on what is left of each proof.
#![tactic(auto)]

mod beginning;
mod declared;
mod embedding;
mod gathering;
mod json;
mod positions;
mod strings;
mod table;

pub use beginning::{KernelText, begun};
pub use declared::{Agent, Allowed, Client, Declared, Kernel, Region, Signal};
pub use embedding::{NoFiles, TEXT_FILE, TextFile, embedded, text_files};
pub use gathering::gather;
pub use json::to_json;
pub use positions::{Found, Place, Position, find, position_at, small};
pub use table::to_table;
