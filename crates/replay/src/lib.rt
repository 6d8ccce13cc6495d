//! A history is replayed: a core makes its calls anew, and each entry is held against what came.
#![tactic(auto)]

mod laws;
mod replay;
mod rows;
mod sameness;
mod stop;
mod verdict;

pub use laws::law_what_is_taken_is_a_whole_history;
pub use replay::{PLACES, Replay};
pub use sameness::tells_the_same;
pub use stop::{Due, Stop};
pub use verdict::{Verdict, judge};
