//! Queue errors: which packet of which queue broke which rule, and where.

// The check tries its tactics on what is left of each proof.
#![tactic(auto)]

mod error;
mod rule;

pub use error::{FaultPlace, QueueError, SegmentAddress};
pub use rule::Rule;
