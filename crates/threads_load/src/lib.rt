//! A load for threads over a policy: queues of clients that may count in a region of theirs, producers that publish
//! additions from threads of their own, lanes that serve them, and a report of what came of it.

// The check tries its tactics on what is left of each proof.
#![tactic(auto)]

mod bells;
mod counting;
mod fault;
mod gate;
mod granting;
mod laws;
mod limits;
mod load;
mod looking;
mod opening;
mod plan;
mod producing;
mod report;
mod running;
mod watch;

pub use counting::{PacketCounts, are_finished, count_none, count_on, count_packets, counts_at};
pub use fault::LoadFault;
pub use gate::LoadGate;
pub use granting::grant_all;
pub use laws::law_numbers_are_those_of_the_rules;
pub use limits::{LoadLimits, LoadTerms, PACKETS};
pub use load::{
    Load, PLACES, name_broker, open_broker, run_load, run_load_watched, run_load_within,
};
pub use opening::{Stage, open_stage};
pub use plan::{PlannedQueue, plan_load};
pub use producing::{Share, addition, produce};
pub use report::{Ending, report_load};
pub use running::{HandedOut, run_rotated, run_stage};
pub use watch::{Unwatched, Watch};
