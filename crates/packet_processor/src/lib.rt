//! The packet processor: whether a packet may start, whether it may be launched, what it holds, and
//! when its work is done.

// The check tries its tactics on what is left of each proof.
#![tactic(auto)]

mod dispatch_rules;
mod facts;
mod holding;
mod judging;
mod need_table;
mod packet_needs;
mod packets;
mod places;
mod queue_state;

pub use facts::{Facts, Verdict};
pub use holding::{held_by_arguments, held_by_needs, hold_needs};
pub use judging::verdict;
pub use need_table::{function_of, result_range};
pub use packet_needs::{MOST_NEEDS, PacketNeeds};
pub use packets::{completion_signal, is_barrier, is_ready};
pub use places::{FoundPacket, Place, Places};
pub use queue_state::{MayLaunch, QueueState, State};
