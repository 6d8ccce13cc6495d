//! The broker for threads: clients publish packets on rings of their own without a lock, a lane a queue
//! serves and advances them in sections under the core's lock, and after the run what the core decided is
//! held against what was published.

// The check tries its tactics on what is left of each proof.
#![tactic(auto)]

mod advancing;
mod board;
mod broker;
mod client_end;
mod lane;
mod lanes;
mod laws;
mod mismatch;
mod opening;
mod pending;
mod room;
mod serving;
mod settled_parts;
mod settling;
mod still;

pub use advancing::{Advanced, advance_one};
pub use board::Front;
pub use broker::{Broker, UnnamedBroker};
pub use client_end::ClientEnd;
pub use core_model::Served;
pub use lane::Lane;
pub use lanes::{Gate, LaneAnswer, run_lanes};
pub use laws::{
    law_each_place_is_ones_own, law_lanes_that_keep_all_are_settled, law_no_share_no_section,
    law_nothing_else, law_opened_queues_belong, law_queues_keep_their_openings,
    law_runs_are_whole_histories, law_sections_keep_their_places, law_sections_stand_in_order,
    law_turns_enter_their_own,
};
pub use opening::Opened;
pub use pending::PendingPacket;
pub use room::Room;
pub use serving::{ServeAnswer, serve_one};
pub use settled_parts::{PartFault, SettledParts, UnsettledPart};
pub use settling::{SettleAllFault, SettledQueue, Settlement, settle_all};
pub use still::{StillBroker, UnsettledBroker};
