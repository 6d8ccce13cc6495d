//! The world: one core, and a ring for each of its queues that is open. What is asked of it, a step of a ring, a take
//! or a call, is served in the order of asking, whoever asks: every interleaving is a list of requests.

// The check tries its tactics on what is left of each proof.
#![tactic(auto)]

mod lane;
mod laws;
mod queue_ring;
mod reply;
mod request;
mod rings;
mod serving;
mod world;

pub use lane::{Sent, Served, Shown};
pub use laws::{
    law_closed_rings_were_in_step, law_each_run_goes_on, law_headline, law_lane_calls_are_requests,
    law_refusals_change_nothing,
};
pub use reply::{Answer, Refusal, Reply};
pub use request::Request;
pub use world::World;
