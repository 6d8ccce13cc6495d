//! The ring of one queue over atomic words: clients and the processor step on it from threads of
//! their own, with no lock, and each call says which of the ring's steps it made.
#![tactic(auto)]

mod closing;
mod laws;
mod place;
mod processor;
mod producer;
mod ring;
mod share;
mod step;

pub use closing::{SettleFault, SettleRoom, Settled, Unsettled, has_passes, settle, settle_in};
pub use laws::{
    law_a_ring_is_a_machine_between_steps, law_cuts_and_joins_keep_the_machine,
    law_each_access_is_one_step, law_indices_and_slots_lie_apart,
    law_stores_are_seen_and_leave_the_gaps, law_words_and_views_are_one_machine,
};
pub use processor::{Peeked, ProcessorPass, Shown};
pub use producer::{ProducerPass, Publication, Spent, Ticket};
pub use ring::{Ring, RingFault};
