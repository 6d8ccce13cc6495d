//! The ring of one queue as a pure machine: what each atomic step on its words does, and the rule
//! that every list of steps keeps.
#![tactic(auto)]

mod access;
mod calls;
mod laws;
mod log;
mod part;
mod past;
mod state;
mod ticket;
mod tickets;

pub use access::{Access, FIRST_SLOT, Made, READ_PLACE, Seen, Step, WRITE_PLACE, word_place};
pub use aql_packet::is_invalid;
pub use calls::has_room;
pub use laws::{
    law_each_part_follows_from_its_own_steps, law_each_retired_packet_is_its_tickets,
    law_each_step_keeps_the_rule, law_every_run_meets_the_rule, law_numbers_are_those_of_the_rules,
    law_ring_sizes_are_bounded,
};
pub use log::Log;
pub use part::{ALLOWANCE, ProcessorPart, ProducerPart, SeatPart};
pub use state::{
    Look, MOST_PRODUCERS, ReplayFault, RingState, StepFault, is_producer_count, judged_size,
    opening_words, replay,
};
pub use ticket::{HeldTicket, Ticket, TicketChange};
pub use tickets::Tickets;
