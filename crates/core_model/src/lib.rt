//! What the broker's core is asked, what it answers, and what it owes: the calls as values, the
//! audit's entries, and in `specs/` the meaning of every call as a function of the history alone.
#![tactic(auto)]

mod answer;
mod bytes;
mod call;
mod effects;
mod entry;
mod event;
mod flight;
mod kernel;
mod laws;
mod limits;
mod need;
mod origin;
mod outcome;
mod part;
mod refusal;
mod served;

pub use answer::{Answer, Reply};
pub use bytes::Bytes;
pub use call::Call;
pub use effects::Effects;
pub use entry::{Effect, Entry};
pub use event::{CoreRequest, Event, Query};
pub use flight::{InFlight, LAUNCH_PROGRESS, Progress};
pub use kernel::KernelSegments;
pub use laws::{
    law_audits_keep_room_for_packets_in_flight, law_calls_without_their_right_are_denied,
    law_closed_queues_stay_gone, law_denials_name_the_first_rule, law_each_close_releases_all,
    law_each_completion_comes_after_the_work, law_each_grant_is_allowed,
    law_each_host_call_was_granted, law_each_launch_was_granted, law_each_listed_right_is_in_force,
    law_each_look_at_a_signal_is_granted, law_each_packet_is_taken_in_turn,
    law_each_poll_is_by_the_signals, law_each_queue_is_its_openers,
    law_each_read_of_a_client_is_granted, law_each_read_of_a_group_was_granted,
    law_each_release_is_due, law_each_right_in_force_is_allowed,
    law_each_signal_change_was_granted, law_each_write_was_granted, law_faults_release_alone,
    law_groups_depend_on_what_they_read, law_held_rights_are_in_force,
    law_histories_go_on_from_their_states, law_joined_parts_are_legal,
    law_nothing_is_told_of_what_is_not_there, law_numbers_are_those_of_the_rules, law_of_flight,
    law_parts_lead_to_whole_histories, law_refusals_change_nothing,
    law_rotations_hand_out_legal_parts, law_serving_keeps_a_history_legal,
    law_taken_ids_go_on_from_the_start, law_what_leaves_flight_finds_room,
    law_whole_histories_begin_at_an_opening,
};
pub use limits::{
    ALL_IN_FLIGHT, MOST_BEFORE, MOST_ENTRIES, MOST_HOST_BYTES, MOST_IN_FLIGHT, QUEUES,
};
pub use need::{ADD64, AgentFunction, COPY, FILL, Need, Range, Subject};
pub use origin::{Opening, Origin, PacketOrigin, QueueOrigin};
pub use outcome::{NONE_SATISFIED, Outcome, Polled, Satisfied, Taken, WaitCause, Worked};
pub use part::{JoinFault, NotJoined, Part, join, lead_to};
pub use refusal::Refusal;
pub use served::Served;
