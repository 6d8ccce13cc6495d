//! The journal: the full text form of a history, which anyone can read again.
#![tactic(auto)]

mod chain;
mod digits;
mod events;
mod faults;
mod fitting;
mod heads;
mod laws;
mod outcomes;
mod reading;
mod spelling;
mod splitting;
mod writing;

pub use chain::{Chain, Head, entry_line_fault, read_entry_line, write_entry_line};
pub use faults::{HeadFault, LineCause, LineFault};
pub use fitting::{entries_fit, entry_fits, histories_are_told_apart, line_is_read_back};
pub use heads::{chain_behind, is_end, read_head, write_end, write_head};
pub use laws::{
    law_journals_are_told_apart, law_unread_lines_have_a_fault, law_written_entries_are_read,
    law_written_heads_and_ends_are_read, law_written_lines_are_read,
};
pub use outcomes::read_entry;
pub use writing::{write_entry, write_outcome, write_result};
