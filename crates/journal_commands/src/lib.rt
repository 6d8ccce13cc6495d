//! What the commands on journals do, apart from the command line itself.
#![tactic(auto)]

mod drawing;
mod fault;
mod lines;
mod policies;
mod reading;
mod replaying;
mod state;
mod telling;
mod writing;

pub use drawing::draw_journal;
pub use policies::JournalPolicies;
pub use replaying::replay_journal;
pub use telling::tell_journal;
pub use writing::{JournalFault, JournalWriter};
