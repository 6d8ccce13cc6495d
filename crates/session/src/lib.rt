//! Sessions of processes that connect to a broker: which records they may send, what these ask, what is refused before the core
//! is asked, how often they may come, who is connected, and what is whose.
#![tactic(auto)]

mod call;
mod commands;
mod head;
mod judging;
mod laws;
mod limits;
mod lines;
mod pace;
mod requests;
mod rows;
mod table;
#[cfg(test)]
mod tests;
mod who;

pub use call::Call;
pub use commands::{Command, Permission, command_of};
pub use head::Head;
pub use judging::{Asker, OpenQueue, Verdict, has_fewer, judge, owner_of};
pub use laws::{
    law_a_gone_session_stays_gone, law_a_session_changes_by_its_own_calls, law_every_state_is_sound,
};
pub use limits::{ALL, Bounds, Limit, Limits};
pub use lines::{Digest, split_line};
pub use pace::Pace;
pub use requests::{Change, Greeting, Mirror, NewQueue, Part, Range, Request, request_of};
pub use rows::{Comer, OpenMirror, Places, Session};
pub use table::Table;
pub use who::{
    Cause, Entry, Fault, Kind, Place, Unread, client_of_token, client_of_user, keep_line,
    limits_of, text_of_limit,
};
