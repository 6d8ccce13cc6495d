//! Scripts: lines to requests of a world, replies to text, and the engine that runs a script.

// The check tries its tactics on what is left of each proof.
#![tactic(auto)]

mod command;
mod engine;
mod entries;
mod expansions;
mod fault;
mod forms;
mod laws;
mod lines;
mod operations;
mod refusals;
mod replies;
mod rights;
mod rules;
mod run;
mod session;
mod streams;
mod voice;
mod watch;
mod watchers;

pub use command::{Command, LineAnswer, LineReply, NumberMeaning};
pub use engine::{Plain, Style, answer};
pub use entries::{operation_name, write_entry};
pub use expansions::perform;
pub use fault::{RunFault, ScriptFault};
pub use forms::{Class, LineForm, Operand, line_forms};
pub use laws::{
    law_lines_are_of_forms, law_lines_give_their_text_back, law_numbers_are_those_of_the_rules,
    law_scripts_are_requests, watched_runs_are_requests,
};
pub use lines::{LONGEST_LINE, Line, read_line};
pub use refusals::{RefusalRow, refusal_name, refusal_number, refusal_rows};
pub use replies::{cause_name, write_line};
pub use rules::{Occasion, RuleRow, rule_rows};
pub use run::{run_script, run_watched};
pub use streams::{Noted, ReadAnswer, Sink, Source, WriteAnswer, flush_once, write_through};
pub use voice::{Silent, Text, Voice};
pub use watch::{Flow, Never, Turn, Watch};
pub use watchers::{Both, Either, Nobody, NotDone, Strict, strictly};
pub use words::{law_numbers_are_sums_of_their_digits, split_word};
