//! A packet's 64 bytes in words: each field by its name, with its place and its value, and the first of the rules L1 to
//! L3 that they break. What a packet is, `aql_packet` alone says: its decoding is asked, and never made again.

// The check tries its tactics on what is left of each proof.
#![tactic(auto)]

mod digits;
mod field;
mod layouts;
mod telling;

pub use digits::packet_of;
pub use field::{Field, FieldForm, value_of};
pub use layouts::{layout_of, type_name};
pub use telling::{first_failing, is_slot_empty, push_fields, push_verdict};
