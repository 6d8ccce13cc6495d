//! AQL packets: their layout, read and written exactly.

// The check tries its tactics on what is left of each proof.
#![tactic(auto)]

mod ids;
mod laws;
mod memory;
mod numbers;
mod packet;
mod reading;
mod ring;
mod words;
mod writing;

pub use ids::{
    Address, AgentHandle, ClientId, KernelObject, PacketId, QueueId, RegionHandle, SignalHandle,
};
pub use laws::{
    law_header_in_first_word, law_numbers_are_those_of_the_rules, law_one_spelling,
    law_reading_is_layout, law_words_and_bytes_are_inverse,
};
pub use memory::{MOST_REGION_BYTES, MOST_REGIONS, REGION_SPAN};
pub use packet::{
    AgentDispatch, Barrier, CodecRule, Header, KernelDispatch, Packet, RawHeader, Scope,
};
pub use reading::{decode, header_of};
pub use ring::{INVALID, RING_SIZES, is_ring_size};
pub use words::{bytes_of, is_invalid, words_of};
pub use writing::encode;
