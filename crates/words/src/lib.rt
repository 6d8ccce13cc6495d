//! The words of a line, and what single words stand for: numbers, bytes, packets and names, as they are read and as they
//! are written.

// The check tries its tactics on what is left of each proof.
#![tactic(auto)]

mod addresses;
mod digits;
mod errors;
mod hexadecimal;
mod items;
mod lanes;
mod laws;
mod lines;
mod names;
mod numbers;
mod packets;

pub use addresses::{address, put_address, write_address};
pub use errors::write_broken;
pub use hexadecimal::{are_bytes, bytes, put_bytes, write_bytes};
pub use items::split_item;
pub use laws::law_numbers_are_sums_of_their_digits;
pub use lines::{
    five_words, four_words, is_blank, is_word, no_words, one_word, skip_blanks, split_word,
    three_words, two_words,
};
pub use names::{client_name, object_name, write_client, write_object};
pub use numbers::{decimal, natural, only_decimal, signed, split_decimal};
pub use packets::{is_packet_word, only_packet, packet, packet_word, write_word};
