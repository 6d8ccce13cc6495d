//! Packets and their words, as bytes in hexadecimal digits.

ghost use Rattle.std.specs.Prelude.{◌≡◌, ◌++◌, ◌+◌, ◌≤◌, IfOk, OnOk, length, option_and_then, string_bytes};
ghost use Rattle.std.specs.Option.{is_some};
ghost use Rattle.words.specs.Lines.{one_word, words};
ghost use Rattle.words.specs.Packets.{word_at, eight_bytes, words_of, packet_bytes, packet_word, text_of_word};

use crate::hexadecimal::{are_bytes, bytes, write_bytes};
use crate::lanes::{lay_sixteen, sixteen_bytes};
use crate::lines::{one_word, skip_blanks};
use byteorder::{ByteOrder, LittleEndian};
use std::alloc::{AllocError, Global};

// The word in the eight bytes from a place on, the lowest byte first (PSA, Architected Queuing Language).
fn word_at(bytes: &[u8], place: usize) -> u64
    requires { place + 8 ≤ length bytes.now }
    ensures { result ≡ word_at bytes.now place }
{
    LittleEndian::read_u64(bytes.split_at(place).1)
}

/// A packet's word: eight bytes.
pub fn packet_word(alloc: Global, word: &[u8]) -> Result<Option<u64>, AllocError>
    ensures { IfOk result (λ read. read ≡ eight_bytes word.now) }
{
    let Some(bytes) = bytes(alloc, word)? else {
        return Ok(None);
    };
    if bytes.len() != 8 {
        return Ok(None);
    }
    Ok(Some(word_at(bytes.as_slice(), 0)))
}

// The words of a packet's 64 bytes.
fn words_of(bytes: &[u8]) -> [u64; 8]
    requires { length bytes.now ≡ 64 }
    ensures { result ≡ words_of bytes.now }
{
    [
        word_at(bytes, 0),
        word_at(bytes, 8),
        word_at(bytes, 16),
        word_at(bytes, 24),
        word_at(bytes, 32),
        word_at(bytes, 40),
        word_at(bytes, 48),
        word_at(bytes, 56),
    ]
}

/// Whether a word is a packet's word: eight bytes.
pub fn is_packet_word(word: &[u8]) -> bool
    ensures { result ≡ is_some (eight_bytes word.now) }
{
    are_bytes(word) & (word.len() == 16)
}

// A packet's bytes: just 64. Thirty-two digits are read at a time.
fn packet_bytes(word: &[u8]) -> Option<[u8; 64]>
    ensures { result ≡ packet_bytes word.now }
{
    if word.len() != 128 {
        return None;
    }
    let mut bytes = [0; 64];
    for part in 0..4 {
        let Some(read) = sixteen_bytes(&word[32 * part..32 * part + 32]) else {
            return None;
        };
        lay_sixteen(&mut bytes, 16 * part, read);
    }
    Some(bytes)
}

/// A packet: its eight words, of 64 bytes.
pub fn packet(word: &[u8]) -> Option<[u64; 8]>
    ensures { result ≡ packet_word word.now }
{
    Some(words_of(&packet_bytes(word)?))
}

/// The packet that is the only word of a line. Mostly its digits are all that is left of the line, and no end of a word
/// is looked for.
pub fn only_packet(line: &[u8]) -> Option<[u64; 8]>
    ensures { result ≡ option_and_then packet_word (one_word (words line.now)) }
{
    match packet(skip_blanks(line)) {
        Some(words) => Some(words),
        None => packet(one_word(line)?),
    }
}

/// Writes a packet's word, as its eight bytes: the lowest first (PSA, Architected Queuing Language).
#[tactic(auto, unfolding(crate::specs::Packets::text_of_word))]
pub fn write_word(out: &mut String, word: u64) -> Result<(), AllocError>
    ensures { OnOk result (string_bytes out.new ≡ string_bytes out.old ++ text_of_word word) }
{
    let mut bytes = [0; 8];
    LittleEndian::write_u64(&mut bytes, word);
    write_bytes(out, &bytes)
}
