//! Packets: which of their words aren't zero, and these as numbers.

ghost use Rattle.std.specs.Prelude.{◌≡◌, ◌++◌, ◌+◌, ◌*◌, ◌≤◌, ◌<◌, ◌==◌, length, vec_capacity, vec_len, if◌then◌else◌};
ghost use Rattle.packed_journal.specs.Words.{Packet, appended, mask_of, packed, packed_full, packed_words};
ghost use Rattle.packed_journal.specs.Readings.{reads, read_full, read_packet, read_word, read_words};

use crate::numbers::put_number;
use crate::unread::{Unread, read_number, read_tag, wrong};
use aql_packet::{bytes_of, words_of};
use std::alloc::AllocError;

// The bit of a word of a packet.
fn mask_bit(word: u64) -> u8
    ensures value { result ≡ (if word == 0 then 0 else 1) }
    ensures few { result < 2 }
{
    if word == 0 { 0 } else { 1 }
}

// Which of a packet's words aren't zero.
#[tactic(auto, unfolding(crate::specs::Words::mask_of))]
fn mask_of(words: &[u64; 8]) -> u8
    ensures { result ≡ mask_of words.now }
{
    let [a, b, c, d, e, f, g, h] = *words;
    let last = mask_bit(e) + 2 * (mask_bit(f) + 2 * (mask_bit(g) + 2 * mask_bit(h)));
    mask_bit(a) + 2 * (mask_bit(b) + 2 * (mask_bit(c) + 2 * (mask_bit(d) + 2 * last)))
}

// Puts a word of a packet, if it isn't zero.
fn put_full(out: &mut Vec<u8>, word: u64)
    requires { vec_len out.old + 10 ≤ vec_capacity out.old }
    ensures items { out.new.items ≡ out.old.items ++ packed_full word }
    ensures len { vec_len out.new ≤ vec_len out.old + 10 }
    ensures capacity { vec_capacity out.new ≡ vec_capacity out.old }
{
    if word != 0 {
        put_number(out, word);
    }
}

// Puts those words of a packet that aren't zero.
fn put_words(out: &mut Vec<u8>, words: &[u64])
    requires { vec_len out.old + 10 * length words.now ≤ vec_capacity out.old }
    ensures items { out.new.items ≡ out.old.items ++ packed_words words.now }
{
    for word in words {
        put_full(out, *word);
    }
}

/// Writes a packet: which of its words aren't zero, and these. Where memory is refused nothing changes.
pub fn write_packet(out: &mut Vec<u8>, bytes: &[u8; 64]) -> Result<(), AllocError>
    ensures { out.new.items ≡ appended result out.old.items (packed (Packet bytes.now)) }
{
    out.reserve(81)?;
    let words = words_of(bytes);
    out.push_reserved(mask_of(&words));
    put_words(out, &words);
    Ok(())
}

// Reads a number that isn't zero.
fn read_full(bytes: &[u8]) -> Result<(u64, &[u8]), Unread>
    ensures { reads result ≡ read_full bytes.now }
{
    let (word, rest) = read_number(bytes)?;
    if word == 0 {
        Err(wrong(bytes))
    } else {
        Ok((word, rest))
    }
}

// Reads a word of a packet, of its bit.
fn read_word(bit: u8, bytes: &[u8]) -> Result<(u64, &[u8]), Unread>
    ensures { reads result ≡ read_word bit bytes.now }
{
    if bit == 0 {
        Ok((0, bytes))
    } else {
        read_full(bytes)
    }
}

// Reads the words of a packet, of their bits.
fn read_words(mask: u8, bytes: &[u8]) -> Result<([u64; 8], &[u8]), Unread>
    ensures { reads result ≡ read_words 8 mask bytes.now }
{
    let mut words = [0; 8];
    let mut left = mask;
    let mut rest = bytes;
    for place in 0..8 {
        let (word, behind) = match read_word(left % 2, rest) {
            Ok(read) => read,
            Err(why) => return Err(why),
        };
        words[place] = word;
        left = left / 2;
        rest = behind;
    }
    if left == 0 {
        Ok((words, rest))
    } else {
        Err(wrong(rest))
    }
}

/// Reads a packet's 64 bytes.
pub fn read_packet(bytes: &[u8]) -> Result<([u8; 64], &[u8]), Unread>
    ensures { reads result ≡ read_packet bytes.now }
{
    let (mask, rest) = read_tag(bytes)?;
    let (words, rest) = read_words(mask, rest)?;
    Ok((bytes_of(&words), rest))
}
