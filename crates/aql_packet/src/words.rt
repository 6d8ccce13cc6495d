//! A packet's 64 bytes as eight words of 64 bits, both ways (PSA, Architected Queuing Language: packets
//! are little-endian).

ghost use Rattle.aql_packet.specs.Words.{bytes_of, is_invalid, words_of};
ghost use Rattle.std.specs.Prelude.{◌≡◌};

use crate::numbers::{put_u64, u64_at};
use crate::reading::header_of;
use crate::ring::INVALID;

/// The eight words of a packet.
pub fn words_of(bytes: &[u8; 64]) -> [u64; 8]
    ensures { result ≡ words_of bytes.now }
{
    [
        u64_at(bytes, 0),
        u64_at(bytes, 8),
        u64_at(bytes, 16),
        u64_at(bytes, 24),
        u64_at(bytes, 32),
        u64_at(bytes, 40),
        u64_at(bytes, 48),
        u64_at(bytes, 56),
    ]
}

/// The packet with these eight words.
pub fn bytes_of(words: &[u64; 8]) -> [u8; 64]
    ensures value { result ≡ bytes_of words.now }
    ensures back { words_of result ≡ words.now }
{
    let mut bytes = [0; 64];
    put_u64(&mut bytes, 0, words[0]);
    put_u64(&mut bytes, 8, words[1]);
    put_u64(&mut bytes, 16, words[2]);
    put_u64(&mut bytes, 24, words[3]);
    put_u64(&mut bytes, 32, words[4]);
    put_u64(&mut bytes, 40, words[5]);
    put_u64(&mut bytes, 48, words[6]);
    put_u64(&mut bytes, 56, words[7]);
    bytes
}

/// Whether a packet's first word, which has its header, has the type INVALID.
pub fn is_invalid(word: u64) -> bool
    ensures { result ≡ is_invalid word }
{
    header_of(word).kind == INVALID
}
