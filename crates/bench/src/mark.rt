//! What a measured packet holds: all of its words tell who sent it, and which of its packets it is.

use byteorder::{ByteOrder, LittleEndian};

/// The type of an agent dispatch packet, the low byte of the header (PSA, AQL packet header).
const AGENT_DISPATCH: u64 = 4;

/// What lies between two words of a packet that follow one another.
const STRIDE: u64 = 0x9E37_79B9_7F4A_7C15;

/// A packet as its producer numbers it.
#[derive(Clone, Copy, PartialEq, Eq)]
pub struct Mark {
    /// Below 256.
    pub producer: u64,
    /// Below 2^48.
    pub number: u64,
}

impl Mark {
    /// The packet's bytes: word 0 is the mark and the type, and each further word is another.
    pub fn bytes(self) -> [u8; 64] {
        let mut word = (self.number << 16) | (self.producer << 8) | AGENT_DISPATCH;
        let mut bytes = [0; 64];
        for place in 0..8 {
            LittleEndian::write_u64(bytes.split_at_mut(8 * place).1, word);
            word = word.wrapping_add(STRIDE);
        }
        bytes
    }

    /// The mark of a packet, if it is whole: all its words tell the same.
    pub fn read(bytes: &[u8; 64]) -> Option<Mark> {
        let first = LittleEndian::read_u64(bytes);
        let mark = Mark {
            producer: (first >> 8) % 256,
            number: first >> 16,
        };
        let mut word = first;
        let mut other = (first % 256) ^ AGENT_DISPATCH;
        for place in 0..8 {
            other |= word ^ LittleEndian::read_u64(bytes.split_at(8 * place).1);
            word = word.wrapping_add(STRIDE);
        }
        if other == 0 { Some(mark) } else { None }
    }
}
