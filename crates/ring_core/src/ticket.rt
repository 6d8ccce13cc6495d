//! What a producer knows of one id that it reserved.

ghost use Rattle.std.specs.Prelude.{◌≡◌, None, length, slice_set, Some, is_some, if◌then◌else◌};
ghost use Rattle.std.specs.List.{list_all};
ghost use Rattle.ring_core.specs.Words.{is_body, has_body, packet_of};
ghost use Rattle.ring_core.specs.Runs.{all_known};
ghost use Rattle.ring_core.specs.Tickets.{blank, is_published, shows_room};

use crate::calls::has_room;
use aql_packet::PacketId;

/// A reserved id, as its producer knows it: open until its header word is written, published from
/// then on.
#[derive(Clone, Copy, Debug, PartialEq, Eq)]
pub struct Ticket {
    /// The read index that its last look for room saw, if it looked.
    pub saw: Option<u64>,
    /// The eight words of its packet, as far as they are written. Word 0 is the header word.
    pub words: [Option<u64>; 8],
}

/// A ticket under its id.
#[derive(Clone, Copy, Debug, PartialEq, Eq)]
pub struct HeldTicket {
    pub id: PacketId,
    pub ticket: Ticket,
}

/// A change of a producer's tickets.
#[derive(Clone, Copy)]
pub enum TicketChange {
    /// An id was reserved: its ticket is open.
    Opened(PacketId),
    /// The ticket under an id saw the read index.
    Saw {
        ticket: PacketId,
        read_index: u64,
    },
    /// Word `place`, 0 to 7, of the ticket under an id was written.
    Wrote {
        ticket: PacketId,
        place: u64,
        word: u64,
    },
}

impl Ticket {
    /// A new ticket: nothing seen, nothing written.
    pub(crate) fn blank() -> Ticket
        ensures { result ≡ blank }
    {
        Ticket {
            saw: None,
            words: [None; 8],
        }
    }

    /// Whether its header word is written.
    pub fn is_published(&self) -> bool
        ensures { result ≡ is_published self.now }
    {
        self.words[0].is_some()
    }

    /// Whether the read index that it saw shows room, in a ring of this size, for the packet with
    /// this id.
    pub(crate) fn shows_room(&self, size: u64, id: PacketId) -> bool
        ensures { result ≡ shows_room size id.0 self.now.saw }
    {
        match self.saw {
            None => false,
            Some(read_index) => has_room(size, id, read_index),
        }
    }
}

/// Whether a number is the place of a body word, 1 to 7.
pub(crate) fn is_body(place: u64) -> bool
    ensures { result ≡ is_body place }
{
    1 <= place && place <= 7
}

/// Whether all seven body words are known.
pub(crate) fn has_body(words: &[Option<u64>; 8]) -> bool
    ensures { result ≡ has_body words.now }
{
    let (_header, body) = words.split_at(1);
    body.iter().all(|word| word.is_some())
}

/// The packet, once all its words are known.
pub(crate) fn whole(words: &[Option<u64>; 8]) -> Option<[u64; 8]>
    ensures { result ≡ (if list_all is_some words.now then Some (packet_of words.now) else None) }
{
    if is_whole(words) {
        Some(packet_of(words))
    } else {
        None
    }
}

// Does nothing: that a packet has eight words is said to callers by it.
pub(crate) fn law_eight_words(words: &[Option<u64>; 8])
    ensures { length words.now ≡ 8 }
{
    let _ = words;
}

// Whether all eight words are known.
fn is_whole(words: &[Option<u64>; 8]) -> bool
    ensures { result ≡ list_all is_some words.now }
{
    words.iter().all(|word| word.is_some())
}

/// The words with one of them known.
pub(crate) fn with_word(words: [Option<u64>; 8], place: u64, word: u64) -> [Option<u64>; 8]
    ensures { result ≡ slice_set words place (Some word) }
{
    let mut words = words;
    if place < 8 {
        words[place as usize] = Some(word);
    }
    words
}

/// The words, all known.
pub(crate) fn known(words: &[u64; 8]) -> [Option<u64>; 8]
    ensures { result ≡ all_known words.now }
{
    let mut all = [None; 8];
    for place in 0..8 {
        all[place] = Some(words[place]);
    }
    all
}

/// The words themselves, once all are known.
pub(crate) fn packet_of(words: &[Option<u64>; 8]) -> [u64; 8]
    ensures { result ≡ packet_of words.now }
{
    let mut packet = [0; 8];
    for place in 0..8 {
        packet[place] = words[place].unwrap_or(0);
    }
    packet
}
