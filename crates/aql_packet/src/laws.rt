//! Laws of the packet layout, proved as contracts of calls that do nothing.

ghost use Rattle.aql_packet.specs.Layout.{Are64Bytes, PacketOf};
ghost use Rattle.aql_packet.specs.Memory.{most_region_bytes, most_regions, region_span};
ghost use Rattle.aql_packet.specs.Numbers.{bits, number_at};
ghost use Rattle.aql_packet.specs.Reading.{barrier_bit, decoded, packet_type};
ghost use Rattle.aql_packet.specs.Kinds.{invalid_type};
ghost use Rattle.aql_packet.specs.Ring.{ring_sizes};
ghost use Rattle.aql_packet.specs.Words.{AreEightWords, bytes_of, words_of};
ghost use Rattle.aql_packet.specs.declared.memory.TheConstants.{MOST_REGION_BYTES, MOST_REGIONS, REGION_SPAN};
ghost use Rattle.aql_packet.specs.declared.ring.TheConstants.{INVALID, RING_SIZES};
ghost use Rattle.std.specs.Prelude.{List, Some, ℕ, ◌==◌, ◌≡◌};

use crate::packet::Packet;

/// Bytes that lay out the same packet are the same: a packet has one spelling.
pub fn law_one_spelling()
    ensures { (one two : List ℕ) (packet : Packet)
        → PacketOf one packet → PacketOf two packet → one ≡ two }
{}

/// The reading of bytes as a function is the layout: it finds a packet exactly where they lay it
/// out.
pub fn law_reading_is_layout()
    ensures laid { (bytes : List ℕ) (packet : Packet)
        → PacketOf bytes packet → decoded bytes ≡ Some packet }
    ensures read { (bytes : List ℕ) (packet : Packet)
        → decoded bytes ≡ Some packet → PacketOf bytes packet }
{}

/// The type and the barrier bit of a packet are those of its first word, its first eight bytes.
pub fn law_header_in_first_word()
    ensures kind { (bytes : List ℕ) → Are64Bytes bytes
        → bits (number_at bytes 0 8) 7 0 ≡ packet_type bytes }
    ensures barrier { (bytes : List ℕ) → Are64Bytes bytes
        → (bits (number_at bytes 0 8) 8 8 == 1) ≡ barrier_bit bytes }
{}

/// A packet's words and its bytes tell each other.
pub fn law_words_and_bytes_are_inverse()
    ensures words { (words : List ℕ) → AreEightWords words → words_of (bytes_of words) ≡ words }
    ensures bytes { (bytes : List ℕ) → Are64Bytes bytes → bytes_of (words_of bytes) ≡ bytes }
{}

/// The code's numbers of regions and of rings are those of the rules.
pub fn law_numbers_are_those_of_the_rules()
    ensures span { REGION_SPAN ≡ region_span }
    ensures regions { MOST_REGIONS ≡ most_regions }
    ensures region_bytes { MOST_REGION_BYTES ≡ most_region_bytes }
    ensures sizes { RING_SIZES ≡ ring_sizes }
    ensures invalid { INVALID ≡ invalid_type }
{}
