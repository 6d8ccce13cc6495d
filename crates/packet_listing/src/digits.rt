//! The digits of a packet.

ghost use Rattle.std.specs.Prelude.{◌≡◌, ◌↔◌, length, IsSome, IfSome, Ok};
ghost use Rattle.std.specs.List.{AllPass};
ghost use Rattle.hex.specs.Hex.{decode_of, is_hex_digit};

use hex::FromHex;

/// The 64 bytes that 128 hexadecimal digits spell, two digits a byte, in the order of the bytes; none where the text is
/// something else (own: the form in which scripts have packets).
pub fn packet_of(text: &str) -> Option<[u8; 64]>
    ensures value { IfSome result (λ bytes. decode_of text.now ≡ Ok bytes) }
    ensures found { IsSome result ↔ ((length text.now ≡ 128) × AllPass is_hex_digit text.now) }
{
    <[u8; 64] as FromHex>::from_hex(text).ok()
}
