//! Lines of a file, their words, and numbers in these.

ghost use Rattle.std.specs.Prelude.{◌≡◌, ◌+◌, ◌<◌, ◌≤◌, ◌∷◌, [], IfSome, length, take, drop, bytes_eq};
ghost use Rattle.session.specs.Lines.{lines_from, lines_behind, before, is_blank, is_letter, word_at, word_from, word_behind, bytes_of_word, digit_of, with_digit, number_from, decimal_of, quarter, digest_of};

/// Where a word of a line stands: its first byte's place, from 0, and how many bytes it has; none where the line has no more.
#[derive(Clone, Copy)]
pub struct Word {
    pub start: usize,
    pub length: usize,
}

/// A digest of 256 bits, as four numbers of 64, the first one the first.
#[derive(Clone, Copy)]
pub struct Digest {
    pub first: u64,
    pub second: u64,
    pub third: u64,
    pub fourth: u64,
}

/// What stands before the first line feed, and what stands behind it where there is one.
pub fn split_line(text: &[u8]) -> (&[u8], Option<&[u8]>)
    ensures lines { lines_from [] text.now ≡ result.0.now ∷ lines_behind result.1 }
    ensures shorter { IfSome result.1 (λ further. length further.now < length text.now) }
{
    for (index, byte) in text.iter().enumerate() {
        if *byte == b'\n' {
            let (line, further) = text.split_at(index);
            return (line, Some(further.split_at(1).1));
        }
    }
    (text, None)
}

// Whether a byte stands between words.
fn is_blank(byte: u8) -> bool
    ensures { result ≡ is_blank byte }
{
    byte == b' ' || byte == b'\t' || byte == b'\r'
}

// Whether a byte belongs to a word.
fn is_letter(byte: u8) -> bool
    ensures { result ≡ is_letter byte }
{
    !is_blank(byte)
}

// How many bytes come before the first letter.
fn before_letter(bytes: &[u8]) -> usize
    ensures value { result ≡ before is_letter bytes.now }
    ensures within { result ≤ length bytes.now }
{
    for (index, byte) in bytes.iter().enumerate() {
        if is_letter(*byte) {
            return index;
        }
    }
    bytes.len()
}

// How many bytes come before the first blank.
fn before_blank(bytes: &[u8]) -> usize
    ensures value { result ≡ before is_blank bytes.now }
    ensures within { result ≤ length bytes.now }
{
    for (index, byte) in bytes.iter().enumerate() {
        if is_blank(*byte) {
            return index;
        }
    }
    bytes.len()
}

/// The first word of a line from a place on.
pub(crate) fn word_from(line: &[u8], place: usize) -> Word
    requires { place ≤ length line.now }
    ensures value { result ≡ word_from line.now place }
    ensures within { result.start + result.length ≤ length line.now }
{
    let start = place + before_letter(line.split_at(place).1);
    Word {
        start,
        length: before_blank(line.split_at(start).1),
    }
}

/// The first word of a line behind another.
pub(crate) fn word_behind(line: &[u8], word: Word) -> Word
    requires { word.start + word.length ≤ length line.now }
    ensures value { result ≡ word_behind line.now word }
    ensures within { result.start + result.length ≤ length line.now }
{
    word_from(line, word.start + word.length)
}

/// The bytes of a word.
pub(crate) fn bytes_of_word(line: &[u8], word: Word) -> &[u8]
    requires { word.start + word.length ≤ length line.now }
    ensures { result.now ≡ bytes_of_word line.now word }
{
    line.split_at(word.start).1.split_at(word.length).0
}

/// Whether a word is spelled so.
pub(crate) fn is_word(word: &[u8], spelled: &str) -> bool
    ensures { result ≡ bytes_eq word.now spelled.now }
{
    word == spelled.as_bytes()
}

// The value of a digit.
fn digit_of(byte: u8) -> Option<u8>
    ensures { result ≡ digit_of byte }
{
    if 48 <= byte && byte <= 57 {
        Some(byte - 48)
    } else if 97 <= byte && byte <= 102 {
        Some(byte - 87)
    } else {
        None
    }
}

// A number with a further digit of a base.
fn with_digit(base: u8, number: u64, digit: Option<u8>) -> Option<u64>
    ensures { result ≡ with_digit base number digit }
{
    match digit {
        None => None,
        Some(digit) => {
            if digit >= base {
                return None;
            }
            let next = number as u128 * base as u128 + digit as u128;
            if next < 1 << 64 {
                Some(next as u64)
            } else {
                None
            }
        }
    }
}

// The number that digits of a base stand for, behind those of a number.
#[tactic(auto, unfolding(crate::specs::Lines::number_from))]
fn number_from(base: u8, number: u64, digits: &[u8]) -> Option<u64>
    ensures { result ≡ number_from base number digits.now }
{
    match digits {
        [] => Some(number),
        [byte, rest @ ..] => match with_digit(base, number, digit_of(*byte)) {
            None => None,
            Some(next) => number_from(base, next, rest),
        },
    }
}

/// A decimal number of 64 bits.
pub(crate) fn decimal_of(word: &[u8]) -> Option<u64>
    ensures { result ≡ decimal_of word.now }
{
    if !word.is_empty() && word.len() <= 20 {
        number_from(10, 0, word)
    } else {
        None
    }
}

// 16 hexadecimal digits of a word, from a place on.
fn quarter(word: &[u8], place: usize) -> Option<u64>
    requires { place + 16 ≤ length word.now }
    ensures { result ≡ quarter word.now place }
{
    number_from(16, 0, word.split_at(place).1.split_at(16).0)
}

/// A digest of 64 hexadecimal digits.
pub(crate) fn digest_of(word: &[u8]) -> Option<Digest>
    ensures { result ≡ digest_of word.now }
{
    if word.len() != 64 {
        return None;
    }
    let first = quarter(word, 0)?;
    let second = quarter(word, 16)?;
    let third = quarter(word, 32)?;
    let fourth = quarter(word, 48)?;
    Some(Digest {
        first,
        second,
        third,
        fourth,
    })
}
