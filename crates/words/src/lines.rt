//! The words of a line.

ghost use Rattle.std.specs.Prelude.{◌≡◌, ◌<◌, ◌∷◌, [], length, MatchOption, option_map, option_copied, bytes_eq, slice_index, false};
ghost use Rattle.words.specs.Lines.{is_blank, words, no_words, one_word, two_words, three_words, four_words, five_words};

/// Whether a byte stands between words.
pub fn is_blank(byte: u8) -> bool
    ensures { result ≡ is_blank byte }
{
    byte == b' ' || byte == b'\t' || byte == b'\r'
}

/// A line from its first word on.
pub fn skip_blanks(line: &[u8]) -> &[u8]
    ensures words { words result.now ≡ words line.now }
    ensures begins { 0 < length result.now → is_blank (slice_index result.now 0) ≡ false }
{
    for (index, byte) in line.iter().enumerate() {
        if !is_blank(*byte) {
            return line.split_at(index).1;
        }
    }
    &[]
}

/// The first word of a line, and what comes after it.
pub fn split_word(line: &[u8]) -> Option<(&[u8], &[u8])>
    ensures { MatchOption result (words line.now ≡ []) (λ found. words line.now ≡ found.0.now ∷ words found.1.now) }
{
    let text = skip_blanks(line);
    if text.is_empty() {
        return None;
    }
    for (index, byte) in text.iter().enumerate() {
        if is_blank(*byte) {
            return Some(text.split_at(index));
        }
    }
    Some((text, &[]))
}

/// Whether a word is spelled so.
pub fn is_word(word: &[u8], spelled: &str) -> bool
    ensures { result ≡ bytes_eq word.now spelled.now }
{
    word == spelled.as_bytes()
}

/// Whether there is no word.
pub fn no_words(line: &[u8]) -> bool
    ensures { result ≡ no_words (words line.now) }
{
    skip_blanks(line).is_empty()
}

/// The only word.
pub fn one_word(line: &[u8]) -> Option<&[u8]>
    ensures { option_copied result ≡ one_word (words line.now) }
{
    let (word, rest) = split_word(line)?;
    if no_words(rest) { Some(word) } else { None }
}

/// Just two words.
pub fn two_words(line: &[u8]) -> Option<(&[u8], &[u8])>
    ensures { option_map (λ found. (found.0.now, found.1.now)) result ≡ two_words (words line.now) }
{
    let (first, rest) = split_word(line)?;
    let second = one_word(rest)?;
    Some((first, second))
}

/// Just three words.
pub fn three_words(line: &[u8]) -> Option<(&[u8], &[u8], &[u8])>
    ensures { option_map (λ found. (found.0.now, found.1.now, found.2.now)) result ≡ three_words (words line.now) }
{
    let (first, rest) = split_word(line)?;
    let (second, third) = two_words(rest)?;
    Some((first, second, third))
}

/// Just four words.
pub fn four_words(line: &[u8]) -> Option<(&[u8], &[u8], &[u8], &[u8])>
    ensures { option_map (λ found. (found.0.now, found.1.now, found.2.now, found.3.now)) result ≡ four_words (words line.now) }
{
    let (first, rest) = split_word(line)?;
    let (second, third, fourth) = three_words(rest)?;
    Some((first, second, third, fourth))
}

/// Just five words.
pub fn five_words(line: &[u8]) -> Option<(&[u8], &[u8], &[u8], &[u8], &[u8])>
    ensures { option_map (λ found. (found.0.now, found.1.now, found.2.now, found.3.now, found.4.now)) result ≡ five_words (words line.now) }
{
    let (first, rest) = split_word(line)?;
    let (second, third, fourth, fifth) = four_words(rest)?;
    Some((first, second, third, fourth, fifth))
}
