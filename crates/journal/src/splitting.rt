//! The words of a line, of which each but the first stands behind one blank.

ghost use Rattle.std.specs.Prelude.{◌≡◌, ◌∷◌, [], bytes_eq, option_map};
ghost use Rattle.journal.specs.Words.{is_blank, word_at, words_behind, words_from, seen};

/// What stands behind a blank; nothing, where no blank is left. It may be no byte, which is an empty word.
pub type Rest<'a> = Option<&'a [u8]>;

// Whether a byte stands between words: a blank, or a line feed.
fn is_blank(byte: u8) -> bool
    ensures { result ≡ is_blank byte }
{
    byte == b' ' || byte == b'\n'
}

/// What stands before the first blank, and what stands behind it where there is one.
pub fn split_word(text: &[u8]) -> (&[u8], Rest)
    ensures { words_from [] text.now ≡ result.0.now ∷ words_behind result.1 }
{
    for (index, byte) in text.iter().enumerate() {
        if is_blank(*byte) {
            let (word, further) = text.split_at(index);
            return (word, Some(further.split_at(1).1));
        }
    }
    (text, None)
}

/// The next word, with what stands behind it.
pub fn next_word(rest: Rest) -> Option<(&[u8], Rest)>
    ensures { option_map (λ read. (read.0.now, words_behind read.1)) result ≡ word_at (words_behind rest.entry) }
{
    match rest {
        Some(text) => Some(split_word(text)),
        None => None,
    }
}

/// Whether a word is spelled so.
pub fn is_word(word: &[u8], spelled: &str) -> bool
    ensures { result ≡ bytes_eq word.now spelled.now }
{
    word == spelled.as_bytes()
}
