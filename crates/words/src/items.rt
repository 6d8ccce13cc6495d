//! The items of a word, which commas part.

ghost use Rattle.std.specs.Prelude.{◌≡◌, ◌∷◌, [], ◌<◌, IfSome, length};
ghost use Rattle.words.specs.Items.{items_from, items_behind};

/// What stands before the first comma, and what stands after it where there is one.
pub fn split_item(word: &[u8]) -> (&[u8], Option<&[u8]>)
    ensures items { items_from [] word.now ≡ result.0.now ∷ items_behind result.1 }
    ensures shorter { IfSome result.1 (λ further. length further.now < length word.now) }
{
    for (index, byte) in word.iter().enumerate() {
        if *byte == b',' {
            let (item, further) = word.split_at(index);
            return (item, Some(further.split_at(1).1));
        }
    }
    (word, None)
}
