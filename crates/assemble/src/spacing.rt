//! Words with a blank after each, as the lines of scripts have them.

ghost use Rattle.std.specs.Prelude.{◌≡◌, ◌++◌, ◌∷◌, [], OnOk};

use std::alloc::AllocError;

/// Puts a word and a blank after a text.
pub fn put_word(out: &mut Vec<u8>, word: &[u8]) -> Result<(), AllocError>
    ensures { OnOk result (out.new.items ≡ out.old.items ++ (word.now ++ 32 ∷ [])) }
{
    out.extend_from_slice(word)?;
    Ok(out.push(b' ')?)
}
