//! What holds of every text that is escaped.

ghost use Rattle.std.specs.Prelude.{◌≡◌, ℕ, List, false};
ghost use Rattle.std.specs.List.{list_any};
ghost use Rattle.picture.specs.Escaping.{escaped, is_markup};

/// An escaped text begins and ends no markup, whatever the text is.
pub fn law_escaped_text_has_no_markup()
    ensures { (text : List ℕ) → list_any is_markup (escaped text) ≡ false }
{}
