//! The laws of the grammar: what the reader reads is what the grammar spells.

ghost use Rattle.std.specs.Prelude.{◌≡◌, ℕ, List, true, Ok};
ghost use Rattle.hsail_reader.specs.Grammar.{SpellModule, IsTextOf};
ghost use Rattle.hsail_reader.specs.RowOperations.{AreOfRows};
ghost use Rattle.hsail_reader.specs.Sample.{sample, sample_module};
ghost use Rattle.hsail_reader.specs.Syntax.{module_at, reading};
ghost use Rattle.hsail_reader.specs.TextTokens.{AreTokens, PlacedToken};
ghost use Rattle.hsail_reader.specs.Tokens.{tokens_of};
ghost use Rattle.hsail_reader.specs.WordSpelling.{SpellsWord, stands_in_modules};
ghost use Rattle.hsail_reader.specs.Words.{word_of};
ghost use Rattle.hsail_reader.specs.declared.module.Module.{Module};
ghost use Rattle.hsail_reader.specs.declared.words.Word.{Word};

/// A text is read as a word just where it spells the word. It does nothing.
pub fn words_are_read_as_spelled()
    ensures read { (w : Word) (text : List ℕ) → SpellsWord w text → word_of text ≡ w }
    ensures spelled { (w : Word) (text : List ℕ) → word_of text ≡ w → stands_in_modules w ≡ true → SpellsWord w text }
{}

/// A text is cut into tokens just where these are its tokens by their spelling. It does nothing.
pub fn texts_are_cut_as_spelled()
    ensures cut { (text : List ℕ) (tokens : List PlacedToken) → AreTokens 0 1 text tokens → tokens_of text ≡ Ok tokens }
    ensures spelled { (text : List ℕ) (tokens : List PlacedToken) → tokens_of text ≡ Ok tokens → AreTokens 0 1 text tokens }
{}

/// Tokens are read as a module just where they spell it. It does nothing.
pub fn modules_are_read_as_spelled()
    ensures read { (tokens : List PlacedToken) (m : Module) → SpellModule tokens m → module_at tokens ≡ Ok m }
    ensures spelled { (tokens : List PlacedToken) (m : Module) → module_at tokens ≡ Ok m → SpellModule tokens m }
{}

/// A text is read as a module just where the grammar has it as a text of that module; it is a text of
/// one module at most; and there are texts of modules. It does nothing.
pub fn texts_are_read_as_spelled()
    ensures read { (text : List ℕ) (m : Module) → IsTextOf text m → reading text ≡ Ok m }
    ensures spelled { (text : List ℕ) (m : Module) → reading text ≡ Ok m → IsTextOf text m }
    ensures one { (text : List ℕ) (a b : Module) → IsTextOf text a → IsTextOf text b → a ≡ b }
    ensures some { IsTextOf sample sample_module }
{}

/// All operations of a module are of rows of the table, where a text spells the module. It does nothing.
pub fn spelled_operations_are_of_rows()
    ensures { (text : List ℕ) (m : Module) → IsTextOf text m → AreOfRows m }
{}
