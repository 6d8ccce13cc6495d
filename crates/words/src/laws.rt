//! What the numbers of words come to, as a law of their definitions.

ghost use Rattle.std.specs.Prelude.{◌≡◌, ℕ, List, Some};
ghost use Rattle.words.specs.Lines.{Word};
ghost use Rattle.words.specs.Numbers.{address_word, decimal_word, digits_of, sum_of_digits};

/// A word that is read as a number is read as the sum of its digits, each times the power of its place.
pub fn law_numbers_are_sums_of_their_digits()
    ensures decimal { (word : List ℕ) (number : ℕ) → decimal_word word ≡ Some number → number ≡ sum_of_digits 10 (digits_of word) }
    ensures address { (word : List ℕ) (number : ℕ) → address_word word ≡ Some number → number ≡ sum_of_digits 16 (digits_of word) }
{}
