//! The laws of a journal.

ghost use Rattle.std.specs.Prelude.{◌≡◌, ◌++◌, ◌∷◌, ◌*◌, ◌+◌, ◌-◌, ◌<◌, ◌≤◌, ◌^◌, ℕ, List, Err, Ok, Some, Option, length, map, true, false};
ghost use Rattle.core_model.specs.declared.entry.Entry.{Entry};
ghost use Rattle.packed_journal.specs.declared.heads.Head.{Head};
ghost use Rattle.packed_journal.specs.declared.stepping.Step.{Step};
ghost use Rattle.packed_journal.specs.declared.stepping.Step.TheVariants as step;
ghost use Rattle.packed_journal.specs.declared.stepping.Halt.TheVariants as halt;
ghost use Rattle.packed_journal.specs.Readings.{fit};
ghost use Rattle.packed_journal.specs.Journals.{Place, body, forms_of, is_full, journal, words_of_head};
ghost use Rattle.packed_journal.specs.JournalReadings.{Told, all_fit, bytes_of_step, kept, read_body, read_journal, read_step, written};

/// What was written of a journal, of words that fit, is read as the same head and entries, whatever stands behind it. So two
/// journals whose heads or entries differ have forms that differ. It does nothing.
pub fn law_written_journals_are_read()
    ensures read { (head : Head) (entries : List (Entry × List ℕ)) (rest : List ℕ) (steps : ℕ) → fit (words_of_head head) ≡ true → all_fit entries ≡ true → length entries ≤ 2 ^ 64 - 2 → 2 * length entries < steps → read_journal steps (journal head entries ++ rest) ≡ Some (head, (map kept entries, rest)) }
    ensures apart { (one other : Head) (xs ys : List (Entry × List ℕ)) → fit (words_of_head one) ≡ true → fit (words_of_head other) ≡ true → all_fit xs ≡ true → all_fit ys ≡ true → length xs ≤ 2 ^ 64 - 2 → length ys ≤ 2 ^ 64 - 2 → journal one xs ≡ journal other ys → (one ≡ other) × (map kept xs ≡ map kept ys) }
{}

/// What is read as a journal is written as the same bytes: a head and entries have one form, and nothing else is a journal. It does
/// nothing.
pub fn law_read_journals_are_written()
    ensures whole { (steps : ℕ) (bytes : List ℕ) (head : Head) (entries : List Told) (rest : List ℕ) → read_journal steps bytes ≡ Some (head, (entries, rest)) → bytes ≡ journal head (map written entries) ++ rest }
    ensures step { (place : Place) (bytes : List ℕ) (one : Step) (rest : List ℕ) → read_step place bytes ≡ Ok (one, rest) → bytes ≡ bytes_of_step place one ++ rest }
{}

/// A block goes on to the next just where it is full, and a journal ends just where its last block isn't. It does nothing.
pub fn law_blocks_end_where_they_are_full()
    ensures block { (place : Place) (bytes rest : List ℕ) → read_step place bytes ≡ Ok (step.Block, rest) → is_full place ≡ true }
    ensures entry { (place : Place) (bytes : List ℕ) (entry : Entry) (policy : Option (List ℕ)) (rest : List ℕ) → read_step place bytes ≡ Ok (step.Entry entry policy, rest) → is_full place ≡ false }
    ensures end { (place : Place) (bytes rest : List ℕ) → read_step place bytes ≡ Ok (step.End, rest) → is_full place ≡ false }
{}

/// What was written behind a head, of words that fit, and cut anywhere before its end, is read as cut: neither an end nor harm is
/// told, by however many steps it is read. It does nothing.
pub fn law_cut_journals_are_read_as_cut()
    ensures { (place : Place) (entries : List (Entry × List ℕ)) (steps : ℕ) (front more : List ℕ) (byte : ℕ) → all_fit entries ≡ true → is_full place ≡ false → place.number + length entries < 2 ^ 64 - 2 → body place (forms_of entries) ≡ front ++ byte ∷ more → read_body steps place front ≡ Err halt.Cut }
{}
