//! The laws of the packed form.

ghost use Rattle.std.specs.Prelude.{◌≡◌, ◌++◌, ℕ, ℤ, Bool, List, Ok, Option, [], true, Some};
ghost use Rattle.std.specs.Option.{unwrap_or};
ghost use Rattle.core_model.specs.declared.entry.Entry.{Entry};
ghost use Rattle.packed_journal.specs.Words.{Number, Signed, Bytes, Packet, Flags, Digest, fits, packed, number_at, signed_at, flags_at, digest_at};
ghost use Rattle.packed_journal.specs.Readings.{fit, read_bytes, read_packet};
ghost use Rattle.packed_journal.specs.Entries.{form_of_entry, kept_policy, read_entry, words_of_entry};

/// What was written of a word that fits is read as what it tells, whatever stands behind it. It does nothing.
pub fn law_written_words_are_read()
    ensures number { (bits n : ℕ) (rest : List ℕ) → fits (Number bits n) ≡ true → number_at bits (packed (Number bits n) ++ rest) ≡ Some (n, rest) }
    ensures signed { (z : ℤ) (rest : List ℕ) → fits (Signed z) ≡ true → signed_at (packed (Signed z) ++ rest) ≡ Some (z, rest) }
    ensures bytes { (bytes rest : List ℕ) → fits (Bytes bytes) ≡ true → read_bytes (packed (Bytes bytes) ++ rest) ≡ Ok (bytes, rest) }
    ensures packet { (bytes rest : List ℕ) → fits (Packet bytes) ≡ true → read_packet (packed (Packet bytes) ++ rest) ≡ Ok (bytes, rest) }
    ensures flags { (flags : List Bool) (rest : List ℕ) → fits (Flags flags) ≡ true → flags_at (packed (Flags flags) ++ rest) ≡ Some (flags, rest) }
    ensures digest { (bytes rest : List ℕ) → fits (Digest bytes) ≡ true → digest_at (packed (Digest bytes) ++ rest) ≡ Some (bytes, rest) }
{}

/// What is read is written as the same bytes: a word has one form. It does nothing.
pub fn law_read_words_are_written()
    ensures number { (bits n : ℕ) (bytes rest : List ℕ) → number_at bits bytes ≡ Some (n, rest) → bytes ≡ packed (Number bits n) ++ rest }
    ensures signed { (z : ℤ) (bytes rest : List ℕ) → signed_at bytes ≡ Some (z, rest) → bytes ≡ packed (Signed z) ++ rest }
    ensures bytes { (read bytes rest : List ℕ) → read_bytes bytes ≡ Ok (read, rest) → bytes ≡ packed (Bytes read) ++ rest }
    ensures packet { (read bytes rest : List ℕ) → read_packet bytes ≡ Ok (read, rest) → bytes ≡ packed (Packet read) ++ rest }
    ensures flags { (flags : List Bool) (bytes rest : List ℕ) → flags_at bytes ≡ Some (flags, rest) → bytes ≡ packed (Flags flags) ++ rest }
    ensures digest { (read bytes rest : List ℕ) → digest_at bytes ≡ Some (read, rest) → bytes ≡ packed (Digest read) ++ rest }
{}

/// What was written of an entry, of words that fit, is read as the same entry, whatever stands behind it. So two entries that differ
/// have forms that differ. It does nothing.
pub fn law_written_entries_are_read()
    ensures read { (entry : Entry) (policy rest : List ℕ) → fit (words_of_entry entry policy) ≡ true → read_entry (form_of_entry entry policy ++ rest) ≡ Ok ((entry, kept_policy entry.event policy), rest) }
    ensures apart { (one other : Entry) (p q : List ℕ) → fit (words_of_entry one p) ≡ true → fit (words_of_entry other q) ≡ true → form_of_entry one p ≡ form_of_entry other q → (one ≡ other) × (kept_policy one.event p ≡ kept_policy other.event q) }
{}

/// What is read as an entry is written as the same bytes: an entry has one form. It does nothing.
pub fn law_read_entries_are_written()
    ensures { (bytes : List ℕ) (entry : Entry) (policy : Option (List ℕ)) (rest : List ℕ) → read_entry bytes ≡ Ok ((entry, policy), rest) → bytes ≡ form_of_entry entry (unwrap_or policy []) ++ rest }
{}
