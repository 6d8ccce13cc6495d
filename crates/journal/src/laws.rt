//! The laws of an entry's text form.

ghost use Rattle.std.specs.Prelude.{◌≡◌, ◌+◌, ◌<◌, ◌^◌, List, [], length, true, None, Some, Ok};
ghost use Rattle.core_model.specs.declared.entry.Entry.{Entry};
ghost use Rattle.journal.specs.declared.chain.Chain.{Chain};
ghost use Rattle.journal.specs.declared.chain.Head.{Head};
ghost use Rattle.journal.specs.declared.faults.LineFault.{LineFault};
ghost use Rattle.journal.specs.Words.{Text};
ghost use Rattle.journal.specs.Entries.{all_fit, fit, text_of_entry, words_of_entry};
ghost use Rattle.journal.specs.Lines.{after, entry_line, entry_lines, entry_of_line, fault_of_line, head_of_line, is_end, line, text_of_end, text_of_head, words_of_head};
ghost use Rattle.journal.specs.Readings.{entry_of};

/// What was written of an entry, of numbers that have their bits, is read as the same entry. So two different
/// entries never print the same. It does nothing.
pub fn law_written_entries_are_read()
    ensures read { (entry : Entry) → fit (words_of_entry entry) ≡ true → entry_of (text_of_entry entry) ≡ Some entry }
    ensures apart { (one other : Entry) → fit (words_of_entry one) ≡ true → fit (words_of_entry other) ≡ true → text_of_entry one ≡ text_of_entry other → one ≡ other }
{}

/// The line of an entry is read as that entry, where the journal stands as it stood when it was written, and the journal
/// stands behind it as it stood then, if its numbers have their bits. It does nothing.
pub fn law_written_lines_are_read()
    ensures { (chain : Chain) (entry : Entry) → chain.number + 1 < 2 ^ 64 → fit (words_of_entry entry) ≡ true → entry_of_line chain (entry_line chain entry) ≡ Some (entry, after chain entry) }
{}

/// Two lists of entries that have the same lines, where a journal stands so, are the same, if their numbers have their
/// bits. So two different histories never print the same. It does nothing.
pub fn law_journals_are_told_apart()
    ensures { (chain : Chain) (one other : List Entry) → all_fit one ≡ true → all_fit other ≡ true → chain.number + length one < 2 ^ 64 → chain.number + length other < 2 ^ 64 → entry_lines chain one ≡ entry_lines chain other → one ≡ other }
{}

/// The head of a journal is read as it was written, over the policies that it tells, if its numbers have their bits; and
/// its last line is its end. It does nothing.
pub fn law_written_heads_and_ends_are_read()
    ensures head { (head : Head) → fit (words_of_head head) ≡ true → head_of_line head.policies (line [] (text_of_head head)) ≡ Ok head }
    ensures end { (chain : Chain) → is_end chain (line chain.digest (text_of_end chain)) ≡ true }
{}

/// A line has a fault just where it isn't read as the next entry. It does nothing.
pub fn law_unread_lines_have_a_fault()
    ensures fault { (chain : Chain) (bytes : Text) (fault : LineFault) → fault_of_line chain bytes ≡ Some fault → entry_of_line chain bytes ≡ None }
    ensures read { (chain : Chain) (bytes : Text) → fault_of_line chain bytes ≡ None → (read : Entry × Chain) × (entry_of_line chain bytes ≡ Some read) }
{}
