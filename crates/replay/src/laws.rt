//! The laws of a replay.

ghost use Rattle.std.specs.Prelude.{◌≡◌, ◌<◌, ◌∷◌, ◌++◌, List, [], Ok, Err, length};
ghost use Rattle.kernel_check.specs.Programs.{Program};
ghost use Rattle.policy.specs.Policy.{Declared};
ghost use Rattle.core_model.specs.declared.entry.Entry.{Entry};
ghost use Rattle.core_model.specs.Legal.{IsOpening};
ghost use Rattle.replay.specs.declared.stop.Stop.{Stop};
ghost use Rattle.replay.specs.Replays.{Replayed, Takes, audit_places};
ghost use Rattle.replay.specs.Verdicts.{IsReplayed, StopsAt};

/// What a replay has taken is a whole legal history of its policy and kernels, and it is in the state behind it: an
/// opened one has taken nothing; one that takes an entry has taken one more; and where it stops, the entry isn't what
/// it was owed behind those, or the further policies don't have its rows, or memory was wanted, or more than 2^62 entries
/// came before. It does nothing.
pub fn law_what_is_taken_is_a_whole_history()
    ensures opened { (policy : Declared) (kernels : List Program) (further : List Declared) (replay : Replayed) →
        IsOpening replay.history policy kernels audit_places → replay.further ≡ further → IsReplayed policy kernels further [] replay }
    ensures taken { (policy : Declared) (kernels : List Program) (further : List Declared) (entries : List Entry) (entry : Entry) (old new : Replayed) →
        IsReplayed policy kernels further entries old → Takes old entry (Ok tt) new → IsReplayed policy kernels further (entries ++ entry ∷ []) new }
    ensures stopped { (policy : Declared) (kernels : List Program) (further : List Declared) (entries : List Entry) (entry : Entry) (why : Stop) (old new : Replayed) →
        IsReplayed policy kernels further entries old → Takes old entry (Err why) new → StopsAt policy kernels further entries entry why new }
{}
