//! Entries that tell the same.

ghost use Rattle.std.specs.Prelude.{◌≡◌, ◌↔◌, true};
ghost use Rattle.replay.specs.Replays.{TellsTheSame};

use core_model::{Effect, Entry, Outcome};

// Whether calls came to the same.
fn is_same_outcome(one: &Outcome, other: &Outcome) -> bool
    ensures { result ≡ true ↔ one.now ≡ other.now }
{
    *one == *other
}

// Whether changes are the same, in the same order.
fn are_same_effects(effects: &[Effect], others: &[Effect]) -> bool
    ensures { result ≡ true ↔ effects.now ≡ others.now }
{
    effects == others
}

/// Whether two entries tell the same outcome, and the same changes in the same order.
pub fn tells_the_same(one: &Entry, other: &Entry) -> bool
    ensures { result ≡ true ↔ TellsTheSame one.now other.now }
{
    is_same_outcome(&one.outcome, &other.outcome)
        & are_same_effects(one.effects.as_slice(), other.effects.as_slice())
}
