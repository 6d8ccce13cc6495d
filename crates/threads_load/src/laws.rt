//! What the load's constants are.

ghost use Rattle.std.specs.Prelude.{◌≡◌};
ghost use Rattle.threads_load.specs.Limits.{load_packets, load_places, load_slots, most_tries, most_turns, number_bytes};
ghost use Rattle.threads_load.specs.declared.limits.TheConstants.{MOST_TRIES, MOST_TURNS, PACKETS};
ghost use Rattle.threads_load.specs.declared.load.TheConstants.{PLACES};
ghost use Rattle.threads_load.specs.declared.opening.TheConstants.{MOST_IN_FLIGHT};
ghost use Rattle.threads_load.specs.declared.plan.TheConstants.{COUNTED_BYTES};

/// The code's numbers of a load are those of the rules.
pub fn law_numbers_are_those_of_the_rules()
    ensures packets { PACKETS ≡ load_packets }
    ensures places { PLACES ≡ load_places }
    ensures slots { MOST_IN_FLIGHT ≡ load_slots }
    ensures turns { MOST_TURNS ≡ most_turns }
    ensures tries { MOST_TRIES ≡ most_tries }
    ensures bytes { COUNTED_BYTES ≡ number_bytes }
{}
