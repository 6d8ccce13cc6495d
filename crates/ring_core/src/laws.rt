//! The ring rule, and what a run leaves with each seat, as laws of the machine, whatever memory there is.

ghost use Rattle.std.specs.Prelude.{ℕ, ◌<◌, ◌≤◌, ◌≡◌, List, length, true};
ghost use Rattle.ring_core.specs.declared.access.Step.{Step};
ghost use Rattle.ring_core.specs.declared.access.Seen.{Seen};
ghost use Rattle.ring_core.specs.declared.part.TheConstants.{ALLOWANCE};
ghost use Rattle.ring_core.specs.declared.state.TheConstants.{MOST_PRODUCERS};
ghost use Rattle.ring_core.specs.Limits.{most_producers, most_reservations};
ghost use Rattle.aql_packet.specs.Ring.{is_ring_size};
ghost use Rattle.ring_core.specs.Machine.{Machine, Makes, Replays, read_index};
ghost use Rattle.ring_core.specs.Rule.{IsRule};
ghost use Rattle.ring_core.specs.Runs.{KnowsItsOwn, retired_at, ticket_words, all_known};

/// Each step keeps the ring rule.
pub fn law_each_step_keeps_the_rule()
    ensures { (producers : ℕ) (machine next : Machine) (step : Step) (seen : Seen) →
        IsRule producers machine → Makes machine step seen next → IsRule producers next }
{}

/// The machine after any list of steps, in any order, meets the ring rule.
pub fn law_every_run_meets_the_rule()
    ensures { (size producers : ℕ) (steps : List Step) (machine : Machine) →
        0 < size → Replays size producers steps machine → IsRule producers machine }
{}

/// After any list of steps each seat, the processor at 0 and the producers behind it, has just the steps that
/// were its own, in order, and its part is what follows from them and from what they read: the fold of its
/// steps over the part with which it began.
pub fn law_each_part_follows_from_its_own_steps()
    ensures { (size producers : ℕ) (steps : List Step) (machine : Machine) (seat : ℕ) →
        Replays size producers steps machine → seat ≤ producers → KnowsItsOwn steps machine seat }
{}

/// After any list of steps each retired packet is the eight words of the ticket of its id, whole.
pub fn law_each_retired_packet_is_its_tickets()
    ensures eight { (size producers : ℕ) (steps : List Step) (machine : Machine) (id : ℕ) →
        0 < size → Replays size producers steps machine → id < read_index machine → length (retired_at machine id) ≡ 8 }
    ensures words { (size producers : ℕ) (steps : List Step) (machine : Machine) (id : ℕ) →
        0 < size → Replays size producers steps machine → id < read_index machine →
        ticket_words machine id ≡ all_known (retired_at machine id) }
{}

/// A ring has 2 to 4,096 slots.
pub fn law_ring_sizes_are_bounded()
    ensures least { (size : ℕ) → is_ring_size size ≡ true → 2 ≤ size }
    ensures most { (size : ℕ) → is_ring_size size ≡ true → size ≤ 4096 }
{}

/// The code's limits of a ring are those of the rules.
pub fn law_numbers_are_those_of_the_rules()
    ensures producers { MOST_PRODUCERS ≡ most_producers }
    ensures reservations { ALLOWANCE ≡ most_reservations }
{}
