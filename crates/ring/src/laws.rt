//! What holds between any two atomic steps on a ring, as laws of the fact that its table keeps
//! (`IsKept`), and what each step is.

ghost use Rattle.atomic_table.specs.Table.{State};
ghost use Rattle.ring.specs.Made.{step_by};
ghost use Rattle.ring.specs.Places.{table_place, words_seen};
ghost use Rattle.ring.specs.Shares.{AreMachine, IsKept, IsOneStep, alone};
ghost use Rattle.ring.specs.declared.share.Numbered.{Numbered};
ghost use Rattle.ring.specs.declared.share.RingShape.{RingShape};
ghost use Rattle.ring_core.specs.Machine.{Machine};
ghost use Rattle.ring_core.specs.Parts.{may_make};
ghost use Rattle.ring_core.specs.declared.access.Access.{Access};
ghost use Rattle.ring_core.specs.declared.part.SeatPart.{SeatPart};
ghost use Rattle.ring_core.specs.declared.access.TheConstants.{FIRST_SLOT, READ_PLACE, WRITE_PLACE};
ghost use Rattle.std.specs.Prelude.{List, [], drop, length, slice_index, slice_set, take, ℕ, ⊤, true, ◌*◌, ◌+◌, ◌++◌, ◌<◌, ◌≤◌, ◌∷◌, ◌≡◌, ◌≢◌};
ghost use lib.ListN.{get_elem?};
ghost use mathlib.Core.Option.{some};

/// Between any two atomic steps, whoever makes them, the words of a ring and the views of all its seats
/// are together a machine to which some list of steps leads from the opening, and which meets the ring
/// rule.
pub fn law_a_ring_is_a_machine_between_steps()
    ensures { (shape : RingShape) (state : State ⊤ (List Numbered)) → 0 < shape.size → IsKept shape state
        → (machine : Machine) × AreMachine shape.size shape.producers state.words state.views machine }
{}

/// They are one machine alone: words and views determine it.
pub fn law_words_and_views_are_one_machine()
    ensures { (size producers : ℕ) (words : List ℕ) (views : List (List Numbered)) (one two : Machine)
        → AreMachine size producers words views one → AreMachine size producers words views two → one ≡ two }
{}

/// Each access that a seat may make is exactly one step of that machine, its own: the word that the step
/// touches and the view of this seat change as the step says, nothing else does, and words and views are
/// then the machine after the step.
pub fn law_each_access_is_one_step()
    ensures { (size producers : ℕ) (words : List ℕ) (views : List (List Numbered)) (machine : Machine)
        (seat number : ℕ) (part : SeatPart) (access : Access)
        → AreMachine size producers words views machine
        → get_elem? views seat ≡ some (alone number part)
        → may_make size part access ≡ true
        → IsOneStep size producers words views machine seat (step_by number access) }
{}

/// Cutting a seat in two and joining two seats changes no word, and only divides or unites views: the
/// machine stays. A seat that was joined is spent, its view empty.
pub fn law_cuts_and_joins_keep_the_machine()
    ensures cut { (size producers : ℕ) (words : List ℕ) (views : List (List Numbered)) (machine : Machine)
        (seat : ℕ) (view : List Numbered)
        → AreMachine size producers words views machine
        → get_elem? views seat ≡ some view
        → AreMachine size producers words (slice_set views seat (drop 1 view) ++ take 1 view ∷ []) machine }
    ensures joined { (size producers : ℕ) (words : List ℕ) (views : List (List Numbered)) (machine : Machine)
        (seat other : ℕ) (view theirs : List Numbered)
        → AreMachine size producers words views machine
        → other ≢ seat
        → get_elem? views seat ≡ some view
        → get_elem? (slice_set views seat (view ++ theirs)) other ≡ some theirs
        → AreMachine size producers words (slice_set (slice_set views seat (view ++ theirs)) other []) machine }
{}

/// A store at the table's place of one of the machine's is, on the words seen, a store at the machine's
/// place. It leaves every other word of the table, those in the gaps too.
pub fn law_stores_are_seen_and_leave_the_gaps()
    ensures seen { (words : List ℕ) (place word : ℕ) → 2 ≤ length (words_seen words)
        → words_seen (slice_set words (table_place place) word) ≡ slice_set (words_seen words) place word }
    ensures others { (words : List ℕ) (place word other : ℕ) → other ≢ table_place place
        → slice_index (slice_set words (table_place place) word) other ≡ slice_index words other }
{}

/// Both indices and the slots lie 16 words apart, 128 bytes, two cache lines. Each slot has whole groups of
/// eight words for itself: a line each, where the table's memory begins on one.
pub fn law_indices_and_slots_lie_apart()
    ensures write { table_place WRITE_PLACE + 16 ≤ table_place READ_PLACE }
    ensures read { (word : ℕ) → table_place READ_PLACE + 16 ≤ table_place (FIRST_SLOT + word) }
    ensures slots { (slot : ℕ) → table_place (FIRST_SLOT + 8 * slot) ≡ 8 * (6 + slot) }
{}
