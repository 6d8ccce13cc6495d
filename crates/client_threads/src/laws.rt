//! What the served lists and what sections tell.

ghost use Rattle.std.specs.Prelude.{◌≡◌, ◌<◌, ◌⊎◌, ℕ, suc, List, [], ◌∷◌, ◌++◌, All, Some, false, length, nat_lt, slice_index, if◌then◌else◌};
ghost use Rattle.std.specs.List.{flat_map, list_any, sum_by};
ghost use mathlib.Core.Option.{some};
ghost use lib.ListN.{get_elem?};
ghost use Rattle.atomic_table.specs.Table.{Allows, State, step};
ghost use mathlib.Core.List.{IsPrefix};
ghost use Rattle.atomic_table.specs.Seated.{TableId};
ghost use Rattle.aql_packet.specs.declared.ids.QueueId.{QueueId};
ghost use Rattle.access_core.specs.Cores.{Core};
ghost use Rattle.ring.specs.Passes.{RingSeen};
ghost use Rattle.core_model.specs.History.{History, beginning};
ghost use Rattle.core_model.specs.Legal.{IsWhole};
ghost use Rattle.core_model.specs.Queues.{closes_queue, owner};
ghost use Rattle.core_model.specs.declared.entry.Entry.{Entry};
ghost use Rattle.core_model.specs.declared.origin.Opening.{Opening};
ghost use Rattle.client_threads.specs.declared.client_end.ClientEnd.{ClientEnd};
ghost use Rattle.client_threads.specs.Boards.{AreAllBelow, Compared, FrontSeen, IsKept, Written, times};
ghost use Rattle.client_threads.specs.HandedOver.{AreSettledWith, KeepsAll};
ghost use Rattle.client_threads.specs.Opening.{IsOpened};
ghost use Rattle.client_threads.specs.Rings.{IsOf, QueueRing};
ghost use Rattle.client_threads.specs.Running.{DoesTurn, EntersOwn, IsEndOf, IsLaneOf};
ghost use Rattle.client_threads.specs.Lanes.{LaneSeen, own_of};
ghost use Rattle.client_threads.specs.Sections.{AllFollow, IsFirst, entered, last_of, state_at, whole};
ghost use Rattle.client_threads.specs.Settling.{IsClosed};
ghost use Rattle.client_threads.specs.declared.board.View.{View};
ghost use Rattle.client_threads.specs.declared.lanes.LaneAnswer.{LaneAnswer};

/// What is of a broker stays so when a queue is opened, and the queue's ends and its lane are of it.
pub fn law_opened_queues_belong()
    ensures kept { (old new : List QueueRing) (size producers : ℕ) (front : FrontSeen) (queue : QueueId) (ends : List ClientEnd) (lane : LaneSeen) →
        IsOpened old size producers front queue ends lane new → (q : ℕ) (table : TableId) → IsOf old q table → IsOf new q table }
    ensures ends { (old new : List QueueRing) (size producers : ℕ) (front : FrontSeen) (queue : QueueId) (ends : List ClientEnd) (lane : LaneSeen) →
        IsOpened old size producers front queue ends lane new → All (λ end. IsEndOf new end) ends }
    ensures lane { (old new : List QueueRing) (size producers : ℕ) (front : FrontSeen) (queue : QueueId) (ends : List ClientEnd) (lane : LaneSeen) →
        IsOpened old size producers front queue ends lane new → IsLaneOf front.board new lane }
{}

/// Where lanes keep all that they served, no part is wanted that is settled with them.
pub fn law_lanes_that_keep_all_are_settled()
    ensures { (lanes : List LaneSeen) → All KeepsAll lanes → AreSettledWith [] lanes }
{}

/// Of two sections whose fronts compare, both are one, or one stands wholly before the other.
pub fn law_sections_stand_in_order()
    ensures { (one two : List Core) (left other : Core) → Compared (one ++ left ∷ []) (two ++ other ∷ []) →
        (one ++ left ∷ [] ≡ two ++ other ∷ []) ⊎ (IsPrefix (one ++ left ∷ []) two ⊎ IsPrefix (two ++ other ∷ []) one) }
{}

/// All sections since the opening, with what they handed out, are one whole legal history: that of the policy and of the
/// kernels with which the core was opened.
pub fn law_runs_are_whole_histories()
    ensures whole { (opened : Core) (left : List Core) → IsFirst opened → AllFollow opened left → IsWhole (beginning opened.history) (whole [] opened left) }
    ensures kernels { (opened : Core) (left : List Core) → AllFollow opened left → (last_of opened left).history.kernels ≡ opened.history.kernels }
    ensures declared { (opened : Core) (left : List Core) → AllFollow opened left → (last_of opened left).history.origin.policy ≡ opened.history.origin.policy }
    ensures room { (opened : Core) (left : List Core) → AllFollow opened left → (last_of opened left).history.capacity ≡ opened.history.capacity }
{}

/// The client and the agent of a queue are those of its opening, whatever sections come then, as long as no entry closes it.
pub fn law_queues_keep_their_openings()
    ensures { (old : Core) (left : List Core) (queue : QueueId) (opening : Opening) → AllFollow old left →
        owner (beginning old.history) old.history.entries queue ≡ Some opening →
        list_any (λ entry. closes_queue queue entry.event) (whole [] old left) ≡ false →
        owner (beginning (last_of old left).history) (last_of old left).history.entries queue ≡ Some opening }
{}

/// Where a broker ended and all fronts came back, whatever was entered since its opening, handed out or not, is what the
/// sections of these fronts entered: whatever is counted or summed over the entries.
pub fn law_nothing_else()
    ensures { (opened core : Core) (front : FrontSeen) (lanes : List LaneSeen) (closed : IsClosed opened front lanes core) (g : Entry → ℕ) →
        sum_by g (whole [] opened closed.end.left) ≡ sum_by (λ k. sum_by g (entered opened closed.end.left k)) (front.own ++ flat_map own_of lanes) }
{}

/// Where all places are some fronts' own, each place is one of theirs, once, and no other number is.
pub fn law_each_place_is_ones_own()
    ensures { (n : ℕ) (places : List ℕ) → AreAllBelow n places → (k : ℕ) → times k places ≡ (if nat_lt k n then 1 else 0) }
{}

/// A section stands in all that were made, at its own place: there one state became the other. Where it added entries, these
/// were entered there.
pub fn law_sections_keep_their_places()
    ensures states { (opened : Core) (before : List Core) (core : Core) (left : List Core) → IsPrefix (before ++ core ∷ []) left →
        (state_at opened left (length before) ≡ last_of opened before) × (state_at opened left (suc (length before)) ≡ core) × (length before < length left) }
    ensures entered { (opened : Core) (before left : List Core) (core : Core) (more : List Entry) → IsPrefix (before ++ core ∷ []) left →
        core.history ≡ record (last_of opened before).history { entries = (last_of opened before).history.entries ++ more } → entered opened left (length before) ≡ more }
{}

/// In no state of the board that keeps its rule may a pass without a share add a state: so no section is made but through a
/// front.
pub fn law_no_share_no_section()
    ensures { (slots id : ℕ) (v : View) (core : Core) (f : ℕ → ℕ) (s : State Core View) → v.share ≡ 0 → IsKept s → length s.homes ≡ slots → get_elem? s.views id ≡ some v → slice_index s.words 0 < 18446744073709551616 →
        Allows IsKept slots id (v, []) 0 f (Written (step slots 0 0 0 (some core)) (v, [])) → ⊥ }
{}

/// A turn enters at most a take of its lane's queue, and then at most one call for a packet of it.
pub fn law_turns_enter_their_own()
    ensures { (ring : RingSeen) (old : LaneSeen) (before : History) (answer : LaneAnswer) (new : LaneSeen) (after : History) →
        DoesTurn ring old before answer new after → EntersOwn old.queue before after }
{}
