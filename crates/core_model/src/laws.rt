//! What a legal history shows: for each thing that it tells, who asked for it, and which grant in
//! force allowed it; and what clients are told.

ghost use Rattle.std.specs.Prelude.{ℕ, ℤ, List, [], ◌∷◌, ◌++◌, ◌+◌, ◌≡◌, ◌⊎◌, All, None, Some, Result, Ok, Err, true, false, length, slice_get};
ghost use Rattle.std.specs.List.{Contains, list_any};
ghost use Rattle.aql_packet.specs.declared.ids.Address.{Address};
ghost use Rattle.aql_packet.specs.declared.ids.AgentHandle.{AgentHandle};
ghost use Rattle.aql_packet.specs.declared.ids.ClientId.{ClientId};
ghost use Rattle.aql_packet.specs.declared.ids.QueueId.{QueueId};
ghost use Rattle.aql_packet.specs.declared.ids.PacketId.{PacketId};
ghost use Rattle.aql_packet.specs.declared.ids.SignalHandle.{SignalHandle};
ghost use Rattle.aql_packet.specs.declared.packet.AgentDispatch.{AgentDispatch};
ghost use Rattle.aql_packet.specs.declared.packet.Packet.{Packet};
ghost use Rattle.aql_packet.specs.declared.packet.Packet.TheVariants as packet;
ghost use Rattle.signals.specs.Values.{applied, meets, value_of};
ghost use Rattle.signals.specs.declared.operation.Condition.{Condition};
ghost use Rattle.signals.specs.declared.operation.SignalOp.{SignalOp};
ghost use Rattle.policy.specs.Rules.{is_allowed, are_allowed, knows_client};
ghost use Rattle.policy.specs.Policy.{Declared, region_lengths, rules_of};
ghost use Rattle.policy.specs.declared.object.Object.{Object};
ghost use Rattle.policy.specs.declared.object.Object.TheVariants as object;
ghost use Rattle.policy.specs.declared.rights.Right.{Right};
ghost use Rattle.policy.specs.declared.rights.Right.TheVariants as right;
ghost use Rattle.policy.specs.declared.rights.Rights.{Rights};
ghost use Rattle.queue_error.specs.declared.error.QueueError.{QueueError};
ghost use Rattle.core_model.specs.declared.answer.Answer.{Answer};
ghost use Rattle.core_model.specs.declared.answer.Answer.TheVariants as answer;
ghost use Rattle.core_model.specs.declared.entry.Effect.{Effect};
ghost use Rattle.core_model.specs.declared.entry.Effect.TheVariants as effect;
ghost use Rattle.core_model.specs.declared.entry.Entry.{Entry};
ghost use Rattle.core_model.specs.declared.event.Event.{Event};
ghost use Rattle.core_model.specs.declared.event.Event.TheVariants.{Open, Take, Call};
ghost use Rattle.core_model.specs.declared.call.Call.TheVariants.{ChangeSignal, Close, Finish, Grant, HostWrite, Poll, RunNext, Stop};
ghost use Rattle.core_model.specs.declared.event.Query.{Query};
ghost use Rattle.core_model.specs.declared.event.Query.TheVariants as query;
ghost use Rattle.core_model.specs.declared.event.CoreRequest.{CoreRequest};
ghost use Rattle.core_model.specs.declared.flight.InFlight.{InFlight};
ghost use Rattle.core_model.specs.declared.flight.Progress.{Progress};
ghost use Rattle.core_model.specs.declared.outcome.Outcome.{Outcome};
ghost use Rattle.core_model.specs.declared.outcome.Outcome.TheVariants as outcome;
ghost use Rattle.core_model.specs.declared.outcome.Polled.{Polled};
ghost use Rattle.core_model.specs.declared.outcome.Polled.TheVariants as polled;
ghost use Rattle.core_model.specs.declared.outcome.Taken.TheVariants as taken;
ghost use Rattle.core_model.specs.declared.outcome.Worked.TheVariants as worked;
ghost use Rattle.core_model.specs.declared.refusal.Refusal.{Refusal};
ghost use Rattle.core_model.specs.declared.refusal.Refusal.TheVariants as refusal;
ghost use Rattle.core_model.specs.declared.served.Served.{Served};
ghost use Rattle.core_model.specs.History.{History, IsOpeningOrigin, Origin, Part, Start, begin, beginning, opening_state};
ghost use Rattle.core_model.specs.Policies.{policy_at};
ghost use Rattle.core_model.specs.Rotation.{IsRotated, LeadTo, entries_in, first_start};
ghost use Rattle.core_model.specs.States.{state_after};
ghost use Rattle.core_model.specs.Takes.{takes};
ghost use Rattle.kernel_check.specs.Programs.{Program};
ghost use Rattle.core_model.specs.Grants.{in_force};
ghost use Rattle.core_model.specs.Memory.{memory_at, memory_from, signals};
ghost use Rattle.regions.specs.Memory.{lies_in_region};
ghost use Rattle.core_model.specs.Limits.{add64_number, copy_number, fill_number, launch_progress, most_before, most_entries, most_host_bytes, most_in_flight, most_queues, none_satisfied};
ghost use Rattle.core_model.specs.declared.flight.TheConstants.{LAUNCH_PROGRESS};
ghost use Rattle.core_model.specs.declared.limits.TheConstants.{MOST_BEFORE, MOST_ENTRIES, MOST_HOST_BYTES, MOST_IN_FLIGHT, QUEUES};
ghost use Rattle.core_model.specs.declared.need.TheConstants.{ADD64, COPY, FILL};
ghost use Rattle.core_model.specs.declared.outcome.TheConstants.{NONE_SATISFIED};
ghost use Rattle.aql_packet.specs.Memory.{are_region_lengths};
ghost use Rattle.core_model.specs.Holds.{arguments, held, own_rights};
ghost use Rattle.core_model.specs.View.{GivenAtLaunch, given_at_launch};
ghost use Rattle.core_model.specs.Queues.{Opening, closes_queue, error_of, next_id, owner};
ghost use Rattle.core_model.specs.Flight.{AreApart, LawOfFlight, flight, flight_of, in_flight, progress};
ghost use Rattle.core_model.specs.Work.{agent_writes};
ghost use Rattle.core_model.specs.Owed.{barrier_in, enters, is_host_size, old_if_asked, owed, owed_group, refuses};
ghost use Rattle.core_model.specs.Legal.{AreReplies, IsFollowedBy, IsLegal, IsLegalPart, IsOpening, IsServed, IsWhole, joined, MeetsOrLacks, entry_of};
ghost use Rattle.core_model.specs.Queries.{AnswerOrRefusal, query_answer};
ghost use Rattle.core_model.specs.Room.{FindsRoom, HasRoom};
ghost use Rattle.core_model.specs.Closed.{IsClosed, IsGone, NothingIsToldOf, WasClosed, names_queue};
ghost use Rattle.core_model.specs.Headline.{AllInForce, ChangeIsGranted, GoesOn, HoldsInForce, InFlightSince, IsCompleted, IsDenied, IsEntryBehind, IsListed, IsOpened, IsPolled, Launch, MayBeLaunched, MayReach, MayReachRange, ReleaseIsDue, WriteIsGranted, packet_named, ranges_seen};

/// A launched packet is the next of a queue that is open and need not wait, is laid out by its bytes, and
/// meets every launch rule by the grants in force just before; its launch has no effect.
pub fn law_each_launch_was_granted()
    ensures { (start : Start) (entries before : List Entry) (queue : QueueId) (id : PacketId) (bytes : List ℕ) (effects : List Effect) →
        IsWhole start entries → IsEntryBehind entries before (entry_of (Take queue id bytes) (outcome.Taken taken.Launched) effects) →
        (opening : Opening) × (packet : Packet) × MayBeLaunched start before queue id bytes opening packet × (effects ≡ []) }
{}

/// A packet that is taken is launched or denied, under the id that is its queue's next, and so launched
/// once at most.
pub fn law_each_packet_is_taken_in_turn()
    ensures turn { (start : Start) (entries before : List Entry) (queue : QueueId) (id : PacketId) (bytes : List ℕ) (told : Outcome) (effects : List Effect) →
        IsWhole start entries → IsEntryBehind entries before (entry_of (Take queue id bytes) told effects) → id.0 ≡ next_id start before queue }
    ensures decided { (start : Start) (entries before : List Entry) (queue : QueueId) (id : PacketId) (bytes : List ℕ) (told : Outcome) (effects : List Effect) →
        IsWhole start entries → IsEntryBehind entries before (entry_of (Take queue id bytes) told effects) →
        (told ≡ outcome.Taken taken.Launched) ⊎ (error : QueueError) × (told ≡ outcome.Taken (taken.Denied error)) }
    ensures once { (start : Start) (entries : List Entry) (queue : QueueId) (id : PacketId) →
        IsWhole start entries → (one other : Launch start entries queue id) → (one.before ≡ other.before) × (one.packet ≡ other.packet) }
{}

/// What a legal history takes of a queue has the ids from its start's next one on, each once, in order; where no
/// entry closes the queue, the next id is the first that was not taken.
pub fn law_taken_ids_go_on_from_the_start()
    ensures ids { (start : Start) (entries : List Entry) (queue : QueueId) (place : ℕ) (served : Served) →
        IsLegal start entries → slice_get (takes entries queue) place ≡ Some served → served.id.0 ≡ next_id start [] queue + place }
    ensures count { (start : Start) (entries : List Entry) (queue : QueueId) → list_any (λ entry. closes_queue queue entry.event) entries ≡ false →
        next_id start entries queue ≡ next_id start [] queue + length (takes entries queue) }
{}

/// A denied packet's error names the packet and the first launch rule that fails by the grants in force
/// just before; a denial has no effect.
pub fn law_denials_name_the_first_rule()
    ensures { (start : Start) (entries before : List Entry) (queue : QueueId) (id : PacketId) (bytes : List ℕ) (error : QueueError) (effects : List Effect) →
        IsWhole start entries → IsEntryBehind entries before (entry_of (Take queue id bytes) (outcome.Taken (taken.Denied error)) effects) →
        IsDenied start before queue id bytes error × (effects ≡ []) }
{}

/// Each write has bytes, and is a client's own, with WRITE in force on the region in which it lies
/// whole; or a group's, of a packet in flight that was launched with WRITE in force there for the
/// owner of its queue. The regions are as many and as long as there may be.
pub fn law_each_write_was_granted()
    ensures { (start : Start) (entries before : List Entry) (entry : Entry) → are_region_lengths (region_lengths start.policy) ≡ true →
        IsWhole start entries → IsEntryBehind entries before entry → All (WriteIsGranted start before entry.event) entry.effects }
{}

/// Each change of a signal is a client's own, with CHANGE in force; or the decrement of the completion
/// signal of a packet in flight that was launched with CHANGE in force for the owner of its queue.
pub fn law_each_signal_change_was_granted()
    ensures { (start : Start) (entries before : List Entry) (entry : Entry) →
        IsWhole start entries → IsEntryBehind entries before entry → All (ChangeIsGranted start before entry.event) entry.effects }
{}

/// Each packet that is released is in flight, and is the one that completes, or faults, or is the
/// barrier packet of a queue that is stopped, or is of a queue that is closed.
pub fn law_each_release_is_due()
    ensures { (start : Start) (entries before : List Entry) (entry : Entry) →
        IsWhole start entries → IsEntryBehind entries before entry → All (ReleaseIsDue start before entry.event entry.outcome) entry.effects }
{}

/// A packet that completes is in flight and has its work done; its completion signal, unless it is null,
/// is decremented once, and it is released.
pub fn law_each_completion_comes_after_the_work()
    ensures { (start : Start) (entries before : List Entry) (queue : QueueId) (id : PacketId) (told : Outcome) (effects : List Effect) →
        IsWhole start entries → IsEntryBehind entries before (entry_of (Call (Finish queue id)) told effects) →
        (told ≡ outcome.Accepted) × IsCompleted start before queue id effects }
{}

/// A poll that leaves an entry is of a packet in flight, and tells what the signals were just before: a
/// dependency that is negative fails it, and it is ready just where what was seen as 0 since its launch
/// suffices.
pub fn law_each_poll_is_by_the_signals()
    ensures { (start : Start) (entries before : List Entry) (queue : QueueId) (id : PacketId) (told : Outcome) (effects : List Effect) →
        IsWhole start entries → IsEntryBehind entries before (entry_of (Call (Poll queue id)) told effects) →
        (s : InFlightSince start before queue id) × (found : Polled) × (told ≡ outcome.Polled found)
        × IsPolled start before queue id s.flying.packet (progress start before queue id).satisfied found }
{}

/// A packet whose group runs is in flight, and was launched with READ in force, for the owner of its
/// queue, on all that its work reads; a group of an agent dispatch changes just its function's target and
/// its result's 8 bytes, as the function says, and what comes of a kernel's group is its meaning.
pub fn law_each_read_of_a_group_was_granted()
    ensures reads { (start : Start) (entries before : List Entry) (queue : QueueId) (id : PacketId) (told : Outcome) (effects : List Effect) →
        IsWhole start entries → IsEntryBehind entries before (entry_of (Call (RunNext queue id)) told effects) →
        (s : InFlightSince start before queue id) × All (MayReachRange start s.launch.before s.launch.opening.client right.Read) (ranges_seen start (own_rights start before queue id) s.flying.packet) }
    ensures agents { (start : Start) (entries before : List Entry) (queue : QueueId) (id : PacketId) (told : Outcome) (effects : List Effect) (flying : InFlight) (dispatch : AgentDispatch) →
        IsWhole start entries → IsEntryBehind entries before (entry_of (Call (RunNext queue id)) told effects) →
        in_flight start before queue id ≡ Some flying → flying.packet ≡ packet.Agent dispatch → effects ≡ agent_writes start before dispatch }
    ensures means { (start : Start) (entries before : List Entry) (queue : QueueId) (id : PacketId) (told : Outcome) (effects : List Effect) (flying : InFlight) →
        IsWhole start entries → IsEntryBehind entries before (entry_of (Call (RunNext queue id)) told effects) →
        in_flight start before queue id ≡ Some flying → owed_group start before queue id (given_at_launch start before queue id) flying.packet (progress start before queue id) ≡ enters told effects }
{}

/// What a group is owed depends, beside what its packet was given at its launch, on memory alone, by the
/// ranges that its packet's work reads.
pub fn law_groups_depend_on_what_they_read()
    ensures { (start : Start) (one other : List Entry) (queue : QueueId) (id : PacketId) (own : GivenAtLaunch) (p : Packet) (so_far : Progress) →
        All (λ range. memory_from start one range.address.0 range.size ≡ memory_from start other range.address.0 range.size) (ranges_seen start own.rights p) →
        owed_group start one queue id own p so_far ≡ owed_group start other queue id own p so_far }
{}

/// An error names the packet that its event concerns; a packet that faults is released, and its fault
/// has no other effect.
pub fn law_faults_release_alone()
    ensures names { (start : Start) (entries before : List Entry) (entry : Entry) (error : QueueError) →
        IsWhole start entries → IsEntryBehind entries before entry → error_of entry.outcome ≡ Some error →
        packet_named entry.event ≡ Some (error.queue, error.packet) }
    ensures releases { (start : Start) (entries before : List Entry) (entry : Entry) (error : QueueError) →
        IsWhole start entries → IsEntryBehind entries before entry →
        (entry.outcome ≡ outcome.Worked (worked.Faulted error)) ⊎ (entry.outcome ≡ outcome.Polled (polled.Failed error)) →
        entry.effects ≡ effect.Release error.queue error.packet ∷ [] }
{}

/// A packet in flight was launched, and its rights, with all that it holds, are in force for the
/// owner of its queue; what it holds, wherever its history begins.
pub fn law_held_rights_are_in_force()
    ensures whole { (start : Start) (entries : List Entry) → IsWhole start entries → All (HoldsInForce start entries) (flight start entries) }
    ensures anywhere { (start : Start) (entries : List Entry) (queue : QueueId) (id : PacketId) (flying : InFlight) →
        IsLegal start entries → in_flight start entries queue id ≡ Some flying →
        (opening : Opening) × (owner start entries queue ≡ Some opening) × AllInForce start entries opening.client (own_rights start entries queue id) }
{}

/// A grant gives what the policy in force allows the client, and has no effect.
pub fn law_each_grant_is_allowed()
    ensures { (start : Start) (entries before : List Entry) (client : ClientId) (on : Object) (rights : Rights) (told : Outcome) (effects : List Effect) →
        IsWhole start entries → IsEntryBehind entries before (entry_of (Call (Grant client on rights)) told effects) →
        (are_allowed (rules_of (policy_at start before)) client on rights ≡ true) × (effects ≡ []) }
{}

/// A queue is opened for a client that may use the agent, and is a new one, under the number behind all
/// that were ever opened, which is the client's from then on, until it is closed.
pub fn law_each_queue_is_its_openers()
    ensures { (start : Start) (entries before : List Entry) (client : ClientId) (agent : AgentHandle) (size : ℕ) (told : Outcome) (effects : List Effect) →
        IsWhole start entries → IsEntryBehind entries before (entry_of (Open client agent size) told effects) →
        IsOpened start before (entry_of (Open client agent size) told effects) client agent }
{}

/// A close is of an open queue; it releases each packet of it in flight, ascending by id, and has no
/// other effect: it completes none, and writes nothing.
pub fn law_each_close_releases_all()
    ensures { (start : Start) (entries before : List Entry) (queue : QueueId) (told : Outcome) (effects : List Effect) →
        IsWhole start entries → IsEntryBehind entries before (entry_of (Call (Close queue)) told effects) →
        (told ≡ outcome.Accepted) × IsClosed start before queue effects }
{}

/// A queue that was closed is gone, whatever legal entries follow: nothing of it is told, held or in
/// flight, what names it is refused, so that no later entry does, and no later queue has its number.
/// So is one that the start says was closed, whose close isn't among these entries.
pub fn law_closed_queues_stay_gone()
    ensures gone { (start : Start) (before more : List Entry) (queue : QueueId) (told : Outcome) (effects : List Effect) →
        IsLegal start (before ++ entry_of (Call (Close queue)) told effects ∷ more) → IsGone start (before ++ entry_of (Call (Close queue)) told effects ∷ more) queue }
    ensures unnamed { (start : Start) (before more : List Entry) (queue : QueueId) (told : Outcome) (effects : List Effect) →
        IsLegal start (before ++ entry_of (Call (Close queue)) told effects ∷ more) →
        All (λ entry. (names_queue queue entry.event ≡ false) × (entry.outcome ≡ outcome.Opened queue → ⊥)) more }
    ensures gone_before { (start : Start) (entries : List Entry) (queue : QueueId) → IsLegal start entries → WasClosed start queue → IsGone start entries queue }
    ensures unnamed_since { (start : Start) (entries : List Entry) (queue : QueueId) → IsLegal start entries → WasClosed start queue →
        All (λ entry. (names_queue queue entry.event ≡ false) × (entry.outcome ≡ outcome.Opened queue → ⊥)) entries }
{}

/// A client's write is made only with WRITE in force, and then whole; its change of a signal only with
/// CHANGE in force, and then as the operation says, and it is told the old value only where it asked.
pub fn law_each_host_call_was_granted()
    ensures write { (start : Start) (entries before : List Entry) (client : ClientId) (address : Address) (bytes : List ℕ) (told : Outcome) (effects : List Effect) →
        IsWhole start entries → IsEntryBehind entries before (entry_of (Call (HostWrite client address bytes)) told effects) →
        MayReach start before client right.Write address.0 (length bytes) × (effects ≡ effect.Write address bytes ∷ []) × (told ≡ outcome.Accepted) }
    ensures change { (start : Start) (entries before : List Entry) (client : ClientId) (signal : SignalHandle) (operation : SignalOp) (told : Outcome) (effects : List Effect) →
        IsWhole start entries → IsEntryBehind entries before (entry_of (Call (ChangeSignal client signal operation)) told effects) →
        (in_force start before client (object.Signal signal) right.Change ≡ true) × (old : ℤ) × (value_of (signals start before) signal.0 ≡ Some old)
        × (effects ≡ effect.Signal signal old (applied operation old) ∷ []) × (told ≡ outcome.Changed (old_if_asked operation old)) }
{}

/// A client that is told bytes of memory is told those of the range, which lies whole in a region on
/// which READ is in force for it.
pub fn law_each_read_of_a_client_is_granted()
    ensures { (start : Start) (entries : List Entry) (client : ClientId) (address : Address) (size : ℕ) (told : Answer) →
        query_answer start entries (query.HostRead client address size) ≡ Ok told →
        MayReach start entries client right.Read address.0 size × (told ≡ answer.Bytes (memory_from start entries address.0 size)) }
{}

/// A client that is told a signal's value, or how it compares, has WAIT in force on it.
pub fn law_each_look_at_a_signal_is_granted()
    ensures load { (start : Start) (entries : List Entry) (client : ClientId) (signal : SignalHandle) (told : Answer) →
        query_answer start entries (query.LoadSignal client signal) ≡ Ok told →
        (in_force start entries client (object.Signal signal) right.Wait ≡ true) × (v : ℤ) × (value_of (signals start entries) signal.0 ≡ Some v) × (told ≡ answer.Value v) }
    ensures test { (start : Start) (entries : List Entry) (client : ClientId) (signal : SignalHandle) (condition : Condition) (value : ℤ) (told : Answer) →
        query_answer start entries (query.TestSignal client signal condition value) ≡ Ok told →
        (in_force start entries client (object.Signal signal) right.Wait ≡ true) × (v : ℤ) × (value_of (signals start entries) signal.0 ≡ Some v)
        × (told ≡ answer.Test (meets condition v value)) }
{}

/// Each object that a client is listed is one on which it has a right in force, and it is told just
/// those.
pub fn law_each_listed_right_is_in_force()
    ensures { (start : Start) (entries : List Entry) (client : ClientId) (told : Answer) →
        query_answer start entries (query.List client) ≡ Ok told →
        (rows : List (Object × Rights)) × (told ≡ answer.Listing rows) × All (IsListed start entries client) rows }
{}

/// Each right in force is one that the policy in force allows the client.
pub fn law_each_right_in_force_is_allowed()
    ensures { (start : Start) (entries : List Entry) (client : ClientId) (on : Object) (right : Right) →
        IsWhole start entries → in_force start entries client on right ≡ true → is_allowed (rules_of (policy_at start entries)) client on right ≡ true }
{}

/// A known client's own call is denied where the right that it needs is not in force: a write or a read of
/// a good size, a change of a signal or a look at it, and the opening of a queue.
pub fn law_calls_without_their_right_are_denied()
    ensures write { (start : Start) (entries : List Entry) (client : ClientId) (address : Address) (bytes : List ℕ) →
        knows_client (rules_of start.policy) client ≡ true → is_host_size (length bytes) ≡ true → (MayReach start entries client right.Write address.0 (length bytes) → ⊥) →
        owed start entries (Call (HostWrite client address bytes)) ≡ refuses (refusal.Denied right.Write) }
    ensures change { (start : Start) (entries : List Entry) (client : ClientId) (signal : SignalHandle) (operation : SignalOp) →
        knows_client (rules_of start.policy) client ≡ true → in_force start entries client (object.Signal signal) right.Change ≡ false →
        owed start entries (Call (ChangeSignal client signal operation)) ≡ refuses (refusal.Denied right.Change) }
    ensures opening { (start : Start) (entries : List Entry) (client : ClientId) (agent : AgentHandle) (size : ℕ) →
        knows_client (rules_of start.policy) client ≡ true → in_force start entries client (object.Agent agent) right.Use ≡ false →
        owed start entries (Open client agent size) ≡ refuses (refusal.Denied right.Use) }
    ensures read { (start : Start) (entries : List Entry) (client : ClientId) (address : Address) (size : ℕ) →
        knows_client (rules_of start.policy) client ≡ true → is_host_size size ≡ true → (MayReach start entries client right.Read address.0 size → ⊥) →
        query_answer start entries (query.HostRead client address size) ≡ Err (refusal.Denied right.Read) }
    ensures load { (start : Start) (entries : List Entry) (client : ClientId) (signal : SignalHandle) →
        knows_client (rules_of start.policy) client ≡ true → in_force start entries client (object.Signal signal) right.Wait ≡ false →
        query_answer start entries (query.LoadSignal client signal) ≡ Err (refusal.Denied right.Wait) }
    ensures test { (start : Start) (entries : List Entry) (client : ClientId) (signal : SignalHandle) (condition : Condition) (value : ℤ) →
        knows_client (rules_of start.policy) client ≡ true → in_force start entries client (object.Signal signal) right.Wait ≡ false →
        query_answer start entries (query.TestSignal client signal condition value) ≡ Err (refusal.Denied right.Wait) }
{}

/// What is refused, an event or a query, for whatever cause, leaves the history as it was.
pub fn law_refusals_change_nothing()
    ensures { (old new : History) (asked : CoreRequest) (why : Refusal) → IsServed old asked (Err why) new → new ≡ old }
{}

/// What is served, a call or any list of requests in turn, leaves a legal history legal, with its
/// entries so far as they were; and each beginning of a legal history is legal.
pub fn law_serving_keeps_a_history_legal()
    ensures call { (old new : History) (event : Event) (reply : Result Outcome Refusal) →
        IsLegal (beginning old) old.entries → MeetsOrLacks event old new reply → GoesOn old new }
    ensures list { (old new : History) (requests : List CoreRequest) (replies : List AnswerOrRefusal) →
        IsLegal (beginning old) old.entries → AreReplies old requests replies new → GoesOn old new }
    ensures beginnings { (start : Start) (before more : List Entry) → IsLegal start (before ++ more) → IsLegal start before }
{}

/// After any entries, a packet is in flight just where it was so at the start, or one of them launched
/// it, and none since, the launch's own among them, released it.
pub fn law_of_flight()
    ensures { LawOfFlight }
{}

/// What a rotation of a legal history hands out is a part that is legal for its kernels, and what is left goes
/// on legally.
pub fn law_rotations_hand_out_legal_parts()
    ensures part { (old new : History) (part : Part) → IsLegal (beginning old) old.entries → IsRotated old part new → IsLegalPart old.kernels part }
    ensures rest { (old new : History) (part : Part) → IsLegal (beginning old) old.entries → IsRotated old part new → IsLegal (beginning new) new.entries }
{}

/// Two parts of a history of which the second begins where the first ends, both legal for the same
/// kernels, are joined to one part that is legal for them.
pub fn law_joined_parts_are_legal()
    ensures { (kernels : List Program) (first second : Part) → IsLegalPart kernels first → IsLegalPart kernels second → IsFollowedBy first second → IsLegalPart kernels (joined first second) }
{}

/// Parts that are legal for some kernels, and lead to where a history begins that is legal for them, are with
/// that history one whole legal history: no entry came before.
pub fn law_parts_lead_to_whole_histories()
    ensures { (kernels : List Program) (parts : List Part) (origin : Origin) (entries : List Entry) →
        All (IsLegalPart kernels) parts → LeadTo parts origin → IsLegal (begin kernels origin) entries →
        IsWhole (begin kernels (first_start parts origin)) (entries_in parts ++ entries) }
{}

/// A history goes on from the state behind its entries: that state begins a legal one, where they are
/// legal, and a legal history may be parted and joined at any place. What a legal history ends in is what
/// the whole one does that led to it, so that each law of whole histories speaks of it too. What an event
/// is owed from there, and what a query is answered, is what it was owed behind those entries. The audit
/// alone answers the entries since its start.
pub fn law_histories_go_on_from_their_states()
    ensures rotated { (start : Start) (entries : List Entry) → IsLegal start entries → IsLegal (state_after start entries) [] }
    ensures state { (start : Start) (before more : List Entry) → state_after start (before ++ more) ≡ state_after (state_after start before) more }
    ensures behind { (start : Start) (entries : List Entry) (legal : IsLegal start entries) → state_after (opening_state legal.first start.kernels) (legal.prior ++ entries) ≡ state_after start entries }
    ensures parted { (start : Start) (before more : List Entry) → IsLegal start (before ++ more) → IsLegal (state_after start before) more }
    ensures joined { (start : Start) (before more : List Entry) → IsLegal start before → IsLegal (state_after start before) more → IsLegal start (before ++ more) }
    ensures owed { (start : Start) (before more : List Entry) (event : Event) → owed start (before ++ more) event ≡ owed (state_after start before) more event }
    ensures answered { (start : Start) (before more : List Entry) (asked : Query) → (asked ≡ query.Audit → ⊥) →
        query_answer start (before ++ more) asked ≡ query_answer (state_after start before) more asked }
{}

/// What an opened core begins from is the opening state; a history that begins there is legal just where
/// it is whole: no entry came before.
pub fn law_whole_histories_begin_at_an_opening()
    ensures opened { (policy : Declared) (kernels : List Program) (origin : Origin) → IsOpeningOrigin policy origin → begin kernels origin ≡ opening_state policy kernels }
    ensures legal { (start : Start) (entries : List Entry) → IsWhole start entries → IsLegal start entries }
    ensures whole { (start : Start) (entries : List Entry) → start.before ≡ 0 → IsLegal start entries → IsWhole start entries }
{}

/// Of what isn't there a legal history tells nothing: memory outside the regions stays 0; a packet that
/// isn't in flight holds no right, has no arguments, and its progress is that of a launch; a queue that isn't
/// open has taken nothing, has no error and no packet in flight, and wasn't stopped; and no two packets in
/// flight have one name, so that each is found by its queue and id.
pub fn law_nothing_is_told_of_what_is_not_there()
    ensures memory { (start : Start) (entries : List Entry) (address : ℕ) → are_region_lengths (region_lengths start.policy) ≡ true →
        IsLegal start entries → lies_in_region (region_lengths start.policy) address ≡ false → memory_at start entries address ≡ 0 }
    ensures rights { (start : Start) (entries : List Entry) (queue : QueueId) (id : PacketId) (client : ClientId) (on : Object) (right : Right) →
        IsLegal start entries → in_flight start entries queue id ≡ None → held start entries queue id client on right ≡ false }
    ensures progress { (start : Start) (entries : List Entry) (queue : QueueId) (id : PacketId) →
        IsLegal start entries → in_flight start entries queue id ≡ None → progress start entries queue id ≡ launch_progress }
    ensures arguments { (start : Start) (entries : List Entry) (queue : QueueId) (id : PacketId) →
        IsLegal start entries → in_flight start entries queue id ≡ None → arguments start entries queue id ≡ [] }
    ensures queues { (start : Start) (entries : List Entry) (queue : QueueId) → IsLegal start entries → owner start entries queue ≡ None → NothingIsToldOf start entries queue }
    ensures apart { (start : Start) (entries : List Entry) → IsLegal start entries → AreApart (flight start entries) }
    ensures named { (start : Start) (entries : List Entry) →
        IsLegal start entries → All (λ f. in_flight start entries f.queue f.id ≡ Some f) (flight start entries) }
{}

/// An audit keeps a place for each packet in flight: one that was just opened does, and whatever is
/// served, an event or any list of requests, leaves it so.
pub fn law_audits_keep_room_for_packets_in_flight()
    ensures opened { (history : History) (policy : Declared) (kernels : List Program) (capacity : ℕ) → IsOpening history policy kernels capacity → HasRoom history }
    ensures event { (old new : History) (event : Event) (reply : Result Outcome Refusal) → HasRoom old → MeetsOrLacks event old new reply → HasRoom new }
    ensures list { (old new : History) (requests : List CoreRequest) (replies : List AnswerOrRefusal) → HasRoom old → AreReplies old requests replies new → HasRoom new }
{}

/// Where an audit keeps them, what takes a packet out of flight is never refused for want of room: a
/// completion, a group that is owed a fault, a poll that is owed a failure, the stop of a queue that has a
/// barrier packet in flight, and the close of one that has a packet in flight are due what they are owed, and
/// nothing is owed that refusal.
pub fn law_what_leaves_flight_finds_room()
    ensures completion { (history : History) (queue : QueueId) (id : PacketId) → HasRoom history → FindsRoom history (Call (Finish queue id)) }
    ensures fault { (history : History) (queue : QueueId) (id : PacketId) (error : QueueError) (effects : List Effect) → HasRoom history →
        owed (beginning history) history.entries (Call (RunNext queue id)) ≡ enters (outcome.Worked (worked.Faulted error)) effects → FindsRoom history (Call (RunNext queue id)) }
    ensures failure { (history : History) (queue : QueueId) (id : PacketId) (error : QueueError) (effects : List Effect) → HasRoom history →
        owed (beginning history) history.entries (Call (Poll queue id)) ≡ enters (outcome.Polled (polled.Failed error)) effects → FindsRoom history (Call (Poll queue id)) }
    ensures stop { (history : History) (queue : QueueId) (barrier : PacketId) → HasRoom history →
        barrier_in (flight_of (beginning history) history.entries queue) ≡ Some barrier → FindsRoom history (Call (Stop queue)) }
    ensures close { (history : History) (queue : QueueId) (flying : InFlight) → HasRoom history →
        Contains (flight_of (beginning history) history.entries queue) flying → FindsRoom history (Call (Close queue)) }
    ensures owes { (start : Start) (entries : List Entry) (event : Event) → owed start entries event ≡ refuses refusal.AuditFull → ⊥ }
{}

/// The code's limits and functions' numbers are those of the rules. A launch begins with no group run and no
/// dependency seen as 0.
pub fn law_numbers_are_those_of_the_rules()
    ensures in_flight { MOST_IN_FLIGHT ≡ most_in_flight }
    ensures queues { QUEUES ≡ most_queues }
    ensures host_bytes { MOST_HOST_BYTES ≡ most_host_bytes }
    ensures entries { MOST_ENTRIES ≡ most_entries }
    ensures before { MOST_BEFORE ≡ most_before }
    ensures fill { FILL ≡ fill_number }
    ensures copy { COPY ≡ copy_number }
    ensures add64 { ADD64 ≡ add64_number }
    ensures launch { LAUNCH_PROGRESS ≡ launch_progress }
    ensures unseen { NONE_SATISFIED ≡ none_satisfied }
{}
