//! The headline, as a law of all lists of requests.

ghost use Rattle.std.specs.Prelude.{◌≡◌, ◌++◌, [], ℕ, List, Option, Result, None, Some, Ok, Err};
ghost use Rattle.aql_packet.specs.declared.ids.PacketId.{PacketId};
ghost use Rattle.aql_packet.specs.declared.ids.QueueId.{QueueId};
ghost use Rattle.policy.specs.Policy.{Declared, region_lengths};
ghost use Rattle.core_model.specs.declared.entry.Entry.{Entry};
ghost use Rattle.core_model.specs.History.{Part, beginning};
ghost use Rattle.core_model.specs.Legal.{IsLegal};
ghost use Rattle.core_model.specs.Rotation.{GoOn, entries_in};
ghost use Rattle.kernel_check.specs.Programs.{Program};
ghost use Rattle.world.specs.declared.lane.Sent.{Sent};
ghost use Rattle.world.specs.declared.lane.Served.{Served};
ghost use Rattle.world.specs.declared.lane.Shown.{Shown};
ghost use Rattle.world.specs.declared.reply.Refusal.{Refusal};
ghost use Rattle.world.specs.declared.request.Request.{Request};
ghost use Rattle.world.specs.Actions.{Reaches};
ghost use Rattle.world.specs.Asked.{GoesOnAsAsked, IsAsAsked};
ghost use Rattle.world.specs.Dues.{AreReplies, IsServed, Reply, handed_out, parts_out};
ghost use Rattle.core_model.specs.declared.call.Call.TheVariants.{Close};
ghost use Rattle.ring_core.specs.Machine.{Machine};
ghost use Rattle.world.specs.declared.reply.Answer.{Answer};
ghost use Rattle.world.specs.declared.request.Request.TheVariants as request;
ghost use Rattle.world.specs.Headline.{Headline, IsBegun};
ghost use Rattle.world.specs.Lanes.{peek, publish, retire, serve_next, submit};
ghost use Rattle.world.specs.InStep.{IsJoinedBehind, WasInStep};
ghost use Rattle.world.specs.States.{Joined, closed_ring_of, ring_of};

use core_model::{
    law_calls_without_their_right_are_denied, law_denials_name_the_first_rule,
    law_each_launch_was_granted, law_each_listed_right_is_in_force,
    law_each_look_at_a_signal_is_granted, law_each_read_of_a_client_is_granted,
    law_each_read_of_a_group_was_granted, law_each_signal_change_was_granted,
    law_each_write_was_granted, law_faults_release_alone, law_groups_depend_on_what_they_read,
};
use policy::{Kind, Policy};

/// Over any policy, with any kernels, after any list of requests, in any interleaving of producers, processors, grants, revocations and
/// calls of clients, the history is legal: every launch, byte accessed, signal changed and handle listed
/// is one that a packet or a call of that client asked for and a grant in force allowed, at launch for a
/// packet; each denial changes nothing and names the packet and the first rule that failed; a group that
/// faults leaves nothing; and what was launched or denied of each queue is a beginning of what was published in
/// its ring, whole, each once, in order; so it is of each closed queue, with its ring as it stood before the close. The history is that of all parts that replies handed out, in order, and
/// then of the audit. The world has the kernels and the audit's room that it was opened with, and each entry is of one
/// of the requests, in their order, with one entry a request at most.
pub fn law_headline(policy: &Policy)
    ensures headline { (kernels : List Program) (capacity : ℕ) (requests : List Request) (replies : List Reply) (opened world : Joined) →
        IsBegun opened policy.now kernels capacity → AreReplies opened requests replies world → Headline policy.now (handed_out replies) world }
    ensures asked { (kernels : List Program) (capacity : ℕ) (requests : List Request) (replies : List Reply) (opened world : Joined) →
        IsBegun opened policy.now kernels capacity → AreReplies opened requests replies world → IsAsAsked kernels capacity requests (handed_out replies) world }
{
    headline_of(policy);
}

// The headline holds of each world in step over a policy with the same regions.
pub(crate) fn headline_of(policy: &Policy)
    ensures { (first : Declared) (prior : List Entry) (world : Joined) → region_lengths first ≡ region_lengths policy.now → IsJoinedBehind first prior world → Headline first prior world }
{
    policy.object_count(Kind::Region);
    law_each_launch_was_granted();
    law_denials_name_the_first_rule();
    law_faults_release_alone();
    law_each_write_was_granted();
    law_each_signal_change_was_granted();
    law_each_read_of_a_group_was_granted();
    law_groups_depend_on_what_they_read();
    law_each_read_of_a_client_is_granted();
    law_each_look_at_a_signal_is_granted();
    law_each_listed_right_is_in_force();
    law_calls_without_their_right_are_denied();
}

/// Whatever came before, a list of requests goes on from it. The entries that its replies hand out, in order, and
/// then those of the audit at its end are a legal history from where the audit began; the parts begin each where the
/// one before it ends, and the audit where the last of them does. Behind all that was handed out, before and now,
/// the world is in step, and so the headline holds of it (`World::headline`). A world that was just opened
/// (`World::open`) is in step, with no entry before. So it is with whatever is some requests in turn, as the calls of a lane
/// and the lines of a script are, behind the parts that they hand out. Over the list the kernels and the audit's room stay, and each entry
/// more is of one of the requests, in their order.
pub fn law_each_run_goes_on()
    ensures opening { (policy : Declared) (kernels : List Program) (capacity : ℕ) (opened : Joined) →
        IsBegun opened policy kernels capacity → IsJoinedBehind policy [] opened }
    ensures asked { (requests : List Request) (replies : List Reply) (old new : Joined) →
        AreReplies old requests replies new → GoesOnAsAsked old requests (handed_out replies) new }
    ensures joined { (first : Declared) (prior : List Entry) (requests : List Request) (replies : List Reply) (old new : Joined) →
        IsJoinedBehind first prior old → AreReplies old requests replies new → IsJoinedBehind first (prior ++ handed_out replies) new }
    ensures legal { (first : Declared) (prior : List Entry) (requests : List Request) (replies : List Reply) (old new : Joined) →
        IsJoinedBehind first prior old → AreReplies old requests replies new → IsLegal (beginning old.core) (handed_out replies ++ new.core.entries) }
    ensures parts { (requests : List Request) (replies : List Reply) (old new : Joined) →
        AreReplies old requests replies new → GoOn old.core.origin (parts_out replies) new.core.origin }
    ensures entries { (replies : List Reply) → entries_in (parts_out replies) ≡ handed_out replies }
    ensures reached { (first : Declared) (prior : List Entry) (parts : List Part) (old new : Joined) →
        IsJoinedBehind first prior old → Reaches old parts new → IsJoinedBehind first (prior ++ entries_in parts) new × GoOn old.core.origin parts new.core.origin }
{}

/// What is refused, for whatever cause, leaves the world as it was.
pub fn law_refusals_change_nothing()
    ensures { (old new : Joined) (asked : Request) (why : Refusal) → IsServed old asked (Err why) new → new ≡ old }
{}

/// Where a queue was closed, it has no ring from then on, whatever is asked; and its ring as it stood just before was in step
/// with all that was ever launched or denied of it: that is a beginning of what was published in that ring, whole, each
/// once, in order, and no packet of it is launched or denied later.
pub fn law_closed_rings_were_in_step()
    ensures { (first : Declared) (prior : List Entry) (queue : QueueId) (ring : Machine) (told : Answer) (requests : List Request) (replies : List Reply) (old mid new : Joined) →
        IsJoinedBehind first prior old → ring_of old queue ≡ Some ring → IsServed old (request.Call (Close queue)) (Ok told) mid → AreReplies mid requests replies new →
        (ring_of new queue ≡ None) × (closed_ring_of new queue ≡ Some ring) × WasInStep ((prior ++ handed_out replies) ++ new.core.entries) queue ring }
{}

/// What `publish`, `submit`, `peek`, `retire` and `serve_next` of a world do is some requests, served in turn, and they hand
/// out no part of the audit. So what holds after any list of requests holds after each of them, behind what was handed out
/// before them.
pub fn law_lane_calls_are_requests()
    ensures publish { (queue : QueueId) (producer : ℕ) (ticket : PacketId) (words : List ℕ) (old : Joined) (told : Result Sent Refusal) (new : Joined) →
        publish queue producer ticket words old told new → Reaches old [] new }
    ensures submit { (queue : QueueId) (producer : ℕ) (words : List ℕ) (old : Joined) (told : Result Sent Refusal) (new : Joined) →
        submit queue producer words old told new → Reaches old [] new }
    ensures peek { (queue : QueueId) (old : Joined) (told : Result (Option Shown) Refusal) (new : Joined) → peek queue old told new → Reaches old [] new }
    ensures retire { (queue : QueueId) (old : Joined) (told : Result ℕ Refusal) (new : Joined) → retire queue old told new → Reaches old [] new }
    ensures serve_next { (queue : QueueId) (old : Joined) (told : Result (Option Served) Refusal) (new : Joined) → serve_next queue old told new → Reaches old [] new }
{}
