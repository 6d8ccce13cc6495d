//! Laws of work-groups.

ghost use Rattle.std.specs.Prelude.{◌≡◌, ◌≤◌, ℕ, List, All, Some, length, slice_get};
ghost use Rattle.policy.specs.declared.rights.Right.TheVariants as right;
ghost use Rattle.executor.specs.Footprints.{Bytes, IsTurn, TouchesAsNamed};
ghost use Rattle.executor.specs.Group.{Standing, Leads, done, ready};
ghost use Rattle.executor.specs.LockStep.{HaveStopped, Moment, RunsInLockStep, RunsToStop, status_around};
ghost use Rattle.executor.specs.Limits.{budget, most_group_items, most_segment_bytes};
ghost use Rattle.executor.specs.Laws.{AreLentAlike, AreShort, IsHeldRun, RunsRight};
ghost use Rattle.executor.specs.Items.{Contents, LentRegion, Surroundings};
ghost use Rattle.executor.specs.Locations.{count_of};
ghost use Rattle.executor.specs.Results.{IsOver, after_turns, group_result, most_turns, wrote};
ghost use Rattle.executor.specs.Runs.{GroupInput, begun, surroundings_of};
ghost use Rattle.executor.specs.Told.{runs_of};
ghost use Rattle.executor.specs.declared.item.Item.{Item};
ghost use Rattle.kernel_check.specs.Programs.{Program};
ghost use Rattle.executor.specs.declared.written_range.WrittenRange.{WrittenRange};
ghost use Rattle.executor.specs.declared.limits.TheConstants.{BUDGET, MOST_GROUP_ITEMS, MOST_SEGMENT_BYTES};

use kernel_check::Checked;

/// A checked kernel never meets a wrong register, an unknown label or a missing argument: as long as a
/// work-group of it runs, each of its items stands at the kernel's end or at a step whose registers are of the
/// classes that it asks, whose label is there, and whose argument is one of the kernel's, as wide as it reads. It
/// does nothing.
pub fn law_checked_kernels_run_right(checked: &Checked)
    ensures { (index : ℕ) (input : GroupInput) → slice_get checked.now index ≡ Some input.program → RunsRight input }
{
    checked.law_are_sound();
}

/// A work-group has come to its end after as many turns as `most_turns` says, whatever its kernel does: all of its
/// items have ended, or one has broken a rule. It does nothing.
pub fn law_groups_come_to_an_end()
    ensures { (input : GroupInput) → count_of input.group_size ≤ most_group_items
        → IsOver (after_turns (surroundings_of input) input.program most_turns (begun input)) }
{}

/// Each run that a work-group writes has bytes, and each of its addresses lies in a held region on which
/// WRITE is held. It does nothing.
pub fn law_writes_lie_in_held_regions()
    ensures { (input : GroupInput) (runs : List WrittenRange) → AreShort input.view → group_result input ≡ wrote runs → All (IsHeldRun input.view right.Write) runs }
{}

/// What a work-group comes to depends on the bytes of those held regions alone on which READ is held. It
/// does nothing.
pub fn law_groups_read_where_they_may()
    ensures { (input : GroupInput) (others : List LentRegion) → AreLentAlike input.view others → group_result input ≡ group_result (record input { view = others }) }
{}

/// The code's limits of what is run are those of the rules. It does nothing.
pub fn law_numbers_are_those_of_the_rules()
    ensures items { MOST_GROUP_ITEMS ≡ most_group_items }
    ensures segment { MOST_SEGMENT_BYTES ≡ most_segment_bytes }
    ensures budget { BUDGET ≡ budget }
{}

/// A turn that breaks no rule reads no place but those that its step names, and writes no place but those: over
/// any memory with the same bytes where it reads it leads to the same, and writes the same. It does nothing.
pub fn law_turns_touch_what_their_steps_name()
    ensures { (a : Surroundings) (p : Program) (size n : ℕ) (i : Item) (executed : ℕ) (m : Bytes) (next : Standing) (after : Contents)
        → IsTurn a p size n (ready i executed) m next after → TouchesAsNamed a p size n i executed next m }
{}

/// The order in which work-items take turns changes nothing as long as no turn meets a conflict: none reads what a
/// higher item wrote before, and none writes what a higher item read or wrote before. It does nothing.
///
/// - `strips`: neighbouring items that run so until each has stopped stand where always the least item first leads;
///   those before them have stopped, those behind have yet to run.
/// - `groups`: a group that runs so, from barrier to barrier, comes to what it wrote.
/// - `each`: a group that is done by its definition has such a run.
pub fn law_lock_step_is_right()
    ensures strips { (a : Surroundings) (p : Program) (size : ℕ) (earlier later : List Standing) (before after : Moment)
        → HaveStopped earlier → RunsToStop a p size (length earlier) before after
        → Leads a p (status_around earlier later size before) (status_around earlier later size after) }
    ensures groups { (input : GroupInput) (m : Contents) → count_of input.group_size ≤ most_group_items
        → RunsInLockStep input m → group_result input ≡ wrote (runs_of m.written) }
    ensures each { (input : GroupInput) (m : Contents) → Leads (surroundings_of input) input.program (begun input) (done m) → RunsInLockStep input m }
{}
