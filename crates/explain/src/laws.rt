//! The rights, the lacks and the owners that are told are those of the core's history.

ghost use Rattle.std.specs.Prelude.{◌≡◌, ◌&&◌, List, None, Some, if◌then◌else◌, is_none};
ghost use Rattle.aql_packet.specs.declared.ids.ClientId.{ClientId};
ghost use Rattle.kernel_check.specs.Programs.{Program};
ghost use Rattle.policy.specs.declared.object.Object.{Object};
ghost use Rattle.policy.specs.declared.rights.Right.{Right};
ghost use Rattle.core_model.specs.declared.entry.Entry.{Entry};
ghost use Rattle.core_model.specs.declared.need.Need.{Need};
ghost use Rattle.core_model.specs.declared.origin.Opening.{Opening};
ghost use Rattle.core_model.specs.declared.origin.Origin.{Origin};
ghost use Rattle.core_model.specs.Grants.{in_force};
ghost use Rattle.core_model.specs.History.{History, begin, beginning};
ghost use Rattle.core_model.specs.LaunchRules.{lies_whole, need_is_met};
ghost use Rattle.core_model.specs.Needs.{object_of};
ghost use Rattle.core_model.specs.Owed.{facts_of};
ghost use Rattle.core_model.specs.Policies.{rows_at};
ghost use Rattle.policy.specs.Policy.{region_lengths};
ghost use Rattle.explain.specs.Lacks.{in_force_since, lack_of, lacked};

/// Which rights are told to have been in force at a launch: those that were, in any history, with any kernels.
#[tactic(auto, unfolding(core_model::specs::Grants::in_force))]
pub fn law_told_rights_are_in_force()
    ensures { (kernels : List Program) (start : Origin) (entries : List Entry) (client : ClientId) (object : Object) (right : Right) →
        in_force_since start entries client object right ≡ in_force (begin kernels start) entries client object right }
{}

/// Which right is told to be lacked: one that isn't in force, in any history, and whether the rows in force allow it.
pub fn law_told_lacks_are_lacks()
    ensures { (history : History) (client : ClientId) (object : Object) (right : Right) →
        lack_of history client object right
        ≡ (if in_force (beginning history) history.entries client object right then None
        else Some (lacked (rows_at (beginning history) history.entries) client object right)) }
{}

/// What a packet needs and is told to lack is just what keeps it from its launch: a need is met where its range lies
/// whole and nothing is told to be lacked of it.
pub fn law_told_lacks_keep_from_a_launch()
    ensures { (history : History) (opening : Opening) (need : Need) →
        need_is_met (facts_of (beginning history) history.entries opening) need
        ≡ (lies_whole (region_lengths (beginning history).policy) need.subject && is_none (lack_of history opening.client (object_of need.subject) need.right)) }
{}
