//! All that a policy allows is granted.

ghost use Rattle.std.specs.Prelude.{IfErr, OnOk};
ghost use Rattle.policy.specs.Policy.{rules_of};
ghost use Rattle.policy.specs.Rules.{count};
ghost use Rattle.threads_load.specs.Grantings.{AddsGrants, HasAllAllowed, HasAllowed, HasAllowedOn, HasAllowedOnAll, IsRefusedGrant};

use access_core::AccessCore;
use aql_packet::ClientId;
use bitflags::Flags;
use core_model::Refusal;
use policy::{Kind, Object};

// Grants a client all rights on an object that the core's policy allows, if it allows any.
#[tactic(auto, using(crate::proofs::Granted::grant_adds, crate::proofs::Granted::none_adds, crate::proofs::Granted::grant_has, crate::proofs::Granted::none_has, crate::proofs::Granted::grant_refused))]
fn grant_on(core: &mut AccessCore, client: ClientId, object: Object) -> Result<(), Refusal>
    ensures adds { AddsGrants core.old.history core.new.history }
    ensures has { OnOk result (HasAllowed core.new.history client object) }
    ensures refused { IfErr result (IsRefusedGrant core.new.history) }
{
    let rights = core.policy().rows().allowed(client, object);
    if rights.is_empty() {
        return Ok(());
    }
    core.grant(client, object, rights)
}

// Grants a client all that is allowed on the objects of a kind.
fn grant_kind(core: &mut AccessCore, client: ClientId, kind: Kind) -> Result<(), Refusal>
    ensures adds { AddsGrants core.old.history core.new.history }
    ensures has { OnOk result (HasAllowedOn core.new.history client kind (count (rules_of core.new.history.origin.policy) kind)) }
    ensures refused { IfErr result (IsRefusedGrant core.new.history) }
{
    for before in 0..core.policy().object_count(kind) {
        grant_on(core, client, Object::of(kind, before as u64 + 1))?;
    }
    Ok(())
}

// Grants a client all that is allowed.
fn grant_client(core: &mut AccessCore, client: ClientId) -> Result<(), Refusal>
    ensures adds { AddsGrants core.old.history core.new.history }
    ensures has { OnOk result (HasAllowedOnAll core.new.history client) }
    ensures refused { IfErr result (IsRefusedGrant core.new.history) }
{
    grant_kind(core, client, Kind::Agent)?;
    grant_kind(core, client, Kind::Region)?;
    grant_kind(core, client, Kind::Signal)?;
    grant_kind(core, client, Kind::Kernel)
}

/// Grants each client all rights that the core's policy allows it, with one grant an object, and no other: each of them is
/// in force then. It stops at the first grant that the core refuses.
pub fn grant_all(core: &mut AccessCore) -> Result<(), Refusal>
    ensures adds { AddsGrants core.old.history core.new.history }
    ensures has { OnOk result (HasAllAllowed core.new.history) }
    ensures refused { IfErr result (IsRefusedGrant core.new.history) }
{
    for before in 0..core.policy().client_count() {
        grant_client(core, ClientId(before as u32 + 1))?;
    }
    Ok(())
}
