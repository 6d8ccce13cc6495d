//! What rows cover.

ghost use Rattle.std.specs.Prelude.{◌≡◌};
ghost use Rattle.std.specs.List.{list_any};
ghost use Rattle.policy.specs.declared.rights.Right.{Right};
ghost use Rattle.policy.specs.Rules.{covers_right};
ghost use Rattle.policy.specs.Rights.{has};

use crate::object::Object;
use crate::rights::Rights;
use crate::row::RightsRow;
use aql_packet::ClientId;
use bitflags::Flags;

/// The rights that some row covers for a client and an object.
pub fn covered(rows: &[RightsRow], client: ClientId, object: Object) -> Rights
    ensures { (right : Right) → has result right ≡ list_any (covers_right client object right) rows.now }
{
    let mut covered = Rights::NONE;
    for row in rows {
        if row.covers(client, object) {
            covered.insert(row.rights);
        }
    }
    covered
}
