//! The rows of a policy that say which rights may be granted.

ghost use Rattle.std.specs.Prelude.{◌≡◌, IfOk, [], ◌&&◌, not};
ghost use Rattle.policy.specs.declared.rights.Right.{Right};
ghost use Rattle.policy.specs.Rights.{has, each_right};

use crate::coverage::covered;
use crate::object::Object;
use crate::rights::Rights;
use crate::row::RightsRow;
use aql_packet::ClientId;
use sequences::Sequence;
use std::alloc::{AllocError, Global};

/// The allow rows and the deny rows of a policy. A right is allowed where some allow row covers it, and no
/// deny row does.
#[derive(Debug, Drop, PartialEq, Eq)]
pub struct PolicyRows {
    /// The allow rows, in order.
    pub allows: Sequence<RightsRow>,
    /// The deny rows, in order.
    pub denies: Sequence<RightsRow>,
}

impl PolicyRows {
    ghost use Rattle.policy.specs.Rules.{rows_allow};

    // No rows. It takes no memory.
    pub(crate) fn none(alloc: Global) -> PolicyRows
        ensures { result ≡ record { allows = []; denies = [] } }
    {
        PolicyRows {
            allows: Sequence::new(alloc),
            denies: Sequence::new(alloc),
        }
    }

    /// The same rows in memory of their own.
    pub fn copy(&self, alloc: Global) -> Result<PolicyRows, AllocError>
        ensures { IfOk result (λ copy. copy ≡ self.now) }
    {
        Ok(PolicyRows {
            allows: self.allows.copy(alloc)?,
            denies: self.denies.copy(alloc)?,
        })
    }

    /// The rights that the rows allow a client on an object: of each some allow row covers the client,
    /// the object and the right, and no deny row does.
    pub fn allowed(&self, client: ClientId, object: Object) -> Rights
        ensures { (right : Right) → has result right ≡ rows_allow self.now client object right }
    {
        let granted = covered(self.allows.as_slice(), client, object);
        let denied = covered(self.denies.as_slice(), client, object);
        granted.without(denied)
    }

    /// Whether the rows allow each of some rights to a client on an object.
    pub fn allow(&self, client: ClientId, object: Object, rights: Rights) -> bool
        ensures { result ≡ each_right rights (rows_allow self.now client object) }
    {
        self.allowed(client, object).includes(rights)
    }
}
