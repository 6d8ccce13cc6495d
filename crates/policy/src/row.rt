//! Rows of a policy.

ghost use Rattle.std.specs.Prelude.{◌≡◌, ◌&&◌};

use crate::object::{Kind, Object};
use crate::rights::Rights;
use aql_packet::ClientId;

/// Whom a row on rights covers.
#[derive(Clone, Copy, Debug, PartialEq, Eq)]
pub enum Grantee {
    /// Every client.
    Any,
    /// One client.
    One(ClientId),
}

/// What a row on rights covers.
#[derive(Clone, Copy, Debug, PartialEq, Eq)]
pub enum Target {
    /// Every object of a kind.
    Any(Kind),
    /// One object.
    One(Object),
}

/// A row on rights: whom and what it covers, and which rights. As an allow row it says what may be granted, as a
/// deny row what may not.
#[derive(Clone, Copy, Debug, PartialEq, Eq)]
pub struct RightsRow {
    /// Whom it covers.
    pub subject: Grantee,
    /// What it covers.
    pub target: Target,
    /// The rights that it covers.
    pub rights: Rights,
}

impl RightsRow {
    ghost use Rattle.policy.specs.Rules.{is_for, is_on};

    /// Whether the row covers a client and an object.
    pub fn covers(&self, client: ClientId, object: Object) -> bool
        ensures { result ≡ (is_for self.now.subject client && is_on self.now.target object) }
    {
        let is_for = match self.subject {
            Grantee::Any => true,
            Grantee::One(named) => named == client,
        };
        let is_on = match self.target {
            Target::Any(kind) => kind == object.kind(),
            Target::One(named) => named == object,
        };
        is_for && is_on
    }
}

/// Which kinds of dispatch packets an agent takes. Barrier packets are taken by all (own).
#[derive(Clone, Copy, Debug, PartialEq, Eq)]
pub struct Takes {
    /// It takes kernel dispatches.
    pub kernel: bool,
    /// It takes agent dispatches.
    pub agent: bool,
}

/// What an agent takes that takes no dispatch.
pub const TAKES_NOTHING: Takes = Takes {
    kernel: false,
    agent: false,
};
