//! Sets of rights that two sets make.

ghost use Rattle.std.specs.Prelude.{◌≡◌, ◌||◌, true, false};
ghost use Rattle.policy.specs.declared.rights.Right.{Right};
ghost use Rattle.policy.specs.Rights.{has, rights_that};

use bitflags::Flags;
use policy::{Right, Rights};

/// The rights of two sets.
pub fn union(rights: Rights, more: Rights) -> Rights
    ensures { (right : Right) → has result right ≡ (has rights right || has more right) }
{
    rights.union(more)
}

/// Whether a set is empty, so that it has no right.
pub fn is_none(rights: Rights) -> bool
    ensures { result ≡ true → (right : Right) → has rights right ≡ false }
{
    rights.is_empty()
}

/// The rights of a set, without bits that mean nothing.
pub fn known(rights: Rights) -> Rights
    ensures { result ≡ rights_that (has rights) }
{
    Rights::from_each(
        rights.has(Right::Use),
        rights.has(Right::Read),
        rights.has(Right::Write),
        rights.has(Right::Wait),
        rights.has(Right::Change),
        rights.has(Right::Launch),
    )
}
