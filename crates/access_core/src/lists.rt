//! Lists in memory of their own.

ghost use Rattle.std.specs.Prelude.{◌≡◌, ◌<◌, ◌+◌, IfOk, OnErr, length};

use policy::PolicyRows;
use sequences::Sequence;
use std::alloc::{AllocError, Global};

/// The same items in memory of their own. Where there are none, none is taken.
pub(crate) fn copied<T: Copy>(alloc: Global, items: &[T]) -> Result<Sequence<T>, AllocError>
    ensures items { IfOk result (λ copy. copy ≡ items.now) }
    ensures lacks { OnErr result (0 < length items.now) }
{
    if items.is_empty() {
        return Ok(Sequence::new(alloc));
    }
    Ok(Sequence::from_vec(Vec::from_slice(alloc, items)?))
}

/// The same rows in memory of their own. Where there are none, none is taken.
pub(crate) fn copied_rows(alloc: Global, rows: &PolicyRows) -> Result<PolicyRows, AllocError>
    ensures rows { IfOk result (λ copy. copy ≡ rows.now) }
    ensures lacks { OnErr result (0 < length rows.now.allows + length rows.now.denies) }
{
    Ok(PolicyRows {
        allows: copied(alloc, rows.allows.as_slice())?,
        denies: copied(alloc, rows.denies.as_slice())?,
    })
}
