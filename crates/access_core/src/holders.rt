//! Which packet in flight stands against a revocation or a reload, by the rights that are listed with argument blocks. Queues
//! are gone over in order, and the packets of each by id, so that the first that is found is the least.

ghost use Rattle.std.specs.Prelude.{◌≡◌, ◌&&◌, All, find, length, nat_lt};
ghost use Rattle.std.specs.List.{list_any};
ghost use Rattle.std.specs.Option.{option_copied};
ghost use Rattle.policy.specs.Rights.{all_rights, has};
ghost use Rattle.grants.specs.Holders.{IsFirstTo};
ghost use Rattle.access_core.specs.inner.ArgumentBlocks.{AreInForce, all_blocks, has_block, lists_denied, lists_one, names_one};
ghost use Rattle.access_core.specs.inner.CachedQueue.{IsSound};
ghost use Rattle.access_core.specs.inner.Numbers.{AscendFrom};
ghost use Rattle.access_core.specs.inner.Given.{is_listed};

use crate::argument_blocks::ArgumentBlock;
use crate::queue::Queue;
use aql_packet::{ClientId, PacketId, QueueId};
use grants::Grants;
use policy::{Object, PolicyRows, Right, Rights};

/// Whether a right on an object is listed.
pub(crate) fn is_listed(given: &[(Object, Rights)], object: Object, right: Right) -> bool
    ensures { result ≡ is_listed given.now object right }
{
    given
        .iter()
        .any(|named| object == named.0 && named.1.has(right))
}

// Whether two sets have a right in common.
fn share_one(rights: Rights, others: Rights) -> bool
    ensures { result ≡ list_any (λ right. has rights right && has others right) all_rights }
{
    Right::ALL
        .iter()
        .any(|right| rights.has(*right) && others.has(*right))
}

// Whether a list names one of some rights on an object.
fn names_one(given: &[(Object, Rights)], object: Object, rights: Rights) -> bool
    ensures { result ≡ names_one object rights given.now }
{
    given
        .iter()
        .any(|named| object == named.0 && share_one(rights, named.1))
}

// Whether a block lists one of some rights of a client on an object.
fn lists_one(block: &ArgumentBlock, client: ClientId, object: Object, rights: Rights) -> bool
    ensures { result ≡ lists_one client object rights block.now }
{
    names_one(block.rights_for(client), object, rights)
}

// Whether a block lists a right that rows don't allow its client.
fn lists_denied(block: &ArgumentBlock, rows: &PolicyRows) -> bool
    ensures { result ≡ lists_denied rows.now block.now }
{
    let client = block.client;
    block
        .rights
        .as_slice()
        .iter()
        .any(|named| !rows.allow(client, named.0, named.1))
}

// The first of a queue's blocks that lists one of some rights of a client on an object.
#[inline(never)]
fn first_in_queue<'a>(
    queue: &'a Queue,
    client: ClientId,
    object: Object,
    rights: Rights,
) -> Option<&'a ArgumentBlock>
    ensures { option_copied result ≡ find (lists_one client object rights) queue.now.blocks }
{
    queue
        .blocks
        .as_slice()
        .iter()
        .find(|block| lists_one(block, client, object, rights))
}

// The same, without a look at the blocks of another client's queue: none of them does. It stands in the walk over all queues.
#[inline(always)]
fn first_of_client<'a>(
    queue: &'a Queue,
    client: ClientId,
    object: Object,
    rights: Rights,
) -> Option<&'a ArgumentBlock>
    requires { IsSound queue.now }
    ensures { option_copied result ≡ find (lists_one client object rights) queue.now.blocks }
{
    if queue.client.0 != client.0 {
        return None;
    }
    first_in_queue(queue, client, object, rights)
}

// The first of all blocks that lists one of some rights of a client on an object, queue by queue.
fn first_holding<'a>(
    queues: &'a [Queue],
    client: ClientId,
    object: Object,
    rights: Rights,
) -> Option<&'a ArgumentBlock>
    requires { All IsSound queues.now }
    ensures { option_copied result ≡ find (lists_one client object rights) (all_blocks queues.now) }
{
    for queue in queues {
        if let Some(block) = first_of_client(queue, client, object, rights) {
            return Some(block);
        }
    }
    None
}

/// The first packet that holds one of the client's rights on the object, if any does. Only the client's own queues are looked
/// at, up to it.
pub(crate) fn least_holder(
    queues: &[Queue],
    client: ClientId,
    object: Object,
    rights: Rights,
) -> Option<(QueueId, PacketId)>
    requires sound { All IsSound queues.now }
    requires ascending { AscendFrom 0 queues.now }
    ensures { IsFirstTo (has_block (lists_one client object rights) (all_blocks queues.now)) result }
{
    match first_holding(queues, client, object, rights) {
        None => None,
        Some(block) => Some((block.queue, block.packet)),
    }
}

// The first of a queue's blocks that lists a right that rows don't allow.
fn first_of_queue<'a>(queue: &'a Queue, rows: &PolicyRows) -> Option<&'a ArgumentBlock>
    ensures { option_copied result ≡ find (lists_denied rows.now) queue.now.blocks }
{
    queue
        .blocks
        .as_slice()
        .iter()
        .find(|block| lists_denied(block, rows))
}

// The first of all blocks that lists a right that rows don't allow, queue by queue.
fn first_denied<'a>(queues: &'a [Queue], rows: &PolicyRows) -> Option<&'a ArgumentBlock>
    ensures { option_copied result ≡ find (lists_denied rows.now) (all_blocks queues.now) }
{
    for queue in queues {
        if let Some(block) = first_of_queue(queue, rows) {
            return Some(block);
        }
    }
    None
}

// Whether a packet of one of these queues is in flight.
fn is_any_in_flight(queues: &[Queue]) -> bool
    ensures { result ≡ list_any (λ q. nat_lt 0 (length q.blocks)) queues.now }
{
    queues.iter().any(|queue| 0 < queue.blocks.as_slice().len())
}

/// The first packet that holds a right that rows don't allow, if any does. Packets are looked at only where a right in force
/// isn't allowed any more.
pub(crate) fn least_denied(
    grants: &mut Grants,
    queues: &[Queue],
    rows: &PolicyRows,
) -> Option<(QueueId, PacketId)>
    requires in_force { AreInForce grants.old (all_blocks queues.now) }
    requires sound { All IsSound queues.now }
    requires ascending { AscendFrom 0 queues.now }
    ensures first { IsFirstTo (has_block (lists_denied rows.now) (all_blocks queues.now)) result }
    ensures same { grants.new ≡ grants.old }
{
    if !is_any_in_flight(queues) {
        return None;
    }
    if grants.are_allowed_by(rows) {
        return None;
    }
    match first_denied(queues, rows) {
        None => None,
        Some(block) => Some((block.queue, block.packet)),
    }
}
