//! Packets leave flight: they are completed, they fail, or their queue is stopped.

ghost use Rattle.std.specs.Prelude.{◌≡◌, ◌-◌, ◌≤◌, All, IfSome, vec_capacity};
ghost use Rattle.packet_processor.specs.Queueing.{IsFoundIn};
ghost use Rattle.access_core.specs.inner.ArgumentBlocks.{AreOfPlaces, Ascend, by_packet};
ghost use Rattle.access_core.specs.inner.CachedQueue.{IsSound};
ghost use Rattle.access_core.specs.inner.QueueChanges.{CanLeave, IsFoundOf, freed_by, packet_in, places_freed, with_leaving, with_queue, without_block, without_one};

use crate::access::lookups::open_index;
use crate::argument_blocks::ArgumentBlocks;
use crate::queue::Queue;
use crate::spare_lists::SpareLists;
use aql_packet::QueueId;
use packet_processor::{FoundPacket, Places};
use queue_error::QueueError;

/// What becomes of a queue that a packet leaves, beside that its place is free.
#[derive(Drop)]
pub(crate) enum Leaving {
    /// Nothing: the packet is completed.
    Completed,
    /// The packet failed, and the queue has an error more.
    Failed(QueueError),
    /// The queue is stopped.
    Stopped,
}

// Takes a packet out of its place, if one was found, and answers how many places that frees. What it was given goes with it,
// but for the memory of its rights.
#[inline(always)]
fn free_place(
    places: &mut Places,
    blocks: &mut ArgumentBlocks,
    spare: &mut SpareLists,
    found: Option<FoundPacket>,
) -> usize
    requires found { IfSome found (λ one. IsFoundIn one places.old) }
    requires named { AreOfPlaces places.old blocks.old }
    requires rising { Ascend by_packet blocks.old }
    ensures places { places.new ≡ without_one (packet_in found) places.old }
    ensures blocks { blocks.new ≡ without_block (packet_in found) blocks.old }
    ensures spare { spare.new ≡ spare.old }
    ensures freed { result ≡ places_freed (packet_in found) places.old }
{
    match found {
        None => 0,
        Some(found) => {
            let block = blocks.remove(found.index);
            spare.keep(block.rights);
            places.release(found);
            1
        }
    }
}

// Takes a packet out of its queue, if one was found, and answers how many places that frees.
#[inline(always)]
fn leave_queue(
    queues: &mut Vec<Queue>,
    spare: &mut SpareLists,
    queue: QueueId,
    found: Option<FoundPacket>,
    leaving: Leaving,
) -> usize
    requires there { CanLeave queues.old.items queue leaving }
    requires found { IsFoundOf queues.old.items queue found }
    requires sound { All IsSound queues.old.items }
    ensures queues { queues.new.items ≡ with_queue queues.old.items queue (with_leaving (packet_in found) leaving) }
    ensures freed { result ≡ freed_by (packet_in found) queues.old.items queue }
    ensures capacity { vec_capacity queues.new ≡ vec_capacity queues.old }
    ensures spare { spare.new ≡ spare.old }
{
    let index = open_index(queues.as_slice(), queue);
    let kept = &mut queues[index];
    match leaving {
        Leaving::Completed => {}
        Leaving::Failed(error) => kept.errors.push(error),
        Leaving::Stopped => kept.stopped = true,
    }
    free_place(&mut kept.places, &mut kept.blocks, spare, found)
}

/// Takes a packet out of flight, if one was found: its place is free, it counts no more, and the rights that it held
/// and its arguments are dropped.
#[inline(always)]
pub(crate) fn leave_flight(
    queues: &mut Vec<Queue>,
    in_flight_count: &mut usize,
    spare: &mut SpareLists,
    queue: QueueId,
    found: Option<FoundPacket>,
    leaving: Leaving,
)
    requires there { CanLeave queues.old.items queue leaving }
    requires found { IsFoundOf queues.old.items queue found }
    requires counted { freed_by (packet_in found) queues.old.items queue ≤ in_flight_count.old }
    requires sound { All IsSound queues.old.items }
    ensures queues { queues.new.items ≡ with_queue queues.old.items queue (with_leaving (packet_in found) leaving) }
    ensures capacity { vec_capacity queues.new ≡ vec_capacity queues.old }
    ensures in_flight_count { in_flight_count.new ≡ in_flight_count.old - freed_by (packet_in found) queues.old.items queue }
    ensures spare { spare.new ≡ spare.old }
{
    *in_flight_count -= leave_queue(queues, spare, queue, found, leaving);
}
