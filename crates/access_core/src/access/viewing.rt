//! What the groups of a kernel dispatch in flight are lent: the regions that their packet holds.

ghost use Rattle.core_model.specs.History.{beginning};
ghost use Rattle.std.specs.Prelude.{Some, ◌≡◌, ◌<◌, IfOk, false, map, option_map, slice_get, true};
ghost use Rattle.aql_packet.specs.Memory.{are_region_lengths};
ghost use Rattle.regions.specs.Memory.{region_length};
ghost use Rattle.executor.specs.Items.{lent_region};
ghost use Rattle.policy.specs.declared.object.Object.TheVariants as object;
ghost use Rattle.core_model.specs.Holds.{arguments, own_rights};
ghost use Rattle.policy.specs.Policy.{region_lengths};
ghost use Rattle.core_model.specs.View.{rights_held};
ghost use Rattle.access_core.specs.inner.Given.{LeavesOut, MarksToo, is_listed};
ghost use Rattle.access_core.specs.inner.InPlace.{IsFoundAt, IsInPlace};
ghost use Rattle.access_core.specs.inner.Running.{lent_if_held, region_numbered, view_whole};

use crate::access::AccessCore;
use crate::access::lookups::open_index;
use crate::argument_blocks::ArgumentBlock;
use crate::holders::is_listed;
use aql_packet::{Address, MOST_REGIONS, QueueId, REGION_SPAN, RegionHandle};
use executor::{HeldRegion, View};
use packet_processor::{FoundPacket, Place};
use policy::{Kind, Object, Right, Rights};
use std::alloc::{AllocError, Global};

// A mark for each region that a policy may declare, by its number, which counts from 1.
const PLACES: usize = 65;

const _: () = prove!(MOST_REGIONS < PLACES);

impl AccessCore {
    // Memory takes the lengths of the regions: each policy is within its limits.
    pub(crate) fn regions_fit(&self)
        ensures { are_region_lengths (region_lengths (beginning self.now.history).policy) ≡ true }
    {
        self.policy().object_count(Kind::Region);
    }

    // What a packet in flight was given at its launch: a list of the rights that it holds, and its arguments.
    pub(crate) fn given_to(
        &self,
        queue: QueueId,
        found: FoundPacket,
        place: Place,
    ) -> &ArgumentBlock
        requires found { IsInPlace self.now.history queue found.packet place }
        requires at { IsFoundAt self.now.history queue found }
        ensures rights { is_listed result.now.rights ≡ own_rights (beginning self.now.history) self.now.history.entries queue found.packet }
        ensures arguments { result.now.bytes ≡ arguments (beginning self.now.history) self.now.history.entries queue found.packet }
    {
        let kept = &self.queues[open_index(self.queues.as_slice(), queue)];
        kept.blocks.at(found.index)
    }

    // The regions on which a right is listed, in order, each with the rights that are, and all its bytes.
    pub(crate) fn view(
        &self,
        alloc: Global,
        given: &[(Object, Rights)],
    ) -> Result<View<'_>, AllocError>
        ensures { IfOk result (λ view. map lent_region view
            ≡ view_whole (beginning self.now.history) self.now.history.entries (is_listed given.now)) }
    {
        let marks = regions_named(given);
        let mut view = View::new(alloc);
        for before in 0..self.policy().object_count(Kind::Region) {
            let region = RegionHandle(before as u32 + 1);
            if is_marked(&marks, region) {
                if let Some(held) = self.region_if_held(given, region) {
                    view.put(held)?;
                }
            }
        }
        Ok(view)
    }

    // A region with all its bytes, and with the rights on it that are listed, if there are any.
    fn region_if_held(
        &self,
        given: &[(Object, Rights)],
        region: RegionHandle,
    ) -> Option<HeldRegion<'_>>
        requires { 0 < region_length (region_lengths (beginning self.now.history).policy) region.0 }
        ensures { option_map lent_region result
            ≡ lent_if_held (beginning self.now.history) self.now.history.entries (region_numbered (beginning self.now.history) (is_listed given.now) region.0) }
    {
        let rights = rights_on(given, region);
        if rights == Rights::NONE {
            return None;
        }
        let first = Address(region.0 as u64 * REGION_SPAN);
        let length = self.memory.length(region).unwrap_or(0);
        Some(HeldRegion {
            handle: region,
            rights,
            bytes: self.memory.bytes(first, length),
        })
    }
}

// The rights on a region that are listed.
fn rights_on(given: &[(Object, Rights)], region: RegionHandle) -> Rights
    ensures { result ≡ rights_held (is_listed given.now) (object.Region region) }
{
    let object = Object::Region(region);
    Rights::from_each(
        is_listed(given, object, Right::Use),
        is_listed(given, object, Right::Read),
        is_listed(given, object, Right::Write),
        is_listed(given, object, Right::Wait),
        is_listed(given, object, Right::Change),
        is_listed(given, object, Right::Launch),
    )
}

// A mark at the number of each region that a list names.
fn regions_named(given: &[(Object, Rights)]) -> [bool; PLACES]
    ensures { LeavesOut result given.now }
{
    let mut marks = [false; PLACES];
    for named in given {
        mark(&mut marks, named.0);
    }
    marks
}

// Marks an object, if it is a region.
fn mark(marks: &mut [bool; PLACES], object: Object)
    ensures { MarksToo marks.old marks.new object }
{
    let Object::Region(region) = object else {
        return;
    };
    if region.0 as usize >= PLACES {
        return;
    }
    marks[region.0 as usize] = true;
}

// Whether a region is marked, or has no place for a mark.
fn is_marked(marks: &[bool; PLACES], region: RegionHandle) -> bool
    ensures { result ≡ false → slice_get marks.now region.0 ≡ Some false }
{
    match marks.get(region.0 as usize).copied() {
        Some(marked) => marked,
        None => true,
    }
}
