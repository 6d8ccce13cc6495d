//! The groups of kernel dispatches in flight are run.

ghost use Rattle.core_model.specs.History.{beginning};
ghost use Rattle.std.specs.Prelude.{◌≡◌, ◌*◌, ◌<◌, ◌≤◌, ◌^◌, All, IfErr, IfOk, Ok, length, true};
ghost use Rattle.aql_packet.specs.declared.packet.Packet.TheVariants as kind;
ghost use Rattle.executor.specs.Results.{wrote};
ghost use Rattle.regions.specs.Memory.{is_within};
ghost use Rattle.core_model.specs.Kernels.{grid_size, group_size};
ghost use Rattle.core_model.specs.LaunchRules.{has_sizes};
ghost use Rattle.policy.specs.Results.{map_ok};
ghost use Rattle.core_model.specs.Legal.{Meets, MeetsOrLacks};
ghost use Rattle.policy.specs.Policy.{region_lengths};
ghost use Rattle.core_model.specs.Owed.{group_error, owed};
ghost use Rattle.core_model.specs.Work.{group_count};
ghost use Rattle.access_core.specs.inner.InPlace.{IsFoundAt, IsInPlace};
ghost use Rattle.access_core.specs.inner.Running.{FaultsAs, fault_owed, next_result};

use crate::access::leaving::{Leaving, leave_flight};
use crate::access::{AccessCore, enter};
use crate::kernel::kernel_at;
use aql_packet::{KernelDispatch, QueueId};
use core_model::{Call, Effect, Effects, Event, Outcome, Refusal, Worked};
use executor::{
    Dispatch, Extent, ItemFault, RunFault, WrittenRange, groups_along,
    law_groups_read_where_they_may, run_group,
};
use packet_processor::{FoundPacket, Place};
use queue_error::QueueError;
use sequences::Sequence;
use std::alloc::Global;

impl AccessCore {
    // Runs the next work-group of a kernel dispatch in flight, if one is left.
    pub(crate) fn run_kernel(
        &mut self,
        alloc: Global,
        queue: QueueId,
        found: FoundPacket,
        place: Place,
        dispatch: KernelDispatch,
    ) -> Result<Worked, Refusal>
        requires found { IsInPlace self.old.history queue found.packet place }
        requires at { IsFoundAt self.old.history queue found }
        requires sized { has_sizes dispatch ≡ true }
        requires packet_is { place.packet ≡ kind.Kernel dispatch }
        ensures met { MeetsOrLacks (Event.Call (Call.RunNext queue found.packet)) self.old.history self.new.history (map_ok Outcome.Worked result) }
        ensures places { self.new.places ≡ self.old.places }
    {
        let count = group_count(&dispatch);
        let group = place.progress.groups_run;
        if group >= count {
            return Ok(Worked::Done);
        }
        match self.group_runs(alloc, queue, found, place, dispatch) {
            Ok(runs) => self.enter_group(alloc, queue, found, place, count - (group + 1), runs),
            Err(RunFault::Fault(fault)) => Ok(self.fault(queue, found, place, group, fault)),
            Err(RunFault::OutOfMemory) => Err(Refusal::OutOfMemory),
        }
    }

    // What the next group of a kernel dispatch in flight writes, or why it leaves nothing.
    fn group_runs(
        &self,
        alloc: Global,
        queue: QueueId,
        found: FoundPacket,
        place: Place,
        dispatch: KernelDispatch,
    ) -> Result<Sequence<WrittenRange>, RunFault>
        requires found { IsInPlace self.now.history queue found.packet place }
        requires at { IsFoundAt self.now.history queue found }
        requires packet_is { place.packet ≡ kind.Kernel dispatch }
        requires left { place.progress.groups_run < group_count (kind.Kernel dispatch) }
        ensures ok { IfOk result (λ runs. next_result self.now.history queue found.packet place dispatch ≡ wrote runs) }
        ensures fault { IfErr result (FaultsAs (next_result self.now.history queue found.packet place dispatch)) }
        ensures written { IfOk result (λ runs. All (λ run. is_within (region_lengths (beginning self.now.history).policy) run.address (length run.bytes) ≡ true) runs) }
    {
        law_groups_read_where_they_may();
        self.regions_fit();
        let given = self.given_to(queue, found, place);
        let view = self.view(alloc, given.rights.as_slice())?;
        let kernel = kernel_at(self.kernels.as_slice(), dispatch.kernel_object);
        let asked = Dispatch {
            kernel: kernel.index(),
            group_size: group_size(&dispatch),
            grid_size: grid_size(&dispatch),
            group_segment_size: dispatch.group_segment_size,
            arguments: given.bytes.as_slice(),
        };
        let group = place.progress.groups_run;
        run_group(alloc, &kernel.checked, &asked, group, &view)
    }

    // Takes a packet in flight out of it whose group broke a rule: its queue has an error more, which
    // says where.
    fn fault(
        &mut self,
        queue: QueueId,
        found: FoundPacket,
        place: Place,
        group: u32,
        fault: ItemFault,
    ) -> Worked
        requires found { IsInPlace self.old.history queue found.packet place }
        requires at { IsFoundAt self.old.history queue found }
        requires owed { owed (beginning self.old.history) self.old.history.entries (Event.Call (Call.RunNext queue found.packet))
            ≡ fault_owed (group_error queue found.packet group fault) }
        ensures met { Meets (Event.Call (Call.RunNext queue found.packet)) self.old.history self.new.history (Ok (Outcome.Worked result)) }
        ensures places { self.new.places ≡ self.old.places }
    {
        let packet = found.packet;
        let error = QueueError {
            queue,
            packet,
            rule: fault.rule,
            place: Some(queue_error::FaultPlace {
                group,
                item: fault.item,
                line: fault.line,
                address: fault.address,
            }),
        };
        leave_flight(
            &mut self.queues,
            &mut self.in_flight_count,
            &mut self.spare,
            queue,
            Some(found),
            Leaving::Failed(error),
        );
        let worked = Worked::Faulted(error);
        let event = Event::Call(Call::RunNext { queue, packet });
        let effects = Effects::one(Effect::Release { queue, packet });
        enter(&mut self.audit, event, Outcome::Worked(worked), effects);
        worked
    }
}

// The size of a kernel dispatch's work-groups, in each dimension.
fn group_size(dispatch: &KernelDispatch) -> Extent
    ensures { result ≡ group_size dispatch.now }
{
    Extent {
        x: dispatch.workgroup_size_x as u32,
        y: dispatch.workgroup_size_y as u32,
        z: dispatch.workgroup_size_z as u32,
    }
}

// The size of its grid, in each dimension.
fn grid_size(dispatch: &KernelDispatch) -> Extent
    ensures { result ≡ grid_size dispatch.now }
{
    Extent {
        x: dispatch.grid_size_x,
        y: dispatch.grid_size_y,
        z: dispatch.grid_size_z,
    }
}

// How many work-groups a kernel dispatch has: fewer than 2^32.
#[tactic(auto, using(crate::proofs::GroupLemmas::groups_fit))]
pub(crate) fn group_count(dispatch: &KernelDispatch) -> u32
    requires { has_sizes dispatch.now ≡ true }
    ensures { result ≡ group_count (kind.Kernel dispatch.now) }
{
    let x = groups_along(dispatch.grid_size_x, u32::from(dispatch.workgroup_size_x));
    let y = groups_along(dispatch.grid_size_y, u32::from(dispatch.workgroup_size_y));
    let z = groups_along(dispatch.grid_size_z, u32::from(dispatch.workgroup_size_z));
    product(x, y, z)
}

// The product of three numbers, which is below 2^32.
fn product(x: u32, y: u32, z: u32) -> u32
    requires { x * y * z < 2 ^ 32 }
    ensures { result ≡ x * y * z }
{
    let layer = x as u64 * y as u64;
    if z == 0 { 0 } else { (layer * z as u64) as u32 }
}
