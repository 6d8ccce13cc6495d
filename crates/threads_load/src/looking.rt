//! Whether the queues of a plan are open.

ghost use Rattle.std.specs.Prelude.{◌≡◌, ◌<◌, OnOk, length, true};
ghost use Rattle.client_threads.specs.Sections.{Follows};
ghost use Rattle.threads_load.specs.Stages.{HasQueues, HasQueueAt, opening_for};

use crate::fault::LoadFault;
use crate::plan::PlannedQueue;
use access_core::AccessCore;
use aql_packet::QueueId;
use core_model::Opening;

// Whether an opening is as it was planned: the client's, on the agent.
fn is_planned(opening: Opening, planned: PlannedQueue) -> bool
    ensures { result ≡ true → opening ≡ opening_for planned }
{
    opening.client.0 == planned.client.0 && opening.agent.0 == planned.agent.0
}

// Whether the queue at a place of a plan is open under its number, as it was planned.
fn has_queue(core: &AccessCore, plan: &[PlannedQueue], place: usize) -> bool
    requires { place < length plan.now }
    ensures { result ≡ true → HasQueueAt core.now plan.now place }
{
    match core.opening(QueueId(place as u64 + 1)) {
        Some(opening) => is_planned(opening, plan[place]),
        None => false,
    }
}

/// Looks for the queues of a plan in a core: each is open under the number of its place, the planned client's on the
/// planned agent. It is refused where one isn't, as where it was closed.
pub fn find_queues(core: &AccessCore, plan: &[PlannedQueue]) -> Result<(), LoadFault>
    ensures { OnOk result (HasQueues core.now plan.now) }
{
    for place in 0..plan.len() {
        if !has_queue(core, plan, place) {
            return Err(LoadFault::OtherQueue);
        }
    }
    Ok(())
}

/// The same in a core that is lent to a section.
#[tactic(auto, using(client_threads::proofs::Sections::follows_self))]
pub fn look_for_queues(core: &mut AccessCore, plan: &[PlannedQueue]) -> Result<(), LoadFault>
    ensures follows { Follows core.old.history core.new.history }
    ensures there { OnOk result (HasQueues core.new plan.now) }
{
    find_queues(core, plan)
}
