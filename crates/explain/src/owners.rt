//! Whose a queue is, and on which agent.

ghost use Rattle.std.specs.Prelude.{◌≡◌};
ghost use Rattle.core_model.specs.History.{beginning};
ghost use Rattle.core_model.specs.Queues.{owner};

use access_core::AccessCore;
use aql_packet::QueueId;
use core_model::Opening;

/// Who opened a queue, and on which agent; none where it isn't open. The core knows.
pub fn owner(core: &AccessCore, queue: QueueId) -> Option<Opening>
    ensures { result ≡ owner (beginning core.now.history) core.now.history.entries queue }
{
    core.opening(queue)
}
