//! What the core looks up before it decides a call.

ghost use Rattle.core_model.specs.History.{beginning};
ghost use Rattle.std.specs.Prelude.{◌≡◌, ◌≤◌, Some, length};
ghost use Rattle.std.specs.Option.{option_copied};
ghost use Rattle.policy.specs.Policy.{numbered};
ghost use Rattle.signals.specs.Values.{value_of};
ghost use Rattle.core_model.specs.Grants.{in_force};
ghost use Rattle.core_model.specs.Memory.{signals};
ghost use Rattle.access_core.specs.inner.CachedQueue.{IsQueue};
ghost use Rattle.access_core.specs.inner.Numbers.{AscendFrom, IsQueueIndex, IsNotFrom, IsThere, queue_in};

use crate::access::AccessCore;
use crate::kernel::kernel_named;
use crate::queue::Queue;
use aql_packet::{ClientId, KernelDispatch, QueueId, SignalHandle};
use kernel_check::Program;
use policy::{Object, Right};

impl AccessCore {
    // Whether a client's right on an object is in force.
    pub(crate) fn is_in_force(&self, client: ClientId, object: Object, right: Right) -> bool
        ensures { result ≡ in_force (beginning self.now.history) self.now.history.entries client object right }
    {
        self.grants.is_in_force(client, object, right)
    }

    // The value of a signal, if there is one of this number.
    pub(crate) fn signal_value(&self, signal: SignalHandle) -> Option<i64>
        ensures { result ≡ value_of (signals (beginning self.now.history) self.now.history.entries) signal.0 }
    {
        self.signals.value(signal)
    }

    // The kernel that a dispatch names, if there is one of its number.
    pub(crate) fn kernel(&self, dispatch: &KernelDispatch) -> Option<&Program>
        ensures { option_copied result ≡ numbered (beginning self.now.history).kernels dispatch.now.kernel_object.0 }
    {
        Some(kernel_named(self.kernels.as_slice(), dispatch.kernel_object)?.program())
    }

    // What is kept of a queue, if it is open.
    pub(crate) fn queue(&self, queue: QueueId) -> Option<&Queue>
        ensures { IsQueue self.now.history queue (option_copied result) }
    {
        queue_of(self.queues.as_slice(), queue)
    }
}

// The queue with a number, if one of these has it.
pub(crate) fn queue_of(queues: &[Queue], queue: QueueId) -> Option<&Queue>
    requires { AscendFrom 0 queues.now }
    ensures { option_copied result ≡ queue_in queues.now queue }
{
    let index = queue_index(queues, queue)?;
    Some(&queues[index])
}

// The index of a queue that is one of these.
pub(crate) fn open_index(queues: &[Queue], queue: QueueId) -> usize
    requires { IsThere queues.now queue }
    ensures { IsQueueIndex queues.now queue (Some result) }
{
    queue_index(queues, queue).unwrap()
}

// The index of the queue with a number, if one of these has it. Numbers ascend from 1 at least, so it isn't behind the place of
// its number, where the first look finds it as long as no queue before it was closed.
fn queue_index(queues: &[Queue], queue: QueueId) -> Option<usize>
    requires { AscendFrom 0 queues.now }
    ensures { IsQueueIndex queues.now queue result }
{
    let behind = queue.0 as usize;
    if 0 < behind && behind <= queues.len() && queues[behind - 1].number == queue {
        return Some(behind - 1);
    }
    index_before(queues, queue, behind.min(queues.len()))
}

// The index of the queue with a number, if one of these has it before another index, where none has it from there on.
#[inline(never)]
fn index_before(queues: &[Queue], queue: QueueId, behind: usize) -> Option<usize>
    requires ascending { AscendFrom 0 queues.now }
    requires within { behind ≤ length queues.now }
    requires none { IsNotFrom queues.now queue behind }
    ensures { IsQueueIndex queues.now queue result }
{
    for index in (0..behind).rev() {
        if queues[index].number == queue {
            return Some(index);
        }
    }
    None
}
