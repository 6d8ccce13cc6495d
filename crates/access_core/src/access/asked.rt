//! What may be asked of a core by who tells of it: each answer is the history's, found in what the core keeps.

ghost use Rattle.core_model.specs.History.{beginning};
ghost use Rattle.std.specs.Prelude.{◌≡◌, find, map, option_map};
ghost use Rattle.std.specs.Option.{option_copied};
ghost use Rattle.policy.specs.Policy.{numbered};
ghost use Rattle.signals.specs.Values.{value_of};
ghost use Rattle.core_model.specs.Flight.{flight_of, in_flight};
ghost use Rattle.core_model.specs.Grants.{in_force};
ghost use Rattle.core_model.specs.Memory.{signals};
ghost use Rattle.core_model.specs.Queues.{errors, next_id, openings, owner};
ghost use Rattle.packet_processor.specs.Queueing.{is_place_of};
ghost use Rattle.access_core.specs.Asked.{place_of};

use crate::access::AccessCore;
use crate::kernel::kernel_named;
use aql_packet::{ClientId, KernelObject, PacketId, QueueId, SignalHandle};
use core_model::Opening;
use kernel_check::Program;
use packet_processor::Place;
use policy::{Object, Right};
use queue_error::QueueError;

impl AccessCore {
    /// Whether a client's right on an object is in force.
    pub fn has_right(&self, client: ClientId, object: Object, right: Right) -> bool
        ensures { result ≡ in_force (beginning self.now.history) self.now.history.entries client object right }
    {
        self.is_in_force(client, object, right)
    }

    /// The value of a signal, if the policy declares it.
    pub fn value_of(&self, signal: SignalHandle) -> Option<i64>
        ensures { result ≡ value_of (signals (beginning self.now.history) self.now.history.entries) signal.0 }
    {
        self.signal_value(signal)
    }

    /// The checked kernel of a number, if the policy declares it.
    pub fn program(&self, kernel: KernelObject) -> Option<&Program>
        ensures { option_copied result ≡ numbered (beginning self.now.history).kernels kernel.0 }
    {
        Some(kernel_named(self.kernels.as_slice(), kernel)?.program())
    }

    /// Who opened a queue, and on which agent; none where it isn't open.
    pub fn opening(&self, queue: QueueId) -> Option<Opening>
        ensures { result ≡ owner (beginning self.now.history) self.now.history.entries queue }
    {
        match self.queue(queue) {
            None => None,
            Some(kept) => Some(Opening {
                client: kept.client,
                agent: kept.agent,
            }),
        }
    }

    /// How many queues were ever opened, those that were closed counted: the number of the last.
    pub fn queues_opened(&self) -> u64
        ensures { result ≡ (openings (beginning self.now.history) self.now.history.entries).opened }
    {
        self.opened
    }

    /// The id of a queue's next packet: those below it were handed over. 0 where the queue isn't open.
    pub fn next_packet(&self, queue: QueueId) -> u64
        ensures { result ≡ next_id (beginning self.now.history) self.now.history.entries queue }
    {
        match self.queue(queue) {
            None => 0,
            Some(kept) => kept.next,
        }
    }

    /// The errors of a queue, in order; none where it isn't open.
    pub fn errors_of(&self, queue: QueueId) -> &[QueueError]
        ensures { result.now ≡ errors (beginning self.now.history) self.now.history.entries queue }
    {
        match self.queue(queue) {
            None => &[],
            Some(kept) => kept.errors.as_slice(),
        }
    }

    /// The packets of a queue in flight, in the order of their launches, each with how far it has come.
    pub fn packets_of(&self, queue: QueueId) -> &[Place]
        ensures { result.now ≡ map (place_of (beginning self.now.history) self.now.history.entries queue) (flight_of (beginning self.now.history) self.now.history.entries queue) }
    {
        match self.queue(queue) {
            None => &[],
            Some(kept) => kept.places.as_slice(),
        }
    }

    /// The packet with this queue and id, if it is in flight, with how far it has come.
    pub fn flying(&self, queue: QueueId, packet: PacketId) -> Option<&Place>
        ensures { option_copied result
            ≡ option_map (place_of (beginning self.now.history) self.now.history.entries queue) (in_flight (beginning self.now.history) self.now.history.entries queue packet) }
    {
        place_in(self.packets_of(queue), packet)
    }
}

// The place of the packet with an id among these.
fn place_in(places: &[Place], packet: PacketId) -> Option<&Place>
    ensures { option_copied result ≡ find (is_place_of packet) places.now }
{
    places.iter().find(|place| place.id.0 == packet.0)
}
