//! A lane hands the next packet to the core.

ghost use Rattle.std.specs.Prelude.{◌≡◌, true};
ghost use Rattle.ring.specs.Showing.{IsShownBy};
ghost use Rattle.aql_packet.specs.Reading.{decoded};
ghost use Rattle.client_threads.specs.Advancing.{is_some_barrier};
ghost use Rattle.client_threads.specs.Serving.{ServesTo, served_of};
ghost use Rattle.client_threads.specs.inner.Turns.{HandsTo};

use crate::advancing::lays_out_barrier;
use crate::lane::Lane;
use crate::pending::PendingPacket;
use access_core::AccessCore;
use aql_packet::PacketId;
use core_model::{Refusal, Served, Taken, WaitCause};
use queue_error::QueueError;
use ring::{Peeked, Ring, Shown};
use std::alloc::Global;

/// What became of a lane's next packet.
#[derive(Clone, Copy, Debug, PartialEq, Eq)]
pub enum ServeAnswer {
    /// It is not published yet.
    Empty,
    /// It is in flight from now on.
    Launched(PacketId),
    /// It was denied, and the error names it.
    Denied(QueueError),
    /// It may not start yet.
    Waiting(PacketId, WaitCause),
    /// It was not taken.
    Refused(PacketId, Refusal),
}

/// Hands the next packet of a lane's queue to the core: the one that its own pass is shown. Where it is launched or
/// denied, it counts as served, and its slot is retired.
#[tactic(auto, using(crate::proofs::Handing::empty_serves, crate::proofs::Handing::shown_serves, crate::proofs::Handing::looked_table))]
pub fn serve_one(alloc: Global, lane: &mut Lane, core: &mut AccessCore, ring: &Ring) -> ServeAnswer
    requires ring { lane.old.pass.table ≡ ring.now.table }
    ensures { ServesTo ring.now lane.old core.old.history result lane.new core.new.history }
{
    match lane.look(ring) {
        Peeked::Empty => ServeAnswer::Empty,
        Peeked::Shown(shown) => serve_shown(alloc, lane, core, ring, shown),
    }
}

// Hands the packet to the core that a lane's pass was shown.
pub(crate) fn serve_shown(
    alloc: Global,
    lane: &mut Lane,
    core: &mut AccessCore,
    ring: &Ring,
    shown: Shown,
) -> ServeAnswer
    requires ring { lane.old.pass.table ≡ ring.now.table }
    requires shown { IsShownBy shown lane.old.pass }
    ensures { HandsTo ring.now shown lane.old core.old.history result lane.new core.new.history }
{
    let id = shown.id;
    if lane.kept.reserve(1).is_err() || lane.pending.reserve(1).is_err() {
        return ServeAnswer::Refused(id, Refusal::OutOfMemory);
    }
    match core.take(alloc, lane.queue, id, &shown.bytes) {
        Err(why) => ServeAnswer::Refused(id, why),
        Ok(Taken::Waiting(cause)) => ServeAnswer::Waiting(id, cause),
        Ok(Taken::Launched) => {
            lane.pass.retire(ring, shown);
            lane.kept.push_reserved(served(&shown));
            lane.pending.push_reserved(pending(&shown));
            ServeAnswer::Launched(id)
        }
        Ok(Taken::Denied(error)) => {
            lane.pass.retire(ring, shown);
            lane.kept.push_reserved(served(&shown));
            ServeAnswer::Denied(error)
        }
    }
}

// A packet that was shown, as one that is pending.
fn pending(shown: &Shown) -> PendingPacket
    ensures { result ≡ record { id = shown.now.id; is_barrier = is_some_barrier (decoded shown.now.bytes); has_work = true } }
{
    PendingPacket {
        id: shown.id,
        is_barrier: lays_out_barrier(&shown.bytes),
        has_work: true,
    }
}

// A packet that was shown, as one that is served.
fn served(shown: &Shown) -> Served
    ensures { result ≡ served_of shown.now }
{
    let bytes = shown.bytes;
    Served {
        id: shown.id,
        bytes,
    }
}
