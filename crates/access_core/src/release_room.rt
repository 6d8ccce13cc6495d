//! Room for what the closing of a queue tells, got when the queue is opened.

ghost use Rattle.std.specs.Prelude.{◌≡◌, ◌≤◌, IfOk, length, map};
ghost use Rattle.core_model.specs.Limits.{most_in_flight};
ghost use Rattle.access_core.specs.inner.Closing.{release_from};

use aql_packet::QueueId;
use core_model::{Effect, Effects, MOST_IN_FLIGHT};
use packet_processor::Place;
use std::alloc::{AllocError, Global};
use std::marker::Model;

/// Room for a release of each packet of a queue that can be in flight, so that to close the queue takes no memory. A contract
/// sees for how many.
#[derive(Drop)]
pub struct ReleaseRoom {
    releases: Vec<Effect>,
}

impl Model for ReleaseRoom {
    ghost use Rattle.std.specs.Prelude.{ℕ, vec_capacity};

    ghost Value = { ℕ };

    ghost use Rattle.access_core.specs.inner.Closing.{IsRoom};

    ghost view = { λ r. vec_capacity r.releases };

    ghost invariant = { λ r. IsRoom r.releases };
}

impl ReleaseRoom {
    /// Gets room for eight releases: so many packets of a queue are in flight at the most.
    pub fn get(alloc: Global) -> Result<ReleaseRoom, AllocError> {
        Ok(ReleaseRoom {
            releases: Vec::with_capacity(alloc, MOST_IN_FLIGHT)?,
        })
    }

    /// Tells the releases of a queue's packets in flight, in the order of their places. It takes no memory.
    pub fn tell(self, queue: QueueId, places: &[Place]) -> Effects
        requires { length places.now ≤ most_in_flight }
        ensures { result ≡ map (release_from queue) places.now }
    {
        if places.is_empty() {
            return Effects::none();
        }
        let ReleaseRoom { mut releases } = self;
        for place in places {
            let packet = place.id;
            releases.push_reserved(Effect::Release { queue, packet });
        }
        Effects::many(releases)
    }
}
