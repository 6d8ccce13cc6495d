//! The core with the ring of each open queue, served request by request.

ghost use Rattle.std.specs.Prelude.{◌≡◌, ◌≤◌, List, [], IfOk, OnErr, length};
ghost use Rattle.policy.specs.Policy.{Declared};
ghost use Rattle.core_model.specs.declared.entry.Entry.{Entry};
ghost use Rattle.core_model.specs.Rotation.{Truncates};
ghost use Rattle.world.specs.Dues.{AreReplies, IsServed};
ghost use Rattle.world.specs.Headline.{Headline};
ghost use Rattle.world.specs.InStep.{IsJoined, IsJoinedBehind};
ghost use Rattle.world.specs.Starting.{Begins};
ghost use Rattle.std.specs.Option.{option_copied};
ghost use Rattle.world.specs.States.{IsNextOpen, ring_of, slots_of};

use crate::laws::headline_of;
use crate::queue_ring::QueueRing;
use crate::reply::Reply;
use crate::request::Request;
use crate::rings::{queue_after, ring_at};
use crate::serving::serve_request;
use access_core::{AccessCore, Kernel, OpenFault};
use aql_packet::QueueId;
use policy::Policy;
use ring_core::{Log, RingState};
use sequences::Reserved;
use std::alloc::{AllocError, Global};
use std::marker::Model;

/// The core, and the ring of each of its queues that is open, in the order in which they were opened. A contract sees
/// the core's history, each ring's machine, and of each closed queue what its ring was before the close: of that nothing
/// is kept.
pub struct World {
    pub(crate) core: AccessCore,
    pub(crate) rings: Vec<QueueRing>,
    pub(crate) closed: Log<QueueRing>,
}

// Written out, so that where a world ends stands one call, and not what ends each of its parts.
impl Drop for World {
    fn drop(self) {
        let World {
            core: _,
            rings: _,
            closed: _,
        } = self;
    }
}

impl Model for World {
    ghost use Rattle.world.specs.States.{Joined, joined};

    ghost Value = { Joined };

    ghost use Rattle.world.specs.InStep.{IsJoined};
    ghost use Rattle.world.specs.Making.{AreDecided, rings_of};

    ghost view = { λ world. joined world.core.history (rings_of world.rings.items) (rings_of world.closed) };

    // The rings and the history are in step.
    ghost invariant = { λ world. IsJoined (joined world.core.history (rings_of world.rings.items) (rings_of world.closed)) × AreDecided world.core.history world.rings.items };
}

impl World {
    /// Opens a world over a policy, with a kernel for each of the policy's, and places for `capacity`
    /// entries in its audit: no queue is open. Refused as the core's opening is.
    pub fn open(
        alloc: Global,
        policy: Policy,
        kernels: Vec<Kernel>,
        capacity: usize,
    ) -> Result<World, OpenFault>
        ensures { Begins policy kernels.items capacity result }
    {
        let core = AccessCore::open(alloc, policy, kernels, capacity)?;
        Ok(World {
            core,
            rings: Vec::new(alloc),
            closed: Log::new(),
        })
    }

    /// The policy that it was opened over.
    pub fn policy(&self) -> &Policy
        ensures { result.now ≡ self.now.core.origin.policy }
    {
        self.core.policy()
    }

    /// How many slots the ring of a queue has: none where the queue isn't open.
    pub fn slots(&self, queue: QueueId) -> u64
        ensures { result ≡ slots_of self.now queue }
    {
        match ring_at(&self.rings, queue) {
            Some(ring) => ring.ring.size(),
            None => 0,
        }
    }

    /// The core: its policy, its audit, and what its queries tell.
    pub fn core(&self) -> &AccessCore
        ensures { result.now.history ≡ self.now.core }
    {
        &self.core
    }

    /// The ring of a queue, if the queue is open.
    pub fn ring(&self, queue: QueueId) -> Option<&RingState>
        ensures { option_copied result ≡ ring_of self.now queue }
    {
        match ring_at(&self.rings, queue) {
            Some(ring) => Some(&ring.ring),
            None => None,
        }
    }

    /// The open queue with the least number behind this one; behind 0 the first.
    pub fn queue_after(&self, queue: QueueId) -> Option<QueueId>
        ensures { IsNextOpen self.now queue result }
    {
        queue_after(&self.rings, queue)
    }

    /// Does nothing but say to callers what holds of each world, at any moment: it is in step behind what was handed
    /// out before; and behind whatever it is in step, the headline holds, as `law_headline` tells it. What is handed
    /// out by more requests goes on from that (`law_each_run_goes_on`).
    pub fn headline(&self)
        ensures joined { IsJoined self.now }
        ensures headline { (first : Declared) (prior : List Entry) → IsJoinedBehind first prior self.now → Headline first prior self.now }
    {
        let _ = &self.rings;
        headline_of(self.core.policy());
    }

    /// Serves a request: one step, or a query. The headline holds after it (`headline`).
    #[inline(always)]
    pub fn serve(&mut self, alloc: Global, request: Request) -> Reply
        ensures served { IsServed self.old request result self.new }
        ensures joined { IsJoined self.new }
    {
        serve_request(
            alloc,
            &mut self.core,
            &mut self.rings,
            &mut self.closed,
            request,
        )
    }

    /// Empties the audit, whose entries were written down elsewhere, as a rotation does whose part nobody gets: the history
    /// goes on from the state behind them, and queues and rings stay. Refused where more than 2^62 entries would lie before
    /// that. The headline holds after it (`headline`).
    pub fn truncate(&mut self, alloc: Global) -> Result<(), core_model::Refusal>
        ensures truncated { Truncates self.old.core result self.new.core }
        ensures rings { (self.new.rings ≡ self.old.rings) × (self.new.closed ≡ self.old.closed) }
        ensures joined { IsJoined self.new }
    {
        self.core.truncate(alloc)
    }

    /// Serves requests in turn, and tells the reply to each. Want of memory for the list of replies is
    /// told before any is served. The headline holds after it (`headline`), however often it is called.
    pub fn run(
        &mut self,
        alloc: Global,
        requests: Vec<Request>,
    ) -> Result<Reserved<Reply>, AllocError>
        ensures replies { IfOk result (λ replies. AreReplies self.old requests.items replies.items self.new) }
        ensures joined { IsJoined self.new }
        ensures err { OnErr result (self.new ≡ self.old) }
    {
        match Reserved::with_room(alloc, requests.len()) {
            Ok(replies) => Ok(self.serve_each(alloc, requests, replies)),
            Err(want) => {
                self.law_is_joined();
                Err(want)
            }
        }
    }

    // Serves requests in turn, and puts the replies in a list with room for them.
    fn serve_each(
        &mut self,
        alloc: Global,
        requests: Vec<Request>,
        mut replies: Reserved<Reply>,
    ) -> Reserved<Reply>
        requires room { length requests.items ≤ replies.room }
        requires empty { replies.items ≡ [] }
        ensures replies { AreReplies self.old requests.items result.items self.new }
        ensures joined { IsJoined self.new }
    {
        for request in requests {
            let reply = self.serve(alloc, request);
            replies.push(reply);
        }
        self.law_is_joined();
        replies
    }

    // Does nothing: what the type keeps is said to callers by it.
    fn law_is_joined(&self)
        ensures { IsJoined self.now }
    {
        let _ = &self.rings;
    }
}
