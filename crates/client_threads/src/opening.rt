//! Queues are opened, each with its ring and its doorbell.

ghost use Rattle.std.specs.Prelude.{◌≡◌, ℕ, List, ◌<◌, ◌≤◌, IfOk, IfErr, OnOk, Err, None, [], false, map, vec_capacity, vec_len};
ghost use Rattle.policy.specs.Results.{map_ok};
ghost use Rattle.core_model.specs.declared.event.Event.{Event};
ghost use Rattle.core_model.specs.declared.outcome.Outcome.{Outcome};
ghost use Rattle.core_model.specs.Legal.{MeetsOrLacks, due};
ghost use Rattle.core_model.specs.Limits.{most_queues};
ghost use Rattle.core_model.specs.Owed.{enters};
ghost use Rattle.client_threads.specs.Desks.{seen};
ghost use Rattle.client_threads.specs.Boards.{FrontSeen, fresh_of};
ghost use Rattle.client_threads.specs.Opening.{AreOpened, IsOneOfFew, IsOpened, OpensQueue, as_end, before_lane, new_lane, next_queue, opening_event};
ghost use Rattle.client_threads.specs.Rings.{AreApart, QueueRing, ring_of};
ghost use Rattle.client_threads.specs.Sections.{IsSection, last_of};
ghost use Rattle.client_threads.specs.inner.Openings.{HasEntered, IsBeside, IsOpenable, IsUnused};

use crate::board::{Board, Front, Sight};
use crate::broker::{Broker, Desk};
use crate::client_end::ClientEnd;
use crate::lane::Lane;
use crate::room::{Held, Room};
use access_core::AccessCore;
use aql_packet::{AgentHandle, ClientId, QueueId};
use core_model::{QUEUES, Refusal};
use crossbeam_utils::CachePadded;
use doorbell::Doorbell;
use ring::{ProcessorPass, ProducerPass, Ring};
use ring_core::judged_size;
use std::alloc::{AllocError, Global};

/// A queue that was opened: its number, an end for each of its producers, and its lane.
pub type Opened = (QueueId, Vec<ClientEnd>, Lane);

// What was opened, before its lane has a front.
type Bare = (QueueId, Vec<ClientEnd>, ProcessorPass);

/// Whose queue is to be opened on which agent, with a ring of how many slots for how many producers.
#[derive(Clone, Copy)]
pub(crate) struct Asked {
    pub(crate) client: ClientId,
    pub(crate) agent: AgentHandle,
    pub(crate) size: u64,
    pub(crate) producers: u64,
}

impl<B: Room> Broker<B> {
    /// Opens a queue for a client, whose packets an agent runs, with a ring of `size` slots for so many producers. It is
    /// refused just as this broker's core refuses it, wrong producers being a wrong size. A broker opens 64 queues in its
    /// life, those counted that were closed: a further one is refused as too many, too. After a refusal all is as before.
    /// The opening is a section of the core, which the front has seen then, and which is its own. The lane has seen the same:
    /// it gets one share of the front, from which no section was made. It doesn't wait.
    pub fn open_queue(
        &mut self,
        alloc: Global,
        front: &mut Front,
        client: ClientId,
        agent: AgentHandle,
        size: u64,
        producers: u64,
    ) -> Result<Opened, Refusal>
        requires front { (front.old.board ≡ B.board) × (1 < front.old.share) }
        ensures front { front.new.board ≡ B.board }
        ensures section { IsSection B.opened front.old (before_lane result front.new) (λ before after.
            OpensQueue (opening_event client agent size producers) before.history (map_ok (λ o. Outcome.Opened o.0) result) after.history) }
        ensures opened { IfOk result (λ o. IsOpened self.old size producers (fresh_of front.new) o.0 o.1.items o.2 self.new) }
        ensures refused { IfErr result (λ _. self.new ≡ self.old) }
    {
        let asked = Asked {
            client,
            agent,
            size,
            producers,
        };
        let Broker {
            held,
            board,
            desks,
            openings,
        } = self;
        let held = held.get_mut();
        held.open_queue(alloc, board, desks, &mut openings.sight, front, asked)
    }
}

impl<B: Room> Held<B> {
    // Opens a queue in a section through the front, which the sight of all openings has seen then.
    fn open_queue(
        &mut self,
        alloc: Global,
        board: &Board,
        desks: &mut Vec<Desk>,
        openings: &mut Sight,
        front: &mut Front,
        asked: Asked,
    ) -> Result<Opened, Refusal>
        requires board { (board.now ≡ B.board) × (front.old.board ≡ B.board) }
        requires share { 1 < front.old.share }
        requires apart { AreApart (map seen desks.old.items) }
        requires openings { (openings.old.board ≡ B.board) × AreOpened (last_of B.opened openings.old.left) (map seen desks.old.items) }
        ensures board { front.new.board ≡ B.board }
        ensures section { IsSection B.opened front.old (before_lane result front.new) (λ before after.
            OpensQueue (opening_event asked.client asked.agent asked.size asked.producers) before.history (map_ok (λ o. Outcome.Opened o.0) result) after.history) }
        ensures opened { IfOk result (λ o. IsOpened (map seen desks.old.items) asked.size asked.producers (fresh_of front.new) o.0 o.1.items o.2 (map seen desks.new.items)) }
        ensures refused { IfErr result (λ _. map seen desks.new.items ≡ map seen desks.old.items) }
        ensures apart { AreApart (map seen desks.new.items) }
        ensures openings { (openings.new.board ≡ B.board) × AreOpened (last_of B.opened openings.new.left) (map seen desks.new.items) }
    {
        let known = board.sight_again(openings);
        board.check(&mut self.keeper, known);
        self.core.audit();
        let opened = open_beside(alloc, &mut self.core, desks, asked);
        self.core.audit();
        board.write(&mut self.keeper, front, &self.core);
        *openings = board.sight(front);
        with_lane(alloc, board, front, opened)
    }
}

// A queue that was opened, whose lane gets one share of a front.
fn with_lane(
    alloc: Global,
    board: &Board,
    front: &mut Front,
    opened: Result<Bare, Refusal>,
) -> Result<Opened, Refusal>
    requires front { (front.old.board ≡ board.now) × (1 < front.old.share) }
    requires unused { IfOk opened (λ o. IsUnused o.0 o.2) }
    ensures front { before_lane result front.new ≡ front.old }
    ensures board { front.new.board ≡ front.old.board }
    ensures number { map_ok (λ o. Outcome.Opened o.0) result ≡ map_ok (λ o. Outcome.Opened o.0) opened }
    ensures opened { (old new : List QueueRing) (size producers : ℕ) →
        ((its : FrontSeen) → IfOk opened (λ o. IsOpened old size producers its o.0 o.1.items (new_lane o.0 o.2 its) new))
        → IfOk result (λ o. IsOpened old size producers (fresh_of front.new) o.0 o.1.items o.2 new) }
{
    match opened {
        Err(why) => Err(why),
        Ok((queue, ends, pass)) => {
            let lane = lane_of(alloc, queue, pass, board.again(front));
            Ok((queue, ends, lane))
        }
    }
}

// The number that a queue will have in the core that is opened next, or why it isn't.
#[tactic(auto, using(crate::proofs::Opened::refused_meets))]
fn may_open(
    core: &AccessCore,
    client: ClientId,
    agent: AgentHandle,
    size: u64,
) -> Result<QueueId, Refusal>
    ensures may { IfOk result (λ queue. due core.now.history (Event.Open client agent size) ≡ enters (Outcome.Opened queue) []) }
    ensures why { IfErr result (λ why. MeetsOrLacks (Event.Open client agent size) core.now.history core.now.history (Err why)) }
{
    core.may_open(client, agent, size)
}

// The same, where it isn't behind the last that a broker opens.
#[tactic(auto, using(crate::proofs::Opened::openable, crate::proofs::Opened::refused_behind, crate::proofs::Opened::refused_as_core))]
fn may_open_here(
    core: &AccessCore,
    client: ClientId,
    agent: AgentHandle,
    size: u64,
) -> Result<QueueId, Refusal>
    ensures may { IfOk result (IsOpenable core.now.history (Event.Open client agent size)) }
    ensures why { IfErr result (λ why. OpensQueue (Event.Open client agent size) core.now.history (Err why) core.now.history) }
{
    match may_open(core, client, agent, size) {
        Err(why) => Err(why),
        Ok(queue) => {
            if queue.0 > QUEUES as u64 {
                return Err(Refusal::TooMany);
            }
            Ok(queue)
        }
    }
}

// The ends of a queue, from the passes to its ring.
fn ends_of(
    alloc: Global,
    queue: QueueId,
    passes: Vec<ProducerPass>,
) -> Result<Vec<ClientEnd>, AllocError>
    ensures { IfOk result (λ ends. ends.items ≡ map (as_end queue) passes.items) }
{
    let mut ends = Vec::with_capacity(alloc, passes.len())?;
    for pass in passes {
        ends.push(ClientEnd { queue, pass })?;
    }
    Ok(ends)
}

// A lane of a queue that was opened.
#[tactic(auto, using(crate::proofs::KeptLanes::opened_keeps, crate::proofs::KeptLanes::opened_as))]
fn lane_of(alloc: Global, queue: QueueId, pass: ProcessorPass, front: Front) -> Lane
    requires pass { (pass.part.retired ≡ []) × (pass.part.raising ≡ false) }
    requires few { queue.0 ≤ most_queues }
    ensures { result ≡ new_lane queue pass front }
{
    Lane {
        queue,
        pass,
        kept: Vec::new(alloc),
        handed: 0,
        pending: Vec::new(alloc),
        front,
    }
}

// What a queue has beside the core, before it is opened there.
#[derive(Drop)]
struct Beside {
    desk: Desk,
    ends: Vec<ClientEnd>,
    pass: ProcessorPass,
}

// Makes what a queue has beside the core.
fn make_beside(
    alloc: Global,
    queue: QueueId,
    size: u64,
    producers: u64,
) -> Result<Beside, AllocError>
    ensures { IfOk result (IsBeside queue size producers) }
{
    let Ok((ring, passes, processor)) = Ring::new(alloc, size, producers) else {
        return Err(AllocError);
    };
    let doorbell = Doorbell::new(alloc)?;
    let ends = ends_of(alloc, queue, passes)?;
    let ring = CachePadded::new(ring);
    let desk = Desk {
        queue,
        ring,
        doorbell,
    };
    Ok(Beside {
        desk,
        ends,
        pass: processor,
    })
}

// Makes it, with room for its desk.
fn make_room(
    alloc: Global,
    desks: &mut Vec<Desk>,
    queue: QueueId,
    size: u64,
    producers: u64,
) -> Result<Beside, AllocError>
    ensures made { IfOk result (IsBeside queue size producers) }
    ensures room { OnOk result (vec_len desks.new < vec_capacity desks.new) }
    ensures desks { desks.new.items ≡ desks.old.items }
{
    desks.reserve(1)?;
    make_beside(alloc, queue, size, producers)
}

// Opens a queue in a core, and puts what was made for it behind the other desks.
#[tactic(auto, using(crate::proofs::Opened::opened_meets, crate::proofs::Opened::few_open))]
fn enter_queue(
    alloc: Global,
    core: &mut AccessCore,
    desks: &mut Vec<Desk>,
    client: ClientId,
    agent: AgentHandle,
    size: u64,
    made: Beside,
) -> Result<Bare, Refusal>
    requires openable { IsOpenable core.old.history (Event.Open client agent size) made.desk.queue }
    requires fresh { ring_of (next_queue core.old.history) (map seen desks.old.items) ≡ None }
    requires room { vec_len desks.old < vec_capacity desks.old }
    requires apart { AreApart (map seen desks.old.items) }
    ensures due { MeetsOrLacks (Event.Open client agent size) core.old.history core.new.history (map_ok (λ o. Outcome.Opened o.0) result) }
    ensures few { IsOneOfFew (map_ok (λ o. Outcome.Opened o.0) result) }
    ensures entered { IfOk result (λ o. HasEntered made (map seen desks.old.items) (map seen desks.new.items) o.0 o.1.items o.2) }
    ensures refused { IfErr result (λ _. desks.new.items ≡ desks.old.items) }
    ensures apart { AreApart (map seen desks.new.items) }
{
    let queue = made.desk.queue;
    match core.open_allowed(alloc, client, agent, size, queue) {
        Err(why) => Err(why),
        Ok(_) => {
            let Beside { desk, ends, pass } = made;
            desks.push_reserved(desk);
            Ok((queue, ends, pass))
        }
    }
}

// Opens a queue in a core and beside it.
#[tactic(auto, using(crate::proofs::Opened::lacks, crate::proofs::Opened::opens_here, crate::proofs::Opened::entered_opened, crate::proofs::Opened::entered_unused))]
fn open_beside(
    alloc: Global,
    core: &mut AccessCore,
    desks: &mut Vec<Desk>,
    asked: Asked,
) -> Result<Bare, Refusal>
    requires apart { AreApart (map seen desks.old.items) }
    requires fresh { ring_of (next_queue core.old.history) (map seen desks.old.items) ≡ None }
    ensures due { OpensQueue (opening_event asked.client asked.agent asked.size asked.producers) core.old.history (map_ok (λ o. Outcome.Opened o.0) result) core.new.history }
    ensures opened { (its : FrontSeen) → IfOk result (λ o. IsOpened (map seen desks.old.items) asked.size asked.producers its o.0 o.1.items (new_lane o.0 o.2 its) (map seen desks.new.items)) }
    ensures unused { IfOk result (λ o. IsUnused o.0 o.2) }
    ensures refused { IfErr result (λ _. map seen desks.new.items ≡ map seen desks.old.items) }
    ensures apart { AreApart (map seen desks.new.items) }
{
    let Asked {
        client,
        agent,
        size,
        producers,
    } = asked;
    let judged = judged_size(size, producers);
    match may_open_here(core, client, agent, judged) {
        Err(why) => Err(why),
        Ok(next) => match make_room(alloc, desks, next, judged, producers) {
            Err(_) => Err(Refusal::OutOfMemory),
            Ok(made) => enter_queue(alloc, core, desks, client, agent, judged, made),
        },
    }
}
