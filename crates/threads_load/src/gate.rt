//! The gate that ends the load's lanes, and parts their work into rounds.

use crate::limits::LoadLimits;
use aql_packet::QueueId;
use client_threads::{Advanced, Gate, LaneAnswer, ServeAnswer};
use core_model::Refusal;
use crossbeam_utils::CachePadded;
use std::alloc::{AllocError, Global};
use std::sync::atomic::{AtomicU64, Ordering};
use std::thread;

/// In how many turns lanes do something, all together, until a round ends. A turn leaves at most two entries in the
/// audit, so that it is half full then.
const TURNS_A_ROUND: u64 = 32_768;

/// After how many of these a lane adds them to what all did.
const TURNS_AT_ONCE: u64 = 16;

/// After how many turns in a row with nothing to do a lane waits at its doorbell.
const IDLE_TURNS: u64 = 64;

/// What is counted of a lane. Each stands in cache lines of its own, so that no lane takes them from another.
#[derive(Drop)]
pub(crate) struct Tally {
    // The last turn of this round that it makes at the most: 0 once all of its packets are finished.
    last_turn: AtomicU64,
    // How many of its packets are finished.
    finished: AtomicU64,
    // In how many of its turns it did something.
    worked: AtomicU64,
    // Whether it has ended for good: 1 then.
    ended: AtomicU64,
    // In how many turns in a row its ring was empty and none of its packets pending.
    idle: AtomicU64,
    // How many of its producers have begun and not ended.
    producing: AtomicU64,
}

impl Tally {
    // Of a lane that makes so many turns at the most.
    fn new(most_turns: u64) -> Tally {
        Tally {
            last_turn: AtomicU64::new(most_turns),
            finished: AtomicU64::new(0),
            worked: AtomicU64::new(0),
            ended: AtomicU64::new(0),
            idle: AtomicU64::new(0),
            producing: AtomicU64::new(0),
        }
    }

    /// The doorbell of the lane rang: it looks again, so many turns at least.
    pub(crate) fn wake(&self) {
        self.idle.store(0, Ordering::SeqCst);
    }

    // It did nothing in a turn.
    fn rest(&self, done: LaneAnswer) {
        if has_nothing(done) {
            self.idle.fetch_add(1, Ordering::SeqCst);
        } else {
            self.wake();
        }
        thread::yield_now();
    }
}

/// Ends a lane of the load where as many of its packets are finished as its producers publish, and else behind
/// 10,000,000 turns, or as many as it is made for. Lanes may work in rounds: all of them rest when the first packet is
/// finished, when the audit may be half full, and when it is full. Turns are counted over all rounds.
#[derive(Drop)]
pub struct LoadGate {
    // What is counted of each lane, by its queue.
    tallies: Vec<CachePadded<Tally>>,
    // How many packets of each lane are to be finished.
    wanted: u64,
    // How many turns a lane makes at the most.
    most_turns: u64,
    // Whether they are counted anew behind each packet that is finished.
    are_renewed: bool,
    // In how many turns of this round lanes did something, all together, by what they told so far.
    worked: AtomicU64,
    // Which round this is, from 1 on; 0 where lanes don't work in rounds.
    round: AtomicU64,
    // Whether it is over, or all are to end: 1 then.
    over: AtomicU64,
    // Whether a lane met its turns, and whether all are to end: 1 then.
    unsettled: AtomicU64,
    stopped: AtomicU64,
    // Whether a call of a turn was refused for want of memory: 1 then.
    wanting: AtomicU64,
}

impl LoadGate {
    /// A gate for so many lanes, the queues of which are numbered from 1, and each of which finishes so many packets.
    pub fn new(alloc: Global, lanes: usize, wanted: u64) -> Result<LoadGate, AllocError> {
        LoadGate::within(alloc, lanes, wanted, LoadLimits::in_all())
    }

    /// Such a gate, which ends a lane behind so many turns.
    pub fn with_turns(
        alloc: Global,
        lanes: usize,
        wanted: u64,
        most_turns: u64,
    ) -> Result<LoadGate, AllocError> {
        let limits = LoadLimits {
            turns: most_turns,
            ..LoadLimits::in_all()
        };
        LoadGate::within(alloc, lanes, wanted, limits)
    }

    /// Such a gate, which ends a lane within these limits.
    pub fn within(
        alloc: Global,
        lanes: usize,
        wanted: u64,
        limits: LoadLimits,
    ) -> Result<LoadGate, AllocError> {
        let first_turns = if wanted == 0 { 0 } else { limits.turns };
        let mut tallies = Vec::with_capacity(alloc, lanes)?;
        for _lane in 0..lanes {
            tallies.push(CachePadded::new(Tally::new(first_turns)))?;
        }
        Ok(LoadGate {
            tallies,
            wanted,
            most_turns: limits.turns,
            are_renewed: limits.are_renewed,
            worked: AtomicU64::new(0),
            round: AtomicU64::new(0),
            over: AtomicU64::new(0),
            unsettled: AtomicU64::new(0),
            stopped: AtomicU64::new(0),
            wanting: AtomicU64::new(0),
        })
    }

    /// Whether a lane met its turns.
    pub fn is_unsettled(&self) -> bool {
        self.unsettled.load(Ordering::SeqCst) != 0
    }

    /// Whether a call of a turn was refused for want of memory.
    pub fn has_want(&self) -> bool {
        self.wanting.load(Ordering::SeqCst) != 0
    }

    /// Ends all lanes, and has the producers give up.
    pub fn stop(&self) {
        self.stopped.store(1, Ordering::SeqCst);
        self.over.store(1, Ordering::SeqCst);
    }

    /// Whether all are to end.
    pub fn is_stopped(&self) -> bool {
        self.stopped.load(Ordering::SeqCst) != 0
    }

    /// How many packets are finished, of all lanes.
    pub fn finished(&self) -> u64 {
        let mut count = 0u64;
        for tally in &self.tallies {
            count = count.saturating_add(tally.finished.load(Ordering::SeqCst));
        }
        count
    }

    /// How many packets all lanes are to finish.
    pub fn wanted(&self) -> u64 {
        self.wanted.saturating_mul(self.tallies.len() as u64)
    }

    /// Lanes work in rounds from now on, and this is the first.
    pub fn begin_rounds(&self) {
        self.round.store(1, Ordering::SeqCst);
    }

    /// Once lanes rest: whether the load goes on with another round, which may begin then. It doesn't where all lanes
    /// have ended for good.
    pub fn begin_next(&self) -> bool {
        let is_over = self
            .tallies
            .iter()
            .all(|tally| tally.ended.load(Ordering::SeqCst) != 0);
        self.worked.store(0, Ordering::SeqCst);
        self.round.fetch_add(1, Ordering::SeqCst);
        self.over.store(0, Ordering::SeqCst);
        if self.is_stopped() {
            self.over.store(1, Ordering::SeqCst);
        }
        !is_over
    }

    /// How many lanes there are.
    pub(crate) fn lanes(&self) -> usize {
        self.tallies.len()
    }

    // Whether lanes rest until the next round, or for good.
    fn is_over(&self) -> bool {
        self.over.load(Ordering::SeqCst) != 0
    }

    // This round is over, if it is one. Answers whether it is.
    fn end_round(&self) -> bool {
        let is_round = self.round.load(Ordering::SeqCst) != 0;
        if is_round {
            self.over.store(1, Ordering::SeqCst);
        }
        is_round
    }

    /// A producer of a queue begins.
    pub(crate) fn begin_producer(&self, queue: QueueId) {
        if let Some(tally) = self.tally_of(queue) {
            tally.producing.fetch_add(1, Ordering::SeqCst);
        }
    }

    /// A producer of a queue has published all, or gives up.
    pub(crate) fn end_producer(&self, queue: QueueId) {
        if let Some(tally) = self.tally_of(queue) {
            tally.producing.fetch_sub(1, Ordering::SeqCst);
        }
    }

    /// Whether a lane is to wait at its doorbell: it has had nothing to do in turns enough, and a producer that rings is
    /// at work. The end of a round rings as well.
    pub(crate) fn is_to_wait(&self, tally: &Tally) -> bool {
        IDLE_TURNS <= tally.idle.load(Ordering::SeqCst)
            && tally.producing.load(Ordering::SeqCst) != 0
            && !self.is_over()
    }

    // What is counted of the lane of a queue, if it is one of the load's.
    fn tally_of(&self, queue: QueueId) -> Option<&Tally> {
        let tally = self.tallies.get((queue.0 as usize).checked_sub(1)?)?;
        Some(tally)
    }

    /// The same of a lane by its number, which is its queue's.
    pub(crate) fn tally(&self, lane: u32) -> Option<&Tally> {
        self.tally_of(QueueId(u64::from(lane)))
    }

    /// Whether a lane makes this turn.
    pub(crate) fn lets_in(&self, tally: &Tally, turn: u64) -> bool {
        if turn <= tally.last_turn.load(Ordering::SeqCst) && !self.is_over() {
            return true;
        }
        self.end_lane(tally, turn);
        false
    }

    // A lane doesn't make this turn: it has ended for good, or rests until the next round.
    fn end_lane(&self, tally: &Tally, turn: u64) {
        let last = tally.last_turn.load(Ordering::SeqCst);
        let is_done = self.wanted <= tally.finished.load(Ordering::SeqCst) || self.is_stopped();
        if !is_done && turn <= last {
            let made = turn.saturating_sub(1);
            tally
                .last_turn
                .store(last.saturating_sub(made), Ordering::SeqCst);
            return;
        }
        if !is_done {
            self.unsettled.store(1, Ordering::SeqCst);
            tally.last_turn.store(0, Ordering::SeqCst);
        }
        tally.ended.store(1, Ordering::SeqCst);
    }

    /// Reckons what a lane did in a turn. Answers whether that ends the round.
    pub(crate) fn reckon(&self, lane: u32, turn: u64, done: LaneAnswer) -> bool {
        let Some(tally) = self.tally(lane) else {
            return false;
        };
        if has_want(done) {
            self.wanting.store(1, Ordering::SeqCst);
        }
        if is_idle(done) {
            let is_ended = is_full(done) && self.end_round();
            tally.rest(done);
            return is_ended;
        }
        let is_enough = self.work(tally);
        let is_first = match done.advanced {
            Advanced::Finished(_) => self.count(tally, turn),
            _ => false,
        };
        (is_enough || is_first) && self.end_round()
    }

    // A packet of a lane is finished. Answers whether that ends the round: with the first of all.
    fn count(&self, tally: &Tally, turn: u64) -> bool {
        let before = tally.finished.fetch_add(1, Ordering::SeqCst);
        if self.wanted <= before.saturating_add(1) {
            tally.last_turn.store(0, Ordering::SeqCst);
        } else if self.are_renewed {
            let last = turn.saturating_add(self.most_turns);
            tally.last_turn.store(last, Ordering::SeqCst);
        }
        self.round.load(Ordering::SeqCst) == 1
    }

    // A lane did something in a turn. Answers whether so many turns end the round.
    fn work(&self, tally: &Tally) -> bool {
        if tally.idle.load(Ordering::SeqCst) != 0 {
            tally.wake();
        }
        let before = tally.worked.fetch_add(1, Ordering::SeqCst);
        if before % TURNS_AT_ONCE != TURNS_AT_ONCE - 1 {
            return false;
        }
        let told = self.worked.fetch_add(TURNS_AT_ONCE, Ordering::SeqCst);
        TURNS_A_ROUND <= told.saturating_add(TURNS_AT_ONCE)
    }
}

// Whether the core took a packet.
fn is_served(answer: ServeAnswer) -> bool {
    match answer {
        ServeAnswer::Launched(_) | ServeAnswer::Denied(_) => true,
        _ => false,
    }
}

// Whether a packet got on.
fn is_advanced(answer: Advanced) -> bool {
    match answer {
        Advanced::Idle | Advanced::Refused(_, _) => false,
        _ => true,
    }
}

// Whether a lane did nothing in a turn: nothing was there, or all was refused, as by a full audit.
fn is_idle(done: LaneAnswer) -> bool {
    !is_served(done.served) && !is_advanced(done.advanced)
}

// Whether a lane had nothing to do in a turn: its ring was empty, and none of its packets pending.
fn has_nothing(done: LaneAnswer) -> bool {
    matches!(done.served, ServeAnswer::Empty) && matches!(done.advanced, Advanced::Idle)
}

// Whether a call of the turn was refused for want of memory.
fn has_want(done: LaneAnswer) -> bool {
    matches!(done.served, ServeAnswer::Refused(_, Refusal::OutOfMemory))
        || matches!(done.advanced, Advanced::Refused(_, Refusal::OutOfMemory))
}

// Whether the audit is full: a call of the turn was refused for that.
fn is_full(done: LaneAnswer) -> bool {
    matches!(done.served, ServeAnswer::Refused(_, Refusal::AuditFull))
        || matches!(done.advanced, Advanced::Refused(_, Refusal::AuditFull))
}

impl Gate for LoadGate {
    fn enter(&self, lane: u32, turn: u64) -> bool {
        match self.tally(lane) {
            Some(tally) => self.lets_in(tally, turn),
            None => false,
        }
    }

    fn leave(&self, lane: u32, turn: u64, done: LaneAnswer) {
        self.reckon(lane, turn, done);
    }
}
