//! Who is connected, and what is whose.

ghost use Rattle.std.specs.Prelude.{◌≡◌, IfOk, [], map};
ghost use Rattle.session.specs.Tables.{step, come, greet, message, opening, close, closed, mirror, unsent, sent, gone, asked, starting, outcome, joined, opened, mirrored, left, with_row, without, come_as, counted, may_come, may_greet, heard, may_speak, may_open, may_mirror, has_seat, comer};
ghost use Rattle.session.specs.Rows.{asker_in, late_in, due_in};
ghost use Rattle.session.specs.Seen.{seen};

use crate::call::Call;
use crate::judging::{Asker, OpenQueue, Verdict, has_fewer, is_own, judge, owner_of, within};
use crate::limits::Limits;
use crate::pace::Pace;
use crate::requests::Request;
use crate::rows::{
    Comer, OpenMirror, Places, Session, asker_in, comer_in, drop_mirrors, drop_queue, drop_session,
    due_in, fits, has_fewer_sessions, has_mirror, is_there, late_in, put_comer, put_session,
    session_in,
};
use std::alloc::{AllocError, Global};

/// Who is connected, and what is whose. It takes memory when it is made, and never again.
#[derive(Drop)]
pub struct Table {
    limits: Limits,
    next: u64,
    newest: u64,
    users: Vec<Comer>,
    sessions: Vec<Session>,
    queues: Vec<OpenQueue>,
    mirrors: Vec<OpenMirror>,
}

impl Table {
    /// The table in which nobody is, with room for so many rows. These users may come.
    pub fn new(
        alloc: Global,
        limits: Limits,
        users: &[u32],
        places: Places,
    ) -> Result<Table, AllocError>
        ensures { IfOk result (λ table. seen table ≡ starting limits users.now places) }
    {
        Ok(Table {
            limits,
            next: 1,
            newest: 0,
            users: comers(alloc, users)?,
            sessions: Vec::with_capacity(alloc, places.sessions)?,
            queues: Vec::with_capacity(alloc, places.queues)?,
            mirrors: Vec::with_capacity(alloc, places.mirrors)?,
        })
    }

    /// The number that the next session has.
    pub fn next(&self) -> u64
        ensures { result ≡ (seen self.now).next }
    {
        self.next
    }

    /// Who asks by a session that was greeted: its client, and no other's.
    pub fn asker(&self, session: u64) -> Option<Asker>
        ensures { result ≡ asker_in (seen self.now).sessions session }
    {
        asker_in(self.sessions.as_slice(), session)
    }

    /// What comes of what a session asks, before the core is asked.
    pub fn judge(&self, session: u64, request: &Request) -> Verdict
        ensures { result ≡ asked (seen self.now) session request.now }
    {
        match self.asker(session) {
            None => Verdict::NotNow,
            Some(asker) => judge(self.queues.as_slice(), self.limits.queues, &asker, request),
        }
    }

    /// The first session that did not say in its time who it is.
    pub fn late(&self, now: u64) -> Option<u64>
        ensures { result ≡ late_in self.now.limits.greeting_time now (seen self.now).sessions }
    {
        late_in(self.limits.greeting_time, now, self.sessions.as_slice())
    }

    /// The first queue that is to be closed, since its session is gone.
    pub fn due(&self) -> Option<u64>
        ensures { result ≡ due_in (seen self.now).sessions (seen self.now).queues }
    {
        due_in(self.sessions.as_slice(), self.queues.as_slice())
    }

    /// A user comes: in its pace, where it has fewer sessions than it may, its session is the next.
    pub fn come(&mut self, user: u32, now: u64) -> Verdict
        ensures { outcome result (seen self.new) ≡ come (seen self.old) user now }
    {
        match comer_in(self.users.as_slice(), user) {
            None => Verdict::Unknown,
            Some(comer) => {
                let comer = counted(&self.limits, now, comer);
                put_comer(&mut self.users, comer);
                self.come_as(&comer, now)
            }
        }
    }

    // A user comes whose pace is counted.
    fn come_as(&mut self, comer: &Comer, now: u64) -> Verdict
        ensures { outcome result (seen self.new) ≡ come_as (seen self.old) comer.now now }
    {
        let verdict = self.may_come(comer);
        if !verdict.is_make() {
            return verdict;
        }
        if self.sessions.len() >= self.sessions.capacity() || self.next == u64::MAX {
            return Verdict::NoRoom;
        }
        self.sessions
            .push_reserved(newcomer(self.next, comer.user, now));
        self.next += 1;
        Verdict::Make
    }

    // Whether a user may come.
    fn may_come(&self, comer: &Comer) -> Verdict
        ensures { result ≡ may_come (seen self.now) comer.now }
    {
        if comer.pace.count <= self.limits.connects {
            within(has_fewer_sessions(self.sessions.as_slice(), comer.user, self.limits.sessions))
        } else {
            Verdict::TooOften
        }
    }

    /// A session says who it is: once, and in time.
    pub fn greet(&mut self, session: u64, client: u32, now: u64) -> Verdict
        ensures { outcome result (seen self.new) ≡ greet (seen self.old) session client now }
    {
        match session_in(self.sessions.as_slice(), session) {
            None => Verdict::Unknown,
            Some(row) => {
                let verdict = may_greet(&self.limits, &row, now);
                if !verdict.is_make() {
                    return verdict;
                }
                let greeted = Session {
                    client: Some(client),
                    ..row
                };
                put_session(&mut self.sessions, greeted);
                Verdict::Make
            }
        }
    }

    /// A session's message comes: whether it is looked at now. It isn't where too many come, or an answer waits to be sent.
    pub fn message(&mut self, session: u64, now: u64) -> Verdict
        ensures { outcome result (seen self.new) ≡ message (seen self.old) session now }
    {
        match session_in(self.sessions.as_slice(), session) {
            None => Verdict::Unknown,
            Some(row) => {
                let row = heard(&self.limits, now, row);
                put_session(&mut self.sessions, row);
                may_speak(&self.limits, &row)
            }
        }
    }

    /// The core has opened a queue for a session: it is the session's, and no other's.
    pub fn open(&mut self, session: u64, queue: u64) -> Verdict
        ensures { outcome result (seen self.new) ≡ opening (seen self.old) session queue }
    {
        match asker_in(self.sessions.as_slice(), session) {
            None => Verdict::NotNow,
            Some(asker) => {
                let verdict = self.may_open(&asker, queue);
                if !verdict.is_make() {
                    return verdict;
                }
                if self.queues.len() >= self.queues.capacity() {
                    return Verdict::NoRoom;
                }
                self.queues.push_reserved(OpenQueue {
                    queue,
                    session: asker.session,
                    client: asker.client,
                });
                self.newest = queue;
                Verdict::Make
            }
        }
    }

    // Whether a queue may be a session's.
    fn may_open(&self, asker: &Asker, queue: u64) -> Verdict
        ensures { result ≡ may_open (seen self.now) asker.now queue }
    {
        if self.newest < queue {
            within(has_fewer(self.queues.as_slice(), asker.client, self.limits.queues))
        } else {
            Verdict::NotYours
        }
    }

    /// The core has closed a queue that its session asked it to close.
    pub fn close(&mut self, session: u64, queue: u64) -> Verdict
        ensures { outcome result (seen self.new) ≡ close (seen self.old) session queue }
    {
        match asker_in(self.sessions.as_slice(), session) {
            None => Verdict::NotNow,
            Some(asker) => {
                if !is_own(self.queues.as_slice(), &asker, queue) {
                    return Verdict::NotYours;
                }
                drop_queue(&mut self.queues, asker.session, queue);
                Verdict::Make
            }
        }
    }

    /// The core has closed a queue whose session is gone.
    pub fn closed(&mut self, queue: u64) -> Verdict
        ensures { outcome result (seen self.new) ≡ closed (seen self.old) queue }
    {
        match owner_of(self.queues.as_slice(), queue) {
            None => Verdict::NotYours,
            Some(session) => {
                if is_there(self.sessions.as_slice(), session) {
                    return Verdict::NotYours;
                }
                drop_queue(&mut self.queues, session, queue);
                Verdict::Make
            }
        }
    }

    /// A session is given a mirror of a region, of so many bytes.
    pub fn mirror(&mut self, session: u64, region: u64, bytes: u64) -> Verdict
        ensures { outcome result (seen self.new) ≡ mirror (seen self.old) session region bytes }
    {
        match asker_in(self.sessions.as_slice(), session) {
            None => Verdict::NotNow,
            Some(asker) => {
                let verdict = self.may_mirror(&asker, region, bytes);
                if !verdict.is_make() {
                    return verdict;
                }
                if self.mirrors.len() >= self.mirrors.capacity() {
                    return Verdict::NoRoom;
                }
                self.mirrors.push_reserved(OpenMirror {
                    session: asker.session,
                    client: asker.client,
                    region,
                    bytes,
                });
                Verdict::Make
            }
        }
    }

    // Whether a session may have a mirror.
    fn may_mirror(&self, asker: &Asker, region: u64, bytes: u64) -> Verdict
        ensures { result ≡ may_mirror (seen self.now) asker.now region bytes }
    {
        let mirrors = self.mirrors.as_slice();
        if has_mirror(mirrors, asker.session, region) {
            Verdict::NotNow
        } else {
            within(fits(mirrors, asker.client, bytes, self.limits.mirrors))
        }
    }

    /// An answer of a session can't be sent yet.
    pub fn unsent(&mut self, session: u64) -> Verdict
        ensures { outcome result (seen self.new) ≡ unsent (seen self.old) session }
    {
        match session_in(self.sessions.as_slice(), session) {
            None => Verdict::Unknown,
            Some(row) => {
                if row.unsent >= self.limits.answers {
                    return Verdict::Quota;
                }
                let row = Session {
                    unsent: row.unsent + 1,
                    ..row
                };
                put_session(&mut self.sessions, row);
                Verdict::Make
            }
        }
    }

    /// An answer of a session that waited was sent.
    pub fn sent(&mut self, session: u64) -> Verdict
        ensures { outcome result (seen self.new) ≡ sent (seen self.old) session }
    {
        match session_in(self.sessions.as_slice(), session) {
            None => Verdict::Unknown,
            Some(row) => {
                if row.unsent == 0 {
                    return Verdict::NotNow;
                }
                let row = Session {
                    unsent: row.unsent - 1,
                    ..row
                };
                put_session(&mut self.sessions, row);
                Verdict::Make
            }
        }
    }

    /// A session is gone: its mirrors go with it, and its queues are to be closed.
    pub fn gone(&mut self, session: u64) -> Verdict
        ensures { outcome result (seen self.new) ≡ gone (seen self.old) session }
    {
        if !is_there(self.sessions.as_slice(), session) {
            return Verdict::Unknown;
        }
        drop_session(&mut self.sessions, session);
        drop_mirrors(&mut self.mirrors, session);
        Verdict::Make
    }

    /// Makes any call.
    pub fn make(&mut self, call: &Call) -> Verdict
        ensures { outcome result (seen self.new) ≡ step (seen self.old) call.now }
    {
        match *call {
            Call::Come { user, now } => self.come(user, now),
            Call::Greet {
                session,
                client,
                now,
            } => self.greet(session, client, now),
            Call::Message { session, now } => self.message(session, now),
            Call::Open { session, queue } => self.open(session, queue),
            Call::Close { session, queue } => self.close(session, queue),
            Call::Closed { queue } => self.closed(queue),
            Call::Mirror {
                session,
                region,
                bytes,
            } => self.mirror(session, region, bytes),
            Call::Unsent { session } => self.unsent(session),
            Call::Sent { session } => self.sent(session),
            Call::Gone { session } => self.gone(session),
        }
    }
}

// The rows of users that may come, who haven't yet.
fn comers(alloc: Global, users: &[u32]) -> Result<Vec<Comer>, AllocError>
    ensures { IfOk result (λ rows. rows.items ≡ map comer users.now) }
{
    users
        .iter()
        .map(|user| Comer {
            user: *user,
            pace: Pace { begun: 0, count: 0 },
        })
        .collect(alloc)
}

// The row of a session that has come.
fn newcomer(session: u64, user: u32, now: u64) -> Session
    ensures { result ≡ record { session = session; user = user; since = now; client = None; pace = record { begun = now; count = 0 }; unsent = 0 } }
{
    Session {
        session,
        user,
        since: now,
        client: None,
        pace: Pace {
            begun: now,
            count: 0,
        },
        unsent: 0,
    }
}

// A user that comes now, as often as that is.
fn counted(limits: &Limits, now: u64, comer: Comer) -> Comer
    ensures { result ≡ counted limits.now now comer }
{
    let mut pace = comer.pace;
    let _ = pace.counts(now, limits.connect_time, limits.connects);
    Comer {
        user: comer.user,
        pace,
    }
}

// A session whose message comes now, as often as that is.
fn heard(limits: &Limits, now: u64, row: Session) -> Session
    ensures { result ≡ heard limits.now now row }
{
    let mut pace = row.pace;
    let _ = pace.counts(now, limits.message_time, limits.messages);
    Session { pace, ..row }
}

// Whether a session may say now who it is.
fn may_greet(limits: &Limits, row: &Session, now: u64) -> Verdict
    ensures { result ≡ may_greet limits.now row.now now }
{
    match row.client {
        None => {
            if now.saturating_sub(row.since) < limits.greeting_time {
                Verdict::Make
            } else {
                Verdict::TooLate
            }
        }
        Some(_) => Verdict::NotNow,
    }
}

// Whether a session's message is looked at.
fn may_speak(limits: &Limits, row: &Session) -> Verdict
    ensures { result ≡ may_speak limits.now row.now }
{
    if row.pace.count > limits.messages {
        Verdict::TooOften
    } else if row.unsent < limits.answers {
        Verdict::Make
    } else {
        Verdict::NotNow
    }
}
