//! Rows of who is connected, and of what is whose.

ghost use Rattle.std.specs.Prelude.{◌≡◌, ◌+◌, ◌<◌, nat_lt, nat_le, length, filter, vec_capacity, IfSome};
ghost use Rattle.session.specs.Positions.{comer_place, session_place};
ghost use Rattle.session.specs.Rows.{comer_in, put_comer, session_in, is_there, put_session, sessions_of, asker_of, asker_in, is_late, late_in, due_in, bytes_of, has_mirror, stays_open, stays_connected, stays_mirrored};

use crate::judging::{Asker, OpenQueue};
use crate::pace::Pace;

/// A user of the machine that may come, and how often it came.
#[derive(Clone, Copy)]
pub struct Comer {
    pub user: u32,
    pub pace: Pace,
}

/// Who is connected: its number, its user, since when, its client once it was greeted, how often messages came, and how many
/// answers wait to be sent.
#[derive(Clone, Copy)]
pub struct Session {
    pub session: u64,
    pub user: u32,
    pub since: u64,
    pub client: Option<u32>,
    pub pace: Pace,
    pub unsent: u64,
}

/// A mirror that a session has: of which region, with how many bytes; and the session's client.
#[derive(Clone, Copy)]
pub struct OpenMirror {
    pub session: u64,
    pub client: u32,
    pub region: u64,
    pub bytes: u64,
}

/// How many sessions, queues and mirrors there is room for.
#[derive(Clone, Copy)]
pub struct Places {
    pub sessions: usize,
    pub queues: usize,
    pub mirrors: usize,
}

/// The row of a user that may come.
#[tactic(auto, unfolding(crate::specs::Rows::comer_in))]
pub(crate) fn comer_in(rows: &[Comer], user: u32) -> Option<Comer>
    ensures { result ≡ comer_in rows.now user }
{
    match rows {
        [] => None,
        [row, rest @ ..] => {
            if row.user == user {
                Some(*row)
            } else {
                comer_in(rest, user)
            }
        }
    }
}

/// The row of a session.
#[tactic(auto, unfolding(crate::specs::Rows::session_in))]
pub(crate) fn session_in(rows: &[Session], session: u64) -> Option<Session>
    ensures { result ≡ session_in rows.now session }
{
    match rows {
        [] => None,
        [row, rest @ ..] => {
            if row.session == session {
                Some(*row)
            } else {
                session_in(rest, session)
            }
        }
    }
}

/// Whether a session is there.
pub(crate) fn is_there(rows: &[Session], session: u64) -> bool
    ensures { result ≡ is_there rows.now session }
{
    match session_in(rows, session) {
        None => false,
        Some(_) => true,
    }
}

/// Who asks: a session that was greeted.
pub(crate) fn asker_in(rows: &[Session], session: u64) -> Option<Asker>
    ensures { result ≡ asker_in rows.now session }
{
    match session_in(rows, session) {
        None => None,
        Some(row) => asker_of(&row),
    }
}

fn asker_of(row: &Session) -> Option<Asker>
    ensures { result ≡ asker_of row.now }
{
    match row.client {
        None => None,
        Some(client) => Some(Asker {
            session: row.session,
            client,
        }),
    }
}

/// Whether a user has fewer sessions than so many.
#[tactic(auto, unfolding(crate::specs::Rows::sessions_of))]
pub(crate) fn has_fewer_sessions(rows: &[Session], user: u32, most: u64) -> bool
    ensures { result ≡ nat_lt (sessions_of rows.now user) most }
{
    match rows {
        [] => most > 0,
        [row, rest @ ..] => {
            if row.user != user {
                has_fewer_sessions(rest, user, most)
            } else if most == 0 {
                false
            } else {
                has_fewer_sessions(rest, user, most - 1)
            }
        }
    }
}

// Whether a session was not greeted in its time.
fn is_late(time: u64, now: u64, row: &Session) -> bool
    ensures { result ≡ is_late time now row.now }
{
    match row.client {
        None => time <= now.saturating_sub(row.since),
        Some(_) => false,
    }
}

/// The first session that was not greeted in its time.
#[tactic(auto, unfolding(crate::specs::Rows::late_in))]
pub(crate) fn late_in(time: u64, now: u64, rows: &[Session]) -> Option<u64>
    ensures { result ≡ late_in time now rows.now }
{
    match rows {
        [] => None,
        [row, rest @ ..] => {
            if is_late(time, now, row) {
                Some(row.session)
            } else {
                late_in(time, now, rest)
            }
        }
    }
}

/// The first queue whose session is gone.
#[tactic(auto, unfolding(crate::specs::Rows::due_in))]
pub(crate) fn due_in(sessions: &[Session], rows: &[OpenQueue]) -> Option<u64>
    ensures { result ≡ due_in sessions.now rows.now }
{
    match rows {
        [] => None,
        [row, rest @ ..] => {
            if is_there(sessions, row.session) {
                due_in(sessions, rest)
            } else {
                Some(row.queue)
            }
        }
    }
}

/// Whether a client has no more bytes of mirrors than so many, with so many more.
#[tactic(auto, unfolding(crate::specs::Rows::bytes_of))]
pub(crate) fn fits(rows: &[OpenMirror], client: u32, bytes: u64, most: u64) -> bool
    ensures { result ≡ nat_le (bytes_of rows.now client + bytes) most }
{
    match rows {
        [] => bytes <= most,
        [row, rest @ ..] => {
            if row.client != client {
                fits(rest, client, bytes, most)
            } else if row.bytes > most {
                false
            } else {
                fits(rest, client, bytes, most - row.bytes)
            }
        }
    }
}

/// Whether a session has a mirror of a region.
#[tactic(auto, unfolding(crate::specs::Rows::has_mirror))]
pub(crate) fn has_mirror(rows: &[OpenMirror], session: u64, region: u64) -> bool
    ensures { result ≡ has_mirror rows.now session region }
{
    match rows {
        [] => false,
        [row, rest @ ..] => {
            if row.session == session && row.region == region {
                true
            } else {
                has_mirror(rest, session, region)
            }
        }
    }
}

/// A user's row is as it is now.
#[tactic(auto, using(crate::proofs::Putting::comer_put, crate::proofs::Putting::comer_left))]
pub(crate) fn put_comer(rows: &mut Vec<Comer>, row: Comer)
    ensures { rows.new.items ≡ put_comer row rows.old.items }
{
    match comer_place(rows.as_slice(), row.user) {
        None => {}
        Some(place) => rows[place] = row,
    }
}

// Where a user's row stands.
#[tactic(auto, unfolding(crate::specs::Positions::comer_place))]
fn comer_place(rows: &[Comer], user: u32) -> Option<usize>
    ensures place { result ≡ comer_place rows.now user }
    ensures within { IfSome result (λ place. place < length rows.now) }
{
    match rows {
        [] => None,
        [row, rest @ ..] => {
            if row.user == user {
                return Some(0);
            }
            match comer_place(rest, user) {
                None => None,
                Some(place) => Some(place + 1),
            }
        }
    }
}

/// A session's row is as it is now.
#[tactic(auto, using(crate::proofs::Putting::session_put, crate::proofs::Putting::session_left))]
pub(crate) fn put_session(rows: &mut Vec<Session>, row: Session)
    ensures items { rows.new.items ≡ put_session row rows.old.items }
    ensures capacity { vec_capacity rows.new ≡ vec_capacity rows.old }
{
    match session_place(rows.as_slice(), row.session) {
        None => {}
        Some(place) => rows[place] = row,
    }
}

// Where a session's row stands.
#[tactic(auto, unfolding(crate::specs::Positions::session_place))]
fn session_place(rows: &[Session], session: u64) -> Option<usize>
    ensures place { result ≡ session_place rows.now session }
    ensures within { IfSome result (λ place. place < length rows.now) }
{
    match rows {
        [] => None,
        [row, rest @ ..] => {
            if row.session == session {
                return Some(0);
            }
            match session_place(rest, session) {
                None => None,
                Some(place) => Some(place + 1),
            }
        }
    }
}

/// A session's queue is no longer open.
pub(crate) fn drop_queue(rows: &mut Vec<OpenQueue>, session: u64, queue: u64)
    ensures items { rows.new.items ≡ filter (stays_open session queue) rows.old.items }
    ensures capacity { vec_capacity rows.new ≡ vec_capacity rows.old }
{
    rows.retain(|row| !(row.session == session && row.queue == queue));
}

/// A session is gone.
pub(crate) fn drop_session(rows: &mut Vec<Session>, session: u64)
    ensures items { rows.new.items ≡ filter (stays_connected session) rows.old.items }
    ensures capacity { vec_capacity rows.new ≡ vec_capacity rows.old }
{
    rows.retain(|row| row.session != session);
}

/// A session's mirrors go with it.
pub(crate) fn drop_mirrors(rows: &mut Vec<OpenMirror>, session: u64)
    ensures items { rows.new.items ≡ filter (stays_mirrored session) rows.old.items }
    ensures capacity { vec_capacity rows.new ≡ vec_capacity rows.old }
{
    rows.retain(|row| row.session != session);
}
