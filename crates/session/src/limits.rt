//! How much a client, a user or a session may have, in one table.

ghost use Rattle.std.specs.Prelude.{◌≡◌};
ghost use Rattle.session.specs.Limits.{row_of, name_of, limit_of, with_limit, usual, is_within, muted_after, may_enter};

/// A limit. Times are in microseconds.
#[derive(Clone, Copy, PartialEq, Eq)]
pub enum Limit {
    /// How many queues a client may have open.
    Queues,
    /// How many bytes a client may have mirrored.
    Mirrors,
    /// How many sessions a user may have.
    Sessions,
    /// How many times a user may connect in a window.
    Connects,
    /// How long that window is.
    ConnectTime,
    /// How many messages a session may send in a window.
    Messages,
    /// How long that window is.
    MessageTime,
    /// How many answers a session may leave unread, so that they can't be sent.
    Answers,
    /// In which time a session has to say who it is.
    GreetingTime,
    /// How many entries of the audit are left to administrators.
    AuditPlaces,
    /// How long a bell is muted first behind which nothing was published.
    MuteTime,
    /// How long it is muted at most.
    MostMuteTime,
}

/// A row of the table (own): what the limit is where nothing is said, and the least and the most that may be said.
#[derive(Clone, Copy)]
pub struct Bounds {
    pub usual: u64,
    pub least: u64,
    pub most: u64,
}

/// The limits in force, each by its name.
#[derive(Clone, Copy)]
pub struct Limits {
    pub queues: u64,
    pub mirrors: u64,
    pub sessions: u64,
    pub connects: u64,
    pub connect_time: u64,
    pub messages: u64,
    pub message_time: u64,
    pub answers: u64,
    pub greeting_time: u64,
    pub audit_places: u64,
    pub mute_time: u64,
    pub most_mute_time: u64,
}

/// All limits, in the order in which they are printed.
pub const ALL: [Limit; 12] = [
    Limit::Queues,
    Limit::Mirrors,
    Limit::Sessions,
    Limit::Connects,
    Limit::ConnectTime,
    Limit::Messages,
    Limit::MessageTime,
    Limit::Answers,
    Limit::GreetingTime,
    Limit::AuditPlaces,
    Limit::MuteTime,
    Limit::MostMuteTime,
];

impl Limit {
    /// The limit's row: the table of all limits.
    pub fn row(self) -> Bounds
        ensures { result ≡ row_of self }
    {
        match self {
            Limit::Queues => bounds_of(8, 1, 64),
            Limit::Mirrors => bounds_of(67_108_864, 4096, 1_099_511_627_776),
            Limit::Sessions => bounds_of(16, 1, 1024),
            Limit::Connects => bounds_of(20, 1, 1_000_000),
            Limit::ConnectTime => bounds_of(100_000, 1, 60_000_000),
            Limit::Messages => bounds_of(200, 1, 1_000_000),
            Limit::MessageTime => bounds_of(10_000, 1, 60_000_000),
            Limit::Answers => bounds_of(1, 1, 64),
            Limit::GreetingTime => bounds_of(2_000_000, 1000, 600_000_000),
            Limit::AuditPlaces => bounds_of(4, 1, 1024),
            Limit::MuteTime => bounds_of(1000, 1, 1_000_000),
            Limit::MostMuteTime => bounds_of(64_000, 1, 60_000_000),
        }
    }

    /// What the limit is called.
    pub fn name(self) -> &'static str
        ensures { result.now ≡ name_of self }
    {
        match self {
            Limit::Queues => "queues",
            Limit::Mirrors => "mirrors",
            Limit::Sessions => "sessions",
            Limit::Connects => "connects",
            Limit::ConnectTime => "connect_time",
            Limit::Messages => "messages",
            Limit::MessageTime => "message_time",
            Limit::Answers => "answers",
            Limit::GreetingTime => "greeting_time",
            Limit::AuditPlaces => "audit_places",
            Limit::MuteTime => "mute_time",
            Limit::MostMuteTime => "most_mute_time",
        }
    }

    /// Whether the limit may be this number.
    pub fn is_within(self, number: u64) -> bool
        ensures { result ≡ is_within self number }
    {
        let row = self.row();
        row.least <= number && number <= row.most
    }
}

// A row of the table.
fn bounds_of(usual: u64, least: u64, most: u64) -> Bounds
    ensures { result ≡ record { usual = usual; least = least; most = most } }
{
    Bounds { usual, least, most }
}

impl Limits {
    /// The limits where nothing is said of them.
    pub fn usual() -> Limits
        ensures { result ≡ usual }
    {
        Limits {
            queues: Limit::Queues.row().usual,
            mirrors: Limit::Mirrors.row().usual,
            sessions: Limit::Sessions.row().usual,
            connects: Limit::Connects.row().usual,
            connect_time: Limit::ConnectTime.row().usual,
            messages: Limit::Messages.row().usual,
            message_time: Limit::MessageTime.row().usual,
            answers: Limit::Answers.row().usual,
            greeting_time: Limit::GreetingTime.row().usual,
            audit_places: Limit::AuditPlaces.row().usual,
            mute_time: Limit::MuteTime.row().usual,
            most_mute_time: Limit::MostMuteTime.row().usual,
        }
    }

    /// What a limit is.
    pub fn of(&self, limit: Limit) -> u64
        ensures { result ≡ limit_of self.now limit }
    {
        match limit {
            Limit::Queues => self.queues,
            Limit::Mirrors => self.mirrors,
            Limit::Sessions => self.sessions,
            Limit::Connects => self.connects,
            Limit::ConnectTime => self.connect_time,
            Limit::Messages => self.messages,
            Limit::MessageTime => self.message_time,
            Limit::Answers => self.answers,
            Limit::GreetingTime => self.greeting_time,
            Limit::AuditPlaces => self.audit_places,
            Limit::MuteTime => self.mute_time,
            Limit::MostMuteTime => self.most_mute_time,
        }
    }

    /// How long a bell is muted behind which nothing was published, where it was muted so long before: twice as long each time, up
    /// to the most.
    pub fn muted_after(&self, was: u64) -> u64
        ensures { result ≡ muted_after self.now was }
    {
        if was == 0 {
            if self.most_mute_time < self.mute_time {
                self.most_mute_time
            } else {
                self.mute_time
            }
        } else if was > self.most_mute_time / 2 {
            self.most_mute_time
        } else {
            was * 2
        }
    }

    /// Whether a call may be made that enters the audit, where so many entries fit: the last places are administrators'.
    pub fn may_enter(&self, room: u64, is_administrators: bool) -> bool
        ensures { result ≡ may_enter self.now room is_administrators }
    {
        is_administrators || self.audit_places < room
    }

    /// Says what a limit is.
    pub fn set(&mut self, limit: Limit, number: u64)
        ensures { self.new ≡ with_limit self.old limit number }
    {
        match limit {
            Limit::Queues => self.queues = number,
            Limit::Mirrors => self.mirrors = number,
            Limit::Sessions => self.sessions = number,
            Limit::Connects => self.connects = number,
            Limit::ConnectTime => self.connect_time = number,
            Limit::Messages => self.messages = number,
            Limit::MessageTime => self.message_time = number,
            Limit::Answers => self.answers = number,
            Limit::GreetingTime => self.greeting_time = number,
            Limit::AuditPlaces => self.audit_places = number,
            Limit::MuteTime => self.mute_time = number,
            Limit::MostMuteTime => self.most_mute_time = number,
        }
    }
}
