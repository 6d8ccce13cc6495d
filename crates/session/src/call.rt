//! What a table of sessions is told.

/// What a table of sessions is told, by whoever accepts sockets and has the core. Times are in microseconds.
#[derive(Clone, Copy)]
pub enum Call {
    /// A user of the machine has connected.
    Come {
        user: u32,
        now: u64,
    },
    /// A session has said who it is: this client.
    Greet {
        session: u64,
        client: u32,
        now: u64,
    },
    /// A session has sent a message.
    Message {
        session: u64,
        now: u64,
    },
    /// The core has opened this queue, which a session asked for.
    Open {
        session: u64,
        queue: u64,
    },
    /// The core has closed this queue, which a session asked for.
    Close {
        session: u64,
        queue: u64,
    },
    /// The core has closed this queue, whose session is gone.
    Closed {
        queue: u64,
    },
    /// A session is given a mirror of this region, of so many bytes.
    Mirror {
        session: u64,
        region: u64,
        bytes: u64,
    },
    /// An answer of a session can't be sent yet.
    Unsent {
        session: u64,
    },
    /// An answer of a session that waited was sent.
    Sent {
        session: u64,
    },
    /// A session is gone: its socket was closed, by it or by the broker.
    Gone {
        session: u64,
    },
}
