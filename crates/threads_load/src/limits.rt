//! How far a load goes.

ghost use Rattle.std.specs.Prelude.{◌≡◌, false, true};
ghost use Rattle.threads_load.specs.Limits.{most_tries, most_turns, terms_for};

/// How many packets a producer of the load publishes, if nothing else is asked for.
pub const PACKETS: u64 = 8;

/// How many turns a lane makes at the most.
pub const MOST_TURNS: u64 = 10_000_000;

/// How often a producer tries again at the most.
pub const MOST_TRIES: u64 = 10_000_000;

/// How far a load goes at the most.
#[derive(Clone, Copy, Debug, PartialEq, Eq)]
pub struct LoadLimits {
    /// How many turns each lane makes.
    pub turns: u64,
    /// How often each producer tries again.
    pub tries: u64,
    /// Whether both are counted anew behind each packet, and not over all of them.
    pub are_renewed: bool,
}

impl LoadLimits {
    /// 10,000,000 turns of each lane, and as many tries of each producer, over all of its packets.
    pub fn in_all() -> LoadLimits
        ensures { result ≡ record { turns = most_turns; tries = most_tries; are_renewed = false } }
    {
        LoadLimits {
            turns: MOST_TURNS,
            tries: MOST_TRIES,
            are_renewed: false,
        }
    }

    /// As many for each packet.
    pub fn for_each_packet() -> LoadLimits
        ensures { result ≡ record { turns = most_turns; tries = most_tries; are_renewed = true } }
    {
        LoadLimits {
            turns: MOST_TURNS,
            tries: MOST_TRIES,
            are_renewed: true,
        }
    }
}

/// What a load does, and how far it goes at the most.
#[derive(Clone, Copy, Debug, PartialEq, Eq)]
pub struct LoadTerms {
    /// How many producers each queue has, 1 to 16.
    pub producers: u64,
    /// How many packets each of them publishes.
    pub packets: u64,
    /// How far lanes and producers go at the most.
    pub limits: LoadLimits,
}

impl LoadTerms {
    /// The terms of a load with so many producers a queue. Each publishes 8 packets, with turns and tries over all of them;
    /// or so many, and both count anew behind each.
    pub fn of(producers: u64, packets: Option<u64>) -> LoadTerms
        ensures { result ≡ terms_for producers packets }
    {
        match packets {
            None => LoadTerms {
                producers,
                packets: PACKETS,
                limits: LoadLimits::in_all(),
            },
            Some(packets) => LoadTerms {
                producers,
                packets,
                limits: LoadLimits::for_each_packet(),
            },
        }
    }
}
