//! How often something may come.

ghost use Rattle.std.specs.Prelude.{◌≡◌};
ghost use Rattle.session.specs.Pace.{pace_after, keeps_pace};

/// A window of time (own), and how many came in it.
#[derive(Clone, Copy, Debug, PartialEq, Eq)]
pub struct Pace {
    /// When the window began.
    pub begun: u64,
    /// How many came in it, at most 2^64 - 1.
    pub count: u64,
}

impl Pace {
    /// One more comes, now: it is the next of the window, or the first of another where that is over. Tells whether no more
    /// came in the window than may.
    pub fn counts(&mut self, now: u64, length: u64, most: u64) -> bool
        ensures after { self.new ≡ pace_after length now self.old }
        ensures told { result ≡ keeps_pace most self.new }
    {
        if now.saturating_sub(self.begun) < length {
            self.count = self.count.saturating_add(1);
        } else {
            self.begun = now;
            self.count = 1;
        }
        self.count <= most
    }
}
