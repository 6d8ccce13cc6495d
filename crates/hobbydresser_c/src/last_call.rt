//! What is kept of the last call, for those who ask behind it.

ghost use Rattle.std.specs.Prelude.{◌≡◌, false};
ghost use Rattle.hobbydresser_c.specs.Calls.{IsNoted, IsSame, is_open};
ghost use Rattle.hobbydresser_c.specs.LastCalls.{entry_count, lacked, noted, with_lacking};

use crate::broker::Broker;
use crate::session::Session;
use crate::status;
use crate::told::{HeldRecord, held_told};
use policy::{Object, Right, Rights};

/// The last call with a handle: how many entries there were when it began, and the right that it lacked.
#[derive(Clone, Copy)]
pub struct LastCall {
    /// The entries that came before those of the audit, and those.
    pub entries: u64,
    /// Of none where its rights are 0.
    pub lacking: HeldRecord,
}

/// No right.
pub const NO_RIGHT: HeldRecord = HeldRecord {
    kind: 0,
    number: 0,
    rights: 0,
};

/// No call.
pub const NO_CALL: LastCall = LastCall {
    entries: 0,
    lacking: NO_RIGHT,
};

impl Session {
    /// How many entries there are, with those that came before the audit's.
    pub fn entry_count(&self) -> u64
        ensures { result ≡ entry_count self.now.core.history }
    {
        self.core.entries_before() + self.core.audit().len() as u64
    }

    // Notes that a call begins.
    fn begin(&mut self)
        ensures { self.new ≡ noted self.old }
    {
        self.last = LastCall {
            entries: self.entry_count(),
            lacking: NO_RIGHT,
        };
    }

    /// Notes what a call lacked that asked for one right: nothing where its status isn't that of a denial.
    pub fn note_lacking(&mut self, status: u32, object: Object, right: Right)
        ensures { self.new ≡ with_lacking (lacked status object right) self.old }
    {
        self.last.lacking = if status == status::DENIED {
            held_told(object, Rights::of(right))
        } else {
            NO_RIGHT
        };
    }
}

impl Broker {
    /// Notes that a call is made of it, where it is open, and tells whether it is.
    pub fn called(&mut self) -> bool
        ensures open { result ≡ is_open self.old }
        ensures shut { is_open self.old ≡ false → IsSame self.old self.new }
        ensures noted { IsNoted self.old self.new }
    {
        if !self.is_open() {
            return false;
        }
        self.pointer.session_mut().begin();
        true
    }
}
