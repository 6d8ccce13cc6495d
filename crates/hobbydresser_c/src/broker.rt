//! A broker in the hands of C.

ghost use Rattle.std.specs.Prelude.{◌≡◌};
ghost use Rattle.hobbydresser_c.specs.Words.{stands_open};

use crate::session_pointer::SessionPointer;

/// A broker's handle, `hd_broker` in C: a word and a pointer. Where all of it is zero, no broker is open.
#[repr(C)]
#[derive(Drop)]
pub struct Broker {
    /// 1 where it is open.
    pub state: u64,
    /// Its session, where it is open.
    pub pointer: SessionPointer,
    /// The pointer is live just where it is open.
    pub ghost kept: { pointer.live ≡ stands_open state },
}

impl Broker {
    /// Whether it is open.
    pub fn is_open(&self) -> bool
        ensures { result ≡ stands_open self.now.state }
    {
        self.state == 1
    }
}
