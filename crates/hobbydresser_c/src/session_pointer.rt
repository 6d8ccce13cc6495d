//! A pointer to a session, which C keeps.

ghost use Rattle.std.specs.Prelude.{◌≡◌, Bool, true};
ghost use Rattle.std.specs.Coded.{coded_bool};
ghost use Rattle.hobbydresser_c.specs.declared.session.Session.{Session};
ghost use Rattle.hobbydresser_c.specs.Owned.{pointer_owns, session_coded};

mod lend;

use crate::parts::Parts;
use crate::session::Session;
use std::alloc::Global;
use std::marker::Model;

/// A pointer to a session, one word in C. Where it is live, it owns the session as a box does; else it owns nothing.
#[repr(C)]
#[derive(Drop)]
pub struct SessionPointer {
    at: *mut u8,
    alloc: Global,
    /// Whether it stands for a session, and which.
    pub ghost live: { Bool } by { coded_bool },
    pub ghost session: { Session } by { session_coded },
}

impl Model for SessionPointer {
    ghost also_owns = { λ h. pointer_owns h.live h.alloc h.at h.session };
}

impl SessionPointer {
    /// A pointer to a session, live.
    pub fn new(session: Box<Session>) -> SessionPointer
        ensures live { result.live ≡ true }
        ensures session { result.session ≡ session.value }
    {
        SessionPointer::of_parts(Parts::of(session))
    }

    /// The session again.
    pub fn into_box(self) -> Box<Session>
        requires { self.live ≡ true }
        ensures { result.value ≡ self.session }
    {
        self.into_parts().into_box()
    }

    // A box, by its parts, as a pointer.
    fn of_parts(parts: Parts<Session, Global>) -> SessionPointer
        ensures { (result.live ≡ true) × (result.session ≡ parts.value) }
    {
        let Parts { ptr, alloc } = parts;
        SessionPointer {
            at: ptr as *mut u8,
            alloc,
        }
    }

    // The parts of the box that it is.
    fn into_parts(self) -> Parts<Session, Global>
        requires { self.live ≡ true }
        ensures { result.value ≡ self.session }
    {
        let SessionPointer { at, alloc } = self;
        Parts {
            ptr: at as *mut Session,
            alloc,
        }
    }
}

unsafe impl Send for SessionPointer {}
