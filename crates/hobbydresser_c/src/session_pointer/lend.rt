//! A pointer's session, lent.

ghost use Rattle.std.specs.Prelude.{◌≡◌, true};
ghost use types.Logic.{sem};
ghost use Rattle.hobbydresser_c.specs.Follows.{pointer_follows};

use crate::session::Session;
use crate::session_pointer::SessionPointer;

impl SessionPointer {
    /// The session, until the borrow ends.
    pub fn session_mut(&mut self) -> &mut Session
        requires { self.old.live ≡ true }
        ensures* writes_back { sem 𝓛 (pointer_follows self.entry result) }
        ensures value { result.now ≡ self.old.session }
    {
        unsafe { &mut *(self.at as *mut Session) }
    }
}
