//! Which right the last call lacked.

ghost use Rattle.std.specs.Prelude.{◌≡◌, false, true};
ghost use Rattle.hobbydresser_c.specs.Calls.{IsSame, is_open, session_of};
ghost use Rattle.hobbydresser_c.specs.LastCalls.{TellsLacking};
ghost use Rattle.hobbydresser_c.specs.Statuses.{closed};

use crate::broker::Broker;
use crate::status;
use crate::told::HeldRecord;

/// The right that the last call lacked, and its object, where that is why it was denied.
#[unsafe(no_mangle)]
pub extern "C" fn hd_lacking(broker: &mut Broker, lacking: &mut HeldRecord) -> u32
    ensures closed { is_open broker.old ≡ false → (result ≡ closed) × (lacking.new ≡ lacking.old) }
    ensures same { IsSame broker.old broker.new }
    ensures met { is_open broker.old ≡ true → TellsLacking (session_of broker.old).last.lacking result lacking.old lacking.new }
{
    if !broker.is_open() {
        return status::CLOSED;
    }
    let lacked = broker.pointer.session_mut().last.lacking;
    if lacked.rights == 0 {
        return status::NO_SUCH;
    }
    *lacking = lacked;
    status::OK
}
