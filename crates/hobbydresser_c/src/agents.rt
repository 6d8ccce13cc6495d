//! What an agent takes.

ghost use Rattle.std.specs.Prelude.{◌≡◌, false, true};
ghost use Rattle.policy.specs.Policy.{row_of};
ghost use Rattle.hobbydresser_c.specs.Agents.{takes_told};
ghost use Rattle.hobbydresser_c.specs.Calls.{IsNoted, WhereKnown, is_open};
ghost use Rattle.hobbydresser_c.specs.Names.{policy_of};
ghost use Rattle.hobbydresser_c.specs.Statuses.{closed, no_such, ok};

use crate::broker::Broker;
use crate::status;
use aql_packet::AgentHandle;
use policy::Takes;

// What an agent takes, as C sees it: a bit for each kind of dispatch.
fn takes_told(takes: Takes) -> u32
    ensures { result ≡ takes_told takes }
{
    match (takes.kernel, takes.agent) {
        (false, false) => 0,
        (true, false) => 1,
        (false, true) => 2,
        (true, true) => 3,
    }
}

/// Which dispatches an agent takes.
#[unsafe(no_mangle)]
pub extern "C" fn hd_agent_takes(broker: &mut Broker, agent: u32, takes: &mut u32) -> u32
    ensures closed { is_open broker.old ≡ false → (result ≡ closed) × (takes.new ≡ takes.old) }
    ensures same { IsNoted broker.old broker.new }
    ensures met { is_open broker.old ≡ true → WhereKnown (row_of (policy_of broker.old).agents agent) ((result ≡ no_such) × (takes.new ≡ takes.old))
        (λ declared. (result ≡ ok) × (takes.new ≡ takes_told declared)) }
{
    if !broker.called() {
        return status::CLOSED;
    }
    let core = &mut broker.pointer.session_mut().core;
    match core.policy().takes(AgentHandle(agent)) {
        None => status::NO_SUCH,
        Some(declared) => {
            *takes = takes_told(declared);
            status::OK
        }
    }
}
