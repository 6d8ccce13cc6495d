//! Another policy is put in force.

ghost use Rattle.std.specs.Prelude.{◌≡◌, false, true};
ghost use Rattle.hobbydresser_c.specs.Statuses.{closed};
ghost use Rattle.hobbydresser_c.specs.Calls.{IsSame, Keeps, is_open};
ghost use Rattle.hobbydresser_c.specs.Reloading.{ComesTo, Reloaded, TellsReload};

use crate::broker::Broker;
use crate::granting::tell_refusal;
use crate::opening::{FaultRecord, tell_policy_fault};
use crate::status;
use access_core::AccessCore;
use core_model::Refusal;
use policy::{PolicyFault, ReadPolicyError, read_policy};
use std::alloc::Global;

/// Why a policy isn't put in force.
#[derive(Clone, Copy)]
pub enum ReloadFault {
    /// Memory was wanted to read it, and not to be had.
    OutOfMemory,
    /// The text is no policy.
    Policy(PolicyFault),
    /// The core refuses it.
    Refused(Refusal),
}

// Reads a policy, and puts it in force.
fn reload(alloc: Global, core: &mut AccessCore, text: &[u8]) -> Result<(), ReloadFault>
    ensures { ComesTo text.now core.old.history core.new.history result }
{
    let policy = match read_policy(alloc, text) {
        Ok(policy) => policy,
        Err(ReadPolicyError::OutOfMemory) => return Err(ReloadFault::OutOfMemory),
        Err(ReadPolicyError::Fault(fault)) => return Err(ReloadFault::Policy(fault)),
    };
    match core.reload(alloc, policy) {
        Ok(()) => Ok(()),
        Err((why, _policy)) => Err(ReloadFault::Refused(why)),
    }
}

// Tells what a reload came to: where a text has its fault, or the packet that holds a right.
fn tell_reload(
    came: Result<(), ReloadFault>,
    fault: &mut FaultRecord,
    queue: &mut u64,
    packet: &mut u64,
) -> u32
    ensures { TellsReload result fault.old fault.new queue.old queue.new packet.old packet.new came }
{
    match came {
        Ok(()) => status::OK,
        Err(ReloadFault::OutOfMemory) => status::OUT_OF_MEMORY,
        Err(ReloadFault::Policy(of)) => tell_policy_fault(of, fault),
        Err(ReloadFault::Refused(why)) => tell_refusal(why, queue, packet),
    }
}

/// Puts the rows on rights of another policy, by its text, in force.
#[unsafe(no_mangle)]
pub extern "C" fn hd_reload(
    alloc: Global,
    broker: &mut Broker,
    text: &[u8],
    fault: &mut FaultRecord,
    queue: &mut u64,
    packet: &mut u64,
) -> u32
    ensures closed { is_open broker.old ≡ false → (result ≡ closed) × IsSame broker.old broker.new × (fault.new ≡ fault.old) × (queue.new ≡ queue.old) × (packet.new ≡ packet.old) }
    ensures open { Keeps broker.old broker.new }
    ensures met { is_open broker.old ≡ true → Reloaded text.now broker.old broker.new (TellsReload result fault.old fault.new queue.old queue.new packet.old packet.new) }
{
    if !broker.called() {
        return status::CLOSED;
    }
    let core = &mut broker.pointer.session_mut().core;
    let came = reload(alloc, core, text);
    tell_reload(came, fault, queue, packet)
}
