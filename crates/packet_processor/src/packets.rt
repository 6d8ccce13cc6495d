//! What packets of each kind say of their completion, and when a barrier packet is ready.

ghost use Rattle.std.specs.Prelude.{◌≡◌};
ghost use Rattle.core_model.specs.LaunchRules.{is_barrier};
ghost use Rattle.core_model.specs.Needs.{completion_signal};
ghost use Rattle.core_model.specs.Work.{is_ready};

use aql_packet::{Packet, SignalHandle};
use core_model::Satisfied;

/// The signal that is decremented when a packet completes (PSA, Architected Queuing Language); 0 is
/// the null signal.
pub fn completion_signal(packet: &Packet) -> SignalHandle
    ensures { result ≡ completion_signal packet.now }
{
    match packet {
        Packet::Kernel(dispatch) => dispatch.completion_signal,
        Packet::Agent(dispatch) => dispatch.completion_signal,
        Packet::BarrierAnd(barrier) => barrier.completion_signal,
        Packet::BarrierOr(barrier) => barrier.completion_signal,
    }
}

/// Whether a packet is a barrier packet.
pub fn is_barrier(packet: &Packet) -> bool
    ensures { result ≡ is_barrier packet.now }
{
    matches!(packet, Packet::BarrierAnd(_) | Packet::BarrierOr(_))
}

/// Whether a barrier packet is ready, by which of its dependencies were seen as 0 (PSA, Architected
/// Queuing Language): a barrier-AND when all that aren't null were, a barrier-OR when one was.
pub fn is_ready(packet: &Packet, seen: &Satisfied) -> bool
    ensures { result ≡ is_ready packet.now seen.now }
{
    match packet {
        Packet::BarrierAnd(barrier) => barrier
            .dependencies
            .iter()
            .zip(seen.0.iter())
            .all(|(signal, seen)| signal.0 == 0 || *seen),
        Packet::BarrierOr(barrier) => barrier
            .dependencies
            .iter()
            .zip(seen.0.iter())
            .any(|(signal, seen)| signal.0 != 0 && *seen),
        _ => false,
    }
}
