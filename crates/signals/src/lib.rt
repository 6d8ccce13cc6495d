//! Signals: 64-bit signed numbers that packets and clients change and test.

// The check tries its tactics on what is left of each proof.
#![tactic(auto)]

mod operation;
mod signals;

pub use operation::{Condition, SignalOp};
pub use signals::{Signals, UnknownSignal};
