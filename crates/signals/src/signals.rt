//! The values of all signals, by their numbers from 1.

ghost use Rattle.signals.specs.Values.{after, meets, unknown_signal, value_of};
ghost use Rattle.std.specs.Option.{ok_or, option_map};
ghost use Rattle.std.specs.Prelude.{IfOk, is_some, length, slice_set, true, ◌==◌, ◌≡◌, ◌↔◌};

use crate::operation::{Condition, SignalOp};
use aql_packet::SignalHandle;
use std::alloc::{AllocError, Global};
use std::boxed::BoxedSlice;
use std::fmt;
use std::marker::Model;

/// The signals, numbered from 1 in their order. A contract sees the list of their values. They lie in a slice
/// of its own, which no call can make longer: none but `new` and `copy` takes memory.
#[derive(Drop, Debug)]
pub struct Signals {
    values: BoxedSlice<i64>,
}

/// No signal has the number: it is 0, or more than the count (refusal 1).
#[derive(Clone, Copy, Debug, PartialEq, Eq, thiserror::Error)]
pub struct UnknownSignal;

impl Model for Signals {
    ghost use Rattle.std.specs.Box.{boxed_slice_items};
    ghost use Rattle.std.specs.Prelude.{List, ℤ};

    ghost Value = { List ℤ };

    ghost view = { λ signals. boxed_slice_items signals.values };
}

impl Signals {
    /// Signals with these values, numbered from 1. Without memory for them there are none.
    pub fn new(alloc: Global, values: &[i64]) -> Result<Signals, AllocError>
        ensures { IfOk result (λ signals. signals ≡ values.now) }
    {
        Ok(Signals {
            values: BoxedSlice::from_slice(alloc, values)?,
        })
    }

    /// The same signals in memory of their own. Without memory for them there are none.
    pub fn copy(&self, alloc: Global) -> Result<Signals, AllocError>
        ensures { IfOk result (λ copy. copy ≡ self.now) }
    {
        Signals::new(alloc, self.values.as_slice())
    }

    /// Whether others are as many and have the same values in the same order. It takes no memory.
    pub fn is_same(&self, other: &Signals) -> bool
        ensures { result ≡ true ↔ self.now ≡ other.now }
    {
        self.values.as_slice() == other.values.as_slice()
    }

    /// How many signals there are.
    pub fn len(&self) -> usize
        ensures { result ≡ length self.now }
    {
        self.values.len()
    }

    /// Whether there is no signal.
    pub fn is_empty(&self) -> bool
        ensures { result ≡ (length self.now == 0) }
    {
        self.values.len() == 0
    }

    /// A signal's value, if there is a signal of this number. It takes no memory.
    #[tactic(auto, unfolding(crate::specs::Values::value_of))]
    pub fn value(&self, signal: SignalHandle) -> Option<i64>
        ensures { result ≡ value_of self.now signal.0 }
    {
        if signal.0 == 0 {
            return None;
        }
        self.values.get(signal.0 as usize - 1).copied()
    }

    /// Changes the value of a signal that is there. It takes no memory.
    pub fn change(&mut self, signal: SignalHandle, operation: SignalOp)
        requires { is_some (value_of self.old signal.0) ≡ true }
        ensures { self.new ≡ after self.old signal.0 operation }
    {
        let index = (signal.0 - 1) as usize;
        self.values[index] = operation.applied(self.values[index]);
    }

    /// Gives the signal behind so many others a value. Where there is none, all stay. It takes no memory.
    pub fn set_behind(&mut self, before: u64, value: i64)
        ensures { self.new ≡ slice_set self.old before value }
    {
        if before < self.values.len() as u64 {
            self.values[before as usize] = value;
        }
    }

    /// A signal's value (PRM, signal load). It takes no memory.
    pub fn load(&self, signal: SignalHandle) -> Result<i64, UnknownSignal>
        ensures { result ≡ ok_or (value_of self.now signal.0) unknown_signal }
    {
        self.value(signal).ok_or(UnknownSignal)
    }

    /// Changes a signal's value, and answers the old one. Where no signal has the number, all stay.
    /// It takes no memory.
    #[tactic(auto, using(crate::proofs::ValueLemmas::unchanged))]
    pub fn apply(&mut self, signal: SignalHandle, operation: SignalOp) -> Result<i64, UnknownSignal>
        ensures old { result ≡ ok_or (value_of self.old signal.0) unknown_signal }
        ensures values { self.new ≡ after self.old signal.0 operation }
    {
        let Some(old) = self.value(signal) else {
            return Err(UnknownSignal);
        };
        self.change(signal, operation);
        Ok(old)
    }

    /// Whether a signal's value meets a condition against another value. It takes no memory.
    pub fn test(
        &self,
        signal: SignalHandle,
        condition: Condition,
        against: i64,
    ) -> Result<bool, UnknownSignal>
        ensures { result ≡ ok_or
            (option_map (λ value. meets condition value against) (value_of self.now signal.0))
            unknown_signal }
    {
        let value = self.load(signal)?;
        Ok(condition.is_met(value, against))
    }
}

impl UnknownSignal {
    /// The refusal's number (own).
    pub fn number(&self) -> u8
        ensures { result ≡ 1 }
    {
        1
    }
}

impl fmt::Display for UnknownSignal {
    ghost use Rattle.std.specs.Prelude.{Some, codes};

    ghost output = { λ _. Some (codes "UnknownSignal") };

    fn fmt<W: fmt::Write>(&self, f: &mut fmt::Formatter<W>) -> fmt::Result {
        f.write_str("UnknownSignal")
    }
}
