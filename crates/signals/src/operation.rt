//! What can be done to a signal's value, and asked of it (PSA, Signals; PRM, Notification (signal)
//! Instructions).

ghost use Rattle.signals.specs.Values.{applied, meets};
ghost use Rattle.std.specs.Prelude.{◌≡◌};

/// A change of a signal's value. Arithmetic wraps at 64 bits.
#[derive(Clone, Copy, Debug, PartialEq, Eq)]
pub enum SignalOp {
    /// The value becomes this one.
    Store(i64),
    /// This is added to the value.
    Add(i64),
    /// This is subtracted from the value.
    Subtract(i64),
    /// Each bit stays where it is set here too.
    And(i64),
    /// Each bit that is set here becomes set.
    Or(i64),
    /// Each bit that is set here is turned.
    Xor(i64),
    /// The value becomes this one; who asks wants the old one.
    Exchange(i64),
    /// The value becomes `value` where it is `expected`, and stays otherwise.
    Cas { expected: i64, value: i64 },
}

/// A test of a signal's value against another.
#[derive(Clone, Copy, Debug, PartialEq, Eq)]
pub enum Condition {
    /// Equal.
    Eq,
    /// Not equal.
    Ne,
    /// Less than.
    Lt,
    /// Greater than or equal.
    Gte,
}

impl SignalOp {
    /// The value after the change (PRM, Integer Arithmetic Instructions: two's complement).
    pub fn applied(self, old: i64) -> i64
        ensures { result ≡ applied self old }
    {
        match self {
            SignalOp::Store(value) | SignalOp::Exchange(value) => value,
            SignalOp::Add(value) => old.wrapping_add(value),
            SignalOp::Subtract(value) => old.wrapping_sub(value),
            SignalOp::And(value) => old & value,
            SignalOp::Or(value) => old | value,
            SignalOp::Xor(value) => old ^ value,
            SignalOp::Cas { expected, value } if old == expected => value,
            SignalOp::Cas { .. } => old,
        }
    }
}

impl Condition {
    /// Whether a signal's value meets the condition against another.
    pub fn is_met(self, value: i64, against: i64) -> bool
        ensures { result ≡ meets self value against }
    {
        match self {
            Condition::Eq => value == against,
            Condition::Ne => value != against,
            Condition::Lt => value < against,
            Condition::Gte => value >= against,
        }
    }
}
