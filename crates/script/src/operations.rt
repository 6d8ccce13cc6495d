//! Conditions on signals and operations on them, as words.

ghost use Rattle.std.specs.Prelude.{◌≡◌};
ghost use Rattle.script.specs.Operations.{condition_word, operation_of};

use signals::{Condition, SignalOp};
use words::is_word;

/// A condition on a signal's value.
pub fn condition(word: &[u8]) -> Option<Condition>
    ensures { result ≡ condition_word word.now }
{
    if is_word(word, "EQ") {
        Some(Condition::Eq)
    } else if is_word(word, "NE") {
        Some(Condition::Ne)
    } else if is_word(word, "LT") {
        Some(Condition::Lt)
    } else if is_word(word, "GTE") {
        Some(Condition::Gte)
    } else {
        None
    }
}

/// The operation on a signal of a name, among those with one value, and with this one.
pub fn operation(word: &[u8], value: i64) -> Option<SignalOp>
    ensures { result ≡ operation_of word.now value }
{
    if is_word(word, "store") {
        Some(SignalOp::Store(value))
    } else if is_word(word, "add") {
        Some(SignalOp::Add(value))
    } else if is_word(word, "subtract") {
        Some(SignalOp::Subtract(value))
    } else if is_word(word, "and") {
        Some(SignalOp::And(value))
    } else if is_word(word, "or") {
        Some(SignalOp::Or(value))
    } else if is_word(word, "xor") {
        Some(SignalOp::Xor(value))
    } else if is_word(word, "exchange") {
        Some(SignalOp::Exchange(value))
    } else {
        None
    }
}
