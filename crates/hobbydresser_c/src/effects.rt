//! The changes that the audit's last entry tells.

ghost use Rattle.std.specs.Prelude.{◌≡◌, ◌≤◌, List, ℕ, true, false, length, slice_get};
ghost use Rattle.hobbydresser_c.specs.Statuses.{closed, no_such, ok};
ghost use Rattle.std.specs.Option.{option_copied};
ghost use Rattle.hobbydresser_c.specs.Buffers.{Fills};
ghost use Rattle.hobbydresser_c.specs.Told.{bytes_of, effect_told};
ghost use Rattle.hobbydresser_c.specs.Calls.{IsSame, WhereKnown, is_open, last_effects, session_effects};

use crate::broker::Broker;
use crate::buffers::fill;
use crate::session::Session;
use crate::status;
use crate::told::{EffectRecord, effect_told};
use core_model::Effect;

impl Session {
    // The changes that the last entry tells.
    pub(crate) fn last_effects(&self) -> &[Effect]
        ensures { result.now ≡ session_effects self.now }
    {
        match self.core.audit().last() {
            None => &[],
            Some(entry) => entry.effects.as_slice(),
        }
    }
}

/// How many changes the last entry of the audit tells: none where it has no entry.
#[unsafe(no_mangle)]
pub extern "C" fn hd_effect_count(broker: &mut Broker, count: &mut u64) -> u32
    ensures closed { is_open broker.old ≡ false → (result ≡ closed) × (count.new ≡ count.old) }
    ensures same { IsSame broker.old broker.new }
    ensures met { is_open broker.old ≡ true → (result ≡ ok) × (count.new ≡ length (last_effects broker.old)) }
{
    if !broker.is_open() {
        return status::CLOSED;
    }
    let session = broker.pointer.session_mut();
    *count = session.last_effects().len() as u64;
    status::OK
}

/// One of these changes, counted from 0.
#[unsafe(no_mangle)]
pub extern "C" fn hd_effect_at(broker: &mut Broker, index: usize, out: &mut EffectRecord) -> u32
    ensures closed { is_open broker.old ≡ false → (result ≡ closed) × (out.new ≡ out.old) }
    ensures same { IsSame broker.old broker.new }
    ensures met { is_open broker.old ≡ true → WhereKnown (slice_get (last_effects broker.old) index)
        ((result ≡ no_such) × (out.new ≡ out.old)) (λ effect. (result ≡ ok) × (out.new ≡ effect_told effect)) }
{
    if !broker.is_open() {
        return status::CLOSED;
    }
    let session = broker.pointer.session_mut();
    match session.last_effects().get(index) {
        None => status::NO_SUCH,
        Some(effect) => {
            *out = effect_told(effect);
            status::OK
        }
    }
}

// The bytes that a change wrote, if it did.
fn bytes_of(effect: &Effect) -> Option<&[u8]>
    ensures { option_copied result ≡ bytes_of effect.now }
{
    match effect {
        Effect::Write { bytes, .. } => Some(bytes.as_slice()),
        _ => None,
    }
}

/// The bytes that one of these changes wrote, and how many they are.
#[unsafe(no_mangle)]
pub extern "C" fn hd_effect_bytes(
    broker: &mut Broker,
    index: usize,
    out: &mut [u8],
    needed: &mut u64,
) -> u32
    ensures closed { is_open broker.old ≡ false → (result ≡ closed) × (out.new ≡ out.old) × (needed.new ≡ needed.old) }
    ensures same { IsSame broker.old broker.new }
    ensures met { is_open broker.old ≡ true → WhereKnown (slice_get (last_effects broker.old) index)
        ((result ≡ no_such) × (out.new ≡ out.old) × (needed.new ≡ needed.old))
        (λ effect. WhereKnown (bytes_of effect) ((result ≡ no_such) × (out.new ≡ out.old) × (needed.new ≡ needed.old))
        (λ bytes. Fills bytes result out.old out.new needed.new)) }
{
    if !broker.is_open() {
        return status::CLOSED;
    }
    let session = broker.pointer.session_mut();
    let Some(effect) = session.last_effects().get(index) else {
        return status::NO_SUCH;
    };
    match bytes_of(effect) {
        None => status::NO_SUCH,
        Some(bytes) => fill(bytes, out, needed),
    }
}
