//! The changes that the last call left, all at once.

ghost use Rattle.std.specs.Prelude.{◌≡◌, ◌+◌, ◌≤◌, ◌++◌, drop, false, length, true};
ghost use Rattle.aql_packet.specs.Words.{bytes_of};
ghost use Rattle.hobbydresser_c.specs.Calls.{IsSame, is_open, session_of};
ghost use Rattle.hobbydresser_c.specs.Effects.{FillsAll, all_laid_out, bytes_written, effects_left, laid_out, leaves_entry, number_left, size_told, words_of};
ghost use Rattle.hobbydresser_c.specs.Statuses.{closed};
ghost use Rattle.hobbydresser_c.specs.Told.{effect_told};
ghost use Rattle.regions.specs.Memory.{overlaid};

use crate::broker::Broker;
use crate::session::Session;
use crate::status;
use crate::told::effect_told;
use aql_packet::bytes_of;
use core_model::Effect;

/// The bytes of a change's record.
const RECORD: usize = 64;

impl Session {
    // Whether the last call left an entry.
    fn leaves_entry(&self) -> bool
        ensures { result ≡ leaves_entry self.now }
    {
        self.last.entries < self.entry_count()
    }

    // The number of the entry that the last call left, 0 for none.
    fn number_left(&self) -> u64
        ensures { result ≡ number_left self.now }
    {
        if self.leaves_entry() {
            self.entry_count()
        } else {
            0
        }
    }

    // What the last call changed.
    fn effects_left(&self) -> &[Effect]
        ensures { result.now ≡ effects_left self.now }
    {
        if self.leaves_entry() {
            self.last_effects()
        } else {
            &[]
        }
    }
}

// The bytes that a change wrote, none where it is another.
fn bytes_written(effect: &Effect) -> &[u8]
    ensures { result.now ≡ bytes_written effect.now }
{
    match effect {
        Effect::Write { bytes, .. } => bytes.as_slice(),
        _ => &[],
    }
}

// A change's record, as it lies in memory.
fn record_of(effect: &Effect) -> [u8; 64]
    ensures { result ≡ bytes_of (words_of (effect_told effect.now)) }
{
    let told = effect_told(effect);
    bytes_of(&[
        told.kind as u64,
        told.address,
        told.length,
        told.signal,
        told.before.cast_unsigned(),
        told.after.cast_unsigned(),
        told.queue,
        told.packet,
    ])
}

// How many bytes a change takes.
fn size_of(effect: &Effect) -> u64
    ensures { result ≡ length (laid_out effect.now) }
{
    bytes_written(effect).len() as u64 + RECORD as u64
}

// How many bytes changes take, more than any buffer where they are as many.
fn size_of_all(effects: &[Effect]) -> u64
    ensures { result ≡ size_told (length (all_laid_out effects.now)) }
{
    let mut size: u64 = 0;
    'effects: for place in 0..effects.len() {
        size = size.saturating_add(size_of(&effects[place]));
    }
    size
}

// Lays bytes over a buffer from a place on.
fn put(out: &mut [u8], at: usize, bytes: &[u8])
    requires { at + length bytes.now ≤ length out.old }
    ensures { out.new ≡ overlaid out.old at bytes.now }
{
    out[at..at + bytes.len()].copy_from_slice(bytes);
}

// Lays bytes over a buffer from a place on, if there are any: most changes wrote none.
fn put_any(out: &mut [u8], at: usize, bytes: &[u8])
    requires { at + length bytes.now ≤ length out.old }
    ensures { out.new ≡ overlaid out.old at bytes.now }
{
    if bytes.is_empty() {
        return;
    }
    put(out, at, bytes);
}

// Lays a change over a buffer from a place on: its record, and its bytes.
fn put_effect(out: &mut [u8], at: usize, effect: &Effect) -> usize
    requires { at + length (laid_out effect.now) ≤ length out.old }
    ensures laid { out.new ≡ overlaid out.old at (laid_out effect.now) }
    ensures next { result ≡ at + length (laid_out effect.now) }
{
    let bytes = bytes_written(effect);
    put(out, at, &record_of(effect));
    put_any(out, at + RECORD, bytes);
    at + RECORD + bytes.len()
}

// Lays changes over the beginning of a buffer.
fn put_all(out: &mut [u8], effects: &[Effect])
    requires { length (all_laid_out effects.now) ≤ length out.old }
    ensures { out.new ≡ all_laid_out effects.now ++ drop (length (all_laid_out effects.now)) out.old }
{
    let mut at = 0;
    'effects: for place in 0..effects.len() {
        at = put_effect(out, at, &effects[place]);
    }
}

// Fills a buffer by changes, and tells how many bytes they take. One that is too short is left alone.
fn fill_all(effects: &[Effect], out: &mut [u8], needed: &mut u64) -> u32
    ensures { FillsAll (all_laid_out effects.now) result out.old out.new needed.new }
{
    let size = size_of_all(effects);
    *needed = size;
    if size > out.len() as u64 {
        return status::TOO_SHORT;
    }
    put_all(out, effects);
    status::OK
}

/// The changes that the last call made, and the number of its entry, 0 where it left none.
#[unsafe(no_mangle)]
pub extern "C" fn hd_effects(
    broker: &mut Broker,
    out: &mut [u8],
    needed: &mut u64,
    entry: &mut u64,
) -> u32
    ensures closed { is_open broker.old ≡ false → (result ≡ closed) × (out.new ≡ out.old) × (needed.new ≡ needed.old) × (entry.new ≡ entry.old) }
    ensures same { IsSame broker.old broker.new }
    ensures met { is_open broker.old ≡ true → (entry.new ≡ number_left (session_of broker.old))
        × FillsAll (all_laid_out (effects_left (session_of broker.old))) result out.old out.new needed.new }
{
    if !broker.is_open() {
        return status::CLOSED;
    }
    let session = broker.pointer.session_mut();
    let number = session.number_left();
    let status = fill_all(session.effects_left(), out, needed);
    *entry = number;
    status
}
