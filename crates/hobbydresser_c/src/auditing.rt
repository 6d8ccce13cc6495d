//! The audit: how long it is, its lines, and how it is emptied.

ghost use Rattle.std.specs.Prelude.{◌≡◌, IfOk, false, length, string_bytes, true};
ghost use Rattle.std.specs.Option.{option_copied};
ghost use Rattle.core_model.specs.History.{beginning};
ghost use Rattle.script.specs.Entries.{text_of_entry};
ghost use Rattle.hobbydresser_c.specs.Audits.{Rotated, Truncated, entry_numbered};
ghost use Rattle.hobbydresser_c.specs.Buffers.{FillsOrLacks};
ghost use Rattle.hobbydresser_c.specs.Calls.{IsNoted, IsSame, Keeps, WhereKnown, history_of, is_open, status_of};
ghost use Rattle.hobbydresser_c.specs.Names.{policy_of};
ghost use Rattle.hobbydresser_c.specs.Statuses.{closed, no_such, ok};

use crate::broker::Broker;
use crate::buffers::fill;
use crate::granting::status_of;
use crate::status;
use access_core::AccessCore;
use core_model::{Entry, Part, Refusal};
use policy::Policy;
use script::write_entry;
use std::alloc::{AllocError, Global};

/// How many entries came before those of the audit, and how many it has.
#[unsafe(no_mangle)]
pub extern "C" fn hd_audit_count(broker: &mut Broker, before: &mut u64, count: &mut u64) -> u32
    ensures closed { is_open broker.old ≡ false → (result ≡ closed) × (before.new ≡ before.old) × (count.new ≡ count.old) }
    ensures same { IsNoted broker.old broker.new }
    ensures met { is_open broker.old ≡ true →
        (result ≡ ok) × (before.new ≡ (beginning (history_of broker.old)).before) × (count.new ≡ length (history_of broker.old).entries) }
{
    if !broker.called() {
        return status::CLOSED;
    }
    let core = &mut broker.pointer.session_mut().core;
    *before = core.entries_before();
    *count = core.audit().len() as u64;
    status::OK
}

// The entry of a number, which counts on from those that came before, if the audit has it.
pub(crate) fn entry_numbered(core: &AccessCore, number: u64) -> Option<&Entry>
    ensures { option_copied result ≡ entry_numbered core.now.history number }
{
    let place = number.saturating_sub(core.entries_before());
    if place == 0 {
        return None;
    }
    core.audit().get((place - 1) as usize)
}

// The line of an entry.
fn line_of(alloc: Global, policy: &Policy, number: u64, entry: &Entry) -> Result<String, AllocError>
    ensures { IfOk result (λ line. string_bytes line ≡ text_of_entry policy.now number entry.now) }
{
    let mut line = String::new(alloc);
    write_entry(&mut line, policy, u128::from(number), entry)?;
    Ok(line)
}

/// The line of an entry of the audit, as a script's `audit` prints it, and how many bytes it has.
#[unsafe(no_mangle)]
pub extern "C" fn hd_audit_line(
    alloc: Global,
    broker: &mut Broker,
    number: u64,
    out: &mut [u8],
    needed: &mut u64,
) -> u32
    ensures closed { is_open broker.old ≡ false → (result ≡ closed) × (out.new ≡ out.old) × (needed.new ≡ needed.old) }
    ensures same { IsNoted broker.old broker.new }
    ensures met { is_open broker.old ≡ true → WhereKnown (entry_numbered (history_of broker.old) number)
        ((result ≡ no_such) × (out.new ≡ out.old) × (needed.new ≡ needed.old))
        (λ entry. FillsOrLacks (text_of_entry (policy_of broker.old) number entry) result out.old out.new needed.old needed.new) }
{
    if !broker.called() {
        return status::CLOSED;
    }
    let core = &mut broker.pointer.session_mut().core;
    let Some(entry) = entry_numbered(core, number) else {
        return status::NO_SUCH;
    };
    match line_of(alloc, core.policy(), number, entry) {
        Ok(line) => fill(line.as_bytes(), out, needed),
        Err(_) => status::OUT_OF_MEMORY,
    }
}

// Tells whether a part was handed out, and lets it go.
fn tell_part(answer: Result<Part, Refusal>) -> u32
    ensures { result ≡ status_of answer }
{
    match answer {
        Ok(_) => status::OK,
        Err(why) => status::of_refusal(why),
    }
}

/// Empties the audit: the history goes on from where it stands.
#[unsafe(no_mangle)]
pub extern "C" fn hd_rotate(alloc: Global, broker: &mut Broker) -> u32
    ensures closed { is_open broker.old ≡ false → (result ≡ closed) × IsSame broker.old broker.new }
    ensures open { Keeps broker.old broker.new }
    ensures met { is_open broker.old ≡ true → Rotated broker.old broker.new result }
{
    if !broker.called() {
        return status::CLOSED;
    }
    let core = &mut broker.pointer.session_mut().core;
    tell_part(core.rotate(alloc))
}

/// Empties the audit, whose entries were written down elsewhere: the history goes on from where it stands, and of memory
/// nothing is copied but what they wrote.
#[unsafe(no_mangle)]
pub extern "C" fn hd_truncate(alloc: Global, broker: &mut Broker) -> u32
    ensures closed { is_open broker.old ≡ false → (result ≡ closed) × IsSame broker.old broker.new }
    ensures open { Keeps broker.old broker.new }
    ensures met { is_open broker.old ≡ true → Truncated broker.old broker.new result }
{
    if !broker.called() {
        return status::CLOSED;
    }
    let core = &mut broker.pointer.session_mut().core;
    status_of(core.truncate(alloc))
}
