//! What clients do from outside their queues: they write and read memory, and change and load signals.

ghost use Rattle.std.specs.Prelude.{◌≡◌, ◌⊎◌, IfNone, IfOk, IfSome, List, Result, true, false, ℕ, ℤ, length};
ghost use Rattle.core_model.specs.declared.answer.Answer.TheVariants as answers;
ghost use Rattle.core_model.specs.declared.call.Call.TheVariants as call;
ghost use Rattle.core_model.specs.declared.event.Event.TheVariants as event;
ghost use Rattle.core_model.specs.declared.event.Query.TheVariants as query;
ghost use Rattle.core_model.specs.declared.outcome.Outcome.TheVariants as outcome;
ghost use Rattle.core_model.specs.declared.refusal.Refusal.{Refusal};
ghost use Rattle.core_model.specs.Legal.{MeetsOrLacks, RepliesOrLacks, due};
ghost use Rattle.core_model.specs.Owed.{refuses};
ghost use Rattle.policy.specs.declared.object.Object.TheVariants as object;
ghost use Rattle.policy.specs.declared.rights.Right.TheVariants as right;
ghost use Rattle.policy.specs.Results.{map_ok};
ghost use Rattle.regions.specs.Memory.{region_of};
ghost use Rattle.hobbydresser_c.specs.Statuses.{closed, no_such, out_of_memory};
ghost use Rattle.hobbydresser_c.specs.LastCalls.{lacked};
ghost use Rattle.hobbydresser_c.specs.Told.{number_of_test};
ghost use Rattle.hobbydresser_c.specs.Calls.{Answered, IsCopied, IsMade, IsNoted, IsNotedLacking, IsSame, IsUnknown, KeepsLacking, Replied, Tells, WhereKnown, condition_of_number, history_of, is_open, operation_of_number, status_of};

use crate::broker::Broker;
use crate::granting::status_of;
use crate::status;
use access_core::AccessCore;
use aql_packet::{Address, ClientId, SignalHandle};
use core_model::{MOST_HOST_BYTES, Refusal};
use policy::{Object, Right};
use regions::region_of;
use sequences::Sequence;
use signals::{Condition, SignalOp};
use std::alloc::Global;

// The region of an address.
fn region_at(address: u64) -> Object
    ensures { result ≡ object.Region (record { 0 = region_of address }) }
{
    Object::Region(region_of(Address(address)))
}

// Why bytes may not be written, where that is told by the client, its rights, or how many bytes they are.
#[tactic(auto, unfolding(core_model::specs::Owed::owed))]
fn refused_at_once(core: &AccessCore, client: u32, address: u64, bytes: &[u8]) -> Option<Refusal>
    ensures refused { IfSome result (λ why. due core.now.history (event.Call (call.HostWrite (record { 0 = client }) (record { 0 = address }) bytes.now)) ≡ refuses why) }
    ensures passed { IfNone result (IsCopied core.now.history client address bytes.now) }
{
    if !core.policy().declares_client(ClientId(client)) {
        return Some(Refusal::UnknownClient);
    }
    if bytes.is_empty() || bytes.len() as u64 > MOST_HOST_BYTES {
        return Some(Refusal::BadSize);
    }
    if !core.has_right(ClientId(client), region_at(address), Right::Write) {
        return Some(Refusal::Denied(Right::Write));
    }
    None
}

// Writes bytes to memory, and tells the status.
fn write_copy(
    alloc: Global,
    core: &mut AccessCore,
    client: u32,
    address: u64,
    bytes: Vec<u8>,
) -> u32
    ensures { (answer : Result (Unit {0}) Refusal)
        × MeetsOrLacks (event.Call (call.HostWrite (record { 0 = client }) (record { 0 = address }) bytes.items)) core.old.history core.new.history
        (map_ok (λ done. outcome.Accepted) answer)
        × (result ≡ status_of answer) }
{
    let bytes = Sequence::from_vec(bytes);
    status_of(core.host_write(alloc, ClientId(client), Address(address), bytes))
}

/// Writes bytes to memory, as a client. They are copied only where there is the client, with the right on the region, and
/// where they may be so many.
#[unsafe(no_mangle)]
pub extern "C" fn hd_write(
    alloc: Global,
    broker: &mut Broker,
    client: u32,
    address: u64,
    bytes: &[u8],
) -> u32
    ensures closed { is_open broker.old ≡ false → (result ≡ closed) × IsSame broker.old broker.new }
    ensures open { KeepsLacking (lacked result (object.Region (record { 0 = region_of address })) right.Write) broker.old broker.new }
    ensures met { is_open broker.old ≡ true →
        IsMade (event.Call (call.HostWrite (record { 0 = client }) (record { 0 = address }) bytes.now)) broker.old broker.new result
        ⊎ ((result ≡ out_of_memory) × IsNoted broker.old broker.new × IsCopied (history_of broker.old) client address bytes.now) }
{
    if !broker.called() {
        return status::CLOSED;
    }
    let session = broker.pointer.session_mut();
    if let Some(why) = refused_at_once(&session.core, client, address, bytes) {
        let status = status::of_refusal(why);
        session.note_lacking(status, region_at(address), Right::Write);
        return status;
    }
    let Ok(copy) = Vec::from_slice(alloc, bytes) else {
        return status::OUT_OF_MEMORY;
    };
    let status = write_copy(alloc, &mut session.core, client, address, copy);
    session.note_lacking(status, region_at(address), Right::Write);
    status
}

// Tells a signal's value.
fn tell_value(answer: Result<i64, Refusal>, out: &mut i64) -> u32
    ensures { Tells (λ (value : ℤ). value) result out.old out.new answer }
{
    match answer {
        Ok(value) => {
            *out = value;
            status::OK
        }
        Err(why) => status::of_refusal(why),
    }
}

// The change of a number.
fn operation_of_number(number: u32, value: i64, expected: i64) -> Option<SignalOp>
    ensures { result ≡ operation_of_number number value expected }
{
    let operations = [
        SignalOp::Store(value),
        SignalOp::Add(value),
        SignalOp::Subtract(value),
        SignalOp::And(value),
        SignalOp::Or(value),
        SignalOp::Xor(value),
        SignalOp::Exchange(value),
        SignalOp::Cas { expected, value },
    ];
    operations.get(number as usize).copied()
}

// Changes a signal, and tells what is told of that.
fn change_signal(
    core: &mut AccessCore,
    client: u32,
    signal: u64,
    change: SignalOp,
    old: &mut i64,
) -> u32
    ensures { (answer : Result ℤ Refusal)
        × MeetsOrLacks (event.Call (call.ChangeSignal (record { 0 = client }) (record { 0 = signal }) change)) core.old.history core.new.history (map_ok outcome.Changed answer)
        × Tells (λ (value : ℤ). value) result old.old old.new answer }
{
    let answer = core.signal_op(ClientId(client), SignalHandle(signal), change);
    tell_value(answer, old)
}

/// Changes a signal, as a client.
#[unsafe(no_mangle)]
pub extern "C" fn hd_signal(
    broker: &mut Broker,
    client: u32,
    signal: u64,
    operation: u32,
    value: i64,
    expected: i64,
    old: &mut i64,
) -> u32
    ensures closed { is_open broker.old ≡ false → (result ≡ closed) × IsSame broker.old broker.new × (old.new ≡ old.old) }
    ensures open { KeepsLacking (lacked result (object.Signal (record { 0 = signal })) right.Change) broker.old broker.new }
    ensures met { is_open broker.old ≡ true → WhereKnown (operation_of_number operation value expected)
        (IsUnknown broker.old broker.new result × (old.new ≡ old.old))
        (λ change. Answered (event.Call (call.ChangeSignal (record { 0 = client }) (record { 0 = signal }) change)) outcome.Changed broker.old broker.new
        (Tells (λ (value : ℤ). value) result old.old old.new)) }
{
    if !broker.called() {
        return status::CLOSED;
    }
    let Some(change) = operation_of_number(operation, value, expected) else {
        return status::NO_SUCH;
    };
    let session = broker.pointer.session_mut();
    let status = change_signal(&mut session.core, client, signal, change, old);
    session.note_lacking(status, Object::Signal(SignalHandle(signal)), Right::Change);
    status
}

/// Loads a signal's value, as a client.
#[unsafe(no_mangle)]
pub extern "C" fn hd_load(broker: &mut Broker, client: u32, signal: u64, value: &mut i64) -> u32
    ensures closed { is_open broker.old ≡ false → (result ≡ closed) × (value.new ≡ value.old) }
    ensures same { IsNotedLacking (lacked result (object.Signal (record { 0 = signal })) right.Wait) broker.old broker.new }
    ensures met { is_open broker.old ≡ true → Replied (query.LoadSignal (record { 0 = client }) (record { 0 = signal })) answers.Value broker.old
        (Tells (λ (value : ℤ). value) result value.old value.new) }
{
    if !broker.called() {
        return status::CLOSED;
    }
    let session = broker.pointer.session_mut();
    let answer = session
        .core
        .signal_load(ClientId(client), SignalHandle(signal));
    let status = tell_value(answer, value);
    session.note_lacking(status, Object::Signal(SignalHandle(signal)), Right::Wait);
    status
}

// Tells whether a condition held, as 1 or 0.
fn tell_test(answer: Result<bool, Refusal>, out: &mut u32) -> u32
    ensures { Tells number_of_test result out.old out.new answer }
{
    match answer {
        Ok(held) => {
            *out = if held { 1 } else { 0 };
            status::OK
        }
        Err(why) => status::of_refusal(why),
    }
}

// The condition of a number.
fn condition_of_number(number: u32) -> Option<Condition>
    ensures { result ≡ condition_of_number number }
{
    let conditions = [Condition::Eq, Condition::Ne, Condition::Lt, Condition::Gte];
    conditions.get(number as usize).copied()
}

/// Tests a signal's value against another, as a client.
#[unsafe(no_mangle)]
pub extern "C" fn hd_test(
    broker: &mut Broker,
    client: u32,
    signal: u64,
    condition: u32,
    value: i64,
    held: &mut u32,
) -> u32
    ensures closed { is_open broker.old ≡ false → (result ≡ closed) × (held.new ≡ held.old) }
    ensures same { IsNotedLacking (lacked result (object.Signal (record { 0 = signal })) right.Wait) broker.old broker.new }
    ensures met { is_open broker.old ≡ true → WhereKnown (condition_of_number condition) ((result ≡ no_such) × (held.new ≡ held.old))
        (λ asked. Replied (query.TestSignal (record { 0 = client }) (record { 0 = signal }) asked value) answers.Test broker.old
        (Tells number_of_test result held.old held.new)) }
{
    if !broker.called() {
        return status::CLOSED;
    }
    let Some(asked) = condition_of_number(condition) else {
        return status::NO_SUCH;
    };
    let session = broker.pointer.session_mut();
    let answer = session
        .core
        .signal_test(ClientId(client), SignalHandle(signal), asked, value);
    let status = tell_test(answer, held);
    session.note_lacking(status, Object::Signal(SignalHandle(signal)), Right::Wait);
    status
}

// Tells bytes.
fn tell_bytes(answer: Result<Sequence<u8>, Refusal>, out: &mut [u8]) -> u32
    requires { IfOk answer (λ bytes. length bytes ≡ length out.old) }
    ensures { Tells (λ (bytes : List ℕ). bytes) result out.old out.new answer }
{
    match answer {
        Ok(bytes) => {
            out.copy_from_slice(bytes.as_slice());
            status::OK
        }
        Err(why) => status::of_refusal(why),
    }
}

// Reads bytes, as many as are asked for.
fn read(
    alloc: Global,
    core: &AccessCore,
    client: u32,
    address: u64,
    size: u64,
) -> Result<Sequence<u8>, Refusal>
    ensures told { RepliesOrLacks (query.HostRead (record { 0 = client }) (record { 0 = address }) size) core.now.history (map_ok answers.Bytes result) }
    ensures long { IfOk result (λ bytes. length bytes ≡ size) }
{
    core.host_read(alloc, ClientId(client), Address(address), size)
}

/// Reads bytes of memory, as many as the buffer has, as a client.
#[unsafe(no_mangle)]
pub extern "C" fn hd_read(
    alloc: Global,
    broker: &mut Broker,
    client: u32,
    address: u64,
    out: &mut [u8],
) -> u32
    ensures closed { is_open broker.old ≡ false → (result ≡ closed) × (out.new ≡ out.old) }
    ensures same { IsNotedLacking (lacked result (object.Region (record { 0 = region_of address })) right.Read) broker.old broker.new }
    ensures met { is_open broker.old ≡ true → Replied (query.HostRead (record { 0 = client }) (record { 0 = address }) (length out.old)) answers.Bytes broker.old
        (Tells (λ (bytes : List ℕ). bytes) result out.old out.new) }
{
    if !broker.called() {
        return status::CLOSED;
    }
    let session = broker.pointer.session_mut();
    let answer = read(alloc, &session.core, client, address, out.len() as u64);
    let status = tell_bytes(answer, out);
    session.note_lacking(status, region_at(address), Right::Read);
    status
}
