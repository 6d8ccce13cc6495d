//! What the policy declares: how many there are of each kind, and their names and numbers.

ghost use Rattle.std.specs.Prelude.{◌≡◌, true, false};
ghost use Rattle.std.specs.Option.{option_copied};
ghost use Rattle.policy.specs.Policy.{number_in, numbered, row_of};
ghost use Rattle.hobbydresser_c.specs.Buffers.{Fills};
ghost use Rattle.hobbydresser_c.specs.Statuses.{closed, no_such, ok};
ghost use Rattle.hobbydresser_c.specs.Calls.{IsNoted, WhereKnown, is_open};
ghost use Rattle.hobbydresser_c.specs.Names.{count_in, names_in, policy_of, subject_of_number};

use crate::broker::Broker;
use crate::buffers::fill;
use crate::status;
use aql_packet::{ClientId, RegionHandle};
use policy::{Kind, Object, Policy};

/// What a name is of.
#[derive(Clone, Copy)]
pub enum Subject {
    /// An object of this kind.
    Object(Kind),
    /// A client.
    Client,
}

// What a number stands for: 0 to 3 for the kinds of objects, 4 for clients.
fn subject_of_number(number: u32) -> Option<Subject>
    ensures { result ≡ subject_of_number number }
{
    let subjects = [
        Subject::Object(Kind::Agent),
        Subject::Object(Kind::Region),
        Subject::Object(Kind::Signal),
        Subject::Object(Kind::Kernel),
        Subject::Client,
    ];
    subjects.get(number as usize).copied()
}

// How many there are.
fn count_in(policy: &Policy, subject: Subject) -> usize
    ensures { result ≡ count_in policy.now subject }
{
    match subject {
        Subject::Object(kind) => policy.object_count(kind),
        Subject::Client => policy.client_count(),
    }
}

// The number of a name, 0 where nothing has it.
fn number_in(policy: &Policy, subject: Subject, name: &[u8]) -> u64
    ensures { result ≡ number_in (names_in policy.now subject) name.now }
{
    match subject {
        Subject::Object(kind) => policy.object_named(kind, name).number(),
        Subject::Client => policy.client_named(name).0 as u64,
    }
}

// The name of a number, if it is one's.
fn name_in(policy: &Policy, subject: Subject, number: u32) -> Option<&str>
    ensures { option_copied result ≡ numbered (names_in policy.now subject) number }
{
    match subject {
        Subject::Object(kind) => policy.object_name(Object::of(kind, number as u64)),
        Subject::Client => policy.client_name(ClientId(number)),
    }
}

/// How many clients, or objects of a kind, the policy declares.
#[unsafe(no_mangle)]
pub extern "C" fn hd_count(broker: &mut Broker, kind: u32, count: &mut u64) -> u32
    ensures closed { is_open broker.old ≡ false → (result ≡ closed) × (count.new ≡ count.old) }
    ensures same { IsNoted broker.old broker.new }
    ensures met { is_open broker.old ≡ true → WhereKnown (subject_of_number kind) ((result ≡ no_such) × (count.new ≡ count.old))
        (λ subject. (result ≡ ok) × (count.new ≡ count_in (policy_of broker.old) subject)) }
{
    if !broker.called() {
        return status::CLOSED;
    }
    let Some(subject) = subject_of_number(kind) else {
        return status::NO_SUCH;
    };
    let core = &mut broker.pointer.session_mut().core;
    *count = count_in(core.policy(), subject) as u64;
    status::OK
}

/// The number of a client's name, or of that of an object of a kind: 0 where nothing has it.
#[unsafe(no_mangle)]
pub extern "C" fn hd_number(broker: &mut Broker, kind: u32, name: &[u8], number: &mut u64) -> u32
    ensures closed { is_open broker.old ≡ false → (result ≡ closed) × (number.new ≡ number.old) }
    ensures same { IsNoted broker.old broker.new }
    ensures met { is_open broker.old ≡ true → WhereKnown (subject_of_number kind) ((result ≡ no_such) × (number.new ≡ number.old))
        (λ subject. (result ≡ ok) × (number.new ≡ number_in (names_in (policy_of broker.old) subject) name.now)) }
{
    if !broker.called() {
        return status::CLOSED;
    }
    let Some(subject) = subject_of_number(kind) else {
        return status::NO_SUCH;
    };
    let core = &mut broker.pointer.session_mut().core;
    *number = number_in(core.policy(), subject, name);
    status::OK
}

/// The name of a client, or of an object of a kind, and how many bytes it has.
#[unsafe(no_mangle)]
pub extern "C" fn hd_name(
    broker: &mut Broker,
    kind: u32,
    number: u32,
    out: &mut [u8],
    needed: &mut u64,
) -> u32
    ensures closed { is_open broker.old ≡ false → (result ≡ closed) × (out.new ≡ out.old) × (needed.new ≡ needed.old) }
    ensures same { IsNoted broker.old broker.new }
    ensures met { is_open broker.old ≡ true → WhereKnown (subject_of_number kind) ((result ≡ no_such) × (out.new ≡ out.old) × (needed.new ≡ needed.old))
        (λ subject. WhereKnown (numbered (names_in (policy_of broker.old) subject) number) ((result ≡ no_such) × (out.new ≡ out.old) × (needed.new ≡ needed.old))
        (λ name. Fills name result out.old out.new needed.new)) }
{
    if !broker.called() {
        return status::CLOSED;
    }
    let Some(subject) = subject_of_number(kind) else {
        return status::NO_SUCH;
    };
    let core = &mut broker.pointer.session_mut().core;
    match name_in(core.policy(), subject, number) {
        None => status::NO_SUCH,
        Some(name) => fill(name.as_bytes(), out, needed),
    }
}

/// The length of a region in bytes.
#[unsafe(no_mangle)]
pub extern "C" fn hd_region_length(broker: &mut Broker, region: u32, length: &mut u64) -> u32
    ensures closed { is_open broker.old ≡ false → (result ≡ closed) × (length.new ≡ length.old) }
    ensures same { IsNoted broker.old broker.new }
    ensures met { is_open broker.old ≡ true → WhereKnown (row_of (policy_of broker.old).regions region) ((result ≡ no_such) × (length.new ≡ length.old))
        (λ bytes. (result ≡ ok) × (length.new ≡ bytes)) }
{
    if !broker.called() {
        return status::CLOSED;
    }
    let core = &mut broker.pointer.session_mut().core;
    match core.policy().region_length(RegionHandle(region)) {
        None => status::NO_SUCH,
        Some(bytes) => {
            *length = bytes as u64;
            status::OK
        }
    }
}
