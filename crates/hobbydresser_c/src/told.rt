//! What the core answers, as C sees it.

ghost use Rattle.std.specs.Prelude.{◌≡◌};
ghost use Rattle.hobbydresser_c.specs.Told.{effect_told, error_told, held_told, number_of_kind, number_of_rule, polled_told, taken_told, worked_told};

use bitflags::Flags;
use core_model::{Effect, Polled, Taken, WaitCause, Worked};
use policy::{Kind, Object, Rights};
use queue_error::{QueueError, Rule};

/// An error of a queue, `hd_error` in C.
#[repr(C)]
#[derive(Clone, Copy)]
pub struct ErrorRecord {
    /// The queue, and the packet's id.
    pub queue: u64,
    pub packet: u64,
    /// The rule's number: 1 to 10 for L1 to L10, 11 to 17 for A1 to A7, 18 for B1; 0 where there is no error.
    pub rule: u32,
    /// 1 where the error has a place, which the next three tell; else they are 0.
    pub has_place: u32,
    pub group: u32,
    pub item: u32,
    pub line: u32,
}

/// No error.
pub const NO_ERROR: ErrorRecord = ErrorRecord {
    queue: 0,
    packet: 0,
    rule: 0,
    has_place: 0,
    group: 0,
    item: 0,
    line: 0,
};

/// What became of a packet that was handed over, `hd_taken` in C.
#[repr(C)]
#[derive(Clone, Copy)]
pub struct TakenRecord {
    /// 0 launched, 1 denied; 2, 3 and 4 waiting for a barrier, for those in flight, or for a slot.
    pub became: u32,
    /// Why it was denied.
    pub error: ErrorRecord,
}

/// What became of the next group of a dispatch, `hd_worked` in C.
#[repr(C)]
#[derive(Clone, Copy)]
pub struct WorkedRecord {
    /// 0 ran, 1 faulted, 2 done.
    pub became: u32,
    /// The group that ran, and how many are left.
    pub group: u32,
    pub left: u32,
    /// Why it faulted.
    pub error: ErrorRecord,
}

/// What a poll of a barrier packet found, `hd_polled` in C.
#[repr(C)]
#[derive(Clone, Copy)]
pub struct PolledRecord {
    /// 0 pending, 1 ready, 2 failed.
    pub became: u32,
    /// Why it failed.
    pub error: ErrorRecord,
}

/// A change that a call made, `hd_effect` in C.
#[repr(C)]
#[derive(Clone, Copy)]
pub struct EffectRecord {
    /// 0 bytes were written, 1 a signal changed, 2 a packet left flight.
    pub kind: u32,
    /// Of bytes: the first one's address, and how many.
    pub address: u64,
    pub length: u64,
    /// Of a signal: its number, and its values before and after.
    pub signal: u64,
    pub before: i64,
    pub after: i64,
    /// Of a packet: its queue, and its id.
    pub queue: u64,
    pub packet: u64,
}

/// A client's rights on an object, `hd_held` in C.
#[repr(C)]
#[derive(Clone, Copy)]
pub struct HeldRecord {
    /// The object: its kind's number, 0 agent, 1 region, 2 signal, 3 kernel, and its own.
    pub kind: u32,
    pub number: u64,
    /// A bit for each right.
    pub rights: u32,
}

// The number of a kind.
fn number_of_kind(kind: Kind) -> u32
    ensures { result ≡ number_of_kind kind }
{
    match kind {
        Kind::Agent => 0,
        Kind::Region => 1,
        Kind::Signal => 2,
        Kind::Kernel => 3,
    }
}

/// A row of a listing, as C sees it.
pub fn held_told(object: Object, rights: Rights) -> HeldRecord
    ensures { result ≡ held_told (object, rights) }
{
    HeldRecord {
        kind: number_of_kind(object.kind()),
        number: object.number(),
        rights: rights.bits() as u32,
    }
}

/// The number of a rule.
pub fn number_of_rule(rule: Rule) -> u32
    ensures { result ≡ number_of_rule rule }
{
    match rule {
        Rule::L1 => 1,
        Rule::L2 => 2,
        Rule::L3 => 3,
        Rule::L4 => 4,
        Rule::L5 => 5,
        Rule::L6 => 6,
        Rule::L7 => 7,
        Rule::L8 => 8,
        Rule::L9 => 9,
        Rule::L10 => 10,
        Rule::A1 => 11,
        Rule::A2 => 12,
        Rule::A3 => 13,
        Rule::A4 => 14,
        Rule::A5 => 15,
        Rule::A6 => 16,
        Rule::A7 => 17,
        Rule::B1 => 18,
    }
}

/// An error as C sees it.
pub fn error_told(error: QueueError) -> ErrorRecord
    ensures { result ≡ error_told error }
{
    let queue = error.queue.0;
    let packet = error.packet.0;
    let rule = number_of_rule(error.rule);
    match error.place {
        None => ErrorRecord {
            queue,
            packet,
            rule,
            ..NO_ERROR
        },
        Some(place) => ErrorRecord {
            queue,
            packet,
            rule,
            has_place: 1,
            group: place.group,
            item: place.item,
            line: place.line,
        },
    }
}

/// What became of a packet, as C sees it.
pub fn taken_told(taken: Taken) -> TakenRecord
    ensures { result ≡ taken_told taken }
{
    let (became, error) = match taken {
        Taken::Launched => (0, NO_ERROR),
        Taken::Denied(error) => (1, error_told(error)),
        Taken::Waiting(WaitCause::Barrier) => (2, NO_ERROR),
        Taken::Waiting(WaitCause::Active) => (3, NO_ERROR),
        Taken::Waiting(WaitCause::Slots) => (4, NO_ERROR),
    };
    TakenRecord { became, error }
}

/// Tells what became of a group, as C sees it: into the caller's record at once, so that no field of a variant that it isn't
/// is carried along.
pub fn tell_group(worked: Worked, out: &mut WorkedRecord)
    ensures { out.new ≡ worked_told worked }
{
    match worked {
        Worked::Ran { group, left } => {
            *out = WorkedRecord {
                became: 0,
                group,
                left,
                error: NO_ERROR,
            };
        }
        Worked::Faulted(error) => {
            *out = WorkedRecord {
                became: 1,
                group: 0,
                left: 0,
                error: error_told(error),
            };
        }
        Worked::Done => {
            *out = WorkedRecord {
                became: 2,
                group: 0,
                left: 0,
                error: NO_ERROR,
            };
        }
    }
}

/// What a poll found, as C sees it.
pub fn polled_told(polled: Polled) -> PolledRecord
    ensures { result ≡ polled_told polled }
{
    match polled {
        Polled::Pending(_) => PolledRecord {
            became: 0,
            error: NO_ERROR,
        },
        Polled::Ready(_) => PolledRecord {
            became: 1,
            error: NO_ERROR,
        },
        Polled::Failed(error) => PolledRecord {
            became: 2,
            error: error_told(error),
        },
    }
}

/// A change as C sees it.
pub fn effect_told(effect: &Effect) -> EffectRecord
    ensures { result ≡ effect_told effect.now }
{
    match effect {
        Effect::Write { address, bytes } => EffectRecord {
            kind: 0,
            address: address.0,
            length: bytes.len() as u64,
            signal: 0,
            before: 0,
            after: 0,
            queue: 0,
            packet: 0,
        },
        Effect::Signal { signal, old, new } => EffectRecord {
            kind: 1,
            address: 0,
            length: 0,
            signal: signal.0,
            before: *old,
            after: *new,
            queue: 0,
            packet: 0,
        },
        Effect::Release { queue, packet } => EffectRecord {
            kind: 2,
            address: 0,
            length: 0,
            signal: 0,
            before: 0,
            after: 0,
            queue: queue.0,
            packet: packet.0,
        },
    }
}
