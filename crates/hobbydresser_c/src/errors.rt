//! The errors of queues.

ghost use Rattle.std.specs.Prelude.{◌≡◌, ◌≤◌, ◌++◌, drop, false, length, map, true};
ghost use Rattle.core_model.specs.declared.refusal.Refusal.TheVariants as refusal;
ghost use Rattle.core_model.specs.History.{beginning};
ghost use Rattle.core_model.specs.Queues.{errors, owner};
ghost use Rattle.hobbydresser_c.specs.Statuses.{closed, status_of_refusal};
ghost use Rattle.hobbydresser_c.specs.Buffers.{FillsRecords};
ghost use Rattle.hobbydresser_c.specs.Told.{error_told};
ghost use Rattle.hobbydresser_c.specs.Calls.{IsNoted, WhereKnown, history_of, is_open};

use crate::broker::Broker;
use crate::status;
use crate::told::{ErrorRecord, error_told};
use aql_packet::QueueId;
use core_model::Refusal;
use queue_error::QueueError;

// Puts what is told of each error into the caller's records.
fn put_errors(rows: &[QueueError], out: &mut [ErrorRecord])
    requires { length rows.now ≤ length out.old }
    ensures { out.new ≡ map error_told rows.now ++ drop (length rows.now) out.old }
{
    'rows: for place in 0..rows.len() {
        out[place] = error_told(rows[place]);
    }
}

// Fills the caller's records by errors, and tells how many they are.
fn fill_errors(rows: &[QueueError], out: &mut [ErrorRecord], needed: &mut u64) -> u32
    ensures { FillsRecords error_told rows.now result out.old out.new needed.new }
{
    *needed = rows.len() as u64;
    if rows.len() > out.len() {
        return status::TOO_SHORT;
    }
    put_errors(rows, out);
    status::OK
}

/// The errors of a queue, in order.
#[unsafe(no_mangle)]
pub extern "C" fn hd_errors(
    broker: &mut Broker,
    queue: u64,
    out: &mut [ErrorRecord],
    needed: &mut u64,
) -> u32
    ensures closed { is_open broker.old ≡ false → (result ≡ closed) × (out.new ≡ out.old) × (needed.new ≡ needed.old) }
    ensures same { IsNoted broker.old broker.new }
    ensures met { is_open broker.old ≡ true → WhereKnown (owner (beginning (history_of broker.old)) (history_of broker.old).entries (record { 0 = queue }))
        ((result ≡ status_of_refusal refusal.UnknownQueue) × (out.new ≡ out.old) × (needed.new ≡ needed.old))
        (λ opening. FillsRecords error_told (errors (beginning (history_of broker.old)) (history_of broker.old).entries (record { 0 = queue })) result out.old out.new needed.new) }
{
    if !broker.called() {
        return status::CLOSED;
    }
    let core = &mut broker.pointer.session_mut().core;
    match core.opening(QueueId(queue)) {
        None => status::of_refusal(Refusal::UnknownQueue),
        Some(_) => fill_errors(core.errors_of(QueueId(queue)), out, needed),
    }
}
