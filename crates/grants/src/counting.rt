//! Holds put into the list and taken out of it, with the table's counts of them.

ghost use Rattle.std.specs.Prelude.{◌≡◌, ◌+◌, ◌≤◌, ◌++◌, true, not, filter, map, vec_len, vec_capacity, length};
ghost use Rattle.std.specs.List.{list_all};
ghost use Rattle.policy.specs.Rights.{each_right};
ghost use Rattle.grants.specs.Cells.{in_table};
ghost use Rattle.grants.specs.inner.Counts.{IsCounted, SameRights};
ghost use Rattle.grants.specs.inner.PacketHolds.{hold_of, is_of};

use crate::cells::Cells;
use crate::hold::Hold;
use aql_packet::{ClientId, PacketId, QueueId};
use policy::{Object, Rights};

/// Puts a packet's holds of rights that are in force behind the others, in room that was got before,
/// and counts them.
pub fn put_holds(
    table: &mut Cells,
    holds: &mut Vec<Hold>,
    client: ClientId,
    queue: QueueId,
    packet: PacketId,
    rights: &[(Object, Rights)],
)
    requires room { vec_len holds.old + length rights.now ≤ vec_capacity holds.old }
    requires in_force { list_all (λ named. each_right named.1 (in_table table.old client named.0)) rights.now ≡ true }
    requires counted { IsCounted table.old holds.old.items }
    ensures items { holds.new.items ≡ holds.old.items ++ map (hold_of queue packet client) rights.now }
    ensures counted { IsCounted table.new holds.new.items }
    ensures rights { SameRights table.old table.new }
    ensures len { vec_len holds.new ≡ vec_len holds.old + length rights.now }
    ensures capacity { vec_capacity holds.new ≡ vec_capacity holds.old }
{
    for (object, rights) in rights {
        let hold = Hold {
            queue,
            packet,
            client,
            object: *object,
            rights: *rights,
        };
        table.count_hold(&hold);
        holds.push_reserved(hold);
    }
}

/// Counts the holds of a packet no more.
pub fn uncount_packet(table: &mut Cells, holds: &[Hold], queue: QueueId, packet: PacketId)
    requires { IsCounted table.old holds.now }
    ensures counted { IsCounted table.new (filter (λ hold. not (is_of queue packet hold)) holds.now) }
    ensures rights { SameRights table.old table.new }
{
    for hold in holds {
        if hold.is_of(queue, packet) {
            table.uncount_hold(hold);
        }
    }
}
