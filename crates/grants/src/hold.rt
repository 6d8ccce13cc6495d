//! Rights that packets hold, kept as a list.

ghost use Rattle.std.specs.Prelude.{◌≡◌, ◌≤◌, ◌⊎◌, ◌&&◌, not, filter, vec_len, vec_capacity};
ghost use Rattle.grants.specs.Pairs.{same_pair};
ghost use Rattle.grants.specs.Holders.{IsUpTo, IsFirstTo};
ghost use Rattle.grants.specs.Holds.{is_held, is_on};
ghost use Rattle.grants.specs.inner.PacketHolds.{holds_one, is_of, have_common_right};
ghost use Rattle.grants.specs.inner.Reloading.{has_denied, is_denied};

use aql_packet::{ClientId, PacketId, QueueId};
use policy::{Object, PolicyRows, Right, Rights};

/// Rights on an object that a packet holds.
#[derive(Clone, Copy)]
pub struct Hold {
    /// The packet's queue.
    pub queue: QueueId,
    /// The packet.
    pub packet: PacketId,
    /// The client of the queue.
    pub client: ClientId,
    /// What the rights are on.
    pub object: Object,
    /// The rights.
    pub rights: Rights,
}

impl Hold {
    /// Whether it is the packet's.
    pub fn is_of(&self, queue: QueueId, packet: PacketId) -> bool
        ensures { result ≡ is_of queue packet self.now }
    {
        self.queue == queue && self.packet == packet
    }

    // Whether it is the packet's, on the client's object.
    fn is_on(&self, queue: QueueId, packet: PacketId, client: ClientId, object: Object) -> bool
        ensures { result ≡ is_on queue packet client object self.now }
    {
        queue == self.queue
            && packet == self.packet
            && client == self.client
            && object == self.object
    }

    // Whether it is on one of the client's rights on the object.
    fn blocks(&self, client: ClientId, object: Object, rights: Rights) -> bool
        ensures { result ≡ (same_pair client object self.now.client self.now.object && have_common_right rights self.now.rights) }
    {
        client == self.client && object == self.object && have_common_right(rights, self.rights)
    }

    // Whether it has a right that rows don't allow.
    fn is_denied(&self, rows: &PolicyRows) -> bool
        ensures { result ≡ is_denied rows.now self.now }
    {
        !rows.allow(self.client, self.object, self.rights)
    }
}

// Whether two sets have a right in common.
fn have_common_right(a: Rights, b: Rights) -> bool
    ensures { result ≡ have_common_right a b }
{
    Right::ALL
        .iter()
        .any(|right| a.has(*right) && b.has(*right))
}

/// Whether a packet holds a client's right on an object.
pub fn is_held(
    holds: &[Hold],
    queue: QueueId,
    packet: PacketId,
    client: ClientId,
    object: Object,
    right: Right,
) -> bool
    ensures { result ≡ is_held holds.now queue packet client object right }
{
    holds.iter().any(|hold| hold.is_on(queue, packet, client, object) && hold.rights.has(right))
}

/// Takes a packet's holds out of the list.
pub fn drop_holds(holds: &mut Vec<Hold>, queue: QueueId, packet: PacketId)
    ensures rest { holds.new.items ≡ filter (λ hold. not (is_of queue packet hold)) holds.old.items }
    ensures len { vec_len holds.new ≤ vec_len holds.old }
    ensures capacity { vec_capacity holds.new ≡ vec_capacity holds.old }
{
    holds.retain(|hold| !hold.is_of(queue, packet));
}

// Of two packets the first: by queue, and then by id.
fn first_of(a: (QueueId, PacketId), b: (QueueId, PacketId)) -> (QueueId, PacketId)
    ensures either { (result ≡ a) ⊎ (result ≡ b) }
    ensures up_to_a { IsUpTo result.0 result.1 a.0 a.1 }
    ensures up_to_b { IsUpTo result.0 result.1 b.0 b.1 }
{
    if a.0.0 < b.0.0 || (a.0.0 == b.0.0 && a.1.0 <= b.1.0) {
        a
    } else {
        b
    }
}

/// The first packet that holds one of the client's rights on the object, if any does.
pub fn first_holder(
    holds: &[Hold],
    client: ClientId,
    object: Object,
    rights: Rights,
) -> Option<(QueueId, PacketId)>
    ensures { IsFirstTo (holds_one holds.now client object rights) result }
{
    let mut first = None;
    for hold in holds {
        if hold.blocks(client, object, rights) {
            let packet = (hold.queue, hold.packet);
            first = Some(match first {
                Some(other) => first_of(other, packet),
                None => packet,
            });
        }
    }
    first
}

/// The first packet that holds a right that rows don't allow, if any does.
pub fn first_denied(holds: &[Hold], rows: &PolicyRows) -> Option<(QueueId, PacketId)>
    ensures { IsFirstTo (has_denied rows.now holds.now) result }
{
    let mut first = None;
    for hold in holds {
        if hold.is_denied(rows) {
            let packet = (hold.queue, hold.packet);
            first = Some(match first {
                Some(other) => first_of(other, packet),
                None => packet,
            });
        }
    }
    first
}
