//! The error that stops a queue.

use crate::rule::Rule;
use aql_packet::{PacketId, QueueId};
use std::fmt;

/// An address of a segment (PRM, Address Expressions): one of all memory that a packet may hold, or how
/// far it lies behind the first byte of the work-group's group segment.
#[derive(Clone, Copy, Debug, PartialEq, Eq)]
pub enum SegmentAddress {
    /// An address of memory.
    Global(u64),
    /// So many bytes behind the first of the group segment.
    Group(u32),
}

/// Where in a kernel's work a rule was broken. It prints as `group 1 item 1 line 9`, without the address.
#[derive(Clone, Copy, Debug, PartialEq, Eq)]
pub struct FaultPlace {
    /// The work-group's flat number, from 0.
    pub group: u32,
    /// The work-item's flat number in its group, from 0.
    pub item: u32,
    /// The line of the kernel's text, from 1.
    pub line: u32,
    /// The address that the item asked for; none where it broke the rule without an access, A5 or A6.
    pub address: Option<SegmentAddress>,
}

/// A packet was denied, or failed at its work. It prints as `queue 1 packet 0 rule L8`, and with a
/// place as `queue 1 packet 0 rule A3 group 1 item 1 line 9`.
#[derive(Clone, Copy, Debug, PartialEq, Eq, thiserror::Error)]
pub struct QueueError {
    pub queue: QueueId,
    pub packet: PacketId,
    pub rule: Rule,
    /// Where a kernel's work broke the rule; no place where the packet as a whole did.
    pub place: Option<FaultPlace>,
}

impl Default for QueueError {
    /// What stands where no error is kept yet.
    fn default() -> QueueError {
        QueueError {
            queue: QueueId(0),
            packet: PacketId(0),
            rule: Rule::L1,
            place: None,
        }
    }
}

impl fmt::Display for FaultPlace {
    ghost use Rattle.std.specs.Prelude.{Some};
    ghost use Rattle.queue_error.specs.Texts.{text_of_place};

    ghost output = { λ place. Some (text_of_place place) };

    fn fmt<W: fmt::Write>(&self, f: &mut fmt::Formatter<W>) -> fmt::Result {
        write!(
            f,
            "group {} item {} line {}",
            self.group, self.item, self.line
        )
    }
}

impl fmt::Display for QueueError {
    ghost use Rattle.std.specs.Prelude.{Some};
    ghost use Rattle.queue_error.specs.Texts.{text_of_error};

    ghost output = { λ error. Some (text_of_error error) };

    fn fmt<W: fmt::Write>(&self, f: &mut fmt::Formatter<W>) -> fmt::Result {
        write!(
            f,
            "queue {} packet {} rule {}",
            self.queue.0, self.packet.0, self.rule
        )?;
        match self.place {
            None => Ok(()),
            Some(place) => write!(f, " {place}"),
        }
    }
}
