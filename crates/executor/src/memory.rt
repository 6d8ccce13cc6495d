//! What a work-group changes while it runs.

use crate::written::WrittenBytes;

/// The group memory, and what is written over the memory that is lent.
#[derive(Drop)]
pub struct Memory {
    /// The bytes written to global memory. They lie first: a call on them then takes the address of both.
    pub written: WrittenBytes,
    /// The bytes of the group segment (PRM, Group Segment).
    pub group: Vec<u8>,
}
