//! The limits of what is run (own).

/// How many work-items a work-group has at the most.
pub const MOST_GROUP_ITEMS: u64 = 1_024;

/// How many bytes a group segment, and a private segment, has at the most.
pub const MOST_SEGMENT_BYTES: u32 = 65_536;

/// How many instructions a work-item executes at the most.
pub const BUDGET: u32 = 65_536;
