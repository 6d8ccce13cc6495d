//! What is known of a kernel before it runs.

/// How large the segments are that a kernel works with (PRM, Kernarg Segment, Group Segment).
#[derive(Clone, Copy, Debug, PartialEq, Eq)]
pub struct KernelSegments {
    /// The bytes of its argument block.
    pub kernarg: u32,
    /// The bytes of its group variables.
    pub group: u32,
}
