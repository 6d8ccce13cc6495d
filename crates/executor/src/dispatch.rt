//! What a packet asks to run.

use crate::location::Extent;

/// A dispatch of a kernel (PSA, Kernel Dispatch Packet).
#[derive(Clone, Copy)]
pub struct Dispatch<'a> {
    /// The kernel's index among the checked ones.
    pub kernel: u32,
    /// The size of a work-group in each dimension.
    pub group_size: Extent,
    /// The size of the grid in each dimension.
    pub grid_size: Extent,
    /// The bytes of group memory.
    pub group_segment_size: u32,
    /// The bytes of the argument block.
    pub arguments: &'a [u8],
}
