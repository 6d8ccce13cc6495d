//! The limits of the kernels that are taken (own).

/// The most instructions of a kernel.
pub const MAX_INSTRUCTIONS: usize = 4_096;

/// The most bytes of a kernel's argument block.
pub const MAX_ARGUMENT_BYTES: u32 = 4_096;

/// The most bytes of a kernel's group variables.
pub const MAX_GROUP_BYTES: u32 = 65_536;

/// The most kernels of a module.
pub const MAX_KERNELS: usize = 64;

/// The greatest number of a register.
pub const MAX_REGISTER: u64 = 63;

/// The greatest number of a dimension.
pub const MAX_DIMENSION: u64 = 2;
