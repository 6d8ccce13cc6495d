//! How much a policy file may hold (own).

/// How many bytes its text has at the most.
pub const MOST_POLICY_BYTES: usize = 1 << 20;

/// How many bytes a name has at the most.
pub const MOST_NAME_BYTES: usize = 64;

/// How many clients it declares at the most.
pub const MOST_CLIENTS: usize = 64;

/// How many agents it declares at the most.
pub const MOST_AGENTS: usize = 16;

/// How many signals it declares at the most. No other array has more rows with names.
pub const MOST_SIGNALS: usize = 1_024;

/// How many kernels it declares at the most.
pub const MOST_KERNELS: usize = 64;

/// How many allow rows it has at the most.
pub const MOST_ALLOW_ROWS: usize = 4_096;

/// How many deny rows it has at the most.
pub const MOST_DENY_ROWS: usize = 4_096;

/// How many bytes its regions have together at the most.
pub const MOST_MEMORY_BYTES: u64 = 1 << 26;
