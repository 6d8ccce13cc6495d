//! Versions of the policy file.

/// The version of a policy file.
#[derive(Clone, Copy, Debug, PartialEq, Eq)]
pub enum Version {
    /// Allow rows alone. A file that names no version is of this one.
    First,
    /// Allow rows and deny rows.
    Second,
}
