//! Why a journal can't be read.

/// Why a line isn't the head of a journal over some policies.
#[derive(Clone, Copy, Debug, PartialEq, Eq, thiserror::Error)]
pub enum HeadFault {
    /// It has another digest than that of its own text, or none.
    #[error("the line has another digest")]
    OtherDigest,
    /// It is the head of no journal of this version.
    #[error("no head of a journal")]
    NoHead,
    /// It tells other policies, or more or fewer of them.
    #[error("the journal is of other policies")]
    OtherPolicies,
}

/// Why a line isn't that of a journal's next entry.
#[derive(Clone, Copy, Debug, PartialEq, Eq, thiserror::Error)]
pub enum LineCause {
    /// It is too short to have a digest.
    #[error("the line has no digest")]
    NoDigest,
    /// It has another digest than that of the line before and of its own text.
    #[error("the line has another digest")]
    OtherDigest,
    /// It doesn't begin with the number of the next entry.
    #[error("not the number of the next entry")]
    OtherNumber,
    /// What stands behind its number is no entry.
    #[error("no entry")]
    NoEntry,
}

/// Why a line isn't that of a journal's next entry, and where.
#[derive(Clone, Copy, Debug, PartialEq, Eq)]
pub struct LineFault {
    pub cause: LineCause,
    /// At which byte of the line, from 1.
    pub column: usize,
}
