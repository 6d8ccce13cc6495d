//! What is wrong with a policy file.

ghost use Rattle.std.specs.Prelude.{◌≡◌, Some};
ghost use Rattle.policy.specs.declared.fault.RowError.TheVariants as row;
ghost use Rattle.policy.specs.declared.fault.ReadPolicyError.TheVariants as file;

use crate::key::Key;
use std::alloc::{AllocError, AllocFailed};
use std::fmt;

/// The array of a policy file in which a fault lies.
#[derive(Clone, Copy, Debug, PartialEq, Eq)]
pub enum Section {
    /// The clients.
    Client,
    /// The agents.
    Agent,
    /// The regions.
    Region,
    /// The signals.
    Signal,
    /// The kernels.
    Kernel,
    /// The allow rows.
    Allow,
    /// The deny rows.
    Deny,
}

impl Section {
    ghost use Rattle.policy.specs.SectionNames.{name_of_section};
    ghost use Rattle.policy.specs.Reading.{fault_in, fault_of_array};

    /// The arrays, in the order in which they are read.
    pub const ALL: [Section; 7] = [
        Section::Client,
        Section::Agent,
        Section::Region,
        Section::Signal,
        Section::Kernel,
        Section::Allow,
        Section::Deny,
    ];

    /// The array's key in the file.
    pub fn name(self) -> &'static str
        ensures { result.now ≡ name_of_section self }
    {
        match self {
            Section::Client => "client",
            Section::Agent => "agent",
            Section::Region => "region",
            Section::Signal => "signal",
            Section::Kernel => "kernel",
            Section::Allow => "allow",
            Section::Deny => "deny",
        }
    }

    // A fault of the array as a whole.
    pub(crate) fn fault(self, cause: PolicyCause) -> PolicyFault
        ensures { result ≡ fault_of_array self cause }
    {
        PolicyFault {
            cause,
            kind: Some(self),
            row: 0,
            key: None,
        }
    }

    // A fault in a row of the array.
    pub(crate) fn fault_in(self, row: u32, fault: RowFault) -> PolicyFault
        ensures { result ≡ fault_in self row fault }
    {
        PolicyFault {
            cause: fault.cause,
            kind: Some(self),
            row,
            key: fault.key,
        }
    }
}

/// Why a policy file is refused.
#[derive(Clone, Copy, Debug, PartialEq, Eq)]
pub enum PolicyCause {
    /// The file isn't UTF-8 text in TOML.
    NotToml,
    /// A row lacks a key.
    MissingKey,
    /// A key that isn't known, or a value that isn't right for its key.
    BadValue,
    /// An allow row or a deny row names a client or an object that isn't declared.
    UnknownName,
    /// A row has the name of an earlier row of its array.
    DoubleName,
    /// The file is too long, an array has too many rows, or the regions are too long together.
    TooMany,
}

impl PolicyCause {
    ghost use Rattle.policy.specs.FaultTexts.{number_of_cause, name_of_cause};

    /// The cause's number.
    pub fn number(self) -> u8
        ensures { result ≡ number_of_cause self }
    {
        match self {
            PolicyCause::NotToml => 1,
            PolicyCause::MissingKey => 2,
            PolicyCause::BadValue => 3,
            PolicyCause::UnknownName => 4,
            PolicyCause::DoubleName => 5,
            PolicyCause::TooMany => 6,
        }
    }

    /// The cause's name.
    pub fn name(self) -> &'static str
        ensures { result.now ≡ name_of_cause self }
    {
        match self {
            PolicyCause::NotToml => "NotToml",
            PolicyCause::MissingKey => "MissingKey",
            PolicyCause::BadValue => "BadValue",
            PolicyCause::UnknownName => "UnknownName",
            PolicyCause::DoubleName => "DoubleName",
            PolicyCause::TooMany => "TooMany",
        }
    }
}

/// A fault of a policy file: the first, in the order in which the format looks for them.
#[derive(Clone, Copy, Debug, PartialEq, Eq, thiserror::Error)]
pub struct PolicyFault {
    /// What is wrong.
    pub cause: PolicyCause,
    /// The array in which it lies; none for a fault before the arrays.
    pub kind: Option<Section>,
    /// The row in which it lies, from 1; 0 for a fault of the array as a whole, or before the arrays.
    pub row: u32,
    /// The key at which it lies. None for a fault of the file or an array as a whole, and in a row or the file for a
    /// key that isn't known.
    pub key: Option<Key>,
}

impl PolicyFault {
    ghost use Rattle.policy.specs.Reading.{fault_of_file, fault_of_version, fault_of_lengths};

    // A fault before the arrays.
    pub(crate) fn of_file(cause: PolicyCause) -> PolicyFault
        ensures { result ≡ fault_of_file cause }
    {
        PolicyFault {
            cause,
            kind: None,
            row: 0,
            key: None,
        }
    }

    // A wrong version.
    pub(crate) fn of_version() -> PolicyFault
        ensures { result ≡ fault_of_version }
    {
        PolicyFault {
            key: Some(Key::Version),
            ..PolicyFault::of_file(PolicyCause::BadValue)
        }
    }

    // Regions that are too long together.
    pub(crate) fn of_lengths() -> PolicyFault
        ensures { result ≡ fault_of_lengths }
    {
        PolicyFault {
            key: Some(Key::Length),
            ..Section::Region.fault(PolicyCause::TooMany)
        }
    }
}

/// It prints as `4 UnknownName allow 7`, and before the arrays as `1 NotToml`.
impl fmt::Display for PolicyFault {
    ghost use Rattle.policy.specs.FaultTexts.{text_of_fault};

    ghost output = { λ fault. Some (text_of_fault fault) };

    fn fmt<W: fmt::Write>(&self, f: &mut fmt::Formatter<W>) -> fmt::Result {
        write!(f, "{} {}", self.cause.number(), self.cause.name())?;
        match self.kind {
            None => Ok(()),
            Some(section) => write!(f, " {} {}", section.name(), self.row),
        }
    }
}

/// Why a policy isn't read.
#[derive(Clone, Copy, Debug, PartialEq, Eq, thiserror::Error)]
pub enum ReadPolicyError {
    /// There was no memory for it.
    #[error("out of memory")]
    OutOfMemory,
    /// The file has a fault.
    #[error("{0}")]
    Fault(PolicyFault),
}

// What is wrong with a row, and the key at which it lies; none for a key that isn't known.
#[derive(Clone, Copy)]
pub struct RowFault {
    pub cause: PolicyCause,
    pub key: Option<Key>,
}

impl RowFault {
    ghost use Rattle.policy.specs.Reading.{fault_at_none};

    // A fault at none of the keys that the row's array has.
    pub(crate) fn at_none(cause: PolicyCause) -> RowFault
        ensures { result ≡ fault_at_none cause }
    {
        RowFault { cause, key: None }
    }
}

impl Key {
    ghost use Rattle.policy.specs.Reading.{fault_at};

    // A fault at the key.
    pub(crate) fn fault(self, cause: PolicyCause) -> RowFault
        ensures { result ≡ fault_at self cause }
    {
        RowFault {
            cause,
            key: Some(self),
        }
    }
}

// Why a row isn't read.
#[derive(Clone, Copy)]
pub enum RowError {
    // There was no memory for it.
    OutOfMemory,
    // It has a fault.
    Fault(RowFault),
}

impl From<RowFault> for RowError {
    ghost from_gives = { λ fault error. error ≡ row.Fault fault };

    fn from(fault: RowFault) -> RowError {
        RowError::Fault(fault)
    }
}

impl From<AllocError> for RowError {
    ghost from_gives = { λ _ error. error ≡ row.OutOfMemory };

    fn from(_error: AllocError) -> RowError {
        RowError::OutOfMemory
    }
}

impl From<PolicyFault> for ReadPolicyError {
    ghost from_gives = { λ fault error. error ≡ file.Fault fault };

    fn from(fault: PolicyFault) -> ReadPolicyError {
        ReadPolicyError::Fault(fault)
    }
}

impl From<AllocError> for ReadPolicyError {
    ghost from_gives = { λ _ error. error ≡ file.OutOfMemory };

    fn from(_error: AllocError) -> ReadPolicyError {
        ReadPolicyError::OutOfMemory
    }
}

impl<T: Drop> From<AllocFailed<T>> for ReadPolicyError {
    ghost from_gives = { λ _ error. error ≡ file.OutOfMemory };

    fn from(_error: AllocFailed<T>) -> ReadPolicyError {
        ReadPolicyError::OutOfMemory
    }
}
