//! Policies: what exists, and which rights may be granted to whom.

// The check tries its tactics on what is left of each proof.
#![tactic(auto)]

mod coverage;
mod fault;
mod kernel_source;
mod key;
mod laws;
mod limits;
mod object;
mod policy;
mod read;
mod rights;
mod row;
mod rows;
mod table;
mod version;

pub use fault::{PolicyCause, PolicyFault, ReadPolicyError, Section};
pub use kernel_source::KernelSource;
pub use key::Key;
pub use laws::{law_faults_are_first, law_numbers_are_those_of_the_rules};
pub use limits::{
    MOST_AGENTS, MOST_ALLOW_ROWS, MOST_CLIENTS, MOST_DENY_ROWS, MOST_KERNELS, MOST_MEMORY_BYTES,
    MOST_NAME_BYTES, MOST_POLICY_BYTES, MOST_SIGNALS,
};
pub use object::{Kind, Object};
pub use policy::Policy;
pub use read::read_policy;
pub use rights::{Right, Rights};
pub use row::{Grantee, RightsRow, TAKES_NOTHING, Takes, Target};
pub use rows::PolicyRows;
pub use version::Version;
