//! The policies of a journal.

use access_core::Kernel;
use commands::{Failure, PolicyText};
use policy::Policy;
use replay::Replay;
use sequences::Sequence;
use sha2::{Digest, Sha256};
use std::alloc::{AllocError, Global};

/// The policies that a journal is read over: a replay in which nothing has happened yet, and the digests of their texts.
#[derive(Drop)]
pub struct JournalPolicies {
    pub(crate) replay: Replay,
    pub(crate) digests: Sequence<[u8; 32]>,
}

// The digest of a policy's text.
fn digest_of(text: &[u8]) -> [u8; 32] {
    let mut hasher = Sha256::new();
    hasher.update(text);
    hasher.finalize()
}

/// The digests of the policies of a journal: of the one that the core is opened with, and of the further ones in order.
pub fn digests_of(
    alloc: Global,
    text: &[u8],
    further: &[PolicyText],
) -> Result<Sequence<[u8; 32]>, AllocError> {
    let mut digests = Sequence::new(alloc);
    digests.push(digest_of(text))?;
    for policy in further {
        digests.push(digest_of(policy.bytes()))?;
    }
    Ok(digests)
}

// Opens a replay over policies.
fn open_replay(
    alloc: Global,
    policy: Policy,
    kernels: Vec<Kernel>,
    later: Vec<Policy>,
) -> Result<Replay, Failure> {
    match Replay::open(alloc, policy, kernels, Sequence::from_vec(later)) {
        Ok(replay) => Ok(replay),
        Err(why) => Err(Failure::of_opening(why)),
    }
}

impl JournalPolicies {
    /// A policy that was read, with its kernels, and the further ones after it, beside the texts that they were read from.
    pub fn open(
        alloc: Global,
        text: &[u8],
        further: &[PolicyText],
        policy: Policy,
        kernels: Vec<Kernel>,
        later: Vec<Policy>,
    ) -> Result<JournalPolicies, Failure> {
        let replay = open_replay(alloc, policy, kernels, later)?;
        match digests_of(alloc, text, further) {
            Ok(digests) => Ok(JournalPolicies { replay, digests }),
            Err(_) => Err(Failure::OutOfMemory),
        }
    }
}
