//! What a broker's handle stands for.

use crate::last_call::LastCall;
use access_core::AccessCore;

/// What a broker's handle stands for: a core, the digest of the text that it was opened with, and what is kept of the
/// last call.
#[derive(Drop)]
pub struct Session {
    /// The core.
    pub core: AccessCore,
    /// The digest of the text of its policy (FIPS 180-4, SHA-256).
    pub digest: [u8; 32],
    /// The last call of all but those that ask for what one left or lacked.
    pub last: LastCall,
}
