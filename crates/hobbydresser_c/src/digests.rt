//! Digests of texts.

ghost use Rattle.std.specs.Prelude.{◌≡◌};
ghost use Rattle.sha2.specs.Sha256.{sha256};
ghost use Rattle.hobbydresser_c.specs.Statuses.{ok};

use crate::status;
use sha2::{Digest, Sha256};

/// A digest, `hd_digest` in C.
#[repr(C)]
#[derive(Clone, Copy)]
pub struct DigestRecord {
    pub bytes: [u8; 32],
}

/// The digest of a text (FIPS 180-4, SHA-256).
pub fn digest_of(text: &[u8]) -> [u8; 32]
    ensures { result ≡ sha256 text.now }
{
    let mut hasher = Sha256::new();
    hasher.update(text);
    hasher.finalize()
}

/// The digest of a text (FIPS 180-4, SHA-256), for the head of a journal.
#[unsafe(no_mangle)]
pub extern "C" fn hd_digest_of(text: &[u8], digest: &mut DigestRecord) -> u32
    ensures status { result ≡ ok }
    ensures digest { digest.new.bytes ≡ sha256 text.now }
{
    let bytes = digest_of(text);
    *digest = DigestRecord { bytes };
    status::OK
}
