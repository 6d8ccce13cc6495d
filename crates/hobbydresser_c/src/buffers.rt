//! Bytes go into a caller's buffer.

ghost use Rattle.hobbydresser_c.specs.Buffers.{Fills};

use crate::status;

/// Puts bytes into a buffer, and tells how many they are. A buffer that is too short is left alone.
pub fn fill(bytes: &[u8], out: &mut [u8], needed: &mut u64) -> u32
    ensures { Fills bytes.now result out.old out.new needed.new }
{
    *needed = bytes.len() as u64;
    if bytes.len() > out.len() {
        return status::TOO_SHORT;
    }
    out[..bytes.len()].copy_from_slice(bytes);
    status::OK
}
