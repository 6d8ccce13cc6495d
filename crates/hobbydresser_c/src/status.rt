//! What calls answer: a status.

ghost use Rattle.std.specs.Prelude.{◌≡◌};
ghost use Rattle.hobbydresser_c.specs.Statuses.{status_of_cause, status_of_check, status_of_read, status_of_refusal};

use core_model::Refusal;
use hsail_reader::ReadCause;
use kernel_check::CheckCause;
use policy::PolicyCause;

/// The call was made.
pub const OK: u32 = 0;
/// Memory was wanted and not to be had.
pub const OUT_OF_MEMORY: u32 = 1;
/// A right was lacking.
pub const DENIED: u32 = 4;
/// The broker isn't open.
pub const CLOSED: u32 = 401;
/// The broker is open already.
pub const OPEN_ALREADY: u32 = 402;
/// A kernel of the policy has no entry of its name.
pub const NO_ENTRY: u32 = 403;
/// The audit has 1 to 1,048,576 places.
pub const BAD_PLACES: u32 = 404;
/// A number for which nothing stands: a kind, a set of rights, a change, a condition, or one of those that are asked for.
pub const NO_SUCH: u32 = 405;
/// A buffer is too short.
pub const TOO_SHORT: u32 = 406;

/// There isn't one kernel for each of the policy's.
pub const OTHER_KERNELS: u32 = 407;

/// The status of a refusal of the core.
pub fn of_refusal(why: Refusal) -> u32
    ensures { result ≡ status_of_refusal why }
{
    why.number() as u32 + 1
}

/// The status of what is wrong with a policy.
pub fn of_cause(cause: PolicyCause) -> u32
    ensures { result ≡ status_of_cause cause }
{
    cause.number() as u32 + 100
}

/// The status of what is wrong with a kernel's text.
pub fn of_read(cause: ReadCause) -> u32
    ensures { result ≡ status_of_read cause }
{
    cause.number() as u32 + 200
}

/// The status of what is wrong with a kernel's module.
pub fn of_check(cause: CheckCause) -> u32
    ensures { result ≡ status_of_check cause }
{
    cause.number() as u32 + 300
}
