//! Which registers a kernel sets.
ghost use Rattle.std.specs.Prelude.{◌≡◌, true};
ghost use Rattle.std.specs.List.{list_all};
ghost use Rattle.kernel_check.specs.Steps.{number_in, sets};
ghost use Rattle.executor.specs.inner.Few.{is_low};

use kernel_check::{AnyRegister, RegisterNumber, Step};

/// The number of a register in its class.
#[inline(always)]
fn number_in(register: AnyRegister) -> RegisterNumber
    ensures { result ≡ number_in register }
{
    match register {
        AnyRegister::Control(number) => number,
        AnyRegister::Single(number) => number,
        AnyRegister::Double(number) => number,
    }
}

/// The number of the register that a step sets.
#[inline(always)]
fn set_by(step: &Step) -> Option<RegisterNumber>
    ensures { result ≡ sets step.now }
{
    match step {
        Step::Control(s) => Some(s.target),
        Step::Single(s) => Some(s.target),
        Step::Double(s) => Some(s.target),
        Step::Convert(s) => Some(number_in(s.target)),
        Step::Argument(s) => Some(number_in(s.target)),
        Step::Load(s) => Some(number_in(s.target)),
        Step::LoadGroup(s) => Some(number_in(s.target)),
        Step::Atomic32(s) => s.target,
        Step::Atomic64(s) => s.target,
        Step::WorkItemQuery(s) => Some(number_in(s.target)),
        Step::Store(_)
        | Step::StoreGroup(_)
        | Step::Branch(_)
        | Step::ConditionalBranch(_)
        | Step::Return
        | Step::Barrier => None,
    }
}

/// Whether a step sets none but the first eight registers of each class.
#[inline(always)]
fn sets_low(step: &Step) -> bool
    ensures { result ≡ is_low (sets step.now) }
{
    match set_by(step) {
        None => true,
        Some(number) => number.index() < 8,
    }
}

/// Whether steps set no others.
pub fn set_few(steps: &[Step]) -> bool
    ensures { result ≡ list_all (λ s. is_low (sets s)) steps.now }
{
    'each: for step in steps {
        if !sets_low(step) {
            return false;
        }
    }
    true
}
