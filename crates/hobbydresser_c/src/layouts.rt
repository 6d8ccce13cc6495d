//! Kernels as runtimes ask for them: how large their segments are, and their texts.

ghost use Rattle.std.specs.Prelude.{◌≡◌, false, true};
ghost use Rattle.core_model.specs.History.{beginning};
ghost use Rattle.core_model.specs.Kernels.{segments_of};
ghost use Rattle.policy.specs.Policy.{numbered, row_of};
ghost use Rattle.hobbydresser_c.specs.Buffers.{Fills};
ghost use Rattle.hobbydresser_c.specs.Calls.{IsNoted, WhereKnown, history_of, is_open};
ghost use Rattle.hobbydresser_c.specs.Layouts.{layout_told};
ghost use Rattle.hobbydresser_c.specs.Names.{policy_of};
ghost use Rattle.hobbydresser_c.specs.Statuses.{closed, no_such, ok};

use crate::broker::Broker;
use crate::buffers::fill;
use crate::status;
use aql_packet::KernelObject;

/// How large a kernel's segments are, `hd_layout` in C.
#[repr(C)]
#[derive(Clone, Copy)]
pub struct LayoutRecord {
    /// The bytes of its argument block.
    pub kernarg: u32,
    /// The bytes of its group variables.
    pub group: u32,
}

/// How large a kernel's segments are.
#[unsafe(no_mangle)]
pub extern "C" fn hd_kernel_layout(
    broker: &mut Broker,
    kernel: u32,
    layout: &mut LayoutRecord,
) -> u32
    ensures closed { is_open broker.old ≡ false → (result ≡ closed) × (layout.new ≡ layout.old) }
    ensures same { IsNoted broker.old broker.new }
    ensures met { is_open broker.old ≡ true → WhereKnown (numbered (beginning (history_of broker.old)).kernels kernel) ((result ≡ no_such) × (layout.new ≡ layout.old))
        (λ program. (result ≡ ok) × (layout.new ≡ layout_told (segments_of program))) }
{
    if !broker.called() {
        return status::CLOSED;
    }
    let core = &mut broker.pointer.session_mut().core;
    match core.program(KernelObject(kernel as u64)) {
        None => status::NO_SUCH,
        Some(program) => {
            *layout = LayoutRecord {
                kernarg: program.kernarg_bytes(),
                group: program.group_bytes(),
            };
            status::OK
        }
    }
}

/// The text of a kernel's module, and how many bytes it has.
#[unsafe(no_mangle)]
pub extern "C" fn hd_kernel_text(
    broker: &mut Broker,
    kernel: u32,
    out: &mut [u8],
    needed: &mut u64,
) -> u32
    ensures closed { is_open broker.old ≡ false → (result ≡ closed) × (out.new ≡ out.old) × (needed.new ≡ needed.old) }
    ensures same { IsNoted broker.old broker.new }
    ensures met { is_open broker.old ≡ true → WhereKnown (row_of (policy_of broker.old).kernels kernel)
        ((result ≡ no_such) × (out.new ≡ out.old) × (needed.new ≡ needed.old))
        (λ source. Fills source.text result out.old out.new needed.new) }
{
    if !broker.called() {
        return status::CLOSED;
    }
    let core = &mut broker.pointer.session_mut().core;
    match core.policy().kernel_source(KernelObject(kernel as u64)) {
        None => status::NO_SUCH,
        Some(source) => fill(source.text().as_bytes(), out, needed),
    }
}

/// The name in its module of the kernel that packets launch by a kernel's number, and how many bytes it has.
#[unsafe(no_mangle)]
pub extern "C" fn hd_kernel_entry(
    broker: &mut Broker,
    kernel: u32,
    out: &mut [u8],
    needed: &mut u64,
) -> u32
    ensures closed { is_open broker.old ≡ false → (result ≡ closed) × (out.new ≡ out.old) × (needed.new ≡ needed.old) }
    ensures same { IsNoted broker.old broker.new }
    ensures met { is_open broker.old ≡ true → WhereKnown (row_of (policy_of broker.old).kernels kernel)
        ((result ≡ no_such) × (out.new ≡ out.old) × (needed.new ≡ needed.old))
        (λ source. Fills source.entry result out.old out.new needed.new) }
{
    if !broker.called() {
        return status::CLOSED;
    }
    let core = &mut broker.pointer.session_mut().core;
    match core.policy().kernel_source(KernelObject(kernel as u64)) {
        None => status::NO_SUCH,
        Some(source) => fill(source.entry().as_bytes(), out, needed),
    }
}
