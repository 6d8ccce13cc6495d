//! What the launch rules ask of kernel dispatches beside the rights that they hold.

ghost use Rattle.std.specs.Prelude.{◌≡◌, ◌≤◌, ◌*◌, ◌^◌, nat_le, nat_lt, true};
ghost use Rattle.executor.specs.Locations as locations;
ghost use Rattle.policy.specs.Policy.{numbered};
ghost use Rattle.executor.specs.declared.limits.TheConstants.{MOST_GROUP_ITEMS};
ghost use Rattle.core_model.specs.Kernels.{grid_size, group_size};
ghost use Rattle.core_model.specs.LaunchRules as rules;
ghost use Rattle.packet_processor.specs.Judged.{facts_seen};

use crate::facts::Facts;
use crate::judging::is_met_or_none;
use crate::need_table::argument_need;
use aql_packet::{KernelDispatch, Packet};
use core_model::KernelSegments;
use executor::{MOST_GROUP_ITEMS, MOST_SEGMENT_BYTES, groups_along};

/// Whether the dimensions and sizes of a kernel dispatch are as they may be: 1 to 3 dimensions, at most
/// 1,024 work-items in a work-group, and fewer than 2^32 work-groups (PSA, Kernel Dispatch Packet; own
/// limits).
pub(crate) fn has_sizes(dispatch: &KernelDispatch) -> bool
    ensures { result ≡ rules.has_sizes dispatch.now }
{
    if !has_dimensions(dispatch) {
        return false;
    }
    has_few_items(dispatch) && has_few_groups(dispatch)
}

// Whether there are 1 to 3 dimensions, with sizes as each may have them.
fn has_dimensions(dispatch: &KernelDispatch) -> bool
    ensures { result ≡ rules.has_dimensions dispatch.now }
{
    let used = dispatch.dimensions;
    1 <= used
        && used <= 3
        && are_sizes(true, dispatch.workgroup_size_x, dispatch.grid_size_x)
        && are_sizes(2 <= used, dispatch.workgroup_size_y, dispatch.grid_size_y)
        && are_sizes(3 <= used, dispatch.workgroup_size_z, dispatch.grid_size_z)
}

// Whether the sizes in one dimension are as they may be; both are 1 in a dimension that isn't used.
fn are_sizes(is_used: bool, group: u16, grid: u32) -> bool
    ensures { result ≡ rules.are_sizes is_used group grid }
{
    1 <= group && 1 <= grid && group as u32 <= grid && (is_used || (group == 1 && grid == 1))
}

// Whether a work-group has no more work-items than it may.
fn has_few_items(dispatch: &KernelDispatch) -> bool
    ensures { result ≡ nat_le (locations.count_of (group_size dispatch.now)) MOST_GROUP_ITEMS }
{
    let layer = dispatch.workgroup_size_x as u64 * dispatch.workgroup_size_y as u64;
    layer * dispatch.workgroup_size_z as u64 <= MOST_GROUP_ITEMS
}

// Whether there are fewer than 2^32 work-groups.
fn has_few_groups(dispatch: &KernelDispatch) -> bool
    requires { rules.has_dimensions dispatch.now ≡ true }
    ensures { result ≡ nat_lt (locations.count_of (locations.groups_of (grid_size dispatch.now) (group_size dispatch.now))) (2 ^ 32) }
{
    let x = groups_along(dispatch.grid_size_x, u32::from(dispatch.workgroup_size_x));
    let y = groups_along(dispatch.grid_size_y, u32::from(dispatch.workgroup_size_y));
    let z = groups_along(dispatch.grid_size_z, u32::from(dispatch.workgroup_size_z));
    is_small_product(x, y, z)
}

// Whether a product is below 2^32.
fn is_small_product(x: u32, y: u32, z: u32) -> bool
    requires { 1 ≤ z }
    ensures { result ≡ nat_lt (x * y * z) (2 ^ 32) }
{
    let layer = x as u64 * y as u64;
    layer < 1 << 32 && layer * (z as u64) < 1 << 32
}

/// Whether a dispatch asks for as much group memory as its kernel's variables take, and for neither
/// segment more than there may be (own).
pub(crate) fn has_segments(facts: &Facts, packet: &Packet) -> bool
    ensures { result ≡ rules.has_segments (facts_seen facts.now) packet.now }
{
    match packet {
        Packet::Kernel(dispatch) => {
            fits_variables(facts, dispatch)
                && dispatch.group_segment_size <= MOST_SEGMENT_BYTES
                && dispatch.private_segment_size <= MOST_SEGMENT_BYTES
        }
        _ => true,
    }
}

// Whether a kernel's group variables have room in the group segment; an unknown kernel's don't.
fn fits_variables(facts: &Facts, dispatch: &KernelDispatch) -> bool
    ensures { result ≡ rules.kernel_passes (facts_seen facts.now) dispatch.now (λ kernel. nat_le kernel.group dispatch.now.group_segment_size) }
{
    match segments_named(facts, dispatch) {
        Some(kernel) => kernel.group <= dispatch.group_segment_size,
        None => false,
    }
}

/// Whether the argument block of a kernel dispatch lies whole in a region that may be read; an empty one
/// lies anywhere (own).
pub(crate) fn has_arguments(facts: &Facts, packet: &Packet) -> bool
    ensures { result ≡ rules.has_arguments (facts_seen facts.now) packet.now }
{
    match packet {
        Packet::Kernel(dispatch) => match segments_named(facts, dispatch) {
            Some(kernel) => is_met_or_none(facts, &argument_need(dispatch, kernel.kernarg)),
            None => false,
        },
        _ => true,
    }
}

// The segments of the kernel that a dispatch names, if there is one of its number.
fn segments_named(facts: &Facts, dispatch: &KernelDispatch) -> Option<KernelSegments>
    ensures { result ≡ numbered facts.now.kernels.now dispatch.now.kernel_object.0 }
{
    let number = dispatch.kernel_object.0;
    if number == 0 {
        return None;
    }
    facts.kernels.get((number - 1) as usize).copied()
}
