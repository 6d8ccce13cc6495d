//! Where the arguments of a kernel lie in its block, and its group variables in group memory.

ghost use Rattle.std.specs.Prelude.{◌≡◌, ◌<◌, ◌≤◌, ◌+◌, max};
ghost use Rattle.kernel_check.specs.Layout.{kind_bytes, boundary_of, placed_at, end_behind, is_wide, next_multiple, group_placed, group_end_behind};
ghost use Rattle.kernel_check.specs.inner.Laid.{within};
ghost use Rattle.hsail_reader.specs.Types.{alignment_bytes};
ghost use Rattle.kernel_check.specs.declared.limits.TheConstants.{MAX_ARGUMENT_BYTES, MAX_GROUP_BYTES};

use crate::limits::MAX_GROUP_BYTES;
use hsail_reader::{Alignment, Argument, DataType, GroupVariable, Segment};

/// A variable at its place: its segment, its type, and how many bytes stand before it there.
#[derive(Clone, Copy, Debug)]
pub struct Placed {
    pub segment: Segment,
    pub kind: DataType,
    pub offset: u32,
}

/// How many bytes a value of a type takes in memory: 1, 2, 4 or 8.
pub fn bytes(kind: DataType) -> u32
    ensures value { result ≡ kind_bytes kind }
    ensures least { 1 ≤ result }
    ensures most { result ≤ 8 }
{
    match kind {
        DataType::B1 | DataType::B8 | DataType::U8 | DataType::S8 => 1,
        DataType::B16 | DataType::U16 | DataType::S16 => 2,
        DataType::B32 | DataType::U32 | DataType::S32 => 4,
        DataType::B64 | DataType::U64 | DataType::S64 => 8,
    }
}

/// Whether a value of a type has 64 bits.
pub fn wide(kind: DataType) -> bool
    ensures { result ≡ is_wide kind }
{
    matches!(kind, DataType::B64 | DataType::U64 | DataType::S64)
}

/// The number of which a variable's offset is a multiple: its natural alignment, or its `align` if
/// that is larger.
fn boundary(kind: DataType, align: Option<Alignment>) -> u32
    ensures value { result ≡ boundary_of kind align }
    ensures least { 1 ≤ result }
    ensures most { result ≤ 16 }
{
    let natural = bytes(kind);
    match align {
        None => natural,
        Some(align) => larger(natural, align),
    }
}

/// The larger of a natural alignment and an `align`.
fn larger(natural: u32, align: Alignment) -> u32
    requires least { 1 ≤ natural }
    requires most { natural ≤ 8 }
    ensures value { result ≡ max natural (alignment_bytes align) }
    ensures least { 1 ≤ result }
    ensures most { result ≤ 16 }
{
    let align = match align {
        Alignment::One => 1,
        Alignment::Two => 2,
        Alignment::Four => 4,
        Alignment::Eight => 8,
        Alignment::Sixteen => 16,
    };
    natural.max(align)
}

/// The next multiple of a variable's boundary.
fn offset_behind(end: u32, kind: DataType, align: Option<Alignment>) -> u32
    requires { end ≤ MAX_GROUP_BYTES }
    ensures value { result ≡ next_multiple end (boundary_of kind align) }
    ensures bound { result < end + 16 }
{
    let boundary = boundary(kind, align);
    (end + (boundary - 1)) / boundary * boundary
}

/// An argument behind these many bytes.
pub fn place_behind(end: u32, argument: &Argument) -> Placed
    requires { end ≤ MAX_ARGUMENT_BYTES }
    ensures value { result ≡ placed_at end argument.now }
    ensures bound { result.offset < 8192 }
{
    Placed {
        segment: Segment::Kernarg,
        kind: argument.kind,
        offset: offset_behind(end, argument.kind, argument.align),
    }
}

/// Where an argument ends that lies behind these many bytes.
pub fn end(before: u32, argument: &Argument) -> u32
    requires { before ≤ MAX_ARGUMENT_BYTES }
    ensures { result ≡ end_behind before argument.now }
{
    place_behind(before, argument).offset + bytes(argument.kind)
}

/// A group variable behind these many bytes.
pub fn place_group(end: u32, variable: &GroupVariable) -> Placed
    requires { end ≤ MAX_GROUP_BYTES }
    ensures value { result ≡ group_placed end variable.now }
    ensures bound { result.offset < end + 16 }
{
    Placed {
        segment: Segment::Group,
        kind: variable.kind,
        offset: offset_behind(end, variable.kind, variable.align),
    }
}

/// Where a group variable ends that lies behind these many bytes, unless it is past 65,536 bytes.
pub fn group_end(before: u32, variable: &GroupVariable) -> Option<u32>
    requires { before ≤ MAX_GROUP_BYTES }
    ensures { result ≡ within MAX_GROUP_BYTES (group_end_behind before variable.now) }
{
    let length = variable.length.unwrap_or(1);
    if length > MAX_GROUP_BYTES as u64 {
        return None;
    }
    let end = place_group(before, variable).offset + bytes(variable.kind) * length as u32;
    if end > MAX_GROUP_BYTES {
        return None;
    }
    Some(end)
}
