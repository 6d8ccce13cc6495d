//! Where the arguments of a kernel lie in its block (PRM, Kernarg Segment).

ghost use Rattle.std.specs.Prelude.{◌≡◌, ◌<◌, ◌≤◌, ◌+◌, max};
ghost use Rattle.hsail_reader.specs.Types.{alignment_bytes};
ghost use Rattle.kernel_check.specs.Layout.{boundary_of, end_behind, kind_bytes, next_multiple};
ghost use Rattle.assemble.specs.Blocks.{place_of};

use hsail_reader::{Alignment, Argument, DataType};

/// An argument's place in the block: its type, and how many bytes stand before it.
#[derive(Clone, Copy, Debug, PartialEq, Eq)]
pub struct ArgumentPlace {
    pub kind: DataType,
    pub offset: u32,
}

/// How many bytes a value of a type takes: 1, 2, 4 or 8.
pub fn bytes(kind: DataType) -> u32
    ensures value { result ≡ kind_bytes kind }
    ensures least { 1 ≤ result }
    ensures most { result ≤ 8 }
{
    match kind {
        DataType::B1 | DataType::B8 | DataType::U8 | DataType::S8 => 1,
        DataType::B16 | DataType::U16 | DataType::S16 => 2,
        DataType::B32 | DataType::U32 | DataType::S32 => 4,
        DataType::B64 | DataType::U64 | DataType::S64 => 8,
    }
}

// The larger of a natural alignment and an `align`.
fn larger(natural: u32, align: Alignment) -> u32
    requires least { 1 ≤ natural }
    requires most { natural ≤ 8 }
    ensures value { result ≡ max natural (alignment_bytes align) }
    ensures least { 1 ≤ result }
    ensures most { result ≤ 16 }
{
    let align = match align {
        Alignment::One => 1,
        Alignment::Two => 2,
        Alignment::Four => 4,
        Alignment::Eight => 8,
        Alignment::Sixteen => 16,
    };
    natural.max(align)
}

// The number of which an argument's offset is a multiple.
fn boundary(kind: DataType, align: Option<Alignment>) -> u32
    ensures value { result ≡ boundary_of kind align }
    ensures least { 1 ≤ result }
    ensures most { result ≤ 16 }
{
    match align {
        None => bytes(kind),
        Some(align) => larger(bytes(kind), align),
    }
}

// The next multiple of an argument's boundary.
fn offset_behind(end: u32, kind: DataType, align: Option<Alignment>) -> u32
    requires { end ≤ 4096 }
    ensures value { result ≡ next_multiple end (boundary_of kind align) }
    ensures bound { result < end + 16 }
{
    let boundary = boundary(kind, align);
    (end + (boundary - 1)) / boundary * boundary
}

/// The place of an argument behind these many bytes.
pub fn place_behind(end: u32, argument: &Argument) -> ArgumentPlace
    requires { end ≤ 4096 }
    ensures value { result ≡ place_of end argument.now }
    ensures bound { result.offset < 8192 }
{
    ArgumentPlace {
        kind: argument.kind,
        offset: offset_behind(end, argument.kind, argument.align),
    }
}

/// Where an argument ends that lies behind these many bytes.
pub fn end_of(end: u32, argument: &Argument) -> u32
    requires { end ≤ 4096 }
    ensures { result ≡ end_behind end argument.now }
{
    place_behind(end, argument).offset + bytes(argument.kind)
}
