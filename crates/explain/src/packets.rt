//! What is wrong with a packet's own fields.

use crate::scene::{Scene, begin, say};
use crate::texts::put_byte;
use aql_packet::KernelDispatch;
use executor::MOST_GROUP_ITEMS;
use std::alloc::AllocError;

// The two bytes of a packet's header, as a number.
fn header(bytes: &[u8; 64]) -> u16 {
    bytes[0] as u16 + bytes[1] as u16 * 256
}

/// A packet's type, and those that are run.
pub fn tell_type(out: &mut String, scene: &Scene<'_>, bytes: &[u8; 64]) -> Result<(), AllocError> {
    let kind = bytes[0];
    begin(out, scene)?;
    writeln!(
        out,
        "its first byte, the type, is {kind}, and has to be 2 kernel dispatch, 3 barrier-AND, 4 agent dispatch or 5 barrier-OR"
    )
}

/// The bits of a header that have to be zero, and its scopes.
pub fn tell_header(
    out: &mut String,
    scene: &Scene<'_>,
    bytes: &[u8; 64],
) -> Result<(), AllocError> {
    let header = header(bytes);
    if (header >> 13) % 8 != 0 {
        say(out, scene, "bits 15:13 of the header have to be zero")?;
    }
    if (header >> 9) % 4 == 3 {
        say(
            out,
            scene,
            "the acquire scope, bits 10:9 of the header, is 3, and has to be 0 none, 1 agent or 2 system",
        )?;
    }
    if (header >> 11) % 4 == 3 {
        say(
            out,
            scene,
            "the release scope, bits 12:11 of the header, is 3, and has to be 0 none, 1 agent or 2 system",
        )?;
    }
    Ok(())
}

// Whether packets of a type reserve a whole byte.
fn is_reserved(kind: u8, place: usize) -> bool {
    let behind = 48 <= place && place < 56;
    match kind {
        2 => behind || place == 3 || place == 10 || place == 11,
        4 => behind || (4 <= place && place < 8),
        _ => behind || (2 <= place && place < 8),
    }
}

// A byte that a packet's type reserves, and that isn't zero.
fn tell_byte(
    out: &mut String,
    scene: &Scene<'_>,
    place: usize,
    byte: u8,
) -> Result<(), AllocError> {
    begin(out, scene)?;
    write!(out, "byte {place} is ")?;
    put_byte(out, byte)?;
    out.push_str(", and packets of its type have zero there\n")
}

/// The bytes that a packet's type reserves and that aren't zero.
pub fn tell_reserved(
    out: &mut String,
    scene: &Scene<'_>,
    bytes: &[u8; 64],
) -> Result<(), AllocError> {
    let kind = bytes[0];
    if kind == 2 && bytes[2] >= 4 {
        say(
            out,
            scene,
            "bits 15:2 of the setup, bytes 2 and 3, have to be zero",
        )?;
    }
    for (place, byte) in bytes.iter().enumerate() {
        if *byte != 0 && is_reserved(kind, place) {
            tell_byte(out, scene, place, *byte)?;
        }
    }
    Ok(())
}

// What is wrong with the sizes in a dimension.
fn tell_dimension(
    out: &mut String,
    scene: &Scene<'_>,
    name: &str,
    is_used: bool,
    group: u16,
    grid: u32,
) -> Result<(), AllocError> {
    if group == 0 || grid == 0 {
        begin(out, scene)?;
        return writeln!(
            out,
            "in {name} the work-group has {group} items and the grid {grid}: both are 1 at least"
        );
    }
    if group as u32 > grid {
        begin(out, scene)?;
        return writeln!(
            out,
            "in {name} the work-group has {group} items and the grid only {grid}"
        );
    }
    if !is_used && (group != 1 || grid != 1) {
        begin(out, scene)?;
        return writeln!(
            out,
            "the packet doesn't use dimension {name}: work-group and grid have to be 1 there"
        );
    }
    Ok(())
}

// How many groups a grid has along a dimension.
fn groups(grid: u32, group: u16) -> u64 {
    if group == 0 || grid == 0 {
        return 0;
    }
    (grid as u64 - 1) / group as u64 + 1
}

// What is wrong with the sizes of a dispatch in all dimensions together.
fn tell_counts(
    out: &mut String,
    scene: &Scene<'_>,
    dispatch: &KernelDispatch,
) -> Result<(), AllocError> {
    let items = (dispatch.workgroup_size_x as u64)
        .saturating_mul(dispatch.workgroup_size_y as u64)
        .saturating_mul(dispatch.workgroup_size_z as u64);
    if items > MOST_GROUP_ITEMS {
        begin(out, scene)?;
        writeln!(
            out,
            "a work-group has {items} items, and may have {MOST_GROUP_ITEMS} at the most"
        )?;
    }
    let count = groups(dispatch.grid_size_x, dispatch.workgroup_size_x)
        .saturating_mul(groups(dispatch.grid_size_y, dispatch.workgroup_size_y))
        .saturating_mul(groups(dispatch.grid_size_z, dispatch.workgroup_size_z));
    if count > 4_294_967_295 {
        begin(out, scene)?;
        writeln!(
            out,
            "the grid has {count} work-groups or more, and may have 4294967295 at the most"
        )?;
    }
    Ok(())
}

/// What is wrong with the sizes of a dispatch.
pub fn tell_sizes(
    out: &mut String,
    scene: &Scene<'_>,
    dispatch: &KernelDispatch,
) -> Result<(), AllocError> {
    let used = dispatch.dimensions;
    if used == 0 {
        say(
            out,
            scene,
            "the packet has no dimensions, and 1 to 3 are asked for",
        )?;
    }
    tell_dimension(
        out,
        scene,
        "x",
        true,
        dispatch.workgroup_size_x,
        dispatch.grid_size_x,
    )?;
    tell_dimension(
        out,
        scene,
        "y",
        2 <= used,
        dispatch.workgroup_size_y,
        dispatch.grid_size_y,
    )?;
    tell_dimension(
        out,
        scene,
        "z",
        3 <= used,
        dispatch.workgroup_size_z,
        dispatch.grid_size_z,
    )?;
    tell_counts(out, scene, dispatch)
}
