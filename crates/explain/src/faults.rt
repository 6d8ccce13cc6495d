//! Why a packet failed at its work.

use crate::failed::{Flown, flown_of, seen_before};
use crate::kernel_texts::{line_of, put_kernel, put_marked};
use crate::lacks::{Lack, was_in_force};
use crate::rings::dependencies;
use crate::scene::{Mended, Scene, begin, say, tell_anew, tell_lacks};
use crate::texts::{put_address, put_client, put_object};
use aql_packet::{Address, KernelDispatch, Packet, REGION_SPAN, SignalHandle};
use byteorder::{ByteOrder, LittleEndian};
use core_model::{Effect, Entry, Opening, Origin, Satisfied};
use kernel_check::{AtomicPointer, NumberType, Program, Step};
use policy::{Object, Right};
use queue_error::{FaultPlace, QueueError, Rule, SegmentAddress};
use std::alloc::{AllocError, Global};

/// What an instruction does to memory.
#[derive(Clone, Copy)]
enum Reach {
    /// It loads from a region.
    Load(u32),
    /// It stores to a region.
    Store(u32),
    /// It does both at once.
    Atomic(u32),
    /// It works in group memory.
    Group(u32),
    /// It works in none.
    None,
}

// How many bytes a number of a type has in memory.
fn size_of(kind: NumberType) -> u32 {
    match kind {
        NumberType::B1 => 1,
        NumberType::U8 | NumberType::S8 => 1,
        NumberType::U16 | NumberType::S16 => 2,
        NumberType::U32 | NumberType::S32 => 4,
        NumberType::U64 | NumberType::S64 => 8,
    }
}

// What an atomic operation works on.
fn atomic(pointer: &AtomicPointer, size: u32) -> Reach {
    match pointer {
        AtomicPointer::Global(_) => Reach::Atomic(size),
        AtomicPointer::Group(_) => Reach::Group(size),
    }
}

// What a step does to memory.
fn reach_of(step: &Step) -> Reach {
    match step {
        Step::Load(step) => Reach::Load(size_of(step.kind)),
        Step::Store(step) => Reach::Store(size_of(step.kind)),
        Step::LoadGroup(step) => Reach::Group(size_of(step.kind)),
        Step::StoreGroup(step) => Reach::Group(size_of(step.kind)),
        Step::Atomic32(step) => atomic(&step.pointer, 4),
        Step::Atomic64(step) => atomic(&step.pointer, 8),
        _ => Reach::None,
    }
}

// Whether an instruction works in the segment of an address; in any, where there is no address.
fn works_at(reach: Reach, address: Option<SegmentAddress>) -> bool {
    let in_group = match reach {
        Reach::None => return false,
        Reach::Group(_) => true,
        _ => false,
    };
    match address {
        Some(SegmentAddress::Global(_)) => !in_group,
        Some(SegmentAddress::Group(_)) => in_group,
        None => true,
    }
}

// What the instruction at a place does to memory: the first of its line that works in the segment of its address.
fn reach_at(program: &Program, place: FaultPlace) -> Reach {
    for (step, of) in program.steps().iter().zip(program.lines().iter()) {
        let reach = reach_of(step);
        if *of == place.line && works_at(reach, place.address) {
            return reach;
        }
    }
    Reach::None
}

// The rights that an access wants.
fn wanted(reach: Reach) -> (bool, bool) {
    match reach {
        Reach::Load(_) => (true, false),
        Reach::Store(_) => (false, true),
        Reach::Atomic(_) => (true, true),
        _ => (false, false),
    }
}

// Where a group's work broke a rule: its kernel, the line's text and a mark.
fn tell_place(
    out: &mut String,
    scene: &Scene<'_>,
    dispatch: &KernelDispatch,
    rule: Rule,
    place: FaultPlace,
) -> Result<(), AllocError> {
    let item = place.item;
    let group = place.group;
    let line = place.line;
    begin(out, scene)?;
    write!(
        out,
        "item {item} of group {group} breaks {rule} in line {line} of "
    )?;
    put_kernel(out, scene.policy, dispatch.kernel_object)?;
    out.push_str(":\n")?;
    match scene.policy.kernel_source(dispatch.kernel_object) {
        Some(source) => put_marked(out, line_of(source.text().as_bytes(), line)),
        None => Ok(()),
    }
}

// The word behind a number of bytes.
fn bytes_word(size: u32) -> &'static str {
    if size == 1 { "byte" } else { "bytes" }
}

// Where an access takes place, if its address is told.
fn put_at(out: &mut String, word: &str, address: Option<SegmentAddress>) -> Result<(), AllocError> {
    match address {
        Some(SegmentAddress::Global(address)) => {
            out.push_str(word)?;
            put_address(out, address)
        }
        Some(SegmentAddress::Group(offset)) => write!(out, " at byte {offset}"),
        None => Ok(()),
    }
}

// What an access of so many bytes is, and where it takes place.
fn put_access(
    out: &mut String,
    reach: Reach,
    address: Option<SegmentAddress>,
) -> Result<(), AllocError> {
    let (size, word) = match reach {
        Reach::Load(size) => (size, " from "),
        Reach::Store(size) => (size, " to "),
        Reach::Atomic(size) | Reach::Group(size) => (size, " at "),
        Reach::None => return out.push_str("an instruction"),
    };
    let bytes = bytes_word(size);
    match reach {
        Reach::Load(_) => write!(out, "a load of {size} {bytes}")?,
        Reach::Store(_) => write!(out, "a store of {size} {bytes}")?,
        Reach::Atomic(_) => write!(out, "an atomic operation on {size} {bytes}")?,
        _ => write!(out, "an access to {size} {bytes} of group memory")?,
    }
    put_at(out, word, address)
}

// Which rights an access wants.
fn put_wanted(out: &mut String, reach: Reach) -> Result<(), AllocError> {
    out.push_str(match wanted(reach) {
        (true, true) => ", which wants READ and WRITE",
        (true, false) => ", which wants READ",
        (false, true) => ", which wants WRITE",
        (false, false) => "",
    })
}

// A region between two texts.
fn put_about(
    out: &mut String,
    scene: &Scene<'_>,
    before: &str,
    region: Object,
    behind: &str,
) -> Result<(), AllocError> {
    out.push_str(before)?;
    put_object(out, scene.policy, region)?;
    out.push_str(behind)
}

// Whether the packet's client had a right at the launch, on a region into which an argument points.
fn had(launch: &Launch<'_>, region: Object, right: Right) -> bool {
    let client = launch.opening.client;
    match launch.flown {
        Flown::Since(found) => was_in_force(launch.start, found.before, client, region, right),
        Flown::Before(packet) => packet.holds(client, region, right),
    }
}

// Whether the packet holds a right on the region in which an access begins: the client had it at the launch, and an
// argument points into the region.
fn is_held(launch: &Launch<'_>, region: Object, right: Right) -> bool {
    launch.is_pointed && had(launch, region, right)
}

// The first right that an access wants and that the packet doesn't hold on the region in which it begins.
fn missing(launch: &Launch<'_>, region: Object) -> Option<Right> {
    let (reads, writes) = wanted(launch.reach);
    if reads && !is_held(launch, region, Right::Read) {
        return Some(Right::Read);
    }
    if writes && !is_held(launch, region, Right::Write) {
        return Some(Right::Write);
    }
    None
}

// Which right a packet lacks on the region in which an access begins.
fn put_missing(
    out: &mut String,
    scene: &Scene<'_>,
    launch: &Launch<'_>,
    region: Object,
) -> Result<(), AllocError> {
    match missing(launch, region) {
        Some(right) => {
            write!(out, ": the packet holds no {right}")?;
            put_about(out, scene, " on ", region, "\n")
        }
        None => out.push_str(": the packet doesn't hold that on the region\n"),
    }
}

// What a rule of regions says of an access, by the region in which it begins.
fn put_region(
    out: &mut String,
    scene: &Scene<'_>,
    launch: &Launch<'_>,
    region: Object,
) -> Result<(), AllocError> {
    match launch.rule {
        Rule::A1 => put_about(out, scene, ": the packet holds no right on ", region, "\n"),
        Rule::A2 => put_missing(out, scene, launch, region),
        Rule::A3 => put_about(
            out,
            scene,
            ": it begins in ",
            region,
            ", and ends behind it\n",
        ),
        Rule::A4 => put_about(
            out,
            scene,
            ": its address, in ",
            region,
            ", is no multiple of its size\n",
        ),
        _ => out.push_str("\n"),
    }
}

// What a rule says of the instruction.
fn tell_rule(
    out: &mut String,
    scene: &Scene<'_>,
    dispatch: &KernelDispatch,
    launch: &Launch<'_>,
    address: Option<SegmentAddress>,
) -> Result<(), AllocError> {
    begin(out, scene)?;
    out.push_str("it is ")?;
    put_access(out, launch.reach, address)?;
    put_wanted(out, launch.reach)?;
    if let Some(region) = launch.region {
        return put_region(out, scene, launch, region);
    }
    let segment = dispatch.group_segment_size;
    match launch.rule {
        Rule::A1 => out.push_str(": no region of the policy lies there\n"),
        Rule::A4 => out.push_str(": its address is no multiple of its size\n"),
        Rule::A5 => out.push_str(
            ", behind 65536 others of the item, the most: see that the loop ends\n",
        ),
        Rule::A6 => out.push_str(
            ": other items of the group have ended, or wait at another barrier, so that they never meet\n",
        ),
        Rule::A7 => writeln!(
            out,
            ": it ends behind the group segment, which has {segment} bytes by the packet's group_segment_size"
        ),
        _ => out.push_str("\n"),
    }
}

// How many bytes an access works on.
fn bytes_of(reach: Reach) -> u64 {
    match reach {
        Reach::Load(size) | Reach::Store(size) | Reach::Atomic(size) | Reach::Group(size) => {
            size as u64
        }
        Reach::None => 0,
    }
}

// Whether an access that begins in a region ends behind it.
fn ends_behind(scene: &Scene<'_>, region: Object, address: u64, size: u64) -> bool {
    let Object::Region(region) = region else {
        return false;
    };
    let end = (address % REGION_SPAN).saturating_add(size);
    match scene.policy.region_length(region) {
        Some(length) => (length as u64) < end,
        None => false,
    }
}

// Whether the address of an atomic operation is no multiple of its size.
fn is_crooked(reach: Reach, address: u64) -> bool {
    match reach {
        Reach::Atomic(4) => address % 4 != 0,
        Reach::Atomic(8) => address % 8 != 0,
        _ => false,
    }
}

// What an access that lacks a right breaks by its address too, once it has the right.
fn tell_further(
    out: &mut String,
    scene: &Scene<'_>,
    launch: &Launch<'_>,
    address: Option<SegmentAddress>,
) -> Result<(), AllocError> {
    let (Some(region), Some(SegmentAddress::Global(address))) = (launch.region, address) else {
        return Ok(());
    };
    if launch.rule != Rule::A1 && launch.rule != Rule::A2 {
        return Ok(());
    }
    if ends_behind(scene, region, address, bytes_of(launch.reach)) {
        say(
            out,
            scene,
            "with the right it breaks A3: it begins in the region, and ends behind it",
        )?;
    }
    if is_crooked(launch.reach, address) {
        say(
            out,
            scene,
            "with the right it breaks A4: its address is no multiple of its size",
        )?;
    }
    Ok(())
}

// Lays a byte into the part of memory from an address on.
fn lay_byte(block: &mut Vec<u8>, first: u64, address: u64, byte: u8) {
    if first <= address {
        let place = (address - first) as usize;
        if place < block.len() {
            block[place] = byte;
        }
    }
}

// Lays what an entry wrote into the part of memory from an address on.
fn lay(block: &mut Vec<u8>, first: u64, entry: &Entry) {
    for effect in entry.effects.as_slice() {
        if let Effect::Write { address, bytes } = effect {
            for (index, byte) in bytes.as_slice().iter().enumerate() {
                lay_byte(block, first, address.0.saturating_add(index as u64), *byte);
            }
        }
    }
}

// A part of memory behind some entries of a history.
fn memory(
    alloc: Global,
    start: &Origin,
    entries: &[Entry],
    first: Address,
    size: u32,
) -> Result<Vec<u8>, AllocError> {
    let mut block = match start.memory.read(first, size as u64) {
        Ok(bytes) => Vec::from_slice(alloc, bytes)?,
        Err(_) => vec![in alloc; 0u8; size as usize]?,
    };
    for entry in entries {
        lay(&mut block, first.0, entry);
    }
    Ok(block)
}

// The number of 64 bits at an offset of an argument block.
fn argument(block: &[u8], offset: u32) -> u64 {
    let (_, rest) = block.split_at((offset as usize).min(block.len()));
    if rest.len() >= 8 {
        LittleEndian::read_u64(rest)
    } else {
        0
    }
}

// The region in which an address lies, if it lies in one.
fn region_at(scene: &Scene<'_>, address: u64) -> Option<Object> {
    let region = regions::region_of(Address(address));
    let length = scene.policy.region_length(region)?;
    if address % REGION_SPAN < length as u64 {
        Some(Object::Region(region))
    } else {
        None
    }
}

// The region in which an access begins, if its address lies in one.
fn region_of(scene: &Scene<'_>, address: Option<SegmentAddress>) -> Option<Object> {
    match address {
        Some(SegmentAddress::Global(address)) => region_at(scene, address),
        _ => None,
    }
}

// The rights on a region that the packet got at its launch.
fn put_held(
    out: &mut String,
    scene: &Scene<'_>,
    launch: &Launch<'_>,
    region: Object,
) -> Result<(), AllocError> {
    let reads = had(launch, region, Right::Read);
    let writes = had(launch, region, Right::Write);
    put_client(out, scene.policy, launch.opening.client)?;
    out.push_str(match (reads, writes) {
        (true, true) => " had READ and WRITE on it at the launch\n",
        (true, false) => " had only READ on it at the launch\n",
        (false, true) => " had only WRITE on it at the launch\n",
        (false, false) => " had no right on it at the launch, so the packet doesn't hold it\n",
    })
}

/// By what a fault and each argument that may point into memory are told: the packet's launch, what the access
/// wants, and the region in which it begins.
#[derive(Clone, Copy)]
struct Launch<'a> {
    opening: Opening,
    start: &'a Origin,
    flown: Flown<'a>,
    rule: Rule,
    reach: Reach,
    region: Option<Object>,
    /// Whether an argument of 64 bits points into that region.
    is_pointed: bool,
}

// Whether an access wants a right on a region that the client hadn't at the launch.
fn wants(launch: &Launch<'_>, region: Object, right: Right) -> bool {
    let (reads, writes) = wanted(launch.reach);
    let is_wanted = match right {
        Right::Read => reads,
        Right::Write => writes,
        _ => false,
    };
    is_wanted && !had(launch, region, right)
}

// A right that an access wants and that the client lacks on a region.
fn lack_at(scene: &Scene<'_>, launch: &Launch<'_>, region: Object, right: Right) -> Option<Lack> {
    if wants(launch, region, right) {
        scene.known.lack_of(launch.opening.client, region, right)
    } else {
        None
    }
}

// A right that an access wants, that the client hadn't at the launch, and that it has now.
fn tell_late(
    out: &mut String,
    scene: &Scene<'_>,
    launch: &Launch<'_>,
    region: Object,
    right: Right,
) -> Result<(), AllocError> {
    if !wants(launch, region, right) || lack_at(scene, launch, region, right).is_some() {
        return Ok(());
    }
    begin(out, scene)?;
    writeln!(
        out,
        "{right} is in force now, and was not at the launch: launch it anew"
    )
}

// The rights that an access wants and that the client lacks on a region.
fn tell_all_wanted(
    out: &mut String,
    scene: &Scene<'_>,
    launch: &Launch<'_>,
    region: Object,
) -> Result<(), AllocError> {
    if launch.rule == Rule::A3 {
        return Ok(());
    }
    let lacks = [
        lack_at(scene, launch, region, Right::Read),
        lack_at(scene, launch, region, Right::Write),
    ];
    let wanted = ", and needs it before the launch";
    tell_lacks(out, scene, &lacks, wanted, Mended::Packet)?;
    tell_late(out, scene, launch, region, Right::Read)?;
    tell_late(out, scene, launch, region, Right::Write)
}

// Where an argument points, and unless that was told of another, what the access wants there.
fn tell_pointer(
    out: &mut String,
    scene: &Scene<'_>,
    launch: &Launch<'_>,
    offset: u32,
    address: u64,
    told: &mut bool,
) -> Result<(), AllocError> {
    begin(out, scene)?;
    write!(out, "the argument at byte {offset} of its block is ")?;
    put_address(out, address)?;
    let Some(region) = region_at(scene, address) else {
        return out.push_str(", in no region of the policy\n");
    };
    out.push_str(", in ")?;
    put_object(out, scene.policy, region)?;
    out.push_str("; ")?;
    put_held(out, scene, launch, region)?;
    if launch.region != Some(region) || *told {
        return Ok(());
    }
    *told = true;
    tell_all_wanted(out, scene, launch, region)
}

// That no argument points into the region in which an access begins, where one lies there.
fn tell_unpointed(
    out: &mut String,
    scene: &Scene<'_>,
    launch: &Launch<'_>,
) -> Result<(), AllocError> {
    let Some(region) = launch.region else {
        return Ok(());
    };
    if launch.is_pointed || launch.rule == Rule::A3 {
        return Ok(());
    }
    begin(out, scene)?;
    put_about(
        out,
        scene,
        "no argument of 64 bits points into ",
        region,
        ": a packet holds rights on regions into which one does\n",
    )
}

// Whether an argument of 64 bits points into a region.
fn is_pointed(scene: &Scene<'_>, program: &Program, block: &[u8], region: Option<Object>) -> bool {
    for offset in program.wide_arguments() {
        if region.is_some() && region_at(scene, argument(block, *offset)) == region {
            return true;
        }
    }
    false
}

// Where the packet's arguments point.
fn tell_pointers(
    out: &mut String,
    scene: &Scene<'_>,
    launch: &Launch<'_>,
    program: &Program,
    block: &[u8],
) -> Result<(), AllocError> {
    if program.wide_arguments().is_empty() {
        return say(
            out,
            scene,
            "the kernel has no argument of 64 bits: its packet holds no right on a region",
        );
    }
    let mut told = false;
    for offset in program.wide_arguments() {
        let address = argument(block, *offset);
        tell_pointer(out, scene, launch, *offset, address, &mut told)?;
    }
    tell_unpointed(out, scene, launch)
}

// Whether a rule is of regions.
fn is_of_regions(rule: Rule) -> bool {
    rule == Rule::A1 || rule == Rule::A2 || rule == Rule::A3
}

// Why a kernel dispatch failed, by its argument block at its launch.
fn tell_block(
    out: &mut String,
    scene: &Scene<'_>,
    dispatch: &KernelDispatch,
    place: FaultPlace,
    launch: &Launch<'_>,
    program: &Program,
    block: &[u8],
) -> Result<(), AllocError> {
    let launch = Launch {
        is_pointed: is_pointed(scene, program, block, launch.region),
        ..*launch
    };
    tell_place(out, scene, dispatch, launch.rule, place)?;
    tell_rule(out, scene, dispatch, &launch, place.address)?;
    tell_further(out, scene, &launch, place.address)?;
    if is_of_regions(launch.rule) {
        tell_pointers(out, scene, &launch, program, block)
    } else {
        Ok(())
    }
}

// A packet's argument block, as it was at its launch.
fn block_of(
    alloc: Global,
    dispatch: &KernelDispatch,
    launch: &Launch<'_>,
    program: &Program,
) -> Result<Vec<u8>, AllocError> {
    match launch.flown {
        Flown::Since(found) => {
            let first = dispatch.kernarg_address;
            memory(
                alloc,
                launch.start,
                found.before,
                first,
                program.kernarg_bytes(),
            )
        }
        Flown::Before(packet) => Vec::from_slice(alloc, packet.arguments.as_slice()),
    }
}

// Why a kernel dispatch failed.
fn tell_dispatch(
    alloc: Global,
    out: &mut String,
    scene: &Scene<'_>,
    error: &QueueError,
    flown: Flown<'_>,
    dispatch: &KernelDispatch,
) -> Result<(), AllocError> {
    let Some(place) = error.place else {
        return Ok(());
    };
    let Some(opening) = scene.known.opening(error.queue) else {
        return Ok(());
    };
    let Some(program) = scene.core.program(dispatch.kernel_object) else {
        return Ok(());
    };
    let launch = Launch {
        opening,
        start: scene.core.start(),
        flown,
        rule: error.rule,
        reach: reach_at(program, place),
        region: region_of(scene, place.address),
        is_pointed: false,
    };
    let block = block_of(alloc, dispatch, &launch, program)?;
    tell_block(
        out,
        scene,
        dispatch,
        place,
        &launch,
        program,
        block.as_slice(),
    )?;
    tell_anew(out, scene, error, &opening)
}

/// Why a packet failed at its work.
pub fn tell_fault(
    alloc: Global,
    out: &mut String,
    scene: &Scene<'_>,
    error: &QueueError,
) -> Result<(), AllocError> {
    match flown_of(scene, error) {
        Some((Packet::Kernel(dispatch), flown)) => {
            tell_dispatch(alloc, out, scene, error, flown, &dispatch)
        }
        _ => Ok(()),
    }
}

// A signal below 0.
fn tell_negative(
    out: &mut String,
    scene: &Scene<'_>,
    signal: SignalHandle,
    value: i64,
) -> Result<(), AllocError> {
    begin(out, scene)?;
    out.push_str("it depends on ")?;
    put_object(out, scene.policy, Object::Signal(signal))?;
    writeln!(
        out,
        ", whose value is {value}: a value below 0 tells of an error of whoever was to signal it"
    )
}

/// Why a barrier packet failed at its poll.
pub fn tell_failed(
    out: &mut String,
    scene: &Scene<'_>,
    error: &QueueError,
) -> Result<(), AllocError> {
    let Some((packet, flown)) = flown_of(scene, error) else {
        return Ok(());
    };
    let Satisfied(seen) = seen_before(scene, error, flown);
    let signals = dependencies(&packet);
    for (signal, was_seen) in signals.iter().zip(seen.iter()) {
        if let Some(value) = scene.known.value_of(*signal) {
            if value < 0 && !*was_seen {
                tell_negative(out, scene, *signal, value)?;
            }
        }
    }
    say(
        out,
        scene,
        "store another value, and open another queue: this one launches nothing more",
    )
}
