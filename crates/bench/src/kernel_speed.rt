//! The measurements of kernels: items that count, items that load, add and store, and items that meet at
//! barriers.

ghost use Rattle.std.specs.Prelude.{◌≤◌, ◌^◌, length};

use crate::fault::Fault;
use aql_packet::{MOST_REGIONS, RegionHandle};
use executor::{Dispatch, Extent, HeldRegion, View, WrittenRange, run_group};
use hsail_reader::read_module;
use kernel_check::{Checked, check};
use policy::Rights;
use sequences::Sequence;
use std::alloc::Global;
use std::time::{Clock, Duration, Instant};

/// How many items are run at the most: those of one work-group.
pub const MOST_ITEMS: u32 = 1_024;

/// Counts down in registers alone: 2 steps, 13,106 turns of 5 steps, and the end.
const COUNTING: &str = "module &counting:1:0:$full:$large:$default;
prog kernel &counting()
{
  mov_u32 $s0, 0;
  mov_u32 $s1, 13106;
@again:
  add_u32 $s0, $s0, 3;
  xor_b32 $s2, $s0, $s1;
  sub_u32 $s1, $s1, 1;
  cmp_ne_b1_u32 $c0, $s1, 0;
  cbr_b1 $c0, @again;
  ret;
};
";

/// How many steps an item of the counting kernel executes.
const COUNTING_STEPS: u64 = 65_533;

/// Adds 1 to a word at a random place of 8,192 bytes, again and again: 3 steps, 6,553 turns of 10 steps,
/// and the end.
const STORING: &str = "module &storing:1:0:$full:$large:$default;
prog kernel &storing(kernarg_u64 %words)
{
  ld_kernarg_u64 $d0, [%words];
  workitemabsid_u32 $s0, 0;
  mov_u32 $s1, 6553;
@turn:
  mad_u32 $s0, $s0, 1664525, 1013904223;
  shr_u32 $s2, $s0, 21;
  cvt_u64_u32 $d1, $s2;
  mad_u64 $d1, $d1, 4, $d0;
  ld_global_u32 $s3, [$d1];
  add_u32 $s3, $s3, 1;
  st_global_u32 $s3, [$d1];
  sub_u32 $s1, $s1, 1;
  cmp_ne_b1_u32 $c0, $s1, 0;
  cbr_b1 $c0, @turn;
  ret;
};
";

/// How many steps an item of the storing kernel executes.
const STORING_STEPS: u64 = 65_534;

/// How many words an item of the storing kernel adds 1 to.
const STORING_TURNS: u64 = 6_553;

/// Adds 1 to a number in group memory, again and again, and waits each time until all items have: 2
/// steps, 13,106 turns of 5 steps, and 3 steps that store the sum.
const MEETING: &str = "module &meeting:1:0:$full:$large:$default;
prog kernel &meeting(kernarg_u64 %words)
{
  group_u32 %sum;
  ld_kernarg_u64 $d0, [%words];
  mov_u32 $s1, 13106;
@round:
  atomicnoret_add_group_rlx_wg_u32 [%sum], 1;
  barrier;
  sub_u32 $s1, $s1, 1;
  cmp_ne_b1_u32 $c0, $s1, 0;
  cbr_b1 $c0, @round;
  ld_group_u32 $s2, [%sum];
  st_global_u32 $s2, [$d0];
  ret;
};
";

/// How many steps an item of the meeting kernel executes.
const MEETING_STEPS: u64 = 65_535;

/// How often an item of the meeting kernel adds 1.
const MEETING_TURNS: u64 = 13_106;

/// The argument of the kernels that store: the first address of the last of all regions, which they are lent.
const ARGUMENT: [u8; 8] = [0, 0, 0, 0, 64, 0, 0, 0];

/// How many bytes of group memory each kernel is given.
const GROUP_MEMORY: u32 = 4;

/// How many bytes that region has.
const REGION_BYTES: usize = 8_192;

/// How many steps some items took, and how long.
#[derive(Clone, Copy)]
pub struct Taken {
    pub steps: u64,
    pub time: Duration,
}

/// The first kernel of a text, checked.
fn kernel(alloc: Global, text: &str) -> Result<Checked, Fault> {
    let module = read_module(alloc, text.as_bytes())?;
    Ok(check(alloc, &module)?)
}

/// Runs so many items of a text's first kernel, as one work-group.
fn run_items(
    alloc: Global,
    checked: &Checked,
    items: u32,
    arguments: &[u8],
    view: &View<'_>,
) -> Result<Sequence<WrittenRange>, Fault> {
    if items < 1 || items > MOST_ITEMS || checked.count() < 1 {
        return Err(Fault::Kernel);
    }
    if checked.kernarg_bytes(0) as usize != arguments.len()
        || checked.group_bytes(0) > GROUP_MEMORY
    {
        return Err(Fault::Kernel);
    }
    let size = Extent {
        x: items,
        y: 1,
        z: 1,
    };
    let dispatch = Dispatch {
        kernel: 0,
        group_size: size,
        grid_size: size,
        group_segment_size: GROUP_MEMORY,
        arguments,
    };
    Ok(run_group(alloc, checked, &dispatch, 0, view)?)
}

/// Measures so many items that count in registers.
pub fn count(rt: &impl Clock, alloc: Global, items: u32) -> Result<Taken, Fault> {
    let checked = kernel(alloc, COUNTING)?;
    let view = View::new(alloc);
    let start = Instant::now(rt)?;
    run_items(alloc, &checked, items, &[], &view)?;
    let time = start.elapsed(rt)?;
    Ok(Taken {
        steps: u64::from(items).wrapping_mul(COUNTING_STEPS),
        time,
    })
}

/// The sum of the words that runs have.
fn sum(runs: &Sequence<WrittenRange>) -> u64 {
    let mut sum = 0u64;
    for run in runs.as_slice() {
        for (place, byte) in run.bytes.as_slice().iter().enumerate() {
            let weight = 1u64 << (place % 4 * 8);
            sum = sum.wrapping_add(u64::from(*byte).wrapping_mul(weight));
        }
    }
    sum
}

/// Lends the same bytes as each of the regions.
fn lend<'a>(alloc: Global, bytes: &'a [u8]) -> Result<View<'a>, Fault>
    requires { length bytes.now ≤ 2 ^ 24 }
{
    let mut view = View::new(alloc);
    'regions: for before in 0..MOST_REGIONS as u32 {
        view.put(HeldRegion {
            handle: RegionHandle(before + 1),
            rights: Rights::from_each(false, true, true, false, false, false),
            bytes,
        })?;
    }
    Ok(view)
}

/// Runs so many items of a kernel that stores; what they stored has to add up to their turns. How long
/// they took.
fn run_storing(
    rt: &impl Clock,
    alloc: Global,
    text: &str,
    items: u32,
    turns: u64,
) -> Result<Duration, Fault> {
    let checked = kernel(alloc, text)?;
    let bytes = vec![in alloc; 0; REGION_BYTES]?;
    let view = lend(alloc, bytes.as_slice())?;
    let start = Instant::now(rt)?;
    let runs = run_items(alloc, &checked, items, &ARGUMENT, &view)?;
    let time = start.elapsed(rt)?;
    if sum(&runs) != u64::from(items).wrapping_mul(turns) {
        return Err(Fault::OtherSum);
    }
    Ok(time)
}

/// Measures so many items that load, add and store.
pub fn store(rt: &impl Clock, alloc: Global, items: u32) -> Result<Taken, Fault> {
    Ok(Taken {
        steps: u64::from(items).wrapping_mul(STORING_STEPS),
        time: run_storing(rt, alloc, STORING, items, STORING_TURNS)?,
    })
}

/// Measures so many items that add to group memory and meet at barriers.
pub fn meet(rt: &impl Clock, alloc: Global, items: u32) -> Result<Taken, Fault> {
    Ok(Taken {
        steps: u64::from(items).wrapping_mul(MEETING_STEPS),
        time: run_storing(rt, alloc, MEETING, items, MEETING_TURNS)?,
    })
}
