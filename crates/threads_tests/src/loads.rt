//! The load over the sample policy.

use crate::stages::read;
use access_core::Kernel;
use commands::{KernelError, check_kernels};
use policy::Policy;
use std::alloc::Global;
use std::sync::Wait;
use std::thread::Threads;
use threads_load::{Ending, Load, LoadLimits, run_load, run_load_within};

/// The sample policy.
const SAMPLE: &str = r#"[[client]]
name = "alice"
[[client]]
name = "bob"
[[agent]]
name = "gpu"
takes = ["kernel", "agent"]
[[region]]
name = "buf"
length = 64
[[region]]
name = "args"
length = 16
[[signal]]
name = "done"
initial = 1
[[signal]]
name = "go"
initial = 1
[[kernel]]
name = "inc"
entry = "&inc"
text = '''
module &m:1:0:$base:$large:$default;
prog kernel &inc(kernarg_u64 %p)
{
  ld_kernarg_u64 $d0, [%p];
  workitemabsid_u32 $s0, 0;
  cvt_u64_u32 $d1, $s0;
  mul_u64 $d1, $d1, 4;
  add_u64 $d0, $d0, $d1;
  ld_global_u32 $s1, [$d0];
  add_u32 $s1, $s1, 1;
  st_global_u32 $s1, [$d0];
  ret;
};
'''
[[kernel]]
name = "spin"
entry = "&spin"
text = '''
module &m:1:0:$base:$large:$default;
prog kernel &spin()
{
@a:
  br @a;
};
'''
[[allow]]
client = "alice"
kind = "agent"
object = "*"
rights = ["USE"]
[[allow]]
client = "alice"
kind = "region"
object = "*"
rights = ["READ", "WRITE"]
[[allow]]
client = "alice"
kind = "signal"
object = "*"
rights = ["WAIT", "CHANGE"]
[[allow]]
client = "alice"
kind = "kernel"
object = "*"
rights = ["LAUNCH"]
[[allow]]
client = "bob"
kind = "agent"
object = "gpu"
rights = ["USE"]
[[allow]]
client = "bob"
kind = "region"
object = "buf"
rights = ["READ"]
"#;

/// What the load reports of it with two producers.
const REPORT: &str = "queue 1 client alice agent gpu launched 16 finished 16 denied 0\n\
    region 1 buf 1000000000000000\n\
    settled\n";

/// Lanes make no turn, and producers don't try again.
const NO_TURNS: LoadLimits = LoadLimits {
    turns: 0,
    tries: 0,
    are_renewed: false,
};

/// What it reports where a lane may make no turn: nothing is launched, and the number stays 0.
const UNSETTLED: &str = "queue 1 client alice agent gpu launched 0 finished 0 denied 0\n\
    region 1 buf 0000000000000000\n\
    unsettled\n";

// Checks the kernels of a policy. It has no contract, so that the proofs of its callers carry none.
fn kernels_of(alloc: Global, policy: &Policy) -> Result<Vec<Kernel>, KernelError> {
    check_kernels(alloc, policy)
}

// Runs the load with two producers, within these limits where there are any.
fn load<R: Threads + Wait + Sync>(
    rt: &R,
    alloc: Global,
    limits: Option<LoadLimits>,
) -> Option<Load> {
    let policy = read(alloc, SAMPLE).ok()?;
    let kernels = kernels_of(alloc, &policy).ok()?;
    match limits {
        None => run_load(rt, alloc, policy, kernels, 2).ok(),
        Some(limits) => run_load_within(rt, alloc, policy, kernels, 2, limits).ok(),
    }
}

// Whether a load ended and is reported so.
fn is_reported(load: Option<Load>, ending: Ending, report: &str) -> bool {
    match load {
        Some(load) => load.ending == ending && load.report.as_str() == report,
        None => false,
    }
}

#[test]
fn the_sample_policy_gives_three_lines(rt: HostRuntime) {
    assert!(rt; is_reported(load(&rt, rt.alloc(), None), Ending::Settled, REPORT));
}

#[test]
fn a_load_whose_lanes_meet_their_turns_is_unsettled(rt: HostRuntime) {
    assert!(rt;
        is_reported(
            load(&rt, rt.alloc(), Some(NO_TURNS)),
            Ending::Unsettled,
            UNSETTLED
        )
    );
}
