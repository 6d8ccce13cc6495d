//! Callers of the broker as a library: what they come to.

use std::alloc::Global;
use std::test::*;
use uses::{fill, open};
use world::World;

/// A policy without kernels: its client may use the agent, and all of its region.
const POLICY: &str = r#"
client = [{ name = "ada" }]
agent = [{ name = "loom", takes = ["agent"] }]
region = [{ name = "cloth", length = 8 }]
allow = [
  { client = "ada", kind = "agent", object = "loom", rights = ["USE"] },
  { client = "ada", kind = "region", object = "cloth", rights = ["READ", "WRITE"] },
]
"#;

fn fill_in(alloc: Global, world: World) -> Option<u8> {
    let mut world = world;
    fill(alloc, &mut world)
}

fn fill_over(alloc: Global, text: &str) -> Option<u8> {
    fill_in(alloc, open(alloc, text.as_bytes())?)
}

#[test]
fn a_world_of_its_own_fills_a_byte(rt: HostRuntime) -> Result<(), Fail> {
    assert!(rt; fill_over(rt.alloc(), POLICY) == Some(0x5a));
    Ok(())
}
