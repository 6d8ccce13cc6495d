//! Replies are told as JSON.

use crate::entries::write_audit;
use crate::replies::write_reply;
use policy::Policy;
use script::{LineReply, Voice};
use std::alloc::{AllocError, Global};
use world::World;

/// As JSON, an object a reply.
#[derive(Clone, Copy)]
pub struct Json;

impl Voice for Json {
    ghost use Rattle.std.specs.Prelude.{⊤};

    ghost tells = { λ policy told text. ⊤ };

    fn tell(
        &self,
        alloc: Global,
        out: &mut String,
        policy: &Policy,
        number: u64,
        reply: &LineReply,
    ) -> Result<(), AllocError> {
        let mut text = String::new(alloc);
        write_reply(&mut text, policy, number, reply)?;
        out.push_str(text.as_str())
    }

    fn tell_audit(&self, out: &mut String, world: &World, number: u64) -> Result<(), AllocError> {
        let core = world.core();
        write_audit(
            out,
            world.policy(),
            number,
            core.entries_before(),
            core.audit(),
        )
    }
}
