//! How replies are told: as text, or not at all.

ghost use Rattle.std.specs.Prelude.{◌≡◌};

use crate::command::LineReply;
use crate::entries::write_audit;
use crate::replies::write_line;
use policy::Policy;
use std::alloc::{AllocError, Global};
use world::World;

/// Tells the reply to a line.
pub trait Voice {
    ghost use Rattle.std.specs.Prelude.{◌≡◌, [], OnOk, string_bytes};
    ghost use Rattle.script.specs.Runs.{Telling, audit_reply, names};

    /// What it tells of a reply, by the policy whose names it uses.
    ghost tells: { Telling };

    /// Puts the reply to the line of a number, from 1, into an empty text.
    fn tell(
        &self,
        alloc: Global,
        out: &mut String,
        policy: &Policy,
        number: u64,
        reply: &LineReply,
    ) -> Result<(), AllocError>
        requires { string_bytes out.old ≡ [] }
        ensures { OnOk result (tells policy.now reply.now (string_bytes out.new)) };

    /// Puts the audit into an empty text, as the reply to the line of a number that asks for it: it is lent, and told entry by
    /// entry.
    fn tell_audit(&self, out: &mut String, world: &World, number: u64) -> Result<(), AllocError>
        requires { string_bytes out.old ≡ [] }
        ensures { OnOk result (tells (names world.now) (audit_reply world.now) (string_bytes out.new)) };
}

/// As text, a line a reply.
#[derive(Clone, Copy)]
pub struct Text;

impl Voice for Text {
    ghost use Rattle.script.specs.Runs.{as_text};

    ghost tells = { as_text };

    fn tell(
        &self,
        _alloc: Global,
        out: &mut String,
        policy: &Policy,
        _number: u64,
        reply: &LineReply,
    ) -> Result<(), AllocError> {
        write_line(out, policy, reply)
    }

    fn tell_audit(&self, out: &mut String, world: &World, _number: u64) -> Result<(), AllocError> {
        let core = world.core();
        write_audit(out, world.policy(), core.entries_before(), core.audit())
    }
}

/// Not at all.
#[derive(Clone, Copy)]
pub struct Silent;

impl Voice for Silent {
    ghost use Rattle.script.specs.Runs.{in_silence};

    ghost tells = { in_silence };

    fn tell(
        &self,
        _alloc: Global,
        _out: &mut String,
        _policy: &Policy,
        _number: u64,
        _reply: &LineReply,
    ) -> Result<(), AllocError> {
        Ok(())
    }

    fn tell_audit(
        &self,
        _out: &mut String,
        _world: &World,
        _number: u64,
    ) -> Result<(), AllocError> {
        Ok(())
    }
}
