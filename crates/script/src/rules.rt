//! The table of rules: one row each, in the order in which they are tried.

ghost use Rattle.std.specs.Prelude.{◌≡◌, map};
ghost use Rattle.script.specs.Rules.{rule_view, rule_rows};

use queue_error::Rule;

/// When a rule is asked.
#[derive(Clone, Copy, Debug, PartialEq, Eq)]
pub enum Occasion {
    /// As a packet is to be launched.
    Launch,
    /// At each access and step of a kernel.
    Work,
    /// As a barrier packet is polled.
    Poll,
}

/// A rule that a packet or its work can break: when it is asked, as replies spell it, and what it asks for.
#[derive(Clone, Copy)]
pub struct RuleRow {
    pub rule: Rule,
    pub occasion: Occasion,
    pub name: &'static str,
    pub meaning: &'static str,
}

macro_rules! rules {
    ($($rule:ident $occasion:ident $name:literal $meaning:literal;)*) => {
        [$(RuleRow { rule: Rule::$rule, occasion: Occasion::$occasion, name: $name, meaning: $meaning }),*]
    };
}

// The rules: L1 to L10 of a launch, A1 to A7 of a kernel's accesses and steps, B1 of a barrier packet's poll.
const RULES: [RuleRow; 18] = rules! {
    L1 Launch "L1" "a packet's type is 2 kernel dispatch, 3 barrier-AND, 4 agent dispatch or 5 barrier-OR";
    L2 Launch "L2" "header bits 15:13 are zero, and no fence scope is 3";
    L3 Launch "L3" "the fields that the packet's type reserves are zero";
    L4 Launch "L4" "USE on the queue's agent is in force, and the agent takes this kind of packet; barrier packets are taken by all. `grant CLIENT agent NAME USE` may help";
    L5 Launch "L5" "a kernel dispatch has 1 to 3 dimensions, sizes of at least 1, 1 in dimensions that aren't used, no grid smaller than its work-group, at most 1024 work-items in a work-group and at most 4294967295 work-groups; an agent dispatch has a known function";
    L6 Launch "L6" "LAUNCH on the kernel is in force. `grant CLIENT kernel NAME LAUNCH` may help";
    L7 Launch "L7" "group_segment_size is at least what the kernel's group variables take, and at most 65536; private_segment_size is at most 65536";
    L8 Launch "L8" "a kernel's argument block lies whole in one region with READ in force; each range of an agent's function lies whole in one region, with READ where it reads and WRITE where it writes. `grant CLIENT region NAME READ,WRITE` may help";
    L9 Launch "L9" "WAIT is in force on each signal that a barrier packet depends on. `grant CLIENT signal NAME WAIT` may help";
    L10 Launch "L10" "CHANGE on the completion signal is in force, unless it is null. `grant CLIENT signal NAME CHANGE` may help";
    A1 Work "A1" "a work-item's access begins in a region that its packet holds: one in which a 64-bit argument points, with a right in force at the launch";
    A2 Work "A2" "the packet holds the right: READ for a load, WRITE for a store, both for an atomic operation";
    A3 Work "A3" "the access ends inside the region in which it begins";
    A4 Work "A4" "the address of an atomic operation is a multiple of its size";
    A5 Work "A5" "a work-item executes at most 65536 instructions";
    A6 Work "A6" "all work-items of a work-group come to the same barrier, or all end";
    A7 Work "A7" "an access to group memory lies inside group_segment_size bytes";
    B1 Poll "B1" "no signal that a barrier packet depends on and that wasn't seen as 0 is negative when the packet is polled";
};

/// The rules, in the order in which they are tried. Each name is the one that replies print.
pub fn rule_rows() -> &'static [RuleRow]
    ensures { map rule_view result.now ≡ rule_rows }
{
    &RULES
}
