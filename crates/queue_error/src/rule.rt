//! The rules that a packet or its work can break, by name.

ghost use Rattle.std.specs.Prelude.{◌≡◌};

use aql_packet::CodecRule;
use std::fmt;

/// A rule that was broken (own). L1 to L10 are tried in order when a packet is launched, A1 to A7
/// at each access and step of a kernel, and B1 at a barrier packet's poll.
#[derive(Clone, Copy, Debug, PartialEq, Eq)]
pub enum Rule {
    /// The packet's type is one that is run.
    L1,
    /// The header's reserved bits are zero and no fence scope is the reserved one.
    L2,
    /// The packet's reserved fields are zero.
    L3,
    /// The client may use the queue's agent, and the agent takes this kind of packet.
    L4,
    /// Dimensions and sizes are in range; an agent dispatch names a known function.
    L5,
    /// The client may launch the kernel.
    L6,
    /// The segment sizes are in range.
    L7,
    /// The client may read the argument block, or reach all ranges of an agent dispatch.
    L8,
    /// The client may wait on each signal that the packet depends on.
    L9,
    /// The client may change the completion signal.
    L10,
    /// The address lies in a region that the packet holds.
    A1,
    /// The packet holds the right that the access needs.
    A2,
    /// The access ends inside its region.
    A3,
    /// An atomic access is naturally aligned.
    A4,
    /// A work-item ends within its budget of instructions.
    A5,
    /// All work-items of a group reach the same barrier.
    A6,
    /// An access to group memory lies inside it.
    A7,
    /// No signal that a barrier packet depends on is negative.
    B1,
}

impl From<CodecRule> for Rule {
    ghost use Rattle.queue_error.specs.Texts.{rule_of};

    ghost from_gives = { λ rule result. result ≡ rule_of rule };

    fn from(rule: CodecRule) -> Rule {
        match rule {
            CodecRule::L1 => Rule::L1,
            CodecRule::L2 => Rule::L2,
            CodecRule::L3 => Rule::L3,
        }
    }
}

impl fmt::Display for Rule {
    ghost use Rattle.std.specs.Prelude.{Some};
    ghost use Rattle.queue_error.specs.Texts.{text_of_rule};

    ghost output = { λ rule. Some (text_of_rule rule) };

    fn fmt<W: fmt::Write>(&self, f: &mut fmt::Formatter<W>) -> fmt::Result {
        match self {
            Rule::L1 => f.write_str("L1"),
            Rule::L2 => f.write_str("L2"),
            Rule::L3 => f.write_str("L3"),
            Rule::L4 => f.write_str("L4"),
            Rule::L5 => f.write_str("L5"),
            Rule::L6 => f.write_str("L6"),
            Rule::L7 => f.write_str("L7"),
            Rule::L8 => f.write_str("L8"),
            Rule::L9 => f.write_str("L9"),
            Rule::L10 => f.write_str("L10"),
            Rule::A1 => f.write_str("A1"),
            Rule::A2 => f.write_str("A2"),
            Rule::A3 => f.write_str("A3"),
            Rule::A4 => f.write_str("A4"),
            Rule::A5 => f.write_str("A5"),
            Rule::A6 => f.write_str("A6"),
            Rule::A7 => f.write_str("A7"),
            Rule::B1 => f.write_str("B1"),
        }
    }
}
