//! What an administrator asks of a broker.

ghost use Rattle.std.specs.Prelude.{◌≡◌};
ghost use Rattle.session.specs.Commands.{only, permission_of, four_of, one_of, bare_of, command_of};

use crate::head::Head;

/// Rights of a client on an object: its kind and number, and the rights' bits.
#[derive(Clone, Copy, Debug, PartialEq, Eq)]
pub struct Permission {
    pub client: u64,
    pub kind: u64,
    pub number: u64,
    pub rights: u64,
}

/// What an administrator asks (own).
#[derive(Clone, Copy, Debug, PartialEq, Eq)]
pub enum Command {
    /// That rights are put in force.
    Grant(Permission),
    /// That they are taken back.
    Revoke(Permission),
    /// The rights in force of this client.
    List(u64),
    /// That the policy's file is read again and put in force.
    Reload,
    /// That the audit is handed out.
    Rotate,
    /// The audit's entry of this number.
    Audit(u64),
    /// How many entries there are.
    Count,
    /// The state of the broker.
    State,
    /// Who is connected.
    Sessions,
    /// The end of the connection of this number.
    Drop(u64),
    /// What was counted.
    Stats,
    /// The end of the broker.
    Quit,
}

/// What the head of an administrator's record asks, if it is one that an administrator may send: of a number that is known, with
/// nothing behind it, and zeros in the numbers that it doesn't use.
pub fn command_of(head: &Head) -> Option<Command>
    ensures { result ≡ command_of head.now }
{
    match head.asks {
        32 => four(head, Command::Grant(permitted(head))),
        33 => four(head, Command::Revoke(permitted(head))),
        34 => one(head, Command::List(head.first)),
        35 => bare(head, Command::Reload),
        36 => bare(head, Command::Rotate),
        37 => one(head, Command::Audit(head.first)),
        38 => bare(head, Command::Count),
        39 => bare(head, Command::State),
        40 => bare(head, Command::Sessions),
        41 => one(head, Command::Drop(head.first)),
        42 => bare(head, Command::Stats),
        43 => bare(head, Command::Quit),
        _ => None,
    }
}

// What is asked, where the head is as that wants it.
fn only(is_well: bool, command: Command) -> Option<Command>
    ensures { result ≡ only is_well command }
{
    if is_well { Some(command) } else { None }
}

// The rights that a head names.
fn permitted(head: &Head) -> Permission
    ensures { result ≡ permission_of head.now }
{
    Permission {
        client: head.first,
        kind: head.second,
        number: head.third,
        rights: head.fourth,
    }
}

// A command with four numbers, with one, and without.
fn four(head: &Head, command: Command) -> Option<Command>
    ensures { result ≡ four_of head.now command }
{
    only(head.uses_four() && head.following == 0, command)
}

fn one(head: &Head, command: Command) -> Option<Command>
    ensures { result ≡ one_of head.now command }
{
    only(head.uses_one() && head.following == 0, command)
}

fn bare(head: &Head, command: Command) -> Option<Command>
    ensures { result ≡ bare_of head.now command }
{
    only(head.uses_none() && head.following == 0, command)
}
