//! Joins two parts of a history: some calls of a core, a rotation, some more, another rotation, and one part of the two.
//! It is there to be refused memory (`tests/joins.py`): where the joining is, it says so, and joins the parts that came
//! back once more.

mod calls;

use crate::fault::Fault;
use access_core::AccessCore;
use calls::{first_part, open, second_part};
use core_model::{JoinFault, NotJoined, Part, join};
use policy::Policy;
use script::{LineAnswer, LineReply, NumberMeaning, write_line};
use std::alloc::Global;
use world::Answer;

// (it has no contract, so that its callers don't carry that of `join`)
fn join_once(alloc: Global, first: Part, second: Part) -> Result<Part, NotJoined> {
    join(alloc, first, second)
}

// Joins the parts that came back.
fn join_back(alloc: Global, refused: NotJoined) -> Result<Part, NotJoined> {
    let NotJoined {
        why: _,
        first,
        second,
    } = refused;
    join_once(alloc, first, second)
}

// Ends a reply. (Each value that owns parts ends in a function of one exit: written out at each exit of a function it is
// dear to prove.)
fn let_go(_reply: LineReply) {}

// Ends two parts that aren't joined, and tells why.
fn give_up(refused: NotJoined) -> Fault {
    Fault::from(refused.why)
}

// Ends a part for what became of the next one.
fn give_up_first(_first: Part, fault: Fault) -> Fault {
    fault
}

// Says how many entries two parts have.
fn tell_counts(rt: &HostRuntime, first: &Part, second: &Part) -> Result<(), Fault> {
    let (former, latter) = (first.entries().len(), second.entries().len());
    println!(rt; "entries {former} and {latter}")?;
    Ok(())
}

// Says why two parts weren't joined.
fn tell_refusal(rt: &HostRuntime, why: JoinFault) -> Result<(), Fault> {
    println!(rt; "refused {} {why:?}", why.number())?;
    Ok(())
}

// Says how many entries the part has that two make.
fn tell_joined(rt: &HostRuntime, both: &Part) -> Result<(), Fault> {
    println!(rt; "joined {}", both.entries().len())?;
    Ok(())
}

// A part as a script is told it.
fn reply_of(part: Part) -> LineReply {
    Ok(LineAnswer::Answered {
        meaning: NumberMeaning::Plain,
        answer: Answer::Rotated(part),
    })
}

// Says each entry of a part that a script is told, as an audit has it: all lines but the first.
fn tell_entries(rt: &HostRuntime, policy: &Policy, reply: &LineReply) -> Result<(), Fault> {
    let mut text = String::new(rt.alloc());
    write_line(&mut text, policy, reply)?;
    if let Some((_count, entries)) = text.as_str().split_once("\n") {
        print!(rt; "{entries}")?;
    }
    Ok(())
}

// Says how many entries a part has, and each of them.
fn tell(rt: &HostRuntime, policy: &Policy, both: Part) -> Result<(), Fault> {
    let counted = tell_joined(rt, &both);
    let reply = reply_of(both);
    let told = tell_entries(rt, policy, &reply);
    let_go(reply);
    counted?;
    told
}

// Tells what the parts that came back have become.
fn tell_back(
    rt: &HostRuntime,
    policy: &Policy,
    joined: Result<Part, NotJoined>,
) -> Result<(), Fault> {
    match joined {
        Ok(both) => tell(rt, policy, both),
        Err(refused) => Err(give_up(refused)),
    }
}

// Says why two parts weren't joined, and joins them once more where only memory was wanted.
fn join_again(rt: &HostRuntime, policy: &Policy, refused: NotJoined) -> Result<(), Fault> {
    let why = refused.why;
    let said = tell_refusal(rt, why);
    let done = match why {
        JoinFault::OutOfMemory => tell_back(rt, policy, join_back(rt.alloc(), refused)),
        JoinFault::NotNext => Err(give_up(refused)),
    };
    said?;
    done
}

// Joins two parts, in two tries at most, and tells what has become of them.
fn join_both(rt: &HostRuntime, policy: &Policy, first: Part, second: Part) -> Result<(), Fault> {
    let counted = tell_counts(rt, &first, &second);
    let done = match join_once(rt.alloc(), first, second) {
        Ok(both) => tell(rt, policy, both),
        Err(refused) => join_again(rt, policy, refused),
    };
    counted?;
    done
}

// Joins a part with the next one that a core hands out.
fn join_next(rt: &HostRuntime, core: &mut AccessCore, first: Part) -> Result<(), Fault> {
    match second_part(rt.alloc(), core) {
        Ok(second) => join_both(rt, core.policy(), first, second),
        Err(fault) => Err(give_up_first(first, fault)),
    }
}

// Joins the two parts that rotations of a core hand out, and tells what has become of them.
fn join_two(rt: &HostRuntime, core: &mut AccessCore) -> Result<(), Fault> {
    let first = first_part(rt.alloc(), core)?;
    join_next(rt, core, first)
}

/// Opens a core, joins the two parts that it hands out, and tells what has become of them.
pub fn open_and_join(rt: &HostRuntime) -> Result<(), Fault> {
    let mut core = open(rt.alloc())?;
    join_two(rt, &mut core)
}
