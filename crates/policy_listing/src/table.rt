//! What a policy declares, as a table.

use crate::declared::{Agent, Allowed, Client, Declared, Kernel, Region, Signal};
use std::alloc::{AllocError, Global};

// The column at which an object's number begins, and that at which its name does.
const NUMBER: usize = 8;

const NAME: usize = 16;

// How wide the columns of the clients' names and of the objects' are, two blanks behind the longest.
#[derive(Clone, Copy)]
struct Widths {
    client: usize,
    object: usize,
}

// The greater of a width and a name's, with two blanks behind it.
fn wider(width: usize, name: &str) -> usize {
    width.max(name.len().saturating_add(2))
}

// The widths for what a policy declares: at least those of the heads.
fn widths_of(declared: &Declared<'_>) -> Widths {
    let mut client = 8;
    let mut object = 6;
    for it in declared.clients.iter() {
        client = wider(client, it.name);
        object = wider(object, it.name);
    }
    for it in declared.agents.iter() {
        object = wider(object, it.name);
    }
    for it in declared.regions.iter() {
        object = wider(object, it.name);
    }
    for it in declared.signals.iter() {
        object = wider(object, it.name);
    }
    for it in declared.kernels.iter() {
        object = wider(object, it.name);
    }
    Widths { client, object }
}

// Adds blanks up to a column of a line that began at a place, and one at least.
fn push_blanks(out: &mut String, begin: usize, column: usize) -> Result<(), AllocError> {
    out.push_str(" ")?;
    let end = begin.saturating_add(column);
    for _ in out.len()..end {
        out.push_str(" ")?;
    }
    Ok(())
}

// Adds the first columns of an object: kind, number and name. What more there is of it stands behind the longest name.
fn push_object(
    out: &mut String,
    width: usize,
    kind: &str,
    number: u32,
    name: &str,
) -> Result<(), AllocError> {
    let begin = out.len();
    out.push_str(kind)?;
    push_blanks(out, begin, NUMBER)?;
    write!(out, "{number}")?;
    push_blanks(out, begin, NAME)?;
    out.push_str(name)?;
    push_blanks(out, begin, NAME.saturating_add(width))
}

// Adds names with commas between them.
fn push_names(out: &mut String, names: &[&str]) -> Result<(), AllocError> {
    for (place, name) in names.iter().enumerate() {
        if 0 < place {
            out.push_str(",")?;
        }
        out.push_str(name)?;
    }
    Ok(())
}

fn push_client(out: &mut String, client: &Client<'_>) -> Result<(), AllocError> {
    let begin = out.len();
    out.push_str("client")?;
    push_blanks(out, begin, NUMBER)?;
    write!(out, "{}", client.number)?;
    push_blanks(out, begin, NAME)?;
    out.push_str(client.name)?;
    out.push_str("\n")
}

// Which dispatches an agent takes, as rights are listed.
fn taken_by(agent: &Agent<'_>) -> &'static str {
    match (agent.takes_kernel, agent.takes_agent) {
        (true, true) => "kernel,agent",
        (true, false) => "kernel",
        (false, true) => "agent",
        (false, false) => "-",
    }
}

fn push_agent(out: &mut String, width: usize, agent: &Agent<'_>) -> Result<(), AllocError> {
    push_object(out, width, "agent", agent.number, agent.name)?;
    out.push_str("takes ")?;
    out.push_str(taken_by(agent))?;
    out.push_str("\n")
}

fn push_region(out: &mut String, width: usize, region: &Region<'_>) -> Result<(), AllocError> {
    push_object(out, width, "region", region.number, region.name)?;
    writeln!(out, "{:016x}, {} bytes", region.address, region.length)
}

fn push_signal(out: &mut String, width: usize, signal: &Signal<'_>) -> Result<(), AllocError> {
    push_object(out, width, "signal", signal.number, signal.name)?;
    writeln!(out, "begins at {}", signal.initial)
}

fn push_kernel(out: &mut String, width: usize, kernel: &Kernel<'_>) -> Result<(), AllocError> {
    push_object(out, width, "kernel", kernel.number, kernel.name)?;
    writeln!(out, "{}", kernel.entry)
}

fn push_allowed(out: &mut String, widths: Widths, allowed: &Allowed<'_>) -> Result<(), AllocError> {
    let begin = out.len();
    out.push_str(allowed.client)?;
    push_blanks(out, begin, widths.client)?;
    push_object(
        out,
        widths.object,
        allowed.kind,
        allowed.number,
        allowed.name,
    )?;
    push_names(out, allowed.rights.as_slice())?;
    out.push_str("\n")
}

// Adds the rows of clients and objects.
fn push_declared(
    out: &mut String,
    width: usize,
    declared: &Declared<'_>,
) -> Result<(), AllocError> {
    for it in declared.clients.iter() {
        push_client(out, it)?;
    }
    for it in declared.agents.iter() {
        push_agent(out, width, it)?;
    }
    for it in declared.regions.iter() {
        push_region(out, width, it)?;
    }
    for it in declared.signals.iter() {
        push_signal(out, width, it)?;
    }
    for it in declared.kernels.iter() {
        push_kernel(out, width, it)?;
    }
    Ok(())
}

// Adds the head of the table of rights.
fn push_rights_head(out: &mut String, widths: Widths) -> Result<(), AllocError> {
    let begin = out.len();
    out.push_str("CLIENT")?;
    push_blanks(out, begin, widths.client)?;
    let begin = out.len();
    out.push_str("KIND    NUMBER  NAME")?;
    push_blanks(out, begin, NAME.saturating_add(widths.object))?;
    out.push_str("RIGHTS\n")
}

/// Two tables: of the clients and objects that a policy declares, in its order, and behind an empty line of the rights that
/// it allows. It fails only where memory is wanted and not to be had.
pub fn to_table(alloc: Global, declared: &Declared<'_>) -> Result<String, AllocError> {
    let widths = widths_of(declared);
    let mut out = String::new(alloc);
    out.push_str("KIND    NUMBER  NAME\n")?;
    push_declared(&mut out, widths.object, declared)?;
    out.push_str("\n")?;
    push_rights_head(&mut out, widths)?;
    for it in declared.allowed.iter() {
        push_allowed(&mut out, widths, it)?;
    }
    Ok(out)
}
