//! What the help and the version say beside the commands.

use crate::meanings::{RuleNames, causes};
use script::{line_forms, refusal_rows};
use std::alloc::{AllocError, Global};

/// The program's version, and the kit that it is proved with.
pub const VERSION: &str = "0.1.0 (rattle-kit-13f logic dac8208d650f15bf)";

// What stands above the forms of lines.
const FORMS_TITLE: &str = "Lines of a script (docs/scripts.md):\n";

// Where the second of two forms on a line begins, after the indent.
const COLUMN: usize = 40;

// What stands below the forms of lines, up to the names.
const BELOW_FORMS: &str = "\
Q is the number of a queue, T a ticket; KIND is agent, region, signal or kernel; RIGHT is USE, READ,
WRITE, WAIT, CHANGE or LAUNCH, and - for none; OP is store, add, subtract, and, or, xor or exchange;
CONDITION is EQ, NE, LT or GTE.

Lines that assemble and run --readable read beside these (docs/assemble.md):
  dispatch CLIENT? Q P KERNEL grid N,N,N group N,N,N arguments VALUE.. at ADDRESS signal NAME ..
  the same with args PLACE NAME=VALUE ..       args CLIENT PLACE KERNEL NAME=VALUE ..
  fill Q P ADDRESS length N with BYTE ..       copy Q P ADDRESS to ADDRESS length N ..
  add Q P N to ADDRESS ..                      all-of Q P SIGNAL.. ..       any-of Q P SIGNAL.. ..
  drain, drain Q (of run --readable alone): what can move, all or in one queue, comes to its end
  state (the same): what there is, rights, queues and what waits, signals, memory, the audit's room
P is the number of a producer; ADDRESS may be a region there, as buf or buf+16; # begins a comment.

Pages that help prints: brokerd help scripts, policy, kernels or readable; and brokerd help WORD
tells of the first word of a line, a rule, a refusal or a cause.
A file that is called - is standard input; what stands behind -- is no option. On a terminal faults
are explained unasked (--explain=never), run prompts, goes on after a line of no form, and knows
help, help WORD, state, why and quit.

Names that explain tells:
";

// What stands below the names of rules, refusals and causes.
const BELOW_NAMES: &str = "  rights     USE READ WRITE WAIT CHANGE LAUNCH
  waiting    Barrier Active Slots, or waiting for all
  lines      the first word of a line, or lines for all

Exit status: 0 all went well; 1 the policy, a kernel or a line is refused;
2 the command line isn't understood; 3 reading, writing or memory failed.";

// How many bytes a line of names has at the most.
const WIDTH: usize = 100;

// What stands before a further line of names: as much as before the first.
const INDENT: &str = "             ";

// Puts a number and a name after those before it, of which so many bytes stand in the line.
fn put_name(
    alloc: Global,
    out: &mut String,
    before: usize,
    number: u8,
    name: &str,
) -> Result<usize, AllocError> {
    let text = format!(in alloc; "{number} {name}")?;
    let length = before.saturating_add(1).saturating_add(text.len());
    if before == 0 || length > WIDTH {
        out.push_str(if before == 0 { "" } else { "\n" })?;
        out.push_str(if before == 0 { "" } else { INDENT })?;
        out.push_str(text.as_str())?;
        return Ok(INDENT.len().saturating_add(text.len()));
    }
    out.push_str(" ")?;
    out.push_str(text.as_str())?;
    Ok(length)
}

// Puts the refusals in the order of their numbers.
fn put_refusals(alloc: Global, out: &mut String) -> Result<(), AllocError> {
    out.push_str("  refusals   ")?;
    let mut before = 0;
    for row in refusal_rows() {
        before = put_name(alloc, out, before, row.number, row.name)?;
    }
    out.push_str("\n")
}

// Puts the causes of faults of a kind in the order of their numbers, after this title.
fn put_causes(alloc: Global, out: &mut String, title: &str, kind: &str) -> Result<(), AllocError> {
    out.push_str(title)?;
    let mut before = 0;
    for row in causes() {
        if row.kind == kind {
            before = put_name(alloc, out, before, row.number, row.name)?;
        }
    }
    out.push_str("\n")
}

// Puts the names of the rules.
fn put_rules(out: &mut String) -> Result<(), AllocError> {
    let rules = RuleNames;
    writeln!(out, "  rules      {rules}")
}

// Puts the names that `explain` tells and that stand in tables.
fn put_names(alloc: Global, out: &mut String) -> Result<(), AllocError> {
    put_rules(out)?;
    put_refusals(alloc, out)?;
    put_causes(alloc, out, "  policy     ", "policy")?;
    put_causes(alloc, out, "  read       ", "read")?;
    put_causes(alloc, out, "  check      ", "check")
}

// Puts a form after those before it, where the line has one of that width already, or none.
fn put_form(out: &mut String, form: &str, before: usize) -> Result<usize, AllocError> {
    if before == 0 {
        out.push_str("  ")?;
        out.push_str(form)?;
        return Ok(form.len());
    }
    for _ in before..COLUMN {
        out.push_str(" ")?;
    }
    out.push_str(form)?;
    out.push_str("\n")?;
    Ok(0)
}

// Puts the forms of lines in the order of their table, two on a line.
fn put_forms(alloc: Global, out: &mut String) -> Result<(), AllocError> {
    let mut before = 0;
    for form in line_forms() {
        let form = format!(in alloc; "{form}")?;
        before = put_form(out, form.as_str(), before)?;
    }
    if before == 0 {
        Ok(())
    } else {
        out.push_str("\n")
    }
}

/// What stands below the commands in the help: the forms of lines, as their table has them, and what else there is to know.
pub fn further_help(alloc: Global) -> Result<String, AllocError> {
    let mut out = String::new(alloc);
    out.push_str(FORMS_TITLE)?;
    put_forms(alloc, &mut out)?;
    out.push_str(BELOW_FORMS)?;
    put_names(alloc, &mut out)?;
    out.push_str(BELOW_NAMES)?;
    Ok(out)
}
