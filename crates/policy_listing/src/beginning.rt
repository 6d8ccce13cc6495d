//! A policy to begin with, made of kernels' texts.

use crate::strings::put_lines;
use policy::MOST_NAME_BYTES;
use std::alloc::{AllocError, Global};

/// A kernel of a text: the file that the text is from, the name of its entry there, with its `&`, and the text.
#[derive(Clone, Copy)]
pub struct KernelText<'a> {
    pub file: &'a str,
    pub entry: &'a str,
    pub text: &'a str,
}

// How many bytes of an entry's name a kernel's name has: room is left for a number.
const MOST_SHORT: usize = MOST_NAME_BYTES - 8;

// How many names are tried for a kernel.
const MOST_TRIES: u32 = 4_096;

// What stands before the kernels.
const ABOVE: &str = "\
# A policy to begin with: alice may be granted every right. What says `Narrow` is wider than you need.
# `brokerd check FILE` tells whether it is right, `brokerd check FILE --list` what it allows, `brokerd help policy`
# what each key means. Rights are in force once a script grants them: `grant alice kernel NAME LAUNCH`.

# Who asks: a row for each.
[[client]]
name = \"alice\"

# On what queues are opened. Narrow: \"agent\" is for FILL, COPY and ADD64, \"kernel\" for kernels.
[[agent]]
name = \"gpu\"
takes = [\"kernel\", \"agent\"]

# What kernels work on: its first byte has the address 0000000100000000. Narrow: as long as they need.
[[region]]
name = \"buf\"
length = 65536

# Where arguments of kernels are written, from 0000000200000000 on: 4096 bytes are the most that a kernel may have.
[[region]]
name = \"args\"
length = 4096

# What tells that a packet is done: it begins at 1, and each packet that names it takes 1 off.
[[signal]]
name = \"done\"
initial = 1
";

// What stands behind the kernels.
const BELOW: &str = "
# What may be granted to whom. Narrow: name an object in place of \"*\", which is all of the kind, and leave out rights.
# To read a region, for its launches, alice needs READ; to write it, WRITE.
[[allow]]
client = \"alice\"
kind = \"agent\"
object = \"*\"
rights = [\"USE\"]

[[allow]]
client = \"alice\"
kind = \"region\"
object = \"*\"
rights = [\"READ\", \"WRITE\"]

[[allow]]
client = \"alice\"
kind = \"signal\"
object = \"*\"
rights = [\"WAIT\", \"CHANGE\"]

[[allow]]
client = \"alice\"
kind = \"kernel\"
object = \"*\"
rights = [\"LAUNCH\"]
";

// The name of an entry as that of an object: without its `&`, and no longer than it may be.
fn short_name(alloc: Global, entry: &str) -> Result<String, AllocError> {
    let mut name = String::new(alloc);
    for letter in entry.chars() {
        if name.len() < MOST_SHORT && letter != '&' {
            name.push(match letter {
                '0'..='9' | 'A'..='Z' | 'a'..='z' | '_' | '-' => letter,
                _ => '_',
            })?;
        }
    }
    Ok(name)
}

// Whether a name is one of some.
fn is_taken(names: &[String], name: &str) -> bool {
    for taken in names {
        if taken.as_str() == name {
            return true;
        }
    }
    false
}

// A name for an entry that is none of some.
fn free_name(alloc: Global, names: &[String], entry: &str) -> Result<String, AllocError> {
    let short = short_name(alloc, entry)?;
    if !is_taken(names, short.as_str()) {
        return Ok(short);
    }
    for number in 2..MOST_TRIES {
        let name = format!(in alloc; "{short}_{number}")?;
        if !is_taken(names, name.as_str()) {
            return Ok(name);
        }
    }
    Ok(short)
}

// Adds a file's name to a remark: what no remark may have is `?`.
fn put_file(out: &mut String, file: &str) -> Result<(), AllocError> {
    for letter in file.chars() {
        out.push(match letter {
            '\0'..='\u{1f}' | '\u{7f}' => '?',
            _ => letter,
        })?;
    }
    Ok(())
}

// Adds the row of a kernel.
fn put_kernel(out: &mut String, kernel: KernelText<'_>, name: &str) -> Result<(), AllocError> {
    let entry = kernel.entry;
    out.push_str("\n# from ")?;
    put_file(out, kernel.file)?;
    write!(
        out,
        "\n[[kernel]]\nname = \"{name}\"\nentry = \"{entry}\"\ntext = "
    )?;
    put_lines(out, kernel.text)?;
    out.push_str("\n")
}

/// A policy to begin with: a client, an agent, a region to work on and one for arguments, a signal, these kernels, and rows
/// that allow the client every right on all of them.
pub fn begun(alloc: Global, kernels: &[KernelText<'_>]) -> Result<String, AllocError> {
    let mut out = String::new(alloc);
    let mut names = Vec::new(alloc);
    out.push_str(ABOVE)?;
    for kernel in kernels {
        let name = free_name(alloc, names.as_slice(), kernel.entry)?;
        put_kernel(&mut out, *kernel, name.as_str())?;
        names.push(name)?;
    }
    out.push_str(BELOW)?;
    Ok(out)
}
