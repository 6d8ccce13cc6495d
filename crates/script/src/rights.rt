//! The rights of a set and the kinds of objects, as words.

ghost use Rattle.std.specs.Prelude.{◌≡◌, ◌++◌, OnOk, string_bytes};
ghost use Rattle.policy.specs.Format.{kind_named};
ghost use Rattle.words.specs.Items.{items};
ghost use Rattle.script.specs.Lists.{comma_if};
ghost use Rattle.script.specs.Rights.{right_of, with_right, rights_with, rights_word, text_of_rights};

use bitflags::Flags;
use policy::{Kind, Right, Rights};
use std::alloc::AllocError;
use words::{is_word, split_item};

// The right of a name.
fn right_named(word: &[u8]) -> Option<Right>
    ensures { result ≡ right_of word.now }
{
    if is_word(word, "USE") {
        Some(Right::Use)
    } else if is_word(word, "READ") {
        Some(Right::Read)
    } else if is_word(word, "WRITE") {
        Some(Right::Write)
    } else if is_word(word, "WAIT") {
        Some(Right::Wait)
    } else if is_word(word, "CHANGE") {
        Some(Right::Change)
    } else if is_word(word, "LAUNCH") {
        Some(Right::Launch)
    } else {
        None
    }
}

// A set with a further right.
fn with_right(mut rights: Rights, right: Right) -> Rights
    ensures { result ≡ with_right rights right }
{
    rights.insert(Rights::of(right));
    rights
}

// A set with the rights of the names between commas.
fn rights_with(rights: Rights, word: &[u8]) -> Option<Rights>
    ensures { result ≡ rights_with rights (items word.now) }
{
    let (name, further) = split_item(word);
    let rights = with_right(rights, right_named(name)?);
    match further {
        Some(names) => rights_with(rights, names),
        None => Some(rights),
    }
}

/// A set of rights.
pub fn rights(word: &[u8]) -> Option<Rights>
    ensures { result ≡ rights_word word.now }
{
    if is_word(word, "-") {
        return Some(Rights::NONE);
    }
    rights_with(Rights::NONE, word)
}

/// A kind of objects.
pub fn kind(word: &[u8]) -> Option<Kind>
    ensures { result ≡ kind_named word.now }
{
    if is_word(word, "agent") {
        Some(Kind::Agent)
    } else if is_word(word, "region") {
        Some(Kind::Region)
    } else if is_word(word, "signal") {
        Some(Kind::Signal)
    } else if is_word(word, "kernel") {
        Some(Kind::Kernel)
    } else {
        None
    }
}

/// Writes an item of a list with commas; `behind` says whether another stands before it.
pub fn write_item(out: &mut String, behind: bool, item: &str) -> Result<(), AllocError>
    ensures { OnOk result (string_bytes out.new ≡ string_bytes out.old ++ (comma_if behind ++ item.now)) }
{
    if behind {
        out.push_str(",")?;
    }
    out.push_str(item)
}

/// Writes the rights of a set.
pub fn write_rights(out: &mut String, rights: Rights) -> Result<(), AllocError>
    ensures { OnOk result (string_bytes out.new ≡ string_bytes out.old ++ text_of_rights rights) }
{
    let mut any = false;
    for right in Right::ALL {
        if rights.has(right) {
            write_item(out, any, right.name())?;
            any = true;
        }
    }
    if any { Ok(()) } else { out.push_str("-") }
}
