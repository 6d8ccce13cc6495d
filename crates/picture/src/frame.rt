//! What a page is drawn by.

ghost use Rattle.std.specs.Prelude.{◌≡◌, ◌+◌, ◌<◌, ◌≤◌, ◌^◌, IfOk, length, take};
ghost use Rattle.picture.specs.Frames.{lesser, asked_of, skipped_of, step_of, more_of, room_of_number, bare_for, front_of, frame_of};
ghost use Rattle.picture.specs.Reading.{greater};

use crate::element::{Frame, Span};
use crate::lanes::{lanes_from, pass_entries};
use crate::seats::seats_of;
use core_model::{Entry, Origin};
use std::alloc::{AllocError, Global};

/// How many entries are drawn at the most.
pub const MOST_DRAWN: u64 = 20000;

/// How much room the entries of a band are to fill.
pub const ROOM: u64 = 1400;

/// How far entries are from each other at the most.
pub const WIDEST: u64 = 26;

/// How far they are from each other at the least.
pub const NARROWEST: u64 = 12;

/// How many places of a band stand behind its first at the most.
pub const BEHIND: u64 = 115;

/// How much room a number of up to three digits wants on the axis.
pub const THREE: u64 = 22;

/// How much room one of up to six digits wants.
pub const SIX: u64 = 40;

/// How much room any number wants.
pub const ALL: u64 = 124;

// The lesser of two numbers.
fn lesser(a: u64, b: u64) -> u64
    ensures { result ≡ lesser a b }
{
    if a < b { a } else { b }
}

// The greater of two numbers.
fn greater(a: u64, b: u64) -> u64
    ensures { result ≡ greater a b }
{
    if a < b { b } else { a }
}

// The first entries, at most so many.
fn up_to(entries: &[Entry], most: u64) -> &[Entry]
    ensures { result.now ≡ take most entries.now }
{
    if most < entries.len() as u64 {
        &entries[..most as usize]
    } else {
        entries
    }
}

/// The entries up to the last that is asked for, behind so many.
pub(crate) fn asked_of(before: u64, span: Span, entries: &[Entry]) -> &[Entry]
    ensures { result.now ≡ asked_of before span entries.now }
{
    up_to(entries, span.last.saturating_sub(before))
}

// How many of so many entries aren't drawn.
fn skipped_of(before: u64, count: u64, span: Span) -> u64
    ensures exact { result ≡ skipped_of before count span }
    ensures bound { result ≤ count }
{
    let asked = span.first.saturating_sub(1).saturating_sub(before);
    let least = count.saturating_sub(MOST_DRAWN);
    lesser(count.saturating_sub(1), greater(asked, least))
}

// How far so many entries are from each other.
fn step_of(count: u32) -> u64
    ensures exact { result ≡ step_of count }
    ensures least { 1 ≤ result }
    ensures bound { result < 2 ^ 8 }
{
    lesser(WIDEST, greater(NARROWEST, ROOM / (count as u64 + 1)))
}

// How many places of a band stand behind its first, where entries are so far from each other.
fn more_of(step: u64) -> u64
    requires { 1 ≤ step }
    ensures exact { result ≡ more_of step }
    ensures bound { result < 2 ^ 8 }
{
    lesser(BEHIND, (ROOM / step).saturating_sub(1))
}

// How much room a number on the axis wants.
fn room_of_number(number: u128) -> u64
    ensures { result ≡ room_of_number number }
{
    if number < 1000 {
        THREE
    } else if number < 1000000 {
        SIX
    } else {
        ALL
    }
}

// Of how many entries between two numbers on the axis none has its own.
fn bare_for(step: u64, room: u64) -> u8
    requires { step < 2 ^ 8 }
    ensures { result ≡ bare_for step room }
{
    if room < step {
        0
    } else if room < step * 5 {
        4
    } else if room < step * 10 {
        9
    } else {
        19
    }
}

/// What the layer before that behind is drawn by.
pub(crate) fn front_of(frame: Frame) -> Frame
    ensures { result ≡ front_of frame }
{
    Frame {
        is_behind: false,
        ..frame
    }
}

/// What the layer behind is drawn by, of these entries.
pub(crate) fn frame_of(
    alloc: Global,
    origin: &Origin,
    entries: &[Entry],
    span: Span,
) -> Result<Frame, AllocError>
    requires { length entries.now < 2 ^ 32 }
    ensures { IfOk result (λ frame. frame ≡ frame_of origin.now entries.now span) }
{
    let before = origin.before;
    let count = entries.len() as u32;
    let skipped = skipped_of(before, count as u64, span) as u32;
    let step = step_of(count - skipped);
    let seats = seats_of(alloc, origin.packets.as_slice())?;
    let mut lanes = lanes_from(alloc, origin.queues.as_slice())?;
    pass_entries(&mut lanes, seats, skipped, entries)?;
    Ok(Frame {
        is_behind: true,
        before,
        skipped,
        lanes,
        step: step as u8,
        more: more_of(step) as u8,
        bare: bare_for(step, room_of_number(before as u128 + count as u128)),
    })
}
