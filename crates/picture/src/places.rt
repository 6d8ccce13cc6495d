//! Where what is drawn stands: bands below each other, lanes and rows in each, and in which bands an element has a piece.

ghost use Rattle.std.specs.Prelude.{◌≡◌, ◌<◌, ◌^◌, ◌-◌};
ghost use Rattle.picture.specs.Shapes.{column_of, band_of, left_of_column, left_of, depth_at, height_at, height_of_lane, height_of_lanes, top_of_lane, foot_of, shift_of, has_lane, top_of_row, width_of_mark, width_of_tick, until_of, pieces_of, is_last, first_of, last_of, length_of, width_of_end, width_of, is_behind, is_tick, drop_of, top_of, height_of};

use crate::element::{Element, Frame, Lane, Sign, Spot};
use crate::lanes::place_of;

/// How much stands to the left of the entries.
pub const MARGIN: u64 = 150;

/// Where an arrow begins that comes from another band.
pub const LEAD: u64 = 138;

/// How far from the page's left edge words stand.
pub const EDGE: u64 = 6;

/// Where the first band begins.
pub const BANDS: u64 = 72;

/// On which line the numbers of entries stand in it.
pub const AXIS: u64 = 88;

/// Where its lane of the administrator and of clients begins.
pub const HOSTS: u64 = 92;

/// Where its lanes of queues begin.
pub const LANES: u64 = 130;

/// How much of a lane stands above its rows.
pub const HEAD: u64 = 16;

/// How high a row is.
pub const ROW: u64 = 22;

/// How far lanes are from each other.
pub const GAP: u64 = 6;

/// How high a bar is.
pub const BAR: u64 = 18;

/// How far below the begin of a bar its ticks begin.
pub const DROP: u64 = 12;

/// How high a tick is.
pub const TICK: u64 = 6;

/// How high a mark is.
pub const MARK: u64 = 12;

/// How wide a tick is, at most.
pub const THIN: u64 = 3;

/// How wide a letter is, about.
pub const LETTER: u64 = 6;

// How many places stand before an entry's.
fn position_of(frame: &Frame, at: u32) -> u32
    ensures { result ≡ at - frame.now.skipped }
{
    at.saturating_sub(frame.skipped)
}

// How many places of its band stand before an entry's.
fn column_of(frame: &Frame, at: u32) -> u32
    ensures { result ≡ column_of frame.now at }
{
    position_of(frame, at) % (frame.more as u32 + 1)
}

/// The band in which an entry stands, from 0 at the top.
pub(crate) fn band_of(frame: &Frame, at: u32) -> u32
    ensures { result ≡ band_of frame.now at }
{
    position_of(frame, at) / (frame.more as u32 + 1)
}

/// How far to the right so many places are.
pub(crate) fn left_of_column(frame: &Frame, column: u32) -> u64
    ensures exact { result ≡ left_of_column frame.now column }
    ensures bound { result < 2 ^ 42 }
{
    MARGIN + frame.step as u64 * column as u64
}

/// How far to the right an entry's place is.
pub(crate) fn left_of(frame: &Frame, at: u32) -> u64
    ensures exact { result ≡ left_of frame.now at }
    ensures bound { result < 2 ^ 42 }
{
    left_of_column(frame, column_of(frame, at))
}

// The lowest row of a queue's lane, by its place, from 0.
fn depth_at(lanes: &[Lane], place: usize) -> u8
    ensures { result ≡ depth_at lanes.now place }
{
    match lanes.get(place) {
        Some(lane) => lane.depth,
        None => 0,
    }
}

// How high such a lane is.
fn height_at(lanes: &[Lane], place: usize) -> u128
    ensures exact { result ≡ height_at lanes.now place }
    ensures bound { result < 2 ^ 13 }
{
    HEAD as u128 + ROW as u128 * (depth_at(lanes, place) as u128 + 1)
}

// How high so many lanes are, each with the gap below it.
fn height_of_lanes(lanes: &[Lane], count: usize) -> u128
    ensures exact { result ≡ height_of_lanes lanes.now count }
    ensures bound { result < 2 ^ 78 }
{
    let mut height = 0;
    'lanes: for place in 0..count {
        height += height_at(lanes, place) + GAP as u128;
    }
    height
}

// How high the lane of a queue is.
fn height_of_lane(frame: &Frame, lane: u64) -> u128
    ensures exact { result ≡ height_of_lane frame.now lane }
    ensures bound { result < 2 ^ 13 }
{
    let lanes = frame.lanes.as_slice();
    height_at(lanes, place_of(lanes, lane))
}

/// Where a lane of the first band begins.
pub(crate) fn top_of_lane(frame: &Frame, lane: u64) -> u128
    ensures exact { result ≡ top_of_lane frame.now lane }
    ensures bound { result < 2 ^ 79 }
{
    if lane == 0 {
        HOSTS as u128
    } else {
        let lanes = frame.lanes.as_slice();
        LANES as u128 + height_of_lanes(lanes, place_of(lanes, lane))
    }
}

/// Where the lanes of the first band end.
pub(crate) fn foot_of(frame: &Frame) -> u128
    ensures exact { result ≡ foot_of frame.now }
    ensures bound { result < 2 ^ 79 }
{
    LANES as u128 + height_of_lanes(frame.lanes.as_slice(), frame.lanes.len())
}

/// How far a band is below the first.
pub(crate) fn shift_of(frame: &Frame, band: u64) -> u128
    requires { band < 2 ^ 34 }
    ensures exact { result ≡ shift_of frame.now band }
    ensures bound { result < 2 ^ 113 }
{
    band as u128 * foot_of(frame).saturating_sub(BANDS as u128)
}

/// Whether a lane is on the page.
pub(crate) fn has_lane(frame: &Frame, lane: u64) -> bool
    ensures { result ≡ has_lane frame.now lane }
{
    lane == 0 || place_of(frame.lanes.as_slice(), lane) < frame.lanes.len()
}

/// Where a row of a lane of the first band begins.
pub(crate) fn top_of_row(frame: &Frame, spot: Spot) -> u128
    ensures exact { result ≡ top_of_row frame.now spot }
    ensures bound { result < 2 ^ 80 }
{
    top_of_lane(frame, spot.lane) + HEAD as u128 + ROW as u128 * spot.row as u128
}

/// How wide a mark is.
pub(crate) fn width_of_mark(frame: &Frame) -> u64
    ensures exact { result ≡ width_of_mark frame.now }
    ensures bound { result < 2 ^ 8 }
{
    frame.step as u64 / 2
}

/// How wide a tick is.
pub(crate) fn width_of_tick(frame: &Frame) -> u64
    ensures exact { result ≡ width_of_tick frame.now }
    ensures bound { result < 2 ^ 8 }
{
    let mark = width_of_mark(frame);
    if mark < THIN { mark } else { THIN }
}

// Up to where an element reaches.
fn until_of(element: &Element) -> u32
    ensures { result ≡ until_of element.now element.now.sign }
{
    match &element.sign {
        Sign::Lane { .. } | Sign::Bar { .. } => element.until,
        _ => element.spot.at,
    }
}

/// In how many bands an element stands.
pub(crate) fn pieces_of(frame: &Frame, element: &Element) -> u64
    ensures exact { result ≡ pieces_of frame.now element.now }
    ensures bound { result < 2 ^ 33 }
{
    let first = band_of(frame, element.spot.at);
    let last = band_of(frame, until_of(element));
    last.saturating_sub(first) as u64 + 1
}

// Whether a piece is an element's last.
fn is_last(frame: &Frame, element: &Element, piece: u64) -> bool
    requires { piece < 2 ^ 33 }
    ensures { result ≡ is_last frame.now element.now piece }
{
    let first = band_of(frame, element.spot.at);
    let last = band_of(frame, until_of(element));
    last as u64 <= first as u64 + piece
}

/// How many places of the band stand before a piece.
pub(crate) fn first_of(frame: &Frame, element: &Element, piece: u64) -> u32
    ensures { result ≡ first_of frame.now element.now piece }
{
    if piece == 0 {
        column_of(frame, element.spot.at)
    } else {
        0
    }
}

// Before which place a piece ends.
fn last_of(frame: &Frame, element: &Element, piece: u64) -> u32
    requires { piece < 2 ^ 33 }
    ensures { result ≡ last_of frame.now element.now piece }
{
    if is_last(frame, element, piece) {
        column_of(frame, until_of(element))
    } else {
        frame.more as u32
    }
}

// How far a piece reaches.
fn length_of(frame: &Frame, element: &Element, piece: u64) -> u64
    requires { piece < 2 ^ 33 }
    ensures exact { result ≡ length_of frame.now element.now piece }
    ensures bound { result < 2 ^ 40 }
{
    let places = last_of(frame, element, piece).saturating_sub(first_of(frame, element, piece));
    frame.step as u64 * places as u64
}

// How wide the end of a bar's piece is.
fn width_of_end(frame: &Frame, element: &Element, piece: u64) -> u64
    requires { piece < 2 ^ 33 }
    ensures exact { result ≡ width_of_end frame.now element.now piece }
    ensures bound { result < 2 ^ 8 }
{
    if is_last(frame, element, piece) {
        width_of_mark(frame)
    } else {
        frame.step as u64
    }
}

/// How wide a piece is.
pub(crate) fn width_of(frame: &Frame, element: &Element, piece: u64) -> u64
    requires { piece < 2 ^ 33 }
    ensures { result ≡ width_of frame.now element.now piece element.now.sign }
{
    match &element.sign {
        Sign::Lane { .. } => length_of(frame, element, piece) + frame.step as u64,
        Sign::Bar { .. } => length_of(frame, element, piece) + width_of_end(frame, element, piece),
        Sign::Group { .. } | Sign::Reload { .. } | Sign::Stop | Sign::Close => width_of_tick(frame),
        _ => width_of_mark(frame),
    }
}

/// Whether a sign goes over its lane, or over all lanes, behind the others.
pub(crate) fn is_behind(sign: &Sign) -> bool
    ensures { result ≡ is_behind sign.now }
{
    matches!(
        sign,
        Sign::Lane { .. } | Sign::Reload { .. } | Sign::Stop | Sign::Close
    )
}

// Whether a sign is a tick, in the lower part of a bar.
fn is_tick(sign: &Sign) -> bool
    ensures { result ≡ is_tick sign.now }
{
    matches!(
        sign,
        Sign::Group { .. }
            | Sign::Look { .. }
            | Sign::Completion(_)
            | Sign::Fault(_)
            | Sign::Failure(_)
    )
}

// How far below the begin of its row a sign begins.
fn drop_of(sign: &Sign) -> u64
    ensures exact { result ≡ drop_of sign.now }
    ensures bound { result < 2 ^ 8 }
{
    if is_tick(sign) { DROP } else { 0 }
}

/// Where an element would begin in the first band.
pub(crate) fn top_of(frame: &Frame, element: &Element) -> u128
    ensures exact { result ≡ top_of frame.now element.now }
    ensures bound { result < 2 ^ 81 }
{
    if is_behind(&element.sign) {
        top_of_lane(frame, element.spot.lane)
    } else {
        top_of_row(frame, element.spot) + drop_of(&element.sign) as u128
    }
}

/// How high a sign in a lane is.
pub(crate) fn height_of(frame: &Frame, lane: u64, sign: &Sign) -> u128
    ensures { result ≡ height_of frame.now lane sign.now }
{
    match sign {
        Sign::Lane { .. } | Sign::Stop | Sign::Close => height_of_lane(frame, lane),
        Sign::Reload { .. } => foot_of(frame).saturating_sub((HOSTS + GAP) as u128),
        Sign::Bar { .. } => BAR as u128,
        Sign::Group { .. }
        | Sign::Look { .. }
        | Sign::Completion(_)
        | Sign::Fault(_)
        | Sign::Failure(_) => TICK as u128,
        _ => MARK as u128,
    }
}
