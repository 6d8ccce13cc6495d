//! Objects, rights, rows and errors as they are read.

ghost use Rattle.std.specs.Prelude.{◌≡◌, IfOk};
ghost use Rattle.journal.specs.Words.{seen, words_behind};
ghost use Rattle.journal.specs.Readings.{agent_at, region_at, signal_at, kernel_at, object_named, object_at, client_at, rights_at, rights_on_at, one_client_at, grantee_named, grantee_at, kind_named, each_at, one_object_at, target_named, target_at, row_at, list_at, rows_at, packet_named_at, work_rule_named, rule_named, rule_at, global_at, group_at, address_named, address_at, inside_at, place_named, place_at, error_at};

use crate::digits::{number_at, small_at, tiny_at};
use crate::splitting::{Rest, is_word, next_word};
use aql_packet::{
    AgentHandle, ClientId, KernelObject, PacketId, QueueId, RegionHandle, SignalHandle,
};
use bitflags::Flags;
use policy::{Grantee, Kind, Object, PolicyRows, Rights, RightsRow, Target};
use queue_error::{FaultPlace, QueueError, Rule, SegmentAddress};
use sequences::Sequence;
use std::alloc::{AllocError, Global};

// An agent, by its number.
fn agent_at(rest: Rest) -> Option<(Object, Rest)>
    ensures { seen result ≡ agent_at (words_behind rest.entry) }
{
    let (number, rest) = small_at(rest)?;
    Some((Object::Agent(AgentHandle(number)), rest))
}

// A region, by its number.
fn region_at(rest: Rest) -> Option<(Object, Rest)>
    ensures { seen result ≡ region_at (words_behind rest.entry) }
{
    let (number, rest) = small_at(rest)?;
    Some((Object::Region(RegionHandle(number)), rest))
}

// A signal, by its number.
fn signal_at(rest: Rest) -> Option<(Object, Rest)>
    ensures { seen result ≡ signal_at (words_behind rest.entry) }
{
    let (number, rest) = number_at(rest)?;
    Some((Object::Signal(SignalHandle(number)), rest))
}

// A kernel, by its number.
fn kernel_at(rest: Rest) -> Option<(Object, Rest)>
    ensures { seen result ≡ kernel_at (words_behind rest.entry) }
{
    let (number, rest) = number_at(rest)?;
    Some((Object::Kernel(KernelObject(number)), rest))
}

// An object of the kind that a word names.
fn object_named<'a>(word: &[u8], rest: Rest<'a>) -> Option<(Object, Rest<'a>)>
    ensures { seen result ≡ object_named word.now (words_behind rest.entry) }
{
    if is_word(word, "agent") {
        agent_at(rest)
    } else if is_word(word, "region") {
        region_at(rest)
    } else if is_word(word, "signal") {
        signal_at(rest)
    } else if is_word(word, "kernel") {
        kernel_at(rest)
    } else {
        None
    }
}

// An object.
fn object_at(rest: Rest) -> Option<(Object, Rest)>
    ensures { seen result ≡ object_at (words_behind rest.entry) }
{
    let (word, rest) = next_word(rest)?;
    object_named(word, rest)
}

/// A client, by its number.
pub fn client_at(rest: Rest) -> Option<(ClientId, Rest)>
    ensures { seen result ≡ client_at (words_behind rest.entry) }
{
    let (number, rest) = small_at(rest)?;
    Some((ClientId(number), rest))
}

// Rights, by their bits.
fn rights_at(rest: Rest) -> Option<(Rights, Rest)>
    ensures { seen result ≡ rights_at (words_behind rest.entry) }
{
    let (bits, rest) = tiny_at(rest)?;
    Some((Rights::from_bits_retain(bits), rest))
}

/// A client, an object, and rights on it.
pub fn rights_on_at(rest: Rest) -> Option<((ClientId, Object, Rights), Rest)>
    ensures { seen result ≡ rights_on_at (words_behind rest.entry) }
{
    let (client, rest) = client_at(rest)?;
    let (object, rest) = object_at(rest)?;
    let (rights, rest) = rights_at(rest)?;
    Some(((client, object, rights), rest))
}

// One client, as whom a row on rights covers.
fn one_client_at(rest: Rest) -> Option<(Grantee, Rest)>
    ensures { seen result ≡ one_client_at (words_behind rest.entry) }
{
    let (client, rest) = client_at(rest)?;
    Some((Grantee::One(client), rest))
}

// Whom a row on rights covers, as a word names it.
fn grantee_named<'a>(word: &[u8], rest: Rest<'a>) -> Option<(Grantee, Rest<'a>)>
    ensures { seen result ≡ grantee_named word.now (words_behind rest.entry) }
{
    if is_word(word, "anyone") {
        Some((Grantee::Any, rest))
    } else if is_word(word, "client") {
        one_client_at(rest)
    } else {
        None
    }
}

// Whom a row on rights covers.
fn grantee_at(rest: Rest) -> Option<(Grantee, Rest)>
    ensures { seen result ≡ grantee_at (words_behind rest.entry) }
{
    let (word, rest) = next_word(rest)?;
    grantee_named(word, rest)
}

// The kind of a name.
fn kind_named(word: &[u8]) -> Option<Kind>
    ensures { result ≡ kind_named word.now }
{
    if is_word(word, "agent") {
        Some(Kind::Agent)
    } else if is_word(word, "region") {
        Some(Kind::Region)
    } else if is_word(word, "signal") {
        Some(Kind::Signal)
    } else if is_word(word, "kernel") {
        Some(Kind::Kernel)
    } else {
        None
    }
}

// Each object of a kind, as what a row on rights covers.
fn each_at(rest: Rest) -> Option<(Target, Rest)>
    ensures { seen result ≡ each_at (words_behind rest.entry) }
{
    let (word, rest) = next_word(rest)?;
    Some((Target::Any(kind_named(word)?), rest))
}

// One object, as what a row on rights covers.
fn one_object_at(rest: Rest) -> Option<(Target, Rest)>
    ensures { seen result ≡ one_object_at (words_behind rest.entry) }
{
    let (object, rest) = object_at(rest)?;
    Some((Target::One(object), rest))
}

// What a row on rights covers, as a word names it.
fn target_named<'a>(word: &[u8], rest: Rest<'a>) -> Option<(Target, Rest<'a>)>
    ensures { seen result ≡ target_named word.now (words_behind rest.entry) }
{
    if is_word(word, "each") {
        each_at(rest)
    } else if is_word(word, "one") {
        one_object_at(rest)
    } else {
        None
    }
}

// What a row on rights covers.
fn target_at(rest: Rest) -> Option<(Target, Rest)>
    ensures { seen result ≡ target_at (words_behind rest.entry) }
{
    let (word, rest) = next_word(rest)?;
    target_named(word, rest)
}

// A row on rights.
fn row_at(rest: Rest) -> Option<(RightsRow, Rest)>
    ensures { seen result ≡ row_at (words_behind rest.entry) }
{
    let (subject, rest) = grantee_at(rest)?;
    let (target, rest) = target_at(rest)?;
    let (rights, rest) = rights_at(rest)?;
    Some((
        RightsRow {
            subject,
            target,
            rights,
        },
        rest,
    ))
}

// So many rows on rights as a number says.
fn row_list_at(alloc: Global, rest: Rest) -> Result<Option<(Sequence<RightsRow>, Rest)>, AllocError>
    ensures { IfOk result (λ read. seen read ≡ list_at row_at (words_behind rest.entry)) }
{
    let Some((count, behind)) = number_at(rest) else {
        return Ok(None);
    };
    let mut rows = Sequence::new(alloc);
    let mut left = behind;
    for _place in 0..count {
        let Some((row, further)) = row_at(left) else {
            return Ok(None);
        };
        rows.push(row)?;
        left = further;
    }
    Ok(Some((rows, left)))
}

/// The rows of a policy.
pub fn rows_at(alloc: Global, rest: Rest) -> Result<Option<(PolicyRows, Rest)>, AllocError>
    ensures { IfOk result (λ read. seen read ≡ rows_at (words_behind rest.entry)) }
{
    let Some((allows, rest)) = row_list_at(alloc, rest)? else {
        return Ok(None);
    };
    let Some((denies, rest)) = row_list_at(alloc, rest)? else {
        return Ok(None);
    };
    Ok(Some((PolicyRows { allows, denies }, rest)))
}

/// A queue, and the id of a packet.
pub fn packet_named_at(rest: Rest) -> Option<((QueueId, PacketId), Rest)>
    ensures { seen result ≡ packet_named_at (words_behind rest.entry) }
{
    let (queue, rest) = number_at(rest)?;
    let (packet, rest) = number_at(rest)?;
    Some(((QueueId(queue), PacketId(packet)), rest))
}

// The rule of a packet's work that has a name.
fn work_rule_named(word: &[u8]) -> Option<Rule>
    ensures { result ≡ work_rule_named word.now }
{
    if is_word(word, "A1") {
        Some(Rule::A1)
    } else if is_word(word, "A2") {
        Some(Rule::A2)
    } else if is_word(word, "A3") {
        Some(Rule::A3)
    } else if is_word(word, "A4") {
        Some(Rule::A4)
    } else if is_word(word, "A5") {
        Some(Rule::A5)
    } else if is_word(word, "A6") {
        Some(Rule::A6)
    } else if is_word(word, "A7") {
        Some(Rule::A7)
    } else if is_word(word, "B1") {
        Some(Rule::B1)
    } else {
        None
    }
}

// The rule that has a name.
fn rule_named(word: &[u8]) -> Option<Rule>
    ensures { result ≡ rule_named word.now }
{
    if is_word(word, "L1") {
        Some(Rule::L1)
    } else if is_word(word, "L2") {
        Some(Rule::L2)
    } else if is_word(word, "L3") {
        Some(Rule::L3)
    } else if is_word(word, "L4") {
        Some(Rule::L4)
    } else if is_word(word, "L5") {
        Some(Rule::L5)
    } else if is_word(word, "L6") {
        Some(Rule::L6)
    } else if is_word(word, "L7") {
        Some(Rule::L7)
    } else if is_word(word, "L8") {
        Some(Rule::L8)
    } else if is_word(word, "L9") {
        Some(Rule::L9)
    } else if is_word(word, "L10") {
        Some(Rule::L10)
    } else {
        work_rule_named(word)
    }
}

// A rule, by its name.
fn rule_at(rest: Rest) -> Option<(Rule, Rest)>
    ensures { seen result ≡ rule_at (words_behind rest.entry) }
{
    let (word, rest) = next_word(rest)?;
    Some((rule_named(word)?, rest))
}

// An address of memory.
fn global_at(rest: Rest) -> Option<(Option<SegmentAddress>, Rest)>
    ensures { seen result ≡ global_at (words_behind rest.entry) }
{
    let (address, rest) = number_at(rest)?;
    Some((Some(SegmentAddress::Global(address)), rest))
}

// An address of the group segment.
fn group_at(rest: Rest) -> Option<(Option<SegmentAddress>, Rest)>
    ensures { seen result ≡ group_at (words_behind rest.entry) }
{
    let (address, rest) = small_at(rest)?;
    Some((Some(SegmentAddress::Group(address)), rest))
}

// The address that a work-item asked for, as a word names it.
fn address_named<'a>(word: &[u8], rest: Rest<'a>) -> Option<(Option<SegmentAddress>, Rest<'a>)>
    ensures { seen result ≡ address_named word.now (words_behind rest.entry) }
{
    if is_word(word, "nowhere") {
        Some((None, rest))
    } else if is_word(word, "global") {
        global_at(rest)
    } else if is_word(word, "group") {
        group_at(rest)
    } else {
        None
    }
}

// The address that a work-item asked for, where it asked for one.
fn address_at(rest: Rest) -> Option<(Option<SegmentAddress>, Rest)>
    ensures { seen result ≡ address_at (words_behind rest.entry) }
{
    let (word, rest) = next_word(rest)?;
    address_named(word, rest)
}

// Where in a kernel's work a rule was broken.
fn inside_at(rest: Rest) -> Option<(Option<FaultPlace>, Rest)>
    ensures { seen result ≡ inside_at (words_behind rest.entry) }
{
    let (group, rest) = small_at(rest)?;
    let (item, rest) = small_at(rest)?;
    let (line, rest) = small_at(rest)?;
    let (address, rest) = address_at(rest)?;
    let place = FaultPlace {
        group,
        item,
        line,
        address,
    };
    Some((Some(place), rest))
}

// Where a rule was broken, as a word names it.
fn place_named<'a>(word: &[u8], rest: Rest<'a>) -> Option<(Option<FaultPlace>, Rest<'a>)>
    ensures { seen result ≡ place_named word.now (words_behind rest.entry) }
{
    if is_word(word, "whole") {
        Some((None, rest))
    } else if is_word(word, "at") {
        inside_at(rest)
    } else {
        None
    }
}

// Where a rule was broken.
fn place_at(rest: Rest) -> Option<(Option<FaultPlace>, Rest)>
    ensures { seen result ≡ place_at (words_behind rest.entry) }
{
    let (word, rest) = next_word(rest)?;
    place_named(word, rest)
}

/// An error: whose it is, the rule, and where.
pub fn error_at(rest: Rest) -> Option<(QueueError, Rest)>
    ensures { seen result ≡ error_at (words_behind rest.entry) }
{
    let ((queue, packet), rest) = packet_named_at(rest)?;
    let (rule, rest) = rule_at(rest)?;
    let (place, rest) = place_at(rest)?;
    Some((
        QueueError {
            queue,
            packet,
            rule,
            place,
        },
        rest,
    ))
}
