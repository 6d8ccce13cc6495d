//! Why a call was refused.

use crate::asked::{Asked, Verb, queue_of};
use crate::downs::{Down, put_down, put_unserved};
use crate::keys::rights_of;
use crate::lacks::{Lack, lacked};
use crate::rings::{is_never_ready, tell_dependencies, tell_holder, tell_never_ready};
use crate::scene::{Mended, Scene, begin, put_why_not, say, tell_lacks};
use crate::texts::{lies_whole, put_clients, put_object, put_objects, put_range};
use aql_packet::{ClientId, PacketId, QueueId, is_ring_size};
use core_model::{MOST_HOST_BYTES, Range, Refusal};
use packet_processor::{Place, is_barrier};
use policy::{Kind, Object, Right, Rights};
use queue_error::{QueueError, Rule};
use ring_core::is_producer_count;
use script::{Occasion, rule_rows};
use std::alloc::AllocError;
use world::World;

// No client has the name.
fn tell_client(out: &mut String, scene: &Scene<'_>) -> Result<(), AllocError> {
    begin(out, scene)?;
    out.push_str("the policy declares no client of this name; it has ")?;
    put_clients(out, scene.policy)?;
    out.push_str("\n")
}

// No object of the kind has the name.
fn tell_object(out: &mut String, scene: &Scene<'_>, object: Object) -> Result<(), AllocError> {
    let kind = object.kind();
    begin(out, scene)?;
    write!(out, "the policy declares no {kind} of this name; it has ")?;
    put_objects(out, scene.policy, kind)?;
    out.push_str("\n")
}

// By which entry a queue was closed, or at the latest.
fn tell_closed(out: &mut String, scene: &Scene<'_>, queue: QueueId) -> Result<(), AllocError> {
    let number = queue.0;
    begin(out, scene)?;
    match scene.known.close_of(queue) {
        Some(entry) => writeln!(out, "queue {number} was closed by entry {entry}"),
        None => {
            let last = scene.core.start().before;
            writeln!(
                out,
                "queue {number} was closed at the latest by entry {last}"
            )
        }
    }
}

// No open queue has the number.
fn tell_queue(out: &mut String, scene: &Scene<'_>, queue: QueueId) -> Result<(), AllocError> {
    let count = scene.known.opened();
    if 0 < queue.0 && queue.0 <= count {
        return tell_closed(out, scene, queue);
    }
    begin(out, scene)?;
    if count == 0 {
        return out.push_str("no queue is open: `queue CLIENT AGENT SIZE PRODUCERS` opens one\n");
    }
    writeln!(
        out,
        "no queue of this number is open: queues are numbered from 1, and {count} were opened"
    )
}

// A right on an object that a client lacks for what it asks: the core denied it.
fn tell_right(
    out: &mut String,
    scene: &Scene<'_>,
    client: ClientId,
    object: Object,
    right: Right,
) -> Result<(), AllocError> {
    if object.number() == 0 {
        return tell_object(out, scene, object);
    }
    let lack = lacked(scene.rows, client, object, right);
    tell_lacks(out, scene, &[Some(lack)], "", Mended::Call)
}

// A right on a range that a client lacks for what it asks.
fn tell_memory(
    out: &mut String,
    scene: &Scene<'_>,
    client: ClientId,
    range: Range,
    right: Right,
) -> Result<(), AllocError> {
    let region = Object::Region(regions::region_of(range.address));
    if lies_whole(scene.policy, range) {
        return tell_right(out, scene, client, region, right);
    }
    begin(out, scene)?;
    out.push_str("the ")?;
    put_range(out, range)?;
    if scene.policy.object_name(region).is_none() {
        return out.push_str(" lie in no region of the policy\n");
    }
    out.push_str(" don't lie whole in ")?;
    put_object(out, scene.policy, region)?;
    out.push_str("\n")
}

// Why a queue may not be opened: the right that is lacking, and the size, where that would be refused then.
fn tell_denied_opening(
    out: &mut String,
    scene: &Scene<'_>,
    asked: Asked,
    right: Right,
) -> Result<(), AllocError> {
    let Asked::Opening {
        client,
        agent,
        size,
        producers,
    } = asked
    else {
        return Ok(());
    };
    tell_right(out, scene, client, Object::Agent(agent), right)?;
    if is_ring_size(size) && is_producer_count(producers) {
        Ok(())
    } else {
        tell_size(out, scene, asked)
    }
}

// Why a call was denied.
fn tell_denied_call(
    out: &mut String,
    scene: &Scene<'_>,
    asked: Asked,
    right: Right,
) -> Result<(), AllocError> {
    match asked {
        Asked::Opening { .. } => tell_denied_opening(out, scene, asked, right),
        Asked::Signal { client, signal, .. } => {
            tell_right(out, scene, client, Object::Signal(signal), right)
        }
        Asked::Memory {
            client,
            address,
            length,
            ..
        } => {
            let range = Range {
                address,
                size: length,
            };
            tell_memory(out, scene, client, range, right)
        }
        _ => Ok(()),
    }
}

// A right that there isn't on objects of a kind, and those that there are.
fn tell_other_rights(out: &mut String, kind: Kind, right: Right) -> Result<(), AllocError> {
    let article = if kind == Kind::Agent { "an" } else { "a" };
    write!(out, "{right} is no right on {article} {kind}: there is ")?;
    for (place, other) in rights_of(kind).iter().enumerate() {
        if place > 0 {
            out.push_str(" and ")?;
        }
        out.push_str(other.name())?;
    }
    out.push_str("\n")
}

// Why a right may not be granted.
fn tell_not_allowed(
    out: &mut String,
    scene: &Scene<'_>,
    client: ClientId,
    object: Object,
    right: Right,
) -> Result<(), AllocError> {
    if scene.rows.allowed(client, object).has(right) {
        return Ok(());
    }
    begin(out, scene)?;
    let kind = object.kind();
    if !rights_of(kind).contains(&right) {
        return tell_other_rights(out, kind, right);
    }
    let lack = Lack {
        client,
        object,
        right,
        is_allowed: false,
    };
    put_why_not(out, scene, &lack)?;
    out.push_str("\n")
}

// Why rights may not be granted, each that may not.
fn tell_grant(out: &mut String, scene: &Scene<'_>, asked: Asked) -> Result<(), AllocError> {
    let Asked::Rights {
        client,
        object,
        rights,
    } = asked
    else {
        return Ok(());
    };
    for right in Right::ALL {
        if rights.has(right) {
            tell_not_allowed(out, scene, client, object, right)?;
        }
    }
    Ok(())
}

// Why a queue launches nothing more.
fn tell_down(out: &mut String, scene: &Scene<'_>, asked: Asked) -> Result<(), AllocError> {
    let queue = match asked {
        Asked::Processing { queue, .. } | Asked::Queue { queue } => queue,
        _ => return Ok(()),
    };
    begin(out, scene)?;
    match scene.core.errors_of(queue).last() {
        Some(error) => put_down(out, Down::Failed(*error)),
        None => put_down(out, Down::Stopped),
    }
}

// Whether the packet of a queue and an id was handed over: each whose id is below the read index was, none above it.
fn is_handed_over(scene: &Scene<'_>, world: &World, queue: QueueId, packet: PacketId) -> bool {
    let Some(ring) = world.ring(queue) else {
        return false;
    };
    let head = ring.read_index();
    packet.0 < head || (packet.0 == head && packet.0 < scene.core.next_packet(queue))
}

// Whether a rule is one by which a packet isn't launched.
fn is_of_launches(rule: Rule) -> bool {
    rule_rows()
        .iter()
        .any(|row| row.rule == rule && row.occasion == Occasion::Launch)
}

// The error by which a packet was denied, if it was.
fn denial(errors: &[QueueError], packet: PacketId) -> Option<QueueError> {
    errors
        .iter()
        .find(|error| error.packet == packet && is_of_launches(error.rule))
        .copied()
}

// Where a packet is that isn't in flight.
fn tell_gone(
    out: &mut String,
    scene: &Scene<'_>,
    world: &World,
    queue: QueueId,
    packet: PacketId,
) -> Result<(), AllocError> {
    let id = packet.0;
    let number = queue.0;
    if !is_handed_over(scene, world, queue, packet) {
        return match world.ring(queue) {
            Some(ring) => put_unserved(out, scene, queue, ring, packet),
            None => writeln!(out, "queue {number} has no ring"),
        };
    }
    match denial(scene.core.errors_of(queue), packet) {
        Some(error) => writeln!(out, "it was denied: `{error}`"),
        None => writeln!(
            out,
            "packet {id} of queue {number} was launched, and has left flight since"
        ),
    }
}

// Why a packet isn't in flight for a call.
fn tell_not_in_flight(
    out: &mut String,
    scene: &Scene<'_>,
    world: &World,
    asked: Asked,
) -> Result<(), AllocError> {
    let Asked::Flying {
        queue,
        packet,
        verb,
    } = asked
    else {
        return Ok(());
    };
    begin(out, scene)?;
    if scene.core.flying(queue, packet).is_none() {
        return tell_gone(out, scene, world, queue, packet);
    }
    out.push_str(match verb {
        Verb::Run => "it is a barrier packet, which `poll` brings on, not `run`\n",
        _ => "it is a dispatch, which `run` brings on, not `poll`\n",
    })
}

// Why a packet of a queue isn't finished.
fn tell_unfinished(
    out: &mut String,
    scene: &Scene<'_>,
    queue: QueueId,
    place: &Place,
) -> Result<(), AllocError> {
    if is_never_ready(&place.packet) {
        return tell_never_ready(out, scene, queue, place.id);
    }
    let queue = queue.0;
    let id = place.id.0;
    begin(out, scene)?;
    if is_barrier(&place.packet) {
        writeln!(
            out,
            "the barrier packet is not ready: `poll {queue} {id}` until it is"
        )?;
        return tell_dependencies(out, scene, place);
    }
    let run = place.progress.groups_run;
    writeln!(
        out,
        "work-groups are left, and {run} were run: `run {queue} {id}` until it tells `left 0`"
    )
}

// Why a packet isn't finished, by its queue and id.
fn tell_not_finished(out: &mut String, scene: &Scene<'_>, asked: Asked) -> Result<(), AllocError> {
    let Asked::Flying { queue, packet, .. } = asked else {
        return Ok(());
    };
    match scene.core.flying(queue, packet) {
        Some(place) => tell_unfinished(out, scene, queue, place),
        None => Ok(()),
    }
}

// The word behind a number of things.
fn are(count: usize) -> &'static str {
    if count == 1 { "is" } else { "are" }
}

// Whether a line may launch a packet.
fn may_launch(asked: Asked) -> bool {
    match asked {
        Asked::Processing { verb, .. } => verb == Verb::Serve || verb == Verb::Take,
        _ => false,
    }
}

// Why the audit has no room, and what makes some.
fn tell_full(out: &mut String, scene: &Scene<'_>, asked: Asked) -> Result<(), AllocError> {
    let sizes = scene.core.table_sizes();
    let places = sizes.audit_places;
    let kept = sizes.argument_blocks;
    let taken = scene.core.audit().len();
    let is_taken = are(taken);
    let is_kept = are(kept);
    begin(out, scene)?;
    writeln!(
        out,
        "the audit has {places} places: {taken} {is_taken} taken, and {kept} {is_kept} kept for packets in flight"
    )?;
    let wants = if may_launch(asked) { 2 } else { 1 };
    if wants == 2 {
        say(
            out,
            scene,
            "a launch wants 2: one for its entry, and one that is kept for the packet's end",
        )?;
    }
    begin(out, scene)?;
    if kept.saturating_add(wants) <= places {
        return out.push_str("`rotate` hands the entries out, and all their places are free then\n");
    }
    out.push_str("`rotate` alone makes too little room: begin anew with a greater `--audit N`\n")
}

// Why a size is refused.
fn tell_size(out: &mut String, scene: &Scene<'_>, asked: Asked) -> Result<(), AllocError> {
    begin(out, scene)?;
    match asked {
        Asked::Opening {
            size,
            producers,
            ..
        } => writeln!(
            out,
            "a queue has 2 to 4096 slots, a power of two, and 1 to 16 producers: {size} slots and {producers} producers are asked for"
        ),
        Asked::Memory { length, .. } => writeln!(
            out,
            "a line reads or writes 1 to {MOST_HOST_BYTES} bytes, and {length} are asked for"
        ),
        _ => out.push_str("a size is out of range\n"),
    }
}

// Whether the header at the read index of a queue's ring was cleared.
fn is_cleared(world: &World, queue: QueueId) -> bool {
    match world.ring(queue) {
        Some(ring) => ring.processor().raising,
        None => false,
    }
}

// A packet that was handed over already.
fn tell_order(
    out: &mut String,
    scene: &Scene<'_>,
    world: &World,
    asked: Asked,
    next: u64,
) -> Result<(), AllocError> {
    begin(out, scene)?;
    match asked {
        Asked::Processing { queue, .. } if is_cleared(world, queue) => {
            let number = queue.0;
            writeln!(
                out,
                "the packet at the read index was launched or denied already, and its header cleared; the next id is {next}: `advance {number}` goes on to it"
            )
        }
        Asked::Processing { queue, .. } => {
            let number = queue.0;
            writeln!(
                out,
                "the packet at the read index was launched or denied already, and the next id is {next}: `retire {number}` goes on to it"
            )
        }
        _ => writeln!(out, "the next id is {next}"),
    }
}

// The right on a range's region that a client lacks, where a region has the range's first address.
fn memory_lack(scene: &Scene<'_>, asked: Asked) -> Option<Lack> {
    let Asked::Memory {
        client,
        address,
        right,
        ..
    } = asked
    else {
        return None;
    };
    let region = Object::Region(regions::region_of(address));
    if scene.policy.declares(region) {
        scene.known.lack_of(client, region, right)
    } else {
        None
    }
}

// Why a size is refused, and the right that would be lacking with another.
fn tell_bad_size(out: &mut String, scene: &Scene<'_>, asked: Asked) -> Result<(), AllocError> {
    tell_size(out, scene, asked)?;
    match memory_lack(scene, asked) {
        Some(lack) => tell_lacks(out, scene, &[Some(lack)], "", Mended::Call),
        None => Ok(()),
    }
}

// The rights on an object that a line takes, if it takes some.
fn taken_by(asked: Asked) -> Option<(Object, Rights)> {
    match asked {
        Asked::Rights { object, rights, .. } => Some((object, rights)),
        _ => None,
    }
}

// The packet that holds a right that a line takes.
fn tell_busy(
    out: &mut String,
    scene: &Scene<'_>,
    asked: Asked,
    queue: QueueId,
    packet: PacketId,
) -> Result<(), AllocError> {
    tell_holder(out, scene, queue, packet, taken_by(asked))
}

/// Why a request was refused by the core.
pub fn tell_refusal(
    out: &mut String,
    scene: &Scene<'_>,
    world: &World,
    asked: Asked,
    refusal: &Refusal,
) -> Result<(), AllocError> {
    match refusal {
        Refusal::OutOfMemory => say(
            out,
            scene,
            "memory was wanted and not to be had; all is as before",
        ),
        Refusal::UnknownClient => tell_client(out, scene),
        Refusal::UnknownQueue => tell_queue(out, scene, queue_of(asked)),
        Refusal::Denied(right) => tell_denied_call(out, scene, asked, *right),
        Refusal::Busy { queue, packet } => tell_busy(out, scene, asked, *queue, *packet),
        Refusal::NotAllowed => tell_grant(out, scene, asked),
        Refusal::OutOfStep(next) => tell_order(out, scene, world, asked, *next),
        Refusal::QueueDown => tell_down(out, scene, asked),
        Refusal::NotInFlight => tell_not_in_flight(out, scene, world, asked),
        Refusal::NotFinished => tell_not_finished(out, scene, asked),
        Refusal::AuditFull => tell_full(out, scene, asked),
        Refusal::BadSize => tell_bad_size(out, scene, asked),
        Refusal::TooMany => say(
            out,
            scene,
            "64 queues were opened that aren't closed, the most: use one of those, or `close` one",
        ),
        Refusal::OtherObjects => say(
            out,
            scene,
            "the further policy declares other clients or objects than the first, or one of them with another key: only rows on rights may change",
        ),
        Refusal::UnknownObject => match asked {
            Asked::Rights { object, .. } => tell_object(out, scene, object),
            _ => Ok(()),
        },
    }
}
