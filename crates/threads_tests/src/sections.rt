//! What happens while a thread is inside the core, and what one section leaves to the next.

ghost use Rattle.std.specs.Prelude.{◌≡◌, ◌<◌};
ghost use Rattle.client_threads.specs.Running.{IsEndOf};
ghost use Rattle.client_threads.specs.Sections.{Follows};

use crate::stages::{publish_all, reaches, split_last_end, stage, unnamed};
use access_core::AccessCore;
use aql_packet::{Address, ClientId, REGION_SPAN};
use client_threads::{Broker, ClientEnd, Front, Room, UnnamedBroker};
use core_model::{Call, Event, Refusal};
use sequences::Sequence;
use std::alloc::Global;
use std::marker::Brand;
use std::sync::Wait;
use std::sync::atomic::{AtomicU64, Ordering};
use std::thread;
use std::thread::Threads;
use threads_load::Stage;

/// How many packets are published beside a busy core.
const PACKETS: u64 = 8;

/// Who writes and reads.
const MIRA: ClientId = ClientId(1);

/// Where she writes.
const PLACE: Address = Address(2 * REGION_SPAN + 9);

// Stays inside the core until all packets are published. Answers whether they were.
#[tactic(auto, using(client_threads::proofs::Sections::follows_self))]
fn stay_inside<B: Room, R: Wait>(
    rt: &R,
    broker: &Broker<B>,
    front: Front,
    inside: &AtomicU64,
    published: &AtomicU64,
) -> bool
    requires { front.board ≡ B.board }
{
    let mut front = front;
    broker.with_core(rt, &mut front, |_core| {
        inside.store(1, Ordering::SeqCst);
        reaches(published, PACKETS)
    })
}

// Publishes all packets once another thread is inside the core.
fn publish_beside<B: Room>(
    broker: &Broker<B>,
    end: &mut ClientEnd,
    inside: &AtomicU64,
    published: &AtomicU64,
)
    requires { IsEndOf broker.now end.old }
{
    if reaches(inside, 1) {
        publish_all(broker, end, PACKETS, published);
    }
}

// Whether a client publishes while another thread is inside the core.
fn publishes_beside<B: Room + Send + Sync, R: Threads + Wait + Sync>(
    rt: &R,
    broker: &Broker<B>,
    front: Front,
    end: ClientEnd,
) -> bool
    requires front { front.board ≡ B.board }
    requires end { IsEndOf broker.now end }
{
    let mut end = end;
    let inside = AtomicU64::new(0);
    let published = AtomicU64::new(0);
    let (stayed, _) = thread::join(
        rt,
        || stay_inside(rt, broker, front, &inside, &published),
        || publish_beside(broker, &mut end, &inside, &published),
    );
    stayed
}

// Whether a client does, of a broker that gets its name.
fn named_publishes_beside<B: Room + Send + Sync, R: Threads + Wait + Sync>(
    rt: &R,
    alloc: Global,
    unnamed: UnnamedBroker,
) -> Option<bool>
    requires { (unnamed.board ≡ B.board) × (unnamed.core ≡ B.opened) }
{
    let (stage, end) = split_last_end(stage::<B>(alloc, unnamed, 1, 1)?)?;
    let Stage { broker, front, .. } = stage;
    Some(publishes_beside(rt, &broker, front, end))
}

// The same, of a broker that is opened for it.
fn one_publishes_beside<R: Threads + Wait + Sync>(rt: &R, alloc: Global) -> Option<bool> {
    named_publishes_beside::<Brand, R>(rt, alloc, unnamed(alloc)?)
}

// Writes a byte.
#[tactic(auto, using(client_threads::proofs::Sections::follows_self, client_threads::proofs::Turning::call_appends, client_threads::proofs::Sections::appends_follow))]
fn write(alloc: Global, core: &mut AccessCore) -> Result<(), Refusal>
    ensures { Follows core.old.history core.new.history }
{
    let mut bytes = Sequence::new(alloc);
    bytes.push(7)?;
    core.host_write(alloc, MIRA, PLACE, bytes)
}

// Whether the byte that was written is read.
#[tactic(auto, using(client_threads::proofs::Sections::follows_self))]
fn reads(alloc: Global, core: &mut AccessCore) -> bool
    ensures { Follows core.old.history core.new.history }
{
    match core.host_read(alloc, MIRA, PLACE, 1) {
        Ok(bytes) => bytes.as_slice() == [7].as_slice(),
        Err(_) => false,
    }
}

// Whether the last entry is that of a client's write.
fn ends_with_write(core: &AccessCore) -> bool {
    match core.audit().last() {
        Some(entry) => match &entry.event {
            Event::Call(Call::HostWrite { .. }) => true,
            _ => false,
        },
        None => false,
    }
}

// Whether another thread reads what was written.
fn reads_after<B: Room, R: Wait>(rt: &R, alloc: Global, broker: &Broker<B>, front: Front) -> bool
    requires { front.board ≡ B.board }
{
    let mut front = front;
    broker.with_core(rt, &mut front, |core| reads(alloc, core))
}

// Whether a section sees what one before it left, which another thread made.
fn sees_sections<B: Room + Send + Sync, R: Threads + Wait + Sync>(
    rt: &R,
    alloc: Global,
    broker: &Broker<B>,
    front: Front,
) -> bool
    requires { (front.board ≡ B.board) × (1 < front.share) }
{
    let mut front = front;
    let other = broker.again(&mut front);
    let written = broker
        .with_core(rt, &mut front, |core| write(alloc, core))
        .is_ok();
    let (read, _) = thread::join(rt, || reads_after(rt, alloc, broker, other), || ());
    written && read && broker.look_at_core(rt, |core| ends_with_write(core))
}

// Whether one does, of a broker that gets its name.
fn named_sees_sections<B: Room + Send + Sync, R: Threads + Wait + Sync>(
    rt: &R,
    alloc: Global,
    unnamed: UnnamedBroker,
) -> bool
    requires { (unnamed.board ≡ B.board) × (unnamed.core ≡ B.opened) }
{
    match stage::<B>(alloc, unnamed, 1, 1) {
        Some(stage) => {
            let Stage { broker, front, .. } = stage;
            sees_sections(rt, alloc, &broker, front)
        }
        None => false,
    }
}

// The same, of a broker that is opened for it.
fn one_sees_sections<R: Threads + Wait + Sync>(rt: &R, alloc: Global) -> bool {
    match unnamed(alloc) {
        Some(unnamed) => named_sees_sections::<Brand, R>(rt, alloc, unnamed),
        None => false,
    }
}

#[test]
fn clients_publish_while_another_thread_is_inside_the_core(rt: HostRuntime) {
    assert!(rt; one_publishes_beside(&rt, rt.alloc()) == Some(true));
}

#[test]
fn a_section_sees_what_the_one_before_left(rt: HostRuntime) {
    assert!(rt; one_sees_sections(&rt, rt.alloc()));
}
