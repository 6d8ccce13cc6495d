//! Requests are served: each call by its name.

ghost use Rattle.core_model.specs.History.{beginning};
ghost use Rattle.core_model.specs.declared.event.Event.TheVariants as event;
ghost use Rattle.std.specs.Prelude.{◌≡◌, ◌<◌, IfOk, OnErr, length};
ghost use Rattle.core_model.specs.Legal.{IsLegal, IsServed, MeetsOrLacks, ReloadMeetsOrLacks, RepliesOrLacks, as_reply};
ghost use Rattle.access_core.specs.Keeping.{CalledInPlace, ServedInPlace};
ghost use Rattle.access_core.specs.Reloads.{as_reloaded};

use crate::access::AccessCore;
use boxed::Boxed;
use core_model::{Answer, Call, CoreRequest, Entry, Outcome, Query, Refusal, Reply};
use policy::Policy;
use sequences::Sequence;
use std::alloc::{AllocError, Global};

impl AccessCore {
    /// Serves a request: makes the call that it names. None makes a table longer but the opening of a
    /// queue.
    pub fn serve(&mut self, alloc: Global, request: CoreRequest) -> Reply
        ensures served { IsServed self.old.history request result self.new.history }
        ensures legal { IsLegal (beginning self.new.history) self.new.history.entries }
        ensures places { ServedInPlace request self.old self.new }
    {
        let reply = self.dispatch(alloc, request);
        self.law_of_legality();
        reply
    }

    // Does nothing but say to callers what holds of each core: its audit is a legal history.
    fn law_of_legality(&self)
        ensures { IsLegal (beginning self.now.history) self.now.history.entries }
    {
        self.audit.as_slice();
    }

    // Makes the call that a request names.
    fn dispatch(&mut self, alloc: Global, request: CoreRequest) -> Reply
        ensures served { IsServed self.old.history request result self.new.history }
        ensures places { ServedInPlace request self.old self.new }
    {
        match request {
            CoreRequest::Open {
                client,
                agent,
                size,
            } => as_reply(
                self.open_queue(alloc, client, agent, size)
                    .map(Outcome::Opened),
            ),
            CoreRequest::Take {
                queue,
                packet,
                bytes,
            } => as_reply(self.take(alloc, queue, packet, &bytes).map(Outcome::Taken)),
            CoreRequest::Call(call) => as_reply(self.make_call(alloc, call)),
            CoreRequest::Query(query) => self.answer(alloc, query),
            CoreRequest::Reload(policy) => as_reply(self.reload_boxed(alloc, policy)),
        }
    }

    // Puts the rows of a policy in force that was handed in. It stands apart, so that no other request clears room for one.
    #[inline(never)]
    fn reload_boxed(&mut self, alloc: Global, policy: Boxed<Policy>) -> Result<Outcome, Refusal>
        ensures met { ReloadMeetsOrLacks policy self.old.history self.new.history result }
        ensures places { self.new.places ≡ self.old.places }
    {
        as_reloaded(self.reload(alloc, policy.into_inner()))
    }

    // Makes a call.
    #[inline(never)]
    fn make_call(&mut self, alloc: Global, call: Call) -> Result<Outcome, Refusal>
        ensures met { MeetsOrLacks (event.Call call) self.old.history self.new.history result }
        ensures places { CalledInPlace call self.old self.new }
    {
        match call {
            Call::Grant {
                client,
                object,
                rights,
            } => self
                .grant(client, object, rights)
                .map(|()| Outcome::Accepted),
            Call::Revoke {
                client,
                object,
                rights,
            } => self
                .revoke(client, object, rights)
                .map(|()| Outcome::Accepted),
            Call::Stop { queue } => self.stop(queue).map(|()| Outcome::Accepted),
            Call::Close { queue } => self.close(queue).map(|()| Outcome::Accepted),
            Call::RunNext { queue, packet } => self
                .run_next(alloc, queue, packet)
                .map(Outcome::Worked),
            Call::Poll { queue, packet } => self.poll(queue, packet).map(Outcome::Polled),
            Call::Finish { queue, packet } => self
                .finish(queue, packet)
                .map(|()| Outcome::Accepted),
            Call::HostWrite {
                client,
                address,
                bytes,
            } => self
                .host_write(alloc, client, address, bytes)
                .map(|()| Outcome::Accepted),
            Call::ChangeSignal {
                client,
                signal,
                operation,
            } => self
                .signal_op(client, signal, operation)
                .map(Outcome::Changed),
        }
    }

    // Answers a query.
    #[inline(never)]
    fn answer(&self, alloc: Global, query: Query) -> Reply
        ensures { RepliesOrLacks query self.now.history result }
    {
        match query {
            Query::HostRead {
                client,
                address,
                length,
            } => self
                .host_read(alloc, client, address, length)
                .map(Answer::Bytes),
            Query::LoadSignal { client, signal } => self
                .signal_load(client, signal)
                .map(Answer::Value),
            Query::TestSignal {
                client,
                signal,
                condition,
                value,
            } => self
                .signal_test(client, signal, condition, value)
                .map(Answer::Test),
            Query::List { client } => self.list(alloc, client).map(Answer::Listing),
            Query::Errors { queue } => self.errors(alloc, queue).map(Answer::Errors),
            Query::Audit => match copy_entries(alloc, self.audit()) {
                Ok(entries) => Ok(Answer::Audit {
                    before: self.entries_before(),
                    entries,
                }),
                Err(_) => Err(Refusal::OutOfMemory),
            },
        }
    }
}

// What an event came to, as a reply.
fn as_reply(made: Result<Outcome, Refusal>) -> Reply
    ensures { result ≡ as_reply made }
{
    made.map(Answer::Outcome)
}

// What became of a policy that was handed in, which is let go where it was refused.
fn as_reloaded(made: Result<(), (Refusal, Policy)>) -> Result<Outcome, Refusal>
    ensures { result ≡ as_reloaded made }
{
    match made {
        Ok(()) => Ok(Outcome::Accepted),
        Err((why, _)) => Err(why),
    }
}

// The same entries once more.
fn copy_entries(alloc: Global, entries: &[Entry]) -> Result<Sequence<Entry>, AllocError>
    ensures entries { IfOk result (λ copy. copy ≡ entries.now) }
    ensures lacks { OnErr result (0 < length entries.now) }
{
    let mut copies = Sequence::new(alloc);
    for entry in entries {
        copies.push(entry.copy(alloc)?)?;
    }
    Ok(copies)
}
