//! What a history begins from is moved on by entries, in place.

ghost use Rattle.std.specs.Prelude.{◌≡◌, All, fold};
ghost use Rattle.regions.specs.Memory.{lengths_of};
ghost use Rattle.core_model.specs.Memory.{signals_after};
ghost use Rattle.access_core.specs.inner.Laying.{LiesWithin};
ghost use Rattle.access_core.specs.inner.MovingOn.{Follows, MayFollow, MayMove, MovesOn, StepsOn};

use crate::access::group_writes::lay_changes;
use core_model::{Call, Effect, Entry, Event, Origin};
use grants::Grants;
use signals::Signals;

/// Moves what a history begins from on by entries: the rights in force, memory and signals, and nothing else. It takes
/// no memory: the rows of a reload are moved out of its entry.
pub(crate) fn move_on(start: &mut Origin, entries: &mut [Entry])
    requires { MayMove start.old entries.old }
    ensures { MovesOn start.old entries.old start.new }
{
    for entry in entries.iter_mut() {
        step_on(start, entry);
    }
}

// Moves it on by an entry.
fn step_on(start: &mut Origin, entry: &mut Entry)
    requires may { MayFollow start.old.grants entry.old.event }
    requires within { All (LiesWithin (lengths_of start.old.memory)) entry.old.effects }
    ensures { StepsOn start.old start.new entry.old }
{
    lay_changes(&mut start.memory, entry.effects.as_slice());
    put_values(&mut start.signals, entry.effects.as_slice());
    follow(&mut start.grants, &mut entry.event);
}

// Gives signals the values that changes gave them, one after another.
fn put_values(signals: &mut Signals, changes: &[Effect])
    ensures { signals.new ≡ fold signals_after signals.old changes.now }
{
    for change in changes {
        put_value(signals, change);
    }
}

// Gives a signal the value that a change gave it; another change gives none.
fn put_value(signals: &mut Signals, change: &Effect)
    ensures { signals.new ≡ signals_after signals.old change.now }
{
    match change {
        Effect::Signal { signal, new, .. } => {
            signals.set_behind(signal.0.saturating_sub(1), *new);
        }
        Effect::Write { .. } | Effect::Release { .. } => {}
    }
}

// Has grants follow an event. The rows of a reload are moved out of it.
fn follow(grants: &mut Grants, event: &mut Event)
    requires { MayFollow grants.old event.old }
    ensures { Follows grants.old grants.new event.old }
{
    match event {
        Event::Call(call) => follow_call(grants, call),
        Event::Reload { rows } => grants.exchange_rows(rows),
        Event::Open { .. } | Event::Take { .. } => {}
    }
}

// Has grants follow a call: a grant or a revocation; others leave them.
fn follow_call(grants: &mut Grants, call: &Call)
    requires { MayFollow grants.old (Event.Call call.now) }
    ensures { Follows grants.old grants.new (Event.Call call.now) }
{
    match call {
        Call::Grant {
            client,
            object,
            rights,
        } => grants.put_in_force(*client, *object, *rights),
        Call::Revoke {
            client,
            object,
            rights,
        } => grants.take_out_of_force(*client, *object, *rights),
        _ => {}
    }
}
