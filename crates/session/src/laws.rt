//! What holds after any list of calls.

ghost use Rattle.std.specs.Prelude.{◌≡◌, ℕ, ◌<◌, List, true, false};
ghost use Rattle.session.specs.declared.call.Call.{Call};
ghost use Rattle.session.specs.declared.limits.Limits.{Limits};
ghost use Rattle.session.specs.declared.rows.Places.{Places};
ghost use Rattle.session.specs.Tables.{State, after_all, starting};
ghost use Rattle.session.specs.Rows.{is_there};
ghost use Rattle.session.specs.Laws.{IsUntouched, IsSound, none_by};

/// What is a session's that is there (its client, its pace, its answers, its queues, its mirrors) changes by no call but its own
/// and by its end, whatever else is called in whatever order.
pub fn law_a_session_changes_by_its_own_calls()
    ensures { (s : State) (calls : List Call) (session : ℕ) →
        is_there s.sessions session ≡ true → none_by session calls ≡ true → IsUntouched session s (after_all s calls) }
{}

/// A session that is gone stays gone: its number is never another's.
pub fn law_a_gone_session_stays_gone()
    ensures { (s : State) (calls : List Call) (session : ℕ) →
        session < s.next → is_there s.sessions session ≡ false → is_there (after_all s calls).sessions session ≡ false }
{}

/// After any list of calls no number is two sessions' or two queues', no mirror is a gone session's, and no client, user or
/// session has more than it may.
pub fn law_every_state_is_sound()
    ensures { (limits : Limits) (users : List ℕ) (places : Places) (calls : List Call) →
        IsSound (after_all (starting limits users places) calls) }
{}
