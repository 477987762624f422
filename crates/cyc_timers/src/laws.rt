//! What a fire does for each cyclic, as laws.

ghost use Rattle.std.specs.Prelude.{◌≡◌, ℕ, ◌+◌, cond, List, All};
ghost use Rattle.cyc_types.specs.Series.{due};
ghost use Rattle.cyc_types.specs.Runs.{raised_by};
ghost use Rattle.cyc_types.specs.declared.level.Level.{Level as TheLevel};
ghost use Rattle.cyc_types.specs.Levels.{at_level};
ghost use Rattle.cyc_types.specs.declared.level.Level.TheVariants.{Low, Lock, High};
ghost use Rattle.cyc_types.specs.Timers.{Timer, HasDistinctIds};
ghost use Rattle.cyc_types.specs.Expirations.{Expiration, expirations};
ghost use Rattle.cyc_timers.specs.Rows.{Cyclic, timers};
ghost use Rattle.cyc_timers.specs.Made.{Makes, fire_state};
ghost use Rattle.cyc_timers.specs.Acts.{Sides, acting, same_level};
ghost use Rattle.cyc_timers.specs.Shares.{share};

use cyc_types::{Calls, Raise};

/// Each cyclic's share of a fire, whole or stopped: its id was raised at the end of its level as often as it expired, and at
/// no other end, or its handler was called as often. In a whole fire that is what was due of it.
///
/// It does nothing when it runs: its clauses are the law.
pub fn share_law<C: Calls, R: Raise>()
    ensures lock { (now : ℕ) (made : List Expiration) (cs cs' : List Cyclic) (s s' : Sides C R) (lost : ℕ)
        (m : Makes (acting (at_level C.called High) C.count R.Raise) now made (fire_state cs s)
        (fire_state cs' s') lost)
        → (id : ℕ) → raised_by id m.acts.lock_way ≡ share Lock (timers cs) made id }
    ensures low { (now : ℕ) (made : List Expiration) (cs cs' : List Cyclic) (s s' : Sides C R) (lost : ℕ)
        (m : Makes (acting (at_level C.called High) C.count R.Raise) now made (fire_state cs s)
        (fire_state cs' s') lost)
        → (id : ℕ) → raised_by id m.acts.low_way ≡ share Low (timers cs) made id }
    ensures high { (now : ℕ) (made : List Expiration) (cs cs' : List Cyclic) (s s' : Sides C R) (lost : ℕ)
        → Makes (acting (at_level C.called High) C.count R.Raise) now made (fire_state cs s)
        (fire_state cs' s') lost
        → (id : ℕ) → C.count s'.calls id ≡ C.count s.calls id + share High (timers cs) made id }
    ensures whole { (now : ℕ) (ts : List Timer) → HasDistinctIds ts → (level : TheLevel)
        → All (λ t. share level ts (expirations now ts) t.id
        ≡ cond (same_level level t.level) (due t.moment t.interval now) 0) ts }
{}
