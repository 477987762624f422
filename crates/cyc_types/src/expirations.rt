//! The expirations of one fire: a definition from the closed forms alone, and its laws.
//!
//! `expirations now timers` is the list of the pairs (moment, id) that a fire at `now` makes, in ascending order. It has no
//! heap and no loop in it. Where a fire stops early it has made a front of the list. `all_after now made timers` is the
//! cyclics after the pairs `made`.
//!
//! The functions here do nothing when they run. Their clauses are laws of the definition, so that they are proved.

ghost use Rattle.std.specs.Prelude.{◌≡◌, ◌≢◌, ℕ, ◌+◌, Bool, List, All, length, sum_by, count_by, flat_map};
ghost use Rattle.cyc_types.specs.Series.{due, next};
ghost use Rattle.cyc_types.specs.Timers.{Timer, HasDistinctIds};
ghost use Rattle.cyc_types.specs.Expirations.{Expiration, expirations, due_of, times_of, after_expirations, IsAscending};

/// The list of a fire ascends by moment and then id, and has just the expirations of the cyclics that are due, each as often.
pub fn order_law()
    ensures ascending { (now : ℕ) (ts : List Timer) → IsAscending (expirations now ts) }
    ensures same { (now : ℕ) (ts : List Timer) (p : Expiration → Bool)
        → count_by p (expirations now ts) ≡ count_by p (flat_map (due_of now) ts) }
    ensures total { (now : ℕ) (ts : List Timer) → length (expirations now ts) ≡ sum_by (λ t. due t.moment t.interval now) ts }
{}

/// Each cyclic's share of a fire is what is due of it, and no other id has a share.
pub fn share_law()
    ensures share { (now : ℕ) (ts : List Timer) → HasDistinctIds ts
        → All (λ t. times_of t.id (expirations now ts) ≡ due t.moment t.interval now) ts }
    ensures others { (now id : ℕ) (ts : List Timer) → All (λ t. t.id ≢ id) ts → times_of id (expirations now ts) ≡ 0 }
{}

/// After a whole fire each cyclic comes to its next expiration, with its count risen by what was due of it.
pub fn after_law()
    ensures moment { (now : ℕ) (ts : List Timer) → HasDistinctIds ts
        → All (λ t. (after_expirations now (expirations now ts) t).moment ≡ next t.moment t.interval now) ts }
    ensures count { (now : ℕ) (ts : List Timer) → HasDistinctIds ts
        → All (λ t. (after_expirations now (expirations now ts) t).expired ≡ t.expired + due t.moment t.interval now) ts }
{}
