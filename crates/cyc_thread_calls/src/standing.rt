//! The law of what stands on the rings of a run.

ghost use Rattle.std.specs.Prelude.{◌≡◌, ◌<◌, ℕ, List, ◌++◌, Some};
ghost use Rattle.std.specs.List.{slice_get};
ghost use Rattle.cyc_types.specs.declared.level.Soft.{Soft as SoftLevel};
ghost use Rattle.ring_rule.specs.Conservation.{LevelStands};
ghost use Rattle.ring_rule.specs.Log.{RingStep};
ghost use Rattle.cyc_ring.specs.declared.closed.Closed.{Closed};
ghost use Rattle.cyc_script.specs.declared.script.Script.{Script as OneScript};
ghost use Rattle.cyc_threads.specs.Rings.{IsClosed};
ghost use Rattle.cyc_threads.specs.Seated.{Seated};
ghost use Rattle.cyc_threads.specs.declared.running.Ended.{Ended as Ends};
ghost use Rattle.cyc_threads.specs.Running.{HasRun};
ghost use Rattle.cyc_thread_calls.specs.Standing.{seats_of, IsRingOf, setting_of, IsLogOf, IsConservedAfter};

use cyc_types::Calls;

/// Between any two atomic steps of any ring of a run of a script in threads a lawful level stands, and no expiration is
/// forgotten: the raises of each id are the calls that are finished, those that the ring still counts (pending, in hand, or kept
/// for its removal), and those lost at the ceiling of the script.
///
/// It does nothing when it runs: its clauses are the law.
pub fn standing_law<C: Calls>()
    // Each CPU has a ring of each soft level, which was closed with the seats that the CPU has at last.
    ensures rings { (script : OneScript) (calls : List C) (e : Ends C) (text : List ℕ)
        (r : HasRun C.Calls script calls e text) (soft : SoftLevel) (cpu : ℕ) → cpu < script.cpus
        → (own : Seated C) × (ring : Closed) × (slice_get r.after cpu ≡ Some own)
        × IsRingOf cpu soft e.rings.items ring × IsClosed (seats_of soft own) ring }
    // Its greatest pend is that of the script.
    ensures ceiling { (script : OneScript) (calls : List C) (e : Ends C) (text : List ℕ)
        (r : HasRun C.Calls script calls e text) (soft : SoftLevel) (cpu : ℕ) (ring : Closed)
        → IsRingOf cpu soft e.rings.items ring → (setting_of ring).ceiling ≡ script.ceiling }
    // All atomic steps of its two sides have one order, and no other.
    ensures order { (script : OneScript) (calls : List C) (e : Ends C) (text : List ℕ)
        (r : HasRun C.Calls script calls e text) (soft : SoftLevel) (cpu : ℕ) (ring : Closed)
        → IsRingOf cpu soft e.rings.items ring
        → (log : List RingStep) × IsLogOf ring log
        × ((other : List RingStep) → IsLogOf ring other → other ≡ log) }
    // Between those that came earlier and those that came later, wherever that is, a lawful level stands, which its words show.
    ensures stands { (script : OneScript) (calls : List C) (e : Ends C) (text : List ℕ)
        (r : HasRun C.Calls script calls e text) (soft : SoftLevel) (cpu : ℕ) (ring : Closed)
        (later earlier : List RingStep) → IsRingOf cpu soft e.rings.items ring
        → IsLogOf ring (later ++ earlier) → LevelStands (setting_of ring) earlier }
    // There the raises of each id are the calls that are finished, those still counted, and those lost.
    ensures conserved { (script : OneScript) (calls : List C) (e : Ends C) (text : List ℕ)
        (r : HasRun C.Calls script calls e text) (soft : SoftLevel) (cpu : ℕ) (ring : Closed)
        (later earlier : List RingStep) → IsRingOf cpu soft e.rings.items ring
        → IsLogOf ring (later ++ earlier) → IsConservedAfter (setting_of ring) earlier }
{}
