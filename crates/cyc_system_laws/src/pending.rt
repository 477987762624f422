//! Laws of the calls that are outstanding.

ghost use Rattle.std.specs.Prelude.{◌≡◌, ◌≢◌, ℕ, ◌+◌, ◌<◌, List, All, Some, Result};
ghost use Rattle.std.specs.List.{FoldsTo};
ghost use Rattle.cyc_types.specs.declared.level.Soft.{Soft};
ghost use Rattle.cyc_types.specs.declared.receipt.Receipt.{Receipt};
ghost use Rattle.cyc_core.specs.Tables.{Tables};
ghost use Rattle.cyc_soft.specs.declared.Ran.{Ran};
ghost use Rattle.cyc_timers.specs.declared.fire.Fired.{Fired};
ghost use Rattle.cyc_timers.specs.declared.fire.FireRefused.{FireRefused};
ghost use Rattle.cyc_cpu.specs.Soft.{raise_tables, fires, firing_at, Interrupts};
ghost use Rattle.cyc_system.specs.declared.system.SoftFault.{SoftFault};
ghost use Rattle.cyc_system.specs.Counts.{all_lost};
ghost use Rattle.cyc_system.specs.System.{SystemView, RunningSystem, has};
ghost use Rattle.cyc_system.specs.SystemTotals.{SystemTotals};
ghost use Rattle.cyc_system.specs.Calls.{SystemCall, Changes, Does, AskTotals, FireOne, SoftInterrupt};
ghost use Rattle.cyc_system_laws.specs.Gone.{AreLevelsLawful};
ghost use Rattle.cyc_system_laws.specs.Sound.{IsSound};
ghost use Rattle.cyc_system_laws.specs.Keeping.{EndsRemoval};
ghost use Rattle.cyc_system_laws.specs.Totalling.{Steps, expirations_along, losses_in, AnswersWith};
ghost use Rattle.cyc_system_laws.specs.Pending.{pending_on, all_pending, raised_on, ReachesHandlers};

use cyc_types::Calls;

/// Over each call the outstanding calls of each id on each CPU are kept, but on a CPU that fires or serves a soft interrupt: a
/// fire raises them by the expirations that it raised and did not lose, and a soft interrupt lowers them by the calls that it
/// makes. Here no other thread uses the levels.
///
/// It does nothing when it runs: its clauses are the law.
pub fn pending_law<C: Calls>()
    ensures kept { (id n : ℕ) (s t : RunningSystem C Tables) (call : SystemCall)
        → Does C.Calls raise_tables (Interrupts C.Calls) s call t
        → (ReachesHandlers n call → ⊥) → pending_on n id t.system.cpus ≡ pending_on n id s.system.cpus }
    ensures fired { (id n now : ℕ) (answer : Result Fired FireRefused) (s t : RunningSystem C Tables) → IsSound firing_at s.system
        → (d : Does C.Calls raise_tables (Interrupts C.Calls) s (FireOne n now answer) t)
        → pending_on n id t.system.cpus + losses_in C.Calls raise_tables (Interrupts C.Calls) id (FireOne n now answer) s t d
        ≡ pending_on n id s.system.cpus + raised_on n id now answer s.system.cpus }
    // Each call of a handler that is made is one outstanding call less.
    ensures served { (id n budget : ℕ) (level : Soft) (answer : Result Ran SoftFault) (s t : RunningSystem C Tables)
        → AreLevelsLawful s.system
        → Does C.Calls raise_tables (Interrupts C.Calls) s (SoftInterrupt n level budget answer) t
        → pending_on n id t.system.cpus + C.count t.calls id ≡ pending_on n id s.system.cpus + C.count s.calls id }
    // Levels that are lawful stay so.
    ensures levels { (s t : RunningSystem C Tables) (call : SystemCall) → IsSound firing_at s.system → IsSound firing_at t.system
        → AreLevelsLawful s.system
        → Does C.Calls raise_tables (Interrupts C.Calls) s call t
        → AreLevelsLawful t.system }
    // A cyclic leaves a CPU, and comes to one, only while no call of it is outstanding there.
    ensures moved { (id n : ℕ) (s t : SystemView Tables) (call : SystemCall) → IsSound firing_at s → IsSound firing_at t
        → Changes raise_tables s call t → has n id t.cpus ≢ has n id s.cpus
        → (pending_on n id s.cpus ≡ 0) × (pending_on n id t.cpus ≡ 0) }
    // The answer of a removal finds none outstanding on any CPU, and leaves none.
    ensures receipt { (id : ℕ) (receipt : Receipt) (s t : SystemView Tables) → IsSound firing_at s → IsSound firing_at t
        → AnswersWith raise_tables id receipt s t → (all_pending id s ≡ 0) × (all_pending id t ≡ 0) }
    // What `totals` says is pending is all that is outstanding.
    ensures totals { (id : ℕ) (totals : SystemTotals) (s t : SystemView Tables) → IsSound firing_at s
        → Changes raise_tables s (AskTotals id (Some totals)) t → totals.pending ≡ all_pending id s }
{}

/// Over any run of calls each expiration of an id was lost, or its call was made, or is outstanding, on all CPUs together. So a
/// receipt says all calls that were ever made: its expirations are its losses and these calls.
///
/// It does nothing when it runs: its clauses are the law.
pub fn balance_law<C: Calls>()
    ensures balanced { (id : ℕ) (s t : RunningSystem C Tables) (way : List SystemCall)
        → (run : FoldsTo (Steps C.Calls raise_tables (Interrupts C.Calls)) s way t)
        → IsSound firing_at s.system → AreLevelsLawful s.system → All (λ call. EndsRemoval id call → ⊥) way
        → all_pending id t.system + all_lost id t.system + C.count t.calls id
        ≡ all_pending id s.system + all_lost id s.system + C.count s.calls id + expirations_along
        (Steps C.Calls raise_tables (Interrupts C.Calls)) id s way t run }
    // The run begins before the id is given.
    ensures receipt { (id : ℕ) (s t : RunningSystem C Tables) (u : SystemView Tables) (way : List SystemCall) (receipt : Receipt)
        → FoldsTo (Steps C.Calls raise_tables (Interrupts C.Calls)) s way t
        → IsSound firing_at s.system → AreLevelsLawful s.system → s.system.last < id → IsSound firing_at u
        → All (λ call. EndsRemoval id call → ⊥) way → AnswersWith raise_tables id receipt t.system u
        → receipt.sent + C.count s.calls id ≡ receipt.lost + C.count t.calls id }
{}
