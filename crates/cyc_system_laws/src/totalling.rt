//! Laws of what the fires of a run add up to.

ghost use Rattle.std.specs.Prelude.{◌≡◌, ℕ, ◌+◌, ◌<◌, ◌≤◌, List, All};
ghost use Rattle.std.specs.List.{FoldsTo};
ghost use Rattle.cyc_types.specs.declared.receipt.Receipt.{Receipt};
ghost use Rattle.cyc_core.specs.Tables.{Tables};
ghost use Rattle.cyc_cpu.specs.Calls.{no_interrupts};
ghost use Rattle.cyc_cpu.specs.Soft.{raise_tables, fires, firing_at, Interrupts};
ghost use Rattle.cyc_system.specs.Counts.{all_expired, all_lost};
ghost use Rattle.cyc_system.specs.System.{SystemView, RunningSystem};
ghost use Rattle.cyc_system.specs.Calls.{SystemCall};
ghost use Rattle.cyc_system_laws.specs.Sound.{IsSound};
ghost use Rattle.cyc_system_laws.specs.Keeping.{EndsRemoval};
ghost use Rattle.cyc_system_laws.specs.Totalling.{Steps, expirations_along, losses_along, AnswersWith};

use cyc_types::{Calls, Raise};

/// Over any run of calls, the expirations of an id on all CPUs grow by just what the fires of the run made of it, until its
/// removal answers, and its losses by just what they lost of it. So a receipt says all expirations from the id's first call to
/// its last, and all of them that were lost.
///
/// It does nothing when it runs: its clauses are the law.
pub fn expirations_law<C: Calls, R: Raise>()
    ensures expired { (id : ℕ) (s t : RunningSystem C R) (way : List SystemCall)
        → (run : FoldsTo (Steps C.Calls R.Raise no_interrupts) s way t) → IsSound R.view s.system
        → All (λ call. EndsRemoval id call → ⊥) way → all_expired id t.system ≡ all_expired id s.system
        + expirations_along (Steps C.Calls R.Raise no_interrupts) id s way t run }
    ensures lost { (id : ℕ) (s t : RunningSystem C R) (way : List SystemCall)
        → (run : FoldsTo (Steps C.Calls R.Raise no_interrupts) s way t) → IsSound R.view s.system
        → All (λ call. EndsRemoval id call → ⊥) way → all_lost id t.system ≡ all_lost id s.system
        + losses_along C.Calls R.Raise no_interrupts id s way t run }
    ensures few { (id : ℕ) (s t : RunningSystem C R) (way : List SystemCall)
        → (run : FoldsTo (Steps C.Calls R.Raise no_interrupts) s way t) → IsSound R.view s.system
        → All (λ call. EndsRemoval id call → ⊥) way
        → losses_along C.Calls R.Raise no_interrupts id s way t run
        ≤ expirations_along (Steps C.Calls R.Raise no_interrupts) id s way t run }
    // The run begins before the id is given.
    ensures receipt { (id : ℕ) (s t : RunningSystem C R) (u : SystemView R) (way : List SystemCall) (receipt : Receipt)
        → (run : FoldsTo (Steps C.Calls R.Raise no_interrupts) s way t) → IsSound R.view s.system
        → s.system.last < id → All (λ call. EndsRemoval id call → ⊥) way → AnswersWith R.Raise id receipt t.system u
        → (receipt.sent ≡ expirations_along (Steps C.Calls R.Raise no_interrupts) id s way t run)
        × (receipt.lost ≡ losses_along C.Calls R.Raise no_interrupts id s way t run) }
{}

/// The same where no other thread uses the levels, and soft interrupts are among the calls.
///
/// It does nothing when it runs: its clauses are the law.
pub fn expirations_core_law<C: Calls>()
    ensures expired { (id : ℕ) (s t : RunningSystem C Tables) (way : List SystemCall)
        → (run : FoldsTo (Steps C.Calls raise_tables (Interrupts C.Calls)) s way t)
        → IsSound firing_at s.system → All (λ call. EndsRemoval id call → ⊥) way → all_expired id t.system
        ≡ all_expired id s.system + expirations_along
        (Steps C.Calls raise_tables (Interrupts C.Calls)) id s way t run }
    ensures lost { (id : ℕ) (s t : RunningSystem C Tables) (way : List SystemCall)
        → (run : FoldsTo (Steps C.Calls raise_tables (Interrupts C.Calls)) s way t)
        → IsSound firing_at s.system → All (λ call. EndsRemoval id call → ⊥) way → all_lost id t.system
        ≡ all_lost id s.system + losses_along C.Calls raise_tables
        (Interrupts C.Calls) id s way t run }
    ensures few { (id : ℕ) (s t : RunningSystem C Tables) (way : List SystemCall)
        → (run : FoldsTo (Steps C.Calls raise_tables (Interrupts C.Calls)) s way t)
        → IsSound firing_at s.system → All (λ call. EndsRemoval id call → ⊥) way
        → losses_along C.Calls raise_tables (Interrupts C.Calls) id s way t run
        ≤ expirations_along
        (Steps C.Calls raise_tables (Interrupts C.Calls)) id s way t run }
    ensures receipt { (id : ℕ) (s t : RunningSystem C Tables) (u : SystemView Tables) (way : List SystemCall) (receipt : Receipt)
        → (run : FoldsTo (Steps C.Calls raise_tables (Interrupts C.Calls)) s way t)
        → IsSound firing_at s.system → s.system.last < id → All (λ call. EndsRemoval id call → ⊥) way
        → AnswersWith raise_tables id receipt t.system u → (receipt.sent ≡ expirations_along
        (Steps C.Calls raise_tables (Interrupts C.Calls)) id s way t run)
        × (receipt.lost ≡ losses_along C.Calls raise_tables (Interrupts C.Calls) id s way t run) }
{}
