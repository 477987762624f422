//! Laws of a cyclic that has lost nothing.

ghost use Rattle.std.specs.Prelude.{◌≡◌, ℕ, ◌<◌, List, All};
ghost use Rattle.std.specs.List.{FoldsTo};
ghost use Rattle.cyc_core.specs.Tables.{Tables};
ghost use Rattle.cyc_cpu.specs.Calls.{no_interrupts};
ghost use Rattle.cyc_cpu.specs.Soft.{raise_tables, firing_at, Interrupts};
ghost use Rattle.cyc_system.specs.Counts.{all_expired, all_lost};
ghost use Rattle.cyc_system.specs.System.{RunningSystem, SystemView};
ghost use Rattle.cyc_system.specs.Calls.{SystemCall};
ghost use Rattle.cyc_system_laws.specs.Sound.{IsSound};
ghost use Rattle.cyc_system_laws.specs.Keeping.{EndsRemoval};
ghost use Rattle.cyc_system_laws.specs.Totalling.{Steps};
ghost use Rattle.cyc_system_laws.specs.Sparing.{IsUnderEach};

use cyc_types::{Calls, Raise};

/// A cyclic that has expired no more often, on all CPUs together, than the least of all ceilings has lost nothing, wherever it
/// went in the meantime.
///
/// It does nothing when it runs: its clause is the law.
pub fn spared_law<C: Calls, R: Raise>()
    ensures { (id : ℕ) (s t : RunningSystem C R) (way : List SystemCall)
        → FoldsTo (Steps C.Calls R.Raise no_interrupts) s way t → IsSound R.view s.system
        → All (λ call. EndsRemoval id call → ⊥) way → all_lost id s.system ≡ 0
        → IsUnderEach R.view (all_expired id t.system) t.system → all_lost id t.system ≡ 0 }
{}

/// The same where no other thread uses the levels, and soft interrupts are among the calls.
///
/// It does nothing when it runs: its clause is the law.
pub fn spared_core_law<C: Calls>()
    ensures { (id : ℕ) (s t : RunningSystem C Tables) (way : List SystemCall)
        → FoldsTo (Steps C.Calls raise_tables (Interrupts C.Calls)) s way t
        → IsSound firing_at s.system → All (λ call. EndsRemoval id call → ⊥) way
        → all_lost id s.system ≡ 0 → IsUnderEach firing_at (all_expired id t.system) t.system → all_lost id t.system ≡ 0 }
{}

/// An id that was not given yet has neither expired nor lost anything. So a run that begins before an id is given has no premise
/// left to find.
///
/// It does nothing when it runs: its clause is the law.
pub fn unused_law<R: Raise>()
    ensures { (id : ℕ) (s : SystemView R) → IsSound R.view s → s.last < id → (all_expired id s ≡ 0) × (all_lost id s ≡ 0) }
{}
