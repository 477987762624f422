//! Laws of a CPU that has settled, over calls of its system.

ghost use Rattle.std.specs.Prelude.{◌≡◌, ℕ, List, All, length, Ok, Err};
ghost use Rattle.std.specs.List.{FoldsTo};
ghost use Rattle.cyc_types.specs.declared.refusal.JuggleReport.{JuggleReport as Report};
ghost use Rattle.cyc_types.specs.declared.refusal.Refusal.TheVariants.{Left};
ghost use Rattle.cyc_cpu.specs.Tables.{Tables};
ghost use Rattle.cyc_cpu.specs.Calls.{no_interrupts};
ghost use Rattle.cyc_cpu.specs.Cpu.{CpuView};
ghost use Rattle.cyc_cpu.specs.Moving.{IsSettled};
ghost use Rattle.cyc_cpu.specs.Soft.{raise_tables, firing_at, Interrupts};
ghost use Rattle.cyc_cpu_laws.specs.Settled.{IsUntil};
ghost use Rattle.cyc_agreement.specs.Cpus.{IsCpu, OfCpu};
ghost use Rattle.cyc_system.specs.System.{SystemView, RunningSystem};
ghost use Rattle.cyc_system.specs.SystemRemoval.TheVariants.{Kept};
ghost use Rattle.cyc_system.specs.Removing.{cpus_with};
ghost use Rattle.cyc_system.specs.Counts.{AreLawful};
ghost use Rattle.cyc_system.specs.Juggling.{MovesAway, single_ids};
ghost use Rattle.cyc_system.specs.Calls.{SystemCall, Changes, Does, BeginRemove, Juggle, Offline};
ghost use Rattle.cyc_system_laws.specs.Settling.{IsRefusedUntil, IsAmong, AsksCpu, FiresNot, refused_turns, IsRefusedTurn};
ghost use Rattle.cyc_system_laws.specs.Settling.{IsUnsettledOrGrown, AreSettledBeside};

use cyc_types::{Calls, Raise};

/// While what `settled` told of a CPU is true, no call is refused for it until something is done first. A call that is refused
/// with Expanding, Busy or Pending has asked a CPU that has not settled; no other CPU can be the reason. The same is true of a
/// removal that stays open as it begins, and of a turn of a juggle that is counted as pending. It is true of one that is counted
/// as refused, unless an earlier turn of the same juggle has made its destination grow.
///
/// It does nothing when it runs: its clauses are the law.
pub fn settled_law<R: Raise>()
    ensures refused { (s t : SystemView R) (call : SystemCall) → Changes R.Raise s call t → IsRefusedUntil call
        → (n : ℕ) × (cpu : CpuView R) × IsCpu n cpu s.cpus × AsksCpu n call s × (IsSettled R.view cpu → ⊥) }
    // A cyclic all of whose CPUs have settled is removed at once.
    ensures kept { (id calls : ℕ) (s t : SystemView R) → AreLawful R.view s
        → Changes R.Raise s (BeginRemove id (Ok (Kept calls))) t
        → (n : ℕ) × (cpu : CpuView R) × IsCpu n cpu s.cpus × IsAmong n (cpus_with id s.cpus) × (IsSettled R.view cpu → ⊥) }
    // From a CPU that has settled no turn is counted as pending.
    ensures juggled { (n : ℕ) (report : Report) (s t : SystemView R) → Changes R.Raise s (Juggle n (Ok report)) t
        → OfCpu n (IsSettled R.view) s.cpus → report.pending ≡ 0 }
    ensures left { (n : ℕ) (report : Report) (s t : SystemView R) → OfCpu n (IsSettled R.view) s.cpus
        → Changes R.Raise s (Offline n (Err (Left report))) t → report.pending ≡ 0 }
    // The turns that are counted as refused are these: the destination of its own moment has refused each.
    ensures counted { (n : ℕ) (report : Report) (s t : SystemView R) → (moves : MovesAway R.Raise n report s t)
        → (length (refused_turns R.Raise n (single_ids n s) report s t moves) ≡ report.refused)
        × All (IsRefusedTurn R.Raise n) (refused_turns R.Raise n (single_ids n s) report s t moves) }
    // It refuses with Busy or Pending only where it had not settled when the step began, and with Expanding only there or where
    // an earlier turn of the same step has made it grow.
    ensures stopped { (n : ℕ) (report : Report) (s t : SystemView R) → (moves : MovesAway R.Raise n report s t)
        → All (λ turn. IsUntil turn.why → IsUnsettledOrGrown R.view s turn)
        (refused_turns R.Raise n (single_ids n s) report s t moves) }
    // So where all others have settled, and none switches banks by it, each was refused for want of room or memory alone.
    ensures turned { (n : ℕ) (report : Report) (s t : SystemView R) → (moves : MovesAway R.Raise n report s t)
        → AreSettledBeside R.view n s t
        → All (λ turn. IsUntil turn.why → ⊥) (refused_turns R.Raise n (single_ids n s) report s t moves) }
{}

/// What `settled` told of a CPU stays true over any calls of its system, but for a fire and a switch of banks of this very CPU.
///
/// It does nothing when it runs: its clauses are the law.
pub fn calm_law<C: Calls, R: Raise>()
    // A switch of banks is a growth of the size.
    ensures { (n : ℕ) (x y : CpuView R) (s t : RunningSystem C R) (way : List SystemCall) → IsCpu n x s.system.cpus
        → IsCpu n y t.system.cpus → IsSettled R.view x → All (FiresNot n) way → y.size ≡ x.size
        → FoldsTo (Does C.Calls R.Raise no_interrupts) s way t → IsSettled R.view y }
{}

/// The same where no other thread uses the levels, and soft interrupts are among the calls.
///
/// It does nothing when it runs: its clauses are the law.
pub fn calm_core_law<C: Calls>()
    ensures { (n : ℕ) (x y : CpuView Tables) (s t : RunningSystem C Tables) (way : List SystemCall) → IsCpu n x s.system.cpus
        → IsCpu n y t.system.cpus → IsSettled firing_at x → All (FiresNot n) way → y.size ≡ x.size
        → FoldsTo (Does C.Calls raise_tables (Interrupts C.Calls)) s way t
        → IsSettled firing_at y }
{}
