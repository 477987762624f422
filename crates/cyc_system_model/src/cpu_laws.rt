//! What the calls of a CPU over plain levels are in the definition of a script: laws.

ghost use Rattle.std.specs.Prelude.{ℕ, Bool};
ghost use Rattle.cyc_core.specs.Tables.{Tables};
ghost use Rattle.cyc_cpu.specs.Cpu.{CpuView, Running};
ghost use Rattle.cyc_cpu.specs.Laws.{IsLawful};
ghost use Rattle.cyc_cpu.specs.Soft.{raise_tables, firing_at, Interrupts};
ghost use Rattle.cyc_cpu.specs.Calls.{CpuCall, CpuDoes};
ghost use Rattle.cyc_system_model.specs.ShownCpu.{shown_cpu};
ghost use Rattle.cyc_system_model.specs.Here.{IsHere, IsInTime, IsStopped};
ghost use Rattle.cyc_system_model.specs.Answers.{IsAnswered};
ghost use Rattle.cyc_system_model.specs.Tied.{IsTied};

use cyc_types::Calls;

/// Each call of a CPU over plain levels, but a fire or a soft interrupt that was stopped, does on the CPU just what the
/// definition of a script says, and its handlers are called as often as that says.
///
/// It does nothing when it runs: its clause is the law.
pub fn here_law<C: Calls>()
    ensures { (n : ℕ) (online : Bool) (call : CpuCall) (s t : Running C Tables) → IsTied s.cpu
        → (IsStopped call → ⊥) → CpuDoes C.Calls raise_tables (Interrupts C.Calls) s call t
        → IsHere C.count n online call s t }
{}

/// And what it answers is what that says of the CPU before it.
///
/// It does nothing when it runs: its clause is the law.
pub fn answers_law<C: Calls>()
    ensures { (n : ℕ) (online : Bool) (call : CpuCall) (s t : Running C Tables) → IsTied s.cpu → IsInTime call
        → (IsStopped call → ⊥) → CpuDoes C.Calls raise_tables (Interrupts C.Calls) s call t
        → IsAnswered n call (shown_cpu online s.cpu) }
{}

/// From call to call, also over one that was stopped, the ids of such a CPU rise, what is admitted at a soft level is a cyclic of
/// that level, and an open removal is of a cyclic of a soft level.
///
/// It does nothing when it runs: its clauses are the law.
pub fn tied_law<C: Calls>()
    ensures lawful { (v : CpuView Tables) → IsLawful firing_at v → IsTied v }
    ensures kept { (call : CpuCall) (s t : Running C Tables)
        → CpuDoes C.Calls raise_tables (Interrupts C.Calls) s call t → IsTied s.cpu
        → IsTied t.cpu }
{}
