//! The law of what leaves a CPU lawful.

ghost use Rattle.std.specs.Prelude.{ℕ};
ghost use Rattle.cyc_cpu.specs.Cpu.{CpuView, Asks, Looked, Reserves, MayWiden, Widens};
ghost use Rattle.cyc_cpu.specs.Laws.{IsLawful};

use cyc_types::Raise;

/// What asks, takes memory or makes room leaves a CPU lawful. So a CPU is lawful between any two calls of a move, where it was
/// before the first and is after the last.
///
/// It does nothing when it runs: its clauses are the law.
pub fn lawful_law<R: Raise>()
    ensures asked { (id n : ℕ) (v w : CpuView R) → IsLawful R.view v → Asks R.Raise id n v w → IsLawful R.view w }
    ensures looked { (v w : CpuView R) → IsLawful R.view v → Looked R.Raise v w → IsLawful R.view w }
    ensures reserved { (more : ℕ) (v w : CpuView R) → IsLawful R.view v → Reserves R.Raise more v w → IsLawful R.view w }
    ensures widened { (more : ℕ) (v w : CpuView R) → IsLawful R.view v → MayWiden R.view more v → Widens R.Raise more v w
        → IsLawful R.view w }
{}
