//! The law of what calls add up to for each id.

ghost use Rattle.std.specs.Prelude.{List};
ghost use Rattle.std.specs.List.{FoldsTo};
ghost use Rattle.cyc_cpu.specs.Tables.{Tables};
ghost use Rattle.cyc_cpu.specs.Cpu.{Running};
ghost use Rattle.cyc_cpu.specs.Laws.{IsLawful};
ghost use Rattle.cyc_cpu.specs.Calls.{CpuCall, CpuDoes, no_interrupts};
ghost use Rattle.cyc_cpu.specs.Soft.{raise_tables, firing_at, Interrupts};
ghost use Rattle.cyc_cpu_laws.specs.Runs.{CpuSteps};
ghost use Rattle.cyc_cpu_laws.specs.Accounts.{Account, no_call_made, both, account_of, account_in, Proceeds};
ghost use Rattle.cyc_cpu_laws.specs.Cores.{CoreProceeds};

use cyc_types::{Calls, Raise};

/// What the calls on a CPU add up to for each id: no call, one, some and then others, and a whole run.
///
/// Each end was raised for an id as often as the fires' lists have it at that level, and no other call raised or called
/// anything. What the CPU has of an id, with what its removals and moves answered, is what it had, with what was carried in
/// and what expired and was lost since. The ceilings stay, and no size gets smaller.
///
/// It does nothing when it runs: its clauses are the law.
pub fn account_law<C: Calls, R: Raise>()
    ensures none { (s : Running C R) → Proceeds C.count R.Raise no_call_made s s }
    ensures one { (s t : Running C R) (call : CpuCall) → IsLawful R.view s.cpu
        → CpuDoes C.Calls R.Raise no_interrupts s call t
        → Proceeds C.count R.Raise (account_of call s.cpu.cyclics) s t }
    ensures joined { (a b : Account) (s t u : Running C R) → Proceeds C.count R.Raise a s t
        → Proceeds C.count R.Raise b t u
        → Proceeds C.count R.Raise (both a b) s u }
    ensures run { (s t : Running C R) (way : List CpuCall) → IsLawful R.view s.cpu
        → (run : FoldsTo (CpuSteps C.Calls R.Raise no_interrupts) s way t)
        → Proceeds C.count R.Raise (account_in (CpuSteps C.Calls R.Raise no_interrupts) s way t
        run) s t }
{}

/// The same of a CPU whose levels no other thread uses, where soft interrupts are among the calls.
///
/// Calls of its two sides led each level from its first value to its last. They raised it for an id as often as the fires'
/// lists have it at that level, and finished the calls that the soft interrupts' answers tell. The handlers were called for the
/// high ones and by the soft interrupts, and by nothing else.
///
/// It does nothing when it runs: its clauses are the law.
pub fn account_core_law<C: Calls>()
    ensures none { (s : Running C Tables) → CoreProceeds C.count no_call_made s s }
    ensures one { (s t : Running C Tables) (call : CpuCall) → IsLawful firing_at s.cpu
        → CpuDoes C.Calls raise_tables (Interrupts C.Calls) s call t
        → CoreProceeds C.count (account_of call s.cpu.cyclics) s t }
    ensures joined { (a b : Account) (s t u : Running C Tables) → CoreProceeds C.count a s t → CoreProceeds C.count b t u
        → CoreProceeds C.count (both a b) s u }
    ensures run { (s t : Running C Tables) (way : List CpuCall) → IsLawful firing_at s.cpu
        → (run : FoldsTo (CpuSteps C.Calls raise_tables (Interrupts C.Calls)) s way t)
        → CoreProceeds C.count (account_in (CpuSteps C.Calls raise_tables (Interrupts C.Calls)) s way t run) s t }
{}
