//! The law of what receipts and moves say of the calls.

ghost use Rattle.std.specs.Prelude.{ℕ, All};
ghost use Rattle.cyc_cpu.specs.Tables.{Tables, level_of};
ghost use Rattle.cyc_cpu.specs.Lawful.{Lawful};
ghost use Rattle.cyc_cpu.specs.Cpu.{CpuView};
ghost use Rattle.cyc_cpu.specs.Laws.{IsLawful};
ghost use Rattle.cyc_cpu.specs.Soft.{raise_tables, firing_at};
ghost use Rattle.cyc_cpu.specs.Calls.{CpuCall, CpuChanges};
ghost use Rattle.cyc_cpu_laws.specs.Receipts.{Releases, AnswersCalls, IsBalancedCyclic};

/// Of a cyclic of a soft level, on a CPU whose levels no other thread uses, a receipt says the calls that were carried in
/// and those that were done here; and so does what a move takes.
///
/// It does nothing when it runs: its clause is the law.
pub fn receipt_law()
    ensures { (id : ℕ) (call : CpuCall) (v w : CpuView Tables) → IsLawful firing_at v → Lawful (level_of v.lock)
        → Lawful (level_of v.low)
        → Releases id call → CpuChanges raise_tables v call w → AnswersCalls id call v }
{}

/// The same of the counts that the CPU has: each expiration of a cyclic of a soft level was lost, or its call is outstanding or
/// was made, here or before the cyclic was carried in.
///
/// It does nothing when it runs: its clause is the law.
pub fn balance_law()
    ensures { (v : CpuView Tables) → IsLawful firing_at v → Lawful (level_of v.lock) → Lawful (level_of v.low)
        → All (IsBalancedCyclic v) v.cyclics }
{}
