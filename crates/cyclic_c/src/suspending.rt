//! The law of a suspended CPU behind a handle.

ghost use Rattle.std.specs.Prelude.{◌≡◌, ℕ, pos, true, Option, Some};
ghost use Rattle.cyc_border.specs.Border.{Through, FiresCpu};
ghost use Rattle.cyc_border.specs.Pair.{FiresSide};
ghost use Rattle.cyc_border.specs.declared.cpu.Cpu.{Cpu};
ghost use Rattle.cyc_border.specs.declared.pair.Firing.{Firing};
ghost use Rattle.cyclic_c.specs.Exports.{FiresOut, Written, AnswersSuspended};
ghost use Rattle.cyclic_c.specs.declared.records.CyclicFired.{CyclicFired};

/// A fire of a suspended CPU answers so, with no count and no id, and what the handle owns is as it was: the cyclics, their
/// counts, the soft levels, and the high cyclic that is handed out. The same for a firing side.
///
/// It does nothing when it runs: its clauses are the law.
pub fn suspended_fire_law()
    ensures cpu { (now r : ℕ) (out : Written CyclicFired) (v : Cpu) (n : Option Cpu)
        → Through (Some v) n r (FiresOut FiresCpu (pos now) r out) → v.hard.suspended ≡ true
        → AnswersSuspended r out.new × (n ≡ Some v) }
    ensures firing { (now r : ℕ) (out : Written CyclicFired) (v : Firing) (n : Option Firing)
        → Through (Some v) n r (FiresOut FiresSide (pos now) r out) → v.hard.suspended ≡ true
        → AnswersSuspended r out.new × (n ≡ Some v) }
{}
