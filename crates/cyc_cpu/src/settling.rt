//! Whether a CPU has settled.

ghost use Rattle.std.specs.Prelude.{◌≡◌, ℕ, ◌+◌, ◌<◌};
ghost use Rattle.std.specs.Bool.{OnTrue, OnFalse};
ghost use Rattle.cyc_types.specs.Firing.{MayAsk, Sound, seen_of};
ghost use Rattle.cyc_types.specs.declared.level.Level.TheVariants.{Low, Lock};
ghost use Rattle.cyc_timers.specs.Rows.{Row, IsRow};
ghost use Rattle.cyc_timers.specs.Quiet.{OnlyLoads};
ghost use Rattle.cyc_cpu.specs.Calls.{CpuChanges, AskSettled};

use crate::ends::{both_followed, load_pend};
use crate::hard::Hard;
use cyc_timers::Table;
use cyc_types::Raise;

/// Whether the load of each cyclic's pend finds no call outstanding. It stops at the first that finds one.
fn all_quiet<R: Raise>(table: &Table, lock: &mut R, low: &mut R) -> bool
    requires lock { (k : ℕ) (r : Row) → IsRow table.now.rows k r → r.timer.level ≡ Lock → MayAsk r.timer.id (R.view lock.old) }
    requires low { (k : ℕ) (r : Row) → IsRow table.now.rows k r → r.timer.level ≡ Low → MayAsk r.timer.id (R.view low.old) }
    ensures lock { OnlyLoads R.Raise lock.old lock.new }
    ensures low { OnlyLoads R.Raise low.old low.new }
    ensures quiet_lock { OnTrue result ((k : ℕ) (r : Row) → IsRow table.now.rows k r → r.timer.level ≡ Lock
        → seen_of r.timer.id (R.view lock.new) ≡ 0) }
    ensures quiet_low { OnTrue result ((k : ℕ) (r : Row) → IsRow table.now.rows k r → r.timer.level ≡ Low
        → seen_of r.timer.id (R.view low.new) ≡ 0) }
    ensures pending { OnFalse result ((id : ℕ) × (0 < seen_of id (R.view lock.new) + seen_of id (R.view low.new))) }
    ensures sound_lock { Sound (R.view lock.old) → Sound (R.view lock.new) }
    ensures sound_low { Sound (R.view low.old) → Sound (R.view low.new) }
{
    table.law();
    let mut passed = None;
    for _position in 0..table.len() {
        let Some(found) = table.next_after(passed) else {
            unreachable!()
        };
        let id = found.0;
        let kept = table.record(found.1);
        let pend = load_pend(id, kept.level, lock, low);
        if pend > 0 {
            return false;
        }
        passed = Some(id);
    }
    true
}

impl<R: Raise> Hard<R> {
    /// Whether no call of any cyclic is outstanding, both soft sides are on their firing side's bank, and no removal is open
    /// (our own). It asks for each cyclic. Takes no memory.
    ///
    /// After true, nothing of this CPU is refused with Expanding, Busy or Pending until the next fire or switch of banks
    /// (`settling_law` of cyc_cpu_laws).
    pub fn settled(&mut self) -> bool
        ensures { CpuChanges R.Raise self.old (AskSettled result) self.new }
    {
        if self.removal.is_some() {
            return false;
        }
        if !all_quiet(&self.table, &mut self.lock, &mut self.low) {
            return false;
        }
        both_followed(&mut self.lock, &mut self.low)
    }
}
