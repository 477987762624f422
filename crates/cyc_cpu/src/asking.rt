//! Questions to a CPU that ask nothing of its levels.

ghost use Rattle.std.specs.Prelude.{◌≡◌, ℕ, All, IfSome, IfNone};
ghost use Rattle.std.specs.Bool.{OnTrue, OnFalse};
ghost use Rattle.cyc_timers.specs.Rows.{Cyclic};

use crate::hard::Hard;
use cyc_types::{CyclicId, Raise};

impl<R: Raise> Hard<R> {
    ghost use Rattle.cyc_cpu.specs.Cpu.{IsCyclic, HasNoCyclic, IsPassed, IsNextAfter};
    ghost use Rattle.cyc_cpu.specs.Removal.{HasCyclic};

    /// Whether the cyclic is here, or its removal is open here. O(1) where the id is above all others here, as that of a new
    /// cyclic mostly is, else O(log n). It asks nothing of the ends.
    pub fn has(&self, id: CyclicId) -> bool
        ensures here { OnTrue result (HasCyclic id self.now.cyclics) }
        ensures none { OnFalse result (HasNoCyclic id self.now.cyclics) }
    {
        self.table.has(id)
    }

    /// The smallest id here that is above this one, or the smallest of all, for a walk by rising id. None where there is none.
    /// O(log n), and those that left are passed by.
    pub fn id_after(&self, passed: Option<CyclicId>) -> Option<CyclicId>
        ensures none { IfNone result (All (λ c. IsPassed passed c.timer.id) self.now.cyclics) }
        ensures some { IfSome result (λ id. (k : ℕ) × (c : Cyclic) × IsCyclic self.now.cyclics k c × (c.timer.id ≡ id)
            × IsNextAfter (λ x. x.timer.id) self.now.cyclics passed k) }
    {
        let (id, _) = self.table.next_after(passed)?;
        Some(id)
    }

    /// The most expirations of a cyclic here.
    pub fn most(&self) -> u64
        ensures { result ≡ self.now.most }
    {
        self.most
    }
}
