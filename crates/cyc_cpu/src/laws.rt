//! Laws of a CPU over plain levels.

ghost use Rattle.std.specs.Prelude.{ℕ, List, All};
ghost use Rattle.std.specs.List.{FoldsTo};
ghost use Rattle.cyc_core.specs.Tables.{Tables, level_of};
ghost use Rattle.cyc_core.specs.Reached.{LevelIsReached};
ghost use Rattle.cyc_core.specs.Lawful.{Lawful};
ghost use Rattle.cyc_cpu.specs.Cpu.{CpuView, Running};
ghost use Rattle.cyc_cpu.specs.Calls.{CpuCall, CpuDoes};
ghost use Rattle.cyc_cpu.specs.Soft.{raise_tables, Interrupts};
ghost use Rattle.cyc_cpu.specs.Gone.{HasLeft, IsGone, PutsNot, StaysGone};

use crate::hard::Hard;
use cyc_core::LevelCore;
use cyc_types::Calls;

impl Hard<LevelCore> {
    /// The conservation theorem of both soft levels: each is one that enabled events reached, and so lawful. It does nothing
    /// when it runs.
    pub fn levels_conservation(&self)
        ensures lock_reached { LevelIsReached (level_of self.now.lock) }
        ensures low_reached { LevelIsReached (level_of self.now.low) }
        ensures lock_lawful { Lawful (level_of self.now.lock) }
        ensures low_lawful { Lawful (level_of self.now.low) }
    {
        self.lock.conservation();
        self.low.conservation();
    }

    /// Once a cyclic has left this CPU, by a removal that has answered or to another CPU, no call of it is made until its id is
    /// put in anew. It does nothing when it runs.
    pub fn removal_law<C: Calls>(&self)
        // After that no cyclic has the id, and it is admitted at neither level and stands in no place.
        ensures left { (id : ℕ) (w : CpuView Tables) → HasLeft raise_tables id self.now w → IsGone id w }
        // One more call on the CPU that doesn't put it in makes no call of it, and leaves it gone.
        ensures kept { (id : ℕ) (s t : Running C Tables) (call : CpuCall) → IsGone id s.cpu → PutsNot id call
            → CpuDoes C.Calls raise_tables (Interrupts C.Calls) s call t
            → StaysGone C.count id s t }
        // So none of any number of such calls makes one.
        ensures nothing_follows { (id : ℕ) (s t : Running C Tables) (way : List CpuCall)
            → HasLeft raise_tables id self.now s.cpu → All (PutsNot id) way
            → FoldsTo (CpuDoes C.Calls raise_tables (Interrupts C.Calls)) s way t
            → StaysGone C.count id s t }
    {
        self.law();
        self.levels_conservation();
    }
}
