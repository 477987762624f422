//! The soft interrupt of a CPU whose levels one thread has.

ghost use Rattle.std.specs.Prelude.{IfOk, IsTrue};
ghost use Rattle.cyc_types.specs.Levels.{as_level, handler_at};
ghost use Rattle.cyc_types.specs.Firing.{Sound};
ghost use Rattle.cyc_soft.specs.Serving.{IsSoftint, soft_side};
ghost use Rattle.cyc_timers.specs.Quiet.{KeepsStays};
ghost use Rattle.cyc_cpu.specs.Cpu.{running};
ghost use Rattle.cyc_cpu.specs.Calls.{CpuDoes, SoftInterrupt};
ghost use Rattle.cyc_cpu.specs.Soft.{end_at, raise_tables, drain_tables, firing_at, HasEmptyLists, Interrupts};

use crate::hard::Hard;
use cyc_core::LevelCore;
use cyc_soft::{Ran, SoftRefused};
use cyc_types::{Calls, Raise, Soft};

/// The soft interrupt of one level. What its firing side knows stays, but for what it saw of pends and of the banks.
#[inline(always)]
fn serve<C: Calls>(
    end: &mut LevelCore,
    calls: &mut C,
    level: Soft,
    budget: u32,
) -> Result<Ran, SoftRefused>
    ensures did { IsSoftint drain_tables (handler_at C.Calls (as_level level)) budget result (soft_side end.old calls.old)
        (soft_side end.new calls.new) }
    ensures empty { IfOk result (λ r. IsTrue r.idle → HasEmptyLists end.new) }
    ensures keeps { KeepsStays (firing_at end.old) (firing_at end.new) }
    ensures sound { Sound (firing_at end.new) }
{
    end.conservation();
    let answer = cyc_soft::softint(end, calls, level, budget);
    end.law();
    answer
}

impl Hard<LevelCore> {
    /// The soft interrupt of one level, where one thread has both sides of it (`cyclic_softint`): at most `budget` handler
    /// calls. It stops after so many, or earlier where a look at the buffer found nothing, and then it is idle.
    ///
    /// A refused call stays the next one. Takes no memory.
    #[inline(always)]
    pub fn softint<C: Calls>(
        &mut self,
        level: Soft,
        calls: &mut C,
        budget: u32,
    ) -> Result<Ran, SoftRefused>
        // What `cyc_soft::softint` does, each call at this level; and nothing else changed.
        ensures did { CpuDoes C.Calls raise_tables (Interrupts C.Calls)
            (running calls.old self.old) (SoftInterrupt level budget result) (running calls.new self.new) }

        // Where it is idle, nothing waits at its level.
        ensures empty { IfOk result (λ r. IsTrue r.idle → HasEmptyLists (end_at level self.new)) }
    {
        match level {
            Soft::Lock => serve(&mut self.lock, calls, level, budget),
            Soft::Low => serve(&mut self.low, calls, level, budget),
        }
    }
}
