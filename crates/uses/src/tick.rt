//! A scheduler's tick: a CPU fires with handlers of our own, and its soft interrupts follow.

ghost use Rattle.std.specs.Prelude.{◌≡◌, ◌≢◌, ℕ, ◌+◌, ◌<◌, ◌≤◌, true, All, IfOk, IsTrue, OnOk, OnErr};
ghost use Rattle.cyc_types.specs.Series.{due};
ghost use Rattle.cyc_types.specs.declared.level.Level.TheVariants.{High};
ghost use Rattle.cyc_cpu.specs.Calls.{CpuDoes, Fire, SoftInterrupt, no_interrupts};
ghost use Rattle.cyc_cpu.specs.Cpu.{running};
ghost use Rattle.cyc_cpu.specs.Soft.{HasEmptyLists, Interrupts, done_at, end_at, raise_tables};
ghost use Rattle.uses.specs.Tick.{IsCalled, MayRefuse, calls_so_far, tasks_calls};

use cyc_cpu::{FireRefused, Fired, Hard, LevelCore, share_law};
use cyc_soft::{Ran, SoftRefused};
use cyc_types::{Calls, CyclicId, Level, Moment, Refused, Soft, Tally};

/// The tasks of a scheduler, as the handlers of a CPU.
#[derive(Drop)]
pub struct Tasks {
    /// How often each id was called.
    pub calls: Tally,
    /// A call asks for a switch of tasks.
    pub switch: bool,
}

/// It refuses where the tally does.
impl Calls for Tasks {
    ghost count = { calls_so_far };

    ghost called = { IsCalled };

    ghost may_refuse = { MayRefuse };

    fn call(&mut self, id: CyclicId, level: Level) -> Result<(), Refused> {
        self.calls.call(id, level)?;
        self.switch = true;
        Ok(())
    }
}

/// Fires the CPU: of its cyclics that are due those of high level are called at once.
///
/// Refuses as `Hard::fire`, also where the tally refuses a call. Takes no memory.
pub fn tick(cpu: &mut Hard<LevelCore>, tasks: &mut Tasks, now: Moment) -> Result<Fired, FireRefused>
    // All that `Hard::fire` says.
    ensures did { CpuDoes tasks_calls raise_tables no_interrupts (running tasks.old cpu.old) (Fire now result)
        (running tasks.new cpu.new) }

    // Each cyclic of high level was called exactly as often as it was due, and no other id was called.
    ensures high { OnOk result (All (λ c. c.timer.level ≡ High → calls_so_far tasks.new c.timer.id
        ≡ calls_so_far tasks.old c.timer.id + due c.timer.moment c.timer.interval now) cpu.old.cyclics) }
    ensures others { OnOk result ((id : ℕ) → All (λ c. c.timer.id ≡ id → c.timer.level ≢ High) cpu.old.cyclics
        → calls_so_far tasks.new id ≡ calls_so_far tasks.old id) }

    // Where one was called, it asks for a switch.
    ensures switch { OnOk result ((id : ℕ) → calls_so_far tasks.old id < calls_so_far tasks.new id → tasks.new.switch ≡ true) }

    // Where it was refused, no cyclic was called more often than it was due.
    ensures stopped { OnErr result (All (λ c. calls_so_far tasks.new c.timer.id
        ≤ calls_so_far tasks.old c.timer.id + due c.timer.moment c.timer.interval now) cpu.old.cyclics) }
{
    share_law::<Tasks, LevelCore>();
    cpu.law();
    cpu.fire(now, tasks)
}

/// The soft interrupt of one level: at most `budget` calls.
///
/// Refuses where the tally refuses a call, which stays the next one. Takes no memory.
pub fn serve(
    cpu: &mut Hard<LevelCore>,
    tasks: &mut Tasks,
    level: Soft,
    budget: u32,
) -> Result<Ran, SoftRefused>
    // All that `Hard::softint` says.
    ensures did { CpuDoes tasks_calls raise_tables (Interrupts tasks_calls) (running tasks.old cpu.old)
        (SoftInterrupt level budget result) (running tasks.new cpu.new) }

    // Each call of a task is one call more that is done at the level, whatever the answer.
    ensures done { (id : ℕ) → calls_so_far tasks.new id + done_at (end_at level cpu.old) id
        ≡ calls_so_far tasks.old id + done_at (end_at level cpu.new) id }

    // Where it is idle, nothing waits at the level.
    ensures empty { IfOk result (λ ran. IsTrue ran.idle → HasEmptyLists (end_at level cpu.new)) }

    // No next expiration changes, and no count.
    ensures cyclics { cpu.new.cyclics ≡ cpu.old.cyclics }
{
    cpu.softint(level, tasks, budget)
}
