//! A CPU of a system goes offline, and what is kept of the cyclics.

ghost use Rattle.std.specs.Prelude.{◌≡◌, ℕ, false, OnOk};
ghost use Rattle.cyc_cpu.specs.Soft.{Interrupts, raise_tables};
ghost use Rattle.cyc_system.specs.Calls.{Changes, Does, Offline, SoftInterrupt};
ghost use Rattle.cyc_system.specs.System.{has, is_online, running_system};
ghost use Rattle.uses.specs.System.{KeepsCyclics, ServesThenOffline};

use cyc_cpu::LevelCore;
use cyc_soft::Ran;
use cyc_system::{SoftFault, System};
use cyc_system_laws::{counts_law, expirations_core_law, interrupts_law, offlines_law, stays_law};
use cyc_types::{Calls, Raise, Refusal, Soft};

/// Takes a CPU offline, over any firing ends. Refuses as `System::offline`, and takes the memory that it takes.
pub fn take_offline<R: Raise>(system: &mut System<R>, cpu: u32) -> Result<(), Refusal>
    // All that `System::offline` says.
    ensures did { Changes R.Raise system.old (Offline cpu result) system.new }

    // The CPU is offline, and no cyclic is left on it.
    ensures offline { OnOk result (is_online cpu system.new.cpus ≡ false) }
    ensures left { OnOk result ((id : ℕ) → has cpu id system.new.cpus ≡ false) }

    // What is kept of each cyclic, also where it is refused.
    ensures keeps { KeepsCyclics cpu system.old system.new }
{
    counts_law::<R>();
    stays_law::<R>();
    offlines_law::<R>();
    system.law();
    system.fit_law();
    let answer = system.offline(cpu);
    system.law();
    system.fit_law();
    answer
}

/// The soft interrupt of one level of a CPU.
fn serve<C: Calls>(
    system: &mut System<LevelCore>,
    cpu: u32,
    level: Soft,
    calls: &mut C,
    budget: u32,
) -> Result<Ran, SoftFault>
    ensures did { Does C.Calls raise_tables (Interrupts C.Calls) (running_system calls.old system.old)
        (SoftInterrupt cpu level budget result) (running_system calls.new system.new) }
    ensures keeps { KeepsCyclics cpu system.old system.new }
{
    expirations_core_law::<C>();
    interrupts_law::<C>();
    system.law();
    system.fit_law();
    let answer = system.softint(cpu, level, calls, budget);
    system.law();
    system.fit_law();
    answer
}

/// Makes the calls that are outstanding on a CPU, at most `budget` at each soft level, and takes it offline.
///
/// Refuses as `System::offline`. Where calls are still outstanding, as those that a handler refused, that is with Left or
/// Pending.
pub fn serve_and_offline<C: Calls>(
    system: &mut System<LevelCore>,
    cpu: u32,
    calls: &mut C,
    budget: u32,
) -> Result<(), Refusal>
    // It is two soft interrupts and the offline.
    ensures did { ServesThenOffline C.Calls cpu budget result (running_system calls.old system.old)
        (running_system calls.new system.new) }

    // The CPU is offline, and no cyclic is left on it.
    ensures offline { OnOk result (is_online cpu system.new.cpus ≡ false) }
    ensures left { OnOk result ((id : ℕ) → has cpu id system.new.cpus ≡ false) }

    // What is kept of each cyclic, also where it is refused.
    ensures keeps { KeepsCyclics cpu system.old system.new }
{
    let _lock = serve(system, cpu, Soft::Lock, calls, budget);
    let _low = serve(system, cpu, Soft::Low, calls, budget);
    take_offline(system, cpu)
}
