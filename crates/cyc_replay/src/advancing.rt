//! The word that sets the clock.

ghost use Rattle.std.specs.Prelude.{◌≡◌, ◌≤◌, ◌<◌, ◌+◌, ℕ, [], List, length, string_bytes, IfSome, IfNone, IfErr, OnOk};
ghost use Rattle.cyc_types.specs.Limits.{most_cpus};
ghost use Rattle.cyc_types.specs.Series.{never};
ghost use Rattle.cyc_types.specs.Tally.{TallyView};
ghost use Rattle.cyc_core.specs.Tables.{Tables};
ghost use Rattle.cyc_system.specs.System.{RunningSystem};
ghost use Rattle.cyc_text.specs.Lines.{fired as fired_line};
ghost use Rattle.cyc_script.specs.Limits.{most_steps};
ghost use Rattle.cyc_script.specs.declared.step.Step.TheVariants as steps;
ghost use Rattle.cyc_model.specs.State.{State};
ghost use Rattle.cyc_model.specs.Advance.{advance};
ghost use Rattle.cyc_replay.specs.Machine.{ShowsMachine, IsReached};
ghost use Rattle.cyc_text.specs.Status.{IsMemory};
ghost use Rattle.cyc_replay.specs.Words.{Comes, TakesWord};
ghost use Rattle.cyc_system_model.specs.SystemAdvancing.{fired_and_lost};
ghost use Rattle.cyc_replay.specs.Advancing.{IsAdvancing};

use crate::lines::write_answer;
use crate::machine::Machine;
use cyc_core::LevelCore;
use cyc_system::System;
use cyc_system_model::{advance_law, kept_law};
use cyc_text::{RunFault, write_fired};
use cyc_types::{CPUS, Moment, Refusal, Tally};

/// What fires made.
#[derive(Clone, Copy, Drop)]
pub struct Made {
    /// The expirations.
    pub expired: u128,
    /// Those of them that were lost.
    pub lost: u128,
}

/// How many CPUs a system has.
pub fn count_cpus(system: &System<LevelCore>) -> u32
    ensures count { result ≡ length system.now.cpus.cpus }
    ensures few { result ≤ most_cpus }
{
    system.law();
    for cpu in 0..CPUS {
        if system.len(cpu).is_none() {
            return cpu;
        }
    }
    CPUS
}

/// The CPU of this number fires at the machine's clock, where it is online. The tally refuses no call.
fn fire_cpu(machine: &mut Machine, cpu: u32) -> Made
    requires ready { (step expired lost : ℕ) × (s : State) × (first : RunningSystem TallyView Tables)
        × IsAdvancing step cpu (fired_and_lost expired lost) s first machine.old }
    requires there { cpu < length machine.old.system.cpus.cpus }
    ensures next { (step expired lost : ℕ) (s : State) (first : RunningSystem TallyView Tables)
        → IsAdvancing step cpu (fired_and_lost expired lost) s first machine.old
        → IsAdvancing step (cpu + 1) (fired_and_lost (expired + result.expired) (lost + result.lost)) s first machine.new }
    ensures clock { machine.new.clock ≡ machine.old.clock }
    ensures many { length machine.new.system.cpus.cpus ≡ length machine.old.system.cpus.cpus }
    ensures few_expired { result.expired < 18446744073709551616 }
    ensures few_lost { result.lost < 18446744073709551616 }
{
    advance_law::<Tally>();
    kept_law::<Tally>();
    let answer = machine
        .system
        .fire_one(cpu, machine.clock, &mut machine.tally);
    machine.system.law();
    match answer {
        Ok(fired) => Made {
            expired: u128::from(fired.expired),
            lost: u128::from(fired.lost),
        },
        Err(refused) => match refused.why {
            Refusal::Offline => Made {
                expired: 0,
                lost: 0,
            },
            _ => unreachable!(),
        },
    }
}

/// The CPUs fire at the machine's clock, by rising number, where they are online. The tally refuses no call.
fn fire_all(machine: &mut Machine) -> Made
    requires ready { (step : ℕ) × (s : State) × (first : RunningSystem TallyView Tables)
        × IsAdvancing step 0 (fired_and_lost 0 0) s first machine.old }
    ensures all { (step : ℕ) (s : State) (first : RunningSystem TallyView Tables)
        → IsAdvancing step 0 (fired_and_lost 0 0) s first machine.old
        → IsAdvancing step (length machine.old.system.cpus.cpus) (fired_and_lost result.expired result.lost) s first
        machine.new }
    ensures clock { machine.new.clock ≡ machine.old.clock }
{
    let cpus = count_cpus(&machine.system);
    let mut made = Made {
        expired: 0,
        lost: 0,
    };
    for cpu in 0..cpus {
        let fired = fire_cpu(machine, cpu);
        made.expired += fired.expired;
        made.lost += fired.lost;
    }
    made
}

/// The moment of so many nanoseconds.
fn moment_of(nanoseconds: u64) -> Moment
    requires before { nanoseconds < never }
    ensures { result ≡ nanoseconds }
{
    Moment::new(nanoseconds as i64).unwrap()
}

/// The word `advance`: sets the clock, and every online CPU fires. Where the machine is suspended it refuses with Suspended: no
/// CPU fires, and the clock is set all the same.
pub fn take_advance(
    machine: &mut Machine,
    line: &mut String,
    step: u32,
    moment: u64,
) -> Result<(), RunFault>
    requires few { step ≤ most_steps }
    requires before { moment < never }
    requires reached { (s : State) × IsReached step s × ShowsMachine s machine.old }
    ensures takes { OnOk result ((texts : List (List ℕ)) (s : State) → IsReached step s → ShowsMachine s machine.old
        → TakesWord texts step (steps.Advance moment) (string_bytes line.new) s machine.new) }
    ensures memory { IfErr result IsMemory }
{
    advance_law::<Tally>();
    machine.clock = moment_of(moment);
    if machine.system.is_suspended() {
        return write_answer(line, step, Err(Refusal::Suspended));
    }
    let made = fire_all(machine);
    write_fired(line, step, made.expired, made.lost)?;
    Ok(())
}
