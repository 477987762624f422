//! The replay of a whole script on one thread: its steps, one after another, with their lines, and then the report.

ghost use Rattle.std.specs.Prelude.{◌≡◌, ◌+◌, ◌≤◌, ◌++◌, ◌∷◌, [], ℕ, List, length, OnOk, IfOk, IfErr, false};
ghost use Rattle.cyc_text.specs.Puts.{Puts};
ghost use Rattle.cyc_script.specs.Limits.{most_steps};
ghost use Rattle.cyc_script.specs.declared.step.Step.{Step as TheStep};
ghost use Rattle.cyc_model.specs.Questions.{plain};
ghost use Rattle.cyc_model.specs.Script.{word, run_on, names_of, no_indexes, text_of};
ghost use Rattle.cyc_text.specs.Status.{is_write, IsMemoryOrWrite};
ghost use Rattle.cyc_replay.specs.Runs.{HaveNames, RunsTo};
ghost use Rattle.cyc_replay.specs.Replay.{HasReplayed};
ghost use Rattle.cyc_replay.specs.Words.{SetsBelowNever};

use crate::beginning::begin;
use crate::machine::Machine;
use crate::report::put_reports;
use crate::words::take_step;
use cyc_script::{Script, Step};
use cyc_text::{RunFault, Sink};
use std::alloc::Global;

/// Takes a step of the script, and puts its line.
fn put_step<S: Sink>(
    machine: &mut Machine,
    line: &mut String,
    sink: &mut S,
    script: &Script,
    step: u32,
    taken: &Step,
) -> Result<(), RunFault>
    requires few { step ≤ most_steps }
    requires before { SetsBelowNever taken.now }
    requires runs { (done : List TheStep) × (step ≡ 1 + length done) × HaveNames (names_of script.now) (done ++ taken.now ∷ [])
        × RunsTo script.now.cpus script.now.ceiling (names_of script.now) done machine.old }
    requires whole { S.has_failed sink.old ≡ false }
    ensures text { (done : List TheStep) → step ≡ 1 + length done → HaveNames (names_of script.now) (done ++ taken.now ∷ [])
        → RunsTo script.now.cpus script.now.ceiling (names_of script.now) done machine.old
        → Puts (S.written sink.old) (S.written sink.new) result (word plain (names_of script.now) no_indexes step taken.now
        (run_on no_indexes script.now.cpus script.now.ceiling (names_of script.now) done).state).line }
    ensures runs { OnOk result ((done : List TheStep) → step ≡ 1 + length done
        → HaveNames (names_of script.now) (done ++ taken.now ∷ [])
        → RunsTo script.now.cpus script.now.ceiling (names_of script.now) done machine.old
        → RunsTo script.now.cpus script.now.ceiling (names_of script.now) (done ++ taken.now ∷ []) machine.new) }
    ensures write { S.has_failed sink.new ≡ is_write result }
    ensures memory { IfErr result IsMemoryOrWrite }
{
    take_step(machine, script.names.as_slice(), line, step, taken)?;
    sink.put(line.as_bytes())?;
    Ok(())
}

/// Takes the steps of a script one after another on a machine that has taken none, and puts their lines.
///
/// At Ok the machine is the one that the definition's run of these steps leaves: its cyclics got indexes of their own, and each
/// was free when its cyclic got it. The lines of a step are written into `line` first, which takes memory where they need more
/// than it has; a word that brings cyclics to a CPU takes what the CPU needs for them.
pub fn put_steps<S: Sink>(
    machine: &mut Machine,
    line: &mut String,
    sink: &mut S,
    script: &Script,
) -> Result<(), RunFault>
    requires runs { RunsTo script.now.cpus script.now.ceiling (names_of script.now) [] machine.old }
    requires whole { S.has_failed sink.old ≡ false }
    ensures text { Puts (S.written sink.old) (S.written sink.new) result
        (run_on no_indexes script.now.cpus script.now.ceiling (names_of script.now) script.now.steps.items).line }
    ensures runs { OnOk result (RunsTo script.now.cpus script.now.ceiling (names_of script.now)
        script.now.steps.items machine.new) }
    ensures write { S.has_failed sink.new ≡ is_write result }
    ensures memory { IfErr result IsMemoryOrWrite }
{
    let mut step: u32 = 1;
    for taken in &script.steps {
        put_step(machine, line, sink, script, step, taken)?;
        step += 1;
    }
    Ok(())
}

/// Takes all steps on a machine that has taken none, and puts the text.
fn put_text<S: Sink>(
    machine: &mut Machine,
    line: &mut String,
    sink: &mut S,
    script: &Script,
) -> Result<(), RunFault>
    requires new { RunsTo script.now.cpus script.now.ceiling (names_of script.now) [] machine.old }
    requires whole { S.has_failed sink.old ≡ false }
    ensures text { Puts (S.written sink.old) (S.written sink.new) result (text_of script.now) }
    ensures runs { OnOk result (RunsTo script.now.cpus script.now.ceiling (names_of script.now)
        script.now.steps.items machine.new) }
    ensures write { S.has_failed sink.new ≡ is_write result }
    ensures memory { IfErr result IsMemoryOrWrite }
{
    put_steps(machine, line, sink, script)?;
    put_reports(machine, line, sink, script)
}

/// Runs the steps of a script on one thread, and puts the text that tells of them: the lines of a step at once, and then those of
/// the report one by one. Gives back the machine that the run left, so that `run` is of a machine that the caller has.
///
/// The handler of every cyclic counts its call and does nothing else. It takes the memory of the machine before the first line,
/// and that of a line where it first needs it: `Refused` comes with `Memory` alone. `Write` comes exactly where the sink has
/// failed. What was put before a fault stays put: it is a prefix of the text.
pub fn run_script<S: Sink>(
    alloc: Global,
    script: &Script,
    sink: &mut S,
) -> Result<Machine, RunFault>
    requires { S.has_failed sink.old ≡ false }
    ensures text { Puts (S.written sink.old) (S.written sink.new) result (text_of script.now) }

    // The machine is the one that the definition's run led to: the cyclics of that run got free indexes, and the conservation
    // theorem holds after each of its events.
    ensures run { IfOk result (HasReplayed script.now) }
    ensures write { S.has_failed sink.new ≡ is_write result }
    ensures memory { IfErr result IsMemoryOrWrite }
{
    let names = script.names.as_slice();
    let mut machine = begin(alloc, script.cpus, script.ceiling, names.len())?;
    let mut line = String::new(alloc);
    put_text(&mut machine, &mut line, sink, script)?;
    Ok(machine)
}

/// Runs a script, as `run_script` does and with as much memory, and lets its machine go: for a caller that wants the text alone.
/// Its contract says nothing of a machine, and so not that one ran: that is the clause `run` of `run_script`.
pub fn replay<S: Sink>(alloc: Global, script: &Script, sink: &mut S) -> Result<(), RunFault>
    requires { S.has_failed sink.old ≡ false }
    ensures text { Puts (S.written sink.old) (S.written sink.new) result (text_of script.now) }
    ensures write { S.has_failed sink.new ≡ is_write result }
    ensures memory { IfErr result IsMemoryOrWrite }
{
    match run_script(alloc, script, sink) {
        Ok(_machine) => Ok(()),
        Err(why) => Err(why),
    }
}
