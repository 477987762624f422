//! The steps of a script.

ghost use Rattle.std.specs.Prelude.{◌≡◌, ◌<◌, ℕ, IfOk, IfErr};
ghost use Rattle.cyc_types.specs.Series.{never};
ghost use Rattle.cyc_script.specs.declared.step.Step.TheVariants as steps;
ghost use Rattle.cyc_words.specs.Words.{MakesCall};
ghost use Rattle.cyc_threads.specs.StepCalls.{HasLeads};
ghost use Rattle.cyc_threads.specs.Words.{Begins, DoesStep, TakesStep, waits_first};
ghost use Rattle.cyc_threads.specs.Steps.{IsTold, IsBefore, Runs, StepHalts, WhyHalted};

use crate::advancing::advance_clock;
use crate::halt::Halt;
use crate::progress::Progress;
use crate::waiting::{wait, wake_all};
use cyc_script::{Script, Step};
use cyc_types::{Calls, Raise};
use cyc_words::take_word;
use cyc_workers::Signals;
use std::alloc::Global;
use std::sync::Wait;
use std::thread::Threads;

/// Whether a step has to wait until no removal is open and every CPU has settled.
fn waits_first(step: &Step) -> bool
    ensures { result ≡ waits_first step.now }
{
    match step {
        Step::Advance(_) => false,
        Step::Remove(_) => false,
        _ => true,
    }
}

/// The wait before a step.
#[tactic(auto, using(crate::proofs::Taking::begun_true, crate::proofs::Taking::begun_false))]
fn begin_step<W: Wait, R: Raise + Drop, C: Calls + Drop>(
    rt: &W,
    progress: Progress<R, C>,
    step: &Step,
    signals: &Signals<C>,
) -> Result<Progress<R, C>, Halt>
    requires { HasLeads progress }
    ensures begun { IfOk result (λ after. Begins R.Raise (waits_first step.now) progress after) }
    ensures halted { IfErr result (λ h. IsTold C.may_refuse h) }
{
    if !waits_first(step) {
        return Ok(progress);
    }
    wait(rt, progress, signals)
}

/// The word of a step that makes a call. After a `remove` it wakes the draining workers, which make the calls that are kept.
fn do_word<R: Raise, C: Calls>(progress: &mut Progress<R, C>, word: &Step)
    requires { MakesCall word.now }
    ensures { DoesStep C.Calls R.Raise word.now progress.old progress.new }
{
    let _answer = take_word(
        &mut progress.side.system,
        &mut progress.names,
        progress.clock,
        word,
    );
    if let Step::Remove(_) = word {
        wake_all(progress.side.leads.as_slice());
    }
}

/// What a step does.
fn do_step<W: Threads + Wait, R: Raise + Send + Drop, C: Calls + Send + Drop>(
    rt: &W,
    alloc: Global,
    progress: Progress<R, C>,
    step: &Step,
) -> Result<Progress<R, C>, Halt>
    requires ready { HasLeads progress }
    requires before { IsBefore step.now }
    ensures did { IfOk result (λ after. DoesStep C.Calls R.Raise step.now progress after) }
    ensures halted { IfErr result (λ h. StepHalts C.Calls R.Raise step.now progress h) }
{
    let mut progress = progress;
    match step {
        Step::Advance(now) => return advance_clock(rt, alloc, progress, *now),
        Step::Softint(_) => (),
        _ => do_word(&mut progress, step),
    }
    Ok(progress)
}

/// One step.
fn take_step<W: Threads + Wait + Sync, R: Raise + Send + Drop, C: Calls + Send + Drop>(
    rt: &W,
    alloc: Global,
    progress: Progress<R, C>,
    step: &Step,
    signals: &Signals<C>,
) -> Result<Progress<R, C>, Halt>
    requires ready { HasLeads progress }
    requires before { IsBefore step.now }
    ensures taken { IfOk result (λ after. TakesStep C.Calls R.Raise progress step.now after) }
    ensures halted { IfErr result (λ h. StepHalts C.Calls R.Raise step.now progress h) }
{
    let begun = begin_step(rt, progress, step, signals)?;
    do_step(rt, alloc, begun, step)
}

/// Takes the steps of a script, one after another, and then waits until no removal is open and every CPU has settled.
///
/// Each word is one call of the system, at the clock; a refused one changes nothing and the steps go on, also where memory
/// was refused. An `advance` fires all online CPUs, each in a thread of its own, and ends when they have; while the system is
/// suspended it sets the clock alone, and starts no thread. A `softint` does nothing, since other threads drain the levels all
/// the while. Every other word but `remove` waits first until each open removal has answered and each CPU has settled, and wakes
/// the draining workers between two questions.
///
/// It ends early where memory or a thread for an `advance` was refused, or a fire was, and where a handler of a draining worker
/// refused; what it had is then dropped.
#[tactic(auto, using(crate::proofs::Taking::reached_before))]
pub fn take_steps<W: Threads + Wait + Sync, R: Raise + Send + Drop, C: Calls + Send + Drop>(
    rt: &W,
    alloc: Global,
    progress: Progress<R, C>,
    script: &Script,
    signals: &Signals<C>,
) -> Result<Progress<R, C>, Halt>
    requires { HasLeads progress }
    ensures ran { IfOk result (λ after. Runs C.Calls R.Raise progress script.now.steps.items after) }
    ensures halted { IfErr result (λ h. WhyHalted C.Calls R.Raise progress script.now.steps.items h) }
{
    let mut progress = progress;
    for position in 0..script.steps.len() {
        progress = take_step(rt, alloc, progress, &script.steps[position], signals)?;
    }
    wait(rt, progress, signals)
}
