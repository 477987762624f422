//! The word that sets the clock.

ghost use Rattle.std.specs.Prelude.{◌≡◌, ◌<◌, ◌≤◌, ℕ, length, None, IfOk, IfErr, IfNone, IfSome};
ghost use Rattle.cyc_types.specs.Limits.{most_cpus};
ghost use Rattle.cyc_types.specs.Series.{never};
ghost use Rattle.cyc_threads.specs.StepCalls.{Advances, HasLeads, IsFirstRefused, refusal_at, refusal_of_fire};
ghost use Rattle.cyc_threads.specs.Steps.{AdvanceHalts};

use crate::halt::Halt;
use crate::progress::{Progress, sound};
use cyc_system_workers::{Advanced, advance};
use cyc_timers::{FireRefused, Fired};
use cyc_types::{CPUS, Calls, Moment, Raise, Refusal};
use std::alloc::Global;
use std::sync::Wait;
use std::thread::Threads;

/// Why the fire of a CPU was refused.
fn refusal_of(answer: &Option<Result<Fired, FireRefused>>) -> Option<Refusal>
    ensures { result ≡ refusal_of_fire answer.now }
{
    match answer {
        Some(Err(refused)) => Some(refused.why),
        _ => None,
    }
}

/// The same of the CPU of a number.
fn refusal_at(answers: &[Option<Result<Fired, FireRefused>>], cpu: u32) -> Option<Refusal>
    ensures { result ≡ refusal_at answers.now cpu }
{
    let position = cpu as usize;
    if position < answers.len() {
        refusal_of(&answers[position])
    } else {
        None
    }
}

/// The CPU with the smallest number whose fire was refused, and why.
fn first_refused(answers: &[Option<Result<Fired, FireRefused>>]) -> Option<(u32, Refusal)>
    requires few { length answers.now ≤ most_cpus }
    ensures none { IfNone result ((n : ℕ) → refusal_at answers.now n ≡ None) }
    ensures some { IfSome result (λ r. IsFirstRefused answers.now r.0 r.1) }
{
    for cpu in 0..CPUS {
        if let Some(why) = refusal_at(answers, cpu) {
            return Some((cpu, why));
        }
    }
    None
}

/// The moment of so many nanoseconds.
fn moment_of(nanoseconds: u64) -> Moment
    requires { nanoseconds < never }
    ensures { result ≡ nanoseconds }
{
    Moment::new(nanoseconds as i64).unwrap_or(Moment::NEVER)
}

/// The word `advance`: sets the clock, and all online CPUs fire, each in a thread of its own. It ends when these have ended.
/// While the system is suspended the clock alone is set.
///
/// Refuses with Memory where memory or a thread was refused, and then with the refusal of the smallest CPU whose fire was.
pub(crate) fn advance_clock<W: Threads + Wait, R: Raise + Send + Drop, C: Calls + Send + Drop>(
    rt: &W,
    alloc: Global,
    progress: Progress<R, C>,
    nanoseconds: u64,
) -> Result<Progress<R, C>, Halt>
    requires before { nanoseconds < never }
    requires ready { HasLeads progress }
    ensures fired { IfOk result (λ after. Advances C.Calls R.Raise nanoseconds progress after) }
    ensures halted { IfErr result (λ h. AdvanceHalts C.Calls R.Raise nanoseconds progress h) }
{
    let now = moment_of(nanoseconds);
    if progress.side.system.is_suspended() {
        return Ok(Progress {
            clock: now,
            ..progress
        });
    }
    let Progress {
        side,
        clock: _,
        names,
    } = progress;
    side.system.law();
    let Ok(advanced) = advance(rt, alloc, side, now) else {
        return Err(Halt::Refused(Refusal::Memory));
    };
    let Advanced { side, answers } = advanced;
    if let Some((cpu, why)) = first_refused(answers.as_slice()) {
        return Err(Halt::Fired { cpu, why });
    }
    sound(&side.system);
    Ok(Progress {
        side,
        clock: now,
        names,
    })
}
