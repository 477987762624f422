//! The wait before a step.

ghost use Rattle.std.specs.Prelude.{◌≡◌, List, length, Option, Result, IfNone, IfSome, IfOk, IfErr};
ghost use Rattle.std.specs.List.{FoldsTo};
ghost use Rattle.cyc_types.specs.declared.receipt.Receipt.{Receipt};
ghost use Rattle.cyc_types.specs.declared.refusal.Refusal.{Refusal};
ghost use Rattle.cyc_system_workers.specs.Calls.{PollRemove};
ghost use Rattle.cyc_system_workers.specs.WorkersRefusals.{CanRefuse};
ghost use Rattle.cyc_threads.specs.StepCalls.{CallsFor, Poll, Polls, Waits, HasLeads};
ghost use Rattle.cyc_words.specs.Names.{NoneLeaves};
ghost use Rattle.cyc_threads.specs.Steps.{IsTold};

use crate::halt::Halt;
use crate::progress::{Progress, sound};
use cyc_system_workers::{Asked, settle};
use cyc_types::{Calls, CyclicId, Raise};
use cyc_words::poll;
use cyc_workers::{Lead, Signals};
use std::sync::Wait;
use std::thread;

/// Wakes both draining workers of every CPU.
pub(crate) fn wake_all<C>(leads: &[Lead<C>]) {
    for lead in leads {
        lead.wakers.wake();
    }
}

/// Polls the open removal of a name once.
fn poll_once<R: Raise, C>(progress: &mut Progress<R, C>, leaving: (usize, CyclicId))
    ensures { (answer : Result (Option Receipt) Refusal)
        × CallsFor R.Raise leaving.0 (PollRemove leaving.1 answer) progress.old progress.new }
{
    let (name, id) = leaving;
    let _answer = poll(&mut progress.side.system, &mut progress.names, name, id);
}

/// Polls each open removal until it has answered. Between two polls it wakes the draining workers. The answer is None then, and
/// else a cyclic whose handler refused before.
#[tactic(auto, using(crate::proofs::Telling::poll_none, crate::proofs::Telling::poll_next))]
fn poll_all<W: Wait, R: Raise, C: Calls>(
    rt: &W,
    progress: &mut Progress<R, C>,
    signals: &Signals<C>,
) -> Option<CyclicId>
    ensures polled { (polls : List Poll) × FoldsTo (Polls R.Raise) progress.old polls progress.new }
    ensures none { IfNone result (NoneLeaves progress.new.names) }
    ensures refused { IfSome result (λ id. CanRefuse C.may_refuse id) }
{
    for _ in rt.forever() {
        let Some(leaving) = progress.names.leaving() else {
            return None;
        };
        poll_once(progress, leaving);
        if let Some(id) = signals.refused() {
            return Some(id);
        }
        wake_all(progress.side.leads.as_slice());
        thread::yield_now();
    }
    unreachable!()
}

/// Waits until no removal is open and every CPU has settled (our own rule). Refuses with Told where a handler has refused before.
pub(crate) fn wait<W: Wait, R: Raise + Drop, C: Calls + Drop>(
    rt: &W,
    progress: Progress<R, C>,
    signals: &Signals<C>,
) -> Result<Progress<R, C>, Halt>
    requires { HasLeads progress }
    ensures waited { IfOk result (λ after. Waits R.Raise progress after) }
    ensures halted { IfErr result (λ h. IsTold C.may_refuse h) }
{
    let mut progress = progress;
    if let Some(id) = poll_all(rt, &mut progress, signals) {
        return Err(Halt::Told(id));
    }
    let Progress { side, clock, names } = progress;
    let Asked { side, refused } = settle(rt, side, signals);
    if let Some(id) = refused {
        return Err(Halt::Told(id));
    }
    sound(&side.system);
    Ok(Progress { side, clock, names })
}
