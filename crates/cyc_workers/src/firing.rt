//! A firing worker.

ghost use Rattle.cyc_cpu.specs.Cpu.{running};
ghost use Rattle.cyc_cpu.specs.Calls.{Fire, no_interrupts};
ghost use Rattle.cyc_cpu_laws.specs.Runs.{CpuSteps};

use crate::wakers::Wakers;
use cyc_cpu::Hard;
use cyc_timers::{FireRefused, Fired};
use cyc_types::{Calls, Moment, Raise};

/// The firing side of a CPU, and the handlers of its high level.
#[derive(Drop)]
pub struct FiringSide<R: Raise, C> {
    pub hard: Hard<R>,
    pub calls: C,
}

/// What a firing worker leaves.
#[derive(Drop)]
pub struct AfterFire<R: Raise, C> {
    pub hard: Hard<R>,
    pub calls: C,
    /// What the fire answered.
    pub answer: Result<Fired, FireRefused>,
}

/// Makes every expiration of a CPU that is due (`cyclic_fire` of cyclic.c, as a thread), and wakes the draining workers of its
/// soft levels. It takes no memory and does not wait.
pub fn fire<R: Raise, C: Calls>(
    side: FiringSide<R, C>,
    now: Moment,
    wakers: &Wakers,
) -> AfterFire<R, C>
    ensures { CpuSteps C.Calls R.Raise no_interrupts (running side.calls side.hard)
        (Fire now result.answer) (running result.calls result.hard) }
{
    let FiringSide {
        mut hard,
        mut calls,
    } = side;
    let answer = hard.fire(now, &mut calls);
    hard.law();
    wakers.wake();
    AfterFire {
        hard,
        calls,
        answer,
    }
}
