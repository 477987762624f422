//! An advance: all online CPUs of a system fire at once.

ghost use Rattle.std.specs.Prelude.{◌≡◌, length, IfOk};
ghost use Rattle.cyc_system_workers.specs.Advancing.{AllFire};

use crate::firing::fire_lanes;
use crate::lanes::{gather, scatter};
use crate::side::SystemSide;
use cyc_system::away_law;
use cyc_timers::{FireRefused, Fired};
use cyc_types::{Calls, Moment, Raise};
use std::alloc::{AllocError, Global};
use std::sync::Wait;
use std::thread::Threads;

/// The firing side of a system after an advance, and by the numbers of its CPUs what their fires answered: None where a CPU is
/// not online.
#[derive(Drop)]
pub struct Advanced<R: Raise, C> {
    pub side: SystemSide<R, C>,
    pub answers: Vec<Option<Result<Fired, FireRefused>>>,
}

/// Makes every expiration that is due on each online CPU, all CPUs at once (`cyclic_fire` of cyclic.c runs on each CPU by
/// itself): the firing sides leave the system, each fires in a thread of its own, and all come back once these threads have
/// ended. No thread is started for a CPU that is not online. Each CPU's draining workers are woken as it has fired.
///
/// A thread or its memory may be refused; the threads that were started have ended then, and the system is dropped.
pub fn advance<W: Threads + Wait, R: Raise + Send + Drop, C: Calls + Send + Drop>(
    rt: &W,
    alloc: Global,
    side: SystemSide<R, C>,
    now: Moment,
) -> Result<Advanced<R, C>, AllocError>
    requires { length side.leads.items ≡ length side.system.cpus.cpus }
    ensures { IfOk result (λ a. AllFire C.Calls R.Raise now side a) }
{
    let SystemSide { system, leads } = side;
    system.law();
    away_law::<C, R>();
    let (desk, hards) = system.split();
    let lanes = gather(alloc, hards, leads, desk.online())?;
    let lanes = fire_lanes(rt, alloc, lanes, now)?;
    let (hards, leads, answers) = scatter(alloc, lanes)?;
    let system = desk.unite(hards);
    Ok(Advanced {
        side: SystemSide { system, leads },
        answers,
    })
}
