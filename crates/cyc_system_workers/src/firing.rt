//! The threads of an advance: one for each CPU that is online.

ghost use Rattle.std.specs.Prelude.{◌≡◌, ◌≤◌, [], true, length, vec_capacity, IfOk, OnOk};
ghost use Rattle.cyc_system_workers.specs.Advancing.{LaneFires};
ghost use Rattle.cyc_system_workers.specs.Starting.{Beside, Owes, Keeps};

use crate::lanes::{Lane, LaneAfter};
use cyc_cpu::Hard;
use cyc_types::{Calls, Moment, Raise};
use cyc_workers::{AfterFire, FiringSide, Lead, fire};
use std::alloc::{AllocError, Global};
use std::snapshot::Snapshot;
use std::sync::Wait;
use std::thread;
use std::thread::{Promise, PromisedHandle, Scope, Threads};

/// The promise of the thread that fires a CPU.
#[derive(Drop)]
pub struct FiresLane<R: Raise, C> {
    pub lane: Snapshot<Lane<R, C>>,
    pub now: Moment,
}

impl<R: Raise, C: Calls> Promise<LaneAfter<R, C>> for FiresLane<R, C> {
    ghost kept_by = { λ p r. LaneFires C.Calls R.Raise p.now p.lane.value r };
}

/// A CPU of an advance that has begun.
#[derive(Drop)]
pub enum Started<R: Raise, C: Calls> {
    /// The thread that fires it.
    Fires(PromisedHandle<LaneAfter<R, C>, FiresLane<R, C>>),
    /// It is not online.
    Stays(LaneAfter<R, C>),
}

/// Fires a CPU, and wakes its draining workers.
fn fire_lane<R: Raise, C: Calls>(hard: Hard<R>, lead: Lead<C>, now: Moment) -> LaneAfter<R, C>
    ensures { LaneFires C.Calls R.Raise now
        (record { hard = hard; lead = lead; online = true }) result }
{
    hard.law();
    let Lead { calls, wakers } = lead;
    let AfterFire {
        hard,
        calls,
        answer,
    } = fire(FiringSide { hard, calls }, now, &wakers);
    LaneAfter {
        hard,
        lead: Lead { calls, wakers },
        answer: Some(answer),
    }
}

/// Starts the thread that fires a CPU, where the CPU is online. Any other stays as it is.
fn start<'s, E, R: Raise + Send + Drop + 's, C: Calls + Send + Drop + 's>(
    scope: &Scope<'s, E>,
    lane: Lane<R, C>,
    now: Moment,
) -> Result<Started<R, C>, AllocError>
    ensures { IfOk result (λ s. Owes C.Calls R.Raise now lane s) }
{
    let promise = FiresLane {
        lane: Snapshot::of(&lane),
        now,
    };
    let Lane { hard, lead, online } = lane;
    if !online {
        hard.law();
        return Ok(Started::Stays(LaneAfter {
            hard,
            lead,
            answer: None,
        }));
    }
    match scope.spawn_with(promise, move || fire_lane(hard, lead, now)) {
        Ok(child) => Ok(Started::Fires(child)),
        Err(_) => Err(AllocError),
    }
}

/// Starts a thread for each CPU that is online, until one is refused.
fn start_all<'s, E, R: Raise + Send + Drop + 's, C: Calls + Send + Drop + 's>(
    scope: &Scope<'s, E>,
    lanes: Vec<Lane<R, C>>,
    now: Moment,
    started: &mut Vec<Started<R, C>>,
) -> Result<(), AllocError>
    requires none { started.old.items ≡ [] }
    requires room { length lanes.items ≤ vec_capacity started.old }
    ensures begun { OnOk result (Beside (Owes C.Calls R.Raise now) lanes.items started.new.items) }
    ensures few { length started.new.items ≤ length lanes.items }
{
    for lane in lanes {
        started.push_reserved(start(scope, lane, now)?);
    }
    Ok(())
}

/// Waits for a CPU.
fn join<W: Threads, R: Raise + Drop, C: Calls + Drop>(
    rt: &W,
    started: Started<R, C>,
) -> LaneAfter<R, C>
    ensures { Keeps C.Calls R.Raise started result }
{
    match started {
        Started::Fires(child) => child.join(rt),
        Started::Stays(lane) => lane,
    }
}

/// Waits for each CPU: what they left, by their numbers.
fn join_all<W: Threads, R: Raise + Drop, C: Calls + Drop>(
    rt: &W,
    started: Vec<Started<R, C>>,
    after: &mut Vec<LaneAfter<R, C>>,
)
    requires none { after.old.items ≡ [] }
    requires room { length started.items ≤ vec_capacity after.old }
    ensures { Beside (Keeps C.Calls R.Raise) started.items after.new.items }
{
    for one in started {
        after.push_reserved(join(rt, one));
    }
}

/// Fires the CPUs that are online, each in a thread of its own, all started before the first is waited for. Memory is taken
/// before the first is started, and where one is refused, those that were started are waited for.
fn fire_in<'s, E, W: Threads, R: Raise + Send + Drop + 's, C: Calls + Send + Drop + 's>(
    scope: &Scope<'s, E>,
    rt: &W,
    alloc: Global,
    lanes: Vec<Lane<R, C>>,
    now: Moment,
) -> Result<Vec<LaneAfter<R, C>>, AllocError>
    ensures { IfOk result (λ v. Beside (LaneFires C.Calls R.Raise now) lanes.items v.items) }
{
    let mut started = Vec::with_capacity(alloc, lanes.len())?;
    let mut after = Vec::with_capacity(alloc, lanes.len())?;
    let all_started = start_all(scope, lanes, now, &mut started);
    join_all(rt, started, &mut after);
    all_started?;
    Ok(after)
}

/// Fires the CPUs that are online, each in a thread of its own, and waits for all. Where a thread or memory is refused, the
/// threads that were started have ended too before it answers.
pub(crate) fn fire_lanes<W: Threads + Wait, R: Raise + Send + Drop, C: Calls + Send + Drop>(
    rt: &W,
    alloc: Global,
    lanes: Vec<Lane<R, C>>,
    now: Moment,
) -> Result<Vec<LaneAfter<R, C>>, AllocError>
    ensures { IfOk result (λ v. Beside (LaneFires C.Calls R.Raise now) lanes.items v.items) }
{
    thread::scope(
        thread::scope_env(),
        rt,
        |scope| -> Result<Vec<LaneAfter<R, C>>, AllocError>
            ensures { IfOk result (λ v. Beside (LaneFires C.Calls R.Raise now) lanes.items v.items) }
        { fire_in(scope, rt, alloc, lanes, now) },
    )
}
