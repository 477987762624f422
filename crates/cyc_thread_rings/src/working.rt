//! The draining workers of a system start, and are joined.

ghost use Rattle.std.specs.Prelude.{◌≡◌, ◌≤◌, [], map, length, vec_capacity, IfOk, IfErr, OnOk};
ghost use Rattle.cyc_types.specs.declared.refusal.Refusal.TheVariants.{Memory};
ghost use Rattle.cyc_types.specs.Levels.{as_level, handler_at};
ghost use Rattle.cyc_types.specs.Pairs.{EachTwo};
ghost use Rattle.cyc_workers.specs.Draining.{HasDrained};
ghost use Rattle.cyc_thread_rings.specs.Working.{sides_of, both_sides, HasPromised, HaveKept};

use crate::levels::Levels;
use crossbeam_utils::sync::Parker;
use cyc_soft::SoftSide;
use cyc_types::{Calls, Drain, Refusal, Soft};
use cyc_workers::{Drained, Drains, Signals, Wakers, drain};
use std::alloc::{AllocError, Global};
use std::snapshot::Snapshot;
use std::sync::{Arc, Wait};
use std::thread::{PromisedHandle, Scope, Threads};

/// A draining worker that has not started: where it sleeps, and what it is to drain.
#[derive(Drop)]
pub struct Drainer<D, C> {
    pub parker: Parker,
    pub side: SoftSide<D, C>,
}

/// A draining worker that was started.
type Worker<D, C> = PromisedHandle<Drained<D, C>, Drains<D, C>>;

/// Tells the draining workers to stop, and wakes them all.
pub fn stop_all<C: Calls>(signals: &Signals<C>, wakers: &[Arc<Wakers, Global>]) {
    signals.stop();
    for own in wakers {
        own.wake();
    }
}

/// Starts a draining worker. Where no thread could be made it tells all others to stop, wakes them, and refuses with Memory.
fn start<'s, E, W: Wait + Sync + 's, D: Drain + Send + Drop + 's, C: Calls + Send + Drop + 's>(
    scope: &Scope<'s, E>,
    rt: &'s W,
    signals: &'s Signals<C>,
    wakers: &[Arc<Wakers, Global>],
    level: Soft,
    drainer: Drainer<D, C>,
) -> Result<Worker<D, C>, Refusal>
    ensures started { IfOk result (λ h. (h.promise.side.value ≡ drainer.side) × (h.promise.level ≡ level)) }
    ensures refused { IfErr result (λ e. e ≡ Memory) }
{
    let Drainer { parker, side } = drainer;
    let promise = Drains {
        side: Snapshot::of(&side),
        level,
    };
    match scope.spawn_with(promise, move || drain(rt, &parker, signals, level, side)) {
        Ok(child) => Ok(child),
        Err(_) => {
            stop_all(signals, wakers);
            Err(Refusal::Memory)
        }
    }
}

/// Starts the two draining workers of a CPU, lock and low. Where one is refused, all were told to stop and woken, and no worker
/// of this CPU is left.
fn start_both<
    's,
    E,
    W: Threads + Wait + Sync + 's,
    D: Drain + Send + Drop + 's,
    C: Calls + Send + Drop + 's,
>(
    scope: &Scope<'s, E>,
    rt: &'s W,
    signals: &'s Signals<C>,
    wakers: &[Arc<Wakers, Global>],
    of_cpu: Levels<Drainer<D, C>>,
) -> Result<Levels<Worker<D, C>>, Refusal>
    ensures started { IfOk result (HasPromised (sides_of of_cpu)) }
    ensures refused { IfErr result (λ e. e ≡ Memory) }
{
    let Levels { lock, low } = of_cpu;
    let lock = start(scope, rt, signals, wakers, Soft::Lock, lock)?;
    match start(scope, rt, signals, wakers, Soft::Low, low) {
        Ok(low) => Ok(Levels { lock, low }),
        Err(why) => {
            drop(join_one(rt, lock));
            Err(why)
        }
    }
}

/// Starts the two draining workers of one CPU after another, until one is refused; all were told to stop and woken then.
fn start_each<
    's,
    E,
    W: Threads + Wait + Sync + 's,
    D: Drain + Send + Drop + 's,
    C: Calls + Send + Drop + 's,
>(
    scope: &Scope<'s, E>,
    rt: &'s W,
    signals: &'s Signals<C>,
    wakers: &[Arc<Wakers, Global>],
    drainers: Vec<Levels<Drainer<D, C>>>,
    workers: &mut Vec<Levels<Worker<D, C>>>,
) -> Result<(), Refusal>
    requires none { workers.old.items ≡ [] }
    requires room { length drainers.items ≤ vec_capacity workers.old }
    ensures started { OnOk result (EachTwo HasPromised (map sides_of drainers.items) workers.new.items) }
    ensures refused { IfErr result (λ e. e ≡ Memory) }
{
    for of_cpu in drainers {
        workers.push_reserved(start_both(scope, rt, signals, wakers, of_cpu)?);
    }
    Ok(())
}

/// Starts the two draining workers of each CPU, lock and low. Refuses with Memory where no thread could be made or a growth of
/// memory was refused; those that were started have been told to stop, woken and joined then.
pub fn start_all<
    's,
    E,
    W: Threads + Wait + Sync + 's,
    D: Drain + Send + Drop + 's,
    C: Calls + Send + Drop + 's,
>(
    scope: &Scope<'s, E>,
    rt: &'s W,
    alloc: Global,
    signals: &'s Signals<C>,
    wakers: &[Arc<Wakers, Global>],
    drainers: Vec<Levels<Drainer<D, C>>>,
) -> Result<Vec<Levels<Worker<D, C>>>, Refusal>
    ensures started { IfOk result (λ v. EachTwo HasPromised (map sides_of drainers.items) v.items) }
    ensures refused { IfErr result (λ e. e ≡ Memory) }
{
    let mut workers = Vec::with_capacity(alloc, drainers.len())?;
    match start_each(scope, rt, signals, wakers, drainers, &mut workers) {
        Ok(()) => Ok(workers),
        Err(why) => {
            end_all(rt, workers);
            Err(why)
        }
    }
}

/// Waits for a draining worker.
fn join_one<R: Threads, D: Drain + Drop, C: Calls + Drop>(
    rt: &R,
    worker: Worker<D, C>,
) -> Drained<D, C>
    ensures { HasDrained D.Drain (handler_at C.Calls (as_level worker.promise.level)) worker.promise.side.value result }
{
    worker.join(rt)
}

/// Waits for the draining workers of each CPU, and drops what they left. All must have been told to stop, and woken.
fn end_all<R: Threads, D: Drain + Drop, C: Calls + Drop>(
    rt: &R,
    workers: Vec<Levels<Worker<D, C>>>,
) {
    for of_cpu in workers {
        drop(join_one(rt, of_cpu.lock));
        drop(join_one(rt, of_cpu.low));
    }
}

/// Waits for the draining workers of each CPU: what they left, by the numbers of the CPUs. All must have been told to stop, and
/// woken. There must be room for what they left, so that nothing is refused between two of them.
pub fn join_all<R: Threads, D: Drain + Drop, C: Calls + Drop>(
    rt: &R,
    workers: Vec<Levels<Worker<D, C>>>,
    drained: &mut Vec<Levels<Drained<D, C>>>,
)
    requires none { drained.old.items ≡ [] }
    requires room { length workers.items ≤ vec_capacity drained.old }
    ensures { EachTwo (HaveKept D.Drain C.Calls) workers.items drained.new.items }
{
    for of_cpu in workers {
        let lock = join_one(rt, of_cpu.lock);
        let low = join_one(rt, of_cpu.low);
        drained.push_reserved(Levels { lock, low });
    }
}

/// The soft sides that the draining workers left. Its memory may be refused.
pub fn soft_sides<D: Drop, C: Drop>(
    alloc: Global,
    drained: Vec<Levels<Drained<D, C>>>,
) -> Result<Vec<Levels<SoftSide<D, C>>>, AllocError>
    ensures { IfOk result (λ v. v.items ≡ map both_sides drained.items) }
{
    let mut soft = Vec::with_capacity(alloc, drained.len())?;
    for of_cpu in drained {
        let Levels { lock, low } = of_cpu;
        soft.push_reserved(Levels {
            lock: SoftSide {
                drain: lock.drain,
                calls: lock.calls,
            },
            low: SoftSide {
                drain: low.drain,
                calls: low.calls,
            },
        });
    }
    Ok(soft)
}
