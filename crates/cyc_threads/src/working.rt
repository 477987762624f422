//! The draining workers start, the lead takes the steps, and all are joined.

ghost use Rattle.std.specs.Prelude.{◌≡◌, ◌⊎◌, map, IfOk, IfErr, Ok, Some, None};
ghost use Rattle.cyc_types.specs.declared.refusal.Refusal.TheVariants.{Memory};
ghost use Rattle.cyc_thread_rings.specs.Working.{sides_of, both_sides};
ghost use Rattle.cyc_threads.specs.StepCalls.{HasLeads};
ghost use Rattle.cyc_threads.specs.Working.{refusal_of_run, BothLevelsMake};

use crate::halt::Halt;
use crate::progress::Progress;
use crate::stepping::take_steps;
use cyc_script::Script;
use cyc_soft::SoftSide;
use cyc_thread_rings::{
    Drainer, Fire, Levels, first_refusal, join_all, soft_sides, start_all, stop_all,
};
use cyc_types::{Calls, Drain, Raise, Refusal};
use cyc_workers::{Drained, Signals, Wakers};
use std::alloc::Global;
use std::sync::{Arc, Wait};
use std::thread;
use std::thread::{Scope, Threads};

/// What all workers of a run leave.
#[derive(Drop)]
pub struct Worked<R: Raise, D, C> {
    pub lead: Progress<R, C>,
    /// By the numbers of the CPUs.
    pub soft: Vec<Levels<SoftSide<D, C>>>,
}

/// The refusal that a run ends with: want of memory first, and else that of the smallest CPU, firing before lock before low.
fn refusal<R: Raise, D, C>(
    taken: &Result<Progress<R, C>, Halt>,
    drained: &[Levels<Drained<D, C>>],
) -> Option<Refusal>
    ensures { result ≡ refusal_of_run taken.now drained.now }
{
    match taken {
        Ok(_) => first_refusal(&None, drained),
        Err(Halt::Refused(why)) => Some(*why),
        Err(Halt::Fired { cpu, why }) => {
            let fire = Fire {
                cpu: *cpu as usize,
                why: *why,
            };
            match first_refusal(&Some(fire), drained) {
                Some(first) => Some(first),
                None => Some(*why),
            }
        }
        Err(Halt::Told(id)) => match first_refusal(&None, drained) {
            Some(why) => Some(why),
            None => Some(Refusal::HandlerRefused(*id)),
        },
    }
}

/// What all workers left, where none was stopped by a refusal.
fn all_left<R: Raise + Drop, D: Drop, C: Drop>(
    alloc: Global,
    taken: Result<Progress<R, C>, Halt>,
    drained: Vec<Levels<Drained<D, C>>>,
) -> Result<Worked<R, D, C>, Refusal>
    ensures none { IfOk result (λ w. refusal_of_run taken drained.items ≡ None) }
    ensures lead { IfOk result (λ w. taken ≡ Ok w.lead) }
    ensures soft { IfOk result (λ w. w.soft.items ≡ map both_sides drained.items) }
    ensures refused { IfErr result (λ e. (e ≡ Memory) ⊎ (refusal_of_run taken drained.items ≡ Some e)) }
{
    if let Some(why) = refusal(&taken, drained.as_slice()) {
        return Err(why);
    }
    let Ok(lead) = taken else { unreachable!() };
    let soft = soft_sides(alloc, drained)?;
    Ok(Worked { lead, soft })
}

/// Starts the draining workers, takes the steps, tells the workers to stop once nothing is outstanding, and waits for them. The
/// memory for what they leave is taken before the first is started, so on each way out all that were started have been told to
/// stop, woken and joined.
fn work<
    's,
    E,
    W: Threads + Wait + Sync + 's,
    R: Raise + Send + Drop,
    D: Drain + Send + Drop + 's,
    C: Calls + Send + Drop + 's,
>(
    scope: &Scope<'s, E>,
    rt: &'s W,
    alloc: Global,
    signals: &'s Signals<C>,
    wakers: &[Arc<Wakers, Global>],
    drainers: Vec<Levels<Drainer<D, C>>>,
    lead: Progress<R, C>,
    script: &Script,
) -> Result<Worked<R, D, C>, Refusal>
    requires { HasLeads lead }
    ensures { BothLevelsMake C.Calls R.Raise D.Drain
        (record { steps = script.now.steps.items; lead = lead; sides = map sides_of drainers.items }) result }
{
    let mut drained = Vec::with_capacity(alloc, drainers.len())?;
    let workers = start_all(scope, rt, alloc, signals, wakers, drainers)?;
    let taken = take_steps(rt, alloc, lead, script, signals);
    stop_all(signals, wakers);
    join_all(rt, workers, &mut drained);
    all_left(alloc, taken, drained)
}

/// Starts the draining workers in a scope, which has none of them left to wait for: whatever `work` answers, it has joined them.
fn work_in_scope<
    W: Threads + Wait + Sync,
    R: Raise + Send + Drop,
    D: Drain + Send + Drop,
    C: Calls + Send + Drop,
>(
    rt: &W,
    alloc: Global,
    signals: &Signals<C>,
    wakers: &[Arc<Wakers, Global>],
    drainers: Vec<Levels<Drainer<D, C>>>,
    lead: Progress<R, C>,
    script: &Script,
) -> Result<Worked<R, D, C>, Refusal>
    requires { HasLeads lead }
    ensures { BothLevelsMake C.Calls R.Raise D.Drain
        (record { steps = script.now.steps.items; lead = lead; sides = map sides_of drainers.items }) result }
{
    thread::scope(
        thread::scope_env(),
        rt,
        |scope| -> Result<Worked<R, D, C>, Refusal>
            requires { HasLeads lead }
            ensures { BothLevelsMake C.Calls R.Raise D.Drain (record {
              steps = script.entry.now.steps.items;
              lead = lead;
              sides = map sides_of drainers.items;
            }) result }
        { work(scope, rt, alloc, signals, wakers, drainers, lead, script) },
    )
}

/// Takes the steps of a script while two threads for each CPU drain its soft levels, and waits until each CPU has settled.
///
/// Refuses with Memory where memory or a thread was refused, and else with the first refusal, in the order of `refusal_of`, of a
/// fire that ended the steps and of the handlers of the soft levels. Whatever the answer, each draining worker was told to stop,
/// woken and joined.
pub(crate) fn work_all<
    W: Threads + Wait + Sync,
    R: Raise + Send + Drop,
    D: Drain + Send + Drop,
    C: Calls + Send + Drop,
>(
    rt: &W,
    alloc: Global,
    wakers: &[Arc<Wakers, Global>],
    drainers: Vec<Levels<Drainer<D, C>>>,
    lead: Progress<R, C>,
    script: &Script,
) -> Result<Worked<R, D, C>, Refusal>
    requires { HasLeads lead }
    ensures { BothLevelsMake C.Calls R.Raise D.Drain
        (record { steps = script.now.steps.items; lead = lead; sides = map sides_of drainers.items }) result }
{
    let signals = Signals::new();
    work_in_scope(rt, alloc, &signals, wakers, drainers, lead, script)
}
