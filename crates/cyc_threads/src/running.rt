//! A run of a script in threads, from the opening of its rings to their closing.

ghost use Rattle.std.specs.Prelude.{◌≡◌, ◌*◌, ℕ, List, All, map, length, string_bytes, false, IfOk, IfErr};
ghost use Rattle.std.specs.Io.KnownBytes.{Appends};
ghost use Rattle.cyc_types.specs.declared.refusal.Refusal.TheVariants.{Memory};
ghost use Rattle.cyc_types.specs.Pairs.{EachTwo};
ghost use Rattle.cyc_text.specs.Status.{is_write};
ghost use Rattle.cyc_ring.specs.declared.ends.RaiseEnd.{RaiseEnd as FiringEnd};
ghost use Rattle.cyc_ring.specs.Ends.{raise_end, end_view};
ghost use Rattle.cyc_thread_rings.specs.Rings.{AreSeated, AreNew, soft_seats, soft_seats_on};
ghost use Rattle.cyc_threads.specs.declared.progress.Progress.{Progress as OneProgress};
ghost use Rattle.cyc_system_laws.specs.Sound.{IsSound};
ghost use Rattle.cyc_threads.specs.StepCalls.{HasLeads};
ghost use Rattle.cyc_threads.specs.Counting.{Reports};
ghost use Rattle.cyc_threads.specs.Running.{all_handlers, IsAtLast, AreAllClosed, HasRun, HasPlayed};
ghost use Rattle.cyc_threads.specs.Refusing.{WhyNotPlayed, WhyNotRun, StopsBy};

use crate::counting::{Line, report};
use crate::leading::lead;
use crate::progress::Progress;
use crate::reporting::report_text;
use crate::working::{Worked, work_all};
use cyc_ring::{Closed, DrainEnd, RaiseEnd, Ring};
use cyc_script::Script;
use cyc_soft::SoftSide;
use cyc_system_workers::SystemSide;
use cyc_text::{RunFault, Sink};
use cyc_thread_rings::{
    Levels, Opened, Prepared, Seated, attach, by_cpu, close_rings, in_one, in_pairs, leave_all,
    open_rings, prepare, seat_all, unseat_all,
};
use cyc_types::{Calls, Refusal};
use std::alloc::{AllocError, Global};
use std::sync::Wait;
use std::thread::Threads;

/// What a run of a script in threads ends with.
#[derive(Drop)]
pub struct Ended<C> {
    /// The handlers: CPU after CPU, firing, lock, low.
    pub calls: Vec<C>,
    /// The rings: CPU after CPU, lock, low.
    pub rings: Vec<Closed>,
}

/// What the CPUs of a run leave, and the counts of each name.
#[derive(Drop)]
pub struct Played<C> {
    pub all: Vec<Seated<C>>,
    pub lines: Vec<Line>,
}

/// What the CPUs leave: the lead's side, CPU after CPU, with the soft sides. Its memory may be refused.
fn leave_cpus<'a, C: Calls + Drop>(
    alloc: Global,
    lead: Progress<RaiseEnd<'a>, C>,
    soft: Vec<Levels<SoftSide<DrainEnd<'a>, C>>>,
) -> Result<Vec<Seated<C>>, AllocError>
    requires ready { HasLeads lead }
    requires soft { length soft.items ≡ length lead.side.system.cpus.cpus }
    ensures last { IfOk result (λ all. IsAtLast all.items lead.entry) }
    ensures soft { IfOk result (λ all. map soft_seats all.items ≡ map soft_seats_on soft.entry.items) }
{
    let Progress {
        side,
        clock: _,
        names: _,
    } = lead;
    let SystemSide { system, leads } = side;
    leave_all(alloc, system.split().1, leads, soft)
}

/// What all workers left, without their ends.
fn leave_rings<'a, C: Calls + Drop>(
    alloc: Global,
    worked: Worked<RaiseEnd<'a>, DrainEnd<'a>, C>,
) -> Result<Played<C>, Refusal>
    requires ready { HasLeads worked.lead }
    requires sound { IsSound end_view worked.lead.side.system }
    requires soft { length worked.soft.items ≡ length worked.lead.side.system.cpus.cpus }
    ensures left { IfOk result (λ p. (told : OneProgress FiringEnd _)
        × Reports raise_end p.lines.items worked.entry.lead told × IsAtLast p.all.items told) }
    ensures soft { IfOk result (λ p. map soft_seats p.all.items ≡ map soft_seats_on worked.entry.soft.items) }
    ensures refused { IfErr result (λ e. e ≡ Memory) }
{
    let Worked { lead, soft } = worked;
    let mut lead = lead;
    let lines = report(alloc, &mut lead)?;
    let all = leave_cpus(alloc, lead, soft)?;
    Ok(Played { all, lines })
}

/// Takes the steps of a script over rings that were opened just now.
fn play<W: Threads + Wait + Sync, C: Calls + Send + Drop>(
    rt: &W,
    alloc: Global,
    script: &Script,
    rings: &[Levels<Ring>],
    all: Vec<Seated<C>>,
) -> Result<Played<C>, Refusal>
    requires seated { EachTwo AreSeated rings.now (map (λ s. s.seats) all.items) }
    requires new { All (AreNew script.now.ceiling) (map (λ s. s.seats) all.items) }
    requires many { length all.items ≡ script.now.cpus }
    ensures seated { IfOk result (λ p. EachTwo AreSeated rings.now (map (λ s. s.seats) p.all.items)) }
    ensures played { IfOk result (λ p. HasPlayed C.Calls script.now all.items p.all.items p.lines.items) }
    ensures refused { IfErr result (λ e. WhyNotPlayed C.Calls script.now all.items e) }
{
    let attached = attach(alloc, rings, all)?;
    let Prepared {
        ends,
        leads,
        drainers,
        wakers,
    } = prepare(alloc, attached)?;
    let first = lead(alloc, ends, leads, script.names.len())?;
    let worked = work_all(rt, alloc, wakers.as_slice(), drainers, first, script)?;
    leave_rings(alloc, worked)
}

/// The handlers on the seats of new rings, CPU after CPU, beside the rings. Its memory may be refused.
fn seat_new<C: Drop>(
    alloc: Global,
    script: &Script,
    calls: Vec<C>,
) -> Result<(Vec<Levels<Ring>>, Vec<Seated<C>>), Refusal>
    requires { length calls.items ≡ 3 * script.now.cpus }
    ensures many { IfOk result (λ r. length r.1.items ≡ script.now.cpus) }
    ensures given { IfOk result (λ r. all_handlers r.1.items ≡ calls.items) }
    ensures new { IfOk result (λ r. All (AreNew script.now.ceiling) (map (λ s. s.seats) r.1.items)) }
    ensures seated { IfOk result (λ r. EachTwo AreSeated r.0.items (map (λ s. s.seats) r.1.items)) }
    ensures refused { IfErr result (λ e. e ≡ Memory) }
{
    let cpus = script.cpus as usize;
    let handlers = by_cpu(alloc, cpus, calls)?;
    let Opened { rings, seats } = open_rings(alloc, cpus, script.ceiling, 0)?;
    let all = seat_all(alloc, seats, handlers)?;
    Ok((rings, all))
}

/// What a run ends with: the handlers that these CPUs had, and their rings, which it closes. Its memory may be refused.
fn close_all<C: Drop>(
    alloc: Global,
    rings: Vec<Levels<Ring>>,
    all: Vec<Seated<C>>,
) -> Result<Ended<C>, AllocError>
    requires { EachTwo AreSeated rings.items (map (λ s. s.seats) all.items) }
    ensures calls { IfOk result (λ e. e.calls.items ≡ all_handlers all.items) }
    ensures rings { IfOk result (λ e. AreAllClosed all.items e.rings.items) }
{
    let (seats, handlers) = unseat_all(alloc, all)?;
    let closed = close_rings(alloc, rings, seats)?;
    let calls = in_one(alloc, handlers)?;
    let rings = in_pairs(alloc, closed)?;
    Ok(Ended { calls, rings })
}

/// A run without its writing: what it ends with, and its text.
fn run_script<W: Threads + Wait + Sync, C: Calls + Send + Drop>(
    rt: &W,
    alloc: Global,
    script: &Script,
    calls: Vec<C>,
) -> Result<(Ended<C>, String), Refusal>
    requires { length calls.items ≡ 3 * script.now.cpus }
    ensures ran { IfOk result (λ r. HasRun C.Calls script.now calls.items r.0 (string_bytes r.1)) }
    ensures refused { IfErr result (λ e. WhyNotRun C.Calls script.now calls.items e) }
{
    let (rings, all) = seat_new(alloc, script, calls)?;
    let Played { all, lines } = play(rt, alloc, script, rings.as_slice(), all)?;
    let text = report_text(alloc, script.names.as_slice(), lines.as_slice())?;
    let ended = close_all(alloc, rings, all)?;
    Ok((ended, text))
}

/// Runs a script in threads, and puts the report: for each name a line `NAME expired E called C lost L pending 0`.
///
/// Two threads for each CPU drain its soft levels from the start to the end, and each advance starts one for each online CPU,
/// which fires it, and ends once these have ended.
/// `calls` has the handlers of CPU after CPU: firing, lock, low; each worker calls its own, and they come back in that order,
/// with the rings of CPU after CPU: lock, low. All memory is taken before the first byte is put.
///
/// `Refused` comes with Memory where memory or a thread was refused, also where a handler was beside it, and with HandlerRefused
/// where a handler refused: of several that of the smallest CPU, firing before lock before low. It comes with nothing else: no
/// cyclic of a script expires as often as it may. Nothing is put then, and the handlers are dropped. `Write` comes exactly where
/// the sink has failed.
pub fn run<W: Threads + Wait + Sync, C: Calls + Send + Drop, S: Sink>(
    rt: &W,
    alloc: Global,
    script: &Script,
    calls: Vec<C>,
    sink: &mut S,
) -> Result<Ended<C>, RunFault>
    requires calls { length calls.items ≡ 3 * script.now.cpus }
    requires whole { S.has_failed sink.old ≡ false }
    ensures ran { IfOk result (λ e. (text : List ℕ) × HasRun C.Calls script.now calls.items e text
        × Appends (S.written sink.old) (S.written sink.new) text) }
    ensures refused { IfErr result (λ fault. StopsBy C.Calls script.now calls.items (S.written sink.old)
        (S.written sink.new) fault) }
    ensures write { S.has_failed sink.new ≡ is_write result }
{
    match run_script(rt, alloc, script, calls) {
        Ok((ended, text)) => {
            sink.put(text.as_bytes())?;
            Ok(ended)
        }
        Err(why) => Err(RunFault::Refused(why)),
    }
}
