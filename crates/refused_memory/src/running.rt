//! A run of a script in threads.
ghost use Rattle.std.specs.Prelude.{◌≡◌, ◌*◌, length, IfOk};

use crate::scripts::Compares;
use crate::seen::Seen;
use cyc_script::{Script, read_script};
use cyc_text::RunFault;
use cyc_threads::run;
use cyc_types::{CyclicId, Refusal, Tally};
use std::alloc::Global;
use std::sync::Wait;
use std::thread::Threads;

/// Four CPUs, a cyclic of each level, and an omnipresent one.
const SCRIPT: &str =
    "{\"cpus\":4,\"steps\":[[\"add\",\"a\",\"high\",10,10],[\"add\",\"b\",\"lock\",5,10],[\"add\",\"c\",\"low\",0,7],\
     [\"omni\",\"o\",\"low\",10,10,1],[\"advance\",100],[\"remove\",\"b\"],[\"juggle\",0],[\"advance\",200]]}";

const TEXT: &str =
    "a expired 20 called 20 lost 0 pending 0\nb expired 10 called 10 lost 0 pending 0\n\
     c expired 28 called 28 lost 0 pending 0\no expired 77 called 77 lost 0 pending 0\n";

/// Handlers for the workers of each CPU.
fn handlers(alloc: Global, script: &Script) -> Result<Vec<Tally>, Refusal>
    ensures { IfOk result (λ calls. length calls.items ≡ 3 * script.now.cpus) }
{
    let Some(first) = CyclicId::new(1) else {
        unreachable!()
    };
    let mut calls = Vec::new(alloc);
    for _ in 0..3 * script.cpus {
        calls.push(Tally::new(alloc, first, 4, u64::MAX)?)?;
    }
    Ok(calls)
}

/// Runs the script into the sink.
fn put<R: Threads + Wait + Sync>(
    rt: &R,
    alloc: Global,
    script: &Script,
    calls: Vec<Tally>,
    sink: &mut Compares,
) -> Result<(), RunFault>
    requires { length calls.items ≡ 3 * script.now.cpus }
{
    let _ended = run(rt, alloc, script, calls, sink)?;
    Ok(())
}

/// Whether a run of the script, with handlers of its own, puts the report.
fn puts_all<R: Threads + Wait + Sync>(rt: &R, alloc: Global, script: &Script) -> bool {
    match handlers(alloc, script) {
        Ok(calls) => {
            let mut sink = Compares::with(TEXT);
            let ended = put(rt, alloc, script, calls, &mut sink);
            ended == Ok(()) && sink.is_whole()
        }
        Err(_) => false,
    }
}

fn run_on<R: Threads + Wait + Sync>(
    rt: &R,
    alloc: Global,
    script: &Script,
    calls: Vec<Tally>,
) -> Seen
    requires { length calls.items ≡ 3 * script.now.cpus }
{
    let mut sink = Compares::with(TEXT);
    let ended = put(rt, alloc, script, calls, &mut sink);
    if ended == Ok(()) && sink.is_whole() {
        return Seen::Done;
    }
    let again = puts_all(rt, alloc, script);
    match ended {
        Ok(()) if again => Seen::Without,
        Err(RunFault::Refused(Refusal::Memory)) if again && sink.is_untouched(TEXT) =>
            Seen::Refused,
        _ => Seen::Wrong,
    }
}

fn prepared(alloc: Global) -> Result<(Script, Vec<Tally>), Refusal>
    ensures { IfOk result (λ r. length r.1.items ≡ 3 * r.0.cpus) }
{
    let script = read_script(alloc, SCRIPT.as_bytes())?;
    let calls = handlers(alloc, &script)?;
    Ok((script, calls))
}

/// `run`. Where it is refused it has put nothing. Where a step was refused it goes on without that step.
pub(crate) fn running<R: Threads + Wait + Sync>(rt: &R, alloc: Global) -> Seen {
    match prepared(alloc) {
        Ok((script, calls)) => run_on(rt, alloc, &script, calls),
        Err(_) => Seen::Before,
    }
}
