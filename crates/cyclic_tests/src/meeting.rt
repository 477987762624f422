//! Handlers of two workers that wait for each other. Each waits for a bounded number of turns and refuses after them, so a run
//! whose workers don't run at the same time ends with a refusal.
ghost use Rattle.cyc_types.specs.Tally.{tally_count, tally_called};

use crate::help::{Outcome, id, ran};
use cyc_types::{Calls, CyclicId, Level, Refused, Tally};
use std::alloc::Global;
use std::process::Abort;
use std::sync::atomic::{AtomicBool, Ordering};
use std::sync::{Arc, Wait};
use std::test::Fail;
use std::thread;
use std::thread::Threads;

/// The most turns that a handler waits.
const TURNS: u32 = 1_000_000;

/// What each run here writes.
const TEXT: &str = "a expired 1 called 1 lost 0 pending 0\nb expired 1 called 1 lost 0 pending 0\n";

/// A handler that tells the other that it was called, and waits until the other was.
#[derive(Drop)]
struct Meeting {
    tally: Tally,
    mine: Arc<AtomicBool, Global>,
    other: Arc<AtomicBool, Global>,
}

impl Calls for Meeting {
    ghost count = { λ meeting. tally_count meeting.tally };

    ghost called = { λ meeting id level after. tally_called meeting.tally id level after.tally };

    ghost may_refuse = { λ meeting id. Unit {0} };

    fn call(&mut self, id: CyclicId, level: Level) -> Result<(), Refused> {
        self.mine.store(true, Ordering::SeqCst);
        if meets(&self.other) {
            self.tally.call(id, level)
        } else {
            Err(Refused)
        }
    }
}

/// Waits for the flag, one load and one yield a turn.
fn meets(flag: &AtomicBool) -> bool {
    for _ in 0..TURNS {
        if flag.load(Ordering::SeqCst) {
            return true;
        }
        thread::yield_now();
    }
    false
}

/// Adds a handler of this side.
fn push_handler(
    alloc: Global,
    calls: &mut Vec<Meeting>,
    mine: &Arc<AtomicBool, Global>,
    other: &Arc<AtomicBool, Global>,
) -> Result<(), Fail> {
    let tally = Tally::new(alloc, id(1)?, 2, 10)?;
    let mine = Arc::try_clone(mine)?;
    let other = Arc::try_clone(other)?;
    calls.push(Meeting { tally, mine, other })?;
    Ok(())
}

/// Handlers of two sides, each of which waits for the other.
fn handlers(alloc: Global, sides: &[bool]) -> Result<Vec<Meeting>, Fail> {
    let first = Arc::new(alloc, AtomicBool::new(false))?;
    let second = Arc::new(alloc, AtomicBool::new(false))?;
    let mut calls = Vec::new(alloc);
    for &side in sides {
        if side {
            push_handler(alloc, &mut calls, &first, &second)?;
        } else {
            push_handler(alloc, &mut calls, &second, &first)?;
        }
    }
    Ok(calls)
}

/// A run whose handlers are of two sides, each of which waits for the other.
fn meet<W: Threads + Wait + Sync + Abort>(
    rt: &W,
    alloc: Global,
    script: &str,
    sides: &[bool],
) -> Result<(), Fail> {
    let Outcome { ended, written } = ran(rt, alloc, script, handlers(alloc, sides)?)?;
    assert!(rt; ended.is_ok(), "both handlers meet");
    assert_eq!(rt; written.as_slice(), TEXT.as_bytes());
    Ok(())
}

// A body that drains both levels on one thread ends with a refusal.
#[test]
fn two_drainers_meet(rt: HostRuntime) -> Result<(), Fail> {
    let script =
        "{\"cpus\":1,\"steps\":[[\"add\",\"a\",\"lock\",1,10],[\"add\",\"b\",\"low\",2,10],[\"bind\",\"b\",0],[\"advance\",2]]}";
    meet(&rt, rt.alloc(), script, &[true, true, false])
}

// A body that drains only between advances, or after them, ends with a refusal.
#[test]
fn firer_meets_drainer(rt: HostRuntime) -> Result<(), Fail> {
    let script =
        "{\"cpus\":1,\"steps\":[[\"add\",\"a\",\"low\",1,10],[\"add\",\"b\",\"high\",5,10],[\"advance\",1],[\"advance\",5]]}";
    meet(&rt, rt.alloc(), script, &[true, true, false])
}

// A body that fires all CPUs on one thread ends with a refusal.
#[test]
fn two_firers_meet(rt: HostRuntime) -> Result<(), Fail> {
    let script =
        "{\"cpus\":2,\"steps\":[[\"add\",\"a\",\"high\",1,10],[\"add\",\"b\",\"high\",1,10],[\"advance\",1]]}";
    meet(
        &rt,
        rt.alloc(),
        script,
        &[true, true, true, false, false, false],
    )
}

// A body that drains all CPUs on one thread ends with a refusal.
#[test]
fn two_lows_meet(rt: HostRuntime) -> Result<(), Fail> {
    let script =
        "{\"cpus\":2,\"steps\":[[\"add\",\"a\",\"low\",1,10],[\"add\",\"b\",\"low\",1,10],[\"advance\",1]]}";
    meet(
        &rt,
        rt.alloc(),
        script,
        &[true, true, true, false, false, false],
    )
}
