//! Handlers that refuse.
ghost use Rattle.cyc_types.specs.Tally.{tally_count, tally_called};

use crate::help::{Outcome, id, ran};
use cyc_text::RunFault;
use cyc_types::{Calls, CyclicId, Level, Refusal, Refused, Tally};
use std::alloc::Global;
use std::process::Abort;
use std::sync::Wait;
use std::test::Fail;
use std::thread::Threads;

/// Handlers that may refuse their first call, and only that.
#[derive(Drop)]
struct Once {
    tally: Tally,
    refuses: bool,
}

impl Calls for Once {
    ghost count = { λ once. tally_count once.tally };

    ghost called = { λ once id level after. tally_called once.tally id level after.tally };

    ghost may_refuse = { λ once id. Unit {0} };

    fn call(&mut self, id: CyclicId, level: Level) -> Result<(), Refused> {
        if self.refuses {
            self.refuses = false;
            return Err(Refused);
        }
        self.tally.call(id, level)
    }
}

/// Handlers that may refuse their first call.
fn handlers(alloc: Global, refuses: &[bool]) -> Result<Vec<Once>, Fail> {
    let id = id(1)?;
    let mut calls = Vec::new(alloc);
    for &refuses in refuses {
        let tally = Tally::new(alloc, id, 2, 10)?;
        calls.push(Once { tally, refuses })?;
    }
    Ok(calls)
}

/// A run on one CPU, whose handlers of one kind refuse their first call, is refused by the handler of id 1 and writes nothing.
fn refused<W: Threads + Wait + Sync + Abort>(
    rt: &W,
    alloc: Global,
    script: &str,
    refuses: &[bool],
) -> Result<(), Fail> {
    let wanted = RunFault::Refused(Refusal::HandlerRefused(id(1)?));
    let Outcome { ended, written } = ran(rt, alloc, script, handlers(alloc, refuses)?)?;
    let Err(fault) = ended else {
        return Err(Fail::from("a refusal"));
    };
    assert_eq!(rt; fault, wanted);
    assert!(rt; written.is_empty(), "nothing is written");
    Ok(())
}

#[test]
fn a_refusing_lock_handler_ends_the_run(rt: HostRuntime) -> Result<(), Fail> {
    let script =
        "{\"cpus\":1,\"steps\":[[\"add\",\"a\",\"lock\",1,10],[\"add\",\"b\",\"low\",2,10],[\"bind\",\"b\",0],[\"advance\",2]]}";
    refused(&rt, rt.alloc(), script, &[false, true, false])
}

#[test]
fn a_refusing_high_handler_ends_the_run(rt: HostRuntime) -> Result<(), Fail> {
    let script = "{\"cpus\":1,\"steps\":[[\"add\",\"a\",\"high\",1,10],[\"advance\",1]]}";
    refused(&rt, rt.alloc(), script, &[true, false, false])
}
