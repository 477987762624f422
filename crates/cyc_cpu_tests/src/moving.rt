//! Worked moves from one CPU to another.

ghost use Rattle.std.specs.Prelude.{◌≤◌};

use crate::steps::{Answer, Step, cpu, id, play};
use cyc_core::LevelCore;
use cyc_cpu::Hard;
use cyc_types::{Interval, Level, Moment, Refusal, Sent, Soft};
use std::alloc::Global;
use std::process::Abort;
use std::test::Fail;
use test_handlers::Handlers;

/// Places the id, with these counts, where room for it was made.
fn place(
    cpu: &mut Hard<LevelCore>,
    number: u64,
    level: Level,
    interval: i64,
    moment: i64,
    carried: Sent,
) -> Result<(), Fail>
    requires lost { carried.lost ≤ carried.sent }
    requires most { carried.sent ≤ cpu.old.most }
{
    let id = id(number)?;
    let interval = Interval::new(interval)?;
    let moment = Moment::new(moment)?;
    let None = cpu.pending(id) else {
        return Err(Fail::from("an id that is not here"));
    };
    cpu.reserve(1)?;
    cpu.widen(1);
    cpu.place(id, level, interval, moment, carried);
    Ok(())
}

/// Adds a cyclic, which is taken off the CPU once its calls are made.
fn take(rt: &impl Abort, source: &mut Hard<LevelCore>, calls: &mut Handlers) -> Result<(), Fail> {
    let steps = [
        (Step::Add(1, Level::Low, 1, 1, 0), Answer::Done),
        (Step::Fire(3), Answer::Fired(3, 0, 4)),
        (Step::Settled, Answer::Settled(false)),
        (Step::TakeNow(1), Answer::Refused(Refusal::Pending)),
        (Step::Softint(Soft::Low, 8), Answer::Ran(3, true)),
        (Step::Settled, Answer::Settled(true)),
        (Step::TakeNow(1), Answer::Taken(Level::Low, 1, 4, 3, 0)),
        (Step::TakeNow(1), Answer::Refused(Refusal::NoCyclic)),
    ];
    play(rt, source, calls, &steps)
}

/// Places the cyclic of `take` on another CPU, and removes it there.
fn place_and_remove(
    rt: &impl Abort,
    target: &mut Hard<LevelCore>,
    calls: &mut Handlers,
) -> Result<(), Fail>
    requires { 3 ≤ target.old.most }
{
    place(target, 1, Level::Low, 1, 4, Sent { sent: 3, lost: 0 })?;
    let busy = Refusal::Busy(id(1)?);
    let steps = [
        (Step::Fire(4), Answer::Fired(1, 0, 5)),
        (Step::BeginRemove(1), Answer::Kept(1)),
        (Step::BeginRemove(1), Answer::Refused(busy)),
        (Step::Reprogram(1, 9), Answer::Refused(Refusal::NoCyclic)),
        (Step::PollRemove, Answer::Nothing),
        (Step::Softint(Soft::Low, 8), Answer::Ran(1, true)),
        (Step::PollRemove, Answer::Receipt(1, 4, 0, 4)),
        (Step::PollRemove, Answer::Nothing),
        (Step::BeginRemove(1), Answer::Refused(Refusal::NoCyclic)),
    ];
    play(rt, target, calls, &steps)
}

/// A CPU that the cyclic leaves.
fn leave(rt: &impl Abort, alloc: Global, calls: &mut Handlers) -> Result<(), Fail> {
    let mut source = cpu(alloc, u64::MAX, u32::MAX)?;
    take(rt, &mut source, calls)
}

/// The CPU to which it goes.
fn arrive(rt: &impl Abort, alloc: Global, calls: &mut Handlers) -> Result<(), Fail> {
    let mut target = cpu(alloc, u64::MAX, u32::MAX)?;
    place_and_remove(rt, &mut target, calls)
}

/// Moves the cyclic, and counts its calls on both CPUs.
fn move_and_count(rt: &impl Abort, alloc: Global, calls: &mut Handlers) -> Result<(), Fail> {
    leave(rt, alloc, calls)?;
    arrive(rt, alloc, calls)?;
    assert_eq!(rt; calls.count(id(1)?), Some(4));
    Ok(())
}

#[test]
fn a_cyclic_goes_on_at_another_cpu_where_it_stopped(rt: HostRuntime) -> Result<(), Fail> {
    let mut calls = Handlers::new(rt.alloc(), 0)?;
    move_and_count(&rt, rt.alloc(), &mut calls)
}
