//! Cyclics that leave a CPU: moved, or removed.
use crate::help::id;
use crate::steps::{Answer, Step, on_one_cpu, on_two_cpus};
use cyc_system::CpuOrOmni;
use cyc_types::{JuggleReport, Level, Refusal, Soft};
use std::test::Fail;

#[test]
fn a_cyclic_with_calls_outstanding_stays(rt: HostRuntime) -> Result<(), Fail> {
    let steps = [
        (Step::Add(Level::Low, 10, 10, 0), Answer::Id(1)),
        (Step::Fire(0, 10), Answer::Fired(1, 0, 20)),
        (Step::Juggle(0), Answer::Juggled(0, 0, 1, 0)),
        (Step::Softint(0, Soft::Low, 8), Answer::Ran(1, true)),
        (Step::Juggle(0), Answer::Juggled(1, 0, 0, 0)),
        (Step::Place(1), Answer::Place(CpuOrOmni::Cpu(1))),
        (Step::Fire(1, 20), Answer::Fired(1, 0, 30)),
        (Step::Softint(1, Soft::Low, 8), Answer::Ran(1, true)),
        (Step::Totals(1), Answer::Totals(2, 0, 0)),
        (Step::Juggle(2), Answer::Refused(Refusal::NoCpu)),
    ];
    on_two_cpus(&rt, rt.alloc(), &steps)
}

#[test]
fn a_removal_answers_when_its_calls_are_made(rt: HostRuntime) -> Result<(), Fail> {
    let removed = id(1)?;
    let steps = [
        (Step::Add(Level::Low, 1, 1, 0), Answer::Id(1)),
        (Step::Fire(0, 3), Answer::Fired(3, 0, 4)),
        (Step::Juggle(0), Answer::Refused(Refusal::LastCpu)),
        (Step::Remove(1), Answer::Kept(3)),
        (Step::Fire(0, 9), Answer::Fired(0, 0, i64::MAX as u64)),
        (Step::Remove(1), Answer::Refused(Refusal::Busy(removed))),
        (Step::Softint(0, Soft::Low, 2), Answer::Ran(2, false)),
        (Step::Poll(1), Answer::Nothing),
        (Step::Softint(0, Soft::Low, 8), Answer::Ran(1, true)),
        (Step::Poll(1), Answer::Receipt(3, 0)),
        (Step::Remove(1), Answer::Refused(Refusal::NoCyclic)),
        (Step::Add(Level::High, 0, 10, 9), Answer::Id(2)),
        (Step::Fire(0, 20), Answer::Fired(2, 0, 30)),
        (Step::Remove(2), Answer::Receipt(2, 0)),
    ];
    on_one_cpu(&rt, rt.alloc(), &steps)
}

/// An offline that leaves cyclics behind.
fn left(moved: u32, bound: u32, pending: u32, refused: u32) -> Answer {
    Answer::Refused(Refusal::Left(JuggleReport {
        moved,
        bound,
        pending,
        refused,
    }))
}

#[test]
fn a_cpu_goes_offline_when_nothing_is_left(rt: HostRuntime) -> Result<(), Fail> {
    let steps = [
        (Step::Add(Level::High, 10, 10, 0), Answer::Id(1)),
        (Step::Add(Level::High, 10, 10, 0), Answer::Id(2)),
        (Step::Add(Level::High, 10, 10, 0), Answer::Id(3)),
        (Step::Bind(1, Some(0)), Answer::Done),
        (Step::Offline(0), left(1, 1, 0, 0)),
        (Step::Bind(1, None), Answer::Done),
        (Step::Offline(0), left(0, 0, 0, 1)),
        (Step::Softint(1, Soft::Low, 1), Answer::Ran(0, true)),
        (Step::Softint(1, Soft::Lock, 1), Answer::Ran(0, true)),
        (Step::Offline(0), Answer::Done),
        (Step::Len(0), Answer::Len(0)),
        (Step::Len(1), Answer::Len(3)),
        (Step::Offline(1), Answer::Refused(Refusal::LastCpu)),
        (Step::Offline(0), Answer::Refused(Refusal::Offline)),
    ];
    on_two_cpus(&rt, rt.alloc(), &steps)
}
