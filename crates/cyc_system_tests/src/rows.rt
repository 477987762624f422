//! Worked rows of several CPUs.

use crate::steps::{Answer, Step, on_one_cpu, on_two_cpus, within};
use cyc_system::CpuOrOmni;
use cyc_types::{Level, Refusal, Soft};
use std::test::Fail;

#[test]
fn equal_expirations_of_one_cpu_go_by_the_smaller_id(rt: HostRuntime) -> Result<(), Fail> {
    let steps = [
        (Step::Add(Level::High, 10, 10, 0), Answer::Id(1)),
        (Step::Add(Level::High, 10, 10, 0), Answer::Id(2)),
        (Step::Fire(0, 20), Answer::Fired(4, 0, 30)),
        (Step::Call(0), Answer::Call(1, Level::High)),
        (Step::Call(1), Answer::Call(2, Level::High)),
        (Step::Call(2), Answer::Call(1, Level::High)),
        (Step::Call(3), Answer::Call(2, Level::High)),
        (Step::Call(4), Answer::Nothing),
        (Step::Fire(1, 20), Answer::FireRefused(Refusal::NoCpu, 0, 0)),
        (Step::Len(0), Answer::Len(2)),
        (Step::Len(1), Answer::Nothing),
    ];
    on_one_cpu(&rt, rt.alloc(), &steps)
}

#[test]
fn the_last_id_is_given_once(rt: HostRuntime) -> Result<(), Fail> {
    let steps = [
        (
            Step::Add(Level::High, 0, 10, i64::MAX),
            Answer::Refused(Refusal::BadNow),
        ),
        (
            Step::Add(Level::High, 0, 10, 0),
            Answer::Id(4503599627370495),
        ),
        (
            Step::Add(Level::High, 0, 10, 0),
            Answer::Refused(Refusal::IdsSpent),
        ),
    ];
    within(&rt, rt.alloc(), 4503599627370495, u64::MAX, &steps)
}

#[test]
fn a_cyclic_with_calls_outstanding_is_not_bound_elsewhere(rt: HostRuntime) -> Result<(), Fail> {
    let steps = [
        (Step::Add(Level::Low, 10, 10, 0), Answer::Id(1)),
        (Step::Place(1), Answer::Place(CpuOrOmni::Cpu(0))),
        (Step::Fire(0, 10), Answer::Fired(1, 0, 20)),
        (Step::Bind(1, Some(1)), Answer::Refused(Refusal::Pending)),
        (Step::Bind(1, Some(2)), Answer::Refused(Refusal::NoCpu)),
        (Step::Softint(0, Soft::Low, 8), Answer::Ran(1, true)),
        (Step::Bind(1, Some(1)), Answer::Done),
        (Step::Place(1), Answer::Place(CpuOrOmni::Cpu(1))),
        (Step::Fire(0, 20), Answer::Fired(0, 0, i64::MAX as u64)),
        (Step::Fire(1, 20), Answer::Fired(1, 0, 30)),
        (Step::Softint(1, Soft::Low, 8), Answer::Ran(1, true)),
        (Step::Add(Level::High, 40, 10, 20), Answer::Id(2)),
        (Step::Place(2), Answer::Place(CpuOrOmni::Cpu(0))),
        (Step::Bind(1, None), Answer::Done),
        (Step::Reprogram(1, 50), Answer::Done),
        (
            Step::ReprogramOn(1, 1, 50),
            Answer::Refused(Refusal::NoCyclic),
        ),
        (Step::Fire(1, 40), Answer::Fired(0, 0, 50)),
        (Step::Bind(3, Some(0)), Answer::Refused(Refusal::NoCyclic)),
        (Step::Reprogram(3, 50), Answer::Refused(Refusal::NoCyclic)),
        (Step::Place(3), Answer::Nothing),
        (
            Step::Softint(2, Soft::Low, 8),
            Answer::Refused(Refusal::NoCpu),
        ),
    ];
    on_two_cpus(&rt, rt.alloc(), &steps)
}

#[test]
fn a_cpu_that_is_offline_takes_no_cyclic(rt: HostRuntime) -> Result<(), Fail> {
    let steps = [
        (Step::Add(Level::Low, 10, 10, 0), Answer::Id(1)),
        (Step::Fire(0, 10), Answer::Fired(1, 0, 20)),
        (Step::Bind(1, Some(1)), Answer::Refused(Refusal::Pending)),
        (Step::Bind(1, Some(2)), Answer::Refused(Refusal::NoCpu)),
        (Step::Softint(0, Soft::Low, 8), Answer::Ran(1, true)),
        (Step::Bind(1, Some(1)), Answer::Done),
        (Step::Offline(0), Answer::Done),
        (Step::Bind(1, Some(0)), Answer::Refused(Refusal::Offline)),
        (Step::Omni(Level::High, 10, 10, 0, 10), Answer::Id(2)),
        (
            Step::Bind(2, Some(1)),
            Answer::Refused(Refusal::Omnipresent),
        ),
        (
            Step::Reprogram(2, 50),
            Answer::Refused(Refusal::Omnipresent),
        ),
        (Step::ReprogramOn(2, 1, 50), Answer::Done),
        (
            Step::ReprogramOn(2, 0, 50),
            Answer::Refused(Refusal::Offline),
        ),
        (Step::Totals(1), Answer::Totals(1, 0, 0)),
        (Step::Totals(2), Answer::Totals(0, 0, 0)),
    ];
    on_two_cpus(&rt, rt.alloc(), &steps)
}
