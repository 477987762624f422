//! Omnipresent cyclics over two CPUs.
use crate::steps::{Answer, Step, on_two_cpus};
use cyc_system::CpuOrOmni;
use cyc_types::{Level, Refusal, Soft};
use std::test::Fail;

#[test]
fn each_component_starts_a_skew_later(rt: HostRuntime) -> Result<(), Fail> {
    let steps = [
        (Step::Omni(Level::High, 10, 10, 3, 0), Answer::Id(1)),
        (Step::Place(1), Answer::Place(CpuOrOmni::Omni)),
        (Step::Len(0), Answer::Len(1)),
        (Step::Len(1), Answer::Len(1)),
        (Step::Fire(0, 23), Answer::Fired(2, 0, 30)),
        (Step::Fire(1, 23), Answer::Fired(2, 0, 33)),
        (Step::Totals(1), Answer::Totals(4, 0, 0)),
        (
            Step::Bind(1, Some(1)),
            Answer::Refused(Refusal::Omnipresent),
        ),
        (
            Step::Reprogram(1, 50),
            Answer::Refused(Refusal::Omnipresent),
        ),
        (Step::ReprogramOn(1, 1, 50), Answer::Done),
        (Step::Fire(1, 49), Answer::Fired(0, 0, 50)),
        (Step::Juggle(0), Answer::Juggled(0, 0, 0, 0)),
        (Step::Online(1, 50), Answer::Refused(Refusal::Online)),
        (Step::Online(2, 50), Answer::Refused(Refusal::NoCpu)),
        (Step::Remove(1), Answer::Receipt(4, 0)),
        (Step::Totals(1), Answer::Nothing),
        (Step::Place(1), Answer::Nothing),
    ];
    on_two_cpus(&rt, rt.alloc(), &steps)
}

#[test]
fn a_removal_ends_when_the_last_cpu_has_answered(rt: HostRuntime) -> Result<(), Fail> {
    let steps = [
        (Step::Omni(Level::Low, 10, 10, 0, 0), Answer::Id(1)),
        (Step::Fire(0, 20), Answer::Fired(2, 0, 30)),
        (Step::Fire(1, 30), Answer::Fired(3, 0, 40)),
        (Step::Poll(1), Answer::Refused(Refusal::NoCyclic)),
        (Step::Remove(1), Answer::Kept(5)),
        (Step::Fire(0, 90), Answer::Fired(0, 0, i64::MAX as u64)),
        (Step::Poll(1), Answer::Nothing),
        (Step::Softint(0, Soft::Low, 8), Answer::Ran(2, true)),
        (Step::Poll(1), Answer::Nothing),
        (Step::Len(0), Answer::Len(0)),
        (Step::Len(1), Answer::Len(1)),
        (Step::Totals(1), Answer::Totals(5, 0, 3)),
        (Step::Softint(1, Soft::Low, 8), Answer::Ran(3, true)),
        (Step::Poll(1), Answer::Receipt(5, 0)),
        (Step::Poll(1), Answer::Refused(Refusal::NoCyclic)),
        (Step::Remove(1), Answer::Refused(Refusal::NoCyclic)),
    ];
    on_two_cpus(&rt, rt.alloc(), &steps)
}

#[test]
fn a_cpu_that_comes_back_keeps_its_counts(rt: HostRuntime) -> Result<(), Fail> {
    let steps = [
        (Step::Omni(Level::High, 10, 10, 3, 0), Answer::Id(1)),
        (Step::Fire(0, 23), Answer::Fired(2, 0, 30)),
        (Step::Fire(1, 23), Answer::Fired(2, 0, 33)),
        (Step::Offline(1), Answer::Done),
        (Step::Totals(1), Answer::Totals(4, 0, 0)),
        (Step::Len(1), Answer::Len(0)),
        (
            Step::Fire(1, 23),
            Answer::FireRefused(Refusal::Offline, 0, 0),
        ),
        (Step::Online(1, 23), Answer::Done),
        (Step::Len(1), Answer::Len(1)),
        (Step::Fire(0, 33), Answer::Fired(1, 0, 40)),
        (Step::Fire(1, 33), Answer::Fired(3, 0, 43)),
        (Step::Totals(1), Answer::Totals(8, 0, 0)),
        (Step::Remove(1), Answer::Receipt(8, 0)),
    ];
    on_two_cpus(&rt, rt.alloc(), &steps)
}

#[test]
fn a_component_with_calls_outstanding_keeps_its_cpu_online(rt: HostRuntime) -> Result<(), Fail> {
    let steps = [
        (Step::Omni(Level::Low, 10, 10, 0, 0), Answer::Id(1)),
        (Step::Fire(0, 10), Answer::Fired(1, 0, 20)),
        (Step::Fire(1, 10), Answer::Fired(1, 0, 20)),
        (Step::Offline(1), Answer::Refused(Refusal::Pending)),
        (Step::Softint(1, Soft::Low, 8), Answer::Ran(1, true)),
        (Step::Offline(1), Answer::Done),
        (Step::Totals(1), Answer::Totals(2, 0, 1)),
        (Step::Place(1), Answer::Place(CpuOrOmni::Omni)),
    ];
    on_two_cpus(&rt, rt.alloc(), &steps)
}

#[test]
fn a_cpu_comes_back_when_its_levels_have_followed(rt: HostRuntime) -> Result<(), Fail> {
    let steps = [
        (Step::Omni(Level::High, 10, 10, 0, 0), Answer::Id(1)),
        (Step::Omni(Level::High, 10, 10, 0, 0), Answer::Id(2)),
        (Step::Offline(1), Answer::Done),
        (Step::Softint(0, Soft::Low, 1), Answer::Ran(0, true)),
        (Step::Softint(0, Soft::Lock, 1), Answer::Ran(0, true)),
        (Step::Omni(Level::High, 10, 10, 0, 0), Answer::Id(3)),
        (Step::Online(1, 0), Answer::Refused(Refusal::Expanding)),
        (Step::Softint(1, Soft::Low, 1), Answer::Ran(0, true)),
        (Step::Softint(1, Soft::Lock, 1), Answer::Ran(0, true)),
        (Step::Online(1, 0), Answer::Done),
        (Step::Fire(0, 10), Answer::Fired(3, 0, 20)),
        (Step::Fire(1, 10), Answer::Fired(3, 0, 20)),
        (Step::Online(1, 10), Answer::Refused(Refusal::Online)),
        (Step::Totals(1), Answer::Totals(2, 0, 0)),
        (Step::Totals(2), Answer::Totals(2, 0, 0)),
        (Step::Totals(3), Answer::Totals(2, 0, 0)),
    ];
    on_two_cpus(&rt, rt.alloc(), &steps)
}
