//! Where numbers end: those of cyclics, of moments, and of expirations.
use crate::help::{id, of_one_cpu};
use crate::steps::{Answer, Step, on_one_cpu, play, within};
use cyc_core::LevelCore;
use cyc_system::System;
use cyc_types::{Level, Refusal, Soft};
use std::process::Abort;
use std::test::Fail;
use test_handlers::Handlers;

/// The moment that never comes.
const NEVER: u64 = 9_223_372_036_854_775_807;

/// Adds 4,096 cyclics to a system of one CPU, and lets both soft levels follow after each.
fn fill(rt: &impl Abort, system: &mut System<LevelCore>, calls: &mut Handlers) -> Result<(), Fail> {
    for number in 1..4097_u64 {
        let steps = [
            (Step::Add(Level::High, 10, 10, 0), Answer::Id(number)),
            (Step::Softint(0, Soft::Low, 1), Answer::Ran(0, true)),
            (Step::Softint(0, Soft::Lock, 1), Answer::Ran(0, true)),
        ];
        play(rt, system, calls, &steps)?;
    }
    Ok(())
}

/// Adds 4,096 cyclics, and tries one more.
fn overfill(
    rt: &impl Abort,
    system: &mut System<LevelCore>,
    calls: &mut Handlers,
) -> Result<(), Fail> {
    fill(rt, system, calls)?;
    let steps = [
        (
            Step::Add(Level::High, 10, 10, 0),
            Answer::Refused(Refusal::Full),
        ),
        (Step::Len(0), Answer::Len(4096)),
    ];
    play(rt, system, calls, &steps)
}

#[test]
fn a_cpu_takes_4096_cyclics(rt: HostRuntime) -> Result<(), Fail> {
    let mut system = of_one_cpu(rt.alloc(), 1, u64::MAX)?;
    let mut calls = Handlers::new(rt.alloc(), 0)?;
    overfill(&rt, &mut system, &mut calls)
}

#[test]
fn the_last_moment_is_the_one_before_never(rt: HostRuntime) -> Result<(), Fail> {
    let steps = [
        (
            Step::Add(Level::High, 9223372036854775800, 10, 0),
            Answer::Id(1),
        ),
        (
            Step::Fire(0, 9223372036854775806),
            Answer::Fired(1, 0, NEVER),
        ),
        (
            Step::Fire(0, 9223372036854775806),
            Answer::Fired(0, 0, NEVER),
        ),
        (
            Step::Fire(0, i64::MAX),
            Answer::FireRefused(Refusal::BadNow, 0, 0),
        ),
    ];
    on_one_cpu(&rt, rt.alloc(), &steps)
}

#[test]
fn a_cyclic_expires_no_more_often_than_the_bound(rt: HostRuntime) -> Result<(), Fail> {
    let spent = Refusal::CountSpent(id(1)?);
    let steps = [
        (Step::Add(Level::High, 1, 1, 0), Answer::Id(1)),
        (Step::Fire(0, 5), Answer::FireRefused(spent, 3, 0)),
        (Step::Fire(0, 5), Answer::FireRefused(spent, 0, 0)),
        (Step::Totals(1), Answer::Totals(3, 0, 0)),
    ];
    within(&rt, rt.alloc(), 1, 3, &steps)
}
