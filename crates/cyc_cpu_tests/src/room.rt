//! A CPU that grows until it is full.

use crate::steps::{Answer, FREE, Step, alone, cpu, play};
use cyc_core::LevelCore;
use cyc_cpu::Hard;
use cyc_types::{Level, Refusal, Soft};
use std::process::Abort;
use std::test::Fail;
use test_handlers::Handlers;

const FULL: Answer = Answer::Refused(Refusal::Full);

const EXPANDING: Answer = Answer::Refused(Refusal::Expanding);

#[test]
fn a_third_cyclic_needs_both_levels_to_have_followed(rt: HostRuntime) -> Result<(), Fail> {
    let two = [
        (Step::Reserve(1), Answer::Done),
        (Step::Add(1, Level::Low, 1, 10, 0), Answer::Done),
        (Step::Add(2, Level::Lock, 2, 10, 0), Answer::Done),
        (Step::Room(1), EXPANDING),
        (Step::Reserve(1), EXPANDING),
        (Step::Room(0), Answer::Done),
        (Step::Len, Answer::Len(2)),
    ];
    alone(&rt, rt.alloc(), FREE, &two)?;
    let five = [
        (Step::Add(1, Level::Low, 1, 10, 0), Answer::Done),
        (Step::Add(2, Level::Low, 2, 10, 0), Answer::Done),
        (Step::Add(3, Level::Low, 3, 10, 0), EXPANDING),
        (Step::Softint(Soft::Low, 8), Answer::Ran(0, true)),
        (Step::Add(3, Level::Low, 3, 10, 0), EXPANDING),
        (Step::Softint(Soft::Lock, 8), Answer::Ran(0, true)),
        (Step::Add(3, Level::Low, 3, 10, 0), Answer::Done),
        (Step::Totals(3), Answer::Totals(0, 0, 0)),
    ];
    alone(&rt, rt.alloc(), FREE, &five)
}

#[test]
fn a_refusal_of_more_than_fit_comes_before_one_of_an_expansion(
    rt: HostRuntime,
) -> Result<(), Fail> {
    let steps = [
        (Step::Room(4096), Answer::Done),
        (Step::Room(4097), FULL),
        (Step::Reserve(4097), FULL),
        (Step::Widen(100), Answer::Done),
        (Step::Room(128), Answer::Done),
        (Step::Room(129), EXPANDING),
        (Step::Reserve(4096), EXPANDING),
        (Step::Room(4097), FULL),
        (Step::Softint(Soft::Low, 1), Answer::Ran(0, true)),
        (Step::Softint(Soft::Lock, 1), Answer::Ran(0, true)),
        (Step::Widen(4096), Answer::Done),
        (Step::Room(4096), Answer::Done),
    ];
    alone(&rt, rt.alloc(), FREE, &steps)
}

/// Adds 4,096 cyclics, and lets both soft levels follow after each.
fn fill(rt: &impl Abort, cpu: &mut Hard<LevelCore>, calls: &mut Handlers) -> Result<(), Fail> {
    for number in 1..4097u64 {
        let level = match number % 3 {
            0 => Level::Low,
            1 => Level::Lock,
            _ => Level::High,
        };
        let steps = [
            (Step::Add(number, level, 1, 10, 0), Answer::Done),
            (Step::Softint(Soft::Low, 1), Answer::Ran(0, true)),
            (Step::Softint(Soft::Lock, 1), Answer::Ran(0, true)),
        ];
        play(rt, cpu, calls, &steps)?;
    }
    Ok(())
}

/// Adds 4,096 cyclics, and tries one more.
fn overfill(rt: &impl Abort, cpu: &mut Hard<LevelCore>, calls: &mut Handlers) -> Result<(), Fail> {
    fill(rt, cpu, calls)?;
    let steps = [
        (Step::Len, Answer::Len(4096)),
        (Step::Add(4097, Level::Low, 1, 10, 0), FULL),
        (Step::Room(1), FULL),
        (Step::Room(0), Answer::Done),
        (Step::Fire(1), Answer::Fired(4096, 0, 11)),
    ];
    play(rt, cpu, calls, &steps)
}

#[test]
fn a_cpu_holds_4096_cyclics(rt: HostRuntime) -> Result<(), Fail> {
    let mut cpu = cpu(rt.alloc(), u64::MAX, u32::MAX)?;
    let mut calls = Handlers::new(rt.alloc(), 0)?;
    overfill(&rt, &mut cpu, &mut calls)
}
