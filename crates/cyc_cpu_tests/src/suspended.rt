//! Worked rows of a CPU that is suspended.

use crate::steps::{Answer, Bounds, FREE, Step, alone};
use cyc_types::{Level, Refusal, Soft};
use std::test::Fail;

/// What a fire of a suspended CPU answers.
const ASLEEP: Answer = Answer::FireRefused(Refusal::Suspended, 0, 0);

/// What a fire at never answers.
const AT_NEVER: Answer = Answer::FireRefused(Refusal::BadNow, 0, 0);

#[test]
fn the_fire_after_a_resume_makes_what_was_missed(rt: HostRuntime) -> Result<(), Fail> {
    let steps = [
        (Step::IsSuspended, Answer::Suspended(false)),
        (Step::Add(1, Level::High, 10, 10, 0), Answer::Done),
        (Step::Suspend, Answer::Done),
        (Step::IsSuspended, Answer::Suspended(true)),
        (Step::Fire(35), ASLEEP),
        (Step::Totals(1), Answer::Totals(0, 0, 0)),
        (Step::Called(1), Answer::Called(0)),
        (Step::Resume, Answer::Done),
        (Step::IsSuspended, Answer::Suspended(false)),
        (Step::Fire(36), Answer::Fired(3, 0, 40)),
        (Step::Called(1), Answer::Called(3)),
    ];
    alone(&rt, rt.alloc(), FREE, &steps)
}

#[test]
fn a_cyclic_that_is_more_than_a_second_late_then_expires_once(rt: HostRuntime) -> Result<(), Fail> {
    let steps = [
        (
            Step::Add(1, Level::High, 100000000, 100000000, 0),
            Answer::Done,
        ),
        (Step::Suspend, Answer::Done),
        (Step::Fire(1200000001), ASLEEP),
        (Step::Resume, Answer::Done),
        (Step::Fire(1200000001), Answer::Fired(1, 0, 1300000000)),
        (Step::Totals(1), Answer::Totals(1, 0, 0)),
    ];
    alone(&rt, rt.alloc(), FREE, &steps)
}

#[test]
fn the_mark_comes_before_the_moment_and_stands_for_good(rt: HostRuntime) -> Result<(), Fail> {
    let steps = [
        (Step::Fire(i64::MAX), AT_NEVER),
        (Step::Suspend, Answer::Done),
        (Step::Suspend, Answer::Done),
        (Step::Fire(i64::MAX), ASLEEP),
        (Step::Fire(0), ASLEEP),
        (Step::Resume, Answer::Done),
        (Step::Resume, Answer::Done),
        (Step::Fire(i64::MAX), AT_NEVER),
    ];
    alone(&rt, rt.alloc(), FREE, &steps)
}

/// While the CPU is suspended it gets, grows by and loses cyclics, their calls are made, and none of this resumes it.
#[test]
fn all_but_fires_goes_on(rt: HostRuntime) -> Result<(), Fail> {
    let steps = [
        (Step::Add(1, Level::Low, 10, 10, 0), Answer::Done),
        (Step::Fire(25), Answer::Fired(2, 0, 30)),
        (Step::Suspend, Answer::Done),
        (Step::Add(2, Level::High, 40, 40, 25), Answer::Done),
        (Step::Reprogram(2, 33), Answer::Done),
        (Step::Fire(35), ASLEEP),
        (Step::Softint(Soft::Low, 1), Answer::Ran(1, false)),
        (Step::BeginRemove(1), Answer::Kept(1)),
        (Step::Fire(35), ASLEEP),
        (Step::Softint(Soft::Low, 8), Answer::Ran(1, true)),
        (Step::Softint(Soft::Lock, 8), Answer::Ran(0, true)),
        (Step::PollRemove, Answer::Receipt(1, 2, 0, 2)),
        (Step::Settled, Answer::Settled(true)),
        (Step::Add(3, Level::High, 31, 10, 25), Answer::Done),
        (Step::TakeNow(3), Answer::Taken(Level::High, 10, 31, 0, 0)),
        (Step::IsSuspended, Answer::Suspended(true)),
        (Step::Resume, Answer::Done),
        (Step::Fire(35), Answer::Fired(1, 0, 73)),
        (Step::Call(2), Answer::Call(2, Level::High)),
        (Step::Call(3), Answer::Nothing),
    ];
    alone(&rt, rt.alloc(), Bounds { ceiling: 8, ..FREE }, &steps)
}
