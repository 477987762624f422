//! Worked fires, in order and with their counts.

use crate::steps::{Answer, Bounds, FREE, Step, alone, id};
use cyc_types::{Level, Refusal};
use std::test::Fail;

/// The last moment at which anything is due.
const LAST: i64 = 9223372036854775806;

#[test]
fn a_start_of_zero_is_the_next_multiple_of_the_interval(rt: HostRuntime) -> Result<(), Fail> {
    let steps = [
        (Step::Add(1, Level::High, 0, 10, 0), Answer::Done),
        (Step::Fire(35), Answer::Fired(3, 0, 40)),
        (Step::Totals(1), Answer::Totals(3, 0, 0)),
        (Step::Pending(1), Answer::Pending(0)),
        (Step::Len, Answer::Len(1)),
        (Step::Called(1), Answer::Called(3)),
    ];
    alone(&rt, rt.alloc(), Bounds { ceiling: 1, ..FREE }, &steps)
}

#[test]
fn a_series_more_than_one_second_late_skips(rt: HostRuntime) -> Result<(), Fail> {
    let one_second = [
        (
            Step::Add(1, Level::High, 100000000, 100000000, 0),
            Answer::Done,
        ),
        (Step::Fire(1200000000), Answer::Fired(12, 0, 1300000000)),
        (Step::Totals(1), Answer::Totals(12, 0, 0)),
    ];
    alone(&rt, rt.alloc(), FREE, &one_second)?;
    let more = [
        (
            Step::Add(1, Level::High, 100000000, 100000000, 0),
            Answer::Done,
        ),
        (Step::Fire(1200000001), Answer::Fired(1, 0, 1300000000)),
        (Step::Fire(1299999999), Answer::Fired(0, 0, 1300000000)),
        (Step::Fire(1300000000), Answer::Fired(1, 0, 1400000000)),
        (Step::Totals(1), Answer::Totals(2, 0, 0)),
    ];
    alone(&rt, rt.alloc(), FREE, &more)
}

#[test]
fn a_one_shot_expires_once_for_each_moment_it_is_given(rt: HostRuntime) -> Result<(), Fail> {
    let never = i64::MAX;
    let steps = [
        (Step::Add(1, Level::High, 7, never, 0), Answer::Done),
        (Step::Fire(100), Answer::Fired(1, 0, never as u64)),
        (Step::Reprogram(1, 150), Answer::Done),
        (Step::Fire(150), Answer::Fired(1, 0, never as u64)),
        (Step::Reprogram(1, never), Answer::Done),
        (Step::Fire(LAST), Answer::Fired(0, 0, never as u64)),
        (Step::Totals(1), Answer::Totals(2, 0, 0)),
        (Step::Reprogram(2, 150), Answer::Refused(Refusal::NoCyclic)),
        (Step::Totals(2), Answer::Nothing),
        (Step::Pending(2), Answer::Nothing),
    ];
    alone(&rt, rt.alloc(), FREE, &steps)
}

#[test]
fn equal_expirations_go_by_the_smaller_id(rt: HostRuntime) -> Result<(), Fail> {
    let steps = [
        (Step::Add(2, Level::High, 10, 10, 0), Answer::Done),
        (Step::Add(1, Level::High, 10, 10, 0), Answer::Done),
        (Step::Fire(20), Answer::Fired(4, 0, 30)),
        (Step::Call(0), Answer::Call(1, Level::High)),
        (Step::Call(1), Answer::Call(2, Level::High)),
        (Step::Call(2), Answer::Call(1, Level::High)),
        (Step::Call(3), Answer::Call(2, Level::High)),
        (Step::Call(4), Answer::Nothing),
    ];
    alone(&rt, rt.alloc(), Bounds { ceiling: 1, ..FREE }, &steps)
}

#[test]
fn a_series_ends_at_never_and_a_fire_at_never_is_refused(rt: HostRuntime) -> Result<(), Fail> {
    let never = i64::MAX as u64;
    let steps = [
        (
            Step::Add(1, Level::High, 9223372036854775800, 10, 0),
            Answer::Done,
        ),
        (Step::Fire(LAST), Answer::Fired(1, 0, never)),
        (Step::Fire(LAST), Answer::Fired(0, 0, never)),
        (
            Step::Fire(i64::MAX),
            Answer::FireRefused(Refusal::BadNow, 0, 0),
        ),
        (Step::Totals(1), Answer::Totals(1, 0, 0)),
        (
            Step::Add(2, Level::High, 0, 10, i64::MAX),
            Answer::Refused(Refusal::BadNow),
        ),
    ];
    alone(&rt, rt.alloc(), FREE, &steps)
}

#[test]
fn no_cyclic_expires_more_often_than_the_most(rt: HostRuntime) -> Result<(), Fail> {
    let bounds = Bounds {
        most: 3,
        ceiling: 1,
        refused: 0,
    };
    let spent = Refusal::CountSpent(id(1)?);
    let steps = [
        (Step::Add(1, Level::High, 1, 1, 0), Answer::Done),
        (Step::Fire(5), Answer::FireRefused(spent, 3, 0)),
        (Step::Fire(5), Answer::FireRefused(spent, 0, 0)),
        (
            Step::Fire(i64::MAX),
            Answer::FireRefused(Refusal::BadNow, 0, 0),
        ),
        (Step::Totals(1), Answer::Totals(3, 0, 0)),
        (Step::Called(1), Answer::Called(3)),
    ];
    alone(&rt, rt.alloc(), bounds, &steps)
}

#[test]
fn a_refused_handler_ends_a_fire_and_is_called_by_the_next(rt: HostRuntime) -> Result<(), Fail> {
    let bounds = Bounds {
        most: u64::MAX,
        ceiling: 1,
        refused: 2,
    };
    let refused = Refusal::HandlerRefused(id(1)?);
    let steps = [
        (Step::Add(1, Level::High, 1, 1, 0), Answer::Done),
        (Step::Fire(3), Answer::FireRefused(refused, 1, 0)),
        (Step::Fire(3), Answer::Fired(2, 0, 4)),
        (Step::Call(0), Answer::Call(1, Level::High)),
        (Step::Call(1), Answer::Call(1, Level::High)),
        (Step::Call(2), Answer::Call(1, Level::High)),
        (Step::Call(3), Answer::Nothing),
    ];
    alone(&rt, rt.alloc(), bounds, &steps)
}
