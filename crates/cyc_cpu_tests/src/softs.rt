//! Worked soft interrupts.

use crate::steps::{Answer, Bounds, FREE, Step, alone};
use cyc_types::{Level, Soft};
use std::test::Fail;

#[test]
fn a_refused_handler_ends_a_soft_interrupt_and_is_called_by_the_next(
    rt: HostRuntime,
) -> Result<(), Fail> {
    let steps = [
        (Step::Add(1, Level::Low, 1, 1, 0), Answer::Done),
        (Step::Fire(2), Answer::Fired(2, 0, 3)),
        (Step::Softint(Soft::Low, 8), Answer::SoftRefused(1, 1)),
        (Step::Pending(1), Answer::Pending(1)),
        (Step::Softint(Soft::Low, 8), Answer::Ran(1, true)),
        (Step::Totals(1), Answer::Totals(2, 0, 0)),
        (Step::Call(0), Answer::Call(1, Level::Low)),
        (Step::Call(1), Answer::Call(1, Level::Low)),
        (Step::Call(2), Answer::Nothing),
    ];
    alone(&rt, rt.alloc(), Bounds { refused: 2, ..FREE }, &steps)
}

#[test]
fn expirations_above_the_ceiling_are_lost(rt: HostRuntime) -> Result<(), Fail> {
    let steps = [
        (Step::Add(1, Level::Low, 1, 1, 0), Answer::Done),
        (Step::Fire(5), Answer::Fired(5, 3, 6)),
        (Step::Totals(1), Answer::Totals(5, 3, 2)),
        (Step::Softint(Soft::Low, 8), Answer::Ran(2, true)),
        (Step::Totals(1), Answer::Totals(5, 3, 0)),
        (Step::Called(1), Answer::Called(2)),
    ];
    alone(&rt, rt.alloc(), Bounds { ceiling: 2, ..FREE }, &steps)
}

#[test]
fn the_old_bank_is_drained_first(rt: HostRuntime) -> Result<(), Fail> {
    let steps = [
        (Step::Add(1, Level::Low, 1, 10, 0), Answer::Done),
        (Step::Fire(1), Answer::Fired(1, 0, 11)),
        (Step::Add(2, Level::Low, 2, 10, 1), Answer::Done),
        (Step::Fire(2), Answer::Fired(1, 0, 11)),
        (Step::Softint(Soft::Low, 1), Answer::Ran(1, false)),
        (Step::Totals(1), Answer::Totals(1, 0, 0)),
        (Step::Totals(2), Answer::Totals(1, 0, 1)),
        (Step::Called(1), Answer::Called(1)),
        (Step::Called(2), Answer::Called(0)),
    ];
    alone(&rt, rt.alloc(), FREE, &steps)
}
