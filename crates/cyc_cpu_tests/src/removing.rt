//! Worked removals.

use crate::steps::{Answer, Bounds, FREE, Step, alone, id};
use cyc_types::{Level, Refusal, Soft};
use std::test::Fail;

const NO_CYCLIC: Answer = Answer::Refused(Refusal::NoCyclic);

#[test]
fn kept_calls_are_made_before_the_removal_answers(rt: HostRuntime) -> Result<(), Fail> {
    let busy = Refusal::Busy(id(1)?);
    let steps = [
        (Step::Add(1, Level::Low, 1, 1, 0), Answer::Done),
        (Step::Fire(3), Answer::Fired(3, 0, 4)),
        (Step::BeginRemove(1), Answer::Kept(3)),
        (Step::Fire(9), Answer::Fired(0, 0, i64::MAX as u64)),
        (Step::BeginRemove(1), Answer::Refused(busy)),
        (Step::BeginRemove(2), NO_CYCLIC),
        (Step::Reprogram(1, 9), NO_CYCLIC),
        (Step::Totals(1), Answer::Totals(3, 0, 3)),
        (Step::Len, Answer::Len(1)),
        (Step::PollRemove, Answer::Nothing),
        (Step::Softint(Soft::Lock, 8), Answer::Ran(0, true)),
        (Step::Softint(Soft::Low, 2), Answer::Ran(2, false)),
        (Step::PollRemove, Answer::Nothing),
        (Step::Softint(Soft::Low, 8), Answer::Ran(1, true)),
        (Step::PollRemove, Answer::Receipt(1, 3, 0, 3)),
        (Step::BeginRemove(1), NO_CYCLIC),
        (Step::PollRemove, Answer::Nothing),
        (Step::Len, Answer::Len(0)),
        (Step::Called(1), Answer::Called(3)),
    ];
    alone(&rt, rt.alloc(), FREE, &steps)
}

#[test]
fn a_cyclic_with_no_call_outstanding_is_gone_at_once(rt: HostRuntime) -> Result<(), Fail> {
    let high = [
        (Step::Add(1, Level::High, 0, 10, 0), Answer::Done),
        (Step::Fire(20), Answer::Fired(2, 0, 30)),
        (Step::BeginRemove(1), Answer::Receipt(1, 2, 0, 2)),
        (Step::BeginRemove(1), NO_CYCLIC),
        (Step::PollRemove, Answer::Nothing),
        (Step::Fire(100), Answer::Fired(0, 0, i64::MAX as u64)),
    ];
    alone(&rt, rt.alloc(), FREE, &high)?;
    let never_expired = [
        (Step::Add(1, Level::Lock, 10, 10, 0), Answer::Done),
        (Step::Fire(9), Answer::Fired(0, 0, 10)),
        (Step::BeginRemove(1), Answer::Receipt(1, 0, 0, 0)),
        (Step::Totals(1), Answer::Nothing),
        (Step::Add(1, Level::Low, 20, 10, 9), Answer::Done),
        (Step::Fire(20), Answer::Fired(1, 0, 30)),
        (Step::Totals(1), Answer::Totals(1, 0, 1)),
    ];
    alone(&rt, rt.alloc(), FREE, &never_expired)
}

#[test]
fn a_cyclic_in_the_hand_of_the_soft_interrupt_is_removed(rt: HostRuntime) -> Result<(), Fail> {
    let steps = [
        (Step::Add(1, Level::Low, 1, 1, 0), Answer::Done),
        (Step::Fire(2), Answer::Fired(2, 0, 3)),
        (Step::Softint(Soft::Low, 1), Answer::Ran(1, false)),
        (Step::BeginRemove(1), Answer::Kept(1)),
        (Step::PollRemove, Answer::Nothing),
        (Step::Softint(Soft::Low, 1), Answer::Ran(1, false)),
        (Step::PollRemove, Answer::Receipt(1, 2, 0, 2)),
        (Step::Softint(Soft::Low, 1), Answer::Ran(0, true)),
    ];
    alone(&rt, rt.alloc(), FREE, &steps)
}

#[test]
fn a_cyclic_of_the_old_bank_is_removed_while_a_resize_is_open(rt: HostRuntime) -> Result<(), Fail> {
    let busy = Refusal::Busy(id(1)?);
    let steps = [
        (Step::Add(1, Level::Low, 1, 10, 0), Answer::Done),
        (Step::Fire(1), Answer::Fired(1, 0, 11)),
        (Step::Add(2, Level::Low, 2, 10, 1), Answer::Done),
        (Step::BeginRemove(1), Answer::Kept(1)),
        (Step::Room(4095), Answer::Refused(Refusal::Full)),
        (Step::Room(1), Answer::Refused(busy)),
        (Step::Reserve(1), Answer::Refused(busy)),
        (Step::Fire(2), Answer::Fired(1, 0, 12)),
        (Step::Softint(Soft::Low, 1), Answer::Ran(1, false)),
        (Step::PollRemove, Answer::Receipt(1, 1, 0, 1)),
        (Step::Room(1), Answer::Done),
        (Step::Room(2), Answer::Refused(Refusal::Expanding)),
        (Step::Softint(Soft::Low, 8), Answer::Ran(1, true)),
        (Step::Softint(Soft::Lock, 8), Answer::Ran(0, true)),
        (Step::Widen(2), Answer::Done),
        (Step::Totals(2), Answer::Totals(1, 0, 0)),
    ];
    alone(&rt, rt.alloc(), FREE, &steps)
}

#[test]
fn the_other_cyclics_go_on_while_a_removal_is_open(rt: HostRuntime) -> Result<(), Fail> {
    let steps = [
        (Step::Add(1, Level::Low, 1, 1, 0), Answer::Done),
        (Step::Add(2, Level::Low, 1, 1, 0), Answer::Done),
        (Step::Fire(2), Answer::Fired(4, 0, 3)),
        (Step::BeginRemove(1), Answer::Kept(2)),
        (Step::Fire(4), Answer::Fired(2, 0, 5)),
        (Step::PollRemove, Answer::Nothing),
        (Step::Softint(Soft::Low, 1), Answer::Ran(1, false)),
        (Step::PollRemove, Answer::Nothing),
        (Step::Softint(Soft::Low, 1), Answer::Ran(1, false)),
        (Step::PollRemove, Answer::Receipt(1, 2, 0, 2)),
        (Step::Softint(Soft::Low, 1), Answer::Ran(1, false)),
        (Step::Softint(Soft::Low, 1), Answer::Ran(1, false)),
        (Step::Softint(Soft::Low, 1), Answer::Ran(1, false)),
        (Step::Softint(Soft::Low, 1), Answer::Ran(1, false)),
        (Step::Softint(Soft::Low, 1), Answer::Ran(0, true)),
        (Step::Totals(2), Answer::Totals(4, 0, 0)),
        (Step::Called(1), Answer::Called(2)),
        (Step::Called(2), Answer::Called(4)),
    ];
    alone(&rt, rt.alloc(), FREE, &steps)
}

#[test]
fn a_receipt_has_the_losses(rt: HostRuntime) -> Result<(), Fail> {
    let steps = [
        (Step::Add(1, Level::Lock, 1, 1, 0), Answer::Done),
        (Step::Fire(5), Answer::Fired(5, 3, 6)),
        (Step::BeginRemove(1), Answer::Kept(2)),
        (Step::Softint(Soft::Lock, 8), Answer::Ran(2, true)),
        (Step::PollRemove, Answer::Receipt(1, 5, 3, 2)),
    ];
    alone(&rt, rt.alloc(), Bounds { ceiling: 2, ..FREE }, &steps)
}
