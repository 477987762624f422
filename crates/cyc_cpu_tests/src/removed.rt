//! A caller's proof by the law of removals.

ghost use Rattle.std.specs.Prelude.{◌≡◌};
ghost use Rattle.std.specs.Bool.{OnTrue};

use crate::steps::{Answer, Step, cpu, id, play};
use cyc_core::LevelCore;
use cyc_cpu::{Hard, Removal};
use cyc_types::{Calls, CyclicId, Level, Soft};
use std::process::Abort;
use std::test::Fail;
use test_handlers::Handlers;

/// Removes a cyclic, and then runs a soft interrupt: where the removal has answered, no call of the cyclic was made.
fn removed_then_served<C: Calls>(
    cpu: &mut Hard<LevelCore>,
    id: CyclicId,
    calls: &mut C,
    budget: u32,
) -> bool
    ensures { OnTrue result (C.count calls.new id ≡ C.count calls.old id) }
{
    cpu.removal_law::<C>();
    let Ok(Removal::Done(_receipt)) = cpu.begin_remove(id) else {
        return false;
    };
    let _answer = cpu.softint(Soft::Low, calls, budget);
    true
}

/// Makes all calls of a cyclic, and removes it.
fn serve_and_remove(
    rt: &impl Abort,
    cpu: &mut Hard<LevelCore>,
    calls: &mut Handlers,
) -> Result<(), Fail> {
    let steps = [
        (Step::Add(1, Level::Low, 1, 1, 0), Answer::Done),
        (Step::Fire(3), Answer::Fired(3, 0, 4)),
        (Step::Softint(Soft::Low, 8), Answer::Ran(3, true)),
    ];
    play(rt, cpu, calls, &steps)?;
    let id = id(1)?;
    assert!(rt; removed_then_served(cpu, id, calls, 8));
    assert_eq!(rt; calls.count(id), Some(3));
    Ok(())
}

#[test]
fn no_call_follows_a_removal_that_has_answered(rt: HostRuntime) -> Result<(), Fail> {
    let mut calls = Handlers::new(rt.alloc(), 0)?;
    let mut cpu = cpu(rt.alloc(), u64::MAX, u32::MAX)?;
    serve_and_remove(&rt, &mut cpu, &mut calls)
}
