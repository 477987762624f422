//! Worked soft interrupts of a plain level.

use crate::handlers::{Handlers, PerLevel};
use cyc_core::LevelCore;
use cyc_level::Event;
use cyc_soft::{Ran, SoftRefused, softint};
use cyc_types::{Ceiling, CyclicId, Index, Soft};
use std::process::Abort;

fn id(rt: &impl Abort, number: u64) -> CyclicId {
    CyclicId::new(number).expect(rt, "an id")
}

/// The admission of the id of this number at this index.
fn admit(rt: &impl Abort, number: u64, index: u16) -> Event {
    Event::Admit(id(rt, number), Index::new(index).expect(rt, "an index"))
}

/// A new level.
fn level<R: AllocGlobal + Abort>(rt: &R) -> LevelCore {
    let ceiling = Ceiling::new(9).expect(rt, "a ceiling");
    LevelCore::new(rt.alloc(), ceiling).expect(rt, "a level")
}

fn apply(rt: &impl Abort, core: &mut LevelCore, events: &[Event]) {
    assert!(rt; core.apply(events).is_ok());
}

/// A level on which two expirations of the id 1 are to be called.
fn expired_twice<R: AllocGlobal + Abort>(rt: &R) -> LevelCore {
    let one = id(rt, 1);
    let mut core = level(rt);
    apply(
        rt,
        &mut core,
        &[
            admit(rt, 1, 0),
            Event::Expire(one),
            Event::Publish,
            Event::Expire(one),
        ],
    );
    core
}

fn serve(
    core: &mut LevelCore,
    calls: &mut Handlers,
    level: Soft,
    budget: u32,
) -> Result<Ran, SoftRefused> {
    softint(core, calls, level, budget)
}

/// The answer of a soft interrupt that made so many calls.
fn ran(calls: u32, idle: bool) -> Result<Ran, SoftRefused> {
    Ok(Ran { calls, idle })
}

fn count(calls: &Handlers, id: CyclicId) -> Option<u64> {
    calls.tally.count(id)
}

#[test]
fn a_cyclic_in_hand_is_not_put_in_again(rt: HostRuntime) {
    let one = id(&rt, 1);
    let mut core = expired_twice(&rt);
    let mut calls = Handlers::new(&rt, 0);
    assert_eq!(rt; serve(&mut core, &mut calls, Soft::Low, 1), ran(1, false));
    apply(&rt, &mut core, &[Event::Expire(one)]);
    assert_eq!(rt; serve(&mut core, &mut calls, Soft::Low, 8), ran(2, true));
    assert_eq!(rt; count(&calls, one), Some(3));
    assert_eq!(rt; calls.levels.low, 3);
}

#[test]
fn a_refused_call_stays_the_next(rt: HostRuntime) {
    let one = id(&rt, 1);
    let mut core = expired_twice(&rt);
    let mut calls = Handlers::new(&rt, 2);
    let refused = Err(SoftRefused { id: one, calls: 1 });
    assert_eq!(rt; serve(&mut core, &mut calls, Soft::Low, 8), refused);
    assert_eq!(rt; serve(&mut core, &mut calls, Soft::Low, 8), ran(1, true));
    let made = PerLevel {
        low: 2,
        lock: 0,
        high: 0,
    };
    assert_eq!(rt; calls.levels, made);
}

#[test]
fn a_budget_used_up_exactly_is_not_idle(rt: HostRuntime) {
    let mut core = expired_twice(&rt);
    let mut calls = Handlers::new(&rt, 0);
    assert_eq!(rt; serve(&mut core, &mut calls, Soft::Lock, 2), ran(2, false));
    assert_eq!(rt; serve(&mut core, &mut calls, Soft::Lock, 2), ran(0, true));
    let made = PerLevel {
        low: 0,
        lock: 2,
        high: 0,
    };
    assert_eq!(rt; calls.levels, made);
}

fn step_is_enabled(core: &mut LevelCore, event: Event) -> bool {
    core.step(event).is_ok()
}

#[test]
fn a_budget_of_none_does_not_even_follow(rt: HostRuntime) {
    let mut core = level(&rt);
    let mut calls = Handlers::new(&rt, 0);
    apply(&rt, &mut core, &[Event::Switch(1)]);
    assert_eq!(rt; serve(&mut core, &mut calls, Soft::Low, 0), ran(0, false));
    assert!(rt; !step_is_enabled(&mut core, Event::Switch(2)));
    assert_eq!(rt; serve(&mut core, &mut calls, Soft::Low, 1), ran(0, true));
    assert!(rt; step_is_enabled(&mut core, Event::Switch(2)));
}

#[test]
fn the_old_bank_is_drained_first(rt: HostRuntime) {
    let (one, two) = (id(&rt, 1), id(&rt, 2));
    let mut core = level(&rt);
    let mut calls = Handlers::new(&rt, 0);
    apply(
        &rt,
        &mut core,
        &[
            admit(&rt, 1, 0),
            Event::Expire(one),
            Event::Publish,
            Event::Switch(1),
            admit(&rt, 2, 1),
            Event::Expire(two),
            Event::Publish,
        ],
    );
    assert_eq!(rt; serve(&mut core, &mut calls, Soft::Low, 1), ran(1, false));
    assert_eq!(rt; count(&calls, one), Some(1));
    assert_eq!(rt; count(&calls, two), Some(0));
    assert_eq!(rt; serve(&mut core, &mut calls, Soft::Low, 8), ran(1, true));
    assert_eq!(rt; count(&calls, two), Some(1));
}
