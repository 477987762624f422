//! Both sides of a level by their traits' calls.

use crate::level::{admit, apply, id, level};
use cyc_core::LevelCore;
use cyc_level::Event;
use cyc_types::{CyclicId, Drain, Finished};
use std::process::Abort;

fn hand(level: &LevelCore) -> Option<CyclicId> {
    level.hand()
}

fn take(rt: &impl Abort, level: &mut LevelCore) -> Option<CyclicId> {
    assert!(rt; level.hand().is_none());
    level.take()
}

fn finish(rt: &impl Abort, level: &mut LevelCore) -> Finished {
    assert!(rt; level.hand().is_some());
    level.finish()
}

/// A level with two expirations of the id 1 in its old bank, and one of the id 2 in its new one, which a removal keeps.
fn raised_twice_and_kept<R: AllocGlobal + Abort>(rt: &R) -> LevelCore {
    let (one, two) = (id(rt, 1), id(rt, 2));
    let mut level = level(rt, 5);
    let events = [
        admit(rt, 1, 0),
        Event::Expire(one),
        Event::Publish,
        Event::Switch(1),
        admit(rt, 2, 1),
        Event::Expire(two),
        Event::Publish,
        Event::Expire(one),
        Event::Mark(two),
    ];
    assert_eq!(rt; apply(&mut level, &events), Ok(()));
    level
}

#[test]
fn the_soft_side_makes_all_calls_of_one_cyclic_and_follows(rt: HostRuntime) {
    let (one, two) = (id(&rt, 1), id(&rt, 2));
    let mut level = raised_twice_and_kept(&rt);
    assert_eq!(rt; hand(&level), None);
    assert_eq!(rt; take(&rt, &mut level), Some(one));
    assert_eq!(rt; finish(&rt, &mut level), Finished::More);
    assert_eq!(rt; finish(&rt, &mut level), Finished::Last);
    assert_eq!(rt; take(&rt, &mut level), Some(two));
    assert_eq!(rt; hand(&level), Some(two));
    assert_eq!(rt; finish(&rt, &mut level), Finished::LastOfRemoval);
    assert_eq!(rt; take(&rt, &mut level), None);
}
