//! Worked levels, each with its books.

use crate::level::{admit, apply, books, id, level, place};
use cyc_core::{Books, LevelCore, NotEnabledAt, Place};
use cyc_level::Event;
use std::process::Abort;

#[test]
fn a_cyclic_that_expires_while_in_hand_is_called_as_often_as_it_expired(rt: HostRuntime) {
    let one = id(&rt, 1);
    let mut level = level(&rt, 2);
    let events = [
        admit(&rt, 1, 0),
        Event::Expire(one),
        Event::Publish,
        Event::Take,
        Event::Expire(one),
        Event::Finish,
        Event::Finish,
        Event::Finish,
    ];
    assert_eq!(rt; apply(&mut level, &events), Err(NotEnabledAt(7)));
    let both_made = Books {
        sent: 2,
        done: 2,
        pending: 0,
        kept: 0,
        lost: 0,
    };
    assert_eq!(rt; books(&level, one), Some(both_made));
    assert_eq!(rt; place(&level, one), None);
}

#[test]
fn an_expiration_needs_an_empty_hand(rt: HostRuntime) {
    let one = id(&rt, 1);
    let mut level = level(&rt, 1);
    let events = [admit(&rt, 1, 0), Event::Expire(one), Event::Expire(one)];
    assert_eq!(rt; apply(&mut level, &events), Err(NotEnabledAt(2)));
    assert_eq!(rt; place(&level, one), Some(Place::FirerHand));
}

/// A level whose id 1 went from the old bank to the soft side's hand, and whose id 2 is admitted in the new bank.
fn taken_from_the_old_bank<R: AllocGlobal + Abort>(rt: &R) -> LevelCore {
    let one = id(rt, 1);
    let mut level = level(rt, 1);
    let events = [
        admit(rt, 1, 0),
        Event::Expire(one),
        Event::Publish,
        Event::Switch(1),
        admit(rt, 2, 1),
        Event::Follow,
    ];
    assert_eq!(rt; apply(&mut level, &events), Err(NotEnabledAt(5)));
    assert_eq!(rt; place(&level, one), Some(Place::OldBank));
    assert_eq!(rt; apply(&mut level, &[Event::Take]), Ok(()));
    level
}

/// What a level knows of a cyclic whose one call a removal kept.
const KEPT: Books = Books {
    sent: 1,
    done: 0,
    pending: 0,
    kept: 1,
    lost: 0,
};

#[test]
fn the_old_bank_is_emptied_first_and_kept_calls_are_made_before_the_removal_answers(
    rt: HostRuntime,
) {
    let one = id(&rt, 1);
    let mut level = taken_from_the_old_bank(&rt);
    assert_eq!(rt; place(&level, one), Some(Place::DrainerHand));
    let events = [Event::Follow, Event::Mark(one), Event::Clear(one)];
    assert_eq!(rt; apply(&mut level, &events), Err(NotEnabledAt(2)));
    assert_eq!(rt; books(&level, one), Some(KEPT));
    let events = [Event::Finish, Event::Clear(one)];
    assert_eq!(rt; apply(&mut level, &events), Ok(()));
    assert_eq!(rt; books(&level, one), None);
    assert_eq!(rt; place(&level, id(&rt, 2)), None);
}
