//! Events in turn, and lists of events that stop at one that is not enabled.

use crate::level::{admit, apply, books, id, level, place, step};
use cyc_core::{NotEnabled, Place};
use cyc_level::Event;
use std::process::Abort;

// Makes the events on a new level of ceiling 1, where all of them are enabled and the last one isn't.
fn refuses<R: AllocGlobal + Abort>(rt: &R, events: &[Event], last: Event) {
    let mut level = level(rt, 1);
    assert_eq!(rt; apply(&mut level, events), Ok(()));
    assert_eq!(rt; step(&mut level, last), Err(NotEnabled));
}

#[test]
fn an_admission_needs_a_free_id_and_a_free_index_of_the_bank(rt: HostRuntime) {
    let one = id(&rt, 1);
    let two = id(&rt, 2);
    let wide = [Event::Switch(1), admit(&rt, 1, 0)];
    let raised = [Event::Switch(1), admit(&rt, 1, 0), Event::Expire(one)];
    refuses(&rt, &[], admit(&rt, 1, 1));
    refuses(&rt, &wide, admit(&rt, 1, 1));
    refuses(&rt, &wide, admit(&rt, 2, 0));
    refuses(&rt, &raised, admit(&rt, 2, 1));
}

#[test]
fn an_expiration_needs_an_unmarked_cyclic_below_the_ceiling(rt: HostRuntime) {
    let one = id(&rt, 1);
    let published = [admit(&rt, 1, 0), Event::Expire(one), Event::Publish];
    refuses(&rt, &[], Event::Expire(one));
    refuses(
        &rt,
        &[admit(&rt, 1, 0), Event::Mark(one)],
        Event::Expire(one),
    );
    refuses(
        &rt,
        &[admit(&rt, 1, 0), Event::Expire(one)],
        Event::Expire(one),
    );
    refuses(&rt, &published, Event::Expire(one));
}

#[test]
fn a_loss_needs_an_unmarked_cyclic_at_the_ceiling(rt: HostRuntime) {
    let one = id(&rt, 1);
    let marked = [
        admit(&rt, 1, 0),
        Event::Expire(one),
        Event::Publish,
        Event::Mark(one),
    ];
    refuses(&rt, &[], Event::Lose(one));
    refuses(&rt, &[admit(&rt, 1, 0)], Event::Lose(one));
    refuses(
        &rt,
        &[admit(&rt, 1, 0), Event::Expire(one)],
        Event::Lose(one),
    );
    refuses(&rt, &marked, Event::Lose(one));
}

#[test]
fn the_hands_and_the_lists_decide_on_publish_take_and_finish(rt: HostRuntime) {
    let one = id(&rt, 1);
    let published = [admit(&rt, 1, 0), Event::Expire(one), Event::Publish];
    let taken = [
        admit(&rt, 1, 0),
        Event::Expire(one),
        Event::Publish,
        Event::Take,
    ];
    refuses(&rt, &[], Event::Publish);
    refuses(&rt, &published, Event::Publish);
    refuses(&rt, &[], Event::Take);
    refuses(&rt, &taken, Event::Take);
    refuses(&rt, &published, Event::Finish);
}

#[test]
fn a_mark_and_a_clear_belong_to_one_removal(rt: HostRuntime) {
    let one = id(&rt, 1);
    let two = id(&rt, 2);
    let both = [
        Event::Switch(1),
        admit(&rt, 1, 0),
        admit(&rt, 2, 1),
        Event::Mark(one),
    ];
    let kept = [
        admit(&rt, 1, 0),
        Event::Expire(one),
        Event::Publish,
        Event::Mark(one),
    ];
    refuses(&rt, &[], Event::Mark(one));
    refuses(
        &rt,
        &[admit(&rt, 1, 0), Event::Expire(one)],
        Event::Mark(one),
    );
    refuses(&rt, &both, Event::Mark(one));
    refuses(&rt, &both, Event::Mark(two));
    refuses(&rt, &both, Event::Clear(two));
    refuses(&rt, &[admit(&rt, 1, 0)], Event::Clear(one));
    refuses(&rt, &kept, Event::Clear(one));
}

#[test]
fn a_switch_goes_to_a_greater_bank_once_the_soft_side_has_followed(rt: HostRuntime) {
    let one = id(&rt, 1);
    let raised = [admit(&rt, 1, 0), Event::Expire(one)];
    let left = [
        admit(&rt, 1, 0),
        Event::Expire(one),
        Event::Publish,
        Event::Switch(1),
    ];
    refuses(&rt, &[], Event::Switch(0));
    refuses(&rt, &[], Event::Switch(13));
    refuses(&rt, &raised, Event::Switch(1));
    refuses(&rt, &[Event::Switch(1)], Event::Switch(2));
    refuses(&rt, &[], Event::Follow);
    refuses(&rt, &left, Event::Follow);
}

#[test]
fn a_cyclic_goes_from_place_to_place(rt: HostRuntime) {
    let one = id(&rt, 1);
    let mut level = level(&rt, 1);
    let cases = [
        (admit(&rt, 1, 0), None),
        (Event::Expire(one), Some(Place::FirerHand)),
        (Event::Publish, Some(Place::NewBank)),
        (Event::Lose(one), Some(Place::NewBank)),
        (Event::Switch(8), Some(Place::OldBank)),
        (Event::Take, Some(Place::DrainerHand)),
        (Event::Follow, Some(Place::DrainerHand)),
        (Event::Finish, None),
        (Event::Mark(one), None),
        (Event::Clear(one), None),
    ];
    for (event, expected) in cases {
        assert_eq!(rt; step(&mut level, event), Ok(()));
        assert_eq!(rt; place(&level, one), expected);
    }
    assert_eq!(rt; books(&level, one), None);
}
