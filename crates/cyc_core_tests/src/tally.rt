//! A tally's bounds.

use cyc_types::{Calls, CyclicId, Level, Tally};
use std::process::Abort;

fn id(rt: &impl Abort, number: u64) -> CyclicId {
    CyclicId::new(number).expect(rt, "an id")
}

/// A tally of so many ids from this one on, each up to the most.
fn tally<R: AllocGlobal + Abort>(rt: &R, first: u64, len: usize, most: u64) -> Tally {
    Tally::new(rt.alloc(), id(rt, first), len, most).expect(rt, "a tally")
}

/// Whether the call is taken.
fn takes(rt: &impl Abort, tally: &mut Tally, number: u64, level: Level) -> bool {
    tally.call(id(rt, number), level).is_ok()
}

fn count(rt: &impl Abort, tally: &Tally, number: u64) -> Option<u64> {
    tally.count(id(rt, number))
}

#[test]
fn a_tally_counts_its_ids_up_to_its_most(rt: HostRuntime) {
    let mut tally = tally(&rt, 1, 2, 1);
    assert!(rt; takes(&rt, &mut tally, 2, Level::Low));
    assert!(rt; !takes(&rt, &mut tally, 2, Level::High));
    assert!(rt; !takes(&rt, &mut tally, 3, Level::Low));
    for (number, calls) in [(1, Some(0)), (2, Some(1)), (3, None)] {
        assert_eq!(rt; count(&rt, &tally, number), calls, "{number}");
    }
}

#[test]
fn a_tally_of_no_ids_counts_none(rt: HostRuntime) {
    let mut tally = tally(&rt, 7, 0, 5);
    assert!(rt; !takes(&rt, &mut tally, 7, Level::Lock));
    assert_eq!(rt; count(&rt, &tally, 7), None);
}
