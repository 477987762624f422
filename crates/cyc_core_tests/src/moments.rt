//! Worked moments, intervals and series.

use cyc_types::{Interval, Moment, Refusal, When, due, next};
use std::process::Abort;

const NEVER: i64 = i64::MAX;

fn moment(rt: &impl Abort, nanoseconds: i64) -> Moment {
    let moment = Moment::new(nanoseconds).ok();
    moment.expect(rt, "a moment")
}

fn interval(rt: &impl Abort, nanoseconds: i64) -> Interval {
    let interval = Interval::new(nanoseconds).ok();
    interval.expect(rt, "an interval")
}

/// The nanoseconds of a moment.
fn moment_of(nanoseconds: i64) -> Result<u64, Refusal> {
    let moment = Moment::new(nanoseconds)?;
    Ok(moment.nanoseconds())
}

/// The nanoseconds of an interval.
fn interval_of(nanoseconds: i64) -> Result<u64, Refusal> {
    let interval = Interval::new(nanoseconds)?;
    Ok(interval.nanoseconds())
}

/// The nanoseconds of a start.
fn start_of(start: i64, interval: i64) -> Result<u64, Refusal> {
    let when = When::new(start, interval)?;
    Ok(when.start.nanoseconds())
}

const RANGES: [(i64, Result<u64, Refusal>, Result<u64, Refusal>); 5] = [
    (-1, Err(Refusal::BadWhen), Err(Refusal::BadInterval)),
    (0, Ok(0), Err(Refusal::BadInterval)),
    (1, Ok(1), Ok(1)),
    (5, Ok(5), Ok(5)),
    (NEVER, Ok(NEVER as u64), Ok(NEVER as u64)),
];

#[test]
fn moments_and_intervals_have_their_ranges(rt: HostRuntime) {
    for &(nanoseconds, moment, interval) in &RANGES {
        assert_eq!(rt; moment_of(nanoseconds), moment, "{nanoseconds}");
        assert_eq!(rt; interval_of(nanoseconds), interval, "{nanoseconds}");
    }
    assert_eq!(rt; Moment::NEVER.nanoseconds(), NEVER as u64);
    assert_eq!(rt; Moment::ZERO.nanoseconds(), 0);
}

const STARTS: [(i64, i64, Result<u64, Refusal>); 3] = [
    (-1, 0, Err(Refusal::BadWhen)),
    (0, 0, Err(Refusal::BadInterval)),
    (0, 1, Ok(0)),
];

#[test]
fn a_start_is_looked_at_before_its_interval(rt: HostRuntime) {
    for &(start, interval, answer) in &STARTS {
        assert_eq!(rt; start_of(start, interval), answer, "start {start}");
    }
}

/// The first expiration.
fn first_of(rt: &impl Abort, start: i64, interval: i64, now: i64) -> u64 {
    let now = moment(rt, now);
    assert!(rt; now < Moment::NEVER);
    let when = When::new(start, interval).ok();
    when.expect(rt, "expirations").first(now).nanoseconds()
}

/// `(start, interval, now, first)`
static FIRSTS: [(i64, i64, i64, i64); 10] = [
    (0, 10, 0, 10),
    (0, 7, 13, 14),
    (0, 7, 14, 21),
    (5, 10, 0, 5),
    (5, 10, 100, 5),
    (0, NEVER, 0, NEVER),
    (0, NEVER, NEVER - 1, NEVER),
    (0, 1, NEVER - 1, NEVER),
    (0, NEVER - 1, NEVER - 1, NEVER),
    (NEVER, 1, 0, NEVER),
];

#[test]
fn the_first_expiration_is_the_start_or_the_next_multiple(rt: HostRuntime) {
    for &(start, interval, now, first) in &FIRSTS {
        assert_eq!(rt;
            first_of(&rt, start, interval, now),
            first as u64,
            "start {start} interval {interval}"
        );
    }
}

/// The expirations that are due, and the moment of the next.
fn fired(rt: &impl Abort, expire: i64, every: i64, now: i64) -> (u64, u64) {
    let now = moment(rt, now);
    assert!(rt; now < Moment::NEVER);
    let (expire, every) = (moment(rt, expire), interval(rt, every));
    let following = next(expire, every, now);
    (due(expire, every, now), following.nanoseconds())
}

/// `(expiration, interval, now, due, next)`
static FIRES: [(i64, i64, i64, u64, i64); 19] = [
    // exactly one second late is not distant
    (100_000_000, 100_000_000, 1_200_000_000, 12, 1_300_000_000),
    // a nanosecond more is: it skips to its next moment, and goes on from there
    (100_000_000, 100_000_000, 1_200_000_001, 1, 1_300_000_000),
    (1_300_000_000, 100_000_000, 1_299_999_999, 0, 1_300_000_000),
    (1_300_000_000, 100_000_000, 1_300_000_000, 1, 1_400_000_000),
    // a one-shot, and one that is programmed again
    (7, NEVER, 100, 1, NEVER),
    (150, NEVER, 150, 1, NEVER),
    (NEVER, NEVER, NEVER - 1, 0, NEVER),
    // every nanosecond
    (1, 1, 5, 5, 6),
    (1, 1, 2, 2, 3),
    (3, 1, 3, 1, 4),
    // three times ten
    (10, 10, 35, 3, 40),
    // near never
    (NEVER - 7, 10, NEVER - 1, 1, NEVER),
    (NEVER, 10, NEVER - 1, 0, NEVER),
    (NEVER - 1, NEVER, NEVER - 1, 1, NEVER),
    (0, NEVER, NEVER - 1, 1, NEVER),
    (0, NEVER - 1, NEVER - 1, 2, NEVER),
    (0, 1, NEVER - 1, 1, NEVER),
    (NEVER - 1_000_000_002, 1, NEVER - 1, 1_000_000_002, NEVER),
    (NEVER - 1_000_000_003, 1, NEVER - 1, 1, NEVER),
];

#[test]
fn a_fire_counts_the_series_or_once_where_it_is_late(rt: HostRuntime) {
    for &(expire, interval, now, count, following) in &FIRES {
        assert_eq!(rt;
            fired(&rt, expire, interval, now),
            (count, following as u64),
            "expiration {expire}"
        );
    }
}
