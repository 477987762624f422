//! Moments, intervals, and the closed forms of a series of expirations.

ghost use Rattle.std.specs.Prelude.{◌≡◌, ℕ, ◌+◌, ◌*◌, ◌-◌, ◌<◌, ◌≤◌, ◌^◌, ◌⊎◌, min, pos, ◌<ℤ◌, ◌≤ℤ◌, MatchResult};
ghost use Rattle.cyc_types.specs.Series.{never, first, due, next, IsFirstAbove};
ghost use Rattle.cyc_types.specs.declared.refusal.Refusal.TheVariants.{BadWhen, BadInterval};

use crate::limits::LATE;
use crate::refusal::Refusal;
use std::marker::Model;

/// A moment in nanoseconds, from 0 to 2^63-1. The last, `NEVER`, is never due (`hrtime_t` and `CY_INFINITY` of the headers).
#[derive(Clone, Copy, Debug, PartialEq, Eq, PartialOrd, Ord)]
pub struct Moment {
    nanoseconds: u64,
}

impl Model for Moment {
    ghost use Rattle.std.specs.Prelude.{ℕ, ◌≤◌};
    ghost use Rattle.cyc_types.specs.Series.{never};

    ghost Value = { ℕ };

    ghost view = { λ a. a.nanoseconds };

    ghost invariant = { λ a. a.nanoseconds ≤ never };

    ghost inverse = { λ n. record { nanoseconds = n } };
}

impl Moment {
    /// The first moment.
    pub const ZERO: Moment = Moment { nanoseconds: 0 };

    /// The last moment, which is never due.
    pub const NEVER: Moment = Moment {
        nanoseconds: (1 << 63) - 1,
    };

    /// The moment of this many nanoseconds. A negative number is refused as `BadWhen`.
    pub fn new(nanoseconds: i64) -> Result<Moment, Refusal>
        ensures { MatchResult result (λ moment. pos moment ≡ nanoseconds) (λ why. (nanoseconds <ℤ pos 0) × (why ≡ BadWhen)) }
    {
        if nanoseconds < 0 {
            return Err(Refusal::BadWhen);
        }
        Ok(Moment {
            nanoseconds: nanoseconds as u64,
        })
    }

    /// The nanoseconds, at most 2^63-1.
    pub fn nanoseconds(self) -> u64
        ensures value { result ≡ self }
        ensures valid { result ≤ never }
    {
        self.nanoseconds
    }
}

/// The time between two expirations of a cyclic in nanoseconds, from 1 to 2^63-1 (`cyt_interval` of sys/cyclic.h).
#[derive(Clone, Copy, Debug, PartialEq, Eq, PartialOrd, Ord)]
pub struct Interval {
    length: u64,
}

impl Model for Interval {
    ghost use Rattle.std.specs.Prelude.{ℕ, ◌<◌, ◌≤◌};
    ghost use Rattle.cyc_types.specs.Series.{never};

    ghost Value = { ℕ };

    ghost view = { λ a. a.length };

    ghost invariant = { λ a. (0 < a.length) × (a.length ≤ never) };

    ghost inverse = { λ n. record { length = n } };
}

impl Interval {
    /// The interval of this many nanoseconds. A number below 1 is refused as `BadInterval`.
    pub fn new(nanoseconds: i64) -> Result<Interval, Refusal>
        ensures { MatchResult result (λ interval. (pos interval ≡ nanoseconds) × (0 < interval)) (λ why. (nanoseconds <ℤ pos 1)
            × (why ≡ BadInterval)) }
    {
        if nanoseconds < 1 {
            return Err(Refusal::BadInterval);
        }
        Ok(Interval {
            length: nanoseconds as u64,
        })
    }

    /// The nanoseconds, from 1 to 2^63-1.
    pub fn nanoseconds(self) -> u64
        ensures value { result ≡ self }
        ensures valid { (0 < result) × (result ≤ never) }
    {
        self.length
    }
}

/// When a cyclic expires: from its start on, once an interval (`cyc_time_t` of sys/cyclic.h).
///
/// A start of 0 stands for the next multiple of the interval. An interval of 2^63-1 makes a one-shot (our own rule).
#[derive(Clone, Copy, Debug, PartialEq, Eq)]
pub struct When {
    pub start: Moment,
    pub interval: Interval,
}

impl When {
    /// The start and the interval, both in nanoseconds. A negative start is refused as `BadWhen`, then an interval below 1 as
    /// `BadInterval`.
    pub fn new(start: i64, interval: i64) -> Result<When, Refusal>
        ensures { MatchResult result
            (λ when. (pos when.start ≡ start) × (pos when.interval ≡ interval) × (0 < when.interval))
            (λ why. ((start <ℤ pos 0) × (why ≡ BadWhen)) ⊎ ((pos 0 ≤ℤ start) × (interval <ℤ pos 1) × (why ≡ BadInterval))) }
    {
        Ok(When {
            start: Moment::new(start)?,
            interval: Interval::new(interval)?,
        })
    }

    /// The first expiration of a cyclic that is added at `now`: the start, also where it has passed, and with start 0 the
    /// first multiple of the interval above `now`, at most `NEVER`.
    pub fn first(self, now: Moment) -> Moment
        requires { now < never }
        ensures value { result ≡ first self.start self.interval now }
        ensures multiple { self.start ≡ 0 → (k : ℕ) × IsFirstAbove 0 self.interval now k
            × (result ≡ min (k * self.interval) never) }
    {
        if self.start != Moment::ZERO {
            return self.start;
        }
        let interval = self.interval.nanoseconds();
        let multiple = (now.nanoseconds() / interval + 1) * interval;
        Moment {
            nanoseconds: multiple.min(Moment::NEVER.nanoseconds),
        }
    }
}

/// How many times a cyclic with this expiration and interval expires when its CPU is fired at `now`: once where it is more
/// than a second late, else once for each moment of its series up to `now`.
pub fn due(expire: Moment, interval: Interval, now: Moment) -> u64
    requires { now < never }
    ensures { result ≡ due expire interval now }
{
    if expire > now {
        return 0;
    }
    let passed = now.nanoseconds() - expire.nanoseconds();
    let interval = interval.nanoseconds();
    if passed > interval + LATE {
        1
    } else {
        passed / interval + 1
    }
}

/// The expiration that a fire at `now` leaves: `expire` itself where it is still to come, else the first moment of its series
/// above `now`, at most `NEVER`.
pub fn next(expire: Moment, interval: Interval, now: Moment) -> Moment
    requires { now < never }
    ensures value { result ≡ next expire interval now }
    ensures least { expire ≤ now → (k : ℕ) × IsFirstAbove expire interval now k × (result ≡ min (expire + k * interval) never) }
{
    if expire > now {
        return expire;
    }
    let passed = now.nanoseconds() - expire.nanoseconds();
    let interval = interval.nanoseconds();
    let following = expire.nanoseconds() + (passed / interval + 1) * interval;
    Moment {
        nanoseconds: following.min(Moment::NEVER.nanoseconds),
    }
}
