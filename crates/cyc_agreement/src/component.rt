//! When the component on a CPU begins.

ghost use Rattle.std.specs.Prelude.{◌≡◌, ◌<◌, ◌+◌, ◌*◌, min};
ghost use Rattle.cyc_types.specs.Series.{never};
ghost use Rattle.cyc_agreement.specs.Omni.{component_first as first_on};

use cyc_types::{Interval, Moment, When};

/// The start of the component on the CPU of this number: so many times the skew after the cyclic's own, and at most never.
pub(crate) fn component_start(number: u32, start: Moment, skew: Moment) -> Moment
    ensures { result ≡ min (start + number * skew) never }
{
    let later = u128::from(number) * u128::from(skew.nanoseconds());
    let start = u128::from(start.nanoseconds()) + later;
    if start >= u128::from(Moment::NEVER.nanoseconds()) {
        return Moment::NEVER;
    }
    let Ok(start) = Moment::new(start as i64) else {
        unreachable!()
    };
    start
}

/// The first expiration of the component on the CPU of this number, where it comes there at `now`. Only one whose own start is
/// 0 is aligned to a multiple of the interval.
pub fn component_first(
    number: u32,
    start: Moment,
    interval: Interval,
    skew: Moment,
    now: Moment,
) -> Moment
    requires { now < never }
    ensures { result ≡ first_on number (record { start = start; interval = interval }) skew now }
{
    let start = component_start(number, start, skew);
    When { start, interval }.first(now)
}
